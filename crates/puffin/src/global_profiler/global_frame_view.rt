//! A view of a shared profiler's frames.
//!
//! The clause `requires boxed_sinks { ⊤ }` asks nothing; the head of the module above says why it is there.
ghost use Rattle.std.specs.Prelude.{◌≡◌, IfErr, ⊤};
ghost use Rattle.puffin.specs.Reporters.{sink_id_of};
ghost use Rattle.puffin.specs.SharedCauses.{IsSinkCause};

use crate::global_profiler::shared_profiler::SharedProfiler;
use crate::global_profiler::sink::{FrameSinkId, Sink};
use history::History;
use puffin_data::{Error, Result};
use puffin_view::profile_view::FrameView;
use std::alloc::Global;
use std::sync::ledger::Ledger;
use std::sync::{Arc, Mutex, MutexGuard, Wait};

/// A view that is a sink of a shared profiler. It gets each frame that the profiler hands to its sinks after the view was
/// attached.
#[derive(Drop)]
pub struct GlobalFrameView {
    view: Arc<Mutex<FrameView>>,
    sink_id: FrameSinkId,
}

impl GlobalFrameView {
    /// Adds a new view to the profiler's sinks, and makes the next frame list every known scope, so that the view gets the
    /// details of those too. Takes the profiler's lock once for both.
    ///
    /// Fails with `SinkIdsExhausted` or `Memory`; nothing changes then.
    ///
    /// ```
    /// let view = GlobalFrameView::attach(&rt, alloc, &profiler)?;
    /// view.lock(&rt).set_max_recent(200);
    /// ```
    pub fn attach<L: Ledger + History, M: Ledger>(
        rt: &impl Wait,
        alloc: Global,
        profiler: &SharedProfiler<L, M>,
    ) -> Result<GlobalFrameView>
        requires boxed_sinks { ⊤ }
        ensures cause { IfErr result IsSinkCause }
    {
        let Ok(view) = Arc::new(alloc, Mutex::new(FrameView::new(alloc))) else {
            return Err(Error::Memory);
        };
        let sink = Sink::View(Arc::try_clone(&view)?);
        let mut booked = profiler.lock(rt);
        match booked.add_sink(sink) {
            Ok(sink_id) => {
                booked.emit_scope_snapshot();
                Ok(GlobalFrameView { view, sink_id })
            }
            Err((error, _sink)) => Err(error),
        }
    }

    /// Removes the view from the profiler's sinks, and returns whether it was there. Pass the profiler that the view was
    /// attached to: from another one, this would remove the sink with the same number.
    pub fn detach<L: Ledger + History, M: Ledger>(
        self,
        rt: &impl Wait,
        profiler: &SharedProfiler<L, M>,
    ) -> bool
        requires boxed_sinks { ⊤ }
    {
        profiler.remove_sink(rt, self.sink_id).is_some()
    }

    /// Returns the view's number among the profiler's sinks.
    pub fn sink_id(&self) -> FrameSinkId
        ensures { result ≡ sink_id_of self.now }
    {
        self.sink_id
    }

    /// Waits for the view's lock, and lends the view until the guard is dropped. Until then, `new_frame` and `add_frame` wait
    /// with the profiler's lock held, so threads that report wait too: drop the guard before you call either.
    pub fn lock(&self, rt: &impl Wait) -> MutexGuard<'_, FrameView> {
        self.view.lock(rt)
    }
}
