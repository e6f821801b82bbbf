//! What the sinks of a profiler behind the lock are handed, where one of them refuses frames.

ghost use Rattle.std.specs.Prelude.{◌≡◌};

use crate::equal::equal;
use crate::shares::{one_scope, opened};
use puffin::frame_data::{FrameData, FrameIndex};
use puffin::global_profiler::{
    Event, FrameSink, GlobalProfiler, History, NewLog, Share, SharedProfiler, Sink,
};
use puffin::profile_view::FrameView;
use puffin::{Error, Result};
use std::alloc::Global;
use std::marker::Brand;
use std::process::Abort;
use std::sync::ledger::{Blank, Ledger};
use std::sync::{Arc, Mutex, Wait};
use tests_support::frames::{packet_frame, packet_thread};

/// Refuses each frame with an odd index.
#[derive(Drop)]
struct RefusesOdd;

impl FrameSink for RefusesOdd {
    ghost accepts = { λ _ _ _ _. Unit {0} };

    fn accept(&mut self, frame: Arc<FrameData>) -> Result<()> {
        if frame.frame_index() % 2 == 1 {
            return Err(Error::NoThread);
        }
        Ok(())
    }
}

/// Reports a scope, and takes its frame, which so many sinks refuse.
fn taken<L: Ledger + History, M: Ledger, R: Wait + Abort>(
    rt: &R,
    alloc: Global,
    profiler: &SharedProfiler<L, M>,
    share: &mut Share<L, M>,
    refused: usize,
) {
    let info = one_scope(alloc).expect(rt, "a scope");
    let thread = packet_thread(alloc).expect(rt, "memory");
    profiler
        .report(rt, share, thread, &[], &info.as_stream_into_ref())
        .expect(rt, "a report");
    let emitted = profiler.new_frame(rt, share).expect(rt, "a frame");
    assert!(rt; emitted.frame.is_some());
    equal(rt, emitted.refused, refused);
}

/// Adds a frame with this index, which so many sinks refuse.
fn added<L: Ledger + History, M: Ledger, R: Wait + Abort>(
    rt: &R,
    alloc: Global,
    profiler: &SharedProfiler<L, M>,
    index: FrameIndex,
    refused: usize,
) {
    let frame = packet_frame(alloc, index).expect(rt, "a frame");
    let frame = Arc::new(alloc, frame).expect(rt, "memory");
    equal(
        rt,
        profiler.add_frame(rt, frame).expect(rt, "no fault"),
        refused,
    );
}

/// Frames 0 and 1 are taken and 3 is added, of which the first sink refuses the odd ones; 5 is added once it is removed.
fn are_handed_on<L: Ledger + History, M: Ledger, R: Wait + Abort>(
    rt: &R,
    alloc: Global,
    profiler: &SharedProfiler<L, M>,
    share: &mut Share<L, M>,
    refusing: Sink,
    viewing: Sink,
) {
    let refusing = profiler.add_sink(rt, refusing).ok().expect(rt, "a sink");
    let viewing = profiler.add_sink(rt, viewing).ok().expect(rt, "a sink");
    taken(rt, alloc, profiler, share, 0);
    taken(rt, alloc, profiler, share, 1);
    added(rt, alloc, profiler, 3, 1);
    assert!(rt; profiler.remove_sink(rt, refusing).is_some());
    assert!(rt; profiler.remove_sink(rt, refusing).is_none());
    added(rt, alloc, profiler, 5, 0);
    assert!(rt; profiler.remove_sink(rt, viewing).is_some());
    let totals = profiler.totals(rt, share);
    equal(rt, (totals.reported, totals.emitted), (2, 2));
}

/// The view has just these frames, in this order.
fn has<R: Wait + Abort>(rt: &R, view: &Mutex<FrameView>, indices: &[FrameIndex]) {
    let lent = view.lock(rt);
    let mut left = indices.iter();
    for frame in lent.recent_frames() {
        equal(rt, left.next(), Some(&frame.frame_index()));
    }
    equal(rt, left.next(), None);
}

/// Both sinks are added to a new profiler. The second one gets each frame, also those that the first refuses.
fn handed_on<L: Ledger + History, M: Ledger, R: Wait + Abort>(
    rt: &R,
    alloc: Global,
    refusing: Sink,
    reported: Blank,
    handed: Blank,
    log: NewLog<Event>,
)
    requires reported { (reported.name ≡ L.name)
        × (reported.parts ≡ L.parts)
        × (reported.parts ≡ 1) }
    requires handed { (handed.name ≡ M.name) × (handed.parts ≡ M.parts) × (handed.parts ≡ 1) }
    requires log { log.name ≡ L.history }
{
    let view = Arc::new(alloc, Mutex::new(FrameView::new(alloc))).expect(rt, "memory");
    let viewing = Sink::View(Arc::try_clone(&view).expect(rt, "memory"));
    let none = GlobalProfiler::new(alloc);
    let (profiler, mut share, _) = opened::<L, M>(rt, alloc, none, 1, reported, handed, log);
    are_handed_on(rt, alloc, &profiler, &mut share, refusing, viewing);
    has(rt, &view, &[0, 1, 3, 5]);
}

#[test]
fn a_sink_that_refuses_is_counted_and_the_next_is_called(rt: HostRuntime) {
    let alloc = rt.alloc();
    let refusing: Box<dyn FrameSink + Send> = Box::new(alloc, RefusesOdd).expect(&rt, "memory");
    handed_on::<Brand, Brand, HostRuntime>(
        &rt,
        alloc,
        Sink::Boxed(refusing),
        Blank::new(1),
        Blank::new(1),
        NewLog::new(),
    );
}
