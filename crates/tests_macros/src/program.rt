//! What the tests share.

use puffin::frame_data::FrameData;
use puffin::global_profiler::GlobalProfiler;
use puffin::scope_details::ScopeIds;
use puffin::thread_profiler::{ScriptClock, ThreadProfiler};
use puffin::{Result, Site, Switch};
use std::alloc::Global;
use std::cell::Cell;
use std::process::Abort;
use std::sync::Arc;
use tests_support::threads;

/// A thread called `main` whose clock stands at 100.
pub fn main_thread(alloc: Global) -> Result<ThreadProfiler<ScriptClock>> {
    threads::main_thread(alloc, 100)
}

/// The frame that is handed out now.
pub fn next_frame(rt: &impl Abort, profiler: &mut GlobalProfiler) -> Arc<FrameData> {
    profiler
        .collect_frame()
        .expect(rt, "a frame")
        .expect(rt, "a frame")
}

/// How many scopes a frame holds, in how many bytes, and of how many it tells for the first time.
pub fn counts(frame: &FrameData) -> (usize, usize, usize) {
    let meta = frame.meta();
    (meta.num_scopes, meta.num_bytes, frame.scope_delta.len())
}

/// What the threads of a program share: the switch, the ids, and a site for each place.
#[derive(Drop)]
pub struct Scopes {
    pub switch: Switch,
    pub ids: ScopeIds,
    pub here: Site,
    pub there: Site,
}

impl Scopes {
    /// The switch is on.
    pub fn on() -> Scopes {
        let scopes = Scopes {
            switch: Switch::default(),
            ids: ScopeIds::new(),
            here: Site::new(module_path!(), 7),
            there: Site::new(module_path!(), 8),
        };
        scopes.switch.set_scopes_on(true);
        scopes
    }
}

/// Counts how often it is asked, and agrees.
pub fn counted(asked: &Cell<u32>) -> bool {
    asked.set(asked.get().saturating_add(1));
    true
}
