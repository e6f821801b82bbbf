//! A program's own functions with scopes, in a short program.

use crate::equal::equal;
use crate::program::{counts, main_thread, next_frame};
use puffin::global_profiler::GlobalProfiler;
use puffin::scope_details::ScopeIds;
use puffin::thread_profiler::{NsSource, ScriptClock, ThreadProfiler};
use puffin::{Result, Site, Switch, profile_function, profile_scope};
use std::process::Abort;

/// What the threads of the program share.
#[derive(Drop)]
struct Scopes {
    switch: Switch,
    ids: ScopeIds,
    load: Site,
    count: Site,
}

impl Scopes {
    fn new() -> Scopes {
        Scopes {
            switch: Switch::new(),
            ids: ScopeIds::new(),
            load: Site::new("src/load.rs", 30),
            count: Site::new("src/load.rs", 32),
        }
    }
}

/// How many words a file has.
fn load<C: NsSource>(thread: &mut ThreadProfiler<C>, scopes: &Scopes, file: &str) -> usize {
    profile_function!(
        guard,
        thread,
        scopes.switch,
        &scopes.ids,
        scopes.load,
        "load"
    );
    let profiler = guard.profiler();
    profile_scope!(
        part,
        profiler,
        scopes.switch,
        &scopes.ids,
        scopes.count,
        "load",
        "count"
    );
    file.split(' ').count()
}

/// Loads a file. Whether there was something to report.
fn reports(
    rt: &impl Abort,
    thread: &mut ThreadProfiler<ScriptClock>,
    scopes: &Scopes,
    profiler: &mut GlobalProfiler,
) -> Result<bool> {
    equal(rt, load(thread, scopes, "of three words"), 3);
    thread.report_closed(profiler)
}

/// Takes a frame. Checks that it has this index and both scopes, and how many scopes it lists.
fn has_both(rt: &impl Abort, profiler: &mut GlobalProfiler, index: u64, told: usize) {
    let frame = next_frame(rt, profiler);
    equal(rt, frame.frame_index(), index);
    equal(rt, counts(&frame), (2, 62, told));
}

/// Loads a file while the switch is off, and then twice while it is on, each time with a frame of its own.
fn loads(
    rt: &impl Abort,
    thread: &mut ThreadProfiler<ScriptClock>,
    scopes: &Scopes,
    profiler: &mut GlobalProfiler,
) {
    equal(rt, reports(rt, thread, scopes, profiler), Ok(false));
    scopes.switch.set_scopes_on(true);
    for (index, told) in &[(0, 2), (1, 0)] {
        equal(rt, reports(rt, thread, scopes, profiler), Ok(true));
        has_both(rt, profiler, *index, *told);
    }
}

#[test]
fn a_function_and_a_scope_in_it(rt: HostRuntime) {
    let mut profiler = GlobalProfiler::new(rt.alloc());
    let mut thread = main_thread(rt.alloc()).expect(&rt, "memory");
    loads(&rt, &mut thread, &Scopes::new(), &mut profiler);
}
