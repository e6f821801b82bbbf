//! Scopes with macros.

use crate::again;
use crate::registrations::{closed, frame};
use puffin::global_profiler::GlobalProfiler;
use puffin::scope_details::ScopeIds;
use puffin::thread_profiler::{Closed, ScriptClock, ThreadProfiler};
use puffin::{Result, Site, Switch, profile_function, profile_scope};
use std::alloc::Global;
use std::sync::Wait;

type Thread = ThreadProfiler<ScriptClock>;

/// The switch, the ids and the places that the threads of a program share.
#[derive(Drop)]
struct Scopes {
    switch: Switch,
    ids: ScopeIds,
    load: Site,
    part: Site,
}

/// Makes a scope within the open one.
fn part(thread: &mut Thread, scopes: &Scopes) -> Result<()> {
    profile_scope!(
        guard,
        thread,
        scopes.switch,
        &scopes.ids,
        scopes.part,
        "load::part",
        "part",
        "text"
    );
    match guard.refusal() {
        Some(cause) => Err(cause),
        None => Ok(()),
    }
}

/// Makes a function's scope and one within it.
fn load(
    thread: &mut Thread,
    scopes: &Scopes,
    profiler: &mut GlobalProfiler,
) -> Result<Option<Closed>> {
    profile_function!(
        guard,
        thread,
        scopes.switch,
        &scopes.ids,
        scopes.load,
        "load"
    );
    if let Some(cause) = guard.refusal() {
        return Err(cause);
    }
    if part(guard.profiler(), scopes).is_err() {
        part(guard.profiler(), scopes)?;
    }
    guard.end(profiler)
}

/// Runs a function whose scopes are reported.
fn reported(thread: &mut Thread, scopes: &Scopes, profiler: &mut GlobalProfiler) -> Option<()> {
    let outcome = again!(load(thread, scopes, profiler))??;
    closed(outcome, thread, profiler)
}

/// Makes a thread profiler.
fn thread(alloc: Global) -> Option<Thread> {
    let name = again!(String::from_str(alloc, "main"))?;
    Some(ThreadProfiler::new(alloc, name, ScriptClock::new(100)))
}

/// Makes two places, with the switch on.
fn places() -> Scopes {
    let scopes = Scopes {
        switch: Switch::new(),
        ids: ScopeIds::new(),
        load: Site::new("crates/reader/src/load.rs", 30),
        part: Site::new("crates/reader/src/load.rs", 32),
    };
    scopes.switch.set_scopes_on(true);
    scopes
}

/// Runs a function twice on a thread, and takes a frame.
fn steps<R: Print + Wait>(
    rt: &R,
    scopes: &Scopes,
    profiler: &mut GlobalProfiler,
    thread: &mut Thread,
) -> Option<()> {
    reported(thread, scopes, profiler)?;
    reported(thread, scopes, profiler)?;
    frame(rt, profiler)
}

/// Makes scopes with macros on a thread that reports to a profiler.
pub(crate) fn run<R: Print + AllocGlobal + Wait>(rt: &R) -> Option<()> {
    let mut thread = thread(rt.alloc())?;
    let mut profiler = GlobalProfiler::new(rt.alloc());
    steps(rt, &places(), &mut profiler, &mut thread)
}
