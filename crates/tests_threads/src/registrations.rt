use crate::equal::equal;
use crate::rig::{Recorder, Rig};
use puffin_data::data::ScopeId;
use puffin_data::{Error, Result};
use puffin_threads::scope_details::ScopeIds;
use puffin_threads::thread_profiler::{Closed, ScriptClock, ThreadProfiler};
use std::borrow::CowStr;
use std::process::Abort;

/// Registers the function `f` at line 7 of `b.rs`, and its part `part` at line 9.
fn register_two(
    thread: &mut ThreadProfiler<ScriptClock>,
    ids: &ScopeIds,
) -> Result<(ScopeId, ScopeId)> {
    let text = CowStr::Borrowed("f");
    let file = CowStr::Borrowed("b.rs");
    let function = thread.register_function_scope(ids, text.clone()?, file.clone()?, 7)?;
    let part = thread.register_named_scope(ids, CowStr::Borrowed("part"), text, file, 9)?;
    Ok((function, part))
}

/// Registered details have this id, and this name, function and place.
fn is_registered(
    rt: &impl Abort,
    recorder: &Recorder,
    place: usize,
    number: u32,
    texts: (&str, &str, &str),
) {
    let details = recorder.details.get(place).expect(rt, "details");
    equal(rt, details.scope_id(), ScopeId::new(number));
    equal(rt, details.name().as_str(), texts.0);
    equal(rt, details.function_name.as_str(), texts.1);
    equal(
        rt,
        details
            .location(recorder.alloc)
            .expect(rt, "a text")
            .as_str(),
        texts.2,
    );
}

/// Two details are registered, and kept back with a refused report.
fn are_kept(rt: &impl Abort, rig: &mut Rig) {
    let (function, part) = register_two(&mut rig.thread, &ScopeIds::starting_at(5)).expect(
        rt, "two ids",
    );
    equal(rt, (function.get(), part.get()), (5, 6));
    rig.begins(rt, (5, ""), 14);
    rig.ends(rt, 14, Ok(Closed::Kept(Error::TooLarge)));
    rig.has(rt, (0, 0, 0));
}

/// They are handed over with the next report, and don't come again.
fn come_once(rt: &impl Abort, rig: &mut Rig) {
    rig.reports(rt, Ok(true));
    rig.has(rt, (0, 1, 2));
    is_registered(rt, &rig.recorder, 0, 5, ("f", "f", "b.rs:7"));
    is_registered(rt, &rig.recorder, 1, 6, ("part", "f", "b.rs:9"));
    rig.begins(rt, (5, ""), 14);
    rig.ends(rt, 14, Ok(Closed::Reported));
    rig.has(rt, (0, 2, 2));
}

#[test]
fn details_come_with_the_next_accepted_report(rt: HostRuntime) {
    let mut rig = Rig::new(rt.alloc(), 100, 1).expect(&rt, "memory");
    are_kept(&rt, &mut rig);
    come_once(&rt, &mut rig);
}

/// Scopes that are given up: none while one is open, then so many.
fn gives_up(rt: &impl Abort, rig: &mut Rig) {
    rig.begins(rt, (6, ""), 45);
    equal(rt, rig.thread.discard_closed(), Err(Error::ScopesOpen));
    rig.ends(rt, 45, Ok(Closed::Kept(Error::TooLarge)));
    equal(rt, rig.thread.discard_closed(), Ok(2));
    equal(rt, rig.thread.discard_closed(), Ok(0));
    rig.reports(rt, Ok(false));
    rig.has(rt, (0, 0, 0));
}

/// One scope is reported, with the details that were registered before.
fn comes_alone(rt: &impl Abort, rig: &mut Rig) {
    rig.set(200);
    rig.begins(rt, (5, ""), 14);
    rig.ends(rt, 14, Ok(Closed::Reported));
    rig.has(rt, (0, 1, 2));
    let (info, times) = rig.recorder.at(0).expect(rt, "a report");
    equal(rt, (info.start_time_ns, times.num_scopes), (Some(100), 1));
    is_registered(rt, &rig.recorder, 1, 6, ("part", "f", "b.rs:9"));
}

#[test]
fn details_outlast_scopes_that_are_given_up(rt: HostRuntime) {
    let mut rig = Rig::new(rt.alloc(), 100, 2).expect(&rt, "memory");
    are_kept(&rt, &mut rig);
    gives_up(&rt, &mut rig);
    comes_alone(&rt, &mut rig);
}

/// Why two registrations with an exhausted counter are refused.
fn refused_registrations(
    thread: &mut ThreadProfiler<ScriptClock>,
) -> Result<(Option<Error>, Option<Error>)> {
    let ids = ScopeIds::starting_at(4294967296);
    let text = CowStr::Borrowed("f");
    let function = thread.register_function_scope(&ids, text.clone()?, text.clone()?, 0);
    let part = thread.register_named_scope(&ids, text.clone()?, text.clone()?, text, 0);
    Ok((function.err(), part.err()))
}

#[test]
fn nothing_is_registered_without_an_id(rt: HostRuntime) {
    let mut rig = Rig::new(rt.alloc(), 100, 0).expect(&rt, "memory");
    equal(
        &rt,
        refused_registrations(&mut rig.thread).expect(&rt, "memory"),
        (Some(Error::IdsExhausted), Some(Error::IdsExhausted)),
    );
    rig.begins(&rt, (1, ""), 14);
    rig.ends(&rt, 14, Ok(Closed::Reported));
    rig.has(&rt, (0, 1, 0));
}
