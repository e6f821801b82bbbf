use crate::equal::equal;
use crate::program::{counts, main_thread, next_frame};
use puffin::global_profiler::GlobalProfiler;
use puffin::thread_profiler::{Closed, ScriptClock, ThreadProfiler};
use puffin::{Error, ProfilerScope};
use std::process::Abort;
use tests_support::streams::id;

type Thread = ThreadProfiler<ScriptClock>;

/// A scope whose guard is dropped.
fn dropped(rt: &impl Abort, thread: &mut Thread, profiler: &mut GlobalProfiler) {
    {
        let guard = ProfilerScope::new(thread, id(1).expect(rt, "an id"), "").expect(rt, "memory");
        equal(rt, guard.offset(), Some(14));
        equal(rt, guard.refusal(), None);
    }
    equal(rt, thread.depth(), 0);
    equal(rt, profiler.totals().reported, 0);
    equal(rt, thread.report_closed(profiler), Ok(true));
    equal(rt, thread.report_closed(profiler), Ok(false));
    let frame = next_frame(rt, profiler);
    equal(rt, counts(&frame), (1, 31, 0));
}

#[test]
fn the_scope_of_a_dropped_guard_waits(rt: HostRuntime) {
    let mut thread = main_thread(rt.alloc()).expect(&rt, "memory");
    dropped(&rt, &mut thread, &mut GlobalProfiler::new(rt.alloc()));
}

/// A scope whose guard is ended.
fn ended(rt: &impl Abort, thread: &mut Thread, profiler: &mut GlobalProfiler) {
    let guard = ProfilerScope::open(thread, id(1), "text");
    equal(rt, guard.end(profiler), Ok(Some(Closed::Reported)));
    equal(rt, thread.report_closed(profiler), Ok(false));
    equal(rt, profiler.totals().pending, 1);
}

#[test]
fn an_ended_guard_reports(rt: HostRuntime) {
    let mut thread = main_thread(rt.alloc()).expect(&rt, "memory");
    ended(&rt, &mut thread, &mut GlobalProfiler::new(rt.alloc()));
}

/// A guard is dropped while a scope in it is open.
fn outer_dropped(rt: &impl Abort, thread: &mut Thread, profiler: &mut GlobalProfiler) {
    {
        let mut guard = ProfilerScope::new(thread, id(1).expect(rt, "an id"), "").expect(
            rt, "memory",
        );
        equal(
            rt,
            guard.profiler().begin_scope(id(2).expect(rt, "an id"), ""),
            Ok(36),
        );
    }
    equal(rt, thread.depth(), 2);
    equal(rt, thread.report_closed(profiler), Err(Error::ScopesOpen));
}

#[test]
fn an_outer_guard_leaves_an_open_scope(rt: HostRuntime) {
    let mut thread = main_thread(rt.alloc()).expect(&rt, "memory");
    outer_dropped(&rt, &mut thread, &mut GlobalProfiler::new(rt.alloc()));
}

/// A guard is ended while a scope in it is open.
fn outer_ended(rt: &impl Abort, thread: &mut Thread, profiler: &mut GlobalProfiler) {
    let mut guard = ProfilerScope::new(thread, id(1).expect(rt, "an id"), "").expect(rt, "memory");
    let inner = guard
        .profiler()
        .begin_scope(id(2).expect(rt, "an id"), "")
        .expect(rt, "a scope");
    equal(rt, guard.end(profiler), Err(Error::MismatchedEnd));
    equal(rt, thread.depth(), 2);
    equal(rt, thread.end_scope(inner, profiler), Ok(Closed::Inner));
    equal(rt, thread.end_scope(14, profiler), Ok(Closed::Reported));
}

#[test]
fn an_outer_guard_can_t_be_ended_first(rt: HostRuntime) {
    let mut thread = main_thread(rt.alloc()).expect(&rt, "memory");
    outer_ended(&rt, &mut thread, &mut GlobalProfiler::new(rt.alloc()));
}

/// A guard's scope is ended by hand.
fn ended_within(rt: &impl Abort, thread: &mut Thread, profiler: &mut GlobalProfiler) {
    {
        let mut outer = ProfilerScope::new(thread, id(1).expect(rt, "an id"), "").expect(
            rt, "memory",
        );
        let mut guard = ProfilerScope::new(outer.profiler(), id(2).expect(rt, "an id"), "").expect(
            rt, "memory",
        );
        equal(
            rt,
            guard.profiler().end_scope(36, profiler),
            Ok(Closed::Inner),
        );
        equal(rt, guard.end(profiler), Err(Error::MismatchedEnd));
        equal(rt, outer.profiler().depth(), 1);
    }
    equal(rt, thread.depth(), 0);
}

#[test]
fn a_guard_whose_scope_was_ended_within_ends_nothing(rt: HostRuntime) {
    let mut thread = main_thread(rt.alloc()).expect(&rt, "memory");
    ended_within(&rt, &mut thread, &mut GlobalProfiler::new(rt.alloc()));
}

/// Scopes three deep.
fn nested(rt: &impl Abort, thread: &mut Thread, profiler: &mut GlobalProfiler) {
    let mut outer = ProfilerScope::open(thread, id(1), "");
    for offset in &[36, 67] {
        let mut middle = ProfilerScope::open(outer.profiler(), id(2), "");
        equal(rt, middle.offset(), Some(*offset));
        equal(rt, middle.profiler().depth(), 2);
        if *offset == 67 {
            let inner = ProfilerScope::open(middle.profiler(), id(3), "");
            equal(rt, inner.end(profiler), Ok(Some(Closed::Inner)));
            equal(rt, middle.profiler().depth(), 2);
        }
    }
    equal(rt, outer.profiler().depth(), 1);
    equal(rt, outer.end(profiler), Ok(Some(Closed::Reported)));
    let frame = next_frame(rt, profiler);
    equal(rt, counts(&frame), (4, 124, 0));
}

#[test]
fn guards_within_guards(rt: HostRuntime) {
    let mut thread = main_thread(rt.alloc()).expect(&rt, "memory");
    nested(&rt, &mut thread, &mut GlobalProfiler::new(rt.alloc()));
}
