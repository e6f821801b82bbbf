//! The details that frames list: new ones, or all that are known.

use crate::equal::equal;
use crate::global_profiler::{borrowed, emitted, holds, report, scope, thread};
use puffin::global_profiler::GlobalProfiler;
use puffin::scope_details::{ScopeDetails, ScopeIds};
use puffin::{Error, NanoSecond, Result};
use std::borrow::CowStr;
use std::process::Abort;
use std::sync::Wait;
use tests_support::frames::lists;
use tests_support::streams::id;

pub(crate) fn named(name: &'static str) -> ScopeDetails {
    ScopeDetails::from_scope_name(CowStr::Borrowed(name))
}

/// Reports one scope of the thread `a`, with details.
fn report_with(
    rt: &impl AllocGlobal,
    profiler: &mut GlobalProfiler,
    details: &[ScopeDetails],
    range_ns: (NanoSecond, NanoSecond),
) -> Result<()> {
    let info = scope(rt, 7, range_ns.0, range_ns.1)?;
    profiler.report(thread(rt, "a")?, details, &borrowed(&info))
}

/// Takes a frame. Checks which scopes it lists, and whether it says that it lists all that are known.
fn tells<R: Wait + Abort>(
    rt: &R,
    profiler: &mut GlobalProfiler,
    scopes: &[(u32, &str)],
    full_delta: bool,
) {
    let frame = emitted(rt, profiler);
    assert!(rt; lists(&frame, scopes));
    equal(rt, frame.full_delta, full_delta);
}

/// Checks that a report with these details is refused, since one has no id, and changes no total.
fn refuses<R: AllocGlobal + Abort>(
    rt: &R,
    profiler: &mut GlobalProfiler,
    details: &[ScopeDetails],
) {
    let before = profiler.totals();
    let cause = report_with(rt, profiler, details, (300, 400)).err();
    equal(rt, cause, Some(Error::MissingId));
    equal(rt, profiler.totals(), before);
}

/// Checks that a report with details that have no id is refused, alone and behind details with one, and that what was
/// reported before stays.
fn without_an_id<R: AllocGlobal + Wait + Abort>(rt: &R, profiler: &mut GlobalProfiler) {
    report(rt, profiler, "a", 1, (100, 200)).expect(rt, "a report");
    let alone = [named("x")];
    refuses(rt, profiler, &alone);
    let behind = [
        named("y").with_scope_id(id(2).expect(rt, "an id")),
        named("x"),
    ];
    refuses(rt, profiler, &behind);
    let frame = emitted(rt, profiler);
    holds(rt, &frame, "a", Some((31, 1)));
    assert!(rt; frame.scope_delta.is_empty());
}

#[test]
fn details_without_an_id_are_refused(rt: HostRuntime) {
    without_an_id(&rt, &mut GlobalProfiler::new(rt.alloc()));
}

/// Registers a scope of the caller's own, `u`, which gets the id 1. Checks that there is no frame, as no scope was
/// reported.
fn register_first<R: Wait + Abort>(rt: &R, profiler: &mut GlobalProfiler) {
    let drawn = profiler
        .register_user_scopes(&ScopeIds::new(), &[named("u")])
        .expect(rt, "the ids");
    equal(rt, drawn.as_slice(), [id(1).expect(rt, "an id")].as_slice());
    assert!(rt; profiler.new_frame(rt).expect(rt, "a frame").frame.is_none());
}

/// Reports one scope without details, and takes a frame. Checks which scopes it lists.
fn reported_and_told<R: AllocGlobal + Wait + Abort>(
    rt: &R,
    profiler: &mut GlobalProfiler,
    start: NanoSecond,
    scopes: &[(u32, &str)],
    full_delta: bool,
) {
    report(rt, profiler, "a", 1, (start, start.saturating_add(100))).expect(rt, "a report");
    tells(rt, profiler, scopes, full_delta);
}

/// Checks that the details of a registered scope are in the next frame, and in none after it.
fn told_once<R: AllocGlobal + Wait + Abort>(rt: &R, profiler: &mut GlobalProfiler) {
    register_first(rt, profiler);
    reported_and_told(rt, profiler, 100, &[(1, "u")], false);
    report(rt, profiler, "a", 1, (200, 300)).expect(rt, "a report");
    let frame = emitted(rt, profiler);
    equal(rt, frame.frame_index(), 2);
    assert!(rt; frame.scope_delta.is_empty());
}

#[test]
fn details_wait_for_the_next_frame(rt: HostRuntime) {
    told_once(&rt, &mut GlobalProfiler::new(rt.alloc()));
}

/// Reports one scope with new details, and takes a frame. Checks that it lists these before the ones that were known.
fn learnt_and_told<R: AllocGlobal + Wait + Abort>(rt: &R, profiler: &mut GlobalProfiler) {
    let details = [named("t").with_scope_id(id(7).expect(rt, "an id"))];
    report_with(rt, profiler, &details, (300, 400)).expect(rt, "a report");
    tells(rt, profiler, &[(7, "t"), (1, "u")], true);
}

/// Takes three snapshots. The first lists a scope that is both new and known, the second a new one and a known one, and
/// the third two known ones.
fn snapshots<R: AllocGlobal + Wait + Abort>(rt: &R, profiler: &mut GlobalProfiler) {
    profiler.emit_scope_snapshot();
    register_first(rt, profiler);
    reported_and_told(rt, profiler, 100, &[(1, "u"), (1, "u")], true);
    profiler.emit_scope_snapshot();
    learnt_and_told(rt, profiler);
    profiler.emit_scope_snapshot();
    reported_and_told(rt, profiler, 400, &[(1, "u"), (7, "t")], true);
}

#[test]
fn a_snapshot_comes_after_the_new_details(rt: HostRuntime) {
    snapshots(&rt, &mut GlobalProfiler::new(rt.alloc()));
}

#[test]
fn the_first_scopes_are_registered_where_ids_run_out(rt: HostRuntime) {
    let mut profiler = GlobalProfiler::new(rt.alloc());
    let ids = ScopeIds::starting_at(4_294_967_294);
    let refused = profiler.register_user_scopes(&ids, &[named("a"), named("b"), named("c")]);
    equal(&rt, refused.err(), Some(Error::IdsExhausted));
    let known = profiler
        .register_user_scopes(&ids, &[named("a"), named("b")])
        .expect(&rt, "the ids");
    equal(
        &rt,
        known.as_slice(),
        [
            id(4_294_967_294).expect(&rt, "an id"),
            id(4_294_967_295).expect(&rt, "an id"),
        ]
        .as_slice(),
    );
}
