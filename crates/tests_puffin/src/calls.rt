//! What callers hand to a profiler: details to learn, a frame, and sinks that are returned.

use crate::details::named;
use crate::equal::equal;
use crate::global_profiler::report;
use crate::sinks::added;
use puffin::global_profiler::{Collector, FrameSinkId, GlobalProfiler, Sink};
use puffin::profile_view::FrameView;
use std::process::Abort;
use std::sync::{Arc, Mutex, Wait};
use tests_support::frames::packet_frame;
use tests_support::streams::id;

/// Adds the details of a scope to those that are known. Checks that a snapshot lists them.
fn learns(rt: &(impl AllocGlobal + Abort), collector: &mut Collector) {
    let id = id(7).expect(rt, "an id");
    let mut details = Vec::new(rt.alloc());
    details
        .push(Arc::new(rt.alloc(), named("t").with_scope_id(id)).expect(rt, "memory"))
        .expect(rt, "memory");
    collector.learn(&details).expect(rt, "details");
    collector.emit_scope_snapshot();
    report(rt, collector, "a", 7, (100, 200)).expect(rt, "a report");
    let frame = collector
        .collect_frame()
        .expect(rt, "a frame")
        .expect(rt, "a frame");
    let told = frame.scope_delta.first().map(|details| details.scope_id());
    equal(rt, (frame.scope_delta.len(), told), (1, Some(Some(id))));
}

#[test]
fn details_that_were_learnt_are_told(rt: HostRuntime) {
    learns(&rt, &mut Collector::new(rt.alloc(), 0));
}

/// Adds a view that keeps `limit` recent frames. The test tells views apart by this limit.
fn add_view(
    rt: &(impl AllocGlobal + Abort),
    profiler: &mut GlobalProfiler,
    limit: usize,
) -> FrameSinkId {
    let mut view = FrameView::new(rt.alloc());
    view.set_max_recent(limit);
    let view = Arc::new(rt.alloc(), Mutex::new(view)).expect(rt, "memory");
    added(rt, profiler, Sink::View(view))
}

/// Removes a view, and returns its limit, or `None` if there is no view with this number.
fn removed<R: Wait>(rt: &R, profiler: &mut GlobalProfiler, id: FrameSinkId) -> Option<usize> {
    match profiler.remove_sink(id) {
        Some(Sink::View(view)) => Some(view.lock(rt).max_recent()),
        _ => None,
    }
}

/// Checks that views are numbered from 1 on, that removing the second returns it, once, and that its number isn't given
/// again.
fn comes_back<R: AllocGlobal + Wait + Abort>(rt: &R, profiler: &mut GlobalProfiler) {
    let first = add_view(rt, profiler, 1);
    let second = add_view(rt, profiler, 2);
    let third = add_view(rt, profiler, 3);
    equal(rt, [first.get(), second.get(), third.get()], [1, 2, 3]);
    for limit in &[Some(2), None] {
        equal(rt, removed(rt, profiler, second), *limit);
    }
    equal(rt, add_view(rt, profiler, 4).get(), 4);
}

#[test]
fn the_sink_that_was_added_comes_back(rt: HostRuntime) {
    comes_back(&rt, &mut GlobalProfiler::new(rt.alloc()));
}

/// Adds a frame to a profiler without sinks. Checks that no sink refuses it.
fn is_taken<R: AllocGlobal + Wait + Abort>(rt: &R, profiler: &mut GlobalProfiler) {
    let frame = Arc::new(
        rt.alloc(),
        packet_frame(rt.alloc(), 0).expect(rt, "a frame"),
    )
    .expect(rt, "memory");
    equal(rt, profiler.add_frame(rt, frame).expect(rt, "a frame"), 0);
}

#[test]
fn a_frame_is_refused_by_no_sink(rt: HostRuntime) {
    is_taken(&rt, &mut GlobalProfiler::new(rt.alloc()));
}
