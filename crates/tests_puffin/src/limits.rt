//! Limits of the bytes that scopes take.

use crate::equal::equal;
use crate::global_profiler::{emitted, holds, report};
use puffin::global_profiler::{Collector, GlobalProfiler};
use puffin::light::{
    Frames, Outcome, Place, Program, Records, Scopes, Settings, Thread, ThreadCounts, run_threads,
};
use puffin::thread_profiler::NsSource;
use puffin::{Error, place, profile};
use std::alloc::Global;
use std::io;
use std::process::Abort;
use std::sync::Wait;

/// Checks that of three scopes of 31 bytes the third is refused.
fn takes_two<R: puffin::thread_profiler::Reporter>(
    rt: &(impl AllocGlobal + Abort),
    reporter: &mut R,
) {
    for name in &["a", "b"] {
        report(rt, reporter, name, 1, (100, 200)).expect(rt, "a report");
    }
    for name in &["a", "c"] {
        equal(
            rt,
            report(rt, reporter, name, 1, (200, 300)),
            Err(Error::Memory),
        );
    }
}

#[test]
fn a_report_above_the_limit_is_refused(rt: HostRuntime) {
    let mut collector = Collector::new(rt.alloc(), 0);
    collector.set_max_pending(2 * 31);
    takes_two(&rt, &mut collector);
    equal(&rt, collector.totals().reported, 2);
}

#[test]
fn a_report_is_taken_where_nothing_is_pending(rt: HostRuntime) {
    let mut collector = Collector::new(rt.alloc(), 0);
    collector.set_max_pending(0);
    report(&rt, &mut collector, "a", 1, (100, 200)).expect(&rt, "a report");
    equal(
        &rt,
        report(&rt, &mut collector, "a", 1, (200, 300)),
        Err(Error::Memory),
    );
    equal(&rt, collector.totals().reported, 1);
}

#[test]
fn after_a_frame_there_is_room_again(rt: HostRuntime) {
    let mut profiler = GlobalProfiler::new(rt.alloc());
    profiler.set_max_pending(2 * 31 + 30);
    takes_two(&rt, &mut profiler);
    let frame = emitted(&rt, &mut profiler);
    for name in &["a", "b"] {
        holds(&rt, &frame, name, Some((31, 1)));
    }
    takes_two(&rt, &mut profiler);
}

/// Registers a place in new scopes.
fn registered(alloc: Global) -> puffin::Result<(Scopes, Place)> {
    let mut scopes = Scopes::new(alloc)?;
    let step = place!(scopes, "step")?;
    Ok((scopes, step))
}

/// Makes a scope with a child, which has a child too.
fn three_deep<T: Records>(thread: &mut T, step: Place) {
    profile!(outer, thread, step);
    profile!(inner, outer, step);
    profile!(_third, inner, step);
}

#[test]
fn a_scope_above_a_thread_s_limit_is_counted(rt: HostRuntime) {
    let (scopes, step) = registered(rt.alloc()).expect(&rt, "a place");
    let mut thread = Thread::start(rt, "main", GlobalProfiler::new(rt.alloc()), &scopes).expect(
        &rt, "a thread",
    );
    thread.set_max_bytes(200);
    three_deep(&mut thread, step);
    equal(&rt, thread.num_refused(), 1);
    equal(&rt, thread.reporter().totals().reported, 2);
}

/// Opens so many scopes, one after the other.
fn steps<T: Records>(thread: &mut T, step: &Place, times: usize) {
    for _ in 0..times {
        profile!(_step, thread, *step);
    }
}

/// How many scopes of a thread are pending, and how many wait with it.
fn held<C: NsSource>(thread: &mut Thread<C, GlobalProfiler>) -> (u64, usize) {
    (thread.reporter().totals().pending, thread.num_closed())
}

#[test]
fn a_thread_that_has_met_a_limit_records_again(rt: HostRuntime) {
    let (scopes, step) = registered(rt.alloc()).expect(&rt, "a place");
    let mut thread = Thread::start(rt, "main", GlobalProfiler::new(rt.alloc()), &scopes).expect(
        &rt, "a thread",
    );
    thread.set_max_bytes(20 * 31);
    thread.reporter().set_max_pending(500);
    // 16 are pending, 15 wait, and the others are refused.
    steps(&mut thread, &step, 100);
    equal(&rt, held(&mut thread), (16, 15));
    equal(&rt, thread.num_refused(), 69);
    let first = thread.new_frame(&rt).expect(&rt, "a frame").frame.is_some();
    // What waits is reported before the next scope begins.
    steps(&mut thread, &step, 1);
    equal(&rt, held(&mut thread), (16, 0));
    let second = thread.new_frame(&rt).expect(&rt, "a frame").frame.is_some();
    equal(&rt, (first, second), (true, true));
    equal(&rt, (thread.num_refused(), thread.num_open()), (69, 0));
}

/// A thread that begins a thousand scopes, one after the other, and a leader that takes no frame.
#[derive(Drop)]
struct Untaken {
    step: Place,
}

impl Program for Untaken {
    fn work<R: Wait, T: Records>(&self, _rt: &R, _number: usize, thread: &mut T) -> io::Result<()> {
        for _ in 0..1_000 {
            profile!(_step, thread, self.step);
        }
        Ok(())
    }

    fn lead<R: Wait, T: Records, F: Frames>(&self, _rt: &R, _thread: &mut T, _frames: &mut F) {}
}

#[test]
fn a_run_whose_frames_nobody_takes_stays_below_its_limits(rt: HostRuntime) {
    let (scopes, step) = registered(rt.alloc()).expect(&rt, "a place");
    let untaken = Untaken { step };
    let settings = Settings {
        max_thread_bytes: 20 * 31,
        max_pending_bytes: 100 * 31,
        ..Settings::default()
    };
    let outcome = run_threads(rt, &["a"], &scopes, &settings, &untaken).expect(&rt, "the program");
    let Outcome { threads, .. } = &outcome;
    let counts = threads.first().copied();
    equal(
        &rt,
        counts,
        Some(ThreadCounts {
            reported: 100,
            unreported: 15,
            refused: 885,
            left_open: 0,
        }),
    );
}
