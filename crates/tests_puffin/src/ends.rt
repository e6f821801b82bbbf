//! How a leader learns that the threads of its program have ended.

use crate::equal::equal;
use puffin::light::{Frames, Place, Program, Records, Scopes, Settings, run_threads};
use puffin::{place, profile};
use std::io;
use std::process::Abort;
use std::rt::Clock;
use std::sync::atomic::{AtomicUsize, Ordering};
use std::sync::{Barrier, Wait};
use std::thread::Threads;
use std::time::Duration;

/// A program whose first thread makes a scope with many others in it, and whose second thread fails at once.
#[derive(Drop)]
struct Failing {
    step: Place,
    every: Duration,
}

impl Program for Failing {
    fn work<R: Wait, T: Records>(&self, _rt: &R, number: usize, thread: &mut T) -> io::Result<()> {
        if number == 1 {
            return Err(io::Error::from(io::ErrorKind::TimedOut));
        }
        profile!(whole, thread, self.step);
        for _ in 0..20_000 {
            profile!(_step, whole, self.step);
        }
        Ok(())
    }

    fn lead<R: Wait, T: Records, F: Frames>(&self, rt: &R, _thread: &mut T, frames: &mut F) {
        let _last = frames.take_until_ended(rt, self.every);
    }
}

/// Runs the failing program with a frame each time that this much time has passed. Checks that all scopes are in frames.
fn fails_at_once<R: AllocGlobal + Clock + Threads + Wait + Abort + Copy + Send + Sync + Drop>(
    rt: R,
    every: Duration,
) {
    let mut scopes = Scopes::new(rt.alloc()).expect(&rt, "scopes");
    let step = place!(scopes, "step").expect(&rt, "a place");
    let failing = Failing { step, every };
    let outcome = run_threads(rt, &["a", "b"], &scopes, &Settings::default(), &failing).expect(
        &rt,
        "the threads",
    );
    let failed = outcome.failed.expect(&rt, "a failure");
    equal(
        &rt,
        (failed.number, failed.error.kind()),
        (1, io::ErrorKind::TimedOut),
    );
    let settled = outcome.settled;
    equal(
        &rt,
        (settled.reported, settled.handed, settled.pending),
        (20_001, 20_001, 0),
    );
}

#[test]
fn a_thread_that_fails_at_once_doesn_t_hold_up_the_leader(rt: HostRuntime) {
    fails_at_once(rt, Duration::from_secs(3_600));
}

#[test]
fn frames_are_taken_while_threads_work_and_after_the_last(rt: HostRuntime) {
    fails_at_once(rt, Duration::from_micros(10));
}

/// A program whose leader meets its two threads before they end, and counts those that work before and after.
#[derive(Drop)]
struct Meeting {
    met: Barrier,
    before: AtomicUsize,
    after: AtomicUsize,
}

impl Program for Meeting {
    fn work<R: Wait, T: Records>(&self, rt: &R, _number: usize, _thread: &mut T) -> io::Result<()> {
        self.met.wait(rt);
        Ok(())
    }

    fn lead<R: Wait, T: Records, F: Frames>(&self, rt: &R, _thread: &mut T, frames: &mut F) {
        if frames.wait(Duration::from_millis(1)) {
            self.before.store(frames.num_working(), Ordering::SeqCst);
        }
        self.met.wait(rt);
        if !frames.wait(Duration::from_secs(3_600)) {
            self.after.store(frames.num_working(), Ordering::SeqCst);
        }
    }
}

#[test]
fn a_leader_is_told_how_many_threads_work(rt: HostRuntime) {
    let scopes = Scopes::new(rt.alloc()).expect(&rt, "scopes");
    let meeting = Meeting {
        met: Barrier::new(3),
        before: AtomicUsize::new(100),
        after: AtomicUsize::new(100),
    };
    let outcome = run_threads(rt, &["a", "b"], &scopes, &Settings::default(), &meeting).expect(
        &rt,
        "the threads",
    );
    equal(&rt, outcome.failed.is_none(), true);
    let working = (
        meeting.before.load(Ordering::SeqCst),
        meeting.after.load(Ordering::SeqCst),
    );
    equal(&rt, working, (2, 0));
}
