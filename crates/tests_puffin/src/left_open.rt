//! Scopes that are open when a thread's work returns.

use crate::equal::equal;
use puffin::light::{
    Frames, Place, Pool, Program, Records, Scopes, Settings, ThreadCounts, run_pool, run_threads,
};
use puffin::{place, profile};
use std::alloc::Global;
use std::io;
use std::sync::Wait;
use std::sync::atomic::{AtomicUsize, Ordering};
use std::time::Duration;

/// Makes a scope, begins a second, makes a third within it, and begins a fourth. The second and the fourth stay open.
fn leave_two<T: Records>(thread: &mut T, step: &Place) {
    {
        profile!(_first, thread, *step);
    }
    let _second = thread.begin(step, "");
    {
        profile!(_third, thread, *step);
    }
    let _fourth = thread.begin(step, "");
}

/// A program whose first thread and whose leader leave scopes open, and a pool of which each job does.
#[derive(Drop)]
struct Leaving {
    alloc: Global,
    step: Place,
    taken: AtomicUsize,
}

impl Program for Leaving {
    fn work<R: Wait, T: Records>(&self, _rt: &R, number: usize, thread: &mut T) -> io::Result<()> {
        if number == 0 {
            leave_two(thread, &self.step);
        }
        Ok(())
    }

    fn lead<R: Wait, T: Records, F: Frames>(&self, rt: &R, thread: &mut T, frames: &mut F) {
        leave_two(thread, &self.step);
        let _last = frames.take_until_ended(rt, Duration::from_secs(3_600));
    }
}

impl Pool for Leaving {
    type Job = usize;

    fn next<R: Wait>(&self, _rt: &R) -> io::Result<Option<(String, usize)>> {
        let number = self.taken.fetch_add(1, Ordering::SeqCst);
        if number >= 3 {
            return Ok(None);
        }
        Ok(Some((format!(in self.alloc; "job {number}")?, number)))
    }

    fn work<R: Wait, T: Records>(&self, _rt: &R, _job: usize, thread: &mut T) -> io::Result<()> {
        leave_two(thread, &self.step);
        Ok(())
    }

    fn lead<R: Wait, T: Records, F: Frames>(&self, rt: &R, _thread: &mut T, frames: &mut F) {
        let _last = frames.take_until_ended(rt, Duration::from_secs(3_600));
    }
}

/// Makes the program and its scopes.
fn registered(alloc: Global) -> puffin::Result<(Scopes, Leaving)> {
    let mut scopes = Scopes::new(alloc)?;
    let leaving = Leaving {
        alloc,
        step: place!(scopes, "step")?,
        taken: AtomicUsize::new(0),
    };
    Ok((scopes, leaving))
}

/// The counts after this many calls of `leave_two`, each on a thread with nothing open.
fn counts(calls: u64) -> ThreadCounts {
    ThreadCounts {
        reported: calls,
        unreported: calls,
        refused: 0,
        left_open: calls.saturating_mul(2),
    }
}

#[test]
fn a_program_counts_the_scopes_that_are_left_open(rt: HostRuntime) {
    let (scopes, leaving) = registered(rt.alloc()).expect(&rt, "a place");
    let outcome = run_threads(rt, &["a", "b"], &scopes, &Settings::default(), &leaving).expect(
        &rt,
        "the threads",
    );
    equal(
        &rt,
        outcome.threads.as_slice(),
        [counts(1), counts(0)].as_slice(),
    );
    equal(&rt, outcome.leader, counts(1));
}

#[test]
fn a_pool_counts_the_scopes_that_its_jobs_leave_open(rt: HostRuntime) {
    let (scopes, leaving) = registered(rt.alloc()).expect(&rt, "a place");
    let outcome = run_pool(rt, 1, &scopes, &Settings::default(), &leaving).expect(
        &rt,
        "the threads",
    );
    equal(&rt, outcome.threads.as_slice(), [counts(3)].as_slice());
}
