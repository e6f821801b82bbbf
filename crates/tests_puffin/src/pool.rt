//! Pools, whose jobs are recorded under names of their own.

use crate::equal::equal;
use puffin::frame_data::FrameData;
use puffin::global_profiler::{GlobalFrameView, Settled};
use puffin::light::{Frames, Place, Pool, Records, Scopes, Settings, ThreadCounts, run_pool};
use puffin::{place, profile};
use std::alloc::Global;
use std::io;
use std::process::Abort;
use std::rt::Clock;
use std::sync::Wait;
use std::sync::atomic::{AtomicUsize, Ordering};
use std::thread::Threads;
use std::time::Duration;

/// Which call fails.
#[derive(Clone, Copy, PartialEq, Eq)]
enum Fails {
    Nothing,
    /// The work of the job with this number.
    Work(usize),
    /// The call that would take the job with this number.
    Next(usize),
}

/// A number of jobs, of which one may fail. Job `n`, counted from 0, makes one scope, and one more if `n` is even.
#[derive(Drop)]
struct Jobs {
    alloc: Global,
    answer: Place,
    foreign: Place,
    all: usize,
    fails: Fails,
    taken: AtomicUsize,
}

impl Jobs {
    /// Makes this number of jobs, with the scopes that the threads know.
    fn new(alloc: Global, all: usize, fails: Fails) -> puffin::Result<(Scopes, Jobs)> {
        let mut others = Scopes::new(alloc)?;
        let _first = place!(others, "first")?;
        let foreign = place!(others, "second")?;
        let mut scopes = Scopes::new(alloc)?;
        let jobs = Jobs {
            alloc,
            answer: place!(scopes, "answer")?,
            foreign,
            all,
            fails,
            taken: AtomicUsize::new(0),
        };
        Ok((scopes, jobs))
    }
}

impl Pool for Jobs {
    type Job = usize;

    fn next<R: Wait>(&self, _rt: &R) -> io::Result<Option<(String, usize)>> {
        let number = self.taken.fetch_add(1, Ordering::SeqCst);
        if number >= self.all {
            return Ok(None);
        }
        if self.fails == Fails::Next(number) {
            return Err(io::Error::from(io::ErrorKind::TimedOut));
        }
        Ok(Some((format!(in self.alloc; "job {number}")?, number)))
    }

    fn work<R: Wait, T: Records>(&self, _rt: &R, job: usize, thread: &mut T) -> io::Result<()> {
        {
            profile!(_answer, thread, self.answer);
        }
        if job % 2 == 0 {
            profile!(answer, thread, self.answer, "again");
            profile!(_foreign, answer, self.foreign);
        }
        if self.fails == Fails::Work(job) {
            return Err(io::Error::from(io::ErrorKind::TimedOut));
        }
        Ok(())
    }

    /// Takes one frame, after all threads have ended.
    fn lead<R: Wait, T: Records, F: Frames>(&self, rt: &R, _thread: &mut T, frames: &mut F) {
        let _last = frames.take_until_ended(rt, Duration::from_secs(3_600));
    }
}

/// Returns how many scopes a frame's thread with this name has, or `None` if there is no such thread.
fn num_scopes(frame: &FrameData, name: &str) -> Option<usize> {
    let (_, stream) = frame
        .as_unpacked()?
        .thread_streams
        .iter()
        .find(|(thread, _)| thread.name.as_str() == name)?;
    Some(stream.num_scopes)
}

/// Adds up the counts of all threads.
fn sum(threads: &[ThreadCounts]) -> (u64, u64, u64) {
    let mut sums = (0_u64, 0_u64, 0_u64);
    for counts in threads {
        sums.0 = sums.0.saturating_add(counts.reported);
        sums.1 = sums.1.saturating_add(counts.unreported);
        sums.2 = sums.2.saturating_add(counts.refused);
    }
    sums
}

/// Checks that the latest frame of a view has the scopes of a hundred jobs, each under its name.
fn has_a_hundred<R: AllocGlobal + Wait + Abort>(rt: &R, view: &GlobalFrameView) {
    let view = view.lock(rt);
    let frame = view.latest_frame().expect(rt, "a frame");
    for number in 0..100 {
        let name = format!(in rt.alloc(); "job {number}").expect(rt, "memory");
        let wanted = if number % 2 == 0 { 2 } else { 1 };
        equal(rt, num_scopes(frame, &name), Some(wanted));
    }
}

#[test]
fn a_hundred_jobs_of_four_threads_have_their_own_names(rt: HostRuntime) {
    let (scopes, jobs) = Jobs::new(rt.alloc(), 100, Fails::Nothing).expect(&rt, "the jobs");
    let outcome = run_pool(rt, 4, &scopes, &Settings::default(), &jobs).expect(&rt, "the threads");
    equal(&rt, outcome.threads.len(), 4);
    equal(&rt, sum(&outcome.threads), (150, 0, 50));
    let settled = Settled {
        reported: 150,
        handed: 150,
        pending: 0,
    };
    equal(&rt, outcome.settled, settled);
    equal(&rt, outcome.failed.is_none(), true);
    has_a_hundred(&rt, &outcome.view);
}

/// Runs ten jobs on two threads. Checks that one thread failed, that all threads together reported this number of scopes and had
/// this number refused, and that each reported scope is in the frame.
fn one_fails<R: AllocGlobal + Clock + Threads + Wait + Abort + Copy + Send + Sync + Drop>(
    rt: R,
    fails: Fails,
    reported: u64,
    refused: u64,
) {
    let (scopes, jobs) = Jobs::new(rt.alloc(), 10, fails).expect(&rt, "the jobs");
    let outcome = run_pool(rt, 2, &scopes, &Settings::default(), &jobs).expect(&rt, "the threads");
    let failed = outcome.failed.expect(&rt, "a failure");
    equal(&rt, failed.error.kind(), io::ErrorKind::TimedOut);
    equal(&rt, sum(&outcome.threads), (reported, 0, refused));
    let settled = Settled {
        reported,
        handed: reported,
        pending: 0,
    };
    equal(&rt, outcome.settled, settled);
}

#[test]
fn a_job_that_fails_ends_its_thread(rt: HostRuntime) {
    one_fails(rt, Fails::Work(0), 15, 5);
}

#[test]
fn a_job_that_can_t_be_taken_ends_its_thread(rt: HostRuntime) {
    one_fails(rt, Fails::Next(0), 13, 4);
}

#[test]
fn a_worker_without_room_begins_no_scope(rt: HostRuntime) {
    let (scopes, jobs) = Jobs::new(rt.alloc(), 10, Fails::Nothing).expect(&rt, "the jobs");
    let settings = Settings {
        max_thread_bytes: 0,
        ..Settings::default()
    };
    let outcome = run_pool(rt, 2, &scopes, &settings, &jobs).expect(&rt, "the threads");
    equal(&rt, sum(&outcome.threads), (0, 0, 20));
}
