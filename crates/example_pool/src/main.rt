//! Four threads answer a hundred requests. Each request is recorded under a name of its own, as if it had a thread of its own.
#![tactic(auto)]

use puffin::light::{Frames, Place, Pool, Records, Scopes, Settings, run_pool, save};
use puffin::{place, profile};
use std::alloc::Global;
use std::io;
use std::sync::Wait;
use std::sync::atomic::{AtomicU64, AtomicUsize, Ordering};
use std::time::Duration;

const THREADS: usize = 4;

const REQUESTS: u64 = 100;

/// The places of the program, and the number of requests that were taken.
#[derive(Drop)]
struct Server {
    alloc: Global,
    answer: Place,
    count: Place,
    taken: AtomicU64,
    steps: AtomicUsize,
}

/// Counts the steps from a number down to 1, where an even number is halved, and an odd one is tripled and raised by one.
fn steps(number: u64) -> usize {
    let mut number = number;
    for count in 0..1_000 {
        if number <= 1 {
            return count;
        }
        number = if number % 2 == 0 {
            number / 2
        } else {
            number.saturating_mul(3).saturating_add(1)
        };
    }
    1_000
}

impl Pool for Server {
    type Job = u64;

    fn next<R: Wait>(&self, _rt: &R) -> io::Result<Option<(String, u64)>> {
        let number = self.taken.fetch_add(1, Ordering::SeqCst);
        if number >= REQUESTS {
            return Ok(None);
        }
        Ok(Some((format!(in self.alloc; "request {number}")?, number)))
    }

    fn work<R: Wait, T: Records>(&self, _rt: &R, number: u64, thread: &mut T) -> io::Result<()> {
        profile!(answer, thread, self.answer);
        profile!(_count, answer, self.count);
        self.steps.fetch_add(steps(number), Ordering::SeqCst);
        Ok(())
    }

    fn lead<R: Wait, T: Records, F: Frames>(&self, rt: &R, _thread: &mut T, frames: &mut F) {
        let _last = frames.take_until_ended(rt, Duration::from_millis(16));
    }
}

fn main(rt: HostRuntime) -> anyhow::Result<()> {
    let mut scopes = Scopes::new(rt.alloc())?;
    let server = Server {
        alloc: rt.alloc(),
        answer: place!(scopes, "answer")?,
        count: place!(scopes, "answer", "count")?,
        taken: AtomicU64::new(0),
        steps: AtomicUsize::new(0),
    };
    let outcome = run_pool(rt, THREADS, &scopes, &Settings::default(), &server)?;
    let steps = server.steps.load(Ordering::SeqCst);
    println!(rt;
        "steps {steps} scopes handed out {}",
        outcome.settled.handed
    )?;
    Ok(save(&rt, "frames.puffin", &outcome.view.lock(&rt))?)
}
