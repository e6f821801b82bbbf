//! Three threads that work in rounds, for a run in which one allocation or the start of one thread is refused.

use puffin::light::{GuardState, Outcome, Place, Records, Rounds, Scopes, Settings, run_rounds};
use puffin::{Result, place};
use std::alloc::Global;
use std::io;
use std::rt::Clock;
use std::sync::Wait;
use std::sync::atomic::{AtomicU64, Ordering};
use std::thread::Threads;

const ROUNDS: usize = 4;

/// What the threads share: how many parts they did, and how many scopes they began.
#[derive(Drop)]
struct Parts {
    done: AtomicU64,
    begun: AtomicU64,
    outer: Place,
    inner: Place,
}

impl Parts {
    fn new(scopes: &mut Scopes) -> Result<Parts> {
        Ok(Parts {
            done: AtomicU64::new(0),
            begun: AtomicU64::new(0),
            outer: place!(scopes, "part")?,
            inner: place!(scopes, "part", "inner")?,
        })
    }

    /// Counts a scope that began.
    fn count(&self, state: GuardState) {
        if let GuardState::On(_) = state {
            self.begun.fetch_add(1, Ordering::SeqCst);
        }
    }

    /// Prints how many parts were done, and how many scopes were begun.
    fn print(&self, rt: &impl Print) -> Option<()> {
        let done = self.done.load(Ordering::SeqCst);
        let begun = self.begun.load(Ordering::SeqCst);
        print!(rt; "parts {done} begun {begun}").ok()
    }
}

impl Rounds for Parts {
    type State = ();

    fn state<R: Wait>(&self, _rt: &R, _number: usize) -> io::Result<()> {
        Ok(())
    }

    /// Makes a scope within another.
    fn part<R: Wait, T: Records>(
        &self,
        _rt: &R,
        _number: usize,
        _round: usize,
        _state: &mut (),
        thread: &mut T,
    ) -> io::Result<()> {
        self.done.fetch_add(1, Ordering::SeqCst);
        let mut outer = thread.scope(&self.outer);
        self.count(outer.state());
        let inner = outer.scope_with(&self.inner, "text");
        self.count(inner.state());
        Ok(())
    }
}

/// Registers the places. Fails if memory runs out.
fn registered(alloc: Global) -> Result<(Scopes, Parts)> {
    let mut scopes = Scopes::new(alloc)?;
    let parts = Parts::new(&mut scopes)?;
    Ok((scopes, parts))
}

/// Prints the outcome of the threads.
fn print_outcome<R: Print + Wait>(rt: &R, outcome: &Outcome) -> Option<()> {
    let (settled, frames, missed) = (outcome.settled, outcome.frames, outcome.missed);
    let (reported, handed) = (settled.reported, settled.handed);
    print!(rt;
        " reported {reported} handed {handed} pending {}",
        settled.pending
    )
    .ok()?;
    let held = outcome.view.lock(rt).stats().frames();
    print!(rt; " frames {frames} held {held} missed {missed}").ok()?;
    let (mut unreported, mut refused) = (0_u64, 0_u64);
    for thread in &outcome.threads {
        unreported = unreported.saturating_add(thread.unreported);
        refused = refused.saturating_add(thread.refused);
    }
    println!(rt; " unreported {unreported} refused {refused}").ok()
}

/// Runs the threads, and prints their outcome, or that they were refused.
pub(crate) fn run<R: AllocGlobal + Clock + Print + Threads + Wait + Copy + Send + Sync>(
    rt: R,
) -> Option<()> {
    let Ok((scopes, parts)) = registered(rt.alloc()) else {
        return println!(rt; "parts 0 begun 0 refused").ok();
    };
    let outcome = run_rounds(
        rt,
        &["a", "b", "c"],
        &scopes,
        &Settings::default(),
        ROUNDS,
        &parts,
    );
    parts.print(&rt)?;
    match outcome {
        Ok(outcome) => print_outcome(&rt, &outcome),
        Err(_) => println!(rt; " refused").ok(),
    }
}
