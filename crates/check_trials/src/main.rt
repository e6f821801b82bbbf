//! Tries what no contract promises, in two parts.
//!
//! The first part does each kind of work once. It is for runs in which one allocation is refused: a call that fails for
//! lack of memory is made again, so the output is the same whichever allocation it is. The second part counts, reads,
//! reports and writes random and damaged bytes.
//!
//! Without arguments both parts run. The argument `memory` runs the first alone, and a number runs the second with that
//! many streams and files. The argument `threads` runs threads in rounds instead, and prints what they reported. The
//! status is 1 if a result isn't as expected.
#![tactic(auto)]

mod checks;
mod damage;
mod devices;
mod files;
mod guards;
mod hostile;
mod packets;
mod random;
mod recordings;
mod refusal;
mod registrations;
mod shared;
mod streams;
mod summaries;
mod threads;
mod unchanged;

use anyhow::{Context, Result, anyhow};
use std::env;

/// The parts that are to run.
#[derive(Clone, Copy)]
enum Task {
    /// Both parts.
    All,
    /// The first part.
    Memory,
    /// Threads in rounds.
    Threads,
    /// The second part, with this many streams and files.
    Bytes(u64),
}

/// Returns what the first argument asks for. Reads the arguments again if that fails at first.
fn asked(rt: &HostRuntime) -> Result<Task> {
    let mut words = match env::args(rt) {
        Ok(words) => words,
        Err(_) => env::args(rt)?,
    };
    match words.nth(1) {
        None => Ok(Task::All),
        Some(word) if word.as_str() == "memory" => Ok(Task::Memory),
        Some(word) if word.as_str() == "threads" => Ok(Task::Threads),
        Some(word) => Ok(Task::Bytes(word.as_str().parse().ok().context("how many cases")?)),
    }
}

fn main(rt: HostRuntime) -> Result<()> {
    let task = asked(&rt)?;
    let is_done = matches!(task, Task::Bytes(_) | Task::Threads)
        || registrations::run(&rt).is_some()
            && packets::run(&rt).is_some()
            && summaries::run(&rt).is_some()
            && guards::run(&rt).is_some()
            && shared::run(&rt).is_some()
            && unchanged::run(&rt).is_some()
            && recordings::run(&rt).is_some();
    if !is_done {
        return Err(anyhow!("a call was refused twice"));
    }
    match task {
        Task::All => hostile::run_some(&rt),
        Task::Memory => Ok(()),
        Task::Threads => threads::run(rt).context("a line that can't be printed"),
        Task::Bytes(cases) => hostile::run_many(&rt, cases),
    }
}
