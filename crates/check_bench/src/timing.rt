//! Runs each kind of work once, to count its units, or often, to time them.

use anyhow::Result;
use std::rt::Clock;
use std::time::Instant;

/// Whether work is counted or timed.
#[derive(Clone, Copy)]
pub enum Mode {
    /// Each kind of work is run once, on little data, and the number of its units is printed.
    Count,
    /// Each kind of work is run often, and the time of a unit in the fastest run is printed too.
    Time,
}

impl Mode {
    /// Returns the first number if work is counted, and the second if it is timed.
    pub fn pick(self, counted: u32, timed: u32) -> u32 {
        match self {
            Mode::Count => counted,
            Mode::Time => timed,
        }
    }
}

/// Work that can be repeated.
pub trait Work {
    /// Does the work once, and returns the number of its units.
    fn run(&mut self) -> Result<usize>;
}

/// Runs work, `rounds` times if it is timed, and prints its line.
pub fn run<R: Clock + Print, W: Work>(
    rt: &R,
    mode: Mode,
    name: &str,
    rounds: u32,
    work: &mut W,
) -> Result<()> {
    let mut best = u128::MAX;
    let mut units = 0;
    for _ in 0..mode.pick(1, rounds) {
        let begun = Instant::now(rt)?;
        units = work.run()?;
        best = best.min(begun.elapsed(rt)?.as_nanos());
    }
    print(rt, mode, name, best, units)
}

/// Prints a name, the nanoseconds that one unit takes, to hundredths, if work is timed, and the number of units.
pub fn print(rt: &impl Print, mode: Mode, name: &str, best: u128, units: usize) -> Result<()> {
    if let Mode::Count = mode {
        return Ok(println!(rt; "{name} {units}")?);
    }
    let hundredths = best.saturating_mul(100) / (units as u128).max(1);
    let (whole, part) = (hundredths / 100, hundredths % 100);
    Ok(println!(rt; "{name} {whole}.{part:02} {units}")?)
}
