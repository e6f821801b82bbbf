//! Counts, reads, reports and writes random streams and files: some as they were made, some without their last byte, and the
//! others with one to three faults. Then it does the same with deep streams and crafted ones.

use crate::checks::{Broken, check_file, check_stream};
use crate::damage::damage;
use crate::files::{file, thread};
use crate::random::Random;
use crate::streams::{crafted, forest, nested};
use anyhow::{Result, anyhow};
use puffin_data::data::{Reader, Stream};
use std::alloc::Global;
use std::time::Instant;

/// How many streams and files there are without an argument.
const CASES: u64 = 1_000;
/// How many levels the deep and the crafted stream have without an argument.
const LEVELS: u64 = 2_000;
/// The maximum number of times that two walks are measured, until their times are in proportion.
const ROUNDS: u32 = 100;

/// What was done to the bytes of a case.
#[derive(Clone, Copy)]
enum Change {
    /// Nothing, so they must be accepted.
    None,
    /// The last byte was cut off, so they must be refused.
    Cut,
    /// One to three random faults were made, and the bytes may be either.
    Faults,
}

/// How many cases were accepted and how many refused; and how many of these had to be.
#[derive(Clone, Copy)]
struct Outcomes {
    taken: u64,
    unchanged: u64,
    refused: u64,
    cut: u64,
}

impl Outcomes {
    /// Counts one case. Fails if it had to end otherwise.
    fn count(&mut self, change: Change, is_taken: bool) -> Result<(), Broken> {
        match change {
            Change::None if !is_taken => return Err(Broken::Refused),
            Change::Cut if is_taken => return Err(Broken::Taken),
            Change::None => self.unchanged = self.unchanged.saturating_add(1),
            Change::Cut => self.cut = self.cut.saturating_add(1),
            Change::Faults => {}
        }
        if is_taken {
            self.taken = self.taken.saturating_add(1);
        } else {
            self.refused = self.refused.saturating_add(1);
        }
        Ok(())
    }
}

/// Makes the error for a check that failed.
fn broken(what: &str, number: u64, broken: Broken) -> anyhow::Error {
    anyhow!("{what} {number}: {broken:?}")
}

/// Leaves the bytes of every fourth case as they are, cuts off the last byte of every eighth case, and makes one to three faults
/// in the others.
fn changed(random: &mut Random, number: u64, bytes: &mut Vec<u8>) -> Result<Change> {
    match number % 8 {
        0 | 4 => Ok(Change::None),
        1 => match bytes.pop() {
            Some(_) => Ok(Change::Cut),
            None => Ok(Change::None),
        },
        _ => {
            for _ in 0..=random.below(3) {
                damage(random, bytes)?;
            }
            Ok(Change::Faults)
        }
    }
}

/// Checks a random stream. Returns what was done to it, and whether it is accepted.
fn stream_case(alloc: Global, number: u64) -> Result<(Change, bool)> {
    let mut random = Random::new(number);
    let scopes = random.below(40);
    let mut bytes = Vec::new(alloc);
    bytes.extend_from_slice(forest(alloc, &mut random, scopes, 6)?.bytes())?;
    let change = changed(&mut random, number, &mut bytes)?;
    let walk = check_stream(alloc, &bytes).map_err(|why| broken("stream", number, why))?;
    Ok((change, walk.is_some()))
}

/// Checks a random file. Returns what was done to it, and whether it is accepted.
fn file_case(alloc: Global, number: u64) -> Result<(Change, bool)> {
    let mut random = Random::new(number);
    let frames = random.below(5) as u64;
    let mut bytes = file(alloc, &mut random, frames)?;
    let change = changed(&mut random, number, &mut bytes)?;
    let thread = thread(alloc, "main")?;
    let is_taken = check_file(alloc, &bytes, &thread).map_err(|why| broken("file", number, why))?;
    Ok((change, is_taken))
}

/// Runs `cases` cases of streams or files.
fn run(alloc: Global, what: &str, cases: u64, files: bool) -> Result<Outcomes> {
    let mut outcomes = Outcomes {
        taken: 0,
        unchanged: 0,
        refused: 0,
        cut: 0,
    };
    for number in 0..cases {
        let (change, is_taken) = if files {
            file_case(alloc, number)?
        } else {
            stream_case(alloc, number)?
        };
        outcomes
            .count(change, is_taken)
            .map_err(|why| broken(what, number, why))?;
    }
    Ok(outcomes)
}

/// Checks `cases` random streams and files. Prints how many were accepted and refused, and how many of these had to be.
fn cases(rt: &impl Print, alloc: Global, cases: u64) -> Result<()> {
    for (what, files) in &[("streams", false), ("files", true)] {
        let Outcomes {
            taken,
            unchanged,
            refused,
            cut,
        } = run(alloc, what, cases, *files)?;
        println!(rt; "{what} taken {taken} unchanged {unchanged} refused {refused} cut {cut}")?;
    }
    Ok(())
}

/// Returns the nanoseconds that a walk over a stream takes.
fn walked(rt: &HostRuntime, stream: &Stream) -> Result<u128> {
    let mut tries = 0;
    let begun = Instant::now(rt)?;
    let _walk = Reader::walk(rt.alloc(), stream, &mut tries);
    Ok(begun.elapsed(rt)?.as_nanos())
}

/// Walks a stream and one of about ten times the length, until the second takes at most 14 times as long as the first.
/// Fails if it never does.
fn grows(rt: &HostRuntime, what: &str, short: Vec<u8>, long: Vec<u8>) -> Result<()> {
    let (short, long) = (Stream::from(short), Stream::from(long));
    let (mut one, mut ten) = (u128::MAX, u128::MAX);
    for _ in 0..ROUNDS {
        one = one.min(walked(rt, &short)?);
        ten = ten.min(walked(rt, &long)?);
        if ten <= one.saturating_mul(14) {
            let bytes = long.len();
            println!(rt; "{what} bytes {bytes} in proportion")?;
            return Ok(());
        }
    }
    Err(anyhow!("{what}: {one} ns, and ten times as long {ten} ns"))
}

/// Checks that the time of a walk grows in proportion, for deep streams and for crafted ones whose children reach past
/// their parents.
fn growth(rt: &HostRuntime) -> Result<()> {
    let alloc = rt.alloc();
    grows(rt, "deep", nested(alloc, 10_000)?, nested(alloc, 100_000)?)?;
    grows(
        rt,
        "crafted",
        crafted(alloc, 10_000)?,
        crafted(alloc, 100_000)?,
    )
}

/// Counts a stream with fewer levels, and prints the counts of the walk.
fn count(rt: &impl Print, alloc: Global, what: &str, bytes: &[u8]) -> Result<()> {
    match check_stream(alloc, bytes).map_err(|why| broken(what, LEVELS, why))? {
        Some(walk) => {
            let (scopes, depth) = (walk.num_scopes, walk.depth);
            println!(rt; "{what} scopes {scopes} depth {depth}")?;
        }
        None => println!(rt; "{what} refused")?,
    }
    Ok(())
}

/// Counts a deep and a crafted stream.
fn levels(rt: &impl Print, alloc: Global) -> Result<()> {
    count(rt, alloc, "deep", &nested(alloc, LEVELS)?)?;
    count(rt, alloc, "crafted", &crafted(alloc, LEVELS)?)
}

/// Checks random streams and files, and a deep and a crafted stream.
pub(crate) fn run_some(rt: &HostRuntime) -> Result<()> {
    cases(rt, rt.alloc(), CASES)?;
    levels(rt, rt.alloc())
}

/// Checks `number` random streams and files, and how the time of a walk grows with the length.
pub(crate) fn run_many(rt: &HostRuntime, number: u64) -> Result<()> {
    cases(rt, rt.alloc(), number)?;
    growth(rt)
}
