//! Frames that a shared profiler hands to a view.

ghost use Rattle.std.specs.Prelude.{◌≡◌};
ghost use Rattle.puffin_data.specs.Forest.{Forest};
ghost use Rattle.puffin_data.specs.Honesty.{IsHonest};

use crate::reports::two_scopes;
use anyhow::{Context, Result};
use puffin::global_profiler::{
    Event, GlobalFrameView, GlobalProfiler, History, NewLog, Share, SharedProfiler,
};
use puffin::thread_profiler::ThreadInfo;
use puffin_data::data::StreamInfo;
use std::alloc::{AllocError, Global};
use std::marker::Brand;
use std::rt::Clock;
use std::sync::Wait;
use std::sync::ledger::{Blank, Ledger};
use std::time::Instant;

/// How many frames a run takes.
pub const FRAMES: usize = 1_000;
/// How many runs fill a view.
const FILLING: u32 = 2;

/// Reports an honest info and takes a frame, for each frame of a run.
#[inline(never)]
fn taken<L: Ledger + History, M: Ledger, R: Wait>(
    rt: &R,
    alloc: Global,
    profiler: &SharedProfiler<L, M>,
    share: &mut Share<L, M>,
    info: &StreamInfo,
) -> puffin_data::Result<()>
    requires { (f : Forest) × IsHonest info.now f }
{
    let times = info.as_stream_into_ref();
    for _ in 0..FRAMES {
        let thread = ThreadInfo {
            start_time_ns: Some(0),
            name: String::from_str(alloc, "main")?,
        };
        profiler.report(rt, share, thread, &[], &times)?;
        let _emitted = profiler.new_frame(rt, share)?;
    }
    Ok(())
}

/// Takes the frames of a run, and returns the nanoseconds that this takes.
fn timed<L: Ledger + History, M: Ledger, R: Wait + Clock>(
    rt: &R,
    alloc: Global,
    profiler: &SharedProfiler<L, M>,
    share: &mut Share<L, M>,
    info: &StreamInfo,
) -> Result<u128>
    requires { (f : Forest) × IsHonest info.now f }
{
    let begun = Instant::now(rt)?;
    taken(rt, alloc, profiler, share, info)?;
    Ok(begun.elapsed(rt)?.as_nanos())
}

/// Fills the attached view, and then takes frames in `runs` more runs. Returns the nanoseconds of the fastest.
fn fastest<L: Ledger + History, M: Ledger, R: Wait + Clock>(
    rt: &R,
    alloc: Global,
    runs: u32,
    profiler: &SharedProfiler<L, M>,
    share: &mut Share<L, M>,
) -> Result<u128> {
    let info = StreamInfo::parse(alloc, two_scopes(alloc)?)?;
    let mut best = u128::MAX;
    for run in 0..runs.saturating_add(FILLING) {
        let time = timed(rt, alloc, profiler, share, &info)?;
        if run >= FILLING {
            best = best.min(time);
        }
    }
    Ok(best)
}

/// Attaches a view, fills it, and takes frames with the one share in `runs` more runs. Returns the nanoseconds of the fastest.
fn attached<L: Ledger + History, M: Ledger, R: Wait + Clock>(
    rt: &R,
    alloc: Global,
    runs: u32,
    profiler: &SharedProfiler<L, M>,
    shares: Vec<Share<L, M>>,
) -> Result<u128> {
    let mut shares = shares;
    let mut share = shares.pop().context("a share")?;
    let view = GlobalFrameView::attach(rt, alloc, profiler)?;
    let best = fastest(rt, alloc, runs, profiler, &mut share);
    let _was_attached = view.detach(rt, profiler);
    best
}

/// Shares a profiler with one share, and takes frames of it with a view attached. Returns the nanoseconds of the fastest run.
fn viewed<L: Ledger + History, M: Ledger, R: Wait + Clock>(
    rt: &R,
    alloc: Global,
    runs: u32,
    reported: Blank,
    handed: Blank,
    log: NewLog<Event>,
) -> Result<u128>
    requires reported { (reported.name ≡ L.name)
        × (reported.parts ≡ L.parts)
        × (reported.parts ≡ 1) }
    requires handed { (handed.name ≡ M.name) × (handed.parts ≡ M.parts) × (handed.parts ≡ 1) }
    requires log { log.name ≡ L.history }
{
    let profiler = GlobalProfiler::new(alloc);
    match SharedProfiler::<L, M>::open(alloc, profiler, 1, reported, handed, log) {
        Ok((profiler, shares)) => attached(rt, alloc, runs, &profiler, shares),
        Err(_) => Err(AllocError.into()),
    }
}

/// Takes frames of a profiler that one view is attached to, in `runs` runs. Returns the nanoseconds of the fastest.
pub fn run<R: Wait + Clock>(rt: &R, alloc: Global, runs: u32) -> Result<u128> {
    viewed::<Brand, Brand, R>(rt, alloc, runs, Blank::new(1), Blank::new(1), NewLog::new())
}
