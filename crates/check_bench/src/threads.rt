//! Threads that report to a shared profiler while another thread takes frames.

ghost use Rattle.std.specs.Prelude.{◌≡◌, ◌<◌};
ghost use Rattle.puffin_data.specs.Forest.{Forest};
ghost use Rattle.puffin_data.specs.Honesty.{IsHonest};

use crate::reports::two_scopes;
use anyhow::{Context, Result};
use puffin::global_profiler::{Event, GlobalProfiler, History, NewLog, Share, SharedProfiler};
use puffin::thread_profiler::ThreadInfo;
use puffin_data::data::StreamInfo;
use std::alloc::{AllocError, Global};
use std::marker::Brand;
use std::rt::Clock;
use std::sync::Wait;
use std::sync::ledger::{Blank, Ledger};
use std::thread;
use std::thread::{JoinHandle, Threads};
use std::time::Duration;

/// How many reports each thread makes.
pub const REPORTS: usize = 10_000;
/// How many scopes a report has.
const SCOPES: usize = 2;
/// The time from one frame to the next, in microseconds.
const PAUSE: u64 = 100;
/// The time that the threads are given to begin, in microseconds.
const GATHERING: u64 = 2_000;
/// The maximum number of frames taken, in case a thread ends without making its reports.
const MOST_FRAMES: u32 = 1_000_000;
/// The names of the threads.
const NAMES: [&str; 8] = [
    "worker-0", "worker-1", "worker-2", "worker-3", "worker-4", "worker-5", "worker-6", "worker-7",
];

/// When a thread began and ended its reports, by the system's clock.
#[derive(Clone, Copy)]
struct Lap {
    begun: Duration,
    ended: Duration,
}

/// Reports an honest info a number of times.
#[inline(never)]
fn reported<L: Ledger + History, M: Ledger, R: Wait>(
    rt: &R,
    alloc: Global,
    profiler: &SharedProfiler<L, M>,
    share: &mut Share<L, M>,
    name: &str,
    info: &StreamInfo,
) -> puffin_data::Result<()>
    requires { (f : Forest) × IsHonest info.now f }
{
    let times = info.as_stream_into_ref();
    for _ in 0..REPORTS {
        let thread = ThreadInfo {
            start_time_ns: Some(0),
            name: String::from_str(alloc, name)?,
        };
        profiler.report(rt, share, thread, &[], &times)?;
    }
    Ok(())
}

/// Waits until the lock is free, and then makes all reports of a thread.
fn timed_reports<L: Ledger + History, M: Ledger, R: Wait + Clock>(
    rt: &R,
    alloc: Global,
    profiler: &SharedProfiler<L, M>,
    share: &mut Share<L, M>,
    name: &str,
    info: &StreamInfo,
) -> Option<Lap>
    requires { (f : Forest) × IsHonest info.now f }
{
    let _totals = profiler.totals(rt, share);
    let begun = rt.monotonic().ok()?;
    reported(rt, alloc, profiler, share, name, info).ok()?;
    let ended = rt.monotonic().ok()?;
    Some(Lap { begun, ended })
}

/// Makes an info of two scopes, and then all reports of a thread.
fn report_all<L: Ledger + History, M: Ledger, R: Wait + Clock>(
    rt: &R,
    alloc: Global,
    profiler: &SharedProfiler<L, M>,
    share: &mut Share<L, M>,
    worker: usize,
) -> Option<Lap> {
    let name = *NAMES.get(worker)?;
    let info = StreamInfo::parse(alloc, two_scopes(alloc).ok()?).ok()?;
    timed_reports(rt, alloc, profiler, share, name, &info)
}

/// Does the work of a thread.
fn work<L: Ledger + History, M: Ledger, R: Wait + Clock>(
    rt: &R,
    alloc: Global,
    profiler: SharedProfiler<L, M>,
    share: Share<L, M>,
    worker: usize,
) -> Option<Lap> {
    let mut share = share;
    report_all(rt, alloc, &profiler, &mut share, worker)
}

/// Starts a worker on a thread of its own.
fn start<
    L: Ledger + History + Send + 'static,
    M: Ledger + Send + 'static,
    R: Threads + Wait + Clock + Copy + Send + 'static,
>(
    rt: R,
    alloc: Global,
    profiler: SharedProfiler<L, M>,
    share: Share<L, M>,
    worker: usize,
) -> std::result::Result<JoinHandle<Option<Lap>>, AllocError> {
    Ok(thread::spawn(&rt, move || { work(&rt, alloc, profiler, share, worker) })?)
}

/// Takes frames until `scopes` scopes were handed out.
fn take_frames<L: Ledger + History, M: Ledger, R: Wait + Clock>(
    rt: &R,
    profiler: &SharedProfiler<L, M>,
    share: &mut Share<L, M>,
    scopes: usize,
) -> puffin_data::Result<()> {
    let mut handed: usize = 0;
    for _ in 0..MOST_FRAMES {
        if handed >= scopes {
            break;
        }
        if let Some(frame) = profiler.new_frame(rt, share)?.frame {
            handed = handed.saturating_add(frame.meta().num_scopes);
        }
        thread::sleep(rt, Duration::from_micros(PAUSE));
    }
    Ok(())
}

/// Returns the nanoseconds from the earliest beginning of the laps to their latest end.
fn whole(laps: &[Lap]) -> u128 {
    let mut begun = Duration::MAX;
    let mut ended = Duration::ZERO;
    for lap in laps {
        begun = begun.min(lap.begun);
        ended = ended.max(lap.ended);
    }
    ended.saturating_sub(begun).as_nanos()
}

/// Starts a thread for each share.
fn start_each<
    L: Ledger + History + Send + Sync + 'static,
    M: Ledger + Send + Sync + 'static,
    R: Threads + Wait + Clock + Copy + Send + Sync + 'static,
>(
    rt: R,
    alloc: Global,
    profiler: &SharedProfiler<L, M>,
    shares: Vec<Share<L, M>>,
) -> Result<Vec<JoinHandle<Option<Lap>>>> {
    let mut workers = Vec::new(alloc);
    for (worker, share) in shares.into_iter().enumerate() {
        workers.push(start(rt, alloc, profiler.clone()?, share, worker)?)?;
    }
    Ok(workers)
}

/// Starts a thread for each share. All begin when the lock is free.
fn start_all<
    L: Ledger + History + Send + Sync + 'static,
    M: Ledger + Send + Sync + 'static,
    R: Threads + Wait + Clock + Copy + Send + Sync + 'static,
>(
    rt: R,
    alloc: Global,
    profiler: &SharedProfiler<L, M>,
    shares: Vec<Share<L, M>>,
) -> Result<Vec<JoinHandle<Option<Lap>>>> {
    let _gate = profiler.lock(&rt);
    let workers = start_each(rt, alloc, profiler, shares)?;
    thread::sleep(&rt, Duration::from_micros(GATHERING));
    Ok(workers)
}

/// Waits for all workers to end, and returns the nanoseconds from the earliest beginning to the latest end.
fn joined<R: Threads + Wait>(
    rt: &R,
    alloc: Global,
    workers: Vec<JoinHandle<Option<Lap>>>,
) -> Result<u128> {
    let mut laps = Vec::new(alloc);
    for worker in workers {
        laps.push(worker.join(rt).context("a thread")?)?;
    }
    Ok(whole(laps.as_slice()))
}

/// Starts a thread for each share, and takes frames with the share `own`.
fn beside<
    L: Ledger + History + Send + Sync + 'static,
    M: Ledger + Send + Sync + 'static,
    R: Threads + Wait + Clock + Copy + Send + Sync + 'static,
>(
    rt: R,
    alloc: Global,
    profiler: &SharedProfiler<L, M>,
    shares: Vec<Share<L, M>>,
    own: &mut Share<L, M>,
) -> Result<u128> {
    let scopes = shares.len().saturating_mul(REPORTS).saturating_mul(SCOPES);
    let workers = start_all(rt, alloc, profiler, shares)?;
    take_frames(&rt, profiler, own, scopes)?;
    joined(&rt, alloc, workers)
}

/// Starts a thread for each share but one, and takes frames with that one.
fn shared<
    L: Ledger + History + Send + Sync + 'static,
    M: Ledger + Send + Sync + 'static,
    R: Threads + Wait + Clock + Copy + Send + Sync + 'static,
>(rt: R, alloc: Global, profiler: &SharedProfiler<L, M>, shares: Vec<Share<L, M>>) -> Result<u128> {
    let mut shares = shares;
    let mut own = shares.pop().context("a share")?;
    beside(rt, alloc, profiler, shares, &mut own)
}

/// Shares a profiler, and lets all threads but one report while that one takes frames.
fn round<
    L: Ledger + History + Send + Sync + 'static,
    M: Ledger + Send + Sync + 'static,
    R: Threads + Wait + Clock + Copy + Send + Sync + 'static,
>(
    rt: R,
    alloc: Global,
    parts: usize,
    reported: Blank,
    handed: Blank,
    log: NewLog<Event>,
) -> Result<u128>
    requires some { 0 < parts }
    requires reported { (reported.name ≡ L.name)
        × (reported.parts ≡ L.parts)
        × (reported.parts ≡ parts) }
    requires handed { (handed.name ≡ M.name)
        × (handed.parts ≡ M.parts)
        × (handed.parts ≡ parts) }
    requires log { log.name ≡ L.history }
{
    let profiler = GlobalProfiler::new(alloc);
    match SharedProfiler::<L, M>::open(alloc, profiler, parts, reported, handed, log) {
        Ok((profiler, shares)) => shared(rt, alloc, &profiler, shares),
        Err(_) => Err(AllocError.into()),
    }
}

/// Lets `threads` threads report while one more takes frames. Returns the nanoseconds from the earliest beginning to the latest
/// end.
pub fn run<R: Threads + Wait + Clock + Copy + Send + Sync + 'static>(
    rt: R,
    alloc: Global,
    threads: u8,
) -> Result<u128> {
    let parts = usize::from(threads) + 1;
    round::<Brand, Brand, R>(
        rt,
        alloc,
        parts,
        Blank::new(parts as u64),
        Blank::new(parts as u64),
        NewLog::new(),
    )
}
