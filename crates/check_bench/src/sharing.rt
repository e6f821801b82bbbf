//! Counts or times reports and frames of profilers that wait for locks.

use crate::reports::Reporting;
use crate::timing::{Mode, print, run};
use crate::{shared_views, threads};
use anyhow::Result;
use puffin::global_profiler::GlobalProfiler;
use std::rt::{Clock, Runtime};
use std::sync::Wait;
use std::thread::Threads;

/// How often reports are run; the fastest run counts.
const REPORT_ROUNDS: u32 = 300;
/// How often frames of a shared profiler are handed to a view.
const VIEW_ROUNDS: u32 = 40;
/// How often threads report to one profiler.
const THREAD_ROUNDS: u32 = 20;
/// The names of the work with threads, and how many threads report.
static THREADS: [(&str, u8); 4] = [
    ("threads_1", 1),
    ("threads_2", 2),
    ("threads_4", 4),
    ("threads_8", 8),
];

/// Counts or times reports of two scopes, with a frame after every eight; the unit is a report.
pub fn run_reports<R: Runtime + AllocGlobal + Wait>(rt: &R, mode: Mode) -> Result<()> {
    let alloc = rt.alloc();
    let profiler = GlobalProfiler::new(alloc);
    let mut reporting = Reporting {
        rt,
        alloc,
        profiler,
    };
    run(rt, mode, "report", REPORT_ROUNDS, &mut reporting)
}

/// Counts or times frames of a shared profiler that a view is attached to; the unit is a frame.
pub fn run_shared_views<R: Runtime + AllocGlobal + Wait>(rt: &R, mode: Mode) -> Result<()> {
    let best = shared_views::run(rt, rt.alloc(), mode.pick(1, VIEW_ROUNDS))?;
    print(rt, mode, "new_frame_view", best, shared_views::FRAMES)
}

/// Times 1, 2, 4 and 8 threads that report to one profiler; the unit is a report.
pub fn time_threads<
    R: Runtime + AllocGlobal + Threads + Wait + Clock + Copy + Send + Sync + 'static,
>(rt: R) -> Result<()> {
    for (name, count) in &THREADS {
        let mut best = u128::MAX;
        for _ in 0..THREAD_ROUNDS {
            best = best.min(threads::run(rt, rt.alloc(), *count)?);
        }
        let reports = usize::from(*count).saturating_mul(threads::REPORTS);
        print(&rt, Mode::Time, name, best, reports)?;
    }
    Ok(())
}
