//! Times the profiler, for a comparison with the Rust crate.
//!
//! | words | what it does |
//! |---|---|
//! | none | runs each kind of work once, and prints how many units it has |
//! | `time` | prints the nanoseconds that a unit of each kind of work takes |
//! | `time threads_` | prints the same for threads that share a profiler |
//! | `frames` | prints the same for merging and for views |
#![tactic(auto)]

mod guards;
mod light;
mod merges;
mod names;
mod packets;
mod reports;
mod scopes;
mod shared_views;
mod sharing;
mod threads;
mod timing;
mod views;

use anyhow::{Context, Result};
use guards::{GuardWork, Guarding, Nesting, Scopes};
use light::{run_clocked_light, run_light};
use merges::{MERGE_WORK, Merging};
use names::{NameWork, Shortening};
use packets::{FileWork, Files};
use puffin::thread_profiler::{ScriptClock, SystemClock, ThreadProfiler};
use reports::Profiling;
use scopes::{Counting, SCOPE_WORK, TEXT, Writing, stream_of};
use sharing::{run_reports, run_shared_views, time_threads};
use std::env;
use timing::{Mode, run};
use views::{VIEW_WORK, run_view};

/// How often each kind of work is run; the fastest run counts.
const ROUNDS: u32 = 4_000;
/// How often work with the system's clock is run.
const REAL_ROUNDS: u32 = 1_000;
/// How often names are shortened.
const NAME_ROUNDS: u32 = 1_000;
/// How often files are written or read.
const FILE_ROUNDS: u32 = 40;

/// Makes a thread profiler whose clock stays at 1.
fn thread(rt: &HostRuntime) -> Result<ThreadProfiler<ScriptClock>> {
    let name = String::from_str(rt.alloc(), "main")?;
    Ok(ThreadProfiler::new(rt.alloc(), name, ScriptClock::new(1)))
}

/// Makes a thread profiler with the system's clock.
fn clocked_thread(rt: HostRuntime) -> Result<ThreadProfiler<SystemClock<HostRuntime>>> {
    let name = String::from_str(rt.alloc(), "main")?;
    Ok(ThreadProfiler::new(rt.alloc(), name, SystemClock::new(rt)?))
}

/// Writes scopes into streams.
fn run_writing(rt: &HostRuntime, mode: Mode) -> Result<()> {
    for work in &SCOPE_WORK {
        let stream = stream_of(rt.alloc(), work)?;
        run(rt, mode, work.name, ROUNDS, &mut Writing { stream, work })?;
    }
    Ok(())
}

/// Counts the scopes of streams.
fn run_counting(rt: &HostRuntime, mode: Mode) -> Result<()> {
    let alloc = rt.alloc();
    for work in &SCOPE_WORK {
        let stream = stream_of(alloc, work)?;
        run(
            rt,
            mode,
            work.counted,
            ROUNDS,
            &mut Counting { alloc, stream },
        )?;
    }
    Ok(())
}

/// Makes scopes of a thread profiler with this text, by its calls.
fn run_calls(rt: &HostRuntime, mode: Mode, name: &str, text: &'static str) -> Result<()> {
    let thread = thread(rt)?;
    run(rt, mode, name, ROUNDS, &mut Profiling { thread, text })
}

/// Makes scopes of a thread profiler with guards and macros.
fn run_guards(rt: &HostRuntime, mode: Mode) -> Result<()> {
    for work in &GuardWork::ALL {
        let mut guarding = Guarding {
            thread: thread(rt)?,
            scopes: Scopes::new(work.is_on()),
            work: *work,
        };
        run(rt, mode, work.name(), ROUNDS, &mut guarding)?;
    }
    Ok(())
}

/// Makes scopes of a thread profiler with the system's clock.
fn run_clocked(rt: HostRuntime, mode: Mode) -> Result<()> {
    let mut profiling = Profiling {
        thread: clocked_thread(rt)?,
        text: "",
    };
    run(&rt, mode, "real_empty", REAL_ROUNDS, &mut profiling)
}

/// Makes scopes of macros with the system's clock.
fn run_clocked_macros(rt: HostRuntime, mode: Mode) -> Result<()> {
    let mut nesting = Nesting {
        thread: clocked_thread(rt)?,
        scopes: Scopes::new(true),
    };
    run(&rt, mode, "real_macro", REAL_ROUNDS, &mut nesting)
}

/// Shortens names; the unit is a name.
fn run_names(rt: &HostRuntime, mode: Mode) -> Result<()> {
    let alloc = rt.alloc();
    for work in &NameWork::ALL {
        let mut shortening = Shortening { alloc, work: *work };
        run(rt, mode, work.name(), NAME_ROUNDS, &mut shortening)?;
    }
    Ok(())
}

/// Writes and reads files; the unit is a frame.
fn run_files(rt: &HostRuntime, mode: Mode) -> Result<()> {
    let count = mode.pick(10, packets::FRAMES);
    let mut files = Files::new(rt.alloc(), count).ok().context("a file")?;
    for work in &FileWork::ALL {
        files.work = *work;
        run(rt, mode, work.name(), FILE_ROUNDS, &mut files)?;
    }
    Ok(())
}

/// Merges the scopes of frames, of which the unit is a scope, and adds frames to full views.
fn run_frames(rt: &HostRuntime, mode: Mode) -> Result<()> {
    for work in &MERGE_WORK {
        let work = work.sized(mode);
        let mut merging = Merging::new(rt.alloc(), &work)?;
        run(rt, mode, work.name, work.rounds, &mut merging)?;
    }
    for work in &VIEW_WORK {
        run_view(rt, mode, &work.sized(mode))?;
    }
    Ok(())
}

/// Does all that waits for no lock.
fn run_all(rt: HostRuntime, mode: Mode) -> Result<()> {
    run_writing(&rt, mode)?;
    run_counting(&rt, mode)?;
    run_calls(&rt, mode, "profiled_empty", "")?;
    run_calls(&rt, mode, "profiled_text12", TEXT)?;
    run_guards(&rt, mode)?;
    run_light(&rt, mode)?;
    run_names(&rt, mode)?;
    run_files(&rt, mode)?;
    run_frames(&rt, mode)?;
    run_clocked(rt, mode)?;
    run_clocked_macros(rt, mode)?;
    run_clocked_light(rt, mode)
}

/// What the arguments ask for.
#[derive(Clone, Copy)]
enum Task {
    /// Everything, counted.
    Count,
    /// Everything, timed.
    Time,
    /// Threads that share a profiler, timed.
    Threads,
    /// Merging and views, timed.
    Frames,
}

/// Returns an argument, or nothing if there is none.
fn word(given: &Option<String>) -> &str {
    match given {
        Some(word) => word.as_str(),
        None => "",
    }
}

/// Returns what the first two arguments ask for.
fn asked_by(first: &str, second: &str) -> Task {
    match first {
        "frames" => Task::Frames,
        "time" if second.starts_with("threads_") => Task::Threads,
        "time" => Task::Time,
        _ => Task::Count,
    }
}

/// Reads the arguments.
fn asked(rt: &HostRuntime) -> Result<Task> {
    let mut words = env::args(rt)?.skip(1);
    let (first, second) = (words.next(), words.next());
    Ok(asked_by(word(&first), word(&second)))
}

fn main(rt: HostRuntime) -> Result<()> {
    let mode = match asked(&rt)? {
        Task::Count => Mode::Count,
        Task::Time => Mode::Time,
        Task::Threads => return time_threads(rt),
        Task::Frames => return run_frames(&rt, Mode::Time),
    };
    run_reports(&rt, mode)?;
    run_all(rt, mode)?;
    run_shared_views(&rt, mode)?;
    match mode {
        Mode::Count => Ok(()),
        Mode::Time => time_threads(rt),
    }
}
