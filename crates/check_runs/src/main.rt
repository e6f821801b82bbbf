//! Uses the same places in several runs, in different orders, and with several profilers. Prints what the reports of all files
//! say: the name of each scope and the number of its pieces. Then begins a million scopes of which nobody takes a frame, and
//! prints what became of them.
#![tactic(auto)]

use anyhow::{Context, Result};
use puffin::data::{Buffered, Counted};
use puffin::global_profiler::GlobalProfiler;
use puffin::light::{
    Frames, Place, Program, Records, Rounds, Scopes, Settings, Thread, ThreadCounts, run_rounds,
    run_threads,
};
use puffin::merge::MergeScope;
use puffin::profile_view::FrameView;
use puffin::scope_details::ScopeCollection;
use puffin::thread_profiler::ThreadInfo;
use puffin::{place, profile};
use puffin_report::summarize;
use std::rt::Clock;
use std::sync::Wait;
use std::thread::Threads;
use std::{io, mem};

#[derive(Drop)]
struct Game {
    load: Place,
    paint: Place,
}

impl Rounds for Game {
    type State = ();

    fn state<R: Wait>(&self, _rt: &R, _number: usize) -> io::Result<()> {
        Ok(())
    }

    /// A thread with an even number loads; the others paint, and load within that.
    fn part<R: Wait, T: Records>(
        &self,
        _rt: &R,
        number: usize,
        _round: usize,
        _state: &mut (),
        thread: &mut T,
    ) -> io::Result<()> {
        if number % 2 == 0 {
            profile!(_load, thread, self.load);
        } else {
            profile!(paint, thread, self.paint);
            profile!(_load, paint, self.load);
        }
        Ok(())
    }
}

/// A thread that loads a million times, and a leader that takes no frame.
#[derive(Drop)]
struct Untaken {
    load: Place,
}

impl Program for Untaken {
    fn work<R: Wait, T: Records>(&self, _rt: &R, _number: usize, thread: &mut T) -> io::Result<()> {
        for _ in 0..1_000_000 {
            profile!(_load, thread, self.load);
        }
        Ok(())
    }

    fn lead<R: Wait, T: Records, F: Frames>(&self, _rt: &R, _thread: &mut T, _frames: &mut F) {}
}

/// Prints the name and the number of pieces of each scope, indented by `blanks`.
fn print_scopes(
    rt: &impl Print,
    names: &ScopeCollection,
    blanks: &str,
    scopes: &[MergeScope<'_>],
) -> Result<()> {
    for scope in scopes {
        let name = names.fetch_by_id(&scope.id).context("a name")?.name();
        println!(rt; "{blanks}{} pieces {}", name.as_str(), scope.num_pieces)?;
    }
    Ok(())
}

/// Prints the report of one thread of a file.
fn report_thread<R: AllocGlobal + Print>(rt: &R, bytes: &[u8], thread: &ThreadInfo) -> Result<()> {
    let summary = summarize(rt.alloc(), &mut Buffered::new(bytes), thread)?;
    println!(rt; "  {} frames {}", thread.name, summary.frames)?;
    print_scopes(rt, &summary.scopes, "    ", &summary.merged)?;
    for scope in &summary.merged {
        print_scopes(rt, &summary.scopes, "      ", &scope.children)?;
    }
    Ok(())
}

/// Writes a view's file into memory, and prints its report for each of these threads.
fn report<R: AllocGlobal + Print>(
    rt: &R,
    title: &str,
    threads: &[&str],
    view: &FrameView,
) -> Result<()> {
    println!(rt; "{title}")?;
    let mut file = Counted::new(Vec::new(rt.alloc()));
    view.write(&mut file)?;
    let bytes = file.into_inner();
    let last = view.latest_frame().and_then(|frame| frame.as_unpacked());
    let streams = &last.context("a frame")?.thread_streams;
    for name in threads {
        for thread in streams.keys() {
            if thread.name.as_str() == *name {
                report_thread(rt, &bytes, thread)?;
            }
        }
    }
    Ok(())
}

/// Runs some threads for three rounds, and reports on their frames.
fn run<R: AllocGlobal + Clock + Print + Threads + Wait + Copy + Send + Sync>(
    rt: R,
    title: &str,
    names: &[&str],
    scopes: &Scopes,
    game: &Game,
) -> Result<()> {
    let outcome = run_rounds(rt, names, scopes, &Settings::default(), 3, game)?;
    report(&rt, title, names, &outcome.view.lock(&rt))
}

/// Takes a frame of a profiler, and reports on it.
fn report_on<R: AllocGlobal + Print + Wait>(
    rt: &R,
    title: &str,
    profiler: &mut GlobalProfiler,
) -> Result<()> {
    let mut view = FrameView::new(rt.alloc());
    if let Some(frame) = profiler.new_frame(rt)?.frame {
        view.add_frame(frame)?;
    }
    report(rt, title, &["alone"], &view)
}

/// Runs a program of one thread whose leader takes no frame, and prints what became of the thread's scopes.
fn run_untaken<R: AllocGlobal + Clock + Print + Threads + Wait + Copy + Send + Sync>(
    rt: R,
    title: &str,
    scopes: &Scopes,
    program: &Untaken,
) -> Result<()> {
    let settings = Settings {
        max_thread_bytes: 100_000,
        max_pending_bytes: 1_000_000,
        ..Settings::default()
    };
    let outcome = run_threads(rt, &["alone"], scopes, &settings, program)?;
    let ThreadCounts {
        reported,
        unreported,
        refused,
        ..
    } = *outcome.threads.first().context("a thread")?;
    println!(rt; "{title}")?;
    println!(rt; "  reported {reported} unreported {unreported} refused {refused}")?;
    Ok(())
}

fn main(rt: HostRuntime) -> Result<()> {
    let mut scopes = Scopes::new(rt.alloc())?;
    let game = Game {
        load: place!(scopes, "load")?,
        paint: place!(scopes, "paint", "pixels")?,
    };
    run(rt, "one thread", &["a"], &scopes, &game)?;
    run(rt, "two threads", &["a", "b"], &scopes, &game)?;
    run(rt, "one thread again", &["c"], &scopes, &game)?;
    let untaken = Untaken {
        load: place!(scopes, "load")?,
    };
    run_untaken(
        rt,
        "a million scopes of which nobody takes a frame",
        &scopes,
        &untaken,
    )?;
    // One thread reports to a profiler, and then to another one.
    let mut thread = Thread::start(rt, "alone", GlobalProfiler::new(rt.alloc()), &scopes)?;
    {
        profile!(_paint, thread, game.paint);
    }
    let mut second = GlobalProfiler::new(rt.alloc());
    second.add_scopes(scopes.details())?;
    let mut first = mem::replace(thread.reporter(), second);
    {
        profile!(load, thread, game.load);
        profile!(_paint, load, game.paint);
    }
    report_on(&rt, "a thread's first profiler", &mut first)?;
    report_on(&rt, "its second profiler", thread.reporter())
}
