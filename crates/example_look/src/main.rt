//! Looks at the frames that a program recorded: prints the slowest one as a tree, and walks a file frame by frame. The times are
//! made up, so that each run prints the same.
#![tactic(auto)]

use anyhow::{Context, Result};
use puffin::data::{Buffered, Counted};
use puffin::frame_data::UnpackedFrameData;
use puffin::global_profiler::GlobalProfiler;
use puffin::light::{Place, Scopes};
use puffin::place;
use puffin::profile_view::{FrameReader, FrameView};
use puffin::thread_profiler::{ScriptClock, ThreadProfiler};
use puffin_look::{Indices, Wanted, print_frame, read_overview};

/// The start of each frame and of the scope in it, and the stops of both.
const TIMES: [[i64; 4]; 3] = [
    [1_000, 1_100, 1_400, 1_500],
    [2_000, 2_100, 2_900, 3_000],
    [4_000, 4_050, 4_100, 4_200],
];

/// The places of the program.
#[derive(Drop)]
struct Places {
    update: Place,
    physics: Place,
}

/// Records a scope with one within it, at these times, and adds their frame to the view.
fn record(
    thread: &mut ThreadProfiler<ScriptClock>,
    profiler: &mut GlobalProfiler,
    places: &Places,
    times: [i64; 4],
    view: &mut FrameView,
) -> Result<()> {
    let [start, begin, end, stop] = times;
    thread.clock().set(start);
    let whole = thread.begin_scope(places.update.id(), "")?;
    thread.clock().set(begin);
    let physics = thread.begin_scope(places.physics.id(), "all bodies")?;
    thread.clock().set(end);
    thread.end_scope(physics, profiler)?;
    thread.clock().set(stop);
    thread.end_scope(whole, profiler)?;
    if let Some(frame) = profiler.collect_frame()? {
        view.add_frame(frame)?;
    }
    Ok(())
}

/// Returns the index of the slowest frame of a view.
fn slowest(view: &FrameView) -> Option<u64> {
    let mut slowest = None;
    let mut longest = -1;
    for frame in view.slowest_frames_chronological() {
        if frame.duration_ns() > longest {
            longest = frame.duration_ns();
            slowest = Some(frame.frame_index());
        }
    }
    slowest
}

/// Prints the threads of a frame.
fn print_threads(rt: &impl Print, frame: &UnpackedFrameData) -> Result<()> {
    for (thread, stream) in frame.thread_streams.iter() {
        println!(rt; "  {} has {} scopes", thread.name, stream.num_scopes)?;
    }
    Ok(())
}

/// Prints the index, the duration and the threads of each frame of a file.
fn walk<R: AllocGlobal + Print>(rt: &R, bytes: &[u8]) -> Result<()> {
    let mut reader = FrameReader::new(rt.alloc(), Buffered::new(bytes))?;
    for _ in 0..u64::MAX {
        let Some(mut frame) = reader.next()? else {
            break;
        };
        let (index, duration) = (frame.frame_index(), frame.duration_ns());
        println!(rt; "frame {index} took {duration} nanoseconds")?;
        let unpacked = frame.unpacked()?;
        print_threads(rt, &unpacked)?;
    }
    Ok(())
}

fn main(rt: HostRuntime) -> Result<()> {
    let alloc = rt.alloc();
    let mut scopes = Scopes::new(alloc)?;
    let places = Places {
        update: place!(scopes, "update")?,
        physics: place!(scopes, "update", "physics")?,
    };
    let mut profiler = GlobalProfiler::new(alloc);
    profiler.add_scopes(scopes.details())?;
    let name = String::from_str(alloc, "main")?;
    let mut thread = ThreadProfiler::new(alloc, name, ScriptClock::new(0));
    let mut view = FrameView::new(alloc);
    for times in TIMES {
        record(&mut thread, &mut profiler, &places, times, &mut view)?;
    }
    let mut file = Counted::new(Vec::new(alloc));
    view.write(&mut file)?;
    let file = file.into_inner();
    let bytes: &[u8] = &file;
    let index = slowest(&view).context("a frame")?;
    let mut out = Counted::new(rt.stdout());
    let overview = read_overview(alloc, &mut Buffered::new(bytes))?;
    let wanted = Wanted {
        frames: Some(Indices::only(index)),
        threads: None,
    };
    print_frame(
        alloc,
        &overview,
        &mut Buffered::new(bytes),
        &mut out,
        &wanted,
    )?;
    walk(&rt, bytes)
}
