//! Frames that are added to a view, written to a file, read and summed up.

use crate::again;
use crate::checks::written;
use crate::packets::{frame, thread};
use puffin::merge::MergeScope;
use puffin::profile_view::FrameView;
use puffin_data::FileError;
use puffin_data::data::Buffered;
use puffin_frames::frame_data::FrameData;
use puffin_replay::replay::{Summary, summarize};
use puffin_threads::thread_profiler::ThreadInfo;
use std::alloc::Global;
use std::sync::Arc;

/// Makes a frame with this index and length, in shared memory.
fn shared(alloc: Global, index: u64, length: u32) -> Option<Arc<FrameData>> {
    match Arc::new(alloc, frame(alloc, index, length)?) {
        Ok(shared) => Some(shared),
        Err(refused) => Arc::new(alloc, refused.value).ok(),
    }
}

/// Tries once to add a frame to a view.
fn added(view: &mut FrameView, frame: &Arc<FrameData>) -> Option<puffin_data::Result<()>> {
    Some(view.add_frame(again!(frame.clone())?))
}

/// Adds a frame with this index and length.
fn add(alloc: Global, view: &mut FrameView, index: u64, length: u32) -> Option<()> {
    let frame = shared(alloc, index, length)?;
    again!(added(view, &frame)?)
}

/// Adds three frames.
fn add_all(alloc: Global, view: &mut FrameView) -> Option<()> {
    for (index, length) in &[(0, 300), (1, 100), (2, 200)] {
        add(alloc, view, *index, *length)?;
    }
    Some(())
}

/// Makes a view that took three frames, and keeps two recent ones and one slow one.
fn view(alloc: Global) -> Option<FrameView> {
    let mut view = FrameView::new(alloc);
    view.set_max_recent(2);
    view.set_max_slow(1);
    add_all(alloc, &mut view)?;
    Some(view)
}

/// Sums up a file for a thread.
fn summary(alloc: Global, file: &[u8], thread: &ThreadInfo) -> Result<Summary, FileError> {
    let mut source = Buffered::new(file);
    summarize(alloc, &mut source, thread)
}

/// Prints a merged scope and the number of its children.
fn print(rt: &HostRuntime, scope: &MergeScope) -> Option<()> {
    let (pieces, total) = (scope.num_pieces, scope.total_duration_ns);
    let (start, longest) = (scope.relative_start_ns, scope.max_duration_ns);
    let within = scope.children.len();
    let text = scope.text.as_str();
    println!(rt; "  {text} pieces {pieces} total {total}").ok()?;
    println!(rt; "    start {start} longest {longest} within {within}").ok()
}

/// Returns the file of a copy of a view.
fn copied(alloc: Global, view: &FrameView) -> Option<Vec<u8>> {
    let copy = again!(view.clone())?;
    again!(written(alloc, &copy))
}

/// Makes a view, and returns its file.
fn viewed(alloc: Global) -> Option<Vec<u8>> {
    let view = view(alloc)?;
    copied(alloc, &view)
}

/// Prints a summary.
fn print_summary(rt: &HostRuntime, summary: &Summary) -> Option<()> {
    let (frames, merged) = (summary.frames, summary.merged.len());
    println!(rt; "summary frames {frames} scopes {merged}").ok()?;
    for scope in &summary.merged {
        print(rt, scope)?;
    }
    Some(())
}

/// Sums up a file for one of its threads, and prints the summary.
fn summed_up(rt: &HostRuntime, file: &[u8]) -> Option<()> {
    let len = file.len();
    println!(rt; "file bytes {len}").ok()?;
    let thread = thread(rt.alloc(), 100, "main")?;
    let summary = again!(summary(rt.alloc(), file, &thread))?;
    print_summary(rt, &summary)
}

/// Writes the file of a view, and sums it up for one of its threads.
pub(crate) fn run(rt: &HostRuntime) -> Option<()> {
    let file = viewed(rt.alloc())?;
    summed_up(rt, &file)
}
