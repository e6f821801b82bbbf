//! Merges the scopes of one thread over the frames of a file, or over those of a profiler's view.

ghost use Rattle.std.specs.Prelude.{◌≡◌, ◌⊎◌, ℕ, List, Option, Some, Ok, Err, IfOk, IfErr};
ghost use Rattle.std.specs.Arc.{arc_value};
ghost use Rattle.puffin_data.specs.declared.file_error.FileError.TheVariants as file_error;
ghost use Rattle.puffin_threads.specs.Thread.ThreadKey.{ThreadKey, key_of};
ghost use Rattle.puffin_frames.specs.Frame.Contents.{packet_fields};
ghost use Rattle.puffin_merge.specs.Merge.Scopes.{frame_bytes, frames_bytes};
ghost use Rattle.puffin_merge.specs.Merge.Tree.{MergedForest};
ghost use Rattle.puffin_report.specs.Report.{HasSummary};
ghost use Rattle.puffin_report.specs.Summary.{bytes_in, all_bytes_in};
ghost use Rattle.puffin_c.specs.Faults.{Returns};
ghost use Rattle.puffin_c.specs.Handles.{profiler_in};
ghost use Rattle.puffin_c.specs.Merges.{IsListOf, MergesFile, newest_fields, IsMergeOf, LacksMerge, MergesView};
ghost use Rattle.puffin_c.specs.Reporting.{LacksSummary, key_given};

use crate::fault::{Fault, answer_code};
use crate::handles::PuffinProfiler;
use crate::memory_source::MemorySource;
use crate::merged::{MergedList, PuffinMergedList, list_of};
use crate::thread_name::PuffinThreadName;
use puffin_data::FileError;
use puffin_frames::frame_data::{FrameData, UnpackedFrameData};
use puffin_merge::merge::merge_scopes_for_thread;
use puffin_report::{Summary, summarize};
use puffin_threads::thread_profiler::ThreadInfo;
use puffin_view::profile_view::FrameView;
use std::alloc::Global;
use std::sync::Arc;

/// Reads a file frame by frame, and sums it up for a thread.
fn summary_of(alloc: Global, file: &[u8], thread: &ThreadInfo) -> Result<Summary, FileError>
    ensures ok { IfOk result (λ summary.
        (left : Option (List ℕ)) × HasSummary (key_of thread.now) (Some file.now) left summary) }
    ensures err { IfErr result (LacksSummary file.now (key_of thread.now)) }
{
    summarize(alloc, &mut MemorySource::new(file), thread)
}

/// Lists the merge of a thread over a file.
fn merge_file(
    alloc: Global,
    file: &[u8],
    thread: &PuffinThreadName<'_>,
    list: &mut PuffinMergedList<'_>,
) -> Result<(), Fault>
    ensures { MergesFile file.now (key_given thread.now) list.old list.new result }
{
    let info = thread.info(alloc)?;
    let summary = summary_of(alloc, file, &info)?;
    let made = list_of(alloc, &summary.merged)?;
    made.give(list);
    Ok(())
}

/// Merges the scopes of one thread over the frames of a file of any origin. The frames, their merge and its nodes are those of
/// [`summarize`]. Lists the merged scopes, each before its children and with its depth, and their texts, one behind the other: copies
/// as many merged scopes and bytes of texts as fit to the front of those of `list`, and sets its numbers to how many there are.
///
/// Fails with `NotText` if the name isn't UTF-8, whatever the file contains. Otherwise fails with the first fault in the file, which
/// is that of its merge if every frame is sound; or with `Memory`. Nothing changes then.
#[tactic(auto, using(crate::proofs::Causes::file_merge_named))]
#[unsafe(no_mangle)]
pub extern "C" fn puffin_merge_file(
    alloc: Global,
    file: &[u8],
    thread: &PuffinThreadName<'_>,
    list: &mut PuffinMergedList<'_>,
) -> u32
    ensures { Returns result (MergesFile file.now (key_given thread.now) list.old list.new) }
{
    let answer = merge_file(alloc, file, thread, list);
    answer_code(answer)
}

/// Returns the unpacked data of a frame of a view, in which it stays as it is.
fn open_copy(frame: &FrameData) -> Result<Arc<UnpackedFrameData>, FileError>
    ensures ok { IfOk result (λ unpacked. (info : ThreadKey) →
        bytes_in info (packet_fields frame.now) ≡ Ok (frame_bytes info (arc_value unpacked))) }
    ensures err { IfErr result (λ e.
        (e ≡ file_error.Memory)
        ⊎ ((info : ThreadKey) → bytes_in info (packet_fields frame.now) ≡ Err e)) }
{
    let mut copy = frame.clone()?;
    copy.unpacked()
}

/// Returns the unpacked data of the last `number` recent frames of a view, oldest first.
fn open_newest(
    alloc: Global,
    view: &FrameView,
    number: usize,
) -> Result<Vec<Arc<UnpackedFrameData>>, FileError>
    ensures ok { IfOk result (λ opened. (info : ThreadKey) →
        all_bytes_in info (newest_fields number view.now) ≡ Ok (frames_bytes info opened.items)) }
    ensures err { IfErr result (λ e.
        (e ≡ file_error.Memory)
        ⊎ ((info : ThreadKey) → all_bytes_in info (newest_fields number view.now) ≡ Err e)) }
{
    let mut newest = Vec::new(alloc);
    'frames: for frame in view.latest_frames(number) {
        newest.push(open_copy(frame)?)?;
    }
    Ok(newest)
}

/// Merges the scopes of a thread over the last `number` recent frames of a view, and lists the merged scopes.
fn merge_newest(
    alloc: Global,
    view: &FrameView,
    number: usize,
    thread: &ThreadInfo,
) -> Result<MergedList, Fault>
    ensures ok { IfOk result (λ list. (f : MergedForest)
        × IsMergeOf (key_of thread.now) (newest_fields number view.now) f
        × IsListOf f list) }
    ensures err { IfErr result (
        LacksMerge (key_of thread.now) (newest_fields number view.now)) }
{
    let frames = open_newest(alloc, view, number)?;
    let merged = merge_scopes_for_thread(alloc, view.scope_collection(), &frames, thread)?;
    Ok(list_of(alloc, &merged)?)
}

/// Lists the merge of a thread over the newest frames of a profiler's view.
fn merge_view(
    alloc: Global,
    profiler: &mut PuffinProfiler,
    frames: usize,
    thread: &PuffinThreadName<'_>,
    list: &mut PuffinMergedList<'_>,
) -> Result<(), Fault>
    ensures merges { MergesView (profiler_in profiler.old) frames (key_given thread.now)
        list.old list.new result }
    ensures same_profiler { profiler_in profiler.new ≡ profiler_in profiler.old }
{
    if !profiler.is_open {
        return Err(Fault::NotOpen);
    }
    let info = thread.info(alloc)?;
    let whole = profiler.take(alloc);
    let answer = merge_newest(alloc, &whole.view, frames, &info);
    profiler.put(whole);
    answer?.give(list);
    Ok(())
}

/// Merges the scopes of one thread over the newest `frames` of the view's recent frames, or over all of them if there are fewer. Gives
/// the merged scopes like [`puffin_merge_file`]. The frames stay as they are, and copies of packed ones are unpacked, all before the
/// merge.
///
/// Fails with the first of these that applies: `NotOpen`; `NotText` if the name isn't UTF-8; what refuses the merge, `TooDeep` at a
/// scope nested in 1,024 others, or `TooLarge` if a start, a number of pieces, a total duration or the end of a merged scope doesn't
/// fit. Can also fail with `Memory`, but not in place of `NotOpen` or `NotText`. Nothing changes in either case. The contract also
/// allows for faults of the frames' own bytes, which no frame that a profiler made has.
#[tactic(auto, using(crate::proofs::Causes::view_merge_named))]
#[unsafe(no_mangle)]
pub extern "C" fn puffin_merge_view(
    alloc: Global,
    profiler: &mut PuffinProfiler,
    frames: usize,
    thread: &PuffinThreadName<'_>,
    list: &mut PuffinMergedList<'_>,
) -> u32
    ensures merges { Returns result (MergesView (profiler_in profiler.old) frames
        (key_given thread.now) list.old list.new) }
    ensures same_profiler { profiler_in profiler.new ≡ profiler_in profiler.old }
{
    let answer = merge_view(alloc, profiler, frames, thread, list);
    answer_code(answer)
}
