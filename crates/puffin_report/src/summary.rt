//! The summary of a file of frames.

ghost use Rattle.std.specs.Prelude.{List, IfOk, IfErr, ◌≡◌};
ghost use Rattle.puffin_data.specs.Device.{CanFail, failures_after};
ghost use Rattle.puffin_threads.specs.Thread.ThreadKey.{key_of};
ghost use Rattle.puffin_frames.specs.Packet.Stored.{Stored};
ghost use Rattle.puffin_view.specs.View.File.{file_at, TookFrames};
ghost use Rattle.puffin_report.specs.Summary.{IsSummary, FailsToSumUp};

use crate::summing::Summing;
use puffin_data::FileError;
use puffin_data::data::Source;
use puffin_merge::merge::MergeScope;
use puffin_threads::scope_details::ScopeCollection;
use puffin_threads::thread_profiler::ThreadInfo;
use puffin_view::profile_view::{next_frame, read_magic};
use std::alloc::Global;

/// The summary of a file of frames, for one thread.
#[derive(Drop)]
pub struct Summary {
    /// The number of frames that a view keeps when it reads the file.
    pub frames: usize,
    /// All details that any frame of the file lists, inserted in the order of the file.
    pub scopes: ScopeCollection,
    /// The scopes of one thread, merged over the frames that a view keeps when it reads the file.
    pub merged: Vec<MergeScope<'static>>,
}

/// Reads a file one frame at a time, and merges the scopes of a thread. At each frame whose index isn't greater than that of
/// the frame before it, the merge starts over, just as a view that reads the file drops its other frames. So only the last run
/// of rising indices counts. The call takes memory for one frame, for the merge and for the details of all frames.
///
/// Fails with the first cause that applies: an error of [`FrameView::read`](puffin_view::profile_view::FrameView::read);
/// `Compressed` or `BadStreams` for the first frame that counts but can't be unpacked; `Refused` if the frames can't be merged.
/// It may fail with `Memory` at any step. If it fails, how far the source was read is unspecified.
pub fn summarize<S: Source>(
    alloc: Global,
    source: &mut S,
    thread: &ThreadInfo,
) -> Result<Summary, FileError>
    requires { CanFail S.failures source.old }
    ensures summary { IfOk result (λ summary.
        (stored : List Stored)
        × TookFrames file_at (S.remaining source.old) (S.remaining source.new) stored
        × IsSummary (key_of thread.now) stored summary) }
    ensures err { IfErr result (λ e.
        FailsToSumUp (key_of thread.now) (S.remaining source.old) (S.remaining source.new) e) }
    ensures failures { S.failures source.new ≡ failures_after (S.failures source.old) result }
{
    read_magic(source)?;
    let mut sum = Summing::new(alloc, thread);
    'frames: for _ in 0..u64::MAX {
        let Some(frame) = next_frame(alloc, source)? else {
            return sum.finish();
        };
        sum = sum.take(frame)?;
    }
    // The loop has already returned unless there are `2^64 - 1` frames.
    Err(FileError::Truncated)
}
