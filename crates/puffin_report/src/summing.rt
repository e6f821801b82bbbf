//! Sums up a file while it is read one frame at a time.

ghost use Rattle.std.specs.Prelude.{◌≡◌, ◌≢◌, ◌⊎◌, ◌<◌, ◌-◌, ◌^◌, [], ◌∷◌, ◌++◌, List, Ok, Err, IfOk, IfErr, OnOk, length, nat_lt, true, IsOkUnless};
ghost use Rattle.std.specs.Option.{option_map_or};
ghost use Rattle.puffin_threads.specs.Thread.ThreadKey.{ThreadKey, key_of};
ghost use Rattle.puffin_threads.specs.Details.Collection.{with_all_details};
ghost use Rattle.puffin_frames.specs.Packet.Stored.{PacketFields, Stored};
ghost use Rattle.puffin_frames.specs.Frame.Contents.{packet_fields, frame_details};
ghost use Rattle.puffin_view.specs.View.{last_index};
ghost use Rattle.puffin_view.specs.View.ViewedFrames.{frame_index, rising_end};
ghost use Rattle.puffin_view.specs.View.FrameOf.{frame_of};
ghost use Rattle.puffin_view.specs.View.File.{frame_stored};
ghost use Rattle.puffin_merge.specs.Merge.Scopes.{frame_bytes};
ghost use Rattle.puffin_report.specs.Summary.{bytes_in, fields_read, IsSummary, IsHindered};
ghost use Rattle.puffin_report.specs.inner.Summing.{IsProgress, CanGoOn, IsKeptWith, HasSummed, CanTake};

use crate::summary::Summary;
use puffin_data::{Error, FileError, FrameIndex};
use puffin_frames::frame_data::{FrameData, UnpackedFrameData};
use puffin_merge::merge::Merger;
use puffin_threads::scope_details::ScopeCollection;
use puffin_threads::thread_profiler::ThreadInfo;
use std::alloc::Global;

/// The merge of the kept frames so far, or what stopped it.
#[derive(Drop)]
pub(crate) enum Progress<'i> {
    /// All kept frames were unpacked and merged.
    Merged(Merger<'i>),
    /// All kept frames were unpacked, but merging them fails with this error, whatever frames follow.
    Refused(Error),
    /// A kept frame can't be unpacked. This is the fault of the first such frame.
    NotUnpacked(FileError),
}

/// The summary of the frames read so far.
#[derive(Drop)]
pub(crate) struct Summing<'i> {
    alloc: Global,
    thread: &'i ThreadInfo,
    scopes: ScopeCollection,
    last_index: Option<FrameIndex>,
    progress: Progress<'i>,
}

/// Stores the fault of the first frame that can't be unpacked, to be returned at the end of the file. `Memory` isn't a fault of
/// the frame, and is returned at once.
fn not_unpacked<'i>(fault: FileError) -> Result<Progress<'i>, FileError>
    ensures ok { IfOk result (λ progress.
        (progress ≡ Progress.NotUnpacked fault) × (fault ≢ FileError.Memory)) }
    ensures memory { IsOkUnless result FileError.Memory }
{
    match fault {
        FileError::Memory => Err(FileError::Memory),
        fault => Ok(Progress::NotUnpacked(fault)),
    }
}

/// Stores the error of the merge, to be returned at the end of the file. `Memory` is returned at once.
fn refused<'i>(cause: Error) -> Result<Progress<'i>, FileError>
    ensures ok { IfOk result (λ progress.
        (progress ≡ Progress.Refused cause) × (cause ≢ Error.Memory)) }
    ensures memory { IsOkUnless result FileError.Memory }
{
    match cause {
        Error::Memory => Err(FileError::Memory),
        cause => Ok(Progress::Refused(cause)),
    }
}

impl<'i> Progress<'i> {
    /// Unpacks the next frame and merges it with those before. After a frame that can't be unpacked, no further frame is
    /// unpacked. If the merge failed, further frames are still unpacked, because the fault of a frame takes precedence over the
    /// merge's error.
    ///
    /// Fails only with `Memory`.
    fn with(self, frame: &mut FrameData) -> Result<Progress<'i>, FileError>
        requires { CanGoOn self }
        ensures ok { IfOk result (λ progress.
            (info : ThreadKey) (kept : List PacketFields) → IsProgress info kept self.entry →
            IsProgress info (kept ++ packet_fields frame.old ∷ []) progress) }
        ensures memory { IsOkUnless result FileError.Memory }
    {
        if let Progress::NotUnpacked(fault) = self {
            return Ok(Progress::NotUnpacked(fault));
        }
        match frame.unpacked() {
            Ok(unpacked) => self.with_unpacked(&unpacked),
            Err(fault) => not_unpacked(fault),
        }
    }

    /// Merges an unpacked frame with those before, as [`Progress::with`] does.
    fn with_unpacked(self, frame: &UnpackedFrameData) -> Result<Progress<'i>, FileError>
        requires { CanGoOn self }
        ensures ok { IfOk result (λ progress.
            (info : ThreadKey) (kept : List PacketFields) (fields : PacketFields) →
            IsProgress info kept self.entry →
            bytes_in info fields ≡ Ok (frame_bytes info frame.now) →
            IsProgress info (kept ++ fields ∷ []) progress) }
        ensures memory { IsOkUnless result FileError.Memory }
    {
        let mut merger = match self {
            Progress::Merged(merger) => merger,
            fault => return Ok(fault),
        };
        match merger.add(frame) {
            Ok(()) => Ok(Progress::Merged(merger)),
            Err(cause) => refused(cause),
        }
    }
}

/// Inserts the details that a frame lists. All of them have ids, so this fails only with `Memory`.
fn insert_details(scopes: &mut ScopeCollection, frame: &FrameData) -> Result<(), FileError>
    ensures ok { OnOk result (
        scopes.new ≡ with_all_details scopes.old (frame_details frame.now)) }
    ensures memory { IsOkUnless result FileError.Memory }
{
    match scopes.insert_all(&frame.scope_delta) {
        Ok(()) => Ok(()),
        Err(_) => Err(FileError::Memory),
    }
}

/// Returns whether an index is greater than the last one, or `true` if there is no last one.
fn rises(last: Option<FrameIndex>, index: FrameIndex) -> bool
    ensures { result ≡ option_map_or (λ i. nat_lt i index) last true }
{
    match last {
        Some(last) => last < index,
        None => true,
    }
}

/// Returns the progress to which a frame with this index is added: `progress` if the index is greater than the last one, else
/// `none`.
fn kept_before<'i>(
    progress: Progress<'i>,
    last: Option<FrameIndex>,
    index: FrameIndex,
    none: Progress<'i>,
) -> Progress<'i>
    ensures { (info : ThreadKey) (all : List PacketFields) (next : PacketFields) →
        last ≡ last_index all → index ≡ frame_index next →
        IsProgress info (rising_end all) progress.entry → IsProgress info [] none.entry →
        IsKeptWith info all next result }
{
    if rises(last, index) { progress } else { none }
}

impl<'i> Summing<'i> {
    /// Makes the summary of no frames. Allocates nothing.
    pub(crate) fn new(alloc: Global, thread: &'i ThreadInfo) -> Summing<'i>
        ensures { HasSummed (key_of thread.now) [] result }
    {
        Summing {
            alloc,
            thread,
            scopes: ScopeCollection::new(alloc),
            last_index: None,
            progress: Progress::Merged(Merger::new(alloc, thread)),
        }
    }

    /// Inserts the details of the next frame, and merges the frame with the kept ones. If its index isn't greater than that of
    /// the frame before it, first discards the kept frames and their faults.
    ///
    /// Fails only with `Memory`.
    pub(crate) fn take(self, frame: FrameData) -> Result<Summing<'i>, FileError>
        requires { CanTake self }
        ensures ok { IfOk result (λ sum.
            (info : ThreadKey) (stored : List Stored) (next : Stored) →
            frame_of frame ≡ frame_stored next → HasSummed info stored self.entry →
            HasSummed info (stored ++ next ∷ []) sum) }
        ensures memory { IsOkUnless result FileError.Memory }
    {
        let mut frame = frame;
        let Summing {
            alloc,
            thread,
            mut scopes,
            last_index,
            progress,
        } = self;
        insert_details(&mut scopes, &frame)?;
        let index = frame.frame_index();
        let none = Progress::Merged(Merger::new(alloc, thread));
        let progress = kept_before(progress, last_index, index, none).with(&mut frame)?;
        Ok(Summing {
            alloc,
            thread,
            scopes,
            last_index: Some(index),
            progress,
        })
    }

    /// Returns the summary of the frames that were taken.
    ///
    /// Fails with the fault of the first kept frame that can't be unpacked, or else with `Refused` if the frames can't be
    /// merged. May fail with `Memory` at any step.
    pub(crate) fn finish(self) -> Result<Summary, FileError>
        requires { CanTake self }
        ensures ok { IfOk result (λ summary. (info : ThreadKey) (stored : List Stored) →
            HasSummed info stored self.entry → length stored < 2 ^ 64 - 1 →
            IsSummary info stored summary) }
        ensures err { IfErr result (λ e. (info : ThreadKey) (stored : List Stored) →
            HasSummed info stored self.entry → length stored < 2 ^ 64 - 1 →
            (e ≡ FileError.Memory) ⊎ IsHindered info (fields_read stored) e) }
        ensures cause { IfErr result (λ e. e ≢ FileError.Io) }
    {
        let Summing {
            scopes,
            progress,
            ..
        } = self;
        let merger = match progress {
            Progress::Merged(merger) => merger,
            Progress::Refused(cause) => return Err(FileError::Refused(cause)),
            Progress::NotUnpacked(fault) => return Err(fault),
        };
        let frames = merger.frames();
        let merged = merger.finish()?;
        Ok(Summary {
            frames,
            scopes,
            merged,
        })
    }
}
