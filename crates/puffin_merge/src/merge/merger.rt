//! Merging one frame at a time.

ghost use Rattle.std.specs.Prelude.{◌≡◌, ℕ, ◌+◌, ◌-◌, ◌^◌, ◌<◌, ◌≤◌, ◌⊎◌, ◌++◌, ◌∷◌, [], List, length, OnOk, IfOk, IfErr};
ghost use Rattle.puffin_data.specs.declared.error.Error.{Error};
ghost use Rattle.puffin_merge.specs.Merge.Occurrences.{occurrences};
ghost use Rattle.puffin_merge.specs.Merge.FrameBytes.{FrameBytes, most_tries_of};
ghost use Rattle.puffin_merge.specs.Merge.Refusals.{IsMergeRefusal, IsRefusalAfter, AreMerged};
ghost use Rattle.puffin_merge.specs.Merge.Scopes.{frame_bytes, forest_in};
ghost use Rattle.puffin_merge.specs.Merge.Merger.{HasAdded, CanAdd, lent_info, merged_info, tries_for};

use crate::merge::scope::MergeScope;
use crate::merge::stream::{Merging, read_frame};
use crate::merge::tree::tree_of;
use puffin_data::{NanoSecond, Result};
use puffin_frames::frame_data::UnpackedFrameData;
use puffin_threads::thread_profiler::ThreadInfo;
use std::alloc::Global;

/// Merges one thread's scopes over frames that are added one at a time.
///
/// It keeps a table of the scopes' paths, with its own copies of their texts, and nothing of the frames. So a frame can be
/// dropped once it has been added.
///
/// ```
/// let mut merger = Merger::new(alloc, &info);
/// merger.add(&first)?;
/// merger.add(&second)?;
/// let merged = merger.finish()?;
/// ```
#[derive(Drop)]
pub struct Merger<'i> {
    alloc: Global,
    info: &'i ThreadInfo,
    merging: Merging,
    /// The start of the first frame's range; 0 before a frame is added.
    first: NanoSecond,
    frames: usize,
}

impl<'i> Merger<'i> {
    /// Makes a merger for the scopes of the thread `info`, without frames. Allocates nothing.
    pub fn new(alloc: Global, info: &'i ThreadInfo) -> Merger<'i>
        ensures info { (lent_info result).now ≡ info.now }
        ensures none { HasAdded [] result }
    {
        Merger {
            alloc,
            info,
            merging: Merging::new(alloc),
            first: 0,
            frames: 0,
        }
    }

    /// Returns how many frames were added.
    pub fn frames(&self) -> usize
        ensures { (added : List FrameBytes) → HasAdded added self.now → result ≡ length added }
    {
        self.frames
    }

    /// Adds the next frame. Fewer than `2^64 - 1` frames must have been added before.
    ///
    /// Fails with `Memory`, or with the error of [`merge_scopes_for_thread`](crate::merge::merge_scopes_for_thread) if the
    /// frames up to and including this one can't be merged, whatever frames follow. After an error neither [`Merger::add`] nor
    /// [`Merger::finish`] may be called.
    pub fn add(&mut self, frame: &UnpackedFrameData) -> Result<()>
        requires { CanAdd self.old }
        ensures info { lent_info self.new ≡ lent_info self.old }
        ensures added { OnOk result ((added : List FrameBytes) → HasAdded added self.old →
            HasAdded (added ++ (frame_bytes (merged_info self.old) frame.now ∷ [])) self.new) }
        ensures refused { IfErr result (λ e. (added later : List FrameBytes) →
            HasAdded added self.old → (e ≡ Error.Memory) ⊎ IsMergeRefusal
            (added ++ (frame_bytes (merged_info self.old) frame.now ∷ later)) e) }
    {
        let mut tries = 0;
        self.add_counted(frame, &mut tries)
    }

    /// Adds a frame like [`Merger::add`]. Sets `tries` to the number of bytes `(` at which it tried to read a scope.
    pub(crate) fn add_counted(&mut self, frame: &UnpackedFrameData, tries: &mut u64) -> Result<()>
        requires { CanAdd self.old }
        ensures info { lent_info self.new ≡ lent_info self.old }
        ensures added { OnOk result ((added : List FrameBytes) →
            (before : HasAdded added self.old) →
            (after : HasAdded (added ++ (frame_bytes (merged_info self.old) frame.now ∷ []))
            self.new)
            × (tries_for after ≡ tries_for before + tries.new)) }
        ensures refused { IfErr result (λ e. (added later : List FrameBytes) →
            (before : HasAdded added self.old) →
            (e ≡ Error.Memory) ⊎ IsRefusalAfter
            (added ++ (frame_bytes (merged_info self.old) frame.now ∷ later))
            (tries_for before + tries.new) e) }
        ensures few { tries.new
            ≤ most_tries_of (frame_bytes (merged_info self.old) frame.now) }
    {
        let first = self.start_of_first(frame);
        read_frame(
            self.alloc,
            &mut self.merging,
            frame,
            first,
            self.info,
            tries,
        )?;
        self.first = first;
        self.frames += 1;
        Ok(())
    }

    /// Returns the start of the first frame's range: that of `frame` if no frame was added before it.
    fn start_of_first(&self, frame: &UnpackedFrameData) -> NanoSecond
        ensures none { self.now.frames ≡ 0 → result ≡ frame.now.meta.range_ns.0 }
        ensures some { 0 < self.now.frames → result ≡ self.now.first }
    {
        if self.frames == 0 {
            frame.meta.range_ns.0
        } else {
            self.first
        }
    }

    /// Returns the merge of the frames in the order in which they were added. Returns no scopes if there are no frames. The
    /// scopes own their texts.
    ///
    /// Fails with `TooLarge` if the end of a merged scope, which is its start plus its duration per frame, doesn't fit `i64`,
    /// and with `Memory`.
    pub fn finish<'s>(self) -> Result<Vec<MergeScope<'s>>>
        requires { (added : List FrameBytes) × HasAdded added self }
        ensures merged { IfOk result (λ merged. (added : List FrameBytes) →
            (before : HasAdded added self.entry) →
            (merge : AreMerged added (forest_in merged.items))
            × (tries_for before ≡ length (occurrences merge.scopes))) }
        ensures refused { IfErr result (λ e. (added : List FrameBytes) →
            (before : HasAdded added self.entry) →
            (e ≡ Error.Memory) ⊎ IsRefusalAfter added (tries_for before) e) }
    {
        if self.frames == 0 {
            return Ok(Vec::new(self.alloc));
        }
        tree_of(self.alloc, &self.merging.table, self.frames)
    }
}
