//! The frames of a view by their indices.
ghost use Rattle.std.specs.Prelude.{◌≡◌, ℕ, ◌≤◌, None, OnOk, OnErr, IfOk, IsSome, IsOkUnless};
ghost use Rattle.std.specs.FinMap as map;
ghost use Rattle.std.specs.Option.{option_map};
ghost use Rattle.puffin_data.specs.declared.error.Error.{Error};
ghost use Rattle.puffin_view.specs.View.ViewedFrames.{index_of};
ghost use Rattle.puffin_view.specs.View.FrameOf.{shared_frame, frames_of};
ghost use Rattle.puffin_view.specs.View.Listings.{frames_left};
ghost use Rattle.puffin_view.specs.View.Stats.{stats_of};

use crate::profile_view::frame_rows::{FrameRows, FrameRowsIter};
use crate::profile_view::running_stats::RunningStats;
use crate::profile_view::stats::FrameStats;
use puffin_data::Result;
use puffin_frames::frame_data::{FrameData, FrameIndex};
use std::alloc::Global;
use std::marker::Model;
use std::sync::Arc;

/// Frames by their indices, with running sums over them.
#[derive(Drop)]
pub(crate) struct HeldFrames {
    frames: FrameRows,
    sums: RunningStats,
}

impl Model for HeldFrames {
    ghost use Rattle.puffin_view.specs.inner.Held.{HeldFrames, held_code};

    ghost Value = { HeldFrames };

    ghost coded = { held_code };

    ghost use Rattle.puffin_view.specs.inner.Held.{held_of, IsSummed};
    ghost use Rattle.puffin_view.specs.inner.Rows.{rows_of};

    ghost view = { λ held. held_of (rows_of held.frames) };

    ghost invariant = { λ held. IsSummed (rows_of held.frames) held.sums };
}

impl HeldFrames {
    /// Makes a map without frames.
    pub fn new(alloc: Global) -> HeldFrames
        ensures { result ≡ map.empty }
    {
        HeldFrames {
            frames: FrameRows::new(alloc),
            sums: RunningStats::new(),
        }
    }

    /// Returns the frame with this index.
    pub fn get(&self, index: FrameIndex) -> Option<&Arc<FrameData>>
        ensures { option_map (λ arc. shared_frame arc.now) result ≡ map.get self.now index }
    {
        self.frames.get(index)
    }

    /// Adds a frame, whose index must be above all others. Fails only with `Memory`; nothing changes then.
    pub fn push(&mut self, frame: Arc<FrameData>) -> Result<()>
        requires { (index : ℕ) → index_of (shared_frame frame) ≤ index →
            map.get self.old index ≡ None }
        ensures ok { OnOk result (
            self.new
            ≡ map.insert self.old (index_of (shared_frame frame)) (shared_frame frame)) }
        ensures err { OnErr result (self.new ≡ self.old) }
        ensures cause { IsOkUnless result Error.Memory }
    {
        let is_unpacked = frame.has_unpacked();
        let bytes = frame.bytes_of_ram_used();
        self.frames.push(frame)?;
        self.sums.raise(is_unpacked, bytes);
        Ok(())
    }

    /// Replaces the frame that has the same index as `frame`. There has to be such a frame.
    pub fn replace(&mut self, frame: Arc<FrameData>)
        requires { IsSome (map.get self.old (index_of (shared_frame frame))) }
        ensures { self.new
            ≡ map.insert self.old (index_of (shared_frame frame)) (shared_frame frame) }
    {
        let is_unpacked = frame.has_unpacked();
        let bytes = frame.bytes_of_ram_used();
        let before = self.frames.replace(frame);
        self.sums.lower(before);
        self.sums.raise(is_unpacked, bytes);
    }

    /// Removes the frame with this index, if there is one.
    pub fn remove(&mut self, index: FrameIndex)
        ensures { self.new ≡ map.remove self.old index }
    {
        let before = self.frames.remove(index);
        self.sums.lower(before);
    }

    /// Moves the oldest frame of the row of newest frames into the map of older ones (see [`FrameRows`]), so that the frames
    /// after it can be removed from the row's front. The set of frames stays the same.
    pub fn set_aside(&mut self)
        ensures { self.new ≡ self.old }
    {
        self.frames.set_aside();
    }

    /// Iterates over the frames in ascending order of index.
    pub fn iter(&self) -> FrameRowsIter<'_>
        ensures { frames_of (frames_left result) ≡ map.values self.now }
    {
        self.frames.iter()
    }

    /// Returns a copy, which shares the frames. Fails only with `Memory`.
    pub fn clone(&self) -> Result<HeldFrames>
        ensures ok { IfOk result (λ copy. copy ≡ self.now) }
        ensures cause { IsOkUnless result Error.Memory }
    {
        Ok(HeldFrames {
            frames: self.frames.clone()?,
            sums: self.sums,
        })
    }

    /// Returns the number of frames, how many of them are held unpacked, and how many bytes all of them take. A number that
    /// doesn't fit `usize` is `usize::MAX`.
    pub fn stats(&self) -> FrameStats
        ensures { result ≡ stats_of (map.values self.now) }
    {
        self.sums.stats(self.frames.len())
    }
}
