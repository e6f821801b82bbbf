//! Views of frames.
ghost use Rattle.std.specs.Prelude.{◌≡◌, ◌↔◌, [], IfOk, IsTrue, IsOkUnless};
ghost use Rattle.std.specs.Option.{option_map};
ghost use Rattle.puffin_data.specs.declared.error.Error.{Error};
ghost use Rattle.puffin_threads.specs.Details.Collection.{no_details};
ghost use Rattle.puffin_view.specs.View.Ranking.{last_of, last_in};
ghost use Rattle.puffin_view.specs.View.ViewedFrames.{chronological};
ghost use Rattle.puffin_view.specs.View.FrameOf.{shared_frame};
ghost use Rattle.puffin_view.specs.View.{empty_view, all_uniq, Took};
ghost use Rattle.puffin_view.specs.View.Stats.{stats_of};
ghost use Rattle.puffin_view.specs.View.Listings.{recent_left, all_left, slowest_left};
ghost use Rattle.puffin_view.specs.View.Known.{view_of, collection_of};

mod adding;
mod limits;

use crate::profile_view::held_frames::HeldFrames;
use crate::profile_view::listings::{AllFrames, RecentFrames, SlowestFrames};
use crate::profile_view::slow_rank::SlowRank;
use crate::profile_view::stats::FrameStats;
use puffin_data::{Error, Result};
use puffin_frames::frame_data::{FrameData, FrameIndex};
use puffin_threads::scope_details::ScopeCollection;
use std::alloc::Global;
use std::collections::VecDeque;
use std::marker::Model;
use std::sync::Arc;

/// Keeps the last frames that were added and the slowest ones, with the details of all scopes that any frame listed.
///
/// ```
/// let mut view = FrameView::new(alloc);
/// view.add_frame(frame)?;
/// for frame in view.recent_frames() {
///     let (index, duration) = (frame.frame_index(), frame.duration_ns());
/// }
/// ```
#[derive(Drop)]
pub struct FrameView {
    /// Each frame that is recent or slow, once, by its index.
    held: HeldFrames,
    /// The indices of the recent frames, oldest first.
    recent: VecDeque<FrameIndex>,
    /// The ranks of the slowest frames, longest first.
    slow: VecDeque<SlowRank>,
    /// The index of the frame added last.
    last: Option<FrameIndex>,
    /// The maximum number of recent frames.
    max_recent: usize,
    /// The maximum number of slowest frames.
    max_slow: usize,
    /// Whether the newest frame is packed before another is added.
    pack_frames: bool,
    /// The details of all scopes that any added frame listed.
    scope_collection: ScopeCollection,
}

impl Model for FrameView {
    ghost use Rattle.std.specs.Prelude.{map};
    ghost use Rattle.puffin_view.specs.View.Known.{KnownView};
    ghost use Rattle.puffin_view.specs.inner.Codes.{known_code};

    ghost Value = { KnownView };

    ghost coded = { known_code };

    ghost use Rattle.puffin_view.specs.View.Ranking.{rank_index};
    ghost use Rattle.puffin_view.specs.inner.Store.{frames_under, IsStored};

    ghost view = { λ view.
        record {
          frames = record {
            recent = frames_under view.held view.recent.items;
            slow = frames_under view.held (map rank_index view.slow.items);
            last = view.last;
            max_recent = view.max_recent;
            max_slow = view.max_slow;
            packs = view.pack_frames;
          };
          scope_collection = view.scope_collection;
        } };

    ghost invariant = { λ view. IsStored view.held view.recent.items view.slow.items view.last };
}

impl FrameView {
    /// Makes an empty view that keeps up to 1,000 recent and 256 slow frames, with packing on. Allocates nothing.
    ///
    /// ```
    /// let mut view = FrameView::new(alloc);
    /// view.set_max_recent(200);
    /// ```
    pub fn new(alloc: Global) -> FrameView
        ensures frames { view_of result ≡ empty_view }
        ensures took { Took [] (view_of result) }
        ensures collection { collection_of result ≡ no_details }
    {
        FrameView {
            held: HeldFrames::new(alloc),
            recent: VecDeque::new(alloc),
            slow: VecDeque::new(alloc),
            last: None,
            max_recent: 1000,
            max_slow: 256,
            pack_frames: true,
            scope_collection: ScopeCollection::new(alloc),
        }
    }

    /// Returns whether the view has no frames.
    pub fn is_empty(&self) -> bool
        ensures { IsTrue result
            ↔ (((view_of self.now).recent ≡ []) × ((view_of self.now).slow ≡ [])) }
    {
        self.recent.is_empty() && self.slow.is_empty()
    }

    /// Returns the details of every scope listed in a frame that was ever added, including frames that are no longer held.
    pub fn scope_collection(&self) -> &ScopeCollection
        ensures { result.now ≡ collection_of self.now }
    {
        &self.scope_collection
    }

    /// Returns the newest frame, or `None` if there is no recent one.
    pub fn latest_frame(&self) -> Option<&Arc<FrameData>>
        ensures { option_map (λ arc. shared_frame arc.now) result
            ≡ last_in (view_of self.now).recent }
    {
        self.held.get(*self.recent.back()?)
    }

    /// Iterates over the last `n` of the recent frames, oldest first; over all of them if there are fewer.
    ///
    /// ```
    /// for frame in view.latest_frames(10) {
    ///     let duration = frame.duration_ns();
    /// }
    /// ```
    pub fn latest_frames(&self, n: usize) -> RecentFrames<'_>
        ensures { recent_left result ≡ last_of n (view_of self.now).recent }
    {
        let first = self.recent.len().saturating_sub(n);
        RecentFrames::new(self.recent.range(first..), &self.held)
    }

    /// Iterates over the recent frames, oldest first.
    pub fn recent_frames(&self) -> RecentFrames<'_>
        ensures { recent_left result ≡ (view_of self.now).recent }
    {
        RecentFrames::new(self.recent.iter(), &self.held)
    }

    /// Iterates over the slowest frames, in ascending order of index.
    pub fn slowest_frames_chronological(&self) -> SlowestFrames<'_>
        ensures { slowest_left result ≡ chronological (view_of self.now).slow }
    {
        SlowestFrames::new(self.held.iter(), &self.slow)
    }

    /// Iterates over the recent and the slowest frames, each once, in ascending order of index.
    pub fn all_uniq(&self) -> AllFrames<'_>
        ensures { all_left result ≡ all_uniq (view_of self.now) }
    {
        AllFrames::new(self.held.iter())
    }

    /// Returns how many frames are held, how many of them are held unpacked, and how many bytes all of them take. Reads running
    /// sums, so it doesn't iterate over the frames.
    ///
    /// ```
    /// let (frames, bytes) = (view.stats().frames(), view.stats().bytes_of_ram_used());
    /// ```
    pub fn stats(&self) -> FrameStats
        ensures { result ≡ stats_of (all_uniq (view_of self.now)) }
    {
        self.held.stats()
    }

    /// Returns the same as [`FrameView::stats`], but iterates over all frames.
    pub fn stats_full(&self) -> FrameStats
        ensures { result ≡ stats_of (all_uniq (view_of self.now)) }
    {
        FrameStats::from_frames(self.all_uniq())
    }

    /// Returns a copy, which shares this view's frames and details. Fails only with `Memory`.
    pub fn clone(&self) -> Result<FrameView>
        ensures same { IfOk result (λ copy. copy ≡ self.now) }
        ensures cause { IsOkUnless result Error.Memory }
    {
        Ok(FrameView {
            held: self.held.clone()?,
            recent: self.recent.clone()?,
            slow: self.slow.clone()?,
            last: self.last,
            max_recent: self.max_recent,
            max_slow: self.max_slow,
            pack_frames: self.pack_frames,
            scope_collection: self.scope_collection.clone()?,
        })
    }
}
