//! Iterators over the frames of a view.
ghost use Rattle.std.specs.Prelude.{◌≡◌};
ghost use Rattle.std.specs.Iterator.{YieldsFirstBy, item_count};
ghost use Rattle.puffin_view.specs.View.FrameOf.{shared_frame};

use crate::profile_view::frame_rows::FrameRowsIter;
use crate::profile_view::held_frames::HeldFrames;
use crate::profile_view::slow_rank::{SlowRank, has_index};
use puffin_frames::frame_data::{FrameData, FrameIndex};
use std::collections::{VecDeque, vec_deque};
use std::sync::Arc;

/// Iterates over recent frames of a view, oldest first. Returned by
/// [`FrameView::recent_frames`](crate::profile_view::FrameView::recent_frames) and `latest_frames`.
#[must_use = "iterators are lazy and do nothing unless consumed"]
#[derive(Drop)]
pub struct RecentFrames<'a> {
    /// The indices of the frames that are left.
    rest: vec_deque::Iter<'a, FrameIndex>,
    held: &'a HeldFrames,
}

impl<'a> RecentFrames<'a> {
    /// Makes an iterator over the frames that are held under these indices.
    pub(crate) fn new(rest: vec_deque::Iter<'a, FrameIndex>, held: &'a HeldFrames) -> Self
        ensures rest { result.rest ≡ rest.entry }
        ensures held { result.held.now ≡ held.now }
    {
        RecentFrames { rest, held }
    }
}

impl<'a> Iterator for RecentFrames<'a> {
    ghost use Rattle.puffin_view.specs.View.Listings.{recent_left};

    type Item = &'a Arc<FrameData>;

    ghost next_gives = { YieldsFirstBy (λ arc. shared_frame arc.now) recent_left };

    ghost remaining = { item_count recent_left };

    fn next(&mut self) -> Option<&'a Arc<FrameData>> {
        while let Some(index) = self.rest.next() {
            let held = self.held;
            if let Some(frame) = held.get(*index) {
                return Some(frame);
            }
        }
        None
    }
}

/// Iterates over all frames of a view, each once, in ascending order of index. Returned by
/// [`FrameView::all_uniq`](crate::profile_view::FrameView::all_uniq).
#[must_use = "iterators are lazy and do nothing unless consumed"]
#[derive(Drop)]
pub struct AllFrames<'a> {
    rest: FrameRowsIter<'a>,
}

impl<'a> AllFrames<'a> {
    /// Makes an iterator over these frames.
    pub(crate) fn new(rest: FrameRowsIter<'a>) -> Self
        ensures { result.rest ≡ rest.entry }
    {
        AllFrames { rest }
    }
}

impl<'a> Iterator for AllFrames<'a> {
    ghost use Rattle.puffin_view.specs.View.Listings.{all_left};

    type Item = &'a Arc<FrameData>;

    ghost next_gives = { YieldsFirstBy (λ arc. shared_frame arc.now) all_left };

    ghost remaining = { item_count all_left };

    fn next(&mut self) -> Option<&'a Arc<FrameData>> {
        self.rest.next()
    }
}

/// Iterates over the slowest frames of a view, in ascending order of index. Returned by
/// [`FrameView::slowest_frames_chronological`](crate::profile_view::FrameView::slowest_frames_chronological).
#[must_use = "iterators are lazy and do nothing unless consumed"]
#[derive(Drop)]
pub struct SlowestFrames<'a> {
    /// All frames that are left, slow or not.
    rest: FrameRowsIter<'a>,
    slow: &'a VecDeque<SlowRank>,
}

impl<'a> SlowestFrames<'a> {
    /// Makes an iterator over those frames of `rest` that have a rank in `slow`.
    pub(crate) fn new(rest: FrameRowsIter<'a>, slow: &'a VecDeque<SlowRank>) -> Self
        ensures rest { result.rest ≡ rest.entry }
        ensures slow { result.slow.now ≡ slow.now }
    {
        SlowestFrames { rest, slow }
    }
}

impl<'a> Iterator for SlowestFrames<'a> {
    ghost use Rattle.puffin_view.specs.View.Listings.{slowest_left};

    type Item = &'a Arc<FrameData>;

    ghost next_gives = { YieldsFirstBy (λ arc. shared_frame arc.now) slowest_left };

    ghost remaining = { item_count slowest_left };

    fn next(&mut self) -> Option<&'a Arc<FrameData>> {
        while let Some(frame) = self.rest.next() {
            if has_index(self.slow, frame.frame_index()) {
                return Some(frame);
            }
        }
        None
    }
}
