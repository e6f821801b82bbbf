//! Ranks of frames among the slowest.
ghost use Rattle.std.specs.Prelude.{◌≡◌, ◌≤◌, nat_eq, length, insert};
ghost use Rattle.std.specs.List.{list_any};
ghost use Rattle.std.specs.Ordering.{is_eq};
ghost use Rattle.std.specs.List.Sorted.{IsStrictlySortedBy};
ghost use Rattle.puffin_view.specs.View.FrameOf.{frame_of};
ghost use Rattle.puffin_view.specs.View.Ranking.{place};
ghost use Rattle.puffin_view.specs.inner.Ranks.{is_before, rank_enters};
ghost use Rattle.puffin_view.specs.View.FrameRanks.{rank_of, rank_cmp};

use puffin_data::NanoSecond;
use puffin_frames::frame_data::{FrameData, FrameIndex};
use std::cmp::Reverse;
use std::collections::VecDeque;

/// A frame's rank among the slowest. Ranks are ordered by duration, longest first, then by index.
#[derive(Clone, Copy, Debug, PartialEq, Eq, PartialOrd, Ord)]
pub(crate) struct SlowRank {
    pub duration_ns: Reverse<NanoSecond>,
    pub frame_index: FrameIndex,
}

impl SlowRank {
    /// Returns the rank of a frame.
    pub fn of(frame: &FrameData) -> SlowRank
        ensures { result ≡ rank_of (frame_of frame.now) }
    {
        SlowRank {
            duration_ns: Reverse(frame.duration_ns()),
            frame_index: frame.frame_index(),
        }
    }

    /// Returns the place at which the rank belongs in the sorted ranks.
    pub fn place_in(self, slow: &VecDeque<SlowRank>) -> usize
        requires { IsStrictlySortedBy rank_cmp slow.now.items }
        ensures bound { result ≤ length slow.now.items }
        ensures placed { insert slow.now.items result self ≡ place is_before self slow.now.items }
    {
        slow.partition_point(|other| *other <= self)
    }

    /// Returns whether the rank is in the sorted ranks. Doesn't search if the rank comes after the last of them.
    pub fn is_among(self, slow: &VecDeque<SlowRank>) -> bool
        requires { IsStrictlySortedBy rank_cmp slow.now.items }
        ensures { result ≡ list_any (λ other. is_eq (rank_cmp other self)) slow.now.items }
    {
        match slow.back() {
            Some(last) => self <= *last && slow.binary_search(&self).is_ok(),
            None => false,
        }
    }

    /// Returns whether the rank belongs among the `max` slowest. It does if there is room, or if it comes before the last of
    /// them.
    pub fn enters(self, slow: &VecDeque<SlowRank>, max: usize) -> bool
        ensures { result ≡ rank_enters max slow.now.items self }
    {
        if slow.len() < max {
            return true;
        }
        match slow.back() {
            Some(last) => self < *last,
            None => false,
        }
    }
}

/// Returns whether the frame with this index is among the slowest.
pub(crate) fn has_index(slow: &VecDeque<SlowRank>, index: FrameIndex) -> bool
    ensures { result ≡ list_any (λ rank. nat_eq rank.frame_index index) slow.now.items }
{
    slow.iter().any(|rank| rank.frame_index == index)
}
