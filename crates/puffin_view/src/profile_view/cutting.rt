//! Cutting the lists of a view, and dropping the frames that are then in neither list.
ghost use Rattle.std.specs.Prelude.{◌≡◌, ◌-◌, ◌<◌, take, drop, map, length, nat_eq};
ghost use Rattle.std.specs.Ordering.{nat_cmp};
ghost use Rattle.std.specs.List.{list_any};
ghost use Rattle.std.specs.VecDeque.{deque_len, deque_capacity};
ghost use Rattle.std.specs.List.Sorted.{IsStrictlySortedBy};
ghost use Rattle.puffin_view.specs.View.Ranking.{last_of, rank_index};
ghost use Rattle.puffin_view.specs.inner.Ranks.{ranks_after, ranks_gone, AreRanked, LetsGo};
ghost use Rattle.puffin_view.specs.View.FrameRanks.{rank_cmp};

use crate::profile_view::held_frames::HeldFrames;
use crate::profile_view::slow_rank::SlowRank;
use puffin_frames::frame_data::FrameIndex;
use std::cmp::Reverse;
use std::collections::VecDeque;

/// Returns whether the frame with this index is among the recent ones.
fn is_recent(recent: &VecDeque<FrameIndex>, index: FrameIndex) -> bool
    requires { IsStrictlySortedBy nat_cmp recent.now.items }
    ensures { result ≡ list_any (λ other. nat_eq other index) recent.now.items }
{
    recent.binary_search(&index).is_ok()
}

/// Returns whether the frame with this index is among the slowest.
fn is_slow(held: &HeldFrames, slow: &VecDeque<SlowRank>, index: FrameIndex) -> bool
    requires sorted { IsStrictlySortedBy rank_cmp slow.now.items }
    requires ranked { AreRanked held.now slow.now.items }
    ensures { result ≡ list_any (λ rank. nat_eq rank.frame_index index) slow.now.items }
{
    match held.get(index) {
        Some(frame) => {
            let rank = SlowRank {
                duration_ns: Reverse(frame.duration_ns()),
                frame_index: index,
            };
            rank.is_among(slow)
        }
        None => false,
    }
}

/// Inserts a rank among the slowest if it belongs there, and then cuts them to `max`. Drops frames that are then neither slow
/// nor recent.
pub(super) fn enter_slow(
    held: &mut HeldFrames,
    recent: &VecDeque<FrameIndex>,
    slow: &mut VecDeque<SlowRank>,
    rank: SlowRank,
    max: usize,
)
    requires room { deque_len slow.old < deque_capacity slow.old }
    requires rising { IsStrictlySortedBy nat_cmp recent.now.items }
    requires sorted { IsStrictlySortedBy rank_cmp slow.old.items }
    ensures slow { slow.new.items ≡ ranks_after max slow.old.items rank }
    ensures held { LetsGo held.old recent.now.items
        (map rank_index (ranks_gone max slow.old.items rank)) held.new }
{
    if rank.enters(slow, max) {
        let at = rank.place_in(slow);
        match slow.insert(at, rank) {
            Ok(()) => {}
            Err(_) => unreachable!(),
        }
        cut_slow(held, recent, slow, max);
    }
}

/// Cuts the slowest frames to `max`. Drops frames that are then neither slow nor recent.
pub(super) fn cut_slow(
    held: &mut HeldFrames,
    recent: &VecDeque<FrameIndex>,
    slow: &mut VecDeque<SlowRank>,
    max: usize,
)
    requires { IsStrictlySortedBy nat_cmp recent.now.items }
    ensures slow { slow.new.items ≡ take max slow.old.items }
    ensures held { LetsGo held.old recent.now.items (map rank_index (drop max slow.old.items))
        held.new }
{
    for rank in slow.range(max.min(slow.len())..) {
        if !is_recent(recent, rank.frame_index) {
            held.remove(rank.frame_index);
        }
    }
    slow.truncate(max);
}

/// Cuts the recent frames to the last `max`. Drops frames that are then neither recent nor slow.
pub(super) fn cut_recent(
    held: &mut HeldFrames,
    recent: &mut VecDeque<FrameIndex>,
    slow: &VecDeque<SlowRank>,
    max: usize,
)
    requires sorted { IsStrictlySortedBy rank_cmp slow.now.items }
    requires ranked { AreRanked held.old slow.now.items }
    ensures recent { recent.new.items ≡ last_of max recent.old.items }
    ensures held { LetsGo held.old (map rank_index slow.now.items)
        (take (length recent.old.items - max) recent.old.items) held.new }
{
    for _ in 0..recent.len().saturating_sub(max) {
        if let Some(index) = recent.pop_front() {
            if is_slow(held, slow, index) {
                // The frame stays, but not in front of the row of the newest frames, from which the next are removed.
                held.set_aside();
            } else {
                held.remove(index);
            }
        }
    }
}
