//! Selects the slowest of a list of frames.
ghost use Rattle.std.specs.Prelude.{◌≡◌, ◌++◌, IfOk, OnOk, map, filter_map, slice_get, IsOkUnless};
ghost use Rattle.std.specs.Option.{option_to_list};
ghost use Rattle.puffin_data.specs.declared.error.Error.{Error};
ghost use Rattle.puffin_view.specs.View.FrameOf.{frame_of, frames_of};
ghost use Rattle.puffin_view.specs.View.Selection.{rank_at, ranks_from, rank_by_index, IsSelection};
ghost use Rattle.puffin_view.specs.inner.Selections.{rank_by_duration};

use itertools::Itertools;
use puffin_data::{NanoSecond, Result};
use puffin_frames::frame_data::{FrameData, FrameIndex};
use std::alloc::Global;
use std::cmp::Reverse;
use std::sync::Arc;

/// A place in a list of frames. Places are ordered by the duration of their frame, longest first, then by its index, then by
/// place.
#[derive(Clone, Copy, Debug, PartialEq, Eq, PartialOrd, Ord)]
struct ByDuration {
    duration_ns: Reverse<NanoSecond>,
    frame_index: FrameIndex,
    place: usize,
}

impl ByDuration {
    /// Makes the place of a frame, given where it is in the list.
    fn of(frame: &FrameData, place: usize) -> ByDuration
        ensures { rank_by_duration result ≡ rank_at place (frame_of frame.now) }
    {
        ByDuration {
            duration_ns: Reverse(frame.duration_ns()),
            frame_index: frame.frame_index(),
            place,
        }
    }
}

/// A place in a list of frames. Places are ordered by the index of their frame, then by place. No two places are equal, so the
/// duration is never decisive.
#[derive(Clone, Copy, Debug, PartialEq, Eq, PartialOrd, Ord)]
pub(super) struct ByIndex {
    frame_index: FrameIndex,
    place: usize,
    duration_ns: NanoSecond,
}

/// Returns the places of all frames of a list, in the order of the list. Fails only with `Memory`.
fn places_by_duration(alloc: Global, frames: &[Arc<FrameData>]) -> Result<Vec<ByDuration>>
    ensures ok { IfOk result (λ places.
        map rank_by_duration places.items ≡ ranks_from 0 (frames_of frames.now)) }
    ensures cause { IsOkUnless result Error.Memory }
{
    let mut places = Vec::with_capacity(alloc, frames.len())?;
    'frames: for (place, frame) in frames.iter().enumerate() {
        places.push(ByDuration::of(frame, place))?;
    }
    Ok(places)
}

/// Converts places to `ByIndex`, in the same order. Fails only with `Memory`.
fn places_by_index(alloc: Global, slow: &[ByDuration]) -> Result<Vec<ByIndex>>
    ensures ok { IfOk result (λ places.
        map rank_by_index places.items ≡ map rank_by_duration slow.now) }
    ensures cause { IsOkUnless result Error.Memory }
{
    let mut places = Vec::with_capacity(alloc, slow.len())?;
    for at in slow {
        places.push(ByIndex {
            frame_index: at.frame_index,
            place: at.place,
            duration_ns: at.duration_ns.0,
        })?;
    }
    Ok(places)
}

/// Appends the frame at a place, if there is one. Fails only with `Memory`.
fn push_at(all: &mut Vec<Arc<FrameData>>, frames: &[Arc<FrameData>], place: usize) -> Result<()>
    ensures ok { OnOk result (
        frames_of all.new.items
        ≡ frames_of all.old.items ++ option_to_list (slice_get (frames_of frames.now) place)) }
    ensures cause { IsOkUnless result Error.Memory }
{
    match frames.get(place) {
        Some(frame) => {
            all.push(Arc::try_clone(frame)?)?;
            Ok(())
        }
        None => Ok(()),
    }
}

/// Returns the frames at these places, in this order. Fails only with `Memory`.
fn frames_at(
    alloc: Global,
    frames: &[Arc<FrameData>],
    places: &[ByIndex],
) -> Result<Vec<Arc<FrameData>>>
    ensures ok { IfOk result (λ chosen.
        frames_of chosen.items
        ≡ filter_map (λ rank. slice_get (frames_of frames.now) rank.place) (
        map rank_by_index places.now)) }
    ensures cause { IsOkUnless result Error.Memory }
{
    let mut all = Vec::with_capacity(alloc, places.len())?;
    for chosen in places {
        push_at(&mut all, frames, chosen.place)?;
    }
    Ok(all)
}

/// Returns the `max` slowest frames of a list, or all if there are fewer. Of equally slow frames, those with lower indices are
/// preferred, then those earlier in the list. The result is sorted by index, then by place in the list. Fails only with
/// `Memory`.
///
/// ```
/// let slowest = select_slowest(alloc, &frames, 10)?;
/// ```
pub fn select_slowest(
    alloc: Global,
    frames: &[Arc<FrameData>],
    max: usize,
) -> Result<Vec<Arc<FrameData>>>
    ensures ok { IfOk result (λ chosen.
        IsSelection max (frames_of frames.now) (frames_of chosen.items)) }
    ensures cause { IsOkUnless result Error.Memory }
{
    // First the slowest are chosen, by duration; then these are sorted by index.
    let places = places_by_duration(alloc, frames)?;
    let ranked: Vec<ByDuration> = places.into_iter().sorted(alloc)?.take(max).collect(alloc)?;
    let old = places_by_index(alloc, &ranked)?;
    let chosen: Vec<ByIndex> = old.into_iter().sorted(alloc)?.collect(alloc)?;
    frames_at(alloc, frames, &chosen)
}
