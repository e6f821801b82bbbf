//! Frames sorted by index: the newest in a row, older ones in a map.
ghost use Rattle.std.specs.Prelude.{◌≡◌, ◌<◌, None, length, IfNone, IfSome, nat_eq, false};
ghost use Rattle.std.specs.BTreeMap.{is_at};
ghost use Rattle.std.specs.List.{HoldsAt};
ghost use Rattle.std.specs.List.Sorted.{IsStrictlySortedBy};
ghost use Rattle.std.specs.Map.{keys_of, lookup};
ghost use Rattle.std.specs.Option.{option_map_or};
ghost use Rattle.std.specs.Ordering.{nat_cmp};
ghost use Rattle.puffin_view.specs.View.ViewedFrames.{index_of};
ghost use Rattle.puffin_view.specs.View.FrameOf.{shared_frame};
ghost use Rattle.puffin_view.specs.inner.Held.{keyed, AreInOrder};
ghost use Rattle.std.proofs.Props.{props};

use puffin_data::{Error, Result};
use puffin_frames::frame_data::{FrameData, FrameIndex};
use std::alloc::Global;
use std::collections::{BTreeMap, VecDeque, btree_map, vec_deque};
use std::mem;
use std::sync::Arc;

/// Frames by index, each once: the newest in a row, older ones in a map. All indices in the map are below those in the row.
#[derive(Drop)]
pub(crate) struct FrameRows {
    /// The older frames by their indices.
    older: BTreeMap<FrameIndex, Arc<FrameData>>,
    /// The newest frames, in ascending order of index.
    newest: VecDeque<Arc<FrameData>>,
    ghost in_order: { AreInOrder older.entries newest.items } by { Prim.hlevel props },
}

impl FrameRows {
    ghost use Rattle.std.specs.Prelude.{◌∷◌, ◌++◌, [], IfOk, IsSome, OnErr, OnOk, IsOkUnless};
    ghost use Rattle.std.specs.BTreeMap.{insert_entry};
    ghost use Rattle.std.specs.List.{AllByRecursion, AllZip};
    ghost use Rattle.std.specs.Map.{values_of, remove_entry};
    ghost use Rattle.std.specs.Option.{option_copied};
    ghost use Rattle.std.specs.Arc.{arc_value};
    ghost use Rattle.puffin_data.specs.declared.error.Error.{Error};
    ghost use Rattle.puffin_view.specs.View.Listings.{frames_left};
    ghost use Rattle.puffin_view.specs.inner.Rows.{rows_of};

    /// Makes an empty `FrameRows`. Allocates nothing.
    pub fn new(alloc: Global) -> FrameRows
        ensures { rows_of result ≡ [] }
    {
        FrameRows {
            older: BTreeMap::new(alloc),
            newest: VecDeque::new(alloc),
        }
    }

    /// Returns the number of frames.
    pub fn len(&self) -> usize
        ensures { result ≡ length (rows_of self.now) }
    {
        self.older.len() + self.newest.len()
    }

    /// Returns the frame with this index.
    pub fn get(&self, index: FrameIndex) -> Option<&Arc<FrameData>>
        ensures { option_copied result ≡ lookup (is_at (nat_cmp index)) (rows_of self.now) }
    {
        match place_in(&self.newest, index) {
            Some(at) => self.newest.get(at),
            None => self.older.get(&index),
        }
    }

    /// Adds a frame, whose index must be above all others. Fails only with `Memory`; nothing changes then.
    pub fn push(&mut self, frame: Arc<FrameData>) -> Result<()>
        requires { AllByRecursion (λ index. index < index_of (shared_frame frame)) (
            keys_of (rows_of self.old)) }
        ensures ok { OnOk result (
            rows_of self.new
            ≡ rows_of self.old ++ (index_of (shared_frame frame), frame) ∷ []) }
        ensures err { OnErr result (rows_of self.new ≡ rows_of self.old) }
        ensures cause { IsOkUnless result Error.Memory }
    {
        self.newest.reserve(1)?;
        self.newest.push_back_reserved(frame);
        Ok(())
    }

    /// Replaces the frame that has the same index as `frame`, and returns the old one. There has to be such a frame.
    pub fn replace(&mut self, frame: Arc<FrameData>) -> Option<Arc<FrameData>>
        requires { IsSome (
            lookup (is_at (nat_cmp (index_of (shared_frame frame)))) (rows_of self.old)) }
        ensures old { result
            ≡ lookup (is_at (nat_cmp (index_of (shared_frame frame)))) (rows_of self.old) }
        ensures entries { rows_of self.new
            ≡ insert_entry nat_cmp (rows_of self.old) (index_of (shared_frame frame)) frame }
    {
        let index = frame.frame_index();
        match place_in(&self.newest, index) {
            Some(at) => Some(mem::replace(&mut self.newest[at], frame)),
            None => match self.older.insert(index, frame) {
                Ok(before) => before,
                Err(_) => unreachable!(),
            },
        }
    }

    /// Removes the frame with this index, if there is one, and returns it.
    pub fn remove(&mut self, index: FrameIndex) -> Option<Arc<FrameData>>
        ensures value { result ≡ lookup (is_at (nat_cmp index)) (rows_of self.old) }
        ensures entries { rows_of self.new
            ≡ remove_entry (is_at (nat_cmp index)) (rows_of self.old) }
    {
        match place_in(&self.newest, index) {
            Some(at) => self.newest.remove(at),
            None => self.older.remove(&index),
        }
    }

    /// Moves the oldest frame of the row into the map. If there is no memory for that, it stays in the row.
    pub fn set_aside(&mut self)
        ensures { rows_of self.new ≡ rows_of self.old }
    {
        let Some(frame) = self.newest.pop_front() else {
            return;
        };
        let index = frame.frame_index();
        if let Err(refused) = self.older.insert(index, frame) {
            self.newest.push_front_reserved(refused.value.1);
        }
    }

    /// Iterates over the frames in ascending order of index.
    pub fn iter(&self) -> FrameRowsIter<'_>
        ensures { frames_left result ≡ values_of (rows_of self.now) }
    {
        FrameRowsIter {
            older: self.older.values(),
            newest: self.newest.iter(),
        }
    }

    /// Returns a copy, which shares the frames. Fails only with `Memory`.
    pub fn clone(&self) -> Result<FrameRows>
        ensures ok { IfOk result (λ copy.
            AllZip (λ entry copied.
            (copied.0 ≡ entry.0) × (arc_value copied.1 ≡ arc_value entry.1)) (
            rows_of self.now) (rows_of copy)) }
        ensures cause { IsOkUnless result Error.Memory }
    {
        Ok(FrameRows {
            older: self.older.clone()?,
            newest: self.newest.clone()?,
        })
    }
}

/// Returns the place of the frame with this index in a row. Before it searches, it tries two places: the one where the frame is
/// if the row skips no index before it, and the last.
fn place_in(row: &VecDeque<Arc<FrameData>>, index: FrameIndex) -> Option<usize>
    requires { IsStrictlySortedBy nat_cmp (keys_of (keyed row.now.items)) }
    ensures found { IfSome result (λ at.
        (at < length row.now.items)
        × HoldsAt (λ arc. index_of (shared_frame arc) ≡ index) row.now.items at) }
    ensures none { IfNone result (
        lookup (is_at (nat_cmp index)) (keyed row.now.items) ≡ None) }
{
    // Indices strictly increase along the row, so the frame is at most as many places behind the first as its index is above.
    if let Some(first) = row.front() {
        let at = index.saturating_sub(first.frame_index()) as usize;
        if is_frame_with(row.get(at), index) {
            return Some(at);
        }
    }
    if is_frame_with(row.back(), index) {
        return Some(row.len() - 1);
    }
    match row.binary_search_by_key(&index, |frame| frame.frame_index()) {
        Ok(at) => Some(at),
        Err(_) => None,
    }
}

/// Returns whether there is a frame and it has this index.
fn is_frame_with(frame: Option<&Arc<FrameData>>, index: FrameIndex) -> bool
    ensures { result
        ≡ option_map_or (λ arc. nat_eq (index_of (shared_frame arc.now)) index) frame.entry false }
{
    match frame {
        Some(frame) => frame.frame_index() == index,
        None => false,
    }
}

/// Iterates over frames in rows, in ascending order of index.
#[derive(Drop)]
pub(crate) struct FrameRowsIter<'a> {
    older: btree_map::Values<'a, FrameIndex, Arc<FrameData>>,
    newest: vec_deque::Iter<'a, Arc<FrameData>>,
}

impl<'a> Iterator for FrameRowsIter<'a> {
    ghost use Rattle.std.specs.Iterator.{YieldsFirstBy, item_count};
    ghost use Rattle.puffin_view.specs.View.Listings.{frames_left};

    type Item = &'a Arc<FrameData>;

    ghost next_gives = { YieldsFirstBy (λ arc. arc.now) frames_left };

    ghost remaining = { item_count frames_left };

    fn next(&mut self) -> Option<&'a Arc<FrameData>> {
        match self.older.next() {
            Some(frame) => Some(frame),
            None => self.newest.next(),
        }
    }
}
