//! Adding frames to a view.
ghost use Rattle.std.specs.Prelude.{◌≡◌, ◌⊎◌, ◌↔◌, IsTrue, IsFalse, OnOk, OnErr, IfErr, IsOkUnless};
ghost use Rattle.puffin_data.specs.declared.error.Error.{Error};
ghost use Rattle.puffin_threads.specs.Details.Collection.{no_details};
ghost use Rattle.puffin_view.specs.View.ViewedFrames.{fields_of, index_of};
ghost use Rattle.puffin_view.specs.View.FrameOf.{shared_frame};
ghost use Rattle.puffin_view.specs.View.{without_frames, with_newest_packed, is_past, joined_by, after_taking, KeepsFrames};
ghost use Rattle.puffin_view.specs.inner.Kept.{IsSteady};
ghost use Rattle.puffin_view.specs.View.Known.{view_of, collection_of, with_frames, lacks_ids};
ghost use Rattle.puffin_view.specs.View.Adding.{HoldsAlso, Adds, FailsToAdd};

use crate::profile_view::cutting::{cut_recent, enter_slow};
use crate::profile_view::frame_view::FrameView;
use crate::profile_view::held_frames::HeldFrames;
use crate::profile_view::slow_rank::SlowRank;
use puffin_data::{Error, Result};
use puffin_frames::frame_data::{FrameData, FrameIndex};
use puffin_threads::scope_details::ScopeCollection;
use std::collections::VecDeque;
use std::mem;
use std::sync::Arc;

impl FrameView {
    /// Adds a frame to the view, and its details to [`FrameView::scope_collection`]. The frame becomes the newest of the recent
    /// ones. It also becomes one of the slowest if there is room, or if it took longer than one of them. Frames beyond both
    /// limits are dropped.
    ///
    /// If the frame's index isn't above that of the frame added last, all other frames are dropped. Otherwise, if packing is
    /// on, the newest frame so far is packed first.
    ///
    /// Fails with `MissingId` exactly when some of the frame's details have no id, and then changes nothing. Otherwise fails
    /// only with `Memory`; a prefix of the frame's details may be in the collection afterwards, and the newest frame so far may
    /// be packed if packing is on and the index is above that of the frame added last.
    ///
    /// ```
    /// if let Some(frame) = profiler.collect_frame()? {
    ///     view.add_frame(frame)?;
    /// }
    /// ```
    pub fn add_frame(&mut self, frame: Arc<FrameData>) -> Result<()>
        // If the view held the last and the slowest of some frames, it now holds the last and the slowest of those frames and
        // this one or, after a reset, of this one alone.
        ensures holds { OnOk result (
            HoldsAlso (shared_frame frame) (view_of self.old) (view_of self.new)) }
        ensures ok { OnOk result (Adds (shared_frame frame) self.old self.new) }
        ensures missing { (result ≡ Err Error.MissingId)
            ↔ IsTrue (lacks_ids (fields_of (shared_frame frame))) }
        ensures unchanged { (result ≡ Err Error.MissingId) → self.new ≡ self.old }
        ensures cause { IfErr result (λ e. (e ≡ Error.MissingId) ⊎ (e ≡ Error.Memory)) }
        // What may have changed if it fails.
        ensures err { OnErr result (FailsToAdd (shared_frame frame) self.old self.new) }
    {
        // Checks all ids before it adds any details, so `MissingId` comes before any change.
        self.scope_collection.insert_all(&frame.scope_delta)?;
        self.take(frame)
    }

    /// Returns a view with the same settings, but with no frames and no details.
    fn without_frames(&self) -> FrameView
        ensures frames { view_of result ≡ without_frames (view_of self.now) }
        ensures collection { collection_of result ≡ no_details }
    {
        let alloc = *self.recent.allocator();
        FrameView {
            held: HeldFrames::new(alloc),
            recent: VecDeque::new(alloc),
            slow: VecDeque::new(alloc),
            last: None,
            max_recent: self.max_recent,
            max_slow: self.max_slow,
            pack_frames: self.pack_frames,
            scope_collection: ScopeCollection::new(alloc),
        }
    }

    /// Returns whether an index isn't above that of the last frame taken.
    fn is_past(&self, index: FrameIndex) -> bool
        ensures past { result ≡ is_past (view_of self.now) index }
        ensures steady { IsSteady (view_of self.now) }
    {
        match self.last {
            Some(last) => index <= last,
            None => false,
        }
    }

    /// Packs the newest frame. Does nothing, and copies nothing, if that frame is held only packed. Fails only with `Memory`;
    /// nothing changes then.
    fn pack_newest(&mut self) -> Result<()>
        ensures ok { OnOk result (
            self.new ≡ with_frames self.old (with_newest_packed (view_of self.old))) }
        ensures err { OnErr result (self.new ≡ self.old) }
        ensures cause { IsOkUnless result Error.Memory }
    {
        let alloc = *self.recent.allocator();
        let Some(newest) = self.latest_frame() else {
            return Ok(());
        };
        if !newest.has_unpacked() {
            return Ok(());
        }
        let packed = Arc::new(alloc, newest.packed_copy()?)?;
        self.held.replace(packed);
        Ok(())
    }

    /// Adds a frame, whose index must be above that of the last frame taken, and cuts both lists to their limits. Fails only
    /// with `Memory`; nothing changes then.
    fn join(&mut self, frame: Arc<FrameData>) -> Result<()>
        requires { IsFalse (is_past (view_of self.old) (index_of (shared_frame frame))) }
        ensures ok { OnOk result (
            self.new ≡ with_frames self.old (joined_by (view_of self.old) (shared_frame frame))) }
        ensures err { OnErr result (self.new ≡ self.old) }
        ensures cause { IsOkUnless result Error.Memory }
    {
        let rank = SlowRank::of(&frame);
        // All that can fail comes first, so that an error changes nothing.
        self.recent.reserve(1)?;
        self.slow.reserve(1)?;
        self.held.push(frame)?;
        self.last = Some(rank.frame_index);
        self.recent.push_back_reserved(rank.frame_index);
        enter_slow(
            &mut self.held,
            &self.recent,
            &mut self.slow,
            rank,
            self.max_slow,
        );
        cut_recent(
            &mut self.held,
            &mut self.recent,
            &self.slow,
            self.max_recent,
        );
        Ok(())
    }

    /// Takes a frame. If its index isn't above that of the last frame taken, drops all others. Fails only with `Memory`; the
    /// newest frame may then be packed.
    fn take(&mut self, frame: Arc<FrameData>) -> Result<()>
        ensures ok { OnOk result (
            view_of self.new ≡ after_taking (view_of self.old) (shared_frame frame)) }
        ensures err { OnErr result (
            KeepsFrames (view_of self.old) (index_of (shared_frame frame)) (view_of self.new)) }
        ensures collection { collection_of self.new ≡ collection_of self.old }
        ensures cause { IsOkUnless result Error.Memory }
        ensures steady { IsSteady (view_of self.old) }
    {
        if self.is_past(frame.frame_index()) {
            // The old frames are dropped only after the frame has joined the new view, which may fail.
            let mut anew = self.without_frames();
            anew.join(frame)?;
            mem::swap(&mut anew.scope_collection, &mut self.scope_collection);
            *self = anew;
            return Ok(());
        }
        if self.pack_frames {
            self.pack_newest()?;
        }
        self.join(frame)
    }
}
