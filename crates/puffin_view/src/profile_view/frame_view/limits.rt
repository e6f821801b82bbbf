//! The limits of a view, and whether it packs.
ghost use Rattle.std.specs.Prelude.{◌≡◌, List, []};
ghost use Rattle.puffin_frames.specs.Packet.Stored.{PacketFields};
ghost use Rattle.puffin_view.specs.View.{Holds};
ghost use Rattle.puffin_view.specs.View.Known.{view_of, with_frames};

use crate::profile_view::cutting::cut_slow;
use crate::profile_view::frame_view::FrameView;

impl FrameView {
    /// Clears the list of the slowest frames. Those that are also recent are still held.
    pub fn clear_slowest(&mut self)
        ensures frames { self.new
            ≡ with_frames self.old (record (view_of self.old) { slow = [] }) }
        ensures holds { (for_recent for_slow : List PacketFields) →
            Holds for_recent for_slow (view_of self.old) →
            Holds for_recent [] (view_of self.new) }
    {
        cut_slow(&mut self.held, &self.recent, &mut self.slow, 0);
    }

    /// Returns the maximum number of recent frames to keep.
    pub fn max_recent(&self) -> usize
        ensures { result ≡ (view_of self.now).max_recent }
    {
        self.max_recent
    }

    /// Sets the maximum number of recent frames to keep. Takes effect when the next frame is added.
    pub fn set_max_recent(&mut self, max_recent: usize)
        ensures { self.new
            ≡ with_frames self.old (record (view_of self.old) { max_recent = max_recent }) }
    {
        self.max_recent = max_recent;
    }

    /// Returns the maximum number of slowest frames to keep.
    pub fn max_slow(&self) -> usize
        ensures { result ≡ (view_of self.now).max_slow }
    {
        self.max_slow
    }

    /// Sets the maximum number of slowest frames to keep. Takes effect when the next slow frame is added.
    pub fn set_max_slow(&mut self, max_slow: usize)
        ensures { self.new
            ≡ with_frames self.old (record (view_of self.old) { max_slow = max_slow }) }
    {
        self.max_slow = max_slow;
    }

    /// Returns whether packing is on: whether the newest frame is packed before another is added.
    pub fn pack_frames(&self) -> bool
        ensures { result ≡ (view_of self.now).packs }
    {
        self.pack_frames
    }

    /// Turns packing on or off. If it is on, the newest frame is packed before another is added.
    pub fn set_pack_frames(&mut self, pack_frames: bool)
        ensures { self.new
            ≡ with_frames self.old (record (view_of self.old) { packs = pack_frames }) }
    {
        self.pack_frames = pack_frames;
    }
}
