//! Statistics of frames.
ghost use Rattle.std.specs.Prelude.{◌≡◌, ◌+◌, []};
ghost use Rattle.std.specs.Iterator.{IsFinite};
ghost use Rattle.std.specs.Iterator.Runs.{WholeRun};
ghost use Rattle.puffin_view.specs.View.FrameOf.{frame_of, lent_frames};
ghost use Rattle.puffin_view.specs.View.Stats.{stats_of, with_frame, frames_counted, unpacked_counted, ram_counted};

use puffin_frames::frame_data::FrameData;
use std::fmt::Debug;
use std::sync::Arc;

/// The number of frames, how many of them are held unpacked, and how many bytes all of them take. A number that doesn't fit
/// `usize` is `usize::MAX`.
#[derive(Clone, Copy, Debug, Default)]
pub struct FrameStats {
    pub(super) frames: usize,
    pub(super) unpacked_frames: usize,
    pub(super) bytes_of_ram_used: usize,
}

impl FrameStats {
    /// Counts the frames of an iterator.
    pub fn from_frames<'a, I: Iterator<Item = &'a Arc<FrameData>>>(frames: I) -> FrameStats
        requires can { I.can_next frames }
        requires finite { IsFinite (I.remaining frames) }
        ensures { WholeRun I.next_gives frames (λ run. result ≡ stats_of (lent_frames run.items)) }
    {
        frames.fold(FrameStats::default(), |stats, frame| stats.with(frame))
    }

    /// Returns the statistics with one more frame.
    fn with(self, frame: &FrameData) -> FrameStats
        ensures { result ≡ with_frame self (frame_of frame.now) }
    {
        FrameStats {
            frames: self.frames.saturating_add(1),
            unpacked_frames: self
                .unpacked_frames
                .saturating_add(frame.has_unpacked() as usize),
            bytes_of_ram_used: self
                .bytes_of_ram_used
                .saturating_add(frame.bytes_of_ram_used()),
        }
    }

    /// Returns the number of frames.
    pub fn frames(&self) -> usize
        ensures { result ≡ frames_counted self.now }
    {
        self.frames
    }

    /// Returns the number of frames that are held unpacked, whether or not they are packed too.
    pub fn unpacked_frames(&self) -> usize
        ensures { result ≡ unpacked_counted self.now }
    {
        self.unpacked_frames
    }

    /// Returns how many bytes the frames take: those of their streams, unpacked and packed.
    pub fn bytes_of_ram_used(&self) -> usize
        ensures { result ≡ ram_counted self.now }
    {
        self.bytes_of_ram_used
    }

    /// Sets all three numbers to 0.
    pub fn clear(&mut self)
        ensures { self.new ≡ stats_of [] }
    {
        *self = FrameStats::default();
    }
}
