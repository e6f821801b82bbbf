//! Running sums over the frames of a view.
ghost use Rattle.std.specs.Prelude.{◌≡◌, ◌+◌, ℕ};
ghost use Rattle.puffin_view.specs.View.Stats.{cut};
ghost use Rattle.puffin_view.specs.inner.Held.{number_if, ram_if, unpacked_if, wrapped_sum};

use crate::profile_view::stats::FrameStats;
use puffin_frames::frame_data::FrameData;
use std::sync::Arc;

/// Running sums over frames. They wrap around at `2 ^ 128`, which no sum over fewer than `2 ^ 64` frames reaches.
#[derive(Clone, Copy, Debug)]
pub(crate) struct RunningStats {
    /// How many of the frames are held unpacked.
    unpacked_frames: u128,
    /// How many bytes the frames take.
    bytes_of_ram_used: u128,
}

impl RunningStats {
    /// Makes the sums over no frames.
    pub fn new() -> RunningStats
        ensures { result ≡ record { unpacked_frames = 0; bytes_of_ram_used = 0 } }
    {
        RunningStats {
            unpacked_frames: 0,
            bytes_of_ram_used: 0,
        }
    }

    /// Adds one frame to the sums: whether it is held unpacked, and how many bytes it takes.
    pub fn raise(&mut self, is_unpacked: bool, bytes: usize)
        ensures { self.new ≡ record {
          unpacked_frames = wrapped_sum (self.old.unpacked_frames + number_if is_unpacked);
          bytes_of_ram_used = wrapped_sum (self.old.bytes_of_ram_used + bytes);
        } }
    {
        self.unpacked_frames = self.unpacked_frames.wrapping_add(is_unpacked as u128);
        self.bytes_of_ram_used = self.bytes_of_ram_used.wrapping_add(bytes as u128);
    }

    /// Subtracts one frame, if there is one, from the sums.
    pub fn lower(&mut self, frame: Option<Arc<FrameData>>)
        ensures unpacked_frames { (rest : ℕ)
            → self.old.unpacked_frames ≡ wrapped_sum (rest + unpacked_if frame)
            → self.new.unpacked_frames ≡ wrapped_sum rest }
        ensures bytes { (rest : ℕ)
            → self.old.bytes_of_ram_used ≡ wrapped_sum (rest + ram_if frame)
            → self.new.bytes_of_ram_used ≡ wrapped_sum rest }
    {
        if let Some(frame) = frame {
            self.unpacked_frames = self
                .unpacked_frames
                .wrapping_sub(frame.has_unpacked() as u128);
            self.bytes_of_ram_used = self
                .bytes_of_ram_used
                .wrapping_sub(frame.bytes_of_ram_used() as u128);
        }
    }

    /// Returns the statistics of this many frames. A sum that doesn't fit is `usize::MAX`.
    pub fn stats(&self, frames: usize) -> FrameStats
        ensures { result ≡ record {
          frames = frames;
          unpacked_frames = cut self.now.unpacked_frames;
          bytes_of_ram_used = cut self.now.bytes_of_ram_used;
        } }
    {
        FrameStats {
            frames,
            unpacked_frames: cut(self.unpacked_frames),
            bytes_of_ram_used: cut(self.bytes_of_ram_used),
        }
    }
}

/// Returns a sum, or `usize::MAX` if it doesn't fit.
fn cut(sum: u128) -> usize
    ensures { result ≡ cut sum }
{
    if sum < usize::MAX as u128 {
        sum as usize
    } else {
        usize::MAX
    }
}
