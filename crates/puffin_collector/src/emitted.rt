//! What handing out a frame returns.

use puffin_frames::frame_data::FrameData;
use std::sync::Arc;

/// The result of handing out a frame.
#[derive(Drop)]
pub struct Emitted {
    /// The frame, or `None` if no scope was pending.
    pub frame: Option<Arc<FrameData>>,
    /// How many sinks didn't take the frame.
    pub refused: usize,
}
