//! The last frames and the slowest ones.

mod cutting;
mod file;
mod frame_file;
mod frame_rows;
mod frame_view;
mod held_frames;
pub mod laws;
mod listings;
mod running_stats;
mod select;
mod slow_rank;
mod stats;

pub use frame_file::{FrameReader, FrameWriter, next_frame, read_magic};
pub use frame_view::FrameView;
pub use listings::{AllFrames, RecentFrames, SlowestFrames};
pub use select::select_slowest;
pub use stats::FrameStats;
