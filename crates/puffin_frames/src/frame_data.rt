//! Frames: what threads reported since the previous frame.

mod decode;
mod encode;
mod frame;
mod held;
mod kind;
pub mod laws;
mod meta;
mod packing_info;
mod reading;
mod thread_streams;
mod unpacked;
mod version;
mod writing;

pub use frame::FrameData;
pub use meta::FrameMeta;
pub use packing_info::PackingInfo;
pub use puffin_data::FrameIndex;
pub use thread_streams::{ThreadStreams, are_unlike, report_to};
pub use unpacked::UnpackedFrameData;
