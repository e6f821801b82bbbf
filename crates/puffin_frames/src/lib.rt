//! Frames: what threads recorded between two moments, by thread, with the details of the scopes that are new. A frame is held
//! unpacked, packed as the bytes of its packet, or both ways.
//!
//! | to | call |
//! |---|---|
//! | make a frame by hand | [`frame_data::UnpackedFrameData::new`], [`frame_data::FrameData::new`] |
//! | pack a frame, and unpack it again | [`frame_data::FrameData::pack`], [`frame_data::FrameData::unpacked`] |
//! | write a frame as a packet, and read the next one | [`frame_data::FrameData::write_into`], [`frame_data::FrameData::read_next`] |
#![tactic(auto)]

pub mod frame_data;
pub mod laws;
