//! Shared by several test crates: bytes of scopes, packets and files, the values that these bytes hold, and helper functions.
#![tactic(auto)]

pub mod frames;
pub mod samples;
pub mod streams;
pub mod threads;
