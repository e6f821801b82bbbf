//! Frames and packets, tested over the public calls of `puffin_frames` alone.
#![tactic(auto)]

#[cfg(test)]
mod calls;
#[cfg(test)]
mod equal;
#[cfg(test)]
mod frames;
#[cfg(test)]
mod long_packets;
#[cfg(test)]
mod packets;
#[cfg(test)]
mod refused_packets;
