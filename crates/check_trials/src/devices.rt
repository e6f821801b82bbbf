//! A reader that returns one byte per call.

use std::io;
use std::io::Read;

/// Returns the bytes that are left, one per call.
#[derive(Drop)]
pub(crate) struct OneByte<'a> {
    /// The bytes that are left.
    pub(crate) left: &'a [u8],
}

impl Read for OneByte<'_> {
    fn read(&mut self, buf: &mut [u8]) -> io::Result<usize> {
        match (self.left.split_first(), buf.first_mut()) {
            (Some((byte, left)), Some(place)) => {
                *place = *byte;
                self.left = left;
                Ok(1)
            }
            _ => Ok(0),
        }
    }
}
