//! A reader of bytes in memory.

ghost use Rattle.std.specs.Prelude.{◌≡◌, ◌-◌, Some, length};

use puffin_data::FileError;
use puffin_data::data::Source;
use std::io;
use std::io::Read;

/// Bytes in memory, read from the front. No read fails.
#[derive(Drop)]
pub(crate) struct MemorySource<'a> {
    unread: &'a [u8],
}

impl<'a> MemorySource<'a> {
    /// Makes a source that reads these bytes from the front.
    pub(crate) fn new(bytes: &'a [u8]) -> MemorySource<'a>
        ensures { result.unread.now ≡ bytes.now }
    {
        MemorySource { unread: bytes }
    }

    /// Returns how much of `file` was read, if the source reads it and nothing else.
    pub(crate) fn offset_in(&self, file: &[u8]) -> u64
        ensures { result ≡ length file.now - length self.now.unread.now }
    {
        file.len().saturating_sub(self.unread.len()) as u64
    }
}

impl<'a> Source for MemorySource<'a> {
    ghost remaining = { λ source. Some source.unread.now };

    ghost failures = { λ _. 0 };

    fn read(&mut self, buf: &mut [u8]) -> io::Result<usize> {
        self.unread.read(buf)
    }

    fn read_to_len(&mut self, bytes: &mut Vec<u8>, len: usize) -> Result<(), FileError> {
        let count = self.unread.len().min(len - bytes.len());
        bytes.extend_from_slice(&self.unread[..count])?;
        self.unread = &self.unread[count..];
        Ok(())
    }

    fn faults(&self) -> u64 {
        0
    }
}
