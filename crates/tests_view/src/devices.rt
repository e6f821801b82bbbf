//! Readers and writers that give or take little, and then fail.

use std::io;
use std::io::{ErrorKind, Read, Write};

/// Gives at most so many bytes a call, and fails after so many calls.
#[derive(Drop)]
pub(crate) struct Tired<'a> {
    pub(crate) step: usize,
    pub(crate) calls: usize,
    pub(crate) failure: ErrorKind,
    pub(crate) left: &'a [u8],
}

impl Read for Tired<'_> {
    fn read(&mut self, buf: &mut [u8]) -> io::Result<usize> {
        match self.calls.checked_sub(1) {
            Some(calls) => self.calls = calls,
            None => return Err(io::Error::from(self.failure)),
        }
        let count = buf.len().min(self.step).min(self.left.len());
        let (taken, left) = self.left.split_at(count);
        buf[..count].copy_from_slice(taken);
        self.left = left;
        Ok(count)
    }
}

/// Takes so many bytes, and then fails, or takes nothing where there is no failure.
#[derive(Drop)]
pub(crate) struct Full {
    pub(crate) step: usize,
    pub(crate) room: usize,
    pub(crate) failure: Option<ErrorKind>,
    pub(crate) written: Vec<u8>,
}

impl Write for Full {
    fn write(&mut self, buf: &[u8]) -> io::Result<usize> {
        let count = buf.len().min(self.step).min(self.room);
        if let (0, Some(failure)) = (count, self.failure) {
            return Err(io::Error::from(failure));
        }
        if self.written.extend_from_slice(&buf[..count]).is_err() {
            return Err(io::Error::from(ErrorKind::OutOfMemory));
        }
        self.room -= count;
        Ok(count)
    }

    fn flush(&mut self) -> io::Result<()> {
        Ok(())
    }
}
