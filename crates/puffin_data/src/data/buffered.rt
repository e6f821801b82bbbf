//! A reader that lends its buffer, so that bytes are copied once, and memory isn't filled with zeros first.

ghost use Rattle.std.specs.Prelude.{◌≡◌, ◌++◌, ◌<◌, ◌≤◌, ℕ, List, None, Err, IsSome, IfOk, IfErr, OnOk, length};
ghost use Rattle.std.specs.Io.KnownBytes.{Consumes, IsAtEnd};
ghost use Rattle.puffin_data.specs.Device.{IsOutside};
ghost use Rattle.puffin_data.specs.inner.Appending.{AppendsTaken};

use crate::data::device::Source;
use crate::file_error::FileError;
use std::io;
use std::io::{BufRead, Read};

/// Appends at most `most` bytes from the reader's buffer, and returns how many. Fails with `Io` or `Memory`; with `Io`, `last`
/// is then the reader's error.
fn append_lent<B: BufRead>(
    reader: &mut B,
    bytes: &mut Vec<u8>,
    most: usize,
    last: &mut Option<io::Error>,
) -> Result<usize, FileError>
    ensures grown { IfOk result (AppendsTaken bytes.old.items bytes.new.items
        (B.remaining reader.old) (B.remaining reader.new)) }
    ensures most { IfOk result (λ count. count ≤ most) }
    ensures outside { IfErr result IsOutside }
    ensures told { (result ≡ Err FileError.Io) → IsSome last.new }
{
    let lent = match reader.fill_buf() {
        Ok(lent) => lent,
        Err(e) => {
            *last = Some(e);
            return Err(FileError::Io);
        }
    };
    let count = lent.len().min(most);
    bytes.extend_from_slice(&lent[..count])?;
    reader.consume(count);
    Ok(count)
}

/// Reads at most one byte and appends it. Returns the number of bytes read; 0 means the end. Fails with `Io` or `Memory`; with
/// `Io`, `last` is then the reader's error.
fn append_byte<R: Read>(
    reader: &mut R,
    bytes: &mut Vec<u8>,
    last: &mut Option<io::Error>,
) -> Result<usize, FileError>
    ensures grown { IfOk result (AppendsTaken bytes.old.items bytes.new.items
        (R.remaining reader.old) (R.remaining reader.new)) }
    ensures most { IfOk result (λ count. count ≤ 1) }
    ensures end { IfOk result (λ count. count ≡ 0 → IsAtEnd (R.remaining reader.new)) }
    ensures outside { IfErr result IsOutside }
    ensures told { (result ≡ Err FileError.Io) → IsSome last.new }
{
    let mut byte = [0];
    let count = match reader.read(&mut byte) {
        Ok(count) => count,
        Err(e) => {
            *last = Some(e);
            return Err(FileError::Io);
        }
    };
    bytes.extend_from_slice(&byte[..count])?;
    Ok(count)
}

/// Appends bytes from the reader's buffer until `bytes` has `len` bytes or the reader ends. If the buffer is empty, reads one
/// byte, since only `read` promises that a reader without a byte is at its end. Fails with `Io` or `Memory`; with `Io`, `last` is
/// then the reader's error.
fn append_to_len<B: BufRead>(
    reader: &mut B,
    bytes: &mut Vec<u8>,
    len: usize,
    last: &mut Option<io::Error>,
) -> Result<(), FileError>
    requires { length bytes.old.items ≤ len }
    ensures grown { OnOk result (
        (taken : List ℕ)
        × (bytes.new.items ≡ bytes.old.items ++ taken)
        × Consumes (B.remaining reader.old) (B.remaining reader.new) taken) }
    ensures most { OnOk result (length bytes.new.items ≤ len) }
    ensures ends { OnOk result (length bytes.new.items < len → IsAtEnd (B.remaining reader.new)) }
    ensures outside { IfErr result IsOutside }
    ensures told { (result ≡ Err FileError.Io) → IsSome last.new }
{
    'pieces: while bytes.len() < len {
        let most = len - bytes.len();
        if append_lent(reader, bytes, most, last)? == 0 && append_byte(reader, bytes, last)? == 0 {
            return Ok(());
        }
    }
    Ok(())
}

/// A `BufRead` of std, such as a slice of bytes or a `BufReader`, with the number of its failures. Reading into a vector is
/// faster than with [`Counted`](super::Counted), since the bytes are copied from the reader's buffer and memory isn't filled
/// with zeros first.
///
/// ```
/// let mut source = Buffered::new(b"\x04\0\0\0data".as_slice());
/// let part = read_counted_part(alloc, &mut source)?;
/// ```
#[derive(Drop)]
pub struct Buffered<B> {
    reader: B,
    faults: u64,
    last: Option<io::Error>,
    ghost told: { last ≡ None → faults ≡ 0 },
}

impl<B> Buffered<B> {
    ghost use Rattle.puffin_data.specs.Device.Counting.{buffered_reader, failed_reads, reading_error_kept};

    /// Wraps a reader, with no failures so far.
    pub fn new(reader: B) -> Buffered<B>
        ensures reader { buffered_reader result ≡ reader }
        ensures faults { failed_reads result ≡ 0 }
    {
        Buffered {
            reader,
            faults: 0,
            last: None,
        }
    }

    /// Returns the system's error of the last read that failed, or `None` if none has failed.
    pub fn last_error(&self) -> Option<io::Error>
        ensures error { result ≡ reading_error_kept self.now }
        ensures some { 0 < failed_reads self.now → IsSome result }
    {
        self.last
    }
}

impl<B: BufRead> Source for Buffered<B> {
    ghost remaining = { λ buffered. B.remaining buffered.reader };

    ghost failures = { λ buffered. buffered.faults };

    /// Reads from the reader. Counts an error, and keeps it as the last one.
    fn read(&mut self, buf: &mut [u8]) -> io::Result<usize> {
        let result = self.reader.read(buf);
        if let Err(e) = &result {
            self.faults += 1;
            self.last = Some(*e);
        }
        result
    }

    /// Appends from the reader's buffer, without zeros first. Counts an `Io`, and keeps its error as the last one.
    fn read_to_len(&mut self, bytes: &mut Vec<u8>, len: usize) -> Result<(), FileError> {
        let mut last = None;
        let result = append_to_len(&mut self.reader, bytes, len, &mut last);
        if let Err(FileError::Io) = result {
            self.faults += 1;
            self.last = last;
        }
        result
    }

    fn faults(&self) -> u64 {
        self.faults
    }
}
