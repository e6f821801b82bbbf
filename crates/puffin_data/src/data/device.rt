//! Readers and writers that count their failures.

ghost use Rattle.std.specs.Prelude.{◌≡◌, ◌++◌, ◌+◌, ◌<◌, ◌≤◌, ℕ, List, Option, None, IsSome, IfOk, IfErr, OnOk, is_err, length, if◌then◌else◌};
ghost use Rattle.std.specs.Io.{ReadsAtMost, WritesAtMost};
ghost use Rattle.std.specs.Io.KnownBytes.{Consumes, IsAtEnd, ReadConsumes, WriteAppends};
ghost use Rattle.puffin_data.specs.Device.{CanFail, IsOutside, failures_after};

use crate::file_error::FileError;
use std::io;
use std::io::{Read, Write};

/// A reader that counts its failed reads. If a function that reads from it fails, the count shows whether the reader was the
/// cause. Wrap any reader of std in [`Counted`] to get one, or in [`Buffered`](super::Buffered) if it is a `BufRead`.
pub trait Source {
    /// The bytes still to be read, if they are known.
    ghost remaining: { Self → Option (List ℕ) } = { λ _. None };

    /// The number of failed reads.
    ghost failures: { Self → ℕ };

    /// Reads some bytes into the front of `buf`, as std's `Read` does, and returns how many. If `buf` isn't empty, 0 means the
    /// end. Each error adds one to the failures, even an interruption.
    fn read(&mut self, buf: &mut [u8]) -> io::Result<usize>
        requires { CanFail failures self.old }
        ensures bound { ReadsAtMost result buf.new }
        ensures bytes { ReadConsumes (remaining self.old) (remaining self.new) result buf.new }
        ensures failed { failures self.new
            ≡ (if is_err result then failures self.old + 1 else failures self.old) };

    /// Reads bytes and appends them until `bytes` has `len` bytes or the reader ends. Fails with `Io` if a read fails, or with
    /// `Memory`; the contents of `bytes` and how far it read are then unspecified.
    fn read_to_len(&mut self, bytes: &mut Vec<u8>, len: usize) -> Result<(), FileError>
        requires failures { CanFail failures self.old }
        requires len { length bytes.old.items ≤ len }
        ensures grown { OnOk result (
            (taken : List ℕ)
            × (bytes.new.items ≡ bytes.old.items ++ taken)
            × Consumes (remaining self.old) (remaining self.new) taken) }
        ensures most { OnOk result (length bytes.new.items ≤ len) }
        ensures ends { OnOk result (length bytes.new.items < len → IsAtEnd (remaining self.new)) }
        ensures outside { IfErr result IsOutside }
        ensures counted { failures self.new ≡ failures_after (failures self.old) result }
    {
        let mut end = bytes.len();
        // A read needs initialized memory. Zeros that no read overwrites are taken away at the end.
        bytes.resize(len, 0)?;
        'reads: while end < bytes.len() {
            match self.read(&mut bytes[end..]) {
                Ok(0) => {
                    bytes.truncate(end);
                    return Ok(());
                }
                Ok(count) => end += count,
                Err(_) => return Err(FileError::Io),
            }
        }
        Ok(())
    }

    /// Returns the number of failed reads.
    fn faults(&self) -> u64
        ensures { result ≡ failures self.now };
}

/// A writer that counts its failed calls. Wrap any writer of std in [`Counted`] to get one.
pub trait Drain {
    /// The bytes that the writer holds, if they are known.
    ghost contents: { Self → Option (List ℕ) } = { λ _. None };

    /// The number of failed writes.
    ghost failures: { Self → ℕ };

    /// Whether a write of these bytes, begun in the first state, may take that many of them and end in the second state.
    ghost takes: { Self → List ℕ → ℕ → Self → Type 0 } = { λ _ _ _ _. Unit {0} };

    /// Writes some bytes from the front of `buf`, as std's `Write` does, and returns how many. Each error adds one to the
    /// failures, even an interruption.
    fn write(&mut self, buf: &[u8]) -> io::Result<usize>
        requires { CanFail failures self.old }
        ensures bound { WritesAtMost result buf.now }
        ensures bytes { WriteAppends (contents self.old) (contents self.new) result buf.now }
        ensures took { IfOk result (λ count. takes self.old buf.now count self.new) }
        ensures failed { failures self.new
            ≡ (if is_err result then failures self.old + 1 else failures self.old) };

    /// Returns the number of failed writes.
    fn faults(&self) -> u64
        ensures { result ≡ failures self.now };
}

/// A reader or writer of std, with the number of its failures. A `Counted<Vec<u8>>` keeps in memory what is written to it.
///
/// ```
/// let mut file = Counted::new(Vec::new(alloc));
/// view.write(&mut file)?;
/// let bytes = file.into_inner();
/// ```
#[derive(Drop)]
pub struct Counted<D> {
    device: D,
    faults: u64,
    last: Option<io::Error>,
    ghost told: { last ≡ None → faults ≡ 0 },
}

impl<D> Counted<D> {
    ghost use Rattle.puffin_data.specs.Device.Counting.{counted_device, failed_calls, error_kept};

    /// Wraps a reader or writer, with no failures so far.
    pub fn new(device: D) -> Counted<D>
        ensures device { counted_device result ≡ device }
        ensures faults { failed_calls result ≡ 0 }
    {
        Counted {
            device,
            faults: 0,
            last: None,
        }
    }

    /// Returns the system's error of the last call that failed, or `None` if none has failed. After an
    /// [`Io`](FileError::Io), it says why: the disk is full, for example. A writer that took no byte has no error.
    pub fn last_error(&self) -> Option<io::Error>
        ensures error { result ≡ error_kept self.now }
        ensures some { 0 < failed_calls self.now → IsSome result }
    {
        self.last
    }

    /// Returns the reader or writer itself.
    pub fn into_inner(self) -> D
        ensures { result ≡ counted_device self }
    {
        self.device
    }
}

impl<R: Read> Source for Counted<R> {
    ghost remaining = { λ counted. R.remaining counted.device };

    ghost failures = { λ counted. counted.faults };

    /// Reads from the reader. Counts an error, and keeps it as the last one.
    fn read(&mut self, buf: &mut [u8]) -> io::Result<usize> {
        let result = self.device.read(buf);
        if let Err(e) = &result {
            self.faults += 1;
            self.last = Some(*e);
        }
        result
    }

    fn faults(&self) -> u64 {
        self.faults
    }
}

impl<W: Write> Drain for Counted<W> {
    ghost contents = { λ counted. W.contents counted.device };

    ghost failures = { λ counted. counted.faults };

    /// Writes to the writer. Counts an error, and keeps it as the last one.
    fn write(&mut self, buf: &[u8]) -> io::Result<usize> {
        let result = self.device.write(buf);
        if let Err(e) = &result {
            self.faults += 1;
            self.last = Some(*e);
        }
        result
    }

    fn faults(&self) -> u64 {
        self.faults
    }
}
