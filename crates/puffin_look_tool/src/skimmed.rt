//! A file whose packed streams are skipped over.

ghost use Rattle.std.specs.Prelude.{◌<◌, ◌^◌, ◌-◌, IfOk};

use crate::progress::Watched;
use puffin_data::FileError;
use puffin_data::data::{Buffered, Source};
use std::alloc::Global;
use std::io;
use std::io::{BufRead, BufReader, Read, Seek, SeekFrom};

/// How many bytes are read ahead: the small parts of a packet, and not much of its streams.
const PIECE: usize = 512;

/// A file of frames in which packed streams read as zeros, so that they needn't be read. In a packet only they come behind a
/// single byte, their kind: what is read behind one byte is skipped over.
#[derive(Drop)]
pub(crate) struct Skimmed<'f> {
    reader: BufReader<Watched<'f>>,
    /// The file's length.
    len: u64,
    /// Whether one byte alone was read last.
    is_behind_a_byte: bool,
    /// Whether the last read gave fewer bytes than were asked for, so that the next one reads the rest of them.
    is_short: bool,
    pub(crate) faults: u64,
    last: Option<io::Error>,
}

impl<'f> Skimmed<'f> {
    /// Skims a file from where it stands.
    pub(crate) fn new(alloc: Global, file: Watched<'f>) -> io::Result<Skimmed<'f>>
        ensures { IfOk result (λ skimmed. skimmed.faults < 2 ^ 64 - 1) }
    {
        let len = file.len;
        let reader = BufReader::with_capacity(alloc, PIECE, file)?;
        Ok(Skimmed {
            reader,
            len,
            is_behind_a_byte: false,
            is_short: false,
            faults: 0,
            last: None,
        })
    }

    /// Returns the system's error of the last read that failed, or `None` if none has failed.
    pub(crate) fn last_error(&self) -> Option<io::Error> {
        self.last
    }
}

/// Moves over the next bytes of a file of this length. Returns whether it has them.
fn skip(reader: &mut BufReader<Watched<'_>>, count: usize, len: u64) -> io::Result<bool> {
    if count <= reader.buffer().len() {
        reader.consume(count);
        return Ok(true);
    }
    let Ok(count) = i64::try_from(count) else {
        return Ok(false);
    };
    let place = reader.seek(SeekFrom::Current(count))?;
    Ok(place <= len)
}

impl<'f> Source for Skimmed<'f> {
    ghost failures = { λ s. s.faults };

    fn read(&mut self, buf: &mut [u8]) -> io::Result<usize> {
        self.is_behind_a_byte = buf.len() == 1 && !self.is_short;
        let result = self.reader.read(buf);
        match &result {
            Ok(count) => self.is_short = *count < buf.len(),
            Err(error) => {
                self.faults += 1;
                self.last = Some(*error);
            }
        }
        result
    }

    fn read_to_len(&mut self, bytes: &mut Vec<u8>, len: usize) -> Result<(), FileError> {
        if !self.is_behind_a_byte {
            let mut source = Buffered::new(&mut self.reader);
            let result = source.read_to_len(bytes, len);
            if let Err(FileError::Io) = result {
                self.last = source.last_error();
                self.faults += 1;
            }
            return result;
        }
        match skip(&mut self.reader, len - bytes.len(), self.len) {
            Ok(true) => Ok(bytes.resize(len, 0)?),
            Ok(false) => Ok(()),
            Err(error) => {
                self.last = Some(error);
                self.faults += 1;
                Err(FileError::Io)
            }
        }
    }

    fn faults(&self) -> u64 {
        self.faults
    }
}
