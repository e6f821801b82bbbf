//! Checks that must pass for any bytes.

use crate::devices::OneByte;
use puffin_data::data::{Buffered, Counted, Reader, Stream, Walk};
use puffin_data::{Error, FileError};
use puffin_report::{count_stream, print_report};
use puffin_threads::thread_profiler::ThreadInfo;
use puffin_view::profile_view::FrameView;
use std::alloc::{AllocError, Global};

/// A check that failed.
#[derive(Clone, Copy, Debug, PartialEq, Eq)]
pub(crate) enum Broken {
    /// Memory ran out, so nothing was checked.
    Memory,
    /// A walk made more attempts to read a scope than one for every 31 bytes, plus one.
    Tries,
    /// Counting, reporting or reading differs if each call of the reader returns one byte.
    OneByteACall,
    /// The stream is counted but not walked, or walked but not counted.
    Counting,
    /// A view that was read can't be written, or its file can't be read and written again with the same bytes.
    Again,
    /// Bytes without a fault are refused.
    Refused,
    /// Bytes that were cut are accepted.
    Taken,
}

impl From<AllocError> for Broken {
    fn from(_error: AllocError) -> Broken {
        Broken::Memory
    }
}

/// The lines that were printed, and the fault that ended them.
#[derive(Drop)]
struct Printed {
    lines: Vec<u8>,
    fault: Option<FileError>,
}

/// Counts a stream. If `slowly` is set, each call of the reader returns one byte.
fn counted(alloc: Global, bytes: &[u8], slowly: bool) -> Printed {
    let mut lines = Vec::new(alloc);
    let mut drain = Counted::new(&mut lines);
    let answer = if slowly {
        let mut source = Counted::new(OneByte { left: bytes });
        count_stream(alloc, &mut source, &mut drain)
    } else {
        count_stream(alloc, &mut Buffered::new(bytes), &mut drain)
    };
    let fault = match answer {
        Ok(cause) => cause.map(FileError::Refused),
        Err(fault) => Some(fault),
    };
    Printed { lines, fault }
}

/// Walks and counts a stream. Returns the counts of the walk, or `None` if the stream isn't a forest of scopes.
pub(crate) fn check_stream(alloc: Global, bytes: &[u8]) -> Result<Option<Walk>, Broken> {
    let mut copy = Vec::new(alloc);
    copy.extend_from_slice(bytes)?;
    let stream = Stream::from(copy);
    let mut tries = 0;
    let walk = Reader::walk(alloc, &stream, &mut tries);
    if tries > (bytes.len() / 31) as u64 + 1 {
        return Err(Broken::Tries);
    }
    let first = counted(alloc, bytes, false);
    let second = counted(alloc, bytes, true);
    if first.lines != second.lines || first.fault != second.fault {
        return Err(Broken::OneByteACall);
    }
    match walk {
        Ok(_) if first.lines.is_empty() => Err(Broken::Counting),
        Ok(walk) => Ok(Some(walk)),
        Err(Error::Memory) => Err(Broken::Memory),
        Err(cause) if first.fault == Some(FileError::Refused(cause)) => Ok(None),
        Err(_) => Err(Broken::Counting),
    }
}

/// Reports on a file. If `slowly` is set, each call of the reader returns one byte.
fn reported(alloc: Global, bytes: &[u8], thread: &ThreadInfo, slowly: bool) -> Printed {
    let mut lines = Vec::new(alloc);
    let mut drain = Counted::new(&mut lines);
    let answer = if slowly {
        let mut source = Counted::new(OneByte { left: bytes });
        print_report(alloc, &mut source, thread, &mut drain)
    } else {
        print_report(alloc, &mut Buffered::new(bytes), thread, &mut drain)
    };
    Printed {
        lines,
        fault: answer.err(),
    }
}

/// Returns the file of a view.
pub(crate) fn written(alloc: Global, view: &FrameView) -> Result<Vec<u8>, FileError> {
    let mut bytes = Vec::new(alloc);
    view.write(&mut Counted::new(&mut bytes))?;
    Ok(bytes)
}

/// Returns whether a file that was written is written again with the same bytes, once it is read.
fn is_written_again(alloc: Global, file: &[u8]) -> Result<bool, FileError> {
    let view = FrameView::read(alloc, &mut Buffered::new(file))?;
    Ok(written(alloc, &view)?.as_slice() == file)
}

/// Writes a view that was read, reads that file and writes it again. The bytes must be the same.
fn check_again(alloc: Global, view: &FrameView) -> Result<(), Broken> {
    let is_same = match written(alloc, view) {
        Ok(file) => is_written_again(alloc, &file) == Ok(true),
        Err(_) => false,
    };
    if is_same { Ok(()) } else { Err(Broken::Again) }
}

/// Returns whether the report on a file is the same if each call of the reader returns one byte.
fn is_reported_alike(alloc: Global, bytes: &[u8], thread: &ThreadInfo) -> bool {
    let first = reported(alloc, bytes, thread, false);
    let second = reported(alloc, bytes, thread, true);
    first.lines == second.lines && first.fault == second.fault
}

/// Reads, reports and writes a file. Returns whether it can be read.
pub(crate) fn check_file(alloc: Global, bytes: &[u8], thread: &ThreadInfo) -> Result<bool, Broken> {
    if !is_reported_alike(alloc, bytes, thread) {
        return Err(Broken::OneByteACall);
    }
    let slowly = FrameView::read(alloc, &mut Counted::new(OneByte { left: bytes })).err();
    match FrameView::read(alloc, &mut Buffered::new(bytes)) {
        Ok(_) if slowly.is_some() => Err(Broken::OneByteACall),
        Ok(view) => {
            check_again(alloc, &view)?;
            Ok(true)
        }
        Err(cause) if slowly == Some(cause) => Ok(false),
        Err(_) => Err(Broken::OneByteACall),
    }
}
