//! Files that are cut short, and readers and writers that fail.

use crate::devices::{Full, Tired};
use crate::files::{are_recent, has_fault, is_written, view};
use puffin_data::FileError;
use puffin_data::data::{Counted, Drain, Source};
use puffin_view::profile_view::FrameView;
use std::io::ErrorKind;
use std::process::Abort;
use tests_support::samples::{FILE, ONE_FRAME};

/// A reader of one frame's file that gives its bytes one by one takes a call for each, and one more at their end.
const CALLS: usize = ONE_FRAME + 1;

/// Why the first so many bytes of a file of one frame are not a file.
fn fault_of_cut(len: usize) -> Option<FileError> {
    if len < 4 {
        Some(FileError::NoMagic)
    } else if len < 8 || len == ONE_FRAME {
        None
    } else {
        Some(FileError::Truncated)
    }
}

#[test]
fn a_file_is_cut_at_each_byte(rt: HostRuntime) {
    for len in 0..ONE_FRAME + 1 {
        has_fault(&rt, &[&FILE[..len]], fault_of_cut(len));
    }
    for len in 4..8 {
        assert!(rt; view(&rt, &FILE[..len]).is_empty());
    }
    are_recent(&rt, &view(&rt, &FILE[..ONE_FRAME]), &[0]);
}

/// Reads a file of one frame from a reader that gives so few bytes a call, and fails after so many calls.
fn read_tired(
    rt: &(impl AllocGlobal + Abort),
    (step, calls): (usize, usize),
    failure: ErrorKind,
    left: &[u8],
) -> (std::result::Result<FrameView, FileError>, u64) {
    let mut source = Counted::new(Tired {
        step,
        calls,
        failure,
        left,
    });
    let read = FrameView::read(rt.alloc(), &mut source);
    (read, Source::faults(&source))
}

/// A beginning of the file, given byte by byte, is read, or has the fault of a file that is cut there.
fn is_read(rt: &(impl AllocGlobal + Abort), front: &[u8], failure: ErrorKind) {
    let (read, faults) = read_tired(rt, (1, CALLS), failure, front);
    assert!(rt; faults == 0);
    let written = if front.len() < ONE_FRAME {
        &FILE[..4]
    } else {
        front
    };
    match read {
        Ok(read) => is_written(rt, &read, written),
        Err(fault) => assert!(rt; Some(fault) == fault_of_cut(front.len())),
    }
}

/// Whether a reader that fails after so many calls gives no view, and fails once.
fn has_failed(rt: &(impl AllocGlobal + Abort), calls: usize, failure: ErrorKind) -> bool {
    let (read, faults) = read_tired(rt, (1, calls), failure, &FILE[..ONE_FRAME]);
    (read.err(), faults) == (Some(FileError::Io), 1)
}

#[test]
fn a_cut_file_comes_byte_by_byte(rt: HostRuntime) {
    for len in 0..ONE_FRAME + 1 {
        is_read(&rt, &FILE[..len], ErrorKind::Other);
    }
}

#[test]
fn a_reader_that_fails_gives_no_view(rt: HostRuntime) {
    for failure in &[ErrorKind::Other, ErrorKind::Interrupted] {
        for calls in 0..CALLS {
            assert!(rt; has_failed(&rt, calls, *failure));
        }
        is_read(&rt, &FILE[..ONE_FRAME], *failure);
    }
}

/// A length that says more than there is.
const LIES: [u8; 4] = [0xff, 0xff, 0xff, 0xff];

/// Behind this front such a length cuts the file short.
fn is_cut_short(rt: &(impl AllocGlobal + Abort), front: &[u8]) {
    let truncated = Some(FileError::Truncated);
    has_fault(rt, &[front, &LIES, &FILE[23..40]], truncated);
}

#[test]
fn a_length_that_lies_cuts_the_file_short(rt: HostRuntime) {
    let truncated = Some(FileError::Truncated);
    has_fault(&rt, &[b"PUF0PFD4", &LIES, &FILE[12..19]], truncated);
    // So it does before the streams and the details, and before a legacy frame.
    is_cut_short(&rt, &FILE[..19]);
    is_cut_short(&rt, &FILE[..74]);
    is_cut_short(&rt, b"PUF0");
}

/// What is written of a view to a writer that takes so much and then fails, or takes nothing; the refusal; the
/// failures.
fn written_to_full(
    rt: &(impl AllocGlobal + Abort),
    view: &FrameView,
    (step, room): (usize, usize),
    failure: Option<ErrorKind>,
) -> (Vec<u8>, Option<FileError>, u64) {
    let mut full = Full {
        step,
        room,
        failure,
        written: Vec::new(rt.alloc()),
    };
    let mut drain = Counted::new(&mut full);
    let refused = view.write(&mut drain).err();
    let faults = Drain::faults(&drain);
    (full.written, refused, faults)
}

/// Whether a writer that takes so few bytes a call, and so much, has a prefix of the file, and failed once where it fails.
fn has_beginning(
    rt: &(impl AllocGlobal + Abort),
    view: &FrameView,
    (step, room): (usize, usize),
    failure: Option<ErrorKind>,
) -> bool {
    let (written, refused, faults) = written_to_full(rt, view, (step, room), failure);
    refused == Some(FileError::Io)
        && faults == u64::from(failure.is_some())
        && Some(written.as_slice()) == FILE.get(..room)
}

/// Whether a writer with room for it has the whole file.
fn has_whole(
    rt: &(impl AllocGlobal + Abort),
    view: &FrameView,
    failure: Option<ErrorKind>,
) -> bool {
    let (written, refused, faults) = written_to_full(rt, view, (5, ONE_FRAME), failure);
    (refused, faults) == (None, 0) && written.as_slice() == &FILE[..ONE_FRAME]
}

#[test]
fn a_writer_that_is_full_has_a_beginning(rt: HostRuntime) {
    let view = view(&rt, &FILE[..ONE_FRAME]);
    for (step, failure) in &[
        (1, None),
        (5, None),
        (5, Some(ErrorKind::Other)),
        (5, Some(ErrorKind::Interrupted)),
    ] {
        for room in 0..ONE_FRAME {
            assert!(rt; has_beginning(&rt, &view, (*step, room), *failure));
        }
        // The view is as it was.
        assert!(rt; has_whole(&rt, &view, *failure));
    }
}
