//! Files that are read and written one frame at a time.

ghost use Rattle.std.specs.Prelude.{◌≡◌};

use crate::devices::Full;
use crate::files::{DETAILS, view};
use puffin_data::data::{Counted, Drain, Source};
use puffin_data::{Error, FileError};
use puffin_frames::frame_data::{FrameData, FrameIndex};
use puffin_view::profile_view::{FrameReader, FrameView, FrameWriter, next_frame, read_magic};
use std::alloc::Global;
use std::io;
use std::io::{ErrorKind, Write};
use std::process::Abort;
use tests_support::samples::{FILE, ONE_FRAME};
use tests_support::streams::bytes_of;

/// The index of a frame, where there is one.
fn index_of(next: &Option<FrameData>) -> Option<FrameIndex> {
    next.as_ref().map(|frame| frame.frame_index())
}

/// The index of the next frame that a reader gives, or `None` at the end.
fn next_index<S: Source>(
    reader: &mut FrameReader<S>,
) -> std::result::Result<Option<FrameIndex>, FileError> {
    let next = reader.next()?;
    Ok(index_of(&next))
}

/// The indices of the frames that a reader gives of a file, and its refusal, or `None` at the end.
fn given(
    alloc: Global,
    bytes: &[u8],
) -> std::result::Result<(Vec<FrameIndex>, Option<FileError>), FileError> {
    let mut reader = FrameReader::new(alloc, Counted::new(bytes))?;
    let mut indices = Vec::new(alloc);
    'frames: for _ in 0..3 {
        match next_index(&mut reader) {
            Ok(Some(index)) => indices.push(index)?,
            Ok(None) => return Ok((indices, None)),
            Err(fault) => return Ok((indices, Some(fault))),
        }
    }
    Ok((indices, None))
}

/// A reader gives frames of these indices, and then this refusal or the end.
fn are_given(
    rt: &(impl AllocGlobal + Abort),
    bytes: &[u8],
    indices: &[FrameIndex],
    refusal: Option<FileError>,
) {
    let (found, end) = given(rt.alloc(), bytes).expect(rt, "frames");
    assert!(rt; found.as_slice() == indices && end == refusal);
}

#[test]
fn a_file_is_read_one_frame_at_a_time(rt: HostRuntime) {
    let bytes = bytes_of(rt.alloc(), &[&FILE[..ONE_FRAME], &[0, 0, 0, 0], b"more"]).expect(
        &rt, "memory",
    );
    let mut reader = FrameReader::new(rt.alloc(), Counted::new(bytes.as_slice())).expect(
        &rt, "a file",
    );
    let first = index_of(&reader.next().expect(&rt, "a frame"));
    assert!(rt; first == Some(0));
    let end = index_of(&reader.next().expect(&rt, "a frame"));
    assert!(rt; end.is_none());
    let behind = index_of(&reader.next().expect(&rt, "a frame"));
    assert!(rt; behind.is_none());
    // What stands behind the end is left.
    let mut source = reader.into_source();
    let mut left = [0; 6];
    let count = source.read(&mut left).expect(&rt, "bytes");
    assert!(rt; (count, left) == (4, *b"more\0\0"));
}

#[test]
fn frames_are_read_without_a_reader(rt: HostRuntime) {
    let mut source = Counted::new(&FILE[..ONE_FRAME]);
    read_magic(&mut source).expect(&rt, "a file");
    let first = index_of(&next_frame(rt.alloc(), &mut source).expect(&rt, "a frame"));
    assert!(rt; first == Some(0));
    let end = index_of(&next_frame(rt.alloc(), &mut source).expect(&rt, "a frame"));
    assert!(rt; end.is_none());
    assert!(rt; source.faults() == 0);
}

#[test]
fn a_reader_begins_with_the_letters_of_a_file(rt: HostRuntime) {
    for letters in &[b"".as_slice(), b"PUF", b"PUF1", &FILE[4..]] {
        let refused = FrameReader::new(rt.alloc(), Counted::new(*letters)).err();
        assert!(rt; refused == Some(FileError::NoMagic));
    }
}

/// What a reader gives of the first so many bytes of the file.
fn given_of_cut(len: usize) -> (&'static [FrameIndex], Option<FileError>) {
    let whole: &[FrameIndex] = if len < ONE_FRAME {
        &[]
    } else if len < FILE.len() {
        &[0]
    } else {
        &[0, 1]
    };
    let end = match whole.len() {
        0 => 4,
        1 => ONE_FRAME,
        _ => FILE.len(),
    };
    // Fewer than four bytes behind the last whole frame are the end.
    let refusal = if len < end + 4 {
        None
    } else {
        Some(FileError::Truncated)
    };
    (whole, refusal)
}

#[test]
fn a_file_that_is_cut_gives_its_whole_frames(rt: HostRuntime) {
    for len in 4..FILE.len() + 1 {
        let (whole, refusal) = given_of_cut(len);
        are_given(&rt, &FILE[..len], whole, refusal);
    }
}

/// A reader gives frame 0, and then a fault, before which it counts one frame.
fn has_a_newer_frame<S: Source>(rt: &impl Abort, reader: &mut FrameReader<S>) {
    assert!(rt; reader.num_frames() == 0);
    let first = next_index(reader).expect(rt, "a frame");
    assert!(rt; first == Some(0));
    let fault = next_index(reader).err();
    assert!(rt; fault == Some(FileError::Newer));
    assert!(rt; reader.num_frames() == 1);
}

#[test]
fn a_fault_has_its_frame_and_its_place(rt: HostRuntime) {
    let newer = bytes_of(rt.alloc(), &[&FILE[..ONE_FRAME], b"PFD9", &FILE[83..]]).expect(
        &rt, "memory",
    );
    let mut reader = FrameReader::new(rt.alloc(), Counted::new(newer.as_slice())).expect(
        &rt, "a file",
    );
    has_a_newer_frame(&rt, &mut reader);
    // The letters of the second frame are the last bytes that were read.
    let left = reader.into_source().into_inner();
    assert!(rt; newer.len().checked_sub(left.len()) == Some(ONE_FRAME + 4));
}

#[test]
fn a_fault_comes_behind_the_frames_before_it(rt: HostRuntime) {
    let newer = bytes_of(rt.alloc(), &[&FILE[..ONE_FRAME], b"PFD9", &FILE[83..]]).expect(
        &rt, "memory",
    );
    are_given(&rt, &newer, &[0], Some(FileError::Newer));
    let no_id = b"\x07\0\0\0\x01\0\0\x01f\0\0";
    let missing = bytes_of(rt.alloc(), &[&FILE, &FILE[4..74], no_id, &FILE[4..]]).expect(
        &rt, "memory",
    );
    let refused = Some(FileError::Refused(Error::MissingId));
    are_given(&rt, &missing, &[0, 1], refused);
}

#[test]
fn a_reader_stops_at_a_fault(rt: HostRuntime) {
    let bytes = bytes_of(rt.alloc(), &[b"PUF0PFD9", &FILE[4..]]).expect(&rt, "memory");
    let mut reader = FrameReader::new(rt.alloc(), Counted::new(bytes.as_slice())).expect(
        &rt, "a file",
    );
    let fault = next_index(&mut reader).err();
    assert!(rt; fault == Some(FileError::Newer));
    // The frames behind the fault are left.
    let behind = next_index(&mut reader).expect(&rt, "a frame");
    assert!(rt; behind.is_none());
}

/// Writes the frames of a view, one at a time.
fn write_frames<D: Drain + Drop>(
    alloc: Global,
    drain: D,
    view: &FrameView,
) -> std::result::Result<D, FileError>
    requires { D.failures drain ≡ 0 }
{
    let mut writer = FrameWriter::new(alloc, drain)?;
    'frames: for frame in view.recent_frames() {
        writer.write(frame)?;
    }
    Ok(writer.into_drain())
}

/// What is written of a view's frames, and how often the writer failed.
fn written_frames(
    alloc: Global,
    view: &FrameView,
) -> std::result::Result<(Vec<u8>, u64), FileError> {
    let mut bytes = Vec::new(alloc);
    let drain = write_frames(alloc, Counted::new(&mut bytes), view)?;
    let faults = drain.faults();
    Ok((bytes, faults))
}

#[test]
fn a_file_is_written_one_frame_at_a_time(rt: HostRuntime) {
    for len in &[4, ONE_FRAME, FILE.len()] {
        let (bytes, faults) = written_frames(rt.alloc(), &view(&rt, &FILE[..*len])).expect(
            &rt, "frames",
        );
        assert!(rt; faults == 0);
        assert!(rt; Some(bytes.as_slice()) == FILE.get(..*len));
    }
}

/// What is written of the file's frames to a writer that takes so much and then fails.
fn written_to_full(
    rt: &(impl AllocGlobal + Abort),
    view: &FrameView,
    room: usize,
) -> (Vec<u8>, bool) {
    let mut full = Full {
        step: 5,
        room,
        failure: Some(ErrorKind::Other),
        written: Vec::new(rt.alloc()),
    };
    let refused = write_frames(rt.alloc(), Counted::new(&mut full), view).is_err();
    (full.written, refused)
}

#[test]
fn a_refused_write_leaves_a_beginning_of_its_packet(rt: HostRuntime) {
    let view = view(&rt, &FILE);
    for room in 0..FILE.len() + 1 {
        let (written, refused) = written_to_full(&rt, &view, room);
        assert!(rt; refused == (room < FILE.len()));
        assert!(rt; Some(written.as_slice()) == FILE.get(..room));
    }
}

/// A writer that fails at most once, at this call.
#[derive(Drop)]
struct Flaky {
    calls: usize,
    written: Vec<u8>,
}

impl Write for Flaky {
    fn write(&mut self, buf: &[u8]) -> io::Result<usize> {
        let calls = self.calls;
        self.calls = calls.wrapping_sub(1);
        if calls == 0 || self.written.extend_from_slice(buf).is_err() {
            return Err(io::Error::from(ErrorKind::Other));
        }
        Ok(buf.len())
    }

    fn flush(&mut self) -> io::Result<()> {
        Ok(())
    }
}

/// What is refused where two frames are written to such a writer.
fn refused_by(
    rt: &(impl AllocGlobal + Abort),
    flaky: &mut Flaky,
    view: &FrameView,
) -> Vec<Option<FileError>> {
    let mut refused = Vec::new(rt.alloc());
    let mut writer = FrameWriter::new(rt.alloc(), Counted::new(flaky)).expect(rt, "a file");
    for frame in view.recent_frames() {
        refused.push(writer.write(frame).err()).expect(rt, "memory");
    }
    refused
}

/// What is written of a view to a writer that fails at this call, and what is refused.
fn written_to_flaky(
    rt: &(impl AllocGlobal + Abort),
    view: &FrameView,
    calls: usize,
) -> (Vec<u8>, Vec<Option<FileError>>) {
    let mut flaky = Flaky {
        calls,
        written: Vec::new(rt.alloc()),
    };
    let refused = refused_by(rt, &mut flaky, view);
    (flaky.written, refused)
}

#[test]
fn nothing_is_written_behind_a_packet_that_was_cut(rt: HostRuntime) {
    // The letters are the first call, and the second call of the first packet fails.
    let (written, refused) = written_to_flaky(&rt, &view(&rt, &FILE), 2);
    let io = Some(FileError::Io);
    assert!(rt; refused.as_slice() == [io, io].as_slice());
    let len = written.len();
    assert!(rt; len < ONE_FRAME);
    assert!(rt; Some(written.as_slice()) == FILE.get(..len));
}

/// Writes each frame of a view to a file of its own, and returns the files.
fn written_apart(alloc: Global, view: &FrameView) -> std::result::Result<Vec<Vec<u8>>, FileError> {
    let mut files = Vec::new(alloc);
    let mut writer = FrameWriter::new(alloc, Counted::new(Vec::new(alloc)))?;
    'frames: for frame in view.recent_frames() {
        writer.write(frame)?;
        let last = writer.next_file(Counted::new(Vec::new(alloc)))?;
        files.push(last.into_inner())?;
    }
    Ok(files)
}

#[test]
fn each_file_has_the_details_of_all_frames_so_far(rt: HostRuntime) {
    let named = bytes_of(rt.alloc(), &[&FILE[..74], &DETAILS, &FILE[79..]]).expect(&rt, "memory");
    let files = written_apart(rt.alloc(), &view(&rt, &named)).expect(&rt, "files");
    let second = bytes_of(rt.alloc(), &[b"PUF0", &FILE[79..150], &DETAILS]).expect(&rt, "memory");
    assert!(rt; files.first().map(|file| file.as_slice()) == named.get(..86));
    assert!(rt; files.get(1) == Some(&second));
}

/// Writes a frame to a file of its own. Returns why it is refused, and the file.
fn written_alone(
    alloc: Global,
    frame: &FrameData,
) -> std::result::Result<(Option<FileError>, Vec<u8>), FileError> {
    let mut writer = FrameWriter::new(alloc, Counted::new(Vec::new(alloc)))?;
    let refused = writer.write(frame).err();
    Ok((refused, writer.into_drain().into_inner()))
}

/// The frame of a packet whose details have no id.
fn without_ids(rt: &(impl AllocGlobal + Abort)) -> FrameData {
    let no_id = b"\x07\0\0\0\x01\0\0\x01f\0\0";
    let packet = bytes_of(rt.alloc(), &[&FILE[4..74], no_id]).expect(rt, "memory");
    let frame = FrameData::read_next(rt.alloc(), &mut Counted::new(packet.as_slice())).ok();
    frame.flatten().expect(rt, "a frame")
}

#[test]
fn a_frame_whose_details_have_no_id_is_not_written(rt: HostRuntime) {
    let frame = without_ids(&rt);
    let (refused, bytes) = written_alone(rt.alloc(), &frame).expect(&rt, "a file");
    assert!(rt; refused == Some(FileError::Refused(Error::MissingId)));
    assert!(rt; bytes.as_slice() == b"PUF0".as_slice());
}
