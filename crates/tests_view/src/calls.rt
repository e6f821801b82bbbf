//! Statistics of frames that are packed or not, and the faults of packets.

use crate::files::has_fault;
use puffin_data::{Error, FileError, FrameIndex};
use puffin_view::profile_view::{FrameStats, FrameView};
use std::process::Abort;
use std::sync::Arc;
use tests_support::frames::packet_frame;
use tests_support::samples::{FILE, ONE_FRAME};

/// How many frames there are, and how many of them are unpacked.
fn counts(stats: FrameStats) -> (usize, usize) {
    (stats.frames(), stats.unpacked_frames())
}

/// How many frames both calls for statistics count with this frame more, and how many of them unpacked.
fn counts_with(
    rt: &(impl AllocGlobal + Abort),
    view: &mut FrameView,
    index: FrameIndex,
) -> [(usize, usize); 2] {
    let frame = packet_frame(rt.alloc(), index).expect(rt, "a frame");
    view.add_frame(Arc::new(rt.alloc(), frame).expect(rt, "memory"))
        .expect(rt, "a frame");
    let stats = FrameStats::from_frames(view.all_uniq());
    [counts(view.stats()), counts(stats)]
}

#[test]
fn the_newest_frame_is_packed_where_packing_is_on(rt: HostRuntime) {
    let mut view = FrameView::new(rt.alloc());
    for (index, expected) in &[(0, (1, 1)), (1, (2, 2)), (2, (3, 2))] {
        view.set_pack_frames(*index == 2);
        let found = counts_with(&rt, &mut view, *index);
        assert!(rt; found == [*expected, *expected]);
    }
}

/// Up to where a packet is kept, what stands there, from where on it is kept again, and its fault.
type Changed = (usize, &'static [u8], usize, FileError);

/// What may be wrong with a packet. (Places are those of the file.)
const CHANGED: [Changed; 11] = [
    (7, b"0", 8, FileError::Legacy),
    (7, b"1", 8, FileError::Legacy),
    (7, b"9", 8, FileError::Newer),
    // A byte is left over behind the range and the counts.
    (
        8,
        b"\x08\0\0\0\0\xc8\xfb\x58\x02\x23\x01\0",
        19,
        FileError::BadMeta,
    ),
    // A range from 300 to 100, and one from the least time to 0.
    (12, b"\0\xfb\x58\x02\xc8\x23\x01", 19, FileError::BadRange),
    (
        8,
        b"\x0d\0\0\0\0\xfd\xff\xff\xff\xff\xff\xff\xff\xff\0\x23\x01",
        19,
        FileError::BadRange,
    ),
    (23, b"\x03", 24, FileError::UnknownKind(3)),
    // Five details that aren't there, and one with the id 0.
    (74, b"\x01\0\0\0\x05", 79, FileError::BadScopes),
    (
        74,
        b"\x07\0\0\0\x01\x01\0\0\0\0\0",
        79,
        FileError::BadScopes,
    ),
    // A detail without an id.
    (
        74,
        b"\x06\0\0\0\x01\0\0\0\0\0",
        79,
        FileError::Refused(Error::MissingId),
    ),
    (74, b"\x01\0\0\0", 79, FileError::Truncated),
];

/// The first frame's packet is at fault where it is so changed, alone in a file and behind a good one.
fn is_at_fault(rt: &(impl AllocGlobal + Abort), (end, bytes, begin, fault): Changed) {
    let front = FILE.get(4..end).expect(rt, "a beginning");
    let back = FILE.get(begin..ONE_FRAME).expect(rt, "an end");
    has_fault(rt, &[b"PUF0", front, bytes, back], Some(fault));
    has_fault(rt, &[&FILE[..ONE_FRAME], front, bytes, back], Some(fault));
}

#[test]
fn each_fault_of_a_packet_is_the_file_s(rt: HostRuntime) {
    for changed in &CHANGED {
        is_at_fault(&rt, *changed);
    }
}

/// A legacy frame of so many bytes, the first frame's streams with this end, is at fault.
fn legacy_frame_is_at_fault(
    rt: &(impl AllocGlobal + Abort),
    size: u8,
    end: &[u8],
    fault: FileError,
) {
    let streams = FILE.get(24..74).expect(rt, "the streams");
    has_fault(
        rt,
        &[b"PUF0", &[size, 0, 0, 0, 0], streams, end],
        Some(fault),
    );
}

#[test]
fn each_fault_of_a_legacy_frame_is_the_file_s(rt: HostRuntime) {
    let range = b"\xfb\x58\x02\xc8\x23\x01";
    legacy_frame_is_at_fault(&rt, 57, range, FileError::BadRange);
    let left_over = b"\xc8\xfb\x58\x02\x23\x01\0";
    legacy_frame_is_at_fault(&rt, 58, left_over, FileError::BadStreams);
}
