use puffin_data::data::Counted;
use puffin_data::{Error, FileError};
use puffin_frames::frame_data::FrameIndex;
use puffin_view::profile_view::FrameView;
use std::process::Abort;
use tests_support::samples::FILE;
use tests_support::streams::bytes_of;

pub(crate) fn read(
    rt: &(impl AllocGlobal + Abort),
    bytes: &[u8],
) -> std::result::Result<FrameView, FileError> {
    FrameView::read(rt.alloc(), &mut Counted::new(bytes))
}

/// Why a file isn't read.
fn fault(rt: &(impl AllocGlobal + Abort), pieces: &[&[u8]]) -> Option<FileError> {
    let bytes = bytes_of(rt.alloc(), pieces).expect(rt, "memory");
    read(rt, &bytes).err()
}

pub(crate) fn view(rt: &(impl AllocGlobal + Abort), bytes: &[u8]) -> FrameView {
    read(rt, bytes).ok().expect(rt, "no fault")
}

pub(crate) fn written(rt: &(impl AllocGlobal + Abort), view: &FrameView) -> Vec<u8> {
    let mut bytes = Vec::new(rt.alloc());
    view.write(&mut Counted::new(&mut bytes))
        .ok()
        .expect(rt, "no fault");
    bytes
}

/// Adds the recent frames of another view.
fn add_all(rt: &(impl AllocGlobal + Abort), view: &mut FrameView, other: &FrameView) {
    for frame in other.recent_frames() {
        let frame = frame.clone().expect(rt, "memory");
        view.add_frame(frame).expect(rt, "a frame");
    }
}

/// Adds the frames of a file.
fn add_file(rt: &(impl AllocGlobal + Abort), limited: &mut FrameView, bytes: &[u8]) {
    let whole = view(rt, bytes);
    add_all(rt, limited, &whole);
}

/// A view with these limits, of the frames of a file.
fn limited(
    rt: &(impl AllocGlobal + Abort),
    bytes: &[u8],
    max_recent: usize,
    max_slow: usize,
) -> FrameView {
    let mut limited = FrameView::new(rt.alloc());
    limited.set_max_recent(max_recent);
    limited.set_max_slow(max_slow);
    add_file(rt, &mut limited, bytes);
    limited
}

/// The indices of the recent frames.
fn recent(rt: &(impl AllocGlobal + Abort), view: &FrameView) -> Vec<FrameIndex> {
    let mut all = Vec::new(rt.alloc());
    for frame in view.recent_frames() {
        all.push(frame.frame_index()).expect(rt, "memory");
    }
    all
}

/// The recent frames have these indices.
pub(crate) fn are_recent(
    rt: &(impl AllocGlobal + Abort),
    view: &FrameView,
    indices: &[FrameIndex],
) {
    let found = recent(rt, view);
    assert!(rt; found.as_slice() == indices);
}

/// A view is written as this file.
pub(crate) fn is_written(rt: &(impl AllocGlobal + Abort), view: &FrameView, file: &[u8]) {
    let found = written(rt, view);
    assert!(rt; found.as_slice() == file);
}

/// A file of these pieces isn't read for this fault, or has none.
pub(crate) fn has_fault(
    rt: &(impl AllocGlobal + Abort),
    pieces: &[&[u8]],
    expected: Option<FileError>,
) {
    let found = fault(rt, pieces);
    assert!(rt; found == expected);
}

#[test]
fn files_of_the_rust_crate_are_read_and_written_back(rt: HostRuntime) {
    for len in &[4, 79, 155] {
        let view = view(&rt, &FILE[..*len]);
        is_written(&rt, &view, &FILE[..*len]);
    }
}

/// Whether a view holds two packed frames, and knows no scope.
fn has_two_packed(view: &FrameView) -> bool {
    let stats = view.stats();
    (stats.frames(), stats.unpacked_frames()) == (2, 0)
        && view.scope_collection().scopes_by_id().is_empty()
}

/// Whether a view has the limits of one that was read, and packs frames.
fn is_as_read(view: &FrameView) -> bool {
    (view.max_recent(), view.max_slow()) == (usize::MAX, 256) && view.pack_frames()
}

#[test]
fn a_view_of_a_file_has_its_frames_packed(rt: HostRuntime) {
    let view = view(&rt, &FILE);
    are_recent(&rt, &view, &[0, 1]);
    assert!(rt; has_two_packed(&view) && is_as_read(&view));
}

#[test]
fn a_frame_that_is_slow_alone_is_written(rt: HostRuntime) {
    let view = limited(&rt, &FILE, 1, 1);
    are_recent(&rt, &view, &[1]);
    is_written(&rt, &view, &FILE);
}

#[test]
fn a_frame_that_is_held_no_more_is_not_written(rt: HostRuntime) {
    let mut view = limited(&rt, &FILE, 1, 1);
    view.clear_slowest();
    let bytes = bytes_of(rt.alloc(), &[b"PUF0", &FILE[79..]]).expect(&rt, "memory");
    is_written(&rt, &view, bytes.as_slice());
}

#[test]
fn frames_that_are_recent_and_slow_are_written_once(rt: HostRuntime) {
    let view = limited(&rt, &FILE, 2, 2);
    is_written(&rt, &view, &FILE);
}

#[test]
fn files_end_at_few_bytes_or_four_zeros(rt: HostRuntime) {
    let ends: [&[u8]; 4] = [b"", b"PFD", &[0, 0, 0, 0], &[0, 0, 0, 0, 80, 70, 68, 57]];
    for end in ends {
        assert!(rt; view_of(&rt, &[b"PUF0", end]).is_empty());
        are_recent(&rt, &view_of(&rt, &[&FILE[..79], end]), &[0]);
    }
}

/// A view of a file of these pieces.
fn view_of(rt: &(impl AllocGlobal + Abort), pieces: &[&[u8]]) -> FrameView {
    let bytes = bytes_of(rt.alloc(), pieces).expect(rt, "memory");
    view(rt, &bytes)
}

#[test]
fn legacy_frames_are_held_unpacked(rt: HostRuntime) {
    let counts = [0xc8, 0xfb, 0x58, 0x02, 0x23, 0x01];
    let view = view_of(&rt, &[b"PUF0", &[57, 0, 0, 0, 0], &FILE[24..74], &counts]);
    assert!(rt; view.stats().unpacked_frames() == 1);
    is_written(&rt, &view, &FILE[..79]);
}

#[test]
fn an_index_that_does_not_rise_empties_the_view(rt: HostRuntime) {
    let view = view_of(&rt, &[b"PUF0", &FILE[79..], &FILE[4..79]]);
    are_recent(&rt, &view, &[0]);
}

/// A view of this file knows one scope, and is written as the file.
fn knows_one(rt: &(impl AllocGlobal + Abort), file: &[u8]) {
    let known = view(rt, file);
    assert!(rt; known.scope_collection().scopes_by_id().len() == 1);
    is_written(rt, &known, file);
}

/// The details of a packet: one scope, with an id.
pub(crate) const DETAILS: [u8; 12] = *b"\x08\0\0\0\x01\x01\x07\0\x01f\0\0";

#[test]
fn details_are_learnt(rt: HostRuntime) {
    let bytes = bytes_of(rt.alloc(), &[&FILE[..74], &DETAILS]).expect(&rt, "memory");
    knows_one(&rt, &bytes);
}

/// What a view writes with all details that it knows.
fn written_with_details(rt: &(impl AllocGlobal + Abort), view: &FrameView) -> Vec<u8> {
    let mut bytes = Vec::new(rt.alloc());
    view.write_with_details(&mut Counted::new(&mut bytes))
        .ok()
        .expect(rt, "no fault");
    bytes
}

#[test]
fn a_file_has_the_details_of_frames_that_are_gone(rt: HostRuntime) {
    let named = bytes_of(rt.alloc(), &[&FILE[..74], &DETAILS, &FILE[79..]]).expect(&rt, "memory");
    let view = limited(&rt, &named, 1, 0);
    let bare = bytes_of(rt.alloc(), &[b"PUF0", &FILE[79..]]).expect(&rt, "memory");
    is_written(&rt, &view, &bare);
    let whole = bytes_of(rt.alloc(), &[b"PUF0", &FILE[79..150], &DETAILS]).expect(&rt, "memory");
    let found = written_with_details(&rt, &view);
    assert!(rt; found == whole);
}

#[test]
fn details_without_an_id_are_refused_behind_their_packet(rt: HostRuntime) {
    let front = bytes_of(rt.alloc(), &[&FILE[..74], b"\x07\0\0\0\x01\0\0\x01f\0\0"]).expect(
        &rt, "memory",
    );
    let missing = Some(FileError::Refused(Error::MissingId));
    has_fault(&rt, &[&front], missing);
    has_fault(&rt, &[&front, b"PFD9"], missing);
    has_fault(&rt, &[&FILE, b"PFD9", &front], Some(FileError::Newer));
}

#[test]
fn files_begin_with_their_letters(rt: HostRuntime) {
    for letters in &[b"".as_slice(), b"P", b"PUF", b"PUF1", b"PFD4", &FILE[1..]] {
        has_fault(&rt, &[*letters], Some(FileError::NoMagic));
    }
}

#[test]
fn a_packet_of_streams_that_are_compressed_is_read(rt: HostRuntime) {
    has_fault(&rt, &[&FILE[..23], &[2], &FILE[24..79]], None);
}
