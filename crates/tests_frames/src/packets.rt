use crate::equal::equal;
use puffin_data::data::Counted;
use puffin_data::{FileError, Result};
use puffin_frames::frame_data::{FrameData, UnpackedFrameData};
use puffin_threads::scope_details::{ScopeCollection, ScopeDetails};
use std::alloc::Global;
use std::borrow::CowStr;
use std::process::Abort;
use std::sync::Arc;
use tests_support::frames::{lists, packet_frame, written};
use tests_support::samples::{ONE_SCOPE, PACKET};
use tests_support::streams::{bytes_of, id};

/// The two packets that the Rust crate writes, at kind 0, of these scopes: `t1` from 374487 to 375371, and then `t0`
/// with one scope in another from 378236 to 378240 and `t1` from 378300 to 70000000000; each frame with the details of
/// one new scope.
static RUST_PACKETS: [u8; 314] = [
    80, 70, 68, 52, 13, 0, 0, 0, 0, 252, 174, 109, 11, 0, 252, 150, 116, 11, 0, 31, 1, 54, 0, 0, 0,
    0, 1, 1, 252, 174, 109, 11, 0, 2, 116, 49, 31, 40, 3, 0, 0, 0, 215, 182, 5, 0, 0, 0, 0, 0, 0,
    0, 0, 0, 0, 0, 0, 0, 0, 41, 75, 186, 5, 0, 0, 0, 0, 0, 1, 1, 252, 174, 109, 11, 0, 252, 150,
    116, 11, 0, 24, 0, 0, 0, 1, 1, 1, 0, 3, 102, 50, 48, 12, 109, 47, 115, 114, 99, 47, 195, 188,
    48, 46, 114, 115, 251, 215, 4, 80, 70, 68, 52, 17, 0, 0, 0, 1, 252, 248, 138, 11, 0, 253, 0,
    120, 166, 152, 32, 0, 0, 0, 97, 3, 146, 0, 0, 0, 0, 2, 1, 252, 174, 109, 11, 0, 2, 116, 49, 31,
    40, 1, 0, 0, 0, 188, 197, 5, 0, 0, 0, 0, 0, 0, 0, 0, 0, 0, 0, 0, 0, 0, 41, 0, 60, 83, 76, 16,
    0, 0, 0, 1, 1, 252, 120, 139, 11, 0, 253, 0, 120, 166, 152, 32, 0, 0, 0, 1, 252, 248, 138, 11,
    0, 2, 116, 48, 66, 40, 5, 0, 0, 0, 124, 197, 5, 0, 0, 0, 0, 0, 4, 109, 101, 115, 104, 31, 0, 0,
    0, 0, 0, 0, 0, 40, 44, 1, 0, 0, 125, 197, 5, 0, 0, 0, 0, 0, 0, 0, 0, 0, 0, 0, 0, 0, 0, 41, 127,
    197, 5, 0, 0, 0, 0, 0, 41, 128, 197, 5, 0, 0, 0, 0, 0, 2, 2, 252, 248, 138, 11, 0, 252, 0, 139,
    11, 0, 26, 0, 0, 0, 1, 1, 2, 1, 6, 112, 97, 114, 116, 45, 55, 3, 102, 50, 48, 5, 109, 51, 46,
    114, 115, 252, 250, 45, 238, 255,
];

/// Reads a frame.
pub(crate) fn read(
    alloc: Global,
    bytes: &[u8],
) -> std::result::Result<Option<FrameData>, FileError> {
    FrameData::read_next(alloc, &mut Counted::new(bytes))
}

pub(crate) fn read_one(alloc: Global, bytes: &[u8]) -> Option<FrameData> {
    read(alloc, bytes).ok().flatten()
}

/// Just these bytes are written of a frame.
pub(crate) fn is_written(rt: &impl Abort, alloc: Global, frame: &FrameData, expected: &[u8]) {
    equal(
        rt,
        written(alloc, frame, None).expect(rt, "bytes").as_slice(),
        expected,
    );
}

/// Details with an id, of a part of the function `a`.
fn details(alloc: Global, number: u32, name: &'static str) -> Result<Arc<ScopeDetails>> {
    let function = ScopeDetails::from_scope_name(CowStr::Borrowed(name))
        .with_function_name(CowStr::Borrowed("a"))
        .with_scope_id(id(number)?);
    Ok(Arc::new(alloc, in_file(function))?)
}

/// The same details, at line 7 of `b.rs`.
fn in_file(details: ScopeDetails) -> ScopeDetails {
    details.with_file(CowStr::Borrowed("b.rs")).with_line_nr(7)
}

/// What a frame says: its index, its range, its bytes and scopes, and the size of its packed streams.
pub(crate) fn facts(frame: &FrameData) -> (u64, (i64, i64), (usize, usize), Option<usize>) {
    let meta = frame.meta();
    let counts = (meta.num_bytes, meta.num_scopes);
    (
        frame.frame_index(),
        frame.range_ns(),
        counts,
        frame.packed_size(),
    )
}

/// Whether a frame's streams are packed, and whether they are there as they are.
pub(crate) fn held(frame: &FrameData) -> (bool, bool) {
    (frame.has_packed(), frame.has_unpacked())
}

/// The sizes of a frame: packed, unpacked, and in memory.
fn sizes(frame: &FrameData) -> (Option<usize>, Option<usize>, usize) {
    (
        frame.packed_size(),
        frame.unpacked_size(),
        frame.bytes_of_ram_used(),
    )
}

/// How many streams a frame has.
fn count_streams(frame: &mut FrameData) -> std::result::Result<usize, FileError> {
    Ok(frame.unpacked()?.thread_streams.len())
}

/// Why a frame isn't unpacked.
pub(crate) fn fault_of_streams(frame: &mut FrameData) -> Option<FileError> {
    frame.unpacked().err()
}

/// The function and the line of a frame's only details.
fn only_details<'f>(frame: &'f FrameData) -> Option<(&'f str, u32)> {
    match frame.scope_delta.as_slice() {
        [details] => Some((details.function_name.as_str(), details.line_nr)),
        _ => None,
    }
}

/// The name of a frame's only details.
fn only_name<'f>(frame: &'f FrameData) -> Option<&'f str> {
    match frame.scope_delta.as_slice() {
        [details] => Some(details.name().as_str()),
        _ => None,
    }
}

#[test]
fn a_frame_is_written_byte_for_byte(rt: HostRuntime) {
    let frame = packet_frame(rt.alloc(), 0).expect(&rt, "a frame");
    is_written(&rt, rt.alloc(), &frame, &PACKET);
    let packed = frame.packed_copy().expect(&rt, "memory");
    is_written(&rt, rt.alloc(), &packed, &PACKET);
    let copy = frame.clone().expect(&rt, "memory");
    assert!(rt; copy.has_unpacked());
    is_written(&rt, rt.alloc(), &copy, &PACKET);
}

#[test]
fn a_packet_is_read(rt: HostRuntime) {
    let frame = read_one(rt.alloc(), &PACKET).expect(&rt, "a frame");
    equal(&rt, facts(&frame), (0, (100, 300), (35, 1), Some(50)));
    equal(&rt, frame.duration_ns(), 200);
    equal(&rt, (frame.scope_delta.len(), frame.full_delta), (0, false));
    equal(&rt, held(&frame), (true, false));
}

/// The first stream is that of [`PACKET`].
fn is_stream_of_packet(rt: &impl Abort, frame: &UnpackedFrameData) {
    let (thread, info) = frame
        .thread_streams
        .first_key_value()
        .expect(rt, "a stream");
    equal(
        rt,
        (thread.name.as_str(), thread.start_time_ns),
        ("main", Some(100)),
    );
    equal(rt, info.stream.bytes(), &ONE_SCOPE);
    equal(rt, info.depth, 1);
}

#[test]
fn streams_of_a_packet_that_is_read(rt: HostRuntime) {
    let mut frame = read_one(rt.alloc(), &PACKET).expect(&rt, "a frame");
    let unpacked = frame.unpacked().expect(&rt, "streams");
    is_stream_of_packet(&rt, &unpacked);
}

#[test]
fn packets_of_the_rust_crate_are_read_and_written_back(rt: HostRuntime) {
    let mut first = read_one(rt.alloc(), &RUST_PACKETS).expect(&rt, "a frame");
    equal(&rt, facts(&first), (0, (374487, 375371), (31, 1), Some(54)));
    equal(
        &rt,
        only_details(&first).expect(&rt, "details of one scope"),
        ("f20", 1239),
    );
    equal(&rt, count_streams(&mut first).expect(&rt, "streams"), 1);
    is_written(&rt, rt.alloc(), &first, &RUST_PACKETS[..108]);
}

#[test]
fn the_second_packet_of_the_rust_crate(rt: HostRuntime) {
    let packet = &RUST_PACKETS[108..];
    let mut second = read_one(rt.alloc(), packet).expect(&rt, "a frame");
    equal(
        &rt,
        facts(&second),
        (1, (378236, 70000000000), (97, 3), Some(146)),
    );
    equal(
        &rt,
        only_details(&second).expect(&rt, "details of one scope"),
        ("f20", 4293799418),
    );
    equal(&rt, count_streams(&mut second).expect(&rt, "streams"), 2);
    is_written(&rt, rt.alloc(), &second, packet);
}

#[test]
fn the_third_version_has_no_details(rt: HostRuntime) {
    let bytes = bytes_of(rt.alloc(), &[b"PFD3", &PACKET[4..70]]).expect(&rt, "memory");
    let frame = read_one(rt.alloc(), &bytes).expect(&rt, "a frame");
    equal(
        &rt,
        (frame.has_packed(), frame.scope_delta.len()),
        (true, 0),
    );
    is_written(&rt, rt.alloc(), &frame, &PACKET);
}

#[test]
fn the_second_version_is_kept_compressed(rt: HostRuntime) {
    let bytes = bytes_of(rt.alloc(), &[b"PFD2", &PACKET[4..19], &PACKET[20..70]]).expect(
        &rt, "memory",
    );
    let mut frame = read_one(rt.alloc(), &bytes).expect(&rt, "a frame");
    equal(
        &rt,
        fault_of_streams(&mut frame),
        Some(FileError::Compressed(2)),
    );
    assert!(rt; !frame.has_unpacked());
    let expected = bytes_of(rt.alloc(), &[&PACKET[..19], &[2], &PACKET[20..]]).expect(
        &rt, "memory",
    );
    is_written(&rt, rt.alloc(), &frame, &expected);
}

/// The packet's frame as a legacy one, with what stands after its streams.
fn legacy_frame(alloc: Global, end: &[u8]) -> Result<Vec<u8>> {
    bytes_of(alloc, &[&[57, 0, 0, 0, 0], &PACKET[20..70], end])
}

#[test]
fn a_legacy_frame_is_held_unpacked(rt: HostRuntime) {
    let bytes = legacy_frame(rt.alloc(), &[0xc8, 0xfb, 0x58, 0x02, 0x23, 0x01]).expect(
        &rt,
        "legacy frame",
    );
    equal(&rt, bytes.len(), 61);
    let frame = read_one(rt.alloc(), &bytes).expect(&rt, "a frame");
    drop(bytes);
    equal(&rt, held(&frame), (false, true));
    is_written(&rt, rt.alloc(), &frame, &PACKET);
}

#[test]
fn details_without_an_id(rt: HostRuntime) {
    let bytes = bytes_of(
        rt.alloc(),
        &[&PACKET[..70], &[6, 0, 0, 0, 1, 0, 0, 0, 0, 0]],
    )
    .expect(&rt, "memory");
    equal(&rt, bytes.len(), 80);
    let frame = read_one(rt.alloc(), &bytes).expect(&rt, "a frame");
    let ids = frame.scope_delta.first().map(|details| details.scope_id());
    equal(&rt, ids, Some(None));
    is_written(&rt, rt.alloc(), &frame, &bytes);
}

/// The frame of [`PACKET`], packed.
fn packed_frame(alloc: Global) -> Result<FrameData> {
    let mut frame = packet_frame(alloc, 0)?;
    frame.pack()?;
    Ok(frame)
}

#[test]
fn sizes_of_a_frame_before_and_after_packing(rt: HostRuntime) {
    equal(
        &rt,
        sizes(&packet_frame(rt.alloc(), 0).expect(&rt, "a frame")),
        (None, Some(35), 35),
    );
    equal(
        &rt,
        sizes(&packed_frame(rt.alloc()).expect(&rt, "a frame")),
        (Some(50), None, 50),
    );
}

#[test]
fn sizes_of_a_frame_that_is_held_both_ways(rt: HostRuntime) {
    let mut frame = packed_frame(rt.alloc()).expect(&rt, "a frame");
    equal(&rt, count_streams(&mut frame).expect(&rt, "streams"), 1);
    let info = frame.packing_info();
    equal(
        &rt,
        (info.packed_size, info.unpacked_size),
        (Some(50), Some(35)),
    );
    equal(&rt, frame.bytes_of_ram_used(), 85);
    frame.pack().expect(&rt, "memory");
    equal(&rt, held(&frame), (true, false));
    equal(&rt, frame.bytes_of_ram_used(), 50);
}

/// The frame of [`PACKET`], with one scope's details.
fn frame_with_details(alloc: Global) -> Result<FrameData> {
    let mut frame = packet_frame(alloc, 0)?;
    frame.scope_delta.push(details(alloc, 1, "my-scope")?)?;
    Ok(frame)
}

/// Checks that a frame lists exactly these details.
fn tells_of_one(rt: &impl Abort, frame: &FrameData) {
    equal(rt, only_name(frame), Some("my-scope"));
    equal(rt, only_details(frame), Some(("a", 7)));
}

#[test]
fn a_list_of_one_detail(rt: HostRuntime) {
    let list = [
        1, 1, 1, 1, 8, 109, 121, 45, 115, 99, 111, 112, 101, 1, 97, 4, 98, 46, 114, 115, 7,
    ];
    let packet = bytes_of(rt.alloc(), &[&PACKET[..70], &[21, 0, 0, 0], &list]).expect(
        &rt, "memory",
    );
    is_written(
        &rt,
        rt.alloc(),
        &frame_with_details(rt.alloc()).expect(&rt, "a frame"),
        &packet,
    );
    tells_of_one(&rt, &read_one(rt.alloc(), &packet).expect(&rt, "a frame"));
}

/// A collection of these scopes.
fn collection(alloc: Global, scopes: &[(u32, &'static str)]) -> Result<ScopeCollection> {
    let mut collection = ScopeCollection::new(alloc);
    for (number, name) in scopes {
        let _ = collection.insert(details(alloc, *number, *name)?)?;
    }
    Ok(collection)
}

/// Checks that a frame which is written with a collection's details lists these scopes.
fn lists_instead(
    rt: &impl Abort,
    alloc: Global,
    frame: &FrameData,
    collection: &ScopeCollection,
    scopes: &[(u32, &str)],
) {
    let packet = written(alloc, frame, Some(collection)).expect(rt, "bytes");
    assert!(rt; lists(&read_one(alloc, &packet).expect(rt, "a frame"), scopes));
}

#[test]
fn details_of_a_collection_are_written(rt: HostRuntime) {
    // A collection's details stand in place of the frame's, by rising id.
    let frame = frame_with_details(rt.alloc()).expect(&rt, "a frame");
    let two = collection(rt.alloc(), &[(300, "x"), (2, "y")]).expect(&rt, "details");
    lists_instead(&rt, rt.alloc(), &frame, &two, &[(2, "y"), (300, "x")]);
}

#[test]
fn copies_are_written_with_a_collection(rt: HostRuntime) {
    // Of the details named `b`, whose id is taken, only the name is kept.
    let three = collection(rt.alloc(), &[(1, "a"), (1, "b"), (2, "a")]).expect(&rt, "details");
    let frame = packet_frame(rt.alloc(), 0).expect(&rt, "a frame");
    let kept = [(1, "a"), (2, "a")];
    lists_instead(
        &rt,
        rt.alloc(),
        &frame.clone().expect(&rt, "memory"),
        &three,
        &kept,
    );
    lists_instead(
        &rt,
        rt.alloc(),
        &frame.packed_copy().expect(&rt, "memory"),
        &three,
        &kept,
    );
}
