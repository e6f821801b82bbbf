//! Calls that the crates above make, each by itself.

use crate::equal::equal;
use puffin_data::data::Form;
use puffin_data::{NanoSecond, Result};
use puffin_frames::frame_data::{FrameMeta, ThreadStreams, UnpackedFrameData, are_unlike};
use std::alloc::Global;
use std::collections::BTreeMap;
use std::process::Abort;
use std::sync::Arc;
use tests_support::frames::{one_stream, packet_info, packet_thread};
use tests_support::samples::ONE_SCOPE;

/// Returns a frame's index, its range, and its numbers of bytes and scopes.
fn facts(meta: FrameMeta) -> (u64, (NanoSecond, NanoSecond), (usize, usize)) {
    let counts = (meta.num_bytes, meta.num_scopes);
    (meta.frame_index, meta.range_ns, counts)
}

#[test]
fn a_stream_is_joined_to_none(rt: HostRuntime) {
    let none = FrameMeta::empty(7);
    let empty = (NanoSecond::MAX, NanoSecond::MIN);
    equal(&rt, facts(none), (7, empty, (0, 0)));
    let info = packet_info(rt.alloc(), Form::Short).expect(&rt, "memory");
    let one = none
        .joined(&info.as_stream_into_ref())
        .expect(&rt, "it fits");
    equal(&rt, facts(one), (7, (100, 300), (35, 1)));
    let two = one.joined(&info.as_stream_into_ref()).map(facts);
    equal(&rt, two, Some((7, (100, 300), (70, 2))));
}

/// The packet's streams.
fn streams(alloc: Global) -> Result<ThreadStreams> {
    let mut streams = BTreeMap::new(alloc);
    let info = Arc::new(alloc, packet_info(alloc, Form::Short)?)?;
    let _none = streams.insert(packet_thread(alloc)?, info)?;
    Ok(streams)
}

/// Streams are unlike a long one under the packet's thread, and under no other.
fn is_unlike_long(rt: &impl Abort, alloc: Global, streams: &ThreadStreams) {
    let mut thread = packet_thread(alloc).expect(rt, "memory");
    for (form, expected) in &[(Form::Short, false), (Form::Long, true)] {
        let info = packet_info(alloc, *form).expect(rt, "memory");
        let times = info.as_stream_into_ref();
        equal(rt, are_unlike(streams, &thread, &times), *expected);
    }
    thread.start_time_ns = None;
    let long = packet_info(alloc, Form::Long).expect(rt, "memory");
    equal(
        rt,
        are_unlike(streams, &thread, &long.as_stream_into_ref()),
        false,
    );
}

#[test]
fn forms_are_compared_under_a_thread(rt: HostRuntime) {
    is_unlike_long(&rt, rt.alloc(), &streams(rt.alloc()).expect(&rt, "streams"));
}

/// What a frame of the packet's stream says, and the bytes of its streams.
fn said(frame: &UnpackedFrameData) -> (u64, usize, Option<&[u8]>) {
    let first = frame.thread_streams.values().next();
    let bytes = first.map(|info| info.stream.bytes());
    (frame.frame_index(), frame.meta.num_scopes, bytes)
}

/// A frame of the packet's stream.
fn frame(alloc: Global) -> Result<UnpackedFrameData> {
    let streams = one_stream(
        alloc,
        packet_thread(alloc)?,
        packet_info(alloc, Form::Short)?,
    )?;
    UnpackedFrameData::new(alloc, 7, streams)
}

#[test]
fn a_copy_of_an_unpacked_frame(rt: HostRuntime) {
    let copy = frame(rt.alloc())
        .expect(&rt, "a frame")
        .clone(rt.alloc())
        .expect(&rt, "memory");
    equal(&rt, said(&copy), (7, 1, Some(ONE_SCOPE.as_slice())));
}
