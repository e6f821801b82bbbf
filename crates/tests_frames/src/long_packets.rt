use crate::equal::equal;
use crate::packets::{facts, is_written, read_one};
use puffin_data::Result;
use puffin_data::data::Form;
use puffin_frames::frame_data::FrameData;
use std::alloc::Global;
use std::collections::BTreeMap;
use tests_support::frames::{one_stream, packet_info, packet_thread};
use tests_support::samples::ONE_SCOPE;
use tests_support::streams::bytes_of;
use tests_support::threads::thread_info;

/// The frame of [`PACKET`], whose stream is of the long form.
pub(crate) static LONG_PACKET: [u8; 76] = [
    80, 70, 68, 76, 7, 0, 0, 0, 0, 200, 251, 88, 2, 35, 1, 51, 0, 0, 0, 0, 1, 1, 200, 4, 109, 97,
    105, 110, 1, 35, 40, 1, 0, 0, 0, 100, 0, 0, 0, 0, 0, 0, 0, 4, 100, 97, 116, 97, 0, 0, 0, 0, 0,
    0, 0, 0, 41, 44, 1, 0, 0, 0, 0, 0, 0, 1, 1, 200, 251, 88, 2, 1, 0, 0, 0, 0,
];

/// The frame of [`LONG_PACKET`].
fn long_frame(alloc: Global) -> Result<FrameData> {
    let streams = one_stream(
        alloc,
        packet_thread(alloc)?,
        packet_info(alloc, Form::Long)?,
    )?;
    FrameData::new(alloc, 0, streams, Vec::new(alloc), false)
}

#[test]
fn a_frame_of_a_long_stream_is_written_byte_for_byte(rt: HostRuntime) {
    let frame = long_frame(rt.alloc()).expect(&rt, "a frame");
    is_written(&rt, rt.alloc(), &frame, &LONG_PACKET);
    is_written(
        &rt,
        rt.alloc(),
        &frame.packed_copy().expect(&rt, "memory"),
        &LONG_PACKET,
    );
}

#[test]
fn a_packet_of_a_long_stream_is_read_and_written_back(rt: HostRuntime) {
    let mut frame = read_one(rt.alloc(), &LONG_PACKET).expect(&rt, "a frame");
    equal(&rt, facts(&frame), (0, (100, 300), (35, 1), Some(51)));
    is_written(&rt, rt.alloc(), &frame, &LONG_PACKET);
    let unpacked = frame.unpacked().expect(&rt, "streams");
    let (_, info) = unpacked
        .thread_streams
        .first_key_value()
        .expect(&rt, "a stream");
    equal(&rt, (info.stream.form(), info.depth), (Form::Long, 1));
    equal(&rt, info.stream.bytes(), &ONE_SCOPE);
}

/// The packet of a frame with the stream of [`PACKET`] under two names, in the short form and in the long one.
fn mixed_packet(alloc: Global) -> Result<Vec<u8>> {
    let measures: &[u8] = &[1, 1, 200, 251, 88, 2];
    let pieces: [&[u8]; 9] = [
        b"PFDL\x07\0\0\0",
        &[0, 200, 251, 88, 2, 70, 2, 101, 0, 0, 0, 0, 2],
        b"\x01\xc8\x04main\x00\x23",
        &ONE_SCOPE,
        measures,
        b"\x01\xc8\x04next\x01\x23",
        &ONE_SCOPE,
        measures,
        &[1, 0, 0, 0, 0],
    ];
    bytes_of(alloc, &pieces)
}

/// The frame of [`mixed_packet`].
fn mixed_frame(alloc: Global) -> Result<FrameData> {
    let mut streams = BTreeMap::new(alloc);
    for (name, form) in &[("main", Form::Short), ("next", Form::Long)] {
        let thread = thread_info(alloc, Some(100), name)?;
        let _ = streams.insert(thread, packet_info(alloc, *form)?)?;
    }
    FrameData::new(alloc, 0, streams, Vec::new(alloc), false)
}

#[test]
fn a_frame_of_both_forms_is_written_byte_for_byte(rt: HostRuntime) {
    let packet = mixed_packet(rt.alloc()).expect(&rt, "memory");
    let frame = mixed_frame(rt.alloc()).expect(&rt, "a frame");
    is_written(&rt, rt.alloc(), &frame, packet.as_slice());
    is_written(
        &rt,
        rt.alloc(),
        &frame.packed_copy().expect(&rt, "memory"),
        packet.as_slice(),
    );
}

#[test]
fn each_stream_of_a_packet_has_its_own_form(rt: HostRuntime) {
    let packet = mixed_packet(rt.alloc()).expect(&rt, "memory");
    let mut frame = read_one(rt.alloc(), packet.as_slice()).expect(&rt, "a frame");
    equal(&rt, facts(&frame), (0, (100, 300), (70, 2), Some(101)));
    let unpacked = frame.unpacked().expect(&rt, "streams");
    let (_, first) = unpacked
        .thread_streams
        .first_key_value()
        .expect(&rt, "a stream");
    equal(&rt, first.stream.form(), Form::Short);
    let (_, last) = unpacked
        .thread_streams
        .last_key_value()
        .expect(&rt, "a stream");
    equal(&rt, last.stream.form(), Form::Long);
}
