use crate::equal::equal;
use puffin_data::data::{Stream, StreamInfo};
use puffin_data::{Error, NanoSecond, Result};
use puffin_frames::frame_data::{FrameData, ThreadStreams, UnpackedFrameData, report_to};
use puffin_threads::thread_profiler::ThreadInfo;
use std::alloc::Global;
use std::collections::BTreeMap;
use tests_support::frames::{lists, one_stream, packet_thread};
use tests_support::samples::THREE_SCOPES;
use tests_support::streams::stream_of;
use tests_support::threads::{named, thread_info};

/// An info that says what it is told to, of a stream without bytes.
fn told(alloc: Global, num_scopes: usize, range_ns: (NanoSecond, NanoSecond)) -> StreamInfo {
    StreamInfo {
        stream: Stream::new(alloc),
        num_scopes,
        depth: 1,
        range_ns,
    }
}

/// The info of the three scopes.
fn three_scopes(alloc: Global) -> Result<StreamInfo> {
    StreamInfo::parse(alloc, stream_of(alloc, &THREE_SCOPES)?)
}

/// Streams by their threads.
type Streams = BTreeMap<ThreadInfo, StreamInfo>;

/// The three scopes of the thread `main`, which began at 100.
fn main_stream(alloc: Global) -> Result<Streams> {
    one_stream(alloc, packet_thread(alloc)?, three_scopes(alloc)?)
}

/// The streams of two threads without a start.
fn two_streams(alloc: Global, first: StreamInfo, second: StreamInfo) -> Result<Streams> {
    let mut streams = BTreeMap::new(alloc);
    let _ = streams.insert(thread_info(alloc, None, "first")?, first)?;
    let _ = streams.insert(thread_info(alloc, None, "second")?, second)?;
    Ok(streams)
}

/// Why streams make no frame.
fn refusal(alloc: Global, streams: Streams) -> Option<Error> {
    UnpackedFrameData::new(alloc, 0, streams).err()
}

/// What an unpacked frame says: its index, its range, its duration, its bytes and scopes.
fn facts(frame: &UnpackedFrameData) -> (u64, (NanoSecond, NanoSecond), NanoSecond, (usize, usize)) {
    let counts = (frame.meta.num_bytes, frame.meta.num_scopes);
    (
        frame.frame_index(),
        frame.range_ns(),
        frame.duration_ns(),
        counts,
    )
}

/// How many bytes and scopes the thread `main` has, which began at 100.
fn counts_of_main(alloc: Global, streams: &ThreadStreams) -> Option<(usize, usize)> {
    let info = streams.get(&packet_thread(alloc).ok()?)?;
    Some((info.stream.len(), info.num_scopes))
}

#[test]
fn one_stream_makes_a_frame(rt: HostRuntime) {
    let frame = UnpackedFrameData::new(
        rt.alloc(),
        7,
        main_stream(rt.alloc()).expect(&rt, "memory"),
    ).expect(&rt, "a frame");
    equal(&rt, facts(&frame), (7, (100, 400), 300, (127, 3)));
    equal(
        &rt,
        (frame.meta.frame_index, frame.meta.range_ns),
        (7, (100, 400)),
    );
    equal(&rt, frame.thread_streams.len(), 1);
    equal(
        &rt,
        counts_of_main(rt.alloc(), &frame.thread_streams),
        Some((127, 3)),
    );
}

/// The same, and two scopes of a thread without a start.
fn main_and_other(alloc: Global) -> Result<Streams> {
    let mut streams = main_stream(alloc)?;
    let other = thread_info(alloc, None, "other")?;
    let _ = streams.insert(other, told(alloc, 2, (-5, 250)))?;
    Ok(streams)
}

#[test]
fn two_streams_are_summed_and_joined(rt: HostRuntime) {
    let streams = main_and_other(rt.alloc()).expect(&rt, "memory");
    let frame = UnpackedFrameData::new(rt.alloc(), 0, streams).expect(&rt, "a frame");
    equal(&rt, facts(&frame), (0, (-5, 400), 405, (127, 5)));
}

/// A frame with all known details, of none.
fn frame_with_delta(alloc: Global) -> Result<FrameData> {
    FrameData::new(alloc, 7, main_stream(alloc)?, Vec::new(alloc), true)
}

#[test]
fn a_frame_with_its_delta(rt: HostRuntime) {
    let frame = frame_with_delta(rt.alloc()).expect(&rt, "a frame");
    equal(
        &rt,
        (frame.frame_index(), frame.range_ns()),
        (7, (100, 400)),
    );
    equal(
        &rt,
        (frame.duration_ns(), frame.meta().num_bytes),
        (300, 127),
    );
    assert!(rt; frame.full_delta);
    let count = frame.as_unpacked().map(|held| held.thread_streams.len());
    equal(&rt, count, Some(1));
}

/// The bytes of an unpacked frame's only stream, which is that of the thread `main` that began at 100.
fn bytes_of_main(frame: &UnpackedFrameData) -> Option<&[u8]> {
    let mut streams = frame.thread_streams.iter();
    let (thread, info) = streams.next()?;
    let is_main = thread.name.as_str() == "main" && thread.start_time_ns == Some(100);
    if is_main && streams.next().is_none() {
        Some(info.stream.bytes())
    } else {
        None
    }
}

/// A frame made again of the streams of a frame, with one detail.
fn made_again(alloc: Global) -> Result<FrameData> {
    let mut details = Vec::new(alloc);
    details.push(named(alloc, 1, "a")?)?;
    let frame = FrameData::new(alloc, 7, main_stream(alloc)?, Vec::new(alloc), true)?;
    Ok(FrameData::from_unpacked(frame.into_unpacked(), details, false))
}

#[test]
fn a_frame_made_again_of_its_streams(rt: HostRuntime) {
    let again = made_again(rt.alloc()).expect(&rt, "a frame");
    assert!(rt; lists(&again, &[(1, "a")]) && !again.full_delta);
    let unpacked = again.as_unpacked().expect(&rt, "streams");
    equal(&rt, facts(unpacked), (7, (100, 400), 300, (127, 3)));
    equal(&rt, bytes_of_main(unpacked), Some(THREE_SCOPES.as_slice()));
}

/// Reports the three scopes of the thread `main`.
fn report_main(alloc: Global, streams: &mut ThreadStreams) -> Result<()> {
    let main = packet_thread(alloc)?;
    let scopes = three_scopes(alloc)?;
    report_to(alloc, streams, main, &scopes.as_stream_into_ref())
}

#[test]
fn a_report_leaves_what_another_owner_has(rt: HostRuntime) {
    let mut streams = BTreeMap::new(rt.alloc());
    report_main(rt.alloc(), &mut streams).expect(&rt, "a report");
    let before = streams
        .values()
        .next()
        .map(|shared| shared.clone())
        .transpose()
        .expect(&rt, "a report");
    report_main(rt.alloc(), &mut streams).expect(&rt, "a report");
    equal(&rt, before.map(|shared| shared.stream.len()), Some(127));
    equal(&rt, counts_of_main(rt.alloc(), &streams), Some((254, 6)));
    report_main(rt.alloc(), &mut streams).expect(&rt, "a report");
    equal(&rt, counts_of_main(rt.alloc(), &streams), Some((381, 9)));
}

#[test]
fn no_streams_make_no_frame(rt: HostRuntime) {
    let streams = BTreeMap::new(rt.alloc());
    equal(&rt, refusal(rt.alloc(), streams), Some(Error::Empty));
}

#[test]
fn a_duration_that_does_not_fit(rt: HostRuntime) {
    let first = told(rt.alloc(), 1, (NanoSecond::MIN, NanoSecond::MIN));
    let streams = two_streams(rt.alloc(), first, told(rt.alloc(), 1, (0, 0))).expect(&rt, "memory");
    equal(&rt, refusal(rt.alloc(), streams), Some(Error::RangeTooLong));
}

#[test]
fn a_sum_that_does_not_fit(rt: HostRuntime) {
    // The joined range is reversed too: the sum is looked at first.
    let first = told(rt.alloc(), usize::MAX, (9, 0));
    let streams = two_streams(rt.alloc(), first, told(rt.alloc(), 1, (9, 0))).expect(&rt, "memory");
    equal(&rt, refusal(rt.alloc(), streams), Some(Error::TooLarge));
}

#[test]
fn threads_in_order(rt: HostRuntime) {
    let unknown = thread_info(rt.alloc(), None, "z").expect(&rt, "memory");
    let early = thread_info(rt.alloc(), Some(-1), "z").expect(&rt, "memory");
    let main = packet_thread(rt.alloc()).expect(&rt, "memory");
    let longer = thread_info(rt.alloc(), Some(100), "main 2").expect(&rt, "memory");
    assert!(rt; unknown < early && early < main && main < longer);
    assert!(rt; main == main.clone().expect(&rt, "memory"));
    assert!(rt; main != longer);
}
