use crate::equal::equal;
use crate::steps::Step::{Begin, End, NewFrame};
use crate::steps::{Step, commands, texts, threads};
use puffin_data::NanoSecond;
use puffin_data::data::Form;
use puffin_frames::frame_data::{FrameData, UnpackedFrameData};
use puffin_replay::replay::{Limits, Recording, Session, record_and_read, record_session_and_read};
use puffin_view::profile_view::FrameView;
use std::alloc::AllocGlobal;
use std::process::Abort;
use std::sync::Arc;

/// A scope with the id 1 and no text, from 100 to 300.
const LONGEST: &[u8] = b"(\x01\0\0\0\x64\0\0\0\0\0\0\0\0\0\0\0\0\0\0\0\0)\x2c\x01\0\0\0\0\0\0";

/// Three scopes of a thread, of 200, 50 and 100 ns, each in a frame of its own.
const THREE_FRAMES: &[Step] = &[
    Begin(0, 100, 1, ""),
    End(0, 300),
    NewFrame,
    Begin(0, 400, 1, ""),
    End(0, 450),
    NewFrame,
    Begin(0, 500, 1, ""),
    End(0, 600),
    NewFrame,
];

/// What is recorded of these and read again, of the last and the slowest so many frames.
fn recorded(
    rt: &(impl AllocGlobal + Abort),
    max_recent: usize,
    max_slow: usize,
    packs: bool,
) -> Recording {
    let limits = Limits {
        max_recent,
        max_slow,
        packs,
    };
    let commands = commands(rt.alloc(), THREE_FRAMES).expect(rt, "commands");
    let recording = record_and_read(
        rt.alloc(),
        threads(rt, &[("main", Form::Short)]),
        &commands,
        limits,
    )
    .map_err(|unread| unread.fault)
    .expect(rt, "a view");
    equal(rt, recording.replies.len(), 9);
    recording
}

/// The number of a frame, the range of its scopes, and how many they are.
fn told(frame: &FrameData) -> (u64, (NanoSecond, NanoSecond), usize) {
    (
        frame.frame_index(),
        frame.range_ns(),
        frame.meta().num_scopes,
    )
}

/// Just these frames are read, in this order: their numbers, and the ranges of their one scope.
fn reads(rt: &impl Abort, recording: &Recording, frames: &[(u64, (NanoSecond, NanoSecond))]) {
    let mut read = recording.view.recent_frames();
    for (number, range) in frames {
        let frame = read.next().map(|frame| told(frame));
        equal(rt, frame, Some((*number, *range, 1)));
    }
    assert!(rt; read.next().is_none());
}

/// A frame has one stream alone, of the thread `main` that started at 100, with these bytes.
fn holds(rt: &impl Abort, frame: &UnpackedFrameData, bytes: &[u8]) {
    equal(rt, frame.thread_streams.len(), 1);
    for (thread, info) in &frame.thread_streams {
        equal(
            rt,
            (thread.start_time_ns, thread.name.as_str()),
            (Some(100), "main"),
        );
        equal(rt, info.stream.bytes(), bytes);
    }
}

/// The first frame that is read.
fn first_read(recording: &Recording) -> Option<&Arc<FrameData>> {
    recording.view.recent_frames().next()
}

/// A copy of a frame, unpacked.
fn unpacked_copy(rt: &impl Abort, frame: &FrameData) -> Arc<UnpackedFrameData> {
    let mut copy = frame.packed_copy().expect(rt, "memory");
    copy.unpacked().expect(rt, "streams")
}

/// The first frame that is read holds the longest scope.
fn holds_longest(rt: &impl Abort, recording: &Recording) {
    let unpacked = unpacked_copy(rt, first_read(recording).expect(rt, "a frame"));
    holds(rt, &unpacked, LONGEST);
}

/// The last frame and the slowest one are read, and that holds the longest scope.
fn reads_last_and_slowest(rt: &impl Abort, recording: &Recording) {
    reads(rt, recording, &[(0, (100, 300)), (2, (500, 600))]);
    holds_longest(rt, recording);
}

#[test]
fn the_last_and_the_slowest_frames_are_read_again(rt: HostRuntime) {
    reads_last_and_slowest(&rt, &recorded(&rt, 1, 1, true));
    reads_last_and_slowest(&rt, &recorded(&rt, 1, 1, false));
}

/// Where the last and the slowest so many frames are kept, just these are read, also where frames
/// are packed.
fn keeps(
    rt: &(impl AllocGlobal + Abort),
    max_recent: usize,
    max_slow: usize,
    frames: &[(u64, (NanoSecond, NanoSecond))],
) {
    reads(rt, &recorded(rt, max_recent, max_slow, true), frames);
    reads(rt, &recorded(rt, max_recent, max_slow, false), frames);
}

#[test]
fn as_many_frames_are_read_again_as_are_kept(rt: HostRuntime) {
    keeps(&rt, 2, 0, &[(1, (400, 450)), (2, (500, 600))]);
    keeps(&rt, 0, 2, &[(0, (100, 300)), (2, (500, 600))]);
    keeps(&rt, 0, 0, &[]);
    keeps(
        &rt,
        2,
        1,
        &[(0, (100, 300)), (1, (400, 450)), (2, (500, 600))],
    );
}

/// A scope in a frame of its own, and the begin of another one.
const ONE_AND_A_BEGIN: &[Step] = &[
    Begin(0, 100, 1, ""),
    End(0, 300),
    NewFrame,
    Begin(0, 400, 1, ""),
];

/// The end of that, and its frame.
const AN_END: &[Step] = &[End(0, 450), NewFrame];

/// After these steps in a session and a view that there are, just these frames are read.
fn goes_on(
    rt: &(impl AllocGlobal + Abort),
    session: &mut Session,
    view: &mut FrameView,
    steps: &[Step],
    frames: &[(u64, (NanoSecond, NanoSecond))],
) {
    let commands = commands(rt.alloc(), steps).expect(rt, "commands");
    let recording = record_session_and_read(rt.alloc(), session, &commands, view)
        .map_err(|unread| unread.fault)
        .expect(rt, "a view");
    equal(rt, recording.replies.len(), steps.len());
    reads(rt, &recording, frames);
}

/// A scope that was begun in one recording is read again of the next one, behind the frame that the view holds already.
fn goes_on_twice(rt: &(impl AllocGlobal + Abort), session: &mut Session, view: &mut FrameView) {
    goes_on(rt, session, view, ONE_AND_A_BEGIN, &[(0, (100, 300))]);
    goes_on(
        rt,
        session,
        view,
        AN_END,
        &[(0, (100, 300)), (1, (400, 450))],
    );
}

#[test]
fn a_session_and_a_view_go_on(rt: HostRuntime) {
    let mut session = Session::new(
        rt.alloc(),
        texts(rt.alloc(), &["main"]).expect(&rt, "memory"),
    )
    .expect(&rt, "a session");
    goes_on_twice(&rt, &mut session, &mut FrameView::new(rt.alloc()));
}
