use crate::equal::equal;
use crate::steps::Step::{Begin, End, EndOuter, NewFrame, Report};
use crate::steps::{Step, replies, replies_in_two_forms, replies_of, session};
use puffin_data::data::{Form, StreamInfo};
use puffin_data::{Error, NanoSecond};
use puffin_frames::frame_data::FrameData;
use puffin_replay::replay::Reply;
use puffin_threads::thread_profiler::{Closed, ThreadInfo};
use std::alloc::AllocGlobal;
use std::process::Abort;

/// The frame that a reply holds, if every sink took it.
pub(crate) fn frame_in(reply: Option<&Reply>) -> Option<&FrameData> {
    match reply {
        Some(Reply::Frame(emitted)) if emitted.refused == 0 => emitted.frame.as_deref(),
        _ => None,
    }
}

/// The stream of a frame that has one alone, with its thread.
fn only_stream(frame: &FrameData) -> Option<(&ThreadInfo, &StreamInfo)> {
    let streams = &frame.as_unpacked()?.thread_streams;
    if streams.len() == 1 {
        let (thread, info) = streams.iter().next()?;
        Some((thread, info))
    } else {
        None
    }
}

/// A reply is the frame with this number, whose only stream has this key, so many bytes and this range.
fn is_frame(
    rt: &impl Abort,
    reply: Option<&Reply>,
    number: u64,
    (start, name): (Option<NanoSecond>, &str),
    bytes: usize,
    range: (NanoSecond, NanoSecond),
) {
    let frame = frame_in(reply).expect(rt, "a frame");
    equal(rt, (frame.frame_index(), frame.range_ns()), (number, range));
    let (thread, info) = only_stream(frame).expect(rt, "one stream");
    equal(
        rt,
        (thread.start_time_ns, thread.name.as_str()),
        (start, name),
    );
    equal(rt, (info.stream.len(), info.range_ns), (bytes, range));
}

/// A reply is a frame of this duration.
fn lasts(rt: &impl Abort, reply: Option<&Reply>, duration: NanoSecond) {
    let frame = frame_in(reply).expect(rt, "a frame");
    equal(rt, frame.duration_ns(), duration);
}

/// A reply is a frame whose only stream has these bytes.
fn holds(rt: &impl Abort, reply: Option<&Reply>, bytes: &[u8]) {
    let (_, info) = only_stream(frame_in(reply).expect(rt, "a frame")).expect(rt, "one stream");
    equal(rt, info.stream.bytes(), bytes);
}

/// A reply is a frame whose only stream has this form.
fn has_form(rt: &impl Abort, reply: Option<&Reply>, form: Form) {
    let (_, info) = only_stream(frame_in(reply).expect(rt, "a frame")).expect(rt, "one stream");
    equal(rt, info.stream.form(), form);
}

/// Whether a reply is an accepted one without a frame.
pub(crate) fn is_no_frame(reply: Option<&Reply>) -> bool {
    match reply {
        Some(Reply::Frame(emitted)) => emitted.frame.is_none(),
        _ => false,
    }
}

/// How a scope was ended, by a reply to that.
fn ended(reply: Option<&Reply>) -> Option<Closed> {
    match reply {
        Some(Reply::Ended(closed)) => Some(*closed),
        _ => None,
    }
}

/// The offset of a scope that was begun, by a reply to that.
fn began(reply: Option<&Reply>) -> Option<usize> {
    match reply {
        Some(Reply::Began(offset)) => Some(*offset),
        _ => None,
    }
}

/// Why a command was refused, by a reply to that.
pub(crate) fn refused(reply: Option<&Reply>) -> Option<Error> {
    match reply {
        Some(Reply::Refused(error)) => Some(*error),
        _ => None,
    }
}

/// What a new session of short threads with these names replies, once to each step.
pub(crate) fn replies_to_each(
    rt: &(impl AllocGlobal + Abort),
    names: &[&str],
    steps: &[Step],
) -> Vec<Reply> {
    let replies = replies(rt.alloc(), names, steps).expect(rt, "replies");
    equal(rt, replies.len(), steps.len());
    replies
}

/// A scope of the thread `a`, in which one of `b` begins and ends.
const SCOPES_OF_TWO: &[Step] = &[
    Begin(0, 100, 1, ""),
    Begin(1, 150, 2, "x"),
    End(1, 250),
    NewFrame,
    End(0, 300),
    NewFrame,
];

/// Both scopes begin behind the head of their streams, and are reported when they end.
fn are_begun_and_reported(rt: &impl Abort, replies: &[Reply]) {
    let offsets = (began(replies.get(0)), began(replies.get(1)));
    equal(rt, offsets, (Some(14), Some(15)));
    let closed = (ended(replies.get(2)), ended(replies.get(4)));
    equal(rt, closed, (Some(Closed::Reported), Some(Closed::Reported)));
}

#[test]
fn a_scope_comes_with_the_frame_after_its_end(rt: HostRuntime) {
    let replies = replies_to_each(&rt, &["a", "b"], SCOPES_OF_TWO);
    are_begun_and_reported(&rt, &replies);
    is_frame(&rt, replies.get(3), 0, (Some(150), "b"), 32, (150, 250));
    is_frame(&rt, replies.get(5), 1, (Some(100), "a"), 31, (100, 300));
}

/// One scope with the id 1 and no text, from the least time to the least time.
const EARLIEST: &[u8] = b"(\x01\0\0\0\0\0\0\0\0\0\0\x80\0\0\0\0\0\0\0\0\0)\0\0\0\0\0\0\0\x80";

/// A scope with the id 1 from 100 to 200, and one with the id 2 from 300 to 400.
const BOTH: &[u8] =
    b"(\x01\0\0\0\x64\0\0\0\0\0\0\0\0\0\0\0\0\0\0\0\0)\xc8\0\0\0\0\0\0\0(\x02\0\0\0,\x01\0\0\0\0\0\0\0\0\0\0\0\0\0\0\0)\x90\x01\0\0\0\0\0\0";

/// A report, and a scope that would make the range of its frame too long.
const KEPT_BACK: &[Step] = &[
    Report("u", EARLIEST),
    Begin(0, 100, 1, ""),
    End(0, 200),
    NewFrame,
    Begin(0, 300, 2, ""),
    End(0, 400),
    NewFrame,
];

/// The first scope is kept, and the second one is reported.
fn is_kept_and_reported(rt: &impl Abort, replies: &[Reply]) {
    assert!(rt; matches!(replies.get(0), Some(Reply::Reported)));
    equal(rt, began(replies.get(4)), Some(45));
    let kept = Closed::Kept(Error::RangeTooLong);
    let closed = (ended(replies.get(2)), ended(replies.get(5)));
    equal(rt, closed, (Some(kept), Some(Closed::Reported)));
}

/// The first frame is that of the report, and the second one has both scopes.
fn are_frames_of_one_and_both(rt: &impl Abort, replies: &[Reply]) {
    let earliest = (NanoSecond::MIN, NanoSecond::MIN);
    is_frame(rt, replies.get(3), 0, (None, "u"), 31, earliest);
    lasts(rt, replies.get(3), 0);
    holds(rt, replies.get(3), EARLIEST);
    is_frame(rt, replies.get(6), 1, (Some(100), "a"), 62, (100, 400));
    holds(rt, replies.get(6), BOTH);
}

#[test]
fn what_was_kept_back_comes_with_the_next_report(rt: HostRuntime) {
    let replies = replies_to_each(&rt, &["a"], KEPT_BACK);
    is_kept_and_reported(&rt, &replies);
    are_frames_of_one_and_both(&rt, &replies);
}

/// A frame that is asked for before there is a scope, and another one after it.
const NO_SCOPE_AND_ONE: &[Step] = &[NewFrame, Begin(0, 5, 1, ""), End(0, 5), NewFrame];

#[test]
fn a_frame_without_scopes_has_a_number(rt: HostRuntime) {
    let replies = replies_to_each(&rt, &["a"], NO_SCOPE_AND_ONE);
    equal(&rt, is_no_frame(replies.get(0)), true);
    is_frame(&rt, replies.get(3), 1, (Some(5), "a"), 31, (5, 5));
    lasts(&rt, replies.get(3), 0);
}

/// A scope that is ended before the one in it.
const OUTER_FIRST: &[Step] = &[
    Begin(0, 1, 1, ""),
    Begin(0, 2, 2, ""),
    EndOuter(0, 3),
    // Both are open still.
    End(0, 4),
    End(0, 5),
    End(0, 6),
];

/// The end of the outer scope is refused, then both end, and there is nothing else to end.
fn are_both_ended(rt: &impl Abort, replies: &[Reply]) {
    let mismatched = (refused(replies.get(2)), refused(replies.get(5)));
    equal(
        rt,
        mismatched,
        (Some(Error::MismatchedEnd), Some(Error::MismatchedEnd)),
    );
    let closed = (ended(replies.get(3)), ended(replies.get(4)));
    equal(rt, closed, (Some(Closed::Inner), Some(Closed::Reported)));
}

#[test]
fn an_outer_scope_is_not_ended(rt: HostRuntime) {
    are_both_ended(&rt, &replies_to_each(&rt, &["a"], OUTER_FIRST));
}

/// Commands of a thread that isn't there, bytes that are no scope, and an end without a begin.
const REFUSED: &[Step] = &[
    Begin(1, 1, 1, ""),
    End(1, 2),
    Report("u", b"("),
    End(0, 3),
    NewFrame,
];

/// All but the frame are refused, and that has nothing.
fn are_refused(rt: &impl Abort, replies: &[Reply]) {
    let no_thread = (refused(replies.get(0)), refused(replies.get(1)));
    equal(
        rt,
        no_thread,
        (Some(Error::NoThread), Some(Error::NoThread)),
    );
    let no_scope = (refused(replies.get(2)), refused(replies.get(3)));
    equal(
        rt,
        no_scope,
        (Some(Error::PrematureEnd), Some(Error::MismatchedEnd)),
    );
    equal(rt, is_no_frame(replies.get(4)), true);
}

#[test]
fn refused_commands_change_nothing(rt: HostRuntime) {
    are_refused(&rt, &replies_to_each(&rt, &["a"], REFUSED));
}

#[test]
fn a_clock_that_falls_stands_still(rt: HostRuntime) {
    let alloc = rt.alloc();
    let mut session = session(alloc, &["a"]).expect(&rt, "a session");
    let first = replies_of(
        alloc,
        &mut session,
        &[Begin(0, -7, 1, ""), Begin(0, 50, 2, "")],
    )
    .expect(&rt, "replies");
    equal(&rt, first.len(), 2);
    // The session goes on where it stood.
    let replies = replies_of(alloc, &mut session, &[End(0, 20), End(0, 30), NewFrame]).expect(
        &rt, "replies",
    );
    equal(&rt, replies.len(), 3);
    is_frame(&rt, replies.get(2), 0, (Some(0), "a"), 62, (0, 50));
}

/// A scope of the short thread, and then two of the long one, each before a frame.
const UNLIKE_FORMS: &[Step] = &[
    Begin(0, 100, 1, ""),
    End(0, 200),
    Begin(1, 100, 1, ""),
    End(1, 200),
    NewFrame,
    Begin(1, 300, 1, ""),
    End(1, 400),
    NewFrame,
];

/// The first scope of the long thread is kept, and the other two are reported.
fn is_unlike_kept(rt: &impl Abort, replies: &[Reply]) {
    let kept = Closed::Kept(Error::UnlikeForms);
    equal(rt, ended(replies.get(3)), Some(kept));
    let closed = (ended(replies.get(1)), ended(replies.get(6)));
    equal(rt, closed, (Some(Closed::Reported), Some(Closed::Reported)));
}

/// The first frame has the short thread's scope, and the second one both of the long thread.
fn are_frames_of_both_forms(rt: &impl Abort, replies: &[Reply]) {
    is_frame(rt, replies.get(4), 0, (Some(100), "t"), 31, (100, 200));
    has_form(rt, replies.get(4), Form::Short);
    is_frame(rt, replies.get(7), 1, (Some(100), "t"), 62, (100, 400));
    has_form(rt, replies.get(7), Form::Long);
}

#[test]
fn unlike_forms_under_one_info_come_in_frames_of_their_own(rt: HostRuntime) {
    let replies = replies_in_two_forms(&rt, UNLIKE_FORMS);
    is_unlike_kept(&rt, &replies);
    are_frames_of_both_forms(&rt, &replies);
}
