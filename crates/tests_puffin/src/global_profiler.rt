ghost use Rattle.std.specs.Prelude.{IfOk};
ghost use Rattle.puffin_data.specs.Forest.{Forest};
ghost use Rattle.puffin_data.specs.Honesty.{IsHonest, IsHonestReport};

use crate::equal::equal;
use puffin::data::{Stream, StreamInfo, StreamInfoRef};
use puffin::frame_data::FrameData;
use puffin::global_profiler::{Emitted, GlobalProfiler, Totals};
use puffin::thread_profiler::{Reporter, ThreadInfo};
use puffin::{Error, NanoSecond, Result};
use std::process::Abort;
use std::sync::{Arc, Wait};
use tests_support::streams::bytes_of;
use tests_support::threads::thread_info;

/// A thread with this name, whose start isn't known.
pub(crate) fn thread(rt: &impl AllocGlobal, name: &str) -> Result<ThreadInfo> {
    thread_info(rt.alloc(), None, name)
}

/// One scope with this id, no text and no children.
pub(crate) fn scope(
    rt: &impl AllocGlobal,
    id: u8,
    start: NanoSecond,
    stop: NanoSecond,
) -> Result<StreamInfo>
    ensures { IfOk result (λ info. (f : Forest) × IsHonest info f) }
{
    let bytes = bytes_of(
        rt.alloc(),
        &[
            b"(",
            &[id],
            b"\0\0\0",
            &start.to_le_bytes(),
            b"\0\0\0\0\0\0\0\0\0)",
            &stop.to_le_bytes(),
        ],
    )?;
    StreamInfo::parse(rt.alloc(), Stream::from(bytes))
}

/// An honest info with its bytes borrowed.
pub(crate) fn borrowed(info: &StreamInfo) -> StreamInfoRef<'_>
    requires { (f : Forest) × IsHonest info.now f }
    ensures { IsHonestReport result }
{
    info.as_stream_into_ref()
}

/// Reports one scope under a thread.
pub(crate) fn report<R: Reporter>(
    rt: &impl AllocGlobal,
    reporter: &mut R,
    name: &str,
    id: u8,
    range_ns: (NanoSecond, NanoSecond),
) -> Result<()> {
    let info = scope(rt, id, range_ns.0, range_ns.1)?;
    reporter.report(thread(rt, name)?, &[], &borrowed(&info))
}

/// Reports one scope of the caller's own.
fn report_user(
    rt: &impl AllocGlobal,
    profiler: &mut GlobalProfiler,
    name: &str,
    range_ns: (NanoSecond, NanoSecond),
) -> Result<()> {
    let info = scope(rt, 1, range_ns.0, range_ns.1)?;
    profiler.report_user_scopes(thread(rt, name)?, &borrowed(&info))
}

/// The bytes that a frame has under a thread, and how many scopes.
fn held(rt: &impl AllocGlobal, frame: &FrameData, name: &str) -> Result<Option<(usize, usize)>> {
    let thread = thread(rt, name)?;
    let Some(unpacked) = frame.as_unpacked() else {
        return Ok(None);
    };
    Ok(
        unpacked
            .thread_streams
            .get(&thread)
            .map(|info| (info.stream.len(), info.num_scopes)),
    )
}

/// A frame has so many bytes and scopes under a thread.
pub(crate) fn holds<R: AllocGlobal + Abort>(
    rt: &R,
    frame: &FrameData,
    name: &str,
    bytes_and_scopes: Option<(usize, usize)>,
) {
    equal(
        rt,
        held(rt, frame, name).expect(rt, "the streams"),
        bytes_and_scopes,
    );
}

/// The only frame that is emitted now.
pub(crate) fn emitted<R: Wait + Abort>(rt: &R, profiler: &mut GlobalProfiler) -> Arc<FrameData> {
    let Emitted { frame, refused } = profiler.new_frame(rt).expect(rt, "a frame");
    equal(rt, refused, 0);
    frame.expect(rt, "a frame")
}

/// The frame of three scopes under two threads.
fn is_of_two_threads<R: AllocGlobal + Abort>(rt: &R, frame: &FrameData) {
    equal(rt, frame.frame_index(), 0);
    equal(
        rt,
        (frame.range_ns(), frame.duration_ns()),
        ((50, 260), 210),
    );
    let meta = frame.meta();
    equal(rt, (meta.num_bytes, meta.num_scopes), (93, 3));
    holds(rt, frame, "a", Some((62, 2)));
    holds(rt, frame, "b", Some((31, 1)));
    holds(rt, frame, "c", None);
    assert!(rt; frame.scope_delta.is_empty());
    assert!(rt; !frame.full_delta);
}

#[test]
fn reports_of_two_threads(rt: HostRuntime) {
    let mut profiler = GlobalProfiler::new(rt.alloc());
    report(&rt, &mut profiler, "a", 1, (100, 200)).expect(&rt, "a report");
    report(&rt, &mut profiler, "b", 2, (50, 60)).expect(&rt, "a report");
    report(&rt, &mut profiler, "a", 3, (200, 260)).expect(&rt, "a report");
    is_of_two_threads(&rt, &*emitted(&rt, &mut profiler));
}

/// What a report from 0 to 0 under this name is refused with.
fn refusal_at_0(rt: &impl AllocGlobal, profiler: &mut GlobalProfiler, name: &str) -> Option<Error> {
    report_user(rt, profiler, name, (0, 0)).err()
}

/// Beside a scope at the earliest time there can be none at 0, under whichever name.
fn is_too_long<R: AllocGlobal + Wait + Abort>(rt: &R, profiler: &mut GlobalProfiler) {
    report_user(rt, profiler, "u", (NanoSecond::MIN, NanoSecond::MIN)).expect(rt, "a report");
    for name in &["u", "v"] {
        equal(
            rt,
            refusal_at_0(rt, profiler, name),
            Some(Error::RangeTooLong),
        );
    }
    let other = report(rt, profiler, "v", 1, (0, 0)).err();
    equal(rt, other, Some(Error::RangeTooLong));
}

/// The frame of the scope at the earliest time alone.
fn is_earliest<R: AllocGlobal + Abort>(rt: &R, frame: &FrameData) {
    equal(rt, frame.range_ns(), (NanoSecond::MIN, NanoSecond::MIN));
    equal(rt, frame.duration_ns(), 0);
    holds(rt, frame, "u", Some((31, 1)));
    holds(rt, frame, "v", None);
}

#[test]
fn a_range_that_is_too_long(rt: HostRuntime) {
    let mut profiler = GlobalProfiler::new(rt.alloc());
    is_too_long(&rt, &mut profiler);
    is_earliest(&rt, &*emitted(&rt, &mut profiler));
    // What is emitted is in no range any more.
    equal(&rt, refusal_at_0(&rt, &mut profiler, "u"), None);
}

/// Reports a thread without scopes.
fn report_none(rt: &impl AllocGlobal, profiler: &mut GlobalProfiler, name: &str) -> Result<()> {
    let none = StreamInfo::new(rt.alloc());
    profiler.report(thread(rt, name)?, &[], &borrowed(&none))
}

/// Takes no frame, as no scope was reported.
fn emits_none<R: Wait + Abort>(rt: &R, profiler: &mut GlobalProfiler) {
    assert!(rt; profiler.new_frame(rt).expect(rt, "a frame").frame.is_none());
}

/// The third frame has the thread without scopes, which was kept until there was a frame.
fn is_third<R: AllocGlobal + Abort>(rt: &R, frame: &FrameData) {
    equal(rt, frame.frame_index(), 2);
    holds(rt, frame, "a", Some((0, 0)));
    holds(rt, frame, "b", Some((31, 1)));
}

/// Frames are taken before, with and after the only scope.
fn rises<R: AllocGlobal + Wait + Abort>(rt: &R, profiler: &mut GlobalProfiler) {
    emits_none(rt, profiler);
    report_none(rt, profiler, "a").expect(rt, "a report");
    assert!(rt; profiler.collect_frame().expect(rt, "a frame").is_none());
    report(rt, profiler, "b", 1, (5, 7)).expect(rt, "a report");
    is_third(rt, &*emitted(rt, profiler));
    emits_none(rt, profiler);
}

#[test]
fn without_scopes_the_index_alone_rises(rt: HostRuntime) {
    rises(&rt, &mut GlobalProfiler::new(rt.alloc()));
}

#[test]
fn totals_of_reports_and_frames(rt: HostRuntime) {
    let mut profiler = GlobalProfiler::new(rt.alloc());
    report(&rt, &mut profiler, "a", 1, (0, 1)).expect(&rt, "a report");
    report(&rt, &mut profiler, "a", 1, (1, 2)).expect(&rt, "a report");
    drop(emitted(&rt, &mut profiler));
    report(&rt, &mut profiler, "a", 1, (2, 3)).expect(&rt, "a report");
    equal(&rt, counts(profiler.totals()), (3, 1, 2));
}

/// How many scopes were reported, are pending and were emitted.
fn counts(totals: Totals) -> (u64, u64, u64) {
    (totals.reported, totals.pending, totals.emitted)
}

#[test]
fn a_profiler_at_the_last_index(rt: HostRuntime) {
    let mut profiler = GlobalProfiler::with_frame_index(rt.alloc(), u64::MAX - 1);
    report(&rt, &mut profiler, "a", 1, (5, 7)).expect(&rt, "a report");
    equal(&rt, emitted(&rt, &mut profiler).frame_index(), u64::MAX - 1);
    report(&rt, &mut profiler, "a", 1, (8, 9)).expect(&rt, "a report");
    let refused = profiler.new_frame(&rt).err();
    equal(&rt, refused, Some(Error::IndexExhausted));
    equal(&rt, counts(profiler.totals()), (2, 1, 1));
}
