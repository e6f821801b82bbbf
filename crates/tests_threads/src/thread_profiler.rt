use crate::equal::equal;
use crate::rig::{Recorder, Rig};
use puffin_data::data::{Reader, StreamInfo};
use puffin_data::{Error, NanoSecond, Result};
use puffin_threads::thread_profiler::{Closed, NsSource, SystemClock, ThreadProfiler};
use std::alloc::Global;
use std::process::Abort;
use std::rt::Clock;
use std::thread::sleep;
use std::time::Duration;
use tests_support::samples::ONE_SCOPE;
use tests_support::streams::id;

/// How many scopes, how deep, and their range.
type Counts = (usize, usize, (NanoSecond, NanoSecond));

/// What an info says of its scopes.
fn counts(info: &StreamInfo) -> Counts {
    (info.num_scopes, info.depth, info.range_ns)
}

/// A walk over an info's bytes counts what the info says, and that is expected.
fn is_honest(rt: &impl Abort, alloc: Global, info: &StreamInfo, expected: Counts) {
    let walked = StreamInfo::parse(alloc, info.stream.clone().expect(rt, "memory")).expect(
        rt, "scopes",
    );
    equal(rt, counts(&walked), counts(info));
    equal(rt, counts(info), expected);
}

/// A report is of the thread that began at a time, and its scopes are as expected.
fn is_report(
    rt: &impl Abort,
    recorder: &Recorder,
    place: usize,
    start: NanoSecond,
    expected: Counts,
) {
    let (info, times) = recorder.at(place).expect(rt, "a report");
    equal(
        rt,
        (info.name.as_str(), info.start_time_ns),
        ("main", Some(start)),
    );
    is_honest(rt, recorder.alloc, times, expected);
}

/// What a report says of its top scopes: id, duration and stop.
fn top_scopes(recorder: &Recorder, place: usize) -> Result<Vec<(u32, NanoSecond, NanoSecond)>> {
    let (_info, times) = recorder.at(place)?;
    let mut scopes = Vec::new(recorder.alloc);
    for scope in &Reader::from_start(&times.stream).read_top_scopes(recorder.alloc)? {
        scopes.push((scope.id.get(), scope.rec.duration_ns, scope.rec.stop_ns()))?;
    }
    Ok(scopes)
}

/// A scope with the id 1 from 100 to 300.
fn one_scope(rt: &impl Abort, rig: &mut Rig) {
    rig.has(rt, (0, 0, 0));
    rig.begins(rt, (1, "data"), 18);
    rig.has(rt, (1, 0, 0));
    rig.set(300);
    rig.ends(rt, 18, Ok(Closed::Reported));
    rig.has(rt, (0, 1, 0));
}

#[test]
fn one_scope_is_reported(rt: HostRuntime) {
    let mut rig = Rig::new(rt.alloc(), 100, 0).expect(&rt, "memory");
    one_scope(&rt, &mut rig);
    equal(&rt, rig.bytes(0).expect(&rt, "bytes"), ONE_SCOPE.as_slice());
    is_report(&rt, &rig.recorder, 0, 100, (1, 1, (100, 300)));
}

#[test]
fn a_scope_above_the_limit_does_not_begin(rt: HostRuntime) {
    let mut rig = Rig::new(rt.alloc(), 100, 0).expect(&rt, "memory");
    rig.thread.set_max_bytes(200);
    rig.begins(&rt, (1, "data"), 18);
    rig.begins(&rt, (2, ""), 40);
    // What begins asks for room for the longest text.
    equal(&rt, rig.begin(3, ""), Err(Error::Memory));
    rig.has(&rt, (2, 0, 0));
    rig.ends(&rt, 40, Ok(Closed::Inner));
    rig.ends(&rt, 18, Ok(Closed::Reported));
    is_report(&rt, &rig.recorder, 0, 100, (2, 2, (100, 100)));
    rig.begins(&rt, (3, ""), 14);
}

#[test]
fn a_falling_clock_stands_still(rt: HostRuntime) {
    let mut rig = Rig::new(rt.alloc(), 100, 0).expect(&rt, "memory");
    rig.begins(&rt, (1, ""), 14);
    rig.set(50);
    rig.ends(&rt, 14, Ok(Closed::Reported));
    equal(
        &rt,
        top_scopes(&rig.recorder, 0)
            .expect(&rt, "scopes")
            .as_slice(),
        [(1, 0, 100)].as_slice(),
    );
    is_report(&rt, &rig.recorder, 0, 100, (1, 1, (100, 100)));
}

#[test]
fn a_clock_that_falls_twice_stands_still_twice(rt: HostRuntime) {
    let mut rig = Rig::new(rt.alloc(), 100, 0).expect(&rt, "memory");
    rig.begins(&rt, (1, ""), 14);
    rig.set(50);
    rig.begins(&rt, (2, ""), 36);
    rig.set(200);
    rig.ends(&rt, 36, Ok(Closed::Inner));
    rig.set(150);
    rig.ends(&rt, 14, Ok(Closed::Reported));
    let bytes = rig.bytes(0).expect(&rt, "bytes");
    for (place, time) in &[(5, 100), (27, 100), (45, 200), (54, 200)] {
        equal(&rt, bytes.get(*place).copied(), Some(*time));
    }
    is_report(&rt, &rig.recorder, 0, 100, (2, 2, (100, 200)));
}

/// A scope in another, which can't be ended before it, nor twice.
fn two_scopes(rt: &impl Abort, rig: &mut Rig) {
    rig.begins(rt, (1, ""), 14);
    rig.begins(rt, (2, ""), 36);
    for wrong in &[14, 15] {
        rig.ends(rt, *wrong, Err(Error::MismatchedEnd));
    }
    rig.has(rt, (2, 0, 0));
    rig.ends(rt, 36, Ok(Closed::Inner));
    rig.has(rt, (1, 0, 0));
    rig.ends(rt, 14, Ok(Closed::Reported));
    rig.ends(rt, 14, Err(Error::MismatchedEnd));
}

#[test]
fn an_outer_scope_is_not_ended_first(rt: HostRuntime) {
    let mut rig = Rig::new(rt.alloc(), 100, 0).expect(&rt, "memory");
    two_scopes(&rt, &mut rig);
    equal(&rt, rig.bytes(0).expect(&rt, "bytes").len(), 62);
    is_report(&rt, &rig.recorder, 0, 100, (2, 2, (100, 100)));
}

/// A scope with id 1 from 100 to 200, whose report is refused, and one with id 2 from 300 to 400.
fn kept_and_reported(rt: &impl Abort, alloc: Global) -> Rig {
    let mut rig = Rig::new(alloc, 100, 1).expect(rt, "memory");
    rig.begins(rt, (1, ""), 14);
    rig.set(200);
    rig.ends(rt, 14, Ok(Closed::Kept(Error::TooLarge)));
    rig.has(rt, (0, 0, 0));
    rig.set(300);
    rig.begins(rt, (2, ""), 45);
    rig.set(400);
    rig.ends(rt, 45, Ok(Closed::Reported));
    rig
}

#[test]
fn a_refused_report_waits_for_the_next(rt: HostRuntime) {
    let rig = kept_and_reported(&rt, rt.alloc());
    rig.has(&rt, (0, 1, 0));
    equal(&rt, rig.bytes(0).expect(&rt, "bytes").len(), 62);
    equal(
        &rt,
        top_scopes(&rig.recorder, 0)
            .expect(&rt, "scopes")
            .as_slice(),
        [(1, 100, 200), (2, 100, 400)].as_slice(),
    );
    is_report(&rt, &rig.recorder, 0, 100, (2, 1, (100, 400)));
}

/// After a report the stream is empty again, and the start stays that of the first scope ever.
#[test]
fn a_thread_s_start_stays_after_a_report(rt: HostRuntime) {
    let mut rig = kept_and_reported(&rt, rt.alloc());
    rig.set(500);
    rig.begins(&rt, (3, ""), 14);
    rig.ends(&rt, 14, Ok(Closed::Reported));
    is_report(&rt, &rig.recorder, 1, 100, (1, 1, (500, 500)));
}

#[test]
fn closed_scopes_are_reported_on_demand(rt: HostRuntime) {
    let mut rig = Rig::new(rt.alloc(), 100, 2).expect(&rt, "memory");
    rig.reports(&rt, Ok(false));
    rig.begins(&rt, (1, ""), 14);
    rig.reports(&rt, Err(Error::ScopesOpen));
    rig.ends(&rt, 14, Ok(Closed::Kept(Error::TooLarge)));
    rig.reports(&rt, Err(Error::TooLarge));
    rig.has(&rt, (0, 0, 0));
    rig.reports(&rt, Ok(true));
    rig.reports(&rt, Ok(false));
    rig.has(&rt, (0, 1, 0));
    equal(&rt, rig.bytes(0).expect(&rt, "bytes").len(), 31);
    is_report(&rt, &rig.recorder, 0, 100, (1, 1, (100, 100)));
}

/// A text of 126 letters and one of two bytes.
fn long_text(alloc: Global) -> Result<String> {
    let mut text = "a".repeat(alloc, 126)?;
    text.push('é')?;
    Ok(text)
}

/// A scope with this text has this offset, and so many bytes are reported of it.
fn reports_bytes(rt: &impl Abort, rig: &mut Rig, text: &str, (offset, bytes): (usize, usize)) {
    rig.begins(rt, (1, text), offset);
    rig.ends(rt, offset, Ok(Closed::Reported));
    equal(rt, rig.bytes(0).expect(rt, "bytes").len(), bytes);
}

#[test]
fn a_long_text_is_cut(rt: HostRuntime) {
    let text = long_text(rt.alloc()).expect(&rt, "memory");
    let mut rig = Rig::new(rt.alloc(), 0, 0).expect(&rt, "memory");
    reports_bytes(&rt, &mut rig, &text, (140, 157));
}

/// One scope of a thread that sleeps for two milliseconds in it, and the scope's range.
fn timed<C: NsSource>(
    rt: &(impl Abort + Clock),
    thread: &mut ThreadProfiler<C>,
    recorder: &mut Recorder,
) -> Result<(NanoSecond, NanoSecond)> {
    let offset = thread.begin_scope(id(1)?, "timed")?;
    sleep(rt, Duration::from_millis(2));
    equal(rt, thread.end_scope(offset, recorder), Ok(Closed::Reported));
    Ok(recorder.at(0)?.1.range_ns)
}

#[test]
fn scopes_are_timed_by_the_system(rt: HostRuntime) {
    let clock = SystemClock::new(&rt).expect(&rt, "a clock");
    let name = String::from_str(rt.alloc(), "main").expect(&rt, "memory");
    let mut recorder = Recorder::new(rt.alloc(), 0);
    let mut thread = ThreadProfiler::new(rt.alloc(), name, clock);
    let (start, stop) = timed(&rt, &mut thread, &mut recorder).expect(&rt, "a scope");
    assert!(rt; start > 0 && stop.saturating_sub(start) >= 2_000_000);
    is_report(&rt, &recorder, 0, start, (1, 1, (start, stop)));
}
