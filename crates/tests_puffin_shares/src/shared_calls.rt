//! Calls through the lock, checked by the frame that follows: details of a thread's scope and of an added frame, a
//! snapshot, and scopes that wait to be reported.

ghost use Rattle.std.specs.Prelude.{◌≡◌};

use crate::equal::equal;
use crate::shares;
use crate::shares::{next_frame, opened};
use puffin::data::{Counted, Form};
use puffin::frame_data::FrameData;
use puffin::global_profiler::{
    Event, GlobalFrameView, GlobalProfiler, History, NewLog, Share, SharedProfiler, SharedReporter,
};
use puffin::scope_details::{ScopeDetails, ScopeIds};
use puffin::thread_profiler::{Closed, ScriptClock, ThreadProfiler};
use puffin::{ProfilerScope, Result};
use std::alloc::Global;
use std::borrow::CowStr;
use std::marker::Brand;
use std::process::Abort;
use std::sync::ledger::{Blank, Ledger};
use std::sync::{Arc, Wait};
use tests_support::frames::{lists, packet_frame};
use tests_support::samples::PACKET;
use tests_support::streams::{bytes_of, id};
use tests_support::threads::main_thread;

type Thread = ThreadProfiler<ScriptClock>;

/// What is called, and then looked for in the frames that follow.
#[derive(Clone, Copy)]
enum Call {
    /// A scope whose guard is gone waits, and is reported with its details.
    ReportClosed,
    /// All scopes that are known are wanted.
    Snapshot,
    /// A frame is added for a view.
    AddFrame,
    /// A scope ends within another one.
    InnerEnd,
}

/// Registers a function, whose scope closes as its guard goes.
fn function_waits(thread: &mut Thread) -> Result<()> {
    let (draw, file) = (CowStr::Borrowed("draw"), CowStr::Borrowed("a.rs"));
    let id = thread.register_function_scope(&ScopeIds::new(), draw, file, 7)?;
    let _guard = ProfilerScope::new(thread, id, "")?;
    Ok(())
}

/// The scope is reported, once.
fn is_reported_once<L: Ledger + History, M: Ledger, R: Wait + Abort>(
    rt: &R,
    alloc: Global,
    reporter: &mut SharedReporter<L, M, R>,
) {
    let mut thread = main_thread(alloc, 5).expect(rt, "memory");
    function_waits(&mut thread).expect(rt, "a scope");
    for waits in &[true, false] {
        equal(rt, reporter.report_closed(&mut thread), Ok(*waits));
    }
}

/// Reports a scope whose guard is gone. Checks that the next frame has it and lists it.
fn closed_is_reported<L: Ledger + History, M: Ledger, R: Wait + Abort + Copy + Drop>(
    rt: R,
    alloc: Global,
    profiler: &SharedProfiler<L, M>,
    share: Share<L, M>,
) {
    let mut reporter = SharedReporter::new(rt, profiler.clone().expect(&rt, "memory"), share);
    is_reported_once(&rt, alloc, &mut reporter);
    let frame = next_frame(&rt, profiler, &mut reporter.into_share());
    equal(&rt, (frame.meta().num_scopes, frame.full_delta), (1, false));
    assert!(rt; lists(&frame, &[(1, "draw")]));
}

/// Takes three frames of one scope each. The first lists the scope that was registered, the second lists none, and the
/// third, for a snapshot, lists it again.
fn snapshot_tells_all<L: Ledger + History, M: Ledger, R: Wait + Abort + Copy + Drop>(
    rt: R,
    alloc: Global,
    profiler: &SharedProfiler<L, M>,
    share: Share<L, M>,
) {
    let details = [ScopeDetails::from_scope_name(CowStr::Borrowed("u"))];
    let _ids = profiler
        .register_user_scopes(&rt, &ScopeIds::new(), &details)
        .expect(&rt, "the ids");
    let mut share = share;
    for (wanted, scopes) in [(false, &[(1, "u")][..]), (false, &[]), (true, &[(1, "u")])] {
        if wanted {
            profiler.emit_scope_snapshot(&rt);
        }
        share = shares::reported(
            rt,
            alloc,
            profiler,
            share,
            Form::Short,
            id(1).expect(&rt, "an id"),
            &[""],
        );
        let frame = next_frame(&rt, profiler, &mut share);
        equal(&rt, frame.full_delta, wanted);
        assert!(rt; lists(&frame, scopes));
    }
}

/// The frame of [`PACKET`], with the details of its scope.
fn packed(rt: &impl Abort, alloc: Global) -> FrameData {
    let details = b"\x15\0\0\0\x01\x01\x01\x01\x08my-scope\x01\x61\x04b.rs\x07";
    let packet = bytes_of(alloc, &[&PACKET[..70], details]).expect(rt, "memory");
    let read = FrameData::read_next(alloc, &mut Counted::new(packet.as_slice()));
    read.expect(rt, "no fault").expect(rt, "a frame")
}

/// A frame is added, and no sink refuses it.
fn is_added<L: Ledger + History, M: Ledger, R: Wait + Abort>(
    rt: &R,
    alloc: Global,
    profiler: &SharedProfiler<L, M>,
    frame: FrameData,
) {
    let frame = Arc::new(alloc, frame).expect(rt, "memory");
    equal(rt, profiler.add_frame(rt, frame).expect(rt, "a frame"), 0);
}

/// A view has a frame and knows the packet's scope by its name.
fn is_viewed<R: Wait + Abort>(rt: &R, view: &GlobalFrameView) {
    let id = id(1).expect(rt, "an id");
    let lent = view.lock(rt);
    assert!(rt; lent.latest_frame().is_some());
    equal(
        rt,
        lent.scope_collection().fetch_by_name("my-scope"),
        Some(&id),
    );
}

/// Checks that a frame may be added where there is no sink, that it is handed to a view, and that its scope is listed by a
/// snapshot in the next frame.
fn added_is_handed_on<
    L: Ledger + History + Send + Sync + 'static,
    M: Ledger + Send + Sync + 'static,
    R: Wait + Abort + Copy + Drop,
>(rt: R, alloc: Global, profiler: &SharedProfiler<L, M>, share: Share<L, M>) {
    is_added(
        &rt,
        alloc,
        profiler,
        packet_frame(alloc, 0).expect(&rt, "a frame"),
    );
    let view = GlobalFrameView::attach(&rt, alloc, profiler).expect(&rt, "a view");
    is_added(&rt, alloc, profiler, packed(&rt, alloc));
    is_viewed(&rt, &view);
    profiler.emit_scope_snapshot(&rt);
    let mut share = shares::reported(
        rt,
        alloc,
        profiler,
        share,
        Form::Short,
        id(1).expect(&rt, "an id"),
        &[""],
    );
    let frame = next_frame(&rt, profiler, &mut share);
    assert!(rt; lists(&frame, &[(1, "my-scope")]));
}

/// Ends a scope within another one while this thread holds the lock, and then the other one.
fn inner_ends_alone<L: Ledger + History, M: Ledger, R: Wait + Abort + Copy + Drop>(
    rt: R,
    alloc: Global,
    profiler: &SharedProfiler<L, M>,
    share: Share<L, M>,
) {
    let mut reporter = SharedReporter::new(rt, profiler.clone().expect(&rt, "memory"), share);
    let mut thread = main_thread(alloc, 5).expect(&rt, "memory");
    let id = id(1).expect(&rt, "an id");
    let outer = thread.begin_scope(id, "").expect(&rt, "a scope");
    let inner = thread.begin_scope(id, "").expect(&rt, "a scope");
    let held = profiler.lock(&rt);
    let ended = reporter.end_scope(&mut thread, inner);
    drop(held);
    equal(&rt, ended, Ok(Closed::Inner));
    let ended = reporter.end_scope(&mut thread, outer);
    equal(&rt, ended, Ok(Closed::Reported));
}

/// A new profiler is called so.
fn called<
    L: Ledger + History + Send + Sync + 'static,
    M: Ledger + Send + Sync + 'static,
    R: Wait + Abort + Copy + Drop,
>(rt: R, alloc: Global, call: Call, reported: Blank, handed: Blank, log: NewLog<Event>)
    requires reported { (reported.name ≡ L.name)
        × (reported.parts ≡ L.parts)
        × (reported.parts ≡ 1) }
    requires handed { (handed.name ≡ M.name) × (handed.parts ≡ M.parts) × (handed.parts ≡ 1) }
    requires log { log.name ≡ L.history }
{
    let none = GlobalProfiler::new(alloc);
    let (profiler, share, _) = opened::<L, M>(&rt, alloc, none, 1, reported, handed, log);
    match call {
        Call::ReportClosed => closed_is_reported(rt, alloc, &profiler, share),
        Call::Snapshot => snapshot_tells_all(rt, alloc, &profiler, share),
        Call::AddFrame => added_is_handed_on(rt, alloc, &profiler, share),
        Call::InnerEnd => inner_ends_alone(rt, alloc, &profiler, share),
    }
}

#[test]
fn scopes_that_wait_are_reported_with_details(rt: HostRuntime) {
    let (reported, handed) = (Blank::new(1), Blank::new(1));
    called::<Brand, Brand, HostRuntime>(
        rt,
        rt.alloc(),
        Call::ReportClosed,
        reported,
        handed,
        NewLog::new(),
    );
}

#[test]
fn a_snapshot_tells_of_all_scopes(rt: HostRuntime) {
    let (reported, handed) = (Blank::new(1), Blank::new(1));
    called::<Brand, Brand, HostRuntime>(
        rt,
        rt.alloc(),
        Call::Snapshot,
        reported,
        handed,
        NewLog::new(),
    );
}

#[test]
fn an_added_frame_is_handed_on(rt: HostRuntime) {
    let (reported, handed) = (Blank::new(1), Blank::new(1));
    called::<Brand, Brand, HostRuntime>(
        rt,
        rt.alloc(),
        Call::AddFrame,
        reported,
        handed,
        NewLog::new(),
    );
}

#[test]
fn an_inner_scope_ends_while_the_lock_is_held(rt: HostRuntime) {
    let (reported, handed) = (Blank::new(1), Blank::new(1));
    called::<Brand, Brand, HostRuntime>(
        rt,
        rt.alloc(),
        Call::InnerEnd,
        reported,
        handed,
        NewLog::new(),
    );
}
