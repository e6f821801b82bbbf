ghost use Rattle.std.specs.Prelude.{◌≡◌};

use crate::equal::equal;
use crate::shares::{next_frame, opened};
use crate::workers::Kind;
use crate::{shares, workers};
use puffin::data::{Form, ScopeId};
use puffin::frame_data::FrameData;
use puffin::global_profiler::{
    Event, GlobalFrameView, GlobalProfiler, History, NewLog, Share, SharedProfiler, SharedReporter,
};
use puffin::scope_details::{ScopeDetails, ScopeIds};
use puffin::thread_profiler::{Closed, ScriptClock, ThreadProfiler};
use std::alloc::Global;
use std::borrow::CowStr;
use std::marker::Brand;
use std::process::Abort;
use std::sync::ledger::{Blank, Ledger};
use std::sync::{Arc, Wait};

/// How many scopes a worker reports.
pub(crate) const SCOPES: u32 = 1000;
/// The names of the workers.
const NAMES: [&str; 4] = ["w0", "w1", "w2", "w3"];

/// Begins and ends a scope with the thread's name for its text, which is reported at its end. `None` where it isn't, or
/// the totals are below what was reported.
fn scope<L: Ledger + History, M: Ledger, R: Wait>(
    reporter: &mut SharedReporter<L, M, R>,
    thread: &mut ThreadProfiler<ScriptClock>,
    number: u32,
    name: &str,
) -> Option<()> {
    let scope = thread.begin_scope(ScopeId::new(number)?, name).ok()?;
    if reporter.end_scope(thread, scope).ok()? != Closed::Reported {
        return None;
    }
    if number == 1 && reporter.totals().reported == 0 {
        return None;
    }
    Some(())
}

/// Reports so many scopes with rising ids, one after the other.
fn closed<L: Ledger + History, M: Ledger, R: Wait>(
    alloc: Global,
    reporter: &mut SharedReporter<L, M, R>,
    name: &str,
    scopes: u32,
) -> Option<()> {
    let owned = String::from_str(alloc, name).ok()?;
    let mut thread = ThreadProfiler::new(alloc, owned, ScriptClock::new(5));
    for number in 0..scopes {
        scope(reporter, &mut thread, number.wrapping_add(1), name)?;
    }
    Some(())
}

/// What a worker does who reports each of so many scopes at its end. Gives the share back.
pub(crate) fn work<L: Ledger + History, M: Ledger, R: Wait + Drop>(
    rt: R,
    alloc: Global,
    profiler: SharedProfiler<L, M>,
    share: Share<L, M>,
    name: &str,
    scopes: u32,
) -> Option<Share<L, M>> {
    let mut reporter = SharedReporter::new(rt, profiler, share);
    closed(alloc, &mut reporter, name, scopes)?;
    Some(reporter.into_share())
}

#[test]
fn shares_of_four_workers_and_a_taker_of_frames(rt: HostRuntime) {
    let alloc = rt.alloc();
    let (reported, handed) = (Blank::new(5), Blank::new(5));
    workers::run::<Brand, Brand, HostRuntime>(
        rt,
        alloc,
        Kind::Steady,
        &NAMES,
        5,
        reported,
        handed,
        NewLog::new(),
    );
}

/// Registers a scope of the caller's own, the first one.
fn registered<L: Ledger + History, M: Ledger, R: Wait + Abort>(
    rt: &R,
    profiler: &SharedProfiler<L, M>,
) -> ScopeId {
    let ids = ScopeIds::new();
    let details = [ScopeDetails::from_scope_name(CowStr::Borrowed("u"))];
    let scope_ids = profiler
        .register_user_scopes(rt, &ids, &details)
        .expect(rt, "the ids");
    let id = *scope_ids.first().expect(rt, "an id");
    equal(rt, id.get(), 1);
    id
}

/// The first frame tells twice of the scope with this id: as of a new one, and as of all that are known.
fn told<R: Abort>(rt: &R, frame: &FrameData, id: ScopeId) {
    equal(rt, frame.frame_index(), 0);
    assert!(rt; frame.full_delta);
    equal(rt, frame.scope_delta.len(), 2);
    for details in &frame.scope_delta {
        equal(
            rt,
            (details.name().as_str(), details.scope_id()),
            ("u", Some(id)),
        );
    }
}

/// A view has a frame, and finds the scope with this id by its name.
fn found<R: Wait + Abort>(rt: &R, view: &GlobalFrameView, id: ScopeId) {
    equal(
        rt,
        view.lock(rt).scope_collection().fetch_by_name("u"),
        Some(&id),
    );
    assert!(rt; view.lock(rt).latest_frame().is_some());
}

/// A scope with this id is reported, and its frame handed on. Returns the frame and the share.
fn handed_on<L: Ledger + History, M: Ledger, R: Wait + Abort + Copy + Drop>(
    rt: R,
    alloc: Global,
    profiler: &SharedProfiler<L, M>,
    share: Share<L, M>,
    id: ScopeId,
) -> (Arc<FrameData>, Share<L, M>) {
    let mut share = shares::reported(rt, alloc, profiler, share, Form::Short, id, &[""]);
    let frame = next_frame(&rt, profiler, &mut share);
    (frame, share)
}

/// A scope of the caller's own, in a view that was attached before it was reported. A view that was removed gets no frame.
fn is_viewed<
    L: Ledger + History + Send + Sync + 'static,
    M: Ledger + Send + Sync + 'static,
    R: Wait + Abort + Copy + Send + Sync + 'static,
>(rt: R, alloc: Global, profiler: &SharedProfiler<L, M>, share: Share<L, M>) {
    let id = registered(&rt, profiler);
    let view = GlobalFrameView::attach(&rt, alloc, profiler).expect(&rt, "a view");
    let (frame, share) = handed_on(rt, alloc, profiler, share, id);
    told(&rt, &frame, id);
    found(&rt, &view, id);
    assert!(rt; profiler.remove_sink(&rt, view.sink_id()).is_some());
    let (_next, _share) = handed_on(rt, alloc, profiler, share, id);
    equal(&rt, view.lock(&rt).stats().frames(), 1);
    assert!(rt; !view.detach(&rt, profiler));
    let other = GlobalFrameView::attach(&rt, alloc, profiler).expect(&rt, "a view");
    assert!(rt; other.detach(&rt, profiler));
}

/// The same of a new profiler.
fn attached<
    L: Ledger + History + Send + Sync + 'static,
    M: Ledger + Send + Sync + 'static,
    R: Wait + Abort + Copy + Send + Sync + 'static,
>(rt: R, alloc: Global, reported: Blank, handed: Blank, log: NewLog<Event>)
    requires reported { (reported.name ≡ L.name)
        × (reported.parts ≡ L.parts)
        × (reported.parts ≡ 1) }
    requires handed { (handed.name ≡ M.name) × (handed.parts ≡ M.parts) × (handed.parts ≡ 1) }
    requires log { log.name ≡ L.history }
{
    let none = GlobalProfiler::new(alloc);
    let (profiler, share, _) = opened::<L, M>(&rt, alloc, none, 1, reported, handed, log);
    is_viewed(rt, alloc, &profiler, share);
}

#[test]
fn a_view_finds_scopes_by_name(rt: HostRuntime) {
    attached::<Brand, Brand, HostRuntime>(
        rt,
        rt.alloc(),
        Blank::new(1),
        Blank::new(1),
        NewLog::new(),
    );
}
