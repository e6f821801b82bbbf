//! The calls of the value that the lock protects, all made while it is held once.

ghost use Rattle.std.specs.Prelude.{◌≡◌};

use crate::equal::equal;
use crate::shares::{one_scope, opened};
use puffin::global_profiler::{
    Booked, Emitted, Event, GlobalProfiler, History, NewLog, Settled, Share, Sink,
};
use puffin::profile_view::FrameView;
use puffin::scope_details::{ScopeDetails, ScopeIds};
use std::alloc::Global;
use std::borrow::CowStr;
use std::marker::Brand;
use std::process::Abort;
use std::sync::ledger::{Blank, Ledger};
use std::sync::{Arc, Mutex, Wait};
use tests_support::frames::{lists, packet_frame, packet_thread};
use tests_support::streams::id;

/// Registers a scope of the caller's own, and reports two: one with the details of another scope, one of the caller's own.
fn are_reported<L: Ledger + History, M: Ledger, R: Abort>(
    rt: &R,
    alloc: Global,
    booked: &mut Booked<L, M>,
    share: &mut Share<L, M>,
) {
    let own = [ScopeDetails::from_scope_name(CowStr::Borrowed("u"))];
    let ids = booked.register_user_scopes(&ScopeIds::new(), &own);
    equal(rt, ids.expect(rt, "the ids").len(), 1);
    let second = id(2).expect(rt, "an id");
    let other = [ScopeDetails::from_scope_name(CowStr::Borrowed("v")).with_scope_id(second)];
    let info = one_scope(alloc).expect(rt, "a scope");
    let times = info.as_stream_into_ref();
    let (thread, again) = (packet_thread(alloc), packet_thread(alloc));
    booked
        .report(share, thread.expect(rt, "memory"), &other, &times)
        .expect(rt, "a report");
    booked
        .report_user_scopes(share, again.expect(rt, "memory"), &times)
        .expect(rt, "a report");
    let totals = booked.totals(share);
    equal(
        rt,
        (totals.reported, totals.pending, totals.emitted),
        (2, 2, 0),
    );
}

/// The next frame has both scopes and, for a snapshot, lists what is new and then what was known.
fn are_taken<L: Ledger + History, M: Ledger, R: Wait + Abort>(
    rt: &R,
    booked: &mut Booked<L, M>,
    share: &mut Share<L, M>,
) {
    booked.emit_scope_snapshot();
    let Emitted { frame, refused } = booked.new_frame(rt, share).expect(rt, "no fault");
    equal(rt, refused, 0);
    let frame = frame.expect(rt, "a frame");
    equal(rt, (frame.meta().num_scopes, frame.full_delta), (2, true));
    assert!(rt; lists(&frame, &[(1, "u"), (2, "v"), (1, "u")]));
}

/// A view is a sink while a frame is added.
fn is_viewed<L: Ledger + History, M: Ledger, R: Wait + Abort>(
    rt: &R,
    alloc: Global,
    booked: &mut Booked<L, M>,
) {
    let view = Arc::new(alloc, Mutex::new(FrameView::new(alloc))).expect(rt, "memory");
    let sink = Sink::View(Arc::try_clone(&view).expect(rt, "memory"));
    let viewing = booked.add_sink(sink).ok().expect(rt, "a sink");
    let frame = packet_frame(alloc, 3).expect(rt, "a frame");
    let frame = Arc::new(alloc, frame).expect(rt, "memory");
    equal(rt, booked.add_frame(rt, frame).expect(rt, "no fault"), 0);
    assert!(rt; booked.remove_sink(viewing).is_some());
    equal(rt, view.lock(rt).stats().frames(), 1);
}

/// One of two shares comes back, and both are all.
fn are_settled<L: Ledger + History, M: Ledger, R: Abort>(
    rt: &R,
    booked: &mut Booked<L, M>,
    shares: Vec<Share<L, M>>,
    own: Share<L, M>,
) {
    let mut shares = booked.settle(shares).err().expect(rt, "too few shares");
    shares.push(own).expect(rt, "memory");
    let settled = booked.settle(shares).ok().expect(rt, "both shares");
    let all = Settled {
        reported: 2,
        handed: 2,
        pending: 0,
    };
    equal(rt, settled, all);
}

fn called<L: Ledger + History, M: Ledger, R: Wait + Abort>(
    rt: &R,
    alloc: Global,
    reported: Blank,
    handed: Blank,
    log: NewLog<Event>,
)
    requires reported { (reported.name ≡ L.name)
        × (reported.parts ≡ L.parts)
        × (reported.parts ≡ 2) }
    requires handed { (handed.name ≡ M.name) × (handed.parts ≡ M.parts) × (handed.parts ≡ 2) }
    requires log { log.name ≡ L.history }
{
    let none = GlobalProfiler::new(alloc);
    let (profiler, mut own, shares) = opened::<L, M>(rt, alloc, none, 2, reported, handed, log);
    let mut booked = profiler.lock(rt);
    are_reported(rt, alloc, &mut *booked, &mut own);
    are_taken(rt, &mut *booked, &mut own);
    is_viewed(rt, alloc, &mut *booked);
    are_settled(rt, &mut *booked, shares, own);
}

#[test]
fn all_calls_are_made_under_one_lock(rt: HostRuntime) {
    called::<Brand, Brand, HostRuntime>(
        &rt,
        rt.alloc(),
        Blank::new(2),
        Blank::new(2),
        NewLog::new(),
    );
}
