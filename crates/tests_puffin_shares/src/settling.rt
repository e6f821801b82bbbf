//! A profiler that took a report without scopes before it was shared, and shares that are given back while a scope is
//! pending.

ghost use Rattle.std.specs.Prelude.{◌≡◌, OnOk};
ghost use Rattle.puffin.specs.Profiler.{collected_of};

use crate::equal::equal;
use crate::shares::{next_frame, opened, reported};
use puffin::data::{Form, StreamInfo};
use puffin::global_profiler::{
    Event, GlobalProfiler, History, NewLog, Settled, Share, SharedProfiler,
};
use std::alloc::Global;
use std::marker::Brand;
use std::process::Abort;
use std::sync::Wait;
use std::sync::ledger::{Blank, Ledger};
use tests_support::streams::id;
use tests_support::threads::thread_info;

/// Reports no scopes under the name "early".
fn report_none(alloc: Global, profiler: &mut GlobalProfiler) -> puffin::Result<()>
    ensures reported { OnOk result (
        (collected_of profiler.new).reported ≡ (collected_of profiler.old).reported) }
    ensures emitted { OnOk result (
        (collected_of profiler.new).emitted ≡ (collected_of profiler.old).emitted) }
{
    let none = StreamInfo::new(alloc);
    let info = thread_info(alloc, None, "early")?;
    profiler.report_user_scopes(info, &none.as_stream_into_ref())
}

/// One share reports two scopes, which the other takes in a frame, and then one more. Gives both back.
fn in_turn<L: Ledger + History, M: Ledger, R: Wait + Abort + Copy + Drop>(
    rt: R,
    alloc: Global,
    profiler: &SharedProfiler<L, M>,
    mut own: Share<L, M>,
    mut shares: Vec<Share<L, M>>,
) -> Vec<Share<L, M>> {
    let id = id(7).expect(&rt, "an id");
    let theirs = shares.pop().expect(&rt, "a share");
    let theirs = reported(rt, alloc, profiler, theirs, Form::Short, id, &["a", "b"]);
    let frame = next_frame(&rt, profiler, &mut own);
    equal(&rt, frame.meta().num_scopes, 2);
    let theirs = reported(rt, alloc, profiler, theirs, Form::Short, id, &["c"]);
    shares.push(theirs).expect(&rt, "memory");
    shares.push(own).expect(&rt, "memory");
    shares
}

fn settled<L: Ledger + History, M: Ledger, R: Wait + Abort + Copy + Drop>(
    rt: R,
    alloc: Global,
    reported: Blank,
    handed: Blank,
    log: NewLog<Event>,
)
    requires reported { (reported.name ≡ L.name)
        × (reported.parts ≡ L.parts)
        × (reported.parts ≡ 2) }
    requires handed { (handed.name ≡ M.name) × (handed.parts ≡ M.parts) × (handed.parts ≡ 2) }
    requires log { log.name ≡ L.history }
{
    let mut early = GlobalProfiler::new(alloc);
    report_none(alloc, &mut early).expect(&rt, "memory");
    let (profiler, own, shares) = opened::<L, M>(&rt, alloc, early, 2, reported, handed, log);
    let shares = in_turn(rt, alloc, &profiler, own, shares);
    let settled = profiler.settle(&rt, shares).ok().expect(&rt, "both shares");
    let all = Settled {
        reported: 3,
        handed: 2,
        pending: 1,
    };
    equal(&rt, settled, all);
}

#[test]
fn a_report_without_scopes_comes_before_the_shares(rt: HostRuntime) {
    settled::<Brand, Brand, HostRuntime>(
        rt,
        rt.alloc(),
        Blank::new(2),
        Blank::new(2),
        NewLog::new(),
    );
}
