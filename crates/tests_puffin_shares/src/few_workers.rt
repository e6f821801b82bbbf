//! Two workers with ten scopes each, and one that takes frames.

use crate::workers;
use crate::workers::Kind;
use puffin::global_profiler::NewLog;
use std::marker::Brand;
use std::sync::ledger::Blank;

/// How many scopes a worker reports.
pub(crate) const SCOPES: u32 = 10;

#[test]
fn three_shares_of_two_workers_and_a_taker_of_frames(rt: HostRuntime) {
    let alloc = rt.alloc();
    let (names, reported, handed) = (["w0", "w1"], Blank::new(3), Blank::new(3));
    workers::run::<Brand, Brand, HostRuntime>(
        rt,
        alloc,
        Kind::Few,
        &names,
        3,
        reported,
        handed,
        NewLog::new(),
    );
}
