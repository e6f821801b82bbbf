//! Calls that the crates above make.

use crate::equal::equal;
use crate::rig::Rig;
use puffin_data::{Error, NanoSecond, Result};
use puffin_threads::thread_profiler::Closed;
use std::process::Abort;
use tests_support::samples::ONE_SCOPE;

#[test]
fn a_thread_s_allocator_makes_a_text_of_its_scope(rt: HostRuntime) {
    let mut rig = Rig::new(rt.alloc(), 100, 0).expect(&rt, "memory");
    let text = String::from_str(rig.thread.allocator(), "data").expect(&rt, "memory");
    rig.begins(&rt, (1, &text), 18);
    rig.set(300);
    rig.ends(&rt, 18, Ok(Closed::Reported));
    equal(&rt, rig.bytes(0).expect(&rt, "bytes"), ONE_SCOPE.as_slice());
}

/// What ending a scope without a report returns is as expected.
fn closes(rt: &impl Abort, rig: &mut Rig, at: NanoSecond, offset: usize, expected: Result<()>) {
    rig.set(at);
    equal(
        rt,
        (offset, rig.thread.close_scope(offset)),
        (offset, expected),
    );
}

#[test]
fn closed_scopes_wait_for_a_report(rt: HostRuntime) {
    let mut rig = Rig::new(rt.alloc(), 100, 0).expect(&rt, "memory");
    rig.begins(&rt, (1, ""), 14);
    rig.begins(&rt, (2, ""), 36);
    closes(&rt, &mut rig, 200, 14, Err(Error::MismatchedEnd));
    closes(&rt, &mut rig, 200, 36, Ok(()));
    closes(&rt, &mut rig, 300, 14, Ok(()));
    rig.has(&rt, (0, 0, 0));
    rig.reports(&rt, Ok(true));
    rig.has(&rt, (0, 1, 0));
    equal(&rt, rig.bytes(0).expect(&rt, "bytes").len(), 62);
}
