//! Commands that are recorded in one session, call after call.

use crate::count::{NEVER, device};
use crate::equal::equal;
use crate::steps::Step::{Begin, End, NewFrame};
use crate::steps::{Step, commands, texts};
use puffin_replay::replay::{Session, record_session};
use puffin_view::profile_view::FrameView;
use std::alloc::AllocGlobal;
use std::process::Abort;
use tests_support::samples::{FILE, ONE_FRAME};

/// A scope of the thread, and a frame of it.
const FIRST: &[Step] = &[Begin(0, 100, 1, "data"), End(0, 300), NewFrame];

/// Another one.
const SECOND: &[Step] = &[Begin(0, 400, 1, "a"), End(0, 401), NewFrame];

/// Records these steps, and writes a file.
fn records(
    rt: &(impl AllocGlobal + Abort),
    session: &mut Session,
    view: &mut FrameView,
    steps: &[Step],
    file: &[u8],
) {
    let commands = commands(rt.alloc(), steps).expect(rt, "commands");
    let mut drain = device(rt, b"", 1000, NEVER);
    let replies = record_session(session, &commands, view, &mut drain).expect(rt, "replies");
    equal(rt, replies.len(), steps.len());
    equal(rt, drain.written.as_slice(), file);
}

/// Records both frames into one view.
fn records_both(rt: &(impl AllocGlobal + Abort), session: &mut Session, view: &mut FrameView) {
    records(rt, session, view, FIRST, &FILE[..ONE_FRAME]);
    records(rt, session, view, SECOND, &FILE);
}

#[test]
fn a_session_goes_on_with_the_next_index(rt: HostRuntime) {
    let mut session = Session::new(
        rt.alloc(),
        texts(rt.alloc(), &["main"]).expect(&rt, "memory"),
    )
    .expect(&rt, "a session");
    records_both(&rt, &mut session, &mut FrameView::new(rt.alloc()));
}
