use crate::equal::equal;
use crate::session::{frame_in, is_no_frame, refused, replies_to_each};
use crate::steps::Step;
use crate::steps::Step::{Begin, End, NewFrame, Register, RegisterUser, Snapshot};
use puffin_data::Error;
use puffin_data::data::ScopeId;
use puffin_replay::replay::Reply;
use std::process::Abort;

/// The number of the id in a reply to details that were registered.
fn registered(reply: Option<&Reply>) -> Option<u32> {
    match reply {
        Some(Reply::Registered(id)) => Some(id.get()),
        _ => None,
    }
}

/// A reply is a frame with this index and these numbers of scopes and bytes that lists scopes with exactly these names.
fn tells_of(
    rt: &impl Abort,
    reply: Option<&Reply>,
    index: u64,
    counts: (usize, usize),
    names: &[&str],
    full_delta: bool,
) {
    let frame = frame_in(reply).expect(rt, "a frame");
    equal(rt, frame.frame_index(), index);
    equal(
        rt,
        (frame.meta().num_scopes, frame.meta().num_bytes),
        counts,
    );
    equal(
        rt,
        (frame.full_delta, frame.scope_delta.len()),
        (full_delta, names.len()),
    );
    for (details, name) in frame.scope_delta.iter().zip(names) {
        equal(rt, details.name().as_str(), *name);
    }
}

/// The ids in a reply to scopes of the user's own that were registered.
fn registered_user(reply: Option<&Reply>) -> Option<&Vec<ScopeId>> {
    match reply {
        Some(Reply::RegisteredUser(ids)) => Some(ids),
        _ => None,
    }
}

/// These ids have exactly these numbers.
fn have_numbers(rt: &impl Abort, ids: &[ScopeId], numbers: &[u32]) {
    equal(rt, ids.len(), numbers.len());
    for (id, number) in ids.iter().zip(numbers) {
        equal(rt, id.get(), *number);
    }
}

/// The same name twice, and another one.
const TWO_NAMES: &[Step] = &[RegisterUser(&["u", "u", "v"])];

#[test]
fn a_name_keeps_its_id(rt: HostRuntime) {
    let replies = replies_to_each(&rt, &["a"], TWO_NAMES);
    let ids = registered_user(replies.get(0)).expect(&rt, "ids");
    have_numbers(&rt, ids, &[1, 1, 2]);
}

/// A function, a frame, and a scope of the function in another frame.
const ONE_FUNCTION: &[Step] = &[
    Register(0, None, "f"),
    NewFrame,
    Begin(0, 100, 1, ""),
    End(0, 200),
    NewFrame,
];

#[test]
fn a_function_comes_with_the_first_frame_after_its_report(rt: HostRuntime) {
    let replies = replies_to_each(&rt, &["a"], ONE_FUNCTION);
    equal(&rt, registered(replies.get(0)), Some(1));
    equal(&rt, is_no_frame(replies.get(1)), true);
    tells_of(&rt, replies.get(4), 1, (1, 31), &["f"], false);
}

/// A function whose scopes are in frames before and after a snapshot.
const SNAPSHOTS: &[Step] = &[
    Register(0, None, "f"),
    NewFrame,
    Begin(0, 100, 1, ""),
    End(0, 200),
    Snapshot,
    NewFrame,
    // It is wanted once.
    Snapshot,
    Begin(0, 300, 1, ""),
    End(0, 400),
    NewFrame,
    Begin(0, 500, 1, ""),
    End(0, 600),
    NewFrame,
];

#[test]
fn a_snapshot_tells_of_what_was_known_before(rt: HostRuntime) {
    let replies = replies_to_each(&rt, &["a"], SNAPSHOTS);
    equal(&rt, matches!(replies.get(4), Some(Reply::Snapshot)), true);
    tells_of(&rt, replies.get(5), 1, (1, 31), &["f"], true);
    tells_of(&rt, replies.get(9), 2, (1, 31), &["f"], true);
    tells_of(&rt, replies.get(12), 3, (1, 31), &[], false);
}

/// A function and a scope in it, which are both in each of two frames.
const SCOPE_IN_FUNCTION: &[Step] = &[
    Register(0, None, "f"),
    Register(0, Some("part"), "f"),
    Begin(0, 100, 1, ""),
    Begin(0, 200, 2, ""),
    End(0, 300),
    End(0, 400),
    NewFrame,
    Begin(0, 500, 1, ""),
    Begin(0, 600, 2, ""),
    End(0, 700),
    End(0, 800),
    NewFrame,
];

#[test]
fn a_scope_in_a_function_twice(rt: HostRuntime) {
    let replies = replies_to_each(&rt, &["a"], SCOPE_IN_FUNCTION);
    equal(&rt, registered(replies.get(1)), Some(2));
    tells_of(&rt, replies.get(6), 0, (2, 62), &["f", "part"], false);
    tells_of(&rt, replies.get(11), 1, (2, 62), &[], false);
}

/// A function of a thread that isn't there, and a frame of one that is.
const NO_THREAD: &[Step] = &[
    Register(1, None, "f"),
    Begin(0, 100, 1, ""),
    End(0, 200),
    NewFrame,
];

#[test]
fn a_thread_that_is_not_there_registers_nothing(rt: HostRuntime) {
    let replies = replies_to_each(&rt, &["a"], NO_THREAD);
    equal(&rt, refused(replies.get(0)), Some(Error::NoThread));
    tells_of(&rt, replies.get(3), 0, (1, 31), &[], false);
}
