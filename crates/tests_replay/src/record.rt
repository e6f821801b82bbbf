use crate::count::{NEVER, device};
use crate::equal::equal;
use crate::run::{Written, run};
use crate::steps::Step::{Begin, End, NewFrame, Report};
use crate::steps::{Step, commands, texts};
use puffin_data::FileError;
use puffin_replay::replay::{Reply, Script, record};
use puffin_view::profile_view::FrameView;
use std::alloc::AllocGlobal;
use std::process::Abort;
use tests_support::samples::{FILE, ONE_FRAME};

/// A scope of the thread and a frame of it.
const ONE: &[Step] = &[Begin(0, 100, 1, "data"), End(0, 300), NewFrame];

/// One scope with the id 1 and no text, from the least time to the least time.
const EARLIEST: &[u8] = b"(\x01\0\0\0\0\0\0\0\0\0\0\x80\0\0\0\0\0\0\0\0\0)\0\0\0\0\0\0\0\x80";

/// The number of each line of a script that has so many.
fn numbers(rt: &(impl AllocGlobal + Abort), lines: usize) -> Vec<u64> {
    let mut numbers = Vec::new(rt.alloc());
    for number in 0..lines {
        numbers.push(number as u64 + 1).expect(rt, "memory");
    }
    numbers
}

/// A script of one thread, with a step in each line.
fn script(rt: &(impl AllocGlobal + Abort), name: &str, steps: &[Step]) -> Script {
    Script {
        names: texts(rt.alloc(), &[name]).expect(rt, "memory"),
        forms: Vec::new(rt.alloc()),
        commands: commands(rt.alloc(), steps).expect(rt, "commands"),
        lines: numbers(rt, steps.len()),
    }
}

/// A run wrote this file and these lines.
fn is_written(rt: &impl Abort, run: &Written, file: &[u8], lines: &[u8]) {
    equal(rt, run.answer, Ok(()));
    equal(
        rt,
        (run.file.as_slice(), run.lines.as_slice()),
        (file, lines),
    );
}

/// The script of these steps of a thread with this name writes this file and these lines.
fn writes(rt: &(impl AllocGlobal + Abort), name: &str, steps: &[Step], file: &[u8], lines: &[u8]) {
    let script = script(rt, name, steps);
    is_written(rt, &run(rt, &script, (7, NEVER), (1, NEVER)), file, lines);
}

#[test]
fn a_script_makes_a_file_and_lines(rt: HostRuntime) {
    let line = b"frame 0 threads 1 scopes 1 bytes 35 duration 200\n";
    writes(&rt, "main", ONE, &FILE[..ONE_FRAME], line);
}

#[test]
fn a_kept_report_is_told_with_its_line(rt: HostRuntime) {
    let steps = [Report("u", EARLIEST), Begin(0, 100, 1, ""), End(0, 200)];
    writes(&rt, "a", &steps, b"PUF0", b"kept 3 RangeTooLong\n");
}

/// Records the steps of a thread with this name into a view, which writes this file, in pieces
/// of this length. Returns the replies.
fn recorded(
    rt: &(impl AllocGlobal + Abort),
    view: &mut FrameView,
    name: &str,
    steps: &[Step],
    file: &[u8],
    piece: usize,
) -> Vec<Reply> {
    let commands = commands(rt.alloc(), steps).expect(rt, "commands");
    let mut drain = device(rt, b"", piece, NEVER);
    let names = texts(rt.alloc(), &[name]).expect(rt, "memory");
    let replies = record(rt.alloc(), names, &commands, view, &mut drain).expect(rt, "replies");
    equal(rt, drain.written.as_slice(), file);
    replies
}

/// Records one frame into a view, which has no other frame then.
fn takes_one_frame(rt: &(impl AllocGlobal + Abort), view: &mut FrameView) {
    let replies = recorded(rt, view, "main", ONE, &FILE[..ONE_FRAME], 1000);
    equal(rt, replies.len(), 3);
    equal(rt, view.stats().frames(), 1);
}

#[test]
fn a_view_takes_what_is_recorded(rt: HostRuntime) {
    let mut view = FrameView::new(rt.alloc());
    takes_one_frame(&rt, &mut view);
    // The frames of another session begin with the index 0 again.
    takes_one_frame(&rt, &mut view);
}

/// Whether the whole file is written where this call of its writer fails. If not, its beginning
/// is, and no line.
fn is_whole(rt: &(impl AllocGlobal + Abort), script: &Script, call: u64) -> bool {
    let run = run(rt, script, (2, call), (1000, NEVER));
    let whole = run.answer == Ok(());
    if !whole {
        equal(rt, run.answer, Err(FileError::Io));
        assert!(rt; run.lines.is_empty());
    }
    let file = &FILE[..ONE_FRAME];
    equal(rt, run.file.as_slice() == file, whole);
    assert!(rt; file.starts_with(run.file.as_slice()));
    whole
}

#[test]
fn a_file_that_is_not_written_whole_is_told(rt: HostRuntime) {
    let script = script(&rt, "main", ONE);
    let mut whole = false;
    for call in 0..60u64 {
        whole = is_whole(&rt, &script, call);
    }
    assert!(rt; whole);
}

#[test]
fn lines_that_are_not_written_are_told(rt: HostRuntime) {
    let script = script(&rt, "main", ONE);
    let run = run(&rt, &script, (1000, NEVER), (5, 1));
    equal(&rt, run.answer, Err(FileError::Io));
    equal(&rt, run.file.as_slice(), &FILE[..ONE_FRAME]);
    equal(&rt, run.lines.as_slice(), b"frame".as_slice());
}
