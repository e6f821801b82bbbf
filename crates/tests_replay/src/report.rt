use crate::count::{NEVER, device};
use crate::equal::equal;
use crate::run::{Written, run_of_text};
use puffin_data::FileError;
use puffin_data::data::Counted;
use puffin_replay::replay::print_report;
use puffin_threads::thread_profiler::ThreadInfo;
use std::alloc::AllocGlobal;
use std::process::Abort;
use tests_support::frames::packet_thread;

/// One scope, `data` from 100 to 300.
const ONE: &[u8] = b"begin main 100 1 data\nend main 300\nframe\n";

/// What is printed of it.
const ONE_LINES: &[u8] =
    b"frames 1\n#1 (data) pieces 1 total 200 per_frame 200 max 200 start 100\n";

/// A scope in another.
const NESTED: &[u8] = b"begin main 100 1\nbegin main 200 2 x\nend main 300\nend main 400\nframe\n";

/// The same in a function that is registered first.
const IN_FUNCTION: &[u8] =
    b"function main load a.rs 7\nbegin main 100 1\nbegin main 200 2 x\nend main 300\nend main 400\nframe\n";

/// What a run of either prints.
const NESTED_FRAME: &[u8] = b"frame 0 threads 1 scopes 2 bytes 63 duration 300\n";

/// Scripts with what their runs print, and what is printed of the files that these write.
const SCRIPTS: [(&[u8], &[u8], &[u8]); 3] = [
    (
        ONE,
        b"frame 0 threads 1 scopes 1 bytes 35 duration 200\n",
        ONE_LINES,
    ),
    (
        NESTED,
        NESTED_FRAME,
        b"frames 1\n#1 pieces 1 total 300 per_frame 300 max 300 start 100\n  #2 (x) pieces 1 total 100 per_frame 100 max 100 start 100\n",
    ),
    (
        IN_FUNCTION,
        NESTED_FRAME,
        b"frames 1\nload pieces 1 total 300 per_frame 300 max 300 start 100\n  #2 (x) pieces 1 total 100 per_frame 100 max 100 start 100\n",
    ),
];

/// The run of the script with this text.
fn run(rt: &(impl AllocGlobal + Abort), text: &[u8]) -> Written {
    run_of_text(rt, text, 1000)
}

/// What reporting a file for a thread returns, and what it writes, where this call of the
/// file's reader fails.
fn reported(
    rt: &impl AllocGlobal,
    file: &[u8],
    fails_at: u64,
    thread: &ThreadInfo,
) -> (Result<(), FileError>, Vec<u8>) {
    let mut source = device(rt, file, 3, fails_at);
    let mut drain = device(rt, b"", 2, NEVER);
    let answer = print_report(rt.alloc(), &mut source, thread, &mut drain);
    (answer, drain.written)
}

/// Checks what is printed of a file for the thread of these scripts.
fn reports(rt: &(impl AllocGlobal + Abort), file: &[u8], lines: &[u8]) {
    let (answer, written) = reported(
        rt,
        file,
        NEVER,
        &packet_thread(rt.alloc()).expect(rt, "memory"),
    );
    equal(rt, answer, Ok(()));
    equal(rt, written.as_slice(), lines);
}

#[test]
fn the_file_that_a_script_writes_is_reported(rt: HostRuntime) {
    for (script, lines, report) in &SCRIPTS {
        let run = run(&rt, script);
        equal(&rt, run.lines.as_slice(), *lines);
        reports(&rt, &run.file, report);
    }
}

/// Whether the whole report is written where this call of its writer fails. If not, its
/// beginning is.
fn is_whole(rt: &(impl AllocGlobal + Abort), file: &[u8], thread: &ThreadInfo, call: u64) -> bool {
    let mut drain = device(rt, b"", 2, call);
    let answer = print_report(rt.alloc(), &mut Counted::new(file), thread, &mut drain);
    let whole = answer == Ok(());
    if !whole {
        equal(rt, answer, Err(FileError::Io));
    }
    equal(rt, drain.written.as_slice() == ONE_LINES, whole);
    assert!(rt; ONE_LINES.starts_with(drain.written.as_slice()));
    whole
}

#[test]
fn a_report_that_is_not_written_whole_is_told(rt: HostRuntime) {
    let file = run(&rt, ONE).file;
    let main = packet_thread(rt.alloc()).expect(&rt, "memory");
    let mut whole = false;
    for call in 0..60u64 {
        whole = is_whole(&rt, &file, &main, call);
    }
    assert!(rt; whole);
}

/// Reading the file of [`ONE`] in pieces of three bytes takes so many calls, the last of which finds its end.
const READS: u64 = 33;

/// Whether a file is reported whole where this call of its reader fails. If not, nothing is written.
fn is_read(rt: &(impl AllocGlobal + Abort), file: &[u8], thread: &ThreadInfo, call: u64) -> bool {
    let (answer, written) = reported(rt, file, call, thread);
    let whole = answer == Ok(());
    if !whole {
        equal(rt, answer, Err(FileError::Io));
    }
    equal(rt, written.as_slice(), if whole { ONE_LINES } else { b"" });
    whole
}

#[test]
fn a_file_that_is_not_read_whole_is_told(rt: HostRuntime) {
    let file = run(&rt, ONE).file;
    let main = packet_thread(rt.alloc()).expect(&rt, "memory");
    for call in 0..READS + 1 {
        equal(
            &rt,
            (call, is_read(&rt, &file, &main, call)),
            (call, call == READS),
        );
    }
}
