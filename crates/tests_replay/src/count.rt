ghost use Rattle.std.specs.Prelude.{◌≡◌, ◌+◌, ◌-◌, ◌^◌, ◌<◌, if◌then◌else◌};

use crate::equal::equal;
use crate::steps::texts;
use puffin_data::data::{Counted, Drain, Source};
use puffin_data::{Error, FileError};
use puffin_replay::replay::*;
use std::alloc::AllocGlobal;
use std::io;
use std::process::Abort;
use tests_support::samples::ONE_SCOPE;

/// What is written of the stream of one scope.
const ONE_LINES: &[u8] =
    b"scopes 1 depth 1 range 100 300\nframe 0 bytes 35 scopes 1 range 100 300 duration 200\n";

/// A reader of some bytes in pieces, and a writer, whose call of this number fails.
#[derive(Drop)]
pub(crate) struct Failing<'a> {
    bytes: &'a [u8],
    pub(crate) written: Vec<u8>,
    piece: usize,
    calls: u64,
    fails_at: u64,
    faults: u64,
}

impl Failing<'_> {
    fn fails(&mut self) -> bool
        requires { self.old.faults < 2 ^ 64 - 1 }
        ensures faults { self.new.faults
            ≡ (if result then self.old.faults + 1 else self.old.faults) }
        ensures bytes { self.new.bytes.now ≡ self.old.bytes.now }
    {
        let fails = self.calls == self.fails_at;
        self.calls = self.calls.saturating_add(1);
        if fails {
            self.faults += 1;
        }
        fails
    }
}

impl Source for Failing<'_> {
    ghost failures = { λ s. s.faults };

    fn read(&mut self, buf: &mut [u8]) -> io::Result<usize> {
        if self.fails() {
            return Err(io::Error::from(io::ErrorKind::Other));
        }
        let n = self.piece.min(self.bytes.len()).min(buf.len());
        buf[..n].copy_from_slice(&self.bytes[..n]);
        self.bytes = &self.bytes[n..];
        Ok(n)
    }

    fn faults(&self) -> u64 {
        self.faults
    }
}

impl Drain for Failing<'_> {
    ghost failures = { λ s. s.faults };

    fn write(&mut self, buf: &[u8]) -> io::Result<usize> {
        if self.fails() {
            return Err(io::Error::from(io::ErrorKind::Other));
        }
        let n = self.piece.min(buf.len());
        if self.written.extend_from_slice(&buf[..n]).is_err() {
            return Ok(0);
        }
        Ok(n)
    }

    fn faults(&self) -> u64 {
        self.faults
    }
}

pub(crate) const NEVER: u64 = u64::MAX;

pub(crate) fn device<'a>(
    rt: &impl AllocGlobal,
    bytes: &'a [u8],
    piece: usize,
    fails_at: u64,
) -> Failing<'a>
    ensures { result.faults ≡ 0 }
{
    Failing {
        bytes,
        written: Vec::new(rt.alloc()),
        piece,
        calls: 0,
        fails_at,
        faults: 0,
    }
}

#[test]
fn std_readers_and_writers_are_counted(rt: HostRuntime) {
    let mut written = Vec::new(rt.alloc());
    let answer = count_stream(
        rt.alloc(),
        &mut Counted::new(ONE_SCOPE.as_slice()),
        &mut Counted::new(&mut written),
    );
    equal(&rt, answer, Ok(None));
    equal(&rt, written.as_slice(), ONE_LINES);
}

#[test]
fn each_read_fails_in_turn(rt: HostRuntime) {
    // 35 bytes in pieces of 10 are read by five calls, the last of which gives none
    for call in 0..5 {
        let mut source = device(&rt, &ONE_SCOPE, 10, call);
        let mut drain = device(&rt, b"", 100, NEVER);
        let answer = count_stream(rt.alloc(), &mut source, &mut drain);
        equal(&rt, (call, answer), (call, Err(FileError::Io)));
        equal(&rt, source.faults, 1);
        equal(&rt, drain.written.len(), 0);
    }
}

/// A stream that comes in small pieces, and lines of which one byte is taken a call.
#[test]
fn small_pieces_are_counted(rt: HostRuntime) {
    let mut drain = device(&rt, b"", 1, NEVER);
    let answer = count_stream(
        rt.alloc(),
        &mut device(&rt, &ONE_SCOPE, 3, NEVER),
        &mut drain,
    );
    equal(&rt, answer, Ok(None));
    equal(&rt, drain.written.as_slice(), ONE_LINES);
}

#[test]
fn each_write_fails_in_turn(rt: HostRuntime) {
    // 84 bytes in pieces of 10 are written by nine calls
    for call in 0..9u64 {
        let mut source = device(&rt, &ONE_SCOPE, 100, NEVER);
        let mut drain = device(&rt, b"", 10, call);
        let answer = count_stream(rt.alloc(), &mut source, &mut drain);
        equal(&rt, (call, answer), (call, Err(FileError::Io)));
        equal(&rt, drain.faults, 1);
        let written = (call * 10) as usize;
        equal(&rt, written < ONE_LINES.len(), true);
        equal(&rt, drain.written.as_slice(), &ONE_LINES[..written]);
    }
}

#[test]
fn a_writer_that_takes_nothing_has_failed(rt: HostRuntime) {
    let mut drain = device(&rt, b"", 0, NEVER);
    let answer = count_stream(
        rt.alloc(),
        &mut device(&rt, &ONE_SCOPE, 100, NEVER),
        &mut drain,
    );
    equal(&rt, answer, Err(FileError::Io));
    equal(&rt, drain.faults, 0);
}

/// Whether this is the task to replay a script into a file.
fn is_replay(task: &Option<Task>, asked: &str, file: &str) -> bool {
    match task {
        Some(Task::Replay(script, out)) => script.as_str() == asked && out.as_str() == file,
        _ => false,
    }
}

#[test]
fn replay_with_two_files_is_a_task(rt: HostRuntime) {
    let words = texts(rt.alloc(), &["replay", "a script", "b"]).expect(&rt, "memory");
    let task = read_words(&words).expect(&rt, "a task");
    assert!(rt; is_replay(&task, "a script", "b"));
}

const USAGE: &str = "usage: puffin-tool count | replay SCRIPT OUT | report FILE START:NAME\n";

/// What is written of each fault, and the status that it ends with.
const TOLD: [(Option<ToolFault>, &str, u8); 9] = [
    (None, "", 0),
    (Some(ToolFault::Words), USAGE, 2),
    (Some(ToolFault::Line(3)), "puffin-tool: script line 3\n", 1),
    (
        Some(ToolFault::Line(u64::MAX)),
        "puffin-tool: script line 18446744073709551615\n",
        1,
    ),
    (
        Some(ToolFault::Cause(Error::PrematureEnd)),
        "puffin-tool: PrematureEnd\n",
        1,
    ),
    (Some(ToolFault::File(FileError::Io)), "puffin-tool: Io\n", 1),
    (
        Some(ToolFault::File(FileError::UnknownKind(3))),
        "puffin-tool: UnknownKind 3\n",
        1,
    ),
    (
        Some(ToolFault::File(FileError::Compressed(2))),
        "puffin-tool: Compressed 2\n",
        1,
    ),
    (
        Some(ToolFault::File(FileError::Refused(Error::MissingId))),
        "puffin-tool: Refused MissingId\n",
        1,
    ),
];

/// A fault is told in this line, with this status.
fn is_told(rt: &(impl AllocGlobal + Abort), fault: Option<ToolFault>, line: &str, status: u8) {
    let mut drain = device(rt, b"", 7, NEVER);
    equal(rt, finish(fault, &mut drain), status);
    equal(rt, drain.written.as_slice(), line.as_bytes());
    // a writer that fails doesn't change the status
    equal(rt, finish(fault, &mut device(rt, b"", 7, 0)), status);
}

#[test]
fn each_fault_is_told_with_its_status(rt: HostRuntime) {
    for (fault, line, status) in &TOLD {
        is_told(&rt, *fault, line, *status);
    }
}
