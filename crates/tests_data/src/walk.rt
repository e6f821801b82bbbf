use crate::equal::equal;
use crate::samples::{NONE, leaf, nest};
use puffin_data::data::{Form, Reader, Stream, StreamInfo, walk_forest};
use puffin_data::{Error, NanoSecond, Result};
use std::alloc::Global;
use std::process::Abort;
use tests_support::samples::{ONE_SCOPE, THREE_SCOPES};
use tests_support::streams::stream_of;

/// The number of scopes, the nesting depth and the range.
type Counts = (usize, usize, (NanoSecond, NanoSecond));

/// Walks a stream. Returns its counts or the fault, and the number of readings.
fn walked(alloc: Global, stream: &Stream) -> (Result<Counts>, u64) {
    let mut tries = 99;
    let counts = match Reader::walk(alloc, stream, &mut tries) {
        Ok(walk) => Ok((walk.num_scopes, walk.depth, walk.range_ns)),
        Err(fault) => Err(fault),
    };
    (counts, tries)
}

/// Does the same with bytes that are in no stream.
fn walked_there(alloc: Global, bytes: &[u8]) -> (Result<Counts>, u64) {
    let mut tries = 99;
    let counts = match walk_forest(alloc, Form::Short, bytes, &mut tries) {
        Ok(walk) => Ok((walk.num_scopes, walk.depth, walk.range_ns)),
        Err(fault) => Err(fault),
    };
    (counts, tries)
}

/// Parses a stream. Returns its counts and whether its bytes are still `bytes`, or the fault.
fn parsed(alloc: Global, stream: Stream, bytes: &[u8]) -> Result<(Counts, bool)> {
    let info = StreamInfo::parse(alloc, stream)?;
    let counts = (info.num_scopes, info.depth, info.range_ns);
    Ok((counts, info.stream.bytes() == bytes))
}

/// Checks that a walk, a count and a parse of `bytes` find `counts`.
fn finds(rt: &impl Abort, alloc: Global, what: &str, bytes: &[u8], counts: Counts) -> Result<()> {
    let stream = stream_of(alloc, bytes)?;
    let (scopes, depth, _) = counts;
    let walk = (Ok(counts), scopes as u64);
    equal(rt, (what, walked(alloc, &stream)), (what, walk));
    equal(rt, (what, walked_there(alloc, bytes)), (what, walk));
    let counted = Reader::count_scope_and_depth(alloc, &stream);
    equal(rt, (what, counted), (what, Ok((scopes, depth))));
    let parse = parsed(alloc, stream, bytes);
    equal(rt, (what, parse), (what, Ok((counts, true))));
    Ok(())
}

/// Checks that a walk, a count and a parse of `bytes` are refused with `fault`, the walk after `made` readings.
fn refuses(
    rt: &impl Abort,
    alloc: Global,
    what: &str,
    bytes: &[u8],
    (fault, made): (Error, u64),
) -> Result<()> {
    let stream = stream_of(alloc, bytes)?;
    let walk = (Err(fault), made);
    equal(rt, (what, walked(alloc, &stream)), (what, walk));
    equal(rt, (what, walked_there(alloc, bytes)), (what, walk));
    let counted = Reader::count_scope_and_depth(alloc, &stream);
    equal(rt, (what, counted), (what, Err(fault)));
    equal(rt, (what, stream.bytes()), (what, bytes));
    let parse = parsed(alloc, stream, bytes);
    equal(rt, (what, parse), (what, Err(fault)));
    Ok(())
}

/// Forests with their counts.
const FORESTS: [(&str, &[u8], Counts); 7] = [
    ("no scope", b"", (0, 0, NONE)),
    ("one scope", &ONE_SCOPE, (1, 1, (100, 300))),
    ("three scopes", &THREE_SCOPES, (3, 2, (100, 400))),
    (
        "the least time",
        b"(\x01\0\0\0\0\0\0\0\0\0\0\x80\0\0\0\0\0\0\0\0\0)\0\0\0\0\0\0\0\x80",
        (1, 1, (i64::MIN, i64::MIN)),
    ),
    (
        "the greatest time",
        b"(\x01\0\0\0\xff\xff\xff\xff\xff\xff\xff\x7f\0\0\0\0\0\0\0\0\0)\xff\xff\xff\xff\xff\xff\xff\x7f",
        (1, 1, (i64::MAX, i64::MAX)),
    ),
    (
        "the longest time",
        b"(\x01\0\0\0\0\0\0\0\0\0\0\x80\0\0\0\0\0\0\0\0\0)\xff\xff\xff\xff\xff\xff\xff\xff",
        (1, 1, (i64::MIN, -1)),
    ),
    (
        "text that isn't UTF-8",
        b"(\x01\0\0\0\x64\0\0\0\0\0\0\0\x03a\xffb\0\0\0\0\0\0\0\0)\x2c\x01\0\0\0\0\0\0",
        (1, 1, (100, 300)),
    ),
];

#[test]
fn forests_are_counted(rt: HostRuntime) {
    for (what, bytes, counts) in &FORESTS {
        finds(&rt, rt.alloc(), what, bytes, *counts).expect(&rt, "scopes");
    }
}

/// A long text.
const TEXT: [u8; 255] = [b'a'; 255];

#[test]
fn long_texts_and_deep_scopes_are_counted(rt: HostRuntime) {
    for size in &[127, 255] {
        let bytes = leaf(rt.alloc(), 100, 300, &TEXT[..*size]).expect(&rt, "memory");
        finds(&rt, rt.alloc(), "long", &bytes, (1, 1, (100, 300))).expect(&rt, "scopes");
    }
    for depth in &[1_000, 100_000] {
        let levels = *depth as usize;
        let bytes = nest(rt.alloc(), *depth).expect(&rt, "memory");
        finds(&rt, rt.alloc(), "deep", &bytes, (levels, levels, (5, 7))).expect(&rt, "scopes");
    }
}

/// Bytes that aren't a forest, each with the fault and the number of readings that a walk makes.
const FAULTY: [(&str, &[u8], (Error, u64)); 12] = [
    (
        "not ended",
        b"(\x01\0\0\0\x64\0\0\0\0\0\0\0\0\xff\xff\xff\xff\xff\xff\xff\xff",
        (Error::ScopeNeverEnded, 1),
    ),
    (
        "cut",
        b"(\x01\0\0\0\x64\0\0\0\0\0\0\0\x04data\0\0\0\0\0\0\0\0)\x2c\x01\0\0\0\0\0",
        (Error::PrematureEnd, 1),
    ),
    (
        "id 0",
        b"(\0\0\0\0\x64\0\0\0\0\0\0\0\x04data\0\0\0\0\0\0\0\0)\x2c\x01\0\0\0\0\0\0",
        (Error::PrematureEnd, 1),
    ),
    (
        "no end",
        b"(\x01\0\0\0\x64\0\0\0\0\0\0\0\x04data\0\0\0\0\0\0\0\0(\x2c\x01\0\0\0\0\0\0",
        (Error::InvalidStream, 1),
    ),
    (
        "stop below start",
        b"(\x01\0\0\0\x64\0\0\0\0\0\0\0\x04data\0\0\0\0\0\0\0\0)\x63\0\0\0\0\0\0\0",
        (Error::InvalidStream, 1),
    ),
    (
        "a byte left over",
        b"(\x01\0\0\0\x64\0\0\0\0\0\0\0\x04data\0\0\0\0\0\0\0\0)\x2c\x01\0\0\0\0\0\0\0",
        (Error::InvalidStream, 1),
    ),
    (
        "too long",
        b"(\x01\0\0\0\0\0\0\0\0\0\0\x80\0\0\0\0\0\0\0\0\0)\0\0\0\0\0\0\0\0",
        (Error::InvalidStream, 1),
    ),
    (
        "past its parent",
        b"(\x01\0\0\0\0\0\0\0\0\0\0\0\0\x1f\0\0\0\0\0\0\0\
(\x02\0\0\0\0\0\0\0\0\0\0\0\0\x1f\0\0\0\0\0\0\0)\0\0\0\0\0\0\0\0)\0\0\0\0\0\0\0\0",
        (Error::PrematureEnd, 2),
    ),
    ("no scope", b"\0", (Error::InvalidStream, 0)),
    ("only a beginning", b"(", (Error::PrematureEnd, 1)),
    (
        "a scope and a beginning",
        b"(\x01\0\0\0\x05\0\0\0\0\0\0\0\0\0\0\0\0\0\0\0\0)\x07\0\0\0\0\0\0\0(",
        (Error::PrematureEnd, 2),
    ),
    (
        "a parent that stops below its start",
        b"(\x01\0\0\0\x01\0\0\0\0\0\0\0\0\x1f\0\0\0\0\0\0\0\
(\x02\0\0\0\0\0\0\0\0\0\0\0\0\x1f\0\0\0\0\0\0\0)\0\0\0\0\0\0\0\0)\0\0\0\0\0\0\0\0",
        (Error::InvalidStream, 1),
    ),
];

#[test]
fn other_bytes_are_refused(rt: HostRuntime) {
    for (what, bytes, fault) in &FAULTY {
        refuses(&rt, rt.alloc(), what, bytes, *fault).expect(&rt, "memory");
    }
}

/// Checks that a walk of `bytes` makes this number of readings, and how many it may make: one for each 31 bytes, and one.
fn stays_within(rt: &impl Abort, alloc: Global, bytes: &[u8], (made, most): (u64, u64)) {
    let stream = stream_of(alloc, bytes).expect(rt, "memory");
    let (_counts, tries) = walked(alloc, &stream);
    equal(rt, (tries, bytes.len() as u64 / 31 + 1), (made, most));
    assert!(rt; tries <= most);
}

#[test]
fn readings_stay_within_their_bound(rt: HostRuntime) {
    for (what, bytes, _fault) in &FAULTY {
        match *what {
            "past its parent" => stays_within(&rt, rt.alloc(), bytes, (2, 3)),
            "a scope and a beginning" => stays_within(&rt, rt.alloc(), bytes, (2, 2)),
            _ => {}
        }
    }
    let deep = nest(rt.alloc(), 100_000).expect(&rt, "memory");
    stays_within(&rt, rt.alloc(), &deep, (100_000, 100_001));
}
