use crate::equal::equal;
use crate::form::lettered;
use crate::reader::{scope_at, top_scopes};
use puffin_data::data::{END_SIZE, Form, Reader, Scope, Stream};
use puffin_data::{Error, Result};
use std::process::Abort;
use tests_support::samples::ONE_SCOPE;
use tests_support::streams::{end, id, stream_of};

#[test]
fn a_copy_stays_when_a_stream_is_cleared(rt: HostRuntime) {
    let alloc = rt.alloc();
    assert!(rt; Stream::new(alloc).is_empty());
    let mut stream = stream_of(alloc, &ONE_SCOPE).expect(&rt, "memory");
    equal(&rt, (stream.is_empty(), stream.len()), (false, 35));
    let copy = stream.clone().expect(&rt, "memory");
    stream.clear();
    equal(&rt, (stream.is_empty(), stream.len()), (true, 0));
    equal(&rt, copy.bytes(), ONE_SCOPE.as_slice());
}

#[test]
fn one_scope_takes_35_bytes(rt: HostRuntime) {
    let mut stream = Stream::new(rt.alloc());
    let (offset, start) = stream
        .begin_scope(|| 100, id(1).expect(&rt, "an id"), "data")
        .expect(&rt, "a scope");
    equal(&rt, (offset, start), (18, 100));
    end(&mut stream, offset, 300).expect(&rt, "a scope");
    equal(&rt, stream.bytes(), ONE_SCOPE.as_slice());
    equal(&rt, stream.len(), 35);
}

#[test]
fn one_scope_is_written_within_the_room(rt: HostRuntime) {
    let mut stream = Stream::new(rt.alloc());
    let begin = stream.form().begin_limit("data");
    stream.reserve(begin + END_SIZE).expect(&rt, "memory");
    let offset = stream.begin_within(100, id(1).expect(&rt, "an id"), "data", 7);
    equal(&rt, stream.end_within(offset, 300), 7);
    equal(&rt, offset, 18);
    equal(&rt, stream.bytes(), ONE_SCOPE.as_slice());
}

/// Returns the id, times and text of a scope.
fn read_of<'s>(scope: &Scope<'s>) -> (u32, i64, i64, i64, &'s str) {
    let record = scope.rec;
    (
        scope.id.get(),
        record.start_ns,
        record.duration_ns,
        record.stop_ns(),
        record.text,
    )
}

#[test]
fn one_scope_is_read_as_it_was_written(rt: HostRuntime) {
    let stream = stream_of(rt.alloc(), &ONE_SCOPE).expect(&rt, "memory");
    let (scopes, fault) = top_scopes(&rt, Reader::from_start(&stream));
    equal(&rt, (scopes.len(), fault), (1, None));
    let read = scopes.first().map(|scope| read_of(scope));
    equal(&rt, read, Some((1, 100, 200, 300, "data")));
}

/// Whether the one scope of a stream has a beginning of these bytes as its text, of the length that the stream says.
fn is_read(stream: &Stream, text: &[u8]) -> bool {
    let said = stream.bytes().get(13).copied().map(usize::from);
    match scope_at(stream, 0, stream.len()) {
        Ok(Some(scope)) => {
            let read = scope.rec.text.as_bytes();
            said == Some(read.len()) && text.starts_with(read)
        }
        _ => false,
    }
}

/// Writes a scope whose text is `count` letters and then `last`. Returns how many bytes of the text are stored, after
/// checking that they are read back unchanged.
fn stored_size(rt: &(impl AllocGlobal + Abort), count: usize, last: char) -> usize {
    let (_, stream) = lettered(rt.alloc(), Form::Short, count, last).expect(rt, "a scope");
    let mut text = "a".repeat(rt.alloc(), count).expect(rt, "memory");
    text.push(last).expect(rt, "memory");
    assert!(rt; is_read(&stream, text.as_bytes()));
    stream.len().saturating_sub(31)
}

#[test]
fn long_texts_are_cut_at_a_character(rt: HostRuntime) {
    let cases = [
        ('b', [126, 127, 127, 127]),
        ('é', [126, 127, 126, 127]),
        ('€', [126, 127, 125, 126]),
        ('🦀', [126, 127, 124, 125]),
    ];
    for (last, want) in &cases {
        for (size, want) in (126..130).zip(want.iter()) {
            let count = usize::saturating_sub(size, last.len_utf8());
            equal(&rt, (size, stored_size(&rt, count, *last)), (size, *want));
        }
    }
    equal(&rt, stored_size(&rt, 126, 'é'), 126);
}

/// Writes a scope of 35 bytes. So many bytes of room are left at least, and 9 more before it is ended.
fn writes_leaving(rt: &impl Abort, stream: &mut Stream, left: usize) {
    let offset = stream
        .begin_scope_at(100, id(1).expect(rt, "an id"), "data")
        .expect(rt, "a scope");
    assert!(rt; left.saturating_add(9) <= stream.room());
    end(stream, offset, 300).expect(rt, "a scope");
    assert!(rt; left <= stream.room());
}

#[test]
fn within_the_room_nothing_is_refused(rt: HostRuntime) {
    let mut stream = Stream::new(rt.alloc());
    stream.reserve(35).expect(&rt, "memory");
    assert!(rt; 35 <= stream.room() && stream.is_empty());
    stream.reserve(35 + 35).expect(&rt, "memory");
    assert!(rt; 70 <= stream.room());
    for left in &[35, 0] {
        writes_leaving(&rt, &mut stream, *left);
    }
    equal(&rt, stream.len(), 70);
}

#[test]
fn a_stream_grows_to_its_limit_and_no_further(rt: HostRuntime) {
    let mut stream = stream_of(rt.alloc(), &ONE_SCOPE).expect(&rt, "memory");
    stream.set_max_bytes(70);
    equal(&rt, stream.reserve(36), Err(Error::Memory));
    equal(&rt, stream.bytes(), ONE_SCOPE.as_slice());
    stream.reserve(1).expect(&rt, "memory");
    stream.reserve(35).expect(&rt, "memory");
    equal(&rt, stream.room(), 35);
    equal(&rt, stream.reserve(36), Err(Error::Memory));
    stream.set_max_bytes(71);
    stream.reserve(36).expect(&rt, "memory");
}

#[test]
fn a_begin_asks_its_clock_once(rt: HostRuntime) {
    let mut stream = Stream::new(rt.alloc());
    let mut asked: u32 = 0;
    let begun = stream.begin_scope_by(
        &mut || {
            asked = asked.saturating_add(1);
            100
        },
        id(1).expect(&rt, "an id"),
        "data",
    );
    equal(&rt, begun, Ok((18, 100)));
    equal(&rt, (stream.len(), asked), (26, 1));
}

/// Three nested scopes as the Rust crate writes them.
const NESTED: &[u8] =
    b"(\x09\0\0\0\x44\x04\0\0\0\0\0\0\0\x46\0\0\0\0\0\0\0(\x08\0\0\0\x80\x04\0\0\0\0\0\0\x04mesh\x23\0\0\0\0\0\0\0(\x12\0\0\0\x91\x04\0\0\0\0\0\0\x04mesh\0\0\0\0\0\0\0\0)\x9b\x04\0\0\0\0\0\0)\xc2\x04\0\0\0\0\0\0)\xc2\x04\0\0\0\0\0\0";

/// Writes the same scopes.
fn write_nested(stream: &mut Stream) -> Result<()> {
    let outer = stream.begin_scope_at(1092, id(9)?, "")?;
    let middle = stream.begin_scope_at(1152, id(8)?, "mesh")?;
    let inner = stream.begin_scope_at(1169, id(18)?, "mesh")?;
    for (offset, stop) in &[(inner, 1179), (middle, 1218), (outer, 1218)] {
        end(stream, *offset, *stop)?;
    }
    Ok(())
}

#[test]
fn the_bytes_of_the_rust_crate(rt: HostRuntime) {
    let mut stream = Stream::new(rt.alloc());
    write_nested(&mut stream).expect(&rt, "scopes");
    equal(&rt, stream.bytes(), NESTED);
}
