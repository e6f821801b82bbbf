use crate::equal::equal;
use puffin_data::data::{Reader, Scope, Stream};
use puffin_data::{Error, Result};
use std::alloc::Global;
use std::process::Abort;
use tests_support::samples::{ONE_SCOPE, THREE_SCOPES};
use tests_support::streams::{end, id, stream_of};

/// What stands at a place of a region, where there is such a region.
pub(crate) fn scope_at(stream: &Stream, at: usize, end: usize) -> Result<Option<Scope<'_>>> {
    let len = stream.len();
    if at > end || end > len {
        return Err(Error::InvalidOffset);
    }
    Reader::scope_at(stream, at, end)
}

/// Where the next sibling stands of the scope at a place of a region.
fn next_of(stream: &Stream, at: usize, end: usize) -> Option<u64> {
    match scope_at(stream, at, end) {
        Ok(Some(scope)) => Some(scope.next_sibling_position),
        _ => None,
    }
}

/// Why no scope is read at a place of a region.
fn fault_at(stream: &Stream, at: usize, end: usize) -> Option<Error> {
    match scope_at(stream, at, end) {
        Ok(_) => None,
        Err(fault) => Some(fault),
    }
}

/// The scopes of a reader, up to its end or its first fault. After either it has to give nothing.
pub(crate) fn top_scopes<'s>(
    rt: &(impl AllocGlobal + Abort),
    mut reader: Reader<'s>,
) -> (Vec<Scope<'s>>, Option<Error>) {
    let mut scopes = Vec::new(rt.alloc());
    let mut fault = None;
    while let Some(next) = reader.next() {
        match next {
            Ok(scope) => {
                let is_kept = scopes.push(scope).is_ok();
                assert!(rt; is_kept);
            }
            Err(found) => {
                fault = Some(found);
                break;
            }
        }
    }
    assert!(rt; reader.next().is_none());
    (scopes, fault)
}

/// Writes a scope without children.
fn write_child(
    stream: &mut Stream,
    number: u32,
    (start, stop): (i64, i64),
    text: &str,
) -> Result<()> {
    let offset = stream.begin_scope_at(start, id(number)?, text)?;
    end(stream, offset, stop)
}

/// Writes a scope with two children.
fn write_two_children(stream: &mut Stream) -> Result<()> {
    let top = stream.begin_scope_at(100, id(1)?, "data_top")?;
    write_child(stream, 2, (200, 300), "data_middle_0")?;
    write_child(stream, 3, (300, 400), "data_middle_1")?;
    end(stream, top, 400)
}

/// When a scope begins, how long it is, where its children begin and end, and where its next sibling stands.
fn places(scope: &Scope<'_>) -> (i64, i64, u64, u64, u64) {
    (
        scope.rec.start_ns,
        scope.rec.duration_ns,
        scope.child_begin_position,
        scope.child_end_position,
        scope.next_sibling_position,
    )
}

#[test]
fn the_positions_of_a_scope_with_two_children(rt: HostRuntime) {
    let mut stream = Stream::new(rt.alloc());
    write_two_children(&mut stream).expect(&rt, "scopes");
    equal(&rt, stream.bytes(), THREE_SCOPES.as_slice());
    let scopes = Reader::from_start(&stream)
        .read_top_scopes(rt.alloc())
        .expect(&rt, "scopes");
    equal(&rt, scopes.len(), 1);
    equal(
        &rt,
        scopes.first().map(|scope| places(scope)),
        Some((100, 300, 30, 118, 127)),
    );
}

#[test]
fn the_times_of_two_children(rt: HostRuntime) {
    let stream = stream_of(rt.alloc(), &THREE_SCOPES).expect(&rt, "memory");
    let (inner, fault) = top_scopes(
        &rt,
        Reader::with_offset(&stream, 30).expect(&rt, "a reader"),
    );
    equal(&rt, fault, None);
    equal(&rt, inner.len(), 2);
    for (scope, start) in inner.iter().zip(&[200, 300]) {
        equal(
            &rt,
            (scope.rec.start_ns, scope.rec.duration_ns),
            (*start, 100),
        );
    }
}

#[test]
fn the_regions_of_two_children(rt: HostRuntime) {
    let stream = stream_of(rt.alloc(), &THREE_SCOPES).expect(&rt, "memory");
    equal(&rt, next_of(&stream, 30, 118), Some(74));
    equal(&rt, next_of(&stream, 118, 118), None);
    equal(&rt, fault_at(&stream, 118, 118), None);
    equal(&rt, fault_at(&stream, 30, 73), Some(Error::PrematureEnd));
}

#[test]
fn offsets_of_an_empty_stream(rt: HostRuntime) {
    let stream = Stream::new(rt.alloc());
    assert!(rt; Reader::with_offset(&stream, 0).is_ok());
    equal(
        &rt,
        Reader::with_offset(&stream, 1).err(),
        Some(Error::InvalidOffset),
    );
    assert!(rt; Reader::from_start(&stream).next().is_none());
}

#[test]
fn a_byte_left_over_ends_the_reader(rt: HostRuntime) {
    let mut bytes = Vec::from_slice(rt.alloc(), &ONE_SCOPE).expect(&rt, "memory");
    bytes.push(0).expect(&rt, "memory");
    let stream = Stream::from(bytes);
    let scopes = Reader::from_start(&stream)
        .read_top_scopes(rt.alloc())
        .expect(&rt, "scopes");
    equal(&rt, scopes.len(), 1);
    equal(
        &rt,
        Reader::count_scope_and_depth(rt.alloc(), &stream).err(),
        Some(Error::InvalidStream),
    );
}

/// A reader gives one scope of a stream, and then this fault.
fn gives_fault(rt: &(impl AllocGlobal + Abort), stream: &Stream, want: Error) {
    let (scopes, fault) = top_scopes(rt, Reader::from_start(stream));
    let refused = Reader::from_start(stream).read_top_scopes(rt.alloc()).err();
    equal(
        rt,
        (scopes.len(), fault, refused),
        (1, Some(want), Some(want)),
    );
}

#[test]
fn a_fault_is_given_once(rt: HostRuntime) {
    let open = b"(\x01\0\0\0\x64\0\0\0\0\0\0\0\0\xff\xff\xff\xff\xff\xff\xff\xff";
    let mut without_id = ONE_SCOPE;
    let (mut other_end, mut early) = (without_id, without_id);
    without_id[1] = 0;
    other_end[26] = 0x28;
    early[27] = 99;
    early[28] = 0;
    let cases: [(&[u8], Error); 5] = [
        (open, Error::ScopeNeverEnded),
        (&without_id, Error::PrematureEnd),
        (&ONE_SCOPE[..34], Error::PrematureEnd),
        (&other_end, Error::InvalidStream),
        (&early, Error::InvalidStream),
    ];
    for (faulty, want) in &cases {
        let mut bytes = Vec::from_slice(rt.alloc(), &ONE_SCOPE).expect(&rt, "memory");
        bytes.extend_from_slice(faulty).expect(&rt, "memory");
        gives_fault(&rt, &Stream::from(bytes), *want);
    }
}

#[test]
fn children_are_not_read(rt: HostRuntime) {
    let stream = stream_of(
        rt.alloc(),
        b"(\x01\0\0\0\0\0\0\0\0\0\0\0\0\x1f\0\0\0\0\0\0\0(\x02\0\0\0\0\0\0\0\0\0\0\0\0\x1f\0\0\0\0\0\0\0)\0\0\0\0\0\0\0\0)\0\0\0\0\0\0\0\0",
    )
    .expect(&rt, "memory");
    equal(&rt, stream.len(), 62);
    let scopes = Reader::from_start(&stream)
        .read_top_scopes(rt.alloc())
        .expect(&rt, "scopes");
    equal(&rt, scopes.len(), 1);
    equal(&rt, fault_at(&stream, 22, 53), Some(Error::PrematureEnd));
}

#[test]
fn stored_bytes_that_are_not_text(rt: HostRuntime) {
    let stream = stream_of(
        rt.alloc(),
        b"(\x01\0\0\0\0\0\0\0\0\0\0\0\x03\x61\xff\x62\0\0\0\0\0\0\0\0)\0\0\0\0\0\0\0\0",
    )
    .expect(&rt, "memory");
    let len = stream.len();
    let text = match scope_at(&stream, 0, len) {
        Ok(Some(scope)) => scope.rec.text,
        _ => "no scope",
    };
    equal(&rt, text, "a");
}
