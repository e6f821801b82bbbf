use crate::equal::equal;
use puffin_data::wire::{Cursor, put_bytes, put_i64, put_text, put_u8, put_u32, put_u64};
use std::alloc::Global;
use std::process::Abort;

/// Numbers with their spellings, at each end of each width.
const NUMBERS: [(u64, &[u8]); 9] = [
    (0, b"\x00"),
    (250, b"\xfa"),
    (251, b"\xfb\xfb\x00"),
    (300, b"\xfb\x2c\x01"),
    (65535, b"\xfb\xff\xff"),
    (65536, b"\xfc\x00\x00\x01\x00"),
    (4294967295, b"\xfc\xff\xff\xff\xff"),
    (4294967296, b"\xfd\x00\x00\x00\x00\x01\x00\x00\x00"),
    (u64::MAX, b"\xfd\xff\xff\xff\xff\xff\xff\xff\xff"),
];

const SIGNED: [(i64, &[u8]); 8] = [
    (0, b"\x00"),
    (-1, b"\x01"),
    (1, b"\x02"),
    (-2, b"\x03"),
    (100, b"\xc8"),
    (300, b"\xfb\x58\x02"),
    (i64::MAX, b"\xfd\xfe\xff\xff\xff\xff\xff\xff\xff"),
    (i64::MIN, b"\xfd\xff\xff\xff\xff\xff\xff\xff\xff"),
];

/// Details of a scope with the id 1, the name `my-scope`, the function `a` and the file `b.rs`, line 7.
const DETAILS: &[u8] = b"\x01\x01\x01\x01\x08my-scope\x01a\x04b.rs\x07";

#[test]
fn numbers_are_written_in_their_shortest_spelling(rt: HostRuntime) {
    for (n, bytes) in &NUMBERS {
        let mut out = Vec::new(rt.alloc());
        put_u64(&mut out, *n).expect(&rt, "memory");
        equal(&rt, (*n, out.as_slice()), (*n, *bytes));
        let mut cursor = Cursor::new(bytes);
        equal(&rt, (cursor.u64(), cursor.rest()), (Some(*n), 0));
    }
}

/// A number of 32 bits is written as these bytes.
fn is_written(rt: &(impl AllocGlobal + Abort), word: u32, bytes: &[u8]) {
    let mut out = Vec::new(rt.alloc());
    put_u32(&mut out, word).expect(rt, "memory");
    equal(rt, (word, out.as_slice()), (word, bytes));
}

#[test]
fn numbers_of_32_bits(rt: HostRuntime) {
    for (n, bytes) in &NUMBERS {
        let word = u32::try_from(*n).ok();
        let mut cursor = Cursor::new(bytes);
        equal(&rt, (*n, cursor.u32()), (*n, word));
        equal(&rt, cursor.rest(), if word.is_some() { 0 } else { 9 });
        if let Some(word) = word {
            is_written(&rt, word, bytes);
        }
    }
}

#[test]
fn signed_numbers(rt: HostRuntime) {
    for (z, bytes) in &SIGNED {
        let mut out = Vec::new(rt.alloc());
        put_i64(&mut out, *z).expect(&rt, "memory");
        equal(&rt, (*z, out.as_slice()), (*z, *bytes));
        let mut cursor = Cursor::new(bytes);
        equal(&rt, (cursor.i64(), cursor.rest()), (Some(*z), 0));
    }
}

#[test]
fn other_spellings_of_a_number_are_refused(rt: HostRuntime) {
    let refused: [&[u8]; 8] = [
        b"",
        b"\xfb\xfa\x00",
        b"\xfb\xfb",
        b"\xfc\xff\xff\x00\x00",
        b"\xfc\x00\x00\x01",
        b"\xfd\xff\xff\xff\xff\x00\x00\x00\x00",
        b"\xfe\x00",
        b"\xff\x00",
    ];
    for bytes in &refused {
        let mut cursor = Cursor::new(bytes);
        let numbers = (cursor.u64(), cursor.u32(), cursor.i64());
        equal(&rt, numbers, (None, None, None));
        assert!(rt; cursor.bytes().is_none() && cursor.text().is_none());
        equal(&rt, cursor.rest(), bytes.len());
    }
}

/// The details of a scope, as their kinds are written one behind the other.
fn details(alloc: Global) -> puffin_data::Result<Vec<u8>> {
    let mut out = Vec::new(alloc);
    put_u64(&mut out, 1)?;
    put_u8(&mut out, 1)?;
    put_u32(&mut out, 1)?;
    put_u8(&mut out, 1)?;
    put_text(&mut out, "my-scope")?;
    put_bytes(&mut out, b"a")?;
    put_text(&mut out, "b.rs")?;
    put_u32(&mut out, 7)?;
    Ok(out)
}

/// The same details are read.
fn are_read(rt: &impl Abort, cursor: &mut Cursor<'_>) {
    equal(rt, cursor.rest(), 21);
    let numbers = (cursor.u64(), cursor.flag(), cursor.u32(), cursor.u8());
    equal(rt, numbers, (Some(1), Some(true), Some(1), Some(1)));
    equal(rt, cursor.text(), Some("my-scope"));
    equal(rt, cursor.bytes(), Some(b"a".as_slice()));
    equal(rt, cursor.text(), Some("b.rs"));
    equal(rt, cursor.rest(), 1);
    let last = (cursor.u64(), cursor.u8(), cursor.flag());
    equal(rt, last, (Some(7), None, None));
}

#[test]
fn the_kinds_one_behind_the_other(rt: HostRuntime) {
    let out = details(rt.alloc()).expect(&rt, "memory");
    equal(&rt, out.as_slice(), DETAILS);
    are_read(&rt, &mut Cursor::new(DETAILS));
}

#[test]
fn flags_are_0_and_1(rt: HostRuntime) {
    let mut cursor = Cursor::new(b"\x00\x02");
    equal(&rt, cursor.flag(), Some(false));
    equal(&rt, cursor.flag(), None);
    equal(&rt, cursor.rest(), 1);
}

#[test]
fn bytes_that_are_not_utf8_are_no_text(rt: HostRuntime) {
    let mut cursor = Cursor::new(b"\x02a\xff\x03\xe2\x80\xa6\x04abc");
    equal(&rt, cursor.text(), None);
    equal(&rt, cursor.rest(), 11);
    equal(&rt, cursor.bytes(), Some(b"a\xff".as_slice()));
    equal(&rt, cursor.text(), Some("…"));
    assert!(rt; cursor.bytes().is_none());
    equal(&rt, cursor.rest(), 4);
}
