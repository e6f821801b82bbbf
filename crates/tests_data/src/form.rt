use crate::equal::equal;
use puffin_data::data::{Form, Reader, Stream};
use puffin_data::{Error, Result};
use std::alloc::Global;
use tests_support::streams::{end, id};

/// A scope of id 1 from 100 to 300 whose text is so many letters and then one character, and its offset.
pub(crate) fn lettered(
    alloc: Global,
    form: Form,
    count: usize,
    last: char,
) -> Result<(usize, Stream)> {
    let mut text = "a".repeat(alloc, count)?;
    text.push(last)?;
    let mut stream = Stream::with_form(alloc, form);
    let offset = stream.begin_scope_at(100, id(1)?, text.as_str())?;
    end(&mut stream, offset, 300)?;
    Ok((offset, stream))
}

/// How many bytes a stream has, and the two from the place of a text's length on.
fn length_bytes(stream: &Stream) -> (usize, Option<&[u8]>) {
    (stream.len(), stream.bytes().get(13..15))
}

/// How many scopes a walk over bytes of the long form counts, or its fault.
fn walked(alloc: Global, bytes: &[u8]) -> Result<usize> {
    let stream = Stream::from_bytes(Vec::from_slice(alloc, bytes)?, Form::Long);
    let mut tries = 0;
    Ok(Reader::walk(alloc, &stream, &mut tries)?.num_scopes)
}

#[test]
fn texts_of_128_letters_in_both_forms(rt: HostRuntime) {
    let (offset, long) = lettered(rt.alloc(), Form::Long, 127, 'a').expect(&rt, "memory");
    equal(&rt, offset, 143);
    equal(
        &rt,
        length_bytes(&long),
        (160, Some(b"\x80\x01".as_slice())),
    );
    equal(&rt, walked(rt.alloc(), long.bytes()), Ok(1));
    let (_, short) = lettered(rt.alloc(), Form::Short, 127, 'a').expect(&rt, "memory");
    equal(&rt, length_bytes(&short), (158, Some(b"\x7fa".as_slice())));
}

#[test]
fn a_long_text_is_whole_or_cut_at_16383(rt: HostRuntime) {
    let (_, whole) = lettered(rt.alloc(), Form::Long, 126, 'é').expect(&rt, "memory");
    equal(
        &rt,
        length_bytes(&whole),
        (160, Some(b"\x80\x01".as_slice())),
    );
    let (_, cut) = lettered(rt.alloc(), Form::Long, 16383, 'a').expect(&rt, "memory");
    equal(
        &rt,
        length_bytes(&cut),
        (16415, Some(b"\xff\x7f".as_slice())),
    );
    equal(&rt, walked(rt.alloc(), cut.bytes()), Ok(1));
}

/// What a walk over so many of a stream's bytes comes to, where a text's length is written in these two groups.
fn walked_with(alloc: Global, stream: &Stream, groups: (u8, u8), size: usize) -> Result<usize> {
    let mut bytes = Vec::from_slice(alloc, stream.bytes())?;
    for (place, byte) in &[(13, groups.0), (14, groups.1)] {
        if let Some(at) = bytes.get_mut(*place) {
            *at = *byte;
        }
    }
    bytes.truncate(size);
    walked(alloc, bytes.as_slice())
}

#[test]
fn only_the_shortest_length_is_read(rt: HostRuntime) {
    let (_, stream) = lettered(rt.alloc(), Form::Long, 127, 'a').expect(&rt, "memory");
    for (groups, size, expected) in &[
        ((0x80, 0), 160, Err(Error::InvalidStream)),
        ((0x80, 0x80), 160, Err(Error::InvalidStream)),
        ((0xff, 0x80), 160, Err(Error::InvalidStream)),
        ((0x80, 1), 160, Ok(1)),
        // The length is read before the text and the size.
        ((0x80, 0), 15, Err(Error::InvalidStream)),
        ((0x80, 0x80), 15, Err(Error::InvalidStream)),
        ((0x80, 1), 15, Err(Error::PrematureEnd)),
        ((0x80, 1), 14, Err(Error::PrematureEnd)),
        ((0x80, 1), 142, Err(Error::PrematureEnd)),
    ] {
        equal(
            &rt,
            walked_with(rt.alloc(), &stream, *groups, *size),
            *expected,
        );
    }
}

#[test]
fn a_copy_and_a_cleared_stream_keep_the_form(rt: HostRuntime) {
    equal(&rt, Stream::new(rt.alloc()).form(), Form::Short);
    equal(&rt, Stream::from(Vec::new(rt.alloc())).form(), Form::Short);
    let (_, mut stream) = lettered(rt.alloc(), Form::Long, 0, 'a').expect(&rt, "memory");
    equal(&rt, stream.clone().expect(&rt, "memory").form(), Form::Long);
    stream.clear();
    equal(&rt, (stream.form(), stream.len()), (Form::Long, 0));
}
