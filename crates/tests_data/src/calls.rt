//! Calls that the crates above make, each by itself.

use crate::equal::equal;
use crate::samples::NONE;
use puffin_data::data::{Counted, Form, Stream, StreamInfo, read_to_end, text_of, write_all};
use puffin_data::{Error, FileError};
use std::process::Abort;
use tests_support::samples::{ONE_SCOPE, THREE_SCOPES};
use tests_support::streams::stream_of;

#[test]
fn a_text_ends_before_bytes_that_are_no_utf_8(rt: HostRuntime) {
    for (stored, text) in &[(b"data".as_slice(), "data"), (b"a\xffb", "a"), (b"", "")] {
        equal(&rt, text_of(stored), *text);
    }
}

#[test]
fn each_file_error_has_a_name(rt: HostRuntime) {
    for (error, name) in &[
        (FileError::Io, "Io"),
        (FileError::UnknownKind(3), "UnknownKind"),
        (FileError::Compressed(2), "Compressed"),
        (FileError::Refused(Error::MissingId), "Refused"),
    ] {
        equal(&rt, error.name(), *name);
    }
}

#[test]
fn the_beginning_of_a_scope_fits_its_limit(rt: HostRuntime) {
    // 22 bytes stand around a text of the short form, and the length of one from 128 bytes on takes another.
    for (form, count, size) in &[
        (Form::Short, 4, 26),
        (Form::Short, 128, 149),
        (Form::Long, 4, 26),
        (Form::Long, 128, 151),
        (Form::Long, 16_384, 16_406),
    ] {
        let text = "a".repeat(rt.alloc(), *count).expect(&rt, "memory");
        let limit = form.begin_limit(text.as_str());
        assert!(rt; *size <= limit && limit < 32_768);
    }
}

#[test]
fn an_info_of_no_scope_has_its_form(rt: HostRuntime) {
    for form in &[Form::Short, Form::Long] {
        let info = StreamInfo::with_form(rt.alloc(), *form);
        equal(&rt, (info.stream.form(), info.stream.len()), (*form, 0));
        equal(&rt, (info.num_scopes, info.depth), (0, 0));
        equal(&rt, info.range_ns, NONE);
    }
}

/// Whether two infos are unlike, asked of either.
fn unlike(rt: &impl Abort, first: &StreamInfo, second: &StreamInfo, expected: bool) {
    equal(rt, first.is_unlike(&second.as_stream_into_ref()), expected);
    equal(rt, second.is_unlike(&first.as_stream_into_ref()), expected);
}

#[test]
fn only_infos_with_bytes_are_unlike(rt: HostRuntime) {
    let alloc = rt.alloc();
    let short = StreamInfo::parse(alloc, stream_of(alloc, &ONE_SCOPE).expect(&rt, "memory")).expect(
        &rt, "scopes",
    );
    let bytes = Vec::from_slice(alloc, &THREE_SCOPES).expect(&rt, "memory");
    let long = StreamInfo::parse(alloc, Stream::from_bytes(bytes, Form::Long)).expect(
        &rt, "scopes",
    );
    unlike(&rt, &short, &long, true);
    unlike(&rt, &long, &long, false);
    unlike(
        &rt,
        &short,
        &StreamInfo::with_form(alloc, Form::Long),
        false,
    );
}

#[test]
fn all_bytes_are_written_and_read(rt: HostRuntime) {
    let mut bytes = Vec::new(rt.alloc());
    equal(
        &rt,
        write_all(&mut Counted::new(&mut bytes), &THREE_SCOPES),
        Ok(()),
    );
    equal(&rt, bytes.as_slice(), THREE_SCOPES.as_slice());
    let read = read_to_end(rt.alloc(), &mut Counted::new(bytes.as_slice())).ok();
    equal(
        &rt,
        read.expect(&rt, "no fault").as_slice(),
        THREE_SCOPES.as_slice(),
    );
}
