use crate::equal::equal;
use crate::samples::NONE;
use puffin_data::data::{Form, Stream, StreamInfo};
use puffin_data::{Error, NanoSecond, Result};
use std::alloc::Global;
use std::process::Abort;
use tests_support::samples::{ONE_SCOPE, THREE_SCOPES};
use tests_support::streams::{bytes_of, stream_of};

/// The size of an info's bytes, its counts and its range.
fn is_info(
    rt: &impl Abort,
    info: &StreamInfo,
    counts: (usize, usize, usize),
    range_ns: (NanoSecond, NanoSecond),
) {
    let found = (info.stream.len(), info.num_scopes, info.depth);
    assert!(rt; found == counts && info.range_ns == range_ns);
}

/// The info of one scope, extended by that of three.
fn extended(alloc: Global) -> Result<StreamInfo> {
    let mut info = StreamInfo::parse(alloc, stream_of(alloc, &ONE_SCOPE)?)?;
    let other = StreamInfo::parse(alloc, stream_of(alloc, &THREE_SCOPES)?)?;
    info.extend(&other.as_stream_into_ref())?;
    Ok(info)
}

#[test]
fn a_borrowed_info_says_the_same(rt: HostRuntime) {
    let other = StreamInfo::parse(
        rt.alloc(),
        stream_of(rt.alloc(), &THREE_SCOPES).expect(&rt, "memory"),
    )
    .expect(&rt, "scopes");
    let borrowed = other.as_stream_into_ref();
    assert!(rt; borrowed.stream == THREE_SCOPES.as_slice());
    assert!(rt; (borrowed.num_scopes, borrowed.depth) == (3, 2));
    assert!(rt; borrowed.range_ns == (100, 400));
}

#[test]
fn an_info_is_extended_by_another(rt: HostRuntime) {
    let info = extended(rt.alloc()).expect(&rt, "scopes");
    is_info(&rt, &info, (162, 4, 2), (100, 400));
}

#[test]
fn a_copy_stays_when_an_info_is_cleared(rt: HostRuntime) {
    let mut info = extended(rt.alloc()).expect(&rt, "scopes");
    let copy = info.clone().expect(&rt, "memory");
    info.clear();
    is_info(&rt, &info, (0, 0, 0), NONE);
    is_info(&rt, &copy, (162, 4, 2), (100, 400));
    let both = bytes_of(rt.alloc(), &[&ONE_SCOPE, &THREE_SCOPES]).expect(&rt, "memory");
    equal(&rt, copy.stream.bytes(), both.as_slice());
}

/// What extending one scope by itself returns, in a stream that may hold this number of bytes, and the bytes after that.
fn doubled(alloc: Global, max_bytes: usize) -> Result<(Result<()>, usize)> {
    let mut info = StreamInfo::parse(alloc, stream_of(alloc, &ONE_SCOPE)?)?;
    let other = info.clone()?;
    info.stream.set_max_bytes(max_bytes);
    let extended = info.extend(&other.as_stream_into_ref());
    Ok((extended, info.stream.len()))
}

#[test]
fn an_info_is_not_extended_above_its_limit(rt: HostRuntime) {
    for (max_bytes, expected) in &[(70, (Ok(()), 70)), (69, (Err(Error::Memory), 35))] {
        equal(
            &rt,
            doubled(rt.alloc(), *max_bytes).expect(&rt, "scopes"),
            *expected,
        );
    }
}

/// The info of one scope in the long form. Its text is short, so its bytes are those of the short form.
fn long_one(alloc: Global) -> Result<StreamInfo> {
    let bytes = Vec::from_slice(alloc, &ONE_SCOPE)?;
    StreamInfo::parse(alloc, Stream::from_bytes(bytes, Form::Long))
}

#[test]
fn unlike_forms_are_not_joined(rt: HostRuntime) {
    let mut info = StreamInfo::parse(
        rt.alloc(),
        stream_of(rt.alloc(), &THREE_SCOPES).expect(&rt, "memory"),
    )
    .expect(&rt, "scopes");
    let long = long_one(rt.alloc()).expect(&rt, "scopes");
    equal(
        &rt,
        info.extend(&long.as_stream_into_ref()),
        Err(Error::UnlikeForms),
    );
    is_info(&rt, &info, (127, 3, 2), (100, 400));
}

/// Extends an info by another. Returns the form that it has then.
fn form_with(info: &mut StreamInfo, other: Result<StreamInfo>) -> Result<Form> {
    let other = other?;
    info.extend(&other.as_stream_into_ref())?;
    Ok(info.stream.form())
}

#[test]
fn an_info_without_bytes_takes_the_other_s_form(rt: HostRuntime) {
    let mut info = StreamInfo::new(rt.alloc());
    let long = long_one(rt.alloc());
    equal(&rt, form_with(&mut info, long), Ok(Form::Long));
    let none = Ok(StreamInfo::new(rt.alloc()));
    equal(&rt, form_with(&mut info, none), Ok(Form::Long));
    is_info(&rt, &info, (35, 1, 1), (100, 300));
}
