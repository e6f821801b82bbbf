use crate::equal::equal;
use crate::merge::{Frames, begin, frame, leaf, merged, one_frame, one_scope, thread};
use puffin_data::data::Stream;
use puffin_data::{Error, Result};
use puffin_merge::merge::merge_scopes_counted;
use puffin_threads::scope_details::ScopeCollection;
use std::alloc::Global;
use tests_support::streams::end;

#[test]
fn a_total_that_does_not_fit(rt: HostRuntime) {
    let alloc = rt.alloc();
    let mut stream = Stream::new(alloc);
    leaf(&mut stream, 1, 0, i64::MAX).expect(&rt, "a scope");
    leaf(&mut stream, 1, 0, i64::MAX).expect(&rt, "a scope");
    let frames = one_frame(alloc, stream).expect(&rt, "a frame");
    assert!(rt; matches!(merged(alloc, &frames), Err(Error::TooLarge)));
}

/// The readings made until merging is refused, and the cause.
fn refused_after(alloc: Global, frames: &Frames) -> Result<(Option<Error>, u128)> {
    let collection = ScopeCollection::new(alloc);
    let mut tries = 77;
    let refused = merge_scopes_counted(
        alloc,
        &collection,
        frames.as_slice(),
        &thread(alloc)?,
        &mut tries,
    );
    Ok((refused.err(), tries))
}

#[test]
fn tries_of_refused_merges(rt: HostRuntime) {
    let alloc = rt.alloc();
    // Two frames of one scope each, then one whose third scope's sum doesn't fit, then one that isn't read.
    let mut frames = Vec::new(alloc);
    frames
        .push(one_scope(alloc, 1, 0, 10).expect(&rt, "a frame"))
        .expect(&rt, "memory");
    frames
        .push(one_scope(alloc, 1, 0, 10).expect(&rt, "a frame"))
        .expect(&rt, "memory");
    let mut stream = Stream::new(alloc);
    for stop in &[1, 2, i64::MAX, 3] {
        leaf(&mut stream, 1, 0, *stop).expect(&rt, "a scope");
    }
    frames
        .push(frame(alloc, stream).expect(&rt, "a frame"))
        .expect(&rt, "memory");
    frames
        .push(one_scope(alloc, 1, 0, 10).expect(&rt, "a frame"))
        .expect(&rt, "memory");
    equal(
        &rt,
        refused_after(alloc, &frames).expect(&rt, "a frame"),
        (Some(Error::TooLarge), 5),
    );
    // The scope at depth 1,025 is the last that is read.
    let deep = one_frame(alloc, nested(alloc, 2000).expect(&rt, "a stream")).expect(&rt, "a frame");
    equal(
        &rt,
        refused_after(alloc, &deep).expect(&rt, "a frame"),
        (Some(Error::TooDeep), 1025),
    );
}

#[test]
fn an_end_that_does_not_fit(rt: HostRuntime) {
    let alloc = rt.alloc();
    let mut stream = Stream::new(alloc);
    leaf(&mut stream, 1, 0, i64::MAX).expect(&rt, "a scope");
    let frames = one_frame(alloc, stream.clone().expect(&rt, "memory")).expect(&rt, "a frame");
    equal(&rt, merged(alloc, &frames).expect(&rt, "scopes").len(), 1);
    // The second starts at the greatest time, where the first ends, and would end after it. Both are read before.
    leaf(&mut stream, 2, 0, 1).expect(&rt, "a scope");
    let frames = one_frame(alloc, stream).expect(&rt, "a frame");
    equal(
        &rt,
        refused_after(alloc, &frames).expect(&rt, "a frame"),
        (Some(Error::TooLarge), 2),
    );
}

/// So many scopes, each in the one before.
fn nested(alloc: Global, height: usize) -> Result<Stream> {
    let mut stream = Stream::new(alloc);
    let mut offsets = Vec::new(alloc);
    for _ in 0..height {
        offsets.push(begin(&mut stream, 1, 0, "")?)?;
    }
    for offset in offsets.iter().rev() {
        end(&mut stream, *offset, 0)?;
    }
    Ok(stream)
}

#[test]
fn heights(rt: HostRuntime) {
    let alloc = rt.alloc();
    let fit = one_frame(alloc, nested(alloc, 1024).expect(&rt, "a stream")).expect(&rt, "a frame");
    equal(&rt, merged(alloc, &fit).expect(&rt, "scopes").len(), 1);
    for height in &[1025, 100_000] {
        let too_deep = one_frame(alloc, nested(alloc, *height).expect(&rt, "a stream")).expect(
            &rt, "a frame",
        );
        assert!(rt; matches!(merged(alloc, &too_deep), Err(Error::TooDeep)));
    }
}
