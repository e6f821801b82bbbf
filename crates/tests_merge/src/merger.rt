use crate::equal::equal;
use crate::merge::{Frames, frame, have_numbers, leaf, merged, one_scope, thread};
use puffin_data::data::Stream;
use puffin_data::{Error, Result};
use puffin_frames::frame_data::UnpackedFrameData;
use puffin_merge::merge::{MergeScope, Merger};
use std::alloc::Global;
use std::sync::Arc;

/// A frame of two scopes, the second of which is of no other frame.
fn two_scopes(alloc: Global) -> Result<Arc<UnpackedFrameData>> {
    let mut stream = Stream::new(alloc);
    leaf(&mut stream, 1, 200, 240)?;
    leaf(&mut stream, 2, 240, 243)?;
    frame(alloc, stream)
}

/// Two frames, of which none is there any more when they are merged.
fn added<'s>(alloc: Global) -> Result<Vec<MergeScope<'s>>> {
    let thread = thread(alloc)?;
    let mut merger = Merger::new(alloc, &thread);
    let first = one_scope(alloc, 1, 100, 110)?;
    merger.add(&first)?;
    drop(first);
    let second = two_scopes(alloc)?;
    merger.add(&second)?;
    drop(second);
    merger.finish()
}

/// The same two frames.
fn two_frames(alloc: Global) -> Result<Frames> {
    let mut frames = Vec::new(alloc);
    frames.push(one_scope(alloc, 1, 100, 110)?)?;
    frames.push(two_scopes(alloc)?)?;
    Ok(frames)
}

#[test]
fn frames_are_added_one_at_a_time(rt: HostRuntime) {
    let alloc = rt.alloc();
    let frames = two_frames(alloc).expect(&rt, "frames");
    let merged = merged(alloc, &frames).expect(&rt, "scopes");
    let added = added(alloc).expect(&rt, "scopes");
    have_numbers(
        &rt,
        &added,
        &[(1, 100, 50, 25, 40, 2), (2, 140, 3, 1, 3, 1)],
    );
    equal(&rt, added.as_slice(), merged.as_slice());
}

/// A frame whose sum doesn't fit beside that of the frame before.
fn refused(alloc: Global) -> Result<Option<Error>> {
    let thread = thread(alloc)?;
    let mut merger = Merger::new(alloc, &thread);
    let frame = one_scope(alloc, 1, 0, i64::MAX)?;
    merger.add(&frame)?;
    Ok(merger.add(&frame).err())
}

#[test]
fn an_add_that_is_refused_names_its_cause(rt: HostRuntime) {
    equal(
        &rt,
        refused(rt.alloc()).expect(&rt, "a frame"),
        Some(Error::TooLarge),
    );
}
