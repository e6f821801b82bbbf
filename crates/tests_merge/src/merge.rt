use crate::equal::equal;
use puffin_data::data::{Counted, Stream, StreamInfo};
use puffin_data::{FileError, NanoSecond, Result};
use puffin_frames::frame_data::{FrameData, UnpackedFrameData};
use puffin_merge::merge::{MergeScope, merge_scopes_counted, merge_scopes_for_thread};
use puffin_threads::scope_details::ScopeCollection;
use puffin_threads::thread_profiler::ThreadInfo;
use puffin_view::profile_view::FrameView;
use std::alloc::Global;
use std::process::Abort;
use std::sync::Arc;
use tests_support::frames::{one_stream, packet_thread};
use tests_support::samples::ONE_SCOPE;
use tests_support::streams::{end, id, stream_of};
use tests_support::threads::thread_info;

pub(crate) type Frames = Vec<Arc<UnpackedFrameData>>;

/// Id, start, total, per frame, greatest, pieces.
pub(crate) type Numbers = (u32, NanoSecond, NanoSecond, NanoSecond, NanoSecond, usize);

/// Begins a scope, and returns where its size stands.
pub(crate) fn begin(
    stream: &mut Stream,
    number: u32,
    start: NanoSecond,
    text: &str,
) -> Result<usize> {
    stream.begin_scope_at(start, id(number)?, text)
}

pub(crate) fn leaf(
    stream: &mut Stream,
    id: u32,
    start: NanoSecond,
    stop: NanoSecond,
) -> Result<()> {
    let offset = begin(stream, id, start, "")?;
    end(stream, offset, stop)
}

pub(crate) fn thread(alloc: Global) -> Result<ThreadInfo> {
    thread_info(alloc, Some(0), "main")
}

/// A frame of one thread.
fn frame_of(alloc: Global, thread: ThreadInfo, stream: Stream) -> Result<Arc<UnpackedFrameData>> {
    let streams = one_stream(alloc, thread, StreamInfo::parse(alloc, stream)?)?;
    Ok(Arc::new(alloc, UnpackedFrameData::new(alloc, 0, streams)?)?)
}

pub(crate) fn frame(alloc: Global, stream: Stream) -> Result<Arc<UnpackedFrameData>> {
    frame_of(alloc, thread(alloc)?, stream)
}

/// A frame of one scope.
pub(crate) fn one_scope(
    alloc: Global,
    id: u32,
    start: NanoSecond,
    stop: NanoSecond,
) -> Result<Arc<UnpackedFrameData>> {
    let mut stream = Stream::new(alloc);
    leaf(&mut stream, id, start, stop)?;
    frame(alloc, stream)
}

pub(crate) fn one_frame(alloc: Global, stream: Stream) -> Result<Frames> {
    let mut frames = Vec::new(alloc);
    frames.push(frame(alloc, stream)?)?;
    Ok(frames)
}

pub(crate) fn merged<'s>(alloc: Global, frames: &'s Frames) -> Result<Vec<MergeScope<'s>>> {
    let collection = ScopeCollection::new(alloc);
    merge_scopes_for_thread(alloc, &collection, frames.as_slice(), &thread(alloc)?)
}

fn numbers(scope: &MergeScope) -> Numbers {
    (
        scope.id.get(),
        scope.relative_start_ns,
        scope.total_duration_ns,
        scope.duration_per_frame_ns,
        scope.max_duration_ns,
        scope.num_pieces,
    )
}

/// The numbers of three levels, parents before children.
fn all_numbers(alloc: Global, merged: &[MergeScope]) -> Result<Vec<Numbers>> {
    let mut seen = Vec::new(alloc);
    for top in merged {
        seen.push(numbers(top))?;
        for child in &top.children {
            seen.push(numbers(child))?;
            for grandchild in &child.children {
                seen.push(numbers(grandchild))?;
            }
        }
    }
    Ok(seen)
}

/// The merged scopes have these numbers.
pub(crate) fn have_numbers(
    rt: &(impl AllocGlobal + Abort),
    merged: &[MergeScope],
    numbers: &[Numbers],
) {
    let found = all_numbers(rt.alloc(), merged).expect(rt, "memory");
    equal(rt, found.as_slice(), numbers);
}

/// Appends a scope that begins at `n + 100`, and one with two children, of which the second has a child.
fn append(stream: &mut Stream, n: u32) -> Result<()> {
    let n = NanoSecond::from(n);
    leaf(stream, 1, n + 100, n + 200)?;
    let two = begin(stream, 2, n + 200, "")?;
    leaf(stream, 3, n + 400, n + 600)?;
    let four = begin(stream, 4, n + 600, "")?;
    leaf(stream, 5, n + 600, n + 700)?;
    end(stream, four, n + 800)?;
    end(stream, two, n + 900)
}

#[test]
fn scopes_within_scopes(rt: HostRuntime) {
    let alloc = rt.alloc();
    let mut stream = Stream::new(alloc);
    append(&mut stream, 0).expect(&rt, "scopes");
    append(&mut stream, 1000).expect(&rt, "scopes");
    let frames = one_frame(alloc, stream).expect(&rt, "a frame");
    let merged = merged(alloc, &frames).expect(&rt, "scopes");
    have_numbers(
        &rt,
        &merged,
        &[
            (1, 100, 200, 200, 100, 2),
            (2, 300, 1400, 1400, 700, 2),
            (3, 200, 400, 400, 200, 2),
            (4, 600, 400, 400, 200, 2),
            (5, 0, 200, 200, 100, 2),
        ],
    );
}

fn merge_of_three(alloc: Global, ranges: [(NanoSecond, NanoSecond); 3]) -> Result<Option<Numbers>> {
    let mut frames = Vec::new(alloc);
    for (start, stop) in ranges {
        frames.push(one_scope(alloc, 1, start, stop)?)?;
    }
    Ok(match merged(alloc, &frames)?.first() {
        Some(scope) => Some(numbers(scope)),
        None => None,
    })
}

#[test]
fn frames_in_any_order(rt: HostRuntime) {
    let alloc = rt.alloc();
    let first = (100, 300);
    let second = (1100, 1300);
    let third = (2100, 2110);
    let first_ahead = Some((1, 100, 410, 136, 200, 3));
    equal(
        &rt,
        merge_of_three(alloc, [first, second, third]).expect(&rt, "scopes"),
        first_ahead,
    );
    equal(
        &rt,
        merge_of_three(alloc, [first, third, second]).expect(&rt, "scopes"),
        first_ahead,
    );
    let third_ahead = Some((1, 2100, 410, 136, 200, 3));
    equal(
        &rt,
        merge_of_three(alloc, [third, first, second]).expect(&rt, "scopes"),
        third_ahead,
    );
    equal(
        &rt,
        merge_of_three(alloc, [third, second, first]).expect(&rt, "scopes"),
        third_ahead,
    );
}

#[test]
fn a_child_that_starts_before_its_parent(rt: HostRuntime) {
    let alloc = rt.alloc();
    let mut stream = Stream::new(alloc);
    let parent = begin(&mut stream, 1, 100, "").expect(&rt, "a scope");
    leaf(&mut stream, 2, 95, 150).expect(&rt, "a scope");
    end(&mut stream, parent, 200).expect(&rt, "a scope");
    let frames = one_frame(alloc, stream).expect(&rt, "a frame");
    let merged = merged(alloc, &frames).expect(&rt, "scopes");
    have_numbers(
        &rt,
        &merged,
        &[(1, 100, 100, 100, 100, 1), (2, 0, 55, 55, 55, 1)],
    );
}

#[test]
fn a_scope_of_one_of_two_frames(rt: HostRuntime) {
    let alloc = rt.alloc();
    let mut frames = Vec::new(alloc);
    frames
        .push(one_scope(alloc, 1, 10, 15).expect(&rt, "a frame"))
        .expect(&rt, "memory");
    frames
        .push(one_scope(alloc, 2, 100, 101).expect(&rt, "a frame"))
        .expect(&rt, "memory");
    let merged = merged(alloc, &frames).expect(&rt, "scopes");
    have_numbers(&rt, &merged, &[(1, 10, 5, 2, 5, 1), (2, 12, 1, 0, 1, 1)]);
}

#[test]
fn a_frame_without_the_thread_counts(rt: HostRuntime) {
    let alloc = rt.alloc();
    let mut frames = Vec::new(alloc);
    frames
        .push(one_scope(alloc, 1, 10, 15).expect(&rt, "a frame"))
        .expect(&rt, "memory");
    let other = thread_info(alloc, None, "main").expect(&rt, "memory");
    let mut stream = Stream::new(alloc);
    leaf(&mut stream, 1, 100, 101).expect(&rt, "a scope");
    frames
        .push(frame_of(alloc, other, stream).expect(&rt, "a frame"))
        .expect(&rt, "memory");
    let merged = merged(alloc, &frames).expect(&rt, "scopes");
    have_numbers(&rt, &merged, &[(1, 10, 5, 2, 5, 1)]);
}

#[test]
fn no_frames_and_no_stream(rt: HostRuntime) {
    let alloc = rt.alloc();
    let none = Vec::new(alloc);
    equal(&rt, merged(alloc, &none).expect(&rt, "scopes").len(), 0);
    let mut frames = Vec::new(alloc);
    frames
        .push(one_scope(alloc, 1, 10, 15).expect(&rt, "a frame"))
        .expect(&rt, "memory");
    let other = thread_info(alloc, None, "main").expect(&rt, "memory");
    let collection = ScopeCollection::new(alloc);
    let mut tries = 7;
    equal(
        &rt,
        merge_scopes_counted(alloc, &collection, frames.as_slice(), &other, &mut tries)
            .expect(&rt, "scopes")
            .len(),
        0,
    );
    equal(&rt, tries, 0);
}

/// Two merged scopes, the second of two pieces, are told apart by their texts.
fn are_apart(rt: &impl Abort, merged: &[MergeScope]) {
    equal(rt, merged.len(), 2);
    let first = merged.first().expect(rt, "a scope");
    let second = merged.last().expect(rt, "a scope");
    equal(rt, (first.text.as_str(), second.text.as_str()), ("a", "b"));
    equal(rt, numbers(second), (1, 4, 2, 2, 1, 2));
}

#[test]
fn texts_and_ids_tell_siblings_apart(rt: HostRuntime) {
    let alloc = rt.alloc();
    let mut stream = Stream::new(alloc);
    for text in &["b", "a", "b"] {
        let offset = begin(&mut stream, 1, 3, text).expect(&rt, "a scope");
        end(&mut stream, offset, 4).expect(&rt, "a scope");
    }
    let frames = one_frame(alloc, stream).expect(&rt, "a frame");
    are_apart(&rt, &merged(alloc, &frames).expect(&rt, "scopes"));
}

/// Three frames of the same scope with a text.
fn three(alloc: Global) -> Result<Frames> {
    let mut frames = Vec::new(alloc);
    for _ in 0..3 {
        frames.push(frame(alloc, stream_of(alloc, &ONE_SCOPE)?)?)?;
    }
    Ok(frames)
}

/// How many readings merging these frames may make: for each stream one for each 31 bytes, and one.
fn most_tries(frames: &Frames) -> u128 {
    let mut most = 0u128;
    for frame in frames {
        most = most.wrapping_add(frame.meta.num_bytes as u128 / 31 + 1);
    }
    most
}

#[test]
fn tries_are_counted(rt: HostRuntime) {
    let alloc = rt.alloc();
    let frames = three(alloc).expect(&rt, "frames");
    let thread = thread(alloc).expect(&rt, "memory");
    let collection = ScopeCollection::new(alloc);
    let mut tries = 0;
    let merged = merge_scopes_counted(alloc, &collection, &frames, &thread, &mut tries);
    equal(&rt, merged.expect(&rt, "scopes").len(), 1);
    equal(&rt, (tries, most_tries(&frames)), (3, 6));
}

/// A scope's copy is equal to it, and so is what it owns of its texts.
fn is_copied(rt: &(impl AllocGlobal + Abort), scope: MergeScope) {
    let copy = scope.clone().expect(rt, "memory");
    equal(rt, &copy, &scope);
    let owned = scope.into_owned(rt.alloc()).expect(rt, "memory");
    equal(rt, owned.text.as_str(), "outer");
    equal(rt, numbers(&owned), numbers(&copy));
    equal(rt, owned.children.len(), 1);
}

#[test]
fn copies(rt: HostRuntime) {
    let alloc = rt.alloc();
    let mut stream = Stream::new(alloc);
    let parent = begin(&mut stream, 1, 100, "outer").expect(&rt, "a scope");
    leaf(&mut stream, 2, 120, 150).expect(&rt, "a scope");
    end(&mut stream, parent, 200).expect(&rt, "a scope");
    let frames = one_frame(alloc, stream).expect(&rt, "a frame");
    let merged = merged(alloc, &frames).expect(&rt, "scopes");
    equal(&rt, merged.len(), 1);
    for scope in merged {
        is_copied(&rt, scope);
    }
}

/// The file that the Rust crate writes of three frames of the thread `main`, whose first scope starts at 100. They have
/// scopes with ids 1 to 4, some with the text `a` or `b`. The numbers in the test are those of that crate's merge.
const FILE: [u8; 477] = [
    80, 85, 70, 48, 80, 70, 68, 52, 7, 0, 0, 0, 0, 200, 251, 204, 1, 126, 4, 141, 0, 0, 0, 0, 1, 1,
    200, 4, 109, 97, 105, 110, 126, 40, 1, 0, 0, 0, 100, 0, 0, 0, 0, 0, 0, 0, 0, 64, 0, 0, 0, 0, 0,
    0, 0, 40, 2, 0, 0, 0, 110, 0, 0, 0, 0, 0, 0, 0, 1, 97, 0, 0, 0, 0, 0, 0, 0, 0, 41, 150, 0, 0,
    0, 0, 0, 0, 0, 40, 2, 0, 0, 0, 150, 0, 0, 0, 0, 0, 0, 0, 1, 98, 0, 0, 0, 0, 0, 0, 0, 0, 41,
    170, 0, 0, 0, 0, 0, 0, 0, 41, 200, 0, 0, 0, 0, 0, 0, 0, 40, 3, 0, 0, 0, 200, 0, 0, 0, 0, 0, 0,
    0, 0, 0, 0, 0, 0, 0, 0, 0, 0, 41, 230, 0, 0, 0, 0, 0, 0, 0, 4, 2, 200, 251, 204, 1, 1, 0, 0, 0,
    0, 80, 70, 68, 52, 9, 0, 0, 0, 1, 251, 208, 7, 251, 214, 8, 125, 4, 142, 0, 0, 0, 0, 1, 1, 200,
    4, 109, 97, 105, 110, 125, 40, 1, 0, 0, 0, 232, 3, 0, 0, 0, 0, 0, 0, 0, 63, 0, 0, 0, 0, 0, 0,
    0, 40, 2, 0, 0, 0, 252, 3, 0, 0, 0, 0, 0, 0, 1, 98, 31, 0, 0, 0, 0, 0, 0, 0, 40, 4, 0, 0, 0, 1,
    4, 0, 0, 0, 0, 0, 0, 0, 0, 0, 0, 0, 0, 0, 0, 0, 41, 6, 4, 0, 0, 0, 0, 0, 0, 41, 17, 4, 0, 0, 0,
    0, 0, 0, 41, 76, 4, 0, 0, 0, 0, 0, 0, 40, 3, 0, 0, 0, 66, 4, 0, 0, 0, 0, 0, 0, 0, 0, 0, 0, 0,
    0, 0, 0, 0, 41, 107, 4, 0, 0, 0, 0, 0, 0, 4, 3, 251, 208, 7, 251, 214, 8, 1, 0, 0, 0, 0, 80,
    70, 68, 52, 9, 0, 0, 0, 2, 251, 160, 15, 251, 4, 16, 94, 3, 111, 0, 0, 0, 0, 1, 1, 200, 4, 109,
    97, 105, 110, 94, 40, 3, 0, 0, 0, 208, 7, 0, 0, 0, 0, 0, 0, 0, 0, 0, 0, 0, 0, 0, 0, 0, 41, 218,
    7, 0, 0, 0, 0, 0, 0, 40, 1, 0, 0, 0, 218, 7, 0, 0, 0, 0, 0, 0, 0, 32, 0, 0, 0, 0, 0, 0, 0, 40,
    2, 0, 0, 0, 238, 7, 0, 0, 0, 0, 0, 0, 1, 97, 0, 0, 0, 0, 0, 0, 0, 0, 41, 239, 7, 0, 0, 0, 0, 0,
    0, 41, 2, 8, 0, 0, 0, 0, 0, 0, 3, 2, 251, 160, 15, 251, 4, 16, 1, 0, 0, 0, 0,
];

/// The streams of a frame, unpacked.
fn unpacked(frame: &FrameData) -> std::result::Result<Arc<UnpackedFrameData>, FileError> {
    match frame.packed_copy() {
        Ok(mut copy) => copy.unpacked(),
        Err(_) => Err(FileError::Memory),
    }
}

/// The frames of a view, unpacked.
fn frames_of(alloc: Global, view: &FrameView) -> std::result::Result<Frames, FileError> {
    let mut frames = Vec::new(alloc);
    for frame in view.all_uniq() {
        frames.push(unpacked(frame)?)?;
    }
    Ok(frames)
}

/// The frames of the file.
fn frames_of_file(alloc: Global) -> std::result::Result<Frames, FileError> {
    let view = FrameView::read(alloc, &mut Counted::new(&FILE[..]))?;
    frames_of(alloc, &view)
}

/// The first scope has two children, with the texts `a` and `b`.
fn has_two_children(rt: &impl Abort, merged: &[MergeScope]) {
    let children = &merged.first().expect(rt, "a scope").children;
    let first = children.first().expect(rt, "a child");
    let second = children.last().expect(rt, "a child");
    equal(rt, children.len(), 2);
    equal(rt, (first.text.as_str(), second.text.as_str()), ("a", "b"));
}

#[test]
fn a_file_of_the_rust_crate(rt: HostRuntime) {
    let alloc = rt.alloc();
    let info = packet_thread(alloc).expect(&rt, "memory");
    let frames = frames_of_file(alloc).ok().expect(&rt, "no fault");
    let collection = ScopeCollection::new(alloc);
    let merged = merge_scopes_for_thread(alloc, &collection, frames.as_slice(), &info).expect(
        &rt, "scopes",
    );
    have_numbers(
        &rt,
        &merged,
        &[
            (1, 100, 240, 80, 100, 3),
            (2, 10, 41, 13, 40, 2),
            (2, 23, 41, 13, 21, 2),
            (4, 5, 5, 1, 5, 1),
            (3, 180, 81, 27, 41, 3),
        ],
    );
    has_two_children(&rt, &merged);
}
