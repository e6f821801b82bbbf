use puffin_data::data::{Stream, StreamInfo};
use puffin_data::{Error, NanoSecond, Result};
use puffin_frames::frame_data::{FrameData, FrameIndex};
use puffin_threads::scope_details::ScopeDetails;
use puffin_view::profile_view::{FrameStats, FrameView, select_slowest};
use puffin_view::thread_totals::AllTotals;
use std::borrow::CowStr;
use std::process::Abort;
use std::sync::Arc;
use tests_support::frames::{one_stream, packet_frame};
use tests_support::streams::bytes_of;
use tests_support::threads::{named, thread_info};

/// One scope without a text, as long as is asked, in the stream of the thread `main`, whose start isn't known.
fn frame(
    rt: &(impl AllocGlobal + Abort),
    index: FrameIndex,
    duration: NanoSecond,
) -> Arc<FrameData> {
    telling_frame(rt, index, duration, Vec::new(rt.alloc()))
}

/// The same, with details that it tells.
fn telling_frame(
    rt: &(impl AllocGlobal + Abort),
    index: FrameIndex,
    duration: NanoSecond,
    details: Vec<Arc<ScopeDetails>>,
) -> Arc<FrameData> {
    let alloc = rt.alloc();
    let front = b"(\x01\0\0\0\0\0\0\0\0\0\0\0\0\0\0\0\0\0\0\0\0)";
    let bytes = bytes_of(alloc, &[front, &duration.to_le_bytes()]).expect(rt, "memory");
    let info = StreamInfo::parse(alloc, Stream::from(bytes)).expect(rt, "a scope");
    let thread = thread_info(alloc, None, "main").expect(rt, "memory");
    let streams = one_stream(alloc, thread, info).expect(rt, "memory");
    let frame = FrameData::new(alloc, index, streams, details, false).expect(rt, "a frame");
    Arc::new(alloc, frame).expect(rt, "memory")
}

/// Adds a frame of one scope without a text to a view.
fn add(
    rt: &(impl AllocGlobal + Abort),
    view: &mut FrameView,
    index: FrameIndex,
    duration: NanoSecond,
) {
    view.add_frame(frame(rt, index, duration))
        .expect(rt, "a frame");
}

/// One scope of 35 bytes with a text, of a thread whose start is known. Packed, its stream has 50 bytes.
fn known_frame(rt: &(impl AllocGlobal + Abort), index: FrameIndex) -> Arc<FrameData> {
    let frame = packet_frame(rt.alloc(), index).expect(rt, "a frame");
    Arc::new(rt.alloc(), frame).expect(rt, "memory")
}

/// The indices of the recent frames.
fn recent(rt: &(impl AllocGlobal + Abort), view: &FrameView) -> Vec<FrameIndex> {
    let mut all = Vec::new(rt.alloc());
    for frame in view.recent_frames() {
        all.push(frame.frame_index()).expect(rt, "memory");
    }
    all
}

/// The indices of the slowest frames.
fn slowest(rt: &(impl AllocGlobal + Abort), view: &FrameView) -> Vec<FrameIndex> {
    let mut all = Vec::new(rt.alloc());
    for frame in view.slowest_frames_chronological() {
        all.push(frame.frame_index()).expect(rt, "memory");
    }
    all
}

/// The indices of all frames.
fn all(rt: &(impl AllocGlobal + Abort), view: &FrameView) -> Vec<FrameIndex> {
    let mut all = Vec::new(rt.alloc());
    for frame in view.all_uniq() {
        all.push(frame.frame_index()).expect(rt, "memory");
    }
    all
}

/// The recent frames have these indices.
fn are_recent(rt: &(impl AllocGlobal + Abort), view: &FrameView, indices: &[FrameIndex]) {
    let found = recent(rt, view);
    assert!(rt; found.as_slice() == indices);
}

/// The slowest frames have these indices.
fn are_slowest(rt: &(impl AllocGlobal + Abort), view: &FrameView, indices: &[FrameIndex]) {
    let found = slowest(rt, view);
    assert!(rt; found.as_slice() == indices);
}

/// All frames have these indices.
fn are_all(rt: &(impl AllocGlobal + Abort), view: &FrameView, indices: &[FrameIndex]) {
    let found = all(rt, view);
    assert!(rt; found.as_slice() == indices);
}

/// A view with these limits that took frames of these durations, from index 0 on.
fn view(
    rt: &(impl AllocGlobal + Abort),
    max_recent: usize,
    max_slow: usize,
    durations: &[NanoSecond],
) -> FrameView {
    let mut view = FrameView::new(rt.alloc());
    view.set_max_recent(max_recent);
    view.set_max_slow(max_slow);
    for index in 0..durations.len() {
        add(rt, &mut view, index as u64, durations[index]);
    }
    view
}

/// How many frames a view holds, how many of them unpacked, and in how many bytes.
fn numbers(stats: FrameStats) -> (usize, usize, usize) {
    (
        stats.frames(),
        stats.unpacked_frames(),
        stats.bytes_of_ram_used(),
    )
}

#[test]
fn a_packed_frame_counts_its_packed_bytes(rt: HostRuntime) {
    let mut frames = FrameView::new(rt.alloc());
    frames.add_frame(known_frame(&rt, 0)).expect(&rt, "a frame");
    assert!(rt; numbers(frames.stats()) == (1, 1, 35));
    frames.add_frame(known_frame(&rt, 1)).expect(&rt, "a frame");
    assert!(rt; numbers(frames.stats()) == (2, 1, 85));
    assert!(rt; numbers(frames.stats_full()) == (2, 1, 85));
}

#[test]
fn ties_stay_with_the_earlier(rt: HostRuntime) {
    are_slowest(&rt, &view(&rt, 1000, 2, &[10, 10, 10]), &[0, 1]);
    are_slowest(&rt, &view(&rt, 1000, 2, &[5, 9, 7, 9]), &[1, 3]);
}

#[test]
fn an_index_that_does_not_rise_empties_the_view(rt: HostRuntime) {
    let mut frames = FrameView::new(rt.alloc());
    for index in &[5, 6, 6] {
        add(&rt, &mut frames, *index, 1);
    }
    are_all(&rt, &frames, &[6]);
    // The index of a frame that emptied the view is the last one taken.
    for index in &[3, 2] {
        add(&rt, &mut frames, *index, 1);
        are_all(&rt, &frames, &[*index]);
    }
}

#[test]
fn a_view_of_slow_frames_alone_is_emptied_too(rt: HostRuntime) {
    let mut frames = FrameView::new(rt.alloc());
    frames.set_max_recent(0);
    add(&rt, &mut frames, 3, 1);
    add(&rt, &mut frames, 0, 1);
    are_slowest(&rt, &frames, &[0]);
    are_recent(&rt, &frames, &[]);
    assert!(rt; frames.latest_frame().is_none());
}

#[test]
fn a_frame_that_is_recent_and_slow_is_held_once(rt: HostRuntime) {
    let mut frames = view(&rt, 2, 1, &[9, 1, 2, 3]);
    are_all(&rt, &frames, &[0, 2, 3]);
    assert!(rt; frames.stats().frames() == 3);
    frames.clear_slowest();
    are_all(&rt, &frames, &[2, 3]);
    assert!(rt; frames.stats().frames() == 2);
    are_slowest(&rt, &frames, &[]);
}

#[test]
fn a_limit_of_recent_frames_holds_from_the_next_on(rt: HostRuntime) {
    let mut frames = view(&rt, 1000, 256, &[1, 1, 1]);
    frames.set_max_recent(1);
    assert!(rt; frames.max_recent() == 1);
    are_recent(&rt, &frames, &[0, 1, 2]);
    add(&rt, &mut frames, 3, 1);
    are_recent(&rt, &frames, &[3]);
}

/// Two frames are the slowest, of which there may be one from now on.
fn with_fewer_slow(rt: &(impl AllocGlobal + Abort)) -> FrameView {
    let mut slow = view(rt, 1000, 2, &[9, 7]);
    slow.set_max_slow(1);
    slow
}

#[test]
fn a_limit_of_slow_frames_holds_from_the_next_slow_one_on(rt: HostRuntime) {
    let mut slow = with_fewer_slow(&rt);
    assert!(rt; slow.max_slow() == 1);
    are_slowest(&rt, &slow, &[0, 1]);
    add(&rt, &mut slow, 2, 8);
    are_slowest(&rt, &slow, &[0]);
}

#[test]
fn a_limit_of_slow_frames_waits_for_a_slow_one(rt: HostRuntime) {
    let mut slow = with_fewer_slow(&rt).clone().expect(&rt, "memory");
    add(&rt, &mut slow, 2, 5);
    are_slowest(&rt, &slow, &[0, 1]);
}

#[test]
fn with_the_limit_0_no_frame_is_slow(rt: HostRuntime) {
    let mut none = view(&rt, 1000, 1, &[9]);
    none.set_max_slow(0);
    add(&rt, &mut none, 1, 10);
    are_slowest(&rt, &none, &[]);
}

/// The last so many recent frames have these indices.
fn are_latest(view: &FrameView, count: usize, indices: &[FrameIndex]) -> bool {
    let mut rest = indices.iter();
    for frame in view.latest_frames(count) {
        if rest.next() != Some(&frame.frame_index()) {
            return false;
        }
    }
    rest.next().is_none()
}

/// A view of three frames gives no, one, two or all of them as the latest. It packs frames, and knows no scope.
fn has_three(rt: &impl Abort, frames: &FrameView) {
    for (count, indices) in &[(0, [].as_slice()), (1, &[2]), (2, &[1, 2]), (4, &[0, 1, 2])] {
        assert!(rt; are_latest(frames, *count, indices));
    }
    assert!(rt; frames.pack_frames() && !frames.is_empty());
    assert!(rt; frames.scope_collection().scopes_by_id().is_empty());
}

#[test]
fn the_latest_frames_are_the_last_ones(rt: HostRuntime) {
    has_three(&rt, &view(&rt, 1000, 256, &[1, 1, 1]));
}

#[test]
fn cleared_statistics_are_zeros(rt: HostRuntime) {
    let mut stats = view(&rt, 1000, 256, &[1]).stats();
    assert!(rt; numbers(stats) == (1, 1, 31));
    stats.clear();
    assert!(rt; numbers(stats) == (0, 0, 0));
}

/// Frames of these durations, from index 0 on.
fn frames_of(rt: &(impl AllocGlobal + Abort), durations: &[NanoSecond]) -> Vec<Arc<FrameData>> {
    let mut frames = Vec::new(rt.alloc());
    for index in 0..durations.len() {
        let frame = frame(rt, index as u64, durations[index]);
        frames.push(frame).expect(rt, "memory");
    }
    frames
}

/// The slowest of these frames, `count` at most, have these indices.
fn are_selected(
    rt: &(impl AllocGlobal + Abort),
    frames: &[Arc<FrameData>],
    count: usize,
    indices: &[FrameIndex],
) {
    let chosen = select_slowest(rt.alloc(), frames, count).expect(rt, "memory");
    assert!(rt; chosen.len() == indices.len());
    for place in 0..indices.len() {
        assert!(rt; chosen[place].frame_index() == indices[place]);
    }
}

#[test]
fn selections_are_by_index(rt: HostRuntime) {
    let frames = frames_of(&rt, &[5, 9, 7, 9]);
    are_selected(&rt, &frames, 3, &[1, 2, 3]);
    are_selected(&rt, &frames, 0, &[]);
}

/// Two recent frames, the first of which lists a scope, and a slow one. All three are unpacked.
fn telling_view(rt: &(impl AllocGlobal + Abort)) -> FrameView {
    let mut frames = view(rt, 2, 1, &[9, 1, 2]);
    frames.set_pack_frames(false);
    let mut details = Vec::new(rt.alloc());
    let details_of_a = named(rt.alloc(), 7, "a").expect(rt, "details");
    details.push(details_of_a).expect(rt, "memory");
    frames
        .add_frame(telling_frame(rt, 3, 1, details))
        .expect(rt, "a frame");
    add(rt, &mut frames, 4, 3);
    frames
}

/// A copy of a view that is emptied behind it.
fn copied(rt: &(impl AllocGlobal + Abort)) -> FrameView {
    let mut frames = telling_view(rt);
    let copy = frames.clone().expect(rt, "memory");
    add(rt, &mut frames, 0, 1);
    copy
}

/// Whether a view has the limits and the scope of [`telling_view`], and as many frames.
fn is_telling(view: &FrameView) -> bool {
    let limits = (view.max_recent(), view.max_slow(), view.pack_frames());
    let scopes = view.scope_collection();
    let id = scopes.fetch_by_name("a").map(|id| id.get());
    limits == (2, 1, false)
        && (scopes.scopes_by_id().len(), id) == (1, Some(7))
        && numbers(view.stats()) == numbers(view.stats_full())
}

/// A copy knows how slow its slowest frame is.
fn knows_its_slowest(rt: &(impl AllocGlobal + Abort), copy: &mut FrameView) {
    are_recent(rt, copy, &[3, 4]);
    are_slowest(rt, copy, &[0]);
    add(rt, copy, 5, 8);
    are_all(rt, copy, &[0, 4, 5]);
}

/// A copy knows which index it took last.
fn knows_its_last(rt: &(impl AllocGlobal + Abort), copy: &mut FrameView) {
    add(rt, copy, 4, 1);
    are_all(rt, copy, &[4]);
}

#[test]
fn copies_of_views(rt: HostRuntime) {
    let mut copy = copied(&rt);
    assert!(rt; is_telling(&copy) && copy.stats().frames() == 3);
    knows_its_slowest(&rt, &mut copy);
    knows_its_last(&rt, &mut copied(&rt));
}

/// Details with the id 7, and details without an id.
fn two_details(rt: &(impl AllocGlobal + Abort)) -> Vec<Arc<ScopeDetails>> {
    let mut details = Vec::new(rt.alloc());
    let with_id = named(rt.alloc(), 7, "a").expect(rt, "details");
    details.push(with_id).expect(rt, "memory");
    let no_id = ScopeDetails::from_scope_name(CowStr::Borrowed("b"));
    let no_id = Arc::new(rt.alloc(), no_id).expect(rt, "memory");
    details.push(no_id).expect(rt, "memory");
    details
}

/// The first frame alone is held, and no scope is known.
fn has_one_frame_and_no_scope(rt: &(impl AllocGlobal + Abort), frames: &FrameView) {
    are_all(rt, frames, &[0]);
    let scopes = frames.scope_collection();
    let empty = scopes.scopes_by_id().is_empty() && scopes.scopes_by_name().is_empty();
    assert!(rt; empty && numbers(frames.stats()) == (1, 1, 31));
}

/// A frame with this index that lists these details, one of which has no id, is refused.
fn is_refused(
    rt: &(impl AllocGlobal + Abort),
    frames: &mut FrameView,
    index: FrameIndex,
    details: Vec<Arc<ScopeDetails>>,
) {
    let refused = frames.add_frame(telling_frame(rt, index, 1, details)).err();
    assert!(rt; refused == Some(Error::MissingId));
    has_one_frame_and_no_scope(rt, frames);
}

/// A frame that lists the details with an id alone is taken.
fn is_taken(rt: &(impl AllocGlobal + Abort), frames: &mut FrameView) {
    let mut details = two_details(rt);
    let _no_id = details.pop();
    let frame = telling_frame(rt, 1, 1, details);
    frames.add_frame(frame).expect(rt, "a frame");
    assert!(rt; frames.scope_collection().scopes_by_id().len() == 1);
}

#[test]
fn details_without_an_id_change_nothing(rt: HostRuntime) {
    let mut frames = view(&rt, 1000, 256, &[1]);
    is_refused(&rt, &mut frames, 0, two_details(&rt));
    is_refused(&rt, &mut frames, 1, two_details(&rt));
    is_taken(&rt, &mut frames);
}

/// Adds frames, which are unpacked.
fn add_all(rt: &(impl AllocGlobal + Abort), all: &mut AllTotals, frames: &[Arc<FrameData>]) {
    for frame in frames {
        let streams = frame.as_unpacked().expect(rt, "streams");
        all.add(streams).expect(rt, "memory");
    }
}

/// The thread `main` with this start has so many frames, scopes and bytes, in this range.
fn has_totals(
    rt: &(impl AllocGlobal + Abort),
    all: &AllTotals,
    start_ns: Option<NanoSecond>,
    expected: (u64, u64, u64, (NanoSecond, NanoSecond)),
) {
    let thread = thread_info(rt.alloc(), start_ns, "main").expect(rt, "memory");
    let totals = all.totals.get(&thread).expect(rt, "totals");
    let found = (totals.frames, totals.scopes, totals.bytes, totals.range_ns);
    assert!(rt; found == expected);
}

#[test]
fn totals_are_by_thread(rt: HostRuntime) {
    let mut all = AllTotals::new(rt.alloc());
    add_all(&rt, &mut all, &frames_of(&rt, &[5, 9, 7]));
    add_all(&rt, &mut all, &[known_frame(&rt, 3), known_frame(&rt, 4)]);
    assert!(rt; all.totals.len() == 2);
    has_totals(&rt, &all, None, (3, 3, 93, (0, 9)));
    has_totals(&rt, &all, Some(100), (2, 2, 70, (100, 300)));
}
