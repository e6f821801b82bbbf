use crate::equal::equal;
use crate::global_profiler::{report, scope, thread};
use puffin::frame_data::{FrameData, FrameIndex};
use puffin::global_profiler::{FrameSink, FrameSinkId, GlobalProfiler, Sink, Totals};
use puffin::light::{Records, Scopes, Thread};
use puffin::profile_view::FrameView;
use puffin::scope_details::ScopeDetails;
use puffin::{Error, Result, place, profile};
use std::borrow::CowStr;
use std::process::Abort;
use std::sync::{Arc, Mutex, Wait};
use tests_support::frames::one_stream;

/// The names of the sinks that were handed a frame, each with the index of the frame, in order.
type Handed = Arc<Mutex<Vec<(u64, FrameIndex)>>>;

/// A sink that notes its name and the index of each frame. It refuses every frame or none.
#[derive(Drop)]
struct Noting<R: Wait> {
    name: u64,
    refuses: bool,
    handed: Handed,
    rt: R,
}

impl<R: Wait + Drop> FrameSink for Noting<R> {
    ghost accepts = { λ _ _ _ _. Unit {0} };

    fn accept(&mut self, frame: Arc<FrameData>) -> Result<()> {
        let note = (self.name, frame.frame_index());
        self.handed.lock(&self.rt).push(note)?;
        if self.refuses {
            Err(Error::NoThread)
        } else {
            Ok(())
        }
    }
}

/// Makes sinks with the names 1 to `$count`. The one with the name `$refusing` refuses every frame. (A box of a type
/// that waits can only be made in a function that has the runtime.)
macro_rules! sinks_named {
    ($rt:expr, $handed:expr, $count:expr, $refusing:expr) => {{
        let mut sinks = Vec::new($rt.alloc());
        for name in 1..$count + 1 {
            let noting: Box<dyn FrameSink + Send> = Box::new(
                $rt.alloc(),
                Noting {
                    name,
                    refuses: name == $refusing,
                    handed: Arc::try_clone($handed).expect(&$rt, "memory"),
                    rt: $rt,
                },
            )
            .expect(&$rt, "memory");
            sinks.push(Sink::Boxed(noting)).expect(&$rt, "memory");
        }
        sinks
    }};
}

fn nothing_handed(rt: &(impl AllocGlobal + Abort)) -> Handed {
    Arc::new(rt.alloc(), Mutex::new(Vec::new(rt.alloc()))).expect(rt, "memory")
}

/// Adds a sink, and returns its number.
pub(crate) fn added(rt: &impl Abort, profiler: &mut GlobalProfiler, sink: Sink) -> FrameSinkId {
    profiler.add_sink(sink).ok().expect(rt, "a sink")
}

/// Adds all sinks, in order, and returns their numbers.
fn all_added(
    rt: &(impl AllocGlobal + Abort),
    profiler: &mut GlobalProfiler,
    sinks: Vec<Sink>,
) -> Vec<FrameSinkId> {
    let mut ids = Vec::new(rt.alloc());
    for sink in sinks {
        ids.push(added(rt, profiler, sink)).expect(rt, "memory");
    }
    ids
}

/// Returns what the sinks noted.
fn notes<R: Wait + Abort>(rt: &R, handed: &Handed) -> Vec<(u64, FrameIndex)> {
    handed.lock(rt).clone().expect(rt, "memory")
}

/// Checks that the third sink is called although the first refuses the frame.
fn one_refuses<R: AllocGlobal + Wait + Abort>(
    rt: &R,
    profiler: &mut GlobalProfiler,
    handed: &Handed,
) {
    report(rt, profiler, "a", 1, (100, 101)).expect(rt, "a report");
    let emitted = profiler.new_frame(rt).expect(rt, "a frame");
    assert!(rt; emitted.frame.is_some());
    equal(rt, emitted.refused, 1);
    equal(
        rt,
        notes(rt, handed).as_slice(),
        [(1, 0), (3, 0)].as_slice(),
    );
}

/// Checks that no sink is called if there is no frame.
fn none_is_called<R: Wait + Abort>(rt: &R, profiler: &mut GlobalProfiler, handed: &Handed) {
    let emitted = profiler.new_frame(rt).expect(rt, "a frame");
    assert!(rt; emitted.frame.is_none());
    equal(rt, emitted.refused, 0);
    equal(rt, notes(rt, handed).len(), 2);
}

/// Removes the second sink.
fn remove_second(rt: &impl Abort, profiler: &mut GlobalProfiler, ids: &[FrameSinkId]) {
    let second = *ids.get(1).expect(rt, "a second sink");
    assert!(rt; profiler.remove_sink(second).is_some());
}

#[test]
fn a_sink_that_refuses_is_counted_and_the_next_is_called(rt: HostRuntime) {
    let handed = nothing_handed(&rt);
    let sinks = sinks_named!(rt, &handed, 3u64, 1u64);
    let mut profiler = GlobalProfiler::new(rt.alloc());
    let ids = all_added(&rt, &mut profiler, sinks);
    remove_second(&rt, &mut profiler, &ids);
    one_refuses(&rt, &mut profiler, &handed);
    none_is_called(&rt, &mut profiler, &handed);
}

#[test]
fn a_thread_tells_how_many_sinks_refused_its_frame(rt: HostRuntime) {
    let handed = nothing_handed(&rt);
    let sinks = sinks_named!(rt, &handed, 2u64, 1u64);
    let mut profiler = GlobalProfiler::new(rt.alloc());
    let _ids = all_added(&rt, &mut profiler, sinks);
    let mut scopes = Scopes::new(rt.alloc()).expect(&rt, "scopes");
    let load = place!(scopes, "load").expect(&rt, "a place");
    let mut thread = Thread::start(rt, "main", profiler, &scopes).expect(&rt, "a thread");
    {
        profile!(_load, thread, load);
    }
    let emitted = thread.new_frame(&rt).expect(&rt, "a frame");
    equal(&rt, (emitted.frame.is_some(), emitted.refused), (true, 1));
    let emitted = thread.new_frame(&rt).expect(&rt, "no frame");
    equal(&rt, (emitted.frame.is_some(), emitted.refused), (false, 0));
}

/// Makes a frame of one scope, with this index.
fn frame_at(rt: &(impl AllocGlobal + Abort), frame_index: FrameIndex) -> Arc<FrameData> {
    let mut other = GlobalProfiler::with_frame_index(rt.alloc(), frame_index);
    report(rt, &mut other, "a", 1, (100, 101)).expect(rt, "a report");
    other.collect_frame().ok().flatten().expect(rt, "a frame")
}

/// Adds frame 7. Checks that both sinks are handed it, that the second refuses it, and that no total counts it.
fn is_handed_on<R: AllocGlobal + Wait + Abort>(
    rt: &R,
    profiler: &mut GlobalProfiler,
    handed: &Handed,
) {
    equal(
        rt,
        profiler
            .add_frame(rt, frame_at(rt, 7))
            .expect(rt, "a frame"),
        1,
    );
    equal(
        rt,
        notes(rt, handed).as_slice(),
        [(1, 7), (2, 7)].as_slice(),
    );
    let none = Totals {
        reported: 0,
        pending: 0,
        emitted: 0,
    };
    equal(rt, profiler.totals(), none);
}

#[test]
fn a_frame_that_is_added_is_handed_on_and_not_counted(rt: HostRuntime) {
    let handed = nothing_handed(&rt);
    let sinks = sinks_named!(rt, &handed, 2u64, 2u64);
    let mut profiler = GlobalProfiler::new(rt.alloc());
    let _ids = all_added(&rt, &mut profiler, sinks);
    is_handed_on(&rt, &mut profiler, &handed);
}

/// Takes a frame of one scope. Checks that no sink refuses it.
fn taken<R: AllocGlobal + Wait + Abort>(rt: &R, profiler: &mut GlobalProfiler) {
    report(rt, profiler, "a", 1, (100, 101)).expect(rt, "a report");
    let emitted = profiler.new_frame(rt).expect(rt, "a frame");
    assert!(rt; emitted.frame.is_some());
    equal(rt, emitted.refused, 0);
}

/// Returns the indices of a view's recent frames.
fn recent<R: AllocGlobal + Wait + Abort>(rt: &R, view: &Mutex<FrameView>) -> Vec<FrameIndex> {
    let mut indices = Vec::new(rt.alloc());
    for frame in view.lock(rt).recent_frames() {
        indices.push(frame.frame_index()).expect(rt, "memory");
    }
    indices
}

/// Takes two frames, adds one, removes the sink, and takes one more.
fn three_are_handed_on<R: AllocGlobal + Wait + Abort>(
    rt: &R,
    profiler: &mut GlobalProfiler,
    id: FrameSinkId,
) {
    taken(rt, profiler);
    taken(rt, profiler);
    equal(
        rt,
        profiler
            .add_frame(rt, frame_at(rt, 9))
            .expect(rt, "a frame"),
        0,
    );
    assert!(rt; profiler.remove_sink(id).is_some());
    taken(rt, profiler);
}

#[test]
fn a_view_is_a_sink(rt: HostRuntime) {
    let view = Arc::new(rt.alloc(), Mutex::new(FrameView::new(rt.alloc()))).expect(&rt, "memory");
    let mut profiler = GlobalProfiler::new(rt.alloc());
    let id = added(
        &rt,
        &mut profiler,
        Sink::View(Arc::try_clone(&view).expect(&rt, "memory")),
    );
    three_are_handed_on(&rt, &mut profiler, id);
    equal(&rt, recent(&rt, &view).as_slice(), [0, 1, 9].as_slice());
}

/// Makes details without an id.
fn nameless_details(rt: &(impl AllocGlobal + Abort)) -> Vec<Arc<ScopeDetails>> {
    let details = ScopeDetails::from_scope_name(CowStr::Borrowed("no id"));
    let mut delta = Vec::new(rt.alloc());
    let details = Arc::new(rt.alloc(), details).expect(rt, "memory");
    delta.push(details).expect(rt, "memory");
    delta
}

/// Makes a frame that lists a scope without an id.
fn nameless(rt: &(impl AllocGlobal + Abort)) -> Arc<FrameData> {
    let thread = thread(rt, "a").expect(rt, "a thread");
    let info = scope(rt, 1, 100, 101).expect(rt, "a scope");
    let streams = one_stream(rt.alloc(), thread, info).expect(rt, "memory");
    let frame = FrameData::new(rt.alloc(), 3, streams, nameless_details(rt), false);
    Arc::new(rt.alloc(), frame.expect(rt, "a frame")).expect(rt, "memory")
}

/// Checks that a frame that lists a scope without an id is handed to no sink.
fn is_handed_to_none<R: AllocGlobal + Wait + Abort>(
    rt: &R,
    profiler: &mut GlobalProfiler,
    handed: &Handed,
) {
    let refused = profiler.add_frame(rt, nameless(rt)).err();
    equal(rt, refused, Some(Error::MissingId));
    assert!(rt; notes(rt, handed).is_empty());
}

#[test]
fn a_frame_with_details_without_an_id_is_refused(rt: HostRuntime) {
    let handed = nothing_handed(&rt);
    let sinks = sinks_named!(rt, &handed, 1u64, 0u64);
    let mut profiler = GlobalProfiler::new(rt.alloc());
    let _ids = all_added(&rt, &mut profiler, sinks);
    is_handed_to_none(&rt, &mut profiler, &handed);
}
