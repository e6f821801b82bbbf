//! Places with their names, threads that don't know a place, and what a thread that reports by itself hands on.

use crate::equal::equal;
use crate::sinks::added;
use puffin::data::StreamInfoRef;
use puffin::frame_data::FrameIndex;
use puffin::global_profiler::{GlobalProfiler, Sink};
use puffin::light::{
    GuardState, Place, Records, Rounds, Scopes, Settings, Thread, ThreadCounts, run_rounds,
};
use puffin::profile_view::FrameView;
use puffin::scope_details::ScopeDetails;
use puffin::thread_profiler::{Reporter, ScriptClock, ThreadInfo, ThreadProfiler};
use puffin::{Error, place, profile};
use std::alloc::Global;
use std::io;
use std::process::Abort;
use std::sync::{Arc, Mutex, Wait};
use tests_support::frames::lists;

/// A function and a part of it.
#[derive(Clone, Copy)]
struct Places {
    load: Place,
    paint: Place,
}

/// Registers both places in new scopes.
fn registered(alloc: Global) -> puffin::Result<(Scopes, Places)> {
    let mut scopes = Scopes::new(alloc)?;
    let places = Places {
        load: place!(scopes, "load")?,
        paint: place!(scopes, "paint", "pixels")?,
    };
    Ok((scopes, places))
}

/// Checks the numbers of the places, and the details of their scopes.
fn are_numbered(rt: &impl Abort, scopes: &Scopes, places: &Places) {
    equal(
        rt,
        (places.load.id().get(), places.paint.id().get()),
        (1, 2),
    );
    let load = scopes.details().first().expect(rt, "details");
    equal(rt, load.function_name.as_str(), "load");
    equal(rt, load.file_path.as_str(), "tests_puffin::places");
    let paint = scopes.details().last().expect(rt, "details");
    equal(rt, paint.function_name.as_str(), "paint");
}

#[test]
fn a_first_frame_lists_the_places_by_number_and_name(rt: HostRuntime) {
    let (scopes, places) = registered(rt.alloc()).expect(&rt, "the places");
    are_numbered(&rt, &scopes, &places);
    let mut thread = Thread::start(rt, "main", GlobalProfiler::new(rt.alloc()), &scopes).expect(
        &rt, "a thread",
    );
    {
        profile!(_paint, thread, places.paint);
    }
    let frame = thread
        .new_frame(&rt)
        .expect(&rt, "memory")
        .frame
        .expect(&rt, "a frame");
    equal(&rt, lists(&frame, &[(1, "load"), (2, "pixels")]), true);
}

#[test]
fn a_place_may_have_details_of_its_own(rt: HostRuntime) {
    let mut scopes = Scopes::new(rt.alloc()).expect(&rt, "memory");
    let details = ScopeDetails::default().with_line_nr(7);
    equal(
        &rt,
        scopes.register(details).expect(&rt, "a place").id().get(),
        1,
    );
    let details = scopes.details().first().expect(&rt, "details");
    equal(&rt, details.line_nr, 7);
    equal(&rt, scopes.are_on(), true);
}

/// Begins a scope at a place that the thread doesn't know, and one within it at a place that it knows.
fn late_is_refused<T: Records>(rt: &impl Abort, thread: &mut T, late: Place, known: Place) {
    let mut guard = thread.scope(&late);
    equal(rt, guard.state(), GuardState::Refused(Error::MissingId));
    profile!(inner, guard, known);
    equal(rt, inner.state(), GuardState::On(14));
}

#[test]
fn a_thread_refuses_a_place_that_it_does_not_know(rt: HostRuntime) {
    let (mut scopes, places) = registered(rt.alloc()).expect(&rt, "the places");
    let mut thread = Thread::start(rt, "main", GlobalProfiler::new(rt.alloc()), &scopes).expect(
        &rt, "a thread",
    );
    let late = place!(scopes, "late").expect(&rt, "a place");
    late_is_refused(&rt, &mut thread, late, places.load);
    equal(&rt, (thread.num_refused(), thread.num_closed()), (1, 0));
    equal(&rt, thread.reporter().totals().reported, 1);
}

/// The first thread uses a place of other scopes.
#[derive(Clone, Copy)]
struct Foreign {
    own: Place,
    other: Place,
}

/// Registers a place in new scopes, and one in others.
fn own_and_other(alloc: Global) -> puffin::Result<(Scopes, Foreign)> {
    let (_others, places) = registered(alloc)?;
    let mut scopes = Scopes::new(alloc)?;
    let own = place!(scopes, "own")?;
    let other = places.paint;
    Ok((scopes, Foreign { own, other }))
}

impl Rounds for Foreign {
    type State = ();

    fn state<R: Wait>(&self, _rt: &R, _number: usize) -> io::Result<()> {
        Ok(())
    }

    fn part<R: Wait, T: Records>(
        &self,
        _rt: &R,
        number: usize,
        _round: usize,
        _state: &mut (),
        thread: &mut T,
    ) -> io::Result<()> {
        if number == 0 {
            profile!(_other, thread, self.other);
        } else {
            profile!(_own, thread, self.own);
        }
        Ok(())
    }
}

#[test]
fn a_program_counts_the_scopes_that_are_refused(rt: HostRuntime) {
    let (scopes, foreign) = own_and_other(rt.alloc()).expect(&rt, "the places");
    let outcome = run_rounds(rt, &["a", "b"], &scopes, &Settings::default(), 3, &foreign).expect(
        &rt,
        "the rounds",
    );
    let refused = ThreadCounts {
        reported: 0,
        unreported: 0,
        refused: 3,
        left_open: 0,
    };
    let reported = ThreadCounts {
        reported: 3,
        unreported: 0,
        refused: 0,
        left_open: 0,
    };
    equal(
        &rt,
        outcome.threads.as_slice(),
        [refused, reported].as_slice(),
    );
}

/// A reporter that refuses everything.
#[derive(Drop)]
struct Refusing;

impl Reporter for Refusing {
    ghost accepts = { λ _ _ _ _ _. Unit {0} };

    ghost refuses = { λ _ _ _ _ _ _. Unit {0} };

    fn report(
        &mut self,
        _info: ThreadInfo,
        _details: &[ScopeDetails],
        _times: &StreamInfoRef,
    ) -> puffin::Result<()> {
        Err(Error::TooLarge)
    }
}

/// Makes a scope with a child, of which nothing is reported before both have ended.
fn nested(rt: &impl Abort, thread: &mut Thread<ScriptClock, Refusing>, places: Places) {
    profile!(paint, thread, places.paint);
    {
        profile!(_load, paint, places.load);
    }
    equal(rt, paint.thread().num_closed(), 1);
}

#[test]
fn scopes_of_a_refused_report_are_counted(rt: HostRuntime) {
    let (scopes, places) = registered(rt.alloc()).expect(&rt, "the places");
    let known = scopes.for_thread().expect(&rt, "the scopes");
    let name = String::from_str(rt.alloc(), "main").expect(&rt, "memory");
    let profiler = ThreadProfiler::new(rt.alloc(), name, ScriptClock::new(5));
    let mut thread = Thread::new(profiler, Refusing, known);
    nested(&rt, &mut thread, places);
    equal(&rt, thread.num_closed(), 2);
    equal(&rt, thread.report_closed(), Err(Error::TooLarge));
    equal(&rt, thread.num_closed(), 2);
}

/// Checks that the latest frame of a view has this index and one scope.
fn has_latest<R: Wait + Abort>(rt: &R, view: &Mutex<FrameView>, index: FrameIndex) {
    let view = view.lock(rt);
    let held = view.latest_frame().expect(rt, "a frame in the view");
    equal(rt, (held.frame_index(), held.meta().num_scopes), (index, 1));
}

#[test]
fn a_thread_s_frame_reaches_the_profiler_s_sinks(rt: HostRuntime) {
    let (scopes, places) = registered(rt.alloc()).expect(&rt, "the places");
    let view = Arc::new(rt.alloc(), Mutex::new(FrameView::new(rt.alloc()))).expect(&rt, "memory");
    let sink = Sink::View(Arc::try_clone(&view).expect(&rt, "memory"));
    let mut profiler = GlobalProfiler::new(rt.alloc());
    let _id = added(&rt, &mut profiler, sink);
    let mut thread = Thread::start(rt, "main", profiler, &scopes).expect(&rt, "a thread");
    {
        profile!(_load, thread, places.load);
    }
    let frame = thread
        .new_frame(&rt)
        .expect(&rt, "memory")
        .frame
        .expect(&rt, "a frame");
    has_latest(&rt, &view, frame.frame_index());
}
