//! Scopes at places, on one thread and on several.

use crate::equal::equal;
use puffin::data::Counted;
use puffin::global_profiler::{GlobalProfiler, Settled};
use puffin::light::{
    Frames, GuardState, Outcome, Place, Program, Records, Rounds, SaveCause, SaveError, Scopes,
    Settings, Thread, run_rounds, run_threads, save,
};
use puffin::profile_view::FrameView;
use puffin::thread_profiler::NsSource;
use puffin::{place, profile};
use std::alloc::Global;
use std::fs::{File, Files};
use std::process::Abort;
use std::sync::Wait;
use std::{fs, io};

/// The places of a function and of a part of it.
#[derive(Clone, Copy)]
struct Places {
    whole: Place,
    part: Place,
}

impl Places {
    fn new(scopes: &mut Scopes) -> puffin::Result<Places> {
        Ok(Places {
            whole: place!(scopes, "whole")?,
            part: place!(scopes, "whole", "part")?,
        })
    }
}

/// Registers both places in new scopes.
fn registered(alloc: Global) -> puffin::Result<(Scopes, Places)> {
    let mut scopes = Scopes::new(alloc)?;
    let places = Places::new(&mut scopes)?;
    Ok((scopes, places))
}

/// Makes a scope with a child.
fn both<T: Records>(thread: &mut T, places: &Places) {
    profile!(whole, thread, places.whole);
    profile!(_part, whole, places.part, "text");
}

/// Makes a scope with a child, of which nothing is reported before both have ended.
fn nested<C: NsSource>(rt: &impl Abort, thread: &mut Thread<C, GlobalProfiler>, places: Places) {
    profile!(whole, thread, places.whole, "text");
    {
        profile!(_part, whole, places.part);
    }
    equal(rt, whole.thread().reporter().totals().reported, 0);
}

#[test]
fn an_inner_scope_is_reported_with_the_outermost(rt: HostRuntime) {
    let (scopes, places) = registered(rt.alloc()).expect(&rt, "the places");
    let mut thread = Thread::start(rt, "main", GlobalProfiler::new(rt.alloc()), &scopes).expect(
        &rt, "a thread",
    );
    nested(&rt, &mut thread, places);
    equal(&rt, thread.reporter().totals().reported, 2);
    let first = thread.new_frame(&rt).expect(&rt, "a frame").frame.is_some();
    let second = thread.new_frame(&rt).expect(&rt, "a frame").frame.is_some();
    equal(&rt, (first, second), (true, false));
    equal(&rt, thread.report_closed(), Ok(false));
    equal(&rt, thread.into_reporter().totals().emitted, 2);
}

/// Makes a scope and one with a child, and checks that none of them began.
fn none_begins<C: NsSource>(
    rt: &impl Abort,
    thread: &mut Thread<C, GlobalProfiler>,
    places: Places,
) {
    {
        let guard = thread.scope(&places.whole);
        equal(rt, guard.state(), GuardState::Off);
    }
    both(thread, &places);
    equal(rt, thread.reporter().totals().reported, 0);
}

#[test]
fn scopes_that_are_off_are_not_begun(rt: HostRuntime) {
    let (scopes, places) = registered(rt.alloc()).expect(&rt, "the places");
    let mut thread = Thread::start(rt, "main", GlobalProfiler::new(rt.alloc()), &scopes).expect(
        &rt, "a thread",
    );
    thread.switch().set_scopes_on(false);
    none_begins(&rt, &mut thread, places);
    scopes.set_on(true);
    both(&mut thread, &places);
    equal(&rt, thread.reporter().totals().reported, 2);
}

/// Returns how many frames a file has.
fn frames_in(rt: &(impl Files + AllocGlobal + Abort), name: &str) -> usize {
    let file = File::open(rt, name).expect(rt, "a file");
    let view = FrameView::read(rt.alloc(), &mut Counted::new(file)).expect(rt, "a view");
    view.stats().frames()
}

#[test]
fn a_view_is_saved_and_replaced(rt: HostRuntime) {
    let name = "light.puffin";
    save(&rt, name, &FrameView::new(rt.alloc())).expect(&rt, "a saved view");
    let (scopes, places) = registered(rt.alloc()).expect(&rt, "the places");
    let outcome = run_rounds(rt, &["a", "b"], &scopes, &Settings::default(), 1, &places).expect(
        &rt,
        "the rounds",
    );
    save(&rt, name, &outcome.view.lock(&rt)).expect(&rt, "a saved view");
    equal(&rt, frames_in(&rt, name), 1);
    equal(
        &rt,
        fs::exists(&rt, "light.puffin.part").expect(&rt, "a folder"),
        false,
    );
    fs::remove_file(&rt, name).expect(&rt, "a file");
}

/// Returns the kind of the system's error that refused a view.
fn refusal(saved: std::result::Result<(), SaveError<'_>>) -> Option<io::ErrorKind> {
    match saved.err()?.cause {
        SaveCause::System(e) => Some(e.kind()),
        SaveCause::View(_) => None,
    }
}

#[test]
fn a_full_device_and_a_missing_folder_refuse_a_view(rt: HostRuntime) {
    let (scopes, places) = registered(rt.alloc()).expect(&rt, "the places");
    let outcome = run_rounds(rt, &["a", "b"], &scopes, &Settings::default(), 1, &places).expect(
        &rt,
        "the rounds",
    );
    let view = outcome.view.lock(&rt);
    let full = save(&rt, "/dev/full", &view);
    equal(&rt, refusal(full), Some(io::ErrorKind::StorageFull));
    let missing = save(&rt, "no folder/light.puffin", &view);
    equal(&rt, refusal(missing), Some(io::ErrorKind::NotFound));
}

impl Rounds for Places {
    type State = ();

    fn state<R: Wait>(&self, _rt: &R, _number: usize) -> io::Result<()> {
        Ok(())
    }

    /// The first thread begins no scope.
    fn part<R: Wait, T: Records>(
        &self,
        _rt: &R,
        number: usize,
        _round: usize,
        _state: &mut (),
        thread: &mut T,
    ) -> io::Result<()> {
        if number > 0 {
            both(thread, self);
        }
        Ok(())
    }
}

/// Whether each thread reported as many scopes as `reported` lists, and none was refused or left.
fn has_reported(outcome: &Outcome, reported: &[u64]) -> bool {
    outcome.threads.len() == reported.len()
        && outcome.threads.iter().zip(reported).all(|(thread, number)| {
            thread.reported == *number && thread.unreported == 0 && thread.refused == 0
        })
}

/// Checks that each thread reported as many scopes as `reported` lists, `sum` together, and that all of them were
/// handed out, in `frames` frames that are all in the view.
fn has<R: Abort + Wait>(rt: &R, outcome: &Outcome, reported: &[u64], sum: u64, frames: usize) {
    equal(rt, has_reported(outcome, reported), true);
    let settled = Settled {
        reported: sum,
        handed: sum,
        pending: 0,
    };
    equal(rt, outcome.settled, settled);
    equal(rt, (outcome.frames, outcome.missed), (frames as u64, 0));
    equal(rt, outcome.view.lock(rt).stats().frames(), frames);
}

#[test]
fn a_frame_is_taken_after_each_round(rt: HostRuntime) {
    let (scopes, places) = registered(rt.alloc()).expect(&rt, "the places");
    let outcome = run_rounds(
        rt,
        &["a", "b", "c"],
        &scopes,
        &Settings::default(),
        5,
        &places,
    )
    .expect(&rt, "the rounds");
    has(&rt, &outcome, &[0, 10, 10], 20, 5);
    let outcome = run_rounds(
        rt,
        &["a", "b", "c"],
        &scopes,
        &Settings::default(),
        0,
        &places,
    )
    .expect(&rt, "the rounds");
    has(&rt, &outcome, &[0, 0, 0], 0, 0);
}

#[test]
fn one_thread_two_and_64(rt: HostRuntime) {
    let (scopes, places) = registered(rt.alloc()).expect(&rt, "the places");
    let outcome = run_rounds(rt, &["a"], &scopes, &Settings::default(), 2, &places).expect(
        &rt,
        "the rounds",
    );
    has(&rt, &outcome, &[0], 0, 0);
    let outcome = run_rounds(rt, &["a", "b"], &scopes, &Settings::default(), 2, &places).expect(
        &rt,
        "the rounds",
    );
    has(&rt, &outcome, &[0, 4], 4, 2);
    let outcome = run_rounds(rt, &["a"; 64], &scopes, &Settings::default(), 2, &places).expect(
        &rt,
        "the rounds",
    );
    equal(&rt, outcome.threads.len(), 64);
    equal(&rt, outcome.settled.handed, 252);
    equal(&rt, outcome.frames, 2);
}

/// Thread `number` makes `number` scopes, each with a child. One frame is taken.
#[derive(Clone, Copy)]
struct Uneven {
    places: Places,
}

impl Program for Uneven {
    fn work<R: Wait, T: Records>(&self, _rt: &R, number: usize, thread: &mut T) -> io::Result<()> {
        for _ in 0..number {
            both(thread, &self.places);
        }
        Ok(())
    }

    fn lead<R: Wait, T: Records, F: Frames>(&self, _rt: &R, _thread: &mut T, frames: &mut F) {
        let _emitted = frames.new_frame();
    }
}

#[test]
fn all_that_threads_report_is_handed_out_or_pending(rt: HostRuntime) {
    let (scopes, places) = registered(rt.alloc()).expect(&rt, "the places");
    let uneven = Uneven { places };
    let outcome = run_threads(rt, &["a", "b", "c"], &scopes, &Settings::default(), &uneven).expect(
        &rt,
        "the threads",
    );
    equal(&rt, has_reported(&outcome, &[0, 2, 4]), true);
    let settled = outcome.settled;
    equal(&rt, settled.reported, 6);
    equal(&rt, settled.handed.checked_add(settled.pending), Some(6));
}

/// In round `n`, counted from 1, thread `number` makes `n` scopes, each with a child. After `number` rounds it makes
/// none.
#[derive(Clone, Copy)]
struct Rising {
    places: Places,
}

impl Rounds for Rising {
    type State = usize;

    fn state<R: Wait>(&self, _rt: &R, _number: usize) -> io::Result<usize> {
        Ok(0)
    }

    fn part<R: Wait, T: Records>(
        &self,
        _rt: &R,
        number: usize,
        _round: usize,
        done: &mut usize,
        thread: &mut T,
    ) -> io::Result<()> {
        if *done < number {
            *done = done.saturating_add(1);
            for _ in 0..*done {
                both(thread, &self.places);
            }
        }
        Ok(())
    }
}

#[test]
fn a_thread_keeps_its_state_from_round_to_round(rt: HostRuntime) {
    let (scopes, places) = registered(rt.alloc()).expect(&rt, "the places");
    let rising = Rising { places };
    let outcome = run_rounds(
        rt,
        &["a", "b", "c", "d"],
        &scopes,
        &Settings::default(),
        5,
        &rising,
    )
    .expect(&rt, "the rounds");
    has(&rt, &outcome, &[0, 2, 6, 12], 20, 3);
}
