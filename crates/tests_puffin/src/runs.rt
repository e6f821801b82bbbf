//! What a run of several threads is set to, and threads that fail.

use crate::equal::equal;
use puffin::global_profiler::{Emitted, GlobalFrameView, Settled};
use puffin::light::{
    Failed, Frames, Place, Program, Records, Rounds, Scopes, Settings, run_rounds, run_threads,
};
use puffin::profile_view::FrameView;
use puffin::{Result, place, profile};
use std::alloc::Global;
use std::io;
use std::process::Abort;
use std::sync::Wait;
use std::sync::atomic::{AtomicUsize, Ordering};

/// Registers one place.
fn registered(alloc: Global) -> Result<(Scopes, Place)> {
    let mut scopes = Scopes::new(alloc)?;
    let place = place!(scopes, "step")?;
    Ok((scopes, place))
}

/// Makes the counts of this number of scopes, all of which were handed out.
fn all_handed(handed: u64) -> Settled {
    Settled {
        reported: handed,
        handed,
        pending: 0,
    }
}

/// A program whose threads fail in the third round, but for the first thread.
#[derive(Drop)]
struct Failing {
    step: Place,
    round: AtomicUsize,
}

impl Rounds for Failing {
    type State = ();

    fn state<R: Wait>(&self, _rt: &R, _number: usize) -> io::Result<()> {
        Ok(())
    }

    fn part<R: Wait, T: Records>(
        &self,
        _rt: &R,
        number: usize,
        _round: usize,
        _state: &mut (),
        thread: &mut T,
    ) -> io::Result<()> {
        profile!(_step, thread, self.step);
        if number > 0 && self.round.load(Ordering::SeqCst) == 2 {
            return Err(io::Error::from(io::ErrorKind::TimedOut));
        }
        Ok(())
    }

    fn goes_on<R: Wait, F: Frames>(
        &self,
        _rt: &R,
        _round: usize,
        _taken: &Result<Emitted>,
        _frames: &F,
    ) -> bool {
        self.round.fetch_add(1, Ordering::SeqCst);
        true
    }
}

#[test]
fn a_part_that_fails_ends_the_rounds(rt: HostRuntime) {
    let (scopes, step) = registered(rt.alloc()).expect(&rt, "a place");
    let failing = Failing {
        step,
        round: AtomicUsize::new(0),
    };
    let outcome = run_rounds(
        rt,
        &["a", "b", "c"],
        &scopes,
        &Settings::default(),
        10,
        &failing,
    )
    .expect(&rt, "the rounds");
    equal(&rt, (outcome.frames, outcome.missed), (3, 0));
    equal(&rt, outcome.settled, all_handed(9));
    let Failed { number, error } = outcome.failed.expect(&rt, "a failure");
    equal(&rt, number, 1);
    equal(&rt, error.kind(), io::ErrorKind::TimedOut);
}

/// A program whose second thread has no state.
#[derive(Drop)]
struct Stateless {
    step: Place,
}

impl Rounds for Stateless {
    type State = ();

    fn state<R: Wait>(&self, _rt: &R, number: usize) -> io::Result<()> {
        if number == 1 {
            return Err(io::Error::from(io::ErrorKind::NotFound));
        }
        Ok(())
    }

    fn part<R: Wait, T: Records>(
        &self,
        _rt: &R,
        _number: usize,
        _round: usize,
        _state: &mut (),
        thread: &mut T,
    ) -> io::Result<()> {
        profile!(_step, thread, self.step);
        Ok(())
    }
}

#[test]
fn a_state_that_cannot_be_made_ends_the_rounds(rt: HostRuntime) {
    let (scopes, step) = registered(rt.alloc()).expect(&rt, "a place");
    let stateless = Stateless { step };
    let outcome = run_rounds(
        rt,
        &["a", "b"],
        &scopes,
        &Settings::default(),
        10,
        &stateless,
    )
    .expect(&rt, "the rounds");
    equal(&rt, (outcome.frames, outcome.missed), (1, 0));
    equal(&rt, outcome.settled, all_handed(1));
    let Failed { number, error } = outcome.failed.expect(&rt, "a failure");
    equal(&rt, number, 1);
    equal(&rt, error.kind(), io::ErrorKind::NotFound);
}

/// A program that keeps two frames, and makes each frame list every known scope.
#[derive(Drop)]
struct Short {
    step: Place,
    listed: AtomicUsize,
}

impl Rounds for Short {
    type State = ();

    fn state<R: Wait>(&self, _rt: &R, _number: usize) -> io::Result<()> {
        Ok(())
    }

    fn part<R: Wait, T: Records>(
        &self,
        _rt: &R,
        _number: usize,
        _round: usize,
        _state: &mut (),
        thread: &mut T,
    ) -> io::Result<()> {
        profile!(_step, thread, self.step);
        Ok(())
    }

    fn goes_on<R: Wait, F: Frames>(
        &self,
        _rt: &R,
        _round: usize,
        taken: &Result<Emitted>,
        frames: &F,
    ) -> bool {
        if let Ok(emitted) = taken
            && let Some(frame) = &emitted.frame
        {
            self.listed
                .fetch_add(frame.scope_delta.len(), Ordering::SeqCst);
        }
        frames.emit_scope_snapshot();
        true
    }
}

/// Checks that a view has two recent frames, one of them slow, and that none is packed.
fn keeps_two<R: Wait + Abort>(rt: &R, view: &GlobalFrameView) {
    let view = view.lock(rt);
    let (mut recent, mut slow) = (0_usize, 0_usize);
    for _frame in view.recent_frames() {
        recent = recent.saturating_add(1);
    }
    for _frame in view.slowest_frames_chronological() {
        slow = slow.saturating_add(1);
    }
    equal(rt, (recent, slow), (2, 1));
    let mut frames = view.recent_frames();
    equal(rt, frames.all(|frame| frame.as_unpacked().is_some()), true);
}

#[test]
fn a_view_keeps_as_many_frames_as_it_is_set_to(rt: HostRuntime) {
    let (scopes, step) = registered(rt.alloc()).expect(&rt, "a place");
    let short = Short {
        step,
        listed: AtomicUsize::new(0),
    };
    let settings = Settings {
        max_recent: 2,
        max_slow: 1,
        pack_frames: false,
        ..Settings::default()
    };
    let outcome = run_rounds(rt, &["a"], &scopes, &settings, 5, &short).expect(&rt, "the rounds");
    keeps_two(&rt, &outcome.view);
    equal(&rt, short.listed.load(Ordering::SeqCst), 5);
}

#[test]
fn a_view_that_is_not_set_keeps_what_a_new_one_keeps(rt: HostRuntime) {
    let settings = Settings::default();
    let view = FrameView::new(rt.alloc());
    equal(&rt, settings.max_recent, view.max_recent());
    equal(&rt, settings.max_slow, view.max_slow());
    equal(&rt, settings.pack_frames, view.pack_frames());
    equal(&rt, settings.leader, "leader");
}

/// A program whose threads have nothing to do and fail, each with an error of its own.
#[derive(Drop)]
struct Refusing {}

impl Program for Refusing {
    fn work<R: Wait, T: Records>(&self, _rt: &R, number: usize, _thread: &mut T) -> io::Result<()> {
        match number {
            0 => Ok(()),
            1 => Err(io::Error::from(io::ErrorKind::NotFound)),
            _ => Err(io::Error::from(io::ErrorKind::TimedOut)),
        }
    }

    fn lead<R: Wait, T: Records, F: Frames>(&self, _rt: &R, _thread: &mut T, _frames: &mut F) {}
}

#[test]
fn the_first_thread_that_failed_is_told(rt: HostRuntime) {
    let scopes = Scopes::new(rt.alloc()).expect(&rt, "memory");
    let refusing = Refusing {};
    let outcome = run_threads(
        rt,
        &["a", "b", "c"],
        &scopes,
        &Settings::default(),
        &refusing,
    )
    .expect(&rt, "the threads");
    equal(&rt, (outcome.frames, outcome.missed), (0, 0));
    let Failed { number, error } = outcome.failed.expect(&rt, "a failure");
    equal(&rt, number, 1);
    equal(&rt, error.kind(), io::ErrorKind::NotFound);
}
