//! The scopes of a program's leader.

use crate::equal::equal;
use puffin::frame_data::FrameData;
use puffin::global_profiler::{Emitted, Settled};
use puffin::light::{
    Frames, Place, Program, Records, Rounds, Scopes, Settings, ThreadCounts, run_rounds,
    run_threads,
};
use puffin::{Result, place, profile};
use std::alloc::Global;
use std::io;
use std::sync::Wait;
use std::sync::atomic::{AtomicUsize, Ordering};
use std::time::Duration;

/// A function of the leader, one of the threads, and a place of other scopes.
#[derive(Drop)]
struct Places {
    steer: Place,
    row: Place,
    foreign: Place,
}

/// Registers the places, the last one in scopes that no thread knows.
fn registered(alloc: Global) -> Result<(Scopes, Places)> {
    let mut others = Scopes::new(alloc)?;
    let _first = place!(others, "first")?;
    let _second = place!(others, "second")?;
    let foreign = place!(others, "third")?;
    let mut scopes = Scopes::new(alloc)?;
    let places = Places {
        steer: place!(scopes, "steer")?,
        row: place!(scopes, "row")?,
        foreign,
    };
    Ok((scopes, places))
}

/// Makes counts of scopes that were all reported.
fn reported(reported: u64) -> ThreadCounts {
    ThreadCounts {
        reported,
        unreported: 0,
        refused: 0,
        left_open: 0,
    }
}

/// Whether a frame has a stream of a thread with this name.
fn has_thread(frame: &FrameData, name: &str) -> bool {
    match frame.as_unpacked() {
        Some(frame) => frame
            .thread_streams
            .keys()
            .any(|thread| thread.name.as_str() == name),
        None => false,
    }
}

/// In round `n`, counted from 0, the leader opens `n` scopes, and each thread one.
impl Rounds for Places {
    type State = ();

    fn state<R: Wait>(&self, _rt: &R, _number: usize) -> io::Result<()> {
        Ok(())
    }

    fn part<R: Wait, T: Records>(
        &self,
        _rt: &R,
        _number: usize,
        _round: usize,
        _state: &mut (),
        thread: &mut T,
    ) -> io::Result<()> {
        profile!(_row, thread, self.row);
        Ok(())
    }

    fn lead<R: Wait, T: Records>(&self, _rt: &R, round: usize, thread: &mut T) {
        for _ in 0..round {
            profile!(_steer, thread, self.steer);
        }
    }
}

#[test]
fn the_leader_s_part_of_a_round_is_in_its_frame(rt: HostRuntime) {
    let (scopes, places) = registered(rt.alloc()).expect(&rt, "the places");
    let settings = Settings {
        leader: "helm",
        ..Settings::default()
    };
    let outcome = run_rounds(rt, &["a", "b"], &scopes, &settings, 4, &places).expect(
        &rt,
        "the rounds",
    );
    equal(&rt, outcome.leader, reported(6));
    equal(&rt, outcome.threads.len(), 2);
    let settled = Settled {
        reported: 14,
        handed: 14,
        pending: 0,
    };
    equal(&rt, outcome.settled, settled);
    let view = outcome.view.lock(&rt);
    let mut expected = 2;
    for frame in view.recent_frames() {
        equal(&rt, frame.meta().num_scopes, expected);
        expected = expected.saturating_add(1);
    }
    equal(&rt, expected, 6);
    let last = view.latest_frame().expect(&rt, "a frame");
    equal(&rt, has_thread(last, "helm"), true);
}

/// A program whose leader opens a scope before its frame and one after it, and one that is refused.
#[derive(Drop)]
struct Watch {
    places: Places,
}

impl Program for Watch {
    fn work<R: Wait, T: Records>(&self, _rt: &R, _number: usize, thread: &mut T) -> io::Result<()> {
        profile!(_row, thread, self.places.row);
        Ok(())
    }

    fn lead<R: Wait, T: Records, F: Frames>(&self, _rt: &R, thread: &mut T, frames: &mut F) {
        {
            profile!(steer, thread, self.places.steer, "until all are done");
            profile!(_foreign, steer, self.places.foreign);
            let _works = frames.wait(Duration::from_secs(3_600));
        }
        let _emitted = frames.new_frame();
        profile!(_steer, thread, self.places.steer);
        let _none = frames.new_frame();
    }
}

#[test]
fn a_leader_s_scopes_are_counted_apart_from_the_threads(rt: HostRuntime) {
    let (scopes, places) = registered(rt.alloc()).expect(&rt, "the places");
    let watch = Watch { places };
    let outcome = run_threads(rt, &["a", "b"], &scopes, &Settings::default(), &watch).expect(
        &rt,
        "the threads",
    );
    let counts = ThreadCounts {
        reported: 2,
        unreported: 0,
        refused: 1,
        left_open: 0,
    };
    equal(&rt, outcome.leader, counts);
    equal(&rt, outcome.threads.first().copied(), Some(reported(1)));
    let settled = Settled {
        reported: 4,
        handed: 3,
        pending: 1,
    };
    equal(&rt, outcome.settled, settled);
    equal(&rt, (outcome.frames, outcome.missed), (1, 0));
    let view = outcome.view.lock(&rt);
    let frame = view.latest_frame().expect(&rt, "a frame");
    equal(&rt, has_thread(frame, "leader"), true);
}

/// A program that ends after three rounds, and counts the frames that its leader is shown.
#[derive(Drop)]
struct Ending {
    places: Places,
    shown: AtomicUsize,
}

impl Rounds for Ending {
    type State = ();

    fn state<R: Wait>(&self, _rt: &R, _number: usize) -> io::Result<()> {
        Ok(())
    }

    fn part<R: Wait, T: Records>(
        &self,
        _rt: &R,
        _number: usize,
        _round: usize,
        _state: &mut (),
        thread: &mut T,
    ) -> io::Result<()> {
        profile!(_row, thread, self.places.row);
        Ok(())
    }

    fn goes_on<R: Wait, F: Frames>(
        &self,
        _rt: &R,
        round: usize,
        taken: &Result<Emitted>,
        _frames: &F,
    ) -> bool {
        if let Ok(emitted) = taken
            && emitted.frame.is_some()
        {
            self.shown.fetch_add(1, Ordering::SeqCst);
        }
        round < 2
    }
}

#[test]
fn the_leader_decides_after_each_round_whether_there_is_another(rt: HostRuntime) {
    let (scopes, places) = registered(rt.alloc()).expect(&rt, "the places");
    let ending = Ending {
        places,
        shown: AtomicUsize::new(0),
    };
    let outcome = run_rounds(
        rt,
        &["a", "b"],
        &scopes,
        &Settings::default(),
        usize::MAX,
        &ending,
    )
    .expect(&rt, "the rounds");
    equal(&rt, outcome.leader, reported(0));
    equal(&rt, (outcome.frames, outcome.missed), (3, 0));
    let settled = Settled {
        reported: 6,
        handed: 6,
        pending: 0,
    };
    equal(&rt, outcome.settled, settled);
    equal(&rt, ending.shown.load(Ordering::SeqCst), 3);
}

#[test]
fn a_program_ends_with_its_last_round(rt: HostRuntime) {
    let (scopes, places) = registered(rt.alloc()).expect(&rt, "the places");
    let ending = Ending {
        places,
        shown: AtomicUsize::new(0),
    };
    let outcome = run_rounds(rt, &["a", "b"], &scopes, &Settings::default(), 2, &ending).expect(
        &rt,
        "the rounds",
    );
    equal(&rt, (outcome.frames, outcome.missed), (2, 0));
    equal(&rt, ending.shown.load(Ordering::SeqCst), 2);
}
