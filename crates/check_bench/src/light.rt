//! Counts and times scopes at places, made with [`puffin::light`] on a thread whose reports aren't kept. Its clock stays at one
//! time, except in work that uses the system's clock.

use crate::scopes::{DEPTH, NESTS, SCOPES, TEXT};
use crate::timing::{Mode, Work};
use crate::{REAL_ROUNDS, clocked_thread, thread, timing};
use anyhow::Result;
use puffin::light::{Place, Records, Scopes, Thread};
use puffin::scope_details::ScopeDetails;
use puffin::thread_profiler::{NsSource, Reporter, ScriptClock, SystemClock, ThreadInfo};
use puffin::{place, profile};
use puffin_data::data::StreamInfoRef;

/// How often each kind of work is run; the fastest run counts.
const ROUNDS: u32 = 4_000;

/// A reporter that accepts everything and counts the reports.
#[derive(Drop)]
struct Reports {
    count: usize,
}

impl Reporter for Reports {
    ghost accepts = { λ _ _ _ _ _. Unit {0} };

    ghost refuses = { λ _ _ _ _ _ _. Unit {0} };

    fn report(
        &mut self,
        _info: ThreadInfo,
        _details: &[ScopeDetails],
        _times: &StreamInfoRef,
    ) -> puffin_data::Result<()> {
        self.count = self.count.saturating_add(1);
        Ok(())
    }
}

type Recorder = Thread<ScriptClock, Reports>;

/// Makes scopes nested `depth` deep.
#[inline(never)]
fn nest<C: NsSource>(thread: &mut Thread<C, Reports>, part: &Place, depth: usize) {
    let mut guard = thread.scope(part);
    if depth > 1 {
        nest(guard.thread(), part, depth - 1);
    }
}

/// Makes scopes with a text, nested `depth` deep.
#[inline(never)]
fn nest_with_text(thread: &mut Recorder, part: &Place, text: &str, depth: usize) {
    let mut guard = thread.scope_with(part, text);
    if depth > 1 {
        nest_with_text(guard.thread(), part, text, depth - 1);
    }
}

/// Makes outermost scopes, one after the other.
#[inline(never)]
fn row(thread: &mut Recorder, part: &Place) {
    for _ in 0..SCOPES {
        profile!(_guard, thread, part);
    }
}

/// A kind of work with scopes at places.
#[derive(Clone, Copy)]
enum LightWork {
    /// Scopes that are switched off.
    Off,
    /// Nests of scopes.
    Nests,
    /// Nests of scopes with a text.
    Text,
    /// Outermost scopes, each of which is reported at its end.
    Outermost,
}

impl LightWork {
    /// Every kind of work.
    const ALL: [LightWork; 4] = [
        LightWork::Off,
        LightWork::Nests,
        LightWork::Text,
        LightWork::Outermost,
    ];

    /// Returns the name under which the time is printed.
    fn name(self) -> &'static str {
        match self {
            LightWork::Off => "light_scope_off",
            LightWork::Nests => "light_scope_on",
            LightWork::Text => "light_scope_text12",
            LightWork::Outermost => "light_outermost",
        }
    }

    /// Makes the scopes of a run.
    #[inline(never)]
    fn run(self, thread: &mut Recorder, part: &Place) {
        match self {
            LightWork::Off | LightWork::Outermost => row(thread, part),
            LightWork::Nests => {
                for _ in 0..NESTS {
                    nest(thread, part, DEPTH);
                }
            }
            LightWork::Text => {
                for _ in 0..NESTS {
                    nest_with_text(thread, part, TEXT, DEPTH);
                }
            }
        }
    }
}

/// Makes the scopes of one kind of work at a place.
#[derive(Drop)]
struct Recording {
    thread: Recorder,
    part: Place,
    work: LightWork,
}

impl Recording {
    /// Makes a thread whose scopes are on, or off for [`LightWork::Off`], and the place of its scopes.
    fn new(rt: &HostRuntime, work: LightWork) -> Result<Recording> {
        let mut scopes = Scopes::new(rt.alloc())?;
        let part = place!(scopes, "recorder", "part")?;
        scopes.set_on(!matches!(work, LightWork::Off));
        let reports = Reports { count: 0 };
        let thread = Thread::new(thread(rt)?, reports, scopes.for_thread()?);
        Ok(Recording { thread, part, work })
    }
}

impl Work for Recording {
    fn run(&mut self) -> Result<usize> {
        self.work.run(&mut self.thread, &self.part);
        Ok(SCOPES)
    }
}

/// Makes nests of scopes with the system's clock.
#[derive(Drop)]
struct Clocked {
    thread: Thread<SystemClock<HostRuntime>, Reports>,
    part: Place,
}

impl Work for Clocked {
    fn run(&mut self) -> Result<usize> {
        for _ in 0..NESTS {
            nest(&mut self.thread, &self.part, DEPTH);
        }
        Ok(SCOPES)
    }
}

/// Counts or times scopes with the system's clock; the unit is a scope.
pub fn run_clocked_light(rt: HostRuntime, mode: Mode) -> Result<()> {
    let mut scopes = Scopes::new(rt.alloc())?;
    let part = place!(scopes, "recorder", "part")?;
    let reports = Reports { count: 0 };
    let mut clocked = Clocked {
        thread: Thread::new(clocked_thread(rt)?, reports, scopes.for_thread()?),
        part,
    };
    timing::run(&rt, mode, "real_light", REAL_ROUNDS, &mut clocked)
}

/// Counts or times each kind of work; the unit is a scope.
pub fn run_light(rt: &HostRuntime, mode: Mode) -> Result<()> {
    for work in &LightWork::ALL {
        let mut recording = Recording::new(rt, *work)?;
        timing::run(rt, mode, work.name(), ROUNDS, &mut recording)?;
    }
    Ok(())
}
