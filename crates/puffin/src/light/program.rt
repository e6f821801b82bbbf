//! Programs whose threads are profiled.
ghost use Rattle.std.specs.Prelude.{◌≡◌, ◌∷◌, IfOk, IfErr, vec_len, length, map, string_bytes};
ghost use Rattle.puffin.specs.Places.{details_in, num_known};
ghost use Rattle.puffin.specs.Shown.{AreNamed, NamedTold, Shows, leader_first};
ghost use Rattle.puffin.specs.Shares.{SpellsItsScopes};
ghost use Rattle.puffin.specs.SharedCauses.{IsFrameCause};
ghost use Rattle.puffin.specs.Clocks.{StartsAt, AgreeWith};
ghost use Rattle.puffin_threads.specs.Thread.Clock.{clock_start, clock_begun};

use crate::global_profiler::Emitted;
use crate::light::outcome::{Outcome, Settings};
use crate::light::ready::{AnyProgram, Ready, ReadyThreads, ThreadEnd, end};
use crate::light::rounds::{Gathers, Meets};
use crate::light::scopes::{Records, Scopes};
use crate::light::started::{Blanks, run};
use crate::thread_profiler::{NsSource, SystemClock};
use history::NewLog;
use puffin_data::Result;
use std::io;
use std::marker::Brand;
use std::rt::Clock;
use std::sync::Wait;
use std::sync::ledger::Blank;
use std::thread::Threads;
use std::time::Duration;

/// Takes frames of what all threads of a program report.
pub trait Frames {
    ghost use Rattle.std.specs.Prelude.{◌≡◌, List, IfOk, OnErr};
    ghost use Rattle.puffin_frames.specs.Frame.Contents.{Streams};
    ghost use Rattle.puffin.specs.Taking.{IsTaken, TakesMore, TakesLast};

    /// The streams of each frame that was handed out, in order.
    ghost taken: { Self → List Streams };

    /// Hands out everything that was reported since the last frame, if anything was, and adds the frame to the view.
    ///
    /// Fails with `IndexExhausted` or `Memory`; then what was reported waits for the next frame.
    fn new_frame(&mut self) -> Result<Emitted>
        ensures spells { IfOk result (λ emitted. SpellsItsScopes emitted.frame) }
        ensures cause { IfErr result IsFrameCause }
        ensures taken { IfOk result (λ emitted.
            IsTaken (taken self.old) emitted.frame (taken self.new)) }
        ensures unchanged { OnErr result (taken self.new ≡ taken self.old) };

    /// Makes the next frame list every known scope, and not only the new ones, so that a file which begins with that frame has
    /// all names. Allocates nothing.
    fn emit_scope_snapshot(&self);

    /// Returns how many of the program's threads haven't ended. The leader isn't one of them.
    fn num_working(&self) -> usize;

    /// Waits until all threads have ended, whatever they returned, but no longer than this. Returns whether one still works. Once
    /// it has returned false, the next frame has everything that was reported and that no earlier frame has. If the clock can't be
    /// read, it returns at once.
    ///
    /// ```
    /// for _ in rt.forever() {
    ///     let is_last = !frames.wait(Duration::from_millis(16));
    ///     if let Ok(emitted) = frames.new_frame()
    ///         && let Some(frame) = emitted.frame
    ///     {
    ///         let _written = self.writer.lock(rt).write(&frame);
    ///     }
    ///     if is_last {
    ///         break;
    ///     }
    /// }
    /// ```
    fn wait(&self, limit: Duration) -> bool;

    /// Takes a frame each time that this much time has passed, until all threads have ended, whatever they returned, and one more
    /// frame after that, whose result it returns.
    ///
    /// A frame that can't be taken leaves its scopes to the next one. If the last one fails, they wait for another call; if there
    /// is none, [`Outcome::settled`] counts them as pending.
    ///
    /// ```
    /// let _last = frames.take_until_ended(rt, Duration::from_millis(16));
    /// ```
    final fn take_until_ended<R: Wait>(&mut self, rt: &R, every: Duration) -> Result<Emitted>
        ensures spells { IfOk result (λ emitted. SpellsItsScopes emitted.frame) }
        ensures cause { IfErr result IsFrameCause }
        ensures last { IfOk result (λ emitted.
            TakesLast (taken self.old) emitted.frame (taken self.new)) }
        ensures refused { OnErr result (TakesMore (taken self.old) (taken self.new)) }
    {
        for _ in rt.forever() {
            let works = self.wait(every);
            let taken = self.new_frame();
            if !works {
                return taken;
            }
        }
        unreachable!()
    }
}

/// A program whose threads are profiled. All threads share it by `&`; a thread's own state is kept in local variables of
/// `work`.
///
/// ```
/// impl Program for Game {
///     fn work<R: Wait, T: Records>(
///         &self,
///         _rt: &R,
///         _number: usize,
///         thread: &mut T,
///     ) -> io::Result<()> {
///         let mut loaded = false;
///         for _ in 0..10 {
///             profile!(_whole, thread, self.update, if loaded { "warm" } else { "cold" });
///             loaded = true;
///         }
///         Ok(())
///     }
///
///     fn lead<R: Wait, T: Records, F: Frames>(&self, rt: &R, _thread: &mut T, frames: &mut F) {
///         let _last = frames.take_until_ended(rt, Duration::from_millis(16));
///     }
/// }
/// ```
///
/// What is reported after the last frame is in no frame; `Outcome::settled` counts it as pending. Threads and the leader may wait
/// for each other, for example at a `Barrier`, but a thread that fails before it gets there leaves the others waiting forever:
/// [`Frames::wait`] doesn't wait for such a thread.
pub trait Program {
    ghost use Rattle.std.specs.Prelude.{◌≡◌, ℕ, Bool, false, List, []};
    ghost use Rattle.puffin_frames.specs.Frame.Contents.{Streams};
    ghost use Rattle.puffin.specs.Code.{Code};
    ghost use Rattle.puffin.specs.Telling.{RunsAs, LeadsAs};

    /// Whether the program states which code its threads and its leader run. It doesn't, unless you write this, [`Program::runs`]
    /// and [`Program::leads`].
    ghost states: { Self → Bool } = { λ program. false };

    /// Whether the thread with this number may run this code.
    ghost runs: { Self → ℕ → Code → Type 0 } = { λ program number code. Unit {0} };

    /// Whether the leader may run this code.
    ghost leads: { Self → Code → Type 0 } = { λ program code. Unit {0} };

    /// What the leader states of the frames that it took.
    ghost takes: { Self → List Streams → Type 0 } = { λ program frames. Unit {0} };

    /// Does the work of one thread. Threads are numbered from 0, in the order of the names passed to [`run_threads`]. If it fails,
    /// the error is in [`Outcome::failed`], and the other threads go on.
    fn work<R: Wait, T: Records>(&self, rt: &R, number: usize, thread: &mut T) -> io::Result<()>
        ensures { RunsAs (states self.now) (runs self.now number) T.begins T.ends thread.old
            result thread.new };

    /// Takes frames while the threads work, and begins scopes of its own on `thread`. It runs on the thread that called
    /// [`run_threads`]. As on any thread, its scopes are reported when the outermost of them ends, so a frame that is taken within
    /// a scope of the leader has none of its open scopes.
    fn lead<R: Wait, T: Records, F: Frames>(&self, rt: &R, thread: &mut T, frames: &mut F)
        ensures runs { LeadsAs (states self.now) (leads self.now) T.begins T.ends thread.old
            thread.new }
        ensures takes { F.taken frames.old ≡ [] → takes self.now (F.taken frames.new) };
}

/// A program each of whose threads does its work in one go.
#[derive(Drop)]
struct InOneGo<'p, W> {
    program: &'p W,
}

impl<C: NsSource + Drop, W: Program> AnyProgram<Ready<C>> for InOneGo<'_, W> {
    ghost use Rattle.std.specs.Prelude.{string_bytes};
    ghost use Rattle.puffin_data.specs.declared.data.form.Form.{Form};
    ghost use Rattle.puffin.specs.Places.{num_known};
    ghost use Rattle.puffin.specs.Happenings.{frames_in};
    ghost use Rattle.puffin.specs.Telling.{HasRunAs, HasLedAs};

    ghost tells = { λ ready works number ended before after.
        HasRunAs (W.states works.program.now) (W.runs works.program.now number)
        (string_bytes ready.name) Form.Short (num_known ready.scopes) ended.result before after
        ended.unreported };

    ghost leads = { λ ready works unreported before after.
        HasLedAs (W.states works.program.now) (W.leads works.program.now)
        (string_bytes ready.name) Form.Short (num_known ready.scopes) before after unreported };

    ghost takes = { λ ready works told. W.takes works.program.now (frames_in told) };

    /// Does the thread's work, and reports what is left.
    fn run<R: Wait, P: Meets>(
        &self,
        rt: &R,
        number: usize,
        thread: Ready<C>,
        reporter: P,
    ) -> (ThreadEnd, P) {
        let mut thread = thread.start(reporter);
        let result = self.program.work(rt, number, &mut thread);
        let (ended, reporter, _scopes) = end(thread, result);
        (ended, reporter)
    }

    /// Runs the program's leader, and reports what is left.
    fn lead<R: Wait, P: Meets, F: Gathers>(
        &self,
        rt: &R,
        thread: Ready<C>,
        reporter: P,
        frames: &mut F,
    ) -> (ThreadEnd, P) {
        let mut thread = thread.start(reporter);
        self.program.lead(rt, &mut thread, frames);
        let (ended, reporter, _scopes) = end(thread, Ok(()));
        (ended, reporter)
    }
}

/// Prepares a thread under this name and with these settings, with a clock that has the start of this one.
fn prepare<R: AllocGlobal + Clock + Copy>(
    rt: R,
    name: &str,
    clock: &SystemClock<R>,
    scopes: &Scopes,
    settings: &Settings,
) -> io::Result<Ready<SystemClock<R>>>
    ensures clock { IfOk result (λ thread.
        StartsAt (clock_start clock.now) (clock_begun clock.now) thread.clock) }
    ensures name { IfOk result (λ thread. string_bytes thread.name ≡ name.now) }
    ensures scopes { IfOk result (λ thread.
        num_known thread.scopes ≡ length (details_in scopes.now)) }
{
    let name = String::from_str(rt.alloc(), name)?;
    Ok(Ready {
        alloc: rt.alloc(),
        name,
        clock: clock.another(),
        scopes: scopes.for_thread()?,
        max_bytes: settings.max_thread_bytes,
    })
}

/// Prepares a thread for each name, and one for the leader. All have the same clock, the system's.
fn prepare_all<R: AllocGlobal + Clock + Copy>(
    rt: R,
    settings: &Settings,
    names: &[&str],
    scopes: &Scopes,
) -> io::Result<ReadyThreads<Ready<SystemClock<R>>>>
    ensures threads { IfOk result (λ crew. vec_len crew.threads ≡ length names.now) }
    ensures clocks { IfOk result (λ crew.
        AgreeWith (λ thread. thread.clock) crew.leader.clock crew.threads.items) }
    ensures names { IfOk result (λ crew.
        AreNamed (length (details_in scopes.now)) (map (λ name. name.now) names.now)
        crew.threads.items) }
    ensures leader { IfOk result (λ crew.
        (string_bytes crew.leader.name ≡ settings.now.leader.now)
        × (num_known crew.leader.scopes ≡ length (details_in scopes.now))) }
{
    let clock = SystemClock::new(rt)?;
    let mut threads = Vec::new(rt.alloc());
    for name in names {
        threads.push(prepare(rt, name, &clock, scopes, settings)?)?;
    }
    let leader = prepare(rt, settings.leader, &clock, scopes, settings)?;
    Ok(ReadyThreads { leader, threads })
}

/// Runs a program or a pool with a thread for each of these names, and a leader.
pub(crate) fn run_named<
    R: AllocGlobal + Threads + Wait + Clock + Copy + Send + Sync,
    W: AnyProgram<Ready<SystemClock<R>>> + Sync,
>(rt: R, names: &[&str], scopes: &Scopes, settings: &Settings, program: &W) -> io::Result<Outcome>
    ensures threads { IfOk result (λ outcome. vec_len outcome.threads ≡ length names.now) }
    ensures told { IfOk result (λ outcome.
        NamedTold W.tells W.leads W.takes (length (details_in scopes.now)) settings.now.leader.now
        (map (λ name. name.now) names.now) program.now outcome) }
{
    let crew = prepare_all(rt, settings, names, scopes)?;
    let shares = names.len() + 2;
    let blanks = Blanks {
        shares,
        reported: Blank::new(shares as u64),
        handed: Blank::new(shares as u64),
        log: NewLog::new(),
    };
    run::<Brand, Brand, R, Ready<SystemClock<R>>, W>(rt, scopes, settings, crew, program, blanks)
}

/// Runs a program: starts a thread for each of these names, runs the program's leader on the calling thread, joins all threads
/// and adds up what the leader and they reported. No thread begins its work before all of them have been started.
///
/// If the program states its code, and no thread failed, then the frames that the leader took, and what is pending, show of each
/// thread whose name no other has, the leader's among them, just the scopes of its code that began.
///
/// Fails if a clock can't be read, a thread can't be started, or memory runs out. Threads that were already started then end
/// without having begun their work.
///
/// ```
/// let outcome = run_threads(rt, &["loader", "painter"], &scopes, &Settings::default(), &program)?;
/// ```
pub fn run_threads<R: AllocGlobal + Threads + Wait + Clock + Copy + Send + Sync, W: Program + Sync>(
    rt: R,
    names: &[&str],
    scopes: &Scopes,
    settings: &Settings,
    program: &W,
) -> io::Result<Outcome>
    ensures threads { IfOk result (λ outcome. vec_len outcome.threads ≡ length names.now) }
    ensures shows { IfOk result (λ outcome.
        Shows (W.states program.now) (W.takes program.now) (length (details_in scopes.now))
        (leader_first (W.leads program.now) (W.runs program.now))
        (settings.now.leader.now ∷ map (λ name. name.now) names.now) outcome) }
{
    run_named(rt, names, scopes, settings, &InOneGo { program })
}
