//! Programs whose threads work in rounds, and where these wait for each other. A thread *arrives* when it has done its part of a
//! round. The leader *releases* the round once all have arrived and its frame is taken; then they go on.

ghost use Rattle.std.specs.Prelude.{◌≡◌, ℕ, ◌+◌, ◌*◌, ◌^◌, ◌<◌, ◌≤◌, ◌∷◌, IfOk, vec_len, length, map};
ghost use Rattle.puffin.specs.Code.{OrNothing};
ghost use Rattle.puffin.specs.Places.{details_in};
ghost use Rattle.puffin.specs.Rounds.{RoundsShow};

use crate::global_profiler::Emitted;
use crate::light::outcome::{Outcome, Settings};
use crate::light::program::{Frames, run_named};
use crate::light::ready::{AnyProgram, Ready, ThreadEnd, end};
use crate::light::scopes::{Records, Scopes};
use crate::thread_profiler::{NsSource, Reporter};
use puffin_data::Result;
use std::io;
use std::rt::Clock;
use std::sync::atomic::{AtomicBool, Ordering};
use std::sync::{Condvar, Wait};
use std::thread::Threads;

/// How many threads work in rounds, the leader among them, and what wakes those that wait.
#[derive(Drop)]
pub(crate) struct Meeting {
    /// How many threads meet.
    pub(crate) threads: u64,
    /// Notified when all threads have arrived.
    pub(crate) arrived: Condvar,
    /// Notified when a round is released.
    pub(crate) released: Condvar,
    ghost some: { 0 < threads },
}

impl Meeting {
    /// Makes a meeting of this number of threads.
    pub(crate) fn new(threads: u64) -> Meeting
        requires { 0 < threads }
        ensures { result.threads ≡ threads }
    {
        Meeting {
            threads,
            arrived: Condvar::new(),
            released: Condvar::new(),
        }
    }

    /// Returns this number of rounds, or a smaller one for which the arrivals of all threads can be counted.
    pub(crate) fn most_rounds(&self, rounds: usize) -> usize
        ensures within { result ≤ rounds }
        ensures fit { (round : ℕ) → round < result →
            self.now.threads * (round + 1) < 2 ^ 64 }
    {
        rounds.min((u64::MAX / self.threads) as usize)
    }
}

/// What a thread that works in rounds does with its reporter: says that it has arrived, and waits until the round is released.
pub(crate) trait Meets: Reporter {
    ghost use Rattle.std.specs.Prelude.{◌≡◌, ◌++◌, ◌∷◌, [], List};
    ghost use Rattle.puffin.specs.Happenings.{Happening, marked, arrived, saw_released};
    ghost use Rattle.puffin.specs.Telling.{KeepsReports};

    /// All that happened through the reporter's share.
    ghost told: { Self → List Happening };

    /// Says that the thread has arrived at the end of a round.
    fn arrive(&mut self, meeting: &Meeting)
        ensures { told self.new ≡ told self.old ++ marked arrived ∷ [] };

    /// Waits until this number of rounds is released.
    fn wait_released(&mut self, meeting: &Meeting, rounds: u64)
        ensures { told self.new ≡ told self.old ++ marked (saw_released rounds) ∷ [] };

    /// An accepted report is added to `told`; a refused one leaves `told` as it was.
    ghost keeps: { KeepsReports Self.accepts Self.refuses told };
}

/// What a leader of rounds does: waits until all threads have arrived, takes the round's frame, and releases the round.
pub(crate) trait Gathers: Frames {
    ghost use Rattle.std.specs.Prelude.{◌≡◌, ◌++◌, ◌∷◌, [], List};
    ghost use Rattle.puffin.specs.Happenings.{Happening, marked, released, saw_arrived, frames_in};
    ghost use Rattle.puffin.specs.Taking.{FramesOnce};

    /// All that happened through the share with which frames are taken.
    ghost told: { Self → List Happening };

    /// Waits until threads have arrived this many times.
    fn wait_arrived(&mut self, meeting: &Meeting, arrivals: u64)
        ensures { told self.new ≡ told self.old ++ marked (saw_arrived arrivals) ∷ [] };

    /// Takes a frame as [`Frames::new_frame`] does.
    fn take(&mut self) -> Result<Emitted>
        ensures { FramesOnce (told self.old) (told self.new) };

    /// Releases a round.
    fn release(&mut self, meeting: &Meeting)
        ensures { told self.new ≡ told self.old ++ marked released ∷ [] };

    /// The frames that were taken are those in `told`.
    ghost taken_is: { (frames : Self) → Self.taken frames ≡ frames_in (told frames) };
}

/// A program whose threads each do a part of every round. All threads share it by `&`, and each keeps a state of its own from
/// round to round: `()`, if it needs none.
pub trait Rounds {
    ghost use Rattle.std.specs.Prelude.{ℕ, Bool, false};
    ghost use Rattle.puffin.specs.Code.{Code, OrNothing};
    ghost use Rattle.puffin.specs.Telling.{RunsAs, LeadsAs};

    /// A thread's state, which only that thread reads and changes. It never leaves that thread, but the proof of [`run_rounds`]
    /// needs it to be `Send`.
    type State: Drop + Send;

    /// Whether the program states which code its threads and its leader run. It doesn't, unless you write this, [`Rounds::runs`]
    /// and [`Rounds::leads`].
    ghost states: { Self → Bool } = { λ program. false };

    /// Whether the thread with this number may run this code in the round with this number.
    ghost runs: { Self → ℕ → ℕ → Code → Type 0 } = { λ program number round code. Unit {0} };

    /// Whether the leader may run this code in the round with this number. It may also run none.
    ghost leads: { Self → ℕ → Code → Type 0 } = { λ program round code. ⊥ };

    /// Makes the state of one thread. It is called once, on that thread, before the first round. If it fails, the first round is
    /// the last one, that thread does no part of it, and its error is in [`Outcome::failed`].
    fn state<R: Wait>(&self, rt: &R, number: usize) -> io::Result<Self::State>;

    /// Does one thread's part of a round. Threads are numbered from 0, in the order of the names passed to [`run_rounds`], and
    /// rounds from 0. `part` is called for each thread in every round, so let it do nothing for a thread whose work is finished.
    /// If it fails, the round is the last one, and its error is in [`Outcome::failed`]. The round's frame is taken as always.
    fn part<R: Wait, T: Records>(
        &self,
        rt: &R,
        number: usize,
        round: usize,
        state: &mut Self::State,
        thread: &mut T,
    ) -> io::Result<()>
        ensures { RunsAs (states self.now) (runs self.now number round) T.begins T.ends
            thread.old result thread.new };

    /// Does the leader's part of a round, on the thread that called [`run_rounds`], while the threads do theirs. The scopes that
    /// it begins are in the round's frame. Does nothing, unless you write this method.
    fn lead<R: Wait, T: Records>(&self, _rt: &R, _round: usize, _thread: &mut T)
        ensures { LeadsAs (states self.now) (OrNothing (leads self.now _round)) T.begins T.ends
            _thread.old _thread.new }
    {}

    /// Returns whether there is another round after this one. The leader calls it after each round, with what taking the
    /// round's frame returned, so this is also the place to write the frame to a file. With `frames` it can make the next frame
    /// list every known scope, if a new file begins with it. Returns true, unless you write this method: then [`run_rounds`]
    /// runs all its rounds.
    fn goes_on<R: Wait, F: Frames>(
        &self,
        _rt: &R,
        _round: usize,
        _taken: &Result<Emitted>,
        _frames: &F,
    ) -> bool {
        true
    }
}

/// A number of rounds of a program. All threads meet at the end of each.
#[derive(Drop)]
struct InRounds<'p, W> {
    program: &'p W,
    rounds: usize,
    /// Whether a thread has failed.
    failed: AtomicBool,
    /// Whether the round that was released last is the last one.
    over: AtomicBool,
    meeting: Meeting,
}

impl<C: NsSource + Drop, W: Rounds> AnyProgram<Ready<C>> for InRounds<'_, W> {
    ghost use Rattle.std.specs.Prelude.{◌≡◌, [], string_bytes};
    ghost use Rattle.puffin.specs.Code.{OrNothing};
    ghost use Rattle.puffin.specs.Places.{num_known};
    ghost use Rattle.puffin.specs.Rounds.{HasRunRoundsAs, HasLedRoundsAs, TakesTurns};

    ghost tells = { λ ready rounds number ended before after. before ≡ [] →
        HasRunRoundsAs (W.states rounds.program.now) (W.runs rounds.program.now number)
        rounds.rounds (string_bytes ready.name) (num_known ready.scopes) ended.result after
        ended.unreported };

    ghost leads = { λ ready rounds unreported before after. before ≡ [] →
        HasLedRoundsAs (W.states rounds.program.now)
        (λ round. OrNothing (W.leads rounds.program.now round)) rounds.rounds
        (string_bytes ready.name) (num_known ready.scopes) after unreported };

    ghost takes = { λ ready rounds told. TakesTurns rounds.meeting.threads rounds.rounds told };

    /// Makes the thread's state, and does its part of each round until the leader has stored that the round was the last one. A
    /// thread that failed still arrives, so that the others don't wait for it.
    fn run<R: Wait, P: Meets>(
        &self,
        rt: &R,
        number: usize,
        thread: Ready<C>,
        reporter: P,
    ) -> (ThreadEnd, P) {
        let mut thread = thread.start(reporter);
        let mut state = self.program.state(rt, number);
        for round in 0..self.meeting.most_rounds(self.rounds) {
            state = match state {
                Ok(mut values) => match self
                    .program
                    .part(rt, number, round, &mut values, &mut thread)
                {
                    Ok(()) => Ok(values),
                    Err(e) => Err(e),
                },
                Err(e) => Err(e),
            };
            if state.is_err() {
                self.failed.store(true, Ordering::SeqCst);
            }
            thread.arrive(&self.meeting);
            thread.wait_released(&self.meeting, round as u64 + 1);
            if self.over.load(Ordering::SeqCst) {
                break;
            }
        }
        let result = match state {
            Ok(_) => Ok(()),
            Err(e) => Err(e),
        };
        let (ended, reporter, _scopes) = end(thread, result);
        (ended, reporter)
    }

    /// Leads each round: does the leader's part, waits until all have arrived, takes the frame, and releases the round.
    fn lead<R: Wait, P: Meets, F: Gathers>(
        &self,
        rt: &R,
        thread: Ready<C>,
        reporter: P,
        frames: &mut F,
    ) -> (ThreadEnd, P) {
        let mut thread = thread.start(reporter);
        for round in 0..self.meeting.most_rounds(self.rounds) {
            self.program.lead(rt, round, &mut thread);
            thread.arrive(&self.meeting);
            frames.wait_arrived(&self.meeting, self.meeting.threads * (round as u64 + 1));
            let taken = frames.take();
            let goes_on = self.program.goes_on(rt, round, &taken, &*frames)
                && !self.failed.load(Ordering::SeqCst);
            // Stored before the release, so that each thread that goes on sees it.
            self.over.store(!goes_on, Ordering::SeqCst);
            frames.release(&self.meeting);
            thread.wait_released(&self.meeting, round as u64 + 1);
            if !goes_on {
                break;
            }
        }
        let (ended, reporter, _scopes) = end(thread, Ok(()));
        (ended, reporter)
    }
}

/// Runs a program for at most this number of rounds, with one thread for each of these names, and takes a frame after each round.
/// [`Rounds::goes_on`] may end the program before; pass `usize::MAX` if it alone is to end it. A thread that fails ends it after
/// its round. If taking a frame fails, its scopes are in the next one; after the last round they are counted as pending.
///
/// Fails as [`run_threads`](crate::light::run_threads) does; no round has begun then. If the program states its code, the frames show it
/// as those of `run_threads` do: the code of each thread is that of its rounds, one after the other. If each round had a frame, its
/// scopes are in that frame alone, but for those whose report was refused, which are in a later one.
///
/// ```
/// let names = ["north", "east", "south", "west"];
/// let outcome = run_rounds(rt, &names, &scopes, &Settings::default(), 10, &game)?;
/// save(&rt, "frames.puffin", &outcome.view.lock(&rt))?;
/// ```
pub fn run_rounds<R: AllocGlobal + Threads + Wait + Clock + Copy + Send + Sync, W: Rounds + Sync>(
    rt: R,
    names: &[&str],
    scopes: &Scopes,
    settings: &Settings,
    rounds: usize,
    program: &W,
) -> io::Result<Outcome>
    ensures threads { IfOk result (λ outcome. vec_len outcome.threads ≡ length names.now) }
    ensures shows { IfOk result (λ outcome.
        RoundsShow (W.states program.now) (length (details_in scopes.now)) rounds
        (λ round. OrNothing (W.leads program.now round)) (W.runs program.now)
        (settings.now.leader.now ∷ map (λ name. name.now) names.now) outcome) }
{
    let threads = names.len() as u64 + 1;
    let program = InRounds {
        program,
        rounds,
        failed: AtomicBool::new(false),
        over: AtomicBool::new(false),
        meeting: Meeting::new(threads),
    };
    run_named(rt, names, scopes, settings, &program)
}
