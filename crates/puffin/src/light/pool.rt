//! Pools: threads that take jobs, each of which is recorded under a name of its own.

ghost use Rattle.std.specs.Prelude.{◌≡◌, IfOk, vec_len, length};
ghost use Rattle.puffin.specs.Places.{details_in};
ghost use Rattle.puffin.specs.Shown.{PoolShows};
ghost use Rattle.puffin.specs.Telling.{Named};

use crate::light::outcome::{Outcome, Settings};
use crate::light::program::{Frames, run_named};
use crate::light::ready::{AnyProgram, Ready, ThreadEnd, end};
use crate::light::rounds::{Gathers, Meets};
use crate::light::scopes::{Records, Scopes};
use crate::thread_profiler::SystemClock;
use std::io;
use std::rt::Clock;
use std::sync::Wait;
use std::thread::Threads;

/// A program whose work comes in jobs, for example the connections of a server. Each job is recorded under a name of its own, as
/// if it had a thread of its own. All threads share the pool by `&`.
///
/// ```
/// impl Pool for Server {
///     type Job = Connection;
///
///     fn next<R: Wait>(&self, rt: &R) -> io::Result<Option<(String, Connection)>> {
///         let Some(connection) = self.accept(rt)? else {
///             return Ok(None);
///         };
///         let name = format!(in self.alloc; "connection {}", connection.number)?;
///         Ok(Some((name, connection)))
///     }
///
///     fn work<R: Wait, T: Records>(
///         &self,
///         rt: &R,
///         connection: Connection,
///         thread: &mut T,
///     ) -> io::Result<()> {
///         profile!(_answers, thread, self.answers);
///         connection.answer(rt)
///     }
///
///     fn lead<R: Wait, T: Records, F: Frames>(&self, rt: &R, _thread: &mut T, frames: &mut F) {
///         let _last = frames.take_until_ended(rt, Duration::from_millis(16));
///     }
/// }
/// ```
pub trait Pool {
    ghost use Rattle.std.specs.Prelude.{◌≡◌, ℕ, Bool, false, List, [], IfOk, IfSome, string_bytes};
    ghost use Rattle.puffin_frames.specs.Frame.Contents.{Streams};
    ghost use Rattle.puffin.specs.Code.{Code};
    ghost use Rattle.puffin.specs.Telling.{RunsAs, LeadsAs};

    /// What a job consists of. It never leaves the thread that took it, but the proof of [`run_pool`] needs it to be `Send`.
    type Job: Drop + Send;

    /// Whether the pool states which code its jobs and its leader run. It doesn't, unless you write this, [`Pool::names`],
    /// [`Pool::runs`] and [`Pool::leads`].
    ghost states: { Self → Bool } = { λ pool. false };

    /// Whether a job may have this name.
    ghost names: { Self → Self.Job → List ℕ → Type 0 } = { λ pool job name. Unit {0} };

    /// Whether a job may run this code.
    ghost runs: { Self → Self.Job → Code → Type 0 } = { λ pool job code. Unit {0} };

    /// Whether the leader may run this code.
    ghost leads: { Self → Code → Type 0 } = { λ pool code. Unit {0} };

    /// What the leader states of the frames that it took.
    ghost takes: { Self → List Streams → Type 0 } = { λ pool frames. Unit {0} };

    /// Takes the next job, with the name under which it is recorded, or `None` if there is no other: the thread that asked ends
    /// then. The threads call it at the same time, and whenever they have nothing to do, so it may wait for a job. If it fails,
    /// the thread that asked ends, and the error is in [`Outcome::failed`].
    fn next<R: Wait>(&self, rt: &R) -> io::Result<Option<(String, Self::Job)>>
        ensures { IfOk result (λ next. IfSome next (λ named.
            names self.now named.1 (string_bytes named.0))) };

    /// Does a job. Its scopes begin on `thread`, which has the job's name; two jobs with the same name are two threads of a
    /// frame unless they begin at the same time. If it fails, the thread that did it takes no other job, and the error is in
    /// [`Outcome::failed`].
    fn work<R: Wait, T: Records>(&self, rt: &R, job: Self::Job, thread: &mut T) -> io::Result<()>
        ensures { RunsAs (states self.now) (runs self.now job) T.begins T.ends thread.old result
            thread.new };

    /// Takes frames while the threads work, as [`Program::lead`](crate::light::Program::lead) does.
    fn lead<R: Wait, T: Records, F: Frames>(&self, rt: &R, thread: &mut T, frames: &mut F)
        ensures runs { LeadsAs (states self.now) (leads self.now) T.begins T.ends thread.old
            thread.new }
        ensures takes { F.taken frames.old ≡ [] → takes self.now (F.taken frames.new) };
}

/// A pool whose threads do one job after the other.
#[derive(Drop)]
struct Jobs<'p, W> {
    pool: &'p W,
}

impl<C: Clock + Copy + Drop, W: Pool> AnyProgram<Ready<SystemClock<C>>> for Jobs<'_, W> {
    ghost use Rattle.std.specs.Prelude.{OnOk, string_bytes};
    ghost use Rattle.puffin_data.specs.declared.data.form.Form.{Form};
    ghost use Rattle.puffin.specs.Places.{num_known};
    ghost use Rattle.puffin.specs.Happenings.{frames_in};
    ghost use Rattle.puffin.specs.Telling.{HasLedAs, HaveRunAs, Named};

    ghost tells = { λ ready jobs number ended before after.
        OnOk ended.result (HaveRunAs (W.states jobs.pool.now)
        (Named (W.names jobs.pool.now) (W.runs jobs.pool.now)) (num_known ready.scopes) before
        after ended.unreported) };

    ghost leads = { λ ready jobs unreported before after.
        HasLedAs (W.states jobs.pool.now) (W.leads jobs.pool.now) (string_bytes ready.name)
        Form.Short (num_known ready.scopes) before after unreported };

    ghost takes = { λ ready jobs told. W.takes jobs.pool.now (frames_in told) };

    /// Does one job after the other, until there is none or one fails. The thread goes on under the name of each.
    fn run<R: Wait, P: Meets>(
        &self,
        rt: &R,
        _number: usize,
        thread: Ready<SystemClock<C>>,
        reporter: P,
    ) -> (ThreadEnd, P) {
        let mut reporter = reporter;
        let Ready {
            alloc,
            name: _,
            clock,
            mut scopes,
            max_bytes,
        } = thread;
        let mut ended = ThreadEnd::of_nothing();
        for _ in rt.forever() {
            let (name, job) = match self.pool.next(rt) {
                Ok(Some(next)) => next,
                Ok(None) => return (ended, reporter),
                Err(e) => {
                    ended.result = Err(e);
                    return (ended, reporter);
                }
            };
            let ready = Ready {
                alloc,
                name,
                clock: clock.another(),
                scopes,
                max_bytes,
            };
            let mut thread = ready.start(reporter);
            let result = self.pool.work(rt, job, &mut thread);
            let (of_job, back, known) = end(thread, result);
            ended = ended.followed_by(of_job);
            reporter = back;
            scopes = known;
            if result.is_err() {
                return (ended, reporter);
            }
        }
        unreachable!()
    }

    /// Runs the pool's leader, and reports what is left.
    fn lead<R: Wait, P: Meets, F: Gathers>(
        &self,
        rt: &R,
        thread: Ready<SystemClock<C>>,
        reporter: P,
        frames: &mut F,
    ) -> (ThreadEnd, P) {
        let mut thread = thread.start(reporter);
        self.pool.lead(rt, &mut thread, frames);
        let (ended, reporter, _scopes) = end(thread, Ok(()));
        (ended, reporter)
    }
}

/// Runs a pool: starts this number of threads, which take and do jobs until there is no other, runs the pool's leader on the
/// calling thread, joins all threads and adds up what the leader and they reported. [`Outcome::threads`] has one entry for each of
/// these threads, for all jobs that it did. However many jobs there are, they share this number of threads.
///
/// If the pool states its code, and no job failed, then the frames that the leader took, and what is pending, show of each job whose
/// name neither another job nor the leader has, and of the leader, just the scopes of its code that began.
///
/// Fails as [`run_threads`](crate::light::run_threads) does; no job was taken then.
///
/// ```
/// let outcome = run_pool(rt, 4, &scopes, &Settings::default(), &server)?;
/// ```
pub fn run_pool<R: AllocGlobal + Threads + Wait + Clock + Copy + Send + Sync, W: Pool + Sync>(
    rt: R,
    workers: usize,
    scopes: &Scopes,
    settings: &Settings,
    pool: &W,
) -> io::Result<Outcome>
    ensures threads { IfOk result (λ outcome. vec_len outcome.threads ≡ workers) }
    ensures shows { IfOk result (λ outcome.
        PoolShows (W.states pool.now) (W.takes pool.now) (length (details_in scopes.now))
        (W.leads pool.now) (Named (W.names pool.now) (W.runs pool.now))
        settings.now.leader.now outcome) }
{
    let names = vec![in rt.alloc(); ""; workers]?;
    run_named(rt, &names, scopes, settings, &Jobs { pool })
}
