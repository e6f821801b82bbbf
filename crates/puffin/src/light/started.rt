//! Threads of a program, from their start until all shares are back.
ghost use Rattle.std.specs.Prelude.{◌≡◌, ◌+◌, ◌<◌, [], IfOk, vec_len, All};
ghost use Rattle.puffin.specs.Shares.{IsBlankFor};
ghost use Rattle.std.specs.FinMap as map;
ghost use Rattle.puffin_frames.specs.Frame.Contents.{Streams};
ghost use Rattle.puffin_frames.specs.Frame.Sums.{total_scopes};
ghost use Rattle.puffin.specs.Members.{IsNewMember, all_handed};
ghost use Rattle.puffin.specs.Happenings.{History};
ghost use Rattle.puffin.specs.Leaving.{accounts_of};
ghost use Rattle.puffin.specs.Recounted.{Recounts};
ghost use Rattle.puffin.specs.Joined.{AreStarted, AreTold, HasTold};

use crate::global_profiler::{
    Event, GlobalFrameView, GlobalProfiler, Share, SharedProfiler, SharedReporter,
};
use crate::light::outcome::{Outcome, Settings};
use crate::light::ready::{AnyProgram, Gate, ReadyThreads};
use crate::light::scopes::Scopes;
use crate::light::shares::{
    Counting, Joined, LeaderShares, Started, ThreadPromise, ThreadReturn, join_all, lead,
};
use history::{History, NewLog};
use puffin_data::Error;
use std::rt::Clock;
use std::snapshot::Snapshot;
use std::sync::Wait;
use std::sync::ledger::{Blank, Ledger};
use std::thread::{Scope, Threads};
use std::{io, thread};

/// Waits at the gate, does a thread's work, and returns its share. Fails if the thread can't begin.
fn work<L: Ledger + History, M: Ledger, R: Wait + Copy, T: Drop, W: AnyProgram<T>>(
    rt: R,
    number: usize,
    profiler: SharedProfiler<L, M>,
    share: Share<L, M>,
    thread: T,
    program: &W,
    gate: &Gate,
) -> io::Result<ThreadReturn<L, M>>
    requires { IsNewMember share }
    ensures { IfOk result (λ back.
        W.tells thread program.now number back.ended [] back.share.own) }
{
    if !gate.may_begin(&rt) {
        return Err(io::Error::from(io::ErrorKind::Interrupted));
    }
    let reporter = Counting::new(SharedReporter::new(rt, profiler, share));
    let (ended, reporter) = program.run(&rt, number, thread, reporter);
    Ok(reporter.into_return(ended))
}

/// Starts a thread that calls [`work`], and then tells the gate that it has ended.
fn start<
    's,
    E,
    L: Ledger + History + Send + 's,
    M: Ledger + Send + 's,
    R: Wait + Copy + Send + 's,
    T: Drop + Send + 's,
    W: AnyProgram<T> + Sync,
>(
    rt: R,
    scope: &Scope<'s, E>,
    number: usize,
    profiler: SharedProfiler<L, M>,
    share: Share<L, M>,
    thread: T,
    program: &'s W,
    gate: &'s Gate,
) -> io::Result<Started<L, M, T, W>>
    requires { IsNewMember share }
    ensures thread { IfOk result (λ handle. handle.promise.thread.value ≡ thread) }
    ensures number { IfOk result (λ handle. handle.promise.number ≡ number) }
    ensures program { IfOk result (λ handle. handle.promise.program.value ≡ program.now) }
{
    let works = ThreadPromise {
        thread: Snapshot::of(&thread),
        number,
        program: Snapshot::of(program),
    };
    Ok(scope.spawn_with(
        works,
        move || -> io::Result<ThreadReturn<L, M>>
            requires { IsNewMember share }
            ensures { IfOk result (λ back.
                W.tells thread program.entry.now number back.ended [] back.share.own) }
        {
            let back = work(rt, number, profiler, share, thread, program, gate);
            gate.leave(&rt);
            back
        },
    )?)
}

/// Starts the program's threads, each with a share of its own. They wait at the gate.
fn start_all<
    's,
    E,
    L: Ledger + History + Send + 's,
    M: Ledger + Send + 's,
    R: AllocGlobal + Threads + Wait + Copy + Send + 's,
    T: Drop + Send + 's,
    W: AnyProgram<T> + Sync,
>(
    rt: R,
    scope: &Scope<'s, E>,
    profiler: &SharedProfiler<L, M>,
    shares: Vec<Share<L, M>>,
    threads: Vec<T>,
    program: &'s W,
    gate: &'s Gate,
) -> io::Result<Vec<Started<L, M, T, W>>>
    requires { All IsNewMember shares.items }
    ensures started { IfOk result (λ started. vec_len started ≡ vec_len threads) }
    ensures each { IfOk result (λ started.
        AreStarted started.items threads.items program.now) }
{
    let mut shares = shares;
    let mut started = Vec::new(rt.alloc());
    for thread in threads {
        let share = shares.pop().ok_or(Error::Memory)?;
        let profiler = profiler.clone()?;
        let number = started.len();
        started.push(start(rt, scope, number, profiler, share, thread, program, gate)?)?;
    }
    Ok(started)
}

/// Starts the program's threads, opens the gate, runs the program's leader, and returns all shares.
///
/// Fails if a thread can't be started or memory runs out; the threads that were started then end without having begun.
fn run_all<
    's,
    E,
    L: Ledger + History + Send + 's,
    M: Ledger + Send + 's,
    R: AllocGlobal + Threads + Wait + Clock + Copy + Send + 's,
    T: Drop + Send + 's,
    W: AnyProgram<T> + Sync,
>(
    rt: R,
    scope: &Scope<'s, E>,
    profiler: &SharedProfiler<L, M>,
    leader_shares: LeaderShares<L, M>,
    shares: Vec<Share<L, M>>,
    crew: ReadyThreads<T>,
    program: &'s W,
    gate: &'s Gate,
) -> io::Result<Joined<L, M>>
    requires { All IsNewMember shares.items }
    ensures threads { IfOk result (λ joined. vec_len joined.counts ≡ vec_len crew.threads) }
    ensures told { IfOk result (λ joined.
        AreTold W.tells W.leads W.takes crew.threads.items crew.leader program.now joined.failed
        joined.counts.items joined.leader joined.frames joined.shares.items) }
{
    let ReadyThreads { leader, threads } = crew;
    let back = Vec::with_capacity(rt.alloc(), threads.len().saturating_add(2))?;
    let counts = Vec::with_capacity(rt.alloc(), threads.len())?;
    let started = start_all(rt, scope, profiler, shares, threads, program, gate);
    gate.open(&rt, started.is_ok());
    let started = started?;
    let (taker, led) = lead(rt, leader_shares, leader, program, gate);
    join_all(&rt, started, taker, led, back, counts)
}

/// Calls [`run_all`] in a thread scope, with a closed gate.
fn run_in_scope<
    L: Ledger + History + Send + Sync,
    M: Ledger + Send + Sync,
    R: AllocGlobal + Threads + Wait + Clock + Copy + Send + Sync,
    T: Drop + Send,
    W: AnyProgram<T> + Sync,
>(
    rt: R,
    profiler: &SharedProfiler<L, M>,
    leader_shares: LeaderShares<L, M>,
    shares: Vec<Share<L, M>>,
    crew: ReadyThreads<T>,
    program: &W,
) -> io::Result<Joined<L, M>>
    requires { All IsNewMember shares.items }
    ensures threads { IfOk result (λ joined. vec_len joined.counts ≡ vec_len crew.threads) }
    ensures told { IfOk result (λ joined.
        AreTold W.tells W.leads W.takes crew.threads.items crew.leader program.now joined.failed
        joined.counts.items joined.leader joined.frames joined.shares.items) }
{
    let gate = Gate::new(crew.threads.len());
    let gate = &gate;
    thread::scope(
        thread::scope_env(),
        &rt,
        move |scope| -> io::Result<Joined<L, M>>
            requires { All IsNewMember shares.items }
            ensures threads { IfOk result (λ joined.
                vec_len joined.counts ≡ vec_len crew.threads) }
            ensures told { IfOk result (λ joined.
                AreTold W.tells W.leads W.takes crew.threads.items crew.leader
                program.entry.now joined.failed joined.counts.items joined.leader
                joined.frames joined.shares.items) }
        {
            run_all(
                rt,
                scope,
                profiler,
                leader_shares,
                shares,
                crew,
                program,
                gate,
            )
        },
    )
}

/// What the two ledgers and the history of a program are opened from.
pub(crate) struct Blanks {
    /// The number of shares, which is also that of the parts of both ledgers.
    pub(crate) shares: usize,
    pub(crate) reported: Blank,
    pub(crate) handed: Blank,
    pub(crate) log: NewLog<Event>,
}

/// A shared profiler with its view, the leader's two shares and a share for each thread.
struct Opened<L: Ledger + History, M: Ledger> {
    profiler: SharedProfiler<L, M>,
    view: GlobalFrameView,
    leader_shares: LeaderShares<L, M>,
    shares: Vec<Share<L, M>>,
    ghost all_new: { All IsNewMember shares.items },
}

impl<L: Ledger + History, M: Ledger> Opened<L, M> {
    /// Opens a new profiler from these blanks, whose first frame lists these places, and whose view has these settings. Fails if
    /// memory runs out.
    fn new<R: AllocGlobal + Wait>(
        rt: &R,
        scopes: &Scopes,
        settings: &Settings,
        blanks: Blanks,
    ) -> io::Result<Opened<L, M>>
        requires some { 0 < blanks.shares }
        requires reported { IsBlankFor L.name L.parts blanks.shares blanks.reported }
        requires handed { IsBlankFor M.name M.parts blanks.shares blanks.handed }
        requires log { blanks.log.name ≡ L.history }
    {
        let Blanks {
            shares,
            reported,
            handed,
            log,
        } = blanks;
        let mut profiler = GlobalProfiler::new(rt.alloc());
        profiler.add_scopes(scopes.details())?;
        profiler.set_max_pending(settings.max_pending_bytes);
        let opened = SharedProfiler::open(rt.alloc(), profiler, shares, reported, handed, log);
        let Ok((profiler, mut shares)) = opened else {
            return Err(io::Error::from(io::ErrorKind::OutOfMemory));
        };
        let taking = shares.pop().ok_or(Error::Memory)?;
        let reporting = shares.pop().ok_or(Error::Memory)?;
        let (frames, reports) = (profiler.clone()?, profiler.clone()?);
        let view = GlobalFrameView::attach(rt, rt.alloc(), &profiler)?;
        settings.set(&mut view.lock(rt));
        Ok(Opened {
            profiler,
            view,
            leader_shares: LeaderShares {
                frames,
                taking,
                reports,
                reporting,
            },
            shares,
        })
    }
}

/// Settles all shares, and returns the program's outcome.
fn settle<L: Ledger + History, M: Ledger, R: Wait>(
    rt: &R,
    profiler: &SharedProfiler<L, M>,
    view: GlobalFrameView,
    joined: Joined<L, M>,
) -> Outcome
    requires { vec_len joined.counts + 2 ≡ L.parts }
    ensures threads { result.threads ≡ joined.counts }
    ensures leader { result.leader ≡ joined.leader }
    ensures failed { result.failed ≡ joined.failed }
    ensures frames { (result.frames ≡ joined.frames) × (result.missed ≡ joined.missed) }
    ensures handed { result.settled.handed ≡ all_handed joined.shares.items }
    ensures history { (log : History) × (streams : Streams)
        × Recounts (vec_len joined.shares) (accounts_of joined.shares.items) log streams
        × (result.settled.pending ≡ total_scopes (map.values streams)) }
{
    let Joined {
        shares,
        counts,
        leader,
        failed,
        frames,
        missed,
    } = joined;
    match profiler.settle(rt, shares) {
        Ok(settled) => Outcome {
            view,
            threads: counts,
            leader,
            failed,
            settled,
            frames,
            missed,
        },
        // All shares are back.
        Err(_) => unreachable!(),
    }
}

/// Opens a shared profiler with a share for each thread and two for the leader, from these blanks, and runs the program.
pub(crate) fn run<
    L: Ledger + History + Send + Sync,
    M: Ledger + Send + Sync,
    R: AllocGlobal + Threads + Wait + Clock + Copy + Send + Sync,
    T: Drop + Send,
    W: AnyProgram<T> + Sync,
>(
    rt: R,
    scopes: &Scopes,
    settings: &Settings,
    crew: ReadyThreads<T>,
    program: &W,
    blanks: Blanks,
) -> io::Result<Outcome>
    requires some { vec_len crew.threads + 2 ≡ blanks.shares }
    requires reported { IsBlankFor L.name L.parts blanks.shares blanks.reported }
    requires handed { IsBlankFor M.name M.parts blanks.shares blanks.handed }
    requires log { blanks.log.name ≡ L.history }
    ensures threads { IfOk result (λ outcome.
        vec_len outcome.threads ≡ vec_len crew.threads) }
    ensures told { IfOk result (λ outcome.
        HasTold W.tells W.leads W.takes crew.threads.items crew.leader program.now outcome) }
{
    let opened = Opened::<L, M>::new(&rt, scopes, settings, blanks)?;
    let Opened {
        profiler,
        view,
        leader_shares,
        shares,
    } = opened;
    let joined = run_in_scope(rt, &profiler, leader_shares, shares, crew, program)?;
    Ok(settle(&rt, &profiler, view, joined))
}
