//! A profiler that several threads share.
//!
//! The clause `requires boxed_sinks { ⊤ }` asks nothing; the head of the module above says why it is there.
ghost use Rattle.std.specs.Prelude.{◌≡◌, ◌+◌, ◌<◌, ◌≤◌, ◌^◌, ◌↔◌, length, vec_len, All, OnOk, OnErr, IfOk, IfErr, ⊤, IsOkUnless, IsTrue};
ghost use Rattle.std.specs.FinMap as map;
ghost use Rattle.std.specs.List.{list_any};
ghost use Rattle.std.specs.Arc.{arc_value};
ghost use Rattle.puffin_data.specs.Honesty.{IsHonestReport, facts_of_ref};
ghost use Rattle.puffin_threads.specs.Thread.ThreadKey.{key_of};
ghost use Rattle.puffin_threads.specs.Details.{details_seen, lacks_id, AllHaveIds};
ghost use Rattle.puffin_frames.specs.Frame.Contents.{Streams, frame_details};
ghost use Rattle.puffin_frames.specs.Frame.Sums.{total_scopes};
ghost use Rattle.puffin.specs.Profiler.{collected_of};
ghost use Rattle.puffin.specs.Shares.{with_reported, CountsFrame, SpellsItsScopes};
ghost use Rattle.puffin.specs.SharedCauses.{IsReportCause, IsScopesCause, IsFrameCause, IsAddingCause, IsSinkCause, IsDetailsCause};
ghost use Rattle.puffin.specs.Happenings.{History, reported, arrived, released, saw_arrived, saw_released};
ghost use Rattle.puffin.specs.Members.{IsNewMember, Told, TakesFrame, Marks, all_reported, all_handed};
ghost use Rattle.puffin.specs.Leaving.{accounts_of};
ghost use Rattle.puffin.specs.Recounted.{Recounts};

use crate::global_profiler::booked::{Booked, Settled};
use crate::global_profiler::event::Event;
use crate::global_profiler::profiler::GlobalProfiler;
use crate::global_profiler::share::{Parts, Share};
use crate::global_profiler::sink::{FrameSinkId, Sink};
use history::{History, NewLog};
use puffin_collector::{Emitted, Totals};
use puffin_data::data::{ScopeId, StreamInfoRef};
use puffin_data::{Error, Result};
use puffin_frames::frame_data::FrameData;
use puffin_threads::scope_details::{ScopeDetails, ScopeIds};
use puffin_threads::thread_profiler::ThreadInfo;
use std::alloc::Global;
use std::hint::spin_loop;
use std::sync::ledger::{Blank, Ledger};
use std::sync::{Arc, Condvar, Mutex, MutexGuard, Wait};
use std::thread::yield_now;

/// The number of times that a thread tries the lock again before it sleeps.
const LOOKS: u32 = 20;
/// The number of spin-loop hints in the first pause.
const FIRST_PAUSES: u32 = 64;
/// The number of pauses that are each twice as long as the one before. Later ones all have the same length, and let other
/// threads run.
const GROWING: u32 = 4;

/// Pauses before the lock is tried again. `looks` is the number of earlier pauses. The first few are each twice as long as the
/// one before, so that a thread waits at most about twice as long as it has to.
fn pause(looks: u32) {
    for _ in 0..FIRST_PAUSES << looks.min(GROWING) {
        spin_loop();
    }
    if looks > GROWING {
        yield_now();
    }
}

/// A profiler behind a lock, for several threads. Each method except `clone` and `lock` waits for the lock and calls
/// [`Booked`]'s method of the same name under it.
///
/// A thread reports through its [`Share`], with a [`SharedReporter`](crate::global_profiler::SharedReporter). Whoever takes
/// frames has a share too. `L` and `M` name two ledgers, one of the scopes reported and one of the scopes handed out, and `L`
/// also names the history of both. A function that opens a profiler is generic over both; call it with `std::marker::Brand` for
/// each, as `docs/THREADS.md` shows.
#[derive(Drop)]
pub struct SharedProfiler<L: Ledger + History, M: Ledger> {
    booked: Arc<Mutex<Booked<L, M>>>,
}

impl<L: Ledger + History, M: Ledger> SharedProfiler<L, M> {
    /// Puts a profiler behind a lock, and makes `n` shares of its counts and of its history. The profiler must not have had any
    /// scopes reported to it yet, and `n` must be at least 1. `reported` must be the `Blank` of the ledger `L` and `handed` that
    /// of `M`, each with `n` parts, and `log` must be that of the history `L`.
    ///
    /// Fails with `Memory`, and then returns the profiler.
    ///
    /// ```
    /// let opened = SharedProfiler::<L, M>::open(alloc, GlobalProfiler::new(alloc), 5, reported, handed, log);
    /// let Ok((profiler, shares)) = opened else { return Err(Error::Memory) };
    /// ```
    pub fn open(
        alloc: Global,
        profiler: GlobalProfiler,
        n: usize,
        reported: Blank,
        handed: Blank,
        log: NewLog<Event>,
    ) -> std::result::Result<(SharedProfiler<L, M>, Vec<Share<L, M>>), (Error, GlobalProfiler)>
        requires fresh { ((collected_of profiler).reported ≡ 0)
            × ((collected_of profiler).emitted ≡ 0) }
        requires some { 0 < n }
        requires reported { (reported.name ≡ L.name)
            × (reported.parts ≡ L.parts)
            × (reported.parts ≡ n) }
        requires handed { (handed.name ≡ M.name)
            × (handed.parts ≡ M.parts)
            × (handed.parts ≡ n) }
        requires log { log.name ≡ L.history }
        ensures shares { IfOk result (λ opened.
            (vec_len opened.1 ≡ n) × All IsNewMember opened.1.items) }
        ensures err { IfErr result (λ refused. refused.0 ≡ Error.Memory) }
    {
        let (reported, all_reported) = reported.open::<L>();
        let (handed, all_handed) = handed.open::<M>();
        let mut log = log.open::<L>();
        let Ok(shares) = Share::split(alloc, n, all_reported, all_handed, &mut log) else {
            return Err((Error::Memory, profiler));
        };
        let parts = Parts::new(n as u64);
        match Arc::new(
            alloc,
            Mutex::new(Booked::new(profiler, reported, handed, parts, log)),
        ) {
            Ok(booked) => Ok((SharedProfiler { booked }, shares)),
            Err(refused) => Err((Error::Memory, refused.value.into_inner().into_profiler())),
        }
    }

    /// Returns another handle to this profiler. Fails only with `Memory`.
    pub fn clone(&self) -> Result<SharedProfiler<L, M>>
        requires boxed_sinks { ⊤ }
        ensures cause { IsOkUnless result Error.Memory }
    {
        Ok(SharedProfiler {
            booked: Arc::try_clone(&self.booked)?,
        })
    }

    /// Waits for the lock, and returns a guard that lends the protected value. The lock is held until the guard is dropped.
    ///
    /// A thread tries the lock several times, with pauses in between, before it sleeps: most calls hold the lock for less time
    /// than waking a thread takes.
    #[inline]
    pub fn lock(&self, rt: &impl Wait) -> MutexGuard<'_, Booked<L, M>>
        requires boxed_sinks { ⊤ }
    {
        match self.booked.try_lock() {
            Some(guard) => guard,
            None => self.lock_later(rt),
        }
    }

    /// Tries the lock several times, with pauses in between, and then sleeps until it is free.
    #[cold]
    #[inline(never)]
    fn lock_later(&self, rt: &impl Wait) -> MutexGuard<'_, Booked<L, M>>
        requires boxed_sinks { ⊤ }
    {
        for look in 0..LOOKS {
            pause(look);
            if let Some(guard) = self.booked.try_lock() {
                return guard;
            }
        }
        self.booked.lock(rt)
    }

    /// Calls [`Booked::report`] under the lock. A report that is accepted is the last entry of the history that the share
    /// has then seen.
    #[inline(always)]
    pub fn report(
        &self,
        rt: &impl Wait,
        share: &mut Share<L, M>,
        info: ThreadInfo,
        details: &[ScopeDetails],
        times: &StreamInfoRef,
    ) -> Result<()>
        requires { IsHonestReport times.now }
        ensures counted { OnOk result (
            share.new.counts ≡ with_reported share.old.counts times.now.num_scopes) }
        ensures told { OnOk result (
            Told share.old (reported (key_of info) (facts_of_ref times.now)) share.new) }
        ensures fits { OnOk result (length (facts_of_ref times.now).bytes < 2 ^ 64) }
        ensures ids { OnOk result (AllHaveIds (details_seen details.now)) }
        ensures unchanged { OnErr result (share.new ≡ share.old) }
        ensures cause { IfErr result (IsReportCause (details_seen details.now)) }
    {
        let _length = times.stream.len();
        self.lock(rt).report(share, info, details, times)
    }

    /// Under the lock, appends the caller's own scopes to those that wait for the next frame. If that succeeds, the share counts
    /// them, and they are the last entry of the history that it has then seen; otherwise nothing changes.
    pub fn report_user_scopes(
        &self,
        rt: &impl Wait,
        share: &mut Share<L, M>,
        info: ThreadInfo,
        times: &StreamInfoRef,
    ) -> Result<()>
        requires { IsHonestReport times.now }
        ensures counted { OnOk result (
            share.new.counts ≡ with_reported share.old.counts times.now.num_scopes) }
        ensures told { OnOk result (
            Told share.old (reported (key_of info) (facts_of_ref times.now)) share.new) }
        ensures unchanged { OnErr result (share.new ≡ share.old) }
        ensures cause { IfErr result IsScopesCause }
    {
        self.lock(rt).report_user_scopes(share, info, times)
    }

    /// Calls [`Booked::register_user_scopes`] under the lock.
    pub fn register_user_scopes(
        &self,
        rt: &impl Wait,
        ids: &ScopeIds,
        details: &[ScopeDetails],
    ) -> Result<Vec<ScopeId>>
        requires boxed_sinks { ⊤ }
        ensures cause { IfErr result IsAddingCause }
    {
        self.lock(rt).register_user_scopes(ids, details)
    }

    /// Calls [`Booked::emit_scope_snapshot`] under the lock.
    pub fn emit_scope_snapshot(&self, rt: &impl Wait)
        requires boxed_sinks { ⊤ }
    {
        self.lock(rt).emit_scope_snapshot();
    }

    /// Calls [`Booked::new_frame`] under the lock, which it holds until all sinks have been called. A frame is the last
    /// entry of the history that the share has then seen, and has just what was reported since the frame before it. Fails only
    /// with `IndexExhausted` or `Memory`.
    ///
    /// ```
    /// let emitted = profiler.new_frame(&rt, &mut share)?;
    /// ```
    pub fn new_frame<R: Wait>(&self, rt: &R, share: &mut Share<L, M>) -> Result<Emitted>
        requires boxed_sinks { ⊤ }
        ensures counted { IfOk result (λ emitted.
            CountsFrame share.old.counts emitted.frame share.new.counts) }
        ensures taken { IfOk result (λ emitted. TakesFrame share.old emitted.frame share.new) }
        ensures spells { IfOk result (λ emitted. SpellsItsScopes emitted.frame) }
        ensures unchanged { OnErr result (share.new ≡ share.old) }
        ensures cause { IfErr result IsFrameCause }
    {
        self.lock(rt).new_frame(rt, share)
    }

    /// Calls [`Booked::add_frame`] under the lock, which it holds until all sinks have been called.
    pub fn add_frame<R: Wait>(&self, rt: &R, frame: Arc<FrameData>) -> Result<usize>
        requires boxed_sinks { ⊤ }
        ensures missing { (result ≡ Err Error.MissingId)
            ↔ IsTrue (list_any lacks_id (frame_details (arc_value frame))) }
        ensures cause { IfErr result IsDetailsCause }
    {
        self.lock(rt).add_frame(rt, frame)
    }

    /// Calls [`Booked::add_sink`] under the lock.
    pub fn add_sink(
        &self,
        rt: &impl Wait,
        sink: Sink,
    ) -> std::result::Result<FrameSinkId, (Error, Sink)>
        requires boxed_sinks { ⊤ }
        ensures err { IfErr result (λ refused.
            (refused.1 ≡ sink) × IsSinkCause refused.0) }
    {
        self.lock(rt).add_sink(sink)
    }

    /// Calls [`Booked::remove_sink`] under the lock.
    pub fn remove_sink(&self, rt: &impl Wait, id: FrameSinkId) -> Option<Sink>
        requires boxed_sinks { ⊤ }
    {
        self.lock(rt).remove_sink(id)
    }

    /// Calls [`Booked::totals`] under the lock.
    pub fn totals(&self, rt: &impl Wait, share: &mut Share<L, M>) -> Totals
        requires boxed_sinks { ⊤ }
        ensures own { (share.old.counts.reported ≤ result.reported)
            × (share.old.counts.handed ≤ result.emitted) }
        ensures same { share.new ≡ share.old }
    {
        self.lock(rt).totals(share)
    }

    /// Calls [`Booked::arrive`] under the lock.
    pub(crate) fn arrive(&self, rt: &impl Wait, share: &mut Share<L, M>) -> u64
        requires boxed_sinks { ⊤ }
        ensures { Marks share.old arrived share.new }
    {
        self.lock(rt).arrive(share)
    }

    /// Calls [`Booked::release`] under the lock.
    pub(crate) fn release(&self, rt: &impl Wait, share: &mut Share<L, M>)
        requires boxed_sinks { ⊤ }
        ensures { Marks share.old released share.new }
    {
        self.lock(rt).release(share);
    }

    /// Waits until threads have arrived at least this many times. `changed` must be notified then.
    pub(crate) fn wait_arrived<R: Wait>(
        &self,
        rt: &R,
        share: &mut Share<L, M>,
        changed: &Condvar,
        arrivals: u64,
    )
        requires boxed_sinks { ⊤ }
        ensures { Marks share.old (saw_arrived arrivals) share.new }
    {
        let mut booked = self.lock(rt);
        for _ in rt.forever() {
            if booked.have_arrived(share, arrivals) {
                return;
            }
            booked = changed.wait(rt, booked);
        }
        unreachable!()
    }

    /// Waits until at least this many rounds were released. `changed` must be notified then.
    pub(crate) fn wait_released<R: Wait>(
        &self,
        rt: &R,
        share: &mut Share<L, M>,
        changed: &Condvar,
        rounds: u64,
    )
        requires boxed_sinks { ⊤ }
        ensures { Marks share.old (saw_released rounds) share.new }
    {
        let mut booked = self.lock(rt);
        for _ in rt.forever() {
            if booked.have_released(share, rounds) {
                return;
            }
            booked = changed.wait(rt, booked);
        }
        unreachable!()
    }

    /// Calls [`Booked::settle`] under the lock. Whoever settles all shares knows the whole history: the frames and then what
    /// is pending spell exactly what each thread reported, in its order.
    ///
    /// ```
    /// if let Ok(Settled { reported, handed, pending }) = profiler.settle(&rt, shares) {
    ///     println!(rt; "{reported} = {handed} + {pending}")?;
    /// }
    /// ```
    pub fn settle(
        &self,
        rt: &impl Wait,
        shares: Vec<Share<L, M>>,
    ) -> std::result::Result<Settled, Vec<Share<L, M>>>
        requires boxed_sinks { ⊤ }
        ensures full { OnOk result (
            (vec_len shares ≡ L.parts) × (vec_len shares ≡ M.parts)) }
        ensures reported { IfOk result (λ settled. settled.reported ≡ all_reported shares.items) }
        ensures handed { IfOk result (λ settled. settled.handed ≡ all_handed shares.items) }
        ensures history { IfOk result (λ settled.
            (log : History) × (streams : Streams)
            × Recounts (vec_len shares) (accounts_of shares.items) log streams
            × (settled.pending ≡ total_scopes (map.values streams))) }
        ensures err { IfErr result (λ returned.
            (returned ≡ shares) × ¬ (vec_len shares ≡ L.parts)) }
    {
        self.lock(rt).settle(shares)
    }
}
