//! The value that a shared profiler's lock protects.
//!
//! The clause `requires boxed_sinks { ⊤ }` asks nothing; the head of the module above says why it is there.
ghost use Rattle.std.specs.Prelude.{◌≡◌, ◌+◌, ◌≤◌, ◌↔◌, [], vec_len, Some, OnOk, OnErr, IfOk, IfErr, IsTrue, IsFalse, ⊤};
ghost use Rattle.std.specs.FinMap as map;
ghost use Rattle.std.specs.Arc.{arc_value};
ghost use Rattle.history.specs.Entries.{events};
ghost use Rattle.puffin_data.specs.Honesty.{IsHonestReport, facts_of_ref};
ghost use Rattle.puffin_threads.specs.Thread.ThreadKey.{key_of};
ghost use Rattle.puffin_threads.specs.Details.{details_seen};
ghost use Rattle.puffin_frames.specs.Frame.Sums.{total_scopes};
ghost use Rattle.puffin_collector.specs.Collector.State.{after_wanting};
ghost use Rattle.puffin_collector.specs.Collector.Collecting.{CountsScopes};
ghost use Rattle.puffin.specs.Profiler.Calls.{TakesReport, RegistersScopes, HandsOutFrame, AddsFrame, AddsSink, RemovesSink};
ghost use Rattle.puffin.specs.Profiler.{collected_of, SameSinks};
ghost use Rattle.puffin.specs.Shares.{with_reported, CountsFrame};
ghost use Rattle.puffin.specs.Happenings.{reported, Stands, HasMet, AreSeen, AreSeen-prop, arrived, released, saw_arrived, saw_released};
ghost use Rattle.puffin.specs.Members.{Tells, TakesFrame, Marks, all_reported, all_handed};
ghost use Rattle.puffin.specs.Leaving.{accounts_of};
ghost use Rattle.puffin.specs.Recounted.{Recounts};
ghost use Rattle.puffin.specs.Taking.{one_more};

use crate::global_profiler::event::{
    Arrives, Event, Frames, Releases, Report, Reports, SeesArrived, SeesReleased,
};
use crate::global_profiler::leaving::leave_all;
use crate::global_profiler::profiler::GlobalProfiler;
use crate::global_profiler::share::{Parts, Share};
use crate::global_profiler::sink::{FrameSink, FrameSinkId, Sink};
use history::{History, Log};
use puffin_collector::{Emitted, Totals};
use puffin_data::data::{ScopeId, StreamInfoRef};
use puffin_data::{Error, Result};
use puffin_frames::frame_data::FrameData;
use puffin_threads::scope_details::{ScopeDetails, ScopeIds};
use puffin_threads::thread_profiler::ThreadInfo;
use std::snapshot::Snapshot;
use std::sync::ledger::{Book, Ledger};
use std::sync::{Arc, Wait};

/// A profiler with two books for all its shares together: one counts the scopes reported through the shares, and the other the
/// scopes in the frames handed out to the shares. Beside them is the history of all that happened through the shares, which
/// exists in proofs alone: what is pending is just what the history leaves pending, and each frame had just what was due. Each
/// method except `settle` calls [`GlobalProfiler`]'s method of the same name; `report`, `report_user_scopes` and `new_frame` also
/// count the scopes in the share that is passed, and are the next entry of the history.
#[derive(Drop)]
pub struct Booked<L: Ledger + History, M: Ledger> {
    /// Keeps the profiler off the cache line of the lock, which other threads read while one holds it.
    apart: [u64; 16],
    profiler: GlobalProfiler,
    reported: Book<L>,
    handed: Book<M>,
    parts: Parts<L, M>,
    /// How many times a thread has arrived at the end of a round.
    arrived: u64,
    /// How many rounds were released.
    released: u64,
    log: Log<Event, L>,
    ghost reported_is: { reported.total ≡ (collected_of profiler).reported },
    ghost handed_is: { handed.total ≡ (collected_of profiler).emitted },
    ghost authors_are: { log.authors ≡ parts },
    ghost stands: { ∥ Stands (collected_of profiler).streams (events log.entries) ∥₁ },
    ghost met: { HasMet arrived released (events log.entries) },
    ghost seen: { AreSeen 0 0 (events log.entries) } by { AreSeen-prop 0 0 (events log.entries) },
}

/// The counts of all shares of a profiler together, and the number of pending scopes.
#[derive(Clone, Copy, Debug, PartialEq, Eq)]
pub struct Settled {
    /// The number of scopes that were reported through all shares.
    pub reported: u64,
    /// The number of scopes in the frames that were handed out to all shares.
    pub handed: u64,
    /// The number of reported scopes that weren't handed out.
    pub pending: u64,
    ghost sum: { reported ≡ handed + pending },
}

impl<L: Ledger + History, M: Ledger> Booked<L, M> {
    ghost use Rattle.puffin.specs.Booked.{profiler_of, collected_in, entries_of, arrivals_in, releases_in};

    /// Combines a profiler to which no scopes were reported with its books and a log without entries.
    pub(crate) fn new(
        profiler: GlobalProfiler,
        reported: Book<L>,
        handed: Book<M>,
        parts: Parts<L, M>,
        log: Log<Event, L>,
    ) -> Booked<L, M>
        requires fresh { ((collected_of profiler).reported ≡ 0)
            × ((collected_of profiler).emitted ≡ 0) }
        requires books { (reported.total ≡ 0) × (handed.total ≡ 0) }
        requires log { (log.authors ≡ parts) × (log.entries ≡ []) }
        ensures { profiler_of result ≡ profiler }
    {
        // Does nothing; its contract tells the prover that what is pending is honest, and thus without scopes.
        let _totals = profiler.totals();
        Booked {
            apart: [0; 16],
            profiler,
            reported,
            handed,
            parts,
            arrived: 0,
            released: 0,
            log,
        }
    }

    /// Returns the profiler, and drops the rest.
    pub(crate) fn into_profiler(self) -> GlobalProfiler
        ensures { result ≡ profiler_of self }
    {
        let Booked {
            apart: _,
            profiler,
            reported: _,
            handed: _,
            parts: _,
            arrived: _,
            released: _,
            log: _,
        } = self;
        profiler
    }

    /// Reports as [`GlobalProfiler::report`] does. If that succeeds, the share counts the scopes, and the report is the history's
    /// next entry.
    #[inline(always)]
    pub fn report(
        &mut self,
        share: &mut Share<L, M>,
        info: ThreadInfo,
        details: &[ScopeDetails],
        times: &StreamInfoRef,
    ) -> Result<()>
        requires { IsHonestReport times.now }
        ensures reported { TakesReport (profiler_of self.old) (key_of info)
            (details_seen details.now) (facts_of_ref times.now) result (profiler_of self.new) }
        ensures counted { OnOk result (
            share.new.counts ≡ with_reported share.old.counts times.now.num_scopes) }
        ensures told { OnOk result (
            Tells share.old (reported (key_of info) (facts_of_ref times.now))
            (entries_of self.old) share.new) }
        ensures log { OnOk result (entries_of self.new ≡ share.new.seen) }
        ensures unchanged { OnErr result (
            (share.new ≡ share.old) × (entries_of self.new ≡ entries_of self.old)) }
    {
        let key = Snapshot::of(&info);
        self.profiler.report(info, details, times)?;
        self.reported
            .add(&mut share.reported, times.num_scopes as u64);
        let report = Report { info: key, times };
        self.log
            .add::<Report<'_>, Reports>(&mut share.author, &report);
        Ok(())
    }

    /// Reports the caller's own scopes, as [`GlobalProfiler::report_user_scopes`] does. If that succeeds, the share counts the
    /// scopes, and the report is the history's next entry.
    pub fn report_user_scopes(
        &mut self,
        share: &mut Share<L, M>,
        info: ThreadInfo,
        times: &StreamInfoRef,
    ) -> Result<()>
        requires { IsHonestReport times.now }
        ensures reported { TakesReport (profiler_of self.old) (key_of info) []
            (facts_of_ref times.now) result (profiler_of self.new) }
        ensures counted { OnOk result (
            share.new.counts ≡ with_reported share.old.counts times.now.num_scopes) }
        ensures told { OnOk result (
            Tells share.old (reported (key_of info) (facts_of_ref times.now))
            (entries_of self.old) share.new) }
        ensures log { OnOk result (entries_of self.new ≡ share.new.seen) }
        ensures unchanged { OnErr result (
            (share.new ≡ share.old) × (entries_of self.new ≡ entries_of self.old)) }
    {
        self.report(share, info, &[], times)
    }

    /// Registers the caller's own scopes, as [`GlobalProfiler::register_user_scopes`] does.
    pub fn register_user_scopes(
        &mut self,
        ids: &ScopeIds,
        details: &[ScopeDetails],
    ) -> Result<Vec<ScopeId>>
        requires boxed_sinks { ⊤ }
        ensures registered { RegistersScopes (λ scope_ids. scope_ids.items)
            (profiler_of self.old) (details_seen details.now) result (profiler_of self.new) }
        ensures log { entries_of self.new ≡ entries_of self.old }
    {
        self.profiler.register_user_scopes(ids, details)
    }

    /// Makes the next frame list every known scope, as [`GlobalProfiler::emit_scope_snapshot`] does.
    pub fn emit_scope_snapshot(&mut self)
        requires boxed_sinks { ⊤ }
        ensures wants { collected_in self.new
            ≡ after_wanting (collected_in self.old) }
        ensures sinks { SameSinks (profiler_of self.old) (profiler_of self.new) }
        ensures log { entries_of self.new ≡ entries_of self.old }
    {
        self.profiler.emit_scope_snapshot();
    }

    /// Hands out a frame as [`GlobalProfiler::new_frame`] does. If there is one, the share counts its scopes, and the frame is
    /// the history's next entry.
    pub fn new_frame<R: Wait>(&mut self, rt: &R, share: &mut Share<L, M>) -> Result<Emitted>
        requires boxed_sinks { ⊤ }
        ensures handed_out { HandsOutFrame (λ boxed. (FrameSink-box boxed).accepts)
            (profiler_of self.old) result (profiler_of self.new) }
        ensures counted { IfOk result (λ emitted.
            CountsFrame share.old.counts emitted.frame share.new.counts) }
        ensures taken { IfOk result (λ emitted. TakesFrame share.old emitted.frame share.new) }
        ensures unchanged { OnErr result (
            (share.new ≡ share.old) × (entries_of self.new ≡ entries_of self.old)) }
    {
        let emitted = self.profiler.new_frame(rt)?;
        let Some(frame) = &emitted.frame else {
            return Ok(emitted);
        };
        self.handed
            .add(&mut share.handed, frame.meta().num_scopes as u64);
        self.log
            .add::<Arc<FrameData>, Frames>(&mut share.author, frame);
        Ok(emitted)
    }

    /// Hands a frame that was made elsewhere to the sinks, as [`GlobalProfiler::add_frame`] does. No share counts it, and it is no
    /// entry of the history.
    pub fn add_frame<R: Wait>(&mut self, rt: &R, frame: Arc<FrameData>) -> Result<usize>
        requires boxed_sinks { ⊤ }
        ensures added { AddsFrame (λ boxed. (FrameSink-box boxed).accepts)
            (profiler_of self.old) (arc_value frame) result (profiler_of self.new) }
        ensures log { entries_of self.new ≡ entries_of self.old }
    {
        self.profiler.add_frame(rt, frame)
    }

    /// Adds a sink as [`GlobalProfiler::add_sink`] does.
    pub fn add_sink(&mut self, sink: Sink) -> std::result::Result<FrameSinkId, (Error, Sink)>
        requires boxed_sinks { ⊤ }
        ensures added { AddsSink (profiler_of self.old) sink result (profiler_of self.new) }
        ensures log { entries_of self.new ≡ entries_of self.old }
    {
        self.profiler.add_sink(sink)
    }

    /// Removes a sink as [`GlobalProfiler::remove_sink`] does.
    pub fn remove_sink(&mut self, id: FrameSinkId) -> Option<Sink>
        requires boxed_sinks { ⊤ }
        ensures removed { RemovesSink (profiler_of self.old) id result (profiler_of self.new) }
        ensures log { entries_of self.new ≡ entries_of self.old }
    {
        self.profiler.remove_sink(id)
    }

    /// Returns the profiler's totals as [`GlobalProfiler::totals`] does. `reported` and `emitted` are at least the share's counts of
    /// scopes reported and handed out. The share doesn't change.
    pub fn totals(&mut self, share: &mut Share<L, M>) -> Totals
        requires boxed_sinks { ⊤ }
        ensures counted { CountsScopes (collected_in self.old) result }
        ensures own { (share.old.counts.reported ≤ result.reported)
            × (share.old.counts.handed ≤ result.emitted) }
        ensures same { (profiler_of self.new ≡ profiler_of self.old)
            × (entries_of self.new ≡ entries_of self.old)
            × (share.new ≡ share.old) }
    {
        // Both calls do nothing; their contracts tell the prover that no share counts more than its book.
        self.reported.audit(&mut share.reported);
        self.handed.audit(&mut share.handed);
        self.profiler.totals()
    }

    /// Counts that a thread has arrived at the end of a round, and returns how many times one has so far.
    pub(crate) fn arrive(&mut self, share: &mut Share<L, M>) -> u64
        requires boxed_sinks { ⊤ }
        ensures marks { Marks share.old arrived share.new }
        ensures counted { (result ≡ one_more (arrivals_in self.old))
            × (arrivals_in self.new ≡ result)
            × (releases_in self.new ≡ releases_in self.old) }
    {
        self.arrived = self.arrived.saturating_add(1);
        self.log.add::<(), Arrives>(&mut share.author, &());
        self.arrived
    }

    /// Counts a round as released.
    pub(crate) fn release(&mut self, share: &mut Share<L, M>)
        requires boxed_sinks { ⊤ }
        ensures marks { Marks share.old released share.new }
        ensures counted { (releases_in self.new ≡ one_more (releases_in self.old))
            × (arrivals_in self.new ≡ arrivals_in self.old) }
    {
        self.released = self.released.saturating_add(1);
        self.log.add::<(), Releases>(&mut share.author, &());
    }

    /// Returns whether threads have arrived at least this many times. If so, the share has seen it.
    pub(crate) fn have_arrived(&mut self, share: &mut Share<L, M>, arrivals: u64) -> bool
        requires boxed_sinks { ⊤ }
        ensures result { IsTrue result ↔ (arrivals ≤ arrivals_in self.old) }
        ensures so { IsTrue result → Marks share.old (saw_arrived arrivals) share.new }
        ensures otherwise { IsFalse result → share.new ≡ share.old }
        ensures same { (arrivals_in self.new ≡ arrivals_in self.old)
            × (releases_in self.new ≡ releases_in self.old) }
    {
        let have = self.arrived >= arrivals;
        if have {
            self.log
                .add::<u64, SeesArrived>(&mut share.author, &arrivals);
        }
        have
    }

    /// Returns whether at least this many rounds were released. If so, the share has seen it.
    pub(crate) fn have_released(&mut self, share: &mut Share<L, M>, rounds: u64) -> bool
        requires boxed_sinks { ⊤ }
        ensures result { IsTrue result ↔ (rounds ≤ releases_in self.old) }
        ensures so { IsTrue result → Marks share.old (saw_released rounds) share.new }
        ensures otherwise { IsFalse result → share.new ≡ share.old }
        ensures same { (arrivals_in self.new ≡ arrivals_in self.old)
            × (releases_in self.new ≡ releases_in self.old) }
    {
        let have = self.released >= rounds;
        if have {
            self.log
                .add::<u64, SeesReleased>(&mut share.author, &rounds);
        }
        have
    }

    /// Adds up the counts of all shares, and returns the sums with the number of pending scopes. The shares leave the history,
    /// and together they know all of it. Allocates nothing.
    ///
    /// Fails if `shares` doesn't have as many shares as were made, and then returns them.
    pub fn settle(
        &mut self,
        shares: Vec<Share<L, M>>,
    ) -> std::result::Result<Settled, Vec<Share<L, M>>>
        requires boxed_sinks { ⊤ }
        ensures full { OnOk result (
            (vec_len shares ≡ L.parts) × (vec_len shares ≡ M.parts)) }
        ensures reported { IfOk result (λ settled. settled.reported ≡ all_reported shares.items) }
        ensures handed { IfOk result (λ settled. settled.handed ≡ all_handed shares.items) }
        ensures pending { IfOk result (λ settled. settled.pending
            ≡ total_scopes (map.values (collected_in self.old).streams)) }
        ensures history { OnOk result (
            Recounts (vec_len shares) (accounts_of shares.items) (entries_of self.old)
            (collected_in self.old).streams) }
        ensures err { IfErr result (λ returned.
            (returned ≡ shares) × ¬ (vec_len shares ≡ L.parts)) }
        ensures same { profiler_of self.new ≡ profiler_of self.old }
    {
        if shares.len() as u64 != self.parts.n() {
            return Err(shares);
        }
        let mut shares = shares;
        let Some(last) = shares.pop() else {
            return Err(shares);
        };
        let (mut all_reported, mut all_handed) = leave_all(&mut self.log, shares, last);
        // Both calls do nothing; their contracts tell the prover that all shares together count as much as their books.
        self.reported.audit(&mut all_reported);
        self.handed.audit(&mut all_handed);
        let totals = self.profiler.totals();
        Ok(Settled {
            reported: totals.reported,
            handed: totals.emitted,
            pending: totals.pending,
        })
    }
}
