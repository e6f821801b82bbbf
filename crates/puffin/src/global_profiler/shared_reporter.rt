//! A thread's reporter to a shared profiler.
//!
//! The clause `requires boxed_sinks { ⊤ }` asks nothing; the head of the module above says why it is there.
ghost use Rattle.std.specs.Prelude.{◌≡◌, ◌+◌, ◌≤◌, ℤ, pos, ◌≤ℤ◌, OnErr, IfOk, ⊤};
ghost use Rattle.puffin_data.specs.declared.error.Error.{Error};
ghost use Rattle.puffin_threads.specs.Thread.Closing.{EndsInnermost, Closes, Reports};
ghost use Rattle.puffin.specs.Happenings.{arrived, saw_released};
ghost use Rattle.puffin.specs.Members.{Marks};
ghost use Rattle.puffin.specs.Reporters.{share_of};

use crate::global_profiler::share::Share;
use crate::global_profiler::shared_profiler::SharedProfiler;
use history::History;
use puffin_collector::Totals;
use puffin_data::data::StreamInfoRef;
use puffin_data::{Error, Result};
use puffin_threads::scope_details::ScopeDetails;
use puffin_threads::thread_profiler::{AnyThread, Closed, Reporter, ThreadInfo};
use std::sync::ledger::Ledger;
use std::sync::{Condvar, Wait};

/// Reports to a shared profiler through a share, which counts the scopes that are accepted and knows each report. The reporter
/// owns `rt`, the handle with which it waits for the profiler's lock.
///
/// ```
/// let mut reporter = SharedReporter::new(rt, profiler, share);
/// let scope = thread.begin_scope(id, "image-12.png")?;
/// reporter.end_scope(&mut thread, scope)?;
/// let share = reporter.into_share();
/// ```
#[derive(Drop)]
pub struct SharedReporter<L: Ledger + History, M: Ledger, R: Wait> {
    rt: R,
    profiler: SharedProfiler<L, M>,
    share: Share<L, M>,
}

impl<L: Ledger + History, M: Ledger, R: Wait> SharedReporter<L, M, R> {
    /// Makes a reporter to this profiler through this share.
    pub fn new(rt: R, profiler: SharedProfiler<L, M>, share: Share<L, M>) -> SharedReporter<L, M, R>
        requires boxed_sinks { ⊤ }
        ensures { share_of result ≡ share }
    {
        SharedReporter {
            rt,
            profiler,
            share,
        }
    }

    /// Returns the profiler's totals. `reported` and `emitted` are at least the share's counts of scopes reported and handed
    /// out. Waits for the lock.
    pub fn totals(&mut self) -> Totals
        requires boxed_sinks { ⊤ }
        ensures own { ((share_of self.old).counts.reported ≤ result.reported)
            × ((share_of self.old).counts.handed ≤ result.emitted) }
        ensures same { share_of self.new ≡ share_of self.old }
    {
        self.profiler.totals(&self.rt, &mut self.share)
    }

    /// Calls [`SharedProfiler::arrive`] with its share.
    pub(crate) fn arrive(&mut self) -> u64
        requires boxed_sinks { ⊤ }
        ensures { Marks (share_of self.old) arrived (share_of self.new) }
    {
        self.profiler.arrive(&self.rt, &mut self.share)
    }

    /// Calls [`SharedProfiler::wait_released`] with its share.
    pub(crate) fn wait_released(&mut self, changed: &Condvar, rounds: u64)
        requires boxed_sinks { ⊤ }
        ensures { Marks (share_of self.old) (saw_released rounds) (share_of self.new) }
    {
        self.profiler
            .wait_released(&self.rt, &mut self.share, changed, rounds);
    }

    /// Ends a thread's innermost open scope, which must have this offset. If it was the last open one, reports all scopes that
    /// have closed since the last accepted report; if this one is accepted, the share counts them and knows the report. Waits for
    /// the lock if it reports.
    ///
    /// Fails only with `MismatchedEnd`, as [`ThreadProfiler::end_scope`](crate::thread_profiler::ThreadProfiler::end_scope)
    /// does; nothing changes then.
    pub fn end_scope<T: AnyThread>(&mut self, thread: &mut T, offset: usize) -> Result<Closed>
        requires boxed_sinks { ⊤ }
        ensures innermost { EndsInnermost (T.state thread.old) offset result }
        ensures unchanged { OnErr result ((thread.new ≡ thread.old) × (self.new ≡ self.old)) }
        ensures closed { IfOk result (λ closed.
            (at : ℤ)
            × T.answers thread.old at thread.new
            × (pos 0 ≤ℤ at)
            × Closes ⟦<SharedReporter<L, M, R> as Reporter>⟧.accepts
            ⟦<SharedReporter<L, M, R> as Reporter>⟧.refuses (T.state thread.old)
            (T.state thread.new) at self.old self.new closed) }
    {
        thread.end_scope(offset, self)
    }

    /// Reports a thread's closed scopes that haven't been reported yet. Returns `Ok(false)` if there are none. Waits for the lock if
    /// it reports, and doesn't read the thread's clock.
    ///
    /// Fails as [`ThreadProfiler::report_closed`](crate::thread_profiler::ThreadProfiler::report_closed) does.
    pub fn report_closed<T: AnyThread>(&mut self, thread: &mut T) -> Result<bool>
        requires boxed_sinks { ⊤ }
        ensures reports { Reports ⟦<SharedReporter<L, M, R> as Reporter>⟧.accepts
            ⟦<SharedReporter<L, M, R> as Reporter>⟧.refuses (T.state thread.old)
            (T.state thread.new) self.old self.new result }
        ensures clock { T.same_clock thread.old thread.new }
    {
        thread.report_closed(self)
    }
}

impl<L: Ledger + History, M: Ledger, R: Wait + Drop> SharedReporter<L, M, R> {
    /// Returns the share.
    pub fn into_share(self) -> Share<L, M>
        requires boxed_sinks { ⊤ }
        ensures { result ≡ share_of self }
    {
        let SharedReporter {
            rt: _,
            profiler: _,
            share,
        } = self;
        share
    }
}

impl<L: Ledger + History, M: Ledger, R: Wait> Reporter for SharedReporter<L, M, R> {
    ghost use Rattle.std.specs.Prelude.{◌≡◌, ◌<◌, ◌^◌, length};
    ghost use Rattle.puffin_threads.specs.Details.{AllHaveIds};
    ghost use Rattle.puffin.specs.Shares.{with_reported};
    ghost use Rattle.puffin.specs.SharedCauses.{IsReportCause};
    ghost use Rattle.puffin.specs.Happenings.{reported};
    ghost use Rattle.puffin.specs.Members.{Told};

    ghost accepts = { λ old key details report new.
        ((share_of new).counts ≡ with_reported (share_of old).counts report.num_scopes)
        × Told (share_of old) (reported key report) (share_of new)
        × (length report.bytes < 2 ^ 64)
        × AllHaveIds details };

    ghost refuses = { λ old key details report error new.
        (share_of new ≡ share_of old) × IsReportCause details error };

    #[inline]
    fn report(
        &mut self,
        info: ThreadInfo,
        details: &[ScopeDetails],
        times: &StreamInfoRef,
    ) -> Result<()> {
        self.profiler
            .report(&self.rt, &mut self.share, info, details, times)
    }
}
