//! Eight workers whose reporter refuses each third report, and one that takes frames.

use crate::workers;
use crate::workers::{Kind, NAMES};
use puffin::data::{ScopeId, StreamInfoRef};
use puffin::global_profiler::{History, NewLog, Share, SharedProfiler, SharedReporter};
use puffin::scope_details::ScopeDetails;
use puffin::thread_profiler::{
    AnyThread, Closed, Reporter, ScriptClock, ThreadInfo, ThreadProfiler,
};
use puffin::{Error, Result};
use std::alloc::Global;
use std::marker::Brand;
use std::sync::Wait;
use std::sync::ledger::{Blank, Ledger};

/// How many scopes a worker closes.
pub(crate) const SCOPES: u32 = 500;

/// Refuses each third report, and hands on the others.
#[derive(Drop)]
pub struct Wary<L: Ledger + History, M: Ledger, R: Wait> {
    calls: u32,
    reporter: SharedReporter<L, M, R>,
}

impl<L: Ledger + History, M: Ledger, R: Wait> Reporter for Wary<L, M, R> {
    ghost use Rattle.std.specs.Prelude.{⊤};

    ghost accepts = { λ _ _ _ _ _. ⊤ };

    ghost refuses = { λ _ _ _ _ _ _. ⊤ };

    fn report(
        &mut self,
        info: ThreadInfo,
        details: &[ScopeDetails],
        times: &StreamInfoRef,
    ) -> Result<()> {
        self.calls = self.calls.wrapping_add(1);
        if self.calls % 3 == 0 {
            return Err(Error::InvalidStream);
        }
        self.reporter.report(info, details, times)
    }
}

/// Ends a scope of a thread.
fn ended<T: AnyThread, L: Ledger + History, M: Ledger, R: Wait>(
    thread: &mut T,
    scope: usize,
    wary: &mut Wary<L, M, R>,
) -> Result<Closed> {
    thread.end_scope(scope, wary)
}

/// Reports what waits until nothing does, in three calls at most. `None` where something waits still.
fn reported_all<T: AnyThread, L: Ledger + History, M: Ledger, R: Wait>(
    thread: &mut T,
    wary: &mut Wary<L, M, R>,
) -> Option<()> {
    for _ in 0..3 {
        if thread.report_closed(wary) == Ok(false) {
            return Some(());
        }
    }
    None
}

/// Begins and ends a scope, each third of which is kept, as its report is refused. `None` where it is otherwise.
fn scope<L: Ledger + History, M: Ledger, R: Wait>(
    wary: &mut Wary<L, M, R>,
    thread: &mut ThreadProfiler<ScriptClock>,
    number: u32,
    name: &str,
) -> Option<()> {
    let scope = thread.begin_scope(ScopeId::new(number)?, name).ok()?;
    let expected = if number % 3 == 0 {
        Closed::Kept(Error::InvalidStream)
    } else {
        Closed::Reported
    };
    if ended(thread, scope, wary).ok()? != expected {
        return None;
    }
    Some(())
}

/// Closes scopes with rising ids, one after the other, and reports what waits at the end. `None` where another
/// one than each third report is refused.
fn closed<L: Ledger + History, M: Ledger, R: Wait>(
    alloc: Global,
    wary: &mut Wary<L, M, R>,
    name: &str,
) -> Option<()> {
    let owned = String::from_str(alloc, name).ok()?;
    let mut thread = ThreadProfiler::new(alloc, owned, ScriptClock::new(5));
    for number in 1..SCOPES + 1 {
        scope(wary, &mut thread, number, name)?;
    }
    reported_all(&mut thread, wary)
}

/// What a worker does whose reporter refuses each third report. Gives the share back.
pub(crate) fn work<L: Ledger + History, M: Ledger, R: Wait + Drop>(
    rt: R,
    alloc: Global,
    profiler: SharedProfiler<L, M>,
    share: Share<L, M>,
    name: &str,
) -> Option<Share<L, M>> {
    let mut wary = Wary {
        calls: 0,
        reporter: SharedReporter::new(rt, profiler, share),
    };
    closed(alloc, &mut wary, name)?;
    Some(wary.reporter.into_share())
}

#[test]
fn nine_shares_of_eight_workers_and_a_taker_of_frames(rt: HostRuntime) {
    let alloc = rt.alloc();
    let (reported, handed) = (Blank::new(9), Blank::new(9));
    workers::run::<Brand, Brand, HostRuntime>(
        rt,
        alloc,
        Kind::Wary,
        &NAMES,
        9,
        reported,
        handed,
        NewLog::new(),
    );
}
