//! Lists the scopes of a file by name.

ghost use Rattle.std.specs.Prelude.{◌≡◌, ◌+◌, ◌⊎◌, ◌≤◌, take, List, OnOk, OnErr, IfOk, IfErr, Err};
ghost use Rattle.puffin_data.specs.declared.error.Error.{Error};
ghost use Rattle.puffin_data.specs.Device.{CanFail};
ghost use Rattle.puffin_data.specs.Honesty.{facts_of};
ghost use Rattle.puffin_threads.specs.Thread.ThreadKey.{key_of};
ghost use Rattle.puffin_look.specs.Cells.{length_of};
ghost use Rattle.puffin_look.specs.Top.{rank_of, weight, AreSorted, IsTop, StopsReading};
ghost use Rattle.puffin_look.specs.inner.Tallies.{tally_of, rows_of};
ghost use Rattle.puffin_look.specs.declared.top.TopRow.{TopRow};
ghost use Rattle.puffin_look.specs.inner.Tops.{percentile, HasTally, HaveTallies, StepsTally, IsTallyFault};

use crate::histogram::last_of;
use crate::listing::{Listing, list_frames};
use crate::overview::Overview;
use crate::tallies::{Tallies, Tally};
use crate::thread_names::Nowhere;
use crate::wanted::Wanted;
use puffin_data::data::{Source, StreamInfo};
use puffin_data::{FileError, NanoSecond, Result as Answer};
use puffin_frames::frame_data::UnpackedFrameData;
use puffin_threads::thread_profiler::ThreadInfo;
use std::alloc::{AllocError, Global};

/// The scopes with a name: how often they were met, and their durations in nanoseconds. A sum that doesn't fit `u64` is
/// `u64::MAX`.
#[derive(Drop)]
pub struct TopRow {
    /// The bytes of the name, and behind it the text in parentheses, if texts are kept apart.
    pub name: Vec<u8>,
    /// The number of the scopes.
    pub calls: u64,
    /// Their durations, together.
    pub total: u64,
    /// The same, less the durations of the scopes directly within them.
    pub own: u64,
    /// The least duration.
    pub least: u64,
    /// A duration that half of the scopes don't exceed. It is exact up to 255, and else too great by less than a 128th.
    pub median: u64,
    /// The same for 95 of 100 scopes.
    pub p95: u64,
    /// The same for 99 of 100 scopes.
    pub p99: u64,
    /// The greatest duration.
    pub greatest: u64,
}

/// The scopes of a file by name.
#[derive(Drop)]
pub struct Top {
    pub rows: Vec<TopRow>,
    /// The durations of the frames, together.
    pub whole: u64,
    /// The number of the frames.
    pub frames: u64,
}

/// By what rows are sorted.
#[derive(Clone, Copy, Debug, PartialEq, Eq)]
pub enum By {
    Own,
    Total,
    Calls,
    Greatest,
}

impl By {
    /// Returns the number of a row by which it is sorted.
    fn weight(self, row: &TopRow) -> u64
        ensures { result ≡ weight self row.now }
    {
        match self {
            By::Own => row.own,
            By::Total => row.total,
            By::Calls => row.calls,
            By::Greatest => row.greatest,
        }
    }
}

/// Returns how many calls are so many percent of them, rounded up.
fn rank_of(percent: u64, calls: u64) -> u64
    requires { percent ≤ 100 }
    ensures { result ≡ rank_of percent calls }
{
    ((calls as u128 * percent as u128 + 99) / 100) as u64
}

/// Returns a duration that so many percent of the calls don't exceed.
fn percentile(tally: &Tally, percent: u64) -> u64
    requires { percent ≤ 100 }
    ensures { result ≡ percentile percent (tally_of tally.now) }
{
    let rank = rank_of(percent, tally.times.calls);
    last_of(tally.histogram.bucket_at(rank)).min(tally.times.greatest)
}

/// Returns the row of a name.
fn row_of(alloc: Global, name: &[u8], tally: &Tally) -> Result<TopRow, AllocError>
    ensures { IfOk result (λ row. HasTally (name.now, tally_of tally.now) row) }
{
    Ok(TopRow {
        name: Vec::from_slice(alloc, name)?,
        calls: tally.times.calls,
        total: tally.times.total,
        own: tally.times.own(),
        least: tally.times.least,
        median: percentile(tally, 50),
        p95: percentile(tally, 95),
        p99: percentile(tally, 99),
        greatest: tally.times.greatest,
    })
}

/// Returns the rows of all names.
fn rows_of(alloc: Global, tallies: &Tallies) -> Result<Vec<TopRow>, AllocError>
    ensures { IfOk result (λ rows. HaveTallies (rows_of tallies.now) rows.items) }
{
    let mut rows = Vec::new(alloc);
    'rows: for (name, tally) in tallies.rows.iter() {
        rows.push(row_of(alloc, name, tally)?)?;
    }
    Ok(rows)
}

/// Returns the duration of a range.
pub(crate) fn length_of(range_ns: (NanoSecond, NanoSecond)) -> u64
    ensures { result ≡ length_of range_ns }
{
    range_ns.1.abs_diff(range_ns.0)
}

/// The scopes of the wanted threads so far.
#[derive(Drop)]
struct Tallying<'t> {
    tallies: Tallies<'t>,
    wanted: &'t Wanted,
    /// The durations of the frames, together.
    whole: u64,
    /// The number of the frames.
    frames: u64,
}

impl<'t> Tallying<'t> {
    /// Adds a thread's scopes, if the thread is wanted.
    fn add_stream(&mut self, thread: &ThreadInfo, info: &StreamInfo) -> Answer<()>
        ensures ok { OnOk result (
            StepsTally self.old self.new (key_of thread.now) (facts_of info.now)) }
        ensures err { IfErr result (λ e.
            (e ≡ Error.Memory) ⊎ IsTallyFault self.old (key_of thread.now) (facts_of info.now) e) }
    {
        if self.wanted.has_thread(thread) {
            self.tallies.add_stream(info)?;
        }
        Ok(())
    }
}

impl<'t> Listing for Tallying<'t> {
    ghost use Rattle.std.specs.Prelude.{[]};
    ghost use Rattle.puffin_look.specs.inner.Tops.{TakesTallies, RefusesFrame, tallies_none, tallies_more};

    ghost text = { λ _. [] };

    ghost takes = { TakesTallies };

    ghost refuses = { RefusesFrame };

    ghost takes_none = { tallies_none };

    ghost takes_more = { tallies_more };

    fn add(&mut self, frame: &UnpackedFrameData) -> Answer<()> {
        'streams: for (thread, info) in frame.thread_streams.iter() {
            self.add_stream(thread, info)?;
        }
        self.whole = self.whole.saturating_add(length_of(frame.meta.range_ns));
        self.frames = self.frames.saturating_add(1);
        Ok(())
    }

    fn pending(&self) -> &[u8] {
        &[]
    }

    fn clear(&mut self) {}
}

/// Returns the scopes of a file by name, in the order in which the names are first met: for each name how often a scope with it
/// was met, in all frames together, and what time it took. A name is that by the details of the [overview](crate::read_overview),
/// or `#` and the id; with `texts`, scopes with different texts are kept apart.
///
/// The wanted threads of the wanted frames count.
///
/// Fails as [`print_trace`](crate::print_trace) does; only the streams that count have to consist of scopes.
pub fn read_top<S: Source>(
    alloc: Global,
    overview: &Overview,
    source: &mut S,
    wanted: &Wanted,
    texts: bool,
) -> Result<Top, FileError>
    requires { CanFail S.failures source.old }
    ensures ok { IfOk result (λ top.
        IsTop overview.now.details wanted.now texts
        (S.remaining source.old) (S.remaining source.new) top) }
    ensures err { IfErr result (λ e.
        StopsReading wanted.now (S.remaining source.old) (S.remaining source.new) e) }
    ensures io { (result ≡ Err FileError.Io) → S.failures source.new ≡ S.failures source.old + 1 }
    ensures failures { OnOk result (S.failures source.new ≡ S.failures source.old) }
{
    let mut tallying = Tallying {
        tallies: Tallies::new(alloc, &overview.details, texts),
        wanted,
        whole: 0,
        frames: 0,
    };
    list_frames(alloc, source, &mut Nowhere, wanted.frames, &mut tallying)?;
    Ok(Top {
        rows: rows_of(alloc, &tallying.tallies)?,
        whole: tallying.whole,
        frames: tallying.frames,
    })
}

impl Top {
    /// Sorts the rows, the heaviest first, and keeps so many of them. Equally heavy ones stay in their order. If memory runs out,
    /// the rows stay as they were.
    pub fn sort_by(&mut self, order: By, limit: usize) -> Result<(), AllocError>
        ensures rows { OnOk result ((sorted : List TopRow)
            × AreSorted order self.old.rows.items sorted
            × (self.new.rows.items ≡ take limit sorted)) }
        ensures err { OnErr result (self.new.rows.items ≡ self.old.rows.items) }
        ensures whole { self.new.whole ≡ self.old.whole }
    {
        self.rows.sort_by_key(|row| u64::MAX - order.weight(row))?;
        self.rows.truncate(limit);
        Ok(())
    }
}
