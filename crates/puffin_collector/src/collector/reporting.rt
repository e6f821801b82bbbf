//! Reports of threads, and of the caller's own scopes.

ghost use Rattle.std.specs.Prelude.{◌≡◌, List, ◌+◌, [], OnOk, IfOk, IfErr};
ghost use Rattle.std.specs.Bool.{MatchBool};
ghost use Rattle.puffin_data.specs.Honesty.{IsHonestReport, facts_of_ref};
ghost use Rattle.puffin_threads.specs.Thread.ThreadKey.{key_of};
ghost use Rattle.puffin_threads.specs.Details.{Details, details_seen, AllHaveIds};
ghost use Rattle.puffin_frames.specs.Frame.Sums.{IsOrdered, DurationFits};
ghost use Rattle.puffin_collector.specs.Collector.State.{IsReportRefusal, AcceptsReport, RefusesReport, PendingFits, range_with, IsTooLong, IsSumRefusal};
ghost use Rattle.puffin_collector.specs.inner.ReportSums.{IsFirstCause, AddsUp};

use crate::collector::Collector;
use crate::delta::{all_have_ids, copy_details};
use puffin_data::data::{StreamInfoRef, is_valid_range};
use puffin_data::{Error, NanoSecond, Result};
use puffin_frames::frame_data::{FrameMeta, are_unlike, report_to};
use puffin_threads::scope_details::ScopeDetails;
use puffin_threads::thread_profiler::{Reporter, ThreadInfo};

impl Collector {
    /// Appends a thread's scopes to those that are pending under its info, and adds the details to the next frame's new ones.
    /// `times` has to be honest: its counts are those of its bytes.
    ///
    /// Fails with the first cause that applies, and then changes nothing: `MissingId` if some details have no id; `UnlikeForms`
    /// if these scopes and those pending under the info have bytes in unlike forms; `TooLarge` if, with these scopes, the
    /// number of pending bytes, of pending scopes or of scopes ever reported doesn't fit 64 bits; `RangeTooLong` if the time
    /// from the least start to the greatest stop of all scopes then pending doesn't fit `i64`; `Memory` if there is none, or if
    /// some scopes are pending and, with these, there would be more than [`Collector::set_max_pending`] allows.
    #[inline(always)]
    pub fn report(
        &mut self,
        info: ThreadInfo,
        details: &[ScopeDetails],
        times: &StreamInfoRef,
    ) -> Result<()>
        requires { IsHonestReport times.now }
        ensures ok { OnOk result (
            AcceptsReport self.old (key_of info) (details_seen details.now)
            (facts_of_ref times.now) self.new) }
        ensures err { IfErr result (λ e.
            RefusesReport self.old (key_of info) (details_seen details.now)
            (facts_of_ref times.now) e self.new) }
    {
        if details.is_empty() {
            self.append(info, times)
        } else {
            self.report_with_details(info, details, times)
        }
    }

    /// Appends the caller's own scopes to the pending ones. The scopes use ids that [`Collector::register_user_scopes`]
    /// returned. Does the same as [`Collector::report`] with no details, and fails in the same cases.
    #[inline(always)]
    pub fn report_user_scopes(&mut self, info: ThreadInfo, times: &StreamInfoRef) -> Result<()>
        requires { IsHonestReport times.now }
        ensures ok { OnOk result (
            AcceptsReport self.old (key_of info) [] (facts_of_ref times.now) self.new) }
        ensures err { IfErr result (λ e.
            RefusesReport self.old (key_of info) [] (facts_of_ref times.now) e self.new) }
    {
        self.append(info, times)
    }

    /// Does what [`Collector::report`] does. Reports with details are rare, so this isn't inlined.
    #[cold]
    #[inline(never)]
    fn report_with_details(
        &mut self,
        info: ThreadInfo,
        details: &[ScopeDetails],
        times: &StreamInfoRef,
    ) -> Result<()>
        requires { IsHonestReport times.now }
        ensures ok { OnOk result (
            AcceptsReport self.old (key_of info) (details_seen details.now)
            (facts_of_ref times.now) self.new) }
        ensures err { IfErr result (λ e.
            RefusesReport self.old (key_of info) (details_seen details.now)
            (facts_of_ref times.now) e self.new) }
    {
        if !all_have_ids(details) {
            return Err(Error::MissingId);
        }
        let mut fresh = match copy_details(self.alloc, details) {
            Ok(fresh) => fresh,
            Err(_) => return Err(self.cause_without_memory(&info, times)),
        };
        // All that needs memory for the details is done before the scopes are appended; if those are refused, the details are
        // removed again.
        let known = self.new_details.len();
        match self.new_details.append(&mut fresh) {
            Ok(()) => {}
            Err(_) => return Err(self.cause_without_memory(&info, times)),
        }
        match self.append(info, times) {
            Ok(()) => Ok(()),
            Err(cause) => {
                self.new_details.truncate(known);
                Err(cause)
            }
        }
    }

    /// Appends scopes without details to those that are pending under their thread's info. Fails in the same cases as
    /// [`Collector::report`].
    #[inline(always)]
    fn append(&mut self, info: ThreadInfo, times: &StreamInfoRef) -> Result<()>
        requires { IsHonestReport times.now }
        ensures ok { OnOk result (
            AcceptsReport self.old (key_of info) [] (facts_of_ref times.now) self.new) }
        ensures err { IfErr result (λ e.
            RefusesReport self.old (key_of info) [] (facts_of_ref times.now) e self.new) }
    {
        let (meta, reported) = match self.sums_with(times) {
            Ok(sums) => sums,
            Err(cause) => return Err(self.first_cause(&info, times, cause)),
        };
        if self.max_pending < meta.num_bytes && self.meta.num_bytes > 0 {
            return Err(self.first_cause(&info, times, Error::Memory));
        }
        // This is the last step that can fail, and changes nothing if it does.
        report_to(self.alloc, &mut self.pending, info, times)?;
        self.meta = meta;
        self.reported = reported;
        Ok(())
    }

    /// Returns the error of a report for whose details there is no memory: a cause that comes before `Memory`, if one applies, or
    /// `Memory`.
    fn cause_without_memory(&self, info: &ThreadInfo, times: &StreamInfoRef) -> Error
        ensures { (details : List Details) → AllHaveIds details →
            IsReportRefusal self.now (key_of info.now) details (facts_of_ref times.now) result }
    {
        match self.sums_with(times) {
            Ok(_) => self.first_cause(info, times, Error::Memory),
            Err(cause) => self.first_cause(info, times, cause),
        }
    }

    /// Returns the error of a report that would fail with this cause: `UnlikeForms` if that applies, because it comes first,
    /// else this cause.
    fn first_cause(&self, info: &ThreadInfo, times: &StreamInfoRef, cause: Error) -> Error
        ensures { IsFirstCause self.now (key_of info.now) (facts_of_ref times.now) cause result }
    {
        if are_unlike(&self.pending, info, times) {
            Error::UnlikeForms
        } else {
            cause
        }
    }

    /// Returns the meta of all pending scopes joined with this report, and the number of scopes ever reported, including this
    /// report. Fails with `TooLarge` or `RangeTooLong`, whichever applies first.
    fn sums_with(&self, times: &StreamInfoRef) -> Result<(FrameMeta, u64)>
        ensures sums { IfOk result (λ sums.
            AddsUp self.now sums.0 (facts_of_ref times.now)
            × (sums.1 ≡ self.now.reported + times.now.num_scopes)) }
        ensures fits { OnOk result (
            PendingFits self.now (facts_of_ref times.now)
            × ¬ IsTooLong (range_with self.now (facts_of_ref times.now))) }
        ensures refusal { IfErr result (IsSumRefusal self.now (facts_of_ref times.now)) }
    {
        let Some(meta) = self.meta.joined(times) else {
            return Err(Error::TooLarge);
        };
        let Some(reported) = self.reported.checked_add(times.num_scopes as u64) else {
            return Err(Error::TooLarge);
        };
        if is_too_long(meta.range_ns) {
            return Err(Error::RangeTooLong);
        }
        Ok((meta, reported))
    }
}

impl Reporter for Collector {
    ghost use Rattle.std.specs.Prelude.{◌≡◌};
    ghost use Rattle.puffin_collector.specs.Collector.State.{AcceptsReport, RefusesReport};

    ghost accepts = { AcceptsReport };

    ghost refuses = { RefusesReport };

    fn report(
        &mut self,
        info: ThreadInfo,
        details: &[ScopeDetails],
        times: &StreamInfoRef,
    ) -> Result<()> {
        Collector::report(self, info, details, times)
    }
}

/// Returns whether a range is too long: it isn't reversed, but its duration doesn't fit `i64`.
fn is_too_long(range: (NanoSecond, NanoSecond)) -> bool
    ensures { MatchBool result (IsTooLong range) (IsOrdered range → DurationFits range) }
{
    range.0 <= range.1 && !is_valid_range(range)
}
