//! The records of one thread, apart from its clock.

ghost use Rattle.std.specs.Prelude.{◌≡◌, ◌+◌, ◌-◌, ◌*◌, ◌<◌, ◌≤◌, ℤ, pos, ◌≤ℤ◌, ◌==◌, length, OnOk, OnErr, IfOk, IfErr, IfSome, IfNone, string_bytes, slice_get, IsOkUnless};
ghost use Rattle.std.specs.Option.{option_or};
ghost use Rattle.puffin_data.specs.declared.error.Error.{Error};
ghost use Rattle.puffin_data.specs.Forest.Spelling.{size_offset};
ghost use Rattle.puffin_data.specs.Text.{cut_text};
ghost use Rattle.puffin_data.specs.Forest.Words.{word_size, open_after};
ghost use Rattle.puffin_data.specs.Walk.Reading.{time_in};
ghost use Rattle.puffin_threads.specs.Thread.Calls.{new_thread, after_begin, after_end, after_handing, RegistersScope, offsets_of, num_ended};
ghost use Rattle.puffin_threads.specs.Thread.Closing.{GoesTo};
ghost use Rattle.puffin_threads.specs.Thread.Discarding.{after_discarding};
ghost use Rattle.puffin_threads.specs.Details.{details_of};
ghost use Rattle.puffin_threads.specs.inner.FirstStart.{start_in, completed_info};

use crate::scope_details::{ScopeDetails, ScopeIds};
use crate::thread_profiler::clock::NsSource;
use crate::thread_profiler::reporter::Reporter;
use crate::thread_profiler::supply::Supply;
use crate::thread_profiler::thread_info::ThreadInfo;
use byteorder::{ByteOrder, LittleEndian};
use puffin_data::data::{Form, ScopeId, Stream, StreamInfo};
use puffin_data::{Error, NanoSecond, Result};
use std::alloc::Global;
use std::marker::Model;

/// What one thread has recorded and not yet reported. Contracts see it as a `Thread`.
#[derive(Drop)]
pub struct ThreadState {
    // The thread's name.
    name: String,
    // What scopes and the next report need. It is made when a scope begins, so that ending one allocates nothing.
    supply: Supply,
    // The scopes, open ones included.
    info: StreamInfo,
    // The start of the first scope, once it was reported or discarded.
    first_start: Option<NanoSecond>,
    // The greatest time so far.
    latest: NanoSecond,
    // The number of open scopes.
    num_open: usize,
    // The offset of the innermost open scope's size, or 0. Until a scope ends, its size holds that of the scope around it.
    innermost: usize,
    // The details registered since the last accepted report.
    details: Vec<ScopeDetails>,
}

impl Model for ThreadState {
    ghost use Rattle.puffin_threads.specs.Thread.Calls.{Thread};

    ghost Value = { Thread };

    ghost use Rattle.puffin_threads.specs.inner.StoredThread.{thread_in, IsThreadState};

    ghost view = { thread_in };

    ghost invariant = { IsThreadState };
}

/// Returns the start of the scope at the front of the bytes, if there is one.
#[tactic(auto, unfolding(puffin_data::specs::Walk::Reading::time_in))]
fn start_of(bytes: &[u8]) -> Option<NanoSecond>
    ensures { result ≡ start_in bytes.now }
{
    if bytes.len() < 13 {
        return None;
    }
    Some(LittleEndian::read_i64(&bytes[5..]))
}

/// Completes what is known of scopes once all have ended: the first start, and the range, since times never fall.
fn complete(info: &mut StreamInfo, first: &mut Option<NanoSecond>, latest: NanoSecond)
    ensures info { info.new ≡ completed_info info.old latest }
    ensures first { first.new ≡ option_or first.old (start_in info.old.stream.bytes) }
{
    if let Some(start) = start_of(info.stream.bytes()) {
        *first = first.or(Some(start));
        info.range_ns = (start, latest);
    }
}

impl ThreadState {
    /// Makes the state of a thread without scopes, in this form.
    pub(crate) fn new(alloc: Global, name: String, form: Form) -> ThreadState
        ensures { result ≡ new_thread (string_bytes name) form }
    {
        ThreadState {
            name,
            supply: Supply {
                copy: None,
                ready: 0,
                limit: 0,
            },
            info: StreamInfo::with_form(alloc, form),
            first_start: None,
            latest: 0,
            num_open: 0,
            innermost: 0,
            details: Vec::new(alloc),
        }
    }

    /// Sets how many bytes the scopes may take, with what is kept free for their ends.
    pub(crate) fn set_max_bytes(&mut self, bytes: usize)
        ensures { self.new ≡ self.old }
    {
        self.info.stream.set_max_bytes(bytes);
    }

    /// Returns the number of open scopes.
    pub(crate) fn depth(&self) -> usize
        ensures { result ≡ open_after 0 self.now.word }
    {
        self.num_open
    }

    /// Returns the number of closed scopes that wait for a report.
    pub(crate) fn num_closed(&self) -> usize
        ensures { result ≡ num_ended self.now.word }
    {
        self.info.num_scopes - self.num_open
    }

    /// Returns whether no scope is open and none waits for a report.
    pub(crate) fn is_empty(&self) -> bool
        ensures { result ≡ (length self.now.word == 0) }
    {
        self.info.stream.is_empty()
    }

    /// Returns the offset of the innermost open scope's size.
    #[inline(always)]
    pub(crate) fn innermost(&self) -> Option<usize>
        ensures { result ≡ slice_get (offsets_of self.now) 0 }
    {
        if self.num_open == 0 {
            return None;
        }
        Some(self.innermost)
    }

    /// Begins a scope, and returns the offset of its size. First allocates for its end and its report, then reads the clock.
    /// Fails only with `Memory`; nothing changes then.
    #[inline(always)]
    pub(crate) fn begin_scope<C: NsSource>(
        &mut self,
        clock: &mut C,
        id: ScopeId,
        text: &str,
    ) -> Result<usize>
        ensures begun { OnOk result (
            (at : ℤ)
            × C.answers clock.old at clock.new
            × (pos 0 ≤ℤ at)
            × (self.new ≡ after_begin self.old id (cut_text self.old.form text.now) at)) }
        ensures offset { IfOk result (λ offset.
            offset
            ≡ word_size self.old.form self.old.word
            + size_offset self.old.form (cut_text self.old.form text.now)) }
        ensures unchanged { OnErr result ((self.new ≡ self.old) × (clock.new ≡ clock.old)) }
        ensures memory { IsOkUnless result Error.Memory }
    {
        self.supply
            .prepare(&self.name, &mut self.info.stream, self.num_open, text)?;
        let at = self.latest.max(clock.now_ns());
        // Shows the range of an id's number.
        let _number = id.get();
        let around = self.innermost as u64;
        let offset = self.info.stream.begin_within(at, id, text, around);
        self.innermost = offset;
        self.num_open += 1;
        self.latest = at;
        self.info.num_scopes += 1;
        self.info.depth = self.info.depth.max(self.num_open);
        Ok(offset)
    }

    /// Ends the innermost scope, without an allocation. If it was the last open one, returns a copy of the name for the report.
    #[inline]
    pub(crate) fn close(&mut self, now_ns: NanoSecond) -> Option<String>
        requires { 0 < open_after 0 self.old.word }
        ensures closed { self.new ≡ after_end self.old now_ns }
        ensures inner { IfNone result (1 < open_after 0 self.old.word) }
        ensures last { IfSome result (λ name.
            (open_after 0 self.old.word ≡ 1) × (string_bytes name ≡ self.old.name)) }
    {
        let at = self.latest.max(now_ns);
        self.innermost = self.info.stream.end_within(self.innermost, at) as usize;
        self.num_open -= 1;
        self.latest = at;
        if self.num_open == 0 {
            self.supply.take_copy()
        } else {
            None
        }
    }

    /// Ends the innermost scope, without an allocation. Keeps the copy of the name.
    #[inline(always)]
    pub(crate) fn finish(&mut self, now_ns: NanoSecond)
        requires { 0 < open_after 0 self.old.word }
        ensures { self.new ≡ after_end self.old now_ns }
    {
        let stop = self.latest.max(now_ns);
        self.innermost = self.info.stream.end_within(self.innermost, stop) as usize;
        self.num_open -= 1;
        self.latest = stop;
    }

    /// Returns a copy of the name for a report. Fails only with `Memory`.
    pub(crate) fn name_for_report(&mut self) -> Result<String>
        requires { open_after 0 self.old.word ≡ 0 }
        ensures name { IfOk result (λ name. string_bytes name ≡ self.old.name) }
        ensures unchanged { self.new ≡ self.old }
        ensures memory { IsOkUnless result Error.Memory }
    {
        match self.supply.take_copy() {
            Some(name) => Ok(name),
            None => Ok(self.name.clone()?),
        }
    }

    /// Registers details under a newly drawn id for the next accepted report, and returns the id.
    ///
    /// Fails with `IdsExhausted` or `Memory`; nothing changes then. Allocates before it draws the id.
    pub(crate) fn register(&mut self, ids: &ScopeIds, details: ScopeDetails) -> Result<ScopeId>
        ensures { RegistersScope self.old (details_of details) result self.new }
    {
        self.details.reserve(1)?;
        let id = ids.draw()?;
        self.details.push_reserved(details.with_scope_id(id));
        Ok(id)
    }

    /// Hands all scopes and details to the reporter, under this name. If the reporter refuses them, they stay.
    pub(crate) fn hand_over<R: Reporter>(&mut self, name: String, reporter: &mut R) -> Result<()>
        requires none_open { open_after 0 self.old.word ≡ 0 }
        requires name { string_bytes name ≡ self.old.name }
        ensures ok { OnOk result (
            (self.new ≡ after_handing self.old)
            × GoesTo R.accepts self.old reporter.old reporter.new) }
        ensures err { IfErr result (λ cause.
            (self.new ≡ self.old)
            × GoesTo (λ earlier thread details info later.
            R.refuses earlier thread details info cause later) self.old reporter.old
            reporter.new) }
    {
        complete(&mut self.info, &mut self.first_start, self.latest);
        let info = ThreadInfo {
            start_time_ns: self.first_start,
            name,
        };
        reporter.report(info, &self.details, &self.info.as_stream_into_ref())?;
        self.info.clear();
        self.details.clear();
        Ok(())
    }

    /// Drops the closed scopes. The details stay for the next report.
    pub(crate) fn discard(&mut self)
        requires { open_after 0 self.old.word ≡ 0 }
        ensures { self.new ≡ after_discarding self.old }
    {
        complete(&mut self.info, &mut self.first_start, self.latest);
        self.info.clear();
    }
}
