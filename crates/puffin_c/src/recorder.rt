//! A thread's profiler that takes its times from the caller.

ghost use Rattle.std.specs.Prelude.{◌≡◌, ◌≢◌, ◌<◌, Some, OnOk, OnErr, IfOk, IfErr, IsOkUnless, string_bytes, slice_get};
ghost use Rattle.puffin_data.specs.declared.error.Error.TheVariants.{Memory, MismatchedEnd, ScopesOpen};
ghost use Rattle.puffin_data.specs.Text.{cut_text};
ghost use Rattle.puffin_data.specs.Forest.Words.{open_after};
ghost use Rattle.puffin_threads.specs.Thread.Calls.{new_thread, after_begin, after_end, offsets_of, num_ended};
ghost use Rattle.puffin_threads.specs.Thread.Calls.{clock_time, begun_place};
ghost use Rattle.puffin_threads.specs.Thread.Closing.{Reports};
ghost use Rattle.puffin_threads.specs.Thread.Discarding.{after_discarding};
ghost use Rattle.puffin_collector.specs.Collector.State.{AcceptsReport, RefusesReport};

use puffin_collector::Collector;
use puffin_data::data::{Form, ScopeId};
use puffin_data::{NanoSecond, Result};
use puffin_threads::thread_profiler::{ScriptClock, ThreadProfiler};
use std::alloc::Global;
use std::marker::Model;

/// A thread's profiler. Contracts see what the thread has recorded.
#[derive(Drop)]
pub(crate) struct Recorder {
    profiler: ThreadProfiler<ScriptClock>,
}

impl Model for Recorder {
    ghost use Rattle.puffin_threads.specs.Thread.Calls.{Thread};
    ghost use Rattle.puffin_threads.specs.Thread.ThreadProfiler.{thread_of};

    ghost Value = { Thread };

    ghost view = { λ r. thread_of r.profiler };
}

impl Recorder {
    /// Makes a recorder for a thread with this name. It has no scopes yet.
    pub(crate) fn new(alloc: Global, name: String, form: Form) -> Recorder
        ensures { result ≡ new_thread (string_bytes name) form }
    {
        Recorder {
            profiler: ThreadProfiler::with_form(alloc, name, ScriptClock::new(0), form),
        }
    }

    /// Begins a scope at this time, and returns its offset. Fails only with `Memory`; nothing changes then.
    #[inline(always)]
    pub(crate) fn begin(&mut self, at: NanoSecond, id: ScopeId, text: &str) -> Result<usize>
        ensures ok { OnOk result (
            self.new ≡ after_begin self.old id (cut_text self.old.form text.now) (clock_time at)) }
        ensures offset { IfOk result (λ offset. offset ≡ begun_place self.old text.now) }
        ensures err { OnErr result (self.new ≡ self.old) }
        ensures memory { IsOkUnless result Memory }
    {
        self.profiler.clock().set(at);
        self.profiler.begin_scope(id, text)
    }

    /// Ends the innermost open scope at this time. The scope must have this offset. It then waits for the next report. Fails
    /// only with `MismatchedEnd`; nothing changes then.
    #[inline(always)]
    pub(crate) fn end(&mut self, at: NanoSecond, offset: usize) -> Result<()>
        ensures ok { OnOk result (
            (slice_get (offsets_of self.old) 0 ≡ Some offset)
            × (self.new ≡ after_end self.old (clock_time at))) }
        ensures err { OnErr result (self.new ≡ self.old) }
        ensures cause { IfErr result (λ e.
            (e ≡ MismatchedEnd) × (slice_get (offsets_of self.old) 0 ≢ Some offset)) }
    {
        self.profiler.clock().set(at);
        self.profiler.close_scope(offset)
    }

    /// Reports the closed scopes that are waiting. Returns whether there were any.
    pub(crate) fn report(&mut self, collector: &mut Collector) -> Result<bool>
        ensures { Reports AcceptsReport RefusesReport self.old self.new collector.old collector.new
            result }
    {
        self.profiler.report_closed(collector)
    }

    /// Gives up the closed scopes that are waiting, and returns how many there were. Fails only with `ScopesOpen`; nothing
    /// changes then.
    pub(crate) fn discard(&mut self) -> Result<usize>
        ensures number { IfOk result (λ number. number ≡ num_ended self.old.word) }
        ensures none_open { OnOk result (open_after 0 self.old.word ≡ 0) }
        ensures discarded { OnOk result (self.new ≡ after_discarding self.old) }
        ensures open { IfErr result (λ e. (e ≡ ScopesOpen) × (0 < open_after 0 self.old.word)) }
        ensures unchanged { OnErr result (self.new ≡ self.old) }
    {
        self.profiler.discard_closed()
    }

    /// Sets how many bytes of scopes the thread may hold.
    pub(crate) fn set_max_bytes(&mut self, bytes: usize)
        ensures { self.new ≡ self.old }
    {
        self.profiler.set_max_bytes(bytes);
    }
}
