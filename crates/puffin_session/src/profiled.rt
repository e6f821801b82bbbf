//! The threads of a session.

ghost use Rattle.std.specs.Prelude.{◌≡◌, ◌+◌, ◌-◌, ◌<◌, ◌⊎◌, length, option_map, IfOk, IfErr, OnOk, OnErr, IsOkUnless};
ghost use Rattle.std.specs.String.{string_bytes};
ghost use Rattle.puffin_data.specs.Text.{cut_text};
ghost use Rattle.puffin_data.specs.Forest.Words.{open_after};
ghost use Rattle.puffin_threads.specs.Details.{with_id, AllHaveIds, IsAddingCause};
ghost use Rattle.puffin_threads.specs.Thread.Calls.{new_thread, after_begin, after_registering, begun_place, clock_time};
ghost use Rattle.puffin_session.specs.Session.Actions.{details_given};
ghost use Rattle.puffin_session.specs.inner.Serving.{EndsInnermost};

use puffin_collector::Collector;
use puffin_data::data::{Form, ScopeId};
use puffin_data::{Error, NanoSecond, Result};
use puffin_threads::scope_details::ScopeIds;
use puffin_threads::thread_profiler::{Closed, ScriptClock, ThreadProfiler};
use std::alloc::Global;
use std::borrow::CowStr;
use std::marker::Model;

/// A thread of a session, with the offsets that end its open scopes, the innermost last.
#[derive(Drop)]
pub(crate) struct Profiled {
    profiler: ThreadProfiler<ScriptClock>,
    offsets: Vec<usize>,
}

impl Model for Profiled {
    ghost use Rattle.std.specs.Prelude.{◌≡◌, reverse};
    ghost use Rattle.puffin_threads.specs.Details.{AllHaveIds};
    ghost use Rattle.puffin_threads.specs.Thread.Calls.{Thread, offsets_of};
    ghost use Rattle.puffin_threads.specs.Thread.ThreadProfiler.{thread_of};

    ghost Value = { Thread };

    ghost view = { λ p. thread_of p.profiler };

    ghost invariant = { λ p.
        (p.offsets.items ≡ reverse (offsets_of (thread_of p.profiler)))
        × AllHaveIds (thread_of p.profiler).details };
}

impl Profiled {
    /// Makes a thread without scopes, in this form.
    pub(crate) fn new(alloc: Global, name: String, form: Form) -> Profiled
        ensures { result ≡ new_thread (string_bytes name) form }
    {
        Profiled {
            profiler: ThreadProfiler::with_form(alloc, name, ScriptClock::new(0), form),
            offsets: Vec::new(alloc),
        }
    }

    /// Begins a scope at this time, and returns the offset of its size. Fails only with `Memory`; nothing changes then.
    pub(crate) fn begin(&mut self, at: NanoSecond, id: ScopeId, text: &str) -> Result<usize>
        ensures ok { OnOk result (
            self.new ≡ after_begin self.old id (cut_text self.old.form text.now) (clock_time at)) }
        ensures offset { IfOk result (λ offset. offset ≡ begun_place self.old text.now) }
        ensures err { OnErr result (self.new ≡ self.old) }
        ensures memory { IsOkUnless result Error.Memory }
    {
        self.offsets.reserve(1)?;
        self.profiler.clock().set(at);
        let offset = self.profiler.begin_scope(id, text)?;
        self.offsets.push_reserved(offset);
        Ok(offset)
    }

    /// Registers a scope's details under a newly drawn id, and returns the id. Fails with `IdsExhausted` or `Memory`; nothing
    /// changes then.
    pub(crate) fn register(
        &mut self,
        ids: &ScopeIds,
        name: &Option<String>,
        function: &String,
        file: &String,
        line: u32,
    ) -> Result<ScopeId>
        ensures ok { IfOk result (λ id.
            self.new ≡ after_registering self.old (with_id
            (details_given (option_map string_bytes name.now) (string_bytes function.now)
            (string_bytes file.now) line) id)) }
        ensures err { OnErr result (self.new ≡ self.old) }
        ensures cause { IfErr result IsAddingCause }
    {
        let function = CowStr::Owned(function.clone()?);
        let file = CowStr::Owned(file.clone()?);
        match name {
            Some(name) => {
                let name = CowStr::Owned(name.clone()?);
                self.profiler
                    .register_named_scope(ids, name, function, file, line)
            }
            None => self
                .profiler
                .register_function_scope(ids, function, file, line),
        }
    }

    /// Ends, at this time, the open scope that has `back` open scopes within it. Fails with `MismatchedEnd`, and changes
    /// nothing, if no scope is open or `back` isn't 0. There is no other error.
    pub(crate) fn end(
        &mut self,
        at: NanoSecond,
        back: usize,
        collector: &mut Collector,
    ) -> Result<Closed>
        // At any time, all registered details have ids.
        ensures ids { AllHaveIds self.old.details }
        ensures back { OnOk result (back ≡ 0) }
        ensures ok { IfOk result (λ closed.
            EndsInnermost self.old self.new (clock_time at) collector.old collector.new closed) }
        ensures err { OnErr result ((self.new ≡ self.old) × (collector.new ≡ collector.old)) }
        ensures cause { IfErr result (λ e.
            (e ≡ Error.MismatchedEnd) × ((0 < back) ⊎ (open_after 0 self.old.word ≡ 0))) }
    {
        let depth = self.offsets.len();
        if depth <= back {
            return Err(Error::MismatchedEnd);
        }
        let offset = self.offsets[depth - 1 - back];
        self.profiler.clock().set(at);
        let closed = self.profiler.end_scope(offset, collector)?;
        let _ = self.offsets.pop();
        Ok(closed)
    }
}
