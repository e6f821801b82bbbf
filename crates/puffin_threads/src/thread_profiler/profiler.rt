use crate::scope_details::{ScopeDetails, ScopeIds};
use crate::thread_profiler::clock::NsSource;
use crate::thread_profiler::reporter::{Closed, Reporter};
use crate::thread_profiler::thread_state::ThreadState;
use puffin_data::data::{Form, ScopeId};
use puffin_data::{Error, NanoSecond, Result};
use std::alloc::Global;
use std::borrow::CowStr;

/// The profiler of one thread. It records when the thread's scopes begin and end, by its own clock, and reports them when the
/// last open scope has closed.
///
/// Its times never go back: a call uses the greatest time that the clock has returned so far.
#[derive(Drop)]
pub struct ThreadProfiler<C> {
    state: ThreadState,
    clock: C,
    alloc: Global,
}

impl<C: NsSource> ThreadProfiler<C> {
    ghost use Rattle.std.specs.Prelude.{◌≡◌, ◌+◌, ◌<◌, ℤ, pos, ◌≤ℤ◌, Some, OnOk, OnErr, IfOk, IfErr, string_bytes, IsOkUnless};
    ghost use Rattle.puffin_data.specs.declared.error.Error.{Error};
    ghost use Rattle.std.specs.Cow.{cow_str_bytes};
    ghost use Rattle.puffin_data.specs.Forest.Spelling.{size_offset};
    ghost use Rattle.puffin_data.specs.Text.{cut_text};
    ghost use Rattle.puffin_data.specs.Forest.Words.{word_size, open_after};
    ghost use Rattle.puffin_threads.specs.Thread.Calls.{new_thread, after_begin, after_end, RegistersScope, num_ended};
    ghost use Rattle.puffin_threads.specs.Details.{default_details};
    ghost use Rattle.puffin_threads.specs.Thread.Closing.{EndsInnermost, Closes, Reports};
    ghost use Rattle.puffin_threads.specs.Thread.Discarding.{after_discarding};
    ghost use Rattle.puffin_threads.specs.Thread.ThreadProfiler.{thread_of, clock_of, allocator_of, with_clock};
    ghost use Rattle.puffin_threads.specs.contracts.thread_profiler.profiler.ThreadProfiler.{the_row};
    ghost use Rattle.std.specs.Borrow.{Lends, sem};

    /// Makes a profiler for a thread with this name, with no scopes and in the short form.
    ///
    /// ```
    /// let name = String::from_str(alloc, "main")?;
    /// let mut thread = ThreadProfiler::new(alloc, name, SystemClock::new(rt)?);
    /// ```
    pub fn new(alloc: Global, name: String, clock: C) -> ThreadProfiler<C>
        ensures thread { thread_of result ≡ new_thread (string_bytes name) Form.Short }
        ensures clock { clock_of result ≡ clock }
        ensures allocator { allocator_of result ≡ alloc }
    {
        ThreadProfiler::with_form(alloc, name, clock, Form::Short)
    }

    /// Makes a profiler for a thread with this name, with no scopes and in this form.
    pub fn with_form(alloc: Global, name: String, clock: C, form: Form) -> ThreadProfiler<C>
        ensures thread { thread_of result ≡ new_thread (string_bytes name) form }
        ensures clock { clock_of result ≡ clock }
        ensures allocator { allocator_of result ≡ alloc }
    {
        ThreadProfiler {
            state: ThreadState::new(alloc, name, form),
            clock,
            alloc,
        }
    }

    /// Returns the allocator.
    pub fn allocator(&self) -> Global
        ensures { result ≡ allocator_of self.now }
    {
        self.alloc
    }

    /// Borrows the clock.
    pub fn clock(&mut self) -> &mut C
        ensures value { result.now ≡ clock_of self.old }
        ensures* writes_back { sem 𝓛 (
            Lends (the_row C.row) C.row self.entry result (with_clock self.old)) }
    {
        &mut self.clock
    }

    /// Sets how many bytes of scopes the thread may hold: open ones, closed ones that no report took, and what is kept free for
    /// their ends. [`ThreadProfiler::begin_scope`] fails with `Memory` where a scope would need more, as if the machine had no
    /// more; the scopes before it stay as they are. At first there is no such limit. Allocates nothing.
    ///
    /// ```
    /// thread.set_max_bytes(1_000_000);
    /// ```
    pub fn set_max_bytes(&mut self, bytes: usize)
        ensures { self.new ≡ self.old }
    {
        self.state.set_max_bytes(bytes);
    }

    /// Returns the number of open scopes.
    pub fn depth(&self) -> usize
        ensures { result ≡ open_after 0 (thread_of self.now).word }
    {
        self.state.depth()
    }

    /// Returns the number of closed scopes that haven't been reported yet.
    pub fn num_closed(&self) -> usize
        ensures { result ≡ num_ended (thread_of self.now).word }
    {
        self.state.num_closed()
    }

    /// Begins a scope and returns its offset, which [`ThreadProfiler::end_scope`] takes. The text is cut to what the form
    /// stores (127 or 16,383 bytes), at a character boundary.
    ///
    /// Also allocates the memory for ending and reporting the scope. Fails only with `Memory`; then the clock isn't read and
    /// nothing changes.
    #[inline(always)]
    pub fn begin_scope(&mut self, id: ScopeId, text: &str) -> Result<usize>
        ensures begun { OnOk result (
            (at : ℤ)
            × C.answers (clock_of self.old) at (clock_of self.new)
            × (pos 0 ≤ℤ at)
            × (thread_of self.new
            ≡ after_begin (thread_of self.old) id
            (cut_text (thread_of self.old).form text.now) at)) }
        ensures offset { IfOk result (λ offset.
            offset
            ≡ word_size (thread_of self.old).form (thread_of self.old).word
            + size_offset (thread_of self.old).form
            (cut_text (thread_of self.old).form text.now)) }
        ensures unchanged { OnErr result (self.new ≡ self.old) }
        ensures memory { IsOkUnless result Error.Memory }
    {
        self.state.begin_scope(&mut self.clock, id, text)
    }

    /// Ends the innermost open scope, which must have this offset. If it was the last open one, hands the reporter all scopes
    /// that have closed since the last accepted report, under the thread's name and the start of its first scope.
    ///
    /// A refused report is no error: the call returns [`Closed::Kept`], and the scopes wait for the next report. Fails only
    /// with `MismatchedEnd`, if the offset isn't the innermost open scope's; then the clock isn't read and nothing changes.
    /// Allocates nothing itself; the reporter may.
    ///
    /// ```
    /// let scope = thread.begin_scope(id, "image-12.png")?;
    /// thread.end_scope(scope, &mut profiler)?;
    /// ```
    pub fn end_scope<R: Reporter>(&mut self, offset: usize, reporter: &mut R) -> Result<Closed>
        ensures innermost { EndsInnermost (thread_of self.old) offset result }
        ensures unchanged { OnErr result ((self.new ≡ self.old) × (reporter.new ≡ reporter.old)) }
        ensures closed { IfOk result (λ closed.
            (at : ℤ)
            × C.answers (clock_of self.old) at (clock_of self.new)
            × (pos 0 ≤ℤ at)
            × Closes R.accepts R.refuses (thread_of self.old) (thread_of self.new) at
            reporter.old reporter.new closed) }
    {
        let now_ns = self.time_of_end(offset)?;
        let Some(name) = self.state.close(now_ns) else {
            return Ok(Closed::Inner);
        };
        match self.state.hand_over(name, reporter) {
            Ok(()) => Ok(Closed::Reported),
            Err(e) => Ok(Closed::Kept(e)),
        }
    }

    /// Ends the innermost open scope, which must have this offset, and reports nothing. All closed scopes wait for the
    /// thread's next report, by [`ThreadProfiler::end_scope`] or [`ThreadProfiler::report_closed`].
    ///
    /// Fails only with `MismatchedEnd`, if the offset isn't the innermost open scope's; then the clock isn't read and nothing
    /// changes. Allocates nothing.
    #[inline]
    pub fn close_scope(&mut self, offset: usize) -> Result<()>
        ensures innermost { EndsInnermost (thread_of self.old) offset result }
        ensures unchanged { OnErr result (self.new ≡ self.old) }
        ensures closed { OnOk result (
            (at : ℤ)
            × C.answers (clock_of self.old) at (clock_of self.new)
            × (pos 0 ≤ℤ at)
            × (thread_of self.new ≡ after_end (thread_of self.old) at)) }
    {
        let now_ns = self.time_of_end(offset)?;
        self.state.finish(now_ns);
        Ok(())
    }

    /// Reads the clock for the end of the innermost open scope, which must have this offset. Otherwise fails with
    /// `MismatchedEnd`, and then doesn't read the clock.
    #[inline(always)]
    fn time_of_end(&mut self, offset: usize) -> Result<NanoSecond>
        ensures innermost { EndsInnermost (thread_of self.old) offset result }
        ensures unchanged { OnErr result (self.new ≡ self.old) }
        ensures answered { IfOk result (λ now_ns.
            C.answers (clock_of self.old) now_ns (clock_of self.new) × (pos 0 ≤ℤ now_ns)) }
        ensures thread { thread_of self.new ≡ thread_of self.old }
    {
        if self.state.innermost() != Some(offset) {
            return Err(Error::MismatchedEnd);
        }
        Ok(self.clock.now_ns())
    }

    /// Registers a whole function as a scope under a newly drawn id, and returns the id. The scope's details go to the reporter
    /// with the thread's next accepted report.
    ///
    /// Fails with `IdsExhausted` or `Memory`; the profiler is unchanged then, but an id may be used up.
    ///
    /// ```
    /// let (function, file) = (CowStr::Borrowed("draw"), CowStr::Borrowed("src/draw.rs"));
    /// let id = thread.register_function_scope(&ids, function, file, 7)?;
    /// ```
    pub fn register_function_scope(
        &mut self,
        ids: &ScopeIds,
        function_name: CowStr<'static>,
        file_path: CowStr<'static>,
        line_nr: u32,
    ) -> Result<ScopeId>
        ensures registered { RegistersScope (thread_of self.old)
            (record default_details {
              function_name = cow_str_bytes function_name.entry;
              file_path = cow_str_bytes file_path.entry;
              line_nr = line_nr;
            }) result (thread_of self.new) }
        ensures clock { clock_of self.new ≡ clock_of self.old }
        ensures unchanged { OnErr result (self.new ≡ self.old) }
    {
        let details = ScopeDetails::default()
            .with_function_name(function_name)
            .with_file(file_path)
            .with_line_nr(line_nr);
        self.state.register(ids, details)
    }

    /// Registers a named scope in a function, like [`ThreadProfiler::register_function_scope`].
    pub fn register_named_scope(
        &mut self,
        ids: &ScopeIds,
        scope_name: CowStr<'static>,
        function_name: CowStr<'static>,
        file_path: CowStr<'static>,
        line_nr: u32,
    ) -> Result<ScopeId>
        ensures registered { RegistersScope (thread_of self.old)
            (record default_details {
              scope_name = Some (cow_str_bytes scope_name.entry);
              function_name = cow_str_bytes function_name.entry;
              file_path = cow_str_bytes file_path.entry;
              line_nr = line_nr;
            }) result (thread_of self.new) }
        ensures clock { clock_of self.new ≡ clock_of self.old }
        ensures unchanged { OnErr result (self.new ≡ self.old) }
    {
        let details = ScopeDetails::from_scope_name(scope_name)
            .with_function_name(function_name)
            .with_file(file_path)
            .with_line_nr(line_nr);
        self.state.register(ids, details)
    }

    /// Reports all closed scopes that haven't been reported yet: those ended by [`ThreadProfiler::close_scope`], and those of
    /// refused reports. Returns `Ok(false)` if there are none.
    ///
    /// Fails with `ScopesOpen` while a scope is open, or with `Memory` if the thread's name can't be copied; the reporter isn't
    /// called then. Otherwise fails only with the reporter's error. A failure doesn't change the thread.
    pub fn report_closed<R: Reporter>(&mut self, reporter: &mut R) -> Result<bool>
        ensures reports { Reports R.accepts R.refuses (thread_of self.old) (thread_of self.new)
            reporter.old reporter.new result }
        ensures clock { clock_of self.new ≡ clock_of self.old }
    {
        if self.state.depth() != 0 {
            return Err(Error::ScopesOpen);
        }
        if self.state.is_empty() {
            return Ok(false);
        }
        let name = self.state.name_for_report()?;
        self.state.hand_over(name, reporter)?;
        Ok(true)
    }

    /// Gives up all closed scopes that haven't been reported yet, for example those of a refused report, and returns how many
    /// there were. The registered details stay for the next report, and the thread keeps its name and its first start.
    ///
    /// Fails only with `ScopesOpen`, while a scope is open; nothing changes then. Allocates nothing.
    pub fn discard_closed(&mut self) -> Result<usize>
        ensures number { IfOk result (λ number.
            number ≡ num_ended (thread_of self.old).word) }
        ensures none_open { OnOk result (open_after 0 (thread_of self.old).word ≡ 0) }
        ensures discarded { OnOk result (
            thread_of self.new ≡ after_discarding (thread_of self.old)) }
        ensures open { IfErr result (λ cause.
            (cause ≡ Error.ScopesOpen) × (0 < open_after 0 (thread_of self.old).word)) }
        ensures unchanged { OnErr result (self.new ≡ self.old) }
        ensures clock { clock_of self.new ≡ clock_of self.old }
    {
        if self.depth() > 0 {
            return Err(Error::ScopesOpen);
        }
        let number = self.state.num_closed();
        self.state.discard();
        Ok(number)
    }
}
