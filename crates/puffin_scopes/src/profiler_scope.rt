//! Guards of scopes.

use crate::guard_state::GuardState;
use puffin_data::data::ScopeId;
use puffin_data::{Error, Result};
use puffin_threads::thread_profiler::{Closed, NsSource, Reporter, ThreadProfiler};

/// A guard of a thread's scope: dropping it ends the scope.
///
/// It borrows the thread's profiler; until it is dropped, use the profiler through [`ProfilerScope::profiler`]. The guard's
/// scope is whichever open scope of the profiler has the guard's offset.
///
/// ```
/// let mut whole = ProfilerScope::new(&mut thread, id, "all bodies")?;
/// let profiler = whole.profiler();
/// ```
pub struct ProfilerScope<'p, C: NsSource> {
    profiler: &'p mut ThreadProfiler<C>,
    state: GuardState,
}

impl<'p, C: NsSource> ProfilerScope<'p, C> {
    ghost use Rattle.std.specs.Prelude.{◌≡◌, ◌⊎◌, None, Some, IfOk, IfErr, IsOkUnless};
    ghost use Rattle.std.specs.Borrow.{sem, RestsIfErr};
    ghost use Rattle.puffin_data.specs.declared.error.Error.{Error};
    ghost use Rattle.puffin_threads.specs.contracts.thread_profiler.profiler.ThreadProfiler.{the_row as profiler_row};
    ghost use Rattle.puffin_scopes.specs.Guards.Guard.{profiler_of, lender_of, offset_of, guard_refusal};
    ghost use Rattle.puffin_scopes.specs.Guards.Beginning.{IsOn, IsOff};
    ghost use Rattle.puffin_scopes.specs.Guards.Ending.{Ends};

    /// Begins a scope, as [`ThreadProfiler::begin_scope`] does. Fails only with `Memory`; nothing changes then.
    #[inline(always)]
    pub fn new(
        profiler: &'p mut ThreadProfiler<C>,
        id: ScopeId,
        text: &str,
    ) -> Result<ProfilerScope<'p, C>>
        ensures* refused { sem 𝓛 (
            RestsIfErr (profiler_row C.row) profiler.entry lender_of result
            (λ after. after ≡ profiler.old)) }
        ensures same_reference { IfOk result (λ scope.
            lender_of scope ≡ profiler.entry.ghost_name) }
        ensures begun { IfOk result (λ scope.
            IsOn C.answers profiler.old id text.now scope) }
        ensures memory { IsOkUnless result Error.Memory }
    {
        let state = GuardState::On(profiler.begin_scope(id, text)?);
        Ok(ProfilerScope { profiler, state })
    }

    /// Makes a guard without a scope.
    #[inline]
    pub fn off(profiler: &'p mut ThreadProfiler<C>) -> ProfilerScope<'p, C>
        ensures same_reference { lender_of result ≡ profiler.entry.ghost_name }
        ensures off { IsOff profiler.old None result }
    {
        let state = GuardState::Off;
        ProfilerScope { profiler, state }
    }

    /// Begins a scope under this id and returns its guard. If `id` is an error, or if beginning the scope fails with `Memory`,
    /// the guard has no scope, the profiler is unchanged, and [`ProfilerScope::refusal`] returns the error.
    #[inline(always)]
    pub fn open(
        profiler: &'p mut ThreadProfiler<C>,
        id: Result<ScopeId>,
        text: &str,
    ) -> ProfilerScope<'p, C>
        ensures same_reference { lender_of result ≡ profiler.entry.ghost_name }
        ensures begun { IfOk id (λ number.
            IsOn C.answers profiler.old number text.now result
            ⊎ IsOff profiler.old (Some Error.Memory) result) }
        ensures refused { IfErr id (λ e. IsOff profiler.old (Some e) result) }
    {
        let state = match id {
            Ok(id) => match profiler.begin_scope(id, text) {
                Ok(offset) => GuardState::On(offset),
                Err(e) => GuardState::Refused(e),
            },
            Err(e) => GuardState::Refused(e),
        };
        ProfilerScope { profiler, state }
    }

    /// Borrows the thread's profiler, for scopes within this one. If this guard's scope is ended through that borrow, the guard
    /// ends nothing, unless a new scope with the same offset is the innermost open one when the guard is ended or dropped.
    pub fn profiler(&mut self) -> &mut ThreadProfiler<C>
        ensures { result.now ≡ profiler_of self.old }
    {
        &mut *self.profiler
    }

    /// Returns the offset of the guard's scope, which its profiler's calls take, or `None` if the guard has no scope.
    pub fn offset(&self) -> Option<usize>
        ensures { result ≡ offset_of self.now }
    {
        match self.state {
            GuardState::On(offset) => Some(offset),
            GuardState::Off | GuardState::Refused(_) => None,
        }
    }

    /// Returns the error if the scope was refused, or `None` if it began or the guard is off.
    pub fn refusal(&self) -> Option<Error>
        ensures { result ≡ guard_refusal self.now }
    {
        match self.state {
            GuardState::Refused(e) => Some(e),
            GuardState::On(_) | GuardState::Off => None,
        }
    }

    /// Ends the scope, as [`ThreadProfiler::end_scope`] does. Returns `Ok(None)` if the guard has no scope.
    ///
    /// Fails only with `MismatchedEnd`, if the scope isn't the innermost open one. No scope is ended then, and the guard is
    /// consumed.
    #[inline]
    pub fn end<R: Reporter>(self, reporter: &mut R) -> Result<Option<Closed>>
        ensures { Ends C.answers R.accepts R.refuses (offset_of self.entry)
            (profiler_of self.entry) self.exit.0.now reporter.old reporter.new result }
    {
        let ProfilerScope { profiler, state } = self;
        match state {
            GuardState::On(offset) => Ok(Some(profiler.end_scope(offset, reporter)?)),
            GuardState::Off | GuardState::Refused(_) => Ok(None),
        }
    }
}

impl<C: NsSource> Drop for ProfilerScope<'_, C> {
    ghost use Rattle.puffin_scopes.specs.Guards.Guard.{profiler_of, offset_of};
    ghost use Rattle.puffin_scopes.specs.Guards.Ending.{IsDropped};

    /// Ends the scope if it is the innermost open one, and reports nothing: closed scopes wait for the thread's next report.
    #[inline(always)]
    fn drop(self)
        ensures left { IsDropped C.answers (offset_of self.entry)
            (profiler_of self.entry) self.exit.0.now }
    {
        let ProfilerScope { profiler, state } = self;
        if let GuardState::On(offset) = state {
            // It fails if another scope is the innermost, and then changes nothing: a drop has nobody to tell.
            let _ = profiler.close_scope(offset);
        }
    }
}
