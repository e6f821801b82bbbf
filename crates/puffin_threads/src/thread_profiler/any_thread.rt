//! Thread profilers with any clock.

ghost use Rattle.std.specs.Prelude.{◌≡◌, ℤ, pos, ◌≤ℤ◌, OnErr, IfOk};
ghost use Rattle.puffin_data.specs.declared.error.Error.{Error};
ghost use Rattle.puffin_threads.specs.Thread.Calls.{Thread};
ghost use Rattle.puffin_threads.specs.Thread.Closing.{EndsInnermost, Closes, Reports};

use crate::thread_profiler::clock::NsSource;
use crate::thread_profiler::profiler::ThreadProfiler;
use crate::thread_profiler::reporter::{Closed, Reporter};
use puffin_data::{Error, Result};

/// A thread profiler with any clock. Calls that take a thread profiler, whatever its clock, are generic over this.
pub trait AnyThread {
    ghost use Rattle.std.specs.Prelude.{ℤ};
    ghost use Rattle.puffin_threads.specs.Thread.Calls.{Thread};

    /// What the thread has recorded.
    ghost state: { Self → Thread };

    /// Whether the thread's clock, read in the first state, may return this time and end in the second state.
    ghost answers: { Self → ℤ → Self → Type 0 };

    /// Whether the thread's clock is the same in both states.
    ghost same_clock: { Self → Self → Type 0 };

    /// Ends the innermost open scope, like [`ThreadProfiler::end_scope`].
    fn end_scope<R: Reporter>(&mut self, offset: usize, reporter: &mut R) -> Result<Closed>
        ensures innermost { EndsInnermost (state self.old) offset result }
        ensures unchanged { OnErr result ((self.new ≡ self.old) × (reporter.new ≡ reporter.old)) }
        ensures closed { IfOk result (λ closed.
            (at : ℤ)
            × answers self.old at self.new
            × (pos 0 ≤ℤ at)
            × Closes R.accepts R.refuses (state self.old) (state self.new) at reporter.old
            reporter.new closed) };

    /// Reports the closed scopes that are still waiting, like [`ThreadProfiler::report_closed`]. Doesn't read the clock.
    fn report_closed<R: Reporter>(&mut self, reporter: &mut R) -> Result<bool>
        ensures reports { Reports R.accepts R.refuses (state self.old) (state self.new)
            reporter.old reporter.new result }
        ensures clock { same_clock self.old self.new };
}

impl<C: NsSource> AnyThread for ThreadProfiler<C> {
    ghost use Rattle.std.specs.Prelude.{◌≡◌};
    ghost use Rattle.puffin_threads.specs.Thread.ThreadProfiler.{thread_of, clock_of};

    ghost state = { λ profiler. thread_of profiler };

    ghost answers = { λ old at new. C.answers (clock_of old) at (clock_of new) };

    ghost same_clock = { λ old new. clock_of new ≡ clock_of old };

    /// Ends the innermost open scope, as [`ThreadProfiler::end_scope`].
    fn end_scope<R: Reporter>(&mut self, offset: usize, reporter: &mut R) -> Result<Closed> {
        self.end_scope(offset, reporter)
    }

    /// Reports the closed scopes that are still waiting, as [`ThreadProfiler::report_closed`].
    fn report_closed<R: Reporter>(&mut self, reporter: &mut R) -> Result<bool> {
        self.report_closed(reporter)
    }
}
