//! Threads that are profiled, each with its clock and its reporter.

ghost use Rattle.std.specs.Prelude.{◌≡◌, ◌≤◌, length, IfOk};
ghost use Rattle.puffin_data.specs.Forest.Words.{open_after};
ghost use Rattle.puffin_data.specs.declared.error.Error.{Error};
ghost use Rattle.puffin_data.specs.declared.data.form.Form.{Form};
ghost use Rattle.puffin_threads.specs.Thread.Calls.{new_thread, num_ended};
ghost use Rattle.puffin_threads.specs.Thread.Closing.{Reports};
ghost use Rattle.puffin_threads.specs.Thread.ThreadProfiler.{thread_of, clock_of};
ghost use Rattle.puffin_collector.specs.Collector.State.{after_learning, after_wanting};
ghost use Rattle.puffin.specs.Profiler.{collected_of, sinks_of, next_sink_of};
ghost use Rattle.puffin.specs.Profiler.Calls.{HandsOutFrame};

use crate::Switch;
use crate::global_profiler::{Emitted, FrameSink, GlobalProfiler};
use crate::light::rounds::{Meeting, Meets};
use crate::light::scopes::{GuardState, Place, Records, Scopes, ThreadScopes};
use crate::thread_profiler::{NsSource, Reporter, SystemClock, ThreadProfiler};
use puffin_data::{Error, Result};
use std::io;
use std::rt::Clock;
use std::sync::Wait;

/// A thread that is profiled. Whenever its outermost scope ends, all closed scopes go to the reporter. If a report is refused,
/// its scopes wait for the next one. Where a scope doesn't begin for want of room, and no other is open, what waits is reported
/// first, and the scope is tried once more: so a thread that has met a limit records again once a frame is taken.
#[derive(Drop)]
pub struct Thread<C, P> {
    profiler: ThreadProfiler<C>,
    reporter: P,
    scopes: ThreadScopes,
    refused: u64,
}

impl<R: Clock + AllocGlobal + Copy> Thread<SystemClock<R>, GlobalProfiler> {
    ghost use Rattle.puffin.specs.LightThread.{profiler_of, reporter_of, scopes_of, refused_of};
    ghost use Rattle.puffin.specs.Places.{details_in, num_known};

    /// Starts to profile a thread under this name, by the system's clock. The thread reports to this profiler, whose next frame
    /// lists the places of `scopes`.
    ///
    /// A program that starts threads itself makes one clock, gives each thread [`another`](SystemClock::another) of it, so that
    /// their times agree, and makes the threads with [`Thread::new`].
    ///
    /// Fails if the clock can't be read or memory runs out; the profiler is then dropped.
    ///
    /// ```
    /// let mut thread = Thread::start(rt, "main", GlobalProfiler::new(rt.alloc()), &scopes)?;
    /// ```
    pub fn start(
        rt: R,
        name: &str,
        profiler: GlobalProfiler,
        scopes: &Scopes,
    ) -> io::Result<Thread<SystemClock<R>, GlobalProfiler>>
        ensures thread { IfOk result (λ thread.
            thread_of (profiler_of thread) ≡ new_thread name.now Form.Short) }
        ensures collected { IfOk result (λ thread. collected_of (reporter_of thread)
            ≡ after_wanting (after_learning (collected_of profiler) (details_in scopes.now))) }
        ensures sinks { IfOk result (λ thread.
            (sinks_of (reporter_of thread) ≡ sinks_of profiler)
            × (next_sink_of (reporter_of thread) ≡ next_sink_of profiler)) }
        ensures known { IfOk result (λ thread.
            num_known (scopes_of thread) ≡ length (details_in scopes.now)) }
        ensures refused { IfOk result (λ thread. refused_of thread ≡ 0) }
    {
        let mut reporter = profiler;
        reporter.add_scopes(scopes.details())?;
        let known = scopes.for_thread()?;
        let alloc = rt.alloc();
        let name = String::from_str(alloc, name)?;
        let profiler = ThreadProfiler::new(alloc, name, SystemClock::new(rt)?);
        Ok(Thread::new(profiler, reporter, known))
    }
}

impl<C> Thread<C, GlobalProfiler> {
    ghost use Rattle.puffin.specs.LightThread.{reporter_of};
    ghost use Rattle.puffin.specs.Lent.{with_reporter};

    /// Hands out everything that was reported since the last frame, to the caller and to the profiler's sinks, as
    /// [`GlobalProfiler::new_frame`] does. The result has the frame, if anything was reported, and the number of sinks that didn't
    /// take it.
    ///
    /// Fails with `IndexExhausted` or `Memory`; then what was reported waits for the next frame.
    ///
    /// ```
    /// if let Some(frame) = thread.new_frame(&rt)?.frame {
    ///     view.add_frame(frame)?;
    /// }
    /// ```
    pub fn new_frame(&mut self, rt: &impl Wait) -> Result<Emitted>
        ensures handed_out { HandsOutFrame (λ boxed. (FrameSink-box boxed).accepts)
            (reporter_of self.old) result (reporter_of self.new) }
        ensures thread { self.new ≡ with_reporter self.old (reporter_of self.new) }
    {
        self.reporter.new_frame(rt)
    }
}

impl<C: NsSource, P: Reporter> Thread<C, P> {
    ghost use Rattle.puffin.specs.Guards.{BeginsAt, EndsIn};
    ghost use Rattle.puffin.specs.Places.{num_known};
    ghost use Rattle.puffin.specs.Taking.{one_more};
    ghost use Rattle.puffin.specs.LightThread.{profiler_of, reporter_of, scopes_of, refused_of};
    ghost use Rattle.puffin.specs.Lent.{with_reporter};
    ghost use Rattle.puffin.specs.contracts.light.thread.Thread.{the_row};
    ghost use Rattle.std.specs.Borrow.{Lends, sem};

    /// Makes a thread from its profiler, the reporter that it reports to, and the scopes that it knows.
    ///
    /// ```
    /// profiler.add_scopes(scopes.details())?;
    /// let thread = Thread::new(thread_profiler, profiler, scopes.for_thread()?);
    /// ```
    pub fn new(profiler: ThreadProfiler<C>, reporter: P, scopes: ThreadScopes) -> Thread<C, P>
        ensures profiler { profiler_of result ≡ profiler }
        ensures reporter { reporter_of result ≡ reporter }
        ensures scopes { scopes_of result ≡ scopes }
        ensures refused { refused_of result ≡ 0 }
    {
        Thread {
            profiler,
            reporter,
            scopes,
            refused: 0,
        }
    }

    /// Borrows the reporter.
    pub fn reporter(&mut self) -> &mut P
        ensures value { result.now ≡ reporter_of self.old }
        ensures* writes_back { sem 𝓛 (
            Lends (the_row C.row P.row) P.row self.entry result (with_reporter self.old)) }
    {
        &mut self.reporter
    }

    /// Sets how many bytes of scopes the thread may hold, as [`ThreadProfiler::set_max_bytes`] does. A scope above it doesn't
    /// begin, and is counted in [`Thread::num_refused`]; if no other scope is open, what waits is reported first, and the scope is
    /// tried once more. At first there is no such limit.
    pub fn set_max_bytes(&mut self, bytes: usize)
        ensures { self.new ≡ self.old }
    {
        self.profiler.set_max_bytes(bytes);
    }

    /// Returns the number of closed scopes that wait for a report, because an earlier one was refused or other scopes are open.
    pub fn num_closed(&self) -> usize
        ensures { result ≡ num_ended (thread_of (profiler_of self.now)).word }
    {
        self.profiler.num_closed()
    }

    /// Returns the number of open scopes.
    pub fn num_open(&self) -> usize
        ensures { result ≡ open_after 0 (thread_of (profiler_of self.now)).word }
    {
        self.profiler.depth()
    }

    /// Returns the number of scopes that were refused when they should have begun, or `u64::MAX` if there were more. Such a
    /// scope isn't in any frame.
    pub fn num_refused(&self) -> u64
        ensures { result ≡ refused_of self.now }
    {
        self.refused
    }

    /// Counts a scope that can't begin, and returns its guard's state.
    #[cold]
    #[inline(never)]
    fn refuse(&mut self, cause: Error) -> GuardState
        ensures state { result ≡ GuardState.Refused cause }
        ensures counted { self.new
            ≡ record self.old { refused = one_more self.old.refused } }
    {
        self.refused = self.refused.saturating_add(1);
        GuardState::Refused(cause)
    }

    /// Begins a scope at a place that the thread knows, for which there was no room: reports what waits, and tries once more.
    #[cold]
    #[inline(never)]
    fn begin_behind_report(&mut self, place: &Place, text: &str) -> GuardState
        requires { place.now.id ≤ num_known (scopes_of self.old) }
        ensures { BeginsAt C.answers P.accepts P.refuses self.old place.now text.now result
            self.new }
    {
        let _ = self.report_closed();
        match self.profiler.begin_scope(place.id(), text) {
            Ok(at) => GuardState::On(at),
            Err(e) => self.refuse(e),
        }
    }

    /// Ends the scope at this offset with [`ThreadProfiler::end_scope`], which also reports if no other scope is open.
    #[inline(never)]
    fn end_and_report(&mut self, offset: usize)
        ensures { EndsIn C.answers P.accepts P.refuses self.old offset self.new }
    {
        let _ = self.profiler.end_scope(offset, &mut self.reporter);
    }

    /// Reports the closed scopes that are still waiting because an earlier report was refused. Returns `Ok(false)` if there are
    /// none.
    ///
    /// Fails as [`ThreadProfiler::report_closed`] does; the thread doesn't change then.
    pub fn report_closed(&mut self) -> Result<bool>
        ensures reports { Reports P.accepts P.refuses (thread_of (profiler_of self.old))
            (thread_of (profiler_of self.new)) (reporter_of self.old) (reporter_of self.new)
            result }
        ensures clock { clock_of (profiler_of self.new) ≡ clock_of (profiler_of self.old) }
        ensures scopes { scopes_of self.new ≡ scopes_of self.old }
        ensures refused { refused_of self.new ≡ refused_of self.old }
    {
        self.profiler.report_closed(&mut self.reporter)
    }
}

impl<C: NsSource, P: Reporter> Records for Thread<C, P> {
    ghost use Rattle.puffin.specs.Guards.{BeginsAt, EndsIn};

    ghost begins = { λ old place text state new.
        BeginsAt C.answers P.accepts P.refuses old place text state new };

    ghost ends = { λ old offset new.
        EndsIn C.answers P.accepts P.refuses old offset new };

    fn switch(&self) -> &Switch {
        self.scopes.switch()
    }

    /// Begins a scope if scopes are on. A place that the thread doesn't know is refused. Where there is no room, what waits is
    /// reported, and the scope is tried once more.
    #[inline(always)]
    fn begin(&mut self, place: &Place, text: &str) -> GuardState {
        if !self.scopes.switch().are_scopes_on() {
            return GuardState::Off;
        }
        if !self.scopes.know(place) {
            return self.refuse(Error::MissingId);
        }
        match self.profiler.begin_scope(place.id(), text) {
            Ok(offset) => GuardState::On(offset),
            Err(_) => self.begin_behind_report(place, text),
        }
    }

    /// Ends the innermost scope if it has this offset. Only the end of the outermost one reports: the others just close.
    #[inline(always)]
    fn end(&mut self, offset: usize) {
        if self.profiler.depth() > 1 {
            let _ = self.profiler.close_scope(offset);
        } else {
            self.end_and_report(offset);
        }
    }
}

impl<C, P: Meets> Thread<C, P> {
    ghost use Rattle.puffin.specs.Happenings.{arrived, saw_released};
    ghost use Rattle.puffin.specs.Lent.{MarksThere};

    /// Says that the thread has arrived at the end of a round.
    pub(crate) fn arrive(&mut self, meeting: &Meeting)
        ensures { MarksThere P.told self.old arrived self.new }
    {
        self.reporter.arrive(meeting);
    }

    /// Waits until this number of rounds is released.
    pub(crate) fn wait_released(&mut self, meeting: &Meeting, rounds: u64)
        ensures { MarksThere P.told self.old (saw_released rounds) self.new }
    {
        self.reporter.wait_released(meeting, rounds);
    }
}

impl<C: Drop, P> Thread<C, P> {
    ghost use Rattle.puffin.specs.LightThread.{reporter_of, scopes_of};

    /// Consumes the thread and returns its reporter. Closed scopes that weren't reported are lost; [`Thread::num_closed`] says
    /// how many there are.
    pub fn into_reporter(self) -> P
        ensures { result ≡ reporter_of self }
    {
        let (reporter, _scopes) = self.into_parts();
        reporter
    }

    /// Does what [`Thread::into_reporter`] does, and also returns the scopes that the thread knew, for another thread.
    pub fn into_parts(self) -> (P, ThreadScopes)
        ensures reporter { result.0 ≡ reporter_of self }
        ensures scopes { result.1 ≡ scopes_of self }
    {
        let Thread {
            profiler: _,
            reporter,
            scopes,
            refused: _,
        } = self;
        (reporter, scopes)
    }
}
