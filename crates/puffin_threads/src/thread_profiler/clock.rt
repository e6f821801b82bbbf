//! The clocks that scopes are timed by.

ghost use Rattle.std.specs.Prelude.{◌≡◌, ◌-◌, ◌^◌, ℤ, pos, ◌+ℤ◌, ◌-ℤ◌, ◌≤ℤ◌, min};
ghost use Rattle.std.specs.Int.{int_max, int_min};
ghost use Rattle.std.specs.Duration.{as_nanos};

use puffin_data::NanoSecond;
use std::io;
use std::marker::Model;
use std::rt::Clock;
use std::time::Duration;

/// A clock that counts nanoseconds. Its times may go back, but are never negative.
pub trait NsSource {
    /// Whether the clock, read in the first state, may return this time and end in the second state.
    ghost answers: { Self → ℤ → Self → Type 0 };

    /// Returns the current time, in nanoseconds.
    fn now_ns(&mut self) -> NanoSecond
        ensures answered { answers self.old result self.new }
        ensures never_negative { pos 0 ≤ℤ result };
}

/// Converts a duration to nanoseconds, or to `i64::MAX` if it is longer than that.
#[cold]
#[inline(never)]
fn nanoseconds(time: Duration) -> NanoSecond
    ensures { result ≡ pos (min (as_nanos time) (2 ^ 63 - 1)) }
{
    NanoSecond::try_from(time.as_nanos()).unwrap_or(NanoSecond::MAX)
}

/// Any smaller number of seconds fits `i64` as nanoseconds.
const QUICK_SECONDS: u64 = 1 << 33;

/// Converts a duration to nanoseconds, or to `i64::MAX` if it is longer than that. Durations of up to about 272 years take one
/// 64-bit multiplication.
#[inline(always)]
fn quick_nanoseconds(time: Duration) -> NanoSecond
    ensures { result ≡ pos (min (as_nanos time) (2 ^ 63 - 1)) }
{
    let seconds = time.as_secs();
    if seconds < QUICK_SECONDS {
        return seconds as NanoSecond * 1_000_000_000 + NanoSecond::from(time.subsec_nanos());
    }
    nanoseconds(time)
}

/// Returns the time from `begun` to `now`, or 0 if `now` is earlier.
#[inline(always)]
fn time_since(begun: NanoSecond, now: NanoSecond) -> NanoSecond
    requires begun { pos 0 ≤ℤ begun }
    requires now { pos 0 ≤ℤ now }
    ensures { result ≡ int_max (pos 0) (now -ℤ begun) }
{
    if now < begun {
        return 0;
    }
    now - begun
}

/// Returns `start + gone`, or `i64::MAX` if the sum is greater than that.
#[inline(always)]
fn time_after(start: NanoSecond, gone: NanoSecond) -> NanoSecond
    requires start { pos 0 ≤ℤ start }
    requires gone { pos 0 ≤ℤ gone }
    ensures { result ≡ int_min (start +ℤ gone) (pos (2 ^ 63 - 1)) }
{
    if gone > NanoSecond::MAX - start {
        return NanoSecond::MAX;
    }
    start + gone
}

/// The system's clock, in nanoseconds since 1970. It reads the wall clock once, when it is made; from there it advances with the
/// monotonic clock.
///
/// ```
/// let clock = SystemClock::new(rt)?;
/// ```
#[derive(Drop)]
pub struct SystemClock<R> {
    rt: R,
    begun_ns: NanoSecond,
    start_ns: NanoSecond,
    last_ns: NanoSecond,
    ghost since_boot: { pos 0 ≤ℤ begun_ns },
    ghost since_1970: { pos 0 ≤ℤ start_ns },
    ghost since_start: { start_ns ≤ℤ last_ns },
}

impl<R: Clock + Drop> SystemClock<R> {
    ghost use Rattle.std.specs.Prelude.{IfOk};
    ghost use Rattle.puffin_threads.specs.Thread.Clock.{clock_start, last_answer};

    /// Makes a clock that starts at the wall clock's time, in nanoseconds since 1970: 0 if that is before 1970, and at most
    /// `i64::MAX`. Fails with the system's error if a clock can't be read.
    pub fn new(rt: R) -> io::Result<SystemClock<R>>
        ensures start { IfOk result (λ clock. pos 0 ≤ℤ clock_start clock) }
        ensures last { IfOk result (λ clock. last_answer clock ≡ clock_start clock) }
    {
        let begun_ns = nanoseconds(rt.monotonic()?);
        let start_ns = match rt.since_1970() {
            Ok(time) => nanoseconds(time),
            // The wall clock is before 1970.
            Err(e) if e.kind() == io::ErrorKind::InvalidData => 0,
            Err(e) => return Err(e),
        };
        Ok(SystemClock {
            rt,
            begun_ns,
            start_ns,
            last_ns: start_ns,
        })
    }
}

impl<R: Copy> SystemClock<R> {
    ghost use Rattle.puffin_threads.specs.Thread.Clock.{clock_start, clock_begun, last_answer};

    /// Makes another clock with the same start, for example for another thread. Readings of clocks with the same start agree:
    /// of two readings one after the other, on any threads, the second isn't less than the first.
    ///
    /// ```
    /// let clock = SystemClock::new(rt)?;
    /// let (loader, painter) = (clock.another(), clock.another());
    /// ```
    pub fn another(&self) -> SystemClock<R>
        ensures start { clock_start result ≡ clock_start self.now }
        ensures begun { clock_begun result ≡ clock_begun self.now }
        ensures last { last_answer result ≡ last_answer self.now }
    {
        SystemClock {
            rt: self.rt,
            begun_ns: self.begun_ns,
            start_ns: self.start_ns,
            last_ns: self.last_ns,
        }
    }
}

impl<R: Clock> NsSource for SystemClock<R> {
    ghost use Rattle.std.specs.Prelude.{◌≡◌, ◌≤ℤ◌};
    ghost use Rattle.puffin_threads.specs.Thread.Clock.{clock_start, last_answer};

    // The start doesn't change, and no time is less than the start.
    ghost answers = { λ old at new.
        (clock_start new ≡ clock_start old) × (last_answer new ≡ at) × (clock_start old ≤ℤ at) };

    /// Returns the start plus the time since then, at most `i64::MAX`. If the clock can't be read, returns the last time again.
    fn now_ns(&mut self) -> NanoSecond {
        if let Ok(time) = self.rt.monotonic() {
            let gone = time_since(self.begun_ns, quick_nanoseconds(time));
            self.last_ns = time_after(self.start_ns, gone);
        }
        self.last_ns
    }
}

/// A clock that returns the time that it was set to, or 0 if that is negative.
///
/// Contracts see the time that it was set to.
#[derive(Drop)]
pub struct ScriptClock {
    at: NanoSecond,
}

impl Model for ScriptClock {
    ghost use Rattle.std.specs.Prelude.{ℤ};

    ghost Value = { ℤ };

    ghost view = { λ clock. clock.at };
}

impl ScriptClock {
    /// Makes a clock set to this time, in nanoseconds.
    pub fn new(at: NanoSecond) -> ScriptClock
        ensures { result ≡ at }
    {
        ScriptClock { at }
    }

    /// Sets the clock to this time, in nanoseconds.
    pub fn set(&mut self, at: NanoSecond)
        ensures { self.new ≡ at }
    {
        self.at = at;
    }
}

impl NsSource for ScriptClock {
    ghost use Rattle.std.specs.Prelude.{◌≡◌, pos};
    ghost use Rattle.std.specs.Int.{int_max};

    // The clock stays as it was set.
    ghost answers = { λ old at new. (new ≡ old) × (at ≡ int_max (pos 0) old) };

    /// Returns the time that the clock was set to, or 0 if that is negative.
    fn now_ns(&mut self) -> NanoSecond {
        self.at.max(0)
    }
}
