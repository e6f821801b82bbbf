use crate::equal::equal;
use puffin_data::NanoSecond;
use puffin_threads::thread_profiler::{NsSource, ScriptClock, SystemClock};
use std::cell::Cell;
use std::io;
use std::rt::Clock;
use std::sync::{Condvar, Mutex, Wait};
use std::thread::join;
use std::time::Duration;

/// A clock whose two readings are set, and may be errors.
#[derive(Drop)]
struct Fake {
    monotonic: Cell<Option<u64>>,
    since_1970: std::result::Result<Duration, io::ErrorKind>,
}

impl Clock for Fake {
    fn monotonic(&self) -> io::Result<Duration> {
        match self.monotonic.get() {
            Some(nanos) => Ok(Duration::from_nanos(nanos)),
            None => Err(io::Error::from(io::ErrorKind::Unsupported)),
        }
    }

    fn since_1970(&self) -> io::Result<Duration> {
        match self.since_1970 {
            Ok(time) => Ok(time),
            Err(kind) => Err(io::Error::from(kind)),
        }
    }
}

fn clock_reading(
    since_1970: std::result::Result<Duration, io::ErrorKind>,
    monotonic: Option<u64>,
) -> Fake {
    Fake {
        monotonic: Cell::new(monotonic),
        since_1970,
    }
}

/// The first time that a system's clock tells. `None` where there is no clock.
fn first_time(
    since_1970: std::result::Result<Duration, io::ErrorKind>,
    monotonic: Option<u64>,
) -> Option<NanoSecond> {
    let runtime = clock_reading(since_1970, monotonic);
    Some(SystemClock::new(&runtime).ok()?.now_ns())
}

#[test]
fn the_system_clock_counts_from_its_start(rt: HostRuntime) {
    let runtime = clock_reading(Ok(Duration::from_nanos(1000)), Some(7));
    let mut clock = SystemClock::new(&runtime).expect(&rt, "a clock");
    equal(&rt, clock.now_ns(), 1000);
    for (monotonic, expected) in &[
        (Some(27), 1020),
        (None, 1020),
        (Some(u64::MAX), NanoSecond::MAX),
    ] {
        runtime.monotonic.set(*monotonic);
        equal(&rt, clock.now_ns(), *expected);
    }
}

#[test]
fn a_clock_before_1970_and_one_that_is_not_read(rt: HostRuntime) {
    equal(
        &rt,
        first_time(Err(io::ErrorKind::InvalidData), Some(7)),
        Some(0),
    );
    let far = Duration::from_secs(u64::MAX);
    equal(&rt, first_time(Ok(far), Some(7)), Some(NanoSecond::MAX));
    equal(
        &rt,
        first_time(Err(io::ErrorKind::Unsupported), Some(7)),
        None,
    );
    equal(&rt, first_time(Ok(Duration::from_nanos(1000)), None), None);
}

#[test]
fn a_script_clock_is_never_below_0(rt: HostRuntime) {
    let mut clock = ScriptClock::new(-5);
    equal(&rt, clock.now_ns(), 0);
    clock.set(7);
    equal(&rt, clock.now_ns(), 7);
}

#[test]
fn another_clock_has_the_same_start(rt: HostRuntime) {
    let runtime = clock_reading(Ok(Duration::from_nanos(1000)), Some(7));
    let first = SystemClock::new(&runtime).expect(&rt, "a clock");
    runtime.monotonic.set(Some(27));
    let mut other = first.another();
    equal(&rt, other.now_ns(), 1020);
}

/// Whose turn it is to read a clock, the last time that was read, and how often a time was less than the one before.
#[derive(Drop)]
struct Turns {
    next: usize,
    last: NanoSecond,
    back: u32,
}

const READINGS: usize = 100_000;

/// Reads a clock in every second turn.
fn read_in_turn<R: Wait>(
    rt: &R,
    number: usize,
    clock: &mut impl NsSource,
    turns: &Mutex<Turns>,
    changed: &Condvar,
) {
    for _ in 0..READINGS / 2 {
        let mut turn = turns.lock(rt);
        for _ in rt.forever() {
            if turn.next == number {
                break;
            }
            turn = changed.wait(rt, turn);
        }
        let now = clock.now_ns();
        if now < turn.last {
            turn.back = turn.back.saturating_add(1);
        }
        turn.last = now;
        turn.next = 1_usize.saturating_sub(number);
        drop(turn);
        changed.notify_all();
    }
}

#[test]
fn two_threads_that_read_clocks_in_turn_never_go_back(rt: HostRuntime) {
    let mut first = SystemClock::new(rt).expect(&rt, "a clock");
    let mut second = first.another();
    let turns = Mutex::new(Turns {
        next: 0,
        last: 0,
        back: 0,
    });
    let changed = Condvar::new();
    join(
        &rt,
        || read_in_turn(&rt, 0, &mut first, &turns, &changed),
        || read_in_turn(&rt, 1, &mut second, &turns, &changed),
    );
    equal(&rt, turns.lock(&rt).back, 0);
}
