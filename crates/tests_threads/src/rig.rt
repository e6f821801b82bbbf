//! A thread's profiler and a recorder that it reports to.

use crate::equal::equal;
use puffin_data::data::{Stream, StreamInfo, StreamInfoRef};
use puffin_data::{Error, NanoSecond, Result};
use puffin_threads::scope_details::ScopeDetails;
use puffin_threads::thread_profiler::{
    Closed, NsSource, Reporter, ScriptClock, ThreadInfo, ThreadProfiler,
};
use std::alloc::Global;
use std::process::Abort;
use tests_support::streams::id;
use tests_support::threads::main_thread;

/// Refuses so many reports, and keeps those after them.
#[derive(Drop)]
pub(crate) struct Recorder {
    pub(crate) alloc: Global,
    refusals: usize,
    pub(crate) details: Vec<ScopeDetails>,
    reports: Vec<(ThreadInfo, StreamInfo)>,
}

impl Recorder {
    pub(crate) fn new(alloc: Global, refusals: usize) -> Recorder {
        Recorder {
            alloc,
            refusals,
            details: Vec::new(alloc),
            reports: Vec::new(alloc),
        }
    }

    pub(crate) fn at(&self, place: usize) -> Result<&(ThreadInfo, StreamInfo)> {
        self.reports.get(place).ok_or(Error::Empty)
    }
}

impl Reporter for Recorder {
    ghost use Rattle.std.specs.Prelude.{⊤};

    ghost accepts = { λ _ _ _ _ _. ⊤ };

    ghost refuses = { λ _ _ _ _ _ _. ⊤ };

    fn report(
        &mut self,
        info: ThreadInfo,
        details: &[ScopeDetails],
        times: &StreamInfoRef,
    ) -> Result<()> {
        if self.refusals > 0 {
            self.refusals -= 1;
            return Err(Error::TooLarge);
        }
        let kept = StreamInfo {
            stream: Stream::from(Vec::from_slice(self.alloc, times.stream)?),
            num_scopes: times.num_scopes,
            depth: times.depth,
            range_ns: times.range_ns,
        };
        for registered in details {
            self.details.push(registered.clone()?)?;
        }
        self.reports.push((info, kept))?;
        Ok(())
    }
}

/// A thread's profiler, and the recorder that it reports to.
#[derive(Drop)]
pub(crate) struct Rig {
    pub(crate) thread: ThreadProfiler<ScriptClock>,
    pub(crate) recorder: Recorder,
}

impl Rig {
    /// The thread `main` at a time, and a recorder that refuses so many reports.
    pub(crate) fn new(alloc: Global, at: NanoSecond, refusals: usize) -> Result<Rig> {
        Ok(Rig {
            thread: main_thread(alloc, at)?,
            recorder: Recorder::new(alloc, refusals),
        })
    }

    pub(crate) fn begin(&mut self, number: u32, text: &str) -> Result<usize> {
        self.thread.begin_scope(id(number)?, text)
    }

    fn end(&mut self, offset: usize) -> Result<Closed> {
        self.thread.end_scope(offset, &mut self.recorder)
    }

    pub(crate) fn report_closed(&mut self) -> Result<bool> {
        self.thread.report_closed(&mut self.recorder)
    }

    pub(crate) fn set(&mut self, at: NanoSecond) {
        self.thread.clock().set(at);
    }

    /// How many scopes are open, and how many reports and details the recorder has.
    pub(crate) fn counts(&self) -> (usize, usize, usize) {
        (
            self.thread.depth(),
            self.recorder.reports.len(),
            self.recorder.details.len(),
        )
    }

    /// A scope begins, and its offset is as expected.
    pub(crate) fn begins(&mut self, rt: &impl Abort, scope: (u32, &str), expected: usize) {
        equal(
            rt,
            (expected, self.begin(scope.0, scope.1)),
            (expected, Ok(expected)),
        );
    }

    /// What ending a scope returns is as expected.
    pub(crate) fn ends(&mut self, rt: &impl Abort, offset: usize, expected: Result<Closed>) {
        equal(rt, (offset, self.end(offset)), (offset, expected));
    }

    /// What reporting closed scopes returns is as expected.
    pub(crate) fn reports(&mut self, rt: &impl Abort, expected: Result<bool>) {
        equal(rt, self.report_closed(), expected);
    }

    /// So many scopes are open, and the recorder has so many reports and details.
    pub(crate) fn has(&self, rt: &impl Abort, expected: (usize, usize, usize)) {
        equal(rt, self.counts(), expected);
    }

    /// The bytes of a report.
    pub(crate) fn bytes(&self, place: usize) -> Result<&[u8]> {
        Ok(self.recorder.at(place)?.1.stream.bytes())
    }
}
