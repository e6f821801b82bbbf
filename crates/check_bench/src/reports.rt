//! Scopes of a thread profiler, and reports to a profiler.

ghost use Rattle.puffin_data.specs.Forest.{Forest};
ghost use Rattle.puffin_data.specs.Honesty.{IsHonest};

use crate::scopes::{DEPTH, NESTS, SCOPES};
use crate::timing::Work;
use puffin::global_profiler::GlobalProfiler;
use puffin::scope_details::ScopeDetails;
use puffin::thread_profiler::{NsSource, Reporter, ThreadInfo, ThreadProfiler};
use puffin_data::Result;
use puffin_data::data::{ScopeId, Stream, StreamInfo, StreamInfoRef};
use std::alloc::Global;
use std::sync::Wait;

/// How many frames a run of reports takes.
const FRAMES: usize = 1_000;
/// The names of the threads that report in a frame, each of them twice.
static NAMES: [&str; 8] = [
    "main", "loader", "audio", "worker", "main", "loader", "audio", "worker",
];

/// A reporter that accepts everything and keeps nothing.
#[derive(Drop)]
pub struct Ignored;

impl Reporter for Ignored {
    ghost accepts = { λ _ _ _ _ _. Unit {0} };

    ghost refuses = { λ _ _ _ _ _ _. Unit {0} };

    fn report(
        &mut self,
        _info: ThreadInfo,
        _details: &[ScopeDetails],
        _times: &StreamInfoRef,
    ) -> Result<()> {
        Ok(())
    }
}

/// Makes one nest of scopes on a thread, which reports them when the outermost one ends.
#[inline(never)]
fn nest<C: NsSource>(thread: &mut ThreadProfiler<C>, id: ScopeId, text: &str) -> Result<()> {
    let mut offsets = [0; DEPTH];
    for offset in offsets.iter_mut() {
        *offset = thread.begin_scope(id, text)?;
    }
    for offset in offsets.iter().rev() {
        thread.end_scope(*offset, &mut Ignored)?;
    }
    Ok(())
}

/// Profiles scopes, and returns their number.
#[inline(never)]
fn profiled<C: NsSource>(thread: &mut ThreadProfiler<C>, text: &str) -> Result<usize> {
    if let Some(id) = ScopeId::new(1) {
        for _ in 0..NESTS {
            nest(thread, id, text)?;
        }
    }
    Ok(SCOPES)
}

/// Profiles scopes with a text, nested eight deep, with a report for each nest.
#[derive(Drop)]
pub struct Profiling<C> {
    pub thread: ThreadProfiler<C>,
    pub text: &'static str,
}

impl<C: NsSource> Work for Profiling<C> {
    fn run(&mut self) -> anyhow::Result<usize> {
        Ok(profiled(&mut self.thread, self.text)?)
    }
}

/// Makes a stream of a scope with one child.
pub fn two_scopes(alloc: Global) -> Result<Stream> {
    let mut stream = Stream::new(alloc);
    if let Some(id) = ScopeId::new(1) {
        let outer = stream.begin_scope_at(0, id, "outer text")?;
        let inner = stream.begin_scope_at(10, id, "inner text")?;
        for (offset, stop) in [(inner, 500), (outer, 1_000)] {
            if stream.len() >= 8 && offset <= stream.len() - 8 {
                stream.end_scope(offset, stop)?;
            }
        }
    }
    Ok(stream)
}

/// Reports an honest info twice under each of four names.
#[inline]
fn report_all(alloc: Global, profiler: &mut GlobalProfiler, info: &StreamInfo) -> Result<()>
    requires { (f : Forest) × IsHonest info.now f }
{
    let times = info.as_stream_into_ref();
    for name in &NAMES {
        let thread = ThreadInfo {
            start_time_ns: Some(0),
            name: String::from_str(alloc, name)?,
        };
        profiler.report(thread, &[], &times)?;
    }
    Ok(())
}

/// For each frame of a run, reports an honest info twice under each of four names and then takes the frame.
#[inline(never)]
fn reported<R: Wait>(
    rt: &R,
    alloc: Global,
    profiler: &mut GlobalProfiler,
    info: &StreamInfo,
) -> Result<()>
    requires { (f : Forest) × IsHonest info.now f }
{
    for _ in 0..FRAMES {
        report_all(alloc, profiler, info)?;
        let _emitted = profiler.new_frame(rt)?;
    }
    Ok(())
}

/// Makes the info of a scope with one child, and reports it in each frame of a run.
fn reported_scopes<R: Wait>(rt: &R, alloc: Global, profiler: &mut GlobalProfiler) -> Result<()> {
    let info = StreamInfo::parse(alloc, two_scopes(alloc)?)?;
    reported(rt, alloc, profiler, &info)
}

/// Reports two scopes to a profiler, with a frame after every eight reports.
#[derive(Drop)]
pub struct Reporting<'a, R> {
    pub rt: &'a R,
    pub alloc: Global,
    pub profiler: GlobalProfiler,
}

impl<R: Wait> Work for Reporting<'_, R> {
    /// The units are reports.
    fn run(&mut self) -> anyhow::Result<usize> {
        reported_scopes(self.rt, self.alloc, &mut self.profiler)?;
        Ok(FRAMES * NAMES.len())
    }
}
