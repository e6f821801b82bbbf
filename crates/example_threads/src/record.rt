//! Three threads that report, and a fourth that takes frames.
ghost use Rattle.std.specs.Prelude.{◌≡◌, IfOk};
ghost use Rattle.puffin.specs.Members.{IsNewMember};
ghost use Rattle.example_threads.specs.Recorded.{AreApart, HasDone, HasTaken, Show};

use history::{History, NewLog};
use puffin::data::ScopeId;
use puffin::frame_data::FrameData;
use puffin::global_profiler::{
    Event, GlobalProfiler, Settled, Share, SharedProfiler, SharedReporter,
};
use puffin::thread_profiler::{Closed, ScriptClock, ThreadProfiler};
use puffin_data::{Error, Result};
use std::alloc::Global;
use std::snapshot::Snapshot;
use std::sync::ledger::{Blank, Ledger};
use std::sync::{Arc, Wait};
use std::thread;
use std::thread::{Promise, PromisedHandle, Threads};

/// The name of a thread, and the texts of its scopes.
#[derive(Drop)]
pub struct Job {
    pub name: String,
    pub texts: Vec<String>,
}

/// The frames that were taken, and the counts at the end.
#[derive(Drop)]
pub struct Recorded {
    pub frames: Vec<Arc<FrameData>>,
    pub settled: Settled,
}

/// Opens a scope for each text of a job, one after the other, on a thread with its name. Gives the share back.
fn report<L: Ledger + History, M: Ledger, R: Wait + Drop>(
    rt: R,
    alloc: Global,
    profiler: SharedProfiler<L, M>,
    share: Share<L, M>,
    job: &Job,
) -> Result<Share<L, M>>
    requires { IsNewMember share }
    ensures { IfOk result (HasDone job.now) }
{
    let Some(id) = ScopeId::new(7) else {
        return Err(Error::MissingId);
    };
    let mut reporter = SharedReporter::new(rt, profiler, share);
    let mut thread = ThreadProfiler::new(alloc, job.name.clone()?, ScriptClock::new(0));
    for text in &job.texts {
        let scope = thread.begin_scope(id, text.as_str())?;
        if let Closed::Kept(e) = reporter.end_scope(&mut thread, scope)? {
            return Err(e);
        }
    }
    Ok(reporter.into_share())
}

/// Takes a frame this many times. Gives the share back, with the frames that there were.
fn take<L: Ledger + History, M: Ledger>(
    rt: &impl Wait,
    profiler: &SharedProfiler<L, M>,
    share: Share<L, M>,
    frames: Vec<Arc<FrameData>>,
    times: u32,
) -> Result<(Share<L, M>, Vec<Arc<FrameData>>)>
    requires { HasTaken frames.items share }
    ensures { IfOk result (λ taken. HasTaken taken.1.items taken.0) }
{
    let mut share = share;
    let mut frames = frames;
    for _ in 0..times {
        if let Some(frame) = profiler.new_frame(rt, &mut share)?.frame {
            frames.push(frame)?;
        }
    }
    Ok((share, frames))
}

/// That a job is done through the share that comes back.
#[derive(Drop)]
struct Does {
    job: Snapshot<Job>,
}

impl<L: Ledger + History, M: Ledger> Promise<Result<Share<L, M>>> for Does {
    ghost use Rattle.std.specs.Prelude.{IfOk};
    ghost use Rattle.example_threads.specs.Recorded.{HasDone};

    ghost kept_by = { λ does result. IfOk result (HasDone does.job.value) };
}

/// Starts a thread that does a job.
fn start<
    L: Ledger + History + Send + 'static,
    M: Ledger + Send + 'static,
    R: Threads + Wait + Copy + Send + 'static,
>(
    rt: R,
    alloc: Global,
    profiler: SharedProfiler<L, M>,
    share: Share<L, M>,
    job: Job,
) -> Result<PromisedHandle<Result<Share<L, M>>, Does>>
    requires { IsNewMember share }
    ensures { IfOk result (λ handle. handle.promise.job.value ≡ job) }
{
    let does = Does {
        job: Snapshot::of(&job),
    };
    let started = thread::spawn_with(
        &rt,
        does,
        move || -> Result<Share<L, M>>
            requires { IsNewMember share }
            ensures { IfOk result (HasDone job) }
        { report(rt, alloc, profiler, share, &job) },
    );
    started.map_err(|_refused| Error::Memory)
}

/// Does three jobs, each on a thread of its own, and takes frames meanwhile. The frames, and then what is pending, show just the
/// scopes of each job, in order.
pub fn record<
    L: Ledger + History + Send + 'static,
    M: Ledger + Send + 'static,
    R: Threads + Wait + AllocGlobal + Copy + Send + 'static,
>(
    rt: R,
    jobs: (Job, Job, Job),
    reported: Blank,
    handed: Blank,
    log: NewLog<Event>,
) -> Result<Recorded>
    requires reported { (reported.name ≡ L.name)
        × (reported.parts ≡ L.parts)
        × (reported.parts ≡ 4) }
    requires handed { (handed.name ≡ M.name) × (handed.parts ≡ M.parts) × (handed.parts ≡ 4) }
    requires log { log.name ≡ L.history }
    requires apart { AreApart jobs.0 jobs.1 × AreApart jobs.0 jobs.2 × AreApart jobs.1 jobs.2 }
    ensures first { IfOk result (λ recorded. Show recorded jobs.0) }
    ensures second { IfOk result (λ recorded. Show recorded jobs.1) }
    ensures third { IfOk result (λ recorded. Show recorded jobs.2) }
{
    let alloc = rt.alloc();
    let none = GlobalProfiler::new(alloc);
    let opened = SharedProfiler::<L, M>::open(alloc, none, 4, reported, handed, log);
    let (profiler, mut shares) = match opened {
        Ok(opened) => opened,
        Err((e, _)) => return Err(e),
    };
    let own = shares.pop().unwrap();
    let (a, b, c) = (
        shares.pop().unwrap(),
        shares.pop().unwrap(),
        shares.pop().unwrap(),
    );
    let first = start(rt, alloc, profiler.clone()?, a, jobs.0)?;
    let second = start(rt, alloc, profiler.clone()?, b, jobs.1)?;
    let third = start(rt, alloc, profiler.clone()?, c, jobs.2)?;
    let (own, frames) = take(&rt, &profiler, own, Vec::new(alloc), 5)?;
    shares.push(first.join(&rt)?)?;
    shares.push(second.join(&rt)?)?;
    shares.push(third.join(&rt)?)?;
    let (own, frames) = take(&rt, &profiler, own, frames, 1)?;
    shares.push(own)?;
    match profiler.settle(&rt, shares) {
        Ok(settled) => Ok(Recorded { frames, settled }),
        Err(_) => unreachable!(),
    }
}
