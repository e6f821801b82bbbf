//! Workers on threads of their own, who report to a profiler while another thread takes frames.

ghost use Rattle.std.specs.Prelude.{◌≡◌, ◌<◌};

use crate::equal::equal;
use crate::shares::opened;
use crate::{few_workers, many_workers, shared_profiler};
use puffin::data::{Reader, Scope};
use puffin::frame_data::FrameData;
use puffin::global_profiler::{
    Event, GlobalProfiler, History, NewLog, Settled, Share, SharedProfiler,
};
use std::alloc::{AllocError, Global};
use std::process::Abort;
use std::sync::ledger::{Blank, Ledger};
use std::sync::{Arc, Wait};
use std::thread;
use std::thread::{JoinHandle, Threads};

/// The names of the workers, which are the texts of their scopes too.
pub(crate) const NAMES: [&str; 8] = ["w0", "w1", "w2", "w3", "w4", "w5", "w6", "w7"];

/// How workers report.
#[derive(Clone, Copy)]
pub(crate) enum Kind {
    /// Each scope at its end.
    Steady,
    /// So too, but few scopes.
    Few,
    /// By a reporter that refuses each third report.
    Wary,
}

impl Kind {
    /// How many scopes each worker reports.
    fn scopes(self) -> u32 {
        match self {
            Kind::Steady => shared_profiler::SCOPES,
            Kind::Few => few_workers::SCOPES,
            Kind::Wary => many_workers::SCOPES,
        }
    }
}

/// The frames that a taker was handed.
type Frames = Vec<Arc<FrameData>>;

/// Takes a frame so many times, and gives the share back with the frames.
fn taken<L: Ledger + History, M: Ledger, R: Wait>(
    rt: &R,
    profiler: &SharedProfiler<L, M>,
    share: &mut Share<L, M>,
    times: u32,
    frames: &mut Frames,
) -> puffin::Result<()> {
    for _ in 0..times {
        if let Some(frame) = profiler.new_frame(rt, share)?.frame {
            frames.push(frame)?;
        }
    }
    Ok(())
}

/// Works in one of the two ways, and gives the share back.
fn work<L: Ledger + History, M: Ledger, R: Wait + Drop>(
    rt: R,
    alloc: Global,
    profiler: SharedProfiler<L, M>,
    share: Share<L, M>,
    kind: Kind,
    worker: usize,
) -> Option<Share<L, M>> {
    let name = *NAMES.get(worker)?;
    match kind {
        Kind::Steady | Kind::Few => {
            shared_profiler::work(rt, alloc, profiler, share, name, kind.scopes())
        }
        Kind::Wary => many_workers::work(rt, alloc, profiler, share, name),
    }
}

/// The workers, each of whom gives a share back.
type Workers<L, M> = Vec<JoinHandle<Option<Share<L, M>>>>;

/// Starts a worker on a thread of its own.
fn start<
    L: Ledger + History + Send + 'static,
    M: Ledger + Send + 'static,
    R: Threads + Wait + Copy + Send + 'static,
>(
    rt: R,
    alloc: Global,
    profiler: SharedProfiler<L, M>,
    share: Share<L, M>,
    kind: Kind,
    worker: usize,
) -> std::result::Result<JoinHandle<Option<Share<L, M>>>, AllocError> {
    Ok(thread::spawn(&rt, move || {
        work(rt, alloc, profiler, share, kind, worker)
    })?)
}

/// Starts a worker with each share.
fn started<
    L: Ledger + History + Send + Sync + 'static,
    M: Ledger + Send + Sync + 'static,
    R: Threads + Wait + Abort + Copy + Send + Sync + 'static,
>(
    rt: R,
    alloc: Global,
    kind: Kind,
    profiler: &SharedProfiler<L, M>,
    shares: Vec<Share<L, M>>,
) -> Workers<L, M> {
    let mut workers = Vec::new(alloc);
    for (worker, share) in shares.into_iter().enumerate() {
        let profiler = profiler.clone().expect(&rt, "memory");
        let started = start(rt, alloc, profiler, share, kind, worker);
        workers
            .push(started.expect(&rt, "a thread"))
            .expect(&rt, "memory");
    }
    workers
}

/// Waits for the workers' ends, and gives their shares back.
fn joined<L: Ledger + History, M: Ledger, R: Threads + Wait + Abort>(
    rt: &R,
    alloc: Global,
    workers: Workers<L, M>,
) -> Vec<Share<L, M>> {
    let mut back = Vec::new(alloc);
    for worker in workers {
        back.push(worker.join(rt).expect(rt, "a worker"))
            .expect(rt, "memory");
    }
    back
}

/// Starts a worker with each share, takes frames meanwhile, and gives the shares back.
fn worked<
    L: Ledger + History + Send + Sync + 'static,
    M: Ledger + Send + Sync + 'static,
    R: Threads + Wait + Abort + Copy + Send + Sync + 'static,
>(
    rt: R,
    alloc: Global,
    kind: Kind,
    profiler: &SharedProfiler<L, M>,
    shares: Vec<Share<L, M>>,
    own: &mut Share<L, M>,
    frames: &mut Frames,
) -> Vec<Share<L, M>> {
    let workers = started(rt, alloc, kind, profiler, shares);
    taken(&rt, profiler, own, 200, frames).expect(&rt, "frames");
    joined(&rt, alloc, workers)
}

/// How many scopes workers with these names report together.
fn all_scopes(kind: Kind, names: &[&str]) -> u64 {
    u64::from(kind.scopes()).wrapping_mul(names.len() as u64)
}

/// How many scopes the frames say that they have.
fn scopes_in(frames: &Frames) -> u64 {
    let mut scopes: u64 = 0;
    for frame in frames {
        scopes = scopes.wrapping_add(frame.meta().num_scopes as u64);
    }
    scopes
}

/// The id of the last scope, where these have the text and the ids that follow the last one's.
fn followed(scopes: &[Scope<'_>], text: &str, last: u32) -> Option<u32> {
    let mut last = last;
    for scope in scopes {
        if scope.id.get() != last.wrapping_add(1) || scope.rec.text != text {
            return None;
        }
        last = scope.id.get();
    }
    Some(last)
}

/// How many scopes the frames joined have under a name, where their ids rise from 1 on and each has the name for its
/// text.
fn in_order(alloc: Global, frames: &Frames, name: &str) -> puffin::Result<Option<u32>> {
    let mut last = Some(0);
    for frame in frames {
        let Some(unpacked) = frame.as_unpacked() else {
            return Ok(None);
        };
        for (thread, info) in &unpacked.thread_streams {
            if thread.name.as_str() == name {
                let scopes = Reader::from_start(&info.stream).read_top_scopes(alloc)?;
                last = last.and_then(|last| followed(&scopes, name, last));
            }
        }
    }
    Ok(last)
}

/// The shares of so many workers aren't all, and come back.
fn one_too_few<L: Ledger + History, M: Ledger, R: Wait + Abort>(
    rt: &R,
    profiler: &SharedProfiler<L, M>,
    shares: Vec<Share<L, M>>,
    workers: usize,
) -> Vec<Share<L, M>> {
    let shares = profiler
        .settle(rt, shares)
        .err()
        .expect(rt, "too few shares");
    equal(rt, shares.len(), workers);
    shares
}

/// The frames have so many scopes of each of these threads, in order.
fn are_in_order<R: Abort>(rt: &R, alloc: Global, frames: &Frames, names: &[&str], scopes: u32) {
    for name in names {
        equal(
            rt,
            in_order(alloc, frames, name).expect(rt, "scopes"),
            Some(scopes),
        );
    }
}

/// These shares are all, and so many scopes were reported and handed out, by the totals of each share too.
fn are_all<L: Ledger + History, M: Ledger, R: Wait + Abort>(
    rt: &R,
    profiler: &SharedProfiler<L, M>,
    shares: Vec<Share<L, M>>,
    own: Share<L, M>,
    scopes: u64,
) {
    let mut shares = shares;
    shares.push(own).expect(rt, "memory");
    for share in &mut shares {
        let totals = profiler.totals(rt, share);
        equal(
            rt,
            (totals.reported, totals.pending, totals.emitted),
            (scopes, 0, scopes),
        );
    }
    let settled = profiler.settle(rt, shares).ok().expect(rt, "all shares");
    let all = Settled {
        reported: scopes,
        handed: scopes,
        pending: 0,
    };
    equal(rt, settled, all);
}

/// Workers with these names report on their threads, and one more takes frames: all scopes are handed out, each once.
/// Gives the workers' shares back.
fn are_handed_out<
    L: Ledger + History + Send + Sync + 'static,
    M: Ledger + Send + Sync + 'static,
    R: Threads + Wait + Abort + Copy + Send + Sync + 'static,
>(
    rt: R,
    alloc: Global,
    kind: Kind,
    names: &[&str],
    profiler: &SharedProfiler<L, M>,
    shares: Vec<Share<L, M>>,
    own: &mut Share<L, M>,
) -> Vec<Share<L, M>> {
    let mut frames = Vec::new(alloc);
    let shares = worked(rt, alloc, kind, profiler, shares, own, &mut frames);
    let shares = one_too_few(&rt, profiler, shares, names.len());
    taken(&rt, profiler, own, 1, &mut frames).expect(&rt, "frames");
    are_in_order(&rt, alloc, &frames, names, kind.scopes());
    equal(&rt, scopes_in(&frames), all_scopes(kind, names));
    shares
}

/// The same of a new profiler, with a share for each worker and one for whoever takes frames.
pub(crate) fn run<
    L: Ledger + History + Send + Sync + 'static,
    M: Ledger + Send + Sync + 'static,
    R: Threads + Wait + Abort + Copy + Send + Sync + 'static,
>(
    rt: R,
    alloc: Global,
    kind: Kind,
    names: &[&str],
    parts: usize,
    reported: Blank,
    handed: Blank,
    log: NewLog<Event>,
)
    requires some { 0 < parts }
    requires reported { (reported.name ≡ L.name)
        × (reported.parts ≡ L.parts)
        × (reported.parts ≡ parts) }
    requires handed { (handed.name ≡ M.name)
        × (handed.parts ≡ M.parts)
        × (handed.parts ≡ parts) }
    requires log { log.name ≡ L.history }
{
    let none = GlobalProfiler::new(alloc);
    let (profiler, mut own, shares) = opened::<L, M>(
        &rt, alloc, none, parts, reported, handed, log,
    );
    let shares = are_handed_out(rt, alloc, kind, names, &profiler, shares, &mut own);
    are_all(&rt, &profiler, shares, own, all_scopes(kind, names));
}
