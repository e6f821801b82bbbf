//! Two threads share one profiler, in a short program.

ghost use Rattle.std.specs.Prelude.{◌≡◌};

use crate::equal::equal;
use crate::shares::next_frame;
use puffin::data::ScopeId;
use puffin::frame_data::FrameData;
use puffin::global_profiler::{
    Event, GlobalProfiler, History, NewLog, Settled, Share, SharedProfiler, SharedReporter,
};
use puffin::thread_profiler::{ScriptClock, ThreadProfiler};
use std::alloc::{AllocError, Global};
use std::marker::Brand;
use std::process::Abort;
use std::sync::Wait;
use std::sync::ledger::{Blank, Ledger};
use std::thread;
use std::thread::{JoinHandle, Threads};

/// Loads an image in a scope of its own, which is reported at its end.
fn load_image<L: Ledger + History, M: Ledger, R: Wait>(
    reporter: &mut SharedReporter<L, M, R>,
    thread: &mut ThreadProfiler<ScriptClock>,
) -> Option<()> {
    let scope = thread.begin_scope(ScopeId::new(7)?, "image-12.png").ok()?;
    let _closed = reporter.end_scope(thread, scope).ok()?;
    Some(())
}

/// Loads on a thread with the name "loader".
fn load_all<L: Ledger + History, M: Ledger, R: Wait>(
    alloc: Global,
    reporter: &mut SharedReporter<L, M, R>,
) -> Option<()> {
    let name = String::from_str(alloc, "loader").ok()?;
    let mut thread = ThreadProfiler::new(alloc, name, ScriptClock::new(5));
    load_image(reporter, &mut thread)
}

/// What a loader does, whose scopes are reported by a share. Gives the share back.
fn load<L: Ledger + History, M: Ledger, R: Wait + Drop>(
    rt: R,
    alloc: Global,
    profiler: SharedProfiler<L, M>,
    share: Share<L, M>,
) -> Option<Share<L, M>> {
    let mut reporter = SharedReporter::new(rt, profiler, share);
    load_all(alloc, &mut reporter)?;
    Some(reporter.into_share())
}

/// The same on a thread of its own.
fn start<
    L: Ledger + History + Send + 'static,
    M: Ledger + Send + 'static,
    R: Threads + Wait + Copy + Send + 'static,
>(
    rt: R,
    alloc: Global,
    profiler: SharedProfiler<L, M>,
    share: Share<L, M>,
) -> std::result::Result<JoinHandle<Option<Share<L, M>>>, AllocError> {
    Ok(thread::spawn(&rt, move || { load(rt, alloc, profiler, share) })?)
}

/// Has a loader work on its thread, and waits for its end. Gives the loader's share back.
fn load_elsewhere<
    L: Ledger + History + Send + Sync + 'static,
    M: Ledger + Send + Sync + 'static,
    R: Threads + Wait + Abort + Copy + Send + Sync + 'static,
>(rt: R, alloc: Global, profiler: &SharedProfiler<L, M>, share: Share<L, M>) -> Share<L, M> {
    let loader = start(rt, alloc, profiler.clone().expect(&rt, "memory"), share).expect(
        &rt, "a thread",
    );
    loader.join(&rt).expect(&rt, "the loader's share")
}

/// The scope of the image, with the id 7, from 5 to 5.
const IMAGE: &[u8] =
    b"(\x07\0\0\0\x05\0\0\0\0\0\0\0\x0cimage-12.png\0\0\0\0\0\0\0\0)\x05\0\0\0\0\0\0\0";

/// Checks that a frame has the image alone, on the thread "loader".
fn has_image<R: Abort>(rt: &R, frame: &FrameData) {
    let streams = &frame.as_unpacked().expect(rt, "streams").thread_streams;
    equal(rt, streams.len(), 1);
    let (thread, info) = streams.first_key_value().expect(rt, "a stream");
    equal(
        rt,
        (thread.name.as_str(), thread.start_time_ns),
        ("loader", Some(5)),
    );
    equal(rt, info.stream.bytes(), IMAGE);
}

/// A loader's thread, and one that takes the frame when the loader is done.
fn framed<
    L: Ledger + History + Send + Sync + 'static,
    M: Ledger + Send + Sync + 'static,
    R: Threads + Wait + Abort + Copy + Send + Sync + 'static,
>(rt: R, alloc: Global, profiler: &SharedProfiler<L, M>, shares: &mut Vec<Share<L, M>>) {
    let theirs = shares.pop().expect(&rt, "a share");
    let theirs = load_elsewhere(rt, alloc, profiler, theirs);
    let own = shares.last_mut().expect(&rt, "another");
    has_image(&rt, &*next_frame(&rt, profiler, own));
    shares.push(theirs).expect(&rt, "memory");
}

/// Two threads share a profiler, and give their shares back at the end.
fn loaded<
    L: Ledger + History + Send + Sync + 'static,
    M: Ledger + Send + Sync + 'static,
    R: Threads + Wait + Abort + Copy + Send + Sync + 'static,
>(rt: R, alloc: Global, reported: Blank, handed: Blank, log: NewLog<Event>)
    requires reported { (reported.name ≡ L.name)
        × (reported.parts ≡ L.parts)
        × (reported.parts ≡ 2) }
    requires handed { (handed.name ≡ M.name) × (handed.parts ≡ M.parts) × (handed.parts ≡ 2) }
    requires log { log.name ≡ L.history }
{
    let profiler = GlobalProfiler::new(alloc);
    let opened = SharedProfiler::<L, M>::open(alloc, profiler, 2, reported, handed, log);
    let (profiler, mut shares) = opened.ok().expect(&rt, "memory");
    framed(rt, alloc, &profiler, &mut shares);
    let settled = profiler.settle(&rt, shares).ok().expect(&rt, "both shares");
    let all = Settled {
        reported: 1,
        handed: 1,
        pending: 0,
    };
    equal(&rt, settled, all);
}

#[test]
fn two_threads_share_a_profiler(rt: HostRuntime) {
    loaded::<Brand, Brand, HostRuntime>(
        rt,
        rt.alloc(),
        Blank::new(2),
        Blank::new(2),
        NewLog::new(),
    );
}
