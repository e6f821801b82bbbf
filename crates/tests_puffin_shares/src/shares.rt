//! A profiler that is shared, as most tests here begin with.

ghost use Rattle.std.specs.Prelude.{◌≡◌, ◌<◌, IfOk};
ghost use Rattle.puffin_data.specs.Forest.{Forest};
ghost use Rattle.puffin_data.specs.Honesty.{IsHonest};
ghost use Rattle.puffin.specs.Profiler.{collected_of};

use crate::equal::equal;
use puffin::data::{Form, ScopeId, StreamInfo};
use puffin::frame_data::FrameData;
use puffin::global_profiler::{
    Emitted, Event, GlobalProfiler, History, NewLog, Share, SharedProfiler, SharedReporter,
};
use puffin::thread_profiler::{Closed, ScriptClock, ThreadProfiler};
use std::alloc::Global;
use std::process::Abort;
use std::sync::ledger::{Blank, Ledger};
use std::sync::{Arc, Wait};
use tests_support::samples::ONE_SCOPE;
use tests_support::streams::stream_of;

/// A profiler, the share of whoever takes frames, and those of all others.
pub(crate) type Opened<L, M> = (SharedProfiler<L, M>, Share<L, M>, Vec<Share<L, M>>);

/// A profiler that nothing was reported to, shared by so many.
pub(crate) fn opened<L: Ledger + History, M: Ledger>(
    rt: &impl Abort,
    alloc: Global,
    profiler: GlobalProfiler,
    parts: usize,
    reported: Blank,
    handed: Blank,
    log: NewLog<Event>,
) -> Opened<L, M>
    requires fresh { ((collected_of profiler).reported ≡ 0)
        × ((collected_of profiler).emitted ≡ 0) }
    requires some { 0 < parts }
    requires reported { (reported.name ≡ L.name)
        × (reported.parts ≡ L.parts)
        × (reported.parts ≡ parts) }
    requires handed { (handed.name ≡ M.name)
        × (handed.parts ≡ M.parts)
        × (handed.parts ≡ parts) }
    requires log { log.name ≡ L.history }
{
    let opened = SharedProfiler::<L, M>::open(alloc, profiler, parts, reported, handed, log);
    let (profiler, mut shares) = opened.ok().expect(rt, "memory");
    let own = shares.pop().expect(rt, "a share");
    (profiler, own, shares)
}

/// Closes a scope for each text on a thread with the name "main", and each is reported at its end.
fn closed<L: Ledger + History, M: Ledger, R: Wait + Abort>(
    rt: &R,
    alloc: Global,
    reporter: &mut SharedReporter<L, M, R>,
    form: Form,
    id: ScopeId,
    texts: &[&str],
) {
    let name = String::from_str(alloc, "main").expect(rt, "memory");
    let mut thread = ThreadProfiler::with_form(alloc, name, ScriptClock::new(5), form);
    for text in texts {
        let scope = thread.begin_scope(id, text).expect(rt, "a scope");
        let closed = reporter
            .end_scope(&mut thread, scope)
            .expect(rt, "a report");
        equal(rt, closed, Closed::Reported);
    }
}

/// Reports by this share a scope for each text, and gives the share back.
pub(crate) fn reported<L: Ledger + History, M: Ledger, R: Wait + Abort + Copy + Drop>(
    rt: R,
    alloc: Global,
    profiler: &SharedProfiler<L, M>,
    share: Share<L, M>,
    form: Form,
    id: ScopeId,
    texts: &[&str],
) -> Share<L, M> {
    let mut reporter = SharedReporter::new(rt, profiler.clone().expect(&rt, "memory"), share);
    closed(&rt, alloc, &mut reporter, form, id, texts);
    reporter.into_share()
}

/// The next frame, which no sink refuses.
pub(crate) fn next_frame<L: Ledger + History, M: Ledger, R: Wait + Abort>(
    rt: &R,
    profiler: &SharedProfiler<L, M>,
    share: &mut Share<L, M>,
) -> Arc<FrameData> {
    let Emitted { frame, refused } = profiler.new_frame(rt, share).expect(rt, "a frame");
    equal(rt, refused, 0);
    frame.expect(rt, "a frame")
}

/// The info of one scope.
pub(crate) fn one_scope(alloc: Global) -> puffin::Result<StreamInfo>
    ensures { IfOk result (λ info. (f : Forest) × IsHonest info f) }
{
    StreamInfo::parse(alloc, stream_of(alloc, &ONE_SCOPE)?)
}
