//! A profiler behind a lock: opening it, sinks, a scope of the caller's own, a frame, and the counts at the end.
ghost use Rattle.std.specs.Prelude.{◌≡◌, IfOk, IfSome};
ghost use Rattle.puffin_data.specs.Forest.{Forest};
ghost use Rattle.puffin_data.specs.Honesty.{IsHonest};
ghost use Rattle.puffin.specs.Profiler.{collected_of};

use crate::refusal::only;
use crate::registrations::{owned, print_frame};
use crate::{again, registrations};
use puffin::frame_data::FrameData;
use puffin::global_profiler::{
    Emitted, Event, FrameSinkId, GlobalFrameView, GlobalProfiler, History, NewLog, Settled, Share,
    SharedProfiler, Sink,
};
use puffin::profile_view::FrameView;
use puffin::scope_details::{ScopeDetails, ScopeIds};
use puffin::thread_profiler::ThreadInfo;
use puffin_data::data::{ScopeId, Stream, StreamInfo};
use puffin_data::{Error, Result};
use std::alloc::Global;
use std::borrow::CowStr;
use std::marker::Brand;
use std::sync::ledger::{Blank, Ledger};
use std::sync::{Arc, Mutex, Wait};

/// Makes one scope of the caller's own.
fn own_scope(alloc: Global, id: ScopeId) -> Result<StreamInfo>
    ensures { IfOk result (λ info. (f : Forest) × IsHonest info f) }
{
    let mut stream = Stream::new(alloc);
    let scope = stream.begin_scope_at(100, id, "")?;
    stream.end_scope(scope, 250)?;
    StreamInfo::parse(alloc, stream)
}

/// Makes a sink of a view that nobody looks at.
fn view(alloc: Global) -> Option<Sink> {
    let view = match Arc::new(alloc, Mutex::new(FrameView::new(alloc))) {
        Ok(view) => view,
        Err(refused) => Arc::new(alloc, refused.value).ok()?,
    };
    Some(Sink::View(view))
}

/// Adds a sink.
fn add<L: Ledger + History, M: Ledger>(
    rt: &impl Wait,
    profiler: &SharedProfiler<L, M>,
    sink: Sink,
) -> Option<FrameSinkId> {
    match profiler.add_sink(rt, sink) {
        Ok(id) => Some(id),
        Err((Error::Memory, sink)) => match profiler.add_sink(rt, sink) {
            Ok(id) => Some(id),
            Err(_) => None,
        },
        Err(_) => None,
    }
}

/// Attaches a view.
fn attach<L: Ledger + History, M: Ledger>(
    rt: &impl Wait,
    alloc: Global,
    profiler: &SharedProfiler<L, M>,
) -> Option<GlobalFrameView> {
    again!(GlobalFrameView::attach(rt, alloc, profiler))
}

/// Registers one scope of the caller's own.
fn register<L: Ledger + History, M: Ledger>(
    rt: &impl Wait,
    profiler: &SharedProfiler<L, M>,
    ids: &ScopeIds,
) -> Option<ScopeId> {
    let details = [ScopeDetails::from_scope_name(CowStr::Borrowed("user"))];
    let ids = again!(profiler.register_user_scopes(rt, ids, &details))?;
    ids.first().copied()
}

/// Reports one scope of the caller's own.
fn report<L: Ledger + History, M: Ledger>(
    rt: &impl Wait,
    alloc: Global,
    profiler: &SharedProfiler<L, M>,
    share: &mut Share<L, M>,
    id: ScopeId,
) -> Result<()> {
    let scope = own_scope(alloc, id)?;
    let user = ThreadInfo {
        start_time_ns: None,
        name: String::from_str(alloc, "user")?,
    };
    profiler.report_user_scopes(rt, share, user, &scope.as_stream_into_ref())
}

/// Hands a frame to the sinks once more.
fn handed<L: Ledger + History, M: Ledger>(
    rt: &impl Wait,
    profiler: &SharedProfiler<L, M>,
    frame: &Arc<FrameData>,
) -> Result<usize> {
    profiler.add_frame(rt, Arc::try_clone(frame)?)
}

/// Prints a frame. If a sink had no memory for it, hands it to the sinks once more.
fn print_emitted<L: Ledger + History, M: Ledger, R: Print + Wait>(
    rt: &R,
    profiler: &SharedProfiler<L, M>,
    emitted: &Emitted,
) -> Option<()> {
    let frame = emitted.frame.as_ref()?;
    if emitted.refused > 0 {
        let _refused = again!(handed(rt, profiler, frame))?;
    }
    print_frame(rt, frame)
}

/// Takes a frame, and prints it.
fn frame<L: Ledger + History, M: Ledger, R: Print + Wait>(
    rt: &R,
    profiler: &SharedProfiler<L, M>,
    share: &mut Share<L, M>,
) -> Option<()> {
    let emitted = again!(profiler.new_frame(rt, share))?;
    print_emitted(rt, profiler, &emitted)
}

/// Returns whether a view knows the scope that the profiler knew before the view was attached.
fn knows_early(rt: &impl Wait, view: &GlobalFrameView) -> bool {
    let view = view.lock(rt);
    view.scope_collection().fetch_by_name("early").is_some()
}

/// Prints the numbers of the sinks and what the view holds, and detaches the view.
fn close<L: Ledger + History, M: Ledger, R: Print + Wait>(
    rt: &R,
    profiler: &SharedProfiler<L, M>,
    view: GlobalFrameView,
    other: FrameSinkId,
) -> Option<()> {
    let (first, second) = (view.sink_id().get(), other.get());
    let held = view.lock(rt).stats().frames();
    let knows = knows_early(rt, &view);
    let detached = view.detach(rt, profiler);
    println!(rt; "sinks {first} {second} held {held} knows {knows} detached {detached}").ok()
}

/// Settles the one share, and prints the counts.
fn settle<L: Ledger + History, M: Ledger, R: Print + Wait>(
    rt: &R,
    alloc: Global,
    profiler: &SharedProfiler<L, M>,
    share: Share<L, M>,
) -> Option<()> {
    let Settled {
        reported,
        handed,
        pending,
    } = profiler.settle(rt, only(alloc, share)?).ok()?;
    println!(rt; "reported {reported} handed {handed} pending {pending}").ok()
}

/// Adds a second sink, reports a scope and takes a frame. Returns the number of the sink.
fn reported<L: Ledger + History, M: Ledger, R: Print + Wait>(
    rt: &R,
    alloc: Global,
    profiler: &SharedProfiler<L, M>,
    share: &mut Share<L, M>,
    ids: &ScopeIds,
) -> Option<FrameSinkId> {
    let other = add(rt, profiler, view(alloc)?)?;
    let id = register(rt, profiler, ids)?;
    again!(report(rt, alloc, profiler, share, id))?;
    frame(rt, profiler, share)?;
    Some(other)
}

/// Attaches a view, reports a scope, takes a frame, and detaches the view.
fn viewed<L: Ledger + History, M: Ledger, R: Print + Wait>(
    rt: &R,
    alloc: Global,
    profiler: &SharedProfiler<L, M>,
    share: &mut Share<L, M>,
    ids: &ScopeIds,
) -> Option<()> {
    let view = attach(rt, alloc, profiler)?;
    let other = reported(rt, alloc, profiler, share, ids)?;
    close(rt, profiler, view, other)
}

/// Does everything with a shared profiler, and settles its share.
fn shared<L: Ledger + History, M: Ledger, R: Print + Wait>(
    rt: &R,
    alloc: Global,
    profiler: &SharedProfiler<L, M>,
    share: Share<L, M>,
    ids: &ScopeIds,
) -> Option<()> {
    let mut share = share;
    viewed(rt, alloc, profiler, &mut share, ids)?;
    settle(rt, alloc, profiler, share)
}

/// Does everything with another handle to a shared profiler.
fn cloned<L: Ledger + History, M: Ledger, R: Print + Wait>(
    rt: &R,
    alloc: Global,
    profiler: &SharedProfiler<L, M>,
    share: Share<L, M>,
    ids: &ScopeIds,
) -> Option<()> {
    let profiler = again!(profiler.clone())?;
    shared(rt, alloc, &profiler, share, ids)
}

/// Opens a profiler, and does everything with it. Returns the profiler if it was refused.
fn opened<L: Ledger + History, M: Ledger, R: Print + Wait>(
    rt: &R,
    profiler: GlobalProfiler,
    ids: &ScopeIds,
    alloc: Global,
    reported: Blank,
    handed: Blank,
    log: NewLog<Event>,
) -> Option<Option<GlobalProfiler>>
    requires fresh { ((collected_of profiler).reported ≡ 0)
        × ((collected_of profiler).emitted ≡ 0) }
    requires reported { (reported.name ≡ L.name)
        × (reported.parts ≡ L.parts)
        × (reported.parts ≡ 1) }
    requires handed { (handed.name ≡ M.name) × (handed.parts ≡ M.parts) × (handed.parts ≡ 1) }
    requires log { log.name ≡ L.history }
{
    match SharedProfiler::<L, M>::open(alloc, profiler, 1, reported, handed, log) {
        Ok((profiler, shares)) => {
            let mut shares = shares;
            cloned(rt, alloc, &profiler, shares.pop()?, ids)?;
            Some(None)
        }
        Err((_, profiler)) => Some(Some(profiler)),
    }
}

/// Makes a profiler know one scope.
fn prepare(alloc: Global, ids: &ScopeIds, profiler: &mut GlobalProfiler) -> Option<()>
    ensures reported { (collected_of profiler.new).reported
        ≡ (collected_of profiler.old).reported }
    ensures emitted { (collected_of profiler.new).emitted
        ≡ (collected_of profiler.old).emitted }
{
    let details = [ScopeDetails::from_scope_name(owned(alloc, "early")?)];
    again!(registrations::register(profiler, ids, &details))
}

/// Makes a profiler know one scope, and does everything with it. Returns the profiler if it couldn't be opened.
fn once<R: Print + AllocGlobal + Wait>(
    rt: &R,
    profiler: GlobalProfiler,
) -> Option<Option<GlobalProfiler>>
    requires fresh { ((collected_of profiler).reported ≡ 0)
        × ((collected_of profiler).emitted ≡ 0) }
{
    let (ids, mut profiler) = (ScopeIds::new(), profiler);
    prepare(rt.alloc(), &ids, &mut profiler)?;
    opened::<Brand, Brand, R>(
        rt,
        profiler,
        &ids,
        rt.alloc(),
        Blank::new(1),
        Blank::new(1),
        NewLog::new(),
    )
}

/// Reports one scope of the caller's own to a profiler without a lock.
fn report_to(alloc: Global, profiler: &mut GlobalProfiler) -> Option<()> {
    let scope = own_scope(alloc, ScopeId::new(1)?).ok()?;
    let user = ThreadInfo {
        start_time_ns: None,
        name: String::from_str(alloc, "user").ok()?,
    };
    profiler
        .report_user_scopes(user, &scope.as_stream_into_ref())
        .ok()
}

/// Returns whether a frame has the index 0 and one scope, and lists only the scope `early`.
fn is_first(frame: &FrameData) -> bool {
    let (index, scopes) = (frame.meta().frame_index, frame.meta().num_scopes);
    let told = match frame.scope_delta.first() {
        Some(details) => details.name().as_str() == "early",
        None => false,
    };
    (index, scopes, frame.scope_delta.len()) == (0, 1, 1) && told
}

/// Returns whether a profiler knows the one scope and has taken no frame. Takes a frame for this: it must be frame 0 and list
/// the scope.
fn is_as_prepared<R: AllocGlobal + Wait>(rt: &R, profiler: &mut GlobalProfiler) -> Option<bool> {
    report_to(rt.alloc(), profiler)?;
    Some(is_first(&*profiler.new_frame(rt).ok()?.frame?))
}

/// Shares another profiler. Returns `None` if it can't be opened.
fn another<R: Print + AllocGlobal + Wait>(rt: &R) -> Option<()> {
    match once(rt, GlobalProfiler::new(rt.alloc()))? {
        None => Some(()),
        Some(_) => None,
    }
}

/// Shares a profiler. If it couldn't be opened for lack of memory, checks that it is as before, and shares another one.
pub(crate) fn run<R: Print + AllocGlobal + Wait>(rt: &R) -> Option<()> {
    let Some(mut refused) = once(rt, GlobalProfiler::new(rt.alloc()))? else {
        return Some(());
    };
    if !is_as_prepared(rt, &mut refused)? {
        return None;
    }
    another(rt)
}
