//! Calls that change nothing when memory is refused. Each is made again then, and what it leaves is printed.

ghost use Rattle.std.specs.Prelude.{IfOk, IfSome};
ghost use Rattle.puffin_data.specs.Forest.{Forest};
ghost use Rattle.puffin_data.specs.Honesty.{IsHonest};

use crate::again;
use crate::packets::thread;
use crate::registrations::{owned, recorder};
use crate::streams::nested;
use puffin::global_profiler::GlobalProfiler;
use puffin_data::Error;
use puffin_data::data::{Reader, ScopeId, Stream, StreamInfo};
use puffin_threads::scope_details::{ScopeCollection, ScopeDetails, ScopeIds};
use puffin_threads::thread_profiler::{ScriptClock, ThreadProfiler};
use std::alloc::Global;
use std::sync::Arc;

/// Begins a scope in an empty stream. Prints how often that asked the clock: a refused call doesn't.
fn begin<R: Print + AllocGlobal>(rt: &R) -> Option<()> {
    let id = ScopeId::new(1)?;
    let mut stream = Stream::new(rt.alloc());
    let mut asked: u32 = 0;
    let mut clock = || {
        asked = asked.saturating_add(1);
        100
    };
    let (offset, start) = again!(stream.begin_scope_by(&mut clock, id, "data"))?;
    println!(rt; "begun at {offset} start {start} asked {asked}").ok()
}

/// Tries once to make the info of a copy of a stream.
fn info_once(alloc: Global, stream: &Stream) -> puffin_data::Result<StreamInfo>
    ensures { IfOk result (λ info. (f : Forest) × IsHonest info f) }
{
    let _counted = Reader::count_scope_and_depth(alloc, stream)?;
    StreamInfo::parse(alloc, stream.clone()?)
}

/// Makes the info of forty scopes, each within the one before.
fn forty(alloc: Global) -> Option<StreamInfo>
    ensures { IfSome result (λ info. (f : Forest) × IsHonest info f) }
{
    let stream = Stream::from(again!(nested(alloc, 40))?);
    match info_once(alloc, &stream) {
        Ok(info) => Some(info),
        Err(Error::Memory) => info_once(alloc, &stream).ok(),
        Err(_) => None,
    }
}

/// Extends an info by its copy. Returns `None` if a refused call changed it.
fn extended(info: &mut StreamInfo, copy: &StreamInfo) -> Option<()> {
    let times = copy.as_stream_into_ref();
    if info.extend(&times).is_err() {
        if info.num_scopes != copy.num_scopes || info.stream.bytes() != copy.stream.bytes() {
            return None;
        }
        info.extend(&times).ok()?;
    }
    Some(())
}

/// Copies an info of forty scopes, and extends it by the copy.
fn infos<R: Print + AllocGlobal>(rt: &R) -> Option<()> {
    let mut info = forty(rt.alloc())?;
    let copy = again!(info.clone())?;
    extended(&mut info, &copy)?;
    let (scopes, depth, bytes) = (info.num_scopes, info.depth, info.stream.len());
    println!(rt; "extended scopes {scopes} depth {depth} bytes {bytes}").ok()
}

/// Begins a scope of a thread. Returns its offset, or `None` if a refused call changed how many scopes are open.
fn begun(thread: &mut ThreadProfiler<ScriptClock>, id: ScopeId) -> Option<usize> {
    let depth = thread.depth();
    match thread.begin_scope(id, "") {
        Ok(offset) => Some(offset),
        Err(Error::Memory) if thread.depth() == depth => thread.begin_scope(id, "").ok(),
        Err(_) => None,
    }
}

/// Begins three scopes of a thread, each within the one before, and prints their offsets.
fn open_three(rt: &impl Print, thread: &mut ThreadProfiler<ScriptClock>) -> Option<()> {
    print!(rt; "opened at").ok()?;
    for number in 1..4 {
        let offset = begun(thread, ScopeId::new(number)?)?;
        print!(rt; " {offset}").ok()?;
    }
    println!(rt).ok()
}

/// Begins scopes of a new thread.
fn opened<R: Print + AllocGlobal>(rt: &R) -> Option<()> {
    let mut thread = recorder(rt.alloc(), "main")?;
    open_three(rt, &mut thread)
}

/// Returns how many details a collection has by id and by name.
fn sizes(scopes: &ScopeCollection) -> (usize, usize) {
    (scopes.scopes_by_id().len(), scopes.scopes_by_name().len())
}

/// Tries once to insert the details of a named scope.
fn insert_once(
    alloc: Global,
    scopes: &mut ScopeCollection,
    id: &ScopeId,
    name: &str,
) -> Option<puffin_data::Result<()>> {
    let details = ScopeDetails::from_scope_name(owned(alloc, name)?).with_scope_id(*id);
    match Arc::new(alloc, details) {
        Ok(details) => Some(scopes.insert(details).map(|_kept| ())),
        Err(_) => Some(Err(Error::Memory)),
    }
}

/// Inserts the details of a named scope. Returns `None` if a refused call changed the collection.
fn inserted(alloc: Global, scopes: &mut ScopeCollection, id: &ScopeId, name: &str) -> Option<()> {
    let before = sizes(scopes);
    match insert_once(alloc, scopes, id, name)? {
        Ok(()) => Some(()),
        Err(Error::Memory) if sizes(scopes) == before => {
            insert_once(alloc, scopes, id, name)?.ok()
        }
        Err(_) => None,
    }
}

/// Inserts the details of three scopes, two of which have the same id, and prints how many there are.
fn collected<R: Print + AllocGlobal>(rt: &R) -> Option<()> {
    let mut scopes = ScopeCollection::new(rt.alloc());
    for (number, name) in &[(1, "a"), (2, "b"), (1, "c")] {
        inserted(rt.alloc(), &mut scopes, &ScopeId::new(*number)?, name)?;
    }
    let (ids, names) = sizes(&scopes);
    println!(rt; "collected ids {ids} names {names}").ok()
}

/// Reports scopes under a name. Returns `None` if a refused report changed a total.
fn reported(
    alloc: Global,
    profiler: &mut GlobalProfiler,
    name: &str,
    info: &StreamInfo,
) -> Option<()>
    requires { (f : Forest) × IsHonest info.now f }
{
    let times = info.as_stream_into_ref();
    let before = profiler.totals();
    let first = profiler.report(thread(alloc, 0, name)?, &[], &times);
    match first {
        Ok(()) => Some(()),
        Err(Error::Memory) if profiler.totals() == before => {
            profiler.report(thread(alloc, 0, name)?, &[], &times).ok()
        }
        Err(_) => None,
    }
}

/// Reports scopes under each of two names, twice.
fn report_twice(alloc: Global, profiler: &mut GlobalProfiler, info: &StreamInfo) -> Option<()>
    requires { (f : Forest) × IsHonest info.now f }
{
    for name in &["a", "b", "a", "b"] {
        reported(alloc, profiler, name, info)?;
    }
    Some(())
}

/// Reports forty scopes under each of two names, twice, and prints the totals.
fn totalled<R: Print + AllocGlobal>(rt: &R) -> Option<()> {
    let info = forty(rt.alloc())?;
    let mut profiler = GlobalProfiler::new(rt.alloc());
    report_twice(rt.alloc(), &mut profiler, &info)?;
    let totals = profiler.totals();
    let (reported, pending) = (totals.reported, totals.pending);
    println!(rt; "reported {reported} pending {pending}").ok()
}

/// Registers a scope with a name. Returns its id if there is one.
fn id_of(alloc: Global, profiler: &mut GlobalProfiler, ids: &ScopeIds, name: &str) -> Option<u32> {
    let details = [ScopeDetails::from_scope_name(owned(alloc, name)?)];
    let found = again!(profiler.register_user_scopes(ids, &details))?;
    Some(found.first()?.get())
}

/// Makes the details of three scopes.
fn three(alloc: Global) -> Option<Vec<ScopeDetails>> {
    let mut details = Vec::new(alloc);
    again!(details.reserve(3))?;
    for name in &["a", "b", "c"] {
        let named = ScopeDetails::from_scope_name(owned(alloc, name)?);
        details.push(named).ok()?;
    }
    Some(details)
}

/// Registers three scopes in one call, for which there are two ids. A call that is refused for memory may have spent one of
/// them, and is made again. Returns whether it was refused, or `None` if ids didn't run out.
fn runs_out(alloc: Global, profiler: &mut GlobalProfiler, ids: &ScopeIds) -> Option<bool> {
    let details = three(alloc)?;
    let first = profiler.register_user_scopes(ids, &details).err();
    let is_refused = first == Some(Error::Memory);
    let last = if is_refused {
        profiler.register_user_scopes(ids, &details).err()
    } else {
        first
    };
    if last == Some(Error::IdsExhausted) {
        Some(is_refused)
    } else {
        None
    }
}

/// Registers three scopes for which there are two ids. Returns whether the first two are known then, or one of them if memory
/// was refused.
fn knows_first(alloc: Global, profiler: &mut GlobalProfiler, ids: &ScopeIds) -> Option<bool> {
    let is_refused = runs_out(alloc, profiler, ids)?;
    let first = id_of(alloc, profiler, ids, "a")?;
    match id_of(alloc, profiler, ids, "b") {
        Some(second) => Some((first, second) == (4_294_967_294, 4_294_967_295)),
        None => Some(is_refused && first >= 4_294_967_294),
    }
}

/// Registers scopes until no id is left.
fn run_out<R: Print + AllocGlobal>(rt: &R) -> Option<()> {
    let ids = ScopeIds::starting_at(4_294_967_294);
    if knows_first(rt.alloc(), &mut GlobalProfiler::new(rt.alloc()), &ids)? {
        println!(rt; "ids run out behind the first").ok()
    } else {
        None
    }
}

/// Makes each of these calls.
pub(crate) fn run<R: Print + AllocGlobal>(rt: &R) -> Option<()> {
    begin(rt)?;
    infos(rt)?;
    opened(rt)?;
    collected(rt)?;
    totalled(rt)?;
    run_out(rt)
}
