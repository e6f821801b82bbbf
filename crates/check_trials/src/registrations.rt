//! Scopes that are registered, reported and listed by frames.
ghost use Rattle.std.specs.Prelude.{◌≡◌};
ghost use Rattle.puffin.specs.Profiler.{collected_of};

use crate::again;
use puffin::frame_data::FrameData;
use puffin::global_profiler::GlobalProfiler;
use puffin_data::Error;
use puffin_data::data::ScopeId;
use puffin_threads::scope_details::{ScopeDetails, ScopeIds};
use puffin_threads::thread_profiler::{Closed, ScriptClock, ThreadProfiler};
use std::alloc::Global;
use std::borrow::CowStr;
use std::sync::Wait;

type Thread = ThreadProfiler<ScriptClock>;

/// Copies a text into memory of its own.
pub(crate) fn owned(alloc: Global, text: &str) -> Option<CowStr<'static>> {
    Some(CowStr::Owned(again!(String::from_str(alloc, text))?))
}

/// Makes a thread profiler.
pub(crate) fn recorder(alloc: Global, name: &str) -> Option<Thread> {
    let name = again!(String::from_str(alloc, name))?;
    Some(ThreadProfiler::new(alloc, name, ScriptClock::new(0)))
}

/// Tries once to register a function.
fn function_once(
    alloc: Global,
    thread: &mut Thread,
    ids: &ScopeIds,
) -> Option<puffin_data::Result<ScopeId>> {
    Some(thread.register_function_scope(ids, owned(alloc, "load")?, owned(alloc, "a.rs")?, 7))
}

/// Registers a function.
fn function(alloc: Global, thread: &mut Thread, ids: &ScopeIds) -> Option<ScopeId> {
    again!(function_once(alloc, thread, ids)?)
}

/// Tries once to register a named scope.
fn named_once(
    alloc: Global,
    thread: &mut Thread,
    ids: &ScopeIds,
) -> Option<puffin_data::Result<ScopeId>> {
    Some(thread.register_named_scope(
        ids,
        owned(alloc, "inner")?,
        owned(alloc, "load")?,
        owned(alloc, "a.rs")?,
        9,
    ))
}

/// Registers a named scope.
fn named(alloc: Global, thread: &mut Thread, ids: &ScopeIds) -> Option<ScopeId> {
    again!(named_once(alloc, thread, ids)?)
}

/// Checks the outcome of ending the last scope. If the report was kept for lack of memory, reports again.
pub(crate) fn closed(
    outcome: Closed,
    thread: &mut Thread,
    profiler: &mut GlobalProfiler,
) -> Option<()> {
    match outcome {
        Closed::Reported => Some(()),
        Closed::Kept(Error::Memory) => {
            let _was_kept = again!(thread.report_closed(profiler))?;
            Some(())
        }
        _ => None,
    }
}

/// Reports one scope within another.
fn report(
    profiler: &mut GlobalProfiler,
    thread: &mut Thread,
    scopes: (ScopeId, ScopeId),
    start: i64,
) -> Option<()> {
    thread.clock().set(start);
    let outer = again!(thread.begin_scope(scopes.0, "outer text"))?;
    let inner = again!(thread.begin_scope(scopes.1, ""))?;
    thread.clock().set(start.saturating_add(100));
    let _inner = thread.end_scope(inner, profiler).ok()?;
    let outcome = thread.end_scope(outer, profiler).ok()?;
    closed(outcome, thread, profiler)
}

/// Makes the details of a scope with a file and a line.
fn in_file(alloc: Global, name: &str) -> Option<ScopeDetails> {
    let details = ScopeDetails::from_scope_name(owned(alloc, name)?);
    Some(details.with_file(owned(alloc, "b.rs")?).with_line_nr(3))
}

/// Registers scopes of the caller's own.
pub(crate) fn register(
    profiler: &mut GlobalProfiler,
    ids: &ScopeIds,
    details: &[ScopeDetails],
) -> puffin_data::Result<()>
    ensures reported { (collected_of profiler.new).reported
        ≡ (collected_of profiler.old).reported }
    ensures emitted { (collected_of profiler.new).emitted
        ≡ (collected_of profiler.old).emitted }
{
    let _ids = profiler.register_user_scopes(ids, details)?;
    Ok(())
}

/// Registers two scopes of the caller's own, one of them twice.
fn users(alloc: Global, profiler: &mut GlobalProfiler, ids: &ScopeIds) -> Option<()> {
    let details = [
        ScopeDetails::from_scope_name(owned(alloc, "first of the user's")?),
        in_file(alloc, "second")?,
        ScopeDetails::from_scope_name(CowStr::Borrowed("second")),
    ];
    again!(register(profiler, ids, &details))
}

/// Prints the counts of a frame, and the scopes that it lists.
pub(crate) fn print_frame<R: Print>(rt: &R, frame: &FrameData) -> Option<()> {
    let meta = frame.meta();
    let (index, scopes, bytes) = (meta.frame_index, meta.num_scopes, meta.num_bytes);
    println!(rt; "frame {index} scopes {scopes} bytes {bytes}").ok()?;
    for details in &frame.scope_delta {
        let name = details.name().as_str();
        let line = details.line_nr;
        println!(rt; "  {name} {line}").ok()?;
    }
    Some(())
}

/// Takes a frame, and prints it.
pub(crate) fn frame<R: Print + Wait>(rt: &R, profiler: &mut GlobalProfiler) -> Option<()> {
    let emitted = again!(profiler.new_frame(rt))?;
    match &emitted.frame {
        Some(frame) => print_frame(rt, frame),
        None => println!(rt; "no frame").ok(),
    }
}

/// Reports one scope within another, and takes a frame.
fn report_frame<R: Print + Wait>(
    rt: &R,
    profiler: &mut GlobalProfiler,
    thread: &mut Thread,
    scopes: (ScopeId, ScopeId),
    start: i64,
) -> Option<()> {
    report(profiler, thread, scopes, start)?;
    frame(rt, profiler)
}

/// Registers scopes of two threads, and reports them in two frames. Returns the main thread's scopes.
fn registered<R: Print + AllocGlobal + Wait>(
    rt: &R,
    ids: &ScopeIds,
    profiler: &mut GlobalProfiler,
    main: &mut Thread,
    other: &mut Thread,
) -> Option<(ScopeId, ScopeId)> {
    let alloc = rt.alloc();
    let mains = (function(alloc, main, ids)?, named(alloc, main, ids)?);
    report(profiler, main, mains, 100)?;
    let others = (function(alloc, other, ids)?, named(alloc, other, ids)?);
    report(profiler, other, others, 150)?;
    report_frame(rt, profiler, main, mains, 300)?;
    report_frame(rt, profiler, other, others, 500)?;
    Some(mains)
}

/// Does everything with a profiler and two threads, in four frames. The last one lists every known scope.
fn steps<R: Print + AllocGlobal + Wait>(
    rt: &R,
    profiler: &mut GlobalProfiler,
    main: &mut Thread,
    other: &mut Thread,
) -> Option<()> {
    let ids = ScopeIds::new();
    users(rt.alloc(), profiler, &ids)?;
    frame(rt, profiler)?;
    let mains = registered(rt, &ids, profiler, main, other)?;
    users(rt.alloc(), profiler, &ids)?;
    profiler.emit_scope_snapshot();
    report_frame(rt, profiler, main, mains, 700)
}

/// Lets two threads report to a profiler.
fn threads<R: Print + AllocGlobal + Wait>(rt: &R, profiler: &mut GlobalProfiler) -> Option<()> {
    let mut main = recorder(rt.alloc(), "main")?;
    let mut other = recorder(rt.alloc(), "other")?;
    steps(rt, profiler, &mut main, &mut other)
}

/// Registers scopes of the caller's own, and tries again if memory was refused. Returns the error.
fn refusal(
    profiler: &mut GlobalProfiler,
    ids: &ScopeIds,
    details: &[ScopeDetails],
) -> Option<Error> {
    match register(profiler, ids, details) {
        Err(Error::Memory) => register(profiler, ids, details).err(),
        settled => settled.err(),
    }
}

/// Registers scopes until no id is left, and prints that the last one was refused for that reason.
fn run_out<R: Print + AllocGlobal>(rt: &R, profiler: &mut GlobalProfiler) -> Option<()> {
    let ids = ScopeIds::starting_at(u64::from(u32::MAX) - 1);
    let mut last = None;
    for name in &["last but one", "last", "one too many"] {
        let details = [ScopeDetails::from_scope_name(owned(rt.alloc(), name)?)];
        last = refusal(profiler, &ids, &details);
    }
    match last {
        Some(Error::IdsExhausted) => println!(rt; "no id is left").ok(),
        _ => None,
    }
}

/// Registers and reports scopes of two threads, and registers scopes with another profiler until no id is left.
pub(crate) fn run<R: Print + AllocGlobal + Wait>(rt: &R) -> Option<()> {
    let mut profiler = GlobalProfiler::new(rt.alloc());
    threads(rt, &mut profiler)?;
    run_out(rt, &mut GlobalProfiler::new(rt.alloc()))
}
