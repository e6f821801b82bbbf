//! What a program can prove of its own functions by the contracts of guards.

ghost use Rattle.std.specs.Prelude.{◌≡◌, Ok, None, IsTrue, IfOk, IfSome};
ghost use Rattle.puffin_threads.specs.Thread.ThreadProfiler.{thread_of};
ghost use Rattle.tests_macros.specs.Callers.{IsOneScope, IsEndedScope};

use crate::equal::equal;
use crate::program::main_thread;
use puffin::data::ScopeId;
use puffin::global_profiler::GlobalProfiler;
use puffin::thread_profiler::laws::open_scopes;
use puffin::thread_profiler::{Closed, NsSource, Reporter, ThreadProfiler};
use puffin::{Error, ProfilerScope, Result};
use tests_support::streams::id;

/// A scope that lasts until this function returns, and whether there was memory for it.
fn one_scope<C: NsSource>(profiler: &mut ThreadProfiler<C>, id: ScopeId) -> bool
    ensures { IsTrue result → IsOneScope id (thread_of profiler.old) (thread_of profiler.new) }
{
    open_scopes();
    let guard = ProfilerScope::open(profiler, Ok(id), "");
    guard.offset().is_some()
}

/// A scope whose guard is ended.
fn ended_scope<C: NsSource, R: Reporter>(
    profiler: &mut ThreadProfiler<C>,
    id: ScopeId,
    reporter: &mut R,
) -> Result<Option<Closed>>
    ensures { IfOk result (λ ended. IfSome ended (λ closed.
        IsEndedScope R.accepts R.refuses id (thread_of profiler.old)
        (thread_of profiler.new) reporter.old reporter.new closed)) }
{
    open_scopes();
    let guard = ProfilerScope::open(profiler, Ok(id), "");
    guard.end(reporter)
}

/// A guard whose id was refused leaves the profiler as it was.
fn refused_scope<C: NsSource>(profiler: &mut ThreadProfiler<C>, e: Error)
    ensures { profiler.new ≡ profiler.old }
{
    let _guard = ProfilerScope::open(profiler, Err(e), "");
}

/// So does a guard that is off, and ending it returns `None`.
fn no_scope<C: NsSource, R: Reporter>(
    profiler: &mut ThreadProfiler<C>,
    reporter: &mut R,
) -> Result<Option<Closed>>
    ensures nothing { result ≡ Ok None }
    ensures profiler { profiler.new ≡ profiler.old }
    ensures reporter { reporter.new ≡ reporter.old }
{
    ProfilerScope::off(profiler).end(reporter)
}

#[test]
fn scopes_of_proved_callers(rt: HostRuntime) {
    let (first, second) = (id(1).expect(&rt, "an id"), id(2).expect(&rt, "an id"));
    let mut profiler = GlobalProfiler::new(rt.alloc());
    let mut thread = main_thread(rt.alloc()).expect(&rt, "memory");
    assert!(rt; one_scope(&mut thread, first));
    equal(&rt, thread.report_closed(&mut profiler), Ok(true));
    let ended = ended_scope(&mut thread, second, &mut profiler);
    equal(&rt, ended, Ok(Some(Closed::Reported)));
    equal(&rt, profiler.totals().pending, 2);
}

#[test]
fn no_scopes_of_proved_callers(rt: HostRuntime) {
    let mut profiler = GlobalProfiler::new(rt.alloc());
    let mut thread = main_thread(rt.alloc()).expect(&rt, "memory");
    refused_scope(&mut thread, Error::IdsExhausted);
    equal(&rt, no_scope(&mut thread, &mut profiler), Ok(None));
    equal(&rt, thread.report_closed(&mut profiler), Ok(false));
}
