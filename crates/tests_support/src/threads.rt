//! Threads and details of scopes.

ghost use Rattle.std.specs.Prelude.{◌≡◌, ◌⊎◌, IfOk, IfErr, Some, codes, IsOkUnless};
ghost use Rattle.std.specs.Arc.{arc_value};
ghost use Rattle.puffin_data.specs.declared.error.Error.{Error};
ghost use Rattle.puffin_data.specs.declared.data.form.Form.{Form};
ghost use Rattle.puffin_threads.specs.Details.{details_of, default_details};
ghost use Rattle.puffin_threads.specs.Thread.Calls.{new_thread};
ghost use Rattle.puffin_threads.specs.Thread.ThreadKey.{key_of};
ghost use Rattle.puffin_threads.specs.Thread.ThreadProfiler.{thread_of, clock_of, allocator_of};

use crate::streams::id;
use puffin_data::{NanoSecond, Result};
use puffin_threads::scope_details::ScopeDetails;
use puffin_threads::thread_profiler::{ScriptClock, ThreadInfo, ThreadProfiler};
use std::alloc::Global;
use std::borrow::CowStr;
use std::sync::Arc;

/// Makes the info of a thread. Fails only with `Memory`.
pub fn thread_info(
    alloc: Global,
    start_time_ns: Option<NanoSecond>,
    name: &str,
) -> Result<ThreadInfo>
    ensures ok { IfOk result (λ info.
        key_of info ≡ record { start = start_time_ns; name = name.now }) }
    ensures memory { IsOkUnless result Error.Memory }
{
    Ok(ThreadInfo {
        start_time_ns,
        name: String::from_str(alloc, name)?,
    })
}

/// Makes a profiler of the thread `main`, in the short form, with a clock that is set to `at`. Fails only with `Memory`.
pub fn main_thread(alloc: Global, at: NanoSecond) -> Result<ThreadProfiler<ScriptClock>>
    ensures thread { IfOk result (λ thread.
        thread_of thread ≡ new_thread (codes "main") Form.Short) }
    ensures clock { IfOk result (λ thread. clock_of thread ≡ at) }
    ensures allocator { IfOk result (λ thread. allocator_of thread ≡ alloc) }
    ensures memory { IsOkUnless result Error.Memory }
{
    let name = String::from_str(alloc, "main")?;
    Ok(ThreadProfiler::new(alloc, name, ScriptClock::new(at)))
}

/// Makes the details of a named scope with this id. Fails with `MissingId` for 0, or with `Memory`.
pub fn named(alloc: Global, number: u32, name: &'static str) -> Result<Arc<ScopeDetails>>
    ensures details { IfOk result (λ details.
        details_of (arc_value details)
        ≡ record default_details { id = Some number; scope_name = Some name.now }) }
    ensures cause { IfErr result (λ e.
        ((e ≡ Error.MissingId) × (number ≡ 0)) ⊎ (e ≡ Error.Memory)) }
{
    let details = ScopeDetails::from_scope_name(CowStr::Borrowed(name)).with_scope_id(id(number)?);
    Ok(Arc::new(alloc, details)?)
}
