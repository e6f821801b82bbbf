//! What a profiler may hold: the limits of its view and of what waits for a frame; dropping the view's frames.

ghost use Rattle.puffin_c.specs.Faults.{Returns};
ghost use Rattle.puffin_c.specs.Handles.{profiler_in};
ghost use Rattle.puffin_c.specs.Profiling.{Changes, with_limits, without_view};
ghost use Rattle.puffin_c.specs.Recording.{Keeps};

use crate::fault::{Fault, answer_code};
use crate::handles::PuffinProfiler;
use std::alloc::Global;

/// Limits the frames that an open profiler's view keeps.
fn limit(
    alloc: Global,
    profiler: &mut PuffinProfiler,
    recent: usize,
    slow: usize,
) -> Result<(), Fault>
    ensures { Changes (λ q. with_limits q recent slow) (profiler_in profiler.old)
        (profiler_in profiler.new) result }
{
    if !profiler.is_open {
        return Err(Fault::NotOpen);
    }
    let mut whole = profiler.take(alloc);
    whole.set_limits(recent, slow);
    profiler.put(whole);
    Ok(())
}

/// Sets how many recent and how many slow frames the view keeps at most. This takes effect when the next frame is added.
///
/// Fails with `NotOpen`.
#[unsafe(no_mangle)]
pub extern "C" fn puffin_set_limits(
    alloc: Global,
    profiler: &mut PuffinProfiler,
    recent: usize,
    slow: usize,
) -> u32
    ensures { Returns result (Changes (λ q. with_limits q recent slow) (profiler_in profiler.old)
        (profiler_in profiler.new)) }
{
    let answer = limit(alloc, profiler, recent, slow);
    answer_code(answer)
}

/// Limits the bytes that wait for an open profiler's next frame.
fn limit_pending(alloc: Global, profiler: &mut PuffinProfiler, bytes: u64) -> Result<(), Fault>
    ensures { Keeps (profiler_in profiler.old) (profiler_in profiler.new) result }
{
    if !profiler.is_open {
        return Err(Fault::NotOpen);
    }
    let mut whole = profiler.take(alloc);
    whole.collector.set_max_pending(bytes as usize);
    profiler.put(whole);
    Ok(())
}

/// Sets how many bytes of scopes may wait for the next frame, of all threads together. [`puffin_report`] and
/// [`puffin_user_scopes`] fail with `Memory` where there would be more, and change nothing; while nothing waits, they take scopes of
/// any size. What waits stays. At first there is no such limit.
///
/// Fails with `NotOpen`. Allocates nothing.
///
/// [`puffin_report`]: crate::profiling::puffin_report
/// [`puffin_user_scopes`]: crate::user_scopes::puffin_user_scopes
#[unsafe(no_mangle)]
pub extern "C" fn puffin_set_max_pending(
    alloc: Global,
    profiler: &mut PuffinProfiler,
    bytes: u64,
) -> u32
    ensures { Returns result (Keeps (profiler_in profiler.old) (profiler_in profiler.new)) }
{
    let answer = limit_pending(alloc, profiler, bytes);
    answer_code(answer)
}

/// Drops the frames of an open profiler's view.
fn clear(alloc: Global, profiler: &mut PuffinProfiler) -> Result<(), Fault>
    ensures { Changes without_view (profiler_in profiler.old) (profiler_in profiler.new) result }
{
    if !profiler.is_open {
        return Err(Fault::NotOpen);
    }
    let mut whole = profiler.take(alloc);
    whole.clear_view(alloc);
    profiler.put(whole);
    Ok(())
}

/// Drops all frames of the view, recent and slow, and keeps its limits. The scopes that wait for the next frame stay.
///
/// Fails with `NotOpen`.
#[unsafe(no_mangle)]
pub extern "C" fn puffin_view_clear(alloc: Global, profiler: &mut PuffinProfiler) -> u32
    ensures { Returns result (Changes without_view (profiler_in profiler.old)
        (profiler_in profiler.new)) }
{
    let answer = clear(alloc, profiler);
    answer_code(answer)
}
