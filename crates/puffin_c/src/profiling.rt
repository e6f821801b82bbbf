//! Collects what threads report into frames.

ghost use Rattle.std.specs.Prelude.{◌≡◌, None, Some, is_some};
ghost use Rattle.puffin_collector.specs.Collector.State.{after_wanting};
ghost use Rattle.puffin_c.specs.Faults.{Returns};
ghost use Rattle.puffin_c.specs.Handles.{ids_in, profiler_in, thread_in, scopes_on};
ghost use Rattle.puffin_c.specs.Recording.{Closes};
ghost use Rattle.puffin_c.specs.Profiling.{OpensProfiler, Hands, IsTold, TakesFrame, Changes, with_collected};

use crate::fault::{Fault, answer_code};
use crate::frame::PuffinFrame;
use crate::handles::{PuffinIds, PuffinProfiler, PuffinThread};
use crate::profiler::Profiler;
use puffin_data::Error;
use puffin_frames::frame_data::FrameMeta;
use std::alloc::Global;

/// Opens a handle with a new profiler, which shares these ids.
fn open(alloc: Global, profiler: &mut PuffinProfiler, ids: &mut PuffinIds) -> Result<(), Fault>
    ensures opens { OpensProfiler (profiler_in profiler.old) (is_some (ids_in ids.old))
        (profiler_in profiler.new) result }
    ensures same_ids { ids_in ids.new ≡ ids_in ids.old }
{
    if profiler.is_open {
        return Err(Fault::IsOpen);
    }
    let shared = ids.share(alloc)?;
    match Box::new(alloc, Profiler::new(alloc, shared)) {
        Ok(held) => {
            profiler.put(held);
            Ok(())
        }
        Err(_) => Err(Fault::Refused(Error::Memory)),
    }
}

/// Opens a handle with a new profiler, which shares the ids of `ids`. Its view keeps the last 1,000 frames and the 256
/// slowest ones.
///
/// Fails with the first of these that applies: `IsOpen`; `NotOpen` if `ids` isn't open; `Memory`. Nothing changes then.
#[unsafe(no_mangle)]
pub extern "C" fn puffin_profiler_open(
    alloc: Global,
    profiler: &mut PuffinProfiler,
    ids: &mut PuffinIds,
) -> u32
    ensures opens { Returns result (OpensProfiler (profiler_in profiler.old)
        (is_some (ids_in ids.old)) (profiler_in profiler.new)) }
    ensures same_ids { ids_in ids.new ≡ ids_in ids.old }
{
    let answer = open(alloc, profiler, ids);
    answer_code(answer)
}

/// Closes a handle.
fn close(alloc: Global, profiler: &mut PuffinProfiler) -> Result<(), Fault>
    ensures { Closes (profiler_in profiler.old) (profiler_in profiler.new) result }
{
    if !profiler.is_open {
        return Err(Fault::NotOpen);
    }
    drop(profiler.take(alloc));
    Ok(())
}

/// Closes a handle, and frees its profiler, including the view and the scopes that aren't in a frame yet.
///
/// Fails with `NotOpen`.
#[unsafe(no_mangle)]
pub extern "C" fn puffin_profiler_close(alloc: Global, profiler: &mut PuffinProfiler) -> u32
    ensures { Returns result (Closes (profiler_in profiler.old) (profiler_in profiler.new)) }
{
    let answer = close(alloc, profiler);
    answer_code(answer)
}

/// Hands an open thread's closed scopes over to an open profiler.
fn report(
    alloc: Global,
    thread: &mut PuffinThread,
    profiler: &mut PuffinProfiler,
) -> Result<(), Fault>
    ensures hands { Hands (thread_in thread.old) (profiler_in profiler.old) (thread_in thread.new)
        (profiler_in profiler.new) result }
    ensures same_switch { scopes_on thread.new ≡ scopes_on thread.old }
{
    if !thread.is_open || !profiler.is_open {
        return Err(Fault::NotOpen);
    }
    let is_on = thread.is_on;
    let mut recorder = thread.take(alloc);
    let mut whole = profiler.take(alloc);
    let answer = recorder.report(&mut whole.collector);
    thread.put(recorder, is_on);
    profiler.put(whole);
    match answer {
        Ok(_some) => Ok(()),
        Err(cause) => Err(Fault::Refused(cause)),
    }
}

/// Reports a thread's waiting scopes to a profiler: those that ended since the thread's last accepted report. Does nothing if no
/// scope is waiting or open.
///
/// Fails with `NotOpen`; with `ScopesOpen` while a scope is open; with `UnlikeForms`, `TooLarge` or `RangeTooLong` if
/// the profiler refuses the scopes; or with `Memory`, also if more would wait than [`puffin_set_max_pending`] allows. The scopes
/// keep waiting then.
///
/// [`puffin_set_max_pending`]: crate::view::puffin_set_max_pending
#[unsafe(no_mangle)]
pub extern "C" fn puffin_report(
    alloc: Global,
    thread: &mut PuffinThread,
    profiler: &mut PuffinProfiler,
) -> u32
    ensures hands { Returns result (Hands (thread_in thread.old) (profiler_in profiler.old)
        (thread_in thread.new) (profiler_in profiler.new)) }
    ensures same_switch { scopes_on thread.new ≡ scopes_on thread.old }
{
    let answer = report(alloc, thread, profiler);
    answer_code(answer)
}

/// Fills in `frame` from a frame's meta. If there is none, only sets `frame.is_some` to `false`.
fn tell(meta: Option<FrameMeta>, frame: &mut PuffinFrame)
    ensures { IsTold meta frame.old frame.new }
{
    match meta {
        Some(meta) => *frame = PuffinFrame::of(meta),
        None => frame.is_some = false,
    }
}

/// Makes a frame, and describes it.
fn take_frame(
    alloc: Global,
    profiler: &mut PuffinProfiler,
    frame: &mut PuffinFrame,
) -> Result<(), Fault>
    ensures { TakesFrame (profiler_in profiler.old) (profiler_in profiler.new) frame.old frame.new
        result }
{
    if !profiler.is_open {
        return Err(Fault::NotOpen);
    }
    let mut whole = profiler.take(alloc);
    let answer = whole.take_frame();
    profiler.put(whole);
    match answer {
        Ok(meta) => {
            tell(meta, frame);
            Ok(())
        }
        Err(cause) => Err(Fault::Refused(cause)),
    }
}

/// Makes a frame of everything that was reported since the last one, adds it to the view, and fills in `frame`. If no scope was
/// reported, no frame is made, and only `frame.is_some` is set, to `false`.
///
/// Fails with `NotOpen`, `IndexExhausted` or `Memory`; `frame` doesn't change then. Nothing that was reported is lost:
/// if the view has no memory for the frame, the frame waits, and the next call adds it instead of making a new one.
#[unsafe(no_mangle)]
pub extern "C" fn puffin_new_frame(
    alloc: Global,
    profiler: &mut PuffinProfiler,
    frame: &mut PuffinFrame,
) -> u32
    ensures { Returns result (TakesFrame (profiler_in profiler.old) (profiler_in profiler.new)
        frame.old frame.new) }
{
    let answer = take_frame(alloc, profiler, frame);
    answer_code(answer)
}

/// Makes the next frame list every known scope.
fn want_snapshot(alloc: Global, profiler: &mut PuffinProfiler) -> Result<(), Fault>
    ensures { Changes (λ q. with_collected q (after_wanting q.collector))
        (profiler_in profiler.old) (profiler_in profiler.new) result }
{
    if !profiler.is_open {
        return Err(Fault::NotOpen);
    }
    let mut whole = profiler.take(alloc);
    whole.collector.emit_scope_snapshot();
    profiler.put(whole);
    Ok(())
}

/// Makes the next frame list every known scope, not only the new ones.
///
/// Fails with `NotOpen`.
#[unsafe(no_mangle)]
pub extern "C" fn puffin_snapshot(alloc: Global, profiler: &mut PuffinProfiler) -> u32
    ensures { Returns result (Changes (λ q. with_collected q (after_wanting q.collector))
        (profiler_in profiler.old) (profiler_in profiler.new)) }
{
    let answer = want_snapshot(alloc, profiler);
    answer_code(answer)
}
