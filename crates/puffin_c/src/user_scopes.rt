//! Scopes that the program itself makes, under the name of any thread.

ghost use Rattle.std.specs.Prelude.{◌≡◌, ◌⊎◌, IfOk, IfErr};
ghost use Rattle.puffin_data.specs.declared.error.Error.TheVariants as error;
ghost use Rattle.puffin_data.specs.Honesty.{IsHonestReport};
ghost use Rattle.puffin_data.specs.Walk.{IsFault};
ghost use Rattle.puffin_c.specs.Faults.{Returns};
ghost use Rattle.puffin_c.specs.Handles.{profiler_in};
ghost use Rattle.puffin_c.specs.Counting.{form_given};
ghost use Rattle.puffin_c.specs.Reporting.{key_given};
ghost use Rattle.puffin_c.specs.Profiling.{TakesOwn};

use crate::fault::{Fault, answer_code};
use crate::handles::PuffinProfiler;
use crate::stream::form_of;
use crate::thread_name::PuffinThreadName;
use puffin_data::data::{Form, StreamInfoRef, walk_forest};
use std::alloc::Global;

/// Counts the scopes of a stream of any origin. Fails with the first fault in the bytes, or with `Memory`.
fn count_scopes(alloc: Global, form: Form, bytes: &[u8]) -> puffin_data::Result<StreamInfoRef<'_>>
    ensures form { IfOk result (λ times. times.form ≡ form) }
    ensures bytes { IfOk result (λ times. times.stream.now ≡ bytes.now) }
    ensures honest { IfOk result (λ times. IsHonestReport times) }
    ensures fault { IfErr result (λ e. (e ≡ error.Memory) ⊎ IsFault form bytes.now e) }
{
    let mut tries = 0;
    let walk = walk_forest(alloc, form, bytes, &mut tries)?;
    Ok(StreamInfoRef {
        form,
        stream: bytes,
        num_scopes: walk.num_scopes,
        depth: walk.depth,
        range_ns: walk.range_ns,
    })
}

/// Hands the scopes of a stream over to an open profiler.
fn take(
    alloc: Global,
    profiler: &mut PuffinProfiler,
    thread: &PuffinThreadName<'_>,
    bytes: &[u8],
    form: Form,
) -> Result<(), Fault>
    ensures { TakesOwn (profiler_in profiler.old) (key_given thread.now) form bytes.now
        (profiler_in profiler.new) result }
{
    if !profiler.is_open {
        return Err(Fault::NotOpen);
    }
    let info = thread.info(alloc)?;
    let times = count_scopes(alloc, form, bytes)?;
    let mut whole = profiler.take(alloc);
    let answer = whole.collector.report_user_scopes(info, &times);
    profiler.put(whole);
    match answer {
        Ok(()) => Ok(()),
        Err(cause) => Err(Fault::Refused(cause)),
    }
}

/// Appends the scopes of a stream of any origin to those that wait for the next frame, under a thread that needn't exist. See
/// [`puffin_count`] for `bytes` and `long_texts`.
///
/// Fails with the first of these that applies: `NotOpen`; `NotText` if the name isn't UTF-8; the first fault in the bytes;
/// `UnlikeForms`, `TooLarge` or `RangeTooLong`, like [`puffin_report`]. Can also fail with `Memory`, but not in place of
/// `NotOpen` or `NotText`. Nothing changes in either case.
///
/// [`puffin_count`]: crate::stream::puffin_count
/// [`puffin_report`]: crate::profiling::puffin_report
#[tactic(auto, using(crate::proofs::Causes::own_named))]
#[unsafe(no_mangle)]
pub extern "C" fn puffin_user_scopes(
    alloc: Global,
    profiler: &mut PuffinProfiler,
    thread: &PuffinThreadName<'_>,
    bytes: &[u8],
    long_texts: bool,
) -> u32
    ensures { Returns result (TakesOwn (profiler_in profiler.old) (key_given thread.now)
        (form_given long_texts) bytes.now (profiler_in profiler.new)) }
{
    let answer = take(alloc, profiler, thread, bytes, form_of(long_texts));
    answer_code(answer)
}
