//! Prints the scopes of a file, or of two, by name.

ghost use Rattle.std.specs.Prelude.{◌<◌, ◌^◌, ◌-◌};
ghost use Rattle.puffin_data.specs.Device.Counting.{failed_calls, failed_reads};

use crate::faults::{Cause, LookFault, OUTPUT, fault_of};
use crate::input::{Input, Reader};
use crate::progress::Output;
use puffin_data::FileError;
use puffin_data::data::Counted;
use puffin_look::{
    By, Diff, Options, Overview, Top, Wanted, compare, print_diff, print_top, read_top,
};
use std::alloc::AllocError;

/// Prints the scopes of a file by name.
pub(crate) fn print(
    rt: &HostRuntime,
    overview: &Overview,
    source: &mut Reader<'_>,
    out: &mut Counted<Output<'_>>,
    wanted: &Wanted,
    options: Options,
) -> Result<(), FileError>
    requires source { failed_reads source.old < 2 ^ 64 - 1 }
    requires out { failed_calls out.old < 2 ^ 64 - 1 }
{
    let mut top = read_top(rt.alloc(), overview, source, wanted, options.texts)?;
    top.sort_by(
        options.order.unwrap_or(By::Own),
        options.limit.unwrap_or(usize::MAX),
    )?;
    print_top(rt.alloc(), out, &top, options.form)
}

/// Reads the scopes of a file by name.
fn top_of<'w>(
    rt: &HostRuntime,
    input: &Input<'w>,
    word: Option<&'w str>,
    options: Options,
) -> Result<Top, LookFault<'w>> {
    let overview = input.overview(rt)?;
    let wanted = input.wanted(rt, options.frames, word)?;
    let mut source = input.reader(rt)?;
    match read_top(rt.alloc(), &overview, &mut source, &wanted, options.texts) {
        Ok(top) => Ok(top),
        Err(error) => Err(fault_of(input.path, error, source.last_error(), None)),
    }
}

/// Compares two files. Returns whether a time has grown by more than it may.
fn compared(
    rt: &HostRuntime,
    old: &Top,
    new: &Top,
    options: Options,
) -> Result<(Diff, bool), AllocError> {
    let mut diff = compare(rt.alloc(), old, new)?;
    let is_grown = match options.fail_above {
        Some(percent) => diff.grows_above(percent),
        None => false,
    };
    diff.sort(options.limit.unwrap_or(usize::MAX))?;
    Ok((diff, is_grown))
}

/// Prints the scopes of a file and of the one at a path by name. Fails if a time has grown by more than it may.
pub(crate) fn diff<'w>(
    rt: &HostRuntime,
    input: &Input<'w>,
    new: &'w str,
    word: Option<&'w str>,
    options: Options,
) -> Result<(), LookFault<'w>> {
    let old = top_of(rt, input, word, options)?;
    let newer = top_of(rt, &input.beside(rt, new)?, word, options)?;
    let Ok((diff, is_grown)) = compared(rt, &old, &newer, options) else {
        return Err(LookFault::Memory);
    };
    let mut out = input.output(rt);
    if let Err(error) = print_diff(rt.alloc(), &mut out, &diff, options.form) {
        return Err(fault_of(OUTPUT, error, None, out.last_error()));
    }
    match options.fail_above {
        Some(percent) if is_grown => Err(LookFault::At(new, Cause::Grown(percent))),
        _ => Ok(()),
    }
}
