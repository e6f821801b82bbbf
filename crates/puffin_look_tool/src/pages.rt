//! Writes the page of a file.

ghost use Rattle.std.specs.Prelude.{◌<◌, ◌^◌, ◌-◌};
ghost use Rattle.puffin_data.specs.Device.Counting.{failed_calls, failed_reads};

use crate::faults::{Cause, LookFault, fault_of};
use crate::input::{Input, Reader};
use crate::page::{END, HEAD};
use puffin_data::FileError;
use puffin_data::data::{Counted, write_all};
use puffin_look::{Indices, Overview, PageFrames, PageLimits, choose_frames, print_page_data};
use std::fs::File;
use std::io::Read;
use std::{fs, io};

/// Which frames a page has by default: those that a view keeps, as far as their streams fit.
const LIMITS: PageLimits = PageLimits {
    recent: 1000,
    slow: 256,
    bytes: 16_777_216,
};

/// With what a file of frames begins.
const LETTERS: &[u8] = b"PUF0";

/// Returns whether there is a file of frames at a path. To read from a pipe or a device may wait for ever.
fn has_frames(rt: &HostRuntime, path: &str) -> bool {
    if !fs::metadata(rt, path).is_ok_and(|it| it.is_file()) {
        return false;
    }
    let Ok(mut file) = File::open(rt, path) else {
        return false;
    };
    let mut letters = [0; 4];
    file.read_exact(&mut letters).is_ok() && letters.as_slice() == LETTERS
}

/// Makes the file of a page. A file of frames isn't replaced.
fn create<'w>(rt: &HostRuntime, page: &'w str) -> Result<File, LookFault<'w>> {
    if has_frames(rt, page) {
        return Err(LookFault::At(page, Cause::HasFrames));
    }
    match File::create(rt, page) {
        Ok(file) => Ok(file),
        Err(error) => Err(LookFault::At(page, Cause::System(error))),
    }
}

/// Returns which frames the page has. The file is then read again.
fn frames_of<'w>(
    rt: &HostRuntime,
    input: &Input<'w>,
    indices: Option<Indices>,
) -> Result<PageFrames, LookFault<'w>> {
    if let Some(indices) = indices {
        return Ok(PageFrames::Within(indices));
    }
    let mut source = input.skimmed(rt)?;
    let indices = match choose_frames(rt.alloc(), &mut source, LIMITS) {
        Ok(indices) => indices,
        Err(error) => return Err(fault_of(input.path, error, source.last_error(), None)),
    };
    input.rewind()?;
    Ok(PageFrames::These(indices))
}

/// Writes the beginning of a page, and its data.
fn write_page(
    rt: &HostRuntime,
    overview: &Overview,
    source: &mut Reader<'_>,
    out: &mut Counted<File>,
    frames: &PageFrames,
) -> Result<(), FileError>
    requires source { failed_reads source.old < 2 ^ 64 - 1 }
    requires out { failed_calls out.old < 2 ^ 64 - 1 }
{
    write_all(out, HEAD.as_bytes())?;
    print_page_data(rt.alloc(), overview, source, out, frames)
}

/// Returns the fault of a call that read the file and wrote the page.
fn page_fault<'w>(
    path: &'w str,
    page: &'w str,
    error: FileError,
    read: Option<io::Error>,
    written: Option<io::Error>,
) -> LookFault<'w> {
    match (error, read, written) {
        (FileError::Io, None, Some(error)) => LookFault::At(page, Cause::System(error)),
        (FileError::Io, None, None) => LookFault::At(page, Cause::File(error)),
        _ => fault_of(path, error, read, None),
    }
}

/// Writes the frames of a file as a page: those with these indices, or those that a page has by default.
pub(crate) fn view<'w>(
    rt: &HostRuntime,
    input: &Input<'w>,
    page: &'w str,
    indices: Option<Indices>,
) -> Result<(), LookFault<'w>> {
    let path = input.path;
    let overview = input.overview(rt)?;
    let frames = frames_of(rt, input, indices)?;
    let mut source = input.reader(rt)?;
    let mut out = Counted::new(create(rt, page)?);
    let answer = write_page(rt, &overview, &mut source, &mut out, &frames);
    if let Err(error @ (FileError::Io | FileError::Memory)) = answer {
        return Err(page_fault(path, page, error, source.last_error(), out.last_error()));
    }
    // (behind a fault of the file, the page ends as another does)
    let mut out = Counted::new(out.into_inner());
    if let Err(error) = write_all(&mut out, END.as_bytes()) {
        return Err(page_fault(path, page, error, None, out.last_error()));
    }
    match answer {
        Ok(()) => Ok(()),
        Err(error) => Err(fault_of(path, error, None, None)),
    }
}
