//! Counts the frames of a file.

ghost use Rattle.puffin_c.specs.Faults.{Returns};
ghost use Rattle.puffin_c.specs.Reporting.{IsChecked};

use crate::fault::{Fault, answer_code};
use crate::memory_source::MemorySource;
use puffin_data::FileError;
use puffin_view::profile_view::{next_frame, read_magic};
use std::alloc::Global;

/// Reads a file frame by frame, counts the frames, and sets `offset` to where the last of them ends, and `read` to how far the file
/// was read.
fn check(
    alloc: Global,
    file: &[u8],
    frames: &mut u64,
    offset: &mut u64,
    read: &mut u64,
) -> Result<(), Fault>
    ensures { IsChecked file.now frames.new offset.new read.new result }
{
    *frames = 0;
    *offset = 0;
    let mut source = MemorySource::new(file);
    let begun = read_magic(&mut source);
    *read = source.offset_in(file);
    begun?;
    *offset = *read;
    'frames: for _ in 0..u64::MAX {
        let next = next_frame(alloc, &mut source);
        *read = source.offset_in(file);
        let Some(_frame) = next? else {
            return Ok(());
        };
        *frames += 1;
        *offset = *read;
    }
    // Not reached: a file has fewer frames than bytes.
    Err(Fault::from(FileError::Truncated))
}

/// Reads a file of any origin frame by frame. Sets `frames` to the number of its frames, `offset` to the offset at which the last of
/// them ends, and `read` to how many bytes of the file were read.
///
/// Fails with the first fault in the file, or with `Memory`. `frames` is then the number of frames that were read before the
/// fault, or before memory ran out. The fault is in the next frame, which begins at `offset`; it is at the file's beginning if
/// `offset` is 0. It is in the bytes before `read`, in the last part of the frame that was read, whatever follows them.
#[tactic(auto, using(crate::proofs::Causes::check_named))]
#[unsafe(no_mangle)]
pub extern "C" fn puffin_check_file(
    alloc: Global,
    file: &[u8],
    frames: &mut u64,
    offset: &mut u64,
    read: &mut u64,
) -> u32
    ensures { Returns result (IsChecked file.now frames.new offset.new read.new) }
{
    let answer = check(alloc, file, frames, offset, read);
    answer_code(answer)
}
