//! The file of a profiler's view, and the packet of its newest frame, read in pieces.

ghost use Rattle.puffin_c.specs.declared.unread.Piece.TheVariants as piece;
ghost use Rattle.puffin_c.specs.Faults.{Returns};
ghost use Rattle.puffin_c.specs.Handles.{profiler_in};
ghost use Rattle.puffin_c.specs.Profiling.{Makes, Reads};

use crate::fault::{Fault, answer_code};
use crate::handles::PuffinProfiler;
use crate::unread::Piece;
use std::alloc::Global;

/// Makes a piece of an open profiler anew, and tells its size.
fn begin(
    alloc: Global,
    profiler: &mut PuffinProfiler,
    piece: Piece,
    size: &mut u64,
) -> Result<(), Fault>
    ensures { Makes piece (profiler_in profiler.old) (profiler_in profiler.new) size.old size.new
        result }
{
    if !profiler.is_open {
        return Err(Fault::NotOpen);
    }
    let mut whole = profiler.take(alloc);
    let answer = whole.begin(alloc, piece);
    profiler.put(whole);
    match answer {
        Ok(number) => {
            *size = number as u64;
            Ok(())
        }
        Err(fault) => Err(Fault::from(fault)),
    }
}

/// Copies the next bytes of a piece, as many as fit, and tells how many these are.
fn read(
    alloc: Global,
    profiler: &mut PuffinProfiler,
    piece: Piece,
    out: &mut [u8],
    size: &mut u64,
) -> Result<(), Fault>
    ensures { Reads piece (profiler_in profiler.old) (profiler_in profiler.new) out.old out.new
        size.old size.new result }
{
    if !profiler.is_open {
        return Err(Fault::NotOpen);
    }
    let mut whole = profiler.take(alloc);
    *size = whole.unread.read(piece, out) as u64;
    profiler.put(whole);
    Ok(())
}

/// Makes a `.puffin` file in memory from the view's frames, and sets `size` to its size in bytes. [`puffin_file_next`] reads it
/// from its beginning. A file that was made before is dropped.
///
/// Fails with `NotOpen`; with `PartTooLong` if a part of a packet has `2^32` bytes or more; or with `Memory`. Nothing
/// changes then.
#[unsafe(no_mangle)]
pub extern "C" fn puffin_file_begin(
    alloc: Global,
    profiler: &mut PuffinProfiler,
    size: &mut u64,
) -> u32
    ensures { Returns result (Makes piece.File (profiler_in profiler.old) (profiler_in profiler.new)
        size.old size.new) }
{
    let answer = begin(alloc, profiler, Piece::File, size);
    answer_code(answer)
}

/// Copies the next bytes of [`puffin_file_begin`]'s file to the front of `out`, as many as fit, and sets `size` to how many
/// were copied. `size` is 0 at the file's end, or if no file was made.
///
/// Fails with `NotOpen`; `out` and `size` don't change then. Allocates nothing.
#[unsafe(no_mangle)]
pub extern "C" fn puffin_file_next(
    alloc: Global,
    profiler: &mut PuffinProfiler,
    out: &mut [u8],
    size: &mut u64,
) -> u32
    ensures { Returns result (Reads piece.File (profiler_in profiler.old) (profiler_in profiler.new)
        out.old out.new size.old size.new) }
{
    let answer = read(alloc, profiler, Piece::File, out, size);
    answer_code(answer)
}

/// Makes the packet of the view's newest frame in memory, and sets `size` to its size in bytes, or to 0 if the view has no recent
/// frame. [`puffin_frame_next`] reads it from its beginning. A packet that was made before is dropped. A file consists of the
/// four letters `PUF0` and of packets.
///
/// Fails with `NotOpen`; with `PartTooLong` if a part of the packet has `2^32` bytes or more; or with `Memory`. Nothing changes
/// then.
#[unsafe(no_mangle)]
pub extern "C" fn puffin_frame_begin(
    alloc: Global,
    profiler: &mut PuffinProfiler,
    size: &mut u64,
) -> u32
    ensures { Returns result (Makes piece.Packet (profiler_in profiler.old)
        (profiler_in profiler.new) size.old size.new) }
{
    let answer = begin(alloc, profiler, Piece::Packet, size);
    answer_code(answer)
}

/// Copies the next bytes of [`puffin_frame_begin`]'s packet to the front of `out`, as many as fit, and sets `size` to how many
/// were copied. `size` is 0 at the packet's end, or if no packet was made.
///
/// Fails with `NotOpen`; `out` and `size` don't change then. Allocates nothing.
#[unsafe(no_mangle)]
pub extern "C" fn puffin_frame_next(
    alloc: Global,
    profiler: &mut PuffinProfiler,
    out: &mut [u8],
    size: &mut u64,
) -> u32
    ensures { Returns result (Reads piece.Packet (profiler_in profiler.old)
        (profiler_in profiler.new) out.old out.new size.old size.new) }
{
    let answer = read(alloc, profiler, Piece::Packet, out, size);
    answer_code(answer)
}
