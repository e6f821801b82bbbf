//! Reading parts of a given length from any reader.

ghost use Rattle.std.specs.Prelude.{◌≡◌, ◌-◌, ◌+◌, ◌^◌, ◌<◌, ◌≤◌, ◌⊎◌, IfOk, IfErr, length, take, drop, IsOkUnless};
ghost use Rattle.std.specs.Io.KnownBytes.{Consumes, IsAtEnd};
ghost use Rattle.puffin_data.specs.Device.{CanFail, FromDevice, TookUpTo, failures_after};
ghost use Rattle.puffin_data.specs.Part.{part_of, first_at, part_length_at, counted_part_at};

use crate::data::device::Source;
use crate::data::transfer::PIECE_SIZE;
use crate::file_error::FileError;
use byteorder::{ByteOrder, LittleEndian};
use std::alloc::Global;

/// Reads once into `buf`, after its first `at` bytes, which stay, and returns the number of bytes read. Fails only with `Io`.
fn read_behind<S: Source>(source: &mut S, buf: &mut [u8], at: usize) -> Result<usize, FileError>
    requires failures { CanFail S.failures source.old }
    requires at { at < length buf.old }
    ensures front { take at buf.new ≡ take at buf.old }
    ensures fits { IfOk result (λ count. at + count ≤ length buf.new) }
    ensures took { IfOk result (λ count.
        Consumes (S.remaining source.old) (S.remaining source.new) (take count (drop at buf.new))) }
    ensures end { IfOk result (λ count. count ≡ 0 → IsAtEnd (S.remaining source.new)) }
    ensures io { IsOkUnless result FileError.Io }
    ensures failures { S.failures source.new ≡ failures_after (S.failures source.old) result }
{
    Ok(source.read(&mut buf[at..])?)
}

/// Reads until `buf` is full or the reader ends, and returns the number of bytes read. Fails with `Io` if a read fails; how far
/// it read is then unspecified.
pub fn read_up_to<S: Source>(source: &mut S, buf: &mut [u8]) -> Result<usize, FileError>
    requires { CanFail S.failures source.old }
    ensures size { length buf.new ≡ length buf.old }
    ensures took { IfOk result (λ count.
        (count ≤ length buf.old)
        × TookUpTo (S.remaining source.old) (S.remaining source.new) (length buf.old)
        (take count buf.new)) }
    ensures io { IsOkUnless result FileError.Io }
    ensures failures { S.failures source.new ≡ failures_after (S.failures source.old) result }
{
    let mut end = 0;
    'reads: while end < buf.len() {
        let count = read_behind(source, buf, end)?;
        if count == 0 {
            return Ok(end);
        }
        end += count;
    }
    Ok(end)
}

/// Reads one byte. Fails with `Truncated` at the reader's end, and with `Io` if a read fails.
pub fn read_byte<S: Source>(source: &mut S) -> Result<u8, FileError>
    requires { CanFail S.failures source.old }
    ensures part { FromDevice (λ byte. byte) (S.remaining source.old) (S.remaining source.new)
        result first_at }
    ensures causes { IfErr result (λ cause.
        (cause ≡ FileError.Io) ⊎ (cause ≡ FileError.Truncated)) }
    ensures failures { S.failures source.new ≡ failures_after (S.failures source.old) result }
{
    let mut byte = [0];
    if read_up_to(source, &mut byte)? < 1 {
        return Err(FileError::Truncated);
    }
    Ok(byte[0])
}

/// Reads a length: four bytes, the lowest first. Fails with `Truncated` if the reader ends too early, and with `Io` if a read
/// fails.
pub fn read_length<S: Source>(source: &mut S) -> Result<usize, FileError>
    requires { CanFail S.failures source.old }
    ensures part { FromDevice (λ len. len) (S.remaining source.old) (S.remaining source.new)
        result part_length_at }
    ensures bound { IfOk result (λ len. len < 2 ^ 32) }
    ensures causes { IfErr result (λ cause.
        (cause ≡ FileError.Io) ⊎ (cause ≡ FileError.Truncated)) }
    ensures failures { S.failures source.new ≡ failures_after (S.failures source.old) result }
{
    let mut four = [0; 4];
    if read_up_to(source, &mut four)? < 4 {
        return Err(FileError::Truncated);
    }
    Ok(LittleEndian::read_u32(&four) as usize)
}

/// Reads exactly `len` bytes. Allocates as the bytes arrive, so a `len` that is far too large takes little memory.
///
/// Fails with `Io` if a read fails, with `Truncated` if the reader ends too early, or with `Memory`.
pub fn read_part<S: Source>(alloc: Global, source: &mut S, len: usize) -> Result<Vec<u8>, FileError>
    requires { CanFail S.failures source.old }
    ensures part { FromDevice (λ bytes. bytes.items) (S.remaining source.old)
        (S.remaining source.new) result (part_of len) }
    ensures len { IfOk result (λ bytes. length bytes.items ≡ len) }
    ensures failures { S.failures source.new ≡ failures_after (S.failures source.old) result }
{
    let mut bytes = Vec::new(alloc);
    'pieces: while bytes.len() < len {
        let wanted = bytes.len() + (len - bytes.len()).min(PIECE_SIZE);
        source.read_to_len(&mut bytes, wanted)?;
        if bytes.len() < wanted {
            return Err(FileError::Truncated);
        }
    }
    Ok(bytes)
}

/// Reads a length as [`read_length`] does, and then that many bytes. Fails as [`read_part`] does.
pub fn read_counted_part<S: Source>(alloc: Global, source: &mut S) -> Result<Vec<u8>, FileError>
    requires { CanFail S.failures source.old }
    ensures part { FromDevice (λ bytes. bytes.items) (S.remaining source.old)
        (S.remaining source.new) result counted_part_at }
    ensures failures { S.failures source.new ≡ failures_after (S.failures source.old) result }
{
    let len = read_length(source)?;
    read_part(alloc, source, len)
}
