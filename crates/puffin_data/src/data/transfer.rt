//! Reading to the end and writing all, with any reader and writer.

ghost use Rattle.std.specs.Prelude.{◌≡◌, ◌+◌, ◌<◌, IfOk, IfErr, OnOk, OnErr, ◌⊎◌};
ghost use Rattle.std.specs.Io.KnownBytes.{Consumes, Appends, IsAtEnd};
ghost use Rattle.puffin_data.specs.Device.{CanFail, IsOutside, TookNothing, WritesBeginning, failures_after};

use crate::data::device::{Drain, Source};
use crate::file_error::FileError;
use std::alloc::Global;

/// The number of bytes to read at once. Until bytes arrive, a false length takes no more memory than that.
pub(super) const PIECE_SIZE: usize = 65536;

/// Reads to the end. Fails with `Io` if a read fails, or with `Memory`; how far it read is then unspecified.
pub fn read_to_end<S: Source>(alloc: Global, source: &mut S) -> Result<Vec<u8>, FileError>
    requires { CanFail S.failures source.old }
    ensures all { IfOk result (λ bytes.
        Consumes (S.remaining source.old) (S.remaining source.new) bytes.items
        × IsAtEnd (S.remaining source.new)) }
    ensures outside { IfErr result IsOutside }
    ensures failures { S.failures source.new ≡ failures_after (S.failures source.old) result }
{
    let mut bytes = Vec::new(alloc);
    'pieces: loop {
        let wanted = bytes.len() + PIECE_SIZE;
        source.read_to_len(&mut bytes, wanted)?;
        if bytes.len() < wanted {
            // Fewer bytes than wanted: the reader is at its end.
            return Ok(bytes);
        }
    }
}

/// Writes all of the bytes, in as many writes as the writer needs. Fails only with `Io`, if a write fails or takes none of the
/// bytes that are left; a prefix of the bytes has then been written.
pub fn write_all<D: Drain>(drain: &mut D, bytes: &[u8]) -> Result<(), FileError>
    requires { CanFail D.failures drain.old }
    ensures ok { OnOk result (Appends (D.contents drain.old) (D.contents drain.new) bytes.now) }
    ensures err { OnErr result (
        WritesBeginning (D.contents drain.old) (D.contents drain.new) bytes.now) }
    ensures io { IfErr result (λ cause.
        (cause ≡ FileError.Io)
        × ((D.failures drain.new ≡ D.failures drain.old + 1) ⊎ TookNothing D.takes drain.new)) }
    ensures failures { OnOk result (D.failures drain.new ≡ D.failures drain.old) }
{
    let mut at = 0;
    'pieces: while at < bytes.len() {
        let count = drain.write(&bytes[at..])?;
        if count == 0 {
            return Err(FileError::Io);
        }
        at += count;
    }
    Ok(())
}
