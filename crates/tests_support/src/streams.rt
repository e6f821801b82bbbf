//! Ids, bytes and streams.

ghost use Rattle.std.specs.Prelude.{◌≡◌, ◌+◌, ◌≤◌, ◌⊎◌, length, flat_map, IfOk, IfErr, OnOk, OnErr, IsOkUnless};
ghost use Rattle.puffin_data.specs.declared.error.Error.{Error};
ghost use Rattle.puffin_data.specs.declared.data.form.Form.{Form};
ghost use Rattle.puffin_data.specs.Forest.Open.{ended_bytes};

use puffin_data::data::{ScopeId, Stream};
use puffin_data::{Error, NanoSecond, Result};
use std::alloc::Global;

/// Makes an id from a number. Fails with `MissingId` for 0.
pub fn id(number: u32) -> Result<ScopeId>
    ensures id { IfOk result (λ id. id ≡ number) }
    ensures none { IfErr result (λ e. (e ≡ Error.MissingId) × (number ≡ 0)) }
{
    ScopeId::new(number).ok_or(Error::MissingId)
}

/// Makes a stream of these bytes, in the short form. Fails only with `Memory`.
pub fn stream_of(alloc: Global, bytes: &[u8]) -> Result<Stream>
    ensures bytes { IfOk result (λ stream. stream.bytes ≡ bytes.now) }
    ensures form { IfOk result (λ stream. stream.form ≡ Form.Short) }
    ensures memory { IsOkUnless result Error.Memory }
{
    Ok(Stream::from(Vec::from_slice(alloc, bytes)?))
}

/// Joins pieces. Fails only with `Memory`.
pub fn bytes_of(alloc: Global, pieces: &[&[u8]]) -> Result<Vec<u8>>
    ensures joined { IfOk result (λ bytes. bytes.items ≡ flat_map (λ piece. piece.now) pieces.now) }
    ensures memory { IsOkUnless result Error.Memory }
{
    Ok(pieces.concat(alloc)?)
}

/// Ends the scope whose size is at `offset`, like [`Stream::end_scope`]. Fails with `ScopeNeverEnded` if there are fewer than
/// eight bytes from `offset` on; nothing changes then.
pub fn end(stream: &mut Stream, offset: usize, stop_ns: NanoSecond) -> Result<()>
    ensures ended { OnOk result (stream.new.bytes ≡ ended_bytes stream.old.bytes offset stop_ns) }
    ensures inside { OnOk result (offset + 8 ≤ length stream.old.bytes) }
    ensures unchanged { OnErr result (stream.new.bytes ≡ stream.old.bytes) }
    ensures form { stream.new.form ≡ stream.old.form }
    ensures cause { IfErr result (λ e.
        ((e ≡ Error.ScopeNeverEnded) × ¬ (offset + 8 ≤ length stream.old.bytes))
        ⊎ (e ≡ Error.Memory)) }
{
    if stream.len() < 8 || offset > stream.len() - 8 {
        return Err(Error::ScopeNeverEnded);
    }
    stream.end_scope(offset, stop_ns)
}
