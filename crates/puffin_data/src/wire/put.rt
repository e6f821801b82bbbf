//! Appending values to a vector. Each call fails only with `Memory`, and then appends nothing.

ghost use Rattle.std.specs.Prelude.{◌≡◌, ◌++◌, OnOk, OnErr, IsOkUnless};
ghost use Rattle.puffin_data.specs.Value.Layout.{number, signed, byte, block, zigzag};

use crate::error::{Error, Result};
use crate::wire::{EIGHT_BYTES_MARK, FOUR_BYTES_MARK, TWO_BYTES_MARK};

/// Appends a number of 64 bits in its shortest layout. Fails only with `Memory`, and then appends nothing.
#[tactic(auto, unfolding(crate::specs::Value::Layout::number))]
pub fn put_u64(out: &mut Vec<u8>, value: u64) -> Result<()>
    ensures ok { OnOk result (out.new.items ≡ out.old.items ++ number value) }
    ensures err { OnErr result (out.new.items ≡ out.old.items) }
    ensures memory { IsOkUnless result Error.Memory }
{
    if value < TWO_BYTES_MARK as u64 {
        out.push(value as u8)?;
    } else if value < 65536 {
        let [a, b] = (value as u16).to_le_bytes();
        out.extend_from_slice(&[TWO_BYTES_MARK, a, b])?;
    } else if value < 4294967296 {
        let [a, b, c, d] = (value as u32).to_le_bytes();
        out.extend_from_slice(&[FOUR_BYTES_MARK, a, b, c, d])?;
    } else {
        let [a, b, c, d, e, f, g, h] = value.to_le_bytes();
        out.extend_from_slice(&[EIGHT_BYTES_MARK, a, b, c, d, e, f, g, h])?;
    }
    Ok(())
}

/// Appends a byte. Fails as [`put_u64`] does.
pub fn put_u8(out: &mut Vec<u8>, value: u8) -> Result<()>
    ensures ok { OnOk result (out.new.items ≡ out.old.items ++ byte value) }
    ensures err { OnErr result (out.new.items ≡ out.old.items) }
    ensures memory { IsOkUnless result Error.Memory }
{
    out.push(value)?;
    Ok(())
}

/// Appends a number of 32 bits, in the layout of a number of 64 bits. Fails as [`put_u64`] does.
pub fn put_u32(out: &mut Vec<u8>, value: u32) -> Result<()>
    ensures ok { OnOk result (out.new.items ≡ out.old.items ++ number value) }
    ensures err { OnErr result (out.new.items ≡ out.old.items) }
    ensures memory { IsOkUnless result Error.Memory }
{
    put_u64(out, value as u64)
}

/// Folds a signed number: returns `2 * value` if `value` isn't negative, else `-2 * value - 1`.
fn zigzag_of(value: i64) -> u64
    ensures { result ≡ zigzag value }
{
    if value >= 0 {
        (value as u64) * 2
    } else {
        (-(value + 1)) as u64 * 2 + 1
    }
}

/// Appends a signed number: 0, -1, 1 and -2 are laid out as 0, 1, 2 and 3. Fails as [`put_u64`] does.
pub fn put_i64(out: &mut Vec<u8>, value: i64) -> Result<()>
    ensures ok { OnOk result (out.new.items ≡ out.old.items ++ signed value) }
    ensures err { OnErr result (out.new.items ≡ out.old.items) }
    ensures memory { IsOkUnless result Error.Memory }
{
    put_u64(out, zigzag_of(value))
}

/// Appends the number of bytes, and the bytes. Fails as [`put_u64`] does.
pub fn put_bytes(out: &mut Vec<u8>, bytes: &[u8]) -> Result<()>
    ensures ok { OnOk result (out.new.items ≡ out.old.items ++ block bytes.now) }
    ensures err { OnErr result (out.new.items ≡ out.old.items) }
    ensures memory { IsOkUnless result Error.Memory }
{
    let before = out.len();
    put_u64(out, bytes.len() as u64)?;
    if out.extend_from_slice(bytes).is_err() {
        out.truncate(before);
        return Err(Error::Memory);
    }
    Ok(())
}

/// Appends a text's length in bytes, and the text. Fails as [`put_u64`] does.
pub fn put_text(out: &mut Vec<u8>, text: &str) -> Result<()>
    ensures ok { OnOk result (out.new.items ≡ out.old.items ++ block text.now) }
    ensures err { OnErr result (out.new.items ≡ out.old.items) }
    ensures memory { IsOkUnless result Error.Memory }
{
    put_bytes(out, text.as_bytes())
}
