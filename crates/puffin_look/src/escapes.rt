//! Appends names and texts with their control characters escaped, so that they forge no lines and reach no terminal.

ghost use Rattle.std.specs.Prelude.{◌≡◌, ◌++◌, ◌<◌, OnOk};
ghost use Rattle.puffin_look.specs.Escapes.{hex_digit, escape, escaped_byte, escaped};

use std::alloc::AllocError;

/// Returns a digit of a number in hexadecimal digits.
fn hex_digit(value: u8) -> u8
    requires { value < 16 }
    ensures { result ≡ hex_digit value }
{
    if value < 10 { 48 + value } else { 87 + value }
}

/// Appends the escape of a byte.
#[cold]
fn push_escape(text: &mut Vec<u8>, byte: u8) -> Result<(), AllocError>
    ensures { OnOk result (text.new.items ≡ text.old.items ++ escape byte) }
{
    let digits = [b'\\', b'x', hex_digit(byte / 16), hex_digit(byte % 16)];
    text.extend_from_slice(&digits)
}

/// Appends a byte, or its escape if it is a control character.
fn push_byte(text: &mut Vec<u8>, byte: u8) -> Result<(), AllocError>
    ensures { OnOk result (text.new.items ≡ text.old.items ++ escaped_byte byte) }
{
    if byte < 32 || byte == 127 {
        push_escape(text, byte)
    } else {
        Ok(text.push(byte)?)
    }
}

/// Appends a name or a text, with an escape for each control character.
pub(crate) fn push_escaped(text: &mut Vec<u8>, bytes: &[u8]) -> Result<(), AllocError>
    ensures { OnOk result (text.new.items ≡ text.old.items ++ escaped bytes.now) }
{
    for &byte in bytes {
        push_byte(text, byte)?;
    }
    Ok(())
}
