//! Texts that programs pass as bytes.

ghost use Rattle.std.specs.Prelude.{◌≡◌, OnOk, IfOk, IfErr, IsOkUnless, string_bytes};
ghost use Rattle.std.specs.Str.{IsUtf8};
ghost use Rattle.puffin_data.specs.declared.error.Error.TheVariants as error;
ghost use Rattle.puffin_c.specs.declared.fault.Fault.TheVariants as fault;

use crate::fault::Fault;
use puffin_data::Error;
use std::alloc::Global;

/// Returns these bytes as a text. Fails only with `NotText`. ASCII, which most texts are, is tested eight bytes at a
/// time.
#[inline(always)]
pub(crate) fn text(bytes: &[u8]) -> Result<&str, Fault>
    ensures ok { IfOk result (λ s. s.now ≡ bytes.now) }
    ensures text { OnOk result (IsUtf8 bytes.now) }
    ensures err { IfErr result (λ f. (f ≡ fault.NotText) × ¬ (IsUtf8 bytes.now)) }
{
    if bytes.is_ascii() {
        return Ok(unsafe { str::from_utf8_unchecked(bytes) });
    }
    other_text(bytes)
}

/// Returns bytes that aren't ASCII as a text. Fails only with `NotText`.
#[cold]
#[inline(never)]
fn other_text(bytes: &[u8]) -> Result<&str, Fault>
    ensures ok { IfOk result (λ s. s.now ≡ bytes.now) }
    ensures text { OnOk result (IsUtf8 bytes.now) }
    ensures err { IfErr result (λ f. (f ≡ fault.NotText) × ¬ (IsUtf8 bytes.now)) }
{
    match str::from_utf8(bytes) {
        Ok(text) => Ok(text),
        Err(_) => Err(Fault::NotText),
    }
}

/// Copies a text. Fails only with `Memory`.
pub(crate) fn new_string(alloc: Global, text: &str) -> Result<String, Fault>
    ensures ok { IfOk result (λ copy. string_bytes copy ≡ text.now) }
    ensures err { IsOkUnless result (fault.Refused error.Memory) }
{
    match String::from_str(alloc, text) {
        Ok(copy) => Ok(copy),
        Err(_) => Err(Fault::Refused(Error::Memory)),
    }
}
