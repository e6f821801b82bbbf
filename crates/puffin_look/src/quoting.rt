//! Appends JSON to a text: strings, and times in microseconds.

ghost use Rattle.std.specs.Prelude.{◌≡◌, ◌++◌, codes, OnOk};
ghost use Rattle.std.specs.List.{list_all};
ghost use Rattle.json.specs.Print.{quoted};
ghost use Rattle.puffin_look.specs.inner.Events.{is_plain};
ghost use Rattle.puffin_look.specs.Trace.{thousandths, since};

use crate::text::push_number;
use json::Writer;
use puffin_data::NanoSecond;
use std::alloc::AllocError;

/// Returns whether none of these bytes needs an escape.
fn is_plain(bytes: &[u8]) -> bool
    ensures { result ≡ list_all is_plain bytes.now }
{
    bytes
        .iter()
        .all(|&byte| byte >= 32 && (byte != b'"' && byte != b'\\'))
}

/// Appends a string in quotes, with escapes.
#[cold]
fn push_escaped(text: &mut Vec<u8>, string: &str) -> Result<(), AllocError>
    ensures { OnOk result (text.new.items ≡ text.old.items ++ quoted string.now) }
{
    let mut writer = Writer::new(Vec::new(*text.allocator()));
    writer.string(string)?;
    text.extend_from_slice(&writer.into_inner())
}

/// Appends a plain string in quotes.
fn push_plain(text: &mut Vec<u8>, string: &str) -> Result<(), AllocError>
    ensures { OnOk result (
        text.new.items ≡ text.old.items ++ (codes "\"" ++ (string.now ++ codes "\""))) }
{
    text.extend_from_slice(b"\"")?;
    text.extend_from_slice(string.as_bytes())?;
    text.extend_from_slice(b"\"")
}

/// Appends a string in quotes, with escapes where JSON asks for them.
pub(crate) fn push_quoted(text: &mut Vec<u8>, string: &str) -> Result<(), AllocError>
    ensures { OnOk result (text.new.items ≡ text.old.items ++ quoted string.now) }
{
    // A writer of JSON is slower, and most strings are plain.
    if is_plain(string.as_bytes()) {
        push_plain(text, string)
    } else {
        push_escaped(text, string)
    }
}

/// Appends a label and then a string in quotes.
pub(crate) fn push_member(text: &mut Vec<u8>, label: &[u8], string: &str) -> Result<(), AllocError>
    ensures { OnOk result (
        text.new.items ≡ text.old.items ++ (label.now ++ quoted string.now)) }
{
    text.extend_from_slice(label)?;
    push_quoted(text, string)
}

/// Appends a number of thousandths, with three digits behind the point.
fn push_thousandths(text: &mut Vec<u8>, number: u64) -> Result<(), AllocError>
    ensures { OnOk result (text.new.items ≡ text.old.items ++ thousandths number) }
{
    push_number(text, number / 1000)?;
    let digits = [
        b'.',
        48 + (number / 100 % 10) as u8,
        48 + (number / 10 % 10) as u8,
        48 + (number % 10) as u8,
    ];
    text.extend_from_slice(&digits)
}

/// Returns how long a moment is after the origin, or 0 if it is before it.
pub(crate) fn since(origin: NanoSecond, time: NanoSecond) -> u64
    ensures { result ≡ since origin time }
{
    if time < origin {
        0
    } else {
        time.abs_diff(origin)
    }
}

/// Appends a label and then a time in nanoseconds, as microseconds.
pub(crate) fn push_micros(text: &mut Vec<u8>, label: &[u8], time: u64) -> Result<(), AllocError>
    ensures { OnOk result (text.new.items ≡ text.old.items ++ (label.now ++ thousandths time)) }
{
    text.extend_from_slice(label)?;
    push_thousandths(text, time)
}
