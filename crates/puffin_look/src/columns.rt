//! Appends the parts of the line of a scope in a frame's tree.

ghost use Rattle.std.specs.Prelude.{◌≡◌, ◌++◌, ◌<◌, ◌^◌, ◌-ℤ◌, OnOk};
ghost use Rattle.std.specs.Fmt.{signed_decimal};
ghost use Rattle.puffin_look.specs.FrameTree.{indent, text_part};
ghost use Rattle.puffin_look.specs.Cells.{share_text};

use crate::escapes::push_escaped;
use crate::text::push_number;
use itoa::Buffer;
use puffin_data::NanoSecond;
use std::alloc::AllocError;

/// Appends two blanks for each level.
pub(crate) fn push_indent(text: &mut Vec<u8>, level: usize) -> Result<(), AllocError>
    ensures text { OnOk result (text.new.items ≡ text.old.items ++ indent level) }
    // This many blanks fit into memory, so the next level fits `usize`.
    ensures level { OnOk result (level < 2 ^ 63) }
{
    for _ in 0..level {
        text.extend_from_slice(b"  ")?;
    }
    Ok(())
}

/// Appends a text in parentheses, with escapes for control characters, unless it is empty.
pub(crate) fn push_text(text: &mut Vec<u8>, part: &str) -> Result<(), AllocError>
    ensures { OnOk result (text.new.items ≡ text.old.items ++ text_part part.now) }
{
    if part.is_empty() {
        return Ok(());
    }
    text.extend_from_slice(b" (")?;
    push_escaped(text, part.as_bytes())?;
    text.extend_from_slice(b")")
}

/// Appends a share in percent, with a digit behind the point.
pub(crate) fn push_share(text: &mut Vec<u8>, part: u64, whole: u64) -> Result<(), AllocError>
    ensures { OnOk result (text.new.items ≡ text.old.items ++ share_text part whole) }
{
    if whole == 0 {
        return text.extend_from_slice(b"-");
    }
    let share = part as u128 * 1000 / whole as u128;
    text.extend_from_slice(Buffer::new().format(share / 10).as_bytes())?;
    text.extend_from_slice(&[b'.', 48 + (share % 10) as u8, b'%'])
}

/// Appends the time from one moment to another in decimal digits, with a minus if it is negative.
pub(crate) fn push_difference(
    text: &mut Vec<u8>,
    from: NanoSecond,
    to: NanoSecond,
) -> Result<(), AllocError>
    ensures { OnOk result (text.new.items ≡ text.old.items ++ signed_decimal (to -ℤ from)) }
{
    if to < from {
        text.extend_from_slice(b"-")?;
    }
    push_number(text, to.abs_diff(from))
}
