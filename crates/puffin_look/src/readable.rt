//! Appends numbers for a person: with commas between thousands, and durations with a unit.

ghost use Rattle.std.specs.Prelude.{◌≡◌, ◌++◌, ◌-ℤ◌, OnOk};
ghost use Rattle.std.specs.Fmt.{decimal};
ghost use Rattle.puffin_look.specs.Cells.{comma, grouped, grouped_moment, in_hundredths, readable_time, readable_offset, sign, change_text, growth_text};

use crate::columns::push_share;
use crate::text::push_number;
use itoa::Buffer;
use puffin_data::NanoSecond;
use std::alloc::AllocError;

/// Appends a comma, if a positive multiple of three digits is left.
fn push_comma(text: &mut Vec<u8>, left: usize) -> Result<(), AllocError>
    ensures { OnOk result (text.new.items ≡ text.old.items ++ comma left) }
{
    if left > 0 && left % 3 == 0 {
        text.push(b',')?;
    }
    Ok(())
}

/// Appends digits, with a comma between groups of three.
fn push_digits(text: &mut Vec<u8>, digits: &[u8]) -> Result<(), AllocError>
    ensures { OnOk result (text.new.items ≡ text.old.items ++ grouped digits.now) }
{
    for (place, &digit) in digits.iter().enumerate() {
        text.push(digit)?;
        push_comma(text, digits.len() - place - 1)?;
    }
    Ok(())
}

/// Appends a number, with a comma between groups of three digits.
pub(crate) fn push_grouped(text: &mut Vec<u8>, number: u64) -> Result<(), AllocError>
    ensures { OnOk result (text.new.items ≡ text.old.items ++ grouped (decimal number)) }
{
    push_digits(text, Buffer::new().format(number).as_bytes())
}

/// Appends a moment in nanoseconds, with a comma between groups of three digits, and a minus if it is negative.
pub(crate) fn push_grouped_moment(text: &mut Vec<u8>, time: NanoSecond) -> Result<(), AllocError>
    ensures { OnOk result (text.new.items ≡ text.old.items ++ grouped_moment time) }
{
    if time < 0 {
        text.push(b'-')?;
    }
    push_grouped(text, time.unsigned_abs())
}

/// Appends hundredths of a unit, with two digits behind the point.
pub(crate) fn push_hundredths(
    text: &mut Vec<u8>,
    number: u64,
    unit: &[u8],
) -> Result<(), AllocError>
    ensures { OnOk result (text.new.items ≡ text.old.items ++ in_hundredths number unit.now) }
{
    push_grouped(text, number / 100)?;
    text.extend_from_slice(&[
        b'.',
        48 + (number / 10 % 10) as u8,
        48 + (number % 10) as u8,
    ])?;
    text.extend_from_slice(unit)
}

/// Appends a duration in the greatest unit of which there is one, rounded down.
pub(crate) fn push_readable(text: &mut Vec<u8>, time: u64) -> Result<(), AllocError>
    ensures { OnOk result (text.new.items ≡ text.old.items ++ readable_time time) }
{
    match time {
        0..1_000 => {
            push_number(text, time)?;
            text.extend_from_slice(b" ns")
        }
        1_000..1_000_000 => push_hundredths(text, time / 10, b" us"),
        1_000_000..1_000_000_000 => push_hundredths(text, time / 10_000, b" ms"),
        _ => push_hundredths(text, time / 10_000_000, b" s"),
    }
}

/// Appends the time from one moment to another in that way, with a minus if it is negative.
pub(crate) fn push_offset(
    text: &mut Vec<u8>,
    from: NanoSecond,
    to: NanoSecond,
) -> Result<(), AllocError>
    ensures { OnOk result (text.new.items ≡ text.old.items ++ readable_offset (to -ℤ from)) }
{
    if to < from {
        text.push(b'-')?;
    }
    push_readable(text, to.abs_diff(from))
}

/// Appends a plus or a minus, if the second is greater or less.
fn push_sign(text: &mut Vec<u8>, old: u64, new: u64) -> Result<(), AllocError>
    ensures { OnOk result (text.new.items ≡ text.old.items ++ sign old new) }
{
    if new < old {
        text.push(b'-')?;
    }
    if old < new {
        text.push(b'+')?;
    }
    Ok(())
}

/// Appends the change from one duration to another.
pub(crate) fn push_change(text: &mut Vec<u8>, old: u64, new: u64) -> Result<(), AllocError>
    ensures { OnOk result (text.new.items ≡ text.old.items ++ change_text old new) }
{
    push_sign(text, old, new)?;
    push_readable(text, new.abs_diff(old))
}

/// Appends that change as a share of the first duration.
pub(crate) fn push_growth(text: &mut Vec<u8>, old: u64, new: u64) -> Result<(), AllocError>
    ensures { OnOk result (text.new.items ≡ text.old.items ++ growth_text old new) }
{
    if old > 0 {
        push_sign(text, old, new)?;
    }
    push_share(text, new.abs_diff(old), old)
}
