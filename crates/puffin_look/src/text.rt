//! Appends numbers to a text, without allocating more than the text needs.

ghost use Rattle.std.specs.Prelude.{◌≡◌, ◌++◌, OnOk};
ghost use Rattle.std.specs.Fmt.{decimal, signed_decimal};

use itoa::Buffer;
use puffin_data::NanoSecond;
use std::alloc::AllocError;

/// Appends a number in decimal digits.
pub(crate) fn push_number(text: &mut Vec<u8>, number: u64) -> Result<(), AllocError>
    ensures { OnOk result (text.new.items ≡ text.old.items ++ decimal number) }
{
    text.extend_from_slice(Buffer::new().format(number).as_bytes())
}

/// Appends a time in decimal digits, with a minus if it is negative.
pub(crate) fn push_time(text: &mut Vec<u8>, time: NanoSecond) -> Result<(), AllocError>
    ensures { OnOk result (text.new.items ≡ text.old.items ++ signed_decimal time) }
{
    text.extend_from_slice(Buffer::new().format(time).as_bytes())
}

/// Appends a label and then a number.
pub(crate) fn push_count(text: &mut Vec<u8>, label: &[u8], number: u64) -> Result<(), AllocError>
    ensures { OnOk result (text.new.items ≡ text.old.items ++ (label.now ++ decimal number)) }
{
    text.extend_from_slice(label)?;
    push_number(text, number)
}

/// Appends a label and then a time.
pub(crate) fn push_moment(
    text: &mut Vec<u8>,
    label: &[u8],
    time: NanoSecond,
) -> Result<(), AllocError>
    ensures { OnOk result (
        text.new.items ≡ text.old.items ++ (label.now ++ signed_decimal time)) }
{
    text.extend_from_slice(label)?;
    push_time(text, time)
}
