//! Makes the rows of lists as objects in JSON.

ghost use Rattle.std.specs.Prelude.{◌≡◌, ◌∷◌, [], map, option_map, OnOk, IfOk};
ghost use Rattle.std.specs.List.{flat_map};
ghost use Rattle.puffin_look.specs.Objects.{integer_token, tenths_token, hundredths_token, share_token, growth_token, value_token, member_tokens, name_tokens, row_object};
ghost use Rattle.puffin_look.specs.inner.Rows.{cell_of, name_of, Writes};

use crate::rows::{Cell, Name, Value};
use bstr::ByteSlice;
use itoa::Buffer;
use json::Writer;
use std::alloc::{AllocError, Global};

/// The greatest number up to which a double holds every whole number.
const EXACT: u128 = 9_007_199_254_740_992;

/// Writes a whole number, or a string of its digits if a reader's double may not hold it.
fn push_integer(writer: &mut Writer, number: i128) -> Result<(), AllocError>
    ensures { OnOk result (Writes writer.old writer.new (integer_token number ∷ [])) }
{
    let mut buffer = Buffer::new();
    let digits = buffer.format(number);
    if number.unsigned_abs() <= EXACT {
        writer.number(digits)
    } else {
        writer.string(digits)
    }
}

/// Writes a number of tenths, with one digit behind the point.
fn push_tenths(
    alloc: Global,
    writer: &mut Writer,
    is_negative: bool,
    tenths: u128,
) -> Result<(), AllocError>
    ensures { OnOk result (Writes writer.old writer.new (tenths_token is_negative tenths ∷ [])) }
{
    let sign = if is_negative { "-" } else { "" };
    let digits = format!(in alloc; "{}{}.{}", sign, tenths / 10, tenths % 10)?;
    if tenths / 10 <= EXACT {
        writer.number(digits.as_str())
    } else {
        writer.string(digits.as_str())
    }
}

/// Writes a number of hundredths, with two digits behind the point.
fn push_hundredths(alloc: Global, writer: &mut Writer, number: u64) -> Result<(), AllocError>
    ensures { OnOk result (Writes writer.old writer.new (hundredths_token number ∷ [])) }
{
    let digits = format!(in alloc; "{}.{}{}", number / 100, number / 10 % 10, number % 10)?;
    if (number / 100) as u128 <= EXACT {
        writer.number(digits.as_str())
    } else {
        writer.string(digits.as_str())
    }
}

/// Writes the share of a duration in another one, in percent.
fn push_share(alloc: Global, writer: &mut Writer, part: u64, whole: u64) -> Result<(), AllocError>
    ensures { OnOk result (Writes writer.old writer.new (share_token part whole ∷ [])) }
{
    if whole == 0 {
        return writer.null();
    }
    push_tenths(alloc, writer, false, part as u128 * 1000 / whole as u128)
}

/// Writes the change from one duration to another as a share of the first, in percent.
fn push_growth(alloc: Global, writer: &mut Writer, old: u64, new: u64) -> Result<(), AllocError>
    ensures { OnOk result (Writes writer.old writer.new (growth_token old new ∷ [])) }
{
    if old == 0 {
        return writer.null();
    }
    push_tenths(
        alloc,
        writer,
        new < old,
        new.abs_diff(old) as u128 * 1000 / old as u128,
    )
}

/// Writes what a cell has.
fn push_value(alloc: Global, writer: &mut Writer, value: Value) -> Result<(), AllocError>
    ensures { OnOk result (Writes writer.old writer.new (value_token value ∷ [])) }
{
    match value {
        Value::Number(number) | Value::Time(Some(number)) => push_integer(writer, number as i128),
        Value::Moment(time) => push_integer(writer, time as i128),
        Value::Offset(from, to) => push_integer(writer, to as i128 - from as i128),
        Value::Hundredths(Some(number)) => push_hundredths(alloc, writer, number),
        Value::Share(part, whole) => push_share(alloc, writer, part, whole),
        Value::Change(old, new) => push_integer(writer, new as i128 - old as i128),
        Value::Growth(old, new) => push_growth(alloc, writer, old, new),
        Value::Hundredths(None) | Value::Time(None) => writer.null(),
    }
}

/// Writes a cell as a member of an object.
fn push_member(alloc: Global, writer: &mut Writer, cell: Cell) -> Result<(), AllocError>
    ensures { OnOk result (Writes writer.old writer.new (member_tokens (cell_of cell.entry))) }
{
    writer.key(cell.0)?;
    push_value(alloc, writer, cell.1)
}

/// Writes cells as members of an object.
pub(crate) fn push_members(
    alloc: Global,
    writer: &mut Writer,
    cells: &[Cell],
) -> Result<(), AllocError>
    ensures { OnOk result (
        Writes writer.old writer.new (flat_map member_tokens (map cell_of cells.now))) }
{
    for &cell in cells {
        push_member(alloc, writer, cell)?;
    }
    Ok(())
}

/// Writes a name, if a row has one, as a member of an object. Bytes that are no UTF-8 become U+FFFD.
fn push_name(alloc: Global, writer: &mut Writer, name: Option<Name<'_>>) -> Result<(), AllocError>
    ensures { OnOk result (
        Writes writer.old writer.new (name_tokens (option_map name_of name.entry))) }
{
    let Some((column, bytes)) = name else {
        return Ok(());
    };
    let text = bytes.to_str_lossy(alloc)?;
    writer.key(column)?;
    writer.string(&text)
}

/// Returns a row as an object.
pub(crate) fn object_of(
    alloc: Global,
    cells: &[Cell],
    name: Option<Name<'_>>,
) -> Result<Vec<u8>, AllocError>
    ensures { IfOk result (λ line.
        line.items ≡ row_object (map cell_of cells.now) (option_map name_of name.entry)) }
{
    let mut writer = Writer::new(Vec::new(alloc));
    writer.begin_object()?;
    push_members(alloc, &mut writer, cells)?;
    push_name(alloc, &mut writer, name)?;
    writer.end_object()?;
    Ok(writer.into_inner())
}
