//! Makes the rows of lists: a name for each column, and what a row has in it.

ghost use Rattle.std.specs.Prelude.{◌≡◌, ◌++◌, map, option_map, OnOk};
ghost use Rattle.std.specs.List.{flat_map};
ghost use Rattle.puffin_look.specs.Cells.{cell, width_of, value_text, row_cell, heading, row_end};
ghost use Rattle.puffin_look.specs.Objects.{row_text};
ghost use Rattle.puffin_look.specs.inner.Lining.{Adds};
ghost use Rattle.puffin_look.specs.inner.Rows.{cell_of, name_of};

use crate::columns::push_share;
use crate::escapes::push_escaped;
use crate::lines::{Form, Lines};
use crate::objects::object_of;
use crate::readable::{
    push_change, push_grouped, push_grouped_moment, push_growth, push_hundredths, push_offset,
    push_readable,
};
use puffin_data::NanoSecond;
use std::alloc::AllocError;

/// What a cell of a table has.
#[derive(Clone, Copy, Debug)]
pub(crate) enum Value {
    /// A number.
    Number(u64),
    /// A moment in nanoseconds.
    Moment(NanoSecond),
    /// The time from the first moment to the second.
    Offset(NanoSecond, NanoSecond),
    /// A number of hundredths, if there is one.
    Hundredths(Option<u64>),
    /// A duration in nanoseconds, if there is one.
    Time(Option<u64>),
    /// The share of the first duration in the second.
    Share(u64, u64),
    /// The change from the first duration to the second.
    Change(u64, u64),
    /// That change as a share of the first.
    Growth(u64, u64),
}

impl Value {
    /// Returns how many characters its column has.
    fn width(self) -> usize
        ensures { result ≡ width_of self }
    {
        match self {
            Value::Number(_) | Value::Hundredths(_) => 13,
            Value::Moment(_) => 26,
            Value::Offset(..) | Value::Time(_) => 11,
            Value::Change(..) | Value::Growth(..) => 12,
            Value::Share(..) => 7,
        }
    }
}

/// Appends a value.
fn push_value(text: &mut Vec<u8>, value: Value) -> Result<(), AllocError>
    ensures { OnOk result (text.new.items ≡ text.old.items ++ value_text value) }
{
    match value {
        Value::Number(number) => push_grouped(text, number),
        Value::Moment(time) => push_grouped_moment(text, time),
        Value::Offset(from, to) => push_offset(text, from, to),
        Value::Hundredths(Some(number)) => push_hundredths(text, number, b""),
        Value::Time(Some(time)) => push_readable(text, time),
        Value::Share(part, whole) => push_share(text, part, whole),
        Value::Change(old, new) => push_change(text, old, new),
        Value::Growth(old, new) => push_growth(text, old, new),
        Value::Hundredths(None) | Value::Time(None) => text.extend_from_slice(b"-"),
    }
}

/// Appends a blank, and a text that ends where the column ends.
fn push_cell(text: &mut Vec<u8>, width: usize, part: &[u8]) -> Result<(), AllocError>
    ensures { OnOk result (text.new.items ≡ text.old.items ++ cell width part.now) }
{
    text.push(b' ')?;
    for _ in 0..width.saturating_sub(part.len()) {
        text.push(b' ')?;
    }
    text.extend_from_slice(part)
}

/// A column's name, and what a row has in it.
pub(crate) type Cell = (&'static str, Value);

/// The name of the last column, and the bytes that a row has in it.
pub(crate) type Name<'n> = (&'static str, &'n [u8]);

/// Appends cells, each in its column. What `scratch` has is lost.
pub(crate) fn push_cells(
    text: &mut Vec<u8>,
    scratch: &mut Vec<u8>,
    cells: &[Cell],
) -> Result<(), AllocError>
    ensures { OnOk result (
        text.new.items ≡ text.old.items ++ flat_map row_cell (map cell_of cells.now)) }
{
    for cell in cells {
        scratch.clear();
        push_value(scratch, cell.1)?;
        push_cell(text, cell.1.width(), scratch)?;
    }
    Ok(())
}

/// Appends the names of columns, each where its values end.
pub(crate) fn push_heading(text: &mut Vec<u8>, cells: &[Cell]) -> Result<(), AllocError>
    ensures { OnOk result (
        text.new.items ≡ text.old.items ++ heading (map cell_of cells.now)) }
{
    for cell in cells {
        push_cell(text, cell.1.width(), cell.0.as_bytes())?;
    }
    Ok(())
}

/// Appends a name, if a row has one, with escapes for control characters, and the end of the line.
fn push_end(text: &mut Vec<u8>, name: Option<Name<'_>>) -> Result<(), AllocError>
    ensures { OnOk result (
        text.new.items ≡ text.old.items ++ row_end (option_map name_of name.entry)) }
{
    if let Some(name) = name {
        text.extend_from_slice(b"  ")?;
        push_escaped(text, name.1)?;
    }
    text.extend_from_slice(b"\n")
}

/// Appends a row in this form.
fn push_row(
    text: &mut Vec<u8>,
    form: Form,
    cells: &[Cell],
    name: Option<Name<'_>>,
) -> Result<(), AllocError>
    ensures { OnOk result (text.new.items ≡ text.old.items
        ++ row_text form (map cell_of cells.now) (option_map name_of name.entry)) }
{
    match form {
        Form::Table => {
            let mut scratch = Vec::new(*text.allocator());
            push_cells(text, &mut scratch, cells)?;
            push_end(text, name)
        }
        Form::Json => {
            let object = object_of(*text.allocator(), cells, name)?;
            text.extend_from_slice(&object)
        }
    }
}

/// Adds a row to a list.
pub(crate) fn add_row(
    lines: &mut Lines,
    form: Form,
    cells: &[Cell],
    name: Option<Name<'_>>,
) -> Result<(), AllocError>
    ensures { OnOk result (Adds lines.old lines.new (
        row_text form (map cell_of cells.now) (option_map name_of name.entry))) }
{
    lines.begin_line()?;
    push_row(&mut lines.text, form, cells, name)
}
