//! Prints the scopes of two files by name.

ghost use Rattle.std.specs.Prelude.{◌≡◌, ◌+◌, ◌⊎◌, map, OnOk, IfOk, IfErr, Err};
ghost use Rattle.std.specs.Io.KnownBytes.{Appends};
ghost use Rattle.puffin_data.specs.Device.{CanFail, IsOutside, TookNothing, WritesBeginning};
ghost use Rattle.puffin_look.specs.inner.Lining.{Adds};
ghost use Rattle.puffin_look.specs.inner.Rows.{cell_of};
ghost use Rattle.puffin_look.specs.DiffTable.{total_in, diff_cells, diff_row, diff_text};

use crate::diff::{Diff, DiffRow, PerFrame, own_in};
use crate::lines::{Form, Lines};
use crate::rows::{Cell, Value, add_row};
use puffin_data::FileError;
use puffin_data::data::{Drain, write_all};
use std::alloc::{AllocError, Global};

/// The first line of a table.
const COLUMN_NAMES: &[u8] =
    b"     old_own     new_own   own_change   own_growth   old_total   new_total total_change total_growth     old_calls     new_calls  name\n";

/// Returns the durations in each frame, or 0 if there are none.
fn total_in(part: Option<PerFrame>) -> u64
    ensures { result ≡ total_in part }
{
    match part {
        Some(part) => part.total,
        None => 0,
    }
}

/// Returns the cells of a row.
fn cells_of(row: &DiffRow) -> [Cell; 10]
    ensures { map cell_of result ≡ diff_cells row.now }
{
    let (own, total) = (own_in(row.old), total_in(row.old));
    let (new_own, new_total) = (own_in(row.new), total_in(row.new));
    [
        ("old_own", Value::Time(row.old.map(|part| part.own))),
        ("new_own", Value::Time(row.new.map(|part| part.own))),
        ("own_change", Value::Change(own, new_own)),
        ("own_growth", Value::Growth(own, new_own)),
        ("old_total", Value::Time(row.old.map(|part| part.total))),
        ("new_total", Value::Time(row.new.map(|part| part.total))),
        ("total_change", Value::Change(total, new_total)),
        ("total_growth", Value::Growth(total, new_total)),
        (
            "old_calls",
            Value::Hundredths(row.old.map(|part| part.calls)),
        ),
        (
            "new_calls",
            Value::Hundredths(row.new.map(|part| part.calls)),
        ),
    ]
}

/// Adds a row.
fn push_row(form: Form, lines: &mut Lines, row: &DiffRow) -> Result<(), AllocError>
    ensures { OnOk result (Adds lines.old lines.new (diff_row form row.now)) }
{
    add_row(lines, form, &cells_of(row), Some(("name", &row.name)))
}

/// Returns the whole list.
fn text_of(alloc: Global, form: Form, diff: &Diff) -> Result<Vec<u8>, AllocError>
    ensures { IfOk result (λ text. text.items ≡ diff_text form diff.now.rows.items) }
{
    let mut lines = Lines::new(alloc, form, COLUMN_NAMES)?;
    for row in diff.rows.iter() {
        push_row(form, &mut lines, row)?;
    }
    lines.closed(form)
}

/// Prints what two files have, as [`print_top`](crate::print_top) does. Numbers are those in each frame; there are none where a
/// file hasn't the name. A change has a sign, and as growth it is a share of the old time, if that isn't 0.
///
/// Fails with `Memory`, and then prints nothing, or with `Io` if a write fails, and then a prefix of the list is written.
pub fn print_diff<D: Drain>(
    alloc: Global,
    drain: &mut D,
    diff: &Diff,
    form: Form,
) -> Result<(), FileError>
    requires { CanFail D.failures drain.old }
    ensures ok { OnOk result (
        Appends (D.contents drain.old) (D.contents drain.new)
        (diff_text form diff.now.rows.items)) }
    ensures err { IfErr result (λ e. IsOutside e
        × WritesBeginning (D.contents drain.old) (D.contents drain.new)
        (diff_text form diff.now.rows.items)) }
    // `Io` means that the writer failed in this call, or that it took no bytes.
    ensures io { (result ≡ Err FileError.Io) →
        (D.failures drain.new ≡ D.failures drain.old + 1) ⊎ TookNothing D.takes drain.new }
    ensures failures { OnOk result (D.failures drain.new ≡ D.failures drain.old) }
{
    let text = text_of(alloc, form, diff)?;
    write_all(drain, &text)
}
