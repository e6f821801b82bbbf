//! Prints the scopes of a file by name.

ghost use Rattle.std.specs.Prelude.{◌≡◌, ◌+◌, ◌⊎◌, map, OnOk, IfOk, IfErr, Err};
ghost use Rattle.std.specs.Io.KnownBytes.{Appends};
ghost use Rattle.puffin_data.specs.Device.{CanFail, IsOutside, TookNothing, WritesBeginning};
ghost use Rattle.puffin_look.specs.inner.Lining.{Adds};
ghost use Rattle.puffin_look.specs.inner.Rows.{cell_of};
ghost use Rattle.puffin_look.specs.TopTable.{top_cells, top_row, top_text};

use crate::lines::{Form, Lines};
use crate::rows::{Cell, Value, add_row};
use crate::top::{Top, TopRow};
use puffin_data::FileError;
use puffin_data::data::{Drain, write_all};
use std::alloc::{AllocError, Global};

/// The first line of a table.
const COLUMN_NAMES: &[u8] =
    b"         calls       total         own       least      median         p95         p99    greatest   share  name\n";

/// Returns the cells of a row.
fn cells_of(whole: u64, row: &TopRow) -> [Cell; 9]
    ensures { map cell_of result ≡ top_cells whole row.now }
{
    [
        ("calls", Value::Number(row.calls)),
        ("total", Value::Time(Some(row.total))),
        ("own", Value::Time(Some(row.own))),
        ("least", Value::Time(Some(row.least))),
        ("median", Value::Time(Some(row.median))),
        ("p95", Value::Time(Some(row.p95))),
        ("p99", Value::Time(Some(row.p99))),
        ("greatest", Value::Time(Some(row.greatest))),
        ("share", Value::Share(row.own, whole)),
    ]
}

/// Adds a row.
fn push_row(form: Form, lines: &mut Lines, whole: u64, row: &TopRow) -> Result<(), AllocError>
    ensures { OnOk result (Adds lines.old lines.new (top_row form whole row.now)) }
{
    add_row(
        lines,
        form,
        &cells_of(whole, row),
        Some(("name", &row.name)),
    )
}

/// Returns the whole list.
fn text_of(alloc: Global, form: Form, top: &Top) -> Result<Vec<u8>, AllocError>
    ensures { IfOk result (λ text.
        text.items ≡ top_text form top.now.whole top.now.rows.items) }
{
    let mut lines = Lines::new(alloc, form, COLUMN_NAMES)?;
    for row in top.rows.iter() {
        push_row(form, &mut lines, top.whole, row)?;
    }
    lines.closed(form)
}

/// Prints the rows, in order. The share is that of the row's own time in the durations of all frames. Names stand last.
///
/// Fails with `Memory`, and then prints nothing, or with `Io` if a write fails, and then a prefix of the list is written.
pub fn print_top<D: Drain>(
    alloc: Global,
    drain: &mut D,
    top: &Top,
    form: Form,
) -> Result<(), FileError>
    requires { CanFail D.failures drain.old }
    ensures ok { OnOk result (
        Appends (D.contents drain.old) (D.contents drain.new)
        (top_text form top.now.whole top.now.rows.items)) }
    ensures err { IfErr result (λ e. IsOutside e
        × WritesBeginning (D.contents drain.old) (D.contents drain.new)
        (top_text form top.now.whole top.now.rows.items)) }
    // `Io` means that the writer failed in this call, or that it took no bytes.
    ensures io { (result ≡ Err FileError.Io) →
        (D.failures drain.new ≡ D.failures drain.old + 1) ⊎ TookNothing D.takes drain.new }
    ensures failures { OnOk result (D.failures drain.new ≡ D.failures drain.old) }
{
    let text = text_of(alloc, form, top)?;
    write_all(drain, &text)
}
