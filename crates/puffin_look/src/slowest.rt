//! Lists the slowest frames of a file.

ghost use Rattle.std.specs.Prelude.{◌≡◌, ◌+◌, ◌⊎◌, ◌≤◌, length, insert, take, position, OnOk, IfOk, IfErr};
ghost use Rattle.puffin_data.specs.Device.{CanFail, TookNothing};
ghost use Rattle.puffin_look.specs.FrameLines.{frame_list};
ghost use Rattle.puffin_look.specs.Printed.{IsPrinted, IsStopped, IsCutOff, RefusesNone};
ghost use Rattle.puffin_look.specs.Slowest.{is_faster_by, with_row_by, AreSlowestFrames, IsNoText};

use crate::frames::{COLUMN_NAMES, FrameRow, push_row};
use crate::lines::{Form, Lines};
use crate::listing::{Listing, list_frames};
use puffin_data::data::{Drain, Source, write_all};
use puffin_data::{FileError, NanoSecond, Result as Answer};
use puffin_frames::frame_data::UnpackedFrameData;
use std::alloc::{AllocError, Global};

/// What has a duration.
pub(crate) trait Timed {
    ghost use Rattle.std.specs.Prelude.{ℤ};

    ghost duration: { Self → ℤ };

    /// Returns the duration, in nanoseconds.
    fn duration_ns(&self) -> NanoSecond
        ensures { result ≡ duration self.now };
}

impl Timed for FrameRow {
    ghost duration = { λ row. row.duration_ns };

    fn duration_ns(&self) -> NanoSecond {
        self.duration_ns
    }
}

/// Returns the place of the first row that is faster than this one, if there is one.
fn first_faster<R: Timed>(rows: &[R], row: &R) -> Option<usize>
    ensures { result ≡ position (is_faster_by R.duration row.now) rows.now }
{
    rows.iter()
        .position(|other| other.duration_ns() < row.duration_ns())
}

/// Returns that place, or else the end.
fn place_for<R: Timed>(rows: &[R], row: &R) -> usize
    ensures place { with_row_by R.duration rows.now row.now ≡ insert rows.now result row.now }
    ensures within { result ≤ length rows.now }
{
    first_faster(rows, row).unwrap_or(rows.len())
}

/// Adds a row to these, the slowest first, and drops the fastest one if they are too many then.
pub(crate) fn keep<R: Timed + Drop>(
    rows: &mut Vec<R>,
    limit: usize,
    row: R,
) -> Result<(), AllocError>
    ensures { OnOk result (
        rows.new.items ≡ take limit (with_row_by R.duration rows.old.items row)) }
{
    let place = place_for(rows, &row);
    rows.insert(place, row)?;
    rows.truncate(limit);
    Ok(())
}

/// The slowest frames so far, the slowest first.
#[derive(Drop)]
struct Slowest {
    rows: Vec<FrameRow>,
    limit: usize,
}

impl Listing for Slowest {
    ghost use Rattle.std.specs.Prelude.{[]};
    ghost use Rattle.puffin_look.specs.inner.Taken.{TakesRows, rows_none, rows_more};

    ghost text = { λ _. [] };

    ghost takes = { TakesRows };

    ghost refuses = { λ _ _ _. ⊥ };

    ghost takes_none = { rows_none };

    ghost takes_more = { rows_more };

    fn add(&mut self, frame: &UnpackedFrameData) -> Answer<()> {
        keep(&mut self.rows, self.limit, FrameRow::new(frame))?;
        Ok(())
    }

    fn pending(&self) -> &[u8] {
        &[]
    }

    fn clear(&mut self) {}
}

/// Returns the list of rows.
fn text_of(alloc: Global, form: Form, rows: &[FrameRow]) -> Result<Vec<u8>, AllocError>
    ensures { IfOk result (λ text. text.items ≡ frame_list form rows.now) }
{
    let mut lines = Lines::new(alloc, form, COLUMN_NAMES)?;
    for row in rows {
        push_row(form, &mut lines, row)?;
    }
    lines.closed(form)
}

/// Prints the `limit` slowest frames of a file as [`print_frames`](crate::print_frames) does, the slowest first, and of equally
/// slow frames the one that comes first in the file.
///
/// Fails with the first fault of the file, as [`print_frames`](crate::print_frames) does, or with `Memory` or, if a read fails,
/// with `Io`, and then prints nothing; or with `Io` if a write fails, and then a prefix of the list is written.
pub fn print_slowest<S: Source, D: Drain>(
    alloc: Global,
    source: &mut S,
    drain: &mut D,
    limit: usize,
    form: Form,
) -> Result<(), FileError>
    requires source { CanFail S.failures source.old }
    requires drain { CanFail D.failures drain.old }
    ensures ok { OnOk result (
        IsPrinted (AreSlowestFrames form limit) (S.remaining source.old) (S.remaining source.new)
        (D.contents drain.old) (D.contents drain.new)) }
    ensures err { IfErr result (λ e.
        IsStopped IsNoText RefusesNone (S.remaining source.old) (S.remaining source.new)
        (D.contents drain.old) (D.contents drain.new) e
        ⊎ ((e ≡ FileError.Io)
        × IsCutOff (AreSlowestFrames form limit) (S.remaining source.old) (S.remaining source.new)
        (D.contents drain.old) (D.contents drain.new))) }
    // `Io` means that the reader or the writer failed in this call, or that the writer took no bytes.
    ensures io { (result ≡ Err FileError.Io) → (S.failures source.new ≡ S.failures source.old + 1)
        ⊎ ((D.failures drain.new ≡ D.failures drain.old + 1) ⊎ TookNothing D.takes drain.new) }
    ensures failures { OnOk result (
        (S.failures source.new ≡ S.failures source.old)
        × (D.failures drain.new ≡ D.failures drain.old)) }
{
    let mut slowest = Slowest {
        rows: Vec::new(alloc),
        limit,
    };
    list_frames(alloc, source, drain, None, &mut slowest)?;
    let text = text_of(alloc, form, &slowest.rows)?;
    write_all(drain, &text)
}
