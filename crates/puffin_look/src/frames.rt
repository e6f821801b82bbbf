//! Lists the frames of a file.

ghost use Rattle.std.specs.Prelude.{◌≡◌, ◌+◌, ◌⊎◌, map, OnOk, IfOk, IfErr};
ghost use Rattle.std.specs.FinMap as tree;
ghost use Rattle.puffin_data.specs.Device.{CanFail, TookNothing};
ghost use Rattle.puffin_frames.specs.Frame.Contents.{streams_held};
ghost use Rattle.puffin_look.specs.OpenFrame.{open_of};
ghost use Rattle.puffin_look.specs.Printed.{IsPrinted, IsStopped, RefusesNone};
ghost use Rattle.puffin_look.specs.FrameLines.{frame_row, frame_cells, frame_line, IsFrameList};
ghost use Rattle.puffin_look.specs.inner.Lining.{Adds, IsEmptyList};
ghost use Rattle.puffin_look.specs.inner.Rows.{cell_of};

use crate::lines::{Form, Lines};
use crate::listing::{Listing, list_behind};
use crate::rows::{Cell, Value, add_row};
use crate::threads::fails_outside;
use crate::top::length_of;
use crate::wanted::Indices;
use puffin_data::data::{Drain, Source, write_all};
use puffin_data::{FileError, FrameIndex, NanoSecond, Result as Answer};
use puffin_frames::frame_data::UnpackedFrameData;
use puffin_view::profile_view::read_magic;
use std::alloc::{AllocError, Global};

/// Returns the number of a frame's threads.
fn thread_count(frame: &UnpackedFrameData) -> usize
    ensures { result ≡ tree.len (streams_held frame.now) }
{
    frame.thread_streams.len()
}

/// The first line of a table.
pub(crate) const COLUMN_NAMES: &[u8] =
    b"         frame       threads        scopes                      start    duration\n";

/// What the line of a frame has of it.
#[derive(Clone, Copy, Debug)]
pub(crate) struct FrameRow {
    pub index: FrameIndex,
    pub threads: usize,
    pub scopes: usize,
    pub range_ns: (NanoSecond, NanoSecond),
    pub duration_ns: NanoSecond,
}

impl FrameRow {
    /// Returns the row of a frame.
    pub(crate) fn new(frame: &UnpackedFrameData) -> FrameRow
        ensures { result ≡ frame_row (open_of frame.now) }
    {
        FrameRow {
            index: frame.meta.frame_index,
            threads: thread_count(frame),
            scopes: frame.meta.num_scopes,
            range_ns: frame.range_ns(),
            duration_ns: frame.duration_ns(),
        }
    }

    /// Returns the row's cells.
    fn cells(&self) -> [Cell; 5]
        ensures { map cell_of result ≡ frame_cells self.now }
    {
        [
            ("frame", Value::Number(self.index)),
            ("threads", Value::Number(self.threads as u64)),
            ("scopes", Value::Number(self.scopes as u64)),
            ("start", Value::Moment(self.range_ns.0)),
            ("duration", Value::Time(Some(length_of(self.range_ns)))),
        ]
    }
}

/// Adds a row to a list.
pub(crate) fn push_row(form: Form, lines: &mut Lines, row: &FrameRow) -> Result<(), AllocError>
    ensures { OnOk result (Adds lines.old lines.new (frame_line form row.now)) }
{
    add_row(lines, form, &row.cells(), None)
}

/// The list of frames so far.
#[derive(Drop)]
struct FrameList {
    lines: Lines,
    form: Form,
}

impl FrameList {
    /// Returns the list of no frames.
    fn new(alloc: Global, form: Form) -> Result<FrameList, AllocError>
        ensures { IfOk result (IsEmptyList form) }
    {
        Ok(FrameList {
            lines: Lines::new(alloc, form, COLUMN_NAMES)?,
            form,
        })
    }
}

impl Listing for FrameList {
    ghost use Rattle.puffin_look.specs.inner.Lining.{TakesFrames, frames_none, frames_more};

    ghost text = { λ v. v.lines.text.items };

    ghost takes = { TakesFrames };

    ghost refuses = { λ _ _ _. ⊥ };

    ghost takes_none = { frames_none };

    ghost takes_more = { frames_more };

    fn add(&mut self, frame: &UnpackedFrameData) -> Answer<()> {
        push_row(self.form, &mut self.lines, &FrameRow::new(frame))?;
        Ok(())
    }

    fn pending(&self) -> &[u8] {
        &self.lines.text
    }

    fn clear(&mut self) {
        self.lines.text.clear();
    }
}

/// Prints the frames of a file with one of these indices, or all, each as soon as it was read: its index, the number of its
/// threads and scopes, when it began, and its duration.
///
/// Fails with the first fault of the file, as [`FrameReader::next`](puffin_view::profile_view::FrameReader::next) does, or with
/// `Compressed` or `BadStreams` for a frame that can't be unpacked. The list of the frames before it is then printed, or nothing
/// if the file has no letters. Fails with `Memory`, or with `Io` if a read or a write fails, and then a prefix of the list of
/// some first frames is written.
pub fn print_frames<S: Source, D: Drain>(
    alloc: Global,
    source: &mut S,
    drain: &mut D,
    indices: Option<Indices>,
    form: Form,
) -> Result<(), FileError>
    requires source { CanFail S.failures source.old }
    requires drain { CanFail D.failures drain.old }
    ensures ok { OnOk result (
        IsPrinted (IsFrameList form indices) (S.remaining source.old) (S.remaining source.new)
        (D.contents drain.old) (D.contents drain.new)) }
    ensures err { IfErr result (λ e.
        IsStopped (IsFrameList form indices) RefusesNone (S.remaining source.old)
        (S.remaining source.new) (D.contents drain.old) (D.contents drain.new) e) }
    // `Io` means that the reader or the writer failed in this call, or that the writer took no bytes.
    ensures io { (result ≡ Err FileError.Io) → (S.failures source.new ≡ S.failures source.old + 1)
        ⊎ ((D.failures drain.new ≡ D.failures drain.old + 1) ⊎ TookNothing D.takes drain.new) }
    ensures failures { OnOk result (
        (S.failures source.new ≡ S.failures source.old)
        × (D.failures drain.new ≡ D.failures drain.old)) }
{
    let mut list = FrameList::new(alloc, form)?;
    read_magic(source)?;
    let answer = list_behind(alloc, source, drain, indices, &mut list);
    if fails_outside(&answer) {
        return answer;
    }
    write_all(drain, form.closing())?;
    answer
}
