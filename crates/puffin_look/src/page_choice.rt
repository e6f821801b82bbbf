//! Chooses which frames a page has by default: the last and the slowest.

ghost use Rattle.std.specs.Prelude.{◌≡◌, ◌++◌, [], fold, IfOk, IfErr, OnOk};
ghost use Rattle.puffin_data.specs.Device.{CanFail, IsOutside, failures_after};
ghost use Rattle.puffin_frames.specs.Frame.Contents.{packet_fields};
ghost use Rattle.puffin_look.specs.PageChoice.{row_of, with_fitting, fitting, IsPageChoice};
ghost use Rattle.puffin_look.specs.inner.PageChoices.{AddsRow, ReadsRows, chosen_in};

use crate::slowest::{Timed, keep};
use crate::threads::fails_outside;
use puffin_data::data::Source;
use puffin_data::{FileError, FrameIndex, NanoSecond};
use puffin_frames::frame_data::FrameData;
use puffin_view::profile_view::{next_frame, read_magic};
use std::alloc::{AllocError, Global};

/// How many frames a page has, at most.
#[derive(Clone, Copy, Debug, PartialEq, Eq)]
pub struct PageLimits {
    /// The number of frames at the end of the file.
    pub recent: usize,
    /// The number of the slowest frames.
    pub slow: usize,
    /// The size of the streams of all of them together, in bytes.
    pub bytes: usize,
}

/// What the choice of a frame depends on.
#[derive(Clone, Copy, Debug)]
struct Row {
    index: FrameIndex,
    duration_ns: NanoSecond,
    bytes: usize,
}

impl Row {
    /// Returns the row of a frame.
    fn new(frame: &FrameData) -> Row
        ensures { result ≡ row_of (packet_fields frame.now) }
    {
        Row {
            index: frame.frame_index(),
            duration_ns: frame.duration_ns(),
            bytes: frame.meta().num_bytes,
        }
    }
}

impl Timed for Row {
    ghost duration = { λ row. row.duration_ns };

    fn duration_ns(&self) -> NanoSecond {
        self.duration_ns
    }
}

/// The last and the slowest of the frames so far: the last first, and the slowest first.
#[derive(Drop)]
struct Rows {
    recent: Vec<Row>,
    slow: Vec<Row>,
    limits: PageLimits,
}

impl Rows {
    /// Adds the next frame, and drops those that are too many then.
    fn add(&mut self, frame: &FrameData) -> Result<(), AllocError>
        ensures row { OnOk result (AddsRow self.old self.new (row_of (packet_fields frame.now))) }
        ensures limits { self.new.limits ≡ self.old.limits }
    {
        let row = Row::new(frame);
        self.recent.insert(0, row)?;
        self.recent.truncate(self.limits.recent);
        keep(&mut self.slow, self.limits.slow, row)
    }
}

/// Adds all frames of a file. Fails with the first fault of the file, with `Io`, or with `Memory`.
fn add_frames<S: Source>(alloc: Global, source: &mut S, rows: &mut Rows) -> Result<(), FileError>
    requires source { CanFail S.failures source.old }
    requires recent { rows.old.recent.items ≡ [] }
    requires slow { rows.old.slow.items ≡ [] }
    ensures read { ReadsRows (S.remaining source.old) (S.remaining source.new) rows.new result }
    ensures limits { rows.new.limits ≡ rows.old.limits }
    ensures failures { S.failures source.new ≡ failures_after (S.failures source.old) result }
{
    read_magic(source)?;
    'frames: for _ in 0..u64::MAX {
        let Some(frame) = next_frame(alloc, source)? else {
            return Ok(());
        };
        rows.add(&frame)?;
    }
    // The loop has returned, unless the file has more frames than any that is accepted.
    Err(FileError::Truncated)
}

/// The frames that were chosen, and how many bytes others may have.
#[derive(Drop)]
struct Choice {
    indices: Vec<FrameIndex>,
    room: usize,
}

impl Choice {
    /// Chooses a frame, unless it was chosen or has more bytes than there is room for.
    fn add(&mut self, row: &Row) -> Result<(), AllocError>
        ensures { OnOk result (chosen_in self.new ≡ with_fitting (chosen_in self.old) row.now) }
    {
        if row.bytes <= self.room && !self.indices.contains(&row.index) {
            self.indices.push(row.index)?;
            self.room -= row.bytes;
        }
        Ok(())
    }

    /// Chooses these frames, one after the other.
    fn add_all(&mut self, rows: &[Row]) -> Result<(), AllocError>
        ensures { OnOk result (
            chosen_in self.new ≡ fold with_fitting (chosen_in self.old) rows.now) }
    {
        for row in rows {
            self.add(row)?;
        }
        Ok(())
    }
}

/// Returns the indices of these frames, as far as there is room: first of the slowest, and then of the last ones.
fn chosen(alloc: Global, rows: &Rows) -> Result<Vec<FrameIndex>, AllocError>
    ensures { IfOk result (λ indices. indices.items ≡ fitting rows.now.limits.bytes
        (rows.now.slow.items ++ rows.now.recent.items)) }
{
    let mut choice = Choice {
        indices: Vec::new(alloc),
        room: rows.limits.bytes,
    };
    choice.add_all(&rows.slow)?;
    choice.add_all(&rows.recent)?;
    Ok(choice.indices)
}

/// Returns the indices of the frames that a page has by default: the slowest frames of a file, and those at its end, as many as
/// the limits allow. A frame whose streams have more bytes than there is room for is left out. Reads one frame at a time, and
/// unpacks none.
///
/// A file with a fault has the frames before it; printing it fails with the fault then. Fails only with `Io`, if a read fails, or
/// with `Memory`.
pub fn choose_frames<S: Source>(
    alloc: Global,
    source: &mut S,
    limits: PageLimits,
) -> Result<Vec<FrameIndex>, FileError>
    requires { CanFail S.failures source.old }
    ensures ok { IfOk result (λ indices.
        IsPageChoice limits (S.remaining source.old) (S.remaining source.new) indices.items) }
    ensures outside { IfErr result IsOutside }
    ensures failures { S.failures source.new ≡ failures_after (S.failures source.old) result }
{
    let mut rows = Rows {
        recent: Vec::new(alloc),
        slow: Vec::new(alloc),
        limits,
    };
    let answer = add_frames(alloc, source, &mut rows);
    if fails_outside(&answer) {
        answer?;
    }
    Ok(chosen(alloc, &rows)?)
}
