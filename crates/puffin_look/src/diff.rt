//! Compares the scopes of two files by name.

ghost use Rattle.std.specs.Prelude.{◌≡◌, ◌++◌, List, take, map, IfOk, OnOk, OnErr};
ghost use Rattle.std.specs.List.{list_any};
ghost use Rattle.puffin_look.specs.Diff.{hundredths, per_frame, part_of, own_in, entry_of, entries, change, grows_above, AreSorted};
ghost use Rattle.puffin_look.specs.declared.diff.DiffRow.{DiffRow};
ghost use Rattle.puffin_look.specs.inner.Diffs.{entry_in, new_entry_in, HasParts};

use crate::top::{Top, TopRow};
use indexmap::IndexMap;
use std::alloc::{AllocError, Global};

/// What the scopes with a name have in each frame, rounded down.
#[derive(Clone, Copy, Debug, PartialEq, Eq)]
pub struct PerFrame {
    /// Hundredths of a call. A number that doesn't fit `u64` is `u64::MAX`.
    pub calls: u64,
    /// The durations together, in nanoseconds.
    pub total: u64,
    /// The same, less the durations of the scopes directly within them.
    pub own: u64,
}

impl PerFrame {
    /// Returns what a row has in each of so many frames.
    fn new(row: &TopRow, frames: u64) -> PerFrame
        ensures { result ≡ part_of frames row.now }
    {
        PerFrame {
            calls: hundredths(row.calls, frames),
            total: per_frame(row.total, frames),
            own: per_frame(row.own, frames),
        }
    }
}

/// Returns how much there is in each frame, rounded down, or 0 if there are no frames.
fn per_frame(sum: u64, frames: u64) -> u64
    ensures { result ≡ per_frame sum frames }
{
    if frames == 0 { 0 } else { sum / frames }
}

/// Returns how many hundredths there are in each frame, at most `u64::MAX`.
fn hundredths(sum: u64, frames: u64) -> u64
    ensures { result ≡ hundredths sum frames }
{
    if frames == 0 {
        return 0;
    }
    let exact = sum as u128 * 100 / frames as u128;
    exact.min(u64::MAX as u128) as u64
}

/// A name, and what its scopes have in two files.
#[derive(Drop)]
pub struct DiffRow {
    /// The bytes of the name.
    pub name: Vec<u8>,
    /// In the old file, or `None` if none of its scopes has the name.
    pub old: Option<PerFrame>,
    /// In the new file.
    pub new: Option<PerFrame>,
}

/// Returns the time of the scopes alone in each frame, or 0 if there are none.
pub(crate) fn own_in(part: Option<PerFrame>) -> u64
    ensures { result ≡ own_in part }
{
    match part {
        Some(part) => part.own,
        None => 0,
    }
}

impl DiffRow {
    /// Returns how much the own time in each frame has changed.
    fn change(&self) -> u64
        ensures { result ≡ change self.now }
    {
        own_in(self.new).abs_diff(own_in(self.old))
    }

    /// Returns whether the own time in each frame has grown by more than so many percent.
    fn grows_above(&self, percent: u64) -> bool
        ensures { result ≡ grows_above percent self.now }
    {
        let old = own_in(self.old);
        let more = own_in(self.new).saturating_sub(old);
        old as u128 * (percent as u128) < more as u128 * 100
    }
}

/// The scopes of two files by name.
#[derive(Drop)]
pub struct Diff {
    pub rows: Vec<DiffRow>,
}

/// Returns what each name has in each frame of a file.
fn parts_of(alloc: Global, top: &Top) -> Result<IndexMap<Vec<u8>, PerFrame>, AllocError>
    ensures { IfOk result (λ parts. HasParts top.now.frames top.now.rows.items parts.entries) }
{
    let mut parts = IndexMap::new(alloc);
    for row in top.rows.iter() {
        let name = Vec::from_slice(alloc, &row.name)?;
        parts.insert(name, PerFrame::new(row, top.frames))?;
    }
    Ok(parts)
}

/// What each name has in two files.
#[derive(Drop)]
struct Both {
    old: IndexMap<Vec<u8>, PerFrame>,
    new: IndexMap<Vec<u8>, PerFrame>,
}

impl Both {
    /// Returns the row of a name.
    fn row_of(&self, alloc: Global, name: &[u8]) -> Result<DiffRow, AllocError>
        ensures { IfOk result (λ row.
            entry_of row ≡ entry_in self.now.old.entries self.now.new.entries name.now) }
    {
        Ok(DiffRow {
            name: Vec::from_slice(alloc, name)?,
            old: self.old.get(name).copied(),
            new: self.new.get(name).copied(),
        })
    }

    /// Adds the row of a name, if only the new file has it.
    fn add_new(&self, alloc: Global, rows: &mut Vec<DiffRow>, name: &[u8]) -> Result<(), AllocError>
        ensures { OnOk result (map entry_of rows.new.items ≡ map entry_of rows.old.items
            ++ new_entry_in self.now.old.entries self.now.new.entries name.now) }
    {
        if self.old.get(name).is_none() {
            rows.push(self.row_of(alloc, name)?)?;
        }
        Ok(())
    }
}

/// Compares the scopes of two files by name: a row for each name of the old file, in its order, and behind them one for each name
/// that only the new file has.
pub fn compare(alloc: Global, old: &Top, new: &Top) -> Result<Diff, AllocError>
    ensures { IfOk result (λ diff. map entry_of diff.rows.items ≡ entries old.now new.now) }
{
    let both = Both {
        old: parts_of(alloc, old)?,
        new: parts_of(alloc, new)?,
    };
    let mut rows = Vec::new(alloc);
    for row in old.rows.iter() {
        rows.push(both.row_of(alloc, &row.name)?)?;
    }
    for row in new.rows.iter() {
        both.add_new(alloc, &mut rows, &row.name)?;
    }
    Ok(Diff { rows })
}

impl Diff {
    /// Returns whether the own time of a name in each frame has grown by more than so many percent. If the old file has no time
    /// of it, any time is more.
    pub fn grows_above(&self, percent: u64) -> bool
        ensures { result ≡ list_any (grows_above percent) self.now.rows.items }
    {
        self.rows.iter().any(|row| row.grows_above(percent))
    }

    /// Sorts the rows by the change of the own time in each frame, the greatest first, and keeps so many of them. If memory runs
    /// out, the rows stay as they were.
    pub fn sort(&mut self, limit: usize) -> Result<(), AllocError>
        ensures rows { OnOk result ((sorted : List DiffRow)
            × AreSorted self.old.rows.items sorted
            × (self.new.rows.items ≡ take limit sorted)) }
        ensures err { OnErr result (self.new.rows.items ≡ self.old.rows.items) }
    {
        self.rows.sort_by_key(|row| u64::MAX - row.change())?;
        self.rows.truncate(limit);
        Ok(())
    }
}
