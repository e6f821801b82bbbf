//! Prints a frame of a file as a tree of scopes.

ghost use Rattle.std.specs.Prelude.{◌≡◌, ◌++◌, ◌+◌, ◌⊎◌, OnOk, IfOk, IfErr};
ghost use Rattle.puffin_data.specs.declared.error.Error.{Error};
ghost use Rattle.puffin_data.specs.Device.{CanFail, TookNothing};
ghost use Rattle.puffin_data.specs.Honesty.{facts_of};
ghost use Rattle.puffin_threads.specs.Thread.ThreadKey.{key_of};
ghost use Rattle.puffin_look.specs.Printed.{IsPrinted, IsStopped};
ghost use Rattle.puffin_look.specs.Wanted.{RefusesTaken};
ghost use Rattle.puffin_look.specs.FrameTree.{range_text, duration_text, head_text, IsFrameText};
ghost use Rattle.puffin_look.specs.inner.FrameTrees.{StepsTree, IsTreeFault, IsAnyFrameText};

use crate::listing::{Listing, list_frames};
use crate::overview::Overview;
use crate::readable::{push_grouped_moment, push_readable};
use crate::text::push_count;
use crate::top::length_of;
use crate::tree::Lines;
use crate::wanted::Wanted;
use puffin_data::data::{Drain, Source, StreamInfo};
use puffin_data::{FileError, NanoSecond, Result as Answer};
use puffin_frames::frame_data::UnpackedFrameData;
use puffin_threads::thread_profiler::ThreadInfo;
use std::alloc::{AllocError, Global};

/// Appends a frame's range.
fn push_range(text: &mut Vec<u8>, range: (NanoSecond, NanoSecond)) -> Result<(), AllocError>
    ensures { OnOk result (text.new.items ≡ text.old.items ++ range_text range) }
{
    text.extend_from_slice(b" range ")?;
    push_grouped_moment(text, range.0)?;
    text.extend_from_slice(b" ")?;
    push_grouped_moment(text, range.1)
}

/// Appends the duration of a range and the end of the line.
fn push_duration(text: &mut Vec<u8>, range: (NanoSecond, NanoSecond)) -> Result<(), AllocError>
    ensures { OnOk result (text.new.items ≡ text.old.items ++ duration_text range) }
{
    text.extend_from_slice(b" duration ")?;
    push_readable(text, length_of(range))?;
    text.extend_from_slice(b"\n")
}

/// Appends a frame's index, range and duration.
fn push_head(text: &mut Vec<u8>, frame: &UnpackedFrameData) -> Result<(), AllocError>
    ensures { OnOk result (text.new.items ≡ text.old.items ++ head_text frame.now.meta) }
{
    push_count(text, b"frame ", frame.meta.frame_index)?;
    push_range(text, frame.meta.range_ns)?;
    push_duration(text, frame.meta.range_ns)
}

/// The wanted frames, as far as they are still to be written.
#[derive(Drop)]
struct Trees<'t> {
    lines: Lines<'t>,
    wanted: &'t Wanted,
    is_found: bool,
}

impl<'t> Trees<'t> {
    /// Appends a thread's scopes, if the thread is wanted.
    fn add_stream(&mut self, thread: &ThreadInfo, info: &StreamInfo) -> Answer<()>
        ensures ok { OnOk result (
            StepsTree self.old self.new (key_of thread.now) (facts_of info.now)) }
        ensures err { IfErr result (λ e.
            (e ≡ Error.Memory) ⊎ IsTreeFault self.old (key_of thread.now) (facts_of info.now) e) }
    {
        if self.wanted.has_thread(thread) {
            self.lines.add_stream(thread, info)?;
            self.is_found = true;
        }
        Ok(())
    }
}

impl<'t> Listing for Trees<'t> {
    ghost use Rattle.puffin_look.specs.inner.FrameTrees.{TakesTrees, RefusesFrame, trees_none, trees_more};

    ghost text = { λ v. v.lines.text.items };

    ghost takes = { TakesTrees };

    ghost refuses = { RefusesFrame };

    ghost takes_none = { trees_none };

    ghost takes_more = { trees_more };

    fn add(&mut self, frame: &UnpackedFrameData) -> Answer<()> {
        push_head(&mut self.lines.text, frame)?;
        self.lines.range_ns = frame.meta.range_ns;
        'streams: for (thread, info) in frame.thread_streams.iter() {
            self.add_stream(thread, info)?;
        }
        Ok(())
    }

    fn pending(&self) -> &[u8] {
        &self.lines.text
    }

    fn clear(&mut self) {
        self.lines.text.clear();
    }
}

/// Prints the wanted frames of a file: for each a line with its range in nanoseconds and its duration, for each of its threads a
/// line behind the names of the columns, and for each scope of the thread a line: its start in the frame, its duration, and its
/// share of what it is nested in, in columns; two blanks for each scope that it is nested in; its name by the details of the
/// [overview](crate::read_overview), or `#` and the id; and its text in parentheses, unless it is empty.
///
/// Returns whether a thread was printed. Fails as [`print_trace`](crate::print_trace) does; only the streams that are printed
/// have to consist of scopes.
pub fn print_frame<S: Source, D: Drain>(
    alloc: Global,
    overview: &Overview,
    source: &mut S,
    drain: &mut D,
    wanted: &Wanted,
) -> Result<bool, FileError>
    requires source { CanFail S.failures source.old }
    requires drain { CanFail D.failures drain.old }
    ensures ok { IfOk result (λ found.
        IsPrinted (IsFrameText overview.now.details wanted.now found) (S.remaining source.old)
        (S.remaining source.new) (D.contents drain.old) (D.contents drain.new)) }
    ensures err { IfErr result (λ e.
        IsStopped (IsAnyFrameText overview.now.details wanted.now) (RefusesTaken wanted.now)
        (S.remaining source.old) (S.remaining source.new) (D.contents drain.old)
        (D.contents drain.new) e) }
    // `Io` means that the reader or the writer failed in this call, or that the writer took no bytes.
    ensures io { (result ≡ Err FileError.Io) → (S.failures source.new ≡ S.failures source.old + 1)
        ⊎ ((D.failures drain.new ≡ D.failures drain.old + 1) ⊎ TookNothing D.takes drain.new) }
    ensures failures { OnOk result (
        (S.failures source.new ≡ S.failures source.old)
        × (D.failures drain.new ≡ D.failures drain.old)) }
{
    let mut trees = Trees {
        lines: Lines {
            text: Vec::new(alloc),
            scratch: Vec::new(alloc),
            known: &overview.details,
            range_ns: (0, 0),
        },
        wanted,
        is_found: false,
    };
    list_frames(alloc, source, drain, wanted.frames, &mut trees)?;
    Ok(trees.is_found)
}
