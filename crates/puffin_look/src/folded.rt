//! Prints the folded stacks of a file.

ghost use Rattle.std.specs.Prelude.{◌≡◌, ◌++◌, ◌+◌, ◌-◌, ◌⊎◌, OnOk, IfOk, IfErr};
ghost use Rattle.std.specs.List.{flat_map};
ghost use Rattle.puffin_data.specs.declared.error.Error.{Error};
ghost use Rattle.puffin_data.specs.Device.{CanFail, TookNothing};
ghost use Rattle.puffin_data.specs.Honesty.{facts_of};
ghost use Rattle.puffin_threads.specs.Thread.ThreadKey.{key_of};
ghost use Rattle.puffin_look.specs.Printed.{IsPrinted, IsStopped, IsCutOff};
ghost use Rattle.puffin_look.specs.Wanted.{RefusesTaken};
ghost use Rattle.puffin_look.specs.Slowest.{IsNoText};
ghost use Rattle.puffin_look.specs.Folded.{path_line, IsFolded, IsAnyFolded};
ghost use Rattle.puffin_look.specs.inner.Stacks.{row_text, rows_of};
ghost use Rattle.puffin_look.specs.inner.Foldings.{StepsStack, IsStackFault};

use crate::listing::{Listing, list_frames};
use crate::overview::Overview;
use crate::stacks::{Stacks, Times};
use crate::text::push_count;
use crate::wanted::Wanted;
use puffin_data::data::{Drain, Source, StreamInfo, write_all};
use puffin_data::{FileError, Result as Answer};
use puffin_frames::frame_data::UnpackedFrameData;
use puffin_threads::thread_profiler::ThreadInfo;
use std::alloc::{AllocError, Global};

/// The stacks of the wanted threads.
#[derive(Drop)]
pub(crate) struct Folding<'t> {
    pub stacks: Stacks<'t>,
    pub wanted: &'t Wanted,
    pub is_found: bool,
}

impl<'t> Folding<'t> {
    /// Adds a thread's scopes, if the thread is wanted.
    fn add_stream(&mut self, thread: &ThreadInfo, info: &StreamInfo) -> Answer<()>
        ensures ok { OnOk result (
            StepsStack self.old self.new (key_of thread.now) (facts_of info.now)) }
        ensures err { IfErr result (λ e.
            (e ≡ Error.Memory) ⊎ IsStackFault self.old (key_of thread.now) (facts_of info.now) e) }
    {
        if self.wanted.has_thread(thread) {
            self.stacks.add_stream(info)?;
            self.is_found = true;
        }
        Ok(())
    }
}

impl<'t> Listing for Folding<'t> {
    ghost use Rattle.std.specs.Prelude.{[]};
    ghost use Rattle.puffin_look.specs.inner.Foldings.{TakesStacks, RefusesFrame, stacks_none, stacks_more};

    ghost text = { λ _. [] };

    ghost takes = { TakesStacks };

    ghost refuses = { RefusesFrame };

    ghost takes_none = { stacks_none };

    ghost takes_more = { stacks_more };

    fn add(&mut self, frame: &UnpackedFrameData) -> Answer<()> {
        'streams: for (thread, info) in frame.thread_streams.iter() {
            self.add_stream(thread, info)?;
        }
        Ok(())
    }

    fn pending(&self) -> &[u8] {
        &[]
    }

    fn clear(&mut self) {}
}

/// Appends a path's line.
fn push_line(text: &mut Vec<u8>, path: &[u8], times: Times) -> Result<(), AllocError>
    ensures { OnOk result (
        text.new.items ≡ text.old.items ++ path_line path.now (times.whole - times.nested)) }
{
    text.extend_from_slice(path)?;
    push_count(text, b" ", times.own())?;
    text.extend_from_slice(b"\n")
}

/// Returns the lines of all paths.
fn lines_of(alloc: Global, stacks: &Stacks) -> Result<Vec<u8>, AllocError>
    ensures { IfOk result (λ text. text.items ≡ flat_map row_text (rows_of stacks.now)) }
{
    let mut text = Vec::new(alloc);
    'rows: for (path, times) in stacks.rows.iter() {
        push_line(&mut text, path, *times)?;
    }
    Ok(text)
}

/// Prints the folded stacks of a file, which tools that draw flame graphs read: a line for each path of scopes, from the top
/// level down, with its own time in nanoseconds in all frames together. That is the durations of the scopes with the path, less
/// the durations of the scopes directly within them; a sum that doesn't fit `u64` is `u64::MAX`, and a difference that is
/// negative is 0. The names of a path are separated by `;`, and a blank separates the path and the number. A name is that by the
/// details of the [overview](crate::read_overview), or `#` and the id, with a `_` in place of each `;`, each blank and each
/// control character. The paths are in the order in which they are first met.
///
/// The wanted threads of the wanted frames count. Returns whether there is one.
///
/// Fails as [`print_trace`](crate::print_trace) does; only the streams that count have to consist of scopes. A line needs all
/// frames, so nothing is printed then, except that a prefix of the lines is written if a write fails.
pub fn print_folded<S: Source, D: Drain>(
    alloc: Global,
    overview: &Overview,
    source: &mut S,
    drain: &mut D,
    wanted: &Wanted,
) -> Result<bool, FileError>
    requires source { CanFail S.failures source.old }
    requires drain { CanFail D.failures drain.old }
    ensures ok { IfOk result (λ found.
        IsPrinted (IsFolded overview.now.details wanted.now found) (S.remaining source.old)
        (S.remaining source.new) (D.contents drain.old) (D.contents drain.new)) }
    ensures err { IfErr result (λ e.
        IsStopped IsNoText (RefusesTaken wanted.now) (S.remaining source.old)
        (S.remaining source.new) (D.contents drain.old) (D.contents drain.new) e
        ⊎ ((e ≡ FileError.Io)
        × IsCutOff (IsAnyFolded overview.now.details wanted.now) (S.remaining source.old)
        (S.remaining source.new) (D.contents drain.old) (D.contents drain.new))) }
    // `Io` means that the reader or the writer failed in this call, or that the writer took no bytes.
    ensures io { (result ≡ Err FileError.Io) → (S.failures source.new ≡ S.failures source.old + 1)
        ⊎ ((D.failures drain.new ≡ D.failures drain.old + 1) ⊎ TookNothing D.takes drain.new) }
    ensures failures { OnOk result (
        (S.failures source.new ≡ S.failures source.old)
        × (D.failures drain.new ≡ D.failures drain.old)) }
{
    let mut folding = Folding {
        stacks: Stacks::new(alloc, &overview.details),
        wanted,
        is_found: false,
    };
    list_frames(alloc, source, drain, wanted.frames, &mut folding)?;
    let lines = lines_of(alloc, &folding.stacks)?;
    write_all(drain, &lines)?;
    Ok(folding.is_found)
}
