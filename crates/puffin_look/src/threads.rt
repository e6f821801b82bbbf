//! Lists the threads of a file.

ghost use Rattle.std.specs.Prelude.{◌≡◌, ◌++◌, ◌+◌, ◌⊎◌, map, OnOk, IfOk, IfErr};
ghost use Rattle.std.specs.FinMap as tree;
ghost use Rattle.puffin_data.specs.Device.{CanFail, TookNothing};
ghost use Rattle.puffin_threads.specs.Thread.ThreadKey.{by_key, key_of};
ghost use Rattle.puffin_look.specs.Printed.{IsPrinted, IsStopped, RefusesNone};
ghost use Rattle.puffin_look.specs.inner.Taken.{fails_outside};
ghost use Rattle.puffin_look.specs.ThreadLines.{start_text, thread_word, thread_text, thread_cells, thread_line, thread_list, IsThreadList};
ghost use Rattle.puffin_look.specs.inner.Lining.{Adds};
ghost use Rattle.puffin_look.specs.inner.Rows.{cell_of};

use crate::escapes::push_escaped;
use crate::lines::{Form, Lines};
use crate::listing::{Listing, list_behind};
use crate::rows::{Cell, Value, add_row};
use crate::text::push_time;
use crate::top::length_of;
use puffin_data::data::{Drain, Source, write_all};
use puffin_data::{FileError, Result as Answer};
use puffin_frames::frame_data::UnpackedFrameData;
use puffin_threads::thread_profiler::ThreadInfo;
use puffin_view::profile_view::read_magic;
use puffin_view::thread_totals::{AllTotals, ThreadTotals};
use std::alloc::{AllocError, Global};

impl Listing for AllTotals {
    ghost use Rattle.std.specs.Prelude.{[]};
    ghost use Rattle.puffin_look.specs.inner.Taken.{TakesTotals, totals_none, totals_more};

    ghost text = { λ _. [] };

    ghost takes = { TakesTotals };

    ghost refuses = { λ _ _ _. ⊥ };

    ghost takes_none = { totals_none };

    ghost takes_more = { totals_more };

    fn add(&mut self, frame: &UnpackedFrameData) -> Answer<()> {
        AllTotals::add(self, frame)
    }

    fn pending(&self) -> &[u8] {
        &[]
    }

    fn clear(&mut self) {}
}

/// Appends a thread's start, or `-` if it is unknown.
pub(crate) fn push_start(text: &mut Vec<u8>, thread: &ThreadInfo) -> Result<(), AllocError>
    ensures { OnOk result (
        text.new.items ≡ text.old.items ++ start_text (key_of thread.now).start) }
{
    match thread.start_time_ns {
        Some(start) => push_time(text, start),
        None => text.extend_from_slice(b"-"),
    }
}

/// Appends a thread as `report` takes it, with escapes for control characters.
pub(crate) fn push_thread(text: &mut Vec<u8>, thread: &ThreadInfo) -> Result<(), AllocError>
    ensures { OnOk result (
        text.new.items ≡ text.old.items ++ thread_text (key_of thread.now)) }
{
    push_start(text, thread)?;
    text.extend_from_slice(b":")?;
    push_escaped(text, thread.name.as_bytes())
}

/// Returns a thread as [`report`](puffin_report::print_report) takes it.
fn word_of(alloc: Global, thread: &ThreadInfo) -> Result<Vec<u8>, AllocError>
    ensures { IfOk result (λ word. word.items ≡ thread_word (key_of thread.now)) }
{
    let mut word = Vec::new(alloc);
    push_start(&mut word, thread)?;
    word.extend_from_slice(b":")?;
    word.extend_from_slice(thread.name.as_bytes())?;
    Ok(word)
}

/// The first line of a table.
const COLUMN_NAMES: &[u8] =
    b"        frames        scopes         bytes                      start    duration  thread\n";

/// Returns the cells of a thread's totals.
fn cells_of(totals: &ThreadTotals) -> [Cell; 5]
    ensures { map cell_of result ≡ thread_cells totals.now }
{
    [
        ("frames", Value::Number(totals.frames)),
        ("scopes", Value::Number(totals.scopes)),
        ("bytes", Value::Number(totals.bytes)),
        ("start", Value::Moment(totals.range_ns.0)),
        ("duration", Value::Time(Some(length_of(totals.range_ns)))),
    ]
}

/// Adds a thread's row to a list.
fn push_row(
    form: Form,
    lines: &mut Lines,
    thread: &ThreadInfo,
    totals: &ThreadTotals,
) -> Result<(), AllocError>
    ensures { OnOk result (
        Adds lines.old lines.new (thread_line form (key_of thread.now, totals.now))) }
{
    let word = word_of(*lines.text.allocator(), thread)?;
    add_row(lines, form, &cells_of(totals), Some(("thread", &word)))
}

/// Returns the list of all threads.
fn text_of(alloc: Global, form: Form, threads: &AllTotals) -> Result<Vec<u8>, AllocError>
    ensures { IfOk result (λ text. text.items
        ≡ thread_list form (tree.entries (by_key threads.now.totals.entries))) }
{
    let mut lines = Lines::new(alloc, form, COLUMN_NAMES)?;
    'threads: for (thread, totals) in threads.totals.iter() {
        push_row(form, &mut lines, thread, totals)?;
    }
    lines.closed(form)
}

/// Returns whether a call failed because the reader, the writer or memory did.
pub(crate) fn fails_outside(answer: &Result<(), FileError>) -> bool
    ensures { result ≡ fails_outside answer.now }
{
    matches!(answer, Err(FileError::Io | FileError::Memory))
}

/// Prints the threads of a file, in their order: for each its frames, scopes and bytes, when its first scope began and how long
/// it was until its last one ended, and `START:NAME` as [`report`](puffin_report::print_report) takes it.
///
/// Fails with the first fault of the file, as [`FrameReader::next`](puffin_view::profile_view::FrameReader::next) does, or with
/// `Compressed` or `BadStreams` for a frame that can't be unpacked. The list of the threads in the frames before it is then
/// printed, or nothing if the file has no letters. Fails with `Memory` or, if a read fails, with `Io`, and then prints nothing;
/// or with `Io` if a write fails, and then a prefix of the list is written.
pub fn print_threads<S: Source, D: Drain>(
    alloc: Global,
    source: &mut S,
    drain: &mut D,
    form: Form,
) -> Result<(), FileError>
    requires source { CanFail S.failures source.old }
    requires drain { CanFail D.failures drain.old }
    ensures ok { OnOk result (
        IsPrinted (IsThreadList form) (S.remaining source.old) (S.remaining source.new)
        (D.contents drain.old) (D.contents drain.new)) }
    ensures err { IfErr result (λ e.
        IsStopped (IsThreadList form) RefusesNone (S.remaining source.old) (S.remaining source.new)
        (D.contents drain.old) (D.contents drain.new) e) }
    // `Io` means that the reader or the writer failed in this call, or that the writer took no bytes.
    ensures io { (result ≡ Err FileError.Io) → (S.failures source.new ≡ S.failures source.old + 1)
        ⊎ ((D.failures drain.new ≡ D.failures drain.old + 1) ⊎ TookNothing D.takes drain.new) }
    ensures failures { OnOk result (
        (S.failures source.new ≡ S.failures source.old)
        × (D.failures drain.new ≡ D.failures drain.old)) }
{
    let mut threads = AllTotals::new(alloc);
    read_magic(source)?;
    let answer = list_behind(alloc, source, drain, None, &mut threads);
    if fails_outside(&answer) {
        return answer;
    }
    let text = text_of(alloc, form, &threads)?;
    write_all(drain, &text)?;
    answer
}
