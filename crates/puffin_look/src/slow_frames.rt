//! Shows what takes the most time in the slowest frames of a file.

ghost use Rattle.std.specs.Prelude.{◌≡◌, ◌+◌, ◌⊎◌, [], codes, false, map, OnOk, IfOk, IfErr, Err};
ghost use Rattle.puffin_data.specs.declared.error.Error.{Error};
ghost use Rattle.puffin_data.specs.Device.{CanFail, TookNothing};
ghost use Rattle.puffin_look.specs.OpenFrame.{open_of};
ghost use Rattle.puffin_look.specs.Trees.{AreUnread};
ghost use Rattle.puffin_look.specs.Wanted.{wanted_streams, RefusesTaken};
ghost use Rattle.puffin_look.specs.Printed.{IsPrinted, IsStopped, IsCutOff};
ghost use Rattle.puffin_look.specs.Slowest.{IsNoText};
ghost use Rattle.puffin_look.specs.Forms.{list_text};
ghost use Rattle.puffin_look.specs.SlowFrames.{head_cells, head_text, between_steps, tail_text, AreSlowFrames};
ghost use Rattle.puffin_look.specs.inner.Rows.{cell_of};
ghost use Rattle.puffin_look.specs.inner.SlowlyTaken.{ReadsSlow};

use crate::folded::Folding;
use crate::heavy::push_steps;
use crate::lines::{Form, Lines};
use crate::listing::{Listing, list_frames};
use crate::objects::push_members;
use crate::overview::Overview;
use crate::readable::{push_grouped, push_readable};
use crate::rows::{Cell, Value};
use crate::slowest::{Timed, keep};
use crate::stacks::Stacks;
use crate::text::push_count;
use crate::top::length_of;
use crate::wanted::Wanted;
use json::Writer;
use puffin_data::data::{Drain, Source, write_all};
use puffin_data::{FileError, NanoSecond, Result as Answer};
use puffin_frames::frame_data::{FrameMeta, UnpackedFrameData};
use puffin_threads::scope_details::ScopeCollection;
use std::alloc::{AllocError, Global};

/// A frame's duration, and what is printed of it.
#[derive(Drop)]
pub(crate) struct SlowFrame {
    pub duration_ns: NanoSecond,
    pub text: Vec<u8>,
}

impl Timed for SlowFrame {
    ghost use Rattle.puffin_look.specs.inner.SlowlyTaken.{held_duration};

    ghost duration = { held_duration };

    fn duration_ns(&self) -> NanoSecond {
        self.duration_ns
    }
}

/// Returns a frame's line.
fn line_of(alloc: Global, meta: &FrameMeta) -> Result<Vec<u8>, AllocError>
    ensures { IfOk result (λ text. text.items ≡ head_text Form.Table meta.now) }
{
    let mut text = Vec::new(alloc);
    push_count(&mut text, b"frame ", meta.frame_index)?;
    text.extend_from_slice(b": ")?;
    push_readable(&mut text, length_of(meta.range_ns))?;
    text.extend_from_slice(b", scopes ")?;
    push_grouped(&mut text, meta.num_scopes as u64)?;
    text.extend_from_slice(b"\n")?;
    Ok(text)
}

/// Returns the cells of a frame's object.
fn cells_of(meta: &FrameMeta) -> [Cell; 3]
    ensures { map cell_of result ≡ head_cells meta.now }
{
    [
        ("frame", Value::Number(meta.frame_index)),
        ("duration", Value::Time(Some(length_of(meta.range_ns)))),
        ("scopes", Value::Number(meta.num_scopes as u64)),
    ]
}

/// Returns the beginning of a frame's object, up to its path.
fn object_of(alloc: Global, meta: &FrameMeta) -> Result<Vec<u8>, AllocError>
    ensures { IfOk result (λ text. text.items ≡ head_text Form.Json meta.now) }
{
    let mut writer = Writer::new(Vec::new(alloc));
    writer.begin_object()?;
    push_members(alloc, &mut writer, &cells_of(meta))?;
    writer.key("path")?;
    writer.begin_array()?;
    Ok(writer.into_inner())
}

/// Returns a list that begins with a frame's index, its duration and the number of its scopes.
fn head_of(alloc: Global, form: Form, meta: &FrameMeta) -> Result<Lines, AllocError>
    ensures text { IfOk result (λ lines. lines.text.items ≡ head_text form meta.now) }
    ensures separator { IfOk result (λ lines. lines.separator.now ≡ between_steps form) }
    ensures none { IfOk result (λ lines. lines.has_any ≡ false) }
{
    let (text, separator): (Vec<u8>, &'static [u8]) = match form {
        Form::Table => (line_of(alloc, meta)?, b""),
        Form::Json => (object_of(alloc, meta)?, b","),
    };
    Ok(Lines {
        text,
        separator,
        has_any: false,
    })
}

/// Returns what stands behind a frame's path.
fn tail_of(form: Form) -> &'static [u8]
    ensures { result.now ≡ tail_text form }
{
    match form {
        Form::Table => b"",
        Form::Json => b"]}",
    }
}

/// Returns what is printed of a frame: its line, and those of the path of its wanted threads that takes the most time.
fn text_of(
    alloc: Global,
    form: Form,
    known: &ScopeCollection,
    wanted: &Wanted,
    frame: &UnpackedFrameData,
) -> Answer<Vec<u8>>
    ensures ok { IfOk result (λ text.
        ReadsSlow form known.now wanted.now (open_of frame.now) text.items) }
    ensures err { IfErr result (λ e.
        (e ≡ Error.Memory) ⊎ AreUnread (wanted_streams wanted.now (open_of frame.now)) e) }
{
    let mut folding = Folding {
        stacks: Stacks::new(alloc, known),
        wanted,
        is_found: false,
    };
    folding.add(frame)?;
    let whole = length_of(frame.meta.range_ns);
    let mut lines = head_of(alloc, form, &frame.meta)?;
    push_steps(alloc, form, &mut lines, &folding.stacks.rows, whole)?;
    let mut text = lines.text;
    text.extend_from_slice(tail_of(form))?;
    Ok(text)
}

/// The slowest frames so far, the slowest first.
#[derive(Drop)]
struct SlowFrames<'t> {
    rows: Vec<SlowFrame>,
    limit: usize,
    form: Form,
    known: &'t ScopeCollection,
    wanted: &'t Wanted,
}

impl<'t> Listing for SlowFrames<'t> {
    ghost use Rattle.std.specs.Prelude.{[]};
    ghost use Rattle.puffin_look.specs.inner.Rows.{cell_of};
    ghost use Rattle.puffin_look.specs.inner.SlowlyTaken.{TakesSlow, RefusesFrame, slow_none, slow_more};

    ghost text = { λ _. [] };

    ghost takes = { TakesSlow };

    ghost refuses = { RefusesFrame };

    ghost takes_none = { slow_none };

    ghost takes_more = { slow_more };

    fn add(&mut self, frame: &UnpackedFrameData) -> Answer<()> {
        let alloc = *self.rows.allocator();
        let text = text_of(alloc, self.form, self.known, self.wanted, frame)?;
        let row = SlowFrame {
            duration_ns: frame.duration_ns(),
            text,
        };
        keep(&mut self.rows, self.limit, row)?;
        Ok(())
    }

    fn pending(&self) -> &[u8] {
        &[]
    }

    fn clear(&mut self) {}
}

/// Returns the list of frames.
fn list_of(alloc: Global, form: Form, rows: &[SlowFrame]) -> Result<Vec<u8>, AllocError>
    ensures { IfOk result (λ text.
        text.items ≡ list_text form (codes "") (map (λ row. row.text.items) rows.now)) }
{
    let mut lines = Lines::new(alloc, form, b"")?;
    for row in rows {
        lines.add(&row.text)?;
    }
    lines.closed(form)
}

/// Prints the `limit` slowest of the wanted frames, the slowest first, and of equally slow frames the one that comes first in the
/// file. For each there is a line with its index, its duration and the number of its scopes, and then the path of names that
/// takes the most time, all wanted threads together: from the top level down, always the name whose scopes take the most of those
/// directly within, but below the top level only as long as that is half of the time around it. Names and times are as in
/// [`print_folded`](crate::print_folded).
///
/// Fails as [`print_folded`](crate::print_folded) does, and prints nothing then, except that a prefix is written if a write
/// fails.
pub fn print_slow_frames<S: Source, D: Drain>(
    alloc: Global,
    overview: &Overview,
    source: &mut S,
    drain: &mut D,
    wanted: &Wanted,
    limit: usize,
    form: Form,
) -> Result<(), FileError>
    requires source { CanFail S.failures source.old }
    requires drain { CanFail D.failures drain.old }
    ensures ok { OnOk result (
        IsPrinted (AreSlowFrames form overview.now.details wanted.now limit)
        (S.remaining source.old) (S.remaining source.new) (D.contents drain.old)
        (D.contents drain.new)) }
    ensures err { IfErr result (λ e.
        IsStopped IsNoText (RefusesTaken wanted.now) (S.remaining source.old)
        (S.remaining source.new) (D.contents drain.old) (D.contents drain.new) e
        ⊎ ((e ≡ FileError.Io)
        × IsCutOff (AreSlowFrames form overview.now.details wanted.now limit)
        (S.remaining source.old) (S.remaining source.new) (D.contents drain.old)
        (D.contents drain.new))) }
    // `Io` means that the reader or the writer failed in this call, or that the writer took no bytes.
    ensures io { (result ≡ Err FileError.Io) → (S.failures source.new ≡ S.failures source.old + 1)
        ⊎ ((D.failures drain.new ≡ D.failures drain.old + 1) ⊎ TookNothing D.takes drain.new) }
    ensures failures { OnOk result (
        (S.failures source.new ≡ S.failures source.old)
        × (D.failures drain.new ≡ D.failures drain.old)) }
{
    let mut slow = SlowFrames {
        rows: Vec::new(alloc),
        limit,
        form,
        known: &overview.details,
        wanted,
    };
    list_frames(alloc, source, drain, wanted.frames, &mut slow)?;
    let text = list_of(alloc, form, &slow.rows)?;
    write_all(drain, &text)
}
