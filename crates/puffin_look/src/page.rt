//! Prints the data of a page that shows frames.

ghost use Rattle.std.specs.Prelude.{◌≡◌, ◌++◌, ◌+◌, ◌⊎◌, None, List, OnOk, IfOk, IfErr};
ghost use Rattle.std.specs.FinMap as map;
ghost use Rattle.puffin_data.specs.declared.error.Error.{Error};
ghost use Rattle.puffin_data.specs.Device.{CanFail, TookNothing};
ghost use Rattle.puffin_threads.specs.Details.{details_of};
ghost use Rattle.puffin_frames.specs.Frame.Contents.{streams_held};
ghost use Rattle.puffin_look.specs.Printed.{IsPrinted, IsStopped};
ghost use Rattle.puffin_look.specs.Trees.{Tree, AreSpelled, AreUnread};
ghost use Rattle.puffin_look.specs.Wanted.{RefusesUnread};
ghost use Rattle.puffin_look.specs.Page.{embedded_byte, embedded, element, id_json, details_json, details_elements, head_json, frame_json, is_chosen, chosen_streams, IsPageData};

use crate::listing::{Listing, list_frames};
use crate::overview::Overview;
use crate::page_rows::PageRows;
use crate::quoting::push_member;
use crate::text::{push_count, push_moment, push_number};
use crate::wanted::{Indices, is_within};
use puffin_data::data::{Drain, ScopeId, Source};
use puffin_data::{FileError, FrameIndex, Result as Answer};
use puffin_frames::frame_data::{FrameMeta, UnpackedFrameData};
use puffin_threads::scope_details::{ScopeCollection, ScopeDetails};
use std::alloc::{AllocError, Global};

/// Which frames a page has.
#[derive(Debug, Drop)]
pub enum PageFrames {
    /// Those with indices from the first to the last.
    Within(Indices),
    /// Those with these indices.
    These(Vec<FrameIndex>),
}

impl PageFrames {
    /// Returns whether the page has the frame with this index.
    fn has(&self, index: FrameIndex) -> bool
        ensures { result ≡ is_chosen self.now index }
    {
        match self {
            PageFrames::Within(indices) => is_within(Some(*indices), index),
            PageFrames::These(indices) => indices.contains(&index),
        }
    }
}

/// Appends a byte of JSON, or an escape of a `<`.
fn push_embedded_byte(text: &mut Vec<u8>, byte: u8) -> Result<(), AllocError>
    ensures { OnOk result (text.new.items ≡ text.old.items ++ embedded_byte byte) }
{
    if byte == b'<' {
        text.extend_from_slice(b"\\u003c")
    } else {
        Ok(text.push(byte)?)
    }
}

/// Appends JSON with each `<` in an escape, so that nothing ends the element that it stands in.
fn push_embedded(text: &mut Vec<u8>, json: &[u8]) -> Result<(), AllocError>
    ensures { OnOk result (text.new.items ≡ text.old.items ++ embedded json.now) }
{
    for &byte in json {
        push_embedded_byte(text, byte)?;
    }
    Ok(())
}

/// Appends an element of this class with JSON.
fn push_element(text: &mut Vec<u8>, class: &[u8], json: &[u8]) -> Result<(), AllocError>
    ensures { OnOk result (text.new.items ≡ text.old.items ++ element class.now json.now) }
{
    text.extend_from_slice(b"<script type=\"application/json\" class=\"")?;
    text.extend_from_slice(class)?;
    text.extend_from_slice(b"\">")?;
    push_embedded(text, json)?;
    text.extend_from_slice(b"</script>\n")
}

/// Appends an id, or `null`.
fn push_id(text: &mut Vec<u8>, id: Option<ScopeId>) -> Result<(), AllocError>
    ensures { OnOk result (text.new.items ≡ text.old.items ++ id_json id) }
{
    match id {
        Some(id) => push_number(text, id.get() as u64),
        None => text.extend_from_slice(b"null"),
    }
}

/// Appends a scope's id, name, file and line.
fn push_details(text: &mut Vec<u8>, details: &ScopeDetails) -> Result<(), AllocError>
    ensures { OnOk result (
        text.new.items ≡ text.old.items ++ details_json (details_of details.now)) }
{
    text.extend_from_slice(b"[")?;
    push_id(text, details.scope_id())?;
    push_member(text, b",", details.name().as_str())?;
    push_member(text, b",", details.file_path.as_str())?;
    push_count(text, b",", details.line_nr as u64)?;
    text.extend_from_slice(b"]")
}

/// Returns an element for the details of each scope, in ascending order of id.
fn details_text(alloc: Global, known: &ScopeCollection) -> Result<Vec<u8>, AllocError>
    ensures { IfOk result (λ text. text.items ≡ details_elements known.now) }
{
    let mut text = Vec::new(alloc);
    'details: for (_, details) in known.scopes_by_id().iter() {
        let mut json = Vec::new(alloc);
        push_details(&mut json, details)?;
        push_element(&mut text, b"details", &json)?;
    }
    Ok(text)
}

/// Appends a frame's index, start and stop.
fn push_head(text: &mut Vec<u8>, meta: &FrameMeta) -> Result<(), AllocError>
    ensures { OnOk result (text.new.items ≡ text.old.items ++ head_json meta.now) }
{
    push_count(text, b"[", meta.frame_index)?;
    push_moment(text, b",\"", meta.range_ns.0)?;
    push_moment(text, b"\",\"", meta.range_ns.1)?;
    text.extend_from_slice(b"\"")
}

/// Returns a frame as JSON. Fails with the first fault of a stream, or with `Memory`.
fn json_of(alloc: Global, frame: &UnpackedFrameData) -> Answer<Vec<u8>>
    ensures ok { IfOk result (λ json. (trees : List Tree)
        × AreSpelled (map.entries (streams_held frame.now)) trees
        × (json.items ≡ frame_json (record { meta = frame.now.meta; trees = trees }))) }
    ensures err { IfErr result (λ e.
        (e ≡ Error.Memory) ⊎ AreUnread (map.entries (streams_held frame.now)) e) }
{
    let mut rows = PageRows {
        text: Vec::new(alloc),
        begin: frame.meta.range_ns.0,
    };
    push_head(&mut rows.text, &frame.meta)?;
    'streams: for (thread, info) in frame.thread_streams.iter() {
        rows.add_stream(thread, info)?;
    }
    let mut json = rows.text;
    json.extend_from_slice(b"]")?;
    Ok(json)
}

/// The elements that are still to be written, and which frames have one.
#[derive(Drop)]
struct Page<'p> {
    text: Vec<u8>,
    frames: &'p PageFrames,
}

impl<'p> Listing for Page<'p> {
    ghost use Rattle.puffin_look.specs.inner.Pages.{TakesPage, RefusesFrame, page_none, page_more};

    ghost text = { λ v. v.text.items };

    ghost takes = { TakesPage };

    ghost refuses = { RefusesFrame };

    ghost takes_none = { page_none };

    ghost takes_more = { page_more };

    fn add(&mut self, frame: &UnpackedFrameData) -> Answer<()> {
        if self.frames.has(frame.meta.frame_index) {
            let json = json_of(*self.text.allocator(), frame)?;
            push_element(&mut self.text, b"frame", &json)?;
        }
        Ok(())
    }

    fn pending(&self) -> &[u8] {
        &self.text
    }

    fn clear(&mut self) {
        self.text.clear();
    }
}

/// Prints the data of a page, which stand within an HTML file, as `docs/TOOLS.md` describes them: an element for the details of
/// each scope, by the [overview](crate::read_overview), and then one for each of these frames, in the order of the file, as soon
/// as it was read. Each holds an array in JSON without a `<`, so no name or text ends it.
///
/// Fails as [`print_trace`](crate::print_trace) does; only the streams of these frames have to consist of scopes.
pub fn print_page_data<S: Source, D: Drain>(
    alloc: Global,
    overview: &Overview,
    source: &mut S,
    drain: &mut D,
    frames: &PageFrames,
) -> Result<(), FileError>
    requires source { CanFail S.failures source.old }
    requires drain { CanFail D.failures drain.old }
    ensures ok { OnOk result (
        IsPrinted (IsPageData overview.now.details frames.now) (S.remaining source.old)
        (S.remaining source.new) (D.contents drain.old) (D.contents drain.new)) }
    ensures err { IfErr result (λ e.
        IsStopped (IsPageData overview.now.details frames.now)
        (RefusesUnread None (chosen_streams frames.now)) (S.remaining source.old)
        (S.remaining source.new) (D.contents drain.old) (D.contents drain.new) e) }
    // `Io` means that the reader or the writer failed in this call, or that the writer took no bytes.
    ensures io { (result ≡ Err FileError.Io) → (S.failures source.new ≡ S.failures source.old + 1)
        ⊎ ((D.failures drain.new ≡ D.failures drain.old + 1) ⊎ TookNothing D.takes drain.new) }
    ensures failures { OnOk result (
        (S.failures source.new ≡ S.failures source.old)
        × (D.failures drain.new ≡ D.failures drain.old)) }
{
    let mut page = Page {
        text: details_text(alloc, &overview.details)?,
        frames,
    };
    list_frames(alloc, source, drain, None, &mut page)
}
