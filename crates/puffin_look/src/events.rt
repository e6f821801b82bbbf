//! The events of scopes in a trace.

ghost use Rattle.std.specs.Prelude.{◌≡◌, ◌++◌, ◌+◌, ◌<◌, ◌⊎◌, OnOk, IfErr, codes};
ghost use Rattle.puffin_data.specs.declared.error.Error.{Error};
ghost use Rattle.puffin_data.specs.Forest.{Forest};
ghost use Rattle.puffin_data.specs.Forest.Spelling.{Spells};
ghost use Rattle.puffin_data.specs.Honesty.{facts_of};
ghost use Rattle.puffin_data.specs.Walk.{IsFault};
ghost use Rattle.puffin_data.specs.Walk.FoundScopes.{found_of};
ghost use Rattle.json.specs.Print.{quoted};
ghost use Rattle.puffin_look.specs.Names.{name_or_id};
ghost use Rattle.puffin_look.specs.Trace.{times_text, place_text, labels_text, scope_event, forest_events};
ghost use Rattle.puffin_look.specs.inner.Events.{details_in, IsWithText};

use crate::names::{details_under, number_name};
use crate::overview::Overview;
use crate::quoting::{push_member, push_micros, push_quoted, since};
use crate::text::push_count;
use puffin_data::data::{RawScope, StreamInfo, Visitor, text_of, walk_with};
use puffin_data::{NanoSecond, Result as Answer};
use puffin_threads::scope_details::ScopeDetails;
use std::alloc::AllocError;
use std::sync::Arc;

/// Appends when a scope began, counted from `origin`, and how long it took.
fn push_times(
    text: &mut Vec<u8>,
    origin: NanoSecond,
    start: NanoSecond,
    stop: NanoSecond,
) -> Result<(), AllocError>
    ensures { OnOk result (text.new.items ≡ text.old.items ++ times_text origin start stop) }
{
    push_micros(text, b",\"ts\":", since(origin, start))?;
    push_micros(text, b",\"dur\":", stop.abs_diff(start))
}

/// Appends the name in these details, or without details a `#` and the id, in quotes.
fn push_name(
    text: &mut Vec<u8>,
    details: Option<&Arc<ScopeDetails>>,
    id: u32,
) -> Result<(), AllocError>
    ensures { OnOk result (
        text.new.items ≡ text.old.items ++ quoted (name_or_id id (details_in details.entry))) }
{
    match details {
        Some(details) => push_quoted(text, details.name().as_str()),
        None => {
            let name = number_name(*text.allocator(), id)?;
            push_quoted(text, name.as_str())
        }
    }
}

/// Appends the file and the line in these details, if there are any, and the end of the event.
fn push_place(text: &mut Vec<u8>, details: Option<&Arc<ScopeDetails>>) -> Result<(), AllocError>
    ensures { OnOk result (
        text.new.items ≡ text.old.items ++ place_text (details_in details.entry)) }
{
    if let Some(details) = details {
        push_member(text, b",\"file\":", details.file_path.as_str())?;
        push_count(text, b",\"line\":", details.line_nr as u64)?;
    }
    text.extend_from_slice(b"}}")
}

/// Appends the name behind its label.
fn push_name_member(
    text: &mut Vec<u8>,
    details: Option<&Arc<ScopeDetails>>,
    id: u32,
) -> Result<(), AllocError>
    ensures { OnOk result (text.new.items ≡ text.old.items
        ++ (codes ",\"name\":" ++ quoted (name_or_id id (details_in details.entry)))) }
{
    text.extend_from_slice(b",\"name\":")?;
    push_name(text, details, id)
}

/// Appends a scope's name and arguments, and the end of the event.
fn push_labels(
    text: &mut Vec<u8>,
    details: Option<&Arc<ScopeDetails>>,
    id: u32,
    stored: &[u8],
) -> Result<(), AllocError>
    ensures { OnOk result (
        text.new.items ≡ text.old.items ++ labels_text (details_in details.entry) id stored.now) }
{
    push_name_member(text, details, id)?;
    push_member(text, b",\"args\":{\"text\":", text_of(stored))?;
    push_place(text, details)
}

/// Appends a scope's event.
fn push_scope(
    text: &mut Vec<u8>,
    overview: &Overview,
    tid: u64,
    scope: &RawScope,
) -> Result<(), AllocError>
    requires { 0 < scope.now.id }
    ensures { OnOk result (text.new.items
        ≡ text.old.items ++ scope_event overview.now tid (found_of scope.now).span) }
{
    push_count(text, b",\n{\"ph\":\"X\",\"pid\":1,\"tid\":", tid)?;
    push_times(text, overview.start, scope.start, scope.stop)?;
    let details = details_under(&overview.details, scope.id);
    push_labels(text, details, scope.id, scope.text)
}

/// The events that are still to be written, and what the next ones depend on.
#[derive(Drop)]
pub(crate) struct Events<'o> {
    pub text: Vec<u8>,
    pub overview: &'o Overview,
    /// The number of the thread whose scopes are met.
    pub tid: u64,
}

impl<'s, 'o> Visitor<'s> for Events<'o> {
    ghost use Rattle.std.specs.Prelude.{⊤};
    ghost use Rattle.puffin_look.specs.inner.Events.{TakesScopes, scopes_none, scopes_more};

    type Within = ();

    ghost takes = { TakesScopes };

    ghost refuses = { λ _ _ _. ⊥ };

    ghost stands_for = { λ _ _ _. ⊤ };

    ghost takes_none = { scopes_none };

    ghost takes_more = { scopes_more };

    ghost still_stands = { λ _ _ _ _ _ _ _. tt };

    fn enter(&mut self, _within: (), scope: &RawScope<'s>) -> Answer<()> {
        push_scope(&mut self.text, self.overview, self.tid, scope)?;
        Ok(())
    }
}

impl<'o> Events<'o> {
    /// Appends the events of a stream's scopes. Fails with the first fault of the stream, or with `Memory`.
    pub(crate) fn add_stream(&mut self, info: &StreamInfo) -> Answer<()>
        ensures ok { OnOk result ((forest : Forest)
            × Spells (facts_of info.now).form (facts_of info.now).bytes forest
            × IsWithText self.old self.new
            (forest_events self.old.overview.now self.old.tid forest)) }
        ensures err { IfErr result (λ e.
            (e ≡ Error.Memory) ⊎ IsFault (facts_of info.now).form (facts_of info.now).bytes e) }
    {
        let alloc = *self.text.allocator();
        let mut tries = 0;
        let stream = &info.stream;
        walk_with(alloc, stream.form(), stream.bytes(), self, (), &mut tries)
    }
}
