//! Counts the scopes of a file by name.

ghost use Rattle.std.specs.Prelude.{◌≡◌, ◌++◌, ◌-◌, ◌<◌, ◌⊎◌, [], List, ℕ, true, false, Some, map, slice_get, OnOk, IfOk, IfErr, IfSome};
ghost use Rattle.std.specs.Map.{keys_of};
ghost use Rattle.puffin_data.specs.declared.error.Error.{Error};
ghost use Rattle.puffin_data.specs.Forest.{Forest};
ghost use Rattle.puffin_data.specs.Forest.Spelling.{Spells};
ghost use Rattle.puffin_data.specs.Honesty.{facts_of};
ghost use Rattle.puffin_data.specs.Walk.{IsFault};
ghost use Rattle.puffin_data.specs.Walk.FoundScopes.{found_of};
ghost use Rattle.std.specs.FinMap as tree;
ghost use Rattle.puffin_look.specs.Names.{name_or_id};
ghost use Rattle.puffin_look.specs.Top.{behind_name, scope_name, pieces_at, forest_pieces};
ghost use Rattle.puffin_look.specs.inner.Tallies.{no_times, times_with_call, times_with_nested, no_tally, tally_of, with_call, with_nested, rows_in, rows_of, with_row, row_with, name_at, HasMorePieces};

use crate::histogram::Histogram;
use crate::names::{details_under, number_name};
use indexmap::IndexMap;
use puffin_data::Result as Answer;
use puffin_data::data::{RawScope, StreamInfo, Visitor, text_of, walk_with};
use puffin_threads::scope_details::ScopeCollection;
use std::alloc::{AllocError, Global};

/// What is counted under a name. Durations are in nanoseconds. A sum that doesn't fit `u64` is `u64::MAX`.
#[derive(Clone, Copy, Debug)]
pub(crate) struct Times {
    pub calls: u64,
    /// The durations of the calls, together.
    pub total: u64,
    /// The durations of the scopes directly within these, together.
    pub nested: u64,
    /// The least duration, or `u64::MAX` if there is no call.
    pub least: u64,
    pub greatest: u64,
}

impl Times {
    /// Returns the times of no calls.
    fn none() -> Times
        ensures { result ≡ no_times }
    {
        Times {
            calls: 0,
            total: 0,
            nested: 0,
            least: u64::MAX,
            greatest: 0,
        }
    }

    /// Adds a call.
    fn with_call(self, time: u64) -> Times
        ensures { result ≡ times_with_call self time }
    {
        Times {
            calls: self.calls.saturating_add(1),
            total: self.total.saturating_add(time),
            nested: self.nested,
            least: self.least.min(time),
            greatest: self.greatest.max(time),
        }
    }

    /// Adds the duration of a scope directly within a call.
    fn with_nested(self, time: u64) -> Times
        ensures { result ≡ times_with_nested self time }
    {
        Times {
            nested: self.nested.saturating_add(time),
            ..self
        }
    }

    /// Returns the durations of the calls, less those of the scopes directly within them.
    pub(crate) fn own(self) -> u64
        ensures { result ≡ self.total - self.nested }
    {
        self.total.saturating_sub(self.nested)
    }
}

/// What is counted under a name, with the durations of the calls.
#[derive(Drop)]
pub(crate) struct Tally {
    pub times: Times,
    pub histogram: Histogram,
}

impl Tally {
    /// Returns the tally of no calls.
    fn none(alloc: Global) -> Tally
        ensures { tally_of result ≡ no_tally }
    {
        Tally {
            times: Times::none(),
            histogram: Histogram::new(alloc),
        }
    }

    /// Adds a call.
    fn add_call(&mut self, time: u64) -> Result<(), AllocError>
        ensures { OnOk result (tally_of self.new ≡ with_call (tally_of self.old) time) }
    {
        self.histogram.add(time)?;
        self.times = self.times.with_call(time);
        Ok(())
    }

    /// Adds the duration of a scope directly within a call.
    fn add_nested(&mut self, time: u64)
        ensures { tally_of self.new ≡ with_nested (tally_of self.old) time }
    {
        self.times = self.times.with_nested(time);
    }
}

/// Adds a call to the name at a place.
fn add_call(rows: &mut IndexMap<Vec<u8>, Tally>, place: usize, time: u64) -> Result<(), AllocError>
    ensures { OnOk result ((name : List ℕ) →
        slice_get (keys_of (rows_in rows.old.entries)) place ≡ Some name →
        rows_in rows.new.entries ≡ map (row_with
        (record { name = name; is_call = true; time = time })) (rows_in rows.old.entries)) }
{
    let Some(tally) = rows.get_index_mut(place) else {
        return Ok(());
    };
    tally.add_call(time)
}

/// Adds the duration of a scope directly within a call of the name at a place.
fn add_nested(rows: &mut IndexMap<Vec<u8>, Tally>, place: usize, time: u64)
    ensures { (name : List ℕ) →
        slice_get (keys_of (rows_in rows.old.entries)) place ≡ Some name →
        rows_in rows.new.entries ≡ map (row_with
        (record { name = name; is_call = false; time = time })) (rows_in rows.old.entries) }
{
    if let Some(tally) = rows.get_index_mut(place) {
        tally.add_nested(time);
    }
}

/// Returns the place of a name, which is added behind the others if it is new.
fn place_of(
    alloc: Global,
    rows: &mut IndexMap<Vec<u8>, Tally>,
    name: &[u8],
) -> Result<usize, AllocError>
    ensures rows { OnOk result (
        rows_in rows.new.entries ≡ with_row (rows_in rows.old.entries) name.now) }
    ensures place { IfOk result (λ place.
        slice_get (keys_of (rows_in rows.new.entries)) place ≡ Some name.now) }
{
    if let Some(place) = rows.get_index_of(name) {
        return Ok(place);
    }
    let place = rows.len();
    let mut own = Vec::new(alloc);
    own.extend_from_slice(name)?;
    rows.insert(own, Tally::none(alloc))?;
    Ok(place)
}

/// Appends the name of the scope with this id, or `#` and the id if it has no details.
fn push_name(text: &mut Vec<u8>, known: &ScopeCollection, id: u32) -> Result<(), AllocError>
    requires { 0 < id }
    ensures { OnOk result (text.new.items
        ≡ text.old.items ++ name_or_id id (tree.get known.now.by_id id)) }
{
    match details_under(known, id) {
        Some(details) => text.extend_from_slice(details.name().as_str().as_bytes()),
        None => {
            let name = number_name(*text.allocator(), id)?;
            text.extend_from_slice(name.as_str().as_bytes())
        }
    }
}

/// Appends a text in parentheses, unless it is empty.
fn push_behind(text: &mut Vec<u8>, part: &str) -> Result<(), AllocError>
    ensures { OnOk result (text.new.items ≡ text.old.items ++ behind_name part.now) }
{
    if part.is_empty() {
        return Ok(());
    }
    text.extend_from_slice(b" (")?;
    text.extend_from_slice(part.as_bytes())?;
    text.extend_from_slice(b")")
}

/// What is counted under each name so far, in the order in which the names were met, and what the next ones depend on.
#[derive(Drop)]
pub(crate) struct Tallies<'k> {
    pub rows: IndexMap<Vec<u8>, Tally>,
    pub known: &'k ScopeCollection,
    /// Whether scopes with different texts have different names.
    pub texts: bool,
    /// The name of the scope that was met last.
    pub name: Vec<u8>,
}

impl<'k> Tallies<'k> {
    /// Returns the tallies of no scopes, whose names are by these details.
    pub(crate) fn new(alloc: Global, known: &'k ScopeCollection, texts: bool) -> Tallies<'k>
        ensures rows { rows_of result ≡ [] }
        ensures known { result.known.now ≡ known.now }
        ensures texts { result.texts ≡ texts }
    {
        Tallies {
            rows: IndexMap::new(alloc),
            known,
            texts,
            name: Vec::new(alloc),
        }
    }

    /// Makes the name of a scope.
    fn set_name(&mut self, scope: &RawScope) -> Result<(), AllocError>
        requires { 0 < scope.now.id }
        ensures name { OnOk result (self.new.name.items
            ≡ scope_name self.old.known.now self.old.texts (found_of scope.now).span) }
        ensures rows { OnOk result (self.new.rows ≡ self.old.rows) }
        ensures known { OnOk result (self.new.known ≡ self.old.known) }
        ensures texts { OnOk result (self.new.texts ≡ self.old.texts) }
    {
        self.name.clear();
        push_name(&mut self.name, self.known, scope.id)?;
        if self.texts {
            push_behind(&mut self.name, text_of(scope.text))?;
        }
        Ok(())
    }

    /// Adds a call of the name that was made last, and its duration to what is nested in the name at the place `outer`.
    fn add_scope(&mut self, outer: Option<usize>, time: u64) -> Result<usize, AllocError>
        requires outer { IfSome outer (λ i.
            (name : List ℕ) × (slice_get (keys_of (rows_of self.old)) i ≡ Some name)) }
        ensures added { OnOk result (
            HasMorePieces self.old self.new (
            pieces_at (name_at (rows_of self.old) outer) self.old.name.items time)) }
        ensures place { IfOk result (λ place.
            name_at (rows_of self.new) (Some place) ≡ Some self.old.name.items) }
    {
        let alloc = *self.name.allocator();
        let place = place_of(alloc, &mut self.rows, &self.name)?;
        add_call(&mut self.rows, place, time)?;
        if let Some(outer) = outer {
            add_nested(&mut self.rows, outer, time);
        }
        Ok(place)
    }

    /// Adds the scopes of a stream. Fails with the first fault of the stream, or with `Memory`.
    pub(crate) fn add_stream(&mut self, info: &StreamInfo) -> Answer<()>
        ensures ok { OnOk result ((forest : Forest)
            × Spells (facts_of info.now).form (facts_of info.now).bytes forest
            × HasMorePieces self.old self.new (
            forest_pieces self.old.known.now self.old.texts forest)) }
        ensures err { IfErr result (λ e.
            (e ≡ Error.Memory) ⊎ IsFault (facts_of info.now).form (facts_of info.now).bytes e) }
    {
        let alloc = *self.name.allocator();
        let mut tries = 0;
        let stream = &info.stream;
        walk_with(alloc, stream.form(), stream.bytes(), self, None, &mut tries)
    }
}

impl<'s, 'k> Visitor<'s> for Tallies<'k> {
    ghost use Rattle.puffin_look.specs.inner.Tallies.{TakesScopes, StandsFor, scopes_none, scopes_more, still_stands};

    /// The place of an open scope's name.
    type Within = Option<usize>;

    ghost takes = { TakesScopes };

    ghost refuses = { λ _ _ _. ⊥ };

    ghost stands_for = { StandsFor };

    ghost takes_none = { scopes_none };

    ghost takes_more = { scopes_more };

    ghost still_stands = { still_stands };

    fn enter(&mut self, within: Option<usize>, scope: &RawScope<'s>) -> Answer<Option<usize>> {
        self.set_name(scope)?;
        let time = scope.stop.abs_diff(scope.start);
        let place = self.add_scope(within, time)?;
        Ok(Some(place))
    }
}
