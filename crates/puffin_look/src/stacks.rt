//! The times of the paths of scopes.

ghost use Rattle.std.specs.Prelude.{◌≡◌, ◌++◌, ◌-◌, ◌<◌, ◌⊎◌, [], List, ℕ, Some, map, slice_get, OnOk, IfOk, IfErr, IfSome};
ghost use Rattle.std.specs.Map.{keys_of};
ghost use Rattle.puffin_data.specs.declared.error.Error.{Error};
ghost use Rattle.puffin_data.specs.Forest.{Forest};
ghost use Rattle.puffin_data.specs.Forest.Spelling.{Spells};
ghost use Rattle.puffin_data.specs.Honesty.{facts_of};
ghost use Rattle.puffin_data.specs.Walk.{IsFault};
ghost use Rattle.puffin_look.specs.Folded.{shown_byte, label, front, below, parts_at, forest_parts};
ghost use Rattle.puffin_look.specs.inner.Stacks.{no_times, times_with, with_part, rows_in, rows_of, path_at, HasMoreParts};

use crate::names::{details_under, number_name};
use indexmap::IndexMap;
use puffin_data::Result as Answer;
use puffin_data::data::{RawScope, StreamInfo, Visitor, walk_with};
use puffin_threads::scope_details::ScopeCollection;
use std::alloc::{AllocError, Global};

/// The times of a path, in nanoseconds. A sum that doesn't fit `u64` is `u64::MAX`.
#[derive(Clone, Copy, Debug)]
pub(crate) struct Times {
    /// The durations of the scopes with the path.
    pub whole: u64,
    /// The durations of the scopes directly within these.
    pub nested: u64,
}

impl Times {
    /// Returns the times of a path without scopes.
    fn none() -> Times
        ensures { result ≡ no_times }
    {
        Times {
            whole: 0,
            nested: 0,
        }
    }

    /// Adds durations.
    fn with(self, whole: u64, nested: u64) -> Times
        ensures { result ≡ times_with self whole nested }
    {
        Times {
            whole: self.whole.saturating_add(whole),
            nested: self.nested.saturating_add(nested),
        }
    }

    /// Returns the path's own time.
    pub(crate) fn own(self) -> u64
        ensures { result ≡ self.whole - self.nested }
    {
        self.whole.saturating_sub(self.nested)
    }
}

/// Returns a byte, or `_` for a control character, a blank or a `;`.
fn shown(byte: u8) -> u8
    ensures { result ≡ shown_byte byte }
{
    if byte < 33 || byte == b';' || byte == 127 {
        b'_'
    } else {
        byte
    }
}

/// Appends a name, with a `_` in place of each control character, each blank and each `;`.
fn push_shown(text: &mut Vec<u8>, name: &[u8]) -> Result<(), AllocError>
    ensures { OnOk result (text.new.items ≡ text.old.items ++ map shown_byte name.now) }
{
    for &byte in name {
        text.push(shown(byte))?;
    }
    Ok(())
}

/// Appends the name of the scope with this id, or `#` and the id if it has no details.
fn push_label(text: &mut Vec<u8>, known: &ScopeCollection, id: u32) -> Result<(), AllocError>
    requires { 0 < id }
    ensures { OnOk result (text.new.items ≡ text.old.items ++ label known.now id) }
{
    match details_under(known, id) {
        Some(details) => push_shown(text, details.name().as_str().as_bytes()),
        None => {
            let name = number_name(*text.allocator(), id)?;
            push_shown(text, name.as_str().as_bytes())
        }
    }
}

/// Appends the path at a place and a `;`, if there is one.
fn push_outer(
    text: &mut Vec<u8>,
    rows: &IndexMap<Vec<u8>, Times>,
    place: Option<usize>,
) -> Result<(), AllocError>
    ensures { OnOk result (
        text.new.items ≡ text.old.items ++ front (path_at (rows_in rows.now.entries) place)) }
{
    let Some(place) = place else {
        return Ok(());
    };
    let Some((path, _times)) = rows.get_index(place) else {
        return Ok(());
    };
    text.extend_from_slice(path)?;
    text.extend_from_slice(b";")
}

/// Adds durations to the path at a place.
fn grow(rows: &mut IndexMap<Vec<u8>, Times>, place: usize, whole: u64, nested: u64)
    ensures { (path : List ℕ) →
        slice_get (keys_of (rows_in rows.old.entries)) place ≡ Some path →
        rows_in rows.new.entries
        ≡ with_part (rows_in rows.old.entries)
        (record { path = path; whole = whole; nested = nested }) }
{
    if let Some(times) = rows.get_index_mut(place) {
        *times = times.with(whole, nested);
    }
}

/// Adds the duration of a scope to its path, which is added behind the others if it is new. Returns the path's place.
fn add_time(
    alloc: Global,
    rows: &mut IndexMap<Vec<u8>, Times>,
    path: &[u8],
    time: u64,
) -> Result<usize, AllocError>
    ensures rows { OnOk result (
        rows_in rows.new.entries
        ≡ with_part (rows_in rows.old.entries)
        (record { path = path.now; whole = time; nested = 0 })) }
    ensures place { IfOk result (λ place.
        slice_get (keys_of (rows_in rows.new.entries)) place ≡ Some path.now) }
{
    if let Some(place) = rows.get_index_of(path) {
        grow(rows, place, time, 0);
        return Ok(place);
    }
    let place = rows.len();
    let mut own = Vec::new(alloc);
    own.extend_from_slice(path)?;
    rows.insert(own, Times::none().with(time, 0))?;
    Ok(place)
}

/// The times of the paths so far, in the order in which they were met, and what the next ones depend on.
#[derive(Drop)]
pub(crate) struct Stacks<'k> {
    pub rows: IndexMap<Vec<u8>, Times>,
    pub known: &'k ScopeCollection,
    /// The path of the scope that was met last.
    pub path: Vec<u8>,
}

impl<'k> Stacks<'k> {
    /// Returns the stacks of no scopes, whose names are by these details.
    pub(crate) fn new(alloc: Global, known: &'k ScopeCollection) -> Stacks<'k>
        ensures rows { rows_of result ≡ [] }
        ensures known { result.known.now ≡ known.now }
    {
        Stacks {
            rows: IndexMap::new(alloc),
            known,
            path: Vec::new(alloc),
        }
    }

    /// Makes the path of a scope, below the path at a place.
    fn set_path(&mut self, outer: Option<usize>, id: u32) -> Result<(), AllocError>
        requires { 0 < id }
        ensures path { OnOk result (
            self.new.path.items
            ≡ below (path_at (rows_of self.old) outer) (label self.old.known.now id)) }
        ensures rows { OnOk result (self.new.rows ≡ self.old.rows) }
        ensures known { OnOk result (self.new.known ≡ self.old.known) }
    {
        self.path.clear();
        push_outer(&mut self.path, &self.rows, outer)?;
        push_label(&mut self.path, self.known, id)
    }

    /// Adds the duration of a scope to its path, and to what is nested in the path at the place `outer`.
    fn add_scope(&mut self, outer: Option<usize>, id: u32, time: u64) -> Result<usize, AllocError>
        requires id { 0 < id }
        requires outer { IfSome outer (λ i.
            (path : List ℕ) × (slice_get (keys_of (rows_of self.old)) i ≡ Some path)) }
        ensures added { OnOk result (
            HasMoreParts self.old self.new (
            parts_at (path_at (rows_of self.old) outer) (label self.old.known.now id) time)) }
        ensures place { IfOk result (λ place.
            path_at (rows_of self.new) (Some place)
            ≡ Some (below (path_at (rows_of self.old) outer) (label self.old.known.now id))) }
    {
        self.set_path(outer, id)?;
        let alloc = *self.path.allocator();
        let place = add_time(alloc, &mut self.rows, &self.path, time)?;
        if let Some(outer) = outer {
            grow(&mut self.rows, outer, 0, time);
        }
        Ok(place)
    }

    /// Adds the scopes of a stream. Fails with the first fault of the stream, or with `Memory`.
    pub(crate) fn add_stream(&mut self, info: &StreamInfo) -> Answer<()>
        ensures ok { OnOk result ((forest : Forest)
            × Spells (facts_of info.now).form (facts_of info.now).bytes forest
            × HasMoreParts self.old self.new (forest_parts self.old.known.now forest)) }
        ensures err { IfErr result (λ e.
            (e ≡ Error.Memory) ⊎ IsFault (facts_of info.now).form (facts_of info.now).bytes e) }
    {
        let alloc = *self.path.allocator();
        let mut tries = 0;
        let stream = &info.stream;
        walk_with(alloc, stream.form(), stream.bytes(), self, None, &mut tries)
    }
}

impl<'s, 'k> Visitor<'s> for Stacks<'k> {
    ghost use Rattle.puffin_look.specs.inner.Stacks.{TakesScopes, StandsFor, scopes_none, scopes_more, still_stands};

    /// The place of an open scope's path.
    type Within = Option<usize>;

    ghost takes = { TakesScopes };

    ghost refuses = { λ _ _ _. ⊥ };

    ghost stands_for = { StandsFor };

    ghost takes_none = { scopes_none };

    ghost takes_more = { scopes_more };

    ghost still_stands = { still_stands };

    fn enter(&mut self, within: Option<usize>, scope: &RawScope<'s>) -> Answer<Option<usize>> {
        let time = scope.stop.abs_diff(scope.start);
        let place = self.add_scope(within, scope.id, time)?;
        Ok(Some(place))
    }
}
