//! The lines of a frame's scopes.

ghost use Rattle.std.specs.Prelude.{◌≡◌, ◌++◌, ◌+◌, ◌<◌, ◌^◌, ◌⊎◌, map, OnOk, IfErr};
ghost use Rattle.std.specs.FinMap as tree;
ghost use Rattle.puffin_data.specs.declared.error.Error.{Error};
ghost use Rattle.puffin_data.specs.Forest.{Forest};
ghost use Rattle.puffin_data.specs.Forest.Spelling.{Spells};
ghost use Rattle.puffin_data.specs.Honesty.{facts_of};
ghost use Rattle.puffin_data.specs.Walk.{IsFault};
ghost use Rattle.puffin_data.specs.Walk.FoundScopes.{found_of};
ghost use Rattle.puffin_threads.specs.Thread.ThreadKey.{key_of};
ghost use Rattle.puffin_look.specs.Escapes.{escaped};
ghost use Rattle.puffin_look.specs.Names.{name_or_id};
ghost use Rattle.puffin_look.specs.FrameTree.{scope_cells, label_text, nested_line, thread_line, forest_lines, tree_text};
ghost use Rattle.puffin_look.specs.Cells.{length_of};
ghost use Rattle.puffin_look.specs.inner.Rows.{cell_of};
ghost use Rattle.puffin_look.specs.inner.TreeLines.{HasMoreLines};

use crate::columns::{push_indent, push_text};
use crate::escapes::push_escaped;
use crate::names::{details_under, number_name};
use crate::rows::{Cell, Value, push_cells, push_heading};
use crate::threads::push_thread;
use crate::top::length_of;
use puffin_data::data::{RawScope, StreamInfo, Visitor, text_of, walk_with};
use puffin_data::{NanoSecond, Result as Answer};
use puffin_threads::scope_details::ScopeCollection;
use puffin_threads::thread_profiler::ThreadInfo;
use std::alloc::AllocError;

/// Appends the name of the scope with this id, or `#` and the id if it has no details.
fn push_name(text: &mut Vec<u8>, known: &ScopeCollection, id: u32) -> Result<(), AllocError>
    requires { 0 < id }
    ensures { OnOk result (text.new.items
        ≡ text.old.items ++ escaped (name_or_id id (tree.get known.now.by_id id))) }
{
    match details_under(known, id) {
        Some(details) => push_escaped(text, details.name().as_str().as_bytes()),
        None => {
            let name = number_name(*text.allocator(), id)?;
            push_escaped(text, name.as_str().as_bytes())
        }
    }
}

/// What a walk keeps for an open scope, or for a frame: how many scopes those within it are nested in, and its duration.
#[derive(Clone, Copy, Debug)]
pub(crate) struct Outer {
    pub level: usize,
    pub time: u64,
}

/// Appends a scope's name and text, indented by two blanks for each level, and the end of the line.
fn push_label(
    text: &mut Vec<u8>,
    known: &ScopeCollection,
    level: usize,
    scope: &RawScope,
) -> Result<(), AllocError>
    requires { 0 < scope.now.id }
    ensures text { OnOk result (text.new.items
        ≡ text.old.items ++ label_text known.now level (found_of scope.now).span) }
    ensures level { OnOk result (level < 2 ^ 63) }
{
    push_indent(text, level)?;
    push_name(text, known, scope.id)?;
    push_text(text, text_of(scope.text))?;
    text.extend_from_slice(b"\n")
}

/// Returns the cells of a scope's line: its start in the frame, its duration, and its share of what it is in.
fn cells_of(begin: NanoSecond, start: NanoSecond, time: u64, outer: u64) -> [Cell; 3]
    ensures { map cell_of result ≡ scope_cells begin start time outer }
{
    [
        ("start", Value::Offset(begin, start)),
        ("duration", Value::Time(Some(time))),
        ("share", Value::Share(time, outer)),
    ]
}

/// Appends a scope's line. What `scratch` has is lost.
fn push_scope(
    text: &mut Vec<u8>,
    scratch: &mut Vec<u8>,
    known: &ScopeCollection,
    begin: NanoSecond,
    outer: Outer,
    scope: &RawScope,
) -> Result<(), AllocError>
    requires { 0 < scope.now.id }
    ensures text { OnOk result (text.new.items ≡ text.old.items
        ++ nested_line known.now begin outer.level outer.time (found_of scope.now).span) }
    ensures level { OnOk result (outer.level < 2 ^ 63) }
{
    let time = scope.stop.abs_diff(scope.start);
    let cells = cells_of(begin, scope.start, time, outer.time);
    push_cells(text, scratch, &cells)?;
    text.extend_from_slice(b"  ")?;
    push_label(text, known, outer.level, scope)
}

/// The lines that are still to be written, and what the next ones depend on.
#[derive(Drop)]
pub(crate) struct Lines<'k> {
    pub text: Vec<u8>,
    /// The memory in which each cell is made.
    pub scratch: Vec<u8>,
    pub known: &'k ScopeCollection,
    /// The range of the frame whose scopes are met.
    pub range_ns: (NanoSecond, NanoSecond),
}

impl<'s, 'k> Visitor<'s> for Lines<'k> {
    ghost use Rattle.puffin_look.specs.inner.TreeLines.{TakesScopes, StandsFor, scopes_none, scopes_more, still_stands};

    type Within = Outer;

    ghost takes = { TakesScopes };

    ghost refuses = { λ _ _ _. ⊥ };

    ghost stands_for = { StandsFor };

    ghost takes_none = { scopes_none };

    ghost takes_more = { scopes_more };

    ghost still_stands = { still_stands };

    fn enter(&mut self, within: Outer, scope: &RawScope<'s>) -> Answer<Outer> {
        push_scope(
            &mut self.text,
            &mut self.scratch,
            self.known,
            self.range_ns.0,
            within,
            scope,
        )?;
        Ok(Outer {
            level: within.level + 1,
            time: scope.stop.abs_diff(scope.start),
        })
    }
}

impl<'k> Lines<'k> {
    /// Appends a thread's line, behind the names of the columns.
    fn push_head(&mut self, thread: &ThreadInfo) -> Result<(), AllocError>
        ensures { OnOk result (HasMoreLines self.old self.new
            (thread_line (key_of thread.now))) }
    {
        push_heading(&mut self.text, &cells_of(0, 0, 0, 0))?;
        self.text.extend_from_slice(b"  thread ")?;
        push_thread(&mut self.text, thread)?;
        self.text.extend_from_slice(b"\n")
    }

    /// Returns what the top-level scopes are nested in: the frame.
    fn outside(&self) -> Outer
        ensures level { result.level ≡ 0 }
        ensures time { result.time ≡ length_of self.now.range_ns }
    {
        Outer {
            level: 0,
            time: length_of(self.range_ns),
        }
    }

    /// Appends a thread's line and those of its scopes. Fails with the first fault of the stream, or with `Memory`.
    pub(crate) fn add_stream(&mut self, thread: &ThreadInfo, info: &StreamInfo) -> Answer<()>
        ensures ok { OnOk result ((forest : Forest)
            × Spells (facts_of info.now).form (facts_of info.now).bytes forest
            × HasMoreLines self.old self.new
            (tree_text self.old.known.now self.old.range_ns (key_of thread.now, forest))) }
        ensures err { IfErr result (λ e.
            (e ≡ Error.Memory) ⊎ IsFault (facts_of info.now).form (facts_of info.now).bytes e) }
    {
        self.push_head(thread)?;
        self.add_scopes(info)
    }

    /// Appends the lines of a stream's scopes. Fails as [`Lines::add_stream`] does.
    fn add_scopes(&mut self, info: &StreamInfo) -> Answer<()>
        ensures ok { OnOk result ((forest : Forest)
            × Spells (facts_of info.now).form (facts_of info.now).bytes forest
            × HasMoreLines self.old self.new
            (forest_lines self.old.known.now self.old.range_ns forest)) }
        ensures err { IfErr result (λ e.
            (e ≡ Error.Memory) ⊎ IsFault (facts_of info.now).form (facts_of info.now).bytes e) }
    {
        let alloc = *self.text.allocator();
        let outside = self.outside();
        let mut tries = 0;
        let stream = &info.stream;
        walk_with(
            alloc,
            stream.form(),
            stream.bytes(),
            self,
            outside,
            &mut tries,
        )
    }
}
