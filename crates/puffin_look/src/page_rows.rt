//! The scopes of a frame, as a page has them.

ghost use Rattle.std.specs.Prelude.{◌≡◌, ◌++◌, ◌⊎◌, OnOk, IfErr};
ghost use Rattle.puffin_data.specs.declared.error.Error.{Error};
ghost use Rattle.puffin_data.specs.Forest.{Forest};
ghost use Rattle.puffin_data.specs.Forest.Spelling.{Spells};
ghost use Rattle.puffin_data.specs.Honesty.{facts_of};
ghost use Rattle.puffin_data.specs.Walk.{IsFault};
ghost use Rattle.puffin_data.specs.Walk.FoundScopes.{found_of};
ghost use Rattle.puffin_threads.specs.Thread.ThreadKey.{key_of};
ghost use Rattle.puffin_look.specs.Page.{key_json, times_json, row_json, rows_json, thread_json};
ghost use Rattle.puffin_look.specs.inner.Pages.{HasMoreRows};

use crate::columns::push_difference;
use crate::quoting::push_member;
use crate::text::push_count;
use crate::threads::push_start;
use puffin_data::data::{RawScope, StreamInfo, Visitor, text_of, walk_with};
use puffin_data::{NanoSecond, Result as Answer};
use puffin_threads::thread_profiler::ThreadInfo;
use std::alloc::AllocError;

/// Appends when a scope began in its frame, and how long it took.
fn push_times(text: &mut Vec<u8>, begin: NanoSecond, scope: &RawScope) -> Result<(), AllocError>
    ensures { OnOk result (text.new.items
        ≡ text.old.items ++ times_json begin (found_of scope.now).span) }
{
    text.extend_from_slice(b",")?;
    push_difference(text, begin, scope.start)?;
    push_count(text, b",", scope.stop.abs_diff(scope.start))
}

/// Appends a scope that is nested in so many others.
fn push_row(
    text: &mut Vec<u8>,
    begin: NanoSecond,
    level: u64,
    scope: &RawScope,
) -> Result<(), AllocError>
    ensures { OnOk result (text.new.items
        ≡ text.old.items ++ row_json begin level (found_of scope.now).span) }
{
    push_count(text, b",[", level)?;
    push_count(text, b",", scope.id as u64)?;
    push_times(text, begin, scope)?;
    push_member(text, b",", text_of(scope.text))?;
    text.extend_from_slice(b"]")
}

/// The JSON of a frame so far.
#[derive(Drop)]
pub(crate) struct PageRows {
    pub text: Vec<u8>,
    /// The frame's start.
    pub begin: NanoSecond,
}

impl<'s> Visitor<'s> for PageRows {
    ghost use Rattle.puffin_look.specs.inner.Pages.{TakesScopes, StandsFor, scopes_none, scopes_more, still_stands};

    /// How many scopes the next one is nested in, at most `u64::MAX`.
    type Within = u64;

    ghost takes = { TakesScopes };

    ghost refuses = { λ _ _ _. ⊥ };

    ghost stands_for = { StandsFor };

    ghost takes_none = { scopes_none };

    ghost takes_more = { scopes_more };

    ghost still_stands = { still_stands };

    fn enter(&mut self, within: u64, scope: &RawScope<'s>) -> Answer<u64> {
        push_row(&mut self.text, self.begin, within, scope)?;
        Ok(within.saturating_add(1))
    }
}

impl PageRows {
    /// Appends a thread's start and name.
    fn push_key(&mut self, thread: &ThreadInfo) -> Result<(), AllocError>
        ensures { OnOk result (HasMoreRows self.old self.new (key_json (key_of thread.now))) }
    {
        self.text.extend_from_slice(b",[\"")?;
        push_start(&mut self.text, thread)?;
        push_member(&mut self.text, b"\",", thread.name.as_str())
    }

    /// Appends a stream's scopes. Fails with the first fault of the stream, or with `Memory`.
    fn add_scopes(&mut self, info: &StreamInfo) -> Answer<()>
        ensures ok { OnOk result ((forest : Forest)
            × Spells (facts_of info.now).form (facts_of info.now).bytes forest
            × HasMoreRows self.old self.new (rows_json self.old.begin forest)) }
        ensures err { IfErr result (λ e.
            (e ≡ Error.Memory) ⊎ IsFault (facts_of info.now).form (facts_of info.now).bytes e) }
    {
        let alloc = *self.text.allocator();
        let mut tries = 0;
        let stream = &info.stream;
        walk_with(alloc, stream.form(), stream.bytes(), self, 0, &mut tries)
    }

    /// Appends a thread with its scopes. Fails as [`PageRows::add_scopes`] does.
    pub(crate) fn add_stream(&mut self, thread: &ThreadInfo, info: &StreamInfo) -> Answer<()>
        ensures ok { OnOk result ((forest : Forest)
            × Spells (facts_of info.now).form (facts_of info.now).bytes forest
            × HasMoreRows self.old self.new
            (thread_json self.old.begin (key_of thread.now, forest))) }
        ensures err { IfErr result (λ e.
            (e ≡ Error.Memory) ⊎ IsFault (facts_of info.now).form (facts_of info.now).bytes e) }
    {
        self.push_key(thread)?;
        self.add_scopes(info)?;
        self.text.extend_from_slice(b"]")?;
        Ok(())
    }
}
