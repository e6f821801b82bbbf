ghost use Rattle.std.specs.Prelude.{◌≡◌, ◌+◌, ◌-◌, ◌≤◌, ◌<◌, ◌^◌, ◌-ℤ◌, ◌↔◌, FitsSigned, length, IfOk, IfErr, IsErr, MatchResult, ◌⊎◌, IsOkUnless};
ghost use Rattle.std.specs.Int.{w64};
ghost use Rattle.std.specs.Iterator.{at_most};
ghost use Rattle.puffin_data.specs.Forest.{Forest};
ghost use Rattle.puffin_data.specs.Forest.Measures.{scope_count, height};
ghost use Rattle.puffin_data.specs.Forest.Spelling.{Spells};
ghost use Rattle.puffin_data.specs.Honesty.{Counts};
ghost use Rattle.puffin_data.specs.Walk.{most_tries_in, IsFault, Refuses};
ghost use Rattle.puffin_data.specs.Text.{text_in};
ghost use Rattle.puffin_data.specs.Walk.FoundScopes.{found_of};
ghost use Rattle.puffin_data.specs.Reader.{ReaderState, read_scope, scope_read};
ghost use Rattle.puffin_data.specs.Reader.ReadScopes.{scope_seen, scope_answer, IsNextRead, ReadsScopes, ReadsFault};

use crate::data::form::Form;
use crate::data::record::{Scope, ScopeRecord};
use crate::data::scope::{RawScope, scope_in};
use crate::data::scope_id::ScopeId;
use crate::data::stream::Stream;
use crate::data::walk::{Walk, walk_forest};
use crate::error::{Error, Result};
use std::alloc::Global;
use std::marker::Model;

/// Returns the text in stored bytes: their longest prefix that is UTF-8.
pub fn text_of(stored: &[u8]) -> &str
    ensures { result.now ≡ text_in stored.now }
{
    match std::str::from_utf8(stored) {
        Ok(text) => text,
        Err(fault) => std::str::from_utf8(&stored[..fault.valid_up_to()]).unwrap(),
    }
}

/// Converts a scope found at offset `at` into a `Scope`, whose positions are offsets into the stream. The scope must have an id,
/// and its duration must fit `i64`.
fn to_scope<'s>(at: usize, found: &RawScope<'s>) -> Scope<'s>
    requires id { 0 < found.now.id }
    requires fits { FitsSigned w64 (found.now.stop -ℤ found.now.start) }
    requires begins { found.now.child_begin ≤ found.now.child_end }
    requires ends { found.now.child_end ≤ found.now.next_sibling }
    requires within { at + found.now.next_sibling < 2 ^ 64 }
    ensures { scope_seen result ≡ read_scope at (found_of found.now) }
{
    Scope {
        id: ScopeId::new(found.id).unwrap(),
        rec: ScopeRecord {
            start_ns: found.start,
            duration_ns: found.stop - found.start,
            text: text_of(found.text),
        },
        child_begin_position: (at + found.child_begin) as u64,
        child_end_position: (at + found.child_end) as u64,
        next_sibling_position: (at + found.next_sibling) as u64,
    }
}

/// Reads the scope at offset `at` of the region that ends at `end`, as [`Reader::scope_at`] does.
fn read_at(form: Form, bytes: &[u8], at: usize, end: usize) -> Result<Option<Scope<'_>>>
    requires ordered { at ≤ end }
    requires within { end ≤ length bytes.now }
    ensures { scope_answer result ≡ scope_read form bytes.now at end }
{
    match scope_in(form, &bytes[at..end])? {
        None => Ok(None),
        Some(found) => Ok(Some(to_scope(at, &found))),
    }
}

/// Reads the scopes of a stream one after the other. Their texts are borrowed from the stream.
///
/// As an iterator it returns the scope at its position and moves to that scope's next sibling, so it skips the children. It
/// ends at the stream's end, and also, without an error, at a byte that isn't `(`. A fault (`PrematureEnd`, `InvalidStream` or
/// `ScopeNeverEnded`) is returned once and ends the iteration.
///
/// ```
/// let scopes = Reader::from_start(&stream).read_top_scopes(alloc)?;
/// ```
#[derive(Drop)]
pub struct Reader<'s> {
    form: Form,
    bytes: &'s [u8],
    at: usize,
}

impl<'s> Model for Reader<'s> {
    ghost Value = { ReaderState };

    ghost view = { λ reader.
        record { form = reader.form; bytes = reader.bytes.now; at = reader.at } };

    ghost invariant = { λ reader. reader.at ≤ length reader.bytes.now };
}

impl<'s> Reader<'s> {
    /// Makes a reader at a stream's first byte.
    pub fn from_start(stream: &'s Stream) -> Reader<'s>
        ensures { result
            ≡ record { form = stream.now.form; bytes = stream.now.bytes; at = 0 } }
    {
        Reader {
            form: stream.form(),
            bytes: stream.bytes(),
            at: 0,
        }
    }

    /// Makes a reader at an offset. Fails with `InvalidOffset` if the offset is greater than the stream's length.
    pub fn with_offset(stream: &'s Stream, offset: u64) -> Result<Reader<'s>>
        ensures ok { IfOk result (λ reader.
            reader ≡ record { form = stream.now.form; bytes = stream.now.bytes; at = offset }) }
        ensures refused { IsErr result ↔ (length stream.now.bytes < offset) }
        ensures err { IsOkUnless result Error.InvalidOffset }
    {
        if offset > stream.len() as u64 {
            return Err(Error::InvalidOffset);
        }
        Ok(Reader {
            form: stream.form(),
            bytes: stream.bytes(),
            at: offset as usize,
        })
    }

    /// Reads the scope at offset `at`, as if the stream ended at offset `end`. Returns `None` if `at` equals `end` or the byte
    /// at `at` isn't `(`. Fails with the scope's fault: `PrematureEnd`, `InvalidStream` or `ScopeNeverEnded`.
    pub fn scope_at(stream: &'s Stream, at: usize, end: usize) -> Result<Option<Scope<'s>>>
        requires ordered { at ≤ end }
        requires within { end ≤ length stream.now.bytes }
        ensures { scope_answer result ≡ scope_read stream.now.form stream.now.bytes at end }
    {
        read_at(stream.form(), stream.bytes(), at, end)
    }

    /// Collects all scopes that the reader returns. Fails with the reader's fault, or with `Memory` if the vector can't grow.
    pub fn read_top_scopes(self, alloc: Global) -> Result<Vec<Scope<'s>>>
        ensures ok { IfOk result (λ scopes. ReadsScopes self.entry scopes.items) }
        ensures err { IfErr result (λ cause.
            (cause ≡ Error.Memory) ⊎ ReadsFault self.entry cause) }
    {
        let mut reader = self;
        let mut scopes = Vec::new(alloc);
        while let Some(next) = reader.next() {
            match next {
                Ok(scope) => {
                    if scopes.push(scope).is_err() {
                        return Err(Error::Memory);
                    }
                }
                Err(fault) => return Err(fault),
            }
        }
        Ok(scopes)
    }

    /// Walks the whole stream in one pass and without recursion, and returns the counts of its scopes. The stream has to be a
    /// forest of scopes; it doesn't change.
    ///
    /// Sets `tries` to the number of bytes `(` at which it tried to read a scope, even if the walk fails. Fails with the first
    /// fault that it reaches, which is the one at the least offset (`PrematureEnd`, `InvalidStream` or `ScopeNeverEnded`), or
    /// with `Memory` if its vector, which has an entry for each nesting level, can't grow.
    ///
    /// ```
    /// let mut tries = 0;
    /// let walk = Reader::walk(alloc, &Stream::from(bytes), &mut tries)?;
    /// ```
    pub fn walk(alloc: Global, stream: &Stream, tries: &mut u64) -> Result<Walk>
        // Only a forest is accepted, and the counts are its measures.
        ensures forest { IfOk result (λ walk.
            (forest : Forest) × Spells stream.now.form stream.now.bytes forest
            × Counts walk forest) }
        // Every forest is accepted, unless memory runs out.
        ensures only { (forest : Forest) → Spells stream.now.form stream.now.bytes forest →
            MatchResult result (λ walk. Counts walk forest) (λ cause. cause ≡ Error.Memory) }

        // All other bytes are refused with their first fault.
        ensures fault { IfErr result (λ cause.
            (cause ≡ Error.Memory)
            ⊎ Refuses stream.now.form stream.now.bytes cause tries.new) }
        ensures tries { IfOk result (λ walk. tries.new ≡ walk.num_scopes) }
        ensures few { tries.new ≤ most_tries_in stream.now.bytes }
    {
        // A local count stays in a register during the walk.
        let mut tried = 0;
        let walk = walk_forest(alloc, stream.form(), stream.bytes(), &mut tried);
        *tries = tried;
        walk
    }

    /// Returns the number of scopes and the greatest nesting depth of a stream, which has to be a forest of scopes. Fails as
    /// [`Reader::walk`] does.
    pub fn count_scope_and_depth(alloc: Global, stream: &Stream) -> Result<(usize, usize)>
        ensures forest { IfOk result (λ counts.
            (forest : Forest) × Spells stream.now.form stream.now.bytes forest
            × (counts ≡ (scope_count forest, height forest))) }
        ensures only { (forest : Forest) → Spells stream.now.form stream.now.bytes forest →
            MatchResult result (λ counts. counts ≡ (scope_count forest, height forest)) (λ cause.
            cause ≡ Error.Memory) }
        ensures fault { IfErr result (λ cause.
            (cause ≡ Error.Memory) ⊎ IsFault stream.now.form stream.now.bytes cause) }
    {
        let mut tries = 0;
        let walk = Reader::walk(alloc, stream, &mut tries)?;
        Ok((walk.num_scopes, walk.depth))
    }
}

impl<'s> Iterator for Reader<'s> {
    type Item = Result<Scope<'s>>;

    ghost next_gives = { IsNextRead };

    ghost remaining = { λ reader. at_most (length reader.bytes - reader.at) };

    /// Reads the scope at the reader's position, and moves to its next sibling, or after a fault to the end.
    fn next(&mut self) -> Option<Result<Scope<'s>>> {
        match read_at(self.form, self.bytes, self.at, self.bytes.len()) {
            Ok(None) => None,
            Ok(Some(scope)) => {
                self.at = scope.next_sibling_position as usize;
                Some(Ok(scope))
            }
            Err(fault) => {
                self.at = self.bytes.len();
                Some(Err(fault))
            }
        }
    }
}
