//! The strict walk: one pass over the bytes of a stream, which have to be a forest of scopes. `docs/FORMAT.md` lists its
//! faults.

ghost use Rattle.std.specs.Prelude.{◌≡◌, ℕ, ◌+◌, ◌*◌, ◌⊎◌, ◌≤◌, ◌<◌, ◌^◌, ◌==◌, if◌then◌else◌, length, slice_index, IfOk, IfErr, MatchResult};
ghost use Rattle.puffin_data.specs.Forest.{Forest};
ghost use Rattle.puffin_data.specs.Forest.Spelling.{begin_mark, Spells};
ghost use Rattle.puffin_data.specs.Honesty.{Counts};
ghost use Rattle.puffin_data.specs.Walk.{most_tries_in, Refuses};
ghost use Rattle.puffin_data.specs.Walk.Reading.{reading, IsFaultIn};
ghost use Rattle.puffin_data.specs.Walk.FoundScopes.{found_of};
ghost use Rattle.puffin_data.specs.inner.Walking.{no_scope_counted, with_scope, WalksAll, StopsShort};

use crate::data::form::Form;
use crate::data::scope::{END_SIZE, RawScope, SCOPE_BEGIN, scope_in};
use crate::error::{Error, NanoSecond, Result};
use std::alloc::Global;

/// The counts of a walk over a stream: the measures of the forest that its bytes spell.
#[derive(Clone, Copy, Debug, PartialEq, Eq)]
pub struct Walk {
    /// The number of scopes.
    pub num_scopes: usize,
    /// The greatest nesting depth; a top-level scope has depth 1.
    pub depth: usize,
    /// The least start and the greatest stop of all scopes, in nanoseconds, or `(i64::MAX, i64::MIN)` if there are none.
    pub range_ns: (NanoSecond, NanoSecond),
}

impl Walk {
    /// Returns the counts of a stream without scopes.
    pub(crate) fn empty() -> Walk
        ensures { result ≡ no_scope_counted }
    {
        Walk {
            num_scopes: 0,
            depth: 0,
            range_ns: (NanoSecond::MAX, NanoSecond::MIN),
        }
    }

    /// Returns these counts with one more scope, at this depth.
    fn with_scope(self, depth: usize, scope: &RawScope) -> Walk
        requires { self.num_scopes + 1 < 2 ^ 64 }
        ensures { result ≡ with_scope self depth (found_of scope.now).span }
    {
        let (start, stop) = self.range_ns;
        Walk {
            num_scopes: self.num_scopes + 1,
            depth: self.depth.max(depth),
            range_ns: (start.min(scope.start), stop.max(scope.stop)),
        }
    }
}

/// Reads the scope that has to be at the front of a region. If the region begins with `(`, adds one to `tries`. Fails with
/// `InvalidStream` if it begins with another byte, and otherwise with the scope's fault, if there is one.
#[inline(always)]
pub(crate) fn next_scope<'s>(form: Form, region: &'s [u8], tries: &mut u64) -> Result<RawScope<'s>>
    requires not_empty { 0 < length region.now }
    requires few { tries.old + 1 < 2 ^ 64 }
    ensures sound { IfOk result (λ scope.
        reading form region.now ≡ Ok (Some (found_of scope))) }
    ensures fault { IfErr result (IsFaultIn form region.now) }
    ensures tried { tries.new
        ≡ tries.old + (if slice_index region.now 0 == begin_mark then 1 else 0) }
{
    if region[0] == SCOPE_BEGIN {
        *tries += 1;
    }
    match scope_in(form, region)? {
        Some(scope) => Ok(scope),
        None => Err(Error::InvalidStream),
    }
}

/// Walks all of the bytes in one pass and without recursion, and returns the counts of their scopes. The bytes have to be a
/// forest of scopes in this form. Reads them where they are, without copying them into a [`Stream`](crate::data::Stream).
///
/// Sets `tries` to the number of bytes `(` at which it tried to read a scope, even if the walk fails. Fails as
/// [`Reader::walk`](crate::data::Reader::walk) does.
///
/// ```
/// let mut tries = 0;
/// let walk = walk_forest(alloc, Form::Short, bytes, &mut tries)?;
/// ```
pub fn walk_forest(alloc: Global, form: Form, bytes: &[u8], tries: &mut u64) -> Result<Walk>
    ensures forest { IfOk result (λ walk.
        (forest : Forest) × Spells form bytes.now forest × Counts walk forest) }
    ensures only { (forest : Forest) → Spells form bytes.now forest →
        MatchResult result (λ walk. Counts walk forest) (λ cause. cause ≡ Error.Memory) }
    ensures fault { IfErr result (λ cause.
        (cause ≡ Error.Memory) ⊎ Refuses form bytes.now cause tries.new) }
    ensures tries { IfOk result (λ walk. tries.new ≡ walk.num_scopes) }
    ensures few { tries.new ≤ most_tries_in bytes.now }
{
    // A loop for each form: the short one is then as fast as if there were no other.
    match form {
        Form::Short => walk_bytes(alloc, Form::Short, bytes, tries),
        Form::Long => walk_bytes(alloc, Form::Long, bytes, tries),
    }
}

/// Walks all of the bytes as [`walk_forest`] does. `end` is the end of the region that is being read, and `ends` has those of the
/// regions around it, the innermost last.
#[inline(always)]
pub(crate) fn walk_bytes(alloc: Global, form: Form, bytes: &[u8], tries: &mut u64) -> Result<Walk>
    ensures walked { MatchResult result (WalksAll form bytes.now tries.new)
        (StopsShort form bytes.now tries.new) }
    // A scope takes at least 31 bytes.
    ensures few { 31 * tries.new ≤ length bytes.now + 31 }

    // What holds of all bytes, for proofs about the calls.
    ensures bytes { (index : ℕ) → slice_index bytes.now index < 256 }
    ensures small { length bytes.now < 2 ^ 64 }
{
    let mut walk = Walk::empty();
    let mut ends: Vec<usize> = Vec::new(alloc);
    let mut at = 0;
    let mut end = bytes.len();
    *tries = 0;
    'scopes: loop {
        if at < end {
            // Goes on at the scope's first child.
            let scope = next_scope(form, &bytes[at..end], tries)?;
            ends.push(end)?;
            walk = walk.with_scope(ends.len(), &scope);
            end = at + scope.child_end;
            at += scope.child_begin;
        } else {
            // The region is read: goes on behind the scope whose children it contains.
            match ends.pop() {
                None => return Ok(walk),
                Some(outer) => {
                    at = end + END_SIZE;
                    end = outer;
                }
            }
        }
    }
}
