//! The strict walk with a visitor, which is given each scope as the walk enters it.

ghost use Rattle.std.specs.Prelude.{◌≡◌, ◌+◌, ◌*◌, ◌≤◌, List, [], ◌++◌, length, IfOk, IfErr, ◌⊎◌};
ghost use Rattle.puffin_data.specs.Forest.{Span, IsSpan};
ghost use Rattle.puffin_data.specs.Walk.FoundScopes.{found_of};
ghost use Rattle.puffin_data.specs.Walk.PlacedScopes.{ScopeInContext};
ghost use Rattle.puffin_data.specs.Walk.Visitor.{Entering, Refusing, TakesAll, StopsEarly};

use crate::data::form::Form;
use crate::data::scope::{END_SIZE, RawScope};
use crate::data::walk::next_scope;
use crate::error::{Error, Result};
use std::alloc::Global;

/// Receives the scopes of a stream, each before its children and in the order of the stream.
pub trait Visitor<'s> {
    ghost use Rattle.puffin_data.specs.declared.error.Error.{Error};
    ghost use Rattle.puffin_data.specs.declared.data.form.Form.{Form};

    /// The value that the visitor returns for a scope and receives again for each of its children.
    type Within: Copy;

    /// Whether the visitor may take these scopes, in order, from the first state to the second.
    ghost takes: { Self → List ScopeInContext → Self → Type 0 };

    /// Whether the visitor may refuse this scope with this error in this state.
    ghost refuses: { Self → ScopeInContext → Error → Type 0 };

    /// Whether, in this state, a kept value stands for these open scopes, the outermost first.
    ghost stands_for: { Self → Self.Within → List Span → Type 0 };

    /// Receives a scope. `within` is the value that was returned for its parent, or the walk's `outside` for a top-level scope.
    /// Returns the value for the scope's children. An error ends the walk.
    fn enter(&mut self, within: Self::Within, scope: &RawScope<'s>) -> Result<Self::Within>
        requires stands { (around : List Span) × stands_for self.old within around }
        requires span { (form : Form) × IsSpan form (found_of scope.now).span }
        ensures ok { IfOk result (λ inner.
            Entering takes stands_for self.old within (found_of scope.now).span inner
            self.new) }
        ensures err { IfErr result (λ cause.
            (cause ≡ Error.Memory)
            ⊎ Refusing refuses stands_for self.old within (found_of scope.now).span cause) };

    /// Taking no scope changes nothing.
    ghost takes_none: { (state : Self) → takes state [] state };

    /// Taking one list of scopes and then another counts as taking both, joined.
    ghost takes_more: { (old mid new : Self) (first second : List ScopeInContext) →
        takes old first mid → takes mid second new → takes old (first ++ second) new };

    /// A kept value still stands for the same scopes after more were taken.
    ghost still_stands: { (old new : Self) (scopes : List ScopeInContext) (within : Self.Within)
        (around : List Span) →
        takes old scopes new → stands_for old within around → stands_for new within around };
}

/// A region that is being read, or is waiting while a region within it is read: where it ends, and the visitor's value for the
/// scope whose children it contains.
#[derive(Clone, Copy)]
struct Region<W> {
    end: usize,
    within: W,
}

/// Walks all of the bytes in one pass and without recursion, and hands each scope to the visitor. The bytes have to be a forest
/// of scopes in this form. For a top-level scope, [`Visitor::enter`] receives `outside` as `within`.
///
/// Sets `tries` to the number of bytes `(` at which it tried to read a scope, even if the walk fails. Fails with the visitor's
/// first error or the first fault (`PrematureEnd`, `InvalidStream` or `ScopeNeverEnded`), whichever comes first, or with
/// `Memory` if the walk's vector, which has an entry for each nesting level, can't grow.
///
/// ```
/// let mut tries = 0;
/// walk_with(alloc, Form::Short, bytes, &mut visitor, 0, &mut tries)?;
/// ```
pub fn walk_with<'s, V: Visitor<'s>>(
    alloc: Global,
    form: Form,
    bytes: &'s [u8],
    visitor: &mut V,
    outside: V::Within,
    tries: &mut u64,
) -> Result<()>
    requires { V.stands_for visitor.old outside [] }
    ensures ok { IfOk result (λ _.
        TakesAll form V.takes visitor.old visitor.new bytes.now tries.new) }
    ensures err { IfErr result (λ cause.
        (cause ≡ Error.Memory)
        ⊎ StopsEarly form V.takes V.refuses visitor.old visitor.new bytes.now tries.new cause) }
    // A scope takes at least 31 bytes.
    ensures few { 31 * tries.new ≤ length bytes.now + 31 }
{
    let mut outers: Vec<Region<V::Within>> = Vec::new(alloc);
    let mut region = Region {
        end: bytes.len(),
        within: outside,
    };
    let mut at = 0;
    *tries = 0;
    'scopes: loop {
        if at < region.end {
            // Goes on at the scope's first child.
            let scope = next_scope(form, &bytes[at..region.end], tries)?;
            let within = visitor.enter(region.within, &scope)?;
            outers.push(region)?;
            region = Region {
                end: at + scope.child_end,
                within,
            };
            at += scope.child_begin;
        } else {
            // The region is read: goes on behind the scope whose children it contains.
            match outers.pop() {
                None => return Ok(()),
                Some(outer) => {
                    at = region.end + END_SIZE;
                    region = outer;
                }
            }
        }
    }
}
