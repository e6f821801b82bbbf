//! Lists the scopes of a stream.

ghost use Rattle.std.specs.Prelude.{◌≡◌, [], IfOk, IfErr, ◌⊎◌};
ghost use Rattle.puffin_data.specs.declared.error.Error.TheVariants as error;
ghost use Rattle.puffin_data.specs.Forest.{Forest};
ghost use Rattle.puffin_data.specs.Forest.Spelling.{Spells};
ghost use Rattle.puffin_data.specs.Walk.{IsFault};
ghost use Rattle.puffin_data.specs.Walk.PlacedScopes.{nested_in};
ghost use Rattle.puffin_c.specs.Faults.{Returns};
ghost use Rattle.puffin_c.specs.Counting.{form_given};
ghost use Rattle.puffin_c.specs.Lists.{scope_rows, scope_texts, ListsScopes};

use crate::fault::{Fault, answer_code};
use crate::lists::give;
use crate::stream::form_of;
use puffin_data::Result as Answer;
use puffin_data::data::{Form, RawScope, Visitor, walk_with};
use std::alloc::Global;

/// A scope of a stream.
#[repr(C)]
#[derive(Clone, Copy)]
pub struct PuffinScope {
    /// When the scope began, in nanoseconds.
    pub start_ns: i64,
    /// When the scope ended, in nanoseconds.
    pub stop_ns: i64,
    /// The number of scopes that it is nested in.
    pub depth: u64,
    /// Where its text begins in the bytes of all texts.
    pub text_at: u64,
    /// The size of its text in bytes.
    pub text_size: u64,
    /// Identifies the scope's details.
    pub id: u32,
}

/// Where a program gets the scopes of a stream.
#[repr(C)]
pub struct PuffinScopeList<'a> {
    /// The scopes, as many as there is room for.
    pub rows: &'a mut [PuffinScope],
    /// The bytes of their texts, as many as there is room for.
    pub bytes: &'a mut [u8],
    /// The number of scopes.
    pub num_rows: u64,
    /// The number of bytes of all texts.
    pub num_bytes: u64,
}

/// The scopes of a stream so far, and their texts.
#[derive(Drop)]
struct ScopeList {
    rows: Vec<PuffinScope>,
    texts: Vec<u8>,
}

impl<'s> Visitor<'s> for ScopeList {
    ghost use Rattle.puffin_c.specs.ScopeLists.{TakesScopes, RefusesScope, StandsFor};
    ghost use Rattle.puffin_c.specs.ScopeLists as steps;

    type Within = u64;

    ghost takes = { TakesScopes };

    ghost refuses = { RefusesScope };

    ghost stands_for = { StandsFor };

    ghost takes_none = { steps.takes_none };

    ghost takes_more = { steps.takes_more };

    ghost still_stands = { steps.still_stands };

    fn enter(&mut self, depth: u64, scope: &RawScope<'s>) -> Answer<u64> {
        let row = PuffinScope {
            start_ns: scope.start,
            stop_ns: scope.stop,
            depth,
            text_at: self.texts.len() as u64,
            text_size: scope.text.len() as u64,
            id: scope.id,
        };
        self.texts.extend_from_slice(scope.text)?;
        self.rows.push(row)?;
        Ok(depth + 1)
    }
}

/// Lists the scopes of a stream. Fails with the first fault in the bytes, or with `Memory`.
fn list_of(alloc: Global, form: Form, bytes: &[u8]) -> Answer<ScopeList>
    ensures ok { IfOk result (λ list.
        (f : Forest)
        × Spells form bytes.now f
        × (list.rows.items ≡ scope_rows 0 (nested_in [] f))
        × (list.texts.items ≡ scope_texts (nested_in [] f))) }
    ensures err { IfErr result (λ e. (e ≡ error.Memory) ⊎ IsFault form bytes.now e) }
{
    let mut list = ScopeList {
        rows: Vec::new(alloc),
        texts: Vec::new(alloc),
    };
    let mut tries = 0;
    walk_with(alloc, form, bytes, &mut list, 0, &mut tries)?;
    Ok(list)
}

/// Lists the scopes of a stream.
fn list_scopes(
    alloc: Global,
    bytes: &[u8],
    form: Form,
    list: &mut PuffinScopeList<'_>,
) -> Result<(), Fault>
    ensures { ListsScopes form bytes.now list.old list.new result }
{
    let made = list_of(alloc, form, bytes)?;
    (list.num_rows, list.num_bytes) = give(&made.rows, &made.texts, list.rows, list.bytes);
    Ok(())
}

/// Lists the scopes of a stream of any origin, each before its children and with its depth, and their texts, one behind the other.
/// Copies as many scopes and bytes of texts as fit to the front of those of `list`, and sets its numbers to how many there are. See
/// [`puffin_count`] for `bytes` and `long_texts`.
///
/// Fails with the first fault in the bytes, or with `Memory`. Nothing changes then.
///
/// [`puffin_count`]: crate::stream::puffin_count
#[tactic(auto, using(crate::proofs::Causes::scopes_named))]
#[unsafe(no_mangle)]
pub extern "C" fn puffin_scopes(
    alloc: Global,
    bytes: &[u8],
    long_texts: bool,
    list: &mut PuffinScopeList<'_>,
) -> u32
    ensures { Returns result (ListsScopes (form_given long_texts) bytes.now list.old list.new) }
{
    let answer = list_scopes(alloc, bytes, form_of(long_texts), list);
    answer_code(answer)
}
