//! Scopes as a reader returns them.

ghost use Rattle.std.specs.Prelude.{◌≡◌, ◌+ℤ◌, FitsSigned};
ghost use Rattle.std.specs.Int.{w64};

use crate::data::scope_id::ScopeId;
use crate::error::NanoSecond;

/// A scope's times and text. The sum of start and duration fits `i64`.
#[derive(Clone, Copy, Debug, PartialEq, Eq)]
pub struct ScopeRecord<'s> {
    /// When the scope began, in nanoseconds.
    pub start_ns: NanoSecond,
    /// How long the scope lasted, in nanoseconds.
    pub duration_ns: NanoSecond,
    /// The text stored with the scope.
    pub text: &'s str,
    ghost fits: { FitsSigned w64 (start_ns +ℤ duration_ns) },
}

impl ScopeRecord<'_> {
    /// Returns when the scope ended, in nanoseconds.
    pub fn stop_ns(&self) -> NanoSecond
        ensures { result ≡ self.now.start_ns +ℤ self.now.duration_ns }
    {
        self.start_ns + self.duration_ns
    }
}

/// A scope that a reader returned. Its positions are offsets from the stream's first byte.
#[derive(Clone, Copy, Debug, PartialEq, Eq)]
pub struct Scope<'s> {
    /// Identifies the scope's details.
    pub id: ScopeId,
    /// The scope's times and text.
    pub rec: ScopeRecord<'s>,
    /// Where the children begin.
    pub child_begin_position: u64,
    /// Where the children end. Equal to `child_begin_position` if there are none.
    pub child_end_position: u64,
    /// Where the scope ends, and where its next sibling, if any, begins.
    pub next_sibling_position: u64,
}
