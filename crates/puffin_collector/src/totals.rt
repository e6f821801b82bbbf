//! Numbers of scopes.

ghost use Rattle.std.specs.Prelude.{◌≡◌, ◌+◌};

/// The numbers of scopes that were reported, are pending, and were handed out in frames.
#[derive(Clone, Copy, Debug, PartialEq, Eq)]
pub struct Totals {
    /// The number of scopes reported so far.
    pub reported: u64,
    /// The number of reported scopes that haven't been handed out.
    pub pending: u64,
    /// The number of scopes in all frames so far.
    pub emitted: u64,
    ghost sum: { reported ≡ pending + emitted },
}
