//! The states of guards.

use puffin_data::Error;

/// Whether a guard's scope began, and why not if it didn't.
#[derive(Clone, Copy, Debug, PartialEq, Eq)]
pub enum GuardState {
    /// It began. The size of its children is written at this offset when it ends.
    On(usize),
    /// It didn't, because scopes are off or the guard was made without a scope.
    Off,
    /// It didn't, because drawing its id or beginning it failed with this error.
    Refused(Error),
}
