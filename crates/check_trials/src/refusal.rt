//! Calls that are made again if memory was refused.

use puffin_data::{Error, FileError};
use std::alloc::{AllocError, Global};

/// An error that may mean that memory was refused.
pub(crate) trait Refusal {
    /// Returns whether memory was refused. For a file in memory, `Io` means that too.
    fn is_memory(self) -> bool;
}

impl Refusal for Error {
    fn is_memory(self) -> bool {
        self == Error::Memory
    }
}

impl Refusal for AllocError {
    fn is_memory(self) -> bool {
        true
    }
}

impl Refusal for FileError {
    fn is_memory(self) -> bool {
        matches!(self, FileError::Memory | FileError::Io)
    }
}

/// Returns the value of a call, `Some(None)` if it failed for a reason other than memory, or `None` if the call is to be made
/// again.
pub(crate) fn settled<T, E: Refusal>(first: Result<T, E>) -> Option<Option<T>> {
    match first {
        Ok(value) => Some(Some(value)),
        Err(cause) => { if cause.is_memory() { None } else { Some(None) } }
    }
}

/// Evaluates a call, and evaluates it once more if memory was refused. The result is its value, or `None` if it failed again or
/// for another reason.
#[macro_export]
macro_rules! again {
    ($call:expr) => {
        match $crate::refusal::settled($call) {
            Some(settled) => settled,
            None => ($call).ok(),
        }
    };
}

/// Returns a vector of one value.
pub(crate) fn only<T: Drop>(alloc: Global, value: T) -> Option<Vec<T>> {
    let mut all = Vec::new(alloc);
    again!(all.reserve(1))?;
    all.push(value).ok()?;
    Some(all)
}
