//! The faults of calls, and their numbers.

ghost use Rattle.std.specs.Prelude.{◌≡◌, Result};
ghost use Rattle.puffin_c.specs.declared.fault.Fault.{Fault};
ghost use Rattle.puffin_c.specs.Faults.{code_of, file_code, answer_code};

use puffin_data::{Error, FileError};
use std::alloc::AllocError;

/// The reason why a call failed.
#[derive(Clone, Copy, Debug, PartialEq, Eq)]
pub enum Fault {
    /// The call was refused with this error.
    Refused(Error),
    /// A file can't be read or written.
    File(FileError),
    /// A text isn't UTF-8.
    NotText,
    /// A scope's id is 0.
    NoId,
    /// The handle isn't open.
    NotOpen,
    /// The handle is open already.
    IsOpen,
}

impl From<Error> for Fault {
    ghost use Rattle.std.specs.Prelude.{◌≡◌};
    ghost use Rattle.puffin_c.specs.declared.fault.Fault.TheVariants.{Refused};

    ghost from_gives = { λ e f. f ≡ Refused e };

    fn from(e: Error) -> Fault {
        Fault::Refused(e)
    }
}

impl From<AllocError> for Fault {
    ghost use Rattle.std.specs.Prelude.{◌≡◌};
    ghost use Rattle.puffin_data.specs.declared.error.Error.TheVariants.{Memory};
    ghost use Rattle.puffin_c.specs.declared.fault.Fault.TheVariants.{Refused};

    ghost from_gives = { λ e f. f ≡ Refused Memory };

    fn from(_: AllocError) -> Fault {
        Fault::Refused(Error::Memory)
    }
}

impl From<FileError> for Fault {
    ghost use Rattle.std.specs.Prelude.{◌≡◌};
    ghost use Rattle.puffin_c.specs.Faults.{file_fault};

    ghost from_gives = { λ e f. f ≡ file_fault e };

    fn from(e: FileError) -> Fault {
        match e {
            // The file is in memory.
            FileError::Io | FileError::Memory => Fault::Refused(Error::Memory),
            other => Fault::File(other),
        }
    }
}

/// Returns the number of a file's fault, plus 256 times the number that the fault holds, if any.
fn file_code(fault: FileError) -> u32
    ensures { result ≡ file_code fault }
{
    match fault {
        FileError::UnknownKind(kind) => 6 + 256 * kind as u32,
        FileError::Compressed(kind) => 7 + 256 * kind as u32,
        FileError::Refused(cause) => 13 + 256 * cause.number() as u32,
        other => other.number() as u32,
    }
}

/// Returns the number of a fault.
pub fn code_of(fault: Fault) -> u32
    ensures { result ≡ code_of fault }
{
    match fault {
        Fault::Refused(cause) => cause.number() as u32,
        Fault::File(fault) => 64 + file_code(fault),
        Fault::NotText => 32,
        Fault::NoId => 33,
        Fault::NotOpen => 34,
        Fault::IsOpen => 35,
    }
}

/// Returns 0 for success, or the number of the fault.
pub fn answer_code(answer: Result<(), Fault>) -> u32
    ensures { result ≡ answer_code answer }
{
    match answer {
        Ok(()) => 0,
        Err(fault) => code_of(fault),
    }
}

/// A law: two results with the same number are equal. So 0 means success and nothing else, and each fault has its own
/// number.
pub fn codes_are_distinct()
    ensures { (one other : Result (Unit {0}) Fault) →
        answer_code one ≡ answer_code other →
        one ≡ other }
{}
