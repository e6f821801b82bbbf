ghost use Rattle.std.specs.Prelude.{◌≡◌};
ghost use Rattle.puffin_data.specs.declared.file_error.FileError.TheVariants.{Io, Memory};
ghost use Rattle.puffin_data.specs.Cause.{file_error_number, file_error_name, file_error_of};

use crate::error::Error;
use std::alloc::{AllocError, AllocFailed};
use std::{fmt, io};

/// Why a stream, a packet or a file couldn't be read or written. It displays as its name, followed by a space and the number or
/// error that it holds, if any.
#[derive(Clone, Copy, Debug, PartialEq, Eq)]
pub enum FileError {
    /// The reader or writer failed, or the writer took no byte.
    Io,
    /// The file doesn't begin with `PUF0`.
    NoMagic,
    /// The bytes end within a packet.
    Truncated,
    /// The packet has a version that is no longer read: `PFD0` or `PFD1`.
    Legacy,
    /// The packet has an unknown version.
    Newer,
    /// The streams are packed in an unknown way, identified by this kind.
    UnknownKind(u8),
    /// The streams are compressed with lz4 (kind 1) or zstd (kind 2), and can't be unpacked here.
    Compressed(u8),
    /// The meta part isn't the layout of a meta.
    BadMeta,
    /// The packed streams aren't a layout of streams.
    BadStreams,
    /// The last part isn't a list of scope details, or has an id of 0.
    BadScopes,
    /// The range in the meta part is reversed, or its duration doesn't fit `i64`.
    BadRange,
    /// A part of a packet has `2^32` bytes or more.
    PartTooLong,
    /// A call failed with this error, which is never `Memory`.
    Refused(Error),
    /// An allocation, or a clone of an `Arc`, failed.
    Memory,
}

impl FileError {
    /// Returns the error's number: 1 for the first variant, and so on.
    pub fn number(self) -> u8
        ensures { result ≡ file_error_number self }
    {
        match self {
            FileError::Io => 1,
            FileError::NoMagic => 2,
            FileError::Truncated => 3,
            FileError::Legacy => 4,
            FileError::Newer => 5,
            FileError::UnknownKind(_) => 6,
            FileError::Compressed(_) => 7,
            FileError::BadMeta => 8,
            FileError::BadStreams => 9,
            FileError::BadScopes => 10,
            FileError::BadRange => 11,
            FileError::PartTooLong => 12,
            FileError::Refused(_) => 13,
            FileError::Memory => 14,
        }
    }

    /// Returns the error's name, without what it holds.
    pub fn name(self) -> &'static str
        ensures { result.now ≡ file_error_name self }
    {
        match self {
            FileError::Io => "Io",
            FileError::NoMagic => "NoMagic",
            FileError::Truncated => "Truncated",
            FileError::Legacy => "Legacy",
            FileError::Newer => "Newer",
            FileError::UnknownKind(_) => "UnknownKind",
            FileError::Compressed(_) => "Compressed",
            FileError::BadMeta => "BadMeta",
            FileError::BadStreams => "BadStreams",
            FileError::BadScopes => "BadScopes",
            FileError::BadRange => "BadRange",
            FileError::PartTooLong => "PartTooLong",
            FileError::Refused(_) => "Refused",
            FileError::Memory => "Memory",
        }
    }
}

impl fmt::Display for FileError {
    ghost use Rattle.std.specs.Prelude.{Some};
    ghost use Rattle.puffin_data.specs.Cause.{file_error_text};

    ghost output = { λ error. Some (file_error_text error) };

    fn fmt<W: fmt::Write>(&self, f: &mut fmt::Formatter<W>) -> fmt::Result {
        match self {
            FileError::UnknownKind(kind) => write!(f, "UnknownKind {kind}"),
            FileError::Compressed(kind) => write!(f, "Compressed {kind}"),
            FileError::Refused(cause) => write!(f, "Refused {cause}"),
            _ => f.write_str(self.name()),
        }
    }
}

impl std::error::Error for FileError {}

impl From<AllocError> for FileError {
    ghost from_gives = { λ _ error. error ≡ Memory };

    fn from(_e: AllocError) -> FileError {
        FileError::Memory
    }
}

impl<T: Drop> From<AllocFailed<T>> for FileError {
    ghost from_gives = { λ _ error. error ≡ Memory };

    fn from(_e: AllocFailed<T>) -> FileError {
        FileError::Memory
    }
}

impl From<Error> for FileError {
    ghost from_gives = { λ cause error. error ≡ file_error_of cause };

    fn from(cause: Error) -> FileError {
        match cause {
            Error::Memory => FileError::Memory,
            cause => FileError::Refused(cause),
        }
    }
}

impl From<io::Error> for FileError {
    ghost from_gives = { λ _ error. error ≡ Io };

    fn from(_e: io::Error) -> FileError {
        FileError::Io
    }
}
