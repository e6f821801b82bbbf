ghost use Rattle.std.specs.Prelude.{◌≡◌};
ghost use Rattle.std.specs.IoError.{error_kind};
ghost use Rattle.puffin_data.specs.declared.error.Error.TheVariants.{Memory};
ghost use Rattle.puffin_data.specs.Cause.{error_number, error_name, io_kind_of};

use std::alloc::{AllocError, AllocFailed};
use std::{fmt, io};

/// A point in time or a duration, in nanoseconds.
pub type NanoSecond = i64;

/// The number of a frame, counted from 0.
pub type FrameIndex = u64;

/// A `Result` whose error is [`Error`], for calls of this crate and of the crates above it.
pub type Result<T> = std::result::Result<T, Error>;

/// Why a call failed. It displays as its name.
#[derive(Clone, Copy, Debug, PartialEq, Eq)]
pub enum Error {
    /// The bytes end within a scope, or a scope's id is 0.
    PrematureEnd,
    /// A scope doesn't begin with `(` or its end with `)`, a scope stops before it starts, its duration doesn't fit `i64`, or
    /// the second byte of a long text's length is 0 or indicates that a third follows.
    InvalidStream,
    /// A scope was begun and not ended.
    ScopeNeverEnded,
    /// A reader's offset is greater than the stream's length.
    InvalidOffset,
    /// A frame's joined range is reversed, for example because there are no scopes.
    Empty,
    /// A sum, a count or a merged number doesn't fit its type.
    TooLarge,
    /// A joined range isn't reversed, but its duration doesn't fit `i64`.
    RangeTooLong,
    /// The scope to be ended isn't the innermost open one.
    MismatchedEnd,
    /// A report was asked for while a scope is open.
    ScopesOpen,
    /// Scope details have no id, or a place isn't one of its thread's scopes.
    MissingId,
    /// The next id is 0 or doesn't fit `u32`.
    IdsExhausted,
    /// The frame index can't rise any further.
    IndexExhausted,
    /// No id is left for a new sink.
    SinkIdsExhausted,
    /// A merge met a scope that is nested in 1,024 others.
    TooDeep,
    /// A command names a thread that the session doesn't have.
    NoThread,
    /// An allocation, or a clone of an `Arc`, failed.
    Memory,
    /// Streams of different forms can't be joined.
    UnlikeForms,
}

impl Error {
    /// Returns the error's number: 1 for the first variant, and so on.
    pub fn number(self) -> u8
        ensures { result ≡ error_number self }
    {
        self as u8 + 1
    }

    /// Returns the error's name.
    pub fn name(self) -> &'static str
        ensures { result.now ≡ error_name self }
    {
        match self {
            Error::PrematureEnd => "PrematureEnd",
            Error::InvalidStream => "InvalidStream",
            Error::ScopeNeverEnded => "ScopeNeverEnded",
            Error::InvalidOffset => "InvalidOffset",
            Error::Empty => "Empty",
            Error::TooLarge => "TooLarge",
            Error::RangeTooLong => "RangeTooLong",
            Error::MismatchedEnd => "MismatchedEnd",
            Error::ScopesOpen => "ScopesOpen",
            Error::MissingId => "MissingId",
            Error::IdsExhausted => "IdsExhausted",
            Error::IndexExhausted => "IndexExhausted",
            Error::SinkIdsExhausted => "SinkIdsExhausted",
            Error::TooDeep => "TooDeep",
            Error::NoThread => "NoThread",
            Error::Memory => "Memory",
            Error::UnlikeForms => "UnlikeForms",
        }
    }
}

impl fmt::Display for Error {
    ghost use Rattle.std.specs.Prelude.{Some};
    ghost use Rattle.puffin_data.specs.Cause.{error_name};

    ghost output = { λ error. Some (error_name error) };

    fn fmt<W: fmt::Write>(&self, f: &mut fmt::Formatter<W>) -> fmt::Result {
        f.write_str(self.name())
    }
}

impl std::error::Error for Error {}

impl From<AllocError> for Error {
    ghost from_gives = { λ _ error. error ≡ Memory };

    fn from(_e: AllocError) -> Error {
        Error::Memory
    }
}

impl<T: Drop> From<AllocFailed<T>> for Error {
    ghost from_gives = { λ _ error. error ≡ Memory };

    fn from(_e: AllocFailed<T>) -> Error {
        Error::Memory
    }
}

/// `Memory` is an `OutOfMemory`. Any other cause is an `Other`, whose message is the cause's name.
impl From<Error> for io::Error {
    ghost from_gives = { λ cause error. error_kind error ≡ io_kind_of cause };

    fn from(cause: Error) -> io::Error {
        match cause {
            Error::Memory => io::Error::from(io::ErrorKind::OutOfMemory),
            cause => io::Error::other(cause.name()),
        }
    }
}
