//! The bytes that a profiled thread writes: scopes as a stream, the strict walk over it, and the values of packets.
//!
//! A scope is written in two steps, when it begins and when it ends. A stream is a forest of scopes.
//!
//! | to | call |
//! |---|---|
//! | write a scope | [`data::Stream::begin_scope`] or [`data::Stream::begin_scope_at`], then [`data::Stream::end_scope`] |
//! | write scopes with texts of up to 16,383 bytes | [`data::Stream::with_form`] with [`data::Form::Long`] |
//! | check that bytes are scopes, and count them | [`data::StreamInfo::parse`], [`data::walk_forest`], [`data::Reader::count_scope_and_depth`] |
//! | visit each scope of a stream | [`data::walk_with`] a [`data::Visitor`] |
//! | iterate over the scopes of one level | [`data::Reader::from_start`] as an iterator, [`data::Reader::read_top_scopes`] |
//! | join two streams with their counts | [`data::StreamInfo::extend`] |
//! | read from and write to any device | [`data::Counted::new`] for a reader or writer of std, [`data::Buffered::new`] for a `BufRead`; [`data::read_to_end`], [`data::write_all`] |
//! | parse a decimal number of a text | [`parse_number`] |
//! | encode values as bytes, and decode them | [`wire`]: `put_u64` and the like, [`wire::Cursor`] |
//! | cite a law about definitions in a proof | [`laws`] |
#![tactic(auto)]

pub mod data;
mod error;
mod file_error;
pub mod laws;
mod number;
pub mod wire;

pub use error::{Error, FrameIndex, NanoSecond, Result};
pub use file_error::FileError;
pub use number::parse_number;
