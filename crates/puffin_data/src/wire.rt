//! Encodes the values of a packet as bytes, and decodes them: values are appended to a vector, and read from the front of a
//! slice. A number has one layout, the shortest, and no value's layout is a prefix of another's. `docs/FORMAT.md` lists the
//! layouts.

mod cursor;
mod front;
mod put;

/// The byte before a number of two bytes. Numbers less than this are themselves stored as one byte.
const TWO_BYTES_MARK: u8 = 251;
/// The byte before a number of four bytes.
const FOUR_BYTES_MARK: u8 = 252;
/// The byte before a number of eight bytes.
const EIGHT_BYTES_MARK: u8 = 253;

pub use cursor::Cursor;
pub use put::{put_bytes, put_i64, put_text, put_u8, put_u32, put_u64};
