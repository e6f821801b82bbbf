//! Bytes and helpers that several modules use.

use puffin_data::{Error, NanoSecond, Result};
use std::alloc::Global;
use tests_support::streams::bytes_of;

/// The range of a stream without scopes.
pub(crate) const NONE: (NanoSecond, NanoSecond) = (i64::MAX, i64::MIN);

/// Makes one scope with id 1 and no children.
pub(crate) fn leaf(
    alloc: Global,
    start: NanoSecond,
    stop: NanoSecond,
    text: &[u8],
) -> Result<Vec<u8>> {
    let size = u8::try_from(text.len()).ok().ok_or(Error::TooLarge)?;
    bytes_of(
        alloc,
        &[
            b"(\x01\0\0\0",
            &start.to_le_bytes(),
            &[size],
            text,
            b"\0\0\0\0\0\0\0\0)",
            &stop.to_le_bytes(),
        ],
    )
}

/// Makes scopes nested `depth` deep, all from 5 to 7.
pub(crate) fn nest(alloc: Global, depth: u32) -> Result<Vec<u8>> {
    let mut bytes = Vec::new(alloc);
    for inner in (0..depth).rev() {
        let size = u64::from(inner) * 31;
        bytes.extend_from_slice(b"(\x01\0\0\0\x05\0\0\0\0\0\0\0\0")?;
        bytes.extend_from_slice(&size.to_le_bytes())?;
    }
    for _ in 0..depth {
        bytes.extend_from_slice(b")\x07\0\0\0\0\0\0\0")?;
    }
    Ok(bytes)
}
