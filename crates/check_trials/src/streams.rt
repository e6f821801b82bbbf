//! Random, deep and crafted streams of scopes.

use crate::random::Random;
use puffin_data::data::{ScopeId, Stream};
use puffin_data::{Error, Result};
use std::alloc::Global;

/// The texts of scopes.
const TEXTS: [&str; 4] = [
    "",
    "data",
    "größe ✓",
    "a text of so many bytes that its length shows",
];

/// Begins a random scope, and returns its offset.
fn begin(stream: &mut Stream, random: &mut Random, now: i64) -> Result<usize> {
    let id = ScopeId::new(1 + random.below(9) as u32).ok_or(Error::InvalidStream)?;
    let text = random.one_of(&TEXTS, "");
    stream.begin_scope_at(now, id, text)
}

/// Ends the scope at this offset, if it lies within the stream.
fn end(stream: &mut Stream, offset: usize, now: i64) -> Result<()> {
    if stream.len() < 8 || offset > stream.len() - 8 {
        return Ok(());
    }
    stream.end_scope(offset, now)
}

/// Makes a random stream of at most `scopes` scopes, nested at most `deepest` deep.
pub(crate) fn forest(
    alloc: Global,
    random: &mut Random,
    scopes: usize,
    deepest: usize,
) -> Result<Stream> {
    let mut stream = Stream::new(alloc);
    let mut open: Vec<usize> = Vec::new(alloc);
    let mut now: i64 = 0;
    for _ in 0..scopes {
        now = now.saturating_add(random.below(50) as i64);
        if open.len() < deepest && random.below(3) > 0 {
            open.push(begin(&mut stream, random, now)?)?;
        } else if let Some(offset) = open.pop() {
            end(&mut stream, offset, now)?;
        }
    }
    for offset in open.into_iter().rev() {
        end(&mut stream, offset, now)?;
    }
    Ok(stream)
}

/// Appends the beginning of a scope at time 0, without a text, whose children take `size` bytes.
fn beginning(bytes: &mut Vec<u8>, size: u64) -> Result<()> {
    bytes.extend_from_slice(b"(\x01\0\0\0\0\0\0\0\0\0\0\0\0")?;
    bytes.extend_from_slice(&size.to_le_bytes())?;
    Ok(())
}

/// Appends the end of a scope at time 0.
fn ending(bytes: &mut Vec<u8>) -> Result<()> {
    bytes.extend_from_slice(b")\0\0\0\0\0\0\0\0")?;
    Ok(())
}

/// Makes `levels` scopes without texts, each within the one before.
pub(crate) fn nested(alloc: Global, levels: u64) -> Result<Vec<u8>> {
    let mut bytes = Vec::new(alloc);
    for level in 0..levels {
        let inner = levels.saturating_sub(level).saturating_sub(1);
        beginning(&mut bytes, inner.saturating_mul(31))?;
    }
    for _ in 0..levels {
        ending(&mut bytes)?;
    }
    Ok(bytes)
}

/// Makes `levels` scopes, each with a child that begins in it and reaches past it. A walk that goes over the children
/// again at each level takes twice as long with each level.
pub(crate) fn crafted(alloc: Global, levels: u64) -> Result<Vec<u8>> {
    let mut bytes = Vec::new(alloc);
    for _ in 0..levels {
        beginning(&mut bytes, 22)?;
        beginning(&mut bytes, 0)?;
        ending(&mut bytes)?;
    }
    Ok(bytes)
}
