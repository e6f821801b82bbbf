//! Reading one scope.

ghost use Rattle.std.specs.Prelude.{◌≡◌, ◌+◌, ◌≤◌, ◌<◌, ◌^◌, length, drop};
ghost use Rattle.byteorder.specs.Endian.{little_number};
ghost use Rattle.puffin_data.specs.Walk.Reading.{reading, sized_reading, unless_fault, text_length_in, id_in, time_in, text_begin_in, text_size_in};
ghost use Rattle.puffin_data.specs.inner.Walking.{reading_of};

use crate::data::form::{Form, length_in};
use crate::data::range::is_valid_range;
use crate::error::{Error, NanoSecond, Result};
use byteorder::{ByteOrder, LittleEndian};

/// The first byte of a scope.
pub(crate) const SCOPE_BEGIN: u8 = b'(';
/// The byte after a scope's children.
pub(crate) const SCOPE_END: u8 = b')';
/// The size of a scope's beginning up to its text's length: the first byte, the id and the start.
pub(crate) const FRONT_SIZE: usize = 13;
/// The size of the field that holds the size of a scope's children.
pub(crate) const SIZE_FIELD: usize = 8;
/// The greatest size of a scope's beginning (all bytes before its children) when it is written in the short form.
pub const BEGIN_LIMIT: usize = 149;
/// The size of a scope's end: the byte after its children, and the stop.
pub const END_SIZE: usize = 9;

/// A scope that was read without a fault. Its positions are offsets from the scope's first byte.
#[derive(Clone, Copy, Debug)]
pub struct RawScope<'s> {
    /// Identifies the scope's details. Never 0.
    pub id: u32,
    /// When the scope began, in nanoseconds.
    pub start: NanoSecond,
    /// When the scope ended, in nanoseconds.
    pub stop: NanoSecond,
    /// The stored bytes of the scope's text.
    pub text: &'s [u8],
    /// Where the children begin.
    pub child_begin: usize,
    /// Where the children end. Equal to `child_begin` if there are none.
    pub child_end: usize,
    /// Where the scope ends, and where its next sibling, if any, begins.
    pub next_sibling: usize,
}

/// Reads the id of the scope at the front of a region.
#[tactic(auto, unfolding(crate::specs::Walk::Reading::id_in))]
fn id_of(region: &[u8]) -> u32
    requires { 5 ≤ length region.now }
    ensures { result ≡ id_in region.now }
{
    LittleEndian::read_u32(&region[1..])
}

/// Reads the time at an offset of a region.
#[tactic(auto, unfolding(crate::specs::Walk::Reading::time_in))]
fn time_at(region: &[u8], place: usize) -> NanoSecond
    requires { place + 8 ≤ length region.now }
    ensures { result ≡ time_in region.now place }
{
    LittleEndian::read_i64(&region[place..])
}

/// Reads the size of the children, which is at an offset of a region.
#[inline(always)]
pub(crate) fn size_at(region: &[u8], place: usize) -> u64
    requires { place + 8 ≤ length region.now }
    ensures { result ≡ little_number 8 (drop place region.now) }
{
    LittleEndian::read_u64(&region[place..])
}

/// Reads the scope at the front of a region, once its id and its text's length are known to be sound. The text must be at these
/// offsets. Fails with the first fault of the size, the children's end and the times.
#[inline(always)]
#[tactic(auto, unfolding(crate::specs::Walk::Reading::sized_reading, crate::specs::Walk::Reading::found_in, crate::specs::Walk::Reading::size_in))]
fn scope_with_text(
    form: Form,
    region: &[u8],
    text_begin: usize,
    text_end: usize,
) -> Result<Option<RawScope<'_>>>
    requires begin { text_begin ≡ text_begin_in form region.now }
    requires end { text_end ≡ text_begin_in form region.now + text_size_in form region.now }
    requires front { FRONT_SIZE ≤ text_begin }
    requires fits { text_end + SIZE_FIELD < 2 ^ 64 }
    ensures { reading_of result ≡ sized_reading form region.now }
{
    let child_begin = text_end + SIZE_FIELD;
    if region.len() < child_begin {
        return Err(Error::PrematureEnd);
    }
    let size = size_at(region, text_end);
    // The children's end isn't computed until it is known to be within the region: the sum could overflow.
    if size >= (region.len() - child_begin) as u64 {
        return Err(if size == u64::MAX {
            Error::ScopeNeverEnded
        } else {
            Error::PrematureEnd
        });
    }
    let child_end = child_begin + size as usize;
    if region[child_end] != SCOPE_END {
        return Err(Error::InvalidStream);
    }
    if region.len() - child_end < END_SIZE {
        return Err(Error::PrematureEnd);
    }
    // The start is behind the first byte and the id's four.
    let start = time_at(region, 5);
    let stop = time_at(region, child_end + 1);
    if !is_valid_range((start, stop)) {
        return Err(Error::InvalidStream);
    }
    Ok(Some(RawScope {
        id: id_of(region),
        start,
        stop,
        text: &region[text_begin..text_end],
        child_begin,
        child_end,
        next_sibling: child_end + END_SIZE,
    }))
}

/// Reads the scope at the front of a region, once its id is known to be sound. The region must contain at least the id, the
/// start and the first byte of the text's length. Fails with a fault of that length, and as [`scope_with_text`] does.
#[inline(always)]
fn scope_with_id(form: Form, region: &[u8]) -> Result<Option<RawScope<'_>>>
    requires { FRONT_SIZE + 1 ≤ length region.now }
    ensures { reading_of result
        ≡ unless_fault (text_length_in form region.now) (sized_reading form region.now) }
{
    let (text_size, used) = length_in(form, &region[FRONT_SIZE..])?;
    let text_begin = FRONT_SIZE + used;
    scope_with_text(form, region, text_begin, text_begin + text_size)
}

/// Reads the scope at the front of a region. Returns `None` if the region is empty or begins with a byte other than `(`. Fails
/// with the scope's fault: `PrematureEnd`, `InvalidStream` or `ScopeNeverEnded`.
#[inline(always)]
#[tactic(auto, unfolding(crate::specs::Walk::Reading::reading))]
pub(crate) fn scope_in(form: Form, region: &[u8]) -> Result<Option<RawScope<'_>>>
    ensures { reading_of result ≡ reading form region.now }
{
    if region.is_empty() || region[0] != SCOPE_BEGIN {
        return Ok(None);
    }
    if region.len() <= FRONT_SIZE || id_of(region) == 0 {
        return Err(Error::PrematureEnd);
    }
    // A branch for each form, so that the offsets of the short form are constants.
    match form {
        Form::Short => scope_with_id(Form::Short, region),
        Form::Long => scope_with_id(Form::Long, region),
    }
}
