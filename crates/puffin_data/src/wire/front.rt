//! Reads one value from the front of bytes. Each call returns the value and the bytes after it, or `None` if no layout of its
//! kind is at the front.

ghost use Rattle.std.specs.Prelude.{◌≡◌, ◌^◌, true, false, MatchOption};
ghost use Rattle.std.specs.Str.{is_utf8};
ghost use Rattle.puffin_data.specs.Value.Layout.{two_bytes_mark, number, signed, byte, block, flag, IsAny, IsByte, IsU32, IsLong, IsSigned, IsBlock, IsText};
ghost use Rattle.puffin_data.specs.Value.Decoding.{byte_at, wide_at, number_at, u32_at, signed_at, unzigzag, flag_at, bytes_at, text_at};
ghost use Rattle.puffin_data.specs.inner.Fronts.{ReadsWithRest, GivesWithRest};

use crate::wire::{EIGHT_BYTES_MARK, FOUR_BYTES_MARK, TWO_BYTES_MARK};
use byteorder::{ByteOrder, LittleEndian};

/// Reads the two bytes of a number after its mark. Returns `None` if the number has a shorter layout.
#[tactic(auto, unfolding(crate::specs::Value::Decoding::wide_at))]
fn two_bytes_in(bytes: &[u8]) -> Option<(u64, &[u8])>
    ensures { GivesWithRest (λ read. (read.0, read.1.now)) result
        (wide_at 2 two_bytes_mark bytes.now) }
{
    if bytes.len() < 2 {
        return None;
    }
    let number = LittleEndian::read_u16(bytes) as u64;
    if number < TWO_BYTES_MARK as u64 {
        return None;
    }
    Some((number, bytes.split_at(2).1))
}

/// Reads the four bytes of a number after its mark. Returns `None` if the number has a shorter layout.
#[tactic(auto, unfolding(crate::specs::Value::Decoding::wide_at))]
fn four_bytes_in(bytes: &[u8]) -> Option<(u64, &[u8])>
    ensures { GivesWithRest (λ read. (read.0, read.1.now)) result (wide_at 4 (2 ^ 16) bytes.now) }
{
    if bytes.len() < 4 {
        return None;
    }
    let number = LittleEndian::read_u32(bytes) as u64;
    if number < 65536 {
        return None;
    }
    Some((number, bytes.split_at(4).1))
}

/// Reads the eight bytes of a number after its mark. Returns `None` if the number has a shorter layout.
#[tactic(auto, unfolding(crate::specs::Value::Decoding::wide_at))]
fn eight_bytes_in(bytes: &[u8]) -> Option<(u64, &[u8])>
    ensures { GivesWithRest (λ read. (read.0, read.1.now)) result (wide_at 8 (2 ^ 32) bytes.now) }
{
    if bytes.len() < 8 {
        return None;
    }
    let number = LittleEndian::read_u64(bytes);
    if number < 4294967296 {
        return None;
    }
    Some((number, bytes.split_at(8).1))
}

/// Reads a number in its shortest layout: one byte, or a mark and the bytes after it.
#[tactic(auto, unfolding(crate::specs::Value::Decoding::number_after))]
pub(super) fn number_in(bytes: &[u8]) -> Option<(u64, &[u8])>
    ensures reads { ReadsWithRest (λ read. (read.0, read.1.now)) IsLong number bytes.now result }
    ensures exact { GivesWithRest (λ read. (read.0, read.1.now)) result (number_at bytes.now) }
{
    match bytes {
        [] => None,
        [first, rest @ ..] => {
            let first = *first;
            if first < TWO_BYTES_MARK {
                Some((first as u64, rest))
            } else if first == TWO_BYTES_MARK {
                two_bytes_in(rest)
            } else if first == FOUR_BYTES_MARK {
                four_bytes_in(rest)
            } else if first == EIGHT_BYTES_MARK {
                eight_bytes_in(rest)
            } else {
                None
            }
        }
    }
}

/// Reads a number that fits 32 bits, in its shortest layout.
pub(super) fn u32_in(bytes: &[u8]) -> Option<(u32, &[u8])>
    ensures reads { ReadsWithRest (λ read. (read.0, read.1.now)) IsU32 number bytes.now result }
    ensures exact { GivesWithRest (λ read. (read.0, read.1.now)) result (u32_at bytes.now) }
{
    let (number, rest) = number_in(bytes)?;
    if number < 4294967296 {
        Some((number as u32, rest))
    } else {
        None
    }
}

/// Undoes the folding of a signed number: returns `folded / 2` if `folded` is even, else `-(folded / 2) - 1`.
fn zigzag_back(folded: u64) -> i64
    ensures { result ≡ unzigzag folded }
{
    if folded % 2 == 0 {
        (folded / 2) as i64
    } else {
        -((folded / 2) as i64) - 1
    }
}

/// Reads a signed number, which is folded and then laid out as a number.
pub(super) fn signed_in(bytes: &[u8]) -> Option<(i64, &[u8])>
    ensures reads { ReadsWithRest (λ read. (read.0, read.1.now)) IsSigned signed bytes.now result }
    ensures exact { GivesWithRest (λ read. (read.0, read.1.now)) result (signed_at bytes.now) }
{
    let (folded, rest) = number_in(bytes)?;
    Some((zigzag_back(folded), rest))
}

/// Reads a number and then that many bytes.
pub(super) fn bytes_in(bytes: &[u8]) -> Option<(&[u8], &[u8])>
    ensures reads { ReadsWithRest (λ read. (read.0.now, read.1.now)) IsBlock block bytes.now
        result }
    ensures exact { GivesWithRest (λ read. (read.0.now, read.1.now)) result (bytes_at bytes.now) }
{
    let (len, rest) = number_in(bytes)?;
    if (rest.len() as u64) < len {
        return None;
    }
    Some(rest.split_at(len as usize))
}

/// Returns stored bytes as a text, or `None` if they are not UTF-8.
#[tactic(auto, using(crate::proofs::lemmas::Texts::utf8_tests))]
fn text_of(stored: &[u8]) -> Option<&str>
    ensures { MatchOption result (is_utf8 stored.now ≡ false) (λ text.
        (text.now ≡ stored.now) × (is_utf8 stored.now ≡ true)) }
{
    match std::str::from_utf8(stored) {
        Ok(text) => Some(text),
        Err(_) => None,
    }
}

/// Reads a text: a number and then that many bytes, which must be UTF-8.
pub(super) fn text_in(bytes: &[u8]) -> Option<(&str, &[u8])>
    ensures reads { ReadsWithRest (λ read. (read.0.now, read.1.now)) IsText block bytes.now result }
    ensures exact { GivesWithRest (λ read. (read.0.now, read.1.now)) result (text_at bytes.now) }
{
    let (stored, rest) = bytes_in(bytes)?;
    let text = text_of(stored)?;
    Some((text, rest))
}

/// Reads a flag, which is one byte, 0 or 1.
pub(super) fn flag_in(bytes: &[u8]) -> Option<(bool, &[u8])>
    ensures reads { ReadsWithRest (λ read. (read.0, read.1.now)) IsAny flag bytes.now result }
    ensures exact { GivesWithRest (λ read. (read.0, read.1.now)) result (flag_at bytes.now) }
{
    match bytes {
        [0, rest @ ..] => Some((false, rest)),
        [1, rest @ ..] => Some((true, rest)),
        _ => None,
    }
}

/// Reads one byte.
pub(super) fn byte_in(bytes: &[u8]) -> Option<(u8, &[u8])>
    ensures reads { ReadsWithRest (λ read. (read.0, read.1.now)) IsByte byte bytes.now result }
    ensures exact { GivesWithRest (λ read. (read.0, read.1.now)) result (byte_at bytes.now) }
{
    match bytes {
        [] => None,
        [first, rest @ ..] => Some((*first, rest)),
    }
}
