//! How a scope's beginning and end are encoded, and how a text is copied.

ghost use Rattle.std.specs.Prelude.{◌≡◌, ◌+◌, ◌≤◌, [], ◌++◌, length, take, drop, ◌∷◌};
ghost use Rattle.byteorder.specs.Endian.{little_bytes};
ghost use Rattle.puffin_data.specs.Forest.Spelling.{begin_mark, end_mark, time_bytes};

use crate::data::scope::{END_SIZE, FRONT_SIZE, SCOPE_BEGIN, SCOPE_END};
use crate::error::NanoSecond;
use byteorder::{ByteOrder, LittleEndian};

/// Encodes a scope's beginning up to and including the first byte of its text's length, in the first 14 of the 16 bytes
/// returned. Two words are faster to write than four numbers.
#[inline]
pub(crate) fn front(id: u32, start: NanoSecond, group: u8) -> [u8; 16]
    ensures { take (FRONT_SIZE + 1) result
        ≡ begin_mark ∷ (little_bytes 4 id ++ (time_bytes start ++ (group ∷ []))) }
{
    let time = start.cast_unsigned();
    // The first word holds `(`, the id and the lowest three bytes of the start, the second the other five and the group.
    let low = SCOPE_BEGIN as u64 + u64::from(id) * 0x100 + time % 0x100_0000 * 0x100_0000_0000;
    let high = time / 0x100_0000 + u64::from(group) * 0x100_0000_0000;
    let mut front = [0; 16];
    LittleEndian::write_u64(&mut front[8..], high);
    LittleEndian::write_u64(&mut front[..8], low);
    front
}

/// Encodes what follows a scope's children: `)` and the stop.
#[inline]
pub(crate) fn back(stop: NanoSecond) -> [u8; END_SIZE]
    ensures { result ≡ end_mark ∷ time_bytes stop }
{
    let mut back = [SCOPE_END; END_SIZE];
    LittleEndian::write_i64(&mut back[1..], stop);
    back
}

/// Encodes the size of a scope's children.
#[inline]
pub(crate) fn size_word(size: u64) -> [u8; 8]
    ensures { result ≡ little_bytes 8 size }
{
    let mut word = [0; 8];
    LittleEndian::write_u64(&mut word, size);
    word
}

/// Copies the first eight bytes of `from` to the front of `to`.
#[inline(always)]
fn copy_eight(to: &mut [u8], from: &[u8])
    requires to { 8 ≤ length to.old }
    requires from { 8 ≤ length from.now }
    ensures { to.new ≡ take 8 from.now ++ drop 8 to.old }
{
    let word = [
        from[0], from[1], from[2], from[3], from[4], from[5], from[6], from[7],
    ];
    to[..8].copy_from_slice(&word);
}

/// Copies `from` to `to`, which must have the same length. A text of 8 to 16 bytes is copied as two pieces of eight that may
/// overlap, which needs no call.
#[inline(always)]
pub(crate) fn copy_text(to: &mut [u8], from: &[u8])
    requires { length to.old ≡ length from.now }
    ensures { to.new ≡ from.now }
{
    let size = from.len();
    if size < 8 || size > 16 {
        return to.copy_from_slice(from);
    }
    copy_eight(to, from);
    copy_eight(&mut to[size - 8..], &from[size - 8..]);
}
