//! Damages bytes.

use crate::random::Random;
use std::alloc::AllocError;

/// Bytes that begin or end something, that make a number longer, or that make a length large.
const BYTES: [u8; 10] = [0, 1, 0x28, 0x29, 0x30, 0x34, 0x7f, 0x80, 0xfb, 0xff];

/// Overwrites the bytes from index `at` on.
fn overwrite(bytes: &mut [u8], at: usize, with: &[u8]) {
    for (number, byte) in with.iter().enumerate() {
        if let Some(place) = bytes.get_mut(at.saturating_add(number)) {
            *place = *byte;
        }
    }
}

/// Exchanges two bytes.
fn exchange(bytes: &mut [u8], one: usize, other: usize) {
    if one < bytes.len() && other < bytes.len() {
        bytes.swap(one, other);
    }
}

/// Makes one random fault: cuts the bytes, flips a bit, overwrites a byte or a number, inserts or removes a byte,
/// exchanges two, or appends one.
pub(crate) fn damage(random: &mut Random, bytes: &mut Vec<u8>) -> Result<(), AllocError> {
    let at = random.below(bytes.len());
    match random.below(9) {
        0 => bytes.truncate(at),
        1 => {
            if let Some(byte) = bytes.get_mut(at) {
                *byte ^= 1 << random.below(8);
            }
        }
        2 => overwrite(bytes, at, &[random.one_of(&BYTES, 0)]),
        3 => overwrite(bytes, at, &random.short().to_le_bytes()),
        4 => overwrite(
            bytes,
            at,
            &(random.number() >> random.below(64)).to_le_bytes(),
        ),
        5 => bytes.insert(at, random.one_of(&BYTES, 0))?,
        6 => {
            if at < bytes.len() {
                let _byte = bytes.remove(at);
            }
        }
        7 => {
            let other = random.below(bytes.len());
            exchange(bytes, at, other);
        }
        _ => bytes.push(random.byte())?,
    }
    Ok(())
}
