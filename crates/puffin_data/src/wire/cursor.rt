//! Reading values one after the other.

ghost use Rattle.std.specs.Prelude.{◌≡◌, List, ℕ, length};
ghost use Rattle.puffin_data.specs.Value.Layout.{number, signed, byte, block, flag, IsAny, IsByte, IsU32, IsLong, IsSigned, IsBlock, IsText};
ghost use Rattle.puffin_data.specs.Value.Decoding.{byte_at, number_at, u32_at, signed_at, flag_at, bytes_at, text_at};
ghost use Rattle.puffin_data.specs.Value.Outcomes.{Reads, Gives};

use crate::wire::front::{byte_in, bytes_in, flag_in, number_in, signed_in, text_in, u32_in};
use std::marker::Model;

/// Reads values from the front of bytes, one after the other. Each reading call returns `None` exactly when no layout of the
/// kind that it reads is at the front. The cursor doesn't move then.
///
/// ```
/// let mut cursor = Cursor::new(bytes);
/// let id = cursor.u32()?;
/// let name = cursor.text()?;
/// ```
#[derive(Drop)]
pub struct Cursor<'s> {
    bytes: &'s [u8],
}

impl<'s> Model for Cursor<'s> {
    ghost Value = { List ℕ };

    ghost view = { λ cursor. cursor.bytes.now };
}

impl<'s> Cursor<'s> {
    /// Makes a cursor at the first byte.
    pub fn new(bytes: &'s [u8]) -> Cursor<'s>
        ensures { result ≡ bytes.now }
    {
        Cursor { bytes }
    }

    /// Returns how many bytes are left.
    pub fn rest(&self) -> usize
        ensures { result ≡ length self.now }
    {
        self.bytes.len()
    }

    /// Reads one byte.
    pub fn u8(&mut self) -> Option<u8>
        ensures reads { Reads (λ value. value) IsByte byte self.old result self.new }
        ensures exact { Gives (λ value. value) self.old result self.new (byte_at self.old) }
    {
        let (value, rest) = byte_in(self.bytes)?;
        self.bytes = rest;
        Some(value)
    }

    /// Reads a number of 64 bits.
    pub fn u64(&mut self) -> Option<u64>
        ensures reads { Reads (λ value. value) IsLong number self.old result self.new }
        ensures exact { Gives (λ value. value) self.old result self.new (number_at self.old) }
    {
        let (value, rest) = number_in(self.bytes)?;
        self.bytes = rest;
        Some(value)
    }

    /// Reads a number of 32 bits.
    pub fn u32(&mut self) -> Option<u32>
        ensures reads { Reads (λ value. value) IsU32 number self.old result self.new }
        ensures exact { Gives (λ value. value) self.old result self.new (u32_at self.old) }
    {
        let (value, rest) = u32_in(self.bytes)?;
        self.bytes = rest;
        Some(value)
    }

    /// Reads a signed number of 64 bits.
    pub fn i64(&mut self) -> Option<i64>
        ensures reads { Reads (λ value. value) IsSigned signed self.old result self.new }
        ensures exact { Gives (λ value. value) self.old result self.new (signed_at self.old) }
    {
        let (value, rest) = signed_in(self.bytes)?;
        self.bytes = rest;
        Some(value)
    }

    /// Reads a length and that many bytes.
    pub fn bytes(&mut self) -> Option<&'s [u8]>
        ensures reads { Reads (λ value. value.now) IsBlock block self.old result self.new }
        ensures exact { Gives (λ value. value.now) self.old result self.new (bytes_at self.old) }
    {
        let (value, rest) = bytes_in(self.bytes)?;
        self.bytes = rest;
        Some(value)
    }

    /// Reads the length of a text in bytes, and then the text, which must be UTF-8.
    pub fn text(&mut self) -> Option<&'s str>
        ensures reads { Reads (λ value. value.now) IsText block self.old result self.new }
        ensures exact { Gives (λ value. value.now) self.old result self.new (text_at self.old) }
    {
        let (value, rest) = text_in(self.bytes)?;
        self.bytes = rest;
        Some(value)
    }

    /// Reads a flag, 0 or 1. As the first byte of an option, it shows whether a value follows.
    pub fn flag(&mut self) -> Option<bool>
        ensures reads { Reads (λ value. value) IsAny flag self.old result self.new }
        ensures exact { Gives (λ value. value) self.old result self.new (flag_at self.old) }
    {
        let (value, rest) = flag_in(self.bytes)?;
        self.bytes = rest;
        Some(value)
    }
}
