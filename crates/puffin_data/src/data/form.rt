//! How the length of a scope's text is encoded.

ghost use Rattle.std.specs.Prelude.{◌≡◌, ◌≤◌, ◌<◌, ◌^◌, ◌∷◌, length, IfOk};
ghost use Rattle.puffin_data.specs.Text.{cut_text};
ghost use Rattle.puffin_data.specs.Text.Lengths.{length_at, length_layout, text_limit};
ghost use Rattle.puffin_data.specs.inner.Groups.{second_byte};
ghost use Rattle.puffin_data.specs.Forest.Spelling.{head_size};

use crate::data::scope::{BEGIN_LIMIT, FRONT_SIZE, SIZE_FIELD};
use crate::error::{Error, Result};

/// The greatest length that both forms encode in one byte.
pub(crate) const ONE_GROUP: usize = 127;
/// The greatest length that two groups of 7 bits encode.
const TWO_GROUPS: usize = 16_383;

/// How a stream encodes the lengths of its texts: in one byte, or in one or two groups of 7 bits.
#[derive(Clone, Copy, Debug, PartialEq, Eq)]
pub enum Form {
    /// One byte. A text is cut to 127 bytes when it is written; when it is read, its length may be up to 255.
    Short,
    /// One or two groups of 7 bits, the lowest first, in the shortest encoding. A text is cut to 16,383 bytes when it is
    /// written; this is also the greatest length that can be read.
    Long,
}

impl Form {
    /// Returns the maximum number of bytes of a text that are stored.
    #[inline]
    pub(crate) fn text_limit(self) -> usize
        ensures { result ≡ text_limit self }
    {
        match self {
            Form::Short => ONE_GROUP,
            Form::Long => TWO_GROUPS,
        }
    }

    /// Returns the part of a text that is stored: its longest prefix within the limit that ends at a character boundary.
    #[inline]
    pub(crate) fn cut(self, text: &str) -> &str
        ensures cut { result.now ≡ cut_text self text.now }
        ensures short { length result.now ≤ text_limit self }
    {
        if text.len() <= self.text_limit() {
            return text;
        }
        self.cut_off(text)
    }

    /// Like [`Form::cut`], for a text that is longer than the limit. It is out of line, as such texts are rare.
    #[cold]
    #[inline(never)]
    fn cut_off(self, text: &str) -> &str
        ensures cut { result.now ≡ cut_text self text.now }
        ensures short { length result.now ≤ text_limit self }
    {
        let size = text.floor_char_boundary(self.text_limit());
        &text[..size]
    }

    /// Returns an upper bound on the size of the beginning of a scope with this text. It is [`BEGIN_LIMIT`] in the short form,
    /// and also in the long form if the text has at most 127 bytes.
    #[inline]
    pub fn begin_limit(self, text: &str) -> usize
        ensures most { head_size self (cut_text self text.now) ≤ result }
        ensures small { result < 2 ^ 15 }
    {
        // Both forms encode a text of this length alike.
        if text.len() <= ONE_GROUP {
            return BEGIN_LIMIT;
        }
        match self {
            Form::Short => BEGIN_LIMIT,
            Form::Long => FRONT_SIZE + 2 + text.len().min(TWO_GROUPS) + SIZE_FIELD,
        }
    }

    /// Returns the size of the beginning of a scope with this text.
    #[inline(always)]
    pub(crate) fn begin_size(self, text: &str) -> usize
        ensures { result ≡ head_size self (cut_text self text.now) }
    {
        if text.len() <= ONE_GROUP {
            return FRONT_SIZE + 1 + text.len() + SIZE_FIELD;
        }
        self.longer_begin_size(text)
    }

    /// Like [`Form::begin_size`], for a text that may have to be cut and whose length may take two bytes. It is out of line, as
    /// such texts are rare.
    #[inline(never)]
    fn longer_begin_size(self, text: &str) -> usize
        ensures { result ≡ head_size self (cut_text self text.now) }
    {
        let stored = self.cut(text);
        let (_, second) = length_groups(self, stored.len());
        FRONT_SIZE + 1 + usize::from(second.is_some()) + stored.len() + SIZE_FIELD
    }
}

/// Encodes the length of a text in groups of 7 bits: the first byte, and the second if there is one.
#[inline]
#[tactic(auto, unfolding(crate::specs::Text::Lengths::length_layout))]
pub(crate) fn length_groups(form: Form, text_size: usize) -> (u8, Option<u8>)
    requires { text_size ≤ text_limit form }
    ensures { length_layout form text_size ≡ result.0 ∷ second_byte result.1 }
{
    match form {
        Form::Short => (text_size as u8, None),
        Form::Long => {
            if text_size < 128 {
                return (text_size as u8, None);
            }
            ((128 + text_size % 128) as u8, Some((text_size / 128) as u8))
        }
    }
}

/// Decodes the text length at the front of a region, and returns it with the number of bytes that it takes.
///
/// Fails with `PrematureEnd` if the region ends within the length, and with `InvalidStream` if the second group is 0 or
/// indicates that a third follows.
#[inline(always)]
#[tactic(auto, unfolding(crate::specs::Text::Lengths::length_at))]
pub(crate) fn length_in(form: Form, region: &[u8]) -> Result<(usize, usize)>
    ensures read { result ≡ length_at form region.now }
    ensures size { IfOk result (λ read. read.0 < 2 ^ 15) }
    ensures used { IfOk result (λ read. read.1 ≤ 2) }
{
    let Some(&low) = region.first() else {
        return Err(Error::PrematureEnd);
    };
    match form {
        Form::Short => Ok((low as usize, 1)),
        Form::Long => {
            if low < 128 {
                return Ok((low as usize, 1));
            }
            match region.get(1) {
                None => Err(Error::PrematureEnd),
                Some(&high) => {
                    if high == 0 || high >= 128 {
                        return Err(Error::InvalidStream);
                    }
                    Ok((low as usize - 128 + 128 * high as usize, 2))
                }
            }
        }
    }
}
