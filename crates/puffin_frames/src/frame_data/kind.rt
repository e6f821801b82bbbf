//! How the streams of a packet are compressed.

ghost use Rattle.std.specs.Prelude.{◌≡◌};
ghost use Rattle.puffin_frames.specs.Packet.Kinds.{from_byte, is_uncompressed, to_byte};

/// How packed streams are compressed.
#[derive(Clone, Copy, Debug, PartialEq, Eq)]
pub(crate) enum Kind {
    /// Not at all: the bytes are the layout of the streams.
    Uncompressed,
    /// By lz4.
    Lz4,
    /// By zstd.
    Zstd,
}

impl Kind {
    /// Returns the kind that packets store as this byte, or `None` if there is none.
    pub(crate) fn from_byte(byte: u8) -> Option<Kind>
        ensures { result ≡ from_byte byte }
    {
        match byte {
            0 => Some(Kind::Uncompressed),
            1 => Some(Kind::Lz4),
            2 => Some(Kind::Zstd),
            _ => None,
        }
    }

    /// Returns the byte that stores this kind.
    pub(crate) fn to_byte(self) -> u8
        ensures { result ≡ to_byte self }
    {
        match self {
            Kind::Uncompressed => 0,
            Kind::Lz4 => 1,
            Kind::Zstd => 2,
        }
    }

    /// Returns whether the bytes are the layout of the streams.
    pub(crate) fn is_uncompressed(self) -> bool
        ensures { result ≡ is_uncompressed self }
    {
        match self {
            Kind::Uncompressed => true,
            Kind::Lz4 | Kind::Zstd => false,
        }
    }
}
