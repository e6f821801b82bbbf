//! The versions of packets.

ghost use Rattle.std.specs.Prelude.{◌≡◌};
ghost use Rattle.puffin_frames.specs.Packet.Letters.{for_form, from_letter, has_details, has_kind, letters, text_form};

use puffin_data::data::Form;

/// A version of packets that can be read, named after the letters that its packets begin with.
#[derive(Clone, Copy, Debug, PartialEq, Eq)]
pub(crate) enum Version {
    /// Packets without scope details, whose streams were compressed by zstd.
    Pfd2,
    /// Packets without scope details.
    Pfd3,
    /// The packets that are written for short streams.
    Pfd4,
    /// The packets that are written if a stream is of the long form.
    PfdL,
}

impl Version {
    /// Returns the version of packets that begin with `PFD` and this letter, or `None` if they aren't read.
    pub(crate) fn from_letter(letter: u8) -> Option<Version>
        ensures { result ≡ from_letter letter }
    {
        match letter {
            b'2' => Some(Version::Pfd2),
            b'3' => Some(Version::Pfd3),
            b'4' => Some(Version::Pfd4),
            b'L' => Some(Version::PfdL),
            _ => None,
        }
    }

    /// Returns the version that is written for streams of this form.
    pub(crate) fn for_form(form: Form) -> Version
        ensures { result ≡ for_form form }
    {
        match form {
            Form::Short => Version::Pfd4,
            Form::Long => Version::PfdL,
        }
    }

    /// Returns the four letters that packets of this version begin with.
    pub(crate) fn letters(self) -> &'static [u8]
        ensures { result.now ≡ letters self }
    {
        match self {
            Version::Pfd2 => b"PFD2",
            Version::Pfd3 => b"PFD3",
            Version::Pfd4 => b"PFD4",
            Version::PfdL => b"PFDL",
        }
    }

    /// Returns whether packets of this version store the kind of their streams.
    pub(crate) fn has_kind(self) -> bool
        ensures { result ≡ has_kind self }
    {
        match self {
            Version::Pfd2 => false,
            Version::Pfd3 | Version::Pfd4 | Version::PfdL => true,
        }
    }

    /// Returns whether packets of this version have scope details.
    pub(crate) fn has_details(self) -> bool
        ensures { result ≡ has_details self }
    {
        match self {
            Version::Pfd2 | Version::Pfd3 => false,
            Version::Pfd4 | Version::PfdL => true,
        }
    }

    /// Returns the form of the texts in packets of this version. Packets of the long form store each stream's form.
    pub(crate) fn text_form(self) -> Form
        ensures { result ≡ text_form self }
    {
        match self {
            Version::Pfd2 | Version::Pfd3 | Version::Pfd4 => Form::Short,
            Version::PfdL => Form::Long,
        }
    }
}
