//! The names of the numbers that calls return.

ghost use Rattle.std.specs.Prelude.{◌≡◌, ℕ, ◌&&◌, nat_lt, List, [], IfSome, IfNone, length};
ghost use Rattle.puffin_c.specs.declared.fault.Fault.{Fault};
ghost use Rattle.puffin_c.specs.Faults.{code_of, fault_name, IsNameOf};
ghost use Rattle.puffin_c.specs.Reporting.{laid_over};

use crate::fault::Fault::{self, File};
use crate::unread::lay_over;
use puffin_data::Error::*;
use puffin_data::FileError::{self, Refused};

/// Returns whether no compression has this number.
fn is_unknown(kind: u32) -> bool
    ensures { result ≡ (nat_lt 2 kind && nat_lt kind 256) }
{
    2 < kind && kind < 256
}

/// Returns the fault with this number and its name, or nothing if no call returns the number.
fn fault_at(code: u32) -> Option<(Fault, &'static str)>
    ensures some { IfSome result (λ row.
        (code_of row.0 ≡ code) × (row.1.now ≡ fault_name row.0)) }
    ensures none { IfNone result ((f : Fault) → code_of f ≡ code → fault_name f ≡ []) }
{
    let row = match code {
        1 => (Fault::Refused(PrematureEnd), "PUFFIN_PREMATURE_END"),
        2 => (Fault::Refused(InvalidStream), "PUFFIN_INVALID_STREAM"),
        3 => (Fault::Refused(ScopeNeverEnded), "PUFFIN_SCOPE_NEVER_ENDED"),
        4 => (Fault::Refused(InvalidOffset), "PUFFIN_INVALID_OFFSET"),
        6 => (Fault::Refused(TooLarge), "PUFFIN_TOO_LARGE"),
        7 => (Fault::Refused(RangeTooLong), "PUFFIN_RANGE_TOO_LONG"),
        8 => (Fault::Refused(MismatchedEnd), "PUFFIN_MISMATCHED_END"),
        9 => (Fault::Refused(ScopesOpen), "PUFFIN_SCOPES_OPEN"),
        10 => (Fault::Refused(MissingId), "PUFFIN_MISSING_ID"),
        11 => (Fault::Refused(IdsExhausted), "PUFFIN_IDS_EXHAUSTED"),
        12 => (Fault::Refused(IndexExhausted), "PUFFIN_INDEX_EXHAUSTED"),
        14 => (Fault::Refused(TooDeep), "PUFFIN_TOO_DEEP"),
        16 => (Fault::Refused(Memory), "PUFFIN_MEMORY"),
        17 => (Fault::Refused(UnlikeForms), "PUFFIN_UNLIKE_FORMS"),
        32 => (Fault::NotText, "PUFFIN_NOT_TEXT"),
        33 => (Fault::NoId, "PUFFIN_NO_ID"),
        34 => (Fault::NotOpen, "PUFFIN_NOT_OPEN"),
        35 => (Fault::IsOpen, "PUFFIN_IS_OPEN"),
        66 => (File(FileError::NoMagic), "PUFFIN_FILE_NO_MAGIC"),
        67 => (File(FileError::Truncated), "PUFFIN_FILE_TRUNCATED"),
        68 => (File(FileError::Legacy), "PUFFIN_FILE_LEGACY"),
        69 => (File(FileError::Newer), "PUFFIN_FILE_NEWER"),
        72 => (File(FileError::BadMeta), "PUFFIN_FILE_BAD_META"),
        73 => (File(FileError::BadStreams), "PUFFIN_FILE_BAD_STREAMS"),
        74 => (File(FileError::BadScopes), "PUFFIN_FILE_BAD_SCOPES"),
        75 => (File(FileError::BadRange), "PUFFIN_FILE_BAD_RANGE"),
        76 => (File(FileError::PartTooLong), "PUFFIN_FILE_PART_TOO_LONG"),
        327 => (File(FileError::Compressed(1)), "PUFFIN_FILE_COMPRESSED"),
        583 => (File(FileError::Compressed(2)), "PUFFIN_FILE_COMPRESSED"),
        333 => (
            File(Refused(PrematureEnd)),
            "PUFFIN_FILE_REFUSED + 256 * PUFFIN_PREMATURE_END",
        ),
        589 => (
            File(Refused(InvalidStream)),
            "PUFFIN_FILE_REFUSED + 256 * PUFFIN_INVALID_STREAM",
        ),
        845 => (
            File(Refused(ScopeNeverEnded)),
            "PUFFIN_FILE_REFUSED + 256 * PUFFIN_SCOPE_NEVER_ENDED",
        ),
        1613 => (
            File(Refused(TooLarge)),
            "PUFFIN_FILE_REFUSED + 256 * PUFFIN_TOO_LARGE",
        ),
        2637 => (
            File(Refused(MissingId)),
            "PUFFIN_FILE_REFUSED + 256 * PUFFIN_MISSING_ID",
        ),
        3661 => (
            File(Refused(TooDeep)),
            "PUFFIN_FILE_REFUSED + 256 * PUFFIN_TOO_DEEP",
        ),
        _ if code % 256 == 70 && is_unknown(code / 256) => (
            File(FileError::UnknownKind((code / 256) as u8)),
            "PUFFIN_FILE_UNKNOWN_KIND",
        ),
        _ => return None,
    };
    Some(row)
}

/// Returns the name of the answer with this number, or no text if no call returns it.
fn name_of(code: u32) -> &'static str
    ensures { IsNameOf code result.now }
{
    if code == 0 {
        return "PUFFIN_OK";
    }
    match fault_at(code) {
        Some((_fault, name)) => name,
        None => "",
    }
}

/// Copies the name that `puffin.h` gives to this number to the front of `out`, as much of it as fits, and returns the size of
/// the whole name in bytes. Returns 0 and copies nothing if no call returns the number. A file that is refused for another fault
/// has both names, as in `PUFFIN_FILE_REFUSED + 256 * PUFFIN_TOO_DEEP`.
#[unsafe(no_mangle)]
pub extern "C" fn puffin_fault_name(code: u32, out: &mut [u8]) -> usize
    ensures { (name : List ℕ)
        × IsNameOf code name
        × (result ≡ length name)
        × (out.new ≡ laid_over out.old name) }
{
    let name = name_of(code).as_bytes();
    lay_over(name, out);
    name.len()
}
