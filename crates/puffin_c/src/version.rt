//! The versions of the library and of its interface, for programs that compare their header with the library.

ghost use Rattle.std.specs.Prelude.{◌≡◌};

use crate::count::PuffinCount;
use crate::frame::PuffinFrame;
use crate::handles::{PuffinIds, PuffinProfiler, PuffinThread};
use crate::merged::{PuffinMerged, PuffinMergedList};
use crate::naming::PuffinPlace;
use crate::scopes::{PuffinScope, PuffinScopeList};
use crate::streams::{PuffinStream, PuffinStreamList};
use crate::thread_name::PuffinThreadName;
use crate::threads::{PuffinFileThread, PuffinFileThreadList};
use std::mem::size_of;

/// The version of a library or of a header.
#[repr(C)]
#[derive(Clone, Copy)]
pub struct PuffinVersion {
    /// Raised by a change that programs have to follow.
    pub major: u32,
    /// Raised by an addition; while the major number is 0, also by a change that programs have to follow.
    pub minor: u32,
    /// Raised by a correction.
    pub patch: u32,
}

/// Returns the version of this library.
#[unsafe(no_mangle)]
pub extern "C" fn puffin_version() -> PuffinVersion
    ensures { result ≡ record { major = 0; minor = 20; patch = 0 } }
{
    PuffinVersion {
        major: 0,
        minor: 20,
        patch: 0,
    }
}

/// Returns the version of the interface: of the calls that there are, of their parameters and of the structs. Only a program whose
/// header has the same one may make other calls.
#[unsafe(no_mangle)]
pub extern "C" fn puffin_interface() -> u32
    ensures { result ≡ 3 }
{
    3
}

// The sizes of the structs in `puffin.h`. A change of one is a change of the interface.
const _: () = prove!(size_of::<PuffinCount>() == 32);

const _: () = prove!(size_of::<PuffinFrame>() == 48);

const _: () = prove!(size_of::<PuffinIds>() == 16);

const _: () = prove!(size_of::<PuffinThread>() == 16);

const _: () = prove!(size_of::<PuffinProfiler>() == 16);

const _: () = prove!(size_of::<PuffinScope>() == 48);

const _: () = prove!(size_of::<PuffinStream>() == 64);

const _: () = prove!(size_of::<PuffinFileThread>() == 48);

const _: () = prove!(size_of::<PuffinMerged>() == 72);

const _: () = prove!(size_of::<PuffinPlace<'static>>() == 56);

const _: () = prove!(size_of::<PuffinThreadName<'static>>() == 32);

const _: () = prove!(size_of::<PuffinScopeList<'static>>() == 48);

const _: () = prove!(size_of::<PuffinStreamList<'static>>() == 104);

const _: () = prove!(size_of::<PuffinFileThreadList<'static>>() == 48);

const _: () = prove!(size_of::<PuffinMergedList<'static>>() == 48);
