//! A slot for what a handle holds.

ghost use Rattle.std.specs.Prelude.{◌≡◌, Option, Some, None, is_some, true};
ghost use Rattle.std.specs.Coded.{coded_option};
ghost use Rattle.puffin_c.specs.declared.held.Held.{Held};
ghost use Rattle.puffin_c.specs.contracts.held.Held.{the_row as held_row};
ghost use Rattle.puffin_c.specs.Owning.{owns_held, ids_of, thread_of, profiler_of};

use crate::profiler::Profiler;
use crate::raw_box::RawBox;
use crate::recorder::Recorder;
use crate::shared_ids::SharedIds;
use std::alloc::Global;
use std::marker::Model;
use std::ptr::null_mut;

/// The address of a box with what a handle holds, or null. The slot owns the box.
#[repr(C)]
#[derive(Drop)]
pub struct Slot {
    at: *mut u8,
    heap: Global,
    pub ghost held: { Option Held } by { coded_option held_row.coded },
}

impl Model for Slot {
    ghost also_owns = { λ slot. owns_held slot.heap slot.at slot.held };
}

impl Slot {
    /// Makes an empty slot.
    pub(crate) fn empty(heap: Global) -> Slot
        ensures { result.held ≡ None }
    {
        Slot {
            at: null_mut(),
            heap,
        }
    }

    /// Makes a slot that owns this box with ids.
    pub(crate) fn of_ids(raw: RawBox<SharedIds, Global>) -> Slot
        ensures { ids_of result.held ≡ Some raw.value }
    {
        let RawBox { at, heap } = raw;
        Slot {
            at: at as *mut u8,
            heap,
        }
    }

    /// Returns the box with ids of a slot that has one.
    pub(crate) fn into_ids(self) -> RawBox<SharedIds, Global>
        requires { is_some (ids_of self.held) ≡ true }
        ensures { ids_of self.held ≡ Some result.value }
    {
        let Slot { at, heap } = self;
        RawBox {
            at: at as *mut SharedIds,
            heap,
        }
    }

    /// Makes a slot that owns this box with a thread's profiler.
    pub(crate) fn of_thread(raw: RawBox<Recorder, Global>) -> Slot
        ensures { thread_of result.held ≡ Some raw.value }
    {
        let RawBox { at, heap } = raw;
        Slot {
            at: at as *mut u8,
            heap,
        }
    }

    /// Returns the box with a thread's profiler of a slot that has one.
    pub(crate) fn into_thread(self) -> RawBox<Recorder, Global>
        requires { is_some (thread_of self.held) ≡ true }
        ensures { thread_of self.held ≡ Some result.value }
    {
        let Slot { at, heap } = self;
        RawBox {
            at: at as *mut Recorder,
            heap,
        }
    }

    /// Makes a slot that owns this box with a profiler.
    pub(crate) fn of_profiler(raw: RawBox<Profiler, Global>) -> Slot
        ensures { profiler_of result.held ≡ Some raw.value }
    {
        let RawBox { at, heap } = raw;
        Slot {
            at: at as *mut u8,
            heap,
        }
    }

    /// Returns the box with a profiler of a slot that has one.
    pub(crate) fn into_profiler(self) -> RawBox<Profiler, Global>
        requires { is_some (profiler_of self.held) ≡ true }
        ensures { profiler_of self.held ≡ Some result.value }
    {
        let Slot { at, heap } = self;
        RawBox {
            at: at as *mut Profiler,
            heap,
        }
    }
}

// It may be sent to another thread because the box that it owns may be.
unsafe impl Send for Slot {}
