//! Handles, which a C program owns and passes to each call.

ghost use Rattle.std.specs.Prelude.{◌≡◌, None, Some, is_some, true};
ghost use Rattle.puffin_c.specs.Owning.{ids_of, thread_of, profiler_of};

use crate::profiler::Profiler;
use crate::raw_box::RawBox;
use crate::recorder::Recorder;
use crate::shared_ids::SharedIds;
use crate::slot::Slot;
use std::alloc::Global;
use std::mem;

/// A handle to a set of scope ids, which threads and profilers share. A C program initializes the handle with zeros, and it
/// isn't open at that point.
#[repr(C)]
pub struct PuffinIds {
    pub(crate) slot: Slot,
    pub(crate) is_open: bool,
    ghost tied: { is_open ≡ is_some (ids_of slot.held) },
}

impl PuffinIds {
    /// Takes the set of ids out of an open handle. The handle isn't open then.
    #[inline(always)]
    pub(crate) fn take(&mut self, alloc: Global) -> Box<SharedIds>
        requires { self.old.is_open ≡ true }
        ensures taken { ids_of self.old.slot.held ≡ Some result.value }
        ensures left { ids_of self.new.slot.held ≡ None }
    {
        let slot = mem::replace(&mut self.slot, Slot::empty(alloc));
        self.is_open = false;
        slot.into_ids().restore()
    }

    /// Opens the handle with this set of ids.
    #[inline(always)]
    pub(crate) fn put(&mut self, held: Box<SharedIds>)
        requires { ids_of self.old.slot.held ≡ None }
        ensures { ids_of self.new.slot.held ≡ Some held.value }
    {
        self.slot = Slot::of_ids(RawBox::take(held));
        self.is_open = true;
    }
}

/// A handle to a thread's profiler. A C program initializes it with zeros, and it isn't open at that point. While its scopes
/// are off, none begins.
#[repr(C)]
pub struct PuffinThread {
    pub(crate) slot: Slot,
    pub(crate) is_open: bool,
    pub(crate) is_on: bool,
    ghost tied: { is_open ≡ is_some (thread_of slot.held) },
    ghost on_is_open: { is_on ≡ true → is_open ≡ true },
}

impl PuffinThread {
    /// Takes the recorder out of an open handle. The handle isn't open then.
    #[inline(always)]
    pub(crate) fn take(&mut self, alloc: Global) -> Box<Recorder>
        requires { self.old.is_open ≡ true }
        ensures taken { thread_of self.old.slot.held ≡ Some result.value }
        ensures left { thread_of self.new.slot.held ≡ None }
    {
        let slot = mem::replace(&mut self.slot, Slot::empty(alloc));
        self.is_open = false;
        self.is_on = false;
        slot.into_thread().restore()
    }

    /// Opens the handle with this recorder, and with scopes on or off.
    #[inline(always)]
    pub(crate) fn put(&mut self, held: Box<Recorder>, is_on: bool)
        requires { thread_of self.old.slot.held ≡ None }
        ensures held { thread_of self.new.slot.held ≡ Some held.value }
        ensures on { self.new.is_on ≡ is_on }
    {
        self.slot = Slot::of_thread(RawBox::take(held));
        self.is_open = true;
        self.is_on = is_on;
    }
}

/// A handle to a profiler. A C program initializes it with zeros, and it isn't open at that point.
#[repr(C)]
pub struct PuffinProfiler {
    pub(crate) slot: Slot,
    pub(crate) is_open: bool,
    ghost tied: { is_open ≡ is_some (profiler_of slot.held) },
}

impl PuffinProfiler {
    /// Takes the profiler out of an open handle. The handle isn't open then.
    #[inline(always)]
    pub(crate) fn take(&mut self, alloc: Global) -> Box<Profiler>
        requires { self.old.is_open ≡ true }
        ensures taken { profiler_of self.old.slot.held ≡ Some result.value }
        ensures left { profiler_of self.new.slot.held ≡ None }
    {
        let slot = mem::replace(&mut self.slot, Slot::empty(alloc));
        self.is_open = false;
        slot.into_profiler().restore()
    }

    /// Opens the handle with this profiler.
    #[inline(always)]
    pub(crate) fn put(&mut self, held: Box<Profiler>)
        requires { profiler_of self.old.slot.held ≡ None }
        ensures { profiler_of self.new.slot.held ≡ Some held.value }
    {
        self.slot = Slot::of_profiler(RawBox::take(held));
        self.is_open = true;
    }
}

/// Requires that a value may be sent to another thread.
fn may_cross<T: Send>(_value: &T) {}

/// A law: each handle may be sent to another thread.
pub fn handles_may_cross(ids: &PuffinIds, thread: &PuffinThread, profiler: &PuffinProfiler) {
    may_cross(ids);
    may_cross(thread);
    may_cross(profiler);
}
