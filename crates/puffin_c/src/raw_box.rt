//! A box that is split into its raw parts.

ghost use Rattle.std.specs.Prelude.{◌≡◌};
ghost use Rattle.std_alloc.specs.Box.Ownership.{box_owns};

use std::alloc::Allocator;
use std::marker::Model;

/// The address of a box's value, and the allocator of the box. It owns the box.
pub(crate) struct RawBox<T, A: Allocator> {
    pub(crate) at: *mut T,
    pub(crate) heap: A,
    pub(crate) ghost value: { T },
}

impl<T, A: Allocator> Model for RawBox<T, A> {
    ghost also_owns = { λ raw. box_owns (A.dealloc_token raw.heap) T.row raw.at raw.value };
}

impl<T: Drop, A: Allocator> RawBox<T, A> {
    /// Splits a box into its parts.
    pub(crate) fn take(whole: Box<T, A>) -> RawBox<T, A>
        ensures { result.value ≡ whole.value }
    {
        let (at, heap) = Box::into_raw_with_allocator(whole);
        RawBox { at, heap }
    }

    /// Returns the box.
    pub(crate) fn restore(self) -> Box<T, A>
        ensures { result.value ≡ self.value }
    {
        let RawBox { at, heap } = self;
        unsafe { Box::from_raw(heap, at) }
    }
}
