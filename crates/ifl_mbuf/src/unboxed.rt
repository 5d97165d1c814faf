ghost use Rattle.std.specs.Prelude.{◌≡◌};
ghost use Rattle.std_alloc.specs.Box.Ownership.{box_owns};

use std::alloc::Allocator;
use std::marker::Model;

/// A box that was taken apart: what frees it, and where its value lies. It owns the value as the
/// box did.
///
/// It is generic because a box is taken apart and made again at type parameters alone.
pub(crate) struct Unboxed<T, A: Allocator> {
    pub(crate) alloc: A,
    pub(crate) place: *mut T,
    pub(crate) ghost value: { T },
}

impl<T, A: Allocator> Model for Unboxed<T, A> {
    ghost also_owns = { λ u. box_owns (A.dealloc_token u.alloc) T.row u.place u.value };
}

impl<T: Drop, A: Allocator> Unboxed<T, A> {
    /// Takes a box apart.
    pub(crate) fn from_box(boxed: Box<T, A>) -> Unboxed<T, A>
        ensures { result.value ≡ boxed.value }
    {
        let (place, alloc) = Box::into_raw_with_allocator(boxed);
        Unboxed { alloc, place }
    }

    /// Makes the box again.
    pub(crate) fn into_box(self) -> Box<T, A>
        ensures { result.value ≡ self.value }
    {
        let Unboxed { alloc, place } = self;
        unsafe { Box::from_raw(alloc, place) }
    }
}
