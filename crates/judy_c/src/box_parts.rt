// A box of an array, as its pointer and its allocator.
ghost use Rattle.std.specs.Prelude.{◌≡◌};
ghost use Rattle.std.specs.Box.Ownership.{box_owns};

use std::alloc::Allocator;
use std::marker::Model;

// What a box owns, with its pointer in sight. It has no drop, so code that would let it go isn't proved.
pub(crate) struct BoxParts<T, A: Allocator> {
    pub(crate) at: *mut T,
    pub(crate) alloc: A,
    pub(crate) ghost value: { T },
}

impl<T, A: Allocator> Model for BoxParts<T, A> {
    ghost also_owns = { λ l. box_owns (A.dealloc_token l.alloc) T.row l.at l.value };
}

impl<T, A: Allocator> BoxParts<T, A> {
    pub(crate) fn of(boxed: Box<T, A>) -> BoxParts<T, A>
    where
        T: Drop,
        ensures { result.value ≡ boxed.value }
    {
        let (at, alloc) = Box::into_raw_with_allocator(boxed);
        BoxParts { at, alloc }
    }

    pub(crate) fn into_box(self) -> Box<T, A>
        ensures { result.value ≡ self.value }
    {
        let BoxParts { at, alloc } = self;
        // SAFETY: the pointer was a box's of this allocator, and what that box owned is owned here.
        unsafe { Box::from_raw(alloc, at) }
    }
}
