// The pointer of what a handle holds: the four functions that reach behind it.
ghost use Rattle.std.specs.Prelude.{◌≡◌, is_none, IsSome, Some, None};
ghost use Rattle.std.specs.Borrow.{sem};
ghost use Rattle.judy_c.specs.HeldLends.{lends_array};

use super::Held;
use crate::box_parts::BoxParts;
use std::alloc::Global;
use std::ptr::null_mut;

impl<T> Held<T> {
    // Whether there is no array: the pointer is null.
    pub(crate) fn is_null(&mut self) -> bool
        ensures { (result ≡ is_none self.old.array) × (self.new ≡ self.old) }
    {
        self.at.is_null()
    }

    // The array, to read and to change.
    pub(crate) fn lend(&mut self) -> &mut T
        requires { IsSome self.old.array }
        ensures* writes_back { sem 𝓛 (lends_array T.row self.entry result) }
        ensures value { Some result.now ≡ self.old.array }
    {
        // SAFETY: a box of the array is owned here, and is lent for this reference alone.
        unsafe { &mut *self.at }
    }

    // Puts an array where there is none.
    pub(crate) fn fill(&mut self, array: BoxParts<T, Global>)
        requires { self.old.array ≡ None }
        ensures { self.new.array ≡ Some array.value }
    {
        let BoxParts { at, alloc: _ } = array;
        self.at = at;
    }

    // Takes the array out, and leaves none.
    pub(crate) fn take(&mut self, alloc: Global) -> BoxParts<T, Global>
        requires { IsSome self.old.array }
        ensures { (Some result.value ≡ self.old.array) × (self.new.array ≡ None) }
    {
        let at = self.at;
        self.at = null_mut();
        BoxParts { at, alloc }
    }
}
