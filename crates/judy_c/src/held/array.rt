// The array that a handle holds, or the one without keys for which it stands where it holds none.
ghost use Rattle.std.specs.Prelude.{◌≡◌, None, Some, IfOk, OnOk, OnErr, IfNone, unwrap_or};
ghost use Rattle.std.specs.Borrow.{sem};
ghost use Rattle.std.specs.Fn.{FnOnceReturnsAt};
ghost use Rattle.std.specs.Option.{option_copied_mut};
ghost use Rattle.judy_c.specs.HeldLends.{lends_if_held, lends_made};

use super::Held;
use crate::arrays::HeldArray;
use crate::box_parts::BoxParts;
use std::alloc::{AllocError, Global};

impl<T: HeldArray> Held<T> {
    // The array, and `None` where there is none.
    pub(crate) fn array(&mut self) -> Option<&mut T>
        ensures* writes_back { sem 𝓛 (lends_if_held T.row self.entry result) }
        ensures value { option_copied_mut result ≡ self.old.array }
        ensures null { IfNone result (self.old.array ≡ None) }
    {
        if self.is_null() {
            None
        } else {
            Some(self.lend())
        }
    }

    // What a question answers of the array, or of the one without keys. Nothing changes.
    pub(crate) fn ask<R, F: FnOnce(&T) -> R>(&mut self, alloc: Global, question: F) -> R
        requires { F.IsAlwaysCallable question }
        ensures answer { FnOnceReturnsAt F.FnOnce question
            (unwrap_or self.old.array T.without_keys) result }
        ensures same { self.new ≡ self.old }
    {
        match self.array() {
            Some(array) => question(array),
            None => question(&T::empty(alloc)),
        }
    }

    // The array, which is made where there is none. The error is want of memory for it; there is still none then.
    pub(crate) fn array_or_new(&mut self, alloc: Global) -> Result<&mut T, AllocError>
        ensures* writes_back { sem 𝓛 (lends_made T.row self.entry result) }
        ensures value { IfOk result (λ array. array.now ≡ unwrap_or self.old.array T.without_keys) }
        ensures null { OnErr result (self.old.array ≡ None) }
    {
        if self.is_null() {
            self.make(alloc)?;
        }
        Ok(self.lend())
    }

    // Makes the array without keys, where there is none. The error is want of memory, and there is still none then.
    // A function of its own: else a call on an array that stands saves registers for it.
    #[inline(never)]
    fn make(&mut self, alloc: Global) -> Result<(), AllocError>
        requires { self.old.array ≡ None }
        ensures made { OnOk result (self.new.array ≡ Some T.without_keys) }
        ensures unchanged { OnErr result (self.new ≡ self.old) }
    {
        let array = Box::new(alloc, T::empty(alloc))?;
        self.fill(BoxParts::of(array));
        Ok(())
    }

    // Gives the array back, and leaves none.
    pub(crate) fn release(&mut self, alloc: Global)
        ensures { self.new.array ≡ None }
    {
        if !self.is_null() {
            let _ = self.take(alloc).into_box();
        }
    }
}
