// The four handles of C, each by what it holds.
ghost use Rattle.std.specs.Prelude.{◌≡◌, None, Some, IfOk, OnErr, IfSome, IfNone, is_none, unwrap_or};
ghost use Rattle.std.specs.Borrow.{sem};
ghost use Rattle.std.specs.Fn.{FnOnceReturnsAt};
ghost use Rattle.std.specs.Option.{option_copied_mut};

use crate::arrays::HeldArray;
use crate::box_parts::BoxParts;
use crate::bytes::Bytes;
use crate::held::Held;
use crate::map::Map;
use crate::set::Set;
use crate::strings::Strings;
use judy_hs::{Eights, JudyHs};
use judy_sl::LongStrings;
use judy_word::{Judy1, JudyL};
use std::alloc::{AllocError, Global};

// A handle of C: one word, which is what it holds.
pub(crate) trait Handle {
    type Array: HeldArray;

    ghost use Rattle.judy_c.specs.declared.held.Held.{Held};
    ghost use Rattle.judy_c.specs.HandleLends.{lends_held, lends_if_held, lends_made};

    // What a handle holds, and the handle that holds that.
    ghost held_by: { Self → Held Self.Array };

    ghost holding: { Held Self.Array → Self };

    // What the handle holds.
    fn held(&mut self) -> &mut Held<Self::Array>
        ensures* writes_back { sem 𝓛
            (lends_held Self.row Self.Array.row holding self.entry result) }
        ensures value { result.now ≡ held_by self.old };

    // The array, and `None` where the handle is null. The handle with the array as it is is the handle as it was.
    final fn array(&mut self) -> Option<&mut Self::Array>
        ensures* writes_back { sem 𝓛
            (lends_if_held Self.row Self.Array.row
            (λ h a. holding (record (held_by h) { array = Some a })) self.entry result) }
        ensures value { option_copied_mut result ≡ (held_by self.old).array }
        ensures again { IfSome result
            (λ a. holding (record (held_by self.old) { array = Some a.now }) ≡ self.old) }
        ensures null { IfNone result
            (unwrap_or (held_by self.old).array Self.Array.without_keys ≡ Self.Array.without_keys) }
    {
        self.held().array()
    }

    // What a question answers of the array that the handle stands for.
    final fn ask<R, F: FnOnce(&Self::Array) -> R>(&mut self, alloc: Global, question: F) -> R
        requires { F.IsAlwaysCallable question }
        ensures answer { FnOnceReturnsAt F.FnOnce question
            (unwrap_or (held_by self.old).array Self.Array.without_keys) result }
        ensures same { self.new ≡ self.old }
    {
        self.held().ask(alloc, question)
    }

    // The array, made where the handle is null.
    final fn array_or_new(&mut self, alloc: Global) -> Result<&mut Self::Array, AllocError>
        ensures* writes_back { sem 𝓛
            (lends_made Self.row Self.Array.row (λ h. (held_by h).array) self.entry result) }
        ensures value { IfOk result
            (λ a. a.now ≡ unwrap_or (held_by self.old).array Self.Array.without_keys) }
        ensures null { OnErr result ((held_by self.old).array ≡ None) }
    {
        self.held().array_or_new(alloc)
    }

    // Gives the array back, and leaves the handle null.
    final fn release(&mut self, alloc: Global)
        ensures { (held_by self.new).array ≡ None }
    {
        self.held().release(alloc);
    }

    // Puts an array into a null handle.
    final fn fill(&mut self, array: BoxParts<Self::Array, Global>)
        requires { (held_by self.old).array ≡ None }
        ensures { (held_by self.new).array ≡ Some array.value }
    {
        self.held().fill(array);
    }

    final fn is_null(&mut self) -> bool
        ensures { (result ≡ is_none (held_by self.old).array) × (self.new ≡ self.old) }
    {
        self.held().is_null()
    }

    // Laws: a handle is what it holds, and nothing else.
    ghost again: { (handle : Self) → holding (held_by handle) ≡ handle };

    ghost kept: { (held : Held Self.Array) → held_by (holding held) ≡ held };
}

// What is answered of the array of a handle of words, or of the one without keys where the handle is null. It is `ask`
// without a closure, for the searches that are compiled into their callers: a closure that is called in two places is a
// function of its own.
macro_rules! asked {
    ($handle:ident, $alloc:ident, $kind:ident, $array:ident => $answer:expr) => {
        match $handle.array() {
            Some($array) => $answer,
            None => {
                let $array = $kind::unbounded($alloc);
                $answer
            }
        }
    };
}

// The slot that the array of a handle lends by a call, and none where the handle is null.
macro_rules! slot_in {
    ($handle:ident, $call:ident($($argument:ident),*)) => {
        match $handle.array() {
            Some(array) => array.$call($($argument),*),
            None => None,
        }
    };
}

pub(crate) use asked;
pub(crate) use slot_in;

// SAFETY, of the four casts: a handle and what it holds are both one pointer in memory, behind which they own the same.

impl Handle for Set {
    type Array = Judy1;

    ghost use Rattle.std.specs.Prelude.{refl};
    ghost use Rattle.judy_c.specs.AsHeld.{held_by_set, as_set};

    ghost held_by = { held_by_set };

    ghost holding = { as_set };

    fn held(&mut self) -> &mut Held<Judy1> {
        unsafe { &mut *(self as *mut Set as *mut Held<Judy1>) }
    }

    ghost again = { λ handle. refl };

    ghost kept = { λ held. refl };
}

impl Handle for Map {
    type Array = JudyL;

    ghost use Rattle.std.specs.Prelude.{refl};
    ghost use Rattle.judy_c.specs.AsHeld.{held_by_map, as_map};

    ghost held_by = { held_by_map };

    ghost holding = { as_map };

    fn held(&mut self) -> &mut Held<JudyL> {
        unsafe { &mut *(self as *mut Map as *mut Held<JudyL>) }
    }

    ghost again = { λ handle. refl };

    ghost kept = { λ held. refl };
}

impl Handle for Strings {
    type Array = LongStrings;

    ghost use Rattle.std.specs.Prelude.{refl};
    ghost use Rattle.judy_c.specs.AsHeld.{held_by_strings, as_strings};

    ghost held_by = { held_by_strings };

    ghost holding = { as_strings };

    fn held(&mut self) -> &mut Held<LongStrings> {
        unsafe { &mut *(self as *mut Strings as *mut Held<LongStrings>) }
    }

    ghost again = { λ handle. refl };

    ghost kept = { λ held. refl };
}

impl Handle for Bytes {
    type Array = JudyHs<Eights>;

    ghost use Rattle.std.specs.Prelude.{refl};
    ghost use Rattle.judy_c.specs.AsHeld.{held_by_bytes, as_bytes};

    ghost held_by = { held_by_bytes };

    ghost holding = { as_bytes };

    fn held(&mut self) -> &mut Held<JudyHs<Eights>> {
        unsafe { &mut *(self as *mut Bytes as *mut Held<JudyHs<Eights>>) }
    }

    ghost again = { λ handle. refl };

    ghost kept = { λ held. refl };
}
