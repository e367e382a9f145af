//! What a handle of C holds: a box of an array, or none.

ghost use Rattle.std.specs.Prelude.{Option};
ghost use Rattle.std.specs.Coded.{coded_option};

mod array;
mod keyed;
mod raw;

use std::marker::Model;

/// One word: null, or the address of a box of an array, which it owns.
pub struct Held<T> {
    at: *mut T,
    // The array in the box; none where the pointer is null.
    pub ghost array: { Option T } by { coded_option T.code },
}

impl<T> Model for Held<T> {
    ghost use Rattle.judy_c.specs.Owned.{held};

    ghost also_owns = { λ h. held T.row h.at h.array };
}
