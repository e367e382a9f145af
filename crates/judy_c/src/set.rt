//! The handle of a set.

ghost use Rattle.std.specs.Prelude.{Option};
ghost use Rattle.judy_word.specs.WordArrays.{WordArray};
ghost use Rattle.judy_c.specs.Owned.{set_coded};

use std::marker::Model;

/// The handle by which C holds a set: null, or the address of a box of a `Judy1`, which it owns.
#[repr(C)]
pub struct Set {
    at: *mut u8,
    // The array in the box; none where the handle is null.
    pub ghost array: { Option WordArray } by { set_coded },
}

impl Model for Set {
    ghost use Rattle.judy_c.specs.Owned.{held_judy1};

    ghost also_owns = { λ m. held_judy1 m.at m.array };
}
