//! The handle of a map.

ghost use Rattle.std.specs.Prelude.{Option};
ghost use Rattle.judy_word.specs.WordArrays.{WordArray};
ghost use Rattle.judy_c.specs.Owned.{map_coded};

mod slots;

use std::marker::Model;

/// The handle by which C holds a map: null, or the address of a box of a `JudyL`, which it owns.
#[repr(C)]
pub struct Map {
    at: *mut u8,
    // The array in the box; none where the handle is null.
    pub ghost array: { Option WordArray } by { map_coded },
}

impl Model for Map {
    ghost use Rattle.judy_c.specs.Owned.{held_judyl};

    ghost also_owns = { λ m. held_judyl m.at m.array };
}
