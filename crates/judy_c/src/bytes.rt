//! The handle of a map from byte strings.

ghost use Rattle.std.specs.Prelude.{Option};
ghost use Rattle.judy_model.specs.Keys.{byte_order};
ghost use Rattle.judy_model.specs.Arrays.{ArrayOf};
ghost use Rattle.judy_c.specs.Owned.{bytes_coded};

mod puts;
mod slots;

use std::marker::Model;

/// The handle by which C holds a map from byte strings: null, or the address of a box of a `JudyHs`, which it owns.
#[repr(C)]
pub struct Bytes {
    at: *mut u8,
    // The array in the box; none where the handle is null.
    pub ghost array: { Option (ArrayOf byte_order) } by { bytes_coded },
}

impl Model for Bytes {
    ghost use Rattle.judy_c.specs.Owned.{held_judyhs};

    ghost also_owns = { λ m. held_judyhs m.at m.array };
}
