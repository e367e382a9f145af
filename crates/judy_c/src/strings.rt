//! The handle of a map from strings.

ghost use Rattle.std.specs.Prelude.{Option};
ghost use Rattle.judy_model.specs.Keys.{byte_order};
ghost use Rattle.judy_model.specs.Arrays.{ArrayOf};
ghost use Rattle.judy_c.specs.Owned.{strings_coded};

mod puts;
mod scans;
mod slots;

use std::marker::Model;

/// The handle by which C holds a map from strings: null, or the address of a box of a `LongStrings`, which it owns.
#[repr(C)]
pub struct Strings {
    at: *mut u8,
    // The array in the box; none where the handle is null.
    pub ghost array: { Option (ArrayOf byte_order) } by { strings_coded },
}

impl Model for Strings {
    ghost use Rattle.judy_c.specs.Owned.{held_judysl};

    ghost also_owns = { λ m. held_judysl m.at m.array };
}
