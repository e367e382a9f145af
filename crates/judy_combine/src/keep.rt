//! Which keys of two arrays a result takes.

ghost use Rattle.std.specs.Prelude.{◌≡◌, false, true, IsTrue, if◌then◌else◌};

/// Whether a result takes the keys that the left one alone has, those that both have, and those that the right one
/// alone has.
#[derive(Clone, Copy, Debug, PartialEq, Eq)]
pub struct Keep {
    pub left: bool,
    pub both: bool,
    pub right: bool,
}

impl Keep {
    pub const UNION: Keep = Keep {
        left: true,
        both: true,
        right: true,
    };

    pub const INTERSECTION: Keep = Keep {
        left: false,
        both: true,
        right: false,
    };

    pub const DIFFERENCE: Keep = Keep {
        left: true,
        both: false,
        right: false,
    };

    pub const SYMMETRIC_DIFFERENCE: Keep = Keep {
        left: true,
        both: false,
        right: true,
    };

    // Whether keys are kept that both have, and no others.
    pub fn is_intersection(self) -> bool
        ensures { IsTrue result
            → (self.left ≡ false) × (self.both ≡ true) × (self.right ≡ false) }
    {
        !self.left && self.both && !self.right
    }

    // Whether a key is kept, by which of the two have it: one of them does.
    #[inline(always)]
    pub fn takes(self, in_left: bool, in_right: bool) -> bool
        ensures { result
            ≡ (if in_left then (if in_right then self.both else self.left) else self.right) }
    {
        if in_left {
            if in_right { self.both } else { self.left }
        } else {
            self.right
        }
    }
}
