//! What becomes of the value of a key that is there already, and what the way down to it answers.

ghost use Rattle.std.specs.Prelude.{Bool, true, false};

// What is answered where a key was to be put in. It goes through registers, where a `Result` of an `Option` goes
// through memory. The cases are ordered as `false` and `true` of an insert, which are made to these, so that mostly the
// number stays.
pub(crate) enum Put {
    // The key was there. This is the value that was replaced, and 0 where it stays.
    There(u64),
    // It was absent, and stands there with its value.
    Added,
    // It is absent, and there is no memory for it.
    Refused,
}

// Whether it stays. A type stands for the answer, so that a way down is compiled for each by itself.
pub(crate) trait Present {
    ghost REPLACES: { Bool };

    // Another value takes its place.
    const REPLACES: bool;
}

// The value stays, as an insert wants it.
pub(crate) struct Kept;

impl Present for Kept {
    ghost REPLACES = { false };

    const REPLACES: bool = false;
}

// Another value takes its place, as an exchange wants it.
pub(crate) struct Replaced;

impl Present for Replaced {
    ghost REPLACES = { true };

    const REPLACES: bool = true;
}
