//! What a removal answers.

ghost use Rattle.std.specs.Prelude.{◌≡◌, true, false};

/// What a removal found and did.
#[derive(Clone, Copy, PartialEq, Eq, Debug)]
pub struct Removed {
    /// Whether the key was there.
    pub was: bool,
    /// Its value; 0 where it wasn't there, and where keys have no values.
    pub value: u64,
    /// False where a smaller node was wanted on the key's way and there was no memory for it: the larger one stays
    /// then, loose. Else true, also where the key wasn't there.
    pub shrunk: bool,
}

/// What became of a node from which a key was to be taken.
#[derive(Clone, Copy, PartialEq, Eq, Debug)]
pub enum Taken {
    /// The key isn't there, and nothing has changed.
    Absent,
    /// The key is the node's only one: its value. The node is as it was, and is to go as a whole.
    Only(u64),
    /// The key is gone: its value, and whether there was memory for each smaller node that was wanted on its way.
    Gone(u64, bool),
}

impl Removed {
    // The answer where the key wasn't there.
    pub(crate) fn none() -> Removed
        ensures { result ≡ record { was = false; value = 0; shrunk = true } }
    {
        Removed {
            was: false,
            value: 0,
            shrunk: true,
        }
    }

    // The answer where the key was there: its value, and whether there was memory for each smaller node that was
    // wanted.
    pub(crate) fn gone(value: u64, shrunk: bool) -> Removed
        ensures { result ≡ record { was = true; value = value; shrunk = shrunk } }
    {
        Removed {
            was: true,
            value,
            shrunk,
        }
    }
}
