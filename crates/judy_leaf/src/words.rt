//! How many words of value each key has, as a type.

ghost use Rattle.std.specs.Prelude.{ℕ};

/// How many words of value a key has: 0 in a set, 1 in a map. A type stands for the number, since a type that
/// leads back to itself, as the tree's nodes do, can't have a number for a parameter.
pub trait Words {
    ghost WORDS: { ℕ };

    /// The number.
    const WORDS: usize;
}

/// The type that stands for the number `W`.
pub struct ValueWords<const W: usize>;

impl<const W: usize> Drop for ValueWords<W> {
    fn drop(self) {
        let ValueWords = self;
    }
}

impl<const W: usize> Words for ValueWords<W> {
    ghost WORDS = { W };

    const WORDS: usize = W;
}
