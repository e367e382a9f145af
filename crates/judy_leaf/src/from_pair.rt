//! What is made of a key and its value where pairs are written.

ghost use Rattle.std.specs.Prelude.{◌≡◌, ℕ};

/// What stands for a key with its value where pairs are written: the pair of both, the key alone, or what a caller has
/// for them.
pub trait FromPair: Copy {
    ghost made: { ℕ → ℕ → Self };

    /// What stands for a key with its value.
    fn from_pair(key: u64, value: u64) -> Self
        ensures { result ≡ made key value };
}

impl FromPair for (u64, u64) {
    ghost made = { λ key value. (key, value) };

    #[inline(always)]
    fn from_pair(key: u64, value: u64) -> (u64, u64) {
        (key, value)
    }
}

impl FromPair for u64 {
    ghost made = { λ key value. key };

    #[inline(always)]
    fn from_pair(key: u64, _value: u64) -> u64 {
        key
    }
}
