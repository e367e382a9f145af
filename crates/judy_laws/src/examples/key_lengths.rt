//! Strings as keys where the longest key has 3 bytes, and at other lengths.

ghost use Rattle.std.specs.Prelude.{[], ◌∷◌, codes};
ghost use Rattle.judy_model.specs.KeyLengths.{IsBytesKeyTo, IsStringKeyTo};

/// Three bytes are a key to three, and four are none. A zero byte is one of a byte string alone.
pub fn three_bytes_are_a_key_to_three()
    ensures three { IsStringKeyTo 3 (codes "abc") }
    ensures four { IsStringKeyTo 3 (codes "abcd") → ⊥ }
    ensures four_to_four { IsStringKeyTo 4 (codes "abcd") }
    ensures empty { IsStringKeyTo 0 [] }
    ensures one_to_none { IsStringKeyTo 0 (codes "a") → ⊥ }
    ensures zero_byte { IsStringKeyTo 3 (97 ∷ 0 ∷ []) → ⊥ }
    ensures zero_in_bytes { IsBytesKeyTo 3 (97 ∷ 0 ∷ []) }
    ensures greatest_byte { IsStringKeyTo 1 (255 ∷ []) }
    ensures no_byte { IsStringKeyTo 1 (256 ∷ []) → ⊥ }
{}
