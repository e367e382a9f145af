//! How a key is printed, by its bytes.

ghost use Rattle.std.specs.Prelude.{◌≡◌, ◌<◌, ◌≤◌, ◌⊎◌, ℕ, All, List, ◌∷◌, ◌++◌};
ghost use Rattle.judy_model.specs.KeyTokens.{digits_of, printed_key};

/// A key is printed as it stands behind `=` where each of its bytes is from `!` (33) to `~` (126). One other byte, as
/// each from 128 on is, has it printed in digits behind `#`.
pub fn one_byte_that_is_no_sign_has_a_key_printed_in_digits()
    ensures signs { (key : List ℕ) → All (λ byte. (33 ≤ byte) × (byte ≤ 126)) key
        → printed_key key ≡ 61 ∷ key }
    ensures digits { (front later : List ℕ) (byte : ℕ) → (byte < 33) ⊎ (126 < byte)
        → printed_key (front ++ byte ∷ later) ≡ 35 ∷ digits_of (front ++ byte ∷ later) }
{}
