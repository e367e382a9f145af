//! Keys in digits: as they are printed, and as each digit is read.

ghost use Rattle.std.specs.Prelude.{◌≡◌, [], ◌∷◌, codes, Some, None};
ghost use Rattle.judy_model.specs.KeyTokens.{key_of, printed_key};

/// A key with a byte from 128 on is printed in digits, also where its other bytes are signs.
pub fn bytes_from_128_on_are_printed_in_digits()
    ensures least { printed_key (128 ∷ []) ≡ codes "#80" }
    ensures next { printed_key (129 ∷ []) ≡ codes "#81" }
    ensures space { printed_key (160 ∷ []) ≡ codes "#a0" }
    ensures sign { printed_key (161 ∷ []) ≡ codes "#a1" }
    ensures turned { printed_key (127 ∷ 191 ∷ []) ≡ codes "#7fbf" }
    ensures text { printed_key (195 ∷ 164 ∷ []) ≡ codes "#c3a4" }
    ensures greatest { printed_key (255 ∷ []) ≡ codes "#ff" }
    ensures behind_signs { printed_key (97 ∷ 98 ∷ 128 ∷ []) ≡ codes "#616280" }
    ensures before_signs { printed_key (254 ∷ 97 ∷ 98 ∷ []) ≡ codes "#fe6162" }
{}

/// Each digit as it is printed, in lower case.
pub fn digits_are_printed()
    ensures { printed_key (1 ∷ 35 ∷ 69 ∷ 103 ∷ 137 ∷ 171 ∷ 205 ∷ 239 ∷ [])
        ≡ codes "#0123456789abcdef" }
{}

/// Each digit of upper case as it is read.
pub fn upper_case_digits_are_read()
    ensures ten { key_of (codes "#0A") ≡ Some (10 ∷ []) }
    ensures eleven { key_of (codes "#0B") ≡ Some (11 ∷ []) }
    ensures twelve { key_of (codes "#0C") ≡ Some (12 ∷ []) }
    ensures thirteen { key_of (codes "#0D") ≡ Some (13 ∷ []) }
    ensures fourteen { key_of (codes "#0E") ≡ Some (14 ∷ []) }
    ensures fifteen { key_of (codes "#0F") ≡ Some (15 ∷ []) }
    ensures high { key_of (codes "#A0B1C2D3E4F5")
        ≡ Some (160 ∷ 177 ∷ 194 ∷ 211 ∷ 228 ∷ 245 ∷ []) }
{}

/// Each other digit.
pub fn digits_and_lower_case_digits_are_read()
    ensures digits { key_of (codes "#00010203040506070809")
        ≡ Some (0 ∷ 1 ∷ 2 ∷ 3 ∷ 4 ∷ 5 ∷ 6 ∷ 7 ∷ 8 ∷ 9 ∷ []) }
    ensures lower_case { key_of (codes "#0a0b0c0d0e0f")
        ≡ Some (10 ∷ 11 ∷ 12 ∷ 13 ∷ 14 ∷ 15 ∷ []) }
{}

/// What stands beside the digits in ASCII is none: `/` and `:`, `@` and `G`, and `g` and what is before `a`.
pub fn no_other_sign_is_a_digit()
    ensures before_digits { key_of (codes "#0/") ≡ None }
    ensures behind_digits { key_of (codes "#0:") ≡ None }
    ensures before_upper { key_of (codes "#0@") ≡ None }
    ensures behind_upper { key_of (codes "#0G") ≡ None }
    ensures before_lower { key_of (35 ∷ 48 ∷ 96 ∷ []) ≡ None }
    ensures behind_lower { key_of (codes "#0g") ≡ None }
{}
