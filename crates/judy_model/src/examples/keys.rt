//! Keys of the two kinds of byte strings, their order, and the words of the kinds.

ghost use Rattle.std.specs.Prelude.{◌≡◌, [], ◌∷◌, codes, replicate};
ghost use Rattle.std.specs.declared.cmp.Ordering.TheVariants.{Less, Greater};
ghost use Rattle.judy_model.specs.Keys.{IsBytesKey, IsStringKey, byte_order};
ghost use Rattle.judy_model.specs.KeyLengths.{IsBytesKeyTo};
ghost use Rattle.judy_model.specs.Arrays.{judy1, judyl, judysl, judyhs, empty_array};
ghost use Rattle.judy_model.specs.Kinds.{kind_word_of};

/// A key of a judyhs array has up to 1,024 bytes, zero bytes too.
pub fn bytes_keys_are_any_bytes()
    ensures empty { IsBytesKey [] }
    ensures zero { IsBytesKey (0 ∷ 255 ∷ 0 ∷ []) }
    ensures longest { IsBytesKey (replicate 1024 0) }
    ensures too_long { IsBytesKey (replicate 1025 0) → ⊥ }
    ensures no_byte { IsBytesKey (256 ∷ []) → ⊥ }
{}

/// Where keys may have three bytes, three are a key and four aren't; where none, the empty string alone is one.
pub fn the_longest_key_has_as_many_bytes_as_that()
    ensures three { IsBytesKeyTo 3 (0 ∷ 255 ∷ 0 ∷ []) }
    ensures four { IsBytesKeyTo 3 (0 ∷ 255 ∷ 0 ∷ 0 ∷ []) → ⊥ }
    ensures empty { IsBytesKeyTo 0 [] }
    ensures one { IsBytesKeyTo 0 (0 ∷ []) → ⊥ }
    ensures no_byte { IsBytesKeyTo 3 (256 ∷ []) → ⊥ }
{}

/// A key of a judysl array has none.
pub fn string_keys_have_no_zero_byte()
    ensures empty { IsStringKey [] }
    ensures longest { IsStringKey (replicate 1024 255) }
    ensures too_long { IsStringKey (replicate 1025 1) → ⊥ }
    ensures zero { IsStringKey (97 ∷ 0 ∷ []) → ⊥ }
    ensures no_byte { IsStringKey (256 ∷ []) → ⊥ }
{}

/// `abc` < `abcd` < `abd` < `b`, and bytes aren't signed.
pub fn byte_strings_are_ordered()
    ensures prefix { byte_order (codes "abc") (codes "abcd") ≡ Less }
    ensures shorter_after { byte_order (codes "abd") (codes "abcd") ≡ Greater }
    ensures shortest_last { byte_order (codes "abd") (codes "b") ≡ Less }
    ensures zero { byte_order [] (0 ∷ []) ≡ Less }
    ensures great { byte_order (127 ∷ 255 ∷ []) (128 ∷ []) ≡ Less }
{}

/// Each kind has its word.
pub fn kinds_have_their_words()
    ensures set { kind_word_of (judy1 (empty_array 1)) ≡ codes "judy1" }
    ensures words { kind_word_of (judyl (empty_array 1)) ≡ codes "judyl" }
    ensures strings { kind_word_of (judysl (empty_array 1)) ≡ codes "judysl" }
    ensures bytes { kind_word_of (judyhs (empty_array 1)) ≡ codes "judyhs" }
{}
