//! What begins a byte string: over `a`, `ab`, `abcd` and `b`, and over the empty string and `ab`.

ghost use Rattle.std.specs.Prelude.{◌≡◌, [], ◌∷◌, codes, true, false, Some, None};
ghost use Rattle.std.specs.FinMap.{entries};
ghost use Rattle.judy_model.specs.Prefixes.{begins_with, beginning_with, without_prefix, longest_prefix};
ghost use Rattle.judy_laws.specs.MapExamples.{fronts, with_empty};

/// Each string begins with itself and with the empty one, and with no longer one.
#[tactic(auto, using(crate::proofs::lemmas::JoinsOfPairs::bytes_joined))]
pub fn fronts_begin_a_string()
    ensures front { begins_with (codes "ab") (codes "abc") ≡ true }
    ensures itself { begins_with (codes "ab") (codes "ab") ≡ true }
    ensures empty { begins_with [] (codes "ab") ≡ true }
    ensures empty_itself { begins_with [] [] ≡ true }
    ensures longer { begins_with (codes "ab") (codes "a") ≡ false }
    ensures longer_than_empty { begins_with (codes "a") [] ≡ false }
    ensures end { begins_with (codes "b") (codes "ab") ≡ false }
    ensures other_end { begins_with (codes "ac") (codes "abc") ≡ false }
    ensures zero { begins_with (97 ∷ 0 ∷ []) (97 ∷ []) ≡ false }
{}

/// The keys that begin with a prefix: one that is a whole key, the empty one, and one longer than each key.
#[tactic(auto, using(crate::proofs::lemmas::JoinsOfPairs::bytes_joined))]
pub fn keys_begin_with_a_prefix()
    ensures whole_key { entries (beginning_with fronts (codes "ab"))
        ≡ (codes "ab", 2) ∷ (codes "abcd", 3) ∷ [] }
    ensures part { entries (beginning_with fronts (codes "abc")) ≡ (codes "abcd", 3) ∷ [] }
    ensures longer { entries (beginning_with fronts (codes "abcde")) ≡ [] }
    ensures all { entries (beginning_with with_empty []) ≡ ([], 7) ∷ (codes "ab", 2) ∷ [] }
    ensures others { entries (without_prefix fronts (codes "ab"))
        ≡ (codes "a", 1) ∷ (codes "b", 4) ∷ [] }
    ensures no_others { entries (without_prefix with_empty []) ≡ [] }
{}

/// Of two keys that begin the bytes the longer.
#[tactic(auto, using(crate::proofs::lemmas::JoinsOfPairs::bytes_joined))]
pub fn the_longer_key_begins_the_bytes()
    ensures longer { longest_prefix fronts (codes "abc") ≡ Some (codes "ab") }
    ensures shorter { longest_prefix fronts (codes "ac") ≡ Some (codes "a") }
    ensures whole { longest_prefix fronts (codes "abcd") ≡ Some (codes "abcd") }
    ensures whole_short { longest_prefix fronts (codes "ab") ≡ Some (codes "ab") }
    ensures greater { longest_prefix fronts (codes "bcd") ≡ Some (codes "b") }
    ensures none { longest_prefix fronts (codes "cab") ≡ None }
    ensures of_nothing { longest_prefix fronts [] ≡ None }
    ensures empty { longest_prefix with_empty (codes "ac") ≡ Some [] }
    ensures empty_itself { longest_prefix with_empty [] ≡ Some [] }
{}
