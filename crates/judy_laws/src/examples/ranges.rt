//! Ranges, with both bounds in them: over {2 → 20, 4 → 40, 7 → 70} and over sets of the words 2 and 4, and 2 and the
//! greatest word.

ghost use Rattle.std.specs.Prelude.{◌≡◌, [], ◌∷◌, codes};
ghost use Rattle.std.specs.FinMap.{entries};
ghost use Rattle.judy_model.specs.Ranges.{within, outside, below, from_on, words_between, count_empty, filled, flipped};
ghost use Rattle.judy_laws.specs.MapExamples.{three, greatest, two_and_four, two_and_greatest, fronts};

/// From one key to another: both are in, and where the first is above the second there is none.
#[tactic(auto, using(crate::proofs::lemmas::JoinsOfPairs::words_joined))]
pub fn both_bounds_are_within()
    ensures ends { entries (within three 2 4) ≡ (2, 20) ∷ (4, 40) ∷ [] }
    ensures between { entries (within three 3 6) ≡ (4, 40) ∷ [] }
    ensures one { entries (within three 4 4) ≡ (4, 40) ∷ [] }
    ensures none { entries (within three 5 6) ≡ [] }
    ensures reversed { entries (within three 7 2) ≡ [] }
    ensures outside { entries (outside three 2 4) ≡ (7, 70) ∷ [] }
    ensures outside_between { entries (outside three 3 6) ≡ (2, 20) ∷ (7, 70) ∷ [] }
    ensures outside_reversed { entries (outside three 7 2)
        ≡ (2, 20) ∷ (4, 40) ∷ (7, 70) ∷ [] }
{}

/// On either side of a key: the key itself is from it on.
#[tactic(auto, using(crate::proofs::lemmas::JoinsOfPairs::words_joined))]
pub fn a_key_is_from_itself_on()
    ensures below { entries (below three 4) ≡ (2, 20) ∷ [] }
    ensures from_on { entries (from_on three 4) ≡ (4, 40) ∷ (7, 70) ∷ [] }
    ensures below_least { entries (below three 2) ≡ [] }
    ensures from_greatest { entries (from_on three 7) ≡ (7, 70) ∷ [] }
    ensures below_absent { entries (below three 5) ≡ (2, 20) ∷ (4, 40) ∷ [] }
    ensures from_absent { entries (from_on three 5) ≡ (7, 70) ∷ [] }
{}

/// Of byte strings: `b` is above all that begin with `a`.
#[tactic(auto, using(crate::proofs::lemmas::JoinsOfPairs::bytes_joined))]
pub fn both_byte_strings_are_within()
    ensures ends { entries (within fronts (codes "a") (codes "ab"))
        ≡ (codes "a", 1) ∷ (codes "ab", 2) ∷ [] }
    ensures between { entries (within fronts (codes "aa") (codes "abz"))
        ≡ (codes "ab", 2) ∷ (codes "abcd", 3) ∷ [] }
    ensures reversed { entries (within fronts (codes "b") (codes "a")) ≡ [] }
{}

/// Words from one to another, and how many of them are no keys.
#[tactic(auto, using(crate::proofs::lemmas::JoinsOfPairs::words_joined))]
pub fn words_of_a_range()
    ensures words { words_between 3 5 ≡ 3 ∷ 4 ∷ 5 ∷ [] }
    ensures one { words_between 5 5 ≡ 5 ∷ [] }
    ensures reversed { words_between 5 3 ≡ [] }
    ensures greatest { words_between greatest greatest ≡ greatest ∷ [] }
    ensures empty { count_empty three 2 7 ≡ 3 }
    ensures empty_ends { count_empty three 3 6 ≡ 3 }
    ensures empty_key { count_empty three 4 4 ≡ 0 }
    ensures empty_word { count_empty three 5 5 ≡ 1 }
    ensures empty_reversed { count_empty three 7 2 ≡ 0 }
    ensures empty_greatest { count_empty three greatest greatest ≡ 1 }
{}

/// Filled from one word to another, both included.
#[tactic(auto, using(crate::proofs::lemmas::JoinsOfPairs::words_joined))]
pub fn both_bounds_are_filled()
    ensures range { entries (filled two_and_four 3 5)
        ≡ (2, 0) ∷ (3, 0) ∷ (4, 0) ∷ (5, 0) ∷ [] }
    ensures key { entries (filled two_and_four 4 4) ≡ (2, 0) ∷ (4, 0) ∷ [] }
    ensures reversed { entries (filled two_and_four 5 3) ≡ (2, 0) ∷ (4, 0) ∷ [] }
    ensures greatest { entries (filled two_and_four greatest greatest)
        ≡ (2, 0) ∷ (4, 0) ∷ (greatest, 0) ∷ [] }
{}

/// Turned round from one word to another, both included, and at the greatest word.
#[tactic(auto, using(crate::proofs::lemmas::JoinsOfPairs::words_joined))]
pub fn both_bounds_are_flipped()
    ensures keys { entries (flipped two_and_four 2 4) ≡ (3, 0) ∷ [] }
    ensures words { entries (flipped two_and_four 3 5)
        ≡ (2, 0) ∷ (3, 0) ∷ (5, 0) ∷ [] }
    ensures reversed { entries (flipped two_and_four 4 2) ≡ (2, 0) ∷ (4, 0) ∷ [] }
    ensures greatest_in { entries (flipped two_and_four greatest greatest)
        ≡ (2, 0) ∷ (4, 0) ∷ (greatest, 0) ∷ [] }
    ensures greatest_out { entries (flipped two_and_greatest greatest greatest) ≡ (2, 0) ∷ [] }
{}
