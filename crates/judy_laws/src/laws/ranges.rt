//! Ranges of words: which words stand in one and how many of them are no keys, and what a set has that a range was
//! filled of, or turned round in.

ghost use Rattle.std.specs.Prelude.{◌≡◌, ◌<◌, ◌≤◌, ◌+◌, ◌-◌, ◌⊎◌, ◌↔◌, ℕ, suc, if◌then◌else◌, IsFalse, Some, None, All, Contains};
ghost use Rattle.std.specs.Option.{option_or};
ghost use Rattle.std.specs.List.Sorted.{IsStrictlySortedBy};
ghost use Rattle.std.specs.FinMap.{FinMap, contains_key, get, len, values};
ghost use Rattle.judy_model.specs.Keys.{word_order};
ghost use Rattle.judy_model.specs.Counts.{count};
ghost use Rattle.judy_model.specs.Ranges.{words_between, empties_between, count_empty, filled, flipped};

/// A word is among the words from one to another exactly where it is at or above the one and at or below the other.
/// They ascend, so that each stands once.
pub fn words_between_are_those()
    ensures those { (from to word : ℕ) → Contains (words_between from to) word
        ↔ ((from ≤ word) × (word ≤ to)) }
    ensures ascend { (from to : ℕ) → IsStrictlySortedBy word_order (words_between from to) }
{}

/// The empty words are exactly those of them that are no keys.
pub fn empties_between_are_no_keys()
    ensures { (map : FinMap word_order ℕ) (from to word : ℕ)
        → Contains (empties_between map from to) word
        ↔ (IsFalse (contains_key map word) × (from ≤ word) × (word ≤ to)) }
{}

/// Keys and empty words are together all words of a range; where the first is above the second there are none of
/// either.
pub fn keys_and_empties_fill_a_range()
    ensures all { (map : FinMap word_order ℕ) (from to : ℕ) → from ≤ to
        → count_empty map from to + count map from to ≡ suc to - from }
    ensures none { (map : FinMap word_order ℕ) (from to : ℕ) → to < from
        → (count_empty map from to ≡ 0) × (count map from to ≡ 0) }
{}

/// Each word of a range that was filled is a key, with the value that it had or else with 0. Every other word has
/// what it had.
pub fn a_filled_range_has_each_word()
    ensures within { (set : FinMap word_order ℕ) (from to word : ℕ) → from ≤ word → word ≤ to
        → get (filled set from to) word ≡ option_or (get set word) (Some 0) }
    ensures elsewhere { (set : FinMap word_order ℕ) (from to word : ℕ)
        → (word < from) ⊎ (to < word) → get (filled set from to) word ≡ get set word }
{}

/// A word of a range that was turned round is a key exactly where it wasn't, with the value 0. Every other word has
/// what it had.
pub fn a_flipped_range_has_what_it_lacked()
    ensures within { (set : FinMap word_order ℕ) (from to word : ℕ) → from ≤ word → word ≤ to
        → get (flipped set from to) word ≡ (if contains_key set word then None else Some 0) }
    ensures elsewhere { (set : FinMap word_order ℕ) (from to word : ℕ)
        → (word < from) ⊎ (to < word) → get (flipped set from to) word ≡ get set word }
{}

/// A range that is filled adds its empty words; one that is turned round loses its keys besides.
pub fn empty_words_are_added()
    ensures filled { (set : FinMap word_order ℕ) (from to : ℕ)
        → len (filled set from to) ≡ len set + count_empty set from to }
    ensures flipped { (set : FinMap word_order ℕ) (from to : ℕ)
        → len (flipped set from to) + count set from to ≡ len set + count_empty set from to }
{}

/// A set, in which each value is 0, stays one where a range of it is filled or turned round.
pub fn a_set_stays_a_set()
    ensures filled { (set : FinMap word_order ℕ) (from to : ℕ)
        → All (λ value. value ≡ 0) (values set)
        → All (λ value. value ≡ 0) (values (filled set from to)) }
    ensures flipped { (set : FinMap word_order ℕ) (from to : ℕ)
        → All (λ value. value ≡ 0) (values set)
        → All (λ value. value ≡ 0) (values (flipped set from to)) }
{}

/// A set of which a range was turned round twice is the set as it was.
pub fn flipped_twice_is_as_it_was()
    ensures { (set : FinMap word_order ℕ) (from to : ℕ) → All (λ value. value ≡ 0) (values set)
        → flipped (flipped set from to) from to ≡ set }
{}
