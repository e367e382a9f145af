//! What the empty neighbours of a word are. A word is empty where it is no key of the map. Each law holds
//! at every number, a word or not.

ghost use Rattle.std.specs.Prelude.{ℕ};
ghost use Rattle.std.specs.FinMap.{FinMap};
ghost use Rattle.judy_model.specs.Keys.{word_order};
ghost use Rattle.judy_model.specs.Empties.{first_empty, next_empty, last_empty, prev_empty};
ghost use Rattle.judy_model.specs.Nearest.{IsFirst, IsNext, IsLast, IsPrev, is_empty_word};

/// `first_empty` answers the least empty word at or above the given number, and none where there is none.
pub fn first_empty_is_nearest()
    ensures { (map : FinMap word_order ℕ) (from : ℕ)
        → IsFirst word_order (is_empty_word map) from (first_empty map from) }
{}

/// `next_empty` answers the least empty word above the given number, and none where there is none.
pub fn next_empty_is_nearest()
    ensures { (map : FinMap word_order ℕ) (from : ℕ)
        → IsNext word_order (is_empty_word map) from (next_empty map from) }
{}

/// `last_empty` answers the greatest empty word at or below the given number, and none where there is
/// none.
pub fn last_empty_is_nearest()
    ensures { (map : FinMap word_order ℕ) (from : ℕ)
        → IsLast word_order (is_empty_word map) from (last_empty map from) }
{}

/// `prev_empty` answers the greatest empty word below the given number, and none where there is none.
pub fn prev_empty_is_nearest()
    ensures { (map : FinMap word_order ℕ) (from : ℕ)
        → IsPrev word_order (is_empty_word map) from (prev_empty map from) }
{}
