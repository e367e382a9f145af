//! The commands of a judy1 array that holds 2 and 4.

ghost use Rattle.std.specs.Prelude.{[], ◌∷◌, codes, true, false, Ok, Err};
ghost use Rattle.judy_model.specs.Replies.{flag, number, nothing, bad_word, full};
ghost use Rattle.judy_model.specs.CommandExamples.{Becomes, IsReplied, set, two_keys};

/// `set` answers 1 and adds a key that isn't there, 0 at one that is, full or not; and is refused for a new key where
/// the array is full.
#[tactic(auto, using(crate::proofs::lemmas::maps::MapsOfPairs::words_computed))]
pub fn set_on_keys()
    ensures absent { Becomes (two_keys 3) (codes "set a 3") (Ok (flag true))
        (set 3 (2 ∷ 3 ∷ 4 ∷ [])) }
    ensures least { Becomes (two_keys 3) (codes "set a 0") (Ok (flag true))
        (set 3 (0 ∷ 2 ∷ 4 ∷ [])) }
    ensures greatest { Becomes (two_keys 3) (codes "set a 18446744073709551615") (Ok (flag true))
        (set 3 (2 ∷ 4 ∷ 18446744073709551615 ∷ [])) }
    ensures present { IsReplied (two_keys 3) (codes "set a 4") (Ok (flag false)) }
    ensures present_at_limit { IsReplied (two_keys 2) (codes "set a 4") (Ok (flag false)) }
    ensures at_limit { IsReplied (two_keys 2) (codes "set a 3") (Err full) }
    ensures bad_word { IsReplied (two_keys 2) (codes "set a x") (Err bad_word) }
{}

/// `unset` answers 1 and takes out a key that is there, and 0 at another.
#[tactic(auto, using(crate::proofs::lemmas::maps::MapsOfPairs::words_computed))]
pub fn unset_on_keys()
    ensures present { Becomes (two_keys 2) (codes "unset a 4") (Ok (flag true)) (set 2 (2 ∷ [])) }
    ensures first { Becomes (two_keys 2) (codes "unset a 2") (Ok (flag true)) (set 2 (4 ∷ [])) }
    ensures absent { IsReplied (two_keys 2) (codes "unset a 3") (Ok (flag false)) }
    ensures bad_word { IsReplied (two_keys 2) (codes "unset a x") (Err bad_word) }
{}

/// `test` answers 1 at a key that is there, and 0 at another.
#[tactic(auto, using(crate::proofs::lemmas::maps::MapsOfPairs::words_computed))]
pub fn test_on_keys()
    ensures present { IsReplied (two_keys 2) (codes "test a 4") (Ok (flag true)) }
    ensures absent { IsReplied (two_keys 2) (codes "test a 3") (Ok (flag false)) }
    ensures bad_word { IsReplied (two_keys 2) (codes "test a x") (Err bad_word) }
{}

/// The neighbours of a word among the keys.
#[tactic(auto, using(crate::proofs::lemmas::maps::MapsOfPairs::words_computed))]
pub fn neighbours_on_keys()
    ensures first_at { IsReplied (two_keys 2) (codes "first a 2") (Ok (number 2)) }
    ensures first_above { IsReplied (two_keys 2) (codes "first a 3") (Ok (number 4)) }
    ensures first_none { IsReplied (two_keys 2) (codes "first a 5") (Ok nothing) }
    ensures next_above { IsReplied (two_keys 2) (codes "next a 2") (Ok (number 4)) }
    ensures next_none { IsReplied (two_keys 2) (codes "next a 4") (Ok nothing) }
    ensures last_at { IsReplied (two_keys 2) (codes "last a 4") (Ok (number 4)) }
    ensures last_below { IsReplied (two_keys 2) (codes "last a 3") (Ok (number 2)) }
    ensures last_none { IsReplied (two_keys 2) (codes "last a 1") (Ok nothing) }
    ensures prev_below { IsReplied (two_keys 2) (codes "prev a 4") (Ok (number 2)) }
    ensures prev_none { IsReplied (two_keys 2) (codes "prev a 2") (Ok nothing) }
    ensures bad_word { IsReplied (two_keys 2) (codes "prev a x") (Err bad_word) }
{}

/// And among the words that are no keys.
#[tactic(auto, using(crate::proofs::lemmas::maps::MapsOfPairs::words_computed))]
pub fn empty_neighbours_on_keys()
    ensures first_at { IsReplied (two_keys 2) (codes "fe a 3") (Ok (number 3)) }
    ensures first_above { IsReplied (two_keys 2) (codes "fe a 4") (Ok (number 5)) }
    ensures next_above { IsReplied (two_keys 2) (codes "ne a 4") (Ok (number 5)) }
    ensures next_over { IsReplied (two_keys 2) (codes "ne a 3") (Ok (number 5)) }
    ensures next_none { IsReplied (two_keys 2) (codes "ne a 18446744073709551615") (Ok nothing) }
    ensures last_at { IsReplied (two_keys 2) (codes "le a 3") (Ok (number 3)) }
    ensures last_below { IsReplied (two_keys 2) (codes "le a 4") (Ok (number 3)) }
    ensures prev_below { IsReplied (two_keys 2) (codes "pe a 4") (Ok (number 3)) }
    ensures prev_over { IsReplied (two_keys 2) (codes "pe a 3") (Ok (number 1)) }
    ensures prev_none { IsReplied (two_keys 2) (codes "pe a 0") (Ok nothing) }
    ensures bad_word { IsReplied (two_keys 2) (codes "pe a x") (Err bad_word) }
{}

/// Which key stands at a place, counted from 1, and how many lie between two words.
#[tactic(auto, using(crate::proofs::lemmas::maps::MapsOfPairs::words_computed))]
pub fn counts_on_keys()
    ensures first { IsReplied (two_keys 2) (codes "bycount a 1") (Ok (number 2)) }
    ensures second { IsReplied (two_keys 2) (codes "bycount a 2") (Ok (number 4)) }
    ensures zero { IsReplied (two_keys 2) (codes "bycount a 0") (Ok nothing) }
    ensures more { IsReplied (two_keys 2) (codes "bycount a 3") (Ok nothing) }
    ensures no_word { IsReplied (two_keys 2) (codes "bycount a x") (Err bad_word) }
    ensures both { IsReplied (two_keys 2) (codes "count a 2 4") (Ok (number 2)) }
    ensures one { IsReplied (two_keys 2) (codes "count a 3 4") (Ok (number 1)) }
    ensures turned { IsReplied (two_keys 2) (codes "count a 4 2") (Ok (number 0)) }
    ensures bad_first { IsReplied (two_keys 2) (codes "count a x y") (Err bad_word) }
    ensures bad_second { IsReplied (two_keys 2) (codes "count a 2 y") (Err bad_word) }
{}
