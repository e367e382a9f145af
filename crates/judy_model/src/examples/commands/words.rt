//! The commands of a judyl array that maps 2 to 20 and 4 to 40.

ghost use Rattle.std.specs.Prelude.{[], ◌∷◌, codes, true, false, Ok, Err};
ghost use Rattle.judy_model.specs.Replies.{was, flag, number, entry, nothing, bad_word, full};
ghost use Rattle.judy_model.specs.CommandExamples.{Becomes, IsReplied, words, two_words};

/// `get` answers the value of a key, and `none` at a key that isn't there.
#[tactic(auto, using(crate::proofs::lemmas::maps::MapsOfPairs::words_computed))]
pub fn get_on_words()
    ensures present { IsReplied (two_words 2) (codes "get a 4") (Ok (number 40)) }
    ensures absent { IsReplied (two_words 2) (codes "get a 3") (Ok nothing) }
    ensures bad_key { IsReplied (two_words 2) (codes "get a x") (Err bad_word) }
{}

/// `put` answers the value that a key had and writes the one given; at a key that isn't there it answers `none`.
#[tactic(auto, using(crate::proofs::lemmas::maps::MapsOfPairs::words_computed))]
pub fn put_on_words()
    ensures present { Becomes (two_words 2) (codes "put a 4 41") (Ok (was 40))
        (words 2 ((2, 20) ∷ (4, 41) ∷ [])) }
    ensures absent { IsReplied (two_words 2) (codes "put a 3 41") (Ok nothing) }
    ensures bad_key { IsReplied (two_words 2) (codes "put a x x") (Err bad_word) }
    ensures bad_value { IsReplied (two_words 2) (codes "put a 4 x") (Err bad_word) }
{}

/// `ins` does so at a key that is there, full or not; a new key has shown 0 and has the value given, and is refused
/// where the array is full.
#[tactic(auto, using(crate::proofs::lemmas::maps::MapsOfPairs::words_computed))]
pub fn ins_on_words()
    ensures present { Becomes (two_words 2) (codes "ins a 4 41") (Ok (was 40))
        (words 2 ((2, 20) ∷ (4, 41) ∷ [])) }
    ensures absent { Becomes (two_words 3) (codes "ins a 3 30") (Ok (was 0))
        (words 3 ((2, 20) ∷ (3, 30) ∷ (4, 40) ∷ [])) }
    ensures at_limit { IsReplied (two_words 2) (codes "ins a 3 30") (Err full) }
    ensures bad_key { IsReplied (two_words 2) (codes "ins a x x") (Err bad_word) }
    ensures bad_value { IsReplied (two_words 2) (codes "ins a 3 x") (Err bad_word) }
{}

/// `del` answers 1 and takes out a key that is there, and 0 at another.
#[tactic(auto, using(crate::proofs::lemmas::maps::MapsOfPairs::words_computed))]
pub fn del_on_words()
    ensures present { Becomes (two_words 2) (codes "del a 4") (Ok (flag true))
        (words 2 ((2, 20) ∷ [])) }
    ensures first { Becomes (two_words 2) (codes "del a 2") (Ok (flag true))
        (words 2 ((4, 40) ∷ [])) }
    ensures absent { IsReplied (two_words 2) (codes "del a 3") (Ok (flag false)) }
    ensures bad_key { IsReplied (two_words 2) (codes "del a x") (Err bad_word) }
{}

/// The neighbours of a word, with their values.
#[tactic(auto, using(crate::proofs::lemmas::maps::MapsOfPairs::words_computed))]
pub fn neighbours_on_words()
    ensures first_at { IsReplied (two_words 2) (codes "first a 2") (Ok (entry 2 20)) }
    ensures first_above { IsReplied (two_words 2) (codes "first a 3") (Ok (entry 4 40)) }
    ensures first_none { IsReplied (two_words 2) (codes "first a 5") (Ok nothing) }
    ensures next_above { IsReplied (two_words 2) (codes "next a 2") (Ok (entry 4 40)) }
    ensures next_none { IsReplied (two_words 2) (codes "next a 4") (Ok nothing) }
    ensures last_at { IsReplied (two_words 2) (codes "last a 4") (Ok (entry 4 40)) }
    ensures last_below { IsReplied (two_words 2) (codes "last a 3") (Ok (entry 2 20)) }
    ensures last_none { IsReplied (two_words 2) (codes "last a 1") (Ok nothing) }
    ensures prev_below { IsReplied (two_words 2) (codes "prev a 4") (Ok (entry 2 20)) }
    ensures prev_none { IsReplied (two_words 2) (codes "prev a 2") (Ok nothing) }
    ensures bad_word { IsReplied (two_words 2) (codes "prev a x") (Err bad_word) }
{}

/// The words beside it that are no keys.
#[tactic(auto, using(crate::proofs::lemmas::maps::MapsOfPairs::words_computed))]
pub fn empty_neighbours_on_words()
    ensures first_at { IsReplied (two_words 2) (codes "fe a 3") (Ok (number 3)) }
    ensures first_above { IsReplied (two_words 2) (codes "fe a 4") (Ok (number 5)) }
    ensures next_above { IsReplied (two_words 2) (codes "ne a 4") (Ok (number 5)) }
    ensures next_over { IsReplied (two_words 2) (codes "ne a 3") (Ok (number 5)) }
    ensures next_none { IsReplied (two_words 2) (codes "ne a 18446744073709551615") (Ok nothing) }
    ensures last_at { IsReplied (two_words 2) (codes "le a 3") (Ok (number 3)) }
    ensures last_below { IsReplied (two_words 2) (codes "le a 4") (Ok (number 3)) }
    ensures prev_below { IsReplied (two_words 2) (codes "pe a 4") (Ok (number 3)) }
    ensures prev_over { IsReplied (two_words 2) (codes "pe a 3") (Ok (number 1)) }
    ensures prev_none { IsReplied (two_words 2) (codes "pe a 0") (Ok nothing) }
    ensures bad_word { IsReplied (two_words 2) (codes "pe a x") (Err bad_word) }
{}

/// Which key stands at a place, counted from 1, with its value, and how many keys lie between two words.
#[tactic(auto, using(crate::proofs::lemmas::maps::MapsOfPairs::words_computed))]
pub fn counts_on_words()
    ensures first { IsReplied (two_words 2) (codes "bycount a 1") (Ok (entry 2 20)) }
    ensures second { IsReplied (two_words 2) (codes "bycount a 2") (Ok (entry 4 40)) }
    ensures zero { IsReplied (two_words 2) (codes "bycount a 0") (Ok nothing) }
    ensures more { IsReplied (two_words 2) (codes "bycount a 3") (Ok nothing) }
    ensures no_word { IsReplied (two_words 2) (codes "bycount a x") (Err bad_word) }
    ensures both { IsReplied (two_words 2) (codes "count a 2 4") (Ok (number 2)) }
    ensures one { IsReplied (two_words 2) (codes "count a 3 4") (Ok (number 1)) }
    ensures turned { IsReplied (two_words 2) (codes "count a 4 2") (Ok (number 0)) }
    ensures bad_first { IsReplied (two_words 2) (codes "count a x y") (Err bad_word) }
    ensures bad_second { IsReplied (two_words 2) (codes "count a 2 y") (Err bad_word) }
{}
