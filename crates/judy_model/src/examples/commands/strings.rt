//! The commands of a judysl array that maps `ab` to 20 and `b` to 40.

ghost use Rattle.std.specs.Prelude.{[], ◌∷◌, codes, true, false, Ok, Err};
ghost use Rattle.judy_model.specs.Replies.{was, flag, number, string_entry, nothing, bad_word, bad_key, full};
ghost use Rattle.judy_model.specs.CommandExamples.{Becomes, IsReplied, strings, two_strings};

/// `get` answers the value of a key, and `none` at a key that isn't there.
#[tactic(auto, using(crate::proofs::lemmas::maps::MapsOfPairs::bytes_computed))]
pub fn get_on_strings()
    ensures present { IsReplied (two_strings 2) (codes "get a =b") (Ok (number 40)) }
    ensures absent { IsReplied (two_strings 2) (codes "get a =aba") (Ok nothing) }
    ensures bad_key { IsReplied (two_strings 2) (codes "get a #00") (Err bad_key) }
{}

/// `put` answers the value that a key had and writes the one given; at a key that isn't there it answers `none`.
#[tactic(auto, using(crate::proofs::lemmas::maps::MapsOfPairs::bytes_computed))]
pub fn put_on_strings()
    ensures present { Becomes (two_strings 2) (codes "put a =b 41") (Ok (was 40))
        (strings 2 ((codes "ab", 20) ∷ (codes "b", 41) ∷ [])) }
    ensures absent { IsReplied (two_strings 2) (codes "put a =aba 41") (Ok nothing) }
    ensures bad_key { IsReplied (two_strings 2) (codes "put a #00 x") (Err bad_key) }
    ensures bad_value { IsReplied (two_strings 2) (codes "put a =b x") (Err bad_word) }
{}

/// `ins` does so at a key that is there, full or not; a new key has shown 0 and has the value given, and is refused
/// where the array is full.
#[tactic(auto, using(crate::proofs::lemmas::maps::MapsOfPairs::bytes_computed))]
pub fn ins_on_strings()
    ensures present { Becomes (two_strings 2) (codes "ins a =b 41") (Ok (was 40))
        (strings 2 ((codes "ab", 20) ∷ (codes "b", 41) ∷ [])) }
    ensures absent { Becomes (two_strings 3) (codes "ins a =aba 30") (Ok (was 0))
        (strings 3 ((codes "ab", 20) ∷ (codes "aba", 30) ∷ (codes "b", 40) ∷ [])) }
    ensures at_limit { IsReplied (two_strings 2) (codes "ins a =aba 30") (Err full) }
    ensures bad_key { IsReplied (two_strings 2) (codes "ins a #00 x") (Err bad_key) }
    ensures bad_value { IsReplied (two_strings 2) (codes "ins a =aba x") (Err bad_word) }
{}

/// `del` answers 1 and takes out a key that is there, and 0 at another.
#[tactic(auto, using(crate::proofs::lemmas::maps::MapsOfPairs::bytes_computed))]
pub fn del_on_strings()
    ensures present { Becomes (two_strings 2) (codes "del a =b") (Ok (flag true))
        (strings 2 ((codes "ab", 20) ∷ [])) }
    ensures first { Becomes (two_strings 2) (codes "del a =ab") (Ok (flag true))
        (strings 2 ((codes "b", 40) ∷ [])) }
    ensures absent { IsReplied (two_strings 2) (codes "del a =aba") (Ok (flag false)) }
    ensures bad_key { IsReplied (two_strings 2) (codes "del a #00") (Err bad_key) }
{}

/// The neighbours of a string, with their values.
#[tactic(auto, using(crate::proofs::lemmas::maps::MapsOfPairs::bytes_computed))]
pub fn neighbours_on_strings()
    ensures first_at { IsReplied (two_strings 2) (codes "first a =ab")
        (Ok (string_entry (codes "ab") 20)) }
    ensures first_above { IsReplied (two_strings 2) (codes "first a =aba")
        (Ok (string_entry (codes "b") 40)) }
    ensures first_none { IsReplied (two_strings 2) (codes "first a =ba") (Ok nothing) }
    ensures next_above { IsReplied (two_strings 2) (codes "next a =ab")
        (Ok (string_entry (codes "b") 40)) }
    ensures next_none { IsReplied (two_strings 2) (codes "next a =b") (Ok nothing) }
    ensures last_at { IsReplied (two_strings 2) (codes "last a =b")
        (Ok (string_entry (codes "b") 40)) }
    ensures last_below { IsReplied (two_strings 2) (codes "last a =aba")
        (Ok (string_entry (codes "ab") 20)) }
    ensures last_none { IsReplied (two_strings 2) (codes "last a =a") (Ok nothing) }
    ensures prev_below { IsReplied (two_strings 2) (codes "prev a =b")
        (Ok (string_entry (codes "ab") 20)) }
    ensures prev_none { IsReplied (two_strings 2) (codes "prev a =ab") (Ok nothing) }
    ensures bad_key { IsReplied (two_strings 2) (codes "prev a #00") (Err bad_key) }
{}

/// Which key stands at a place, counted from 1, with its value, and how many keys lie from one string to another, both
/// included.
#[tactic(auto, using(crate::proofs::lemmas::maps::MapsOfPairs::bytes_computed))]
pub fn counts_on_strings()
    ensures first { IsReplied (two_strings 2) (codes "bycount a 1")
        (Ok (string_entry (codes "ab") 20)) }
    ensures second { IsReplied (two_strings 2) (codes "bycount a 2")
        (Ok (string_entry (codes "b") 40)) }
    ensures zero { IsReplied (two_strings 2) (codes "bycount a 0") (Ok nothing) }
    ensures more { IsReplied (two_strings 2) (codes "bycount a 3") (Ok nothing) }
    ensures no_word { IsReplied (two_strings 2) (codes "bycount a =ab") (Err bad_word) }
    ensures both { IsReplied (two_strings 2) (codes "count a =ab =b") (Ok (number 2)) }
    ensures one { IsReplied (two_strings 2) (codes "count a =aba #ff") (Ok (number 1)) }
    ensures upper_end { IsReplied (two_strings 2) (codes "count a = =ab") (Ok (number 1)) }
    ensures turned { IsReplied (two_strings 2) (codes "count a =b =ab") (Ok (number 0)) }
    ensures bad_first { IsReplied (two_strings 2) (codes "count a x y") (Err bad_key) }
    ensures bad_second { IsReplied (two_strings 2) (codes "count a =ab #00") (Err bad_key) }
{}
