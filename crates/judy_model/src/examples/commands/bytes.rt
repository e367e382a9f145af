//! The commands of a judyhs array that maps a zero byte to 20 and `b` to 40.

ghost use Rattle.std.specs.Prelude.{[], ◌∷◌, codes, true, false, Ok, Err};
ghost use Rattle.judy_model.specs.Replies.{was, flag, number, nothing, bad_word, bad_key, full};
ghost use Rattle.judy_model.specs.CommandExamples.{Becomes, IsReplied, bytes, two_bytes};

/// `get` answers the value of a key, and `none` at a key that isn't there.
#[tactic(auto, using(crate::proofs::lemmas::maps::MapsOfPairs::bytes_computed))]
pub fn get_on_bytes()
    ensures present { IsReplied (two_bytes 2) (codes "get a =b") (Ok (number 40)) }
    ensures absent { IsReplied (two_bytes 2) (codes "get a =aba") (Ok nothing) }
    ensures bad_key { IsReplied (two_bytes 2) (codes "get a b") (Err bad_key) }
{}

/// `put` answers the value that a key had and writes the one given; at a key that isn't there it answers `none`.
#[tactic(auto, using(crate::proofs::lemmas::maps::MapsOfPairs::bytes_computed))]
pub fn put_on_bytes()
    ensures present { Becomes (two_bytes 2) (codes "put a =b 41") (Ok (was 40))
        (bytes 2 ((0 ∷ [], 20) ∷ (codes "b", 41) ∷ [])) }
    ensures absent { IsReplied (two_bytes 2) (codes "put a =aba 41") (Ok nothing) }
    ensures bad_key { IsReplied (two_bytes 2) (codes "put a b x") (Err bad_key) }
    ensures bad_value { IsReplied (two_bytes 2) (codes "put a =b x") (Err bad_word) }
{}

/// `ins` does so at a key that is there, full or not; a new key has shown 0 and has the value given, and is refused
/// where the array is full.
#[tactic(auto, using(crate::proofs::lemmas::maps::MapsOfPairs::bytes_computed))]
pub fn ins_on_bytes()
    ensures present { Becomes (two_bytes 2) (codes "ins a =b 41") (Ok (was 40))
        (bytes 2 ((0 ∷ [], 20) ∷ (codes "b", 41) ∷ [])) }
    ensures absent { Becomes (two_bytes 3) (codes "ins a =aba 30") (Ok (was 0))
        (bytes 3 ((0 ∷ [], 20) ∷ (codes "aba", 30) ∷ (codes "b", 40) ∷ [])) }
    ensures at_limit { IsReplied (two_bytes 2) (codes "ins a =aba 30") (Err full) }
    ensures bad_key { IsReplied (two_bytes 2) (codes "ins a b x") (Err bad_key) }
    ensures bad_value { IsReplied (two_bytes 2) (codes "ins a =aba x") (Err bad_word) }
{}

/// `del` answers 1 and takes out a key that is there, and 0 at another.
#[tactic(auto, using(crate::proofs::lemmas::maps::MapsOfPairs::bytes_computed))]
pub fn del_on_bytes()
    ensures present { Becomes (two_bytes 2) (codes "del a =b") (Ok (flag true))
        (bytes 2 ((0 ∷ [], 20) ∷ [])) }
    ensures first { Becomes (two_bytes 2) (codes "del a #00") (Ok (flag true))
        (bytes 2 ((codes "b", 40) ∷ [])) }
    ensures absent { IsReplied (two_bytes 2) (codes "del a =aba") (Ok (flag false)) }
    ensures bad_key { IsReplied (two_bytes 2) (codes "del a b") (Err bad_key) }
{}
