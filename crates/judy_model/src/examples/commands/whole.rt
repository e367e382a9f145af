//! The commands of a whole array, and `make`.

ghost use Rattle.std.specs.Prelude.{◌≡◌, [], ◌∷◌, ◌++◌, codes, Ok, Err};
ghost use Rattle.judy_model.specs.Arrays.{judy1, judyl, empty_array};
ghost use Rattle.judy_model.specs.Replies.{done, freed, listed, listing_text, bad_limit, exists, too_many_arrays};
ghost use Rattle.judy_model.specs.CommandExamples.{Becomes, IsReplied, three_words, set, words, strings, bytes, two_keys, two_words, two_strings, two_bytes, names_of_one_byte};

/// `free` answers how many keys there were, and leaves the array empty.
#[tactic(auto, using(crate::proofs::lemmas::maps::MapsOfPairs::words_computed))]
pub fn free_of_words()
    ensures set { Becomes (two_keys 2) (codes "free a") (Ok (freed 2)) (set 2 []) }
    ensures words { Becomes (two_words 3) (codes "free a") (Ok (freed 2)) (words 3 []) }
{}

/// `drop` answers the same, and leaves the store without the array.
#[tactic(auto, using(crate::proofs::lemmas::maps::MapsOfPairs::words_computed))]
pub fn drop_of_words()
    ensures set { Becomes (two_keys 2) (codes "drop a") (Ok (freed 2)) [] }
    ensures words { Becomes (two_words 2) (codes "drop a") (Ok (freed 2)) [] }
{}

/// So it is with byte strings.
#[tactic(auto, using(crate::proofs::lemmas::maps::MapsOfPairs::bytes_computed))]
pub fn free_of_byte_strings()
    ensures strings { Becomes (two_strings 2) (codes "free a") (Ok (freed 2)) (strings 2 []) }
    ensures bytes { Becomes (two_bytes 3) (codes "free a") (Ok (freed 2)) (bytes 3 []) }
{}

/// And with `drop`.
#[tactic(auto, using(crate::proofs::lemmas::maps::MapsOfPairs::bytes_computed))]
pub fn drop_of_byte_strings()
    ensures strings { Becomes (two_strings 2) (codes "drop a") (Ok (freed 2)) [] }
    ensures bytes { Becomes (two_bytes 2) (codes "drop a") (Ok (freed 2)) [] }
{}

/// `make` puts an array behind the others, and is refused for a name that one has.
#[tactic(auto, using(crate::proofs::lemmas::maps::MapsOfPairs::words_computed))]
pub fn make_beside_an_array()
    ensures new { Becomes (two_words 2) (codes "make b judy1 5") (Ok done)
        (two_words 2 ++ (codes "b", judy1 (empty_array 5)) ∷ []) }
    ensures taken { IsReplied (two_words 2) (codes "make a judy1") (Err exists) }
{}

/// A store has at most 64 arrays; a bad limit and a name that is taken come before that.
#[tactic(auto, using(crate::proofs::lemmas::maps::MapsOfPairs::words_computed))]
pub fn make_beside_64_arrays()
    ensures many { IsReplied names_of_one_byte (codes "make ab judyl") (Err too_many_arrays) }
    ensures many_with_limit { IsReplied names_of_one_byte (codes "make ab judyl 1")
        (Err too_many_arrays) }
    ensures limit { IsReplied names_of_one_byte (codes "make ab judyl 0") (Err bad_limit) }
    ensures taken { IsReplied names_of_one_byte (codes "make a judyl") (Err exists) }
{}

/// `list` answers the store itself; put out, each array stands with its kind and its number of keys.
#[tactic(auto, using(crate::proofs::lemmas::maps::MapsOfPairs::words_computed))]
pub fn list_of_words()
    ensures set { IsReplied (two_keys 2) (codes "list") (Ok (listed (two_keys 2))) }
    ensures words { IsReplied (two_words 2) (codes "list") (Ok (listed (two_words 2))) }
    ensures set_text { listing_text (codes "a", judy1 (record { limit = 2; map = three_words }))
        ≡ codes " a:judy1:3" }
    ensures words_text { listing_text (codes "a", judyl (record { limit = 2; map = three_words }))
        ≡ codes " a:judyl:3" }
{}
