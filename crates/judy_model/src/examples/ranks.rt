//! How many keys are below a key, how many at or below it, and which key stands at a place, counted from 0: on a map of
//! the words 2, 4 and 7, and on one of the byte strings `ab`, a zero byte behind `ab`, and `b`.

ghost use Rattle.std.specs.Prelude.{◌≡◌, [], codes, Some, None};
ghost use Rattle.judy_model.specs.Counts.{rank, count_up_to, nth};
ghost use Rattle.judy_model.specs.CommandExamples.{three_words, three_byte_strings, ab_and_zero};

/// Below a word.
#[tactic(auto, using(crate::proofs::lemmas::maps::MapsOfPairs::words_computed))]
pub fn ranks_of_words()
    ensures least { rank three_words 2 ≡ 0 }
    ensures between { rank three_words 3 ≡ 1 }
    ensures key { rank three_words 4 ≡ 1 }
    ensures above { rank three_words 8 ≡ 3 }
    ensures before { count_up_to three_words 1 ≡ 0 }
    ensures up_to_least { count_up_to three_words 2 ≡ 1 }
    ensures up_to_between { count_up_to three_words 3 ≡ 1 }
    ensures up_to_greatest { count_up_to three_words 7 ≡ 3 }
{}

/// At a place among words.
#[tactic(auto, using(crate::proofs::lemmas::maps::MapsOfPairs::words_computed))]
pub fn places_of_words()
    ensures first { nth three_words 0 ≡ Some 2 }
    ensures second { nth three_words 1 ≡ Some 4 }
    ensures third { nth three_words 2 ≡ Some 7 }
    ensures none { nth three_words 3 ≡ None }
{}

/// Below a byte string.
#[tactic(auto, using(crate::proofs::lemmas::maps::MapsOfPairs::bytes_computed))]
pub fn ranks_of_byte_strings()
    ensures least { rank three_byte_strings [] ≡ 0 }
    ensures key { rank three_byte_strings ab_and_zero ≡ 1 }
    ensures between { rank three_byte_strings (codes "abc") ≡ 2 }
    ensures above { rank three_byte_strings (codes "ba") ≡ 3 }
    ensures before { count_up_to three_byte_strings (codes "aa") ≡ 0 }
    ensures up_to_key { count_up_to three_byte_strings ab_and_zero ≡ 2 }
    ensures up_to_greatest { count_up_to three_byte_strings (codes "b") ≡ 3 }
{}

/// At a place among byte strings.
#[tactic(auto, using(crate::proofs::lemmas::maps::MapsOfPairs::bytes_computed))]
pub fn places_of_byte_strings()
    ensures first { nth three_byte_strings 0 ≡ Some (codes "ab") }
    ensures second { nth three_byte_strings 1 ≡ Some ab_and_zero }
    ensures third { nth three_byte_strings 2 ≡ Some (codes "b") }
    ensures none { nth three_byte_strings 3 ≡ None }
{}
