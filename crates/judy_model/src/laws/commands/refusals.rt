//! What the commands that search an array, and those of a set, do with a bad argument; and the commands that a kind
//! doesn't have.

ghost use Rattle.std.specs.Prelude.{codes};
ghost use Rattle.judy_model.specs.Arrays.{judy1, judyl, judysl, judyhs};
ghost use Rattle.judy_model.specs.Tokens.{word_of};
ghost use Rattle.judy_model.specs.KeyTokens.{string_key_of};
ghost use Rattle.judy_model.specs.Replies.{bad_word, bad_key};
ghost use Rattle.judy_model.specs.CommandLaws.{RefusesABadKey, RefusesABadFirst, RefusesABadSecond, HasNoCommandOfOne, HasNoCommandOfTwo};

/// In a judy1 array a token that says no word is refused by `set`, `unset` and `test`.
pub fn a_bad_word_is_refused_by_a_set()
    ensures set { RefusesABadKey judy1 word_of bad_word (codes "set") }
    ensures unset { RefusesABadKey judy1 word_of bad_word (codes "unset") }
    ensures test { RefusesABadKey judy1 word_of bad_word (codes "test") }
{}

/// So it is where a neighbour is sought in a judy1 array.
pub fn a_bad_word_has_no_neighbours_in_a_set()
    ensures first { RefusesABadKey judy1 word_of bad_word (codes "first") }
    ensures next { RefusesABadKey judy1 word_of bad_word (codes "next") }
    ensures last { RefusesABadKey judy1 word_of bad_word (codes "last") }
    ensures prev { RefusesABadKey judy1 word_of bad_word (codes "prev") }
{}

/// In a judyl array too.
pub fn a_bad_word_has_no_neighbours_among_words()
    ensures first { RefusesABadKey judyl word_of bad_word (codes "first") }
    ensures next { RefusesABadKey judyl word_of bad_word (codes "next") }
    ensures last { RefusesABadKey judyl word_of bad_word (codes "last") }
    ensures prev { RefusesABadKey judyl word_of bad_word (codes "prev") }
{}

/// In a judysl array a token that says no key is refused.
pub fn a_bad_key_has_no_neighbours_among_strings()
    ensures first { RefusesABadKey judysl string_key_of bad_key (codes "first") }
    ensures next { RefusesABadKey judysl string_key_of bad_key (codes "next") }
    ensures last { RefusesABadKey judysl string_key_of bad_key (codes "last") }
    ensures prev { RefusesABadKey judysl string_key_of bad_key (codes "prev") }
{}

/// Where an empty neighbour is sought, a token that says no word is refused in a judy1 array.
pub fn a_bad_word_has_no_empty_neighbours_in_a_set()
    ensures first { RefusesABadKey judy1 word_of bad_word (codes "fe") }
    ensures next { RefusesABadKey judy1 word_of bad_word (codes "ne") }
    ensures last { RefusesABadKey judy1 word_of bad_word (codes "le") }
    ensures prev { RefusesABadKey judy1 word_of bad_word (codes "pe") }
{}

/// And in a judyl array.
pub fn a_bad_word_has_no_empty_neighbours_among_words()
    ensures first { RefusesABadKey judyl word_of bad_word (codes "fe") }
    ensures next { RefusesABadKey judyl word_of bad_word (codes "ne") }
    ensures last { RefusesABadKey judyl word_of bad_word (codes "le") }
    ensures prev { RefusesABadKey judyl word_of bad_word (codes "pe") }
{}

/// `bycount` refuses a token that says no word.
pub fn a_bad_word_counts_no_key()
    ensures set { RefusesABadKey judy1 word_of bad_word (codes "bycount") }
    ensures words { RefusesABadKey judyl word_of bad_word (codes "bycount") }
    ensures strings { RefusesABadKey judysl word_of bad_word (codes "bycount") }
{}

/// `count` refuses a first token that says no word, whatever the second says, and a second one behind a word.
pub fn count_refuses_a_bad_word_at_either_end()
    ensures set_first { RefusesABadFirst judy1 word_of bad_word (codes "count") }
    ensures set_second { RefusesABadSecond judy1 word_of word_of bad_word (codes "count") }
    ensures words_first { RefusesABadFirst judyl word_of bad_word (codes "count") }
    ensures words_second { RefusesABadSecond judyl word_of word_of bad_word (codes "count") }
{}

/// So it does in a judysl array with tokens that say no key.
pub fn count_refuses_a_bad_key_at_either_end()
    ensures first { RefusesABadFirst judysl string_key_of bad_key (codes "count") }
    ensures second { RefusesABadSecond judysl string_key_of string_key_of bad_key (codes "count") }
{}

/// A judy1 array has no values.
pub fn a_set_has_no_commands_of_values()
    ensures get { HasNoCommandOfOne judy1 (codes "get") }
    ensures del { HasNoCommandOfOne judy1 (codes "del") }
    ensures put { HasNoCommandOfTwo judy1 (codes "put") }
    ensures ins { HasNoCommandOfTwo judy1 (codes "ins") }
{}

/// The other kinds are no sets.
pub fn maps_have_no_commands_of_sets()
    ensures words { HasNoCommandOfOne judyl (codes "set")
        × HasNoCommandOfOne judyl (codes "unset") × HasNoCommandOfOne judyl (codes "test") }
    ensures strings { HasNoCommandOfOne judysl (codes "set")
        × HasNoCommandOfOne judysl (codes "unset") × HasNoCommandOfOne judysl (codes "test") }
    ensures bytes { HasNoCommandOfOne judyhs (codes "set")
        × HasNoCommandOfOne judyhs (codes "unset") × HasNoCommandOfOne judyhs (codes "test") }
{}

/// A judysl array has no empty neighbours.
pub fn strings_have_no_empty_neighbours()
    ensures first { HasNoCommandOfOne judysl (codes "fe") }
    ensures next { HasNoCommandOfOne judysl (codes "ne") }
    ensures last { HasNoCommandOfOne judysl (codes "le") }
    ensures prev { HasNoCommandOfOne judysl (codes "pe") }
{}

/// A judyhs array has no order, and so no neighbours beside.
pub fn bytes_have_no_neighbours()
    ensures first { HasNoCommandOfOne judyhs (codes "first")
        × HasNoCommandOfOne judyhs (codes "fe") }
    ensures next { HasNoCommandOfOne judyhs (codes "next") × HasNoCommandOfOne judyhs (codes "ne") }
    ensures last { HasNoCommandOfOne judyhs (codes "last") × HasNoCommandOfOne judyhs (codes "le") }
    ensures prev { HasNoCommandOfOne judyhs (codes "prev") × HasNoCommandOfOne judyhs (codes "pe") }
    ensures by_count { HasNoCommandOfOne judyhs (codes "bycount") }
    ensures count { HasNoCommandOfTwo judyhs (codes "count") }
{}
