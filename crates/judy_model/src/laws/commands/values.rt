//! What the commands of values do to a judyl, a judysl and a judyhs array: `get`, `put`, `ins` and `del`.

ghost use Rattle.std.specs.Prelude.{codes};
ghost use Rattle.judy_model.specs.Arrays.{judyl, judysl, judyhs};
ghost use Rattle.judy_model.specs.Tokens.{word_of};
ghost use Rattle.judy_model.specs.KeyTokens.{string_key_of, bytes_key_of};
ghost use Rattle.judy_model.specs.Replies.{bad_word, bad_key};
ghost use Rattle.judy_model.specs.CommandLaws.{GetAnswersTheValue, GetOfAbsentIsNone, PutWritesAPresentKey, PutLeavesAnAbsentKey, InsWritesAPresentKey, InsAddsAnAbsentKey, InsIsRefusedAtTheLimit, TakesOutAPresentKey, LeavesAnAbsentKey, RefusesABadKey, RefusesABadFirst, RefusesABadSecond};

/// `get` answers the value of a key that is there.
pub fn get_answers_the_value()
    ensures words { GetAnswersTheValue judyl word_of }
    ensures strings { GetAnswersTheValue judysl string_key_of }
    ensures bytes { GetAnswersTheValue judyhs bytes_key_of }
{}

/// At a key that isn't there it answers `none`.
pub fn get_of_an_absent_key_is_none()
    ensures words { GetOfAbsentIsNone judyl word_of }
    ensures strings { GetOfAbsentIsNone judysl string_key_of }
    ensures bytes { GetOfAbsentIsNone judyhs bytes_key_of }
{}

/// `put` answers the value that a key had, and leaves it the one given.
pub fn put_writes_a_present_key()
    ensures words { PutWritesAPresentKey judyl word_of }
    ensures strings { PutWritesAPresentKey judysl string_key_of }
    ensures bytes { PutWritesAPresentKey judyhs bytes_key_of }
{}

/// At a key that isn't there it answers `none` and changes nothing.
pub fn put_leaves_an_absent_key()
    ensures words { PutLeavesAnAbsentKey judyl word_of }
    ensures strings { PutLeavesAnAbsentKey judysl string_key_of }
    ensures bytes { PutLeavesAnAbsentKey judyhs bytes_key_of }
{}

/// `ins` at a key that is there answers the value that it had, and leaves it the one given, however full the array is.
pub fn ins_writes_a_present_key()
    ensures words { InsWritesAPresentKey judyl word_of }
    ensures strings { InsWritesAPresentKey judysl string_key_of }
    ensures bytes { InsWritesAPresentKey judyhs bytes_key_of }
{}

/// At a key that isn't there it answers 0, and adds the key with the value given.
pub fn ins_adds_an_absent_key()
    ensures words { InsAddsAnAbsentKey judyl word_of }
    ensures strings { InsAddsAnAbsentKey judysl string_key_of }
    ensures bytes { InsAddsAnAbsentKey judyhs bytes_key_of }
{}

/// Such a key is refused where the array holds as many keys as its limit.
pub fn ins_is_refused_at_the_limit()
    ensures words { InsIsRefusedAtTheLimit judyl word_of }
    ensures strings { InsIsRefusedAtTheLimit judysl string_key_of }
    ensures bytes { InsIsRefusedAtTheLimit judyhs bytes_key_of }
{}

/// `del` answers 1 at a key that is there, and takes it out.
pub fn del_takes_out_a_present_key()
    ensures words { TakesOutAPresentKey judyl word_of (codes "del") }
    ensures strings { TakesOutAPresentKey judysl string_key_of (codes "del") }
    ensures bytes { TakesOutAPresentKey judyhs bytes_key_of (codes "del") }
{}

/// At a key that isn't there it answers 0 and changes nothing.
pub fn del_leaves_an_absent_key()
    ensures words { LeavesAnAbsentKey judyl word_of (codes "del") }
    ensures strings { LeavesAnAbsentKey judysl string_key_of (codes "del") }
    ensures bytes { LeavesAnAbsentKey judyhs bytes_key_of (codes "del") }
{}

/// A token that says no key of the kind is refused.
pub fn a_bad_key_is_refused()
    ensures get_words { RefusesABadKey judyl word_of bad_word (codes "get") }
    ensures get_strings { RefusesABadKey judysl string_key_of bad_key (codes "get") }
    ensures get_bytes { RefusesABadKey judyhs bytes_key_of bad_key (codes "get") }
    ensures del_words { RefusesABadKey judyl word_of bad_word (codes "del") }
    ensures del_strings { RefusesABadKey judysl string_key_of bad_key (codes "del") }
    ensures del_bytes { RefusesABadKey judyhs bytes_key_of bad_key (codes "del") }
{}

/// So is a bad key before a value, whatever the value says.
pub fn a_bad_key_is_refused_before_a_value()
    ensures put_words { RefusesABadFirst judyl word_of bad_word (codes "put") }
    ensures put_strings { RefusesABadFirst judysl string_key_of bad_key (codes "put") }
    ensures put_bytes { RefusesABadFirst judyhs bytes_key_of bad_key (codes "put") }
    ensures ins_words { RefusesABadFirst judyl word_of bad_word (codes "ins") }
    ensures ins_strings { RefusesABadFirst judysl string_key_of bad_key (codes "ins") }
    ensures ins_bytes { RefusesABadFirst judyhs bytes_key_of bad_key (codes "ins") }
{}

/// A bad value is refused behind a key.
pub fn a_bad_value_is_refused_behind_a_key()
    ensures put_words { RefusesABadSecond judyl word_of word_of bad_word (codes "put") }
    ensures put_strings { RefusesABadSecond judysl string_key_of word_of bad_word (codes "put") }
    ensures put_bytes { RefusesABadSecond judyhs bytes_key_of word_of bad_word (codes "put") }
    ensures ins_words { RefusesABadSecond judyl word_of word_of bad_word (codes "ins") }
    ensures ins_strings { RefusesABadSecond judysl string_key_of word_of bad_word (codes "ins") }
    ensures ins_bytes { RefusesABadSecond judyhs bytes_key_of word_of bad_word (codes "ins") }
{}
