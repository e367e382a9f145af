//! Faults of dumps that end right behind the field by which they are told, so that no field behind it is asked for
//! first; and the order of faults that one field has.

ghost use Rattle.std.specs.Prelude.{◌≡◌, [], ◌∷◌, ◌++◌, codes, Some};
ghost use Rattle.judy_model.specs.Fields.{truncated, bad_magic, too_many, bad_name, same_name, bad_kind, bad_limit, bad_count, bad_key, bad_order, bad_prefix};
ghost use Rattle.judy_model.specs.DumpGrammar.{flaw_of};
ghost use Rattle.judy_model.specs.DumpExamples.{small, heading, second_heading, head_of_prefixes, two_entries};
ghost use Rattle.judy_laws.specs.FaultPlaces.{up_to_kind, up_to_keys, up_to_third_key};

/// Faults of the fields in front of the keys.
pub fn faults_in_front_of_keys()
    ensures magic { flaw_of (codes "JDY0") ≡ Some bad_magic }
    ensures arrays { flaw_of (codes "JDY1" ++ 0 ∷ 0 ∷ 1 ∷ 0 ∷ []) ≡ Some too_many }
    ensures no_name { flaw_of (heading 1 ++ 0 ∷ []) ≡ Some bad_name }
    ensures name { flaw_of (heading 1 ++ 1 ∷ 32 ∷ []) ≡ Some bad_name }
    ensures same_name { flaw_of (heading 2 ++ 1 ∷ 97 ∷ 1 ∷ small 1 ++ small 0 ++ 1 ∷ 97 ∷ [])
        ≡ Some same_name }
    ensures kind { flaw_of (up_to_kind ++ 5 ∷ []) ≡ Some bad_kind }
    ensures limit { flaw_of (up_to_kind ++ 1 ∷ small 0) ≡ Some bad_limit }
    ensures count { flaw_of (up_to_kind ++ 1 ∷ small 1 ++ small 2) ≡ Some bad_count }
{}

/// Faults of keys in the first format: a key that is no greater than the one before, in an array of each kind, and of a
/// judysl array one with a zero byte.
pub fn faults_of_keys()
    ensures set { flaw_of (up_to_keys 1 ++ small 5 ++ small 5) ≡ Some bad_order }
    ensures words { flaw_of (up_to_keys 2 ++ small 5 ++ small 9 ++ small 4) ≡ Some bad_order }
    ensures strings { flaw_of (up_to_third_key ++ 0 ∷ 2 ∷ codes "aa") ≡ Some bad_order }
    ensures same_string { flaw_of (up_to_third_key ++ 0 ∷ 2 ∷ codes "ab") ≡ Some bad_order }
    ensures bytes { flaw_of (up_to_keys 4 ++ 0 ∷ 1 ∷ codes "b" ++ small 8 ++ 0 ∷ 1 ∷ codes "a")
        ≡ Some bad_order }
    ensures zero_byte { flaw_of (up_to_third_key ++ 0 ∷ 3 ∷ codes "ab" ++ 0 ∷ [])
        ≡ Some bad_key }
    ensures long_string { flaw_of (up_to_third_key ++ 4 ∷ 1 ∷ []) ≡ Some bad_key }
    ensures long_bytes { flaw_of (up_to_keys 4 ++ 4 ∷ 1 ∷ []) ≡ Some bad_key }
{}

/// A zero byte is told before the order: the first format.
pub fn a_zero_byte_comes_before_the_order()
    ensures below { flaw_of (up_to_third_key ++ 0 ∷ 2 ∷ 97 ∷ 0 ∷ []) ≡ Some bad_key }
    ensures least { flaw_of (up_to_third_key ++ 0 ∷ 1 ∷ 0 ∷ []) ≡ Some bad_key }
{}

/// A shared length that is too great, behind the key `ab` and for the first key, and one that isn't.
pub fn a_great_shared_length_is_told_behind_it()
    ensures behind_ab { flaw_of (two_entries ++ 0 ∷ 3 ∷ []) ≡ Some bad_prefix }
    ensures fits { flaw_of (two_entries ++ 0 ∷ 2 ∷ []) ≡ Some truncated }
    ensures first { flaw_of (second_heading 1 ++ head_of_prefixes ++ 0 ∷ 1 ∷ [])
        ≡ Some bad_prefix }
    ensures first_fits { flaw_of (second_heading 1 ++ head_of_prefixes ++ 0 ∷ 0 ∷ [])
        ≡ Some truncated }
    ensures half { flaw_of (two_entries ++ 3 ∷ []) ≡ Some truncated }
{}

/// The faults of the bytes of a key in the second format, behind the key `ab`: a zero byte, then a shared front that
/// isn't the longest, then the order.
pub fn a_slack_front_comes_before_the_order()
    ensures same_key { flaw_of (two_entries ++ 0 ∷ 0 ∷ 0 ∷ 2 ∷ codes "ab") ≡ Some bad_prefix }
    ensures lesser_key { flaw_of (two_entries ++ 0 ∷ 0 ∷ 0 ∷ 2 ∷ codes "aa") ≡ Some bad_prefix }
    ensures order { flaw_of (two_entries ++ 0 ∷ 1 ∷ 0 ∷ 1 ∷ codes "a") ≡ Some bad_order }
    ensures zero_first { flaw_of (two_entries ++ 0 ∷ 0 ∷ 0 ∷ 2 ∷ 97 ∷ 0 ∷ []) ≡ Some bad_key }
    ensures zero_before_order { flaw_of (two_entries ++ 0 ∷ 1 ∷ 0 ∷ 1 ∷ 0 ∷ []) ≡ Some bad_key }
{}
