//! Short cases of dumps, each computed by the check: the bytes of a store and the flaws of bytes that are none.

ghost use Rattle.std.specs.Prelude.{◌≡◌, [], ◌∷◌, ◌++◌, codes, take, length, Some};
ghost use Rattle.judy_model.specs.Fields.{truncated, bad_magic, too_many, bad_name, same_name, bad_kind, bad_limit, bad_count, bad_key, bad_order, bad_prefix, trailing};
ghost use Rattle.judy_model.specs.DumpText.{jdy1, jdy2, dump_of};
ghost use Rattle.judy_model.specs.DumpGrammar.{IsDump, flaw_of};
ghost use Rattle.judy_model.specs.DumpPlaces.{EndsAtEntry};
ghost use Rattle.judy_model.specs.DumpExamples.{small, heading, second_heading, overwritten, set_of_one, dump_of_one, three_arrays, dump_of_three, three_prefixes, first_dump_of_prefixes, two_entries, second_dump_of_prefixes};

/// The empty store has a dump of eight bytes, a set of one key one of 35.
pub fn smallest_dumps()
    ensures empty { dump_of jdy1 [] ≡ codes "JDY1" ++ 0 ∷ 0 ∷ 0 ∷ 0 ∷ [] }
    ensures one { dump_of jdy1 set_of_one ≡ dump_of_one }
    ensures long { length dump_of_one ≡ 35 }
    ensures empty_again { IsDump jdy1 (heading 0) [] }
    ensures one_again { IsDump jdy1 dump_of_one set_of_one }
{}

/// Each kind with values has its entries in the order of its keys, judyhs the shorter keys first.
pub fn store_of_three()
    ensures text { dump_of jdy1 three_arrays ≡ dump_of_three }
    ensures again { IsDump jdy1 dump_of_three three_arrays }
    ensures long { length dump_of_three ≡ 135 }
{}

/// The first flaw in the order of the fields is the answer.
pub fn dump_faults()
    ensures nothing { flaw_of [] ≡ Some truncated }
    ensures cut { flaw_of (take 34 dump_of_one) ≡ Some truncated }
    ensures more { flaw_of (dump_of_one ++ 0 ∷ []) ≡ Some trailing }
    ensures magic { flaw_of (overwritten dump_of_one 0 (75 ∷ [])) ≡ Some bad_magic }
    ensures cut_magic { flaw_of (codes "JDX") ≡ Some truncated }
    ensures many { flaw_of (heading 65) ≡ Some too_many }
    ensures most { flaw_of (heading 64) ≡ Some truncated }
    ensures no_name { flaw_of (heading 1 ++ 0 ∷ []) ≡ Some bad_name }
    ensures long_name { flaw_of (heading 1 ++ 33 ∷ []) ≡ Some bad_name }
    ensures name { flaw_of (overwritten dump_of_one 9 (33 ∷ [])) ≡ Some bad_name }
    ensures kind { flaw_of (overwritten dump_of_one 10 (5 ∷ [])) ≡ Some bad_kind }
    ensures no_kind { flaw_of (overwritten dump_of_one 10 (0 ∷ [])) ≡ Some bad_kind }
    ensures no_limit { flaw_of (overwritten dump_of_one 11 (small 0)) ≡ Some bad_limit }
    ensures great_limit { flaw_of (overwritten dump_of_one 11 (0 ∷ 0 ∷ 0 ∷ 1 ∷ 0 ∷ 0 ∷ 0 ∷ 0 ∷ []))
        ≡ Some bad_limit }
    ensures count { flaw_of (overwritten dump_of_one 19 (0 ∷ 0 ∷ 0 ∷ 1 ∷ 0 ∷ 0 ∷ 0 ∷ 0 ∷ []))
        ≡ Some bad_count }
    ensures falling { flaw_of (take 19 dump_of_one ++ small 2 ++ small 2 ++ small 1)
        ≡ Some bad_order }
    ensures twice { flaw_of (take 19 dump_of_one ++ small 2 ++ small 1 ++ small 1)
        ≡ Some bad_order }
{}

/// Faults of the arrays with string keys, and of a name that stands twice.
pub fn faults_in_store_of_three()
    ensures long_key { flaw_of (overwritten dump_of_three 62 (4 ∷ 1 ∷ [])) ≡ Some bad_key }
    ensures zero_byte { flaw_of (overwritten dump_of_three 75 (0 ∷ [])) ≡ Some bad_key }
    ensures order { flaw_of (overwritten dump_of_three 126 (0 ∷ [])) ≡ Some bad_order }
    ensures name { flaw_of (overwritten dump_of_three 44 (108 ∷ [])) ≡ Some same_name }
    ensures limit { flaw_of (overwritten dump_of_three 46 (small 1)) ≡ Some bad_count }
{}

/// One store in both formats. The second writes of each key what it doesn't share with the one before.
pub fn second_format()
    ensures empty { dump_of jdy2 [] ≡ codes "JDY2" ++ 0 ∷ 0 ∷ 0 ∷ 0 ∷ [] }
    ensures empty_again { IsDump jdy2 (second_heading 0) [] }
    ensures first { dump_of jdy1 three_prefixes ≡ first_dump_of_prefixes }
    ensures second { dump_of jdy2 three_prefixes ≡ second_dump_of_prefixes }
    ensures first_again { IsDump jdy1 first_dump_of_prefixes three_prefixes }
    ensures second_again { IsDump jdy2 second_dump_of_prefixes three_prefixes }
    ensures first_long { length first_dump_of_prefixes ≡ 62 }
    ensures second_long { length second_dump_of_prefixes ≡ 66 }
    ensures cut { flaw_of (take 65 second_dump_of_prefixes) ≡ Some truncated }
    ensures no_format { flaw_of (codes "JDY3") ≡ Some bad_magic }
{}

/// The flaws of keys in the second format, in the order of their checks.
pub fn prefix_faults()
    ensures first_key { flaw_of (overwritten second_dump_of_prefixes 27 (0 ∷ 1 ∷ []))
        ≡ Some bad_prefix }
    ensures slack { flaw_of (two_entries ++ 0 ∷ 0 ∷ 0 ∷ 3 ∷ codes "abc" ++ small 3)
        ≡ Some bad_prefix }
    ensures long_front { flaw_of (two_entries ++ 0 ∷ 3 ∷ 0 ∷ 0 ∷ []) ≡ Some bad_prefix }
    ensures same_key { flaw_of (two_entries ++ 0 ∷ 2 ∷ 0 ∷ 0 ∷ []) ≡ Some bad_order }
    ensures lesser_key { flaw_of (two_entries ++ 0 ∷ 1 ∷ 0 ∷ 1 ∷ codes "a") ≡ Some bad_order }
    ensures zero_byte { flaw_of (two_entries ++ 0 ∷ 2 ∷ 0 ∷ 1 ∷ 0 ∷ []) ≡ Some bad_key }
    ensures zero_byte_first { flaw_of (two_entries ++ 0 ∷ 0 ∷ 0 ∷ 3 ∷ codes "ab" ++ 0 ∷ [])
        ≡ Some bad_key }
    ensures long_key { flaw_of (two_entries ++ 0 ∷ 2 ∷ 3 ∷ 255 ∷ []) ≡ Some bad_key }
    ensures longest_key { flaw_of (two_entries ++ 0 ∷ 2 ∷ 3 ∷ 254 ∷ []) ≡ Some truncated }
{}

/// Memory may be wanted behind the key count of an array and behind each of its entries.
pub fn ends_at_entries()
    ensures count { EndsAtEntry (take 27 dump_of_one) }
    ensures entry { EndsAtEntry dump_of_one }
    ensures second { EndsAtEntry (take 72 dump_of_three) }
    ensures second_format { EndsAtEntry two_entries }
{}
