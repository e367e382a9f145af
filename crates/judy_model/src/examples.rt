//! Short cases of the definitions, each computed by the check: what a reader would work out by hand.

pub mod commands;
pub mod dump_order;
pub mod immediates;
pub mod keys;
pub mod ranks;
pub mod runs;
pub mod ways;
pub mod words;

ghost use Rattle.std.specs.Prelude.{◌≡◌, ◌+◌, ◌*◌, ◌-◌, ◌^◌, true, false, [], ◌∷◌, ◌++◌, codes, drop, replicate, Some, None, Ok, Err};
ghost use Rattle.judy_model.specs.Arrays.{judy1, judysl, judyhs, empty_array};
ghost use Rattle.judy_model.specs.Lines.{lines_of, text_of, is_too_long};
ghost use Rattle.judy_model.specs.Tokens.{tokens_of, word_of, name_of};
ghost use Rattle.judy_model.specs.KeyTokens.{key_of, is_bytes_key, is_string_key, bytes_key_of, string_key_of, printed_key};
ghost use Rattle.judy_model.specs.Replies.{silent, done, was, flag, number, entry, string_entry, freed, listed, nothing, output_of, unknown_command, argument_count, bad_name, no_such_array, wrong_kind, bad_word, bad_key, bad_limit, exists};
ghost use Rattle.judy_model.specs.Steps.{step};
ghost use Rattle.judy_model.specs.Forms.{immediate, leaf, bitmap_leaf, branch};
ghost use Rattle.judy_model.specs.Shapes.{form_of, shape_of};
ghost use Rattle.std.specs.List.{range_with_len};
ghost use Rattle.judy_model.specs.Examples.{line, one_array, two_arrays, string_arrays, shape, runs};

/// An LF ends a line; what stands after the last LF is a line if it isn't empty.
pub fn scripts_are_cut_at_each_line_feed()
    ensures nothing { lines_of [] ≡ [] }
    ensures blank { lines_of (10 ∷ []) ≡ record { bytes = []; ended = true } ∷ [] }
    ensures one { lines_of (codes "get a" ++ 10 ∷ [])
        ≡ record { bytes = codes "get a"; ended = true } ∷ [] }
    ensures unended { lines_of (codes "get a")
        ≡ record { bytes = codes "get a"; ended = false } ∷ [] }
    ensures two { lines_of (codes "a" ++ 13 ∷ 10 ∷ codes "b")
        ≡ record { bytes = codes "a" ++ 13 ∷ []; ended = true } ∷ record { bytes = codes "b"; ended = false } ∷ [] }
{}

/// A CR is no part of the text where an LF follows it, and an ordinary byte where none does.
pub fn a_carriage_return_is_dropped_before_a_line_feed()
    ensures ended { text_of (record { bytes = codes "ab" ++ 13 ∷ []; ended = true }) ≡ codes "ab" }
    ensures unended { text_of (record { bytes = codes "ab" ++ 13 ∷ []; ended = false })
        ≡ codes "ab" ++ 13 ∷ [] }
    ensures within { text_of (record { bytes = 97 ∷ 13 ∷ 98 ∷ []; ended = true })
        ≡ 97 ∷ 13 ∷ 98 ∷ [] }
    ensures alone { text_of (record { bytes = 13 ∷ []; ended = true }) ≡ [] }
{}

/// Runs of spaces part the tokens; those at either end mean nothing, and a tab is an ordinary byte.
pub fn tokens_stand_between_runs_of_spaces()
    ensures none { tokens_of (codes "   ") ≡ [] }
    ensures three { tokens_of (codes "  get  a 5 ") ≡ codes "get" ∷ codes "a" ∷ codes "5" ∷ [] }
    ensures tab { tokens_of (97 ∷ 9 ∷ 98 ∷ []) ≡ (97 ∷ 9 ∷ 98 ∷ []) ∷ [] }
{}

/// A word token is 1 to 20 digits, leading zeros taken, whose number is below 2^64.
pub fn words_are_digits_below_a_bound()
    ensures zeros { word_of (codes "00001") ≡ Some 1 }
    ensures greatest { word_of (codes "18446744073709551615") ≡ Some (2 ^ 64 - 1) }
    ensures too_great { word_of (codes "18446744073709551616") ≡ None }
    ensures too_many_digits { word_of (codes "000000000000000000001") ≡ None }
    ensures empty { word_of [] ≡ None }
    ensures sign { word_of (codes "+1") ≡ None }
    ensures letter { word_of (codes "x") ≡ None }
{}

/// A name is 1 to 32 ASCII letters, digits, `_` and `-`.
pub fn names_are_letters_digits_and_two_signs()
    ensures name { name_of (codes "a-Z_09") ≡ Some (codes "a-Z_09") }
    ensures bang { name_of (codes "z!") ≡ None }
    ensures empty { name_of [] ≡ None }
    ensures longest { name_of (replicate 32 97) ≡ Some (replicate 32 97) }
    ensures too_long { name_of (replicate 33 97) ≡ None }
{}

/// A key token is `=` and bytes from `!` to `~`, or `#` and two hexadecimal digits of either case a byte.
pub fn keys_are_signs_or_digits()
    ensures empty { key_of (codes "=") ≡ Some [] }
    ensures empty_digits { key_of (codes "#") ≡ Some [] }
    ensures signs { key_of (codes "=a=#~!") ≡ Some (codes "a=#~!") }
    ensures digits { key_of (codes "#00fFa9") ≡ Some (0 ∷ 255 ∷ 169 ∷ []) }
    ensures odd { key_of (codes "#0") ≡ None }
    ensures no_digit { key_of (codes "#0g") ≡ None }
    ensures bare { key_of (codes "abc") ≡ None }
    ensures none { key_of [] ≡ None }
    ensures space { tokens_of (codes "=a b") ≡ codes "=a" ∷ codes "b" ∷ [] }
    ensures tab { key_of (61 ∷ 9 ∷ []) ≡ None }
    ensures delete_sign { key_of (61 ∷ 127 ∷ []) ≡ None }
{}

/// A key of a string kind has at most 1,024 bytes, and that of a judysl array no zero byte.
pub fn keys_of_strings_are_short_and_without_zero()
    ensures zero { string_key_of (codes "#00") ≡ None }
    ensures zero_byte { bytes_key_of (codes "#00") ≡ Some (0 ∷ []) }
    ensures longest { is_string_key (replicate 1024 97) ≡ true }
    ensures too_long { is_bytes_key (replicate 1025 97) ≡ false }
{}

/// A key is printed as it stands where each byte is from `!` to `~`, else in lower-case digits.
pub fn keys_are_printed_as_signs_or_digits()
    ensures empty { printed_key [] ≡ codes "=" }
    ensures signs { printed_key (codes "!a~") ≡ codes "=!a~" }
    ensures space { printed_key (codes "a b") ≡ codes "#612062" }
    ensures delete_sign { printed_key (127 ∷ []) ≡ codes "#7f" }
    ensures zero { printed_key (0 ∷ []) ≡ codes "#00" }
{}

/// The first refusal that applies is the answer, and the store stays.
pub fn refusals_come_in_their_order()
    ensures command { step [] (line (codes "SET a 1")) ≡ (Err unknown_command, []) }
    ensures count { step [] (line (codes "ins z! 5")) ≡ (Err argument_count, []) }
    ensures name { step [] (line (codes "ins z! 5 x")) ≡ (Err bad_name, []) }
    ensures array { step [] (line (codes "ins z 5 x")) ≡ (Err no_such_array, []) }
    ensures kind { step [] (line (codes "make b judy2 x")) ≡ (Err wrong_kind, []) }
    ensures word { step (one_array 1) (line (codes "make b judyl x"))
        ≡ (Err bad_word, one_array 1) }
    ensures key { step (one_array 1) (line (codes "ins a x 5")) ≡ (Err bad_word, one_array 1) }
    ensures value { step (one_array 1) (line (codes "ins a 5 x")) ≡ (Err bad_word, one_array 1) }
    ensures string_key { step string_arrays (line (codes "ins t #00 x"))
        ≡ (Err bad_key, string_arrays) }
    ensures bytes_value { step string_arrays (line (codes "ins h #00 x"))
        ≡ (Err bad_word, string_arrays) }
    ensures string_value { step string_arrays (line (codes "ins t =a x"))
        ≡ (Err bad_word, string_arrays) }
    ensures limit { step (one_array 1) (line (codes "make a judyl 0"))
        ≡ (Err bad_limit, one_array 1) }
    ensures greater { step (one_array 1) (line (codes "make b judyl 4294967296"))
        ≡ (Err bad_limit, one_array 1) }
    ensures taken { step (one_array 1) (line (codes "make a judyl 4294967295"))
        ≡ (Err exists, one_array 1) }
{}

/// A command that an array's kind doesn't have is refused before its words are read.
pub fn each_kind_has_its_commands()
    ensures ins { step two_arrays (line (codes "ins s x y")) ≡ (Err wrong_kind, two_arrays) }
    ensures get { step two_arrays (line (codes "get s x")) ≡ (Err wrong_kind, two_arrays) }
    ensures del { step two_arrays (line (codes "del s x")) ≡ (Err wrong_kind, two_arrays) }
    ensures set { step two_arrays (line (codes "set a x")) ≡ (Err wrong_kind, two_arrays) }
    ensures unset { step two_arrays (line (codes "unset a x")) ≡ (Err wrong_kind, two_arrays) }
    ensures test { step two_arrays (line (codes "test a x")) ≡ (Err wrong_kind, two_arrays) }
    ensures count { step two_arrays (line (codes "count s x 1")) ≡ (Err bad_word, two_arrays) }
    ensures string_first { step string_arrays (line (codes "first t x"))
        ≡ (Err bad_key, string_arrays) }
    ensures string_empty { step string_arrays (line (codes "fe t x"))
        ≡ (Err wrong_kind, string_arrays) }
    ensures string_count { step string_arrays (line (codes "count t x y"))
        ≡ (Err bad_key, string_arrays) }
    ensures string_place { step string_arrays (line (codes "bycount t =a"))
        ≡ (Err bad_word, string_arrays) }
    ensures bytes_count { step string_arrays (line (codes "count h x y"))
        ≡ (Err wrong_kind, string_arrays) }
    ensures bytes_place { step string_arrays (line (codes "bycount h x"))
        ≡ (Err wrong_kind, string_arrays) }
    ensures bytes_first { step string_arrays (line (codes "first h x"))
        ≡ (Err wrong_kind, string_arrays) }
    ensures missing { step two_arrays (line (codes "fe b x")) ≡ (Err no_such_array, two_arrays) }
    ensures string_kind { step [] (line (codes "make b judysl 3"))
        ≡ (Ok done, (codes "b", judysl (empty_array 3)) ∷ []) }
    ensures bytes_kind { step [] (line (codes "make b judyhs 3"))
        ≡ (Ok done, (codes "b", judyhs (empty_array 3)) ∷ []) }
    ensures no_kind { step [] (line (codes "make b judyh")) ≡ (Err wrong_kind, []) }
{}

/// The commands of the store: a list has the arrays in their order, and a drop keeps the order of the rest.
pub fn arrays_are_listed_and_dropped()
    ensures list { step two_arrays (line (codes "list")) ≡ (Ok (listed two_arrays), two_arrays) }
    ensures list_one { step two_arrays (line (codes "list a")) ≡ (Err argument_count, two_arrays) }
    ensures drop { (step two_arrays (line (codes "drop a"))).1
        ≡ (codes "s", judy1 (empty_array 2)) ∷ [] }
    ensures drop_missing { step two_arrays (line (codes "drop b"))
        ≡ (Err no_such_array, two_arrays) }
{}

/// Blank lines and comments have no answer; a line that is too long is refused before all else.
pub fn some_lines_are_silent()
    ensures blank { step [] (line (codes "   ")) ≡ (Ok silent, []) }
    ensures comment { step [] (line (codes " ;make a judyl")) ≡ (Ok silent, []) }
    ensures made { step [] (line (codes "make a judyl 1")) ≡ (Ok done, one_array 1) }
    ensures greatest { step [] (line (codes "make a judyl")) ≡ (Ok done, one_array 4294967295) }
    ensures comment_fits { is_too_long (record { bytes = replicate 4096 59; ended = true })
        ≡ false }
    ensures long_comment { is_too_long (record { bytes = replicate 4097 59; ended = true }) ≡ true }
{}

/// Answers as they are put out, each ended by an LF but for the silent one.
pub fn answers_are_lines()
    ensures silent { output_of (Ok silent) ≡ [] }
    ensures done { output_of (Ok done) ≡ codes "ok" ++ 10 ∷ [] }
    ensures was { output_of (Ok (was 0)) ≡ codes "was 0" ++ 10 ∷ [] }
    ensures yes { output_of (Ok (flag true)) ≡ codes "1" ++ 10 ∷ [] }
    ensures no { output_of (Ok (flag false)) ≡ codes "0" ++ 10 ∷ [] }
    ensures entry { output_of (Ok (entry 5 9)) ≡ codes "5 9" ++ 10 ∷ [] }
    ensures string_entry { output_of (Ok (string_entry (codes "ab") 9)) ≡ codes "=ab 9" ++ 10 ∷ [] }
    ensures freed { output_of (Ok (freed 2)) ≡ codes "freed 2" ++ 10 ∷ [] }
    ensures list { output_of (Ok (listed [])) ≡ codes "names" ++ 10 ∷ [] }
    ensures number { output_of (Ok (number (2 ^ 64 - 1)))
        ≡ codes "18446744073709551615" ++ 10 ∷ [] }
    ensures nothing { output_of (Ok nothing) ≡ codes "none" ++ 10 ∷ [] }
{}

/// Shapes of small sets: nodes by kind, without values (0 value words a key) and with them (1).
pub fn shape_table()
    ensures nothing { shape_of 0 [] ≡ shape 0 0 0 0 0 0 }
    ensures no_pair { shape_of 1 [] ≡ shape 0 0 0 0 0 0 }
    ensures one_word { shape_of 0 (5 ∷ []) ≡ shape 1 0 0 0 0 0 }
    ensures one_pair { shape_of 1 (5 ∷ []) ≡ shape 1 0 0 0 0 0 }
    ensures two_words { shape_of 0 (5 ∷ 6 ∷ []) ≡ shape 0 1 0 0 0 0 }
    ensures two_pairs { shape_of 1 (5 ∷ 6 ∷ []) ≡ shape 0 1 0 0 0 0 }
    ensures words_of_a_byte { shape_of 0 (range_with_len 0 256) ≡ shape 0 0 1 0 0 0 }
    ensures pairs_of_a_byte { shape_of 1 (range_with_len 0 256) ≡ shape 0 0 1 0 0 0 }
    ensures one_more { shape_of 0 (range_with_len 0 257) ≡ shape 1 0 1 1 0 0 }
{}

/// Where one kind of node ends and the next begins.
pub fn kinds_have_their_limits()
    ensures leaf { shape_of 0 (range_with_len 0 32) ≡ shape 0 1 0 0 0 0 }
    ensures bitmap_leaf { shape_of 0 (range_with_len 0 33) ≡ shape 0 0 1 0 0 0 }
    ensures apart { shape_of 0 (range_with_len 0 33 ++ 2 ^ 56 ∷ []) ≡ shape 1 0 1 1 0 0 }
    ensures two_bytes { shape_of 0 (range_with_len 0 512) ≡ shape 0 0 2 1 0 0 }
    ensures linear { shape_of 0 (runs (2 ^ 56) 5 7) ≡ shape 0 7 0 1 0 0 }
    ensures bitmap { shape_of 0 (runs (2 ^ 56) 5 8) ≡ shape 0 8 0 0 1 0 }
    ensures still_bitmap { shape_of 0 (runs (2 ^ 56) 1 127) ≡ shape 127 0 0 0 1 0 }
    ensures full { shape_of 0 (runs (2 ^ 56) 1 128) ≡ shape 128 0 0 0 0 1 }
    ensures immediates { shape_of 0 (runs 256 8 5) ≡ shape 5 0 0 1 0 0 }
    ensures one_leaf { shape_of 0 (range_with_len 0 9 ++ drop 8 (runs 256 8 5))
        ≡ shape 4 1 0 1 0 0 }
    ensures with_values { shape_of 1 (runs 256 8 5) ≡ shape 0 5 0 1 0 0 }
{}
