//! Laws of counts over a level of an array of strings, each the contract of a function without a body, so that the
//! check proves it; no program calls these.

ghost use Rattle.std.specs.Prelude.{◌≡◌, ℕ, List, [], ◌∷◌};
ghost use Rattle.judy_sums.specs.Pairs.{sum_of, sum_below};
ghost use Rattle.judy_sums.specs.Levels.{entries_below, keys_below, extras};
ghost use Rattle.judy_sums.specs.Laws.{KeysBelowAreEntriesAndExtras, KeysAreEntriesAndExtras, EntriesBelowAreARank, KeysThatPass, KeyAtAPlace, four_entries, its_keys, has_more};

/// The keys behind the entries below a word are those entries, and the sum below it of the keys behind each that leads
/// to a level, less one each.
pub fn keys_are_entries_and_extras()
    ensures below { KeysBelowAreEntriesAndExtras }
    ensures all { KeysAreEntriesAndExtras }
{}

/// The entries below a word are as many as its rank among the level's words.
pub fn entries_below_are_a_rank()
    ensures { EntriesBelowAreARank }
{}

/// Of the keys behind the entries, entry by entry, those before one are the keys below its word, and those before it
/// among the keys behind that word.
pub fn keys_that_pass_are_below_a_word_or_behind_it()
    ensures { KeysThatPass (List ℕ) }
{}

/// A key stands as many places behind the keys below its word as it stands among those behind that word.
pub fn a_key_stands_behind_those_below_its_word()
    ensures { KeyAtAPlace (List ℕ) }
{}

/// A level of four entries, with 1, 5, 1 and 3 keys behind them, as a reader would count them.
pub fn a_level_of_four_entries()
    ensures entries { entries_below four_entries 30 ≡ 2 }
    ensures extras { extras has_more its_keys four_entries ≡ (20, 4) ∷ (40, 2) ∷ [] }
    ensures before { sum_below (extras has_more its_keys four_entries) 30 ≡ 4 }
    ensures below { keys_below its_keys four_entries 30 ≡ 6 }
    ensures itself { keys_below its_keys four_entries 20 ≡ 1 }
    ensures all { sum_of (extras has_more its_keys four_entries) ≡ 6 }
{}
