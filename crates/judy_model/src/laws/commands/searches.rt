//! What the commands that search an array answer: the neighbours of a key, the words beside it that are no keys,
//! counts.

ghost use Rattle.std.specs.Prelude.{codes};
ghost use Rattle.judy_model.specs.Arrays.{judy1, judyl, judysl};
ghost use Rattle.judy_model.specs.Tokens.{word_of};
ghost use Rattle.judy_model.specs.KeyTokens.{string_key_of};
ghost use Rattle.judy_model.specs.Neighbours.{first, next, last, prev};
ghost use Rattle.judy_model.specs.Empties.{first_empty, next_empty, last_empty, prev_empty};
ghost use Rattle.judy_model.specs.Counts.{by_count};
ghost use Rattle.judy_model.specs.Replies.{entry, string_entry};
ghost use Rattle.judy_model.specs.CommandLaws.{AnswersNumberOrNone, AnswersEntryOrNone, CountsFromTheFirstToTheSecond};

/// In a judy1 array a neighbour is answered by its number, and none by `none`.
pub fn neighbours_in_a_set()
    ensures first { AnswersNumberOrNone judy1 word_of (codes "first") first }
    ensures next { AnswersNumberOrNone judy1 word_of (codes "next") next }
    ensures last { AnswersNumberOrNone judy1 word_of (codes "last") last }
    ensures prev { AnswersNumberOrNone judy1 word_of (codes "prev") prev }
{}

/// In a judyl array, by its number and the value that it has.
pub fn neighbours_among_words()
    ensures first { AnswersEntryOrNone judyl word_of entry (codes "first") first }
    ensures next { AnswersEntryOrNone judyl word_of entry (codes "next") next }
    ensures last { AnswersEntryOrNone judyl word_of entry (codes "last") last }
    ensures prev { AnswersEntryOrNone judyl word_of entry (codes "prev") prev }
{}

/// In a judysl array, by its bytes and the value that it has.
pub fn neighbours_among_strings()
    ensures first { AnswersEntryOrNone judysl string_key_of string_entry (codes "first") first }
    ensures next { AnswersEntryOrNone judysl string_key_of string_entry (codes "next") next }
    ensures last { AnswersEntryOrNone judysl string_key_of string_entry (codes "last") last }
    ensures prev { AnswersEntryOrNone judysl string_key_of string_entry (codes "prev") prev }
{}

/// Beside the keys of a judy1 array, a word that is no key is answered by its number.
pub fn empty_neighbours_in_a_set()
    ensures first { AnswersNumberOrNone judy1 word_of (codes "fe") first_empty }
    ensures next { AnswersNumberOrNone judy1 word_of (codes "ne") next_empty }
    ensures last { AnswersNumberOrNone judy1 word_of (codes "le") last_empty }
    ensures prev { AnswersNumberOrNone judy1 word_of (codes "pe") prev_empty }
{}

/// So it is beside those of a judyl array.
pub fn empty_neighbours_among_words()
    ensures first { AnswersNumberOrNone judyl word_of (codes "fe") first_empty }
    ensures next { AnswersNumberOrNone judyl word_of (codes "ne") next_empty }
    ensures last { AnswersNumberOrNone judyl word_of (codes "le") last_empty }
    ensures prev { AnswersNumberOrNone judyl word_of (codes "pe") prev_empty }
{}

/// `bycount` answers the n-th key, counted from 1, and of a kind with values its value too. The number is a word in
/// each kind.
pub fn bycount_answers_the_nth_key()
    ensures set { AnswersNumberOrNone judy1 word_of (codes "bycount") by_count }
    ensures words { AnswersEntryOrNone judyl word_of entry (codes "bycount") by_count }
    ensures strings { AnswersEntryOrNone judysl word_of string_entry (codes "bycount") by_count }
{}

/// `count` answers how many keys lie from its first key to its second.
pub fn count_answers_how_many_lie_between()
    ensures set { CountsFromTheFirstToTheSecond judy1 word_of }
    ensures words { CountsFromTheFirstToTheSecond judyl word_of }
    ensures strings { CountsFromTheFirstToTheSecond judysl string_key_of }
{}
