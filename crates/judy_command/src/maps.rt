//! The commands that a judyl array has; those of all arrays with values are in `values`.

ghost use Rattle.std.specs.Prelude.{◌≡◌, ℕ, Ok, Some, IfSome};
ghost use Rattle.std.specs.Option.{option_map};
ghost use Rattle.std.specs.FinMap.{FinMap, get};
ghost use Rattle.judy_model.specs.Arrays.{judyl};
ghost use Rattle.judy_model.specs.Keys.{word_order};
ghost use Rattle.judy_model.specs.Commands as model;
ghost use Rattle.judy_model.specs.Replies.{entry};
ghost use Rattle.judy_word.specs.WordArrays.{array_of};
ghost use Rattle.judy_command.specs.CommandsOf.{key_command_of, pair_command_of};
ghost use Rattle.judy_command.specs.Replies.{reply_of, answer_of};
ghost use Rattle.judy_command.specs.Follows.{Follows};

use crate::command::{KeyCommand, PairCommand};
use crate::reply::{Answer, Refusal, Reply};
use crate::values::{map_on_key, map_on_pair};
use crate::words::{number_or_nothing, word};
use judy_word::JudyL;

/// What a command of one key or word does to the array.
#[inline(always)]
pub(crate) fn words_on_key(words: &mut JudyL, command: KeyCommand, token: &[u8]) -> Reply<'static>
    ensures { Follows (judyl (array_of words.old))
        (model.words_on_key (key_command_of command) (array_of words.old) token.now)
        (reply_of result) (judyl (array_of words.new)) }
{
    match command {
        KeyCommand::First => Ok(entry_or_nothing(words.first_entry(word(token)?))),
        KeyCommand::Next => Ok(entry_or_nothing(words.next_entry(word(token)?))),
        KeyCommand::Last => Ok(entry_or_nothing(words.last_entry(word(token)?))),
        KeyCommand::Prev => Ok(entry_or_nothing(words.prev_entry(word(token)?))),
        KeyCommand::FirstEmpty => Ok(number_or_nothing(words.first_empty(word(token)?))),
        KeyCommand::NextEmpty => Ok(number_or_nothing(words.next_empty(word(token)?))),
        KeyCommand::LastEmpty => Ok(number_or_nothing(words.last_empty(word(token)?))),
        KeyCommand::PrevEmpty => Ok(number_or_nothing(words.prev_empty(word(token)?))),
        KeyCommand::ByCount => Ok(entry_or_nothing(words.by_count_entry(word(token)?))),
        _ => map_on_key(words, command, word(token)),
    }
}

/// What a command of two words does to the array.
#[inline(always)]
pub(crate) fn words_on_pair(
    words: &mut JudyL,
    command: PairCommand,
    first: &[u8],
    second: &[u8],
) -> Reply<'static>
    ensures { Follows (judyl (array_of words.old))
        (model.words_on_pair (pair_command_of command) (array_of words.old) first.now second.now)
        (reply_of result) (judyl (array_of words.new)) }
{
    match command {
        PairCommand::Count => Ok(Answer::Number(words.count(word(first)?, word(second)?))),
        _ => map_on_pair(words, command, word(first), second),
    }
}

// The key that was found and its value, or `none`.
fn entry_or_nothing(found: Option<(u64, u64)>) -> Answer<'static>
    ensures { (map : FinMap word_order ℕ) → IfSome found (λ pair. get map pair.0 ≡ Some pair.1)
        → answer_of result ≡ model.entry_or_nothing entry map (option_map (λ pair. pair.0) found) }
{
    match found {
        Some((key, value)) => Answer::Entry(key, value),
        None => Answer::Nothing,
    }
}
