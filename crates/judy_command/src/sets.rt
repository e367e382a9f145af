//! The commands that a judy1 array has.

ghost use Rattle.std.specs.Prelude.{◌≡◌};
ghost use Rattle.judy_model.specs.Arrays.{judy1};
ghost use Rattle.judy_model.specs.Commands as model;
ghost use Rattle.judy_word.specs.WordArrays.{array_of};
ghost use Rattle.judy_command.specs.CommandsOf.{key_command_of, pair_command_of};
ghost use Rattle.judy_command.specs.Replies.{reply_of};
ghost use Rattle.judy_command.specs.Follows.{Follows};

use crate::command::{KeyCommand, PairCommand};
use crate::reply::{Answer, Refusal, Reply};
use crate::words::{number_or_nothing, word};
use judy_word::Judy1;

/// What a command of one key or word does to the set.
#[inline(always)]
pub(crate) fn set_on_key(set: &mut Judy1, command: KeyCommand, token: &[u8]) -> Reply<'static>
    ensures { Follows (judy1 (array_of set.old))
        (model.set_on_key (key_command_of command) (array_of set.old) token.now) (reply_of result)
        (judy1 (array_of set.new)) }
{
    match command {
        KeyCommand::Set => Ok(Answer::Flag(set.set(word(token)?)?)),
        KeyCommand::Unset => Ok(Answer::Flag(set.unset(word(token)?))),
        KeyCommand::Test => Ok(Answer::Flag(set.test(word(token)?))),
        KeyCommand::First => Ok(number_or_nothing(set.first(word(token)?))),
        KeyCommand::Next => Ok(number_or_nothing(set.next(word(token)?))),
        KeyCommand::Last => Ok(number_or_nothing(set.last(word(token)?))),
        KeyCommand::Prev => Ok(number_or_nothing(set.prev(word(token)?))),
        KeyCommand::FirstEmpty => Ok(number_or_nothing(set.first_empty(word(token)?))),
        KeyCommand::NextEmpty => Ok(number_or_nothing(set.next_empty(word(token)?))),
        KeyCommand::LastEmpty => Ok(number_or_nothing(set.last_empty(word(token)?))),
        KeyCommand::PrevEmpty => Ok(number_or_nothing(set.prev_empty(word(token)?))),
        KeyCommand::ByCount => Ok(number_or_nothing(set.by_count(word(token)?))),
        KeyCommand::Get | KeyCommand::Del => Err(Refusal::WrongKind),
    }
}

/// What a command of two words does to the set.
#[inline(never)]
pub(crate) fn set_on_pair(
    set: &Judy1,
    command: PairCommand,
    first: &[u8],
    second: &[u8],
) -> Reply<'static>
    ensures { Follows (judy1 (array_of set.now))
        (model.set_on_pair (pair_command_of command) (array_of set.now) first.now second.now)
        (reply_of result) (judy1 (array_of set.now)) }
{
    match command {
        PairCommand::Count => Ok(Answer::Number(set.count(word(first)?, word(second)?))),
        PairCommand::Ins | PairCommand::Put => Err(Refusal::WrongKind),
    }
}
