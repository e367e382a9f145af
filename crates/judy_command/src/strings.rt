//! The commands that a judysl array has; those of all arrays with values are in `values`.

ghost use Rattle.std.specs.Prelude.{◌≡◌};
ghost use Rattle.judy_model.specs.Arrays.{judysl};
ghost use Rattle.judy_model.specs.CommandWords as words;
ghost use Rattle.judy_model.specs.Commands as model;
ghost use Rattle.judy_command.specs.CommandsOf.{key_command_of, pair_command_of};
ghost use Rattle.judy_command.specs.Replies.{reply_of, answer_of, found_entry};
ghost use Rattle.judy_command.specs.Follows.{Follows};

use crate::command::{KeyCommand, PairCommand};
use crate::keys::{read_string_key, string_key};
use crate::reply::{Answer, Reply};
use crate::values::{map_on_key, map_on_pair};
use crate::words::word;
use judy_sl::{JudySl, KeyBuf};

/// What a command of one key or number does to the array. A key that is found stands in the buffer.
#[inline(never)]
pub(crate) fn strings_on_key<'k>(
    strings: &mut JudySl,
    command: KeyCommand,
    token: &[u8],
    key: &'k mut KeyBuf,
) -> Reply<'k>
    ensures { Follows (judysl strings.old)
        (model.strings_on_key (key_command_of command) strings.old token.now) (reply_of result)
        (judysl strings.new) }
{
    match command {
        KeyCommand::First => {
            read_string_key(token, key)?;
            Ok(entry_or_nothing(strings.first(key), key))
        }
        KeyCommand::Next => {
            read_string_key(token, key)?;
            Ok(entry_or_nothing(strings.next(key), key))
        }
        KeyCommand::Last => {
            read_string_key(token, key)?;
            Ok(entry_or_nothing(strings.last(key), key))
        }
        KeyCommand::Prev => {
            read_string_key(token, key)?;
            Ok(entry_or_nothing(strings.prev(key), key))
        }
        KeyCommand::ByCount => {
            let n = word(token)?;
            Ok(entry_or_nothing(strings.by_count(n, key), key))
        }
        _ => map_on_key(strings, command, string_key(token, key)),
    }
}

/// What a command of two keys, or of a key and its value, does to the array. The first key is put into the buffer.
#[inline(never)]
pub(crate) fn strings_on_pair(
    strings: &mut JudySl,
    command: PairCommand,
    first: &[u8],
    second: &[u8],
    key: &mut KeyBuf,
) -> Reply<'static>
    ensures { Follows (judysl strings.old)
        (model.strings_on_pair (pair_command_of command) strings.old first.now second.now)
        (reply_of result) (judysl strings.new) }
{
    match command {
        PairCommand::Count => count(strings, first, second, key),
        _ => map_on_pair(strings, command, string_key(first, key), second),
    }
}

// How many keys there are from one to another. The second key has a buffer of its own.
fn count(strings: &JudySl, first: &[u8], second: &[u8], key: &mut KeyBuf) -> Reply<'static>
    ensures { Follows (judysl strings.now)
        (model.strings_on_pair words.count strings.now first.now second.now) (reply_of result)
        (judysl strings.now) }
{
    let mut last = KeyBuf::new();
    let from = string_key(first, key)?;
    let to = string_key(second, &mut last)?;
    Ok(Answer::Number(strings.count(from, to)))
}

// The key that a scan found, with its value, or `none`.
fn entry_or_nothing(found: Option<u64>, key: &KeyBuf) -> Answer<'_>
    ensures { answer_of result ≡ found_entry found key.now.items }
{
    match found {
        Some(value) => Answer::StringEntry(key, value),
        None => Answer::Nothing,
    }
}
