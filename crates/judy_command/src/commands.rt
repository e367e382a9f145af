//! From a line's tokens to its command, and which arguments each command takes.

ghost use Rattle.std.specs.Prelude.{◌≡◌};
ghost use Rattle.judy_model.specs.Commands as model;
ghost use Rattle.judy_model.specs.Steps.{outcome_of_tokens, carried_out_by_word};
ghost use Rattle.judy_shelf.specs.Shelves.{store_of};
ghost use Rattle.judy_command.specs.CommandsOf.{command_of};
ghost use Rattle.judy_command.specs.Replies.{line_reply_of};
ghost use Rattle.judy_command.specs.Follows.{Follows};
ghost use Rattle.judy_command.specs.Texts.{texts};

use crate::arrays::{drop_array, free_array, on_key_at, on_pair_at};
use crate::command::Command;
use crate::make::make_array;
use crate::reply::{LineReply, Refusal};
use judy_shelf::Shelf;
use judy_sl::KeyBuf;

/// What a line's tokens do to the shelf, and the line's reply. The first token is the command, the others
/// its arguments; without a token, or where the first one begins with `;`, nothing is done.
///
/// A refusal is the first that applies, in the order of [`Refusal`], and leaves the shelf as it was.
/// `NoMemory` comes only where the command would add a key or an array. The first five tokens say all: no command
/// has more than three arguments. (This project's own script.)
#[inline(always)]
pub fn execute<'k>(shelf: &mut Shelf, tokens: &[&[u8]], key: &'k mut KeyBuf) -> LineReply<'k>
    ensures { let before = store_of shelf.old in let after = store_of shelf.new in
        Follows before (outcome_of_tokens before (texts tokens.now))
        (line_reply_of after result) after }
{
    match tokens {
        [] => LineReply::Silent,
        [[b';', ..], ..] => LineReply::Silent,
        [word, arguments @ ..] => execute_word(shelf, word, arguments, key),
    }
}

// Carries out the command that a word names.
#[inline(always)]
fn execute_word<'k>(
    shelf: &mut Shelf,
    word: &[u8],
    arguments: &[&[u8]],
    key: &'k mut KeyBuf,
) -> LineReply<'k>
    ensures { let before = store_of shelf.old in let after = store_of shelf.new in
        Follows before (carried_out_by_word before word.now (texts arguments.now))
        (line_reply_of after result) after }
{
    match Command::from_word(word) {
        Some(command) => carry_out(shelf, command, arguments, key),
        None => LineReply::Said(Err(Refusal::UnknownCommand)),
    }
}

// Carries out a command, whose arguments must be as many as it takes.
#[inline(always)]
fn carry_out<'k>(
    shelf: &mut Shelf,
    command: Command,
    arguments: &[&[u8]],
    key: &'k mut KeyBuf,
) -> LineReply<'k>
    ensures { let before = store_of shelf.old in let after = store_of shelf.new in
        Follows before (model.carried_out before (command_of command) (texts arguments.now))
        (line_reply_of after result) after }
{
    LineReply::Said(match (command, arguments) {
        (Command::Make, [name, kind]) => make_array(shelf, name, kind, None),
        (Command::Make, [name, kind, limit]) => make_array(shelf, name, kind, Some(*limit)),
        (Command::List, []) => return LineReply::Listed,
        (Command::Drop, [name]) => drop_array(shelf, name),
        (Command::Free, [name]) => free_array(shelf, name),
        (Command::Key(command), [name, token]) => on_key_at(shelf, name, command, token, key),
        (Command::Pair(command), [name, first, second]) => on_pair_at(
            shelf, name, command, first, second, key,
        ),
        _ => Err(Refusal::ArgumentCount),
    })
}
