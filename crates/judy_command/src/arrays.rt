//! Commands of one array, which a token names.

ghost use Rattle.std.specs.Prelude.{◌≡◌, if◌then◌else◌};
ghost use Rattle.std.specs.Borrow.{sem};
ghost use Rattle.judy_model.specs.Commands as model;
ghost use Rattle.judy_model.specs.Replies as replies;
ghost use Rattle.judy_model.specs.Tokens.{is_name};
ghost use Rattle.judy_shelf.specs.Arrays.{value_of};
ghost use Rattle.judy_shelf.specs.Shelves.{store_of};
ghost use Rattle.judy_command.specs.CommandsOf.{key_command_of, pair_command_of};
ghost use Rattle.judy_command.specs.Lends.{LendsNamed, lent_array, named};
ghost use Rattle.judy_command.specs.Replies.{checked, refusal_of, reply_of};
ghost use Rattle.judy_command.specs.Follows.{Follows};

use crate::command::{KeyCommand, PairCommand};
use crate::keys::bytes_key;
use crate::maps::{words_on_key, words_on_pair};
use crate::reply::{Answer, Refusal, Reply};
use crate::sets::{set_on_key, set_on_pair};
use crate::strings::{strings_on_key, strings_on_pair};
use crate::values::{map_on_key, map_on_pair};
use judy_shelf::{Array, Name, Shelf};
use judy_sl::KeyBuf;

// The name that a token says.
pub(crate) fn name_at(token: &[u8]) -> Result<Name, Refusal>
    ensures { checked result ≡ model.name_at token.now }
{
    Name::new(token).ok_or(Refusal::BadName)
}

// The array that a token names, to be changed.
#[inline(always)]
fn array_at<'a>(shelf: &'a mut Shelf, token: &[u8]) -> Result<&'a mut Array, Refusal>
    ensures* writes_back { sem 𝓛 (LendsNamed shelf.entry token.now result) }
    ensures value { lent_array result ≡ named (store_of shelf.old) token.now }
{
    match shelf.named_mut(token) {
        Some(array) => Ok(array),
        None => Err(unnamed(token)),
    }
}

// Why a token that names no array is refused.
#[inline(never)]
fn unnamed(token: &[u8]) -> Refusal
    ensures { refusal_of result
        ≡ (if is_name token.now then replies.no_such_array else replies.bad_name) }
{
    match Name::new(token) {
        Some(_) => Refusal::NoSuchArray,
        None => Refusal::BadName,
    }
}

/// `drop NAME`
#[inline(never)]
pub(crate) fn drop_array(shelf: &mut Shelf, name: &[u8]) -> Reply<'static>
    ensures { let before = store_of shelf.old in
        Follows before (model.dropped before name.now) (reply_of result) (store_of shelf.new) }
{
    let name = name_at(name)?;
    let Some(array) = shelf.remove(&name) else {
        return Err(Refusal::NoSuchArray);
    };
    Ok(Answer::Freed(array.len()))
}

/// `free NAME`
#[inline(never)]
pub(crate) fn free_array(shelf: &mut Shelf, name: &[u8]) -> Reply<'static>
    ensures { let before = store_of shelf.old in
        Follows before (model.at_name before name.now model.freed_whole) (reply_of result)
        (store_of shelf.new) }
{
    Ok(Answer::Freed(array_at(shelf, name)?.free()))
}

/// A command that names one key or word.
#[inline(always)]
pub(crate) fn on_key_at<'k>(
    shelf: &mut Shelf,
    name: &[u8],
    command: KeyCommand,
    token: &[u8],
    key: &'k mut KeyBuf,
) -> Reply<'k>
    ensures { let before = store_of shelf.old in
        Follows before (model.at_name before name.now
        (model.on_key (key_command_of command) token.now)) (reply_of result) (store_of shelf.new) }
{
    on_key(array_at(shelf, name)?, command, token, key)
}

// What it does to the array, by its kind.
#[inline(always)]
fn on_key<'k>(
    array: &mut Array,
    command: KeyCommand,
    token: &[u8],
    key: &'k mut KeyBuf,
) -> Reply<'k>
    ensures { let before = value_of array.old in
        Follows before (model.on_key (key_command_of command) token.now before) (reply_of result)
        (value_of array.new) }
{
    match array {
        Array::Judy1(set) => set_on_key(set, command, token),
        Array::JudyL(words) => words_on_key(words, command, token),
        Array::JudySl(strings) => strings_on_key(strings, command, token, key),
        Array::JudyHs(bytes) => map_on_key(bytes, command, bytes_key(token, key)),
    }
}

/// A command that names a key and its value, or two keys.
#[inline(always)]
pub(crate) fn on_pair_at(
    shelf: &mut Shelf,
    name: &[u8],
    command: PairCommand,
    first: &[u8],
    second: &[u8],
    key: &mut KeyBuf,
) -> Reply<'static>
    ensures { let before = store_of shelf.old in
        Follows before (model.at_name before name.now
        (model.on_pair (pair_command_of command) first.now second.now)) (reply_of result)
        (store_of shelf.new) }
{
    on_pair(array_at(shelf, name)?, command, first, second, key)
}

// What it does to the array, by its kind.
#[inline(always)]
fn on_pair(
    array: &mut Array,
    command: PairCommand,
    first: &[u8],
    second: &[u8],
    key: &mut KeyBuf,
) -> Reply<'static>
    ensures { let before = value_of array.old in
        Follows before (model.on_pair (pair_command_of command) first.now second.now before)
        (reply_of result) (value_of array.new) }
{
    match array {
        Array::Judy1(set) => set_on_pair(set, command, first, second),
        Array::JudyL(words) => words_on_pair(words, command, first, second),
        Array::JudySl(strings) => strings_on_pair(strings, command, first, second, key),
        Array::JudyHs(bytes) => map_on_pair(bytes, command, bytes_key(first, key), second),
    }
}
