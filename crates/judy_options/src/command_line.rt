//! The command line, read by `clap`.

ghost use Rattle.std.specs.Prelude.{◌≡◌, ◌≤◌, ℕ, List, [], IfOk, IfErr, OnOk, codes, map, option_map, string_bytes, false};
ghost use Rattle.clap.specs.Words.{FailsBy, HasKind, Kinds, app_of, first_value, found_of, kind_of, rule_of};
ghost use Rattle.judy_options.specs.CommandLines.{IsRefused, command_line, file_options, format_given, format_of_text, format_parser, format_rule, option_rule, refusals, script_rule, value_of};
ghost use Rattle.judy_options.specs.declared.not_taken.NotTaken.TheVariants.{NoMemory};

use crate::not_taken::NotTaken;
use crate::request::Options;
use crate::version::VERSION;
use clap::builder::ValueParser;
use clap::error::ErrorKind;
use clap::{Arg, ArgMatches, Command, Error};
use std::alloc::{AllocError, Global};

// What `--help` says first.
const ABOUT: &str = "Keeps named Judy arrays and answers a script of calls, line by line";

// What `--help` says behind the options.
const COMMANDS: &str = "\
Commands of a script, one a line; each is answered by one line on standard output:
  make NAME KIND [LIMIT]  a new empty array, of at most LIMIT keys: ok
  drop NAME               the array is gone: freed N, N its number of keys
  free NAME               its keys are gone: freed N
  list                    names, and NAME:KIND:N for each array
  set NAME I              judy1: 1 where I is a new key, else 0
  unset NAME I            judy1: 1 where I was a key, else 0; now it is none
  test NAME I             judy1: 1 where I is a key, else 0
  ins NAME K V            maps: K has the value V now: was X, 0 where K is new
  get NAME K              maps: the value of K, or none
  put NAME K V            maps: as ins where K is a key; else none
  del NAME K              maps: 1 where K was a key, else 0; now it is none
  first NAME K            the least key from K on, and its value; or none
                          (this and the next three: all kinds but judyhs)
  next NAME K             the least key above K
  last NAME K             the greatest key up to K
  prev NAME K             the greatest key below K
  fe, ne, le, pe NAME I   judy1, judyl: these four among the words that are no keys
  count NAME K K2         how many keys there are from K to K2
                          (this and the next: all kinds but judyhs)
  bycount NAME N          the N-th key, counted from 1, and its value; or none

KIND is judy1, a set of words, or one of the maps to words: judyl from words,
judysl from strings in their order, judyhs from byte strings in none. A word is
a decimal number below 2^64; a string is = and then its bytes, or # and then
hexadecimal digits. A line that is refused answers error and the reason.
judystore(1) tells more.";

/// Reads the words of a command line, the program's name first, by the meaning that `clap` gives them.
///
/// At Ok the words are taken, and these are the files and the format that they name. Else the error is `Help` where
/// they ask for help, `BadWords` where something is wrong with them, each with clap's text, `Version` where they ask
/// for the version, or `NoMemory`.
pub fn options(alloc: Global, words: &[String]) -> Result<Options, NotTaken>
    ensures load { IfOk result
        (λ options. option_map string_bytes options.load
        ≡ value_of (codes "load") (map string_bytes words.now)) }
    ensures dump { IfOk result
        (λ options. option_map string_bytes options.dump
        ≡ value_of (codes "dump") (map string_bytes words.now)) }
    ensures format { IfOk result
        (λ options. options.format
        ≡ format_given (value_of (codes "format") (map string_bytes words.now))) }
    ensures script { IfOk result
        (λ options. option_map string_bytes options.script
        ≡ value_of (codes "script") (map string_bytes words.now)) }
    ensures taken { OnOk result (refusals (map string_bytes words.now) ≡ []) }
    ensures refused { IfErr result (IsRefused (refusals (map string_bytes words.now))) }
{
    let matches = match matched(alloc, words) {
        Ok(matches) => matches,
        Err(error) => return Err(refused(alloc, error)),
    };
    Ok(Options {
        load: value(alloc, &matches, "load")?,
        dump: value(alloc, &matches, "dump")?,
        format: format(&matches),
        script: value(alloc, &matches, "script")?,
    })
}

// What the words give each argument.
fn matched<'a>(alloc: Global, words: &'a [String]) -> Result<ArgMatches<'a>, Error>
    ensures given { IfOk result
        (λ matches. (id : List ℕ)
        → first_value (found_of matches) id ≡ value_of id (map string_bytes words.now)) }
    ensures kinds { FailsBy (refusals (map string_bytes words.now)) result }
{
    let command = make_command(alloc)?;
    command.try_get_matches_from(words)
}

fn make_command<'a>(alloc: Global) -> Result<Command<'a>, AllocError>
    ensures app { IfOk result (λ command. app_of command ≡ command_line) }
{
    make_file_options(alloc)?
        .arg(format_argument(alloc))?
        .arg(script_argument(alloc))
}

// The command with the options whose values are files.
fn make_file_options<'a>(alloc: Global) -> Result<Command<'a>, AllocError>
    ensures app { IfOk result (λ command. app_of command ≡ file_options) }
{
    Command::new(alloc, "judystore")
        .version(VERSION)
        .about(ABOUT)
        .after_help(COMMANDS)
        .arg(load_argument(alloc))?
        .arg(dump_argument(alloc))
}

fn load_argument<'a>(alloc: Global) -> Arg<'a>
    ensures rule { rule_of result ≡ option_rule (codes "load") }
    ensures local { result.global ≡ false }
{
    Arg::new(alloc, "load").long("load").value_name("FILE").help(
        "Begin with the store that this dump is of, not with an empty one",
    )
}

fn dump_argument<'a>(alloc: Global) -> Arg<'a>
    ensures rule { rule_of result ≡ option_rule (codes "dump") }
    ensures local { result.global ≡ false }
{
    Arg::new(alloc, "dump")
        .long("dump")
        .value_name("FILE")
        .help("Write the store to this file at the end")
}

fn format_argument<'a>(alloc: Global) -> Arg<'a>
    ensures rule { rule_of result ≡ format_rule }
    ensures local { result.global ≡ false }
{
    Arg::new(alloc, "format")
        .long("format")
        .value_name("N")
        .default_value("1")
        .value_parser(formats())
        .help("The format of that dump, 1 or 2")
}

// What clap takes as a format.
fn formats<'a>() -> ValueParser<'a>
    ensures { result ≡ format_parser }
{
    ValueParser::unsigned(1, 2)
}

fn script_argument<'a>(alloc: Global) -> Arg<'a>
    ensures rule { rule_of result ≡ script_rule }
    ensures local { result.global ≡ false }
{
    Arg::new(alloc, "script")
        .value_name("SCRIPT")
        .help("The script to run; without one, standard input")
}

// The format that the matches give.
fn format(matches: &ArgMatches<'_>) -> u64
    ensures { result ≡ format_given (first_value (found_of matches.now) (codes "format")) }
{
    match matches.get_str("format") {
        None => 1,
        Some(text) => format_of_text(text),
    }
}

// The number of a format that a text spells; 1 where it spells none.
fn format_of_text(text: &str) -> u64
    ensures { result ≡ format_of_text text.now }
{
    match text.parse::<u64>() {
        Ok(number) if 1 <= number && number <= 2 => number,
        _ => 1,
    }
}

// The value of an argument, in memory of its own.
fn value(alloc: Global, matches: &ArgMatches<'_>, id: &str) -> Result<Option<String>, NotTaken>
    ensures given { IfOk result
        (λ value. option_map string_bytes value ≡ first_value (found_of matches.now) id.now) }
    ensures refused { IfErr result (λ refusal. refusal ≡ NoMemory) }
{
    match matches.get_str(id) {
        None => Ok(None),
        Some(text) => match String::from_str(alloc, text) {
            Ok(text) => Ok(Some(text)),
            Err(_) => Err(NotTaken::NoMemory),
        },
    }
}

// What is told where `clap` doesn't take the words.
fn refused(alloc: Global, error: Error) -> NotTaken
    ensures { (kinds : Kinds) → HasKind kinds error → IsRefused kinds result }
{
    let kind = error.kind();
    if kind == ErrorKind::OutOfMemory {
        return NotTaken::NoMemory;
    }
    if kind == ErrorKind::DisplayVersion {
        return NotTaken::Version;
    }
    match format!(in alloc; "{error}") {
        Err(_) => NotTaken::NoMemory,
        Ok(text) if kind == ErrorKind::DisplayHelp => NotTaken::Help(text),
        Ok(text) => NotTaken::BadWords(text),
    }
}
