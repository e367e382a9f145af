//! What stands before an array's keys in a dump, read field by field, each checked as soon as it is read.

ghost use Rattle.std.specs.Prelude.{◌≡◌, ◌<◌, ◌≤◌, ◌-◌, ◌^◌, ◌∷◌, [], IfOk, IsTrue, IsFalse, MatchOption, None, length};
ghost use Rattle.judy_model.specs.Fields.{field, number, bytes, bad_name, bad_limit, bad_count, bad_order};
ghost use Rattle.judy_model.specs.Keys.{word_order};
ghost use Rattle.judy_model.specs.DumpText.{magic};
ghost use Rattle.judy_model.specs.DumpGrammar as grammar;
ghost use Rattle.judy_model.specs.DumpGrammar.{is_magic, is_name_length, is_kind, is_limit, is_above, name_checks};
ghost use Rattle.judy_model.specs.Stores.{array_named};
ghost use Rattle.judy_shelf.specs.Shelves.{store_of};
ghost use Rattle.judy_shelf.specs.Versions.{format_of};
ghost use Rattle.judy_shelf.specs.Writes.{kind_number};
ghost use Rattle.judy_shelf.specs.Reads.{drawn, Reads};

use crate::fault::LoadFault;
use crate::fields::{read_bytes, read_u8, read_u32, read_u64};
use crate::kind::Kind;
use crate::name::Name;
use crate::shelf::{MAX_LIMIT, Shelf};
use crate::version::Version;
use judy_pipe::Source;

// The most bytes of a name. (This project's own.)
const MAX_NAME_LEN: usize = 32;

// Reads the first bytes of a dump, which name its format.
pub(crate) fn read_magic<R: Source>(source: &mut R) -> Result<Version, LoadFault>
    requires { (R.tally source.old).failures < 2 ^ 64 - 1 }
    ensures { Reads format_of grammar.begins
        (drawn (R.given source.old) (R.ended source.old) (R.tally source.old).failures) result
        (drawn (R.given source.new) (R.ended source.new) (R.tally source.new).failures) }
{
    let mut bytes = [0; 4];
    read_bytes(source, &mut bytes)?;
    named_version(bytes).ok_or(LoadFault::BadMagic)
}

// The format that four bytes name, if they name one.
fn named_version(named: [u8; 4]) -> Option<Version>
    ensures { MatchOption result (IsFalse (is_magic named))
        (λ version. named ≡ magic (format_of version)) }
{
    if named == *b"JDY1" {
        Some(Version::First)
    } else if named == *b"JDY2" {
        Some(Version::Second)
    } else {
        None
    }
}

// Reads how many arrays follow.
pub(crate) fn read_array_count<R: Source>(source: &mut R) -> Result<u32, LoadFault>
    requires { (R.tally source.old).failures < 2 ^ 64 - 1 }
    ensures few { IfOk result (λ count. count ≤ 64) }
    ensures read { Reads (λ count. count) grammar.array_count
        (drawn (R.given source.old) (R.ended source.old) (R.tally source.old).failures) result
        (drawn (R.given source.new) (R.ended source.new) (R.tally source.new).failures) }
{
    let count = read_u32(source)?;
    if count > 64 {
        return Err(LoadFault::TooMany);
    }
    Ok(count)
}

// Reads how long a name is.
fn read_name_len<R: Source>(source: &mut R) -> Result<u8, LoadFault>
    requires { (R.tally source.old).failures < 2 ^ 64 - 1 }
    ensures some { IfOk result (λ len. 1 ≤ len) }
    ensures most { IfOk result (λ len. len ≤ 32) }
    ensures read { Reads (λ len. len) (field (number 1) ((is_name_length, bad_name) ∷ []))
        (drawn (R.given source.old) (R.ended source.old) (R.tally source.old).failures) result
        (drawn (R.given source.new) (R.ended source.new) (R.tally source.new).failures) }
{
    let len = read_u8(source)?;
    if len == 0 || len > 32 {
        return Err(LoadFault::BadName);
    }
    Ok(len)
}

// Reads a name that no array on the shelf has.
pub(crate) fn read_name<R: Source>(source: &mut R, shelf: &Shelf) -> Result<Name, LoadFault>
    requires { (R.tally source.old).failures < 2 ^ 64 - 1 }
    ensures new { IfOk result (λ name. array_named shelf.now name ≡ None) }
    ensures read { Reads (λ name. name) (grammar.name (store_of shelf.now))
        (drawn (R.given source.old) (R.ended source.old) (R.tally source.old).failures) result
        (drawn (R.given source.new) (R.ended source.new) (R.tally source.new).failures) }
{
    let len = read_name_len(source)? as usize;
    let mut buffer = [0; MAX_NAME_LEN];
    read_name_text(source, shelf, &mut buffer[..len])
}

// Reads a name that fills `text`.
fn read_name_text<R: Source>(
    source: &mut R,
    shelf: &Shelf,
    text: &mut [u8],
) -> Result<Name, LoadFault>
    requires below { (R.tally source.old).failures < 2 ^ 64 - 1 }
    requires some { 1 ≤ length text.old }
    requires most { length text.old ≤ 32 }
    ensures new { IfOk result (λ name. array_named shelf.now name ≡ None) }
    ensures read { Reads (λ name. name)
        (field (bytes (length text.old)) (name_checks (store_of shelf.now)))
        (drawn (R.given source.old) (R.ended source.old) (R.tally source.old).failures) result
        (drawn (R.given source.new) (R.ended source.new) (R.tally source.new).failures) }
{
    read_bytes(source, text)?;
    let name = Name::new(text).ok_or(LoadFault::BadName)?;
    if shelf.get(&name).is_some() {
        return Err(LoadFault::SameName);
    }
    Ok(name)
}

// Reads the kind of an array.
pub(crate) fn read_kind<R: Source>(source: &mut R) -> Result<Kind, LoadFault>
    requires { (R.tally source.old).failures < 2 ^ 64 - 1 }
    ensures { Reads kind_number grammar.kind
        (drawn (R.given source.old) (R.ended source.old) (R.tally source.old).failures) result
        (drawn (R.given source.new) (R.ended source.new) (R.tally source.new).failures) }
{
    let number = read_u8(source)?;
    kind_of_number(number).ok_or(LoadFault::BadKind)
}

// The kind of a number, if there is one.
fn kind_of_number(number: u8) -> Option<Kind>
    ensures { MatchOption result (IsFalse (is_kind number)) (λ kind. number ≡ kind_number kind) }
{
    if number == 1 {
        Some(Kind::Judy1)
    } else if number == 2 {
        Some(Kind::JudyL)
    } else if number == 3 {
        Some(Kind::JudySl)
    } else if number == 4 {
        Some(Kind::JudyHs)
    } else {
        None
    }
}

// Reads how many keys an array may hold.
pub(crate) fn read_limit<R: Source>(source: &mut R) -> Result<u64, LoadFault>
    requires { (R.tally source.old).failures < 2 ^ 64 - 1 }
    ensures some { IfOk result (λ limit. 1 ≤ limit) }
    ensures most { IfOk result (λ limit. limit ≤ 4294967295) }
    ensures read { Reads (λ limit. limit) grammar.limit
        (drawn (R.given source.old) (R.ended source.old) (R.tally source.old).failures) result
        (drawn (R.given source.new) (R.ended source.new) (R.tally source.new).failures) }
{
    let limit = read_u64(source)?;
    if limit == 0 || limit > MAX_LIMIT {
        return Err(LoadFault::BadLimit);
    }
    Ok(limit)
}

// Reads how many keys follow.
pub(crate) fn read_key_count<R: Source>(source: &mut R, limit: u64) -> Result<u64, LoadFault>
    requires { (R.tally source.old).failures < 2 ^ 64 - 1 }
    ensures { Reads (λ count. count) (grammar.key_count limit)
        (drawn (R.given source.old) (R.ended source.old) (R.tally source.old).failures) result
        (drawn (R.given source.new) (R.ended source.new) (R.tally source.new).failures) }
{
    let count = read_u64(source)?;
    if count > limit {
        return Err(LoadFault::BadCount);
    }
    Ok(count)
}

// Reads a word that is greater than the one before, if there is one.
// As `read_u64`.
#[inline(always)]
pub(crate) fn read_word_after<R: Source>(
    source: &mut R,
    before: Option<u64>,
) -> Result<u64, LoadFault>
    requires { (R.tally source.old).failures < 2 ^ 64 - 1 }
    ensures above { IfOk result (λ word. IsTrue (is_above word_order before word)) }
    ensures read { Reads (λ word. word)
        (field grammar.word ((is_above word_order before, bad_order) ∷ []))
        (drawn (R.given source.old) (R.ended source.old) (R.tally source.old).failures) result
        (drawn (R.given source.new) (R.ended source.new) (R.tally source.new).failures) }
{
    let word = read_u64(source)?;
    match before {
        Some(before) if word <= before => Err(LoadFault::BadOrder),
        _ => Ok(word),
    }
}
