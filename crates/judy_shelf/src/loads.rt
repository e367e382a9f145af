//! A shelf from bytes.

ghost use Rattle.std.specs.Prelude.{◌<◌, ◌≤◌, ◌-◌, ◌^◌, ◌≡◌, [], None, IfOk, false};
ghost use Rattle.std.specs.FinMap as map;
ghost use Rattle.judy_model.specs.Arrays.{judy1, judyl, judysl, judyhs};
ghost use Rattle.judy_word.specs.WordArrays.{array_of};
ghost use Rattle.judy_model.specs.Keys.{word_order, byte_order};
ghost use Rattle.judy_model.specs.DumpText.{length_order};
ghost use Rattle.judy_model.specs.DumpGrammar as grammar;
ghost use Rattle.judy_model.specs.Stores.{array_named};
ghost use Rattle.judy_shelf.specs.Arrays.{value_of};
ghost use Rattle.judy_shelf.specs.Shelves.{store_of};
ghost use Rattle.judy_shelf.specs.Reads.{drawn, counted, ReadsWanting, Fills, AtSome, InBody, InArray, InArrays, InCounted, Loaded};
ghost use Rattle.judy_shelf.specs.Versions.{format_of};
ghost use Rattle.judy_shelf.specs.Writes.{kind_number};

use crate::array::Array;
use crate::fault::LoadFault;
use crate::fields::{read_end, read_u64};
use crate::head::{
    read_array_count, read_key_count, read_kind, read_limit, read_magic, read_name, read_word_after,
};
use crate::keys::{LastKey, read_bytes_after, read_string_after};
use crate::kind::Kind;
use crate::name::Name;
use crate::shelf::Shelf;
use crate::version::Version;
use judy_hs::{ByteHash, Fnv1a, JudyHs};
use judy_model::keys::LONGEST_KEY;
use judy_pipe::Source;
use judy_sl::JudySl;
use judy_word::{FillingMap, FillingSet, Judy1, JudyL};
use std::alloc::Global;

/// Reads a dump in the format JDY1 or JDY2 (both this project's own), which its first bytes name, from the first
/// byte to the end of the source, and gives the shelf that it is a dump of.
///
/// At Ok what the source gave in the call is the dump of the shelf's store in one of the formats, and the store is
/// regular; the source's last read gave the end. Every other answer is the first fault in the order of the fields: what
/// the source gave has that fault, whatever came after it, and no proper front of it has one, but that it is cut off;
/// `Truncated` comes only where the source's last read gave the end. `Read` comes only where the source failed, which
/// it then did once, and what it gave before has no fault, but that it may be cut off; `NoMemory` where there is none
/// for an array or a key, and only where what the source gave has no fault and ends behind a key count or an entry. So
/// no byte is taken behind the field that decides, and a source that never ends is left.
///
/// Memory is asked for by the keys that were read, and never by a number that the bytes say. Up to 4,096 keys of an
/// array of words are read before they are put in.
pub fn load<R: Source>(alloc: Global, source: &mut R) -> Result<Shelf, LoadFault>
    requires { (R.tally source.old).failures < 2 ^ 64 - 1 }
    ensures { Loaded
        (drawn (R.given source.old) (R.ended source.old) (R.tally source.old).failures) result
        (drawn (R.given source.new) (R.ended source.new) (R.tally source.new).failures) }
{
    let version = read_magic(source)?;
    let shelf = read_store(alloc, source, version)?;
    read_end(source)?;
    Ok(shelf)
}

// Reads all of a dump but its first bytes and its end.
fn read_store<R: Source>(
    alloc: Global,
    source: &mut R,
    version: Version,
) -> Result<Shelf, LoadFault>
    requires { (R.tally source.old).failures < 2 ^ 64 - 1 }
    ensures { ReadsWanting (InCounted (format_of version)) store_of (counted (format_of version))
        (drawn (R.given source.old) (R.ended source.old) (R.tally source.old).failures) result
        (drawn (R.given source.new) (R.ended source.new) (R.tally source.new).failures) }
{
    let count = read_array_count(source)?;
    read_arrays(alloc, source, version, count)
}

// Reads so many entries of an array of words and puts them in: keys, and what `$value` gives behind each.
macro_rules! fill_words {
    ($words:ident, $into:ident, $source:ident, $count:ident, $value:expr) => {{
        let mut before = None;
        'keys: for _ in 0..$count {
            let key = read_word_after($source, before)?;
            let value = $value;
            match $words.put(key, value) {
                Ok(()) => before = Some(key),
                Err(_) => return Err(LoadFault::NoMemory),
            }
        }
        match $words.$into() {
            Ok(filled) => Ok(filled),
            Err(_) => Err(LoadFault::NoMemory),
        }
    }};
}

// Reads so many entries of an array of byte strings and puts them in: keys, by `$read`, from the last one and into a
// room, and a value behind each.
macro_rules! fill_strings {
    ($strings:ident, $source:ident, $count:ident, |$last:ident, $room:ident| $read:expr) => {{
        let mut $last = LastKey::new();
        let mut $room = [0; LONGEST_KEY];
        'keys: for _ in 0..$count {
            let len = $read?;
            let value = read_u64($source)?;
            let key = &$room[..len];
            match $strings.ins(key) {
                Ok(slot) => *slot = value,
                Err(_) => return Err(LoadFault::NoMemory),
            }
            $last.keep(key);
        }
        Ok($strings)
    }};
}

// Reads so many keys into an empty set.
pub(crate) fn read_set<R: Source>(
    source: &mut R,
    mut set: FillingSet,
    count: u64,
) -> Result<Judy1, LoadFault>
    requires below { (R.tally source.old).failures < 2 ^ 64 - 1 }
    requires empty { set.map ≡ map.empty }
    ensures tight { IfOk result (λ made. made.loose ≡ false) }
    ensures read { Fills judy1 set.limit
        (grammar.entries word_order (λ before. grammar.word) grammar.no_value None) count
        (λ made. judy1 (array_of made))
        (drawn (R.given source.old) (R.ended source.old) (R.tally source.old).failures) result
        (drawn (R.given source.new) (R.ended source.new) (R.tally source.new).failures) }
{
    fill_words!(set, into_set, source, count, 0)
}

// Reads so many keys into an empty map, and the value of each behind it.
pub(crate) fn read_words<R: Source>(
    source: &mut R,
    mut words: FillingMap,
    count: u64,
) -> Result<JudyL, LoadFault>
    requires below { (R.tally source.old).failures < 2 ^ 64 - 1 }
    requires empty { words.map ≡ map.empty }
    ensures tight { IfOk result (λ made. made.loose ≡ false) }
    ensures read { Fills judyl words.limit
        (grammar.entries word_order (λ before. grammar.word) grammar.word None) count
        (λ made. judyl (array_of made))
        (drawn (R.given source.old) (R.ended source.old) (R.tally source.old).failures) result
        (drawn (R.given source.new) (R.ended source.new) (R.tally source.new).failures) }
{
    fill_words!(words, into_map, source, count, read_u64(source)?)
}

// Reads so many keys into an empty array of strings, and the value of each behind it.
pub(crate) fn read_strings<R: Source>(
    source: &mut R,
    version: Version,
    mut strings: JudySl,
    count: u64,
) -> Result<JudySl, LoadFault>
    requires below { (R.tally source.old).failures < 2 ^ 64 - 1 }
    requires empty { strings.map ≡ map.empty }
    ensures { Fills judysl strings.limit
        (grammar.entries byte_order (grammar.string_key (format_of version)) grammar.word None)
        count judysl
        (drawn (R.given source.old) (R.ended source.old) (R.tally source.old).failures) result
        (drawn (R.given source.new) (R.ended source.new) (R.tally source.new).failures) }
{
    fill_strings!(strings, source, count, |last, room| {
        read_string_after(source, version, &last, &mut room)
    })
}

// Reads so many keys into an empty array of byte strings under a hash, and the value of each behind it.
pub(crate) fn read_byte_strings<R: Source, H: ByteHash + Drop>(
    source: &mut R,
    mut strings: JudyHs<H>,
    count: u64,
) -> Result<JudyHs<H>, LoadFault>
    requires below { (R.tally source.old).failures < 2 ^ 64 - 1 }
    requires empty { strings.map ≡ map.empty }
    ensures { Fills judyhs strings.limit
        (grammar.entries length_order (λ before. grammar.string) grammar.word None) count judyhs
        (drawn (R.given source.old) (R.ended source.old) (R.tally source.old).failures) result
        (drawn (R.given source.new) (R.ended source.new) (R.tally source.new).failures) }
{
    fill_strings!(strings, source, count, |last, room| {
        read_bytes_after(source, &last, &mut room)
    })
}

// Reads what stands behind an array's name.
fn read_body<R: Source>(alloc: Global, source: &mut R, version: Version) -> Result<Array, LoadFault>
    requires { (R.tally source.old).failures < 2 ^ 64 - 1 }
    ensures { ReadsWanting (InBody (format_of version)) value_of (grammar.body (format_of version))
        (drawn (R.given source.old) (R.ended source.old) (R.tally source.old).failures) result
        (drawn (R.given source.new) (R.ended source.new) (R.tally source.new).failures) }
{
    let kind = read_kind(source)?;
    let limit = read_limit(source)?;
    let count = read_key_count(source, limit)?;
    read_contents(alloc, source, version, kind, limit, count)
}

// Reads the keys of an array of a kind, so many.
fn read_contents<R: Source>(
    alloc: Global,
    source: &mut R,
    version: Version,
    kind: Kind,
    limit: u64,
    count: u64,
) -> Result<Array, LoadFault>
    requires below { (R.tally source.old).failures < 2 ^ 64 - 1 }
    requires some { 1 ≤ limit }
    requires most { limit ≤ 4294967295 }
    ensures { ReadsWanting
        (AtSome (grammar.contents (format_of version) (kind_number kind) limit) count) value_of
        (grammar.contents (format_of version) (kind_number kind) limit count)
        (drawn (R.given source.old) (R.ended source.old) (R.tally source.old).failures) result
        (drawn (R.given source.new) (R.ended source.new) (R.tally source.new).failures) }
{
    match kind {
        Kind::Judy1 => {
            let set = FillingSet::new(alloc, limit);
            Ok(Array::Judy1(read_set(source, set, count)?))
        }
        Kind::JudyL => {
            let words = FillingMap::new(alloc, limit);
            Ok(Array::JudyL(read_words(source, words, count)?))
        }
        Kind::JudySl => {
            let strings = JudySl::new(alloc, limit);
            Ok(Array::JudySl(read_strings(source, version, strings, count)?))
        }
        Kind::JudyHs => {
            let bytes = JudyHs::new(alloc, limit, Fnv1a);
            Ok(Array::JudyHs(read_byte_strings(source, bytes, count)?))
        }
    }
}

// Reads an array whose name no array on the shelf has.
fn read_array<R: Source>(
    alloc: Global,
    source: &mut R,
    version: Version,
    shelf: &Shelf,
) -> Result<(Name, Array), LoadFault>
    requires { (R.tally source.old).failures < 2 ^ 64 - 1 }
    ensures new { IfOk result (λ made. array_named shelf.now made.0 ≡ None) }
    ensures read { ReadsWanting (InArray (format_of version) (store_of shelf.now))
        (λ made. (made.0, value_of made.1)) (grammar.array (format_of version) (store_of shelf.now))
        (drawn (R.given source.old) (R.ended source.old) (R.tally source.old).failures) result
        (drawn (R.given source.new) (R.ended source.new) (R.tally source.new).failures) }
{
    let name = read_name(source, shelf)?;
    let array = read_body(alloc, source, version)?;
    Ok((name, array))
}

// Reads so many arrays.
fn read_arrays<R: Source>(
    alloc: Global,
    source: &mut R,
    version: Version,
    count: u32,
) -> Result<Shelf, LoadFault>
    requires below { (R.tally source.old).failures < 2 ^ 64 - 1 }
    requires few { count ≤ 64 }
    ensures { ReadsWanting (InArrays (format_of version) count) store_of
        (grammar.arrays (format_of version) [] count)
        (drawn (R.given source.old) (R.ended source.old) (R.tally source.old).failures) result
        (drawn (R.given source.new) (R.ended source.new) (R.tally source.new).failures) }
{
    let mut shelf = Shelf::new(alloc);
    'arrays: for _ in 0..count {
        let (name, array) = read_array(alloc, source, version, &shelf)?;
        match shelf.add(name, array) {
            Ok(()) => {}
            Err(_) => return Err(LoadFault::NoMemory),
        }
    }
    Ok(shelf)
}
