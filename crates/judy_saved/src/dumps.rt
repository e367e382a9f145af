//! One array as the dump of a store that has it alone, written to the front of a room.

ghost use Rattle.std.specs.Prelude.{◌≡◌, ◌≢◌, ◌<◌, ◌≤◌, ◌+◌, ◌^◌, ◌++◌, length, true, nat_le, Err, IfErr, IfSome, IsOk, IsTrue};
ghost use Rattle.std.specs.FinMap as map;
ghost use Rattle.std.specs.List.{flat_map};
ghost use Rattle.judy_model.specs.Arrays.{judy1, judyl, judysl};
ghost use Rattle.judy_model.specs.Counts.{by_count};
ghost use Rattle.judy_model.specs.DumpText as text;
ghost use Rattle.judy_model.specs.DumpText.{jdy1};
ghost use Rattle.judy_model.specs.WordBytes.{low_bytes};
ghost use Rattle.judy_hs.specs.Listed.{entries_in};
ghost use Rattle.judy_model.specs.declared.keys.TheConstants.{LONGEST_KEY};
ghost use Rattle.judy_sl.specs.Arenas.{AreWithin};
ghost use Rattle.judy_shelf.specs.Versions.{format_of};
ghost use Rattle.judy_shelf.specs.Writes.{kind_number};
ghost use Rattle.judy_saved.specs.Dumps.{head_text, set_text, map_text, strings_text, entry_text, is_short, set_dump, map_dump, strings_dump, bytes_dump, IsDumped};
ghost use Rattle.judy_saved.specs.Rooms.{Adds};
ghost use Rattle.judy_saved.specs.declared.dumps.SaveError.TheVariants.{TooMany, LongKey};

use crate::room::put;
use judy_hs::{ByteHash, HsEntry, JudyHs};
use judy_model::keys::LONGEST_KEY;
use judy_shelf::{Kind, LastKey, MAX_LIMIT, Name, Version, head_of, heading_of, shared_len};
use judy_sl::{KeyLength, StringsOf};
use judy_word::{Judy1, JudyL};
use thiserror::Error;

/// Why an array isn't dumped. Nothing was written.
#[derive(Clone, Copy, Debug, PartialEq, Eq, Error)]
pub enum SaveError {
    /// It is one of words, and has more than 4,294,967,295 keys, which no dump can say.
    #[error("too many keys for a dump")]
    TooMany,
    /// It is one of byte strings, and there is no memory to sort its keys.
    #[error("out of memory")]
    NoMemory,
    /// It is one of strings or of byte strings, and a key has more than 1,024 bytes, which no dump can say.
    #[error("a key is too long for a dump")]
    LongKey,
}

/// Writes the dump of a set under a name to the front of a room where it fits, and answers how many bytes it has,
/// whether it fits or not; where it doesn't, the room is as it was. So an empty room asks for the size alone, which
/// takes no walk. What stands in the room behind the dump stays.
///
/// The dump is that of the store that has a set of these keys alone, with the limit 4,294,967,295, the most that a dump
/// says. `TooMany`, and nothing else, is the error: where the set has more keys than that. The room is as it was then.
///
/// The set of the key 1 under the name `a` has 35 bytes, eight of them the key's, and one key more takes eight more:
///
/// ```
/// let mut room = [0; 64];
/// assert!(dump_set(Version::First, &name, &set, &mut []) == Ok(35));
/// assert!(dump_set(Version::First, &name, &set, &mut room) == Ok(35) && room.starts_with(b"JDY1"));
/// ```
pub fn dump_set(
    version: Version,
    name: &Name,
    set: &Judy1,
    room: &mut [u8],
) -> Result<usize, SaveError>
    ensures { IsDumped (set_dump (format_of version) name.now set.now.map) room.old result
        room.new }
{
    let count = set.len();
    if count > MAX_LIMIT {
        return Err(SaveError::TooMany);
    }
    let mut none = [];
    let head = put_head(version, name, Kind::Judy1, count, &mut none);
    let size = head + 8 * count as usize;
    if size > room.len() {
        return Ok(size);
    }
    write_set(version, name, set, room);
    Ok(size)
}

/// Writes the dump of a map from words under a name, as [`dump_set`] writes that of a set. Each key takes 16 bytes with
/// its value:
///
/// ```
/// // of the map from 5 to 9 under the name `l`
/// assert!(dump_map(Version::Second, &name, &words, &mut []) == Ok(43));
/// ```
pub fn dump_map(
    version: Version,
    name: &Name,
    words: &JudyL,
    room: &mut [u8],
) -> Result<usize, SaveError>
    ensures { IsDumped (map_dump (format_of version) name.now words.now.map) room.old result
        room.new }
{
    let count = words.len();
    if count > MAX_LIMIT {
        return Err(SaveError::TooMany);
    }
    let mut none = [];
    let head = put_head(version, name, Kind::JudyL, count, &mut none);
    let size = head + 16 * count as usize;
    if size > room.len() {
        return Ok(size);
    }
    write_map(version, name, words, room);
    Ok(size)
}

/// Writes the dump of a map from strings under a name, as [`dump_set`] writes that of a set. Its size takes a walk
/// through the keys, so two walks are made where it is written. `LongKey`, and nothing else, is the error: where a key
/// has more than 1,024 bytes, as none has in a map whose keys are a store's. The room is as it was then. A map that
/// held such a key since it was last empty is asked for the length of each key first, which takes a way down the map
/// each. `TooMany` never comes: no such map has more keys than a dump can say. It asks for no memory.
///
/// The second format writes what two strings share once, so `a` and `ab` take a byte less for the shared one, and two
/// more each to tell how many are shared:
///
/// ```
/// // of the map from `a` to 2 and `ab` to 3 under the name `s`
/// assert!(dump_strings(Version::First, &name, &strings, &mut []) == Ok(50));
/// assert!(dump_strings(Version::Second, &name, &strings, &mut []) == Ok(53));
/// // and from 1,025 bytes of 7 to 0
/// assert!(dump_strings(Version::Second, &name, &longer, &mut []) == Err(SaveError::LongKey));
/// ```
pub fn dump_strings<L: KeyLength>(
    version: Version,
    name: &Name,
    strings: &StringsOf<L>,
    room: &mut [u8],
) -> Result<usize, SaveError>
    ensures dumped { IsDumped (strings_dump (format_of version) name.now strings.now.map) room.old
        result room.new }
    ensures refused { IfErr result (λ error. error ≡ LongKey) }
    ensures always { L.LONGEST ≤ LONGEST_KEY → IsOk result }
{
    let _most = strings.len();
    if !are_sayable(strings) {
        return Err(SaveError::LongKey);
    }
    let mut none = [];
    let size = write_strings(version, name, strings, &mut none);
    if size > room.len() {
        return Ok(size);
    }
    Ok(write_strings(version, name, strings, room))
}

/// Writes the dump of a map from byte strings under a name, as [`dump_set`] writes that of a set. The keys are sorted
/// first, also where the size alone is asked for. The errors, in this order: `NoMemory` where there is none to sort
/// them; `LongKey` where one has more than 1,024 bytes. The room is as it was then. `TooMany` never comes: no such map
/// has more keys than a dump can say.
///
/// ```
/// // of the map from 1,025 bytes of 7 to 0
/// assert!(dump_byte_strings(Version::First, &name, &bytes, &mut []) == Err(SaveError::LongKey));
/// ```
pub fn dump_byte_strings<H: ByteHash + Drop>(
    version: Version,
    name: &Name,
    bytes: &JudyHs<H>,
    room: &mut [u8],
) -> Result<usize, SaveError>
    ensures dumped { IsDumped (bytes_dump (format_of version) name.now bytes.now.map) room.old
        result room.new }
    ensures never { result ≢ Err TooMany }
{
    let count = bytes.len();
    let Ok(entries) = bytes.sorted() else {
        return Err(SaveError::NoMemory);
    };
    if !are_short(&entries) {
        return Err(SaveError::LongKey);
    }
    let mut none = [];
    let size = write_byte_strings(version, name, count, &entries, &mut none);
    if size > room.len() {
        return Ok(size);
    }
    Ok(write_byte_strings(version, name, count, &entries, room))
}

// Writes what stands before the keys of one array.
fn put_head(version: Version, name: &Name, kind: Kind, count: u64, room: &mut [u8]) -> usize
    ensures few { result ≤ 58 }
    ensures len { length room.new ≡ length room.old }
    ensures adds { Adds (head_text (format_of version) name.now (kind_number kind) count) 0 room.old
        result room.new }
{
    let end = put(room, 0, &heading_of(version, 1));
    put(room, end, &head_of(name, kind, MAX_LIMIT, count))
}

// Writes a set's dump.
fn write_set(version: Version, name: &Name, set: &Judy1, room: &mut [u8]) -> usize
    requires { map.len set.now.map ≤ 4294967295 }
    ensures { Adds (set_text (format_of version) name.now set.now.map) 0 room.old result
        room.new }
{
    let head = put_head(version, name, Kind::Judy1, set.len(), room);
    put_keys(set, room, head)
}

// Writes the keys of a set.
fn put_keys(set: &Judy1, room: &mut [u8], at: usize) -> usize
    requires few { map.len set.now.map ≤ 4294967295 }
    requires early { at ≤ 58 }
    ensures { Adds (text.contents jdy1 (judy1 (record { limit = 4294967295; map = set.now.map })))
        at room.old result room.new }
{
    let mut end = at;
    'keys: for key in set {
        end = put(room, end, &word_bytes(key));
    }
    end
}

// Writes a map's dump.
fn write_map(version: Version, name: &Name, words: &JudyL, room: &mut [u8]) -> usize
    requires { map.len words.now.map ≤ 4294967295 }
    ensures { Adds (map_text (format_of version) name.now words.now.map) 0 room.old result
        room.new }
{
    let head = put_head(version, name, Kind::JudyL, words.len(), room);
    put_entries(words, room, head)
}

// Writes the keys of a map, and the value of each behind it.
fn put_entries(words: &JudyL, room: &mut [u8], at: usize) -> usize
    requires few { map.len words.now.map ≤ 4294967295 }
    requires early { at ≤ 58 }
    ensures { Adds (text.contents jdy1 (judyl (record { limit = 4294967295; map = words.now.map })))
        at room.old result room.new }
{
    let mut end = at;
    'entries: for (key, value) in words {
        end = put(room, end, &word_bytes(key));
        end = put(room, end, &word_bytes(value));
    }
    end
}

// Whether no key of a map from strings has more bytes than a dump can say. Where one may, each is asked for its length.
fn are_sayable<L: KeyLength>(strings: &StringsOf<L>) -> bool
    ensures answer { result ≡ is_short (map.entries strings.now.map) }
    ensures within { IsTrue result → AreWithin LONGEST_KEY strings.now.map }
    ensures always { L.LONGEST ≤ LONGEST_KEY → IsTrue result }
{
    if strings.longest() <= LONGEST_KEY {
        return true;
    }
    'keys: for place in 0..strings.len() {
        if !is_sayable(strings, place + 1) {
            return false;
        }
    }
    true
}

// Whether the n-th key of a map from strings, counted from 1, has no more bytes than a dump can say.
fn is_sayable<L: KeyLength>(strings: &StringsOf<L>, n: u64) -> bool
    ensures { IfSome (by_count strings.now.map n)
        (λ key. result ≡ nat_le (length key) LONGEST_KEY) }
{
    strings.by_count_len(n).unwrap_or(0) <= LONGEST_KEY
}

// Writes the dump of a map from strings, none of which has more bytes than a dump can say.
fn write_strings<L: KeyLength>(
    version: Version,
    name: &Name,
    strings: &StringsOf<L>,
    room: &mut [u8],
) -> usize
    requires few { map.len strings.now.map ≤ 4294967295 }
    requires short { AreWithin LONGEST_KEY strings.now.map }
    ensures { Adds (strings_text (format_of version) name.now strings.now.map) 0 room.old result
        room.new }
{
    let head = put_head(version, name, Kind::JudySl, strings.len(), room);
    put_strings(version, strings, room, head)
}

// Writes the keys of a map from strings, each by the one before, and the value of each behind it.
fn put_strings<L: KeyLength>(
    version: Version,
    strings: &StringsOf<L>,
    room: &mut [u8],
    at: usize,
) -> usize
    requires few { map.len strings.now.map ≤ 4294967295 }
    requires short { AreWithin LONGEST_KEY strings.now.map }
    requires early { at ≤ 58 }
    ensures { Adds (text.contents (format_of version)
        (judysl (record { limit = 4294967295; map = strings.now.map }))) at room.old result
        room.new }
{
    let mut last = LastKey::new();
    let mut cursor = strings.short_cursor(&[]);
    let mut next = cursor.first();
    let mut end = at;
    'keys: while let Some(value) = next {
        end = put_key(version, last.front(), cursor.key(), room, end);
        end = put(room, end, &word_bytes(value));
        last.keep(cursor.key());
        next = cursor.next();
    }
    end
}

// Writes a key of a map from strings, by the key before it.
fn put_key(version: Version, before: &[u8], key: &[u8], room: &mut [u8], at: usize) -> usize
    requires early { at < 2 ^ 62 }
    requires short { length key.now ≤ LONGEST_KEY }
    ensures most { result ≤ at + 1028 }
    ensures len { length room.new ≡ length room.old }
    ensures adds { Adds (text.string_key (format_of version) before.now key.now) at room.old result
        room.new }
{
    match version {
        Version::First => put_string(key, room, at),
        Version::Second => {
            let shared = shared_len(before, key);
            let end = put(room, at, &len_bytes(shared));
            put_string(&key[shared..], room, end)
        }
    }
}

// The bytes of a length.
fn len_bytes(len: usize) -> [u8; 2]
    requires { len ≤ LONGEST_KEY }
    ensures { result ≡ low_bytes 2 len }
{
    (len as u16).to_be_bytes()
}

// The bytes of a word.
fn word_bytes(word: u64) -> [u8; 8]
    ensures { result ≡ text.word word }
{
    word.to_be_bytes()
}

// Writes a byte string behind its length.
fn put_string(key: &[u8], room: &mut [u8], at: usize) -> usize
    requires early { at < 2 ^ 62 + 2 }
    requires short { length key.now ≤ LONGEST_KEY }
    ensures most { result ≤ at + 2 + length key.now }
    ensures len { length room.new ≡ length room.old }
    ensures adds { Adds (text.string key.now) at room.old result room.new }
{
    let end = put(room, at, &len_bytes(key.len()));
    put(room, end, key)
}

// Whether no key has more bytes than a dump can say.
fn are_short(entries: &[HsEntry<'_>]) -> bool
    ensures { result ≡ is_short (entries_in entries.now) }
{
    'entries: for entry in entries {
        if entry.key.bytes().len() > LONGEST_KEY {
            return false;
        }
    }
    true
}

// Writes the dump of a map from byte strings, of which these are the entries.
fn write_byte_strings(
    version: Version,
    name: &Name,
    count: u64,
    entries: &[HsEntry<'_>],
    room: &mut [u8],
) -> usize
    requires few { length entries.now ≤ 4294967295 }
    requires short { is_short (entries_in entries.now) ≡ true }
    ensures { Adds (head_text (format_of version) name.now 4 count
        ++ flat_map entry_text (entries_in entries.now)) 0 room.old result room.new }
{
    let head = put_head(version, name, Kind::JudyHs, count, room);
    put_byte_strings(entries, room, head)
}

// Writes byte strings, each behind its length, and the value of each behind it.
fn put_byte_strings(entries: &[HsEntry<'_>], room: &mut [u8], at: usize) -> usize
    requires few { length entries.now ≤ 4294967295 }
    requires short { is_short (entries_in entries.now) ≡ true }
    requires early { at ≤ 58 }
    ensures { Adds (flat_map entry_text (entries_in entries.now)) at room.old result room.new }
{
    let mut end = at;
    'entries: for entry in entries {
        end = put_string(entry.key.bytes(), room, end);
        end = put(room, end, &word_bytes(entry.value));
    }
    end
}
