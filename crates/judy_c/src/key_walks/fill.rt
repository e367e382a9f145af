// How a walk fills the caller's two buffers.
ghost use Rattle.std.specs.Prelude.{◌≡◌, ◌≢◌, ◌<◌, ◌≤◌, ◌+◌, ◌-◌, ◌^◌, ◌++◌, All, IfSome, IsTrue, IsFalse, Some, nat_le, length, take, drop, unwrap_or};
ghost use Rattle.std.specs.FinMap as map;
ghost use Rattle.std.specs.Option.{option_map};
ghost use Rattle.judy_model.specs.Counts.{by_count};
ghost use Rattle.judy_model.specs.Keys.{IsStringKey};
ghost use Rattle.judy_model.specs.Neighbours.{next};
ghost use Rattle.judy_model.specs.declared.keys.TheConstants.{LONGEST_KEY};
ghost use Rattle.judy_sl.specs.Arenas.{AreWithin};
ghost use Rattle.judy_sl.specs.Strings.{IsString};
ghost use Rattle.judy_hs.specs.Listed.{entries_in};
ghost use Rattle.judy_sl.specs.Scans.{value_found};
ghost use Rattle.judy_c.specs.KeyWalks.{IsFilled, IsPut, EndsBytes, page_of, place_from, pairs_from, beside};

use super::KeyEntry;
use judy_hs::HsEntry;
use judy_model::keys::LONGEST_KEY;
use judy_sl::{KeyCursor, LongStrings, Look, Side};

// Writes the pairs of an array from a string on, or from above it, as many as fit, and answers how many these are.
// Where the string or a key may have more than 1,024 bytes, the keys are taken by their places.
pub(crate) fn fill_strings(
    array: &LongStrings,
    from: &[u8],
    itself: bool,
    bytes: &mut [u8],
    entries: &mut [KeyEntry],
) -> usize
    requires { IsString from.now }
    ensures { IsFilled (pairs_from array.now.map from.now itself)
        (page_of bytes.old entries.old) result (page_of bytes.new entries.new) }
{
    if array.longest() <= LONGEST_KEY && from.len() <= LONGEST_KEY {
        fill_by_cursor(array, from, itself, bytes, entries)
    } else {
        fill_by_place(array, place_from(array, from, itself), bytes, entries)
    }
}

// The same by a cursor, where neither the string nor a key has more than 1,024 bytes.
fn fill_by_cursor(
    array: &LongStrings,
    from: &[u8],
    itself: bool,
    bytes: &mut [u8],
    entries: &mut [KeyEntry],
) -> usize
    requires short { AreWithin LONGEST_KEY array.now.map }
    requires from { IsStringKey from.now }
    ensures { IsFilled (pairs_from array.now.map from.now itself)
        (page_of bytes.old entries.old) result (page_of bytes.new entries.new) }
{
    let mut cursor = array.short_cursor(from);
    let mut used = 0;
    let mut count = 0;
    while count < entries.len() {
        let Some(value) = step(&mut cursor, itself & (count == 0)) else {
            break;
        };
        let key = cursor.key();
        if !copy_key(key, bytes, used) {
            break;
        }
        entries[count] = KeyEntry {
            length: key.len(),
            value,
        };
        used += key.len();
        count += 1;
    }
    count
}

// The place, counted from 0, of the first key of an array from a string on, or from above it.
fn place_from(array: &LongStrings, from: &[u8], itself: bool) -> u64
    requires { IsString from.now }
    ensures at { result ≡ place_from array.now.map from.now itself }
    ensures most { result ≤ 4294967295 }
{
    let _most = array.len();
    let up_to = array.count(&[], from);
    if !itself {
        return up_to;
    }
    up_to - array.count(from, from)
}

// Writes the pairs of an array from a place on, as many as fit, and answers how many these are: the first key by its
// place, and each later one from the key before.
fn fill_by_place(
    array: &LongStrings,
    place: u64,
    bytes: &mut [u8],
    entries: &mut [KeyEntry],
) -> usize
    requires { place ≤ 4294967295 }
    ensures { IsFilled (drop place (map.entries array.now.map)) (page_of bytes.old entries.old)
        result (page_of bytes.new entries.new) }
{
    let mut room = [0; LONGEST_KEY];
    let mut before = None;
    let mut used = 0;
    let mut count = 0;
    while count < entries.len() {
        let at = place + count as u64;
        let Some(entry) = put_turn(array, at, before, bytes, used, &mut room) else {
            break;
        };
        entries[count] = entry;
        used += entry.length;
        count += 1;
        before = Some(entry.length);
    }
    count
}

// Writes the key at a place of an array, counted from 0, behind so many bytes of a buffer, and tells of it. None where
// there is no such key, or it doesn't fit there, and the buffer stays. `before` is how many of these bytes are the key
// before it, where that ends them.
fn put_turn(
    array: &LongStrings,
    place: u64,
    before: Option<usize>,
    bytes: &mut [u8],
    used: usize,
    room: &mut [u8; LONGEST_KEY],
) -> Option<KeyEntry>
    requires inside { used ≤ length bytes.old }
    requires fits { place + 1 < 2 ^ 64 }
    requires before { IfSome before (EndsBytes array.now.map place (take used bytes.old)) }
    ensures { IsPut (drop place (map.entries array.now.map)) used bytes.old result bytes.new }
{
    match before {
        Some(before) => put_next(array, place, before, bytes, used, room),
        None => put_nth(array, place, bytes, used),
    }
}

// The same from the key before, by a room for both; by the place where one of them may not fit that.
fn put_next(
    array: &LongStrings,
    place: u64,
    before: usize,
    bytes: &mut [u8],
    used: usize,
    room: &mut [u8; LONGEST_KEY],
) -> Option<KeyEntry>
    requires inside { used ≤ length bytes.old }
    requires fits { place + 1 < 2 ^ 64 }
    requires before { EndsBytes array.now.map place (take used bytes.old) before }
    ensures { IsPut (drop place (map.entries array.now.map)) used bytes.old result bytes.new }
{
    array.strings_law();
    let key = &bytes[used - before..used];
    let length = array.neighbour_len(Look::exclusive(Side::Above), key)?;
    if before > LONGEST_KEY || length > LONGEST_KEY {
        return put_measured(array, place, length, bytes, used);
    }
    let value = put_above(array, key, room)?;
    if !copy_key(&room[..length], bytes, used) {
        return None;
    }
    Some(KeyEntry { length, value })
}

// The value of the next key above one, which is written to the beginning of a room that both fit; none where there is
// none.
fn put_above(array: &LongStrings, key: &[u8], room: &mut [u8; LONGEST_KEY]) -> Option<u64>
    requires fits { length key.now ≤ LONGEST_KEY }
    requires room { IfSome (next array.now.map key.now) (λ found. length found ≤ LONGEST_KEY) }
    requires without_zero { All (λ byte. byte ≢ 0) key.now }
    ensures key { IfSome (next array.now.map key.now)
        (λ found. take (length found) room.new ≡ found) }
    ensures value { result ≡ value_found array.now.map (next array.now.map key.now) }
{
    let mut len = key.len();
    room[..len].copy_from_slice(key);
    array.neighbour_in(Look::exclusive(Side::Above), room, &mut len)
}

// Writes the key at a place of an array by that, as `put_turn` does.
fn put_nth(array: &LongStrings, place: u64, bytes: &mut [u8], used: usize) -> Option<KeyEntry>
    requires inside { used ≤ length bytes.old }
    requires fits { place + 1 < 2 ^ 64 }
    ensures { IsPut (drop place (map.entries array.now.map)) used bytes.old result bytes.new }
{
    let length = array.by_count_len(place + 1)?;
    put_measured(array, place, length, bytes, used)
}

// The same of a key that has so many bytes, which is written straight to where it stands.
fn put_measured(
    array: &LongStrings,
    place: u64,
    mut key_length: usize,
    bytes: &mut [u8],
    used: usize,
) -> Option<KeyEntry>
    requires inside { used ≤ length bytes.old }
    requires fits { place + 1 < 2 ^ 64 }
    requires measured { Some key_length ≡ option_map length (by_count array.now.map (place + 1)) }
    ensures { IsPut (drop place (map.entries array.now.map)) used bytes.old result bytes.new }
{
    if bytes.len() - used < key_length {
        return None;
    }
    let value = array.by_count_in(
        place + 1,
        &mut bytes[used..used + key_length],
        &mut key_length,
    )?;
    Some(KeyEntry {
        length: key_length,
        value,
    })
}

// Writes the pairs of a list behind the first ones, as many as fit, and answers how many these are.
pub(crate) fn fill_behind(
    list: &[HsEntry<'_>],
    behind: usize,
    bytes: &mut [u8],
    entries: &mut [KeyEntry],
) -> usize
    ensures { IsFilled (drop behind (entries_in list.now)) (page_of bytes.old entries.old) result
        (page_of bytes.new entries.new) }
{
    match list.get(behind..) {
        Some(rest) => fill_list(rest, bytes, entries),
        None => 0,
    }
}

// Writes the pairs of a list, as many as fit, and answers how many these are.
fn fill_list(list: &[HsEntry<'_>], bytes: &mut [u8], entries: &mut [KeyEntry]) -> usize
    ensures { IsFilled (entries_in list.now) (page_of bytes.old entries.old) result
        (page_of bytes.new entries.new) }
{
    let mut used = 0;
    let mut count = 0;
    while count < entries.len() {
        let Some(entry) = list.get(count) else {
            break;
        };
        let key = entry.key.bytes();
        if !copy_key(key, bytes, used) {
            break;
        }
        entries[count] = KeyEntry {
            length: key.len(),
            value: entry.value,
        };
        used += key.len();
        count += 1;
    }
    count
}

// The value of the least key from where a cursor stands on, or above that; the cursor then stands at that key.
fn step(cursor: &mut KeyCursor<'_>, itself: bool) -> Option<u64>
    ensures map { cursor.new.map ≡ cursor.old.map }
    ensures key { cursor.new.key
        ≡ unwrap_or (beside cursor.old.map cursor.old.key itself) cursor.old.key }
    ensures value { result
        ≡ value_found cursor.old.map (beside cursor.old.map cursor.old.key itself) }
{
    if itself {
        cursor.first()
    } else {
        cursor.next()
    }
}

// Copies a key to a place of a buffer, and answers whether it fits there; else the buffer stays.
fn copy_key(key: &[u8], bytes: &mut [u8], place: usize) -> bool
    requires { place ≤ length bytes.old }
    ensures fits { result ≡ nat_le (length key.now) (length bytes.old - place) }
    ensures copied { IsTrue result
        → take (place + length key.now) bytes.new ≡ take place bytes.old ++ key.now }
    ensures behind { IsTrue result
        → drop (place + length key.now) bytes.new ≡ drop (place + length key.now) bytes.old }
    ensures stays { IsFalse result → bytes.new ≡ bytes.old }
    ensures len { length bytes.new ≡ length bytes.old }
{
    if bytes.len() - place < key.len() {
        return false;
    }
    bytes[place..place + key.len()].copy_from_slice(key);
    true
}
