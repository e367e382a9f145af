//! The call of C that makes an array at once, of strings that ascend.

ghost use Rattle.std.specs.Prelude.{◌≡◌, IfOk, IfErr, OnOk};
ghost use Rattle.std.specs.FinMap as finmap;
ghost use Rattle.std.specs.Option.{option_copied};
ghost use Rattle.judy_model.specs.DumpGrammar.{is_above};
ghost use Rattle.judy_model.specs.Keys.{byte_order};
ghost use Rattle.judy_sl.specs.Strings.{IsString};
ghost use Rattle.judy_sl.specs.Sorted.{pairs_in, IsFault};
ghost use Rattle.judy_c.specs.KeyWalks.{page_of};
ghost use Rattle.judy_c.specs.SortedStrings.{pairs_on, strings_on, most_strings, number_of, place_of, whole_on, AreWhole, IsUnlisted, IsUnfit, IsMadeOf};
ghost use Rattle.judy_c.specs.StringMaps.{array_in};

use crate::answers::{BAD_KEY, FULL, NO_MEMORY};
use crate::arrays::MOST_KEYS;
use crate::box_parts::BoxParts;
use crate::handles::Handle;
use crate::key_walks::KeyEntry;
use crate::sorted::MADE;
use crate::strings::Strings;
use judy_sl::{LongStrings, SlSortedError};
use std::alloc::Global;

/// Makes the map one of strings that strictly ascend, each with its value, in place of what it held, whose memory is
/// given back: 1. The strings stand one behind the other in the bytes, and the length and the value of each in the
/// entries, as a walk writes them. Else the map is as it was: 4, where one goes beyond the bytes, and the place of the
/// first such one is told, counted from 0; or where one is no key or isn't above the one before it, and the place of
/// the first such one is told; 3, where they are keys that ascend, and more than 4,294,967,295; 2, where there is no
/// memory for them.
#[unsafe(no_mangle)]
pub extern "C" fn sellumaq_judysl_from_sorted(
    alloc: Global,
    handle: &mut Strings,
    bytes: &[u8],
    entries: &[KeyEntry],
    place: &mut usize,
) -> u32
    ensures { IsMadeOf (page_of bytes.now entries.now) (array_in handle.new)
        (handle.new ≡ handle.old) place.old result place.new }
{
    match strings_of_sorted(alloc, bytes, entries) {
        Ok(array) => {
            handle.release(alloc);
            handle.fill(array);
            MADE
        }
        Err(fault) => refused(fault, place),
    }
}

// Answers by a number why no array was made, and tells the place of the string that is at fault.
fn refused(fault: SlSortedError, place: &mut usize) -> u32
    ensures number { result ≡ number_of fault }
    ensures place { place.new ≡ place_of fault place.old }
{
    match fault {
        SlSortedError::NoMemory => NO_MEMORY,
        SlSortedError::Full(_) => FULL,
        SlSortedError::BadKey(at) | SlSortedError::NotAscending(at) => {
            *place = at;
            BAD_KEY
        }
    }
}

// The map of strings that ascend, in a box.
fn strings_of_sorted(
    alloc: Global,
    bytes: &[u8],
    entries: &[KeyEntry],
) -> Result<BoxParts<LongStrings, Global>, SlSortedError>
    ensures whole { OnOk result (AreWhole (page_of bytes.now entries.now)) }
    ensures made { IfOk result
        (λ boxed. finmap.entries boxed.value.map ≡ pairs_on bytes.now entries.now) }
    ensures limit { IfOk result (λ boxed. boxed.value.limit ≡ most_strings) }
    ensures refused { IfErr result (IsUnfit (page_of bytes.now entries.now)) }
{
    let pairs = match listed(alloc, bytes, entries) {
        Ok(pairs) => pairs,
        Err(SlSortedError::NoMemory) => return Err(fault_without_list(bytes, entries)),
        Err(fault) => return Err(fault),
    };
    let array = LongStrings::from_sorted(alloc, MOST_KEYS, &pairs)?;
    let Ok(boxed) = Box::new(alloc, array) else {
        return Err(SlSortedError::NoMemory);
    };
    Ok(BoxParts::of(boxed))
}

// The strings with their values, as an array takes them. One that goes beyond the bytes is told as no key.
fn listed<'a>(
    alloc: Global,
    bytes: &'a [u8],
    entries: &[KeyEntry],
) -> Result<Vec<(&'a [u8], u64)>, SlSortedError>
    ensures whole { OnOk result (AreWhole (page_of bytes.now entries.now)) }
    ensures listed { IfOk result
        (λ pairs. pairs_in pairs.items ≡ pairs_on bytes.now entries.now) }
    ensures refused { IfErr result (IsUnlisted (page_of bytes.now entries.now)) }
{
    let Ok(mut pairs) = Vec::with_capacity(alloc, entries.len()) else {
        return Err(SlSortedError::NoMemory);
    };
    let mut rest = bytes;
    'entries: for (at, entry) in entries.iter().enumerate() {
        if entry.length > rest.len() {
            return Err(SlSortedError::BadKey(at));
        }
        let (key, behind) = rest.split_at(entry.length);
        if pairs.push((key, entry.value)).is_err() {
            return Err(SlSortedError::NoMemory);
        }
        rest = behind;
    }
    Ok(pairs)
}

// Why no array is made where there is no memory for a list of the strings: a fault of theirs comes before that.
#[inline(never)]
fn fault_without_list(bytes: &[u8], entries: &[KeyEntry]) -> SlSortedError
    ensures { IsUnfit (page_of bytes.now entries.now) result }
{
    let whole = count_whole(bytes, entries);
    if whole < entries.len() {
        return SlSortedError::BadKey(whole);
    }
    first_fault(bytes, entries)
}

// How many of the first strings don't go beyond the bytes.
fn count_whole(bytes: &[u8], entries: &[KeyEntry]) -> usize
    ensures { result ≡ whole_on bytes.now entries.now }
{
    let mut rest = bytes;
    'entries: for (at, entry) in entries.iter().enumerate() {
        if entry.length > rest.len() {
            return at;
        }
        rest = &rest[entry.length..];
    }
    entries.len()
}

// What is wrong with the first string that doesn't fit, where none goes beyond the bytes; want of memory where nothing
// is.
fn first_fault(bytes: &[u8], entries: &[KeyEntry]) -> SlSortedError
    requires { AreWhole (page_of bytes.now entries.now) }
    ensures { IsFault IsString most_strings (strings_on bytes.now entries.now) result }
{
    let mut rest = bytes;
    let mut last = None;
    'entries: for (at, entry) in entries.iter().enumerate() {
        let (key, behind) = rest.split_at(entry.length);
        if !LongStrings::is_key(key) {
            return SlSortedError::BadKey(at);
        }
        if !comes_after(last, key) {
            return SlSortedError::NotAscending(at);
        }
        if at as u64 == MOST_KEYS {
            return SlSortedError::Full(at);
        }
        last = Some(key);
        rest = behind;
    }
    SlSortedError::NoMemory
}

// Whether a string is above the one before it, if there is one.
fn comes_after(before: Option<&[u8]>, key: &[u8]) -> bool
    ensures { result ≡ is_above byte_order (option_copied before.entry) key.now }
{
    match before {
        None => true,
        Some(before) => before.cmp(key).is_lt(),
    }
}
