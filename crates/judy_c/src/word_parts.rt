//! The calls of C that copy a range of keys, keep it, split it off, and move all keys of one array into another, and
//! those that put the words of a range into a set, or turn them round.
//!
//! An array that is to become another is replaced at success alone. Two handles of one call are two.

ghost use Rattle.std.specs.Prelude.{◌≡◌, ◌<◌, ◌-◌, None};
ghost use Rattle.std.specs.FinMap as map;
ghost use Rattle.judy_model.specs.Arrays as array;
ghost use Rattle.judy_model.specs.Counts as counts;
ghost use Rattle.judy_model.specs.Ranges as ranges;
ghost use Rattle.judy_model.specs.TwoMaps as two;
ghost use Rattle.judy_c.specs.Combined.{change_number, IsChanged, IsCombined, IsCopied};
ghost use Rattle.judy_c.specs.Maps.{array_in_map, array_in_set, map_of, set_of};
ghost use Rattle.judy_c.specs.Sorted.{most_keys};

use crate::answers::{DONE, FULL, NO_MEMORY};
use crate::combined::{append, hand};
use crate::handles::Handle;
use crate::map::Map;
use crate::ranges::{copy_range, retain_range, split_off};
use crate::set::Set;
use judy_sets::{flip, insert_range};
use judy_word::{InsertError, Judy1};
use std::alloc::Global;

/// Makes a set that of the keys of another from one word to another, both included, in place of what it held: 1. Else
/// it is as it was, where there is no memory: 2.
#[unsafe(no_mangle)]
pub extern "C" fn sellumaq_judy1_copy_range(
    alloc: Global,
    made: &mut Set,
    handle: &mut Set,
    from: u64,
    to: u64,
) -> u32
    ensures answer { IsCopied (ranges.within (set_of handle.old) from to) (array_in_set made.new)
        (made.new ≡ made.old) result }
    ensures stays { handle.new ≡ handle.old }
{
    copy_range(alloc, made, handle, from, to)
}

/// Moves the keys of a set from a word on to another, in place of what that held: 1. Else both are as they were, where
/// there is no memory: 2.
#[unsafe(no_mangle)]
pub extern "C" fn sellumaq_judy1_split_off(
    alloc: Global,
    made: &mut Set,
    handle: &mut Set,
    at: u64,
) -> u32
    ensures answer { IsCopied (ranges.within (set_of handle.old) at u64.MAX) (array_in_set made.new)
        (made.new ≡ made.old) result }
    ensures left { result ≡ 1 → array_in_set handle.new
        ≡ array.with_map (array_in_set handle.old) (ranges.outside (set_of handle.old) at u64.MAX) }
    ensures stays { result ≡ 2 → handle.new ≡ handle.old }
{
    split_off(alloc, made, handle, at)
}

/// Moves all keys of another set into one, and leaves the other null: 1. Else both are as they were: 2, where there is
/// no memory for them; 3, where they are all 2^64 words.
#[unsafe(no_mangle)]
pub extern "C" fn sellumaq_judy1_append(alloc: Global, handle: &mut Set, other: &mut Set) -> u32
    ensures answer { IsCombined most_keys (two.union (set_of handle.old) (set_of other.old))
        (array_in_set handle.new) (handle.new ≡ handle.old) result }
    ensures emptied { result ≡ 1 → other.new.array ≡ None }
    ensures other_stays { 1 < result → other.new ≡ other.old }
{
    append(alloc, handle, other)
}

/// Takes all keys out of a set but those from one word to another, both included, and answers how many went: all where
/// the first is above the second. It can't fail.
#[unsafe(no_mangle)]
pub extern "C" fn sellumaq_judy1_retain_range(
    alloc: Global,
    handle: &mut Set,
    from: u64,
    to: u64,
) -> u64
    ensures count { result
        ≡ map.len (set_of handle.old) - counts.count (set_of handle.old) from to }
    ensures left { array_in_set handle.new
        ≡ array.with_map (array_in_set handle.old) (ranges.within (set_of handle.old) from to) }
{
    retain_range(alloc, handle, from, to)
}

/// Makes a map that of the keys of another from one word to another, both included, with their values, in place of what
/// it held: 1. Else it is as it was, where there is no memory: 2.
#[unsafe(no_mangle)]
pub extern "C" fn sellumaq_judyl_copy_range(
    alloc: Global,
    made: &mut Map,
    handle: &mut Map,
    from: u64,
    to: u64,
) -> u32
    ensures answer { IsCopied (ranges.within (map_of handle.old) from to) (array_in_map made.new)
        (made.new ≡ made.old) result }
    ensures stays { handle.new ≡ handle.old }
{
    copy_range(alloc, made, handle, from, to)
}

/// Moves the keys of a map from a word on, with their values to another, in place of what that held: 1. Else both are
/// as they were, where there is no memory: 2.
#[unsafe(no_mangle)]
pub extern "C" fn sellumaq_judyl_split_off(
    alloc: Global,
    made: &mut Map,
    handle: &mut Map,
    at: u64,
) -> u32
    ensures answer { IsCopied (ranges.within (map_of handle.old) at u64.MAX) (array_in_map made.new)
        (made.new ≡ made.old) result }
    ensures left { result ≡ 1 → array_in_map handle.new
        ≡ array.with_map (array_in_map handle.old) (ranges.outside (map_of handle.old) at u64.MAX) }
    ensures stays { result ≡ 2 → handle.new ≡ handle.old }
{
    split_off(alloc, made, handle, at)
}

/// Moves all keys of another map into one, and leaves the other null: 1. A key that both have keeps the one's value.
/// Else both are as they were: 2, where there is no memory for them; 3, where they are all 2^64 words.
#[unsafe(no_mangle)]
pub extern "C" fn sellumaq_judyl_append(alloc: Global, handle: &mut Map, other: &mut Map) -> u32
    ensures answer { IsCombined most_keys (two.union (map_of handle.old) (map_of other.old))
        (array_in_map handle.new) (handle.new ≡ handle.old) result }
    ensures emptied { result ≡ 1 → other.new.array ≡ None }
    ensures other_stays { 1 < result → other.new ≡ other.old }
{
    append(alloc, handle, other)
}

/// Takes all keys out of a map but those from one word to another, both included, and answers how many went: all where
/// the first is above the second. It can't fail.
#[unsafe(no_mangle)]
pub extern "C" fn sellumaq_judyl_retain_range(
    alloc: Global,
    handle: &mut Map,
    from: u64,
    to: u64,
) -> u64
    ensures count { result
        ≡ map.len (map_of handle.old) - counts.count (map_of handle.old) from to }
    ensures left { array_in_map handle.new
        ≡ array.with_map (array_in_map handle.old) (ranges.within (map_of handle.old) from to) }
{
    retain_range(alloc, handle, from, to)
}

// What a change of the words from one to another answers of the set that a handle stands for. A null handle stays null
// where there are no such words, and else the set is made with the change.
macro_rules! changed {
    ($change:ident($handle:ident, $alloc:ident, $from:ident, $to:ident)) => {
        if $from > $to {
            DONE
        } else {
            match $handle.array() {
                Some(array) => answer_change($change($alloc, array, $from, $to)),
                None => {
                    let mut made = Judy1::unbounded($alloc);
                    match $change($alloc, &mut made, $from, $to) {
                        Ok(()) => {
                            made.len();
                            hand($alloc, $handle, Ok(made))
                        }
                        Err(fault) => answer_change(Err(fault)),
                    }
                }
            }
        }
    };
}

// Answers a change by its number.
fn answer_change(changed: Result<(), InsertError>) -> u32
    ensures { result ≡ change_number changed }
{
    match changed {
        Ok(()) => DONE,
        Err(InsertError::NoMemory) => NO_MEMORY,
        Err(InsertError::Full) => FULL,
    }
}

/// Puts each word from one to another into a set, both included: 1, and nothing changes where the first is above the
/// second. Else the set is as it was: 2, where there is no memory for them; 3, where they would be all 2^64 words.
#[unsafe(no_mangle)]
pub extern "C" fn sellumaq_judy1_insert_range(
    alloc: Global,
    handle: &mut Set,
    from: u64,
    to: u64,
) -> u32
    ensures changed { IsChanged (array_in_set handle.old)
        (ranges.filled (set_of handle.old) from to) (array_in_set handle.new)
        (handle.new ≡ handle.old) result }
    ensures nothing { to < from → (result ≡ 1) × (handle.new ≡ handle.old) }
{
    changed!(insert_range(handle, alloc, from, to))
}

/// Turns each word from one to another round in a set, both included: a key goes, and a word that is none comes: 1, and
/// nothing changes where the first is above the second. Else the set is as it was: 2 or 3, as
/// `sellumaq_judy1_insert_range`.
#[unsafe(no_mangle)]
pub extern "C" fn sellumaq_judy1_flip(alloc: Global, handle: &mut Set, from: u64, to: u64) -> u32
    ensures changed { IsChanged (array_in_set handle.old)
        (ranges.flipped (set_of handle.old) from to) (array_in_set handle.new)
        (handle.new ≡ handle.old) result }
    ensures nothing { to < from → (result ≡ 1) × (handle.new ≡ handle.old) }
{
    changed!(flip(handle, alloc, from, to))
}
