//! The calls of C that make an array at once, of keys that ascend.

ghost use Rattle.std.specs.Prelude.{◌≡◌, IfOk, IfErr};
ghost use Rattle.std.specs.FinMap as finmap;
ghost use Rattle.judy_word.specs.Sorted.{IsFault};
ghost use Rattle.judy_c.specs.Maps.{array_in_map, array_in_set, map_of, set_of};
ghost use Rattle.judy_c.specs.Sorted.{IsRefused, IsReplaced, entries_of, keys_in, most_keys};

use crate::answers::{BAD_KEY, FULL, NO_MEMORY};
use crate::box_parts::BoxParts;
use crate::handles::Handle;
use crate::map::Map;
use crate::set::Set;
use crate::walks::Pair;
use judy_word::{Judy1, JudyL, Keyed, SortedError};
use std::alloc::Global;

// How many keys an array of C may hold: more than any list has.
pub(crate) const MOST_KEYS: u64 = u64::MAX;

// The array is made.
pub(crate) const MADE: u32 = 1;

impl Keyed for Pair {
    ghost key_of = { λ pair. pair.key };

    ghost value_of = { λ pair. pair.value };

    fn key(&self) -> u64 {
        self.key
    }

    fn value(&self) -> u64 {
        self.value
    }
}

/// Makes the set one of keys that strictly ascend, in place of what it held, whose memory is given back: 1. Else the
/// set is as it was: 4, where a key isn't above the one before it, and the place of the first such key is told, counted
/// from 0; 2, where the keys ascend and there is no memory for them.
#[unsafe(no_mangle)]
pub extern "C" fn sellumaq_judy1_from_sorted(
    alloc: Global,
    handle: &mut Set,
    keys: &[u64],
    place: &mut usize,
) -> u32
    ensures { IsReplaced keys.now (finmap.keys (set_of handle.new) ≡ keys.now)
        (handle.new ≡ handle.old) (array_in_set handle.new).limit place.old result place.new }
{
    match set_of_sorted(alloc, keys) {
        Ok(array) => {
            handle.release(alloc);
            handle.fill(array);
            MADE
        }
        Err(fault) => refused(fault, place),
    }
}

/// Makes the map one of keys that strictly ascend, each with its value, as `sellumaq_judy1_from_sorted` does.
#[unsafe(no_mangle)]
pub extern "C" fn sellumaq_judyl_from_sorted(
    alloc: Global,
    handle: &mut Map,
    pairs: &[Pair],
    place: &mut usize,
) -> u32
    ensures { IsReplaced (keys_in pairs.now)
        (finmap.entries (map_of handle.new) ≡ entries_of pairs.now)
        (handle.new ≡ handle.old) (array_in_map handle.new).limit place.old result place.new }
{
    match map_of_sorted(alloc, pairs) {
        Ok(array) => {
            handle.release(alloc);
            handle.fill(array);
            MADE
        }
        Err(fault) => refused(fault, place),
    }
}

// Answers by a number why no array was made, and tells the place of the key that is at fault.
fn refused(fault: SortedError, place: &mut usize) -> u32
    ensures { IsRefused fault result place.old place.new }
{
    match fault {
        SortedError::NoMemory => NO_MEMORY,
        SortedError::Full(_) => FULL,
        SortedError::NotAscending(at) => {
            *place = at;
            BAD_KEY
        }
    }
}

// The set of keys that ascend, in a box.
fn set_of_sorted(alloc: Global, keys: &[u64]) -> Result<BoxParts<Judy1, Global>, SortedError>
    ensures made { IfOk result (λ boxed. finmap.keys boxed.value.map ≡ keys.now) }
    ensures limit { IfOk result (λ boxed. boxed.value.limit ≡ most_keys) }
    ensures refused { IfErr result (IsFault most_keys keys.now) }
{
    let array = Judy1::from_sorted(alloc, MOST_KEYS, keys)?;
    let Ok(boxed) = Box::new(alloc, array) else {
        return Err(SortedError::NoMemory);
    };
    Ok(BoxParts::of(boxed))
}

// The map of pairs whose keys ascend, in a box.
fn map_of_sorted(alloc: Global, pairs: &[Pair]) -> Result<BoxParts<JudyL, Global>, SortedError>
    ensures made { IfOk result (λ boxed. finmap.entries boxed.value.map ≡ entries_of pairs.now) }
    ensures limit { IfOk result (λ boxed. boxed.value.limit ≡ most_keys) }
    ensures refused { IfErr result (IsFault most_keys (keys_in pairs.now)) }
{
    let array = JudyL::from_items(alloc, MOST_KEYS, pairs)?;
    let Ok(boxed) = Box::new(alloc, array) else {
        return Err(SortedError::NoMemory);
    };
    Ok(BoxParts::of(boxed))
}
