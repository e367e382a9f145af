//! Ranges of keys: copied, taken out, and split off.

ghost use Rattle.std.specs.Prelude.{◌≡◌, ◌≤◌, ◌-◌, false, IfOk, IfSome, OnOk, OnErr};
ghost use Rattle.std.specs.FinMap as map;
ghost use Rattle.judy_model.specs.Arrays as arrays;
ghost use Rattle.judy_model.specs.Counts as counts;
ghost use Rattle.judy_model.specs.Ranges as ranges;
ghost use Rattle.judy_word.specs.WordArrays.{array_of};
ghost use Rattle.judy_sets.specs.Fills.{IsMade, IsNew};

use crate::range_puts::{keys_law, part_filled};
use judy_leaf::Words;
use judy_unmetered::UNMETERED;
use judy_word::{InsertError, WordArray};
use std::alloc::{AllocError, Global};

/// The array with a limit, at least 1, of the keys from one word to another, both included, with their values: none
/// where the first is above the second.
///
/// `Full` where they are more than the limit, which is told before memory is asked for; `NoMemory` where there is none.
/// A large part is cut out of a copy of all nodes; else it takes one way through the range.
///
///     let teens = copy_range(alloc, 100, &ages, 13, 19)?;
pub fn copy_range<V: Words + Drop>(
    alloc: Global,
    limit: u64,
    array: &WordArray<V>,
    from: u64,
    to: u64,
) -> Result<WordArray<V>, InsertError>
    requires one { V.WORDS ≤ 1 }
    requires some { 1 ≤ limit }
    ensures { IsMade limit (ranges.within array.now.map from to) result }
{
    if let Ok(Some(part)) = cut_out(alloc, limit, array, from, to) {
        return Ok(part);
    }
    let filling = part_filled(alloc, limit, array, from, to)?;
    match filling.into_array() {
        Ok(part) => Ok(part),
        Err(_) => Err(InsertError::NoMemory),
    }
}

// A part is cut out of a copy of the array where it has so large a share of the keys, or a larger one: to copy nodes
// and free those beside takes a fraction of the time in which keys are put into new ones.
const SHARE: u64 = 4;

// The part of an array from one word to another, cut out of a copy; none where it is small, where the array isn't
// within the limit, or where a node would stay larger than its keys need. The error is want of memory.
fn cut_out<V: Words + Drop>(
    alloc: Global,
    limit: u64,
    array: &WordArray<V>,
    from: u64,
    to: u64,
) -> Result<Option<WordArray<V>>, AllocError>
    requires one { V.WORDS ≤ 1 }
    requires some { 1 ≤ limit }
    ensures { IfOk result
        (λ made. IfSome made (IsNew limit (ranges.within array.now.map from to))) }
{
    let len = array.len();
    if array.is_loose() || len > limit || array.count(from, to) < len / SHARE {
        return Ok(None);
    }
    let root = array.root().try_clone(UNMETERED, alloc)?;
    root.law();
    let mut part = WordArray::of_root(alloc, limit, root);
    remove_below(&mut part, from);
    remove_above(&mut part, to);
    if part.is_loose() {
        return Ok(None);
    }
    Ok(Some(part))
}

/// Takes the keys from one word to another out, both included, and answers how many they were: none where the first is
/// above the second.
/// It can't fail. Nodes with none but such keys are freed whole; where memory for a smaller node is refused, the larger
/// one stays, and the array becomes loose, as by so many deletes.
pub fn remove_range<V: Words + Drop>(
    _alloc: Global,
    array: &mut WordArray<V>,
    from: u64,
    to: u64,
) -> u64
    requires { V.WORDS ≤ 1 }
    ensures count { result ≡ counts.count array.old.map from to }
    ensures left { array_of array.new
        ≡ arrays.with_map (array_of array.old) (ranges.outside array.old.map from to) }
{
    remove_keys(array, from, to)
}

// Takes them out from the least on.
fn remove_keys<V: Words + Drop>(array: &mut WordArray<V>, from: u64, to: u64) -> u64
    requires { V.WORDS ≤ 1 }
    ensures count { result ≡ counts.count array.old.map from to }
    ensures left { array_of array.new
        ≡ arrays.with_map (array_of array.old) (ranges.outside array.old.map from to) }
{
    let _most = array.len();
    let mut count = 0;
    'keys: loop {
        let Some(key) = array.first(from) else {
            return count;
        };
        if key > to {
            return count;
        }
        count += array.delete_within(key, from, to);
    }
}

/// Takes all keys out but those from one word to another, both included, and answers how many went: all where the first
/// is above the second.
///
/// It can't fail. Where more keys go than stay, these are put into new nodes, if there is memory; else the array may
/// become loose, as by so many deletes.
///
///     let gone = retain_range(alloc, &mut times, dawn, noon);
pub fn retain_range<V: Words + Drop>(
    alloc: Global,
    array: &mut WordArray<V>,
    from: u64,
    to: u64,
) -> u64
    requires { V.WORDS ≤ 1 }
    ensures count { result ≡ map.len array.old.map - counts.count array.old.map from to }
    ensures left { array_of array.new
        ≡ arrays.with_map (array_of array.old) (ranges.within array.old.map from to) }
{
    let stay = array.count(from, to);
    let gone = array.len() - stay;
    if stay <= gone {
        let limit = array.limit();
        if let Ok(part) = copy_range(alloc, limit, array, from, to) {
            *array = part;
            return gone;
        }
    }
    remove_below(array, from);
    remove_above(array, to);
    gone
}

// Takes the keys below a word out.
fn remove_below<V: Words + Drop>(array: &mut WordArray<V>, at: u64)
    requires { V.WORDS ≤ 1 }
    ensures { array_of array.new
        ≡ arrays.with_map (array_of array.old) (ranges.from_on array.old.map at) }
{
    if at > 0 {
        remove_keys(array, 0, at - 1);
    }
}

// Takes the keys above a word out.
fn remove_above<V: Words + Drop>(array: &mut WordArray<V>, at: u64)
    requires { V.WORDS ≤ 1 }
    ensures { array_of array.new
        ≡ arrays.with_map (array_of array.old) (ranges.within array.old.map 0 at) }
{
    keys_law(array);
    if at < u64::MAX {
        remove_keys(array, at + 1, u64::MAX);
    }
}

/// Moves the keys at or above a word into an array of their own, with the same limit, each of whose nodes is as small
/// as its keys allow. Those below it stay.
///
/// The error is want of memory; the array is as it was then.
///
///     let late = split_off(alloc, &mut times, noon)?;
pub fn split_off<V: Words + Drop>(
    alloc: Global,
    array: &mut WordArray<V>,
    at: u64,
) -> Result<WordArray<V>, AllocError>
    requires { V.WORDS ≤ 1 }
    ensures made { IfOk result (λ made. array_of made
        ≡ arrays.with_map (array_of array.old) (ranges.from_on array.old.map at)) }
    ensures tight { IfOk result (λ made. made.loose ≡ false) }
    ensures left { OnOk result (array_of array.new
        ≡ arrays.with_map (array_of array.old) (ranges.below array.old.map at)) }
    ensures unchanged { OnErr result (array.new ≡ array.old) }
{
    keys_law(array);
    let limit = array.limit();
    let Ok(made) = copy_range(alloc, limit, array, at, u64::MAX) else {
        return Err(AllocError);
    };
    remove_range(alloc, array, at, u64::MAX);
    Ok(made)
}
