// The ranges of keys of the arrays of words that C holds by handles, one way for sets and maps: copied, kept, taken out
// and split off.
ghost use Rattle.std.specs.Prelude.{◌≡◌, ◌≤◌, ◌-◌};
ghost use Rattle.std.specs.FinMap as map;
ghost use Rattle.judy_model.specs.Arrays as array;
ghost use Rattle.judy_model.specs.Counts as counts;
ghost use Rattle.judy_model.specs.Ranges as ranges;
ghost use Rattle.judy_sets.specs.Fills.{IsMade};
ghost use Rattle.judy_c.specs.Combined.{IsCopied};
ghost use Rattle.judy_c.specs.Maps.{array_held, map_held};
ghost use Rattle.judy_c.specs.Sorted.{most_keys};

use crate::answers::DONE;
use crate::combined::hand;
use crate::handles::Handle;
use crate::sorted::MOST_KEYS;
use judy_leaf::Words;
use judy_word::{InsertError, WordArray};
use std::alloc::Global;

// Takes the keys from one word to another out, both included, and answers how many they were.
pub(crate) fn remove_range<V: Words + Drop, H: Handle<Array = WordArray<V>>>(
    alloc: Global,
    handle: &mut H,
    from: u64,
    to: u64,
) -> u64
    requires { V.WORDS ≤ 1 }
    ensures count { result ≡ counts.count (map_held (H.held_by handle.old)) from to }
    ensures left { array_held (H.held_by handle.new)
        ≡ array.with_map (array_held (H.held_by handle.old))
        (ranges.outside (map_held (H.held_by handle.old)) from to) }
{
    match handle.array() {
        Some(array) => judy_sets::remove_range(alloc, array, from, to),
        None => 0,
    }
}

// Takes all keys out but those from one word to another, both included, and answers how many went.
pub(crate) fn retain_range<V: Words + Drop, H: Handle<Array = WordArray<V>>>(
    alloc: Global,
    handle: &mut H,
    from: u64,
    to: u64,
) -> u64
    requires { V.WORDS ≤ 1 }
    ensures count { result ≡ map.len (map_held (H.held_by handle.old))
        - counts.count (map_held (H.held_by handle.old)) from to }
    ensures left { array_held (H.held_by handle.new)
        ≡ array.with_map (array_held (H.held_by handle.old))
        (ranges.within (map_held (H.held_by handle.old)) from to) }
{
    match handle.array() {
        Some(array) => judy_sets::retain_range(alloc, array, from, to),
        None => 0,
    }
}

// The array of the keys from one word to another, both included.
fn part_of<V: Words + Drop, H: Handle<Array = WordArray<V>>>(
    alloc: Global,
    handle: &mut H,
    from: u64,
    to: u64,
) -> Result<WordArray<V>, InsertError>
    requires { V.WORDS ≤ 1 }
    ensures made { IsMade most_keys
        (ranges.within (map_held (H.held_by handle.old)) from to) result }
    ensures few { map.len (map_held (H.held_by handle.old)) ≤ most_keys }
    ensures stays { handle.new ≡ handle.old }
{
    match handle.array() {
        Some(array) => {
            array.len();
            judy_sets::copy_range(alloc, MOST_KEYS, array, from, to)
        }
        None => {
            let empty = WordArray::unbounded(alloc);
            judy_sets::copy_range(alloc, MOST_KEYS, &empty, from, to)
        }
    }
}

// Makes an array that of the keys of another from one word to another, both included, in place of what it held.
pub(crate) fn copy_range<V: Words + Drop, H: Handle<Array = WordArray<V>>>(
    alloc: Global,
    made: &mut H,
    handle: &mut H,
    from: u64,
    to: u64,
) -> u32
    requires { V.WORDS ≤ 1 }
    ensures answer { IsCopied (ranges.within (map_held (H.held_by handle.old)) from to)
        (array_held (H.held_by made.new)) (made.new ≡ made.old) result }
    ensures stays { handle.new ≡ handle.old }
{
    let part = part_of(alloc, handle, from, to);
    hand(alloc, made, part)
}

// Moves the keys of an array from a word on to another, in place of what that held.
pub(crate) fn split_off<V: Words + Drop, H: Handle<Array = WordArray<V>>>(
    alloc: Global,
    made: &mut H,
    handle: &mut H,
    at: u64,
) -> u32
    requires { V.WORDS ≤ 1 }
    ensures answer { IsCopied (ranges.within (map_held (H.held_by handle.old)) at u64.MAX)
        (array_held (H.held_by made.new)) (made.new ≡ made.old) result }
    ensures left { result ≡ 1 → array_held (H.held_by handle.new)
        ≡ array.with_map (array_held (H.held_by handle.old))
        (ranges.outside (map_held (H.held_by handle.old)) at u64.MAX) }
    ensures stays { result ≡ 2 → handle.new ≡ handle.old }
{
    let answer = copy_range(alloc, made, handle, at, u64::MAX);
    if answer != DONE {
        return answer;
    }
    remove_range(alloc, handle, at, u64::MAX);
    answer
}
