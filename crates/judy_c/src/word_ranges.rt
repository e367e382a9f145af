//! The calls of C on ranges of keys, and those that copy an array of words.

ghost use Rattle.std.specs.Prelude.{◌≡◌, min};
ghost use Rattle.judy_model.specs.Arrays as array;
ghost use Rattle.judy_model.specs.Counts as counts;
ghost use Rattle.judy_model.specs.Ranges as ranges;
ghost use Rattle.judy_c.specs.Combined.{IsDone};
ghost use Rattle.judy_c.specs.Maps.{array_in_map, array_in_set, map_of, set_of};

use crate::combined::copy;
use crate::handles::Handle;
use crate::map::Map;
use crate::ranges::remove_range;
use crate::set::Set;
use judy_sets::count_empty;
use std::alloc::Global;

/// Takes the keys from one word to another out of a set, both included, and answers how many they were: none where the
/// first is above the second. It can't fail.
#[unsafe(no_mangle)]
pub extern "C" fn sellumaq_judy1_remove_range(
    alloc: Global,
    handle: &mut Set,
    from: u64,
    to: u64,
) -> u64
    ensures count { result ≡ counts.count (set_of handle.old) from to }
    ensures left { array_in_set handle.new
        ≡ array.with_map (array_in_set handle.old)
        (ranges.outside (set_of handle.old) from to) }
{
    remove_range(alloc, handle, from, to)
}

/// How many words from one to another, both included, are no keys of a set: none where the first is above the second.
/// All 2^64 words are answered as 2^64 - 1.
#[unsafe(no_mangle)]
pub extern "C" fn sellumaq_judy1_count_empty(
    alloc: Global,
    handle: &mut Set,
    from: u64,
    to: u64,
) -> u64
    ensures answer { result ≡ min (ranges.count_empty (set_of handle.old) from to) u64.MAX }
    ensures same { handle.new ≡ handle.old }
{
    handle.ask(alloc, |array| count_empty(array, from, to))
}

/// Makes a set a copy of another, in place of what it held, with nodes as small as its keys allow: 1. Else it is as
/// it was, where there is no memory: 2. The two handles are two.
#[unsafe(no_mangle)]
pub extern "C" fn sellumaq_judy1_copy(alloc: Global, made: &mut Set, handle: &mut Set) -> u32
    ensures answer { IsDone (array_in_set made.new ≡ array_in_set handle.old)
        (made.new ≡ made.old) result }
    ensures stays { handle.new ≡ handle.old }
{
    copy(alloc, made, handle)
}

/// Takes the keys from one word to another out of a map, both included, and answers how many they were: none where the
/// first is above the second. It can't fail.
#[unsafe(no_mangle)]
pub extern "C" fn sellumaq_judyl_remove_range(
    alloc: Global,
    handle: &mut Map,
    from: u64,
    to: u64,
) -> u64
    ensures count { result ≡ counts.count (map_of handle.old) from to }
    ensures left { array_in_map handle.new
        ≡ array.with_map (array_in_map handle.old)
        (ranges.outside (map_of handle.old) from to) }
{
    remove_range(alloc, handle, from, to)
}

/// How many words from one to another, both included, are no keys of a map: none where the first is above the second.
/// All 2^64 words are answered as 2^64 - 1.
#[unsafe(no_mangle)]
pub extern "C" fn sellumaq_judyl_count_empty(
    alloc: Global,
    handle: &mut Map,
    from: u64,
    to: u64,
) -> u64
    ensures answer { result ≡ min (ranges.count_empty (map_of handle.old) from to) u64.MAX }
    ensures same { handle.new ≡ handle.old }
{
    handle.ask(alloc, |array| count_empty(array, from, to))
}

/// Makes a map a copy of another, in place of what it held, with nodes as small as its keys allow: 1. Else it is as
/// it was, where there is no memory: 2. The two handles are two.
#[unsafe(no_mangle)]
pub extern "C" fn sellumaq_judyl_copy(alloc: Global, made: &mut Map, handle: &mut Map) -> u32
    ensures answer { IsDone (array_in_map made.new ≡ array_in_map handle.old)
        (made.new ≡ made.old) result }
    ensures stays { handle.new ≡ handle.old }
{
    copy(alloc, made, handle)
}
