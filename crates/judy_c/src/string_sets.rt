//! The calls of C on ranges of strings, and on two arrays of strings: how many keys they have together, and whether the
//! one is part of the other.
//!
//! Of two arrays neither changes. The two handles are two: C owes that they don't overlap, as for all calls.

ghost use Rattle.std.specs.Prelude.{◌≡◌, ◌↔◌, IsTrue};
ghost use Rattle.std.specs.FinMap as map;
ghost use Rattle.judy_model.specs.Arrays as array;
ghost use Rattle.judy_model.specs.Counts as counts;
ghost use Rattle.judy_model.specs.Prefixes.{beginning_with, without_prefix};
ghost use Rattle.judy_model.specs.Ranges.{outside};
ghost use Rattle.judy_model.specs.TwoMaps as two;
ghost use Rattle.judy_sl.specs.Strings.{IsString};
ghost use Rattle.judy_c.specs.StringMaps.{array_in};
ghost use Rattle.judy_c.specs.StringRemovals.{removed_number, IsRemoved};

use crate::arrays::HeldArray;
use crate::handles::Handle;
use crate::strings::Strings;
use crate::two_words::of_both;
use judy_sl::LongStrings;
use judy_string_sets::{
    common_count, difference_count, is_disjoint, is_subset, remove_prefix, remove_range, same_keys,
    symmetric_difference_count, union_count,
};
use std::alloc::{AllocError, Global};

/// Takes the keys from one string to another out, both included, and answers how many they were: 0 where the first is
/// above the second, and where one of the two is no key. Or `u64::MAX` where memory was wanted and refused, and then
/// nothing changed: it is asked for where `sellumaq_judysl_longest` tells more than 1,024 bytes, or the first string
/// has more, once, for so many bytes. Else it can't fail.
#[unsafe(no_mangle)]
pub extern "C" fn sellumaq_judysl_remove_range(
    alloc: Global,
    handle: &mut Strings,
    from: &[u8],
    to: &[u8],
) -> u64
    ensures removed { IsString from.now → IsString to.now
        → IsRemoved (counts.count (array_in handle.old).map from.now to.now)
        (array.with_map (array_in handle.old)
        (outside (array_in handle.old).map from.now to.now))
        (handle.new ≡ handle.old) result (array_in handle.new) }
    ensures refused { (IsString from.now × IsString to.now → ⊥)
        → (result ≡ 0) × (handle.new ≡ handle.old) }
{
    if !LongStrings::is_key(from) || !LongStrings::is_key(to) {
        return 0;
    }
    match handle.array() {
        Some(array) => removed(remove_range(alloc, array, from, to)),
        None => 0,
    }
}

/// Takes the keys that begin with a string out, and answers how many they were: 0 where the string is no key, and all
/// where it is empty. Or `u64::MAX` where memory was wanted and refused, and then nothing changed: it is asked for
/// where `sellumaq_judysl_longest` tells more than 1,024 bytes, or the string has more, once, for so many bytes. Else
/// it can't fail.
#[unsafe(no_mangle)]
pub extern "C" fn sellumaq_judysl_remove_prefix(
    alloc: Global,
    handle: &mut Strings,
    prefix: &[u8],
) -> u64
    ensures { IsRemoved
        (map.len (beginning_with (array_in handle.old).map prefix.now))
        (array.with_map (array_in handle.old)
        (without_prefix (array_in handle.old).map prefix.now))
        (handle.new ≡ handle.old) result (array_in handle.new) }
{
    match handle.array() {
        Some(array) => removed(remove_prefix(alloc, array, prefix)),
        None => 0,
    }
}

// How many keys were taken out, or that there was no memory for it.
fn removed(count: Result<u64, AllocError>) -> u64
    ensures { result ≡ removed_number count }
{
    count.unwrap_or(u64::MAX)
}

/// How many keys both have.
#[unsafe(no_mangle)]
pub extern "C" fn sellumaq_judysl_intersection_count(
    alloc: Global,
    one: &mut Strings,
    other: &mut Strings,
) -> u64
    ensures answer { result
        ≡ map.len (two.intersection (array_in one.old).map (array_in other.old).map) }
    ensures one_stays { one.new ≡ one.old }
    ensures other_stays { other.new ≡ other.old }
{
    of_both!(one, other, LongStrings::empty(alloc); left, right => common_count(left, right))
}

/// How many keys the one or the other has.
#[unsafe(no_mangle)]
pub extern "C" fn sellumaq_judysl_union_count(
    alloc: Global,
    one: &mut Strings,
    other: &mut Strings,
) -> u64
    ensures answer { result
        ≡ map.len (two.union (array_in one.old).map (array_in other.old).map) }
    ensures one_stays { one.new ≡ one.old }
    ensures other_stays { other.new ≡ other.old }
{
    of_both!(one, other, LongStrings::empty(alloc); left, right => union_count(left, right))
}

/// How many keys of the one the other doesn't have.
#[unsafe(no_mangle)]
pub extern "C" fn sellumaq_judysl_difference_count(
    alloc: Global,
    one: &mut Strings,
    other: &mut Strings,
) -> u64
    ensures answer { result
        ≡ map.len (two.difference (array_in one.old).map (array_in other.old).map) }
    ensures one_stays { one.new ≡ one.old }
    ensures other_stays { other.new ≡ other.old }
{
    of_both!(one, other, LongStrings::empty(alloc); left, right => difference_count(left, right))
}

/// How many keys exactly one of them has.
#[unsafe(no_mangle)]
pub extern "C" fn sellumaq_judysl_symmetric_difference_count(
    alloc: Global,
    one: &mut Strings,
    other: &mut Strings,
) -> u64
    ensures answer { result
        ≡ map.len (two.symmetric_difference (array_in one.old).map (array_in other.old).map) }
    ensures one_stays { one.new ≡ one.old }
    ensures other_stays { other.new ≡ other.old }
{
    of_both!(one, other, LongStrings::empty(alloc); left, right => {
        symmetric_difference_count(left, right)
    })
}

/// Whether each key of the one is a key of the other, whatever their values are.
#[unsafe(no_mangle)]
pub extern "C" fn sellumaq_judysl_is_subset(
    alloc: Global,
    one: &mut Strings,
    other: &mut Strings,
) -> bool
    ensures answer { IsTrue result
        ↔ two.IsSubset (array_in one.old).map (array_in other.old).map }
    ensures one_stays { one.new ≡ one.old }
    ensures other_stays { other.new ≡ other.old }
{
    of_both!(one, other, LongStrings::empty(alloc); left, right => is_subset(left, right))
}

/// Whether no key of the one is a key of the other, whatever their values are.
#[unsafe(no_mangle)]
pub extern "C" fn sellumaq_judysl_is_disjoint(
    alloc: Global,
    one: &mut Strings,
    other: &mut Strings,
) -> bool
    ensures answer { IsTrue result
        ↔ two.IsDisjoint (array_in one.old).map (array_in other.old).map }
    ensures one_stays { one.new ≡ one.old }
    ensures other_stays { other.new ≡ other.old }
{
    of_both!(one, other, LongStrings::empty(alloc); left, right => is_disjoint(left, right))
}

/// Whether both have the same keys, whatever their values are.
#[unsafe(no_mangle)]
pub extern "C" fn sellumaq_judysl_has_same_keys(
    alloc: Global,
    one: &mut Strings,
    other: &mut Strings,
) -> bool
    ensures answer { IsTrue result
        ↔ two.HaveSameKeys (array_in one.old).map (array_in other.old).map }
    ensures one_stays { one.new ≡ one.old }
    ensures other_stays { other.new ≡ other.old }
{
    of_both!(one, other, LongStrings::empty(alloc); left, right => same_keys(left, right))
}
