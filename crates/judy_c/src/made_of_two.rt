//! The calls of C that make an array of words of two: what they have together, and what the one has and not the other.
//!
//! An array that is to become one is replaced at success alone, and the two stay. The three handles are three.

ghost use Rattle.std.specs.Prelude.{◌≡◌};
ghost use Rattle.judy_model.specs.TwoMaps as two;
ghost use Rattle.judy_c.specs.Combined.{IsCombined};
ghost use Rattle.judy_c.specs.Maps.{array_in_map, array_in_set, map_of, set_of};
ghost use Rattle.judy_c.specs.Sorted.{most_keys};

use crate::combined::combine;
use crate::combined::kinds::Joint;
use crate::map::Map;
use crate::set::Set;
use std::alloc::Global;

/// Makes a set that of the keys that the one or the other has, in place of what it held: 1. Else it is as it was: 2,
/// where there is no memory for them; 3, where they are all 2^64 words.
#[unsafe(no_mangle)]
pub extern "C" fn sellumaq_judy1_union(
    alloc: Global,
    made: &mut Set,
    one: &mut Set,
    other: &mut Set,
) -> u32
    ensures answer { IsCombined most_keys (two.union (set_of one.old) (set_of other.old))
        (array_in_set made.new) (made.new ≡ made.old) result }
    ensures one_stays { one.new ≡ one.old }
    ensures other_stays { other.new ≡ other.old }
{
    combine(alloc, Joint::Union, made, one, other)
}

/// Makes a set that of the keys that both have, in place of what it held: 1. Else it is as it was: 2, where there is no
/// memory for them; 3, where they are all 2^64 words.
#[unsafe(no_mangle)]
pub extern "C" fn sellumaq_judy1_intersection(
    alloc: Global,
    made: &mut Set,
    one: &mut Set,
    other: &mut Set,
) -> u32
    ensures answer { IsCombined most_keys (two.intersection (set_of one.old) (set_of other.old))
        (array_in_set made.new) (made.new ≡ made.old) result }
    ensures one_stays { one.new ≡ one.old }
    ensures other_stays { other.new ≡ other.old }
{
    combine(alloc, Joint::Intersection, made, one, other)
}

/// Makes a set that of the keys of the one that the other doesn't have, in place of what it held: 1. Else it is as it
/// was: 2, where there is no memory for them; 3, where they are all 2^64 words.
#[unsafe(no_mangle)]
pub extern "C" fn sellumaq_judy1_difference(
    alloc: Global,
    made: &mut Set,
    one: &mut Set,
    other: &mut Set,
) -> u32
    ensures answer { IsCombined most_keys (two.difference (set_of one.old) (set_of other.old))
        (array_in_set made.new) (made.new ≡ made.old) result }
    ensures one_stays { one.new ≡ one.old }
    ensures other_stays { other.new ≡ other.old }
{
    combine(alloc, Joint::Difference, made, one, other)
}

/// Makes a set that of the keys that exactly one of them has, in place of what it held: 1. Else it is as it was: 2,
/// where there is no memory for them; 3, where they are all 2^64 words.
#[unsafe(no_mangle)]
pub extern "C" fn sellumaq_judy1_symmetric_difference(
    alloc: Global,
    made: &mut Set,
    one: &mut Set,
    other: &mut Set,
) -> u32
    ensures answer { IsCombined most_keys
        (two.symmetric_difference (set_of one.old) (set_of other.old))
        (array_in_set made.new) (made.new ≡ made.old) result }
    ensures one_stays { one.new ≡ one.old }
    ensures other_stays { other.new ≡ other.old }
{
    combine(alloc, Joint::SymmetricDifference, made, one, other)
}

/// Makes a map that of the keys that the one or the other has, with the one's value where both have the key, in place
/// of what it held: 1. Else it is as it was: 2, where there is no memory for them; 3, where they are all 2^64 words.
#[unsafe(no_mangle)]
pub extern "C" fn sellumaq_judyl_union(
    alloc: Global,
    made: &mut Map,
    one: &mut Map,
    other: &mut Map,
) -> u32
    ensures answer { IsCombined most_keys (two.union (map_of one.old) (map_of other.old))
        (array_in_map made.new) (made.new ≡ made.old) result }
    ensures one_stays { one.new ≡ one.old }
    ensures other_stays { other.new ≡ other.old }
{
    combine(alloc, Joint::Union, made, one, other)
}

/// Makes a map that of the keys that both have, with the one's values, in place of what it held: 1. Else it is as it
/// was: 2, where there is no memory for them; 3, where they are all 2^64 words.
#[unsafe(no_mangle)]
pub extern "C" fn sellumaq_judyl_intersection(
    alloc: Global,
    made: &mut Map,
    one: &mut Map,
    other: &mut Map,
) -> u32
    ensures answer { IsCombined most_keys (two.intersection (map_of one.old) (map_of other.old))
        (array_in_map made.new) (made.new ≡ made.old) result }
    ensures one_stays { one.new ≡ one.old }
    ensures other_stays { other.new ≡ other.old }
{
    combine(alloc, Joint::Intersection, made, one, other)
}

/// Makes a map that of the keys of the one that the other doesn't have, in place of what it held: 1. Else it is as it
/// was: 2, where there is no memory for them; 3, where they are all 2^64 words.
#[unsafe(no_mangle)]
pub extern "C" fn sellumaq_judyl_difference(
    alloc: Global,
    made: &mut Map,
    one: &mut Map,
    other: &mut Map,
) -> u32
    ensures answer { IsCombined most_keys (two.difference (map_of one.old) (map_of other.old))
        (array_in_map made.new) (made.new ≡ made.old) result }
    ensures one_stays { one.new ≡ one.old }
    ensures other_stays { other.new ≡ other.old }
{
    combine(alloc, Joint::Difference, made, one, other)
}

/// Makes a map that of the keys that exactly one of them has, in place of what it held: 1. Else it is as it was: 2,
/// where there is no memory for them; 3, where they are all 2^64 words.
#[unsafe(no_mangle)]
pub extern "C" fn sellumaq_judyl_symmetric_difference(
    alloc: Global,
    made: &mut Map,
    one: &mut Map,
    other: &mut Map,
) -> u32
    ensures answer { IsCombined most_keys
        (two.symmetric_difference (map_of one.old) (map_of other.old))
        (array_in_map made.new) (made.new ≡ made.old) result }
    ensures one_stays { one.new ≡ one.old }
    ensures other_stays { other.new ≡ other.old }
{
    combine(alloc, Joint::SymmetricDifference, made, one, other)
}
