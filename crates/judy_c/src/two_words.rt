//! The calls of C on two arrays of words: how many keys they have together, and whether the one is part of the other.
//!
//! Neither array changes. The two handles are two: C owes that they don't overlap, as for all calls.

ghost use Rattle.std.specs.Prelude.{◌≡◌, ◌↔◌, IsTrue, min};
ghost use Rattle.std.specs.FinMap as map;
ghost use Rattle.judy_model.specs.TwoMaps as two;
ghost use Rattle.judy_c.specs.Maps.{map_of, set_of};

use crate::handles::Handle;
use crate::map::Map;
use crate::set::Set;
use judy_sets::{
    common_count, difference_count, is_disjoint, is_subset, same_keys, symmetric_difference_count,
    union_count,
};
use judy_word::{Judy1, JudyL};
use std::alloc::Global;

// What is answered of the arrays of two handles, or of the one without keys where a handle is null: that of a kind of
// words, or the one that is told.
macro_rules! of_both {
    (
        $one:ident, $other:ident, $alloc:ident, $kind:ident,
        $left:ident, $right:ident => $answer:expr
    ) => {
        of_both!($one, $other, $kind::unbounded($alloc); $left, $right => $answer)
    };
    (
        $one:ident, $other:ident, $none:expr;
        $left:ident, $right:ident => $answer:expr
    ) => {
        match ($one.array(), $other.array()) {
            (Some($left), Some($right)) => $answer,
            (Some($left), None) => {
                let empty = $none;
                let $right = &empty;
                $answer
            }
            (None, Some($right)) => {
                let empty = $none;
                let $left = &empty;
                $answer
            }
            (None, None) => {
                let empty = $none;
                let ($left, $right) = (&empty, &empty);
                $answer
            }
        }
    };
}

pub(crate) use of_both;

/// How many keys both have.
#[unsafe(no_mangle)]
pub extern "C" fn sellumaq_judy1_intersection_count(
    alloc: Global,
    one: &mut Set,
    other: &mut Set,
) -> u64
    ensures answer { result ≡ map.len (two.intersection (set_of one.old) (set_of other.old)) }
    ensures one_stays { one.new ≡ one.old }
    ensures other_stays { other.new ≡ other.old }
{
    of_both!(one, other, alloc, Judy1, left, right => common_count(left, right))
}

/// How many keys the one or the other has. All 2^64 words, which no memory holds, are answered as 2^64 - 1.
#[unsafe(no_mangle)]
pub extern "C" fn sellumaq_judy1_union_count(alloc: Global, one: &mut Set, other: &mut Set) -> u64
    ensures answer { result
        ≡ min (map.len (two.union (set_of one.old) (set_of other.old))) u64.MAX }
    ensures one_stays { one.new ≡ one.old }
    ensures other_stays { other.new ≡ other.old }
{
    of_both!(one, other, alloc, Judy1, left, right => union_count(left, right))
}

/// How many keys of the one the other doesn't have.
#[unsafe(no_mangle)]
pub extern "C" fn sellumaq_judy1_difference_count(
    alloc: Global,
    one: &mut Set,
    other: &mut Set,
) -> u64
    ensures answer { result ≡ map.len (two.difference (set_of one.old) (set_of other.old)) }
    ensures one_stays { one.new ≡ one.old }
    ensures other_stays { other.new ≡ other.old }
{
    of_both!(one, other, alloc, Judy1, left, right => difference_count(left, right))
}

/// How many keys exactly one of them has. All 2^64 words are answered as 2^64 - 1.
#[unsafe(no_mangle)]
pub extern "C" fn sellumaq_judy1_symmetric_difference_count(
    alloc: Global,
    one: &mut Set,
    other: &mut Set,
) -> u64
    ensures answer { result
        ≡ min (map.len (two.symmetric_difference (set_of one.old) (set_of other.old))) u64.MAX }
    ensures one_stays { one.new ≡ one.old }
    ensures other_stays { other.new ≡ other.old }
{
    of_both!(one, other, alloc, Judy1, left, right => symmetric_difference_count(left, right))
}

/// Whether each key of the one is a key of the other.
#[unsafe(no_mangle)]
pub extern "C" fn sellumaq_judy1_is_subset(alloc: Global, one: &mut Set, other: &mut Set) -> bool
    ensures answer { IsTrue result ↔ two.IsSubset (set_of one.old) (set_of other.old) }
    ensures one_stays { one.new ≡ one.old }
    ensures other_stays { other.new ≡ other.old }
{
    of_both!(one, other, alloc, Judy1, left, right => is_subset(left, right))
}

/// Whether no key of the one is a key of the other.
#[unsafe(no_mangle)]
pub extern "C" fn sellumaq_judy1_is_disjoint(alloc: Global, one: &mut Set, other: &mut Set) -> bool
    ensures answer { IsTrue result ↔ two.IsDisjoint (set_of one.old) (set_of other.old) }
    ensures one_stays { one.new ≡ one.old }
    ensures other_stays { other.new ≡ other.old }
{
    of_both!(one, other, alloc, Judy1, left, right => is_disjoint(left, right))
}

/// Whether both have the same keys.
#[unsafe(no_mangle)]
pub extern "C" fn sellumaq_judy1_has_same_keys(
    alloc: Global,
    one: &mut Set,
    other: &mut Set,
) -> bool
    ensures answer { IsTrue result ↔ two.HaveSameKeys (set_of one.old) (set_of other.old) }
    ensures one_stays { one.new ≡ one.old }
    ensures other_stays { other.new ≡ other.old }
{
    of_both!(one, other, alloc, Judy1, left, right => same_keys(left, right))
}

/// How many keys both have.
#[unsafe(no_mangle)]
pub extern "C" fn sellumaq_judyl_intersection_count(
    alloc: Global,
    one: &mut Map,
    other: &mut Map,
) -> u64
    ensures answer { result ≡ map.len (two.intersection (map_of one.old) (map_of other.old)) }
    ensures one_stays { one.new ≡ one.old }
    ensures other_stays { other.new ≡ other.old }
{
    of_both!(one, other, alloc, JudyL, left, right => common_count(left, right))
}

/// How many keys the one or the other has. All 2^64 words, which no memory holds, are answered as 2^64 - 1.
#[unsafe(no_mangle)]
pub extern "C" fn sellumaq_judyl_union_count(alloc: Global, one: &mut Map, other: &mut Map) -> u64
    ensures answer { result
        ≡ min (map.len (two.union (map_of one.old) (map_of other.old))) u64.MAX }
    ensures one_stays { one.new ≡ one.old }
    ensures other_stays { other.new ≡ other.old }
{
    of_both!(one, other, alloc, JudyL, left, right => union_count(left, right))
}

/// How many keys of the one the other doesn't have.
#[unsafe(no_mangle)]
pub extern "C" fn sellumaq_judyl_difference_count(
    alloc: Global,
    one: &mut Map,
    other: &mut Map,
) -> u64
    ensures answer { result ≡ map.len (two.difference (map_of one.old) (map_of other.old)) }
    ensures one_stays { one.new ≡ one.old }
    ensures other_stays { other.new ≡ other.old }
{
    of_both!(one, other, alloc, JudyL, left, right => difference_count(left, right))
}

/// How many keys exactly one of them has. All 2^64 words are answered as 2^64 - 1.
#[unsafe(no_mangle)]
pub extern "C" fn sellumaq_judyl_symmetric_difference_count(
    alloc: Global,
    one: &mut Map,
    other: &mut Map,
) -> u64
    ensures answer { result
        ≡ min (map.len (two.symmetric_difference (map_of one.old) (map_of other.old))) u64.MAX }
    ensures one_stays { one.new ≡ one.old }
    ensures other_stays { other.new ≡ other.old }
{
    of_both!(one, other, alloc, JudyL, left, right => symmetric_difference_count(left, right))
}

/// Whether each key of the one is a key of the other, whatever their values are.
#[unsafe(no_mangle)]
pub extern "C" fn sellumaq_judyl_is_subset(alloc: Global, one: &mut Map, other: &mut Map) -> bool
    ensures answer { IsTrue result ↔ two.IsSubset (map_of one.old) (map_of other.old) }
    ensures one_stays { one.new ≡ one.old }
    ensures other_stays { other.new ≡ other.old }
{
    of_both!(one, other, alloc, JudyL, left, right => is_subset(left, right))
}

/// Whether no key of the one is a key of the other, whatever their values are.
#[unsafe(no_mangle)]
pub extern "C" fn sellumaq_judyl_is_disjoint(alloc: Global, one: &mut Map, other: &mut Map) -> bool
    ensures answer { IsTrue result ↔ two.IsDisjoint (map_of one.old) (map_of other.old) }
    ensures one_stays { one.new ≡ one.old }
    ensures other_stays { other.new ≡ other.old }
{
    of_both!(one, other, alloc, JudyL, left, right => is_disjoint(left, right))
}

/// Whether both have the same keys, whatever their values are.
#[unsafe(no_mangle)]
pub extern "C" fn sellumaq_judyl_has_same_keys(
    alloc: Global,
    one: &mut Map,
    other: &mut Map,
) -> bool
    ensures answer { IsTrue result ↔ two.HaveSameKeys (map_of one.old) (map_of other.old) }
    ensures one_stays { one.new ≡ one.old }
    ensures other_stays { other.new ≡ other.old }
{
    of_both!(one, other, alloc, JudyL, left, right => same_keys(left, right))
}
