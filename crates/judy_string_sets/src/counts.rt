//! How many keys two arrays have together.

ghost use Rattle.std.specs.Prelude.{◌≡◌};
ghost use Rattle.std.specs.FinMap as map;
ghost use Rattle.judy_model.specs.TwoMaps as two;
ghost use Rattle.judy_string_sets.specs.Walks.{picked, rest_of, kept};

use crate::keys::{Keys, next_of};
use crate::which::Which;
use judy_sl::{KeyLength, StringsOf};

/// How many keys both arrays have. The array that has fewer is gone through once, and each of its keys is looked up in
/// the other.
///
/// Of the keys `a`, `b` and `c` the keys `b`, `c` and `d` have two.
pub fn common_count<L: KeyLength>(one: &StringsOf<L>, other: &StringsOf<L>) -> u64
    ensures { result ≡ map.len (two.intersection one.now.map other.now.map) }
{
    if one.len() <= other.len() {
        count_in(one, other)
    } else {
        count_in(other, one)
    }
}

// How many keys of the one the other has.
fn count_in<L: KeyLength>(one: &StringsOf<L>, other: &StringsOf<L>) -> u64
    ensures { result ≡ map.len (two.intersection one.now.map other.now.map) }
{
    let _most = one.len();
    let mut keys = Keys::of(one);
    let mut count = 0;
    'keys: while let Some(_value) = next_of(&mut keys, Which::Common, other) {
        count += 1;
    }
    count
}

/// How many keys of the one array the other lacks.
pub fn difference_count<L: KeyLength>(one: &StringsOf<L>, other: &StringsOf<L>) -> u64
    ensures { result ≡ map.len (two.difference one.now.map other.now.map) }
{
    one.len() - common_count(one, other)
}

/// How many keys the one or the other has: never more than a word tells, as each has at most 4,294,967,295.
pub fn union_count<L: KeyLength>(one: &StringsOf<L>, other: &StringsOf<L>) -> u64
    ensures { result ≡ map.len (two.union one.now.map other.now.map) }
{
    let _most = other.len();
    one.len() + difference_count(other, one)
}

/// How many keys exactly one of them has.
pub fn symmetric_difference_count<L: KeyLength>(one: &StringsOf<L>, other: &StringsOf<L>) -> u64
    ensures { result ≡ map.len (two.symmetric_difference one.now.map other.now.map) }
{
    let common = common_count(one, other);
    (one.len() - common) + (other.len() - common)
}

// How many keys of the one are meant.
fn picked_count<L: KeyLength>(which: Which, one: &StringsOf<L>, other: &StringsOf<L>) -> u64
    ensures { result ≡ map.len (picked which one.now.map other.now.map) }
{
    match which {
        Which::All => one.len(),
        Which::Common => common_count(one, other),
        Which::Alone => difference_count(one, other),
    }
}

// How many keys the other has alone, where these are wanted.
fn rest_count<L: KeyLength>(rest: bool, one: &StringsOf<L>, other: &StringsOf<L>) -> u64
    ensures { result ≡ map.len (rest_of rest one.now.map other.now.map) }
{
    if rest {
        difference_count(other, one)
    } else {
        0
    }
}

// How many both are.
pub fn kept_count<L: KeyLength>(
    which: Which,
    rest: bool,
    one: &StringsOf<L>,
    other: &StringsOf<L>,
) -> u64
    ensures { result ≡ map.len (kept which rest one.now.map other.now.map) }
{
    let _ours = one.len();
    let _theirs = other.len();
    picked_count(which, one, other) + rest_count(rest, one, other)
}
