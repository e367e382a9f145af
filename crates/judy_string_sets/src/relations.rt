//! Whether one set of keys is part of another, apart from it, or the same.

ghost use Rattle.std.specs.Prelude.{◌≡◌, ◌↔◌, IsTrue};
ghost use Rattle.std.specs.FinMap as map;
ghost use Rattle.judy_model.specs.TwoMaps.{IsSubset, IsDisjoint, HaveSameKeys};
ghost use Rattle.judy_string_sets.specs.Walks.{picked};

use crate::keys::{Keys, next_of};
use crate::which::Which;
use judy_sl::{KeyLength, StringsOf};

// Whether none of the keys of the one is meant. It stops at the first that is.
fn has_none<L: KeyLength>(which: Which, one: &StringsOf<L>, other: &StringsOf<L>) -> bool
    ensures { IsTrue result ↔ (picked which one.now.map other.now.map ≡ map.empty) }
{
    let mut keys = Keys::of(one);
    next_of(&mut keys, which, other).is_none()
}

/// Whether each key of the one array is a key of the other, whatever their values are. It stops at the first that
/// isn't, and reads nothing where the one has more keys.
pub fn is_subset<L: KeyLength>(one: &StringsOf<L>, other: &StringsOf<L>) -> bool
    ensures { IsTrue result ↔ IsSubset one.now.map other.now.map }
{
    if one.len() > other.len() {
        return false;
    }
    has_none(Which::Alone, one, other)
}

/// Whether no key of the one array is a key of the other. It goes through the array that has fewer keys, and stops at
/// the first that both have.
pub fn is_disjoint<L: KeyLength>(one: &StringsOf<L>, other: &StringsOf<L>) -> bool
    ensures { IsTrue result ↔ IsDisjoint one.now.map other.now.map }
{
    if one.len() <= other.len() {
        has_none(Which::Common, one, other)
    } else {
        has_none(Which::Common, other, one)
    }
}

/// Whether they have the same keys, whatever their values are. It stops at the first key of the one that the other
/// lacks, and reads nothing where one has more keys.
pub fn same_keys<L: KeyLength>(one: &StringsOf<L>, other: &StringsOf<L>) -> bool
    ensures { IsTrue result ↔ HaveSameKeys one.now.map other.now.map }
{
    if one.len() != other.len() {
        return false;
    }
    has_none(Which::Alone, one, other)
}
