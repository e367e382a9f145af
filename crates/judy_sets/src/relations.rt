//! Whether one set of keys is part of another, apart from it, or the same.

ghost use Rattle.std.specs.Prelude.{◌↔◌, IsTrue};
ghost use Rattle.judy_model.specs.TwoMaps.{IsSubset, IsDisjoint, HaveSameKeys};

use crate::meets::has_some;
use judy_leaf::Words;
use judy_word::WordArray;

/// Whether each key of the one array is a key of the other, whatever their values are. It stops in the node of the
/// first that isn't.
pub fn is_subset<V: Words + Drop>(one: &WordArray<V>, other: &WordArray<V>) -> bool
    ensures { IsTrue result ↔ IsSubset one.now.map other.now.map }
{
    if one.len() > other.len() {
        return false;
    }
    !has_some(false, one, other)
}

/// Whether each key of the other array is a key of the one: [`is_subset`] turned round.
pub fn is_superset<V: Words + Drop>(one: &WordArray<V>, other: &WordArray<V>) -> bool
    ensures { IsTrue result ↔ IsSubset other.now.map one.now.map }
{
    is_subset(other, one)
}

/// Whether no key of the one array is a key of the other. It stops in the node of the first that is.
pub fn is_disjoint<V: Words + Drop>(one: &WordArray<V>, other: &WordArray<V>) -> bool
    ensures { IsTrue result ↔ IsDisjoint one.now.map other.now.map }
{
    if one.len() <= other.len() {
        return !has_some(true, one, other);
    }
    !has_some(true, other, one)
}

/// Whether they have the same keys, whatever their values are. It stops in the node of the first key that the other
/// lacks.
pub fn same_keys<V: Words + Drop>(one: &WordArray<V>, other: &WordArray<V>) -> bool
    ensures { IsTrue result ↔ HaveSameKeys one.now.map other.now.map }
{
    if one.len() != other.len() {
        return false;
    }
    !has_some(false, one, other)
}
