//! What is asked of a node that isn't a branch, where a way down ends.

ghost use Rattle.std.specs.Prelude.{◌≡◌, ◌+◌, ◌<◌, ◌≤◌, ◌^◌, [], ◌∷◌, length, slice_get, Some, IfSome};
ghost use Rattle.judy_bits.specs.ByteSets as set;
ghost use Rattle.judy_leaf.specs.KeyLists.{keys_of, shift};
ghost use Rattle.judy_leaf.specs.Nearby.{pair_from, pair_up_to};
ghost use Rattle.judy_node.specs.Views.{view_pairs};
ghost use Rattle.judy_query.specs.Parts.{value_of, width_of, IsEnd, IsShown};

use crate::Entry;
use judy_leaf::{BitRef, ImmOf, LeafRef, Words};
use judy_node::ViewOf;

/// The value of a key, 0 where keys have no value; none where the key is absent.
// Inside a look-up the node at the way's end stays in registers, and its kind, where that was just told, isn't told
// again.
#[inline(always)]
pub(crate) fn value_in<V: Words + Drop>(view: &ViewOf<'_, V>, key: u64) -> Option<u64>
    requires end { IsEnd view.now }
    requires shown { IsShown V.WORDS view.now }
    ensures { result ≡ value_of (view_pairs view.now) key }
{
    match view {
        ViewOf::Null => None,
        ViewOf::One(only, value) => value_of_one(*only, *value, key),
        ViewOf::Imm(list) => value_in_imm(list, key),
        ViewOf::Leaf(list) => value_in_leaf(list, key),
        ViewOf::BitLeaf(skipped, list) => {
            let start = *skipped * 256;
            if key < start {
                None
            } else {
                value_in_bits(list, key - start)
            }
        }
        ViewOf::Branch(_) => unreachable!(),
    }
}

/// The value of a key beside the only pair that there is.
#[inline(always)]
pub(crate) fn value_of_one(only: u64, value: u64, key: u64) -> Option<u64>
    ensures { result ≡ value_of ((only, value) ∷ []) key }
{
    if only == key { Some(value) } else { None }
}

// The value at the place at which a list finds a key; none where it finds none.
macro_rules! value_found {
    ($list:ident, $find:ident, $key:ident) => {{
        $list.law();
        let at = $list.$find($key)?;
        Some($list.value_at(at))
    }};
}

/// The value of a key of an immediate.
#[tactic(auto, using(crate::proofs::Finds::place_inside, crate::proofs::Finds::place_value, crate::proofs::Finds::place_none))]
pub(crate) fn value_in_imm<V: Words + Drop>(list: &ImmOf<V>, key: u64) -> Option<u64>
    ensures { result ≡ value_of list.now.pairs key }
{
    value_found!(list, find, key)
}

// The value of a key of a leaf.
#[tactic(auto, using(crate::proofs::Finds::place_inside, crate::proofs::Finds::place_value, crate::proofs::Finds::place_none))]
fn value_in_leaf<V: Words + Drop>(list: &LeafRef<'_, V>, key: u64) -> Option<u64>
    ensures { result ≡ value_of list.now.pairs key }
{
    value_found!(list, find, key)
}

/// The value of a key of a leaf at a root, where keys have eight bytes.
// The width is a constant there, and nothing asks for it.
#[inline(always)]
#[tactic(auto, using(crate::proofs::Finds::place_inside, crate::proofs::Finds::place_value, crate::proofs::Finds::place_none))]
pub(crate) fn value_in_words<V: Words + Drop>(list: &LeafRef<'_, V>, key: u64) -> Option<u64>
    requires { list.now.width ≡ 8 }
    ensures { result ≡ value_of list.now.pairs key }
{
    value_found!(list, find_word, key)
}

// The value of a last byte of a bitmap leaf.
#[tactic(auto, using(crate::proofs::Finds::place_inside, crate::proofs::Finds::place_value, crate::proofs::Finds::place_none))]
fn value_in_bits<V: Words + Drop>(list: &BitRef<'_, V>, key: u64) -> Option<u64>
    ensures { result ≡ value_of list.now.pairs key }
{
    value_found!(list, find, key)
}

/// How many keys are below a word.
// As `value_in`.
#[inline(always)]
pub(crate) fn rank_in<V: Words + Drop>(view: &ViewOf<'_, V>, key: u64) -> u64
    requires end { IsEnd view.now }
    requires shown { IsShown V.WORDS view.now }
    ensures { result ≡ set.rank (keys_of (view_pairs view.now)) key }
{
    match view {
        ViewOf::Null => 0,
        ViewOf::One(only, _) => if *only < key { 1 } else { 0 },
        ViewOf::Imm(list) => list.rank(key) as u64,
        ViewOf::Leaf(list) => list.rank(key) as u64,
        ViewOf::BitLeaf(skipped, list) => {
            let start = *skipped * 256;
            if key < start {
                0
            } else {
                list.rank(key - start) as u64
            }
        }
        ViewOf::Branch(_) => unreachable!(),
    }
}

/// How many keys there are.
pub fn len_in<V: Words + Drop>(view: &ViewOf<'_, V>) -> u64
    requires { IsEnd view.now }
    ensures { result ≡ length (view_pairs view.now) }
{
    match view {
        ViewOf::Null => 0,
        ViewOf::One(_, _) => 1,
        ViewOf::Imm(list) => list.len() as u64,
        ViewOf::Leaf(list) => list.len() as u64,
        ViewOf::BitLeaf(_, list) => list.len() as u64,
        ViewOf::Branch(_) => unreachable!(),
    }
}

/// The pair at a place, counted from 0.
// As `from_in` below.
#[inline(always)]
pub fn entry_in<V: Words + Drop>(view: &ViewOf<'_, V>, at: u64) -> Entry
    requires end { IsEnd view.now }
    requires shown { IsShown V.WORDS view.now }
    requires inside { at < length (view_pairs view.now) }
    ensures { slice_get (view_pairs view.now) at ≡ Some result }
{
    let at = at as usize;
    match view {
        ViewOf::Null => unreachable!(),
        ViewOf::One(key, value) => (*key, *value),
        ViewOf::Imm(list) => (list.key_at(at), list.value_at(at)),
        ViewOf::Leaf(list) => (list.key_at(at), list.value_at(at)),
        ViewOf::BitLeaf(skipped, list) => (*skipped * 256 + list.key_at(at), list.value_at(at)),
        ViewOf::Branch(_) => unreachable!(),
    }
}

/// The pair of an immediate of one key, its key counted from a base; none for other nodes.
// Where a node was just entered its kind is known, and the pair needs no memory.
#[inline(always)]
pub(crate) fn only_pair<V: Words + Drop>(view: &ViewOf<'_, V>, base: u64) -> Option<Entry>
    requires shown { IsShown V.WORDS view.now }
    requires fits { base + 256 ^ width_of view.now ≤ 256 ^ 8 }
    ensures { IfSome result (λ pair. shift base (view_pairs view.now) ≡ pair ∷ []) }
{
    let ViewOf::Imm(list) = view else {
        return None;
    };
    if list.len() == 1 {
        Some((base + list.key_at(0), list.value_at(0)))
    } else {
        None
    }
}

/// The value of a key of a bitmap leaf; none for a key that it hasn't, and for other nodes.
// Among dense keys the nearest one is mostly the number itself, and is found by one test of its bit.
#[inline(always)]
pub(crate) fn value_in_dense<V: Words + Drop>(view: &ViewOf<'_, V>, key: u64) -> Option<u64>
    requires end { IsEnd view.now }
    requires shown { IsShown V.WORDS view.now }
    ensures { IfSome result (λ value. pair_from (view_pairs view.now) key ≡ Some (key, value)) }
{
    let ViewOf::BitLeaf(skipped, list) = view else {
        return None;
    };
    let start = *skipped * 256;
    if key < start {
        return None;
    }
    value_in_bits(list, key - start)
}

/// The nearest pair at or above a number; none where all are below.
// Where a node was just entered its kind is known: by a call it would be written to memory and told anew.
#[inline(always)]
pub(crate) fn from_in<V: Words + Drop>(view: &ViewOf<'_, V>, key: u64) -> Option<Entry>
    requires end { IsEnd view.now }
    requires shown { IsShown V.WORDS view.now }
    ensures { result ≡ pair_from (view_pairs view.now) key }
{
    match view {
        ViewOf::Leaf(list) => list.at_or_after(key),
        _ => from_other(view, key),
    }
}

/// The same, with the search of a leaf by a call.
// For nodes that are no leaves: the search of a leaf is large, and isn't compiled in where none comes.
#[inline(always)]
pub(crate) fn from_other<V: Words + Drop>(view: &ViewOf<'_, V>, key: u64) -> Option<Entry>
    requires end { IsEnd view.now }
    requires shown { IsShown V.WORDS view.now }
    ensures { result ≡ pair_from (view_pairs view.now) key }
{
    match view {
        ViewOf::Null => None,
        ViewOf::One(only, value) => if *only >= key {
            Some((*only, *value))
        } else {
            None
        },
        ViewOf::Imm(list) => list.at_or_after(key),
        ViewOf::Leaf(list) => from_leaf(list, key),
        ViewOf::BitLeaf(skipped, list) => {
            let start = *skipped * 256;
            let (byte, value) = list.at_or_after(key.saturating_sub(start))?;
            Some((start + byte, value))
        }
        ViewOf::Branch(_) => unreachable!(),
    }
}

// The same in a leaf.
fn from_leaf<V: Words + Drop>(list: &LeafRef<'_, V>, key: u64) -> Option<Entry>
    ensures { result ≡ pair_from list.now.pairs key }
{
    list.at_or_after(key)
}

/// The nearest pair at or below a number; none where all are above.
// As `from_in`.
#[inline(always)]
pub(crate) fn up_to_in<V: Words + Drop>(view: &ViewOf<'_, V>, key: u64) -> Option<Entry>
    requires end { IsEnd view.now }
    requires shown { IsShown V.WORDS view.now }
    ensures { result ≡ pair_up_to (view_pairs view.now) key }
{
    match view {
        ViewOf::Null => None,
        ViewOf::One(only, value) => if *only <= key {
            Some((*only, *value))
        } else {
            None
        },
        ViewOf::Imm(list) => list.at_or_before(key),
        ViewOf::Leaf(list) => list.at_or_before(key),
        ViewOf::BitLeaf(skipped, list) => {
            let start = *skipped * 256;
            if key < start {
                return None;
            }
            let (byte, value) = list.at_or_before(key - start)?;
            Some((start + byte, value))
        }
        ViewOf::Branch(_) => unreachable!(),
    }
}
