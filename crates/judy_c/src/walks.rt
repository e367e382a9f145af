//! The walks of C: many keys at a time, written to a buffer of the caller's.
//!
//! A walk keeps nothing between its calls: the next one begins above the last key that was told, or below it where the
//! walk goes down. So it may begin anywhere, and the array may change between two calls; what comes then are the keys
//! that are there at the call.

ghost use Rattle.std.specs.Prelude.{◌≡◌};
ghost use Rattle.judy_c.specs.Maps.{map_of, set_of};
ghost use Rattle.judy_c.specs.Walks.{IsFilled, keys_down, keys_from, pairs_down, pairs_from};

use crate::handles::Handle;
use crate::map::Map;
use crate::set::Set;
use judy_sets::fill_down;
use judy_word::{FromPair, Judy1, JudyL};
use std::alloc::Global;

/// A key with its value, as C has them.
#[repr(C)]
#[derive(Clone, Copy)]
pub struct Pair {
    pub key: u64,
    pub value: u64,
}

impl FromPair for Pair {
    ghost made = { λ key value. record { key = key; value = value } };

    #[inline(always)]
    fn from_pair(key: u64, value: u64) -> Pair {
        Pair { key, value }
    }
}

/// The keys of a set from a word on, in ascending order, as many as the buffer has room for; answers how many these
/// are. Fewer than there is room for are the last ones. It is one way down the set, and then a node at a time is
/// copied.
#[unsafe(no_mangle)]
pub extern "C" fn sellumaq_judy1_walk(
    alloc: Global,
    handle: &mut Set,
    from: u64,
    keys: &mut [u64],
) -> usize
    ensures filled { IsFilled (keys_from (set_of handle.old) from) keys.old result keys.new }
    ensures same { handle.new ≡ handle.old }
{
    match handle.array() {
        Some(array) => array.iter_from(from).fill(keys),
        None => Judy1::unbounded(alloc).iter_from(from).fill(keys),
    }
}

/// The keys of a set from a word down, in descending order, as many as the buffer has room for; answers how many these
/// are. Fewer than there is room for are the last ones. The last of them is found by its place, and from there on a
/// node at a time is copied.
#[unsafe(no_mangle)]
pub extern "C" fn sellumaq_judy1_walk_down(handle: &mut Set, from: u64, keys: &mut [u64]) -> usize
    ensures filled { IsFilled (keys_down (set_of handle.old) from) keys.old result keys.new }
    ensures same { handle.new ≡ handle.old }
{
    match handle.array() {
        Some(array) => fill_down(array, from, keys),
        None => 0,
    }
}

/// The keys of a map from a word on with their values, by ascending key, as many as the buffer has room for; answers
/// how many these are. Fewer than there is room for are the last ones. It is one way down the map, and then a node at a
/// time is copied.
#[unsafe(no_mangle)]
pub extern "C" fn sellumaq_judyl_walk(
    alloc: Global,
    handle: &mut Map,
    from: u64,
    pairs: &mut [Pair],
) -> usize
    ensures filled { IsFilled (pairs_from (map_of handle.old) from) pairs.old result pairs.new }
    ensures same { handle.new ≡ handle.old }
{
    match handle.array() {
        Some(array) => array.iter_from(from).fill(pairs),
        None => JudyL::unbounded(alloc).iter_from(from).fill(pairs),
    }
}

/// The keys of a map from a word down with their values, by descending key, as many as the buffer has room for; answers
/// how many these are. Fewer than there is room for are the last ones. It goes as `sellumaq_judy1_walk_down` does.
#[unsafe(no_mangle)]
pub extern "C" fn sellumaq_judyl_walk_down(handle: &mut Map, from: u64, pairs: &mut [Pair]) -> usize
    ensures filled { IsFilled (pairs_down (map_of handle.old) from) pairs.old result pairs.new }
    ensures same { handle.new ≡ handle.old }
{
    match handle.array() {
        Some(array) => fill_down(array, from, pairs),
        None => 0,
    }
}
