//! Arrays made at once of keys that ascend.

ghost use Rattle.std.specs.Prelude.{◌≡◌, ◌≤◌, ℕ, length, map, false, IfOk, IfErr, OnOk};
ghost use Rattle.std.specs.FinMap as finmap;
ghost use Rattle.std.specs.List.{AllByRecursion};
ghost use Rattle.judy_model.specs.Keys.{IsWord};
ghost use Rattle.judy_leaf.specs.KeyLists.{keys_of};
ghost use Rattle.judy_word.specs.Sorted.{ascending_from, pairs_in, IsSorted, IsFault};

use crate::tree_array::TreeArray;
use crate::word_array::{Judy1, JudyL};
use judy_leaf::Words;
use std::alloc::{AllocError, Global};
use thiserror::Error;

/// Why no array was made of a list of keys: what is wrong with the first key that doesn't fit, or want of memory.
#[derive(Clone, Copy, Debug, PartialEq, Eq, Error)]
pub enum SortedError {
    /// The key at this place, counted from 0, isn't above the one before it.
    #[error("the key at place {0} isn't above the one before it")]
    NotAscending(usize),
    /// The key at this place, counted from 0, is one more than the limit allows.
    #[error("the array is full before the key at place {0}")]
    Full(usize),
    /// The keys fit, and there is no memory for them.
    #[error("out of memory")]
    NoMemory,
}

/// What has a key and a value: a word itself, whose value is 0, or a word with its value.
pub trait Keyed {
    ghost key_of: { Self → ℕ };

    ghost value_of: { Self → ℕ };

    /// The key.
    fn key(&self) -> u64
        ensures { result ≡ key_of self.now };

    /// The value.
    fn value(&self) -> u64
        ensures { result ≡ value_of self.now };
}

impl Keyed for u64 {
    ghost key_of = { λ key. key };

    ghost value_of = { λ key. 0 };

    fn key(&self) -> u64 {
        *self
    }

    fn value(&self) -> u64 {
        0
    }
}

impl Keyed for (u64, u64) {
    ghost key_of = { λ pair. pair.0 };

    ghost value_of = { λ pair. pair.1 };

    fn key(&self) -> u64 {
        self.0
    }

    fn value(&self) -> u64 {
        self.1
    }
}

// How many of the first keys strictly ascend.
fn ascending<K: Keyed>(items: &[K]) -> usize
    ensures front { result ≡ ascending_from 0 (map K.key_of items.now) }
    ensures words { result ≡ length items.now → AllByRecursion IsWord (map K.key_of items.now) }
{
    let mut last = None;
    'items: for (at, item) in items.iter().enumerate() {
        let key = item.key();
        match last {
            Some(last) if key <= last => return at,
            _ => last = Some(key),
        }
    }
    items.len()
}

// Whether the keys of a list strictly ascend, and are no more than a limit; else what is wrong with the first that
// doesn't fit.
fn check_sorted<K: Keyed>(limit: u64, items: &[K]) -> Result<(), SortedError>
    ensures sorted { OnOk result (IsSorted limit (map K.key_of items.now)) }
    ensures refused { IfErr result (IsFault limit (map K.key_of items.now)) }
{
    let front = ascending(items);
    if front as u64 > limit {
        return Err(SortedError::Full(limit as usize));
    }
    if front < items.len() {
        return Err(SortedError::NotAscending(front));
    }
    Ok(())
}

// The keys with their values.
fn pairs_of<K: Keyed>(alloc: Global, items: &[K]) -> Result<Vec<(u64, u64)>, AllocError>
    ensures { IfOk result (λ pairs. pairs.items ≡ pairs_in K.key_of K.value_of items.now) }
{
    let mut pairs = Vec::with_capacity(alloc, items.len())?;
    'items: for item in items {
        pairs
            .push((item.key(), item.value()))
            .map_err(|_| AllocError)?;
    }
    Ok(pairs)
}

// The tree of what has a key and a value each, by way of pairs.
fn tree_of<V: Words + Drop, K: Keyed>(
    alloc: Global,
    limit: u64,
    items: &[K],
) -> Result<TreeArray<V>, SortedError>
    requires one { V.WORDS ≤ 1 }
    requires some { 1 ≤ limit }
    requires no_values { V.WORDS ≡ 0
        → AllByRecursion (λ value. value ≡ 0) (map K.value_of items.now) }
    ensures pairs { IfOk result (λ tree. tree.tree.pairs ≡ pairs_in K.key_of K.value_of items.now) }
    ensures limit { IfOk result (λ tree. tree.limit ≡ limit) }
    ensures tight { IfOk result (λ tree. tree.loose ≡ false) }
    ensures sorted { OnOk result (IsSorted limit (map K.key_of items.now)) }
    ensures refused { IfErr result (IsFault limit (map K.key_of items.now)) }
{
    check_sorted(limit, items)?;
    let Ok(pairs) = pairs_of(alloc, items) else {
        return Err(SortedError::NoMemory);
    };
    TreeArray::from_sorted(alloc, limit, &pairs).map_err(|_| SortedError::NoMemory)
}

impl JudyL {
    /// The array with a limit, at least 1, that has these pairs of a key and its value, whose keys strictly ascend. Its
    /// nodes are made once each, from the lowest up, in a fraction of the time that as many inserts take. (This
    /// project's own.)
    ///
    /// The error tells the first key that isn't above the one before it, or is one more than the limit, by its place;
    /// `NoMemory` only where there is none. Nothing is kept then.
    ///
    ///     let squares = JudyL::from_sorted(alloc, 100, &[(1, 1), (2, 4), (3, 9)])?;
    pub fn from_sorted(
        alloc: Global,
        limit: u64,
        pairs: &[(u64, u64)],
    ) -> Result<JudyL, SortedError>
        requires { 1 ≤ limit }
        ensures pairs { IfOk result (λ a. finmap.entries a.map ≡ pairs.now) }
        ensures limit { IfOk result (λ a. a.limit ≡ limit) }
        ensures tight { IfOk result (λ a. a.loose ≡ false) }
        ensures sorted { OnOk result (IsSorted limit (keys_of pairs.now)) }
        ensures refused { IfErr result (IsFault limit (keys_of pairs.now)) }
    {
        check_sorted(limit, pairs)?;
        let Ok(tree) = TreeArray::from_sorted(alloc, limit, pairs) else {
            return Err(SortedError::NoMemory);
        };
        tree.law();
        Ok(JudyL::of(tree))
    }

    /// The same of what has a key and a value each. While the array is made, it takes 16 bytes more for each. (This
    /// project's own.)
    ///
    /// The errors are those of `from_sorted`: `NotAscending` and `Full` tell the first key that doesn't fit by its
    /// place, and are told before memory is asked for; `NoMemory` only where there is none. Nothing is kept then.
    ///
    ///     let squares = JudyL::from_items(alloc, 100, &[(1, 1), (2, 4), (3, 9)])?;
    pub fn from_items<K: Keyed>(
        alloc: Global,
        limit: u64,
        items: &[K],
    ) -> Result<JudyL, SortedError>
        requires { 1 ≤ limit }
        ensures pairs { IfOk result
            (λ a. finmap.entries a.map ≡ pairs_in K.key_of K.value_of items.now) }
        ensures limit { IfOk result (λ a. a.limit ≡ limit) }
        ensures tight { IfOk result (λ a. a.loose ≡ false) }
        ensures sorted { OnOk result (IsSorted limit (map K.key_of items.now)) }
        ensures refused { IfErr result (IsFault limit (map K.key_of items.now)) }
    {
        let tree = tree_of(alloc, limit, items)?;
        tree.law();
        Ok(JudyL::of(tree))
    }
}

impl Judy1 {
    /// The set with a limit, at least 1, that has these keys, which strictly ascend. As `JudyL::from_sorted`; while it
    /// is made, it takes 16 bytes more for each key. (This project's own.)
    ///
    ///     let primes = Judy1::from_sorted(alloc, 100, &[2, 3, 5, 7, 11])?;
    pub fn from_sorted(alloc: Global, limit: u64, keys: &[u64]) -> Result<Judy1, SortedError>
        requires { 1 ≤ limit }
        ensures keys { IfOk result (λ a. finmap.keys a.map ≡ keys.now) }
        ensures limit { IfOk result (λ a. a.limit ≡ limit) }
        ensures tight { IfOk result (λ a. a.loose ≡ false) }
        ensures sorted { OnOk result (IsSorted limit keys.now) }
        ensures refused { IfErr result (IsFault limit keys.now) }
    {
        let tree = tree_of(alloc, limit, keys)?;
        tree.law();
        Ok(Judy1::of(tree))
    }
}
