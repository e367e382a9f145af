//! Arrays that are filled by keys that ascend, as a dump lists them.

ghost use Rattle.std.specs.Prelude.{◌≡◌, ◌≤◌, ◌^◌, ℕ, false, [], ◌∷◌, ◌++◌, IfOk, OnOk, IfErr, OnErr, IsTrue};
ghost use Rattle.std.specs.FinMap as map;
ghost use Rattle.judy_model.specs.Arrays as array;
ghost use Rattle.judy_model.specs.Shapes.{AllBelow};
ghost use Rattle.judy_bits.specs.ByteSets as set;
ghost use Rattle.judy_leaf.specs.KeyLists.{keys_of};
ghost use Rattle.judy_node.specs.Trees.{IsMap};
ghost use Rattle.judy_word.specs.Held.{map_in, array_in, with_new, with_all, IsFilling};
ghost use Rattle.judy_word.specs.Refusals.{IsRefusalOfAll};
ghost use Rattle.judy_word.specs.WordArrays.{array_of};

use crate::error::InsertError;
use crate::tree_array::{TreeArray, set_all};
use crate::word_array::{Judy1, JudyL, WordArray};
use judy_leaf::{ValueWords, Words};
use std::alloc::Global;
use std::marker::Model;

// How many keys are kept at most: 64 KiB with their values.
const MOST_KEPT: usize = 4096;

/// An array that is filled by one key after another. As long as they ascend it keeps up to 4,096 of them, and then puts
/// these in together: those that make one new node behind all others at once.
///
/// Contracts see the array that it comes to.
#[derive(Drop)]
pub struct Filling<V: Words + Drop> {
    tree: TreeArray<V>,
    kept: Vec<(u64, u64)>,
}

/// A set that is filled.
pub type FillingSet = Filling<ValueWords<0>>;

/// A map that is filled.
pub type FillingMap = Filling<ValueWords<1>>;

impl<V: Words + Drop> Model for Filling<V> {
    ghost use Rattle.std.specs.Coded.{coded_ℕ};
    ghost use Rattle.judy_model.specs.Keys.{word_order};
    ghost use Rattle.judy_model.specs.Arrays.{ArrayOf, array_code};
    ghost use Rattle.judy_word.specs.Held.{map_in, with_all, IsFilling};

    ghost Value = { ArrayOf word_order };

    ghost coded = { array_code coded_ℕ };

    ghost view = { λ a. record {
      limit = a.tree.limit;
      map = with_all (map_in a.tree) a.kept.items;
    } };

    ghost invariant = { λ a. IsFilling V.WORDS a.tree a.kept.items };
}

// Whether a key is above those of sorted pairs.
fn is_above<V: Words + Drop>(pairs: &[(u64, u64)], key: u64) -> bool
    requires { IsMap V.WORDS 0 (256 ^ 8) pairs.now }
    ensures { IsTrue result → AllBelow key (keys_of pairs.now) }
{
    if pairs.is_empty() {
        return true;
    }
    if key <= pairs[pairs.len() - 1].0 {
        return false;
    }
    true
}

// Sees to it that a key may be kept behind those that are: where it isn't above them, or as many are kept as may be,
// these are put in and none is kept. The error is want of memory or of room for them; the same keys and values are put
// in or kept then.
fn make_way<V: Words + Drop>(
    tree: &mut TreeArray<V>,
    kept: &mut Vec<(u64, u64)>,
    key: u64,
) -> Result<(), InsertError>
    requires one { V.WORDS ≤ 1 }
    requires filling { IsFilling V.WORDS tree.old kept.old.items }
    ensures filling { IsFilling V.WORDS tree.new kept.new.items }
    ensures above { IfOk result (λ _. AllBelow key (keys_of kept.new.items)) }
    ensures limit { tree.new.limit ≡ tree.old.limit }
    ensures same { with_all (map_in tree.new) kept.new.items
        ≡ with_all (map_in tree.old) kept.old.items }
{
    if kept.len() < MOST_KEPT && is_above::<V>(kept, key) {
        return Ok(());
    }
    set_all(tree, kept)?;
    kept.clear();
    Ok(())
}

// Whether a key is one of those of pairs.
fn is_among(pairs: &[(u64, u64)], key: u64) -> bool
    ensures { result ≡ set.has (keys_of pairs.now) key }
{
    'pairs: for pair in pairs {
        if pair.0 == key {
            return true;
        }
    }
    false
}

// Keeps a key with its value behind sorted pairs, which it is above. The error is want of memory; they stay then.
fn push_last<V: Words + Drop>(
    kept: &mut Vec<(u64, u64)>,
    key: u64,
    value: u64,
) -> Result<(), InsertError>
    requires no_value { V.WORDS ≡ 0 → value ≡ 0 }
    requires map { IsMap V.WORDS 0 (256 ^ 8) kept.old.items }
    requires above { AllBelow key (keys_of kept.old.items) }
    ensures map { IsMap V.WORDS 0 (256 ^ 8) kept.new.items }
    ensures pushed { OnOk result (kept.new.items ≡ kept.old.items ++ (key, value) ∷ []) }
    ensures unchanged { OnErr result (kept.new.items ≡ kept.old.items) }
{
    match kept.push((key, value)) {
        Ok(()) => Ok(()),
        Err(_) => Err(InsertError::NoMemory),
    }
}

impl<V: Words + Drop> Filling<V> {
    /// The array without keys, with that limit, which is at least 1. It asks for no memory.
    pub fn new(alloc: Global, limit: u64) -> Filling<V>
        requires { 1 ≤ limit }
        ensures limit { result.limit ≡ limit }
        ensures map { result.map ≡ map.empty }
    {
        Filling {
            tree: TreeArray::new(alloc, limit),
            kept: Vec::new(alloc),
        }
    }

    /// Gives an absent key a value, 0 where keys have none; one that is there keeps its own.
    ///
    /// `Full` where there are more keys with this one than the limit, else `NoMemory`. Either leaves the keys and their
    /// values as they were.
    pub fn put(&mut self, key: u64, value: u64) -> Result<(), InsertError>
        requires one { V.WORDS ≤ 1 }
        requires no_value { V.WORDS ≡ 0 → value ≡ 0 }
        ensures put { OnOk result
            (self.new ≡ array.with_map self.old (with_new self.old.map key value)) }
        ensures refused { IfErr result
            (IsRefusalOfAll (array.with_map self.old (with_new self.old.map key value))) }
        ensures unchanged { OnErr result (self.new ≡ self.old) }
    {
        let Ok(()) = self.keep(key, value) else {
            return Err(self.refusal_of(key));
        };
        Ok(())
    }

    // The same, but that its error tells only that one of the two came.
    fn keep(&mut self, key: u64, value: u64) -> Result<(), InsertError>
        requires one { V.WORDS ≤ 1 }
        requires no_value { V.WORDS ≡ 0 → value ≡ 0 }
        ensures put { OnOk result
            (self.new ≡ array.with_map self.old (with_new self.old.map key value)) }
        ensures unchanged { OnErr result (self.new ≡ self.old) }
    {
        make_way(&mut self.tree, &mut self.kept, key)?;
        push_last::<V>(&mut self.kept, key, value)?;
        Ok(())
    }

    // Whether a key was given.
    fn has(&self, key: u64) -> bool
        ensures { result ≡ map.contains_key self.now.map key }
    {
        self.tree.has(key) || is_among(&self.kept, key)
    }

    // Why a key can't be put in, whatever its value: with it there are too many, or memory is wanting.
    fn refusal_of(&self, key: u64) -> InsertError
        ensures { (value : ℕ)
            → IsRefusalOfAll (array.with_map self.now (with_new self.now.map key value)) result }
    {
        let Some(room) = self.tree.room_beside(&self.kept) else {
            return InsertError::Full;
        };
        if room > 0 {
            return InsertError::NoMemory;
        }
        if self.has(key) {
            return InsertError::NoMemory;
        }
        InsertError::Full
    }

    // What it is made of, when all keys are put in.
    fn into_tree(self) -> Result<TreeArray<V>, InsertError>
        requires { V.WORDS ≤ 1 }
        ensures array { IfOk result (λ tree. array_in tree ≡ self) }
        ensures refused { IfErr result (IsRefusalOfAll self) }
        ensures tight { IfOk result (λ tree. tree.loose ≡ false) }
    {
        let Filling { mut tree, kept } = self;
        set_all(&mut tree, &kept)?;
        Ok(tree)
    }

    /// The array that it comes to, a set or a map, each node as small as its keys allow. `Full` where there are more
    /// keys than the limit, else `NoMemory`; nothing is left then.
    pub fn into_array(self) -> Result<WordArray<V>, InsertError>
        requires { V.WORDS ≤ 1 }
        ensures array { IfOk result (λ made. array_of made ≡ self) }
        ensures refused { IfErr result (IsRefusalOfAll self) }
        ensures tight { IfOk result (λ made. made.loose ≡ false) }
    {
        Ok(WordArray::of(self.into_tree()?))
    }
}

impl Filling<ValueWords<1>> {
    /// The map that it comes to, each node as small as its keys allow. `Full` where there are more keys than the limit,
    /// else `NoMemory`; nothing is left then.
    pub fn into_map(self) -> Result<JudyL, InsertError>
        ensures array { IfOk result (λ words. array_of words ≡ self) }
        ensures refused { IfErr result (IsRefusalOfAll self) }
        ensures tight { IfOk result (λ words. words.loose ≡ false) }
    {
        Ok(JudyL::of(self.into_tree()?))
    }
}

impl Filling<ValueWords<0>> {
    /// The set that it comes to, each node as small as its keys allow. `Full` where there are more keys than the limit,
    /// else `NoMemory`; nothing is left then.
    pub fn into_set(self) -> Result<Judy1, InsertError>
        ensures array { IfOk result (λ set. array_of set ≡ self) }
        ensures refused { IfErr result (IsRefusalOfAll self) }
        ensures tight { IfOk result (λ set. set.loose ≡ false) }
    {
        Ok(Judy1::of(self.into_tree()?))
    }
}
