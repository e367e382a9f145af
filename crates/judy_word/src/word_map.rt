//! A map from words to words of which no caller knows the nodes.

ghost use Rattle.std.specs.Prelude.{◌≡◌, ◌≤◌, ◌↔◌, Some, None, not, IfOk, IsOk, OnOk, OnErr, IfErr, IsTrue, IsFalse};
ghost use Rattle.std.specs.Borrow.{sem};
ghost use Rattle.std.specs.FinMap as map;
ghost use Rattle.std.specs.Option.{option_copied_mut};
ghost use Rattle.judy_model.specs.Arrays as array;
ghost use Rattle.judy_word.specs.Held.{with_new};
ghost use Rattle.judy_word.specs.WordArrays.{array_of};
ghost use Rattle.judy_word.specs.MapSlots.{LendsSlot};
ghost use Rattle.judy_word.specs.Sorted.{IsSorted, IsFault};
ghost use Rattle.judy_leaf.specs.KeyLists.{keys_of};

use crate::iter::Entries;
use crate::sorted::SortedError;
use crate::word_array::JudyL;
use std::alloc::{AllocError, Global};
use std::iter::IntoIterator;
use std::marker::Model;

/// A map from words to words, which is a [`JudyL`] without a limit: for arrays that are made of many. Contracts see it
/// as the limit and the map alone, so that two of them are equal where these are, whatever nodes they have. Each call
/// is the one of `JudyL` of that name.
#[derive(Drop)]
pub struct WordMap {
    array: JudyL,
}

impl Model for WordMap {
    ghost use Rattle.std.specs.Coded.{coded_ℕ};
    ghost use Rattle.judy_model.specs.Keys.{word_order};
    ghost use Rattle.judy_model.specs.Arrays.{ArrayOf, array_code};

    ghost Value = { ArrayOf word_order };

    ghost coded = { array_code coded_ℕ };

    ghost use Rattle.judy_word.specs.WordArrays.{array_of};

    ghost view = { λ a. array_of a.array };
}

impl WordMap {
    /// The map without keys. It has no limit but 2^64 - 1, which memory ends before.
    pub fn unbounded(alloc: Global) -> WordMap
        ensures { result ≡ array.empty_array u64.MAX }
    {
        WordMap {
            array: JudyL::unbounded(alloc),
        }
    }

    /// The map of these pairs of a key and its value, whose keys strictly ascend. Its nodes are made once each.
    pub fn from_sorted(alloc: Global, pairs: &[(u64, u64)]) -> Result<WordMap, SortedError>
        ensures pairs { IfOk result (λ words. map.entries words.map ≡ pairs.now) }
        ensures limit { IfOk result (λ words. words.limit ≡ u64.MAX) }
        ensures sorted { OnOk result (IsSorted u64.MAX (keys_of pairs.now)) }
        ensures refused { IfErr result (IsFault u64.MAX (keys_of pairs.now)) }
    {
        let array = JudyL::from_sorted(alloc, u64::MAX, pairs)?;
        Ok(WordMap { array })
    }

    /// Gives a key a value, and answers whether it was absent. The error comes for an absent key alone:
    /// memory is wanting, or, which memory ends before, there are 2^64 - 1 keys. The map is as it was then.
    pub fn put(&mut self, i: u64, value: u64) -> Result<bool, AllocError>
        ensures accepted { OnOk result (IsFalse (array.is_full self.old i)) }
        ensures answer { IfOk result (λ added. added ≡ not (map.contains_key self.old.map i)) }
        ensures put { OnOk result
            (self.new ≡ array.with_map self.old (array.write self.old.map i value)) }
        ensures absent { OnErr result (map.get self.old.map i ≡ None) }
        ensures unchanged { OnErr result (self.new ≡ self.old) }
        ensures empty { self.old.map ≡ map.empty → IsOk result }
    {
        self.array.put(i, value).map_err(|_| AllocError)
    }

    /// Puts a key in with a value where it is absent, and answers whether it was. Errors as `put`.
    pub fn put_if_absent(&mut self, i: u64, value: u64) -> Result<bool, AllocError>
        ensures accepted { OnOk result (IsFalse (array.is_full self.old i)) }
        ensures answer { IfOk result (λ added. added ≡ not (map.contains_key self.old.map i)) }
        ensures put { OnOk result
            (self.new ≡ array.with_map self.old (with_new self.old.map i value)) }
        ensures absent { OnErr result (map.get self.old.map i ≡ None) }
        ensures unchanged { OnErr result (self.new ≡ self.old) }
        ensures empty { self.old.map ≡ map.empty → IsOk result }
    {
        self.array.put_if_absent(i, value).map_err(|_| AllocError)
    }

    /// The value of a key.
    pub fn get(&self, i: u64) -> Option<u64>
        ensures { result ≡ map.get self.now.map i }
    {
        self.array.get(i)
    }

    /// The slot of a key; `None` where it is absent.
    pub fn slot(&mut self, i: u64) -> Option<&mut u64>
        ensures* writes_back { sem 𝓛 (LendsSlot self.entry i result) }
        ensures value { option_copied_mut result ≡ map.get self.old.map i }
    {
        self.array.slot(i)
    }

    /// Takes a key out, and answers whether it was there.
    pub fn del(&mut self, i: u64) -> bool
        ensures answer { result ≡ map.contains_key self.old.map i }
        ensures deleted { self.new ≡ array.with_map self.old (array.del self.old.map i) }
    {
        self.array.del(i)
    }

    /// Takes a key out, and answers the value that it had; `None` where it was absent, and then nothing changes.
    pub fn remove(&mut self, i: u64) -> Option<u64>
        ensures answer { result ≡ map.get self.old.map i }
        ensures removed { self.new ≡ array.with_map self.old (array.del self.old.map i) }
        ensures absent { result ≡ None → self.new ≡ self.old }
    {
        self.array.remove(i)
    }

    /// How many keys there are.
    pub fn len(&self) -> u64
        ensures count { result ≡ map.len self.now.map }
        ensures within { result ≤ self.now.limit }
    {
        self.array.len()
    }

    /// Whether there is no key.
    pub fn is_empty(&self) -> bool
        ensures { IsTrue result ↔ (self.now.map ≡ map.empty) }
    {
        self.array.is_empty()
    }

    /// Puts a copy in the map's place, whose nodes take no more memory than the keys need. Where there is no memory for
    /// it, the map stays as it is.
    pub fn shrink(&mut self)
        ensures { self.new ≡ self.old }
    {
        if let Ok(copy) = self.array.try_clone() {
            self.array = copy;
        }
    }

    /// A law of every map: its limit, keys and values are words. It reads each key and value.
    pub fn array_law(&self)
        ensures { array.IsArray (array.judyl self.now) }
    {
        self.array.array_law();
    }

    /// All keys with their values, by ascending key, one after another.
    pub fn iter(&self) -> Entries<'_>
        ensures { result ≡ map.entries self.now.map }
    {
        self.array.iter()
    }

    /// The array that it is, which tells of its nodes too.
    pub fn array(&self) -> &JudyL
        ensures limit { result.now.limit ≡ self.now.limit }
        ensures map { result.now.map ≡ self.now.map }
    {
        &self.array
    }
}

impl<'a> IntoIterator for &'a WordMap {
    type Item = (u64, u64);

    type IntoIter = Entries<'a>;

    ghost into_iter_gives = { λ array entries. entries ≡ map.entries array.now.map };

    fn into_iter(self) -> Entries<'a> {
        self.iter()
    }
}
