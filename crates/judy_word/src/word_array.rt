//! An array over words as its callers have it: a set of words and a map from words, with what both have alike.

ghost use Rattle.std.specs.Prelude.{◌≡◌, ◌+◌, ◌≤◌, ◌↔◌, true, false, length, IsTrue};
ghost use Rattle.std.specs.FinMap as map;
ghost use Rattle.judy_model.specs.Arrays as array;
ghost use Rattle.judy_model.specs.Counts as counts;
ghost use Rattle.judy_model.specs.Neighbours as neighbours;
ghost use Rattle.judy_model.specs.Empties as empties;
ghost use Rattle.judy_model.specs.Ranges as ranges;
ghost use Rattle.judy_model.specs.Forms.{loose_in, shape_in};
ghost use Rattle.judy_model.specs.Shapes.{form_of, shape_of};
ghost use Rattle.judy_node.specs.ShapeSums.{shape_as};
ghost use Rattle.judy_node.specs.Trees.{IsTight};
ghost use Rattle.judy_change.specs.Removals.{Has33};
ghost use Rattle.judy_query.specs.Maps.{map_of};
ghost use Rattle.judy_word.specs.WordArrays.{array_of, no_keys, seen_as};
ghost use Rattle.judy_word.specs.Sets.{IsSet};

mod judy1;
mod judyl;

use crate::tree_array::TreeArray;
use judy_leaf::Words;
use judy_node::{NodeOf, Shape};
pub use judy1::Judy1;
pub use judyl::JudyL;
use std::alloc::Global;
use std::marker::Model;

/// An array over words with `V` words of value a key: none is a [`Judy1`], and one a [`JudyL`]. Each word from 0 to
/// 2^64 - 1 is a key or none. It holds at most as many keys as its limit (limit: this project's own).
///
/// Contracts see its map with its nodes, and whether one of these may be larger than its keys need.
#[derive(Drop)]
pub struct WordArray<V: Words + Drop> {
    tree: TreeArray<V>,
}

impl<V: Words + Drop> Model for WordArray<V> {
    ghost use Rattle.judy_word.specs.WordArrays.{WordArray, seen_as};
    ghost use Rattle.judy_word.specs.Codes.{word_array_code};

    ghost Value = { WordArray };

    ghost coded = { word_array_code };

    ghost view = { λ a. seen_as a.tree };
}

impl<V: Words + Drop> WordArray<V> {
    /// The empty array that holds at most `limit` keys, from 1 to 4,294,967,295 (limit: this project's own).
    /// It asks for no memory before the first key.
    pub fn new(alloc: Global, limit: u64) -> WordArray<V>
        requires some { 1 ≤ limit }
        requires most { limit ≤ 4294967295 }
        ensures { result ≡ no_keys limit }
    {
        WordArray {
            tree: TreeArray::new(alloc, limit),
        }
    }

    /// The empty array with the limit 2^64 - 1, which memory ends before: for what is built of such arrays.
    pub fn unbounded(alloc: Global) -> WordArray<V>
        ensures { result ≡ no_keys u64.MAX }
    {
        WordArray {
            tree: TreeArray::new(alloc, u64::MAX),
        }
    }

    /// How many keys the array holds from `a` to `b`, both included; 0 where `a` is above `b` (that corner is
    /// this project's own). `count(0, u64::MAX)` counts all. (Manual: J1C and JLC, Judy1Count and JudyLCount.)
    pub fn count(&self, a: u64, b: u64) -> u64
        ensures { result ≡ counts.count self.now.map a b }
    {
        self.tree.count(a, b)
    }

    /// The `n`-th key in ascending order, counted from 1; `None` for 0, and for an `n` above the number of
    /// keys (both corners are this project's own). (Manual: J1BC and JLBC, Judy1ByCount and JudyLByCount.)
    pub fn by_count(&self, n: u64) -> Option<u64>
        ensures { result ≡ counts.by_count self.now.map n }
    {
        self.tree.by_count(n)
    }

    // Each neighbour is asked for with its value, which isn't read where nobody asks for it.

    /// The least key from `i` on: `i` itself where it is there. `None` where no key is left.
    /// (Manual: J1F and JLF, Judy1First and JudyLFirst.)
    // Compiled into the caller, as the search is: the answer doesn't go through memory then.
    #[inline(always)]
    pub fn first(&self, i: u64) -> Option<u64>
        ensures { result ≡ neighbours.first self.now.map i }
    {
        let (key, _) = self.tree.first_entry(i)?;
        Some(key)
    }

    /// The least key above `i`; `None` where no key is above it, so always above the word 2^64 - 1.
    /// (Manual: J1N and JLN, Judy1Next and JudyLNext.)
    // As `first`.
    #[inline(always)]
    pub fn next(&self, i: u64) -> Option<u64>
        ensures { result ≡ neighbours.next self.now.map i }
    {
        let (key, _) = self.tree.next_entry(i)?;
        Some(key)
    }

    /// The greatest key up to `i`: `i` itself where it is there. `None` where each key is above it.
    /// (Manual: J1L and JLL, Judy1Last and JudyLLast.)
    pub fn last(&self, i: u64) -> Option<u64>
        ensures { result ≡ neighbours.last self.now.map i }
    {
        let (key, _) = self.tree.last_entry(i)?;
        Some(key)
    }

    /// The greatest key below `i`; `None` where no key is below it, so always below 0.
    /// (Manual: J1P and JLP, Judy1Prev and JudyLPrev.)
    pub fn prev(&self, i: u64) -> Option<u64>
        ensures { result ≡ neighbours.prev self.now.map i }
    {
        let (key, _) = self.tree.prev_entry(i)?;
        Some(key)
    }

    /// The least word from `i` on that is no key: `i` itself where it is absent. `None` where each word from
    /// `i` to 2^64 - 1 is a key. (Manual: J1FE and JLFE, Judy1FirstEmpty and JudyLFirstEmpty.)
    pub fn first_empty(&self, i: u64) -> Option<u64>
        ensures { result ≡ empties.first_empty self.now.map i }
    {
        self.tree.first_empty(i)
    }

    /// The least word above `i` that is no key; `None` where each word above it is a key, so always above
    /// 2^64 - 1. (Manual: J1NE and JLNE, Judy1NextEmpty and JudyLNextEmpty.)
    pub fn next_empty(&self, i: u64) -> Option<u64>
        ensures { result ≡ empties.next_empty self.now.map i }
    {
        self.tree.next_empty(i)
    }

    /// The greatest word up to `i` that is no key: `i` itself where it is absent. `None` where each word from
    /// `i` down to 0 is a key. (Manual: J1LE and JLLE, Judy1LastEmpty and JudyLLastEmpty.)
    pub fn last_empty(&self, i: u64) -> Option<u64>
        ensures { result ≡ empties.last_empty self.now.map i }
    {
        self.tree.last_empty(i)
    }

    /// The greatest word below `i` that is no key; `None` where each word below it is a key, so always below
    /// 0. (Manual: J1PE and JLPE, Judy1PrevEmpty and JudyLPrevEmpty.)
    pub fn prev_empty(&self, i: u64) -> Option<u64>
        ensures { result ≡ empties.prev_empty self.now.map i }
    {
        self.tree.prev_empty(i)
    }

    /// How many keys the array holds: at most its limit. (Manual: J1C and JLC, Judy1Count and JudyLCount, over all
    /// keys.)
    pub fn len(&self) -> u64
        ensures count { result ≡ map.len self.now.map }
        ensures within { result ≤ self.now.limit }
        ensures zeros { V.WORDS ≡ 0 → IsSet (array_of self.now) }
    {
        self.tree.law();
        self.tree.len()
    }

    /// Whether the array holds no key.
    pub fn is_empty(&self) -> bool
        ensures { IsTrue result ↔ (self.now.map ≡ map.empty) }
    {
        self.tree.is_empty()
    }

    /// How many keys the array may hold: at least 1 (limit: this project's own).
    pub fn limit(&self) -> u64
        ensures value { result ≡ self.now.limit }
        ensures some { 1 ≤ result }
    {
        self.tree.limit()
    }

    /// Takes every key out, gives their memory back, and answers how many they were. The array keeps its
    /// limit and may be used again. (Manual: J1FA and JLFA, Judy1FreeArray and JudyLFreeArray, which answers the bytes
    /// freed.)
    pub fn free_array(&mut self) -> u64
        ensures freed { result ≡ map.len self.old.map }
        ensures emptied { self.new ≡ no_keys self.old.limit }
    {
        self.tree.free_array()
    }

    /// Takes the key `i` out, where it is there: what [`Judy1::unset`] and [`JudyL::del`] do, for code over both. It
    /// can't fail: where memory for a smaller node is refused, the larger one stays.
    pub fn delete(&mut self, i: u64)
        requires { V.WORDS ≤ 1 }
        ensures deleted { array_of self.new
            ≡ array.with_map (array_of self.old) (array.del self.old.map i) }
        ensures absent { map.contains_key self.old.map i ≡ false → self.new ≡ self.old }
        ensures loose { self.old.loose ≡ true → self.new.loose ≡ true }
        ensures loosened { self.old.loose ≡ false → self.new.loose ≡ true
            → Has33 8 (map.entries self.old.map) i }
    {
        self.tree.law();
        self.tree.remove(i);
    }

    /// Takes the key `i` out, where it is there, and with it other keys from `from` to `to`, between which `i` lies:
    /// all of a node with that key, where the node has none but such keys. It answers how many went. It is a step of
    /// those that take all keys of a range out, and can't fail: where memory for a smaller node is refused, the larger
    /// one stays.
    pub fn delete_within(&mut self, i: u64, from: u64, to: u64) -> u64
        requires one { V.WORDS ≤ 1 }
        requires low { from ≤ i }
        requires high { i ≤ to }
        ensures limit { self.new.limit ≡ self.old.limit }
        ensures outside { ranges.outside self.new.map from to
            ≡ ranges.outside self.old.map from to }
        ensures count { map.len self.new.map + result ≡ map.len self.old.map }
        ensures some { result ≡ 0 → map.contains_key self.old.map i ≡ false }
    {
        self.tree.remove_within(i, from, to)
    }

    /// The array with a limit, at least 1, of a tree whose nodes are as small as its keys allow, which are no more than
    /// the limit: for what makes a tree of two.
    pub fn of_root(alloc: Global, limit: u64, root: NodeOf<V>) -> WordArray<V>
        requires some { 1 ≤ limit }
        requires within { length root.pairs ≤ limit }
        requires tight { IsTight root }
        ensures limit { result.limit ≡ limit }
        ensures map { result.map ≡ map_of root.pairs }
        ensures tight { result.loose ≡ false }
    {
        WordArray {
            tree: TreeArray::of_root(alloc, limit, root),
        }
    }

    // The array that is made of it.
    pub(crate) fn of(tree: TreeArray<V>) -> WordArray<V>
        ensures { result ≡ seen_as tree }
    {
        WordArray { tree }
    }

    // What it is made of.
    pub(crate) fn tree(&self) -> &TreeArray<V>
        ensures { self.now ≡ seen_as result.now }
    {
        &self.tree
    }

    /// The root of the tree, which holds the keys, loose or not: its nodes are those of the array.
    pub fn root(&self) -> &NodeOf<V>
        ensures keys { map_of result.now.pairs ≡ self.now.map }
        ensures nodes { result.now.form ≡ self.now.form }
    {
        self.tree.root()
    }

    /// Whether a node may be larger than its keys need, since memory for a smaller one was refused to a delete. Where
    /// it is false no node is, and the nodes are those that the rule gives the keys.
    pub fn is_loose(&self) -> bool
        ensures told { result ≡ self.now.loose }
        ensures tight { result ≡ false → loose_in self.now.form ≡ 0 }
        ensures rule { result ≡ false → self.now.form ≡ form_of V.WORDS 8 (map.keys self.now.map) }
    {
        self.tree.law();
        self.tree.is_loose()
    }

    /// How many nodes of each kind there are, counted in the tree of `root`: where the array isn't loose, as many as
    /// the rule gives its keys.
    pub fn shape(&self) -> Shape
        ensures nodes { shape_as result ≡ shape_in self.now.form }
        ensures rule { self.now.loose ≡ false
            → shape_as result ≡ shape_of V.WORDS (map.keys self.now.map) }
    {
        self.tree.shape()
    }
}
