//! An array of words over a tree: what the public arrays are made of.

ghost use Rattle.std.specs.Prelude.{◌≡◌, ◌≢◌, ◌≤◌, ◌↔◌, false, length, IsTrue, IsFalse, OnOk, OnErr, IsOk};
ghost use Rattle.std.specs.FinMap as map;
ghost use Rattle.judy_model.specs.Forms.{shape_in};
ghost use Rattle.judy_model.specs.Shapes.{shape_of};
ghost use Rattle.judy_node.specs.ShapeSums.{shape_as};
ghost use Rattle.judy_node.specs.Roots.{one_tree};
ghost use Rattle.judy_node.specs.Trees.{IsTight};
ghost use Rattle.judy_word.specs.Held.{map_in, nothing_held, IsHeld};

use judy_leaf::Words;
use judy_node::{NodeOf, RootOf, Shape};
use judy_unmetered::UNMETERED;
use std::alloc::Global;
use std::marker::Model;

mod changes;
mod counts;
mod empties;
mod entries;
mod fronts;
mod kept;
mod ranges;
mod slots;
mod sorted;
mod values;

pub use entries::TreeEntries;
pub(crate) use fronts::set_all;

/// An array of words over a tree, with `V` words of value a key, none or one: a set or a map. It holds at most as many
/// keys as its limit. To its callers it is that limit, its tree with all nodes, and whether the tree may have a node
/// that is larger than its keys need.
pub struct TreeArray<V: Words + Drop> {
    limit: u64,
    root: NodeOf<V>,
    loose: bool,
    alloc: Global,
}

impl<V: Words + Drop> Model for TreeArray<V> {
    ghost use Rattle.judy_word.specs.Held.{Held, IsBounded};

    ghost Value = { Held };

    ghost view = { λ a. record { limit = a.limit; tree = a.root; loose = a.loose } };

    ghost invariant = { λ a. IsBounded a.limit a.root a.loose };
}

// Written out, so that whoever lets an array go makes one call, whatever its root is.
impl<V: Words + Drop> Drop for TreeArray<V> {
    fn drop(self) {
        let TreeArray {
            limit: _,
            root: _root,
            loose: _,
            alloc: _,
        } = self;
    }
}

impl<V: Words + Drop> TreeArray<V> {
    /// The array without keys, with that limit, which is at least 1. It asks for no memory.
    pub fn new(alloc: Global, limit: u64) -> TreeArray<V>
        requires { 1 ≤ limit }
        ensures { result ≡ nothing_held limit }
    {
        TreeArray {
            limit,
            root: NodeOf::empty(),
            loose: false,
            alloc,
        }
    }

    /// The array with a limit, at least 1, of a tree whose nodes are as small as its keys allow, which are no more than
    /// the limit.
    pub fn of_root(alloc: Global, limit: u64, root: NodeOf<V>) -> TreeArray<V>
        requires some { 1 ≤ limit }
        requires within { length root.pairs ≤ limit }
        requires tight { IsTight root }
        ensures { result ≡ record { limit = limit; tree = root; loose = false } }
    {
        TreeArray {
            limit,
            root,
            loose: false,
            alloc,
        }
    }

    /// The array of one key with its value, which is 0 where keys have no values. The limit is at least 1. It asks for
    /// no memory.
    pub fn of_one(alloc: Global, limit: u64, key: u64, value: u64) -> TreeArray<V>
        requires some { 1 ≤ limit }
        requires one { V.WORDS ≤ 1 }
        requires no_value { V.WORDS ≡ 0 → value ≡ 0 }
        ensures { result ≡ record { limit = limit; tree = one_tree key value; loose = false } }
    {
        TreeArray {
            limit,
            root: NodeOf::close(RootOf::One(key, value)),
            loose: false,
            alloc,
        }
    }

    /// A law without a body, what every array keeps: its tree is one of words, it holds no more keys than its limit,
    /// and where it isn't loose, no node of its tree is.
    pub fn law(&self)
        ensures { IsHeld V.WORDS self.now }
    {
        self.root.law();
    }

    /// How many keys it may hold: at least 1.
    pub fn limit(&self) -> u64
        ensures value { result ≡ self.now.limit }
        ensures some { 1 ≤ result }
    {
        self.limit
    }

    /// How many keys it holds.
    pub fn len(&self) -> u64
        ensures count { result ≡ map.len (map_in self.now) }
        ensures within { result ≤ self.now.limit }
    {
        self.root.law();
        self.root.pop()
    }

    /// Whether it holds no key.
    pub fn is_empty(&self) -> bool
        ensures { IsTrue result ↔ (map_in self.now ≡ map.empty) }
    {
        self.len() == 0
    }

    /// The tree.
    pub fn root(&self) -> &NodeOf<V>
        ensures { result.now ≡ self.now.tree }
    {
        &self.root
    }

    /// Whether a node may be larger than its keys need, since memory for a smaller one was refused to a removal.
    pub fn is_loose(&self) -> bool
        ensures { result ≡ self.now.loose }
    {
        self.loose
    }

    /// How many nodes of each kind there are: where it isn't loose, as many as the rule gives its keys.
    pub fn shape(&self) -> Shape
        ensures nodes { shape_as result ≡ shape_in self.now.tree.form }
        ensures rule { self.now.loose ≡ false
            → shape_as result ≡ shape_of V.WORDS (map.keys (map_in self.now)) }
    {
        self.law();
        self.root.shape(UNMETERED)
    }

    /// Takes every key out, gives their memory back, and answers how many they were. The limit stays.
    pub fn free_array(&mut self) -> u64
        ensures freed { result ≡ map.len (map_in self.old) }
        ensures emptied { self.new ≡ nothing_held self.old.limit }
    {
        let freed = self.len();
        self.root = NodeOf::empty();
        self.loose = false;
        freed
    }
}
