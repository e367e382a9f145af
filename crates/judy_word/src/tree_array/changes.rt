//! Keys put in and taken out, and nodes made as small as their keys allow.

ghost use Rattle.std.specs.Prelude.{◌≡◌, ◌≤◌, not, true, false, OnOk, OnErr, IfOk, IfErr, IsOk, IsFalse};
ghost use Rattle.std.specs.FinMap as map;
ghost use Rattle.judy_model.specs.Arrays as array;
ghost use Rattle.judy_node.specs.Trees.{IsTight};
ghost use Rattle.judy_change.specs.Removals.{Has33};
ghost use Rattle.judy_word.specs.Held.{map_in, array_in, with_new, with_value};
ghost use Rattle.judy_word.specs.Refusals.{IsRefusal};

use crate::error::InsertError;
use crate::tree_array::TreeArray;
use judy_change::insert_with;
use judy_leaf::Words;
use judy_node::NodeOf;
use judy_unmetered::UNMETERED;
use std::alloc::AllocError;

// Gives a key a value by a change of the tree, which answers what is answered, and refuses a key that is absent from a
// full array.
macro_rules! put_by {
    ($array:ident, $answer:ident, $change:ident, $key:ident, $value:expr) => {{
        $array.root.law();
        if $array.is_full($key) {
            return Err(InsertError::Full);
        }
        let Ok($answer) = $change($array.alloc, &mut $array.root, $key, $value) else {
            return Err(InsertError::NoMemory);
        };
        Ok($answer)
    }};
}

pub(super) use put_by;

impl<V: Words + Drop> TreeArray<V> {
    // Whether a key is absent and there is no room for it.
    // Compiled into the inserts, which mostly compare two numbers by it.
    #[inline(always)]
    pub(crate) fn is_full(&self, key: u64) -> bool
        ensures { result ≡ array.is_full (array_in self.now) key }
    {
        self.len() == self.limit && !self.has(key)
    }

    /// Puts a key in, with the value 0 where keys have values, and answers whether it was absent; a key that is there
    /// stays as it is, and is never refused. An array never becomes loose by it.
    ///
    /// `Full` where the key is absent and there are as many keys as the limit. `NoMemory` only where it is absent and
    /// the array isn't full, and never where it is empty. Either leaves the array as it was, its nodes too.
    pub fn set(&mut self, key: u64) -> Result<bool, InsertError>
        requires one { V.WORDS ≤ 1 }
        ensures answer { IfOk result
            (λ added. added ≡ not (map.contains_key (map_in self.old) key)) }
        ensures set { OnOk result
            (array_in self.new ≡ array.with_map (array_in self.old)
            (array.ins (map_in self.old) key)) }
        ensures accepted { OnOk result (IsFalse (array.is_full (array_in self.old) key)) }
        ensures refused { IfErr result (IsRefusal (array_in self.old) key) }
        ensures unchanged { OnErr result (self.new ≡ self.old) }
        ensures present { IfOk result (λ added. added ≡ false → self.new ≡ self.old) }
        ensures loose { self.new.loose ≡ self.old.loose }
        ensures first { map_in self.old ≡ map.empty → IsOk result }
    {
        self.set_with(key, 0)
    }

    /// The same with the value that an absent key is to have, 0 where keys have no values; a key that is there keeps
    /// its own.
    #[inline(always)]
    pub fn set_with(&mut self, key: u64, value: u64) -> Result<bool, InsertError>
        requires one { V.WORDS ≤ 1 }
        requires no_value { V.WORDS ≡ 0 → value ≡ 0 }
        ensures answer { IfOk result
            (λ added. added ≡ not (map.contains_key (map_in self.old) key)) }
        ensures set { OnOk result
            (array_in self.new ≡ array.with_map (array_in self.old)
            (with_new (map_in self.old) key value)) }
        ensures accepted { OnOk result (IsFalse (array.is_full (array_in self.old) key)) }
        ensures refused { IfErr result (IsRefusal (array_in self.old) key) }
        ensures unchanged { OnErr result (self.new ≡ self.old) }
        ensures present { IfOk result (λ added. added ≡ false → self.new ≡ self.old) }
        ensures loose { self.new.loose ≡ self.old.loose }
        ensures first { map_in self.old ≡ map.empty → IsOk result }
    {
        put_by!(self, added, insert_with, key, value)
    }

    /// Gives a key a value, in an array whose keys have values, and answers whether it was absent. Refused as `set` is,
    /// and then the array is as it was; never where the key is there: then its value alone changes, and the nodes stay.
    #[inline(always)]
    pub fn put(&mut self, key: u64, value: u64) -> Result<bool, InsertError>
        requires words { V.WORDS ≡ 1 }
        ensures answer { IfOk result
            (λ added. added ≡ not (map.contains_key (map_in self.old) key)) }
        ensures put { OnOk result
            (array_in self.new ≡ array.with_map (array_in self.old)
            (array.write (map_in self.old) key value)) }
        ensures accepted { OnOk result (IsFalse (array.is_full (array_in self.old) key)) }
        ensures refused { IfErr result (IsRefusal (array_in self.old) key) }
        ensures unchanged { OnErr result (self.new ≡ self.old) }
        ensures present { IfOk result
            (λ added. added ≡ false → self.new ≡ with_value self.old key value) }
        ensures loose { self.new.loose ≡ self.old.loose }
        ensures first { map_in self.old ≡ map.empty → IsOk result }
    {
        Ok(self.insert(key, value)?.is_none())
    }

    /// Takes a key out, and answers whether it was there. It can't fail. The array becomes loose only where memory for
    /// a smaller node was refused, and so only where a node on the key's way held 33 keys.
    pub fn remove(&mut self, key: u64) -> bool
        requires one { V.WORDS ≤ 1 }
        ensures answer { result ≡ map.contains_key (map_in self.old) key }
        ensures removed { array_in self.new
            ≡ array.with_map (array_in self.old) (array.del (map_in self.old) key) }
        ensures absent { result ≡ false → self.new ≡ self.old }
        ensures loose { self.old.loose ≡ true → self.new.loose ≡ true }
        ensures loosened { self.old.loose ≡ false → self.new.loose ≡ true
            → Has33 8 self.old.tree.pairs key }
    {
        self.take(key).is_some()
    }

    /// Makes each node as small as its keys allow: from there on the array isn't loose. The error is want of memory;
    /// the array is the old one then. Where it isn't loose it asks for no memory.
    pub fn tidy(&mut self) -> Result<(), AllocError>
        requires one { V.WORDS ≤ 1 }
        ensures pairs { self.new.tree.pairs ≡ self.old.tree.pairs }
        ensures limit { self.new.limit ≡ self.old.limit }
        ensures tight { OnOk result (self.new.loose ≡ false) }
        ensures unchanged { OnErr result (self.new ≡ self.old) }
        ensures nothing_to_do { self.old.loose ≡ false → IsOk result }
        ensures same { self.old.loose ≡ false → self.new ≡ self.old }
    {
        if !self.loose {
            return Ok(());
        }
        self.root = self.tight_root()?;
        self.loose = false;
        Ok(())
    }

    // The tight tree of the keys with their values. The error is want of memory.
    fn tight_root(&self) -> Result<NodeOf<V>, AllocError>
        requires one { V.WORDS ≤ 1 }
        ensures pairs { IfOk result (λ tree. tree.pairs ≡ self.now.tree.pairs) }
        ensures tight { IfOk result (λ tree. IsTight tree) }
    {
        self.root.law();
        let pairs = self.root.gather(UNMETERED, self.alloc)?;
        NodeOf::from_sorted(self.alloc, &pairs)
    }

    /// An array of its own with the same limit, keys and values, each node as small as its keys allow. The error is
    /// want of memory. The nodes are copied one by one; those of a loose array are made anew, which takes 16 bytes a
    /// key meanwhile.
    pub fn try_clone(&self) -> Result<TreeArray<V>, AllocError>
        requires one { V.WORDS ≤ 1 }
        ensures same { IfOk result (λ copy. array_in copy ≡ array_in self.now) }
        ensures tight { IfOk result (λ copy. copy.loose ≡ false) }
    {
        let root = if self.loose {
            self.tight_root()?
        } else {
            self.root.try_clone(UNMETERED, self.alloc)?
        };
        Ok(TreeArray {
            limit: self.limit,
            root,
            loose: false,
            alloc: self.alloc,
        })
    }
}
