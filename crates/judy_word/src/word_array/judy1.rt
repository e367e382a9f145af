// The array that is a set of words.
ghost use Rattle.std.specs.Prelude.{◌≡◌, not, true, false, IfOk, IsOk, OnOk, IfErr, OnErr, IsFalse, length, map as mapped};
ghost use Rattle.std.specs.FinMap as map;
ghost use Rattle.judy_model.specs.Arrays as array;
ghost use Rattle.judy_change.specs.Removals.{Has33};
ghost use Rattle.judy_word.specs.WordArrays.{array_of, no_keys};
ghost use Rattle.judy_word.specs.Refusals.{IsRefusal};
ghost use Rattle.judy_word.specs.Sets.{IsSet};

use crate::error::InsertError;
use crate::tree_array::TreeArray;
use crate::word_array::WordArray;
use judy_leaf::ValueWords;
use std::alloc::{AllocError, Global};

/// A set of words: each from 0 to 2^64 - 1 is a key or none. It holds at most as many keys as its limit
/// (limit: this project's own).
///
/// Contracts see it as the array whose every value is 0 (`test` and `len` say so), with its nodes and whether one may
/// be larger than its keys need.
pub type Judy1 = WordArray<ValueWords<0>>;

impl Judy1 {
    /// The set of one key, with the limit 2^64 - 1, which memory ends before. It asks for no memory. (This project's
    /// own: the first key of a set that is made, without a search.)
    pub fn of_one(alloc: Global, i: u64) -> Judy1
        ensures set { array_of result
            ≡ array.with_map (array_of (no_keys u64.MAX)) (array.ins map.empty i) }
        ensures tight { result.loose ≡ false }
    {
        WordArray {
            tree: TreeArray::of_one(alloc, u64::MAX, i, 0),
        }
    }

    /// Puts the key `i` in, and answers whether it was absent; a key that is there stays, and is never
    /// refused. (Manual: J1S, Judy1Set.)
    ///
    /// `Full` where the key is absent and the set holds as many keys as its limit (limit: this project's
    /// own). `NoMemory` only where it is absent and the set isn't full, and never where it is empty. Either leaves the
    /// set as it was.
    pub fn set(&mut self, i: u64) -> Result<bool, InsertError>
        ensures answer { IfOk result (λ added. added ≡ not (map.contains_key self.old.map i)) }
        ensures set { OnOk result
            (array_of self.new ≡ array.with_map (array_of self.old) (array.ins self.old.map i)) }
        ensures accepted { OnOk result (IsFalse (array.is_full (array_of self.old) i)) }
        ensures refused { IfErr result (IsRefusal (array_of self.old) i) }
        ensures unchanged { OnErr result (self.new ≡ self.old) }
        ensures present { IfOk result (λ added. added ≡ false → self.new ≡ self.old) }
        ensures loose { self.new.loose ≡ self.old.loose }
        ensures empty { self.old.map ≡ map.empty → IsOk result }
    {
        self.tree.set(i)
    }

    /// Takes the key `i` out, and answers whether it was there. It can't fail: where memory for a smaller node is
    /// refused, the larger one stays. (Manual: J1U, Judy1Unset.)
    pub fn unset(&mut self, i: u64) -> bool
        ensures answer { result ≡ map.contains_key self.old.map i }
        ensures unset { array_of self.new
            ≡ array.with_map (array_of self.old) (array.del self.old.map i) }
        ensures absent { result ≡ false → self.new ≡ self.old }
        ensures loose { self.old.loose ≡ true → self.new.loose ≡ true }
        ensures loosened { self.old.loose ≡ false → self.new.loose ≡ true
            → Has33 8 (map.entries self.old.map) i }
    {
        self.tree.law();
        self.tree.remove(i)
    }

    /// Whether the key `i` is there. (Manual: J1T, Judy1Test.)
    #[inline(always)]
    pub fn test(&self, i: u64) -> bool
        ensures answer { result ≡ map.contains_key self.now.map i }
        ensures zeros { IsSet (array_of self.now) }
    {
        self.tree.law();
        self.tree.get(i).is_some()
    }

    /// Whether keys are there, each told at the place of its key: what `test` answers of it. The ways of up to 16 keys
    /// go down side by side, and wait for memory together. (This project's own.)
    pub fn test_many(&self, keys: &[u64], there: &mut [bool])
        requires { length there.old ≡ length keys.now }
        ensures { there.new ≡ mapped (λ i. map.contains_key self.now.map i) keys.now }
    {
        self.tree.has_many(keys, there);
    }

    /// A law of every set that a program holds: its limit and keys are words, and it holds at most as many
    /// keys as its limit. It answers nothing and reads each key, for a caller whose proof is to know it.
    pub fn array_law(&self)
        ensures { array.IsArray (array.judy1 (array_of self.now)) }
    {
        self.tree.law();
        self.tree.array_law();
    }

    /// Makes each node as small as its keys allow, so that the set isn't loose from there on; keys and limit stay. The
    /// error is want of memory, which comes only where it is loose; it is as it was then, its nodes too.
    pub fn tidy(&mut self) -> Result<(), AllocError>
        ensures kept { array_of self.new ≡ array_of self.old }
        ensures tight { OnOk result (self.new.loose ≡ false) }
        ensures unchanged { OnErr result (self.new ≡ self.old) }
        ensures nothing_to_do { self.old.loose ≡ false → IsOk result }
        ensures same { self.old.loose ≡ false → self.new ≡ self.old }
    {
        self.tree.tidy()
    }

    /// A set of its own with the same limit and keys, each node as small as these allow. The error is want of memory.
    /// The nodes are copied one by one; those of a loose set are made anew.
    pub fn try_clone(&self) -> Result<Judy1, AllocError>
        ensures same { IfOk result (λ copy. array_of copy ≡ array_of self.now) }
        ensures tight { IfOk result (λ copy. copy.loose ≡ false) }
    {
        Ok(Judy1 {
            tree: self.tree.try_clone()?,
        })
    }
}
