// The array that maps words to words.
ghost use Rattle.std.specs.Prelude.{◌≡◌, Some, None, not, true, false, IfOk, IsOk, IfSome, OnOk, OnErr, IfErr, IsTrue, IsFalse, length, map as mapped};
ghost use Rattle.std.specs.Borrow.{sem};
ghost use Rattle.std.specs.FinMap as map;
ghost use Rattle.std.specs.Option.{option_copied_mut, option_map};
ghost use Rattle.judy_model.specs.Arrays as array;
ghost use Rattle.judy_model.specs.Counts as counts;
ghost use Rattle.judy_model.specs.Neighbours as neighbours;
ghost use Rattle.judy_change.specs.Removals.{Has33};
ghost use Rattle.judy_word.specs.Held.{with_new};
ghost use Rattle.judy_word.specs.WordArrays.{array_of, no_keys, with_value};
ghost use Rattle.judy_word.specs.Refusals.{IsRefusal};
ghost use Rattle.judy_word.specs.Slots.{LendsSlot, LendsSlotOf, LendsIns};

mod nearest_slots;

use crate::error::InsertError;
use crate::tree_array::TreeArray;
use crate::word_array::WordArray;
use judy_leaf::ValueWords;
use std::alloc::{AllocError, Global};

/// An array that maps words to words: each key from 0 to 2^64 - 1 has at most one value, a word too.
/// It holds at most as many keys as its limit (limit: this project's own).
///
/// Contracts see its map with its nodes, and whether one of these may be larger than its keys need.
pub type JudyL = WordArray<ValueWords<1>>;

impl JudyL {
    /// The map of one key with its value, with the limit 2^64 - 1, which memory ends before. It asks for no memory.
    /// (This project's own: the first key of a map that is made, without a search.)
    pub fn of_one(alloc: Global, i: u64, value: u64) -> JudyL
        ensures put { array_of result
            ≡ array.with_map (array_of (no_keys u64.MAX)) (array.write map.empty i value) }
        ensures tight { result.loose ≡ false }
    {
        WordArray {
            tree: TreeArray::of_one(alloc, u64::MAX, i, value),
        }
    }

    /// The slot of the key `i`, which is put in with the value 0 where it is absent; a key that is there
    /// keeps its value, and is never refused. What the caller leaves in the slot is then the key's value; of a key that
    /// was there nothing else changes, the nodes neither. (Manual: JLI, JudyLIns.)
    ///
    /// `Full` where the key is absent and the array holds as many keys as its limit (limit: this project's
    /// own). `NoMemory` only where it is absent and the array isn't full, and never where it is empty. Either leaves
    /// the array as it was.
    pub fn ins(&mut self, i: u64) -> Result<&mut u64, InsertError>
        ensures* writes_back { sem 𝓛 (LendsIns self.entry i result) }
        ensures value { IfOk result (λ slot. Some slot.now ≡ map.get (array.ins self.old.map i) i) }
        ensures accepted { OnOk result (IsFalse (array.is_full (array_of self.old) i)) }
        ensures refused { IfErr result (IsRefusal (array_of self.old) i) }
        ensures empty { self.old.map ≡ map.empty → IsOk result }
    {
        self.tree.set(i)?;
        self.tree.law();
        Ok(self.tree.slot_of(i))
    }

    /// Gives the key `i` a value, and answers the value that was there; `None` where the key was absent, and was put
    /// in. It takes one way down the tree, and where the key was there no node changes. (This project's own: a map's
    /// insert that tells the old value.)
    ///
    /// `Full` and `NoMemory` as `ins`. Either leaves the array as it was.
    pub fn insert(&mut self, i: u64, value: u64) -> Result<Option<u64>, InsertError>
        ensures answer { IfOk result (λ was. was ≡ map.get self.old.map i) }
        ensures put { OnOk result
            (array_of self.new ≡ array.with_map (array_of self.old)
            (array.write self.old.map i value)) }
        ensures present { IfOk result
            (λ was. IfSome was (λ _. self.new ≡ with_value self.old i value)) }
        ensures accepted { OnOk result (IsFalse (array.is_full (array_of self.old) i)) }
        ensures refused { IfErr result (IsRefusal (array_of self.old) i) }
        ensures unchanged { OnErr result (self.new ≡ self.old) }
        ensures loose { self.new.loose ≡ self.old.loose }
        ensures empty { self.old.map ≡ map.empty → IsOk result }
    {
        self.tree.law();
        self.tree.insert(i, value)
    }

    /// Gives the key `i` a value, and answers whether it was absent: `insert` without the value that was there. It
    /// takes one way down the tree, where `ins` takes a second one for the slot. At a key that is there the value alone
    /// changes, and the nodes stay.
    ///
    /// `Full` and `NoMemory` as `ins`. Either leaves the array as it was.
    // Compiled into its callers, as what it calls is: two of them would share one function else, which a small array
    // pays a call for.
    #[inline(always)]
    pub fn put(&mut self, i: u64, value: u64) -> Result<bool, InsertError>
        ensures answer { IfOk result (λ added. added ≡ not (map.contains_key self.old.map i)) }
        ensures put { OnOk result
            (array_of self.new ≡ array.with_map (array_of self.old)
            (array.write self.old.map i value)) }
        ensures accepted { OnOk result (IsFalse (array.is_full (array_of self.old) i)) }
        ensures refused { IfErr result (IsRefusal (array_of self.old) i) }
        ensures unchanged { OnErr result (self.new ≡ self.old) }
        ensures present { IfOk result
            (λ added. added ≡ false → self.new ≡ with_value self.old i value) }
        ensures loose { self.new.loose ≡ self.old.loose }
        ensures empty { self.old.map ≡ map.empty → IsOk result }
    {
        self.tree.law();
        self.tree.put(i, value)
    }

    /// Puts the key `i` in with a value where it is absent, and answers whether it was; a key that is there keeps its
    /// own value, and is never refused. One way down the tree serves both. (This project's own: a map's insert by its
    /// entry.)
    ///
    /// `Full` and `NoMemory` as `ins`. Either leaves the array as it was.
    pub fn put_if_absent(&mut self, i: u64, value: u64) -> Result<bool, InsertError>
        ensures answer { IfOk result (λ added. added ≡ not (map.contains_key self.old.map i)) }
        ensures put { OnOk result
            (array_of self.new ≡ array.with_map (array_of self.old)
            (with_new self.old.map i value)) }
        ensures accepted { OnOk result (IsFalse (array.is_full (array_of self.old) i)) }
        ensures refused { IfErr result (IsRefusal (array_of self.old) i) }
        ensures unchanged { OnErr result (self.new ≡ self.old) }
        ensures present { IfOk result (λ added. added ≡ false → self.new ≡ self.old) }
        ensures loose { self.new.loose ≡ self.old.loose }
        ensures empty { self.old.map ≡ map.empty → IsOk result }
    {
        self.tree.set_with(i, value)
    }

    /// The value of the key `i`, and `None` where it is absent. (Manual: JLG, JudyLGet.)
    #[inline(always)]
    pub fn get(&self, i: u64) -> Option<u64>
        ensures { result ≡ map.get self.now.map i }
    {
        self.tree.get(i)
    }

    /// The values of keys, each written to the place of its key: what `get` answers of it, so `None` where it is
    /// absent. The ways of up to 16 keys go down side by side, and wait for memory together. (This project's own.)
    pub fn get_many(&self, keys: &[u64], values: &mut [Option<u64>])
        requires { length values.old ≡ length keys.now }
        ensures { values.new ≡ mapped (λ i. map.get self.now.map i) keys.now }
    {
        self.tree.get_many(keys, values);
    }

    /// The slot of the key `i`, and `None` where it is absent. What the caller leaves in the slot is then the
    /// key's value. (Manual: JLG, JudyLGet, whose answer is this slot.)
    pub fn slot(&mut self, i: u64) -> Option<&mut u64>
        ensures* writes_back { sem 𝓛 (LendsSlot self.entry i result) }
        ensures value { option_copied_mut result ≡ map.get self.old.map i }
    {
        self.tree.slot(i)
    }

    // The slot of a key that is there.
    // Compiled into the searches that found the key, as the way down is.
    #[inline(always)]
    pub(crate) fn slot_of(&mut self, i: u64) -> &mut u64
        requires present { IsTrue (map.contains_key self.old.map i) }
        ensures* writes_back { sem 𝓛 (LendsSlotOf self.entry i result) }
        ensures value { Some result.now ≡ map.get self.old.map i }
    {
        self.tree.slot_of(i)
    }

    /// Takes the key `i` out, and answers the value that it had; `None` where it was absent, and then nothing changes.
    /// It takes one way down the tree. It can't fail: where memory for a smaller node is refused, the larger one stays.
    /// (This project's own: a map's removal that tells the old value.)
    pub fn remove(&mut self, i: u64) -> Option<u64>
        ensures answer { result ≡ map.get self.old.map i }
        ensures removed { array_of self.new
            ≡ array.with_map (array_of self.old) (array.del self.old.map i) }
        ensures absent { result ≡ None → self.new ≡ self.old }
        ensures loose { self.old.loose ≡ true → self.new.loose ≡ true }
        ensures loosened { self.old.loose ≡ false → self.new.loose ≡ true
            → Has33 8 (map.entries self.old.map) i }
    {
        self.tree.law();
        self.tree.take(i)
    }

    /// Takes the key `i` out, and answers whether it was there: `remove` without the value. It can't fail: where memory
    /// for a smaller node is refused, the larger one stays. (Manual: JLD, JudyLDel.)
    pub fn del(&mut self, i: u64) -> bool
        ensures answer { result ≡ map.contains_key self.old.map i }
        ensures deleted { array_of self.new
            ≡ array.with_map (array_of self.old) (array.del self.old.map i) }
        ensures absent { result ≡ false → self.new ≡ self.old }
        ensures loose { self.old.loose ≡ true → self.new.loose ≡ true }
        ensures loosened { self.old.loose ≡ false → self.new.loose ≡ true
            → Has33 8 (map.entries self.old.map) i }
    {
        self.remove(i).is_some()
    }

    /// A law of every array that a program holds, whatever was left in its slots: its limit, keys and values
    /// are words, and it holds at most as many keys as its limit. It answers nothing and reads each key and
    /// value, for a caller whose proof is to know it.
    pub fn array_law(&self)
        ensures { array.IsArray (array.judyl (array_of self.now)) }
    {
        self.tree.array_law();
    }

    /// The least key from `i` on with its value, in one way down the tree. `None` where no key is left. (Manual: JLF,
    /// JudyLFirst, which gives both.)
    // As `first`.
    #[inline(always)]
    pub fn first_entry(&self, i: u64) -> Option<(u64, u64)>
        ensures key { option_map (λ entry. entry.0) result ≡ neighbours.first self.now.map i }
        ensures value { IfSome result (λ entry. map.get self.now.map entry.0 ≡ Some entry.1) }
    {
        self.tree.first_entry(i)
    }

    /// The least key above `i` with its value; `None` where no key is above it. (Manual: JLN, JudyLNext, which gives
    /// both.)
    // As `first`.
    #[inline(always)]
    pub fn next_entry(&self, i: u64) -> Option<(u64, u64)>
        ensures key { option_map (λ entry. entry.0) result ≡ neighbours.next self.now.map i }
        ensures value { IfSome result (λ entry. map.get self.now.map entry.0 ≡ Some entry.1) }
    {
        self.tree.next_entry(i)
    }

    /// The greatest key up to `i` with its value; `None` where each key is above it. (Manual: JLL, JudyLLast, which
    /// gives both.)
    pub fn last_entry(&self, i: u64) -> Option<(u64, u64)>
        ensures key { option_map (λ entry. entry.0) result ≡ neighbours.last self.now.map i }
        ensures value { IfSome result (λ entry. map.get self.now.map entry.0 ≡ Some entry.1) }
    {
        self.tree.last_entry(i)
    }

    /// The greatest key below `i` with its value; `None` where no key is below it. (Manual: JLP, JudyLPrev, which gives
    /// both.)
    pub fn prev_entry(&self, i: u64) -> Option<(u64, u64)>
        ensures key { option_map (λ entry. entry.0) result ≡ neighbours.prev self.now.map i }
        ensures value { IfSome result (λ entry. map.get self.now.map entry.0 ≡ Some entry.1) }
    {
        self.tree.prev_entry(i)
    }

    /// The value of `i`, as `get`, and the least key above it with its value, as `next_entry`, in one way down the
    /// tree. (This project's own.)
    // As `first`.
    #[inline(always)]
    pub fn around(&self, i: u64) -> (Option<u64>, Option<(u64, u64)>)
        ensures found { result.0 ≡ map.get self.now.map i }
        ensures key { option_map (λ entry. entry.0) result.1 ≡ neighbours.next self.now.map i }
        ensures value { IfSome result.1 (λ entry. map.get self.now.map entry.0 ≡ Some entry.1) }
    {
        self.tree.around(i)
    }

    /// The `n`-th key in ascending order, counted from 1, with its value; `None` for 0, and for an `n` above the number
    /// of keys (both corners are this project's own). (Manual: JLBC, JudyLByCount, which gives both.)
    pub fn by_count_entry(&self, n: u64) -> Option<(u64, u64)>
        ensures key { option_map (λ entry. entry.0) result ≡ counts.by_count self.now.map n }
        ensures value { IfSome result (λ entry. map.get self.now.map entry.0 ≡ Some entry.1) }
    {
        self.tree.by_count_entry(n)
    }

    /// Makes each node as small as its keys allow, so that the array isn't loose from there on; keys, values and limit
    /// stay. The error is want of memory, which comes only where it is loose; it is as it was then, its nodes too.
    pub fn tidy(&mut self) -> Result<(), AllocError>
        ensures kept { array_of self.new ≡ array_of self.old }
        ensures tight { OnOk result (self.new.loose ≡ false) }
        ensures unchanged { OnErr result (self.new ≡ self.old) }
        ensures nothing_to_do { self.old.loose ≡ false → IsOk result }
        ensures same { self.old.loose ≡ false → self.new ≡ self.old }
    {
        self.tree.tidy()
    }

    /// An array of its own with the same limit and keys with their values, each node as small as these allow. The error
    /// is want of memory. The nodes are copied one by one; those of a loose array are made anew.
    pub fn try_clone(&self) -> Result<JudyL, AllocError>
        ensures same { IfOk result (λ copy. array_of copy ≡ array_of self.now) }
        ensures tight { IfOk result (λ copy. copy.loose ≡ false) }
    {
        Ok(JudyL {
            tree: self.tree.try_clone()?,
        })
    }
}
