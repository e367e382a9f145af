//! The array that maps byte strings to words.

ghost use Rattle.std.specs.Prelude.{◌≡◌, ◌≤◌, ◌↔◌, ◌<◌, Some, IsSome, IfSome, IfOk, OnOk, IfErr, IsTrue, IsFalse, MatchOption, length};
ghost use Rattle.std.specs.Borrow.{sem};
ghost use Rattle.std.specs.FinMap as map;
ghost use Rattle.std.specs.Option.{option_copied_mut};
ghost use Rattle.judy_model.specs.Arrays as array;
ghost use Rattle.judy_hs.specs.Kept.{map_of};
ghost use Rattle.judy_hs.specs.Found.{StandsAt};

mod memory;

use crate::entry::HsEntry;
use crate::error::HsError;
use crate::groups::{Groups, KeyPlace};
use crate::hash::ByteHash;
use crate::insert::find_or_add;
use crate::part::part_of;
use judy_word::{JudyL, WordMap};
use std::alloc::{AllocError, Global};
use std::marker::Model;

/// An array that maps keys, byte strings, to words. A key has at most `H::LONGEST` bytes, and the array holds at most
/// as many keys as its limit (both limits are this project's own).
#[derive(Drop)]
pub struct JudyHs<H: ByteHash + Drop> {
    hasher: H,
    limit: u64,
    count: u64,
    groups: Groups,
    // Whether the last insert put a key in. The next one is then tried as one that does, which finds its place and puts
    // it in by one way down, and takes a second one where its key is there.
    expects_new: bool,
}

impl<H: ByteHash + Drop> Model for JudyHs<H> {
    ghost use Rattle.std.specs.Coded.{coded_list, coded_ℕ};
    ghost use Rattle.judy_model.specs.Keys.{byte_order};
    ghost use Rattle.judy_model.specs.Arrays.{ArrayOf, array_code};

    ghost Value = { ArrayOf byte_order };

    ghost coded = { array_code (coded_list coded_ℕ) };

    ghost use Rattle.judy_hs.specs.Kept.{array_of, IsHs};

    ghost view = { λ a. array_of H.hash_of H.LONGEST a.limit a.groups };

    ghost invariant = { λ a. IsHs H.hash_of H.LONGEST a.limit a.count a.groups };
}

impl<H: ByteHash + Drop> JudyHs<H> {
    ghost use Rattle.judy_hs.specs.Slots.{LendsSlot, LendsIns};
    ghost use Rattle.judy_hs.specs.Refusals.{IsRefusal};
    ghost use Rattle.judy_hs.specs.Listed.{entries_in};
    ghost use Rattle.judy_model.specs.DumpText.{entries_by, length_order};
    ghost use Rattle.judy_model.specs.KeyLengths.{IsBytesKeyTo};
    ghost use Rattle.judy_hs.specs.InnerForm.{HasLength, IsLengths, IsShortGroup, IsLongGroup};

    /// The empty array that holds at most `limit` keys, from 1 to 4,294,967,295 (limit: this project's own), under a
    /// hash.
    /// It asks for no memory before the first insert.
    pub fn new(alloc: Global, limit: u64, hasher: H) -> JudyHs<H>
        requires some { 1 ≤ limit }
        requires most { limit ≤ 4294967295 }
        ensures { result ≡ array.empty_array limit }
    {
        JudyHs {
            hasher,
            limit,
            count: 0,
            groups: Groups::new(alloc),
            expects_new: true,
        }
    }

    /// The slot of a key, which is put in with the value 0 where it is absent; a key that is there keeps its value, and
    /// is never refused. What the caller leaves in the slot is then the key's value. (Manual: JHSI, JudyHSIns.)
    ///
    /// The first that applies: `TooLong` where the key has more than `H::LONGEST` bytes; `Full` where it is absent and
    /// the array holds as many keys as its limit (both limits are this project's own); `NoMemory`, only where it is
    /// absent and the array isn't full. Each leaves the array as it was.
    ///
    /// Where memory is refused, keys move together as by `shrink`, of each length of which at least one went for each
    /// 32 that are there; and where one moved, the insert is tried once more. (This project's own.)
    pub fn ins(&mut self, key: &[u8]) -> Result<&mut u64, HsError>
        ensures* writes_back { sem 𝓛 (LendsIns H.row H.ByteHash self.entry key.now result) }
        ensures value { IfOk result
            (λ slot. Some slot.now ≡ map.get (array.ins self.old.map key.now) key.now) }
        ensures fits { OnOk result (length key.now ≤ H.LONGEST) }
        ensures accepted { OnOk result (IsFalse (array.is_full self.old key.now)) }
        ensures refused { IfErr result (IsRefusal H.LONGEST self.old key.now) }
    {
        let is_full = self.count == self.limit;
        if key.len() > H::LONGEST {
            return Err(HsError::TooLong);
        }
        let placed = find_or_add(
            &self.hasher,
            &mut self.groups,
            self.expects_new,
            is_full,
            key,
        )?;
        self.count += u64::from(placed.is_new);
        self.expects_new = placed.is_new;
        self.groups.slot_of(placed.spot, key)
    }

    /// The slot of a key, and `None` where it is absent, as every key of more than `H::LONGEST` bytes is. What the
    /// caller leaves in the slot is then the key's value. (Manual: JHSG, JudyHSGet, whose answer is this slot.)
    pub fn slot(&mut self, key: &[u8]) -> Option<&mut u64>
        ensures* writes_back { sem 𝓛 (LendsSlot H.row H.ByteHash self.entry key.now result) }
        ensures value { option_copied_mut result ≡ map.get self.old.map key.now }
    {
        let _groups = &self.groups;
        match spot_of(&self.hasher, &self.groups, key) {
            Some(spot) => self.groups.slot(spot, key),
            None => None,
        }
    }

    /// Takes a key out, and answers the value that it had; `None` where it was absent, as every key of more than
    /// `H::LONGEST` bytes is, and then nothing changes. The key is looked up once. It can't fail and asks for no
    /// memory of its own. With the last key goes all the memory. (This project's own: a removal that tells the old
    /// value.)
    ///
    /// ```
    /// if let Some(value) = array.remove(b"pear") { sum -= value; }
    /// ```
    pub fn remove(&mut self, key: &[u8]) -> Option<u64>
        ensures answer { result ≡ map.get self.old.map key.now }
        ensures removed { self.new ≡ array.with_map self.old (array.del self.old.map key.now) }
    {
        let _groups = &self.groups;
        if key.len() > H::LONGEST {
            return None;
        }
        let was = self.groups.take(part_of(&self.hasher, key), key)?;
        self.count -= 1;
        self.give_back();
        Some(was)
    }

    /// Takes a key out, and answers whether it was there; a key of more than `H::LONGEST` bytes never is. It can't fail
    /// and asks for no memory of its own. With the last key goes all the memory. (Manual: JHSD, JudyHSDel.)
    pub fn del(&mut self, key: &[u8]) -> bool
        ensures answer { result ≡ map.contains_key self.old.map key.now }
        ensures deleted { self.new ≡ array.with_map self.old (array.del self.old.map key.now) }
    {
        self.remove(key).is_some()
    }

    // Gives back what is left of an array that holds no key: its lists and their free places.
    fn give_back(&mut self)
        ensures { self.new ≡ self.old }
    {
        if self.is_empty() {
            self.free_array();
        }
    }

    /// Takes every key out, gives their memory back, and answers how many they were. The array keeps its limit and may
    /// be used again. (Manual: JHSFA, JudyHSFreeArray, which answers the bytes freed.)
    pub fn free_array(&mut self) -> u64
        ensures freed { result ≡ map.len self.old.map }
        ensures emptied { self.new ≡ array.empty_array self.old.limit }
    {
        let freed = self.count;
        self.groups = Groups::new(self.groups.allocator());
        self.count = 0;
        freed
    }

    /// Gives back memory that deletes left free, of use after many of them. Keys move together, so that those of each
    /// length have at most one page with free places, and copies take the place of the trees of words. It can't fail,
    /// and changes no key and no value. (This project's own.)
    ///
    /// A key that shares its hash with another one stays where it is. Where memory is refused, so does one of more than
    /// 1,024 bytes, and a tree stays as it is.
    ///
    /// ```
    /// for name in &gone { array.del(name); }
    /// array.shrink();
    /// ```
    pub fn shrink(&mut self)
        ensures { self.new ≡ self.old }
    {
        let heap = Some(self.groups.allocator());
        self.groups.shrink(heap);
    }

    /// The value of a key, and `None` where it is absent, as every key of more than `H::LONGEST` bytes is. (Manual:
    /// JHSG, JudyHSGet.)
    pub fn get(&self, key: &[u8]) -> Option<u64>
        ensures { result ≡ map.get self.now.map key.now }
    {
        let groups = &self.groups;
        if key.len() > H::LONGEST {
            return None;
        }
        groups.get(part_of(&self.hasher, key), key)
    }

    /// How many keys the array may hold: from 1 to 4,294,967,295 (limit: this project's own).
    pub fn limit(&self) -> u64
        ensures value { result ≡ self.now.limit }
        ensures some { 1 ≤ result }
        ensures most { result ≤ 4294967295 }
    {
        self.limit
    }

    /// How many keys the array holds: at most its limit, so at most 4,294,967,295.
    pub fn len(&self) -> u64
        ensures count { result ≡ map.len self.now.map }
        ensures within { result ≤ self.now.limit }
        ensures most { result ≤ 4294967295 }
    {
        self.count
    }

    /// Whether the array holds no key.
    pub fn is_empty(&self) -> bool
        ensures { IsTrue result ↔ (self.now.map ≡ map.empty) }
    {
        self.count == 0
    }

    /// The array whose keys are the lengths of the keys, of use to see how they are kept. Its values are of no meaning
    /// to callers. (This project's own.)
    pub fn lengths(&self) -> &JudyL
        ensures { IsLengths self.now.map result.now.map }
    {
        self.groups.lengths().array()
    }

    /// The array by which the keys of `n` bytes are found, and `None` where there is no such key. For `n` up to 8 it
    /// maps these keys, as the words that they spell, to their values; above 8 its keys are exactly their hashes, and
    /// its values are of no meaning to callers. (This project's own.)
    pub fn group(&self, n: usize) -> Option<&JudyL>
        ensures there { IsSome result ↔ HasLength self.now.map n }
        ensures short { n ≤ 8 → IfSome result (λ group. IsShortGroup self.now.map n group.now.map) }
        ensures long { 8 < n
            → IfSome result (λ group. IsLongGroup H.hash_of self.now.map n group.now.map) }
    {
        match self.group_map(n) {
            Some(words) => Some(words.array()),
            None => None,
        }
    }

    // The same as a map that tells no nodes.
    fn group_map(&self, n: usize) -> Option<&WordMap>
        ensures there { IsSome result ↔ HasLength self.now.map n }
        ensures short { n ≤ 8 → IfSome result (λ group. IsShortGroup self.now.map n group.now.map) }
        ensures long { 8 < n
            → IfSome result (λ group. IsLongGroup H.hash_of self.now.map n group.now.map) }
    {
        self.groups.group(n as u64)
    }

    /// All keys with their values, by the lengths of the keys, and those of one length by their bytes: the order of a
    /// dump. The list has copies of the keys, and so takes about as much memory as they do. `AllocError` where there is
    /// none for it. (This project's own.)
    pub fn sorted(&self) -> Result<Vec<HsEntry<'_>>, AllocError>
        ensures { IfOk result
            (λ list. entries_in list.items ≡ entries_by length_order self.now.map) }
    {
        let mut list = Vec::with_capacity(self.groups.allocator(), self.count as usize)?;
        self.groups.list(&mut list)?;
        Ok(list)
    }

    /// A law of every array that a program holds, whatever was left in its slots: its keys are byte strings of at
    /// most `H::LONGEST` bytes, its limit and its values words, and it holds at most as many keys as its limit. It
    /// answers nothing and reads each value, for a caller whose proof is to know it.
    pub fn array_law(&self)
        ensures { array.IsArrayOf (IsBytesKeyTo H.LONGEST) self.now }
    {
        self.groups.words_law();
    }
}

// Where a key stands; none where it is absent, as every key of more than `H::LONGEST` bytes is.
// Compiled into its one caller, the look-up for a slot.
#[inline(always)]
fn spot_of<H: ByteHash>(hasher: &H, groups: &Groups, key: &[u8]) -> Option<KeyPlace>
    ensures { MatchOption result
        (map.get (map_of H.hash_of H.LONGEST groups.now) key.now ≡ None)
        (StandsAt H.hash_of H.LONGEST groups.now key.now) }
{
    if key.len() > H::LONGEST {
        return None;
    }
    let part = part_of(hasher, key);
    let way = groups.way(part, key);
    groups.find(way, part, key)
}
