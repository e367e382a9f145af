//! The levels of an array but the first, in two lists side by side: the entries of each, and how many keys stand behind
//! it. So a way down reads the first list alone, and a count, which asks many levels for their numbers, finds these
//! close together.

ghost use Rattle.std.specs.Prelude.{◌≡◌, ◌+◌, ◌<◌, ◌≤◌, ◌↔◌, ℕ, [], Some, None, IsTrue, IsOk, OnOk, slice_index_or, vec_len};
ghost use Rattle.std.specs.Borrow.{sem};
ghost use Rattle.slab.specs.Slab as slab;
ghost use Rattle.judy_model.specs.Keys.{IsWord, word_order};
ghost use Rattle.judy_model.specs.Arrays.{ArrayOf, IsArrayOf};
ghost use Rattle.judy_sl.specs.LevelLists.{parts_of, keys_in, words_in, with_keys};

mod memory;

use judy_word::WordMap;
use slab::Slab;
use std::alloc::{AllocError, Global};
use std::marker::Model;

// Levels, each under an index that stays its own until it is removed. To contracts it is a slab of both lists' parts.
// The list of numbers has a place for each level, and, where there is room for more, for each of these.
#[derive(Drop)]
pub struct LevelList {
    words: Slab<WordMap>,
    numbers: Vec<u32>,
}

// An element of the slab has a tag beside these.
const _: () = prove!(size_of::<WordMap>() == 40);

impl Model for LevelList {
    ghost use Rattle.slab.specs.Slab.{Slab as Slots, slab_code};
    ghost use Rattle.judy_sl.specs.LevelLists.{LevelParts, parts_code, side_by_side, AreNumbered};

    ghost Value = { Slots LevelParts };

    ghost coded = { slab_code parts_code };

    ghost view = { λ l. side_by_side l.words l.numbers.items };

    ghost invariant = { λ l. AreNumbered l.words l.numbers.items };
}

impl LevelList {
    ghost use Rattle.judy_sl.specs.LevelLends.{LendsWords};

    // No levels. It asks for no memory.
    pub fn new(alloc: Global) -> LevelList
        ensures { result.slots ≡ [] }
    {
        LevelList {
            words: Slab::new(alloc),
            numbers: Vec::new(alloc),
        }
    }

    // The entries of a level. The numbers aren't looked into.
    pub fn words(&self, index: usize) -> &WordMap
        requires { slab.ContainsKey self.now index }
        ensures { words_in (slab.get self.now index) ≡ Some result.now }
    {
        &self.words[index]
    }

    // Lends them; all else stays.
    pub fn words_mut(&mut self, index: usize) -> &mut WordMap
        requires { slab.ContainsKey self.old index }
        ensures* writes_back { sem 𝓛 (LendsWords self.entry index result) }
        ensures value { words_in (slab.get self.old index) ≡ Some result.now }
    {
        &mut self.words[index]
    }

    // How many keys stand behind a level.
    pub fn keys(&self, index: usize) -> u32
        requires { slab.ContainsKey self.now index }
        ensures { result ≡ keys_in (slab.get self.now index) }
    {
        self.numbers[index]
    }

    // Tells it another number of keys.
    pub fn set_keys(&mut self, index: usize, keys: u32)
        requires { slab.ContainsKey self.old index }
        ensures { self.new ≡ with_keys self.old index keys }
    {
        self.numbers[index] = keys;
    }

    // An index above that of each level.
    pub fn places(&self) -> usize
        ensures { (index : ℕ) → slab.ContainsKey self.now index → index < result }
    {
        self.words.capacity()
    }

    // Whether a level stands under an index.
    pub fn has(&self, index: usize) -> bool
        ensures { IsTrue result ↔ slab.ContainsKey self.now index }
    {
        self.words.contains(index)
    }

    // How many levels both lists have places for: no more than there are, where the numbers lack some, as where memory
    // for these was refused.
    pub fn capacity(&self) -> usize
        ensures value { result ≡ self.now.capacity }
        ensures holds_all { slab.slab_len self.now ≤ result }
    {
        let places = self.words.capacity();
        if places <= self.numbers.len() {
            places
        } else {
            self.words.len()
        }
    }

    // Makes room for so many more levels. Those for which places are free need none. For the others the lists grow by
    // an eighth, and not to their double. The error is want of memory.
    pub fn reserve(&mut self, more: usize) -> Result<(), AllocError>
        ensures same { self.new ≡ record self.old { capacity = self.new.capacity } }
        ensures room { OnOk result (slab.HasRoomFor self.new more) }
        ensures unasked { slab.HasRoomFor self.old more → (self.new ≡ self.old) × IsOk result }
    {
        let levels = self.words.len();
        if self.capacity() - levels >= more {
            return Ok(());
        }
        self.words.reserve_exact(more.saturating_add(levels / 8))?;
        lengthen(&mut self.numbers, self.words.capacity())?;
        Ok(())
    }

    // Puts a level in, for which there is room, and answers its index.
    pub fn put(&mut self, words: WordMap, keys: u32) -> usize
        requires { slab.HasRoomFor self.old 1 }
        ensures free { slab.get self.old result ≡ None }
        ensures put { slab.Updates self.old self.new result (parts_of keys (Some words)) }
        ensures len { slab.slab_len self.new ≡ slab.slab_len self.old + 1 }
        ensures capacity { self.new.capacity ≡ self.old.capacity }
        ensures within { result < self.new.capacity }
    {
        let index = self.words.insert_reserved(words);
        self.numbers[index] = keys;
        index
    }

    // Takes a level out. Its number stays, and means nothing until another level comes to the index.
    pub fn remove(&mut self, index: usize) -> WordMap
        requires { slab.ContainsKey self.old index }
        ensures words { words_in (slab.get self.old index) ≡ Some result }
        ensures removed { slab.Updates self.old self.new index None }
    {
        self.words.remove(index)
    }

    // Gives back the places behind the last level. A list for which less memory is refused stays as long.
    pub fn trim(&mut self)
        ensures { slab.SameValues self.old self.new }
    {
        self.words.shrink_to_fit();
        let places = self.words.capacity();
        self.numbers.truncate(places);
        self.numbers.shrink_to_fit();
    }

    // Does nothing but read: it tells a caller's proof that keys and values are words.
    pub fn law(&self)
        ensures { (index : ℕ) (words : ArrayOf word_order)
            → words_in (slab.get self.now index) ≡ Some words → IsArrayOf IsWord words }
    {
        for (_, words) in self.words.iter() {
            words.array_law();
        }
    }
}

// Lengthens a list of numbers to so many by zeros, where it is shorter. The error is want of memory.
fn lengthen(numbers: &mut Vec<u32>, length: usize) -> Result<(), AllocError>
    ensures same { (index : ℕ)
        → slice_index_or numbers.new.items index 0 ≡ slice_index_or numbers.old.items index 0 }
    ensures never_shorter { vec_len numbers.old ≤ vec_len numbers.new }
    ensures long { OnOk result (length ≤ vec_len numbers.new) }
{
    let before = numbers.len();
    if before < length {
        numbers.reserve_exact(length - before)?;
        numbers.resize(length, 0)?;
    }
    Ok(())
}
