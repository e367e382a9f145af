//! The reading of a leaf whose parts stand in a node.

ghost use Rattle.std.specs.Prelude.{◌≡◌, ◌+◌, ◌*◌, ◌<◌, ◌≤◌, ◌^◌, ◌==◌, length, slice_index};
ghost use Rattle.std.specs.List.{AllByRecursion};
ghost use Rattle.std.specs.List.Sorted.{IsStrictlySortedBy};
ghost use Rattle.judy_model.specs.Keys.{word_order};
ghost use Rattle.judy_model.specs.Nearest.{IsFirst, IsLast};
ghost use Rattle.judy_bits.specs.ByteSets as set;
ghost use Rattle.judy_leaf.specs.KeyLists.{KeyList, keys_of, values_of, IsKeyList};
ghost use Rattle.judy_leaf.specs.Leaves.{AreKeysFrom, IsLeafParts, keys_from, leaf_list};
ghost use Rattle.judy_leaf.specs.Nearby.{pair_from, pair_up_to, is_absent};
ghost use Rattle.judy_leaf.specs.Searches.{IsSearched};

use crate::keys;
use crate::layout::LEAF_ROOM;
use crate::words::{ValueWords, Words};
use judy_block::Block;
use std::marker::{Model, PhantomData};

/// A leaf as it is read: the number of its keys, their width, and the block. Number and width stand beside the
/// block, so that a look-up needn't take them from its header.
#[derive(Drop)]
pub struct LeafRef<'a, V: Words + Drop> {
    count: u8,
    width: u8,
    block: &'a Block,
    words: PhantomData<V>,
}

const _: () = prove!(size_of::<LeafRef<'static, ValueWords<1>>>() == 16);

impl<'a, V: Words + Drop> Model for LeafRef<'a, V> {
    ghost use Rattle.std.specs.Prelude.{◌≡◌};
    ghost use Rattle.judy_leaf.specs.KeyLists.{KeyList};

    ghost Value = { KeyList };

    ghost use Rattle.judy_leaf.specs.Leaves.{leaf_list, IsLeafParts};

    ghost view = { λ l. leaf_list V.WORDS l.count l.block.now };

    ghost invariant = { λ l. IsLeafParts V.WORDS l.count l.block.now
        × (l.block.now.tag ≡ l.width) };
}

impl<'a, V: Words + Drop> LeafRef<'a, V> {
    /// The leaf that is made of a number of keys and a block, whose tag is the width of the keys in bytes.
    pub fn new(count: u8, width: u8, block: &'a Block) -> LeafRef<'a, V>
        requires parts { IsLeafParts V.WORDS count block.now }
        requires width { block.now.tag ≡ width }
        ensures { result ≡ leaf_list V.WORDS count block.now }
    {
        LeafRef {
            count,
            width,
            block,
            words: PhantomData,
        }
    }

    /// A law, told by a call that does nothing: the keys ascend and have `width` bytes.
    pub fn law(&self)
        ensures { IsKeyList self.now }
    {
        let _ = &self.count;
    }

    /// How many keys there are, at most 32.
    pub fn len(&self) -> usize
        ensures count { result ≡ length self.now.pairs }
        ensures within { result ≤ 32 }
        ensures list { IsKeyList self.now }
    {
        usize::from(self.count)
    }

    /// Whether no further key fits: there are 32.
    pub fn is_full(&self) -> bool
        ensures { result ≡ (length self.now.pairs == 32) }
    {
        self.len() == LEAF_ROOM
    }

    /// How many bytes a key has, 1 to 8.
    pub fn width(&self) -> u8
        ensures value { result ≡ self.now.width }
        ensures within { (1 ≤ result) × (result ≤ 8) }
    {
        self.width
    }

    // Its keys as `keys` takes them: their width, the block, the word that they begin at, and how many they are.
    #[inline(always)]
    fn keys(&self) -> (usize, &'a Block, usize, usize)
        ensures start { result.2 ≤ 32 }
        ensures stand { AreKeysFrom result.0 result.3 result.2 result.1.now }
        ensures ascending { IsStrictlySortedBy word_order
            (keys_from result.0 result.3 result.2 result.1.now) }
        ensures same { keys_from result.0 result.3 result.2 result.1.now ≡ keys_of self.now.pairs }
        ensures width { result.0 ≡ self.now.width }
        ensures count { result.3 ≡ length self.now.pairs }
    {
        let count = usize::from(self.count);
        (usize::from(self.width), self.block, V::WORDS * count, count)
    }

    /// How many keys are below a word.
    pub fn rank(&self, key: u64) -> usize
        ensures value { result ≡ set.rank (keys_of self.now.pairs) key }
        ensures within { result ≤ length self.now.pairs }
    {
        let (width, block, start, count) = self.keys();
        keys::rank(width, block, start, count, key)
    }

    /// The place of a key; none where the word isn't one of the keys.
    pub fn find(&self, key: u64) -> Option<usize>
        ensures { result ≡ set.place (keys_of self.now.pairs) key }
    {
        let (width, block, start, count) = self.keys();
        keys::find(width, block, start, count, key)
    }

    /// The same in a leaf whose keys have eight bytes: nothing asks for their width.
    #[inline(always)]
    pub fn find_word(&self, key: u64) -> Option<usize>
        requires { self.now.width ≡ 8 }
        ensures { result ≡ set.place (keys_of self.now.pairs) key }
    {
        let (_, block, start, count) = self.keys();
        keys::find_word(block, start, count, key)
    }

    /// The place of a key, as `Ok`; or, where the word isn't one of the keys, the place that it would have, as `Err`.
    #[inline(always)]
    pub fn search(&self, key: u64) -> Result<usize, usize>
        ensures { IsSearched (keys_of self.now.pairs) key result }
    {
        let (width, block, start, count) = self.keys();
        match keys::next(width, block, start, count, key) {
            Some((at, found)) => { if found == key { Ok(at) } else { Err(at) } }
            None => Err(count),
        }
    }

    /// The key at a place, counted from 0 and below the number of keys.
    // Whoever just entered a leaf has its parts at hand: by a call of this one they would be written to memory first.
    #[inline(always)]
    pub fn key_at(&self, at: usize) -> u64
        requires { at < length self.now.pairs }
        ensures { result ≡ slice_index (keys_of self.now.pairs) at }
    {
        let (width, block, start, count) = self.keys();
        keys::key_at(width, block, start, count, at)
    }

    // The same of a leaf whose keys have `W` bytes.
    pub(crate) fn key_of<const W: usize>(&self, at: usize) -> u64
        requires width { self.now.width ≡ W }
        requires inside { at < length self.now.pairs }
        ensures { result ≡ slice_index (keys_of self.now.pairs) at }
    {
        let (_, block, start, count) = self.keys();
        keys::key_in_block::<W>(block, start, count, at)
    }

    /// The value at such a place, 0 where keys have no value.
    pub fn value_at(&self, at: usize) -> u64
        requires { at < length self.now.pairs }
        ensures { result ≡ slice_index (values_of self.now.pairs) at }
    {
        if V::WORDS == 1 { self.block.get(at) } else { 0 }
    }

    /// The nearest key at or above a number, with its value; none where all keys are below.
    // As `key_at`.
    #[inline(always)]
    pub fn at_or_after(&self, number: u64) -> Option<(u64, u64)>
        ensures { result ≡ pair_from self.now.pairs number }
    {
        let (width, block, start, count) = self.keys();
        let (at, key) = keys::next(width, block, start, count, number)?;
        Some((key, self.value_at(at)))
    }

    /// The nearest key at or below a number, with its value; none where all keys are above.
    // As `key_at`.
    #[inline(always)]
    pub fn at_or_before(&self, number: u64) -> Option<(u64, u64)>
        ensures { result ≡ pair_up_to self.now.pairs number }
    {
        let (width, block, start, count) = self.keys();
        let (at, key) = keys::previous(width, block, start, count, number)?;
        Some((key, self.value_at(at)))
    }

    /// The nearest number at or above another that is no key, among those that a key of this width could be; none where
    /// all these are keys.
    pub fn absent_at_or_after(&self, number: u64) -> Option<u64>
        ensures { IsFirst word_order
            (is_absent (256 ^ self.now.width) (keys_of self.now.pairs)) number result }
    {
        let (width, block, start, count) = self.keys();
        keys::absent_from(width, block, start, count, number)
    }

    /// The nearest number at or below another that is no key, among those that a key of this width could be; none where
    /// all these are keys.
    pub fn absent_at_or_before(&self, number: u64) -> Option<u64>
        ensures { IsLast word_order
            (is_absent (256 ^ self.now.width) (keys_of self.now.pairs)) number result }
    {
        let (width, block, start, count) = self.keys();
        keys::absent_up_to(width, block, start, count, number)
    }
}
