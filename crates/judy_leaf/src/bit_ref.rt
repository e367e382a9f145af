//! The reading of a bitmap leaf whose block stands in a node.

ghost use Rattle.std.specs.Prelude.{◌≡◌, ◌+◌, ◌<◌, ◌≤◌, ◌==◌, filter, length, slice_index, slice_get, Some};
ghost use Rattle.judy_model.specs.Keys.{word_order};
ghost use Rattle.judy_model.specs.Nearest.{IsFirst, IsLast};
ghost use Rattle.judy_bits.specs.ByteSets as set;
ghost use Rattle.judy_bits.specs.ByteSets.{IsByteSet};
ghost use Rattle.judy_bits.specs.BitWords.{members_of};
ghost use Rattle.judy_leaf.specs.KeyLists.{keys_of, values_of, IsKeyList};
ghost use Rattle.judy_leaf.specs.BitLeaves.{IsBitParts, bit_list};
ghost use Rattle.judy_leaf.specs.Nearby.{pair_from, pair_up_to, is_absent};
ghost use Rattle.judy_leaf.specs.Searches.{IsSearched};

use crate::layout::{BIT_WORDS, bit_count, bit_width};
use crate::words::{ValueWords, Words};
use judy_bits::{Bits256, BitsRef};
use judy_block::Block;
use std::marker::{Model, PhantomData};

/// A bitmap leaf as it is read.
#[derive(Drop)]
pub struct BitRef<'a, V: Words + Drop> {
    block: &'a Block,
    words: PhantomData<V>,
}

const _: () = prove!(size_of::<BitRef<'static, ValueWords<1>>>() == 8);

impl<'a, V: Words + Drop> Model for BitRef<'a, V> {
    ghost use Rattle.judy_leaf.specs.KeyLists.{KeyList};

    ghost Value = { KeyList };

    ghost use Rattle.judy_leaf.specs.BitLeaves.{bit_list, IsBitParts};

    ghost view = { λ l. bit_list V.WORDS l.block.now };

    ghost invariant = { λ l. IsBitParts V.WORDS l.block.now };
}

impl<'a, V: Words + Drop> BitRef<'a, V> {
    /// The bitmap leaf of a block that is laid out as one.
    pub fn new(block: &'a Block) -> BitRef<'a, V>
        requires { IsBitParts V.WORDS block.now }
        ensures { result ≡ bit_list V.WORDS block.now }
    {
        BitRef {
            block,
            words: PhantomData,
        }
    }

    // The keys.
    fn bits(&self) -> BitsRef<'_>
        ensures value { result ≡ keys_of self.now.pairs }
        ensures is_set { IsByteSet (keys_of self.now.pairs) }
    {
        BitsRef::of_words(self.bit_words())
    }

    // The four words whose bits they are.
    pub(crate) fn bit_words(&self) -> &[u64]
        ensures four { length result.now ≡ 4 }
        ensures keys { members_of result.now ≡ keys_of self.now.pairs }
        ensures is_set { IsByteSet (keys_of self.now.pairs) }
    {
        &self.block.words()[..BIT_WORDS]
    }

    /// The keys as a set of bytes of its own: the four words are copied.
    pub fn to_bits(&self) -> Bits256
        ensures { result ≡ keys_of self.now.pairs }
    {
        let words = self.bit_words();
        Bits256::of_words([words[0], words[1], words[2], words[3]])
    }

    /// A law, told by a call that does nothing: the keys are a set of bytes.
    pub fn law(&self)
        ensures { IsByteSet (keys_of self.now.pairs) }
    {
        let _ = &self.block;
    }

    /// How many keys there are, at most 256.
    pub fn len(&self) -> usize
        ensures count { result ≡ length self.now.pairs }
        ensures within { result ≤ 256 }
        ensures is_set { IsByteSet (keys_of self.now.pairs) }
        ensures list { IsKeyList self.now }
    {
        bit_count(self.block) as usize
    }

    /// How many bytes the keys of the node have, 1 to 8, of which all but the last are left out here.
    pub fn width(&self) -> u8
        ensures value { result ≡ self.now.width }
        ensures within { (1 ≤ result) × (result ≤ 8) }
    {
        bit_width(self.block) as u8
    }

    /// How many of the keys another bitmap leaf has too: the bits that are 1 in the words of both, a word at a time.
    pub fn common_count(&self, other: &BitRef<'_, V>) -> usize
        ensures { result
            ≡ length (filter (set.has (keys_of other.now.pairs)) (keys_of self.now.pairs)) }
    {
        in_both(self.bit_words(), other.bit_words())
    }

    /// How many keys are below a word.
    pub fn rank(&self, key: u64) -> usize
        ensures value { result ≡ set.rank (keys_of self.now.pairs) key }
        ensures within { result ≤ length self.now.pairs }
    {
        let bits = self.bits();
        if key < 256 {
            bits.rank(key as u8)
        } else {
            self.len()
        }
    }

    /// The place of a key; none where the word isn't one of the keys.
    // At the end of each look-up among dense keys, for which a call would cost as much as the count.
    #[inline(always)]
    pub fn find(&self, key: u64) -> Option<usize>
        ensures { result ≡ set.place (keys_of self.now.pairs) key }
    {
        let bits = self.bits();
        if key < 256 {
            bits.place(key as u8)
        } else {
            None
        }
    }

    /// The place of a byte, as `Ok`; or, where it isn't one of the keys, the place that it would have, as `Err`.
    pub fn search(&self, byte: u8) -> Result<usize, usize>
        ensures { IsSearched (keys_of self.now.pairs) byte result }
    {
        let bits = self.bits();
        let at = bits.rank(byte);
        if bits.has(byte) { Ok(at) } else { Err(at) }
    }

    /// The key at a place, counted from 0 and below the number of keys.
    pub fn key_at(&self, at: usize) -> u64
        requires { at < length self.now.pairs }
        ensures key { result ≡ slice_index (keys_of self.now.pairs) at }
        ensures below { result < 256 }
    {
        match self.bits().nth(at) {
            Some(byte) => u64::from(byte),
            None => unreachable!(),
        }
    }

    /// The first key from a byte on, where there is one.
    pub fn next_key(&self, byte: u64) -> u64
        requires { set.rank (keys_of self.now.pairs) byte < length self.now.pairs }
        ensures key { slice_get (keys_of self.now.pairs) (set.rank (keys_of self.now.pairs) byte)
            ≡ Some result }
        ensures past { set.rank (keys_of self.now.pairs) (result + 1)
            ≡ set.rank (keys_of self.now.pairs) byte + 1 }
        ensures below { result < 256 }
    {
        self.law();
        match self.bits().next_from(byte as u8) {
            Some(key) => u64::from(key),
            None => unreachable!(),
        }
    }

    /// The value at such a place, 0 where keys have no value.
    pub fn value_at(&self, at: usize) -> u64
        requires { at < length self.now.pairs }
        ensures { result ≡ slice_index (values_of self.now.pairs) at }
    {
        if V::WORDS == 1 {
            self.block.get(BIT_WORDS + at)
        } else {
            0
        }
    }

    /// The nearest key at or above a number, with its value; none where all keys are below.
    pub fn at_or_after(&self, number: u64) -> Option<(u64, u64)>
        ensures { result ≡ pair_from self.now.pairs number }
    {
        self.law();
        if number > 255 {
            return None;
        }
        match self.bits().next_from(number as u8) {
            Some(key) => Some((u64::from(key), self.value_at(self.rank(number)))),
            None => None,
        }
    }

    /// The nearest key at or below a number, with its value; none where all keys are above.
    pub fn at_or_before(&self, number: u64) -> Option<(u64, u64)>
        ensures { result ≡ pair_up_to self.now.pairs number }
    {
        self.law();
        let last = number.min(255) as u8;
        match self.bits().prev_from(last) {
            Some(key) => Some((
                u64::from(key),
                self.value_at(self.count_up_to(u64::from(last)) - 1),
            )),
            None => None,
        }
    }

    /// The nearest number below 256 at or above another that is no key; none where all these are keys.
    pub fn absent_at_or_after(&self, number: u64) -> Option<u64>
        ensures { IsFirst word_order (is_absent 256 (keys_of self.now.pairs)) number result }
    {
        if number < 256 {
            as_word(self.bits().next_absent(number as u8))
        } else {
            None
        }
    }

    /// The nearest number below 256 at or below another that is no key; none where all these are keys.
    pub fn absent_at_or_before(&self, number: u64) -> Option<u64>
        ensures { IsLast word_order (is_absent 256 (keys_of self.now.pairs)) number result }
    {
        as_word(self.bits().prev_absent(number.min(255) as u8))
    }

    // How many keys are at or below a number.
    fn count_up_to(&self, number: u64) -> usize
        ensures value { result ≡ set.count_up_to (keys_of self.now.pairs) number }
        ensures within { result ≤ length self.now.pairs }
        ensures is_set { IsByteSet (keys_of self.now.pairs) }
    {
        let bits = self.bits();
        if number < 255 {
            bits.rank((number + 1) as u8)
        } else {
            self.len()
        }
    }
}

// How many bits are 1 in four words and in four others.
fn in_both(one: &[u64], other: &[u64]) -> usize
    requires four { length one.now ≡ 4 }
    requires other_four { length other.now ≡ 4 }
    ensures { result ≡ length (filter (set.has (members_of other.now)) (members_of one.now)) }
{
    let first = one[0] & other[0];
    let second = one[1] & other[1];
    let third = one[2] & other[2];
    let fourth = one[3] & other[3];
    Bits256::of_words([first, second, third, fourth]).len()
}

// A byte as a word.
fn as_word(byte: Option<u8>) -> Option<u64>
    ensures { result ≡ byte }
{
    byte.map(u64::from)
}
