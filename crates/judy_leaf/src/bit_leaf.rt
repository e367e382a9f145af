//! A bitmap leaf: one-byte keys as bits.

ghost use Rattle.std.specs.Prelude.{◌≡◌, ◌+◌, ◌*◌, ◌<◌, ◌≤◌, ℕ, length, slice_index, IfOk, OnOk, OnErr, IsFalse};
ghost use Rattle.std.specs.List.{remove, AllByRecursion};
ghost use Rattle.judy_model.specs.Ranges.{zeroed};
ghost use Rattle.judy_bits.specs.ByteSets as set;
ghost use Rattle.judy_leaf.specs.Packing.{IsWidth};
ghost use Rattle.judy_leaf.specs.KeyLists.{keys_of, values_of, with_pair, with_value_at, low_pairs, IsKeyList};
ghost use Rattle.judy_leaf.specs.BitLeaves.{IsBitParts, bit_list};

use crate::bit_edit;
use crate::bit_ref::BitRef;
use crate::in_place::put_in_bit_leaf;
use crate::layout::{BIT_WORDS, bit_tag, set_bit_width};
use crate::words::{ValueWords, Words};
use judy_bits::Bits256;
use judy_block::Block;
use std::alloc::{AllocError, Global};
use std::marker::{Model, PhantomData};

/// Up to 256 keys of one byte, and a value for each where `V` says so, in one block. The width that it tells is that of
/// its node's keys, of which it has the last byte.
#[derive(Drop)]
pub struct BitLeafOf<V: Words + Drop> {
    block: Block,
    words: PhantomData<V>,
}

/// A bitmap leaf whose keys have `W` words of value each, 0 or 1.
pub type BitLeaf<const W: usize> = BitLeafOf<ValueWords<W>>;

const _: () = prove!(size_of::<BitLeaf<1>>() == 8);

impl<V: Words + Drop> Model for BitLeafOf<V> {
    ghost use Rattle.judy_leaf.specs.KeyLists.{KeyList};

    ghost Value = { KeyList };

    ghost use Rattle.judy_leaf.specs.BitLeaves.{bit_list, IsBitParts};

    ghost view = { λ l. bit_list V.WORDS l.block };

    ghost invariant = { λ l. IsBitParts V.WORDS l.block };
}

// The capacity of a block that has so many keys: with their values room for half as many more, and 16 at least, but
// for 256 at most.
pub(crate) fn capacity_for<V: Words + Drop>(count: usize) -> usize
    requires one { V.WORDS ≤ 1 }
    requires count { count ≤ 256 }
    ensures enough { 4 + V.WORDS * count ≤ result }
    ensures some { 4 ≤ result }
    ensures most { result ≤ 260 }
{
    if V::WORDS == 1 {
        BIT_WORDS + ((count + (count / 2).max(16)) / 4 * 4).min(256)
    } else {
        BIT_WORDS
    }
}

impl<V: Words + Drop> BitLeafOf<V> {
    /// The bitmap leaf of a block that is laid out as one.
    pub fn of_parts(block: Block) -> BitLeafOf<V>
        requires { IsBitParts V.WORDS block }
        ensures { result ≡ bit_list V.WORDS block }
    {
        BitLeafOf {
            block,
            words: PhantomData,
        }
    }

    /// The block that it is made of.
    pub fn into_parts(self) -> Block
        ensures parts { IsBitParts V.WORDS result }
        ensures list { bit_list V.WORDS result ≡ self }
    {
        let BitLeafOf { block, words: _ } = self;
        block
    }

    /// The bitmap leaf for reading.
    pub fn reading(&self) -> BitRef<'_, V>
        ensures { result ≡ self.now }
    {
        BitRef::new(&self.block)
    }

    /// Takes the key at a place out, with its value; the place is below the number of keys. No memory is asked for.
    pub fn remove(&mut self, at: usize)
        requires { at < length self.old.pairs }
        ensures { self.new ≡ record self.old { pairs = remove self.old.pairs at } }
    {
        let key = self.reading().key_at(at);
        bit_edit::take::<V>(&mut self.block, at, key as u8);
    }

    /// The bitmap leaf of a set of bytes without values, in a node whose keys have `width` bytes, 1 to 8. The words are
    /// copied, and no key is asked for. The error is want of memory; nothing is kept then.
    pub fn of_bits(alloc: Global, width: u8, bits: &Bits256) -> Result<BitLeafOf<V>, AllocError>
        requires none { V.WORDS ≡ 0 }
        requires width { IsWidth width }
        ensures { IfOk result
            (λ leaf. leaf ≡ record { width = width; pairs = zeroed bits.now }) }
    {
        let tag = bit_tag(bits.len(), width);
        let block = Block::of_words(alloc, BIT_WORDS, tag, &bits.words())?;
        Ok(BitLeafOf {
            block,
            words: PhantomData,
        })
    }

    /// The bitmap leaf of pairs, in a node whose keys have `width` bytes, 1 to 8. Of each key the lowest byte counts;
    /// by these the keys strictly ascend, so that there are at most 256. Where keys have no value, each value is 0. The
    /// error is want of memory; nothing is kept then.
    pub fn from_sorted(
        alloc: Global,
        width: u8,
        pairs: &[(u64, u64)],
    ) -> Result<BitLeafOf<V>, AllocError>
        requires words { V.WORDS ≤ 1 }
        requires width { IsWidth width }
        requires list { IsKeyList (record { width = 1; pairs = low_pairs 256 pairs.now }) }
        requires no_values { V.WORDS ≡ 0 → AllByRecursion (λ pair. pair.1 ≡ 0) pairs.now }
        ensures { IfOk result
            (λ leaf. leaf ≡ record { width = width; pairs = low_pairs 256 pairs.now }) }
    {
        let mut block = Block::new(alloc, capacity_for::<V>(pairs.len()))?;
        block.open_gap(0, BIT_WORDS);
        set_bit_width(&mut block, u32::from(width));
        bit_edit::put_all::<V>(&mut block, pairs);
        Ok(BitLeafOf {
            block,
            words: PhantomData,
        })
    }
}
