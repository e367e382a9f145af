//! A leaf: up to 32 keys of one width in a block.

ghost use Rattle.std.specs.Prelude.{◌≡◌, ◌+◌, ◌*◌, ◌<◌, ◌≤◌, ◌^◌, [], ◌∷◌, length, slice_index, IfOk, OnOk, OnErr, IsFalse};
ghost use Rattle.std.specs.List.{remove, AllByRecursion};
ghost use Rattle.judy_bits.specs.ByteSets as set;
ghost use Rattle.judy_leaf.specs.KeyLists.{keys_of, values_of, with_pair, with_value_at, low_pairs, IsKeyList};
ghost use Rattle.judy_leaf.specs.Leaves.{IsLeafParts, leaf_list, words_for};
ghost use Rattle.judy_leaf.specs.Packing.{IsWidth};

use crate::in_place::put_in_leaf;
use crate::leaf_ref::LeafRef;
use crate::words::{ValueWords, Words};
use crate::{keys, pairs};
use judy_block::Block;
use std::alloc::{AllocError, Global};
use std::marker::{Model, PhantomData};

/// Up to 32 keys, and a value for each where `V` says so, in one block.
#[derive(Drop)]
pub struct LeafOf<V: Words + Drop> {
    count: u8,
    block: Block,
    words: PhantomData<V>,
}

/// A leaf whose keys have `W` words of value each, 0 or 1.
pub type Leaf<const W: usize> = LeafOf<ValueWords<W>>;

const _: () = prove!(size_of::<Leaf<1>>() == 16);

/// How much the block of a new leaf has to spare for keys to come.
#[derive(Clone, Copy)]
pub enum Spare {
    /// Some: whole fours of words, and always one word more than the leaf takes.
    Ample,
    /// Hardly any: with its header the block fills what the allocator gives, 8 bytes beside whole sixteens.
    Snug,
}

impl Spare {
    // The capacity of the block of a leaf that takes so many words.
    #[inline(always)]
    fn capacity(self, needed: usize) -> usize
        requires { needed ≤ 65 }
        ensures room { needed ≤ result }
        ensures within { (1 ≤ result) × (result ≤ 68) }
    {
        match self {
            Spare::Ample => needed / 4 * 4 + 4,
            Spare::Snug => (needed.max(1) + 1) / 2 * 2,
        }
    }
}

impl<V: Words + Drop> Model for LeafOf<V> {
    ghost use Rattle.judy_leaf.specs.KeyLists.{KeyList};

    ghost Value = { KeyList };

    ghost use Rattle.judy_leaf.specs.Leaves.{leaf_list, IsLeafParts};

    ghost view = { λ l. leaf_list V.WORDS l.count l.block };

    ghost invariant = { λ l. IsLeafParts V.WORDS l.count l.block };
}

impl<V: Words + Drop> LeafOf<V> {
    /// The leaf that is made of a number of keys and a block.
    pub fn of_parts(count: u8, block: Block) -> LeafOf<V>
        requires { IsLeafParts V.WORDS count block }
        ensures { result ≡ leaf_list V.WORDS count block }
    {
        LeafOf {
            count,
            block,
            words: PhantomData,
        }
    }

    /// The number of keys and the block that it is made of.
    pub fn into_parts(self) -> (u8, Block)
        ensures parts { IsLeafParts V.WORDS result.0 result.1 }
        ensures list { leaf_list V.WORDS result.0 result.1 ≡ self }
    {
        let LeafOf {
            count,
            block,
            words: _,
        } = self;
        (count, block)
    }

    /// The leaf for reading.
    pub fn reading(&self) -> LeafRef<'_, V>
        ensures { result ≡ self.now }
    {
        LeafRef::new(self.count, self.block.tag() as u8, &self.block)
    }

    /// Takes the key at a place out, with its value; the place is below the number of keys. No memory is asked for.
    pub fn remove(&mut self, at: usize)
        requires { at < length self.old.pairs }
        ensures { self.new ≡ record self.old { pairs = remove self.old.pairs at } }
    {
        let width = self.block.tag() as usize;
        let count = usize::from(self.count);
        pairs::take::<V>(&mut self.block, width, count, at);
        self.count -= 1;
    }

    /// The leaf of at most 32 pairs, with so much to spare. Of each key the lowest `width` bytes count, 1 to 8; by
    /// these the keys strictly ascend. Where keys have no value, each value is 0. The error is want of memory; nothing
    /// is kept then.
    #[inline(always)]
    pub fn from_sorted(
        alloc: Global,
        width: u8,
        pairs: &[(u64, u64)],
        spare: Spare,
    ) -> Result<LeafOf<V>, AllocError>
        requires words { V.WORDS ≤ 1 }
        requires list { IsKeyList
            (record { width = width; pairs = low_pairs (256 ^ width) pairs.now }) }
        requires few { length pairs.now ≤ 32 }
        requires no_values { V.WORDS ≡ 0 → AllByRecursion (λ pair. pair.1 ≡ 0) pairs.now }
        ensures { IfOk result
            (λ leaf. leaf ≡ record { width = width; pairs = low_pairs (256 ^ width) pairs.now }) }
    {
        let needed = LeafOf::<V>::words_needed(width, pairs);
        let mut block = Block::new(alloc, spare.capacity(needed))?;
        block.set_tag(u32::from(width));
        pairs::put_all::<V>(&mut block, usize::from(width), pairs);
        Ok(LeafOf {
            count: pairs.len() as u8,
            block,
            words: PhantomData,
        })
    }

    /// The leaf of two pairs whose keys ascend and have `width` bytes, 1 to 8; else as `from_sorted`.
    // Where a word has one key, as in small arrays, the words of the block are those at hand.
    #[inline(always)]
    pub fn of_two(
        alloc: Global,
        width: u8,
        low: (u64, u64),
        high: (u64, u64),
    ) -> Result<LeafOf<V>, AllocError>
        requires words { V.WORDS ≤ 1 }
        requires list { IsKeyList
            (record { width = width; pairs = low_pairs (256 ^ width) (low ∷ high ∷ []) }) }
        requires below_low { low.0 < 256 ^ width }
        requires below_high { high.0 < 256 ^ width }
        requires no_values { V.WORDS ≡ 0
            → AllByRecursion (λ pair. pair.1 ≡ 0) (low ∷ high ∷ []) }
        ensures { IfOk result
            (λ leaf. leaf
            ≡ record { width = width; pairs = low_pairs (256 ^ width) (low ∷ high ∷ []) }) }
    {
        if width <= 4 {
            return LeafOf::from_sorted(alloc, width, &[low, high], Spare::Ample);
        }
        let block = pairs::two_words::<V>(alloc, width, low, high)?;
        Ok(LeafOf {
            count: 2,
            block,
            words: PhantomData,
        })
    }

    // How many words of a block the pairs take.
    #[inline(always)]
    fn words_needed(width: u8, pairs: &[(u64, u64)]) -> usize
        requires words { V.WORDS ≤ 1 }
        requires width { IsWidth width }
        requires few { length pairs.now ≤ 32 }
        ensures value { result ≡ V.WORDS * length pairs.now + words_for width (length pairs.now) }
        ensures within { result ≤ 65 }
    {
        V::WORDS * pairs.len() + keys::words_of(usize::from(width), pairs.len())
    }
}
