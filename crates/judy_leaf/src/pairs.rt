//! Changes of a leaf's block: a pair of key and value more, or one less.

ghost use Rattle.std.specs.Prelude.{◌≡◌, ◌+◌, ◌-◌, ◌*◌, ◌<◌, ◌≤◌, ◌^◌, length, [], ◌∷◌, IfOk, OnOk, OnErr};
ghost use Rattle.std.specs.List.{AllByRecursion};
ghost use Rattle.judy_leaf.specs.KeyLists.{low_pairs, IsKeyList};
ghost use Rattle.judy_leaf.specs.Leaves.{words_for, leaf_list, AreKeysFrom};
ghost use Rattle.judy_leaf.specs.PairChanges.{IsPairPut, IsPairTaken, HasRoom};

use crate::words::Words;
use crate::{keys, values};
use judy_block::Block;
use std::alloc::{AllocError, Global};

// Sees to it that a block has room for so many words: by a block of the larger capacity where it hasn't.
#[inline(always)]
pub(crate) fn give_room(
    block: &mut Block,
    alloc: Global,
    needed: usize,
    capacity: usize,
) -> Result<(), AllocError>
    requires fits { length block.old.words ≤ needed }
    requires larger { needed ≤ capacity }
    requires within { (1 ≤ capacity) × (capacity ≤ 65535) }
    ensures room { OnOk result (HasRoom needed block.old block.new) }
    ensures unchanged { OnErr result (block.new ≡ block.old) }
{
    if block.capacity() < needed {
        grow(block, alloc, capacity)?;
    }
    Ok(())
}

// Puts a block of a larger capacity in the place of a block, with its words and its tag. It stands apart, since most
// keys find room.
pub(crate) fn grow(block: &mut Block, alloc: Global, capacity: usize) -> Result<(), AllocError>
    requires fits { length block.old.words ≤ capacity }
    requires within { (1 ≤ capacity) × (capacity ≤ 65535) }
    ensures room { OnOk result (HasRoom capacity block.old block.new) }
    ensures unchanged { OnErr result (block.new ≡ block.old) }
{
    let larger = Block::of_words(alloc, capacity, block.tag(), block.words())?;
    *block = larger;
    Ok(())
}

// Puts a key in at a place, with its value.
#[inline(always)]
pub(crate) fn put<V: Words + Drop>(
    block: &mut Block,
    width: usize,
    count: usize,
    at: usize,
    key: u64,
    value: u64,
)
    requires one { V.WORDS ≤ 1 }
    requires tag { block.old.tag ≡ width }
    requires keys { AreKeysFrom width count (V.WORDS * count) block.old }
    requires few { count < 32 }
    requires place { at ≤ count }
    requires below { key < 256 ^ width }
    requires no_value { V.WORDS ≡ 0 → value ≡ 0 }
    requires room { V.WORDS * (count + 1) + words_for width (count + 1) ≤ block.old.capacity }
    ensures { IsPairPut V.WORDS count at key value block.old block.new }
{
    if V::WORDS == 1 {
        put_with_value(block, width, count, at, key, value);
    } else {
        keys::insert(width, block, 0, count, at, key);
    }
}

// The same where keys have values. Where a word has one key, each word is moved once for both.
#[inline(always)]
fn put_with_value(block: &mut Block, width: usize, count: usize, at: usize, key: u64, value: u64)
    requires tag { block.old.tag ≡ width }
    requires keys { AreKeysFrom width count count block.old }
    requires few { count < 32 }
    requires place { at ≤ count }
    requires below { key < 256 ^ width }
    requires room { count + 1 + words_for width (count + 1) ≤ block.old.capacity }
    ensures { IsPairPut 1 count at key value block.old block.new }
{
    if width > 4 {
        block.insert_two(at, value, count + 1 + at, key);
    } else {
        values::insert(block, count, at, value);
        keys::insert(width, block, count + 1, count, at, key);
    }
}

// Takes the key at a place out, with its value.
pub(crate) fn take<V: Words + Drop>(block: &mut Block, width: usize, count: usize, at: usize)
    requires one { V.WORDS ≤ 1 }
    requires tag { block.old.tag ≡ width }
    requires keys { AreKeysFrom width count (V.WORDS * count) block.old }
    requires inside { at < count }
    ensures { IsPairTaken V.WORDS (count - 1) at block.old block.new }
{
    if V::WORDS == 1 {
        keys::remove(width, block, count, count, at);
        values::remove(block, count, at);
    } else {
        keys::remove(width, block, 0, count, at);
    }
}

// Puts pairs, whose keys' lowest bytes ascend, into a block without words, whose tag is the width.
#[inline(always)]
pub(crate) fn put_all<V: Words + Drop>(block: &mut Block, width: usize, pairs: &[(u64, u64)])
    requires one { V.WORDS ≤ 1 }
    requires tag { block.old.tag ≡ width }
    requires empty { block.old.words ≡ [] }
    requires list { IsKeyList
        (record { width = width; pairs = low_pairs (256 ^ width) pairs.now }) }
    requires few { length pairs.now ≤ 32 }
    requires no_values { V.WORDS ≡ 0 → AllByRecursion (λ pair. pair.1 ≡ 0) pairs.now }
    requires room { V.WORDS * length pairs.now + words_for width (length pairs.now)
        ≤ block.old.capacity }
    ensures tag { block.new.tag ≡ width }
    ensures keys { AreKeysFrom width (length pairs.now) (V.WORDS * length pairs.now) block.new }
    ensures pairs { (leaf_list V.WORDS (length pairs.now) block.new).pairs
        ≡ low_pairs (256 ^ width) pairs.now }
{
    if V::WORDS == 1 {
        values::append(block, pairs);
        keys::append(width, block, pairs.len(), pairs);
    } else {
        keys::append(width, block, 0, pairs);
    }
}

// The block of a leaf of two pairs, where a word has one key: the values, if there are any, and the keys. The error is
// want of memory.
#[inline(always)]
pub(crate) fn two_words<V: Words + Drop>(
    alloc: Global,
    width: u8,
    low: (u64, u64),
    high: (u64, u64),
) -> Result<Block, AllocError>
    requires one { V.WORDS ≤ 1 }
    requires wide { (4 < width) × (width ≤ 8) }
    requires below_low { low.0 < 256 ^ width }
    requires below_high { high.0 < 256 ^ width }
    requires no_values { V.WORDS ≡ 0
        → AllByRecursion (λ pair. pair.1 ≡ 0) (low ∷ high ∷ []) }
    ensures tag { IfOk result (λ block. block.tag ≡ width) }
    ensures keys { IfOk result (λ block. AreKeysFrom width 2 (V.WORDS * 2) block) }
    ensures pairs { IfOk result (λ block. (leaf_list V.WORDS 2 block).pairs
        ≡ low_pairs (256 ^ width) (low ∷ high ∷ [])) }
{
    let tag = u32::from(width);
    if V::WORDS == 1 {
        let block = Block::of_words(alloc, 8, tag, &[low.1, high.1, low.0, high.0])?;
        return Ok(block);
    }
    let block = Block::of_words(alloc, 4, tag, &[low.0, high.0])?;
    Ok(block)
}
