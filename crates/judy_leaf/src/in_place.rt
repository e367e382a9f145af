//! Pairs put into leaves whose parts stand in a node, and taken out of them. A search has told the place of the key, so
//! nothing is looked for here.

ghost use Rattle.std.specs.Prelude.{◌≡◌, ◌+◌, ◌*◌, ◌/◌, ◌<◌, ◌≤◌, ◌^◌, OnOk, OnErr, IsFalse, Some, length, slice_get};
ghost use Rattle.std.specs.List.{remove};
ghost use Rattle.judy_bits.specs.ByteSets as set;
ghost use Rattle.judy_leaf.specs.KeyLists.{keys_of, with_pair};
ghost use Rattle.judy_leaf.specs.Leaves.{IsLeafParts, leaf_list};
ghost use Rattle.judy_leaf.specs.BitLeaves.{IsBitParts, bit_list};
ghost use Rattle.judy_leaf.specs.PairChanges.{HasRoom};

use crate::bit_leaf::capacity_for;
use crate::layout::{BIT_WORDS, bit_count};
use crate::words::Words;
use crate::{bit_edit, keys, pairs};
use judy_block::Block;
use std::alloc::{AllocError, Global};

/// Puts an absent key in with its value, which is 0 where keys have no value, into a leaf of fewer than 32 keys of
/// `width` bytes: the number of its keys, and its block. The place is the number of keys below the key. The error is
/// want of memory; the leaf is unchanged then.
#[inline(always)]
pub fn put_in_leaf<V: Words + Drop>(
    alloc: Global,
    count: &mut u8,
    block: &mut Block,
    width: u8,
    at: usize,
    key: u64,
    value: u64,
) -> Result<(), AllocError>
    requires parts { IsLeafParts V.WORDS count.old block.old }
    requires width { block.old.tag ≡ width }
    requires room { count.old < 32 }
    requires place { at ≡ set.rank (keys_of (leaf_list V.WORDS count.old block.old).pairs) key }
    requires absent { IsFalse
        (set.has (keys_of (leaf_list V.WORDS count.old block.old).pairs) key) }
    requires below { key < 256 ^ width }
    requires no_value { V.WORDS ≡ 0 → value ≡ 0 }
    ensures parts { IsLeafParts V.WORDS count.new block.new }
    ensures added { OnOk result
        (leaf_list V.WORDS count.new block.new
        ≡ record (leaf_list V.WORDS count.old block.old) {
          pairs = with_pair key value
              (leaf_list V.WORDS count.old block.old).pairs;
        }) }
    ensures same_count { OnErr result (count.new ≡ count.old) }
    ensures same_block { OnErr result (block.new ≡ block.old) }
{
    let width = usize::from(width);
    let before = usize::from(*count);
    let needed = V::WORDS * (before + 1) + keys::words_of(width, before + 1);
    give_roomy::<V>(block, alloc, width, before + 1, needed)?;
    pairs::put::<V>(block, width, before, at, key, value);
    *count += 1;
    Ok(())
}

// Sees to it that a block has room for so many keys, which need so many words. The larger capacity is told only where
// the block outgrew its own.
#[inline(always)]
fn give_roomy<V: Words + Drop>(
    block: &mut Block,
    alloc: Global,
    width: usize,
    count: usize,
    needed: usize,
) -> Result<(), AllocError>
    requires words { V.WORDS ≤ 1 }
    requires few { count ≤ 32 }
    requires some { 1 ≤ needed }
    requires needed { needed ≤ V.WORDS * count + count }
    requires fits { length block.old.words ≤ needed }
    ensures room { OnOk result (HasRoom needed block.old block.new) }
    ensures unchanged { OnErr result (block.new ≡ block.old) }
{
    if block.capacity() >= needed {
        return Ok(());
    }
    pairs::grow(block, alloc, roomy_for::<V>(width, count, needed))
}

// The capacity of a block that outgrew its own, for so many keys that need so many words. Keys of eight bytes stand in
// a root alone.
#[inline(always)]
fn roomy_for<V: Words + Drop>(width: usize, count: usize, needed: usize) -> usize
    requires words { V.WORDS ≤ 1 }
    requires few { count ≤ 32 }
    requires some { 1 ≤ needed }
    requires needed { needed ≤ V.WORDS * count + count }
    ensures room { needed ≤ result }
    ensures within { (1 ≤ result) × (result ≤ 72) }
{
    if width == 8 {
        roomy_root::<V>(count)
    } else {
        roomy(needed)
    }
}

// Whole fours of words, or whole eights where there are many, so that a leaf with values doesn't grow at every second
// key.
fn roomy(needed: usize) -> usize
    requires { needed ≤ 66 }
    ensures fours { (needed + 3) / 4 * 4 ≤ result }
    ensures within { result ≤ 72 }
{
    if needed <= 24 {
        (needed + 3) / 4 * 4
    } else {
        (needed + 7) / 8 * 8
    }
}

// A root's leaf grows in few steps, since each array has but one.
fn roomy_root<V: Words + Drop>(count: usize) -> usize
    requires words { V.WORDS ≤ 1 }
    requires few { count ≤ 32 }
    ensures room { V.WORDS * count + count ≤ result }
    ensures within { (1 ≤ result) × (result ≤ 72) }
{
    let keys = if V::WORDS == 0 {
        keys_of_set(count)
    } else {
        keys_of_map(count)
    };
    V::WORDS * keys + keys
}

// For how many keys a set's root leaf has room that is to hold so many.
fn keys_of_set(count: usize) -> usize
    requires { count ≤ 32 }
    ensures room { count ≤ result }
    ensures within { (1 ≤ result) × (result ≤ 32) }
{
    match count {
        0..=4 => 4,
        5..=10 => 10,
        11..=20 => 20,
        _ => 32,
    }
}

// The same of a map, whose keys take twice as much: smaller steps.
fn keys_of_map(count: usize) -> usize
    requires { count ≤ 32 }
    ensures room { count ≤ result }
    ensures within { (1 ≤ result) × (result ≤ 32) }
{
    match count {
        0..=4 => 4,
        5..=7 => 7,
        8..=10 => 10,
        11..=16 => 16,
        17..=24 => 24,
        _ => 32,
    }
}

/// The same for a bitmap leaf, whose keys are bytes, and which is its block.
pub fn put_in_bit_leaf<V: Words + Drop>(
    alloc: Global,
    block: &mut Block,
    at: usize,
    byte: u8,
    value: u64,
) -> Result<(), AllocError>
    requires parts { IsBitParts V.WORDS block.old }
    requires place { at ≡ set.rank (keys_of (bit_list V.WORDS block.old).pairs) byte }
    requires absent { IsFalse (set.has (keys_of (bit_list V.WORDS block.old).pairs) byte) }
    requires no_value { V.WORDS ≡ 0 → value ≡ 0 }
    ensures parts { IsBitParts V.WORDS block.new }
    ensures added { OnOk result
        (bit_list V.WORDS block.new
        ≡ record (bit_list V.WORDS block.old) {
          pairs = with_pair byte value
              (bit_list V.WORDS block.old).pairs;
        }) }
    ensures unchanged { OnErr result (block.new ≡ block.old) }
{
    let count = bit_count(block) as usize + 1;
    pairs::give_room(
        block,
        alloc,
        BIT_WORDS + V::WORDS * count,
        capacity_for::<V>(count),
    )?;
    bit_edit::put::<V>(block, at, byte, value);
    Ok(())
}

/// Takes the key at a place out of a leaf of keys of `width` bytes, with its value. No memory is asked for.
pub fn take_from_leaf<V: Words + Drop>(count: &mut u8, block: &mut Block, width: u8, at: usize)
    requires parts { IsLeafParts V.WORDS count.old block.old }
    requires width { block.old.tag ≡ width }
    requires inside { at < length (leaf_list V.WORDS count.old block.old).pairs }
    ensures parts { IsLeafParts V.WORDS count.new block.new }
    ensures taken { leaf_list V.WORDS count.new block.new
        ≡ record (leaf_list V.WORDS count.old block.old) {
          pairs = remove
              (leaf_list V.WORDS count.old block.old).pairs at;
        } }
{
    pairs::take::<V>(block, usize::from(width), usize::from(*count), at);
    *count -= 1;
}

/// The same for a bitmap leaf, where the key at the place is the byte.
pub fn take_from_bit_leaf<V: Words + Drop>(block: &mut Block, at: usize, byte: u8)
    requires parts { IsBitParts V.WORDS block.old }
    requires there { slice_get (keys_of (bit_list V.WORDS block.old).pairs) at ≡ Some byte }
    ensures parts { IsBitParts V.WORDS block.new }
    ensures taken { bit_list V.WORDS block.new
        ≡ record (bit_list V.WORDS block.old) {
          pairs = remove
              (bit_list V.WORDS block.old).pairs at;
        } }
{
    bit_edit::take::<V>(block, at, byte);
}
