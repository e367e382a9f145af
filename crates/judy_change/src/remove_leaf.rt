//! A key taken out of a node without children.

ghost use Rattle.std.specs.Prelude.{◌≡◌, ◌+◌, ◌/◌, ◌%◌, ◌^◌, ◌<◌, ◌≤◌, length, MatchOption, Some, None};
ghost use Rattle.judy_bits.specs.ByteSets as set;
ghost use Rattle.judy_model.specs.Shapes.{immediate_limit};
ghost use Rattle.judy_leaf.specs.KeyLists.{keys_of};
ghost use Rattle.judy_leaf.specs.BitLeaves.{bit_list};
ghost use Rattle.judy_node.specs.Trees.{IsMap, IsChild};
ghost use Rattle.judy_node.specs.Kinds.{IsLeaf, leaf_tree, IsBit, bit_tree, IsImm, imm_tree};
ghost use Rattle.judy_change.specs.Removals.{IsTightOf, IsTaken};

use crate::bitmaps::bitmap_kind;
use crate::immediates::keys_kind;
use crate::leaves::leaf_kind;
use crate::removed::Taken;
use crate::settle::lessen;
use judy_bits::{low_part, without_low};
use judy_block::Block;
use judy_leaf::{
    BitLeafOf, BitRef, ImmOf, LeafOf, LeafRef, Words, take_from_bit_leaf, take_from_leaf,
};
use judy_node::{ChildOf, Head, KindOf, imm_of, immediate_of_sorted};
use std::alloc::Global;

/// Takes a key out of a leaf, where it stands. One key fewer is still more than an immediate holds.
pub(crate) fn remove_from_leaf<V: Words + Drop>(
    count: &mut u8,
    block: &mut Block,
    width: u8,
    key: u64,
) -> Taken
    requires level { IsLeaf V.WORDS count.old block.old }
    requires child { IsChild V.WORDS width (leaf_tree V.WORDS count.old block.old) }
    requires many { immediate_limit V.WORDS width + 1 < count.old }
    ensures level { IsLeaf V.WORDS count.new block.new }
    ensures taken { IsTaken V.WORDS width key (leaf_tree V.WORDS count.old block.old)
        (leaf_tree V.WORDS count.new block.new) result }
{
    match LeafRef::<V>::new(*count, width, block).find(key) {
        Some(at) => {
            let value = LeafRef::<V>::new(*count, width, block).value_at(at);
            take_from_leaf::<V>(count, block, width, at);
            Taken::Gone(value, true)
        }
        None => Taken::Absent,
    }
}

// The immediate of what is left of a leaf's pairs.
fn immediate_left<V: Words + Drop>(width: u8, leaf: LeafOf<V>) -> ChildOf<V>
    requires one { V.WORDS ≤ 1 }
    requires list { leaf.width ≡ width }
    requires width { (1 ≤ width) × (width ≤ 8) }
    requires some { 1 ≤ length leaf.pairs }
    requires few { length leaf.pairs ≤ immediate_limit V.WORDS width }
    requires two { width ≡ 8 → 2 ≤ length leaf.pairs }
    requires map { IsMap V.WORDS 0 (256 ^ width) leaf.pairs }
    ensures { IsTightOf V.WORDS width leaf.pairs result }
{
    let count = leaf.reading().len();
    let mut pairs = [(0, 0); 8];
    leaf.reading().fill(0, &mut pairs[..count]);
    ChildOf::close(immediate_of_sorted(width, &pairs[..count]))
}

/// Takes a key out of a leaf of one key more than an immediate holds, whose keys have `width` bytes; of width 8 there
/// are three at least. It becomes an immediate, and no memory is asked for.
pub(crate) fn shrink_leaf<V: Words + Drop>(
    width: u8,
    count: u8,
    block: Block,
    key: u64,
) -> (ChildOf<V>, Taken)
    requires one { V.WORDS ≤ 1 }
    requires level { IsLeaf V.WORDS count block }
    requires child { IsChild V.WORDS width (leaf_tree V.WORDS count block) }
    requires few { count ≤ immediate_limit V.WORDS width + 1 }
    requires three { width ≡ 8 → 3 ≤ length (leaf_tree V.WORDS count block).pairs }
    ensures { IsTaken V.WORDS width key (leaf_tree V.WORDS count block) result.0 result.1 }
{
    let mut leaf = LeafOf::<V>::of_parts(count, block);
    match leaf.reading().find(key) {
        Some(at) => {
            let value = leaf.reading().value_at(at);
            leaf.remove(at);
            (immediate_left(width, leaf), Taken::Gone(value, true))
        }
        None => (ChildOf::close(leaf_kind(leaf)), Taken::Absent),
    }
}

// The place of a key in a bitmap leaf behind the number that its skipped bytes spell.
fn find_bit<V: Words + Drop>(skipped: u64, bits: BitRef<'_, V>, key: u64) -> Option<usize>
    ensures { MatchOption result
        (key / 256 ≡ skipped → set.place (keys_of bits.entry.pairs) (key % 256) ≡ None)
        (λ at. (key / 256 ≡ skipped)
        × (set.place (keys_of bits.entry.pairs) (key % 256) ≡ Some at)) }
{
    if without_low(key, 1) != skipped {
        return None;
    }
    bits.find(low_part(key, 1))
}

/// Takes a key out of a bitmap leaf of more than 33 keys, where it stands.
pub(crate) fn remove_from_bitmap<V: Words + Drop>(
    head: &Head,
    block: &mut Block,
    width: u8,
    key: u64,
) -> Taken
    requires level { IsBit V.WORDS head.now block.old }
    requires child { IsChild V.WORDS width (bit_tree V.WORDS head.now block.old) }
    requires many { 33 < length (bit_list V.WORDS block.old).pairs }
    ensures level { IsBit V.WORDS head.now block.new }
    ensures taken { IsTaken V.WORDS width key (bit_tree V.WORDS head.now block.old)
        (bit_tree V.WORDS head.now block.new) result }
{
    match find_bit(head.number(), BitRef::<V>::new(block), key) {
        Some(at) => {
            let value = BitRef::<V>::new(block).value_at(at);
            take_from_bit_leaf::<V>(block, at, low_part(key, 1) as u8);
            Taken::Gone(value, true)
        }
        None => Taken::Absent,
    }
}

/// Takes a key out of a bitmap leaf of at most 33 keys, in a node whose keys have `width` bytes; of width 8 there are
/// three at least. What is left gets a leaf if there is memory for it.
pub(crate) fn shrink_bitmap<V: Words + Drop>(
    alloc: Global,
    width: u8,
    head: Head,
    block: Block,
    key: u64,
) -> (ChildOf<V>, Taken)
    requires one { V.WORDS ≤ 1 }
    requires level { IsBit V.WORDS head block }
    requires child { IsChild V.WORDS width (bit_tree V.WORDS head block) }
    requires few { length (bit_list V.WORDS block).pairs ≤ 33 }
    requires three { width ≡ 8 → 3 ≤ length (bit_tree V.WORDS head block).pairs }
    ensures { IsTaken V.WORDS width key (bit_tree V.WORDS head block) result.0 result.1 }
{
    let mut bits = BitLeafOf::<V>::of_parts(block);
    match find_bit(head.number(), bits.reading(), key) {
        Some(at) => {
            let value = bits.reading().value_at(at);
            if bits.reading().len() == 1 {
                return (ChildOf::close(bitmap_kind(head, bits)), Taken::Only(value));
            }
            bits.remove(at);
            let child = ChildOf::close(bitmap_kind(head, bits));
            let (child, shrunk) = lessen(alloc, width, child);
            (child, Taken::Gone(value, shrunk))
        }
        None => (ChildOf::close(bitmap_kind(head, bits)), Taken::Absent),
    }
}

/// Takes a key out of an immediate, whose keys have `width` bytes. No memory is asked for.
pub(crate) fn remove_immediate<V: Words + Drop>(
    width: u8,
    head: Head,
    word: u64,
    key: u64,
) -> (ChildOf<V>, Taken)
    requires level { IsImm V.WORDS head word }
    requires child { IsChild V.WORDS width (imm_tree V.WORDS head word) }
    ensures { IsTaken V.WORDS width key (imm_tree V.WORDS head word) result.0 result.1 }
{
    let mut imm: ImmOf<V> = imm_of(width, head.number(), word);
    match imm.find(key) {
        Some(at) => {
            let value = imm.value_at(at);
            if imm.len() == 1 {
                return (ChildOf::close(KindOf::Imm(head, word)), Taken::Only(value));
            }
            imm.remove(at);
            (ChildOf::close(keys_kind(imm)), Taken::Gone(value, true))
        }
        None => (ChildOf::close(KindOf::Imm(head, word)), Taken::Absent),
    }
}
