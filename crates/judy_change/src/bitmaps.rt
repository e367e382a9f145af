//! Inserts that end at a bitmap leaf.

ghost use Rattle.std.specs.Prelude.{◌≡◌, ◌-◌, ◌/◌, ◌^◌, ◌<◌, ◌≤◌, length};
ghost use Rattle.judy_node.specs.Trees.{IsChild};
ghost use Rattle.judy_node.specs.Kinds.{tree_of, bit_tree, IsLevel, IsBit};
ghost use Rattle.judy_change.specs.LeafTrees.{one_bitmap};
ghost use Rattle.judy_change.specs.Inserted.{IsInserted};

use crate::insertion::{Inserted, Insertion};
use judy_bits::low_part;
use judy_block::Block;
use judy_leaf::{BitLeafOf, BitRef, Words, put_in_bit_leaf};
use judy_node::{Head, KindOf};

// The node of a bitmap leaf behind the bytes that it skips.
pub(crate) fn bitmap_kind<V: Words + Drop>(head: Head, bits: BitLeafOf<V>) -> KindOf<V>
    requires some { 1 ≤ length bits.pairs }
    requires skips { head < 256 ^ (bits.width - 1) }
    ensures level { IsLevel V.WORDS result }
    ensures tree { tree_of V.WORDS result ≡ one_bitmap head bits }
{
    KindOf::Bit(head, bits.into_parts())
}

// Puts a key with its value into a bitmap leaf, where the leaf stands; the key begins with the bytes that the leaf
// skips. The error is want of memory; the leaf is unchanged then.
pub(crate) fn into_bitmap<V: Words + Drop>(
    head: &Head,
    block: &mut Block,
    width: u8,
    pair: Insertion,
) -> Inserted
    requires level { IsBit V.WORDS head.now block.old }
    requires child { IsChild V.WORDS width (bit_tree V.WORDS head.now block.old) }
    requires fits { pair.key < 256 ^ width }
    requires along { pair.key / 256 ≡ head.now }
    requires no_value { V.WORDS ≡ 0 → pair.value ≡ 0 }
    ensures level { IsBit V.WORDS head.now block.new }
    ensures child { IsChild V.WORDS width (bit_tree V.WORDS head.now block.new) }
    ensures inserted { IsInserted pair.key pair.value (bit_tree V.WORDS head.now block.old)
        (bit_tree V.WORDS head.now block.new) result }
{
    let byte = low_part(pair.key, 1) as u8;
    match BitRef::<V>::new(block).search(byte) {
        Ok(_) => Ok(false),
        Err(at) => match put_in_bit_leaf::<V>(pair.alloc, block, at, byte, pair.value) {
            Ok(()) => Ok(true),
            Err(refused) => Err(refused),
        },
    }
}
