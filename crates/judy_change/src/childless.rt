//! A key put into a node without children.

ghost use Rattle.std.specs.Prelude.{◌≡◌, ◌-◌, ◌^◌, ◌<◌, ◌≤◌, true, false, length, Some};
ghost use Rattle.judy_node.specs.Trees.{IsChild};
ghost use Rattle.judy_node.specs.Kinds.{tree_of, IsLevel};
ghost use Rattle.judy_node.specs.Slots.{value_of, with_value};
ghost use Rattle.judy_change.specs.Removals.{IsChildless};
ghost use Rattle.judy_change.specs.Inserted.{has_key, IsInserted};
ghost use Rattle.judy_change.specs.Put.{IsPut};

use crate::bitmaps::into_bitmap;
use crate::immediates::into_immediate;
use crate::insertion::{Inserted, Insertion};
use crate::leaves::into_leaf;
use crate::present::{Present, Put};
use crate::replaced::replaced;
use judy_bits::without_low;
use judy_leaf::{BIT_WORDS, BitRef, LEAF_ROOM, LeafRef, Words};
use judy_node::KindOf;
use std::mem;

// Puts a key with its value into a node without children, whose keys have `width` bytes.
#[inline(always)]
pub(crate) fn put_in_childless<V: Words + Drop, P: Present>(
    kind: &mut KindOf<V>,
    width: u8,
    pair: Insertion,
) -> Put
    requires one { V.WORDS ≤ 1 }
    requires words { P.REPLACES ≡ true → V.WORDS ≡ 1 }
    requires level { IsLevel V.WORDS kind.old }
    requires child { IsChild V.WORDS width (tree_of V.WORDS kind.old) }
    requires childless { IsChildless kind.old }
    requires fits { pair.key < 256 ^ width }
    requires no_value { V.WORDS ≡ 0 → pair.value ≡ 0 }
    requires room { has_key pair.key (tree_of V.WORDS kind.old) ≡ false
        → length (tree_of V.WORDS kind.old).pairs < 2 ^ 64 - 1 }
    ensures level { IsLevel V.WORDS kind.new }
    ensures child { IsChild V.WORDS width (tree_of V.WORDS kind.new) }
    ensures put { IsPut P.REPLACES pair.key pair.value (tree_of V.WORDS kind.old)
        (tree_of V.WORDS kind.new) result }
{
    match into_childless(kind, width, pair) {
        Ok(true) => Put::Added,
        Ok(false) if P::REPLACES => Put::There(overwrite(kind, width, pair.key, pair.value)),
        Ok(false) => Put::There(0),
        Err(_) => Put::Refused,
    }
}

// The same where a key that is there keeps its value. The answer is whether it was absent.
#[inline(always)]
fn into_childless<V: Words + Drop>(kind: &mut KindOf<V>, width: u8, pair: Insertion) -> Inserted
    requires one { V.WORDS ≤ 1 }
    requires level { IsLevel V.WORDS kind.old }
    requires child { IsChild V.WORDS width (tree_of V.WORDS kind.old) }
    requires childless { IsChildless kind.old }
    requires fits { pair.key < 256 ^ width }
    requires no_value { V.WORDS ≡ 0 → pair.value ≡ 0 }
    requires room { has_key pair.key (tree_of V.WORDS kind.old) ≡ false
        → length (tree_of V.WORDS kind.old).pairs < 2 ^ 64 - 1 }
    ensures level { IsLevel V.WORDS kind.new }
    ensures child { IsChild V.WORDS width (tree_of V.WORDS kind.new) }
    ensures inserted { IsInserted pair.key pair.value (tree_of V.WORDS kind.old)
        (tree_of V.WORDS kind.new) result }
{
    match kind {
        KindOf::Imm(head, word) => {
            let (head, word) = (head.number(), *word);
            into_immediate(kind, head, word, width, pair)
        }
        KindOf::Leaf(count, block) => {
            if usize::from(*count) < LEAF_ROOM {
                into_leaf::<V>(count, block, width, pair)
            } else {
                replaced(kind, width, pair)
            }
        }
        KindOf::Bit(head, block) => {
            if without_low(pair.key, 1) == head.number() {
                into_bitmap::<V>(head, block, width, pair)
            } else {
                replaced(kind, width, pair)
            }
        }
        KindOf::Branch(_) => unreachable!(),
    }
}

// Writes the value of a key that a node without children has, and answers the one that was there.
fn overwrite<V: Words + Drop>(kind: &mut KindOf<V>, width: u8, key: u64, value: u64) -> u64
    requires words { V.WORDS ≡ 1 }
    requires level { IsLevel V.WORDS kind.old }
    requires child { IsChild V.WORDS width (tree_of V.WORDS kind.old) }
    requires childless { IsChildless kind.old }
    requires there { has_key key (tree_of V.WORDS kind.old) ≡ true }
    ensures level { IsLevel V.WORDS kind.new }
    ensures was { value_of key (tree_of V.WORDS kind.old).pairs ≡ Some result }
    ensures written { tree_of V.WORDS kind.new ≡ with_value (tree_of V.WORDS kind.old) key value }
{
    match kind {
        KindOf::Imm(_, word) => mem::replace(word, value),
        KindOf::Leaf(count, block) => {
            let Some(at) = LeafRef::<V>::new(*count, width, block).find(key) else {
                unreachable!()
            };
            mem::replace(block.slot(at), value)
        }
        KindOf::Bit(head, block) => {
            let low = key - head.number() * 256;
            let Some(at) = BitRef::<V>::new(block).find(low) else {
                unreachable!()
            };
            mem::replace(block.slot(BIT_WORDS + at), value)
        }
        KindOf::Branch(_) => unreachable!(),
    }
}
