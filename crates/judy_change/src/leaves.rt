//! Inserts that end at a leaf.

ghost use Rattle.std.specs.Prelude.{◌≡◌, ◌^◌, ◌<◌, ◌≤◌, false, length, IfOk};
ghost use Rattle.judy_bits.specs.ByteSets as set;
ghost use Rattle.judy_model.specs.Shapes.{immediate_limit};
ghost use Rattle.judy_leaf.specs.KeyLists.{keys_of, with_pair};
ghost use Rattle.judy_node.specs.Trees.{IsChild};
ghost use Rattle.judy_node.specs.Kinds.{tree_of, leaf_tree, IsLevel, IsLeaf};
ghost use Rattle.judy_node.specs.Built.{IsBuilt};
ghost use Rattle.judy_change.specs.LeafTrees.{one_leaf};
ghost use Rattle.judy_change.specs.Inserted.{IsInserted};

use crate::gap::put_at;
use crate::insertion::{Inserted, Insertion};
use judy_block::Block;
use judy_leaf::{LEAF_ROOM, LeafOf, LeafRef, Spare, Words, put_in_leaf};
use judy_node::{KindOf, kind_of_sorted};
use std::alloc::AllocError;

// The node of a leaf.
pub(crate) fn leaf_kind<V: Words + Drop>(leaf: LeafOf<V>) -> KindOf<V>
    requires { immediate_limit V.WORDS leaf.width < length leaf.pairs }
    ensures level { IsLevel V.WORDS result }
    ensures tree { tree_of V.WORDS result ≡ one_leaf leaf }
{
    let (count, block) = leaf.into_parts();
    KindOf::Leaf(count, block)
}

// Puts a key with its value into a leaf that isn't full, where the leaf stands. The error is want of memory; the leaf
// is unchanged then.
#[inline(always)]
pub(crate) fn into_leaf<V: Words + Drop>(
    count: &mut u8,
    block: &mut Block,
    width: u8,
    pair: Insertion,
) -> Inserted
    requires level { IsLeaf V.WORDS count.old block.old }
    requires child { IsChild V.WORDS width (leaf_tree V.WORDS count.old block.old) }
    requires room { count.old < 32 }
    requires fits { pair.key < 256 ^ width }
    requires no_value { V.WORDS ≡ 0 → pair.value ≡ 0 }
    ensures level { IsLeaf V.WORDS count.new block.new }
    ensures child { IsChild V.WORDS width (leaf_tree V.WORDS count.new block.new) }
    ensures inserted { IsInserted pair.key pair.value (leaf_tree V.WORDS count.old block.old)
        (leaf_tree V.WORDS count.new block.new) result }
{
    match LeafRef::<V>::new(*count, width, block).search(pair.key) {
        Ok(_) => Ok(false),
        Err(at) => match put_in_leaf::<V>(
            pair.alloc, count, block, width, at, pair.key, pair.value,
        ) {
            Ok(()) => Ok(true),
            Err(refused) => Err(refused),
        },
    }
}

// Puts a key with its value into a full leaf, whose place a larger node takes. Where memory is short, the leaf stays.
pub(crate) fn into_full_leaf<V: Words + Drop>(
    count: u8,
    block: Block,
    width: u8,
    pair: Insertion,
) -> (KindOf<V>, Inserted)
    requires one { V.WORDS ≤ 1 }
    requires level { IsLeaf V.WORDS count block }
    requires child { IsChild V.WORDS width (leaf_tree V.WORDS count block) }
    requires full { 32 ≤ count }
    requires fits { pair.key < 256 ^ width }
    requires no_value { V.WORDS ≡ 0 → pair.value ≡ 0 }
    ensures level { IsLevel V.WORDS result.0 }
    ensures child { IsChild V.WORDS width (tree_of V.WORDS result.0) }
    ensures inserted { IsInserted pair.key pair.value (leaf_tree V.WORDS count block)
        (tree_of V.WORDS result.0) result.1 }
{
    match LeafRef::<V>::new(count, width, &block).search(pair.key) {
        Ok(_) => (KindOf::Leaf(count, block), Ok(false)),
        Err(at) => {
            let full = LeafRef::<V>::new(count, width, &block);
            match past_leaf(full, width, at, pair) {
                Ok(kind) => (kind, Ok(true)),
                Err(refused) => (KindOf::Leaf(count, block), Err(refused)),
            }
        }
    }
}

// One key more than a leaf holds.
const ONE_MORE: usize = LEAF_ROOM + 1;

// The node of a full leaf's pairs and one more, whose key's place is given. The error is want of memory.
fn past_leaf<V: Words + Drop>(
    full: LeafRef<'_, V>,
    width: u8,
    at: usize,
    pair: Insertion,
) -> Result<KindOf<V>, AllocError>
    requires one { V.WORDS ≤ 1 }
    requires full { length full.pairs ≡ 32 }
    requires child { IsChild V.WORDS width (one_leaf full) }
    requires absent { set.has (keys_of full.pairs) pair.key ≡ false }
    requires place { at ≡ set.rank (keys_of full.pairs) pair.key }
    requires fits { pair.key < 256 ^ width }
    requires no_value { V.WORDS ≡ 0 → pair.value ≡ 0 }
    ensures level { IfOk result (λ kind. IsLevel V.WORDS kind) }
    ensures built { IfOk result
        (λ kind. IsBuilt V.WORDS width (with_pair pair.key pair.value full.entry.pairs)
        (tree_of V.WORDS kind)) }
{
    let mut pairs = [(0, 0); ONE_MORE];
    full.fill(0, &mut pairs[..LEAF_ROOM]);
    put_at(&mut pairs, at, (pair.key, pair.value));
    kind_of_sorted(pair.alloc, width, &pairs, Spare::Ample)
}
