//! A node in which a key has no room, and which gives way to another.

ghost use Rattle.std.specs.Prelude.{◌≡◌, ◌≢◌, ◌+◌, ◌-◌, ◌/◌, ◌^◌, ◌<◌, ◌≤◌, false, length};
ghost use Rattle.judy_model.specs.WordBytes.{number_of};
ghost use Rattle.judy_node.specs.Trees.{IsChild};
ghost use Rattle.judy_node.specs.Branches.{IsWholeBranch, tree_below};
ghost use Rattle.judy_node.specs.Populations.{AreSums};
ghost use Rattle.judy_node.specs.Kinds.{tree_of, bit_tree, IsLevel, IsBit};
ghost use Rattle.judy_change.specs.Removals.{width_of};
ghost use Rattle.judy_change.specs.Inserted.{has_key, IsInserted, IsPast};

use crate::insertion::{Inserted, Insertion};
use crate::leaves::into_full_leaf;
use crate::split::{Skipped, split};
use judy_block::Block;
use judy_leaf::Words;
use judy_node::{BranchOf, Head, KindOf};
use std::mem;

// Puts a key with its value into a node in which it has no room, so that one of another kind takes its place.
pub(crate) fn replaced<V: Words + Drop>(
    kind: &mut KindOf<V>,
    width: u8,
    pair: Insertion,
) -> Inserted
    requires one { V.WORDS ≤ 1 }
    requires level { IsLevel V.WORDS kind.old }
    requires child { IsChild V.WORDS width (tree_of V.WORDS kind.old) }
    requires past { IsPast pair.key kind.old }
    requires fits { pair.key < 256 ^ width }
    requires no_value { V.WORDS ≡ 0 → pair.value ≡ 0 }
    requires room { has_key pair.key (tree_of V.WORDS kind.old) ≡ false
        → length (tree_of V.WORDS kind.old).pairs < 2 ^ 64 - 1 }
    ensures level { IsLevel V.WORDS kind.new }
    ensures child { IsChild V.WORDS width (tree_of V.WORDS kind.new) }
    ensures inserted { IsInserted pair.key pair.value (tree_of V.WORDS kind.old)
        (tree_of V.WORDS kind.new) result }
{
    let old = mem::replace(kind, KindOf::Imm(Head::new(0), 0));
    let (new, answer) = replacement(old, width, pair);
    *kind = new;
    answer
}

// The same for such a node taken out of its place.
fn replacement<V: Words + Drop>(
    kind: KindOf<V>,
    width: u8,
    pair: Insertion,
) -> (KindOf<V>, Inserted)
    requires one { V.WORDS ≤ 1 }
    requires level { IsLevel V.WORDS kind }
    requires child { IsChild V.WORDS width (tree_of V.WORDS kind) }
    requires past { IsPast pair.key kind }
    requires fits { pair.key < 256 ^ width }
    requires no_value { V.WORDS ≡ 0 → pair.value ≡ 0 }
    requires room { has_key pair.key (tree_of V.WORDS kind) ≡ false
        → length (tree_of V.WORDS kind).pairs < 2 ^ 64 - 1 }
    ensures level { IsLevel V.WORDS result.0 }
    ensures child { IsChild V.WORDS width (tree_of V.WORDS result.0) }
    ensures inserted { IsInserted pair.key pair.value (tree_of V.WORDS kind)
        (tree_of V.WORDS result.0) result.1 }
{
    match kind {
        KindOf::Imm(_, _) => unreachable!(),
        KindOf::Leaf(count, block) => into_full_leaf(count, block, width, pair),
        KindOf::Bit(head, block) => past_bit(head, block, width, pair),
        KindOf::Branch(branch) => past_branch(branch, pair),
    }
}

// Puts a key with its value beside a bitmap leaf that skips other bytes than the key begins with.
fn past_bit<V: Words + Drop>(
    head: Head,
    block: Block,
    width: u8,
    pair: Insertion,
) -> (KindOf<V>, Inserted)
    requires one { V.WORDS ≤ 1 }
    requires level { IsBit V.WORDS head block }
    requires child { IsChild V.WORDS width (bit_tree V.WORDS head block) }
    requires fits { pair.key < 256 ^ width }
    requires apart { pair.key / 256 ≢ head }
    requires no_value { V.WORDS ≡ 0 → pair.value ≡ 0 }
    requires room { has_key pair.key (bit_tree V.WORDS head block) ≡ false
        → length (bit_tree V.WORDS head block).pairs < 2 ^ 64 - 1 }
    ensures level { IsLevel V.WORDS result.0 }
    ensures child { IsChild V.WORDS width (tree_of V.WORDS result.0) }
    ensures inserted { IsInserted pair.key pair.value (bit_tree V.WORDS head block)
        (tree_of V.WORDS result.0) result.1 }
{
    let skipped = Skipped {
        number: head.number(),
        count: width - 1,
        tail: 1,
    };
    split(KindOf::Bit(head, block), skipped, pair)
}

// Puts a key with its value beside a branch that skips other bytes than the key begins with.
fn past_branch<V: Words + Drop>(branch: Box<BranchOf<V>>, pair: Insertion) -> (KindOf<V>, Inserted)
    requires one { V.WORDS ≤ 1 }
    requires level { IsWholeBranch V.WORDS branch.value }
    requires sums { AreSums branch.value.sums branch.value.children.items }
    requires fits { pair.key < 256 ^ width_of branch.value }
    requires apart { pair.key / 256 ^ (1 + branch.value.width) ≢ number_of branch.value.skip }
    requires no_value { V.WORDS ≡ 0 → pair.value ≡ 0 }
    requires room { has_key pair.key (tree_below branch.value) ≡ false
        → branch.value.population < 2 ^ 64 - 1 }
    ensures level { IsLevel V.WORDS result.0 }
    ensures child { IsChild V.WORDS (width_of branch.value) (tree_of V.WORDS result.0) }
    ensures inserted { IsInserted pair.key pair.value (tree_below branch.value)
        (tree_of V.WORDS result.0) result.1 }
{
    let skipped = Skipped {
        number: branch.skip.number(),
        count: branch.skip.len() as u8,
        tail: 1 + branch.width,
    };
    split(KindOf::Branch(branch), skipped, pair)
}
