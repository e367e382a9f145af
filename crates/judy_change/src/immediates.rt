//! Inserts that end at an immediate.

ghost use Rattle.std.specs.Prelude.{◌≡◌, ◌^◌, ◌<◌, ◌≤◌, false, length, IfOk};
ghost use Rattle.judy_bits.specs.ByteSets as set;
ghost use Rattle.judy_leaf.specs.KeyLists.{keys_of, with_pair};
ghost use Rattle.judy_leaf.specs.Immediates.{imm_room};
ghost use Rattle.judy_node.specs.Trees.{IsChild, IsMap, IsTight};
ghost use Rattle.judy_node.specs.Kinds.{tree_of, imm_tree, IsLevel, IsImm};
ghost use Rattle.judy_node.specs.Built.{IsBuilt};
ghost use Rattle.judy_change.specs.Inserted.{IsInserted};

use crate::gap::{in_order, put_at};
use crate::insertion::{Inserted, Insertion};
use judy_leaf::{ImmOf, Spare, Words};
use judy_node::{Head, KindOf, imm_of, kind_of_sorted, leaf_of_two};
use std::alloc::AllocError;

// The node of an immediate whose keys have no values.
pub(crate) fn keys_kind<V: Words + Drop>(imm: ImmOf<V>) -> KindOf<V>
    requires no_values { V.WORDS ≡ 0 }
    requires some { 1 ≤ length imm.pairs }
    ensures level { IsLevel V.WORDS result }
    ensures width { (tree_of V.WORDS result).width ≡ imm.width }
    ensures pairs { (tree_of V.WORDS result).pairs ≡ imm.pairs }
    ensures tight { IsTight (tree_of V.WORDS result) }
{
    let width = imm.width();
    let (count, keys) = imm.into_parts();
    KindOf::Imm(Head::of_keys(count, width), keys)
}

// Puts a key with its value into an immediate, which is given by its two words and stands at a place; where it is full,
// a leaf takes that place. The error is want of memory for the leaf; the immediate stays then.
#[inline(always)]
pub(crate) fn into_immediate<V: Words + Drop>(
    kind: &mut KindOf<V>,
    head: u64,
    word: u64,
    width: u8,
    pair: Insertion,
) -> Inserted
    requires one { V.WORDS ≤ 1 }
    requires level { IsLevel V.WORDS kind.old }
    requires here { tree_of V.WORDS kind.old ≡ imm_tree V.WORDS head word }
    requires immediate { IsImm V.WORDS head word }
    requires child { IsChild V.WORDS width (imm_tree V.WORDS head word) }
    requires fits { pair.key < 256 ^ width }
    requires no_value { V.WORDS ≡ 0 → pair.value ≡ 0 }
    ensures level { IsLevel V.WORDS kind.new }
    ensures child { IsChild V.WORDS width (tree_of V.WORDS kind.new) }
    ensures inserted { IsInserted pair.key pair.value (imm_tree V.WORDS head word)
        (tree_of V.WORDS kind.new) result }
{
    let mut imm = imm_of::<V>(width, head, word);
    if imm.find(pair.key).is_some() {
        return Ok(false);
    }
    if imm.is_full() {
        return match past_immediate(&imm, width, pair) {
            Ok(leaf) => {
                *kind = leaf;
                Ok(true)
            }
            Err(refused) => Err(refused),
        };
    }
    imm.insert_pair(pair.key, pair.value);
    *kind = keys_kind(imm);
    Ok(true)
}

// The leaf of a full immediate's keys and one more. The error is want of memory. Mostly the immediate has one key.
#[inline(always)]
fn past_immediate<V: Words + Drop>(
    full: &ImmOf<V>,
    width: u8,
    pair: Insertion,
) -> Result<KindOf<V>, AllocError>
    requires one { V.WORDS ≤ 1 }
    requires full { length full.now.pairs ≡ imm_room V.WORDS width }
    requires wide { full.now.width ≡ width }
    requires map { IsMap V.WORDS 0 (256 ^ width) full.now.pairs }
    requires absent { set.has (keys_of full.now.pairs) pair.key ≡ false }
    requires fits { pair.key < 256 ^ width }
    requires no_value { V.WORDS ≡ 0 → pair.value ≡ 0 }
    ensures level { IfOk result (λ kind. IsLevel V.WORDS kind) }
    ensures built { IfOk result
        (λ kind. IsBuilt V.WORDS width (with_pair pair.key pair.value full.now.pairs)
        (tree_of V.WORDS kind)) }
{
    if full.len() != 1 {
        return past_few(full, width, pair);
    }
    let (low, high) = in_order((full.key_at(0), full.value_at(0)), (pair.key, pair.value));
    leaf_of_two(pair.alloc, width, low, high)
}

// The same where there may be more keys than one.
fn past_few<V: Words + Drop>(
    full: &ImmOf<V>,
    width: u8,
    pair: Insertion,
) -> Result<KindOf<V>, AllocError>
    requires one { V.WORDS ≤ 1 }
    requires full { length full.now.pairs ≡ imm_room V.WORDS width }
    requires wide { full.now.width ≡ width }
    requires map { IsMap V.WORDS 0 (256 ^ width) full.now.pairs }
    requires absent { set.has (keys_of full.now.pairs) pair.key ≡ false }
    requires fits { pair.key < 256 ^ width }
    requires no_value { V.WORDS ≡ 0 → pair.value ≡ 0 }
    ensures level { IfOk result (λ kind. IsLevel V.WORDS kind) }
    ensures built { IfOk result
        (λ kind. IsBuilt V.WORDS width (with_pair pair.key pair.value full.now.pairs)
        (tree_of V.WORDS kind)) }
{
    let mut pairs = [(0, 0); 9];
    let count = full.len();
    full.fill(0, &mut pairs[..count]);
    put_at(
        &mut pairs[..count + 1],
        full.rank(pair.key),
        (pair.key, pair.value),
    );
    kind_of_sorted(pair.alloc, width, &pairs[..count + 1], Spare::Ample)
}
