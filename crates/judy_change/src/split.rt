//! A branch put above a node, for a key that doesn't begin with the bytes that the node skips.

ghost use Rattle.std.specs.Prelude.{◌≡◌, ◌≢◌, ◌+◌, ◌-◌, ◌*◌, ◌/◌, ◌^◌, ◌<◌, ◌≤◌, false, length, IfOk, IfErr, vec_len, vec_capacity, List};
ghost use Rattle.judy_model.specs.WordBytes.{low_bytes};
ghost use Rattle.judy_node.specs.Trees.{Tree, IsChild};
ghost use Rattle.judy_node.specs.Populations.{AreSums};
ghost use Rattle.judy_node.specs.Kinds.{tree_of, IsLevel};
ghost use Rattle.judy_change.specs.Splits.{IsSkipping, IsShorter, IsAbove};
ghost use Rattle.judy_change.specs.Inserted.{has_key, IsInserted};

use crate::insertion::{Inserted, Insertion};
use crate::put::{add_child, put_key};
use judy_bits::{ByteSet, Skip, low_part, without_low};
use judy_leaf::{Words, set_bit_width};
use judy_node::{BranchOf, ChildOf, Head, KindOf, Sums};
use std::alloc::{AllocError, Global};
use std::marker::PhantomData;

// The bytes that a node skips.
#[derive(Clone, Copy)]
pub(crate) struct Skipped {
    // The number that they spell.
    pub number: u64,
    // How many they are, at most 7.
    pub count: u8,
    // How many bytes the node's keys have behind them.
    pub tail: u8,
}

// How many bytes come behind the first one in which two numbers differ that have so many bytes.
fn left_of_apart(own: u64, other: u64, count: u8) -> u8
    requires few { count ≤ 7 }
    requires own { own < 256 ^ count }
    requires other { other < 256 ^ count }
    requires apart { own ≢ other }
    ensures within { result < count }
    ensures apart { own / 256 ^ result ≢ other / 256 ^ result }
    ensures same { own / 256 ^ (result + 1) ≡ other / 256 ^ (result + 1) }
{
    let mut left = 0;
    while without_low(own, usize::from(left) + 1) != without_low(other, usize::from(left) + 1) {
        left += 1;
    }
    left
}

// The bytes that spell a number, so many.
fn skip_of(number: u64, count: u8) -> Skip
    requires { count ≤ 7 }
    ensures { result ≡ low_bytes count number }
{
    Skip::new(&number.to_be_bytes()[8 - usize::from(count)..])
}

// A node without the first of the bytes that it skips, so that so many are left.
fn shortened<V: Words + Drop>(kind: KindOf<V>, skipped: Skipped, left: u8) -> KindOf<V>
    requires level { IsLevel V.WORDS kind }
    requires skips { IsSkipping skipped.number skipped.count skipped.tail kind }
    requires left { left < skipped.count }
    ensures level { IsLevel V.WORDS result }
    ensures child { IsChild V.WORDS (left + skipped.tail) (tree_of V.WORDS result) }
    ensures shorter { IsShorter skipped.number left skipped.tail (tree_of V.WORDS kind)
        (tree_of V.WORDS result) }
{
    let rest = low_part(skipped.number, usize::from(left));
    match kind {
        KindOf::Bit(_, mut block) => {
            set_bit_width(&mut block, u32::from(left) + 1);
            KindOf::Bit(Head::new(rest), block)
        }
        KindOf::Branch(mut branch) => {
            branch.skip = skip_of(rest, left);
            KindOf::Branch(branch)
        }
        _ => unreachable!(),
    }
}

// A branch above a node, with room for another child. The node skips `left` bytes then. The error is want of memory and
// gives the node back.
fn above<V: Words + Drop>(
    alloc: Global,
    kind: KindOf<V>,
    skipped: Skipped,
    left: u8,
) -> Result<Box<BranchOf<V>>, KindOf<V>>
    requires level { IsLevel V.WORDS kind }
    requires child { IsChild V.WORDS (skipped.count + skipped.tail) (tree_of V.WORDS kind) }
    requires skips { IsSkipping skipped.number skipped.count skipped.tail kind }
    requires left { left < skipped.count }
    ensures above { IfOk result
        (λ b. IsAbove V.WORDS skipped.number skipped.count skipped.tail left
        (tree_of V.WORDS kind) b.value.width b.value.skip b.value.bytes b.value.children.items
        b.value.population) }
    ensures room { IfOk result (λ b. vec_len b.value.children < vec_capacity b.value.children) }
    ensures sums { IfOk result (λ b. (kids : List Tree) → AreSums b.value.sums kids) }
    ensures kept { IfErr result (λ same. same ≡ kind) }
{
    let Ok(children) = Vec::with_capacity(alloc, 2) else {
        return Err(kind);
    };
    let branch = BranchOf {
        children,
        skip: skip_of(
            without_low(skipped.number, usize::from(left) + 1),
            skipped.count - left - 1,
        ),
        width: left + skipped.tail,
        bytes: ByteSet::new(),
        population: 0,
        sums: Sums::none(),
        words: PhantomData,
    };
    let Ok(mut branch) = Box::new(alloc, branch) else {
        return Err(kind);
    };
    let child = ChildOf::close(shortened(kind, skipped, left));
    branch.population = child.pop();
    let byte = low_part(without_low(skipped.number, usize::from(left)), 1) as u8;
    add_child(&mut branch, 0, byte, child);
    Ok(branch)
}

// Puts a key with its value into a node that skips other bytes than the key begins with: a branch for both takes its
// place. The error is want of memory; the node stays then.
pub(crate) fn split<V: Words + Drop>(
    kind: KindOf<V>,
    skipped: Skipped,
    pair: Insertion,
) -> (KindOf<V>, Inserted)
    requires one { V.WORDS ≤ 1 }
    requires level { IsLevel V.WORDS kind }
    requires child { IsChild V.WORDS (skipped.count + skipped.tail) (tree_of V.WORDS kind) }
    requires skips { IsSkipping skipped.number skipped.count skipped.tail kind }
    requires fits { pair.key < 256 ^ (skipped.count + skipped.tail) }
    requires apart { pair.key / 256 ^ skipped.tail ≢ skipped.number }
    requires absent { has_key pair.key (tree_of V.WORDS kind) ≡ false }
    requires no_value { V.WORDS ≡ 0 → pair.value ≡ 0 }
    requires room { length (tree_of V.WORDS kind).pairs < 2 ^ 64 - 1 }
    ensures level { IsLevel V.WORDS result.0 }
    ensures child { IsChild V.WORDS (skipped.count + skipped.tail) (tree_of V.WORDS result.0) }
    ensures inserted { IsInserted pair.key pair.value (tree_of V.WORDS kind)
        (tree_of V.WORDS result.0) result.1 }
{
    let other = without_low(pair.key, usize::from(skipped.tail));
    let left = left_of_apart(skipped.number, other, skipped.count);
    let width = usize::from(left) + usize::from(skipped.tail);
    match above(pair.alloc, kind, skipped, left) {
        Ok(mut branch) => {
            let byte = low_part(without_low(pair.key, width), 1) as u8;
            let place = branch.bytes.rank(byte);
            put_key(
                &mut branch,
                place,
                byte,
                low_part(pair.key, width),
                pair.value,
            );
            (KindOf::Branch(branch), Ok(true))
        }
        Err(kind) => (kind, Err(AllocError)),
    }
}
