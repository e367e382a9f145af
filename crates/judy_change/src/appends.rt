//! Sorted pairs put behind all pairs of a tree, as many at once as make one new node.

ghost use Rattle.std.specs.Prelude.{◌≡◌, ◌+◌, ◌*◌, ◌/◌, ◌%◌, ◌^◌, ◌<◌, ◌≤◌, false, length, take, Some, slice_get};
ghost use Rattle.judy_model.specs.WordBytes.{number_of};
ghost use Rattle.judy_bits.specs.ByteSets as set;
ghost use Rattle.judy_node.specs.Trees.{IsMap, IsChild};
ghost use Rattle.judy_node.specs.Branches.{IsWholeBranch, tree_below};
ghost use Rattle.judy_node.specs.Populations.{AreSums};
ghost use Rattle.judy_node.specs.Kinds.{tree_of, IsLevel};
ghost use Rattle.judy_node.specs.Roots.{root_tree, IsRoot};
ghost use Rattle.judy_change.specs.Appended.{AllBegin, first_key, IsAppended, IsLonger};

use crate::put::add_child;
use judy_bits::without_tail;
use judy_leaf::Words;
use judy_node::{BranchOf, ChildOf, KindOf, NodeOf, RootOf, Step, child_of_sorted, make_room};
use std::alloc::Global;
use std::mem;

// Sorted pairs that are to be put behind those of a tree, and where memory for them is asked.
#[derive(Clone, Copy)]
struct More<'a> {
    alloc: Global,
    pairs: &'a [(u64, u64)],
}

/// Puts the first of sorted pairs behind all pairs of a tree, as many as make one new node, and answers how many: all
/// of them where the tree has no keys; else those whose keys go below one byte with the first key, where a branch on
/// that key's way has no child for that byte and none for a greater one.
///
/// It is 0 where the first key goes elsewhere, or where there is no memory for the node; then the tree is the old one,
/// its form included. A tight tree stays tight. It takes one way down, and reads the pairs that it puts in and one
/// more.
pub fn append<V: Words + Drop>(alloc: Global, node: &mut NodeOf<V>, pairs: &[(u64, u64)]) -> usize
    requires one { V.WORDS ≤ 1 }
    requires some { 0 < length pairs.now }
    requires map { IsMap V.WORDS 0 (256 ^ 8) pairs.now }
    requires room { length node.old.pairs + length pairs.now < 2 ^ 64 }
    ensures { IsAppended result pairs.now node.old node.new }
{
    let root = mem::replace(node, NodeOf::empty()).open();
    let (root, count) = to_root(root, More { alloc, pairs });
    *node = NodeOf::close(root);
    count
}

// To a root taken out of its place.
fn to_root<V: Words + Drop>(root: RootOf<V>, more: More) -> (RootOf<V>, usize)
    requires one { V.WORDS ≤ 1 }
    requires some { 0 < length more.pairs.now }
    requires root { IsRoot V.WORDS root }
    requires map { IsMap V.WORDS 0 (256 ^ 8) more.pairs.now }
    requires room { length (root_tree root).pairs + length more.pairs.now < 2 ^ 64 }
    ensures root { IsRoot V.WORDS result.0 }
    ensures appended { IsAppended result.1 more.entry.pairs.now (root_tree root)
        (root_tree result.0) }
{
    match root {
        RootOf::Empty => match NodeOf::from_sorted(more.alloc, more.pairs) {
            Ok(tree) => (tree.open(), more.pairs.len()),
            Err(_) => (RootOf::Empty, 0),
        },
        RootOf::One(key, value) => (RootOf::One(key, value), 0),
        RootOf::Many(mut child) => {
            let count = append_in(&mut child, 8, more.pairs[0].0, more);
            (RootOf::Many(child), count)
        }
    }
}

// To a node below the root, whose keys have `width` bytes. `key` is what the first key is there.
#[cycle(append)]
fn append_in<V: Words + Drop>(child: &mut ChildOf<V>, width: u8, key: u64, more: More) -> usize
    requires one { V.WORDS ≤ 1 }
    requires child { IsChild V.WORDS width child.old }
    requires some { 0 < length more.pairs.now }
    requires key { key ≡ first_key more.pairs.now % 256 ^ width }
    requires map { IsMap V.WORDS 0 (256 ^ 8) more.pairs.now }
    requires room { length child.old.pairs + length more.pairs.now < 2 ^ 64 }
    ensures child { IsChild V.WORDS width child.new }
    ensures longer { IsLonger width result more.entry.pairs.now child.old child.new }
{
    append_to_kind(child.place.kind_mut(), width, key, more)
}

// The same by the node's kind: a node without children takes none.
#[cycle(append)]
fn append_to_kind<V: Words + Drop>(kind: &mut KindOf<V>, width: u8, key: u64, more: More) -> usize
    requires one { V.WORDS ≤ 1 }
    requires level { IsLevel V.WORDS kind.old }
    requires child { IsChild V.WORDS width (tree_of V.WORDS kind.old) }
    requires some { 0 < length more.pairs.now }
    requires key { key ≡ first_key more.pairs.now % 256 ^ width }
    requires map { IsMap V.WORDS 0 (256 ^ 8) more.pairs.now }
    requires room { length (tree_of V.WORDS kind.old).pairs + length more.pairs.now < 2 ^ 64 }
    ensures level { IsLevel V.WORDS kind.new }
    ensures child { IsChild V.WORDS width (tree_of V.WORDS kind.new) }
    ensures longer { IsLonger width result more.entry.pairs.now (tree_of V.WORDS kind.old)
        (tree_of V.WORDS kind.new) }
{
    match kind {
        KindOf::Branch(branch) => match branch.step(key) {
            Step::Child(byte, place, rest) => append_to_child(branch, byte, place, rest, more),
            Step::Missing(byte, place, _) => append_child(branch, byte, place, more),
            Step::Below | Step::Above => 0,
        },
        _ => 0,
    }
}

// The same for the child of a branch at a place, whose byte is given with what is left of the first key: it takes some
// where it is the last child.
#[cycle(append)]
fn append_to_child<V: Words + Drop>(
    branch: &mut BranchOf<V>,
    byte: u8,
    place: usize,
    rest: u64,
    more: More,
) -> usize
    requires one { V.WORDS ≤ 1 }
    requires level { IsWholeBranch V.WORDS branch.old }
    requires sums { AreSums branch.old.sums branch.old.children.items }
    requires here { slice_get branch.old.bytes place ≡ Some byte }
    requires some { 0 < length more.pairs.now }
    requires head { first_key
        more.pairs.now / 256 ^ branch.old.width % 256 ^ (length branch.old.skip + 1)
        ≡ number_of branch.old.skip * 256 + byte }
    requires key { rest ≡ first_key more.pairs.now % 256 ^ branch.old.width }
    requires map { IsMap V.WORDS 0 (256 ^ 8) more.pairs.now }
    requires room { branch.old.population + length more.pairs.now < 2 ^ 64 }
    ensures level { IsWholeBranch V.WORDS branch.new }
    ensures sums { AreSums branch.new.sums branch.new.children.items }
    ensures skip { branch.new.skip ≡ branch.old.skip }
    ensures width { branch.new.width ≡ branch.old.width }
    ensures longer { IsLonger (length branch.old.skip + 1 + branch.old.width) result
        more.entry.pairs.now
        (tree_below branch.old)
        (tree_below branch.new) }
{
    if place + 1 < branch.children.len() {
        return 0;
    }
    let count = append_in(&mut branch.children[place], branch.width, rest, more);
    if count == 0 {
        return 0;
    }
    branch.population += count as u64;
    branch.sums = branch.sums_of_children(more.alloc);
    count
}

// The same as a child of a branch, of a byte that has none and whose place is given, where it comes behind all others.
fn append_child<V: Words + Drop>(
    branch: &mut BranchOf<V>,
    byte: u8,
    place: usize,
    more: More,
) -> usize
    requires one { V.WORDS ≤ 1 }
    requires level { IsWholeBranch V.WORDS branch.old }
    requires sums { AreSums branch.old.sums branch.old.children.items }
    requires absent { set.has branch.old.bytes byte ≡ false }
    requires place { place ≡ set.rank branch.old.bytes byte }
    requires some { 0 < length more.pairs.now }
    requires head { first_key
        more.pairs.now / 256 ^ branch.old.width % 256 ^ (length branch.old.skip + 1)
        ≡ number_of branch.old.skip * 256 + byte }
    requires map { IsMap V.WORDS 0 (256 ^ 8) more.pairs.now }
    requires room { branch.old.population + length more.pairs.now < 2 ^ 64 }
    ensures level { IsWholeBranch V.WORDS branch.new }
    ensures sums { AreSums branch.new.sums branch.new.children.items }
    ensures skip { branch.new.skip ≡ branch.old.skip }
    ensures width { branch.new.width ≡ branch.old.width }
    ensures longer { IsLonger (length branch.old.skip + 1 + branch.old.width) result
        more.entry.pairs.now
        (tree_below branch.old)
        (tree_below branch.new) }
{
    let end = group_end(more.pairs, branch.width);
    if end == 0 || place < branch.children.len() || make_room(&mut branch.children).is_err() {
        return 0;
    }
    let Ok(child) = child_of_sorted(more.alloc, branch.width, &more.pairs[..end]) else {
        return 0;
    };
    add_child(branch, place, byte, child);
    branch.population += end as u64;
    branch.sums = branch.sums_of_children(more.alloc);
    end
}

// How many of the first pairs have keys that are the same as the first but for their lowest bytes, so many.
fn group_end(pairs: &[(u64, u64)], below: u8) -> usize
    requires some { 0 < length pairs.now }
    requires below { below ≤ 7 }
    ensures within { result ≤ length pairs.now }
    ensures alike { AllBegin (256 ^ below) (first_key pairs.now / 256 ^ below)
        (take result pairs.now) }
{
    let width = usize::from(below);
    let front = without_tail(pairs[0].0, width);
    'pairs: for (at, pair) in pairs.iter().enumerate() {
        if without_tail(pair.0, width) != front {
            return at;
        }
    }
    pairs.len()
}
