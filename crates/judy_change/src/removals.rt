//! A key taken out of a tree.

ghost use Rattle.std.specs.Prelude.{◌≡◌, ◌≢◌, ◌+◌, ◌<◌, ◌≤◌, ◌&&◌, ℕ, length, slice_get, Some};
ghost use Rattle.std.specs.List.{remove};
ghost use Rattle.judy_bits.specs.ByteSets as set;
ghost use Rattle.judy_node.specs.Trees.{IsChild};
ghost use Rattle.judy_node.specs.Branches.{IsWholeBranch};
ghost use Rattle.judy_node.specs.Populations.{AreSums};
ghost use Rattle.judy_node.specs.Kinds.{tree_of, IsLevel};
ghost use Rattle.judy_node.specs.Roots.{root_tree, one_tree, IsRoot};
ghost use Rattle.judy_change.specs.Removals.{IsRemoved, IsTaken, IsTakenBelow, IsChildless, IsShrinking, width_of};

use crate::remove_leaf::{
    remove_from_bitmap, remove_from_leaf, remove_immediate, shrink_bitmap, shrink_leaf,
};
use crate::removed::{Removed, Taken};
use crate::settle::settle;
use judy_leaf::{BitRef, LEAF_ROOM, Words};
use judy_node::{BranchOf, ChildOf, Head, KindOf, NodeOf, RootOf, Step, Sums, most_in_immediate};
use judy_unmetered::UNMETERED;
use std::alloc::Global;
use std::mem;

/// Takes a key out of a tree, and answers whether it was there, with which value, and whether there was memory for each
/// smaller node that was wanted on its way. It is never refused: where there is no such memory, the larger node stays,
/// loose. An absent key changes nothing.
pub fn remove<V: Words + Drop>(alloc: Global, node: &mut NodeOf<V>, key: u64) -> Removed
    requires { V.WORDS ≤ 1 }
    ensures { IsRemoved key node.old node.new result }
{
    let root = mem::replace(node, NodeOf::empty()).open();
    let (root, removed) = remove_root(alloc, root, key);
    *node = NodeOf::close(root);
    removed
}

// From a root taken out of its place.
fn remove_root<V: Words + Drop>(alloc: Global, root: RootOf<V>, key: u64) -> (RootOf<V>, Removed)
    requires one { V.WORDS ≤ 1 }
    requires root { IsRoot V.WORDS root }
    ensures root { IsRoot V.WORDS result.0 }
    ensures removed { IsRemoved key (root_tree root) (root_tree result.0) result.1 }
{
    match root {
        RootOf::Empty => (RootOf::Empty, Removed::none()),
        RootOf::One(only, value) => remove_one(only, value, key),
        RootOf::Many(child) => remove_many(alloc, child, key),
    }
}

// From a root of one pair.
fn remove_one<V: Words + Drop>(only: u64, value: u64, key: u64) -> (RootOf<V>, Removed)
    requires { V.WORDS ≡ 0 → value ≡ 0 }
    ensures root { IsRoot V.WORDS result.0 }
    ensures removed { IsRemoved key (one_tree only value) (root_tree result.0) result.1 }
{
    if only == key {
        (RootOf::Empty, Removed::gone(value, true))
    } else {
        (RootOf::One(only, value), Removed::none())
    }
}

// From a root of two pairs: the other one stays.
fn remove_of_two<V: Words + Drop>(child: ChildOf<V>, key: u64) -> (RootOf<V>, Removed)
    requires child { IsChild V.WORDS 8 child }
    requires two { length child.pairs ≡ 2 }
    ensures root { IsRoot V.WORDS result.0 }
    ensures removed { IsRemoved key (record child { width = 8 }) (root_tree result.0) result.1 }
{
    let mut pairs = [(0, 0); 2];
    child.fill(UNMETERED, 8, 0, &mut pairs);
    let [(first, first_value), (second, second_value)] = pairs;
    if first == key {
        return (
            RootOf::One(second, second_value),
            Removed::gone(first_value, true),
        );
    }
    if second == key {
        return (
            RootOf::One(first, first_value),
            Removed::gone(second_value, true),
        );
    }
    (RootOf::Many(child), Removed::none())
}

// From a root of more pairs.
fn remove_many<V: Words + Drop>(
    alloc: Global,
    mut child: ChildOf<V>,
    key: u64,
) -> (RootOf<V>, Removed)
    requires one { V.WORDS ≤ 1 }
    requires child { IsChild V.WORDS 8 child }
    requires two { 2 ≤ length child.pairs }
    ensures root { IsRoot V.WORDS result.0 }
    ensures removed { IsRemoved key (record child { width = 8 }) (root_tree result.0) result.1 }
{
    if child.pop() == 2 {
        return remove_of_two(child, key);
    }
    match remove_in(alloc, &mut child, 8, key) {
        Taken::Absent => (RootOf::Many(child), Removed::none()),
        Taken::Only(_) => unreachable!(),
        Taken::Gone(value, shrunk) => (RootOf::Many(child), Removed::gone(value, shrunk)),
    }
}

// From a node in its place, whose keys have `width` bytes.
#[cycle(remove)]
fn remove_in<V: Words + Drop>(alloc: Global, child: &mut ChildOf<V>, width: u8, key: u64) -> Taken
    requires one { V.WORDS ≤ 1 }
    requires child { IsChild V.WORDS width child.old }
    requires three { width ≡ 8 → 3 ≤ length child.old.pairs }
    ensures { IsTaken V.WORDS width key child.old child.new result }
{
    remove_kind(alloc, width, child.place.kind_mut(), key)
}

// The same by the node's kind. A branch is changed where it stands, and moved only where it gets smaller.
#[cycle(remove)]
fn remove_kind<V: Words + Drop>(alloc: Global, width: u8, kind: &mut KindOf<V>, key: u64) -> Taken
    requires one { V.WORDS ≤ 1 }
    requires level { IsLevel V.WORDS kind.old }
    requires child { IsChild V.WORDS width (tree_of V.WORDS kind.old) }
    requires three { width ≡ 8 → 3 ≤ length (tree_of V.WORDS kind.old).pairs }
    ensures level { IsLevel V.WORDS kind.new }
    ensures taken { IsTaken V.WORDS width key (tree_of V.WORDS kind.old)
        (tree_of V.WORDS kind.new) result }
{
    match kind {
        KindOf::Branch(branch) => match remove_below(alloc, branch, key) {
            Taken::Absent => Taken::Absent,
            Taken::Only(value) => Taken::Only(value),
            Taken::Gone(value, shrunk) => {
                let settled = settle(alloc, width, kind);
                Taken::Gone(value, both(shrunk, settled))
            }
        },
        _ => remove_childless(alloc, width, kind, key),
    }
}

// From a node without children. A leaf or a bitmap leaf that stays one is changed where it stands.
pub(crate) fn remove_childless<V: Words + Drop>(
    alloc: Global,
    width: u8,
    kind: &mut KindOf<V>,
    key: u64,
) -> Taken
    requires one { V.WORDS ≤ 1 }
    requires childless { IsChildless kind.old }
    requires level { IsLevel V.WORDS kind.old }
    requires child { IsChild V.WORDS width (tree_of V.WORDS kind.old) }
    requires three { width ≡ 8 → 3 ≤ length (tree_of V.WORDS kind.old).pairs }
    ensures level { IsLevel V.WORDS kind.new }
    ensures taken { IsTaken V.WORDS width key (tree_of V.WORDS kind.old)
        (tree_of V.WORDS kind.new) result }
{
    match kind {
        KindOf::Leaf(count, block) => {
            if usize::from(*count - 1) > most_in_immediate::<V>(width) {
                remove_from_leaf::<V>(count, block, width, key)
            } else {
                replaced(alloc, width, kind, key)
            }
        }
        KindOf::Bit(head, block) => {
            if BitRef::<V>::new(block).len() > LEAF_ROOM + 1 {
                remove_from_bitmap::<V>(head, block, width, key)
            } else {
                replaced(alloc, width, kind, key)
            }
        }
        _ => replaced(alloc, width, kind, key),
    }
}

// The same for a node that may become one of another kind, without the key.
fn replaced<V: Words + Drop>(alloc: Global, width: u8, kind: &mut KindOf<V>, key: u64) -> Taken
    requires one { V.WORDS ≤ 1 }
    requires shrinking { IsShrinking V.WORDS width kind.old }
    requires level { IsLevel V.WORDS kind.old }
    requires child { IsChild V.WORDS width (tree_of V.WORDS kind.old) }
    requires three { width ≡ 8 → 3 ≤ length (tree_of V.WORDS kind.old).pairs }
    ensures level { IsLevel V.WORDS kind.new }
    ensures taken { IsTaken V.WORDS width key (tree_of V.WORDS kind.old)
        (tree_of V.WORDS kind.new) result }
{
    let old = mem::replace(kind, KindOf::Imm(Head::new(0), 0));
    let (child, taken) = replacement(alloc, width, old, key);
    *kind = child.open();
    taken
}

// The same for such a node taken out of its place.
fn replacement<V: Words + Drop>(
    alloc: Global,
    width: u8,
    kind: KindOf<V>,
    key: u64,
) -> (ChildOf<V>, Taken)
    requires one { V.WORDS ≤ 1 }
    requires shrinking { IsShrinking V.WORDS width kind }
    requires level { IsLevel V.WORDS kind }
    requires child { IsChild V.WORDS width (tree_of V.WORDS kind) }
    requires three { width ≡ 8 → 3 ≤ length (tree_of V.WORDS kind).pairs }
    ensures { IsTaken V.WORDS width key (tree_of V.WORDS kind) result.0 result.1 }
{
    match kind {
        KindOf::Imm(head, word) => remove_immediate(width, head, word, key),
        KindOf::Leaf(count, block) => shrink_leaf(width, count, block, key),
        KindOf::Bit(head, block) => shrink_bitmap(alloc, width, head, block, key),
        KindOf::Branch(_) => unreachable!(),
    }
}

// From below a branch, which may be larger than it needs to be afterwards.
#[cycle(remove)]
fn remove_below<V: Words + Drop>(alloc: Global, branch: &mut BranchOf<V>, key: u64) -> Taken
    requires one { V.WORDS ≤ 1 }
    requires branch { IsWholeBranch V.WORDS branch.old }
    requires sums { AreSums branch.old.sums branch.old.children.items }
    ensures taken { IsTakenBelow V.WORDS key branch.old branch.new result }
    ensures sums { AreSums branch.new.sums branch.new.children.items }
{
    let Step::Child(byte, place, rest) = branch.step(key) else {
        return Taken::Absent;
    };
    let width = branch.width;
    match remove_in(alloc, &mut branch.children[place], width, rest) {
        Taken::Absent => Taken::Absent,
        Taken::Only(value) => {
            if branch.population == 1 {
                return Taken::Only(value);
            }
            lose_child(branch, byte, place, 1);
            Taken::Gone(value, true)
        }
        Taken::Gone(value, shrunk) => {
            branch.population -= 1;
            branch.sums.take(place);
            Taken::Gone(value, shrunk)
        }
    }
}

// A child of so many keys goes, with its byte, and so do the sums of all children.
pub(crate) fn lose_child<V: Words + Drop>(
    branch: &mut BranchOf<V>,
    byte: u8,
    place: usize,
    count: u64,
)
    requires place { place < length branch.old.children.items }
    requires some { count ≤ branch.old.population }
    ensures children { branch.new.children.items ≡ remove branch.old.children.items place }
    ensures bytes { branch.new.bytes ≡ set.without_byte branch.old.bytes byte }
    ensures population { branch.new.population + count ≡ branch.old.population }
    ensures skip { branch.new.skip ≡ branch.old.skip }
    ensures width { branch.new.width ≡ branch.old.width }
    ensures sums { AreSums branch.new.sums branch.new.children.items }
{
    let _ = branch.children.remove(place);
    branch.bytes.take(byte);
    branch.population -= count;
    branch.sums = Sums::none();
}

// Whether both hold.
pub(crate) fn both(one: bool, other: bool) -> bool
    ensures { result ≡ (one && other) }
{
    one && other
}
