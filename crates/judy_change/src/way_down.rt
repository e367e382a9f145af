//! A key put into a tree, down the key's way.

ghost use Rattle.std.specs.Prelude.{◌≡◌, ◌+◌, ◌-◌, ◌*◌, ◌^◌, ◌<◌, ◌≤◌, true, false, [], length, Some, slice_get};
ghost use Rattle.judy_model.specs.WordBytes.{number_of};
ghost use Rattle.judy_node.specs.Trees.{IsChild};
ghost use Rattle.judy_node.specs.Branches.{IsWholeBranch, tree_below};
ghost use Rattle.judy_node.specs.Populations.{AreSums};
ghost use Rattle.judy_node.specs.Kinds.{tree_of, IsLevel};
ghost use Rattle.judy_node.specs.Roots.{root_tree, one_tree, IsRoot};
ghost use Rattle.judy_node.specs.declared.node.RootOf.TheVariants.{One};
ghost use Rattle.judy_change.specs.Inserted.{has_key};
ghost use Rattle.judy_change.specs.declared.present.Put.TheVariants.{Added};
ghost use Rattle.judy_change.specs.Put.{IsPut};

use crate::childless::put_in_childless;
use crate::gap::in_order;
use crate::insertion::Insertion;
use crate::present::{Present, Put};
use crate::put::put_child;
use crate::replaced::replaced;
use judy_leaf::Words;
use judy_node::{BranchOf, ChildOf, KindOf, RootOf, Step, leaf_of_two};

// Puts a key with its value into a root, which is changed where it stands.
#[inline(always)]
pub(crate) fn put_in_root<V: Words + Drop, P: Present>(root: &mut RootOf<V>, pair: Insertion) -> Put
    requires one { V.WORDS ≤ 1 }
    requires words { P.REPLACES ≡ true → V.WORDS ≡ 1 }
    requires root { IsRoot V.WORDS root.old }
    requires no_value { V.WORDS ≡ 0 → pair.value ≡ 0 }
    requires room { has_key pair.key (root_tree root.old) ≡ false
        → length (root_tree root.old).pairs < 2 ^ 64 - 1 }
    ensures root { IsRoot V.WORDS root.new }
    ensures put { IsPut P.REPLACES pair.key pair.value (root_tree root.old)
        (root_tree root.new) result }
    ensures first { (root_tree root.old).pairs ≡ [] → result ≡ Added }
{
    match root {
        RootOf::Empty => {
            *root = RootOf::One(pair.key, pair.value);
            Put::Added
        }
        RootOf::One(only, there) => {
            let held = (*only, *there);
            put_beside::<V, P>(root, held, pair)
        }
        RootOf::Many(child) => put_in_many::<V, P>(child, pair),
    }
}

// Beside the one pair that a root holds.
fn put_beside<V: Words + Drop, P: Present>(
    root: &mut RootOf<V>,
    held: (u64, u64),
    pair: Insertion,
) -> Put
    requires one { V.WORDS ≤ 1 }
    requires words { P.REPLACES ≡ true → V.WORDS ≡ 1 }
    requires held { root.old ≡ One held.0 held.1 }
    requires no_value { V.WORDS ≡ 0 → (held.1 ≡ 0) × (pair.value ≡ 0) }
    ensures root { IsRoot V.WORDS root.new }
    ensures put { IsPut P.REPLACES pair.key pair.value (one_tree held.0 held.1)
        (root_tree root.new) result }
{
    if held.0 == pair.key {
        if P::REPLACES {
            *root = RootOf::One(held.0, pair.value);
        }
        return Put::There(held.1);
    }
    let (low, high) = in_order(held, (pair.key, pair.value));
    match leaf_of_two(pair.alloc, 8, low, high) {
        Ok(kind) => {
            *root = RootOf::Many(ChildOf::close(kind));
            Put::Added
        }
        Err(_) => Put::Refused,
    }
}

// In the node below a root. In small arrays that is a leaf, and here the width of its keys is known when this is
// compiled.
#[inline(always)]
fn put_in_many<V: Words + Drop, P: Present>(child: &mut ChildOf<V>, pair: Insertion) -> Put
    requires one { V.WORDS ≤ 1 }
    requires words { P.REPLACES ≡ true → V.WORDS ≡ 1 }
    requires child { IsChild V.WORDS 8 child.old }
    requires no_value { V.WORDS ≡ 0 → pair.value ≡ 0 }
    requires room { has_key pair.key child.old ≡ false → length child.old.pairs < 2 ^ 64 - 1 }
    ensures child { IsChild V.WORDS 8 child.new }
    ensures put { IsPut P.REPLACES pair.key pair.value child.old child.new result }
{
    let kind = child.place.kind_mut();
    match kind {
        KindOf::Leaf(_, _) => put_in_childless::<V, P>(kind, 8, pair),
        _ => put_in_kind::<V, P>(kind, 8, pair),
    }
}

// Puts a key with its value into a node below the root, whose keys have `width` bytes.
#[cycle(put)]
fn put_in<V: Words + Drop, P: Present>(child: &mut ChildOf<V>, width: u8, pair: Insertion) -> Put
    requires one { V.WORDS ≤ 1 }
    requires words { P.REPLACES ≡ true → V.WORDS ≡ 1 }
    requires child { IsChild V.WORDS width child.old }
    requires fits { pair.key < 256 ^ width }
    requires no_value { V.WORDS ≡ 0 → pair.value ≡ 0 }
    requires room { has_key pair.key child.old ≡ false → length child.old.pairs < 2 ^ 64 - 1 }
    ensures child { IsChild V.WORDS width child.new }
    ensures put { IsPut P.REPLACES pair.key pair.value child.old child.new result }
{
    put_in_kind::<V, P>(child.place.kind_mut(), width, pair)
}

// The same by the node's kind. A branch on the key's way and a leaf that stays a leaf are changed where they stand.
#[cycle(put)]
fn put_in_kind<V: Words + Drop, P: Present>(kind: &mut KindOf<V>, width: u8, pair: Insertion) -> Put
    requires one { V.WORDS ≤ 1 }
    requires words { P.REPLACES ≡ true → V.WORDS ≡ 1 }
    requires level { IsLevel V.WORDS kind.old }
    requires child { IsChild V.WORDS width (tree_of V.WORDS kind.old) }
    requires fits { pair.key < 256 ^ width }
    requires no_value { V.WORDS ≡ 0 → pair.value ≡ 0 }
    requires room { has_key pair.key (tree_of V.WORDS kind.old) ≡ false
        → length (tree_of V.WORDS kind.old).pairs < 2 ^ 64 - 1 }
    ensures level { IsLevel V.WORDS kind.new }
    ensures child { IsChild V.WORDS width (tree_of V.WORDS kind.new) }
    ensures put { IsPut P.REPLACES pair.key pair.value (tree_of V.WORDS kind.old)
        (tree_of V.WORDS kind.new) result }
{
    match kind {
        KindOf::Branch(branch) => match branch.step(pair.key) {
            Step::Child(byte, place, rest) => put_in_child::<V, P>(
                branch,
                byte,
                place,
                Insertion { key: rest, ..pair },
            ),
            Step::Missing(byte, place, rest) => {
                match put_child(branch, place, byte, Insertion { key: rest, ..pair }) {
                    Ok(_) => Put::Added,
                    Err(_) => Put::Refused,
                }
            }
            Step::Below | Step::Above => match replaced(kind, width, pair) {
                Ok(_) => Put::Added,
                Err(_) => Put::Refused,
            },
        },
        _ => put_in_childless::<V, P>(kind, width, pair),
    }
}

// The same for the child of a branch at a place, whose byte is given with what is left of the key.
#[cycle(put)]
fn put_in_child<V: Words + Drop, P: Present>(
    branch: &mut BranchOf<V>,
    byte: u8,
    place: usize,
    pair: Insertion,
) -> Put
    requires one { V.WORDS ≤ 1 }
    requires words { P.REPLACES ≡ true → V.WORDS ≡ 1 }
    requires level { IsWholeBranch V.WORDS branch.old }
    requires sums { AreSums branch.old.sums branch.old.children.items }
    requires here { slice_get branch.old.bytes place ≡ Some byte }
    requires fits { pair.key < 256 ^ branch.old.width }
    requires no_value { V.WORDS ≡ 0 → pair.value ≡ 0 }
    requires room { has_key
        ((number_of branch.old.skip * 256 + byte) * 256 ^ branch.old.width + pair.key)
        (tree_below branch.old) ≡ false → branch.old.population < 2 ^ 64 - 1 }
    ensures level { IsWholeBranch V.WORDS branch.new }
    ensures sums { AreSums branch.new.sums branch.new.children.items }
    ensures skip { branch.new.skip ≡ branch.old.skip }
    ensures width { branch.new.width ≡ branch.old.width }
    ensures put { IsPut P.REPLACES
        ((number_of branch.old.skip * 256 + byte) * 256 ^ branch.old.width + pair.key) pair.value
        (tree_below branch.old)
        (tree_below branch.new) result }
{
    match put_in::<V, P>(&mut branch.children[place], branch.width, pair) {
        Put::Added => {
            branch.population += 1;
            branch.sums.add(place);
            Put::Added
        }
        Put::There(was) => Put::There(was),
        Put::Refused => Put::Refused,
    }
}
