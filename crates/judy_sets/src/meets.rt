//! The keys of one array that another has, or lacks, counted node by node: two bitmap leaves by their words, two leaves
//! side by side, and a node beside which the other has nothing, or all words, by the number of its keys.

ghost use Rattle.std.specs.Prelude.{◌≡◌, ◌+◌, ◌-◌, ◌*◌, ◌^◌, ◌<◌, ◌≤◌, length, nat_lt, if◌then◌else◌};
ghost use Rattle.std.specs.FinMap as map;
ghost use Rattle.std.specs.FinMap.Entries.{where_key};
ghost use Rattle.judy_model.specs.Keys.{word_order};
ghost use Rattle.judy_leaf.specs.KeyLists.{shift};
ghost use Rattle.judy_node.specs.Trees.{IsChild, IsMap, branch_pairs};
ghost use Rattle.judy_node.specs.Branches.{IsWholeBranch};
ghost use Rattle.judy_node.specs.Views.{view_pairs};
ghost use Rattle.judy_query.specs.Maps.{map_of};
ghost use Rattle.judy_query.specs.Parts.{IsEnd, IsShown, width_of};
ghost use Rattle.judy_sets.specs.LookUps.{is_wanted};
ghost use Rattle.judy_sets.specs.Meets.{IsCounted, IsPlaced, found, is_sought};

use crate::leaves::common_in;
use judy_bits::{Meter, moved_up};
use judy_leaf::{BitRef, LeafRef, Words};
use judy_node::{BranchOf, ChildOf, NodeOf, Step, ViewOf};
use judy_query::{byte_from, entry_in, is_full, len_in, lookup_below, passed, start_at};
use judy_unmetered::UNMETERED;
use judy_word::WordArray;

/// Which keys of one array are counted, those that another has or those that it lacks, and how many of them are enough.
#[derive(Clone, Copy)]
pub struct Sought {
    pub wanted: bool,
    pub enough: u64,
}

impl Sought {
    // All keys, where none of them or all are such.
    fn all_if(self, such: bool, keys: u64) -> u64
        ensures { result ≡ (if such then keys else 0) }
    {
        if such { keys } else { 0 }
    }
}

// Where the words of a node lie in a branch of another tree.
enum Lot {
    // In the child at a place, from one of its words on.
    In(usize, u64),
    // Where the branch has no keys.
    Free,
    // Wherever: it isn't told.
    Spread,
}

/// How many keys of the one array another has, or lacks. Where they are enough, it may stop.
///
/// Each node of the one is met with those of the other that have its words.
pub fn count_sought<V: Words + Drop>(
    sought: Sought,
    one: &WordArray<V>,
    other: &WordArray<V>,
) -> u64
    ensures { IsCounted sought.enough
        (length
        (where_key word_order (is_wanted sought.wanted other.now.map) (map.entries one.now.map)))
        result }
{
    count_of_trees(sought, one.root(), other.root())
}

/// Whether an array has a key that another has, or one that it lacks. It stops in the node of the first such key.
pub fn has_some<V: Words + Drop>(wanted: bool, one: &WordArray<V>, other: &WordArray<V>) -> bool
    ensures { result ≡ nat_lt 0
        (length (where_key word_order (is_wanted wanted other.now.map) (map.entries one.now.map))) }
{
    count_sought(Sought { wanted, enough: 1 }, one, other) > 0
}

// How many they are in two trees.
fn count_of_trees<V: Words + Drop>(sought: Sought, one: &NodeOf<V>, other: &NodeOf<V>) -> u64
    ensures { IsCounted sought.enough
        (length
        (where_key word_order (is_wanted sought.wanted (map_of other.now.pairs))
        (map.entries (map_of one.now.pairs)))) result }
{
    one.law();
    other.law();
    let ours = one.enter(&mut Meter::new(UNMETERED));
    let theirs = other.enter(&mut Meter::new(UNMETERED));
    count_in(sought, &ours, &theirs, 0)
}

// The same of two nodes that were entered: the keys of the one, each so much higher, are words of the other.
#[cycle(count)]
fn count_in<V: Words + Drop>(
    sought: Sought,
    one: &ViewOf<'_, V>,
    other: &ViewOf<'_, V>,
    by: u64,
) -> u64
    requires shown { IsShown V.WORDS one.now }
    requires other_shown { IsShown V.WORDS other.now }
    requires fits { by + 256 ^ width_of one.now ≤ 256 ^ width_of other.now }
    ensures { IsCounted sought.enough
        (found sought.wanted by (view_pairs one.now) (view_pairs other.now)) result }
{
    match one {
        ViewOf::Branch(branch) => count_children(sought, branch, other, by),
        _ => count_keys(sought, one, other, by),
    }
}

// The same of the children of a branch.
#[cycle(count)]
fn count_children<V: Words + Drop>(
    sought: Sought,
    branch: &BranchOf<V>,
    other: &ViewOf<'_, V>,
    by: u64,
) -> u64
    requires level { IsWholeBranch V.WORDS branch.now }
    requires other_shown { IsShown V.WORDS other.now }
    requires fits { by + 256 ^ (length branch.now.skip + 1 + branch.now.width)
        ≤ 256 ^ width_of other.now }
    ensures { IsCounted sought.enough
        (found sought.wanted by
        (branch_pairs branch.now.width branch.now.skip branch.now.bytes branch.now.children.items)
        (view_pairs other.now)) result }
{
    let _most = branch.keys();
    let mut count = 0;
    let mut place = 0;
    let mut edge = 0;
    'children: while place < branch.children.len() {
        if count >= sought.enough {
            return count;
        }
        let byte = byte_from(branch, place, edge);
        let start = by + start_at(branch, byte);
        count += count_below(sought, &branch.children[place], branch.width, other, start);
        place += 1;
        edge = u64::from(byte) + 1;
    }
    count
}

// The same of a node whose keys have `width` bytes, which is entered only where the other has some of its words and not
// all.
#[cycle(count)]
fn count_below<V: Words + Drop>(
    sought: Sought,
    child: &ChildOf<V>,
    width: u8,
    other: &ViewOf<'_, V>,
    by: u64,
) -> u64
    requires child { IsChild V.WORDS width child.now }
    requires narrow { width ≤ 7 }
    requires other_shown { IsShown V.WORDS other.now }
    requires fits { by + 256 ^ width ≤ 256 ^ width_of other.now }
    ensures { IsCounted sought.enough
        (found sought.wanted by child.now.pairs (view_pairs other.now)) result }
{
    let ViewOf::Branch(branch) = other else {
        return count_in(
            sought,
            &child.enter(width, &mut Meter::new(UNMETERED)),
            other,
            by,
        );
    };
    match lot_for(child, branch, width, by) {
        Lot::In(place, rest) => {
            let part = &branch.children[place];
            if is_full(part, branch.width) {
                return sought.all_if(sought.wanted, child.pop());
            }
            let view = part.enter(branch.width, &mut Meter::new(UNMETERED));
            count_below(sought, child, width, &view, rest)
        }
        Lot::Free => sought.all_if(!sought.wanted, child.pop()),
        Lot::Spread => count_in(
            sought,
            &child.enter(width, &mut Meter::new(UNMETERED)),
            other,
            by,
        ),
    }
}

// Where the words of a node lie in a branch, but of one or two keys, which are sooner looked up from there.
fn lot_for<V: Words + Drop>(child: &ChildOf<V>, branch: &BranchOf<V>, width: u8, by: u64) -> Lot
    requires level { IsWholeBranch V.WORDS branch.now }
    requires narrow { width ≤ 7 }
    requires fits { by + 256 ^ width ≤ 256 ^ (length branch.now.skip + 1 + branch.now.width) }
    ensures { IsPlaced width by branch.now.width branch.now.skip branch.now.bytes
        branch.now.children.items result }
{
    if child.pop() <= 2 {
        Lot::Spread
    } else {
        lot_of(branch, width, by)
    }
}

// Where the words of a node whose keys have `width` bytes lie in a branch, the first of them so much higher.
fn lot_of<V: Words + Drop>(branch: &BranchOf<V>, width: u8, by: u64) -> Lot
    requires level { IsWholeBranch V.WORDS branch.now }
    requires narrow { width ≤ 7 }
    requires fits { by + 256 ^ width ≤ 256 ^ (length branch.now.skip + 1 + branch.now.width) }
    ensures { IsPlaced width by branch.now.width branch.now.skip branch.now.bytes
        branch.now.children.items result }
{
    let unit = moved_up(1, usize::from(width));
    let step = branch.step(by);
    if let Step::Child(_, place, rest) = step {
        if rest + unit <= moved_up(1, usize::from(branch.width)) {
            return Lot::In(place, rest);
        }
        return Lot::Spread;
    }
    let end = branch.step(by + (unit - 1));
    if let Step::Child(_, _, _) = end {
        return Lot::Spread;
    }
    if passed(branch, step) == passed(branch, end) {
        Lot::Free
    } else {
        Lot::Spread
    }
}

// The same of a node without children.
fn count_keys<V: Words + Drop>(
    sought: Sought,
    one: &ViewOf<'_, V>,
    other: &ViewOf<'_, V>,
    by: u64,
) -> u64
    requires end { IsEnd one.now }
    requires shown { IsShown V.WORDS one.now }
    requires other_shown { IsShown V.WORDS other.now }
    requires fits { by + 256 ^ width_of one.now ≤ 256 ^ width_of other.now }
    ensures { result ≡ found sought.wanted by (view_pairs one.now) (view_pairs other.now) }
{
    if let ViewOf::BitLeaf(front, bits) = one {
        if let ViewOf::BitLeaf(other_front, others) = other {
            if by + *front * 256 == *other_front * 256 {
                return count_bits(sought.wanted, bits, others);
            }
        }
    }
    if let ViewOf::Leaf(list) = one {
        if let ViewOf::Leaf(other_list) = other {
            return count_leaves(sought.wanted, list, other_list, by);
        }
    }
    count_each(sought.wanted, one, other, by)
}

// How many keys of a bitmap leaf another has, or lacks.
fn count_bits<V: Words + Drop>(wanted: bool, one: &BitRef<'_, V>, other: &BitRef<'_, V>) -> u64
    ensures { result ≡ found wanted 0 one.now.pairs other.now.pairs }
{
    let common = one.common_count(other);
    if wanted {
        common as u64
    } else {
        (one.len() - common) as u64
    }
}

// The same of a leaf whose keys are each so much higher in the other's words.
fn count_leaves<V: Words + Drop>(
    wanted: bool,
    one: &LeafRef<'_, V>,
    other: &LeafRef<'_, V>,
    by: u64,
) -> u64
    requires map { IsMap V.WORDS 0 (256 ^ one.now.width) one.now.pairs }
    requires other_map { IsMap V.WORDS 0 (256 ^ other.now.width) other.now.pairs }
    requires fits { by + 256 ^ one.now.width ≤ 256 ^ other.now.width }
    ensures { result ≡ found wanted by one.now.pairs other.now.pairs }
{
    other.law();
    let common = common_in(one, other, by);
    if wanted {
        common
    } else {
        one.len() as u64 - common
    }
}

// How many keys of a node without children another has, or lacks, one looked up after the other.
fn count_each<V: Words + Drop>(
    wanted: bool,
    one: &ViewOf<'_, V>,
    other: &ViewOf<'_, V>,
    by: u64,
) -> u64
    requires end { IsEnd one.now }
    requires shown { IsShown V.WORDS one.now }
    requires other_shown { IsShown V.WORDS other.now }
    requires fits { by + 256 ^ width_of one.now ≤ 256 ^ width_of other.now }
    ensures { result ≡ found wanted by (view_pairs one.now) (view_pairs other.now) }
{
    let mut count = 0;
    let len = len_in(one);
    'keys: for at in 0..len {
        let (key, _) = entry_in(one, at);
        count += is_sought(wanted, other, by + key) as u64;
    }
    count
}

// Whether a key is one that a node has, or one that it lacks.
fn is_sought<V: Words + Drop>(wanted: bool, node: &ViewOf<'_, V>, key: u64) -> bool
    requires shown { IsShown V.WORDS node.now }
    requires inside { key < 256 ^ width_of node.now }
    ensures { result ≡ is_sought wanted (view_pairs node.now) key }
{
    let has = lookup_below(node, key, &mut Meter::new(UNMETERED)).is_some();
    if wanted { has } else { !has }
}
