//! The value of a key.

ghost use Rattle.std.specs.Prelude.{◌≡◌, ◌+◌, ◌-◌, ◌^◌, ◌<◌, ◌≤◌, None, MatchOption, length};
ghost use Rattle.std.specs.FinMap as map;
ghost use Rattle.judy_node.specs.Trees.{branch_pairs};
ghost use Rattle.judy_node.specs.Views.{view_pairs};
ghost use Rattle.judy_node.specs.declared.view.ViewOf.TheVariants.{Branch};
ghost use Rattle.judy_query.specs.Ends.{value_at, IsEndIfAny};
ghost use Rattle.judy_query.specs.Maps.{map_of};
ghost use Rattle.judy_query.specs.Parts.{value_of, width_of, IsEnd, IsShown};
ghost use Rattle.judy_query.specs.Starts.{IsBegun};
ghost use Rattle.judy_query.specs.Visits.{most_visits_below, most_visits_down};

use crate::ends::{value_in, value_in_words, value_of_one};
use judy_bits::Meter;
use judy_leaf::Words;
use judy_node::{BranchOf, NodeOf, Step, ViewOf};

/// The value of a key, 0 where keys have no value; `None` where it is absent. At most 8 visits; the meter stands at
/// most at `u64::MAX - 16`.
pub fn lookup<V: Words + Drop>(tree: &NodeOf<V>, key: u64, meter: &mut Meter) -> Option<u64>
    requires { meter.old ≤ 2 ^ 64 - 17 }
    ensures value { result ≡ map.get (map_of tree.now.pairs) key }
    ensures no_fewer { meter.old ≤ meter.new }
    ensures visits { meter.new ≤ meter.old + most_visits_down }
{
    tree.law();
    let (end, left) = way_of(tree, key, meter)?;
    value_in(&end, left)
}

/// What a look-up finds at the root, which it enters.
#[derive(Drop)]
pub enum Start<'a, V: Words + Drop> {
    /// The root is a leaf, or the only pair: the value of the key there, none where it is absent.
    Found(Option<u64>),
    /// The root is a branch, and the way goes on there.
    Further(&'a BranchOf<V>),
    /// The root is none of those that were asked for.
    Other,
}

/// Begins a look-up: one visit, of the root. The meter stands below `u64::MAX`.
// A small array is one leaf at the root, and its search is hardly more than a call: so this is compiled into its
// callers, and the rest isn't.
// One pair isn't asked for here, since each look-up of other arrays would ask with it.
#[inline(always)]
pub fn lookup_start<'a, V: Words + Drop>(
    tree: &'a NodeOf<V>,
    key: u64,
    meter: &mut Meter,
) -> Start<'a, V>
    requires { meter.old < 2 ^ 64 - 1 }
    ensures start { IsBegun V.WORDS tree.now.pairs key result }
    ensures visits { meter.new ≡ meter.old + 1 }
{
    tree.law();
    match tree.enter(meter) {
        ViewOf::Leaf(list) => Start::Found(value_in_words(&list, key)),
        ViewOf::Branch(branch) => Start::Further(branch),
        _ => Start::Other,
    }
}

/// The same beside the only pair, where the root is one: one visit, of the root, and the meter as for `lookup_start`.
/// Of any other root `Other`.
#[inline(always)]
pub fn lookup_one<'a, V: Words + Drop>(
    tree: &'a NodeOf<V>,
    key: u64,
    meter: &mut Meter,
) -> Start<'a, V>
    requires { meter.old < 2 ^ 64 - 1 }
    ensures start { IsBegun V.WORDS tree.now.pairs key result }
    ensures visits { meter.new ≡ meter.old + 1 }
{
    tree.law();
    match tree.enter(meter) {
        ViewOf::One(only, value) => Start::Found(value_of_one(only, value, key)),
        _ => Start::Other,
    }
}

/// Goes on with a look-up from a branch at the root: at most 7 visits more. The meter stands at most at
/// `u64::MAX - 16`.
#[inline(always)]
pub fn lookup_further<V: Words + Drop>(
    branch: &BranchOf<V>,
    key: u64,
    meter: &mut Meter,
) -> Option<u64>
    requires below { meter.old ≤ 2 ^ 64 - 17 }
    requires shown { IsShown V.WORDS (Branch branch) }
    requires wide { length branch.now.skip + 1 + branch.now.width ≡ 8 }
    ensures value { result ≡ map.get
        (map_of
        (branch_pairs branch.now.width branch.now.skip branch.now.bytes branch.now.children.items))
        key }
    ensures no_fewer { meter.old ≤ meter.new }
    ensures visits { meter.new ≤ meter.old + most_visits_below }
{
    let (end, left) = end_of_way(branch, key, meter)?;
    value_in(&end, left)
}

/// The value of a key of a node that was entered, 0 where keys have no value; `None` where it is absent. At most 7
/// visits more; the meter stands at most at `u64::MAX - 16`.
pub fn lookup_below<V: Words + Drop>(
    view: &ViewOf<'_, V>,
    key: u64,
    meter: &mut Meter,
) -> Option<u64>
    requires below { meter.old ≤ 2 ^ 64 - 17 }
    requires shown { IsShown V.WORDS view.now }
    requires inside { key < 256 ^ width_of view.now }
    ensures value { result ≡ value_of (view_pairs view.now) key }
    ensures no_fewer { meter.old ≤ meter.new }
    ensures visits { meter.new ≤ meter.old + most_visits_below }
{
    let ViewOf::Branch(branch) = view else {
        return value_in(view, key);
    };
    let (end, rest) = end_of_way(branch, key, meter)?;
    value_in(&end, rest)
}

/// The node without children that a key leads to, and what is left of the key there; none where its way ends beside a
/// child. At most 8 visits, and the meter as for `lookup`.
// As `end_of_way`.
#[inline(always)]
pub(crate) fn way_of<'a, V: Words + Drop>(
    tree: &'a NodeOf<V>,
    key: u64,
    meter: &mut Meter,
) -> Option<(ViewOf<'a, V>, u64)>
    requires { meter.old ≤ 2 ^ 64 - 17 }
    ensures value { value_at result ≡ value_of tree.now.pairs key }
    ensures end { IsEndIfAny V.WORDS result }
    ensures no_fewer { meter.old ≤ meter.new }
    ensures visits { meter.new ≤ meter.old + most_visits_down }
{
    tree.law();
    match tree.enter(meter) {
        ViewOf::Branch(branch) => end_of_way(branch, key, meter),
        end => Some((end, key)),
    }
}

// The node without children that a key of a branch leads to, and what is left of the key there; none where the way ends
// beside a child.
// A node that was entered goes round the loop only where it is a branch, so that its kind is asked for once.
#[inline(always)]
fn end_of_way<'a, V: Words + Drop>(
    top: &'a BranchOf<V>,
    key: u64,
    meter: &mut Meter,
) -> Option<(ViewOf<'a, V>, u64)>
    requires shown { IsShown V.WORDS (Branch top) }
    requires inside { key < 256 ^ (length top.now.skip + 1 + top.now.width) }
    requires below { meter.old ≤ 2 ^ 64 - 16 }
    ensures value { MatchOption result
        (value_of (branch_pairs top.now.width top.now.skip top.now.bytes top.now.children.items) key
        ≡ None) (λ end. value_of
        (branch_pairs top.now.width top.now.skip top.now.bytes top.now.children.items) key
        ≡ value_of (view_pairs end.0) end.1) }
    ensures end { MatchOption result Unit (λ end. IsEnd end.0 × IsShown V.WORDS end.0) }
    ensures no_fewer { meter.old ≤ meter.new }
    ensures visits { meter.new + 1 ≤ meter.old + length top.now.skip + 1 + top.now.width }
{
    let mut branch = top;
    let mut left = key;
    'down: loop {
        let Step::Child(_, place, rest) = branch.step(left) else {
            return None;
        };
        left = rest;
        match branch.children[place].enter(branch.width, meter) {
            ViewOf::Branch(next) => branch = next,
            end => return Some((end, left)),
        }
    }
}
