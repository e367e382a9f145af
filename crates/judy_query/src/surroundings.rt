//! A key and what is above it, in one way down.

ghost use Rattle.std.specs.Prelude.{◌≡◌, ◌+◌, ◌-◌, ◌^◌, ◌≤◌, length, slice_get};
ghost use Rattle.std.specs.FinMap as map;
ghost use Rattle.judy_leaf.specs.Nearby.{pair_from};
ghost use Rattle.judy_node.specs.Views.{view_pairs};
ghost use Rattle.judy_query.specs.Maps.{map_of};
ghost use Rattle.judy_query.specs.Parts.{value_of, IsEnd, IsShown};
ghost use Rattle.judy_query.specs.Visits.{most_visits_near};

use crate::Entry;
use crate::ends::{from_other, value_in, value_in_imm};
use crate::sides::Side;
use crate::turns::{pair_behind, turn_to};
use judy_bits::Meter;
use judy_leaf::{LeafRef, Words};
use judy_node::{NodeOf, Step, ViewOf};

/// The value of a key, 0 where keys have no value, `None` where it is absent; and the least key above it with the value
/// of that one, `None` where no key is above it. At most 15 visits; the meter stands at most at `u64::MAX - 16`.
// Most keys have the next one beside them in the node where their own way ends. It is compiled into its caller as
// `entry_at_or_after` is.
#[inline(always)]
pub fn around<V: Words + Drop>(
    tree: &NodeOf<V>,
    key: u64,
    meter: &mut Meter,
) -> (Option<u64>, Option<Entry>)
    requires { meter.old ≤ 2 ^ 64 - 17 }
    ensures value { result.0 ≡ map.get (map_of tree.now.pairs) key }
    ensures above { result.1 ≡ pair_from tree.now.pairs (key + 1) }
    ensures no_fewer { meter.old ≤ meter.new }
    ensures visits { meter.new ≤ meter.old + most_visits_near }
{
    tree.law();
    let mut at = match tree.enter(meter) {
        ViewOf::Branch(top) => (top, key),
        view => return around_other(&view, key),
    };
    let mut later = None;
    'down: loop {
        let (branch, left) = at;
        let step = branch.step(left);
        let Step::Child(_, place, rest) = step else {
            return (None, pair_behind(branch, step, key - left, later, meter));
        };
        match branch.children[place].enter(branch.width, meter) {
            ViewOf::Branch(below) => {
                later = turn_to(Side::Up, branch, step, key - left, later);
                at = (below, rest);
            }
            view => {
                let (value, above) = around_in(&view, rest);
                let Some(found) = above else {
                    return (value, pair_behind(branch, step, key - left, later, meter));
                };
                return (value, Some((key - rest + found.0, found.1)));
            }
        }
    }
}

// The value of a key in a node that isn't a branch, and the nearest pair above it there.
#[inline(always)]
fn around_in<V: Words + Drop>(view: &ViewOf<'_, V>, key: u64) -> (Option<u64>, Option<Entry>)
    requires end { IsEnd view.now }
    requires shown { IsShown V.WORDS view.now }
    ensures value { result.0 ≡ value_of (view_pairs view.now) key }
    ensures above { result.1 ≡ pair_from (view_pairs view.now) (key + 1) }
{
    match view {
        ViewOf::Leaf(list) => around_in_leaf(list, key),
        _ => around_other(view, key),
    }
}

// The same, with the search of a leaf by a call.
// As `from_other`.
#[inline(always)]
fn around_other<V: Words + Drop>(view: &ViewOf<'_, V>, key: u64) -> (Option<u64>, Option<Entry>)
    requires end { IsEnd view.now }
    requires shown { IsShown V.WORDS view.now }
    ensures value { result.0 ≡ value_of (view_pairs view.now) key }
    ensures above { result.1 ≡ pair_from (view_pairs view.now) (key + 1) }
{
    match view {
        ViewOf::Imm(list) => (value_in_imm(list, key), above_in(view, key)),
        ViewOf::Leaf(list) => around_leaf(list, key),
        _ => (value_in(view, key), above_in(view, key)),
    }
}

// The nearest pair above a key there. It is asked of nodes that are no leaves.
#[inline(always)]
fn above_in<V: Words + Drop>(view: &ViewOf<'_, V>, key: u64) -> Option<Entry>
    requires end { IsEnd view.now }
    requires shown { IsShown V.WORDS view.now }
    ensures { result ≡ pair_from (view_pairs view.now) (key + 1) }
{
    if key == u64::MAX {
        None
    } else {
        from_other(view, key + 1)
    }
}

// The same of a leaf: where the key stands, or would, so does what is above it, without a search of its own.
#[inline(always)]
fn around_in_leaf<V: Words + Drop>(list: &LeafRef<'_, V>, key: u64) -> (Option<u64>, Option<Entry>)
    ensures value { result.0 ≡ value_of list.now.pairs key }
    ensures above { result.1 ≡ pair_from list.now.pairs (key + 1) }
{
    let count = list.len();
    match list.search(key) {
        Ok(at) => (Some(list.value_at(at)), pair_on(list, count, at + 1)),
        Err(at) => (None, pair_on(list, count, at)),
    }
}

// The same by a call.
fn around_leaf<V: Words + Drop>(list: &LeafRef<'_, V>, key: u64) -> (Option<u64>, Option<Entry>)
    ensures value { result.0 ≡ value_of list.now.pairs key }
    ensures above { result.1 ≡ pair_from list.now.pairs (key + 1) }
{
    around_in_leaf(list, key)
}

// The pair at a place of a leaf of so many keys, where there is one.
fn pair_on<V: Words + Drop>(list: &LeafRef<'_, V>, count: usize, at: usize) -> Option<Entry>
    requires { count ≡ length list.now.pairs }
    ensures { result ≡ slice_get list.now.pairs at }
{
    if at < count {
        Some((list.key_at(at), list.value_at(at)))
    } else {
        None
    }
}
