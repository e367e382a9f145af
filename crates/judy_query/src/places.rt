//! The key at a place.

ghost use Rattle.std.specs.Prelude.{◌≡◌, ◌+◌, ◌-◌, ◌^◌, ◌<◌, ◌≤◌, length, slice_get, Some};
ghost use Rattle.judy_node.specs.Views.{view_pairs};
ghost use Rattle.judy_query.specs.Parts.{IsShown, width_of};
ghost use Rattle.judy_query.specs.Visits.{most_visits_down};

use crate::Entry;
use crate::branches::{holding, start_of};
use crate::ends::entry_in;
use judy_bits::Meter;
use judy_leaf::Words;
use judy_node::{NodeOf, ViewOf};

/// The key at a place among all keys by ascending order, counted from 0, with its value, 0 where keys have no value;
/// `None` from the number of keys on. At most 8 visits; the meter stands at most at `u64::MAX - 16`.
// Where nobody asks for the value it isn't read.
#[inline(always)]
pub fn entry_nth<V: Words + Drop>(tree: &NodeOf<V>, place: u64, meter: &mut Meter) -> Option<Entry>
    requires { meter.old ≤ 2 ^ 64 - 17 }
    ensures entry { result ≡ slice_get tree.now.pairs place }
    ensures no_fewer { meter.old ≤ meter.new }
    ensures visits { meter.new ≤ meter.old + most_visits_down }
{
    tree.law();
    if place >= tree.pop() {
        return None;
    }
    let view = tree.enter(meter);
    Some(entry_below(view, place, meter))
}

/// The pair at a place in a node that was entered, whose keys have so many bytes: the ways to it enter one node less at
/// most.
// Inside its callers the node needn't be put together in memory. Where it isn't a branch its kind, which was just told,
// isn't told again.
#[inline(always)]
pub(crate) fn entry_below<V: Words + Drop>(
    top: ViewOf<'_, V>,
    place: u64,
    meter: &mut Meter,
) -> Entry
    requires shown { IsShown V.WORDS top }
    requires inside { place < length (view_pairs top) }
    requires room { meter.old ≤ 2 ^ 64 - 8 }
    ensures entry { slice_get (view_pairs top.entry) place ≡ Some result }
    ensures no_fewer { meter.old ≤ meter.new }
    ensures visits { meter.new + 1 ≤ meter.old + width_of top.entry }
{
    if let ViewOf::Branch(_) = &top {
        return entry_further_down(top, place, meter);
    }
    entry_in(&top, place)
}

// The same by a loop over branches.
#[inline(always)]
fn entry_further_down<V: Words + Drop>(top: ViewOf<'_, V>, place: u64, meter: &mut Meter) -> Entry
    requires shown { IsShown V.WORDS top }
    requires inside { place < length (view_pairs top) }
    requires room { meter.old ≤ 2 ^ 64 - 8 }
    ensures entry { slice_get (view_pairs top.entry) place ≡ Some result }
    ensures no_fewer { meter.old ≤ meter.new }
    ensures visits { meter.new + 1 ≤ meter.old + width_of top.entry }
{
    let mut view = top;
    let mut left = place;
    let mut base = 0;
    'down: while let ViewOf::Branch(branch) = view {
        let (at, rest) = holding(branch, left);
        base += start_of(branch, at);
        left = rest;
        view = branch.children[at].enter(branch.width, meter);
    }
    let (key, value) = entry_in(&view, left);
    (base + key, value)
}
