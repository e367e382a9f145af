//! The values of many keys.
//!
//! A look-up waits for the memory of a node before it knows the next one. The ways of several keys don't wait for each
//! other: so all are gone down first, and then all their ends are looked into, and the processor reads the nodes of
//! several ways at a time.

ghost use Rattle.std.specs.Prelude.{◌≡◌, ◌+◌, ◌-◌, ◌*◌, ◌^◌, ◌≤◌, [], length, map};
ghost use Rattle.std.specs.List.{All};
ghost use Rattle.std.specs.FinMap as finmap;
ghost use Rattle.judy_query.specs.Ends.{value_at, IsEndIfAny};
ghost use Rattle.judy_query.specs.Maps.{map_of};
ghost use Rattle.judy_query.specs.Parts.{value_of};
ghost use Rattle.judy_query.specs.Visits.{most_visits_down};

use crate::ends::value_in;
use crate::values::way_of;
use arrayvec::ArrayVec;
use judy_bits::Meter;
use judy_leaf::Words;
use judy_node::{NodeOf, ViewOf};

/// The most keys whose ways go side by side.
pub const MOST_WAYS: usize = 16;

// Where the ways of some keys end.
type Ends<'a, V> = ArrayVec<Option<(ViewOf<'a, V>, u64)>, 16>;

/// Writes the values of keys, at most [`MOST_WAYS`] of them, to the places of these: for each what `lookup` answers, 0
/// where keys have no value, and `None` where the key is absent. At most 8 visits a key; the meter stands at most at
/// `u64::MAX - 144`. No memory is asked for.
pub fn lookup_many<V: Words + Drop>(
    tree: &NodeOf<V>,
    keys: &[u64],
    values: &mut [Option<u64>],
    meter: &mut Meter,
)
    requires few { length keys.now ≤ 16 }
    requires room { length values.old ≡ length keys.now }
    requires below { meter.old ≤ 2 ^ 64 - 145 }
    ensures values { values.new ≡ map (λ key. finmap.get (map_of tree.now.pairs) key) keys.now }
    ensures no_fewer { meter.old ≤ meter.new }
    ensures visits { meter.new ≤ meter.old + length keys.now * most_visits_down }
{
    tree.law();
    let mut ends = ArrayVec::new();
    go_down(tree, keys, &mut ends, meter);
    look_into(&ends, values);
}

// Goes down the ways of some keys, and tells their ends in the order of these.
fn go_down<'a, V: Words + Drop>(
    tree: &'a NodeOf<V>,
    keys: &[u64],
    ends: &mut Ends<'a, V>,
    meter: &mut Meter,
)
    requires none { ends.old.items ≡ [] }
    requires few { length keys.now ≤ 16 }
    requires below { meter.old ≤ 2 ^ 64 - 145 }
    ensures values { map value_at ends.new.items
        ≡ map (λ key. value_of tree.now.pairs key) keys.now }
    ensures ends { All (IsEndIfAny V.WORDS) ends.new.items }
    ensures no_fewer { meter.old ≤ meter.new }
    ensures visits { meter.new ≤ meter.old + length keys.now * most_visits_down }
{
    'keys: for key in keys {
        ends.push(way_of(tree, *key, meter));
    }
}

// Writes the values that stand where some ways end, each to its own place.
fn look_into<V: Words + Drop>(ends: &[Option<(ViewOf<'_, V>, u64)>], values: &mut [Option<u64>])
    requires ends { All (IsEndIfAny V.WORDS) ends.now }
    requires room { length values.old ≡ length ends.now }
    ensures { values.new ≡ map value_at ends.now }
{
    'ends: for (at, end) in ends.iter().enumerate() {
        values[at] = value_where(end);
    }
}

// The value that stands where a way ends.
fn value_where<V: Words + Drop>(end: &Option<(ViewOf<'_, V>, u64)>) -> Option<u64>
    requires { IsEndIfAny V.WORDS end.now }
    ensures { result ≡ value_at end.now }
{
    match end {
        Some((node, left)) => value_in(node, *left),
        None => None,
    }
}
