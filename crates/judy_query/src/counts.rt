//! How many keys are below a word.

ghost use Rattle.std.specs.Prelude.{◌≡◌, ◌+◌, ◌-◌, ◌^◌, ◌≤◌};
ghost use Rattle.judy_model.specs.Counts as counts;
ghost use Rattle.judy_query.specs.Maps.{map_of};
ghost use Rattle.judy_query.specs.Visits.{most_visits_down};

use crate::branches::passed;
use crate::ends::rank_in;
use judy_bits::Meter;
use judy_leaf::Words;
use judy_node::{NodeOf, Step, ViewOf};

/// How many keys are below a word; below 0 there is none, and no node is entered. At most 8 visits; the meter stands at
/// most at `u64::MAX - 16`.
pub fn rank<V: Words + Drop>(tree: &NodeOf<V>, key: u64, meter: &mut Meter) -> u64
    requires { meter.old ≤ 2 ^ 64 - 17 }
    ensures value { result ≡ counts.rank (map_of tree.now.pairs) key }
    ensures no_fewer { meter.old ≤ meter.new }
    ensures visits { meter.new ≤ meter.old + most_visits_down }
{
    tree.law();
    if key == 0 {
        return 0;
    }
    let mut view = tree.enter(meter);
    let mut left = key;
    let mut below = 0;
    'down: while let ViewOf::Branch(branch) = view {
        let step = branch.step(left);
        below += branch.keys_before(passed(branch, step));
        let Step::Child(_, place, rest) = step else {
            return below;
        };
        left = rest;
        view = branch.children[place].enter(branch.width, meter);
    }
    below + rank_in(&view, left)
}
