//! The key at or before a word.

ghost use Rattle.std.specs.Prelude.{◌≡◌, ◌+◌, ◌-◌, ◌^◌, ◌≤◌};
ghost use Rattle.judy_leaf.specs.Nearby.{pair_up_to};
ghost use Rattle.judy_query.specs.Visits.{most_visits_near};

use crate::Entry;
use crate::ends::up_to_in;
use crate::sides::Side;
use crate::turns::{greatest, turn_to};
use judy_bits::Meter;
use judy_leaf::Words;
use judy_node::{NodeOf, Step, ViewOf};

/// The greatest key that isn't above a word, with its value, 0 where keys have no value; `None` where all are above. At
/// most 15 visits; the meter stands at most at `u64::MAX - 16`.
// As `entry_at_or_after`.
#[inline(always)]
pub fn entry_at_or_before<V: Words + Drop>(
    tree: &NodeOf<V>,
    key: u64,
    meter: &mut Meter,
) -> Option<Entry>
    requires { meter.old ≤ 2 ^ 64 - 17 }
    ensures entry { result ≡ pair_up_to tree.now.pairs key }
    ensures no_fewer { meter.old ≤ meter.new }
    ensures visits { meter.new ≤ meter.old + most_visits_near }
{
    tree.law();
    let mut at = match tree.enter(meter) {
        ViewOf::Branch(top) => (top, key),
        view => return up_to_in(&view, key),
    };
    let mut earlier = None;
    'down: loop {
        let (branch, left) = at;
        let step = branch.step(left);
        earlier = turn_to(Side::Down, branch, step, key - left, earlier);
        let Step::Child(_, place, rest) = step else {
            return greatest(earlier, meter);
        };
        match branch.children[place].enter(branch.width, meter) {
            ViewOf::Branch(below) => at = (below, rest),
            view => {
                let Some(found) = up_to_in(&view, rest) else {
                    return greatest(earlier, meter);
                };
                return Some((key - rest + found.0, found.1));
            }
        }
    }
}
