//! The key at or after a word.

ghost use Rattle.std.specs.Prelude.{◌≡◌, ◌+◌, ◌-◌, ◌^◌, ◌≤◌};
ghost use Rattle.judy_leaf.specs.Nearby.{pair_from};
ghost use Rattle.judy_query.specs.Visits.{most_visits_near};

use crate::Entry;
use crate::ends::{from_in, from_other, value_in_dense};
use crate::sides::Side;
use crate::turns::{pair_behind, turn_to};
use judy_bits::Meter;
use judy_leaf::Words;
use judy_node::{NodeOf, Step, ViewOf};

/// The least key that isn't below a word, with its value, 0 where keys have no value; `None` where all are below. At
/// most 15 visits; the meter stands at most at `u64::MAX - 16`.
// Within the call that asks, the answer needn't be written to memory and read back from there.
#[inline(always)]
pub fn entry_at_or_after<V: Words + Drop>(
    tree: &NodeOf<V>,
    key: u64,
    meter: &mut Meter,
) -> Option<Entry>
    requires { meter.old ≤ 2 ^ 64 - 17 }
    ensures entry { result ≡ pair_from tree.now.pairs key }
    ensures no_fewer { meter.old ≤ meter.new }
    ensures visits { meter.new ≤ meter.old + most_visits_near }
{
    tree.law();
    let mut at = match tree.enter(meter) {
        ViewOf::Branch(top) => (top, key),
        view => return from_other(&view, key),
    };
    let mut later = None;
    'down: loop {
        let (branch, left) = at;
        let step = branch.step(left);
        let Step::Child(_, place, rest) = step else {
            return pair_behind(branch, step, key - left, later, meter);
        };
        match branch.children[place].enter(branch.width, meter) {
            ViewOf::Branch(below) => {
                later = turn_to(Side::Up, branch, step, key - left, later);
                at = (below, rest);
            }
            view => {
                if let Some(value) = value_in_dense(&view, rest) {
                    return Some((key, value));
                }
                let Some(found) = from_in(&view, rest) else {
                    return pair_behind(branch, step, key - left, later, meter);
                };
                return Some((key - rest + found.0, found.1));
            }
        }
    }
}
