//! Laws of visits: contracts of functions that no program calls, so that the check proves them.

ghost use Rattle.std.specs.Prelude.{◌≡◌, ◌+◌, ◌-◌, ◌*◌, ◌^◌, ◌≤◌};
ghost use Rattle.judy_model.specs.Empties.{first_empty, last_empty};
ghost use Rattle.judy_query.specs.Maps.{map_of};
ghost use Rattle.judy_query.specs.Visits.{most_visits_down, most_visits_below, most_visits_near};

use crate::empties::empty_beside;
use crate::sides::Side;
pub use crate::watch::Watch;
use judy_leaf::Words;
use judy_node::NodeOf;

/// A way down enters at most one node for each byte of a word. The two ways of a neighbour part at a branch or below
/// one, so together they enter one node less than for each byte twice.
pub fn a_visit_for_each_byte()
    ensures down { 256 ^ most_visits_down ≡ 2 ^ 64 }
    ensures below { 256 * 256 ^ most_visits_below ≡ 2 ^ 64 }
    ensures near { 256 * 256 ^ most_visits_near ≡ 2 ^ 64 * 2 ^ 64 }
{}

/// The bounds as numbers, for tests that hold trees against them which reach them: of one way down, of one from a child
/// of a branch, and of a neighbour.
pub fn most_visits() -> (u64, u64, u64)
    ensures down { result.0 ≡ most_visits_down }
    ensures below { result.1 ≡ most_visits_below }
    ensures near { result.2 ≡ most_visits_near }
{
    (8, 7, 15)
}

/// Both searches for a word that is no key, by a meter that counts the full children that are entered by it: it counts
/// none more, not even on the key's own way.
///
/// A watch is all that they have to enter the tree by. It has counted at most `u64::MAX - 32` visits.
pub fn no_full_child_is_entered<V: Words + Drop>(
    tree: &NodeOf<V>,
    key: u64,
    watch: &mut Watch,
) -> (Option<u64>, Option<u64>)
    requires { watch.old.meter ≤ 2 ^ 64 - 33 }
    ensures above { result.0 ≡ first_empty (map_of tree.now.pairs) key }
    ensures below { result.1 ≡ last_empty (map_of tree.now.pairs) key }
    ensures spared { watch.new.full ≡ watch.old.full }
{
    let above = empty_beside(Side::Up, tree, key, watch);
    let below = empty_beside(Side::Down, tree, key, watch);
    (above, below)
}
