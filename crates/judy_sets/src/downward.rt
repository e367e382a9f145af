//! Keys in descending order, many at a time.

ghost use Rattle.std.specs.Prelude.{◌≡◌, ◌<◌, ◌^◌, ◌++◌, length, min, take, drop, reverse};
ghost use Rattle.judy_leaf.specs.Fills.{made_of};
ghost use Rattle.judy_model.specs.Counts as counts;
ghost use Rattle.judy_query.specs.Maps.{map_of};
ghost use Rattle.judy_sets.specs.Downward.{up_to, on_from, IsFull};

use judy_bits::Meter;
use judy_leaf::{FromPair, Words};
use judy_node::NodeOf;
use judy_query::Walk;
use judy_unmetered::UNMETERED;
use judy_word::WordArray;

/// Writes what stands for the keys up to a word, each with its value, in descending order to the front of a slice, as
/// many as there are and it has places for, and answers how many these are: fewer than there are places for are the
/// last ones. What stands behind them stays. The slice has fewer than 2^60 places.
///
/// It finds the last of them by its place, copies a node at a time from there on, and turns that round.
///
///     let mut latest = [0; 10];
///     let count = fill_down(&times, now, &mut latest);
pub fn fill_down<V: Words + Drop, E: FromPair>(
    array: &WordArray<V>,
    from: u64,
    out: &mut [E],
) -> usize
    requires places { length out.old < 2 ^ 60 }
    ensures count { result
        ≡ min (length out.old) (counts.count_up_to array.now.map from) }
    ensures out { out.new
        ≡ take result (made_of E.made (reverse (up_to array.now.map from))) ++ drop result out.old }
{
    let all = array.count(0, from);
    let count = all.min(out.len() as u64) as usize;
    if count == 0 {
        return 0;
    }
    let Some(first) = array.by_count(all - count as u64 + 1) else {
        return 0;
    };
    let page = &mut out[..count];
    fill_up(array.root(), first, page);
    page.reverse();
    count
}

// Fills a slice with what stands for the pairs of a tree from a key on, where they are enough.
fn fill_up<V: Words + Drop, E: FromPair>(root: &NodeOf<V>, from: u64, out: &mut [E])
    requires places { length out.old < 2 ^ 60 }
    ensures { IsFull E.made (on_from (map_of root.now.pairs) from) out.old out.new }
{
    root.law();
    Walk::from_key(root, from, &mut Meter::new(UNMETERED)).fill(out, &mut Meter::new(UNMETERED));
}
