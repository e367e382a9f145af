//! How many keys there are below children, and which child has one of them.

ghost use Rattle.std.specs.Prelude.{◌≡◌, ◌+◌, ◌-◌, ◌^◌, ◌<◌, ◌≤◌, length};
ghost use Rattle.judy_node.specs.Trees.{Tree};
ghost use Rattle.judy_node.specs.Populations.{population, keys_before, HoldsNth};

use crate::child::ChildOf;
use judy_leaf::Words;

/// How many keys there are below children.
pub(crate) fn population_of<V: Words + Drop>(children: &[ChildOf<V>]) -> u64
    requires { population children.now < 2 ^ 64 }
    ensures { result ≡ population children.now }
{
    let mut sum = 0;
    for child in children {
        sum += child.pop();
    }
    sum
}

/// How many keys there are below the first children, so many; all the keys are `all`. It adds from the nearer end.
pub(crate) fn keys_by_children<V: Words + Drop>(
    children: &[ChildOf<V>],
    all: u64,
    place: usize,
) -> u64
    requires all { all ≡ population children.now }
    requires place { place ≤ length children.now }
    ensures { result ≡ keys_before place children.now }
{
    if place <= children.len() / 2 {
        population_of(&children[..place])
    } else {
        all - population_of(&children[place..])
    }
}

/// The child that has the n-th of the keys below children, counted from 0, and which of its own keys it is. All the
/// keys are so many;
/// the search begins at the nearer end.
pub(crate) fn child_holding<V: Words + Drop>(
    children: &[ChildOf<V>],
    all: u64,
    n: u64,
) -> (usize, u64)
    requires all { all ≡ population children.now }
    requires within { n < all }
    ensures { (kid : Tree) × HoldsNth children.now n result.0 result.1 kid }
{
    if n < all / 2 {
        holding_from_first(children, n)
    } else {
        holding_from_last(children, all - n)
    }
}

// The same from the first child on.
fn holding_from_first<V: Words + Drop>(children: &[ChildOf<V>], n: u64) -> (usize, u64)
    requires { n < population children.now }
    ensures { (kid : Tree) × HoldsNth children.now n result.0 result.1 kid }
{
    let mut left = n;
    for (place, child) in children.iter().enumerate() {
        let count = child.pop();
        if left < count {
            return (place, left);
        }
        left -= count;
    }
    unreachable!()
}

// The same from the last child on, for the key from which on there are so many keys.
fn holding_from_last<V: Words + Drop>(children: &[ChildOf<V>], rest: u64) -> (usize, u64)
    requires some { 1 ≤ rest }
    requires within { rest ≤ population children.now }
    ensures { (kid : Tree)
        × HoldsNth children.now (population children.now - rest) result.0 result.1 kid }
{
    let mut left = rest;
    let mut place = children.len();
    while place > 0 {
        place -= 1;
        let count = children[place].pop();
        if left <= count {
            return (place, count - left);
        }
        left -= count;
    }
    unreachable!()
}
