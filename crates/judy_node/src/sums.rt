//! The populations of the children of a full branch by sixteens: where all 256 children stand, a rank reads at most
//! eight sums and eight children in place of 128 children, and the n-th key at most 16 of each in place of 256
//! children.

ghost use Rattle.std.specs.Prelude.{◌≡◌, ◌+◌, ◌-◌, ◌*◌, ◌^◌, ◌<◌, ◌≤◌, ℕ, List, length, get_or, set, take, sum};
ghost use Rattle.judy_node.specs.Trees.{Tree};
ghost use Rattle.judy_node.specs.Populations.{population, keys_before, AreGroups, AreSums, IsInGroup, HoldsNth};

use crate::child::ChildOf;
use crate::populations::{child_holding, population_of};
use judy_leaf::Words;
use std::alloc::Global;

/// The populations of a branch's children in groups of sixteen, where all 256 children stand. Other branches have none,
/// and one for whose sums there was no memory goes without.
#[derive(Drop)]
pub struct Sums {
    pub(crate) groups: Option<Box<[u64; 16]>>,
}

impl Sums {
    /// No sums.
    pub fn none() -> Sums
        ensures { (kids : List Tree) → AreSums result kids }
    {
        Sums { groups: None }
    }

    /// The sums of children; none where there aren't 256, and where there is no memory for them.
    #[inline(always)]
    pub(crate) fn of<V: Words + Drop>(alloc: Global, children: &[ChildOf<V>]) -> Sums
        requires { population children.now < 2 ^ 64 }
        ensures { AreSums result children.now }
    {
        if children.len() == 256 {
            all_sums(alloc, children)
        } else {
            Sums::none()
        }
    }

    /// Counts one key more below the child at a place.
    pub fn add(&mut self, place: usize)
        requires { (kids : List Tree) × AreSums self.old kids × (place < length kids)
            × (population kids < 2 ^ 64 - 1) }
        ensures { (kids : List Tree) (kid : Tree) → AreSums self.old kids → place < length kids
            → length kid.pairs ≡ length (get_or kids place kid).pairs + 1
            → AreSums self.new (set kids place kid) }
    {
        if let Some(groups) = &mut self.groups {
            groups[place / 16] += 1;
        }
    }

    /// Counts one key less below the child at a place.
    pub fn take(&mut self, place: usize)
        requires { (kids : List Tree) × (kid : Tree) × AreSums self.old kids × (place < length kids)
            × (0 < length (get_or kids place kid).pairs) }
        ensures { (kids : List Tree) (kid : Tree) → AreSums self.old kids → place < length kids
            → length kid.pairs + 1 ≡ length (get_or kids place kid).pairs
            → AreSums self.new (set kids place kid) }
    {
        if let Some(groups) = &mut self.groups {
            groups[place / 16] -= 1;
        }
    }
}

// The sums of 256 children; none where there is no memory for them. They are seldom made: compiled into the callers,
// room for them on the stack is made ready at each child.
#[inline(never)]
fn all_sums<V: Words + Drop>(alloc: Global, children: &[ChildOf<V>]) -> Sums
    requires all { length children.now ≡ 256 }
    requires fits { population children.now < 2 ^ 64 }
    ensures { AreSums result children.now }
{
    match Box::new(alloc, groups_of(children)) {
        Ok(groups) => Sums {
            groups: Some(groups),
        },
        Err(_) => Sums::none(),
    }
}

// The populations of 256 children by sixteens.
fn groups_of<V: Words + Drop>(children: &[ChildOf<V>]) -> [u64; 16]
    requires all { length children.now ≡ 256 }
    requires fits { population children.now < 2 ^ 64 }
    ensures { AreGroups result children.now }
{
    let mut groups = [0; 16];
    for group in 0..16 {
        groups[group] = population_of(&children[16 * group..16 * group + 16]);
    }
    groups
}

// The sum of words.
fn sum_of(words: &[u64]) -> u64
    requires { sum words.now < 2 ^ 64 }
    ensures { result ≡ sum words.now }
{
    let mut total = 0;
    for word in words {
        total += *word;
    }
    total
}

// How many keys there are in the first groups, so many; all the keys are `all`. It adds from the nearer end.
fn keys_before_group(groups: &[u64], all: u64, group: usize) -> u64
    requires all { all ≡ sum groups.now }
    requires group { group ≤ length groups.now }
    ensures { result ≡ sum (take group groups.now) }
{
    if group <= groups.len() / 2 {
        sum_of(&groups[..group])
    } else {
        all - sum_of(&groups[group..])
    }
}

/// How many keys there are below the first of 256 children, so many, by the sums before the nearest group.
pub(crate) fn keys_by_groups<V: Words + Drop>(
    groups: &[u64; 16],
    children: &[ChildOf<V>],
    all: u64,
    place: usize,
) -> u64
    requires groups { AreGroups groups.now children.now }
    requires all { all ≡ population children.now }
    requires place { place ≤ length children.now }
    ensures { result ≡ keys_before place children.now }
{
    let group = (place + 8) / 16;
    let border = 16 * group;
    let before = keys_before_group(groups, all, group);
    if border <= place {
        before + population_of(&children[border..place])
    } else {
        before - population_of(&children[place..border])
    }
}

// The group that has the n-th of all keys, and which of its own keys it is. The search begins at the nearer end.
fn group_holding(groups: &[u64], all: u64, n: u64) -> (usize, u64)
    requires all { all ≡ sum groups.now }
    requires within { n < all }
    ensures { IsInGroup groups.now n result.0 result.1 }
{
    if n < all / 2 {
        group_from_first(groups, n)
    } else {
        group_from_last(groups, all - n)
    }
}

// The same from the first group on.
fn group_from_first(groups: &[u64], n: u64) -> (usize, u64)
    requires { n < sum groups.now }
    ensures { IsInGroup groups.now n result.0 result.1 }
{
    let mut left = n;
    for (group, count) in groups.iter().enumerate() {
        if left < *count {
            return (group, left);
        }
        left -= *count;
    }
    unreachable!()
}

// The same from the last group on, for the key from which on there are so many keys.
fn group_from_last(groups: &[u64], rest: u64) -> (usize, u64)
    requires some { 1 ≤ rest }
    requires within { rest ≤ sum groups.now }
    ensures { IsInGroup groups.now (sum groups.now - rest) result.0 result.1 }
{
    let mut left = rest;
    let mut group = groups.len();
    while group > 0 {
        group -= 1;
        let count = groups[group];
        if left <= count {
            return (group, count - left);
        }
        left -= count;
    }
    unreachable!()
}

/// The one of 256 children that has the n-th of all keys, counted from 0, and which of its own keys it is: first its
/// group is looked for, then the child in it, each from the nearer end.
pub(crate) fn holding_by_groups<V: Words + Drop>(
    groups: &[u64; 16],
    children: &[ChildOf<V>],
    all: u64,
    n: u64,
) -> (usize, u64)
    requires groups { AreGroups groups.now children.now }
    requires all { all ≡ population children.now }
    requires within { n < all }
    ensures { (kid : Tree) × HoldsNth children.now n result.0 result.1 kid }
{
    let (group, left) = group_holding(groups, all, n);
    let first = 16 * group;
    let (place, own) = child_holding(&children[first..first + 16], groups[group], left);
    (first + place, own)
}
