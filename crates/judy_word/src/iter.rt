// The keys of an array, one after another, and how an array is printed.
ghost use Rattle.std.specs.Prelude.{◌≡◌, ◌<◌, ◌^◌, ◌++◌, length, min, take, drop};
ghost use Rattle.std.specs.FinMap as map;
ghost use Rattle.judy_model.specs.Counts as counts;

use crate::tree_array::TreeEntries;
use crate::word_array::{Judy1, JudyL};
use judy_leaf::ValueWords;
use std::fmt::{Debug, Formatter, Result, Write};
use std::iter::{IntoIterator, Iterator};
use std::marker::Model;

/// The keys of a map with their values that are still to come, by ascending key.
pub type Entries<'a> = TreeEntries<'a, ValueWords<1>>;

/// The keys of a set that are still to come, by ascending order: to its callers it is their list.
#[derive(Drop)]
pub struct Keys<'a> {
    entries: TreeEntries<'a, ValueWords<0>>,
}

impl<'a> Model for Keys<'a> {
    ghost use Rattle.std.specs.Prelude.{ℕ, List};
    ghost use Rattle.judy_leaf.specs.KeyLists.{keys_of};

    ghost Value = { List ℕ };

    ghost view = { λ a. keys_of a.entries };
}

impl<'a> Iterator for Keys<'a> {
    ghost use Rattle.std.specs.Iterator.{YieldsFirst, item_count};

    type Item = u64;

    ghost next_gives = { YieldsFirst (λ keys. keys) };

    ghost remaining = { item_count (λ keys. keys) };

    fn next(&mut self) -> Option<u64> {
        let (key, _) = self.entries.next()?;
        Some(key)
    }
}

impl<'a> Keys<'a> {
    /// Writes the next keys to the front of a slice, as many as there are and it has places for, and answers how many
    /// these are: fewer than there are places for are the last ones. It copies a node at a time, which is faster than
    /// as many steps. The slice has fewer than 2^60 places.
    pub fn fill(&mut self, out: &mut [u64]) -> usize
        requires places { length out.old < 2 ^ 60 }
        ensures count { result ≡ min (length out.old) (length self.old) }
        ensures out { out.new ≡ take result self.old ++ drop result out.old }
        ensures left { self.new ≡ drop result self.old }
    {
        self.entries.fill(out)
    }
}

impl Judy1 {
    /// The keys by ascending order, one after another. A step to the next key begins where the last one ended, not at
    /// the root.
    pub fn iter(&self) -> Keys<'_>
        ensures { result ≡ map.keys self.now.map }
    {
        Keys {
            entries: self.tree().iter(),
        }
    }

    /// The same from the first key that isn't below `i`.
    pub fn iter_from(&self, i: u64) -> Keys<'_>
        ensures { result ≡ drop (counts.rank self.now.map i) (map.keys self.now.map) }
    {
        Keys {
            entries: self.tree().iter_from(i),
        }
    }
}

impl JudyL {
    /// The keys with their values, by ascending key, one after another. A step to the next key begins where the last
    /// one ended, not at the root.
    pub fn iter(&self) -> Entries<'_>
        ensures { result ≡ map.entries self.now.map }
    {
        self.tree().iter()
    }

    /// The same from the first key that isn't below `i`.
    pub fn iter_from(&self, i: u64) -> Entries<'_>
        ensures { result ≡ drop (counts.rank self.now.map i) (map.entries self.now.map) }
    {
        self.tree().iter_from(i)
    }

    /// Lets entries be those of `iter`, whatever they were. A walk over many maps makes them once so, where each `iter`
    /// makes and moves some 300 bytes.
    pub fn restart<'a>(&'a self, entries: &mut Entries<'a>)
        ensures { entries.new ≡ map.entries self.now.map }
    {
        entries.restart(self.tree());
    }

    /// The same of `iter_from`.
    pub fn restart_from<'a>(&'a self, i: u64, entries: &mut Entries<'a>)
        ensures { entries.new ≡ drop (counts.rank self.now.map i) (map.entries self.now.map) }
    {
        entries.restart_from(self.tree(), i);
    }
}

impl<'a> IntoIterator for &'a Judy1 {
    type Item = u64;

    type IntoIter = Keys<'a>;

    ghost into_iter_gives = { λ set keys. keys ≡ map.keys set.now.map };

    fn into_iter(self) -> Keys<'a> {
        self.iter()
    }
}

impl<'a> IntoIterator for &'a JudyL {
    type Item = (u64, u64);

    type IntoIter = Entries<'a>;

    ghost into_iter_gives = { λ array entries. entries ≡ map.entries array.now.map };

    fn into_iter(self) -> Entries<'a> {
        self.iter()
    }
}

/// The keys as a set is printed: `{1, 5}`.
impl Debug for Judy1 {
    fn fmt<W: Write>(&self, f: &mut Formatter<W>) -> Result {
        f.debug_set().entries(self.iter()).finish()
    }
}

/// The keys with their values as a map is printed: `{1: 10, 5: 50}`.
impl Debug for JudyL {
    fn fmt<W: Write>(&self, f: &mut Formatter<W>) -> Result {
        let mut out = f.debug_map();
        for (key, value) in self {
            out.entry(&key, &value);
        }
        out.finish()
    }
}
