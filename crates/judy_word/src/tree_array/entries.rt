//! The nearest keys and the n-th with their values, each in one way down the tree, and all of them one after another.

ghost use Rattle.std.specs.Prelude.{◌≡◌, ◌<◌, ◌^◌, ◌++◌, Some, IfSome, length, min, take, drop, map as mapped};
ghost use Rattle.std.specs.FinMap as map;
ghost use Rattle.std.specs.Option.{option_map};
ghost use Rattle.judy_model.specs.Counts as counts;
ghost use Rattle.judy_model.specs.Neighbours as neighbours;
ghost use Rattle.judy_word.specs.Held.{map_in};

use crate::tree_array::TreeArray;
use judy_bits::Meter;
use judy_leaf::{FromPair, Words};
use judy_query::{Walk, around, entry_at_or_after, entry_at_or_before, entry_nth};
use judy_unmetered::UNMETERED;
use std::iter::Iterator;
use std::marker::Model;

/// The keys of an array that are still to come, by ascending key, each with its value, 0 where keys have no value: to
/// its callers it is their list. A step to the next key begins where the last one ended, not at the root.
#[derive(Drop)]
pub struct TreeEntries<'a, V: Words + Drop> {
    walk: Walk<'a, V>,
}

impl<'a, V: Words + Drop> Model for TreeEntries<'a, V> {
    ghost use Rattle.std.specs.Prelude.{ℕ, List};

    ghost Value = { List (ℕ × ℕ) };

    ghost view = { λ a. a.walk };
}

impl<'a, V: Words + Drop> Iterator for TreeEntries<'a, V> {
    ghost use Rattle.std.specs.Iterator.{YieldsFirst, item_count};

    type Item = (u64, u64);

    ghost next_gives = { YieldsFirst (λ entries. entries) };

    ghost remaining = { item_count (λ entries. entries) };

    fn next(&mut self) -> Option<(u64, u64)> {
        self.walk.next(&mut Meter::new(UNMETERED))
    }
}

impl<'a, V: Words + Drop> TreeEntries<'a, V> {
    /// Writes what stands for the next keys with their values to the front of a slice, as many as there are and it has
    /// places for, and answers how many these are: fewer than there are places for are the last ones. It copies a node
    /// at a time, which is faster than as many steps. The slice has fewer than 2^60 places.
    pub fn fill<E: FromPair>(&mut self, out: &mut [E]) -> usize
        requires places { length out.old < 2 ^ 60 }
        ensures count { result ≡ min (length out.old) (length self.old) }
        ensures out { out.new
            ≡ take result (mapped (λ entry. E.made entry.0 entry.1) self.old)
            ++ drop result out.old }
        ensures left { self.new ≡ drop result self.old }
    {
        self.walk.fill(out, &mut Meter::new(UNMETERED))
    }

    /// Lets the entries be those of `iter` of an array, whatever they were: they are some 300 bytes, which are made and
    /// moved once so for many arrays.
    pub fn restart(&mut self, array: &'a TreeArray<V>)
        ensures { self.new ≡ map.entries (map_in array.now) }
    {
        array.root.law();
        self.walk
            .restart(&array.root, 0, &mut Meter::new(UNMETERED));
    }

    /// The same of `iter_from`.
    pub fn restart_from(&mut self, array: &'a TreeArray<V>, from: u64)
        ensures { self.new
            ≡ drop (counts.rank (map_in array.now) from) (map.entries (map_in array.now)) }
    {
        array.root.law();
        self.walk
            .restart(&array.root, from, &mut Meter::new(UNMETERED));
    }
}

impl<V: Words + Drop> TreeArray<V> {
    /// The least key that isn't below a word, with its value, 0 where keys have no value; `None` where there is none.
    // Compiled into the caller, as the search is: the answer doesn't go through memory then.
    #[inline(always)]
    pub fn first_entry(&self, from: u64) -> Option<(u64, u64)>
        ensures key { option_map (λ entry. entry.0) result
            ≡ neighbours.first (map_in self.now) from }
        ensures value { IfSome result (λ entry. map.get (map_in self.now) entry.0 ≡ Some entry.1) }
    {
        self.root.law();
        entry_at_or_after(&self.root, from, &mut Meter::new(UNMETERED))
    }

    /// The least key above it, with its value, or `None`.
    // As `first_entry`.
    #[inline(always)]
    pub fn next_entry(&self, from: u64) -> Option<(u64, u64)>
        ensures key { option_map (λ entry. entry.0) result
            ≡ neighbours.next (map_in self.now) from }
        ensures value { IfSome result (λ entry. map.get (map_in self.now) entry.0 ≡ Some entry.1) }
    {
        self.law();
        if from == u64::MAX {
            None
        } else {
            self.first_entry(from + 1)
        }
    }

    /// The greatest key that isn't above it, with its value, or `None`.
    // As `first_entry`.
    #[inline(always)]
    pub fn last_entry(&self, from: u64) -> Option<(u64, u64)>
        ensures key { option_map (λ entry. entry.0) result
            ≡ neighbours.last (map_in self.now) from }
        ensures value { IfSome result (λ entry. map.get (map_in self.now) entry.0 ≡ Some entry.1) }
    {
        self.root.law();
        entry_at_or_before(&self.root, from, &mut Meter::new(UNMETERED))
    }

    /// The greatest key below it, with its value, or `None`.
    // As `first_entry`.
    #[inline(always)]
    pub fn prev_entry(&self, from: u64) -> Option<(u64, u64)>
        ensures key { option_map (λ entry. entry.0) result
            ≡ neighbours.prev (map_in self.now) from }
        ensures value { IfSome result (λ entry. map.get (map_in self.now) entry.0 ≡ Some entry.1) }
    {
        if from == 0 {
            None
        } else {
            self.last_entry(from - 1)
        }
    }

    /// The value of a word, 0 where keys have no value, `None` where it is no key; and the least key above it with its
    /// value, or `None`: in one way down.
    // As `first_entry`.
    #[inline(always)]
    pub fn around(&self, key: u64) -> (Option<u64>, Option<(u64, u64)>)
        ensures found { result.0 ≡ map.get (map_in self.now) key }
        ensures key { option_map (λ entry. entry.0) result.1
            ≡ neighbours.next (map_in self.now) key }
        ensures value { IfSome result.1
            (λ entry. map.get (map_in self.now) entry.0 ≡ Some entry.1) }
    {
        self.root.law();
        around(&self.root, key, &mut Meter::new(UNMETERED))
    }

    /// The n-th key by ascending order, counted from 1, with its value; `None` for 0, and above the number of keys.
    // As `first_entry`.
    #[inline(always)]
    pub fn by_count_entry(&self, n: u64) -> Option<(u64, u64)>
        ensures key { option_map (λ entry. entry.0) result ≡ counts.by_count (map_in self.now) n }
        ensures value { IfSome result (λ entry. map.get (map_in self.now) entry.0 ≡ Some entry.1) }
    {
        self.root.law();
        if n == 0 {
            None
        } else {
            entry_nth(&self.root, n - 1, &mut Meter::new(UNMETERED))
        }
    }

    /// All keys by ascending order, each with its value, one after another.
    pub fn iter(&self) -> TreeEntries<'_, V>
        ensures { result ≡ map.entries (map_in self.now) }
    {
        self.root.law();
        TreeEntries {
            walk: Walk::from_key(&self.root, 0, &mut Meter::new(UNMETERED)),
        }
    }

    /// The same from the first key that isn't below a word.
    pub fn iter_from(&self, from: u64) -> TreeEntries<'_, V>
        ensures { result
            ≡ drop (counts.rank (map_in self.now) from) (map.entries (map_in self.now)) }
    {
        self.root.law();
        TreeEntries {
            walk: Walk::from_key(&self.root, from, &mut Meter::new(UNMETERED)),
        }
    }
}
