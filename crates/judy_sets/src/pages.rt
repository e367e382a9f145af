//! The pairs of an array by ascending key, read ahead a page at a time.

ghost use Rattle.std.specs.Prelude.{◌≡◌, ◌≤◌, [], ◌++◌, drop, length};
ghost use Rattle.std.specs.FinMap as map;
ghost use Rattle.judy_query.specs.Maps.{map_of};
ghost use Rattle.judy_sets.specs.Pages.{rest, IsFrom};

use judy_bits::Meter;
use judy_leaf::Words;
use judy_node::NodeOf;
use judy_query::Walk;
use judy_unmetered::UNMETERED;
use judy_word::WordArray;
use std::marker::Model;

// How many pairs are read ahead at once.
pub const PAGE: usize = 64;

/// The pairs of an array that are still to come, by ascending key, each with its value, 0 where keys have no value.
/// Contracts see those that were read ahead, and those behind them.
#[derive(Drop)]
pub struct Pages<'a, V: Words + Drop> {
    walk: Walk<'a, V>,
    page: [(u64, u64); PAGE],
    at: usize,
    end: usize,
}

impl<'a, V: Words + Drop> Model for Pages<'a, V> {
    ghost use Rattle.std.specs.Prelude.{ℕ, List, take, drop};
    ghost use Rattle.judy_sets.specs.Pages.{Ahead, IsPage};
    ghost use Rattle.judy_sets.specs.declared.pages.TheConstants.{PAGE};

    ghost Value = { Ahead };

    ghost view = { λ a. (drop a.at (take a.end a.page), a.walk) };

    ghost invariant = { λ a. IsPage a.page PAGE a.at a.end a.walk };
}

impl<'a, V: Words + Drop> Pages<'a, V> {
    /// Those of an array, of which the first are read.
    pub fn of(array: &'a WordArray<V>) -> Pages<'a, V>
        ensures { rest result ≡ map.entries array.now.map }
    {
        Pages::of_tree(array.root())
    }

    // Those of a tree.
    fn of_tree(root: &'a NodeOf<V>) -> Pages<'a, V>
        ensures { rest result ≡ map.entries (map_of root.now.pairs) }
    {
        root.law();
        Pages::ahead_of(Walk::from_key(root, 0, &mut Meter::new(UNMETERED)))
    }

    /// Those of an array whose keys aren't below a word, of which the first are read.
    pub fn from_key(array: &'a WordArray<V>, from: u64) -> Pages<'a, V>
        ensures { IsFrom from array.now.map (rest result) }
    {
        Pages::from_key_of_tree(array.root(), from)
    }

    // Those of a tree.
    fn from_key_of_tree(root: &'a NodeOf<V>, from: u64) -> Pages<'a, V>
        ensures { IsFrom from (map_of root.now.pairs) (rest result) }
    {
        root.law();
        Pages::ahead_of(Walk::from_key(root, from, &mut Meter::new(UNMETERED)))
    }

    // Those of a walk.
    fn ahead_of(walk: Walk<'a, V>) -> Pages<'a, V>
        ensures { rest result ≡ walk.entry }
    {
        let mut walk = walk;
        let mut page = [(0, 0); PAGE];
        let end = walk.fill(&mut page, &mut Meter::new(UNMETERED));
        Pages {
            walk,
            page,
            at: 0,
            end,
        }
    }

    /// Those that were read ahead: where there are none, none are left. They are at most 64.
    pub fn ahead(&self) -> &[(u64, u64)]
        ensures read { result.now ≡ self.now.0 }
        ensures few { length result.now ≤ 64 }
        ensures last { self.now.0 ≡ [] → self.now.1 ≡ [] }
    {
        &self.page[self.at..self.end]
    }

    /// Passes so many of these. Where none of them is left, the next are read.
    pub fn pass(&mut self, count: usize)
        requires { count ≤ length self.old.0 }
        ensures { rest self.new ≡ drop count self.old.0 ++ self.old.1 }
    {
        self.at += count;
        if self.at == self.end {
            self.at = 0;
            self.end = self.walk.fill(&mut self.page, &mut Meter::new(UNMETERED));
        }
    }
}
