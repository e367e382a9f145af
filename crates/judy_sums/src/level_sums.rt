//! Lists of sums under indices.

ghost use Rattle.std.specs.Prelude.{◌≡◌, ◌<◌, ◌≤◌, ◌+◌, ◌^◌, ℕ, [], Some, None, OnOk, OnErr, length};
ghost use Rattle.std.specs.Option.{option_copied};
ghost use Rattle.std.specs.FinMap as map;
ghost use Rattle.std.specs.FinMap.{FinMap, len, entries};
ghost use Rattle.judy_model.specs.Keys.{word_order};
ghost use Rattle.judy_sums.specs.Pairs.{sum_of};
ghost use Rattle.judy_sums.specs.Listed.{list_at, more_of, less_of, AreOthers};

use crate::sums::Sums;
use std::alloc::{AllocError, Global};
use std::marker::Model;
use std::mem::size_of;

/// A list of sums for each of some indices. To contracts it is the row of them, with `None` where there is none.
#[derive(Drop)]
pub struct LevelSums {
    lists: Vec<Option<Sums>>,
    // How many times a list was missed, less those for which one was due.
    missed: u64,
}

impl Model for LevelSums {
    ghost use Rattle.std.specs.Prelude.{ℕ, List, Option};
    ghost use Rattle.std.specs.Coded.{coded_list, coded_option, coded_ℕ};
    ghost use Rattle.std.specs.FinMap.{FinMap, code};
    ghost use Rattle.judy_model.specs.Keys.{word_order};

    ghost Value = { List (Option (FinMap word_order ℕ)) };

    ghost coded = { coded_list (coded_option (code coded_ℕ coded_ℕ)) };

    ghost view = { λ sums. sums.lists.items };
}

// Adds one to the number of a word in a list, where there is one. The error is want of memory: then there is none.
fn raise_list(list: &mut Option<Sums>, word: u64) -> Result<(), AllocError>
    requires few { (some : FinMap word_order ℕ) → list.old ≡ Some some → len some + 1 < 2 ^ 64 }
    requires fits { (some : FinMap word_order ℕ) → list.old ≡ Some some
        → sum_of (entries some) + 1 < 2 ^ 64 }
    ensures raised { OnOk result (list.new ≡ more_of list.old word) }
    ensures forgotten { OnErr result (list.new ≡ None) }
{
    let Some(sums) = list else {
        return Ok(());
    };
    let answer = sums.raise(word);
    if answer.is_err() {
        *list = None;
    }
    answer
}

// Takes one from the number of a word in a list, where there is one with that word.
fn lower_list(list: &mut Option<Sums>, word: u64)
    requires { (some : FinMap word_order ℕ) (number : ℕ) → list.old ≡ Some some
        → map.get some word ≡ Some number → 1 ≤ number }
    ensures { list.new ≡ less_of list.old word }
{
    let Some(sums) = list else {
        return;
    };
    if sums.holds(word) {
        sums.lower(word);
    }
}

impl LevelSums {
    /// No list. It asks for no memory.
    pub fn new(alloc: Global) -> LevelSums
        ensures { result ≡ [] }
    {
        LevelSums {
            lists: Vec::new(alloc),
            missed: 0,
        }
    }

    /// The list of an index, if there is one.
    pub fn get(&self, index: usize) -> Option<&Sums>
        ensures { option_copied result ≡ list_at self.now index }
    {
        match self.lists.get(index) {
            Some(Some(list)) => Some(list),
            _ => None,
        }
    }

    /// Counts that an index misses its list, and answers whether one is due, since lists were missed so many times by
    /// now; these then count no more. So a list that is made again is paid for by as many calls. All lists stay.
    pub fn miss(&mut self, times: u64) -> bool
        ensures { self.new ≡ self.old }
    {
        self.missed = self.missed.saturating_add(1);
        if self.missed < times {
            return false;
        }
        self.missed -= times;
        true
    }

    /// How many bytes of memory the row has asked for: those of its places and of the lists. It goes over all lists.
    /// The number is tested and not proved, as that of [`Sums::bytes`].
    ///
    ///     LevelSums::new(Global).bytes() == 0
    pub fn bytes(&self) -> u64 {
        let place = size_of::<Option<Sums>>() as u64;
        let mut total = (self.lists.capacity() as u64).wrapping_mul(place);
        for list in &self.lists {
            if let Some(sums) = list {
                total = total.wrapping_add(sums.bytes());
            }
        }
        total
    }

    /// Adds one to the number of a word in the list of an index, where it has one. The error is want of memory: the
    /// list is then forgotten. All others stay.
    pub fn raise(&mut self, index: usize, word: u64) -> Result<(), AllocError>
        requires few { (list : FinMap word_order ℕ) → list_at self.old index ≡ Some list
            → len list + 1 < 2 ^ 64 }
        requires fits { (list : FinMap word_order ℕ) → list_at self.old index ≡ Some list
            → sum_of (entries list) + 1 < 2 ^ 64 }
        ensures raised { OnOk result
            (list_at self.new index ≡ more_of (list_at self.old index) word) }
        ensures forgotten { OnErr result (list_at self.new index ≡ None) }
        ensures others { AreOthers index self.old self.new }
    {
        match self.lists.get_mut(index) {
            Some(list) => raise_list(list, word),
            None => Ok(()),
        }
    }

    /// Takes one from the number of a word in the list of an index, where it has one with that word. All others stay.
    /// It asks for no memory.
    pub fn lower(&mut self, index: usize, word: u64)
        requires some { (list : FinMap word_order ℕ) (number : ℕ)
            → list_at self.old index ≡ Some list → map.get list word ≡ Some number → 1 ≤ number }
        ensures lowered { list_at self.new index ≡ less_of (list_at self.old index) word }
        ensures others { AreOthers index self.old self.new }
    {
        if let Some(list) = self.lists.get_mut(index) {
            lower_list(list, word);
        }
    }

    /// Takes the list of an index out, where it has one.
    pub fn forget(&mut self, index: usize)
        ensures gone { list_at self.new index ≡ None }
        ensures others { AreOthers index self.old self.new }
    {
        if let Some(list) = self.lists.get_mut(index) {
            *list = None;
        }
    }

    // Makes the row so long that it has a place for an index. The error is want of memory.
    fn lengthen(&mut self, index: usize) -> Result<(), AllocError>
        ensures same { (other : ℕ) → list_at self.new other ≡ list_at self.old other }
        ensures long { OnOk result (index < length self.new) }
        ensures absent { OnErr result (list_at self.new index ≡ None) }
    {
        'row: while self.lists.len() <= index {
            self.lists.push(None)?;
        }
        Ok(())
    }

    /// Gives an index a list, in place of the one that it may have. The error is want of memory, for an index that has
    /// no list: it has none then. All others stay.
    pub fn put(&mut self, index: usize, list: Sums) -> Result<(), AllocError>
        ensures put { OnOk result (list_at self.new index ≡ Some list) }
        ensures absent { OnErr result (list_at self.new index ≡ None) }
        ensures others { AreOthers index self.old self.new }
    {
        self.lengthen(index)?;
        self.lists[index] = Some(list);
        Ok(())
    }
}
