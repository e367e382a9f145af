//! The entries of a level that are still to come, some of which are read ahead, and those of the level above it.

ghost use Rattle.std.specs.Prelude.{◌≡◌, ◌++◌, [], false, true, None, Some, MatchOption, unwrap_or, drop, length, take};
ghost use Rattle.std.specs.FinMap as map;
ghost use Rattle.std.specs.Iterator.{YieldsFirst};
ghost use Rattle.judy_model.specs.Counts as counts;

use judy_word::{Entries, WordMap};
use std::iter::Iterator;
use std::marker::Model;

// How many entries are read ahead at once.
const MOST_READ: usize = 16;

// Entries that were read ahead: to its callers those that are left.
#[derive(Drop)]
struct Batch {
    read: [(u64, u64); MOST_READ],
    at: usize,
    end: usize,
}

impl Model for Batch {
    ghost use Rattle.std.specs.Prelude.{ℕ, List, ◌≡◌, ◌≤◌, length, take, drop};
    ghost use Rattle.judy_sl.specs.declared.ahead.TheConstants.{MOST_READ};

    ghost Value = { List (ℕ × ℕ) };

    ghost view = { λ b. drop b.at (take b.end b.read) };

    ghost invariant = { λ b. (b.at ≤ b.end) × (b.end ≤ MOST_READ)
        × (length b.read ≡ MOST_READ) };
}

impl Batch {
    fn new() -> Batch
        ensures { result ≡ [] }
    {
        Batch {
            read: [(0, 0); MOST_READ],
            at: 0,
            end: 0,
        }
    }

    // Lets them be those of another.
    #[inline(always)]
    fn copy_from(&mut self, other: &Batch)
        ensures { self.new ≡ other.now }
    {
        self.read = other.read;
        self.at = other.at;
        self.end = other.end;
    }

    // Gives up those that are left.
    #[inline(always)]
    fn give_up(&mut self)
        ensures { self.new ≡ [] }
    {
        self.at = 0;
        self.end = 0;
    }

    // The next one.
    #[inline(always)]
    fn next(&mut self) -> Option<(u64, u64)>
        ensures steps { YieldsFirst (λ entries. entries) self.old result self.new }
    {
        if self.at == self.end {
            return None;
        }
        let entry = self.read[self.at];
        self.at += 1;
        Some(entry)
    }

    // Reads the next of a level's entries, where none is left of those that were read.
    #[inline(always)]
    fn fill(&mut self, behind: &mut Option<Entries<'_>>)
        requires none { self.old ≡ [] }
        ensures { self.new ++ unwrap_or behind.new [] ≡ unwrap_or behind.old [] }
    {
        if let Some(entries) = behind {
            self.at = 0;
            self.end = entries.fill(&mut self.read);
        }
    }

    // Those that are left.
    #[inline(always)]
    fn as_slice(&self) -> &[(u64, u64)]
        ensures { result.now ≡ self.now }
    {
        &self.read[self.at..self.end]
    }
}

// Lets entries be all of a level.
fn begin<'a>(entries: &mut Option<Entries<'a>>, level: &'a WordMap)
    ensures { entries.new ≡ Some (map.entries level.now.map) }
{
    match entries {
        Some(made) => level.array().restart(made),
        None => *entries = Some(level.array().iter()),
    }
}

// Lets them be those of a level from a piece on.
fn begin_from<'a>(entries: &mut Option<Entries<'a>>, level: &'a WordMap, piece: u64)
    ensures { entries.new
        ≡ Some (drop (counts.rank level.now.map piece) (map.entries level.now.map)) }
{
    match entries {
        Some(made) => level.array().restart_from(piece, made),
        None => *entries = Some(level.array().iter_from(piece)),
    }
}

// The next of them; none where there are none.
#[inline(always)]
fn next_of(entries: &mut Option<Entries<'_>>) -> Option<(u64, u64)>
    ensures { YieldsFirst (λ all. unwrap_or all []) entries.old result entries.new }
{
    match entries {
        Some(made) => made.next(),
        None => None,
    }
}

// The entries of a level that are still to come, by ascending piece, and those of the level above it where they are
// kept: to its callers the two lists. A walk that comes back from a level so goes on with what was read ahead above it.
#[derive(Drop)]
pub struct Ahead<'a> {
    batch: Batch,
    batch_above: Batch,
    // What is behind the batches: of the level itself the first and of the level above the second, or the other way
    // round where they are turned. They are made where a walk first wants them, and then in their place, since a move
    // of them takes longer than most steps.
    first: Option<Entries<'a>>,
    second: Option<Entries<'a>>,
    turned: bool,
    kept: bool,
    seen: u64,
}

impl<'a> Model for Ahead<'a> {
    ghost use Rattle.std.specs.Prelude.{ℕ, List, Option};
    ghost use Rattle.judy_sl.specs.Ahead.{own_and_above};

    ghost Value = { List (ℕ × ℕ) × Option (List (ℕ × ℕ)) };

    ghost view = { λ a.
        own_and_above a.batch a.batch_above a.first a.second a.turned a.kept };
}

impl<'a> Ahead<'a> {
    // None of either level.
    #[inline(always)]
    pub fn new() -> Ahead<'a>
        ensures { result ≡ ([], None) }
    {
        Ahead {
            batch: Batch::new(),
            batch_above: Batch::new(),
            first: None,
            second: None,
            turned: false,
            kept: false,
            seen: 0,
        }
    }

    // Lets them be those of a level from a piece on, and none of the level above.
    pub fn restart_from(&mut self, level: &'a WordMap, piece: u64)
        ensures { self.new
            ≡ (drop (counts.rank level.now.map piece) (map.entries level.now.map), None) }
    {
        self.batch.give_up();
        self.kept = false;
        if self.turned {
            begin_from(&mut self.second, level, piece);
        } else {
            begin_from(&mut self.first, level, piece);
        }
    }

    // Goes down to another level, and keeps those of this one.
    pub fn go_down(&mut self, level: &'a WordMap)
        ensures { self.new ≡ (map.entries level.now.map, Some self.old.0) }
    {
        self.batch_above.copy_from(&self.batch);
        self.batch.give_up();
        self.turned = !self.turned;
        self.kept = true;
        if self.turned {
            begin(&mut self.second, level);
        } else {
            begin(&mut self.first, level);
        }
    }

    // Goes up to the level above where its entries are kept, and answers whether it did.
    pub fn go_up(&mut self) -> bool
        ensures { MatchOption self.old.1 ((result ≡ false) × (self.new ≡ self.old))
            (λ above. (result ≡ true) × (self.new ≡ (above, None))) }
    {
        if self.kept {
            self.batch.copy_from(&self.batch_above);
            self.turned = !self.turned;
            self.kept = false;
            return true;
        }
        false
    }

    // The level's next entry.
    #[inline(always)]
    pub fn next(&mut self) -> Option<(u64, u64)>
        ensures steps { YieldsFirst (λ both. both.0) self.old result self.new }
        ensures above { self.new.1 ≡ self.old.1 }
    {
        let entry = self.batch.next();
        if entry.is_some() {
            return entry;
        }
        if self.turned {
            next_of(&mut self.second)
        } else {
            next_of(&mut self.first)
        }
    }

    // Reads the level's next entries ahead where none is left of those that were read, and answers whether it did.
    #[inline(always)]
    pub fn read_on(&mut self) -> bool
        ensures { self.new ≡ self.old }
    {
        if !self.batch.as_slice().is_empty() {
            return false;
        }
        if self.turned {
            self.batch.fill(&mut self.second);
        } else {
            self.batch.fill(&mut self.first);
        }
        true
    }

    // The level's next entries, as many as are read ahead.
    #[inline(always)]
    pub fn batch(&self) -> &[(u64, u64)]
        ensures { result.now ≡ take (length result.now) self.now.0 }
    {
        self.batch.as_slice()
    }

    // Keeps a word that was read for nothing but its line of memory, so that it is read.
    #[inline(always)]
    pub fn keep(&mut self, seen: u64)
        ensures { self.new ≡ self.old }
    {
        self.seen = seen;
    }
}
