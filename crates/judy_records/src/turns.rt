//! Which pages are full, which have a free place, and which have gone. All stand in a row by their turns, the full ones
//! first and the gone ones last: a page that changes its kind moves to the border of two of these parts, where it takes
//! the turn of the page that stands there. So each change is a few steps, and only a page that comes asks for memory.

ghost use Rattle.std.specs.Prelude.{ℕ, ◌≡◌, ◌≢◌, ◌<◌, ◌≤◌, ◌+◌, None, Some, IsTrue, IsFalse, OnOk, OnErr, length, ◌↔◌};
ghost use Rattle.judy_records.specs.Kinds.{full, roomy, gone, kind_of, first_of, no_kinds, AreKnown, IsSpare, IsMoved, IsLonger, IsShorter, AreAlike};

use std::alloc::{AllocError, Global};
use std::marker::Model;
use std::mem::size_of;

// The page whose turn it is at this place of the row, and beside it the turn of the page of this number.
#[derive(Clone, Copy)]
pub struct Turn {
    page: usize,
    turn: usize,
}

// The pages of a list by their numbers, each of a kind. To contracts it is a `Kinds`.
#[derive(Drop)]
pub struct Turns {
    row: Vec<Turn>,
    full: usize,
    standing: usize,
}

impl Model for Turns {
    ghost use Rattle.judy_records.specs.Kinds.{Kinds};

    ghost Value = { Kinds };

    ghost use Rattle.judy_records.specs.InTurns.{kinds_of, AreTurns};

    ghost view = { kinds_of };

    ghost invariant = { AreTurns };
}

ghost use Rattle.judy_records.specs.InTurns.{AreTurned, AreExchanged, turn_of, page_at};

// Gives a page the turn of another one, which gets its own.
fn exchange_in(row: &mut [Turn], page: usize, turn: usize)
    requires turned { AreTurned row.old }
    requires page { page < length row.old }
    requires turn { turn < length row.old }
    ensures turned { AreTurned row.new }
    ensures here { turn_of row.new page ≡ turn }
    ensures other { page_at row.old turn ≢ page
        → turn_of row.new (page_at row.old turn) ≡ turn_of row.old page }
    ensures elsewhere { (at : ℕ) → at ≢ page → at ≢ page_at row.old turn
        → turn_of row.new at ≡ turn_of row.old at }
{
    let was = row[page].turn;
    let other = row[turn].page;
    row[other].turn = was;
    row[page].turn = turn;
    row[was].page = other;
    row[turn].page = page;
}

// The same in a list.
fn exchange(row: &mut Vec<Turn>, page: usize, turn: usize)
    requires turned { AreTurned row.old.items }
    requires page { page < length row.old.items }
    requires turn { turn < length row.old.items }
    ensures long { length row.new.items ≡ length row.old.items }
    ensures turned { AreTurned row.new.items }
    ensures here { turn_of row.new.items page ≡ turn }
    ensures other { page_at row.old.items turn ≢ page
        → turn_of row.new.items (page_at row.old.items turn) ≡ turn_of row.old.items page }
    ensures elsewhere { (at : ℕ) → at ≢ page → at ≢ page_at row.old.items turn
        → turn_of row.new.items at ≡ turn_of row.old.items at }
{
    exchange_in(row, page, turn);
}

// Gives the pages with turns from one on up to an end these turns by their numbers.
fn sort_in(row: &mut [Turn], start: usize, end: usize)
    requires turned { AreTurned row.old }
    requires end { end ≤ length row.old }
    ensures turned { AreTurned row.new }
    ensures exchanged { AreExchanged start end row.old row.new }
{
    let mut turn = start;
    for page in 0..row.len() {
        let was = row[page].turn;
        if turn <= was && was < end {
            exchange_in(row, page, turn);
            turn += 1;
        }
    }
}

impl Turns {
    // No pages. It asks for no memory.
    pub fn new(alloc: Global) -> Turns
        ensures { result ≡ no_kinds }
    {
        Turns {
            row: Vec::new(alloc),
            full: 0,
            standing: 0,
        }
    }

    // How many bytes it has asked for: those of the turns that it has room for.
    pub fn bytes(&self) -> u64 {
        (self.row.capacity() as u64).wrapping_mul(size_of::<Turn>() as u64)
    }

    // The roomy page that is filled next.
    pub fn next_roomy(&self) -> Option<usize>
        ensures { result ≡ self.now.next_roomy }
    {
        if self.full < self.standing {
            Some(self.row[self.full].page)
        } else {
            None
        }
    }

    // The gone page that is taken next where none is roomy.
    pub fn next_gone(&self) -> Option<usize>
        ensures { result ≡ self.now.next_gone }
    {
        if self.standing < self.row.len() {
            Some(self.row[self.standing].page)
        } else {
            None
        }
    }

    // The page that is taken next.
    pub fn next(&self) -> Option<usize>
        ensures { result ≡ first_of self.now.next_roomy self.now.next_gone }
    {
        match self.next_roomy() {
            Some(page) => Some(page),
            None => self.next_gone(),
        }
    }

    // Whether a page is roomy, and isn't the one that is filled next.
    pub fn is_spare(&self, page: usize) -> bool
        requires { page < length self.now.kinds }
        ensures { IsTrue result ↔ IsSpare self.now page }
    {
        let turn = self.row[page].turn;
        self.full < turn && turn < self.standing
    }

    // Whether a page is roomy.
    pub fn is_roomy(&self, page: usize) -> bool
        requires { page < length self.now.kinds }
    {
        let turn = self.row[page].turn;
        self.full <= turn && turn < self.standing
    }

    // Lets the roomy pages be filled by their numbers.
    pub fn sort(&mut self)
        ensures { AreAlike self.old self.new }
    {
        sort_in(&mut self.row, self.full, self.standing);
    }

    // Takes the last page out where it has gone, and says whether it was.
    pub fn pop(&mut self) -> bool
        ensures popped { IsTrue result → IsShorter self.old self.new }
        ensures same { IsFalse result → self.new ≡ self.old }
    {
        let Some(last) = self.row.len().checked_sub(1) else {
            return false;
        };
        if self.row[last].turn < self.standing {
            return false;
        }
        exchange(&mut self.row, last, last);
        self.row.pop();
        true
    }

    // Gives the room of pages back that were taken out, where a shorter list isn't refused.
    pub fn fit(&mut self)
        ensures { self.new ≡ self.old }
    {
        self.row.shrink_to_fit();
    }

    // A roomy page has become full.
    pub fn fill(&mut self, page: usize)
        requires within { page < length self.old.kinds }
        requires is_roomy { kind_of self.old page ≡ roomy }
        ensures { IsMoved self.old self.new page full }
    {
        exchange(&mut self.row, page, self.full);
        self.full += 1;
    }

    // A full page has got a free place.
    pub fn clear(&mut self, page: usize)
        requires within { page < length self.old.kinds }
        requires is_full { kind_of self.old page ≡ full }
        ensures { IsMoved self.old self.new page roomy }
    {
        self.full -= 1;
        exchange(&mut self.row, page, self.full);
    }

    // A roomy page has lost its last record.
    pub fn give_back(&mut self, page: usize)
        requires within { page < length self.old.kinds }
        requires is_roomy { kind_of self.old page ≡ roomy }
        ensures { IsMoved self.old self.new page gone }
    {
        self.standing -= 1;
        exchange(&mut self.row, page, self.standing);
    }

    // A gone page is used again.
    pub fn reuse(&mut self, page: usize)
        requires within { page < length self.old.kinds }
        requires is_gone { kind_of self.old page ≡ gone }
        ensures { IsMoved self.old self.new page roomy }
    {
        exchange(&mut self.row, page, self.standing);
        self.standing += 1;
    }

    // Puts one page more behind the others, where all of them are full. The error is want of memory, and leaves them as
    // they were.
    pub fn push(&mut self) -> Result<(), AllocError>
        requires none_roomy { self.old.next_roomy ≡ None }
        requires none_gone { self.old.next_gone ≡ None }
        ensures pushed { OnOk result (IsLonger self.old self.new) }
        ensures same { OnErr result (self.new ≡ self.old) }
    {
        let page = self.row.len();
        self.row.reserve_exact(page / 8 + 1)?;
        self.row.push_reserved(Turn { page, turn: page });
        self.full += 1;
        self.standing += 1;
        Ok(())
    }

    // Whether no page stands.
    pub fn all_gone(&self) -> bool
        ensures { IsTrue result
            ↔ ((page : ℕ) → page < length self.now.kinds → kind_of self.now page ≡ gone) }
    {
        self.standing == 0
    }
}
