//! The tails of at most 1,024 bytes, in lists, one for each number of words that some tail took.

ghost use Rattle.std.specs.Prelude.{◌≡◌, ◌<◌, ◌≤◌, ◌%◌, ℕ, List, Some, None, IsSome, IsTrue, IsOk, IfOk, OnOk, OnErr, length, slice_get};
ghost use Rattle.std.specs.Borrow.{sem};
ghost use Rattle.judy_model.specs.Keys.{IsWord};
ghost use Rattle.judy_model.specs.declared.keys.TheConstants.{LONGEST_KEY};
ghost use Rattle.judy_records.specs.Texts.{IsText, words_for};
ghost use Rattle.judy_tails.specs.Places.{text_of};
ghost use Rattle.judy_tails.specs.Short.{tail_at, list_for, next_place, HasFree, no_tails, Updates, SameTails};

mod memory;

use crate::tail::Tail;
use judy_records::{Records, words_for};
use std::alloc::{AllocError, Global};
use std::marker::Model;

/// Texts without a zero byte, of at most 1,024 bytes, each with a value and a place of its own. To contracts it is a
/// `ShortLists`.
#[derive(Drop)]
pub struct ShortTails {
    lists: Vec<Records>,
}

impl Model for ShortTails {
    ghost use Rattle.judy_tails.specs.Short.{ShortLists};

    ghost Value = { ShortLists };

    ghost use Rattle.judy_tails.specs.Inside.{lists_of, AreTails};

    ghost view = { λ t. lists_of t.lists.items };

    ghost invariant = { λ t. AreTails t.lists.items };
}

impl ShortTails {
    ghost use Rattle.judy_tails.specs.Inside.{AreSame};
    ghost use Rattle.judy_tails.specs.ShortLends.{LendsValue};

    // No tails. It asks for no memory.
    pub fn new(alloc: Global) -> ShortTails
        ensures { result ≡ no_tails }
    {
        ShortTails {
            lists: Vec::new(alloc),
        }
    }

    // The tail at a place, where one stands.
    pub fn at(&self, place: u64) -> Tail<'_>
        requires { IsSome (tail_at self.now place) }
        ensures { tail_at self.now place ≡ Some result }
    {
        Tail::new(self.lists[(place % 256) as usize].at((place / 256) as usize))
    }

    // The value of the tail at a place, where one stands. It reads no more of the tail.
    pub fn value(&self, place: u64) -> u64
        requires { IsSome (tail_at self.now place) }
        ensures { tail_at self.now place ≡ Some (text_of (tail_at self.now place), result) }
    {
        self.lists[(place % 256) as usize].value((place / 256) as usize)
    }

    // Lends the value of the tail at a place; all else stays.
    pub fn slot(&mut self, place: u64) -> &mut u64
        requires { IsSome (tail_at self.old place) }
        ensures* writes_back { sem 𝓛 (LendsValue self.entry place result) }
        ensures value { tail_at self.old place
            ≡ Some (text_of (tail_at self.old place), result.now) }
    {
        self.lists[(place % 256) as usize].slot((place / 256) as usize)
    }

    // Whether the page of the tail at a place is spare: it has a free place, and isn't the one that is filled next. So
    // a place for a text of that length is free.
    pub fn is_spare(&self, place: u64) -> bool
        requires { IsSome (tail_at self.now place) }
        ensures short { length (text_of (tail_at self.now place)) ≤ LONGEST_KEY }
        ensures free { IsTrue result
            → HasFree self.now (length (text_of (tail_at self.now place))) }
    {
        let list = &self.lists[(place % 256) as usize];
        list.text_law((place / 256) as usize);
        list.is_spare((place / 256) as usize)
    }

    // The place that the next text of so many bytes takes.
    pub fn next_place(&self, bytes: usize) -> u64
        requires { bytes ≤ LONGEST_KEY }
        ensures { result ≡ next_place self.now bytes }
    {
        let number = self.list_for(bytes);
        match self.lists.get(number) {
            Some(list) => list.next_place() as u64 * 256 + number as u64,
            None => number as u64,
        }
    }

    // Puts a text with its value in at the next place for its length, and answers that place. Where a place of that
    // length is free in a page with another text it takes one, which asks for no memory and can't be refused. The
    // error is want of memory, or 2^55 texts of that length, and all places have then what they had.
    pub fn put(&mut self, text: &[u8], value: u64) -> Result<u64, AllocError>
        requires text { IsText text.now }
        requires short { length text.now ≤ LONGEST_KEY }
        ensures place { IfOk result (λ place. place ≡ next_place self.old (length text.now)) }
        ensures kind { IfOk result (λ place. place % 256 ≤ 128) }
        ensures free { IfOk result (λ place. tail_at self.old place ≡ None) }
        ensures put { IfOk result
            (λ place. Updates self.old self.new place (Some (text.now, value))) }
        ensures unasked { HasFree self.old (length text.now) → IsOk result }
        ensures refused { OnErr result (SameTails self.old self.new) }
    {
        let number = self.list_for(text.len());
        self.put_in(number, text, value)
    }

    // The same where the caller has asked for that place (`next_place`), which tells the list for the length.
    #[inline(always)]
    pub fn put_next(&mut self, place: u64, text: &[u8], value: u64) -> Result<u64, AllocError>
        requires text { IsText text.now }
        requires short { length text.now ≤ LONGEST_KEY }
        requires next { place ≡ next_place self.old (length text.now) }
        ensures place { IfOk result (λ at. at ≡ place) }
        ensures kind { OnOk result (place % 256 ≤ 128) }
        ensures free { OnOk result (tail_at self.old place ≡ None) }
        ensures put { OnOk result (Updates self.old self.new place (Some (text.now, value))) }
        ensures unasked { HasFree self.old (length text.now) → IsOk result }
        ensures refused { OnErr result (SameTails self.old self.new) }
    {
        self.are_few();
        self.put_in((place % 256) as usize, text, value)
    }

    // The same where the number of the list is known.
    #[inline(always)]
    fn put_in(&mut self, number: usize, text: &[u8], value: u64) -> Result<u64, AllocError>
        requires text { IsText text.now }
        requires short { length text.now ≤ LONGEST_KEY }
        requires number { number ≡ list_for self.old (length text.now) }
        ensures place { IfOk result (λ place. place ≡ next_place self.old (length text.now)) }
        ensures kind { IfOk result (λ place. place % 256 ≤ 128) }
        ensures free { IfOk result (λ place. tail_at self.old place ≡ None) }
        ensures put { IfOk result
            (λ place. Updates self.old self.new place (Some (text.now, value))) }
        ensures unasked { HasFree self.old (length text.now) → IsOk result }
        ensures refused { OnErr result (SameTails self.old self.new) }
    {
        self.reach(number, text.len())?;
        let list = &mut self.lists[number];
        if list.next_place() as u64 >= MOST {
            return Err(AllocError);
        }
        let place = list.put(value, text)?;
        list.law();
        Ok(place as u64 * 256 + number as u64)
    }

    // Takes the tail at a place out. It asks for no memory; with the last text of its page goes the memory of that,
    // and with the last one of its length that of its list.
    pub fn remove(&mut self, place: u64)
        requires { IsSome (tail_at self.old place) }
        ensures { Updates self.old self.new place None }
    {
        let list = &mut self.lists[(place % 256) as usize];
        list.remove((place / 256) as usize);
        list.law();
    }

    // Does nothing: it tells a caller's proof that values are words.
    pub fn law(&self)
        ensures { (place : ℕ) (tail : List ℕ × ℕ) → tail_at self.now place ≡ Some tail
            → IsWord tail.1 }
    {
        for list in &self.lists {
            list.values_law();
        }
    }

    // The number of the list for texts of so many bytes; where there is none, that of the next one. Lists are as few as
    // lengths in words: fourteen at most where no text has more than a hundred bytes.
    fn list_for(&self, bytes: usize) -> usize
        ensures { result ≡ list_for self.now bytes }
    {
        let words = words_for(bytes);
        for number in 0..self.lists.len() {
            if self.lists[number].size() == words {
                return number;
            }
        }
        self.lists.len()
    }

    // Does nothing: it tells a proof that a byte has room for the number of a list.
    fn are_few(&self)
        ensures { (bytes : ℕ) → list_for self.now bytes ≤ 129 }
    {
        let _lists = &self.lists;
    }

    // Sees to it that there is the list for texts of so many bytes, by its number. The error is want of memory.
    fn reach(&mut self, number: usize, bytes: usize) -> Result<(), AllocError>
        requires short { bytes ≤ LONGEST_KEY }
        requires number { number ≡ list_for self.old bytes }
        ensures same { AreSame self.old self.new }
        ensures found { number < length self.old.lists → IsOk result }
        ensures reached { OnOk result (slice_get self.new.words number ≡ Some (words_for bytes)) }
    {
        if number == self.lists.len() {
            self.make(bytes)
        } else {
            Ok(())
        }
    }

    // Makes the list for texts of so many bytes, of which there is none. The error is want of memory.
    #[inline(never)]
    fn make(&mut self, bytes: usize) -> Result<(), AllocError>
        requires short { bytes ≤ LONGEST_KEY }
        requires none { list_for self.old bytes ≡ length self.old.lists }
        ensures same { AreSame self.old self.new }
        ensures made { OnOk result
            (slice_get self.new.words (list_for self.old bytes) ≡ Some (words_for bytes)) }
    {
        let alloc = *self.lists.allocator();
        self.lists.reserve_exact(self.lists.len() / 2 + 1)?;
        self.lists
            .push_reserved(Records::new(alloc, words_for(bytes)));
        Ok(())
    }
}

// The most records that a list holds, so that each place is a word.
const MOST: u64 = 36_028_797_018_963_968;
