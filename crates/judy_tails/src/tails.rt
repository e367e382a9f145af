//! Tails of any length.

ghost use Rattle.std.specs.Prelude.{◌≡◌, ◌<◌, ◌≤◌, ◌%◌, ℕ, List, Some, None, IsSome, IsTrue, IsOk, IfOk, OnOk, OnErr, length};
ghost use Rattle.std.specs.Borrow.{sem};
ghost use Rattle.judy_model.specs.Keys.{IsWord};
ghost use Rattle.judy_model.specs.declared.keys.TheConstants.{LONGEST_STRING};
ghost use Rattle.judy_records.specs.Texts.{IsText};
ghost use Rattle.judy_tails.specs.Places.{text_of};
ghost use Rattle.judy_tails.specs.Tails.{is_long, tail_at, next_place, HasFree, no_tails, Updates, SameTails};

mod memory;

use crate::long::LongTails;
use crate::short::ShortTails;
use crate::tail::Tail;
use judy_model::keys::LONGEST_KEY;
use std::alloc::{AllocError, Global};
use std::marker::Model;

/// Texts without a zero byte, each with a value and a place of its own. To contracts it is a `TailLists`. A text of at
/// most 1,024 bytes stands in the list of its length; a longer one in a block of its own.
#[derive(Drop)]
pub struct Tails {
    short: ShortTails,
    long: LongTails,
}

impl Model for Tails {
    ghost use Rattle.judy_tails.specs.Tails.{TailLists};

    ghost Value = { TailLists };

    ghost view = { λ t. record { short = t.short; long = t.long } };
}

// The lowest byte of a place for a longer text. The lists by length have the numbers 0 to 128.
const LONG: u64 = 254;

// Whether a place is one for longer texts.
fn is_long(place: u64) -> bool
    ensures { result ≡ is_long place }
{
    place % 256 == LONG
}

impl Tails {
    ghost use Rattle.judy_tails.specs.Lends.{LendsValue};

    /// No tails. It asks for no memory.
    pub fn new(alloc: Global) -> Tails
        ensures { result ≡ no_tails }
    {
        Tails {
            short: ShortTails::new(alloc),
            long: LongTails::new(alloc),
        }
    }

    /// The tail at a place, where one stands.
    pub fn at(&self, place: u64) -> Tail<'_>
        requires { IsSome (tail_at self.now place) }
        ensures { tail_at self.now place ≡ Some result }
    {
        if is_long(place) {
            self.long.at((place / 256) as usize)
        } else {
            self.short.at(place)
        }
    }

    /// The value of the tail at a place, where one stands. It reads no more of the tail.
    pub fn value(&self, place: u64) -> u64
        requires { IsSome (tail_at self.now place) }
        ensures { tail_at self.now place ≡ Some (text_of (tail_at self.now place), result) }
    {
        if is_long(place) {
            self.long.value((place / 256) as usize)
        } else {
            self.short.value(place)
        }
    }

    /// Lends the value of the tail at a place; all else stays.
    pub fn slot(&mut self, place: u64) -> &mut u64
        requires { IsSome (tail_at self.old place) }
        ensures* writes_back { sem 𝓛 (LendsValue self.entry place result) }
        ensures value { tail_at self.old place
            ≡ Some (text_of (tail_at self.old place), result.now) }
    {
        if is_long(place) {
            self.long.slot((place / 256) as usize)
        } else {
            self.short.slot(place)
        }
    }

    /// Whether the page of the tail at a place is spare: it has a free place, and isn't the one that is filled next.
    /// Then the tail can go to another page, by `put` and `remove`, which asks for no memory. A tail of more than 1,024
    /// bytes stands in no page.
    pub fn is_spare(&self, place: u64) -> bool
        requires { IsSome (tail_at self.now place) }
        ensures { IsTrue result
            → HasFree self.now (length (text_of (tail_at self.now place))) }
    {
        if is_long(place) {
            return false;
        }
        self.short.is_spare(place)
    }

    /// The place that the next text of so many bytes takes.
    pub fn next_place(&self, bytes: usize) -> u64
        ensures { result ≡ next_place self.now bytes }
    {
        if bytes <= LONGEST_KEY {
            self.short.next_place(bytes)
        } else {
            self.long.next_place() as u64 * 256 + LONG
        }
    }

    /// Puts a text with its value in at the next place for its length, and answers that place. Where a place of that
    /// length is free in a page with another text it takes one, which asks for no memory and can't be refused; a text
    /// of more than 1,024 bytes always asks. The error is want of memory, or 2^55 texts of that length, and all places
    /// have then what they had.
    pub fn put(&mut self, text: &[u8], value: u64) -> Result<u64, AllocError>
        requires { IsText text.now }
        ensures place { IfOk result (λ place. place ≡ next_place self.old (length text.now)) }
        ensures kind { IfOk result (λ place. place % 256 ≤ 254) }
        ensures free { IfOk result (λ place. tail_at self.old place ≡ None) }
        ensures put { IfOk result
            (λ place. Updates self.old self.new place (Some (text.now, value))) }
        ensures unasked { HasFree self.old (length text.now) → IsOk result }
        ensures refused { OnErr result (SameTails self.old self.new) }
    {
        if text.len() <= LONGEST_KEY {
            self.short.put(text, value)
        } else {
            self.put_long(text, value)
        }
    }

    /// The same where the caller has asked for that place (`next_place`), which tells the list for the length.
    #[inline(always)]
    pub fn put_next(&mut self, place: u64, text: &[u8], value: u64) -> Result<u64, AllocError>
        requires text { IsText text.now }
        requires next { place ≡ next_place self.old (length text.now) }
        ensures place { IfOk result (λ at. at ≡ place) }
        ensures kind { OnOk result (place % 256 ≤ 254) }
        ensures free { OnOk result (tail_at self.old place ≡ None) }
        ensures put { OnOk result (Updates self.old self.new place (Some (text.now, value))) }
        ensures unasked { HasFree self.old (length text.now) → IsOk result }
        ensures refused { OnErr result (SameTails self.old self.new) }
    {
        if text.len() <= LONGEST_KEY {
            self.short.put_next(place, text, value)
        } else {
            self.put_long(text, value)
        }
    }

    // The same of a text that no list by length takes.
    #[inline(never)]
    fn put_long(&mut self, text: &[u8], value: u64) -> Result<u64, AllocError>
        requires text { IsText text.now }
        requires long { LONGEST_KEY < length text.now }
        ensures place { IfOk result (λ place. place ≡ next_place self.old (length text.now)) }
        ensures kind { IfOk result (λ place. place % 256 ≤ 254) }
        ensures free { IfOk result (λ place. tail_at self.old place ≡ None) }
        ensures put { IfOk result
            (λ place. Updates self.old self.new place (Some (text.now, value))) }
        ensures refused { OnErr result (SameTails self.old self.new) }
    {
        let place = self.long.put(text, value)?;
        Ok(place as u64 * 256 + LONG)
    }

    /// Takes the tail at a place out. It asks for no memory; with the last text of its page goes the memory of that,
    /// and with the last one of its length that of its list.
    pub fn remove(&mut self, place: u64)
        requires { IsSome (tail_at self.old place) }
        ensures { Updates self.old self.new place None }
    {
        if is_long(place) {
            self.long.remove((place / 256) as usize);
        } else {
            self.short.remove(place);
        }
    }

    /// Does nothing: it tells a caller's proof that values are words.
    pub fn law(&self)
        ensures { (place : ℕ) (tail : List ℕ × ℕ) → tail_at self.now place ≡ Some tail
            → IsWord tail.1 }
    {
        self.short.law();
        self.long.law();
    }
}
