//! The tails of more than 1,024 bytes: each in a block of its own, and all in one list.

ghost use Rattle.std.specs.Prelude.{◌≡◌, ◌≤◌, ◌<◌, ◌^◌, ℕ, List, None, Some, IsSome, IfOk, OnErr};
ghost use Rattle.std.specs.Borrow.{sem};
ghost use Rattle.judy_model.specs.Keys.{IsWord};
ghost use Rattle.judy_records.specs.Texts.{IsText};
ghost use Rattle.judy_tails.specs.Places.{text_of};
ghost use Rattle.judy_tails.specs.Long.{tail_at, Updates};

mod memory;

use crate::tail::Tail;
use judy_records::{Record, record_of};
use slab::Slab;
use std::alloc::{AllocError, Global};
use std::marker::Model;

// A tail with its words, its value and then its text: to contracts the pair of its text and its value.
#[derive(Drop)]
struct LongTail {
    words: Vec<u64>,
}

impl Model for LongTail {
    ghost use Rattle.std.specs.Prelude.{ℕ, List};

    ghost Value = { List ℕ × ℕ };

    ghost use Rattle.judy_tails.specs.Inside.{pair_of, IsRecord};

    ghost view = { λ t. pair_of t.words.items };

    ghost invariant = { λ t. IsRecord t.words.items };
}

impl LongTail {
    ghost use Rattle.judy_tails.specs.LongLends.{LendsOwn};

    // The tail of a text with its value. The error is want of memory.
    fn new(alloc: Global, text: &[u8], value: u64) -> Result<LongTail, AllocError>
        requires { IsText text.now }
        ensures { IfOk result (λ tail. tail ≡ (text.now, value)) }
    {
        let words = record_of(alloc, value, text)?;
        Ok(LongTail { words })
    }

    // The tail, as it is read.
    fn tail(&self) -> Tail<'_>
        ensures { result ≡ self.now }
    {
        Tail::new(Record::new(&self.words))
    }

    // The value. It reads no more of the tail.
    fn value(&self) -> u64
        ensures { result ≡ self.now.1 }
    {
        self.words[0]
    }

    // Lends the value; the text stays.
    fn slot(&mut self) -> &mut u64
        ensures* writes_back { sem 𝓛 (LendsOwn self.entry result) }
        ensures value { result.now ≡ self.old.1 }
    {
        &mut self.words[0]
    }

    // Does nothing: it tells a caller's proof that the value is a word.
    fn law(&self)
        ensures { IsWord self.now.1 }
    {
        let _value = self.words[0];
    }
}

// Texts without a zero byte, each with a value and a place of its own. To contracts it is a `LongList`.
#[derive(Drop)]
pub struct LongTails {
    tails: Slab<LongTail>,
    alloc: Global,
}

impl Model for LongTails {
    ghost use Rattle.judy_tails.specs.Long.{LongList, long_list};

    ghost Value = { LongList };

    ghost view = { λ t. long_list t.tails };
}

impl LongTails {
    ghost use Rattle.judy_tails.specs.LongLends.{LendsValue};
    ghost use Rattle.judy_tails.specs.Long.{no_tails};

    // No tails. It asks for no memory.
    pub fn new(alloc: Global) -> LongTails
        ensures { result ≡ no_tails }
    {
        LongTails {
            tails: Slab::new(alloc),
            alloc,
        }
    }

    // The tail at a place, where one stands.
    pub fn at(&self, place: usize) -> Tail<'_>
        requires { IsSome (tail_at self.now place) }
        ensures { tail_at self.now place ≡ Some result }
    {
        self.tails[place].tail()
    }

    // The value of the tail at a place, where one stands. It reads no more of the tail.
    pub fn value(&self, place: usize) -> u64
        requires { IsSome (tail_at self.now place) }
        ensures { tail_at self.now place ≡ Some (text_of (tail_at self.now place), result) }
    {
        self.tails[place].value()
    }

    // Lends the value of the tail at a place; all else stays.
    pub fn slot(&mut self, place: usize) -> &mut u64
        requires { IsSome (tail_at self.old place) }
        ensures* writes_back { sem 𝓛 (LendsValue self.entry place result) }
        ensures value { tail_at self.old place
            ≡ Some (text_of (tail_at self.old place), result.now) }
    {
        self.tails[place].slot()
    }

    // The place that the next text takes.
    pub fn next_place(&self) -> usize
        ensures next { result ≡ self.now.next }
        ensures few { result ≤ 2 ^ 55 }
    {
        self.tails.vacant_key().min(MOST)
    }

    // Puts a text with its value in at the next place, and answers that place. The error is want of memory, or 2^55
    // texts, and all places have then what they had.
    pub fn put(&mut self, text: &[u8], value: u64) -> Result<usize, AllocError>
        requires { IsText text.now }
        ensures place { IfOk result (λ place. place ≡ self.old.next) }
        ensures few { IfOk result (λ place. place < 2 ^ 55) }
        ensures free { IfOk result (λ place. tail_at self.old place ≡ None) }
        ensures put { IfOk result
            (λ place. Updates self.old self.new place (Some (text.now, value))) }
        ensures refused { OnErr result (self.new ≡ self.old) }
    {
        if self.tails.vacant_key() >= MOST {
            return Err(AllocError);
        }
        let tail = LongTail::new(self.alloc, text, value)?;
        self.tails.reserve(1)?;
        Ok(self.tails.insert_reserved(tail))
    }

    // Takes the tail at a place out, and gives its memory back; with the last one that of the list. It asks for none.
    pub fn remove(&mut self, place: usize)
        requires { IsSome (tail_at self.old place) }
        ensures { Updates self.old self.new place None }
    {
        self.tails.remove(place);
        if self.tails.is_empty() {
            self.tails.shrink_to_fit();
        }
    }

    // Does nothing: it tells a caller's proof that values are words.
    pub fn law(&self)
        ensures { (place : ℕ) (tail : List ℕ × ℕ) → tail_at self.now place ≡ Some tail
            → IsWord tail.1 }
    {
        for (_, tail) in self.tails.iter() {
            tail.law();
        }
    }
}

// The most tails that the list holds, so that each place is a word.
const MOST: usize = 36_028_797_018_963_968;
