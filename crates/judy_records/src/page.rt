//! A page: records of one length in one block of words, with its own free places. So a page that has lost its last
//! record can go without a look at any other.

ghost use Rattle.std.specs.Prelude.{◌≡◌, ◌<◌, ◌≤◌, ◌+◌, ◌*◌, ◌↔◌, ◌⊎◌, ℕ, OnOk, OnErr, IsTrue, MatchBool, length, slice_set};
ghost use Rattle.std.specs.Borrow.{sem};
ghost use Rattle.judy_model.specs.Keys.{IsWord};
ghost use Rattle.judy_records.specs.Texts.{words_of, words_for};
ghost use Rattle.judy_records.specs.Spots.{free, held, IsHeld, IsNext, value_of, text_of, put_at};
ghost use Rattle.judy_records.specs.PageSpots.{spot_in, empty_page, with_spot_in, HasRoom, IsFull};

use crate::record::Record;
use crate::{text, words};
use std::alloc::{AllocError, Global};
use std::marker::Model;

// Records of one length in one block. To contracts it is a `PageList`.
#[derive(Drop)]
pub struct Page {
    words: Vec<u64>,
    size: usize,
    count: usize,
    free: usize,
    spare: usize,
}

impl Model for Page {
    ghost use Rattle.judy_records.specs.PageSpots.{PageList};

    ghost Value = { PageList };

    ghost use Rattle.judy_records.specs.PageInside.{page_list, IsPage};

    ghost view = { page_list };

    ghost invariant = { IsPage };
}

impl Page {
    ghost use Rattle.judy_records.specs.PageLends.{LendsInPage};

    // A page without a record. It asks for no memory.
    pub fn new(alloc: Global, size: usize) -> Page
        requires { size ≤ 2305843009213693952 }
        ensures { result ≡ empty_page size }
    {
        Page {
            words: Vec::new(alloc),
            size,
            count: 0,
            free: 0,
            spare: 0,
        }
    }

    // Does nothing: it tells a proof which place is next, and that there is memory for the records.
    pub fn law(&self)
        ensures next { IsNext self.now.spots self.now.next }
        ensures within { length self.now.spots * (self.now.size + 1) ≤ self.now.capacity }
    {
        let _size = self.size;
    }

    // Does nothing: it tells a proof that values are words.
    pub fn values_law(&self)
        ensures { (place : ℕ) → IsHeld (spot_in self.now place)
            → IsWord (value_of (spot_in self.now place)) }
    {
        words::law(&self.words);
    }

    // Does nothing: it tells a proof that the text of a record takes as many words as each does.
    pub fn text_law(&self, place: usize)
        requires { IsHeld (spot_in self.now place) }
        ensures { length (text_of (spot_in self.now place)) ≡ self.now.size }
    {
        let _size = self.size;
    }

    // The place that the next record takes: the first free one, or else the end.
    pub fn next_place(&self) -> usize
        ensures { result ≡ self.now.next }
    {
        if self.spare > 0 {
            self.free
        } else {
            self.count
        }
    }

    // How many records it has.
    pub fn records(&self) -> usize {
        self.count.saturating_sub(self.spare)
    }

    // How many bytes it has asked for: those of the words that it has room for.
    pub fn bytes(&self) -> u64 {
        (self.words.capacity() as u64).wrapping_mul(8)
    }

    // Whether it has so many places, and all are taken.
    pub fn is_full(&self, places: usize) -> bool
        ensures { IsTrue result ↔ IsFull places self.now }
    {
        self.count == places && self.spare == 0
    }

    // Whether it has no record.
    pub fn is_empty(&self) -> bool
        ensures { MatchBool result ((place : ℕ) → spot_in self.now place ≡ free 0)
            ((place : ℕ) × IsHeld (spot_in self.now place)) }
    {
        self.spare == self.count
    }

    // The value of the record at a place.
    pub fn value(&self, place: usize) -> u64
        requires { IsHeld (spot_in self.now place) }
        ensures { result ≡ value_of (spot_in self.now place) }
    {
        self.words[place * (self.size + 1)]
    }

    // Lends the value of the record at a place; all else stays.
    pub fn slot(&mut self, place: usize) -> &mut u64
        requires { IsHeld (spot_in self.old place) }
        ensures* writes_back { sem 𝓛 (LendsInPage self.entry place result) }
        ensures value { result.now ≡ value_of (spot_in self.old place) }
    {
        &mut self.words[place * (self.size + 1)]
    }

    // The record at a place.
    pub fn at(&self, place: usize) -> Record<'_>
        requires { IsHeld (spot_in self.now place) }
        ensures { result ≡ spot_in self.now place }
    {
        let start = place * (self.size + 1);
        Record::new(&self.words[start..start + (self.size + 1)])
    }

    // Sees to it that there is memory for so many words more than the records have now, where there isn't for one
    // record more. The error is want of memory.
    pub fn widen(&mut self, words: usize) -> Result<(), AllocError>
        requires { self.old.size + 1 ≤ words }
        ensures size { self.new.size ≡ self.old.size }
        ensures spots { self.new.spots ≡ self.old.spots }
        ensures next { self.new.next ≡ self.old.next }
        ensures capacity { (self.new.capacity ≡ self.old.capacity)
            ⊎ (self.new.capacity ≡ length self.old.spots * (self.old.size + 1) + words) }
        ensures room { OnOk result (HasRoom self.new) }
        ensures few { self.new.capacity < 18446744073709551615 }
        ensures same { OnErr result (self.new.capacity ≡ self.old.capacity) }
    {
        if self.words.capacity() - self.words.len() > self.size {
            return Ok(());
        }
        self.words.reserve_exact(words)
    }

    // Puts a record in at the next place, and answers that place. There is room for it, and its text takes as many
    // words as each does here.
    pub fn put(&mut self, value: u64, bytes: &[u8]) -> usize
        requires room { HasRoom self.old }
        requires fits { words_for (length bytes.now) ≡ self.old.size }
        ensures place { result ≡ self.old.next }
        ensures size { self.new.size ≡ self.old.size }
        ensures spots { self.new.spots
            ≡ put_at self.old.spots self.old.next (held value (words_of bytes.now)) }
        ensures capacity { self.new.capacity ≡ self.old.capacity }
        ensures next { IsNext self.new.spots self.new.next }
    {
        if self.spare == 0 {
            let place = self.count;
            text::push_record(&mut self.words, value, self.size, bytes);
            self.count += 1;
            return place;
        }
        let place = self.free;
        let start = place * (self.size + 1);
        self.free = self.words[start] as usize;
        self.spare -= 1;
        text::write_record(&mut self.words, start, self.size, value, bytes);
        place
    }

    // Puts a record in the place of the one that stands there. Its text takes as many words as each does here. It asks
    // for no memory.
    pub fn set(&mut self, place: usize, value: u64, bytes: &[u8])
        requires is_held { IsHeld (spot_in self.old place) }
        requires fits { words_for (length bytes.now) ≡ self.old.size }
        ensures { self.new ≡ with_spot_in self.old place (held value (words_of bytes.now)) }
    {
        let start = place * (self.size + 1);
        text::write_record(&mut self.words, start, self.size, value, bytes);
    }

    // Takes the record at a place out. It asks for no memory.
    pub fn take_out(&mut self, place: usize)
        requires { IsHeld (spot_in self.old place) }
        ensures size { self.new.size ≡ self.old.size }
        ensures spots { self.new.spots ≡ slice_set self.old.spots place (free 0) }
        ensures next { self.new.next ≡ place }
        ensures capacity { self.new.capacity ≡ self.old.capacity }
    {
        self.words[place * (self.size + 1)] = self.free as u64;
        self.free = place;
        self.spare += 1;
    }

    // Gives the memory of a page without a record back.
    pub fn give_back(&mut self)
        ensures { self.new ≡ empty_page self.old.size }
    {
        let alloc = *self.words.allocator();
        self.words = Vec::new(alloc);
        self.count = 0;
        self.free = 0;
        self.spare = 0;
    }
}
