//! Records of one length, in pages.

ghost use Rattle.std.specs.Prelude.{◌≡◌, ◌<◌, ◌≤◌, ◌+◌, ◌*◌, ◌^◌, ◌↔◌, ℕ, IsTrue, IsOk, IfOk, OnOk, OnErr, length, get_or, slice_set};
ghost use Rattle.std.specs.Borrow.{sem};
ghost use Rattle.judy_model.specs.Keys.{IsWord};
ghost use Rattle.judy_records.specs.Texts.{words_of, words_for, bytes_in};
ghost use Rattle.judy_records.specs.Spots.{free, held, spot_at, IsHeld, IsNext, value_of, text_of, empty_list, with_spot, put_at};
ghost use Rattle.judy_records.specs.Memory.{IsTight, HasFree, IsSpare, IsRemoved, HoldsSame};

use crate::page::Page;
use crate::page_steps::{begin, put_in, reopen, take_out_of};
use crate::pages::{locate, places_of, shift_for, size_of, start_of, words_more};
use crate::record::Record;
use crate::turns::Turns;
use crate::words;
use std::alloc::{AllocError, Global};
use std::marker::Model;
use std::mem;

/// Records of one length, each a value and a text of so many words. To contracts it is a `RecordList`.
#[derive(Drop)]
pub struct Records {
    pages: Vec<Page>,
    turns: Turns,
    size: usize,
    shift: u32,
    end: usize,
}

impl Model for Records {
    ghost use Rattle.judy_records.specs.Spots.{RecordList};

    ghost Value = { RecordList };

    ghost use Rattle.judy_records.specs.Inside.{list_of, AreRecords};

    ghost view = { list_of };

    ghost invariant = { AreRecords };
}

/// A walk that is to bring records together, where memory was refused, takes at most so many steps for each record that
/// went since the last one. So calls that are refused one after another, with few records taken out between them, take
/// no walk each. (This project's own.)
pub const MOST_STEPS: u64 = 32;

// The most places that a list has, so that each is a word.
const MOST: usize = 288_230_376_151_711_744;

impl Records {
    ghost use Rattle.judy_records.specs.Lends.{LendsValue};

    /// The list without a record, for texts of so many words: at most 2^61, which is more than any slice of bytes
    /// takes. It asks for no memory.
    pub fn new(alloc: Global, size: usize) -> Records
        requires { size ≤ 2305843009213693952 }
        ensures { result ≡ empty_list size }
    {
        Records {
            pages: Vec::new(alloc),
            turns: Turns::new(alloc),
            size,
            shift: shift_for(size),
            end: 0,
        }
    }

    /// How many words of text each record has.
    pub fn size(&self) -> usize
        ensures { result ≡ self.now.size }
    {
        self.size
    }

    /// How many bytes of memory the list has asked for: those of its pages and of the lists of these. It goes over the
    /// pages, and reads no record. The number is tested and not proved, since a list doesn't tell its callers how much
    /// room it has.
    ///
    ///     Records::new(Global, 2).memory() == 0
    pub fn memory(&self) -> u64 {
        let page = mem::size_of::<Page>() as u64;
        let places = (self.pages.capacity() as u64).wrapping_mul(page);
        let mut total = places.wrapping_add(self.turns.bytes());
        for page in &self.pages {
            total = total.wrapping_add(page.bytes());
        }
        total
    }

    /// Does nothing: it tells a caller's proof that no free place is lost, and that no page stands without a record.
    pub fn law(&self)
        ensures next { IsNext self.now.spots self.now.next }
        ensures size { self.now.size ≤ 2305843009213693952 }
        ensures memory { IsTight self.now }
    {
        let _size = self.size;
    }

    /// Does nothing: it tells a caller's proof that values are words.
    pub fn values_law(&self)
        ensures { (place : ℕ) → IsHeld (spot_at self.now place)
            → IsWord (value_of (spot_at self.now place)) }
    {
        for page in &self.pages {
            page.values_law();
        }
    }

    /// Does nothing: it tells a caller's proof that the text of a record takes as many words as each does.
    pub fn text_law(&self, place: usize)
        requires { IsHeld (spot_at self.now place) }
        ensures { length (text_of (spot_at self.now place)) ≡ self.now.size }
    {
        let (at, rest) = locate(self.shift, place);
        self.pages[at].text_law(rest);
    }

    /// The value of the record at a place.
    pub fn value(&self, place: usize) -> u64
        requires { IsHeld (spot_at self.now place) }
        ensures { result ≡ value_of (spot_at self.now place) }
    {
        let (at, rest) = locate(self.shift, place);
        self.pages[at].value(rest)
    }

    /// Lends the value of the record at a place; all else stays.
    pub fn slot(&mut self, place: usize) -> &mut u64
        requires { IsHeld (spot_at self.old place) }
        ensures* writes_back { sem 𝓛 (LendsValue self.entry place result) }
        ensures value { result.now ≡ value_of (spot_at self.old place) }
    {
        let (at, rest) = locate(self.shift, place);
        self.pages[at].slot(rest)
    }

    /// The record at a place.
    pub fn at(&self, place: usize) -> Record<'_>
        requires { IsHeld (spot_at self.now place) }
        ensures { result ≡ spot_at self.now place }
    {
        let (at, rest) = locate(self.shift, place);
        self.pages[at].at(rest)
    }

    /// A copy of the first so many bytes of the text at a place: where a byte string of that length was put in, it is
    /// that. A loop over words. The error is want of memory.
    pub fn bytes(&self, alloc: Global, place: usize, count: usize) -> Result<Vec<u8>, AllocError>
        requires { IsHeld (spot_at self.now place) }
        ensures { IfOk result
            (λ bytes. bytes.items ≡ bytes_in count (text_of (spot_at self.now place))) }
    {
        words::bytes_in(alloc, self.at(place).text(), count)
    }

    /// The place that the next record takes: one in a page with a record and a free place; or else the first of a page
    /// that has gone; or else the end of the list.
    pub fn next_place(&self) -> usize
        ensures { result ≡ self.now.next }
    {
        match self.turns.next() {
            Some(number) => start_of(self.shift, number) + self.pages[number].next_place(),
            None => self.end,
        }
    }

    /// Puts a record in at the next place, and answers that place. Its text takes as many words as each does here.
    /// Where a place is free in a page with a record it asks for nothing. Else a page is begun, anew or where one has
    /// gone; or the last page grows by a part of its records or of all. The error is want of memory, or 2^58 places,
    /// and no record changes its place then.
    pub fn put(&mut self, value: u64, bytes: &[u8]) -> Result<usize, AllocError>
        requires { words_for (length bytes.now) ≡ self.old.size }
        ensures place { IfOk result (λ place. place ≡ self.old.next) }
        ensures size { self.new.size ≡ self.old.size }
        ensures put { OnOk result (self.new.spots
            ≡ put_at self.old.spots self.old.next (held value (words_of bytes.now))) }
        ensures same { OnErr result (self.new.spots ≡ self.old.spots) }
        ensures next { OnErr result (self.new.next ≡ self.old.next) }
        ensures unasked { HasFree self.old → IsOk result }
    {
        match self.turns.next_roomy() {
            Some(number) => {
                let places = places_of(self.shift, self.end, number);
                let rest = put_in(
                    &mut self.pages,
                    &mut self.turns,
                    number,
                    places,
                    value,
                    bytes,
                );
                Ok(start_of(self.shift, number) + rest)
            }
            None => match self.turns.next_gone() {
                Some(number) => {
                    let words = (self.size + 1).saturating_mul(size_of(self.shift, number));
                    reopen(&mut self.pages, &mut self.turns, number, words)?;
                    let places = places_of(self.shift, self.end, number);
                    let rest = put_in(
                        &mut self.pages,
                        &mut self.turns,
                        number,
                        places,
                        value,
                        bytes,
                    );
                    Ok(start_of(self.shift, number) + rest)
                }
                None => self.put_at_end(value, bytes),
            },
        }
    }

    // The same at the end of the list, where no page has a free place and none has gone: in the last page, which grows
    // where it has no memory for one more, or in one that is begun.
    // Within its caller, whose answer it makes.
    #[inline(always)]
    fn put_at_end(&mut self, value: u64, bytes: &[u8]) -> Result<usize, AllocError>
        requires at_end { self.old.next ≡ length self.old.spots }
        requires fits { words_for (length bytes.now) ≡ self.old.size }
        ensures place { IfOk result (λ place. place ≡ self.old.next) }
        ensures size { self.new.size ≡ self.old.size }
        ensures put { OnOk result (self.new.spots
            ≡ put_at self.old.spots self.old.next (held value (words_of bytes.now))) }
        ensures same { OnErr result (self.new.spots ≡ self.old.spots) }
        ensures next { OnErr result (self.new.next ≡ self.old.next) }
    {
        let place = self.end;
        if place >= MOST {
            return Err(AllocError);
        }
        let (number, _) = locate(self.shift, place);
        begin(&mut self.pages, &mut self.turns, number, self.size)?;
        let page = &mut self.pages[number];
        page.widen(words_more(self.shift, place, self.size))?;
        page.put(value, bytes);
        self.end = place + 1;
        Ok(place)
    }

    /// Whether the page of the record at a place is spare: it has a free place, and isn't the one that is filled next.
    /// Then the record can go to another page, by `put` and `remove`, which asks for no memory. Where each record in a
    /// spare page has gone so, one after another, at most one page has free places.
    pub fn is_spare(&self, place: usize) -> bool
        requires { IsHeld (spot_at self.now place) }
        ensures spare { IsTrue result ↔ IsSpare self.now place }
        ensures free { IsTrue result → HasFree self.now }
    {
        let (number, _) = locate(self.shift, place);
        self.turns.is_spare(number)
    }

    /// Puts a record in the place of the one that stands there. Its text takes as many words as each does here. It asks
    /// for no memory.
    pub fn set(&mut self, place: usize, value: u64, bytes: &[u8])
        requires is_held { IsHeld (spot_at self.old place) }
        requires fits { words_for (length bytes.now) ≡ self.old.size }
        ensures { self.new ≡ with_spot self.old place (held value (words_of bytes.now)) }
    {
        let (at, rest) = locate(self.shift, place);
        self.pages[at].set(rest, value, bytes);
    }

    /// Takes the record at a place out. Where its page has no other, the page's memory goes back; and where the list
    /// has no other, all goes. It asks for no memory.
    pub fn remove(&mut self, place: usize)
        requires { IsHeld (spot_at self.old place) }
        ensures { IsRemoved self.old self.new place }
    {
        self.take_out(place);
        if self.turns.all_gone() {
            let alloc = *self.pages.allocator();
            self.pages = Vec::new(alloc);
            self.turns = Turns::new(alloc);
            self.end = 0;
        }
    }

    /// The same where the list is kept, also with no record left, for a caller that drops it then.
    pub fn take_out(&mut self, place: usize)
        requires { IsHeld (spot_at self.old place) }
        ensures size { self.new.size ≡ self.old.size }
        ensures spots { self.new.spots ≡ slice_set self.old.spots place (free 0) }
    {
        let (number, rest) = locate(self.shift, place);
        let places = places_of(self.shift, self.end, number);
        take_out_of(&mut self.pages, &mut self.turns, number, rest, places);
    }
    /// Lets the pages with a free place be filled by their numbers, and answers the first place behind those of them
    /// that have places for all their records. Where each record of a spare page from there on goes to another page, by
    /// `put` and `take_out`, the pages behind go. It asks for no memory.
    pub fn line_up(&mut self) -> usize
        ensures { HoldsSame self.old self.new }
    {
        self.turns.sort();
        self.end_of_needed()
    }

    // The first place behind the pages that have places for all records of pages with a free place.
    fn end_of_needed(&self) -> usize {
        let mut left = self.in_roomy();
        for number in 0..self.pages.len() {
            if left == 0 {
                return start_of(self.shift, number);
            }
            if self.turns.is_roomy(number) {
                left = left.saturating_sub(size_of(self.shift, number));
            }
        }
        self.end
    }

    // How many records stand in pages with a free place.
    fn in_roomy(&self) -> usize {
        let mut records: usize = 0;
        for number in 0..self.pages.len() {
            if self.turns.is_roomy(number) {
                records = records.saturating_add(self.pages[number].records());
            }
        }
        records
    }

    /// Gives the places back of pages behind the last one that stands. That the lists of pages be made smaller is all
    /// that is asked of memory; where this is refused they keep their room.
    pub fn trim(&mut self)
        ensures { HoldsSame self.old self.new }
    {
        self.drop_gone();
        self.pages.shrink_to_fit();
        self.turns.fit();
    }

    // The same, where the lists keep their room.
    fn drop_gone(&mut self)
        ensures { HoldsSame self.old self.new }
    {
        for _ in 0..self.pages.len() {
            if !self.drop_last() {
                return;
            }
        }
    }

    // The same for the last page, where it has gone. It says whether it was.
    fn drop_last(&mut self) -> bool
        ensures { HoldsSame self.old self.new }
    {
        if !self.turns.pop() {
            return false;
        }
        self.pages.pop();
        self.end = start_of(self.shift, self.pages.len());
        true
    }
}
