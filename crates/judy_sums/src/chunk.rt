//! A run of entries, in the order of their words.

ghost use Rattle.std.specs.Prelude.{◌≡◌, ◌<◌, ◌≤◌, ◌+◌, ◌-◌, ◌/◌, ◌^◌, ◌∷◌, [], ℕ, length, take, drop, get_or, slice_set, IfOk, OnOk, OnErr, IsTrue, IsFalse};
ghost use Rattle.std.specs.List.{insert, remove};
ghost use Rattle.judy_sums.specs.Pairs.{sum_of, sum_below};
ghost use Rattle.judy_sums.specs.Chunks.{BeginsBy, BeginsAbove, IsFirst, IsPlace, StandsIn, Ascends};

use crate::entry::Entry;
use std::alloc::{AllocError, Global};
use std::marker::Model;
use std::mem::size_of;

// The sum of the numbers of entries.
fn sum(entries: &[Entry]) -> u64
    requires { sum_of entries.now < 2 ^ 64 }
    ensures { result ≡ sum_of entries.now }
{
    let mut sum = 0;
    for entry in entries {
        sum += entry.number();
    }
    sum
}

// The first word of entries, or any where there are none.
fn first_word(entries: &[Entry]) -> u64
    ensures { IsFirst entries.now result }
{
    match entries.first() {
        Some(entry) => entry.word(),
        None => 0,
    }
}

// The place of a word among entries, or that it would have.
fn place(entries: &[Entry], word: u64) -> usize
    requires { Ascends entries.now }
    ensures { IsPlace entries.now word result }
{
    let mut low = 0;
    let mut high = entries.len();
    'search: while low < high {
        let middle = low + (high - low) / 2;
        if entries[middle].is_below(word) {
            low = middle + 1;
        } else {
            high = middle;
        }
    }
    low
}

// A chunk without room gets room for so many entries more. So a chunk of 64, which is then parted, wastes little.
const MORE: usize = 16;

// Puts an entry in at a place. The error is want of memory.
fn insert_at(entries: &mut Vec<Entry>, at: usize, entry: Entry) -> Result<(), AllocError>
    requires { at ≤ length entries.old.items }
    ensures items { OnOk result (entries.new.items ≡ insert entries.old.items at entry) }
    ensures unchanged { OnErr result (entries.new.items ≡ entries.old.items) }
{
    if entries.len() == entries.capacity() {
        entries.reserve_exact(MORE)?;
    }
    entries.insert(at, entry)?;
    Ok(())
}

// Cuts off what stands from a place on, and gives back the memory of that. The error is want of memory.
fn cut_off(entries: &mut Vec<Entry>, at: usize) -> Result<Vec<Entry>, AllocError>
    requires { at ≤ length entries.old.items }
    ensures tail { IfOk result (λ upper. upper.items ≡ drop at entries.old.items) }
    ensures items { OnOk result (entries.new.items ≡ take at entries.old.items) }
    ensures unchanged { OnErr result (entries.new.items ≡ entries.old.items) }
{
    let upper = entries.split_off(at)?;
    entries.shrink_to_fit();
    Ok(upper)
}

// The entries, with the first word beside, so that a search over chunks takes no look at entries.
#[derive(Drop)]
pub struct Chunk {
    first: u64,
    entries: Vec<Entry>,
}

impl Model for Chunk {
    ghost use Rattle.judy_sums.specs.Pairs.{Pairs};
    ghost use Rattle.judy_sums.specs.Chunks.{IsFirst};

    ghost Value = { Pairs };

    ghost view = { λ chunk. chunk.entries.items };

    ghost invariant = { λ chunk. IsFirst chunk.entries.items chunk.first };
}

impl Chunk {
    // The chunk of one entry. The error is want of memory.
    pub fn of(alloc: Global, entry: Entry) -> Result<Chunk, AllocError>
        ensures { IfOk result (λ chunk. chunk ≡ entry ∷ []) }
    {
        let first = entry.word();
        let mut entries = Vec::new(alloc);
        entries.push(entry)?;
        Ok(Chunk { first, entries })
    }

    // How many entries there are.
    pub fn len(&self) -> usize
        ensures { result ≡ length self.now }
    {
        self.entries.len()
    }

    // How many bytes it has asked for: those of the entries that it has room for.
    pub fn bytes(&self) -> u64 {
        (self.entries.capacity() as u64).wrapping_mul(size_of::<Entry>() as u64)
    }

    // Whether it doesn't begin above a word.
    pub fn begins_by(&self, word: u64) -> bool
        ensures by { IsTrue result → BeginsBy self.now word }
        ensures above { IsFalse result → BeginsAbove self.now word }
    {
        self.first <= word
    }

    // The sum of the numbers. It goes over the entries.
    pub fn total(&self) -> u64
        requires { sum_of self.now < 2 ^ 64 }
        ensures { result ≡ sum_of self.now }
    {
        sum(&self.entries)
    }

    // The place of a word, or that it would have.
    pub fn place_of(&self, word: u64) -> usize
        requires { Ascends self.now }
        ensures { IsPlace self.now word result }
    {
        place(&self.entries, word)
    }

    // The sum of the numbers whose words are less than the given one.
    pub fn below(&self, word: u64) -> u64
        requires ascends { Ascends self.now }
        requires fits { sum_of self.now < 2 ^ 64 }
        ensures { result ≡ sum_below self.now word }
    {
        sum(&self.entries[..place(&self.entries, word)])
    }

    // Whether a word stands at a place.
    pub fn stands(&self, word: u64, at: usize) -> bool
        ensures there { IsTrue result → StandsIn self.now word at }
        ensures apart { IsFalse result → StandsIn self.now word at → ⊥ }
    {
        match self.entries.get(at) {
            Some(entry) => entry.is(word),
            None => false,
        }
    }

    // The number at a place.
    pub fn number(&self, at: usize) -> u64
        requires { at < length self.now }
        ensures { result ≡ (get_or self.now at (0, 0)).1 }
    {
        self.entries[at].number()
    }

    // Adds one to the number at a place.
    pub fn raise(&mut self, at: usize)
        requires within { at < length self.old }
        requires fits { sum_of self.old + 1 < 2 ^ 64 }
        ensures { let pair = get_or self.old at (0, 0) in
            self.new ≡ slice_set self.old at (pair.0, pair.1 + 1) }
    {
        self.entries[at].raise();
    }

    // Takes one from the number at a place.
    pub fn lower(&mut self, at: usize)
        requires within { at < length self.old }
        requires some { 1 ≤ (get_or self.old at (0, 0)).1 }
        ensures { let pair = get_or self.old at (0, 0) in
            self.new ≡ slice_set self.old at (pair.0, pair.1 - 1) }
    {
        self.entries[at].lower();
    }

    // Puts an entry in at a place. The error is want of memory.
    pub fn insert(&mut self, at: usize, entry: Entry) -> Result<(), AllocError>
        requires { at ≤ length self.old }
        ensures inserted { OnOk result (self.new ≡ insert self.old at entry) }
        ensures unchanged { OnErr result (self.new ≡ self.old) }
    {
        let word = entry.word();
        insert_at(&mut self.entries, at, entry)?;
        if at == 0 {
            self.first = word;
        }
        Ok(())
    }

    // Takes the entry at a place out, and answers its number.
    pub fn remove(&mut self, at: usize) -> u64
        requires { at < length self.old }
        ensures removed { self.new ≡ remove self.old at }
        ensures number { result ≡ (get_or self.old at (0, 0)).1 }
    {
        let entry = self.entries.remove(at);
        if at == 0 {
            self.first = first_word(&self.entries);
        }
        entry.number()
    }

    // Cuts the upper half off. The error is want of memory, and the chunk stays whole then.
    pub fn cut_half(&mut self) -> Result<Chunk, AllocError>
        ensures upper { IfOk result (λ upper. upper ≡ drop (length self.old / 2) self.old) }
        ensures lower { OnOk result (self.new ≡ take (length self.old / 2) self.old) }
        ensures unchanged { OnErr result (self.new ≡ self.old) }
    {
        let half = self.entries.len() / 2;
        let entries = cut_off(&mut self.entries, half)?;
        let first = first_word(&entries);
        Ok(Chunk { first, entries })
    }
}
