//! A block of words, and its calls.

ghost use Rattle.std.specs.Prelude.{◌≡◌, ◌+◌, ◌-◌, ◌*◌, ◌<◌, ◌≤◌, ◌^◌, length, take, drop, replicate, ◌++◌, slice_index, slice_set, IfOk};
ghost use Rattle.std.specs.Borrow.{sem};
ghost use Rattle.std.specs.List.{insert, copy_within};
ghost use Rattle.judy_block.specs.Contents.{Contents, empty_block, with_gap, without_gap};
ghost use Rattle.judy_block.specs.Deeds.{IsDeedOf};
ghost use Rattle.judy_block.specs.Layout.{used_of, capacity_of, tag_of, contents_of, IsBlock};

use crate::cells::{Cells, Deed};
use crate::header::Header;
use std::alloc::{AllocError, Global};
use std::marker::Model;
use std::mem::size_of;

/// A block of words in memory of its own: at most `capacity` words, and a tag. Words are counted from 0.
///
/// It owns one allocation, which its drop gives back. `Cells` and `Deed` can't be let go otherwise, so
/// no block is freed twice.
pub struct Block {
    cells: Cells,
    deed: Deed<Global>,
    alloc: Global,
}

// One pointer: neither the deed nor the allocator takes any bytes.
const _: () = prove!(size_of::<Block>() == 8);

impl Model for Block {
    ghost Value = { Contents };

    ghost view = { λ b. contents_of b.cells.items };

    ghost invariant = { λ b. IsBlock b.cells.items × IsDeedOf b.deed b.alloc b.cells };
}

impl Block {
    ghost use Rattle.judy_block.specs.SlotLends.{lends_slot};

    /// A block of no words and the tag 0, with room for `capacity` words, from 1 to 65,535. The error is
    /// want of memory; nothing is kept then.
    pub fn new(alloc: Global, capacity: usize) -> Result<Block, AllocError>
        requires within { (1 ≤ capacity) × (capacity ≤ 65535) }
        ensures { IfOk result (λ block. block ≡ empty_block capacity) }
    {
        let (mut cells, deed) = Cells::allocate(&alloc, 1 + capacity)?;
        cells.front_mut(1)[0] = Header::new(0, capacity, 0).bits;
        Ok(Block { cells, deed, alloc })
    }

    /// A block of such words and with such a tag, with room for `capacity` words, from 1 to 65,535, into which the
    /// words have to fit. The error is want of memory; nothing is kept then.
    // Mostly the number of words is known where this is called, so that all is a few stores there.
    #[inline(always)]
    pub fn of_words(
        alloc: Global,
        capacity: usize,
        tag: u32,
        words: &[u64],
    ) -> Result<Block, AllocError>
        requires within { (1 ≤ capacity) × (capacity ≤ 65535) }
        requires fits { length words.now ≤ capacity }
        ensures { IfOk result
            (λ block. block ≡ record { words = words.now; capacity = capacity; tag = tag }) }
    {
        let (mut cells, deed) = Cells::allocate(&alloc, 1 + capacity)?;
        let front = cells.front_mut(1 + words.len());
        front[0] = Header::new(words.len(), capacity, tag).bits;
        front[1..].copy_from_slice(words);
        Ok(Block { cells, deed, alloc })
    }

    /// The number of words, at most the capacity.
    pub fn len(&self) -> usize
        ensures count { result ≡ length self.now.words }
        ensures within { result ≤ self.now.capacity }
    {
        self.header().used()
    }

    /// The number of words that there is room for, from 1 to 65,535.
    pub fn capacity(&self) -> usize
        ensures capacity { result ≡ self.now.capacity }
        ensures within { (1 ≤ result) × (result ≤ 65535) }
    {
        self.header().capacity()
    }

    /// How many bytes of memory it asked for: eight for each word that there is room for, and eight for the header. So
    /// it is from 16 to 524,288.
    ///
    ///     Block::new(Global, 4)?.bytes() == 40
    pub fn bytes(&self) -> u64
        ensures bytes { result ≡ (self.now.capacity + 1) * 8 }
        ensures within { result ≤ 524288 }
    {
        (self.capacity() as u64 + 1) * 8
    }

    /// The tag, 32 bits.
    pub fn tag(&self) -> u32
        ensures tag { result ≡ self.now.tag }
        ensures within { result < 2 ^ 32 }
    {
        self.header().tag()
    }

    /// Sets the tag, and changes nothing else.
    pub fn set_tag(&mut self, tag: u32)
        ensures { self.new ≡ record self.old { tag = tag } }
    {
        let header = self.header();
        let header = Header::new(header.used(), header.capacity(), tag);
        self.cells.front_mut(1)[0] = header.bits;
    }

    /// The word at place `i`, which is below the number of words.
    pub fn get(&self, i: usize) -> u64
        requires { i < length self.now.words }
        ensures { result ≡ slice_index self.now.words i }
    {
        self.words()[i]
    }

    /// Writes the word at place `i`, which is below the number of words, and changes nothing else.
    pub fn put(&mut self, i: usize, word: u64)
        requires { i < length self.old.words }
        ensures { self.new ≡ record self.old { words = slice_set self.old.words i word } }
    {
        *self.slot(i) = word;
    }

    /// Lends the word at place `i`, which is below the number of words; nothing else changes.
    #[tactic(auto, using(crate::proofs::Writes::word_written, crate::proofs::Writes::word_read))]
    pub fn slot(&mut self, i: usize) -> &mut u64
        requires { i < length self.old.words }
        ensures* changes { sem 𝓛 (lends_slot self.entry i result) }
        ensures word { result.now ≡ slice_index self.old.words i }
    {
        self.cells.word_mut(i + 1)
    }

    /// The words, in order.
    pub fn words(&self) -> &[u64]
        ensures { result.now ≡ self.now.words }
    {
        let used = self.len();
        &self.cells.front(1 + used)[1..]
    }

    /// Puts `n` zeros at place `i`, from 0 to the number of words; the words from there on move up. They
    /// have to fit the capacity.
    ///
    /// Each of these words is moved once, the last first.
    pub fn open_gap(&mut self, i: usize, n: usize)
        requires place { i ≤ length self.old.words }
        requires room { length self.old.words + n ≤ self.old.capacity }
        ensures { self.new ≡ record self.old { words = with_gap i n self.old.words } }
    {
        let header = self.header();
        let used = header.used();
        let cells = self.cells.front_mut(1 + used + n);
        cells[0] = header.with_used(used + n).bits;
        open_words(&mut cells[1..], i, n);
    }

    /// Puts a word in at place `i`, and then another at place `j`, which is behind it and at most behind the last word.
    /// Both have to fit the capacity.
    ///
    /// Each of the words from place `i` on is moved once, the last first.
    pub fn insert_two(&mut self, i: usize, word: u64, j: usize, other: u64)
        requires first { i < j }
        requires second { j ≤ length self.old.words + 1 }
        requires room { length self.old.words + 2 ≤ self.old.capacity }
        ensures { self.new
            ≡ record self.old { words = insert (insert self.old.words i word) j other } }
    {
        let header = self.header();
        let used = header.used();
        let cells = self.cells.front_mut(1 + used + 2);
        cells[0] = header.with_used(used + 2).bits;
        insert_words(&mut cells[1..], i, word, j, other);
    }

    /// Takes out the `n` words from place `i` on, which have to be there; the words after them move down.
    ///
    /// Each of these words is moved once, the first first.
    pub fn close_gap(&mut self, i: usize, n: usize)
        requires { i + n ≤ length self.old.words }
        ensures { self.new ≡ record self.old { words = without_gap i n self.old.words } }
    {
        let header = self.header();
        let used = header.used();
        let cells = self.cells.front_mut(1 + used);
        cells[0] = header.with_used(used - n).bits;
        cells[1..].copy_within(i + n..used, i);
    }

    // The header, whose parts are the number of words, the capacity and the tag.
    fn header(&self) -> Header
        ensures used { used_of result.bits ≡ length self.now.words }
        ensures capacity { capacity_of result.bits ≡ self.now.capacity }
        ensures tag { tag_of result.bits ≡ self.now.tag }
        ensures within { length self.now.words ≤ self.now.capacity }
        ensures some { 1 ≤ self.now.capacity }
    {
        Header {
            bits: self.cells.front(1)[0],
        }
    }
}

impl Drop for Block {
    fn drop(self) {
        let Block { cells, deed, alloc } = self;
        let header = Header {
            bits: cells.front(1)[0],
        };
        cells.release(deed, &alloc, 1 + header.capacity());
    }
}

// Opens a gap of `n` zeros at `i`; the last `n` words are spare, and go.
#[tactic(auto, using(crate::proofs::Gaps::gap_opened))]
fn open_words(words: &mut [u64], i: usize, n: usize)
    requires { i + n ≤ length words.old }
    ensures { words.new ≡ with_gap i n (take (length words.old - n) words.old) }
{
    let used = words.len() - n;
    words.copy_within(i..used, i + n);
    clear_words(words, i, n);
}

// Puts a word in at `i`, and then another at `j`, behind it; the last two words are spare, and go.
fn insert_words(words: &mut [u64], i: usize, word: u64, j: usize, other: u64)
    requires first { i < j }
    requires second { j < length words.old }
    ensures { words.new
        ≡ insert (insert (take (length words.old - 2) words.old) i word) j other }
{
    move_up::<2>(&mut words[j - 1..]);
    words[j] = other;
    move_up::<1>(&mut words[i..j]);
    words[i] = word;
}

// Moves words up by `N` places; the last `N` go. That the distance is a constant of a function of its own makes it one
// `memmove`.
fn move_up<const N: usize>(words: &mut [u64])
    requires { N ≤ length words.old }
    ensures { words.new ≡ copy_within words.old 0 (length words.old - N) N }
{
    let rest = words.len() - N;
    words.copy_within(0..rest, N);
}

// Makes the `n` words from `i` on zeros.
fn clear_words(words: &mut [u64], i: usize, n: usize)
    requires { i + n ≤ length words.old }
    ensures { words.new ≡ take i words.old ++ (replicate n 0 ++ drop (i + n) words.old) }
{
    words[i..i + n].fill(0);
}
