//! A set of bytes as 256 bits in four words.

ghost use Rattle.std.specs.Prelude.{◌≡◌, ℕ, ◌*◌, ◌/◌, ◌<◌, ◌≤◌, List, [], length};
ghost use Rattle.judy_bits.specs.ByteSets as set;
ghost use Rattle.judy_bits.specs.ByteSets.{IsByteSet};
ghost use Rattle.judy_bits.specs.BitWords.{members_of};

use crate::bits::{count, fewer_ones, ones_below_one};
use crate::bits_ref::BitsRef;
use std::marker::Model;

/// A set of bytes: byte `b` is a member where bit `b mod 64` of word `b / 64` is 1.
#[derive(Clone, Debug, Drop)]
pub struct Bits256 {
    words: [u64; 4],
}

impl Model for Bits256 {
    ghost Value = { List ℕ };

    ghost view = { λ a. members_of a.words };
}

impl Bits256 {
    /// The empty set.
    pub fn new() -> Bits256
        ensures { result ≡ [] }
    {
        Bits256 { words: [0; 4] }
    }

    /// The set of the bytes whose bit is 1 in four words: byte `b` has bit `b mod 64` of word `b / 64`.
    pub fn of_words(words: [u64; 4]) -> Bits256
        ensures { result ≡ members_of words }
    {
        Bits256 { words }
    }

    /// The set to read: what it has, and where, is asked of that.
    pub fn by_ref(&self) -> BitsRef<'_>
        ensures { result ≡ self.now }
    {
        BitsRef::of_words(&self.words)
    }

    /// The four words whose bits are 1 for the members.
    pub fn words(&self) -> [u64; 4]
        ensures { members_of result ≡ self.now }
    {
        self.words
    }

    /// Makes the byte a member; one that is a member changes nothing.
    pub fn add(&mut self, byte: u8)
        ensures { self.new ≡ set.with_byte self.old byte }
    {
        self.words[(byte / 64) as usize] |= 1 << (byte % 64);
    }

    /// Takes the byte out; a byte that is no member changes nothing.
    pub fn take(&mut self, byte: u8)
        ensures { self.new ≡ set.without_byte self.old byte }
    {
        self.words[(byte / 64) as usize] &= !(1 << (byte % 64));
    }

    /// A law, told by a call that does nothing: the members ascend, and all are bytes.
    pub fn law(&self)
        ensures { IsByteSet self.now }
    {
        let _ = &self.words;
    }

    /// How many members there are.
    pub fn len(&self) -> usize
        ensures count { result ≡ length self.now }
        ensures within { result ≤ 256 }
        ensures is_set { IsByteSet self.now }
    {
        let [first, second, third, fourth] = self.words;
        (count(first) + count(second) + count(third) + count(fourth)) as usize
    }

    /// The place of a member, where it is known how many members are below its word's first byte; none where the byte
    /// isn't a member.
    // As a set's: a call would cost as much as the count.
    #[inline(always)]
    pub(crate) fn place_behind(&self, byte: u8, front: usize) -> Option<usize>
        requires front { front ≡ set.rank self.now (64 * (byte / 64)) }
        requires small { front < 256 }
        ensures { result ≡ set.place self.now byte }
    {
        match ones_below_one(self.words[(byte / 64) as usize], byte % 64) {
            Some(here) => Some(front + here as usize),
            None => None,
        }
    }

    /// How many members are below the byte, where it is known how many are below its word's first byte.
    // As `place_behind`.
    #[inline(always)]
    pub(crate) fn rank_behind(&self, byte: u8, front: usize) -> usize
        requires front { front ≡ set.rank self.now (64 * (byte / 64)) }
        requires small { front < 256 }
        ensures { result ≡ set.rank self.now byte }
    {
        let here = self.words[(byte / 64) as usize] & fewer_ones((byte % 64) as usize);
        front + here.count_ones() as usize
    }
}
