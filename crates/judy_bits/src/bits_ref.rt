//! A set of bytes as 256 bits in four words, where they are read one by one and not copied.

ghost use Rattle.std.specs.Prelude.{◌≡◌, ◌+◌, ◌%◌, ◌^◌, ◌≤◌, if◌then◌else◌, nat_lt, count_ones, slice_index, length};
ghost use Rattle.judy_bits.specs.ByteSets as set;
ghost use Rattle.judy_bits.specs.BitWords.{members_of};

use crate::bits::{
    count, count_where, highest_below, low_ones, lowest_from, ones_below_one, select,
};
use crate::bits256::Bits256;
use std::marker::Model;

/// A set of bytes to read: byte `b` is a member where bit `b mod 64` of word `b / 64` is 1.
#[derive(Drop)]
pub struct BitsRef<'a> {
    words: &'a [u64],
}

impl<'a> Model for BitsRef<'a> {
    ghost use Rattle.std.specs.Prelude.{◌≡◌, ℕ, List, length};
    ghost use Rattle.judy_bits.specs.BitWords.{members_of};

    ghost Value = { List ℕ };

    ghost view = { λ a. members_of a.words.now };

    ghost invariant = { λ a. length a.words.now ≡ 4 };
}

// How many bits of the words before one of four are 1.
fn ones_before(words: &[u64], word: usize) -> u32
    requires four { length words.now ≡ 4 }
    ensures counted { result
        ≡ (if nat_lt 0 word then count_ones
        (slice_index words.now 0 % 2 ^ 64) else 0) + (if nat_lt 1 word then count_ones
        (slice_index words.now 1 % 2 ^ 64) else 0) + (if nat_lt 2 word then count_ones
        (slice_index words.now 2 % 2 ^ 64) else 0) }
    ensures within { result ≤ 192 }
{
    count_where(word > 0, words[0])
        + count_where(word > 1, words[1])
        + count_where(word > 2, words[2])
}

impl<'a> BitsRef<'a> {
    /// The set of the bytes whose bit is 1 in four words; no other number of words is taken.
    pub fn of_words(words: &'a [u64]) -> BitsRef<'a>
        requires { length words.now ≡ 4 }
        ensures { result ≡ members_of words.now }
    {
        BitsRef { words }
    }

    /// Whether the byte is a member.
    pub fn has(&self, byte: u8) -> bool
        ensures { result ≡ set.has self.now byte }
    {
        (self.words[(byte / 64) as usize] >> (byte % 64)) & 1 == 1
    }

    /// How many members are below the byte.
    pub fn rank(&self, byte: u8) -> usize
        ensures { result ≡ set.rank self.now byte }
    {
        let word = (byte / 64) as usize;
        let here = self.words[word] & low_ones((byte % 64) as usize);
        (ones_before(self.words, word) + here.count_ones()) as usize
    }

    /// The place of a member, which is its rank; none where the byte isn't a member, and then nothing is counted.
    // As a set's: a call would cost as much as the count.
    #[inline(always)]
    pub fn place(&self, byte: u8) -> Option<usize>
        ensures { result ≡ set.place self.now byte }
    {
        let word = (byte / 64) as usize;
        match ones_below_one(self.words[word], byte % 64) {
            Some(here) => Some((ones_before(self.words, word) + here) as usize),
            None => None,
        }
    }

    /// The member at a place, counted from 0; none from the number of members on.
    pub fn nth(&self, at: usize) -> Option<u8>
        ensures { result ≡ set.nth self.now at }
    {
        let mut left = at;
        for word in 0..4 {
            let count = count(self.words[word]) as usize;
            if left < count {
                return Some((64 * word + select(self.words[word], left as u32)) as u8);
            }
            left -= count;
        }
        None
    }

    // The bytes that are no members.
    fn absent(&self) -> Bits256
        ensures { result ≡ set.absent self.now }
    {
        let first = !self.words[0];
        let second = !self.words[1];
        let third = !self.words[2];
        let fourth = !self.words[3];
        Bits256::of_words([first, second, third, fourth])
    }

    /// The nearest byte at or above the given one that is no member; none where all of these are members.
    pub fn next_absent(&self, byte: u8) -> Option<u8>
        ensures { result ≡ set.next_absent self.now byte }
    {
        self.absent().by_ref().next_from(byte)
    }

    /// The nearest byte at or below the given one that is no member; none where all of these are members.
    pub fn prev_absent(&self, byte: u8) -> Option<u8>
        ensures { result ≡ set.prev_absent self.now byte }
    {
        self.absent().by_ref().prev_from(byte)
    }

    /// The nearest member at or above the byte; none where all are below.
    // Mostly it stands in the byte's own word, and no other is looked at.
    pub fn next_from(&self, byte: u8) -> Option<u8>
        ensures { result ≡ set.next_from self.now byte }
    {
        let first = (byte / 64) as usize;
        if let Some(place) = lowest_from(self.words[first], (byte % 64) as usize) {
            return Some((64 * first + place) as u8);
        }
        for word in first + 1..4 {
            if let Some(place) = lowest_from(self.words[word], 0) {
                return Some((64 * word + place) as u8);
            }
        }
        None
    }

    /// The nearest member at or below the byte; none where all are above.
    pub fn prev_from(&self, byte: u8) -> Option<u8>
        ensures { result ≡ set.prev_from self.now byte }
    {
        let last = (byte / 64) as usize;
        for word in (0..last + 1).rev() {
            let limit = (byte as usize + 1 - 64 * word).min(64);
            if let Some(place) = highest_below(self.words[word], limit) {
                return Some((64 * word + place) as u8);
            }
        }
        None
    }
}
