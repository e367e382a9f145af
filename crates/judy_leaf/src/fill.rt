//! The pairs of leaves and immediates, written into a slice, or what stands for them.

ghost use Rattle.std.specs.Prelude.{◌≡◌, ◌+◌, ◌^◌, ◌≤◌, length, take, drop};
ghost use Rattle.judy_leaf.specs.KeyLists.{shift};
ghost use Rattle.judy_leaf.specs.Fills.{made_of};

use crate::bit_ref::BitRef;
use crate::from_pair::FromPair;
use crate::imm::ImmOf;
use crate::leaf_ref::LeafRef;
use crate::next_bits::{left_from, take_next};
use crate::words::Words;

impl<V: Words + Drop> ImmOf<V> {
    /// Writes the pairs, by ascending key, into a slice that has just the places for them. Each key is higher by `base`
    /// there, and still a word.
    pub fn fill(&self, base: u64, out: &mut [(u64, u64)])
        requires room { length out.old ≡ length self.now.pairs }
        requires fits { base + 256 ^ self.now.width ≤ 2 ^ 64 }
        ensures { out.new ≡ shift base self.now.pairs }
    {
        self.fill_from(0, base, out);
    }

    /// Writes what stands for the pairs from a place on, as many as the slice has places.
    pub fn fill_from<E: FromPair>(&self, at: usize, base: u64, out: &mut [E])
        requires inside { at + length out.old ≤ length self.now.pairs }
        requires fits { base + 256 ^ self.now.width ≤ 2 ^ 64 }
        ensures { out.new
            ≡ made_of E.made (shift base (take (length out.old) (drop at self.now.pairs))) }
    {
        let count = self.len();
        prove!(at + out.len() <= count);
        for place in 0..out.len() {
            out[place] = E::from_pair(base + self.key_at(at + place), self.value_at(at + place));
        }
    }
}

impl<'a, V: Words + Drop> LeafRef<'a, V> {
    /// Writes the pairs, by ascending key, into a slice that has just the places for them. Each key is higher by `base`
    /// there, and still a word.
    pub fn fill(&self, base: u64, out: &mut [(u64, u64)])
        requires room { length out.old ≡ length self.now.pairs }
        requires fits { base + 256 ^ self.now.width ≤ 2 ^ 64 }
        ensures { out.new ≡ shift base self.now.pairs }
    {
        self.fill_from(0, base, out);
    }

    /// Writes what stands for the pairs from a place on, as many as the slice has places. The width of the keys is
    /// asked for once.
    pub fn fill_from<E: FromPair>(&self, at: usize, base: u64, out: &mut [E])
        requires inside { at + length out.old ≤ length self.now.pairs }
        requires fits { base + 256 ^ self.now.width ≤ 2 ^ 64 }
        ensures { out.new
            ≡ made_of E.made (shift base (take (length out.old) (drop at self.now.pairs))) }
    {
        match self.width() {
            1 => self.fill_of::<1, E>(at, base, out),
            2 => self.fill_of::<2, E>(at, base, out),
            3 => self.fill_of::<3, E>(at, base, out),
            4 => self.fill_of::<4, E>(at, base, out),
            5 => self.fill_of::<5, E>(at, base, out),
            6 => self.fill_of::<6, E>(at, base, out),
            7 => self.fill_of::<7, E>(at, base, out),
            _ => self.fill_of::<8, E>(at, base, out),
        }
    }

    // The same of a leaf whose keys have `W` bytes.
    fn fill_of<const W: usize, E: FromPair>(&self, at: usize, base: u64, out: &mut [E])
        requires width { self.now.width ≡ W }
        requires inside { at + length out.old ≤ length self.now.pairs }
        requires fits { base + 256 ^ W ≤ 2 ^ 64 }
        ensures { out.new
            ≡ made_of E.made (shift base (take (length out.old) (drop at self.now.pairs))) }
    {
        let count = self.len();
        prove!(at + out.len() <= count);
        for place in 0..out.len() {
            let key = self.key_of::<W>(at + place);
            out[place] = E::from_pair(base + key, self.value_at(at + place));
        }
    }
}

impl<'a, V: Words + Drop> BitRef<'a, V> {
    /// Writes the pairs, by ascending key, into a slice that has just the places for them. Each key, of one byte here,
    /// is higher by `base` there, and still a word.
    pub fn fill(&self, base: u64, out: &mut [(u64, u64)])
        requires room { length out.old ≡ length self.now.pairs }
        requires fits { base + 256 ≤ 2 ^ 64 }
        ensures { out.new ≡ shift base self.now.pairs }
    {
        self.fill_from(0, base, out);
    }

    /// Writes what stands for the pairs from a place on, as many as the slice has places. One key is counted to, and
    /// each of the others is the next bit.
    pub fn fill_from<E: FromPair>(&self, at: usize, base: u64, out: &mut [E])
        requires inside { at + length out.old ≤ length self.now.pairs }
        requires fits { base + 256 ≤ 2 ^ 64 }
        ensures { out.new
            ≡ made_of E.made (shift base (take (length out.old) (drop at self.now.pairs))) }
    {
        let count = self.len();
        prove!(at + out.len() <= count);
        if out.is_empty() {
            return;
        }
        let words = self.bit_words();
        let (mut word, mut left) = left_from(words, self.key_at(at));
        for place in 0..out.len() {
            let key = take_next(words, &mut word, &mut left);
            out[place] = E::from_pair(base + key, self.value_at(at + place));
        }
    }
}
