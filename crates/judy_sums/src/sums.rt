//! The list and its calls.

ghost use Rattle.std.specs.Prelude.{◌≡◌, ◌<◌, ◌≤◌, ◌+◌, ◌-◌, ◌^◌, ◌==◌, OnOk, OnErr, IsOk, IsSome, None};
ghost use Rattle.std.specs.FinMap as map;
ghost use Rattle.judy_sums.specs.Pairs.{sum_of, sum_below, number_at, raised, lowered};

use crate::row::Chunks;
use crate::{chunks, steps};
use std::alloc::{AllocError, Global};
use std::marker::Model;

/// An ordered list of words with numbers. To contracts it is the finite map from the words to their numbers.
#[derive(Drop)]
pub struct Sums {
    chunks: Chunks,
}

impl Model for Sums {
    ghost use Rattle.std.specs.Prelude.{ℕ};
    ghost use Rattle.std.specs.Coded.{coded_ℕ};
    ghost use Rattle.std.specs.FinMap.{FinMap, code, from_sorted};
    ghost use Rattle.judy_model.specs.Keys.{word_order};
    ghost use Rattle.judy_sums.specs.Chunks.{AreChunks, joined};

    ghost Value = { FinMap word_order ℕ };

    ghost coded = { code coded_ℕ coded_ℕ };

    ghost view = { λ sums. from_sorted (joined sums.chunks) };

    ghost invariant = { λ sums. AreChunks sums.chunks };
}

impl Sums {
    /// The list without a word. It asks for no memory.
    pub fn new(alloc: Global) -> Sums
        ensures { result ≡ map.empty }
    {
        Sums {
            chunks: Chunks::new(alloc),
        }
    }

    /// The sum of the numbers whose words are less than the given one.
    pub fn below(&self, word: u64) -> u64
        ensures { result ≡ sum_below (map.entries self.now) word }
    {
        chunks::below(&self.chunks, word)
    }

    /// Adds one to the number of a word, which comes in with the number 1 where it isn't there. Only then is memory
    /// asked for; the error is want of it, and leaves the list as it was.
    pub fn raise(&mut self, word: u64) -> Result<(), AllocError>
        requires few { map.len self.old + 1 < 2 ^ 64 }
        requires fits { sum_of (map.entries self.old) + 1 < 2 ^ 64 }
        ensures raised { OnOk result (self.new ≡ raised self.old word) }
        ensures unchanged { OnErr result (self.new ≡ self.old) }
        ensures there { IsSome (map.get self.old word) → IsOk result }
    {
        steps::raise(&mut self.chunks, word)
    }

    /// Brings in a word that isn't there, with a number. The error is want of memory, and leaves the list as it was.
    pub fn add(&mut self, word: u64, number: u64) -> Result<(), AllocError>
        requires absent { map.get self.old word ≡ None }
        requires few { map.len self.old + 1 < 2 ^ 64 }
        requires fits { sum_of (map.entries self.old) + number < 2 ^ 64 }
        ensures added { OnOk result (self.new ≡ map.insert self.old word number) }
        ensures unchanged { OnErr result (self.new ≡ self.old) }
    {
        steps::add(&mut self.chunks, word, number)
    }

    /// How many bytes of memory the list has asked for: those of its chunks and of their entries. It goes over the
    /// chunks. The number is tested and not proved, since a list doesn't tell its callers how much room it has.
    ///
    ///     Sums::new(Global).bytes() == 0
    pub fn bytes(&self) -> u64 {
        self.chunks.bytes()
    }

    /// Whether a word is there.
    pub fn holds(&self, word: u64) -> bool
        ensures { result ≡ map.contains_key self.now word }
    {
        steps::holds(self.chunks.all(), word)
    }

    /// Takes one from the number of a word that is there, which is 1 or more; with its last one the word goes. It asks
    /// for no memory.
    pub fn lower(&mut self, word: u64)
        requires there { IsSome (map.get self.old word) }
        requires some { 1 ≤ number_at self.old word }
        ensures { self.new ≡ lowered self.old word }
    {
        steps::lower(&mut self.chunks, word)
    }
}
