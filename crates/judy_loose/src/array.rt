//! The arrays that the rows are played on: a set or a map of words, by the same calls.

ghost use Rattle.std.specs.Prelude.{◌≡◌, OnOk, OnErr};
ghost use Rattle.judy_model.specs.Arrays as array;
ghost use Rattle.judy_word.specs.WordArrays.{array_of};
ghost use Rattle.judy_loose.specs.Played.{seen, value_of, with_key};

use judy_node::Shape;
use judy_word::{InsertError, Judy1, JudyL};
use std::alloc::AllocError;

/// An array of words.
#[derive(Drop)]
pub enum PlayedArray {
    /// A set.
    Set(Judy1),
    /// A map, in which each key has a value of its own.
    Map(JudyL),
}

// A call that both kinds have alike.
macro_rules! of_either {
    ($array:expr, $words:ident => $call:expr) => {
        match $array {
            PlayedArray::Set($words) => $call,
            PlayedArray::Map($words) => $call,
        }
    };
}

// The value that a key gets in a map.
fn value_of(word: u64) -> u64
    ensures { result ≡ value_of word }
{
    u64::MAX - word
}

impl PlayedArray {
    /// Puts a key in, and answers whether it was absent.
    pub fn put(&mut self, word: u64) -> Result<bool, InsertError>
        ensures put { OnOk result
            (array_of (seen self.new)
            ≡ array.with_map (array_of (seen self.old)) (with_key self.old word)) }
        ensures unchanged { OnErr result (self.new ≡ self.old) }
    {
        match self {
            PlayedArray::Set(set) => set.set(word),
            PlayedArray::Map(words) => words.put(word, value_of(word)),
        }
    }

    /// Takes a key out, and answers whether it was there.
    pub fn take(&mut self, word: u64) -> bool
        ensures { array_of (seen self.new)
            ≡ array.with_map (array_of (seen self.old)) (array.del (seen self.old).map word) }
    {
        match self {
            PlayedArray::Set(set) => set.unset(word),
            PlayedArray::Map(words) => words.del(word),
        }
    }

    /// Makes the nodes tight; the keys stay.
    pub fn tidy(&mut self) -> Result<(), AllocError>
        ensures { array_of (seen self.new) ≡ array_of (seen self.old) }
    {
        of_either!(self, words => words.tidy())
    }

    /// The number of nodes of each kind.
    pub fn shape(&self) -> Shape {
        of_either!(self, words => words.shape())
    }

    /// Whether a node may be larger than its keys need.
    pub fn is_loose(&self) -> bool {
        of_either!(self, words => words.is_loose())
    }

    /// How many keys there are.
    pub fn len(&self) -> u64 {
        of_either!(self, words => words.len())
    }

    /// Whether a key is there.
    pub fn has(&self, word: u64) -> bool {
        match self {
            PlayedArray::Set(set) => set.test(word),
            PlayedArray::Map(words) => words.get(word).is_some(),
        }
    }

    /// How many keys are up to a word.
    pub fn count_up_to(&self, word: u64) -> u64 {
        of_either!(self, words => words.count(0, word))
    }

    /// The n-th key, counted from 1.
    pub fn by_count(&self, n: u64) -> Option<u64> {
        of_either!(self, words => words.by_count(n))
    }

    /// The keys nearest to a word: the first from it on, the first above it, the last up to it, and the last below it.
    /// Then the words nearest to it that are no keys, in the same order.
    pub fn near(&self, word: u64) -> [Option<u64>; 8] {
        of_either!(self, words => [
            words.first(word),
            words.next(word),
            words.last(word),
            words.prev(word),
            words.first_empty(word),
            words.next_empty(word),
            words.last_empty(word),
            words.prev_empty(word),
        ])
    }
}
