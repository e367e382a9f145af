//! A word of a list with its number.

ghost use Rattle.std.specs.Prelude.{◌≡◌, ◌==◌, ◌<◌, ◌≤◌, ◌+◌, ◌-◌, ◌^◌, nat_lt};

use std::marker::Model;

// To contracts it is the pair of both.
#[derive(Drop)]
pub struct Entry {
    word: u64,
    number: u64,
}

impl Model for Entry {
    ghost use Rattle.std.specs.Prelude.{ℕ};

    ghost Value = { ℕ × ℕ };

    ghost view = { λ entry. (entry.word, entry.number) };
}

impl Entry {
    // A word with a number.
    pub fn new(word: u64, number: u64) -> Entry
        ensures { result ≡ (word, number) }
    {
        Entry { word, number }
    }

    // Its word.
    pub fn word(&self) -> u64
        ensures { result ≡ self.now.0 }
    {
        self.word
    }

    // Its number.
    pub fn number(&self) -> u64
        ensures { result ≡ self.now.1 }
    {
        self.number
    }

    // Whether its word is less than another.
    pub fn is_below(&self, word: u64) -> bool
        ensures { result ≡ nat_lt self.now.0 word }
    {
        self.word < word
    }

    // Whether it is that one.
    pub fn is(&self, word: u64) -> bool
        ensures { result ≡ (self.now.0 == word) }
    {
        self.word == word
    }

    // Adds one to its number.
    pub fn raise(&mut self)
        requires { self.old.1 + 1 < 2 ^ 64 }
        ensures { self.new ≡ (self.old.0, self.old.1 + 1) }
    {
        self.number += 1;
    }

    // Takes one from its number.
    pub fn lower(&mut self)
        requires { 1 ≤ self.old.1 }
        ensures { self.new ≡ (self.old.0, self.old.1 - 1) }
    {
        self.number -= 1;
    }
}
