//! Long keys of one length and one hash, with their values, in the order of their bytes.

ghost use Rattle.std.specs.Prelude.{◌≡◌, ◌++◌, [], ◌↔◌, IsTrue, OnOk, OnErr, ◌∷◌, MatchOption};
ghost use Rattle.std.specs.Borrow.{sem};
ghost use Rattle.std.specs.Option.{option_copied_mut};
ghost use Rattle.judy_hs.specs.Chains.{value_in, with_pair, without};
ghost use Rattle.judy_hs.specs.Listed.{entries_in};
ghost use Rattle.judy_hs.specs.Values.{AreWords};
ghost use Rattle.judy_model.specs.Keys.{IsWord};

mod memory;

use crate::entry::{HsEntry, HsKey};
pub use memory::tree_bytes;
use std::alloc::{AllocError, Global};
use std::collections::BTreeMap;
use std::marker::Model;

// Keys that differ, each with its value, in the order of their bytes: each call takes the logarithm of their number. In
// contracts it is the list of these pairs.
#[derive(Drop)]
pub struct Chain {
    entries: BTreeMap<Vec<u8>, u64>,
}

impl Model for Chain {
    ghost use Rattle.std.specs.Prelude.{List, ℕ};

    ghost Value = { List (List ℕ × ℕ) };

    ghost use Rattle.judy_hs.specs.ChainEntries.{pairs_of};

    ghost view = { λ chain. pairs_of chain.entries.entries };
}

impl Chain {
    ghost use Rattle.judy_hs.specs.ChainLends.{LendsValue};

    // The chain of no keys. No memory is asked for.
    pub fn new(alloc: Global) -> Chain
        ensures { result ≡ [] }
    {
        Chain {
            entries: BTreeMap::new(alloc),
        }
    }

    // Puts a key in with its value.
    pub fn put(&mut self, alloc: Global, key: &[u8], value: u64) -> Result<(), AllocError>
        ensures added { OnOk result (self.new ≡ with_pair self.old key.now value) }
        ensures unchanged { OnErr result (self.new ≡ self.old) }
    {
        self.entries.insert(key.to_vec(alloc)?, value)?;
        Ok(())
    }

    // The value of a key.
    pub fn get(&self, key: &[u8]) -> Option<u64>
        ensures { result ≡ value_in self.now key.now }
    {
        self.entries.get(key).copied()
    }

    // The slot of the value of a key.
    pub fn slot(&mut self, key: &[u8]) -> Option<&mut u64>
        ensures* writes_back { sem 𝓛 (LendsValue self.entry key.now result) }
        ensures value { option_copied_mut result ≡ value_in self.old key.now }
    {
        self.entries.get_mut(key)
    }

    // Takes a key out.
    pub fn remove(&mut self, key: &[u8])
        ensures { self.new ≡ without self.old key.now }
    {
        self.entries.remove(key);
    }

    // Takes the first key with its value out, where there is one.
    pub fn take_first(&mut self) -> Option<(Vec<u8>, u64)>
        ensures { MatchOption result ((self.old ≡ []) × (self.new ≡ []))
            (λ first. self.old ≡ (first.0.items, first.1) ∷ self.new) }
    {
        self.entries.pop_first()
    }

    // Whether no key is left.
    pub fn is_empty(&self) -> bool
        ensures { IsTrue result ↔ (self.now ≡ []) }
    {
        self.entries.is_empty()
    }

    // Adds its keys with their values to a list.
    pub fn list<'a>(&'a self, list: &mut Vec<HsEntry<'a>>) -> Result<(), AllocError>
        ensures { OnOk result (entries_in list.new.items ≡ entries_in list.old.items ++ self.now) }
    {
        'entries: for (key, value) in &self.entries {
            list.push(HsEntry {
                key: HsKey::Long(key.as_slice()),
                value: *value,
            })?;
        }
        Ok(())
    }

    // That its values are words.
    pub fn words_law(&self)
        ensures { AreWords (value_in self.now) }
    {
        'entries: for (_, value) in &self.entries {
            word_law(*value);
        }
    }
}

// A number of 64 bits is a word.
pub fn word_law(_value: u64)
    ensures { IsWord _value }
{}
