//! The nearest words that are no keys.

ghost use Rattle.std.specs.Prelude.{◌≡◌};
ghost use Rattle.judy_model.specs.Empties as empties;
ghost use Rattle.judy_word.specs.Held.{map_in};

use crate::tree_array::TreeArray;
use judy_bits::Meter;
use judy_leaf::Words;
use judy_query::{Side, nearest_empty};
use judy_unmetered::UNMETERED;

impl<V: Words + Drop> TreeArray<V> {
    /// The least word that is no key and isn't below a word; `None` where each word from there on is a key.
    pub fn first_empty(&self, from: u64) -> Option<u64>
        ensures { result ≡ empties.first_empty (map_in self.now) from }
    {
        nearest_empty(Side::Up, &self.root, from, &mut Meter::new(UNMETERED))
    }

    /// The least word above it that is no key; `None` where there is none.
    pub fn next_empty(&self, from: u64) -> Option<u64>
        ensures { result ≡ empties.next_empty (map_in self.now) from }
    {
        if from == u64::MAX {
            None
        } else {
            self.first_empty(from + 1)
        }
    }

    /// The greatest word that is no key and isn't above it; `None` where each word up to it is a key.
    pub fn last_empty(&self, from: u64) -> Option<u64>
        ensures { result ≡ empties.last_empty (map_in self.now) from }
    {
        nearest_empty(Side::Down, &self.root, from, &mut Meter::new(UNMETERED))
    }

    /// The greatest word below it that is no key; `None` where there is none.
    pub fn prev_empty(&self, from: u64) -> Option<u64>
        ensures { result ≡ empties.prev_empty (map_in self.now) from }
    {
        if from == 0 {
            None
        } else {
            self.last_empty(from - 1)
        }
    }
}
