//! What every array keeps, whatever was left in its slots: it is read from key to key, by its calls alone.

ghost use Rattle.judy_model.specs.Arrays as array;
ghost use Rattle.judy_model.specs.Keys.{IsWord};
ghost use Rattle.judy_word.specs.Held.{array_in};

use crate::tree_array::TreeArray;
use judy_leaf::Words;

impl<V: Words + Drop> TreeArray<V> {
    /// A law of every array: it is one of words to words. It reads each key and value.
    pub fn array_law(&self)
        ensures { array.IsArrayOf IsWord (array_in self.now) }
    {
        words_law(self.len(), self.limit());
        let mut found = self.first_entry(0);
        'keys: while let Some((key, value)) = found {
            words_law(key, value);
            found = self.next_entry(key);
        }
    }
}

// Two numbers of 64 bits are words.
fn words_law(_one: u64, _other: u64)
    ensures { IsWord _one × IsWord _other }
{}
