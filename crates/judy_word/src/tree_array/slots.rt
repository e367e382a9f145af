//! Slots: where a value is read and written.

ghost use Rattle.std.specs.Prelude.{◌≡◌, Some, IsTrue};
ghost use Rattle.std.specs.FinMap as map;
ghost use Rattle.std.specs.Option.{option_copied_mut};
ghost use Rattle.judy_word.specs.Held.{map_in, IsHeld};

use crate::tree_array::TreeArray;
use judy_leaf::Words;

impl<V: Words + Drop> TreeArray<V> {
    ghost use Rattle.std.specs.Borrow.{sem, Lends, LendsIf, u64 as word};
    ghost use Rattle.judy_word.specs.Held.{with_value};
    ghost use Rattle.judy_word.specs.contracts.tree_array.TreeArray.{the_row};

    /// Lends the value of a key, of an array whose keys have values; `None` where the key is absent. The array becomes
    /// the one with the value that is left in the slot, and nothing else changes, its nodes neither. It tells what the
    /// array keeps, as `told`.
    // The way down is one call, whatever stands in front of it: a look at the root is compiled into its callers.
    #[inline(always)]
    pub fn slot(&mut self, key: u64) -> Option<&mut u64>
        requires words { V.WORDS ≡ 1 }
        ensures* changes { sem 𝓛
            (LendsIf (the_row V.row V.Words) word self.entry result
            (with_value self.entry.now key) self.entry.now) }
        ensures value { option_copied_mut result ≡ map.get (map_in self.old) key }
        ensures held { IsHeld V.WORDS self.old }
    {
        self.root.law();
        self.root.slot(key)
    }

    // Lends the value of a key that is there, and tells the same.
    #[inline(always)]
    pub(crate) fn slot_of(&mut self, key: u64) -> &mut u64
        requires words { V.WORDS ≡ 1 }
        requires present { IsTrue (map.contains_key (map_in self.old) key) }
        ensures* changes { sem 𝓛
            (Lends (the_row V.row V.Words) word self.entry result (with_value self.entry.now key)) }
        ensures value { Some result.now ≡ map.get (map_in self.old) key }
        ensures held { IsHeld V.WORDS self.old }
    {
        self.root.law();
        self.root.slot_of(key)
    }
}
