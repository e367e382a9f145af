//! Keys put in and taken out with the value that was there, each in one way down the tree.

ghost use Rattle.std.specs.Prelude.{◌≡◌, ◌≤◌, true, false, None, OnOk, OnErr, IfOk, IfErr, IfSome, IsOk, IsFalse};
ghost use Rattle.std.specs.FinMap as map;
ghost use Rattle.judy_model.specs.Arrays as array;
ghost use Rattle.judy_change.specs.Removals.{Has33};
ghost use Rattle.judy_word.specs.Held.{map_in, array_in, with_value};
ghost use Rattle.judy_word.specs.Refusals.{IsRefusal};

use crate::error::InsertError;
use crate::tree_array::TreeArray;
use crate::tree_array::changes::put_by;
use judy_change::{exchange, remove};
use judy_leaf::Words;

impl<V: Words + Drop> TreeArray<V> {
    /// Gives a key a value, in an array whose keys have values, and answers the value that was there; `None` where the
    /// key was absent, and was put in. Where it was there, the nodes stay. Refused as `set` is, and then the array is
    /// as it was; never where the key is there.
    // Compiled into its callers: the answer doesn't go through memory then.
    #[inline(always)]
    pub fn insert(&mut self, key: u64, value: u64) -> Result<Option<u64>, InsertError>
        requires words { V.WORDS ≡ 1 }
        ensures answer { IfOk result (λ was. was ≡ map.get (map_in self.old) key) }
        ensures put { OnOk result
            (array_in self.new ≡ array.with_map (array_in self.old)
            (array.write (map_in self.old) key value)) }
        ensures present { IfOk result
            (λ was. IfSome was (λ _. self.new ≡ with_value self.old key value)) }
        ensures accepted { OnOk result (IsFalse (array.is_full (array_in self.old) key)) }
        ensures refused { IfErr result (IsRefusal (array_in self.old) key) }
        ensures unchanged { OnErr result (self.new ≡ self.old) }
        ensures loose { self.new.loose ≡ self.old.loose }
        ensures first { map_in self.old ≡ map.empty → IsOk result }
    {
        put_by!(self, was, exchange, key, value)
    }

    /// Takes a key out, and answers its value, 0 where keys have no values; `None` where it was absent. It can't fail.
    /// The array becomes loose only where memory for a smaller node was refused, and so only where a node on the key's
    /// way held 33 keys.
    pub fn take(&mut self, key: u64) -> Option<u64>
        requires one { V.WORDS ≤ 1 }
        ensures answer { result ≡ map.get (map_in self.old) key }
        ensures removed { array_in self.new
            ≡ array.with_map (array_in self.old) (array.del (map_in self.old) key) }
        ensures absent { result ≡ None → self.new ≡ self.old }
        ensures loose { self.old.loose ≡ true → self.new.loose ≡ true }
        ensures loosened { self.old.loose ≡ false → self.new.loose ≡ true
            → Has33 8 self.old.tree.pairs key }
    {
        self.root.law();
        let removed = remove(self.alloc, &mut self.root, key);
        self.loose |= !removed.shrunk;
        if removed.was {
            return Some(removed.value);
        }
        None
    }
}
