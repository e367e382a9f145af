//! Keys of a range taken out.

ghost use Rattle.std.specs.Prelude.{◌≡◌, ◌+◌, ◌≤◌, false};
ghost use Rattle.std.specs.FinMap as map;
ghost use Rattle.judy_model.specs.Ranges as ranges;
ghost use Rattle.judy_word.specs.Held.{map_in};

use crate::tree_array::TreeArray;
use judy_change::{Span, remove_around};
use judy_leaf::Words;

impl<V: Words + Drop> TreeArray<V> {
    /// Takes a key of a range out, and with it other keys of the range: all of a node of the tree with that key, where
    /// the node has none but keys of the range. It answers how many went, and can't fail. The array becomes loose only
    /// where memory for a smaller node was refused.
    pub fn remove_within(&mut self, key: u64, from: u64, to: u64) -> u64
        requires one { V.WORDS ≤ 1 }
        requires low { from ≤ key }
        requires high { key ≤ to }
        ensures limit { self.new.limit ≡ self.old.limit }
        ensures outside { ranges.outside (map_in self.new) from to
            ≡ ranges.outside (map_in self.old) from to }
        ensures count { map.len (map_in self.new) + result ≡ map.len (map_in self.old) }
        ensures some { result ≡ 0 → map.contains_key (map_in self.old) key ≡ false }
    {
        self.root.law();
        let span = Span {
            key,
            before: key - from,
            after: to - key,
        };
        let cleared = remove_around(self.alloc, &mut self.root, span);
        self.loose |= !cleared.shrunk;
        self.root.law();
        cleared.count
    }
}
