//! The nearest keys, and the n-th, with the slots of their values.

ghost use Rattle.std.specs.Prelude.{◌≡◌, Some, IfSome, unwrap_or, option_and_then};
ghost use Rattle.std.specs.Borrow.{sem};
ghost use Rattle.std.specs.FinMap as map;
ghost use Rattle.std.specs.Option.{option_copied_mut, option_map};
ghost use Rattle.judy_model.specs.Counts as counts;
ghost use Rattle.judy_model.specs.Neighbours as neighbours;
ghost use Rattle.judy_word.specs.Slots.{LendsSlot};

use crate::word_array::JudyL;

// The slot of the key that a search finds; `$key` becomes that key, and stays where none is found.
macro_rules! slot_found {
    ($array:ident, $search:ident($from:ident), $key:ident) => {{
        let found = $array.$search($from);
        $array.slot_beside(found, $key)
    }};
}

impl JudyL {
    /// The slot of the least key from `i` on; `key` becomes that key. `None` where no key is left, and then `key`
    /// stays. What the caller leaves in the slot is then that key's value. (Manual: JLF, JudyLFirst, which gives both.)
    pub fn first_slot(&mut self, i: u64, key: &mut u64) -> Option<&mut u64>
        ensures* writes_back { sem 𝓛 (LendsSlot self.entry key.new result) }
        ensures key { key.new ≡ unwrap_or (neighbours.first self.old.map i) key.old }
        ensures value { option_copied_mut result
            ≡ option_and_then (map.get self.old.map) (neighbours.first self.old.map i) }
    {
        slot_found!(self, first_entry(i), key)
    }

    /// The slot of the least key above `i`; `key` becomes that key. `None` where no key is above it, and then `key`
    /// stays. What the caller leaves in the slot is then that key's value. (Manual: JLN, JudyLNext, which gives both.)
    pub fn next_slot(&mut self, i: u64, key: &mut u64) -> Option<&mut u64>
        ensures* writes_back { sem 𝓛 (LendsSlot self.entry key.new result) }
        ensures key { key.new ≡ unwrap_or (neighbours.next self.old.map i) key.old }
        ensures value { option_copied_mut result
            ≡ option_and_then (map.get self.old.map) (neighbours.next self.old.map i) }
    {
        slot_found!(self, next_entry(i), key)
    }

    /// The slot of the greatest key up to `i`; `key` becomes that key. `None` where each key is above it, and then
    /// `key` stays. What the caller leaves in the slot is then that key's value. (Manual: JLL, JudyLLast, which gives
    /// both.)
    pub fn last_slot(&mut self, i: u64, key: &mut u64) -> Option<&mut u64>
        ensures* writes_back { sem 𝓛 (LendsSlot self.entry key.new result) }
        ensures key { key.new ≡ unwrap_or (neighbours.last self.old.map i) key.old }
        ensures value { option_copied_mut result
            ≡ option_and_then (map.get self.old.map) (neighbours.last self.old.map i) }
    {
        slot_found!(self, last_entry(i), key)
    }

    /// The slot of the greatest key below `i`; `key` becomes that key. `None` where no key is below it, and then `key`
    /// stays. What the caller leaves in the slot is then that key's value. (Manual: JLP, JudyLPrev, which gives both.)
    pub fn prev_slot(&mut self, i: u64, key: &mut u64) -> Option<&mut u64>
        ensures* writes_back { sem 𝓛 (LendsSlot self.entry key.new result) }
        ensures key { key.new ≡ unwrap_or (neighbours.prev self.old.map i) key.old }
        ensures value { option_copied_mut result
            ≡ option_and_then (map.get self.old.map) (neighbours.prev self.old.map i) }
    {
        slot_found!(self, prev_entry(i), key)
    }

    /// The slot of the `n`-th key in ascending order, counted from 1; `key` becomes that key. `None` for 0 and above
    /// the number of keys, and then `key` stays. What the caller leaves in the slot is then that key's value. (Manual:
    /// JLBC, JudyLByCount, which gives both.)
    pub fn by_count_slot(&mut self, n: u64, key: &mut u64) -> Option<&mut u64>
        ensures* writes_back { sem 𝓛 (LendsSlot self.entry key.new result) }
        ensures key { key.new ≡ unwrap_or (counts.by_count self.old.map n) key.old }
        ensures value { option_copied_mut result
            ≡ option_and_then (map.get self.old.map) (counts.by_count self.old.map n) }
    {
        slot_found!(self, by_count_entry(n), key)
    }

    // The slot of a key that was found with its value; `key` becomes that key, and stays where none was found.
    #[inline(always)]
    fn slot_beside(&mut self, found: Option<(u64, u64)>, key: &mut u64) -> Option<&mut u64>
        requires there { IfSome found (λ entry. map.get self.old.map entry.0 ≡ Some entry.1) }
        ensures* writes_back { sem 𝓛 (LendsSlot self.entry key.new result) }
        ensures key { key.new ≡ unwrap_or (option_map (λ entry. entry.0) found) key.old }
        ensures value { option_copied_mut result ≡ option_map (λ entry. entry.1) found }
    {
        match found {
            Some((at, _)) => {
                *key = at;
                Some(self.slot_of(at))
            }
            None => None,
        }
    }
}
