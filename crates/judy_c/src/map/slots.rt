// The slots of a map handle.
ghost use Rattle.std.specs.Prelude.{◌≡◌, unwrap_or, option_and_then};
ghost use Rattle.std.specs.Borrow.{sem};
ghost use Rattle.std.specs.FinMap as map;
ghost use Rattle.std.specs.Option.{option_copied_mut};
ghost use Rattle.judy_model.specs.Counts as counts;
ghost use Rattle.judy_model.specs.Neighbours as neighbours;
ghost use Rattle.judy_c.specs.Maps.{map_of};
ghost use Rattle.judy_c.specs.Puts.{IsMade};
ghost use Rattle.judy_c.specs.SlotLends.{LendsSlotOf};

use super::Map;
use crate::handles::{Handle, slot_in};
use std::alloc::Global;

impl Map {
    // The slot of a key, and `None` where it is absent.
    pub(crate) fn slot(&mut self, key: u64) -> Option<&mut u64>
        ensures* writes_back { sem 𝓛 (LendsSlotOf self.entry key result) }
        ensures value { option_copied_mut result ≡ map.get (map_of self.old) key }
    {
        slot_in!(self, slot(key))
    }

    // The slot of a key, which is put in with the value 0 where it is absent, and `None` where there is no memory for
    // that.
    pub(crate) fn ins(&mut self, alloc: Global, key: u64) -> Option<&mut u64>
        ensures* writes_back { sem 𝓛 (LendsSlotOf self.entry key result) }
        ensures value { IsMade (map_of self.old) key result }
    {
        match self.array_or_new(alloc) {
            Ok(array) => match array.ins(key) {
                Ok(slot) => Some(slot),
                Err(_) => None,
            },
            Err(_) => None,
        }
    }

    // The slot of the least key from a word on, which is told; `None` where there is none.
    pub(crate) fn first_slot(&mut self, from: u64, key: &mut u64) -> Option<&mut u64>
        ensures* writes_back { sem 𝓛 (LendsSlotOf self.entry key.new result) }
        ensures key { key.new ≡ unwrap_or (neighbours.first (map_of self.old) from) key.old }
        ensures value { option_copied_mut result
            ≡ option_and_then (map.get (map_of self.old))
            (neighbours.first (map_of self.old) from) }
    {
        slot_in!(self, first_slot(from, key))
    }

    // The slot of the least key above a word, which is told; `None` where there is none.
    pub(crate) fn next_slot(&mut self, from: u64, key: &mut u64) -> Option<&mut u64>
        ensures* writes_back { sem 𝓛 (LendsSlotOf self.entry key.new result) }
        ensures key { key.new ≡ unwrap_or (neighbours.next (map_of self.old) from) key.old }
        ensures value { option_copied_mut result
            ≡ option_and_then (map.get (map_of self.old)) (neighbours.next (map_of self.old) from) }
    {
        slot_in!(self, next_slot(from, key))
    }

    // The slot of the greatest key up to a word, which is told; `None` where there is none.
    pub(crate) fn last_slot(&mut self, from: u64, key: &mut u64) -> Option<&mut u64>
        ensures* writes_back { sem 𝓛 (LendsSlotOf self.entry key.new result) }
        ensures key { key.new ≡ unwrap_or (neighbours.last (map_of self.old) from) key.old }
        ensures value { option_copied_mut result
            ≡ option_and_then (map.get (map_of self.old)) (neighbours.last (map_of self.old) from) }
    {
        slot_in!(self, last_slot(from, key))
    }

    // The slot of the greatest key below a word, which is told; `None` where there is none.
    pub(crate) fn prev_slot(&mut self, from: u64, key: &mut u64) -> Option<&mut u64>
        ensures* writes_back { sem 𝓛 (LendsSlotOf self.entry key.new result) }
        ensures key { key.new ≡ unwrap_or (neighbours.prev (map_of self.old) from) key.old }
        ensures value { option_copied_mut result
            ≡ option_and_then (map.get (map_of self.old)) (neighbours.prev (map_of self.old) from) }
    {
        slot_in!(self, prev_slot(from, key))
    }

    // The slot of the n-th key, which is told; `None` where there is none.
    pub(crate) fn by_count_slot(&mut self, n: u64, key: &mut u64) -> Option<&mut u64>
        ensures* writes_back { sem 𝓛 (LendsSlotOf self.entry key.new result) }
        ensures key { key.new ≡ unwrap_or (counts.by_count (map_of self.old) n) key.old }
        ensures value { option_copied_mut result
            ≡ option_and_then (map.get (map_of self.old)) (counts.by_count (map_of self.old) n) }
    {
        slot_in!(self, by_count_slot(n, key))
    }
}
