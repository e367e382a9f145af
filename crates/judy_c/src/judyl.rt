//! The calls of C on maps from words to words.
//!
//! C knows a map by its handle, one word (map.rt); a handle of zeros is the map without keys. Each call answers what
//! the call of `judy_word::JudyL` of the same name does for that map. A call that may have no answer tells it through
//! its last parameter, where it answers true, and leaves that alone where it answers false.

ghost use Rattle.std.specs.Prelude.{◌≡◌, None};
ghost use Rattle.std.specs.FinMap as map;
ghost use Rattle.judy_model.specs.Arrays as array;
ghost use Rattle.judy_model.specs.Counts as counts;
ghost use Rattle.judy_model.specs.Empties as empties;
ghost use Rattle.judy_model.specs.Neighbours as neighbours;
ghost use Rattle.judy_c.specs.Maps.{array_in_map, map_of};
ghost use Rattle.judy_word.specs.WordArrays.{array_of};
ghost use Rattle.judy_c.specs.Puts.{IsMade, IsStored};
ghost use Rattle.judy_c.specs.SlotLends.{LendsSlotOf};
ghost use Rattle.judy_c.specs.Told.{IsTold, lent_where};
ghost use Rattle.std.specs.Borrow.{sem};
ghost use Rattle.std.specs.Option.{option_copied_mut};

use crate::box_parts::BoxParts;
use crate::handles::{Handle, asked};
use crate::map::Map;
use crate::told::{hand_out, tell};
use judy_word::JudyL;
use std::alloc::Global;

/// The value of a key. (Manual: JLG, JudyLGet.)
#[unsafe(no_mangle)]
pub extern "C" fn sellumaq_judyl_get(
    alloc: Global,
    handle: &mut Map,
    key: u64,
    value: &mut u64,
) -> bool
    ensures told { IsTold (map.get (map_of handle.old) key) result value.old value.new }
    ensures same { handle.new ≡ handle.old }
{
    match handle.array() {
        Some(array) => tell(array.get(key), value),
        None => tell(None, value),
    }
}

/// Hands out the slot of a key, which is put in with the value 0 where it is absent: what is left there is the key's
/// value. False where the key is absent and there is no memory for it. (Manual: JLI, JudyLIns.)
#[unsafe(no_mangle)]
pub extern "C" fn sellumaq_judyl_ins<'a>(
    alloc: Global,
    handle: &'a mut Map,
    key: u64,
    slot: &mut &'a mut u64,
) -> bool
    ensures* writes_back { sem 𝓛 (LendsSlotOf handle.entry key (lent_where result slot.new)) }
    ensures value { IsMade (map_of handle.old) key (lent_where result slot.new) }
    ensures told { IsTold (lent_where result slot.new) result slot.old slot.new }
{
    hand_out(handle.ins(alloc, key), slot)
}

/// Gives a key a value: 0 where it was there, 1 where it was absent, 2 where it is absent and there is no memory for
/// it.
#[unsafe(no_mangle)]
pub extern "C" fn sellumaq_judyl_put(alloc: Global, handle: &mut Map, key: u64, value: u64) -> u32
    ensures { IsStored (array_in_map handle.old) key value (handle.new ≡ handle.old) result
        (array_in_map handle.new) }
{
    match handle.array() {
        Some(array) => put_in(array, key, value),
        None => put_first(alloc, handle, key, value),
    }
}

// The same of the map that a handle holds. A function of its own: so a call on a null handle saves no registers for it.
#[inline(never)]
fn put_in(array: &mut JudyL, key: u64, value: u64) -> u32
    ensures { IsStored (array_of array.old) key value (array.new ≡ array.old) result
        (array_of array.new) }
{
    match array.put(key, value) {
        Ok(true) => 1,
        Ok(false) => 0,
        Err(_) => 2,
    }
}

// The same where the handle is null: the map is made with its first key, without a look at what stands there.
#[inline(never)]
fn put_first(alloc: Global, handle: &mut Map, key: u64, value: u64) -> u32
    requires { handle.old.array ≡ None }
    ensures { IsStored (array_in_map handle.old) key value (handle.new ≡ handle.old) result
        (array_in_map handle.new) }
{
    match Box::new(alloc, JudyL::of_one(alloc, key, value)) {
        Ok(array) => {
            handle.fill(BoxParts::of(array));
            1
        }
        Err(_) => 2,
    }
}

/// Hands out the slot of a key: what is left there is the key's value. (Manual: JLG, JudyLGet.)
#[unsafe(no_mangle)]
pub extern "C" fn sellumaq_judyl_slot<'a>(
    handle: &'a mut Map,
    key: u64,
    slot: &mut &'a mut u64,
) -> bool
    ensures* writes_back { sem 𝓛 (LendsSlotOf handle.entry key (lent_where result slot.new)) }
    ensures value { option_copied_mut (lent_where result slot.new)
        ≡ map.get (map_of handle.old) key }
    ensures told { IsTold (lent_where result slot.new) result slot.old slot.new }
{
    hand_out(handle.slot(key), slot)
}

/// Takes a key out with its value, and answers whether it was there. It can't fail. (Manual: JLD, JudyLDel.)
#[unsafe(no_mangle)]
pub extern "C" fn sellumaq_judyl_del(alloc: Global, handle: &mut Map, key: u64) -> bool
    ensures answer { result ≡ map.contains_key (map_of handle.old) key }
    ensures deleted { array_in_map handle.new
        ≡ array.with_map (array_in_map handle.old) (array.del (map_of handle.old) key) }
{
    match handle.array() {
        Some(array) => array.del(key),
        None => false,
    }
}

/// The least key from a word on. (Manual: JLF, JudyLFirst.)
#[unsafe(no_mangle)]
pub extern "C" fn sellumaq_judyl_first(
    alloc: Global,
    handle: &mut Map,
    from: u64,
    key: &mut u64,
) -> bool
    ensures told { IsTold (neighbours.first (map_of handle.old) from) result key.old key.new }
    ensures same { handle.new ≡ handle.old }
{
    asked!(handle, alloc, JudyL, array => tell(array.first(from), key))
}

/// The least key above a word. (Manual: JLN, JudyLNext.)
#[unsafe(no_mangle)]
pub extern "C" fn sellumaq_judyl_next(
    alloc: Global,
    handle: &mut Map,
    from: u64,
    key: &mut u64,
) -> bool
    ensures told { IsTold (neighbours.next (map_of handle.old) from) result key.old key.new }
    ensures same { handle.new ≡ handle.old }
{
    asked!(handle, alloc, JudyL, array => tell(array.next(from), key))
}

/// The greatest key up to a word. (Manual: JLL, JudyLLast.)
#[unsafe(no_mangle)]
pub extern "C" fn sellumaq_judyl_last(
    alloc: Global,
    handle: &mut Map,
    from: u64,
    key: &mut u64,
) -> bool
    ensures told { IsTold (neighbours.last (map_of handle.old) from) result key.old key.new }
    ensures same { handle.new ≡ handle.old }
{
    tell(handle.ask(alloc, |array| array.last(from)), key)
}

/// The greatest key below a word. (Manual: JLP, JudyLPrev.)
#[unsafe(no_mangle)]
pub extern "C" fn sellumaq_judyl_prev(
    alloc: Global,
    handle: &mut Map,
    from: u64,
    key: &mut u64,
) -> bool
    ensures told { IsTold (neighbours.prev (map_of handle.old) from) result key.old key.new }
    ensures same { handle.new ≡ handle.old }
{
    tell(handle.ask(alloc, |array| array.prev(from)), key)
}

/// The least word from one on that is no key. (Manual: JLFE, JudyLFirstEmpty.)
#[unsafe(no_mangle)]
pub extern "C" fn sellumaq_judyl_first_empty(
    alloc: Global,
    handle: &mut Map,
    from: u64,
    word: &mut u64,
) -> bool
    ensures told { IsTold (empties.first_empty (map_of handle.old) from) result word.old word.new }
    ensures same { handle.new ≡ handle.old }
{
    tell(handle.ask(alloc, |array| array.first_empty(from)), word)
}

/// The least word above one that is no key. (Manual: JLNE, JudyLNextEmpty.)
#[unsafe(no_mangle)]
pub extern "C" fn sellumaq_judyl_next_empty(
    alloc: Global,
    handle: &mut Map,
    from: u64,
    word: &mut u64,
) -> bool
    ensures told { IsTold (empties.next_empty (map_of handle.old) from) result word.old word.new }
    ensures same { handle.new ≡ handle.old }
{
    tell(handle.ask(alloc, |array| array.next_empty(from)), word)
}

/// The greatest word up to one that is no key. (Manual: JLLE, JudyLLastEmpty.)
#[unsafe(no_mangle)]
pub extern "C" fn sellumaq_judyl_last_empty(
    alloc: Global,
    handle: &mut Map,
    from: u64,
    word: &mut u64,
) -> bool
    ensures told { IsTold (empties.last_empty (map_of handle.old) from) result word.old word.new }
    ensures same { handle.new ≡ handle.old }
{
    tell(handle.ask(alloc, |array| array.last_empty(from)), word)
}

/// The greatest word below one that is no key. (Manual: JLPE, JudyLPrevEmpty.)
#[unsafe(no_mangle)]
pub extern "C" fn sellumaq_judyl_prev_empty(
    alloc: Global,
    handle: &mut Map,
    from: u64,
    word: &mut u64,
) -> bool
    ensures told { IsTold (empties.prev_empty (map_of handle.old) from) result word.old word.new }
    ensures same { handle.new ≡ handle.old }
{
    tell(handle.ask(alloc, |array| array.prev_empty(from)), word)
}

/// How many keys there are.
#[unsafe(no_mangle)]
pub extern "C" fn sellumaq_judyl_len(alloc: Global, handle: &mut Map) -> u64
    ensures count { result ≡ map.len (map_of handle.old) }
    ensures same { handle.new ≡ handle.old }
{
    handle.ask(alloc, |array| array.len())
}

/// How many keys there are from one word to another, both included; 0 where the first is above the second. (Manual:
/// JLC, JudyLCount.)
#[unsafe(no_mangle)]
pub extern "C" fn sellumaq_judyl_count(alloc: Global, handle: &mut Map, from: u64, to: u64) -> u64
    ensures count { result ≡ counts.count (map_of handle.old) from to }
    ensures same { handle.new ≡ handle.old }
{
    handle.ask(alloc, |array| array.count(from, to))
}

/// The n-th key in ascending order, counted from 1. (Manual: JLBC, JudyLByCount.)
#[unsafe(no_mangle)]
pub extern "C" fn sellumaq_judyl_by_count(
    alloc: Global,
    handle: &mut Map,
    n: u64,
    key: &mut u64,
) -> bool
    ensures told { IsTold (counts.by_count (map_of handle.old) n) result key.old key.new }
    ensures same { handle.new ≡ handle.old }
{
    tell(handle.ask(alloc, |array| array.by_count(n)), key)
}

/// Takes every key out, gives all memory back, and answers how many keys there were. (Manual: JLFA, JudyLFreeArray,
/// which answers the bytes freed.)
#[unsafe(no_mangle)]
pub extern "C" fn sellumaq_judyl_free(alloc: Global, handle: &mut Map) -> u64
    ensures freed { result ≡ map.len (map_of handle.old) }
    ensures emptied { handle.new.array ≡ None }
{
    let count = sellumaq_judyl_len(alloc, handle);
    handle.release(alloc);
    count
}
