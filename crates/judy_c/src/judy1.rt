//! The calls of C on sets of words.
//!
//! C knows a set by its handle, one word (map.rt); a handle of zeros is the set without keys. Each call answers what
//! the call of `judy_word::Judy1` of the same name does for that set. A call that may have no answer tells it through
//! its last parameter, where it answers true, and leaves that alone where it answers false.

ghost use Rattle.std.specs.Prelude.{◌≡◌, None};
ghost use Rattle.std.specs.FinMap as map;
ghost use Rattle.judy_model.specs.Arrays as array;
ghost use Rattle.judy_model.specs.Counts as counts;
ghost use Rattle.judy_model.specs.Empties as empties;
ghost use Rattle.judy_model.specs.Neighbours as neighbours;
ghost use Rattle.judy_c.specs.Maps.{array_in_set, set_of};
ghost use Rattle.judy_word.specs.WordArrays.{array_of};
ghost use Rattle.judy_c.specs.Puts.{IsPut};
ghost use Rattle.judy_c.specs.Told.{IsTold};

use crate::box_parts::BoxParts;
use crate::handles::{Handle, asked};
use crate::set::Set;
use crate::told::tell;
use judy_word::Judy1;
use std::alloc::Global;

/// Puts a key in: 0 where it was there, 1 where it was absent, 2 where it is absent and there is no memory for it.
/// (Manual: J1S, Judy1Set.)
#[unsafe(no_mangle)]
pub extern "C" fn sellumaq_judy1_set(alloc: Global, handle: &mut Set, key: u64) -> u32
    ensures { IsPut (array_in_set handle.old) key (handle.new ≡ handle.old) result
        (array_in_set handle.new) }
{
    match handle.array() {
        Some(array) => set_in(array, key),
        None => set_first(alloc, handle, key),
    }
}

// The same of the set that a handle holds. A function of its own: so a call on a null handle saves no registers for it.
#[inline(never)]
fn set_in(array: &mut Judy1, key: u64) -> u32
    ensures { IsPut (array_of array.old) key (array.new ≡ array.old) result (array_of array.new) }
{
    match array.set(key) {
        Ok(true) => 1,
        Ok(false) => 0,
        Err(_) => 2,
    }
}

// The same where the handle is null: the set is made with its first key, without a look at what stands there.
#[inline(never)]
fn set_first(alloc: Global, handle: &mut Set, key: u64) -> u32
    requires { handle.old.array ≡ None }
    ensures { IsPut (array_in_set handle.old) key (handle.new ≡ handle.old) result
        (array_in_set handle.new) }
{
    match Box::new(alloc, Judy1::of_one(alloc, key)) {
        Ok(array) => {
            handle.fill(BoxParts::of(array));
            1
        }
        Err(_) => 2,
    }
}

/// Whether a key is there. (Manual: J1T, Judy1Test.)
#[unsafe(no_mangle)]
pub extern "C" fn sellumaq_judy1_test(alloc: Global, handle: &mut Set, key: u64) -> bool
    ensures answer { result ≡ map.contains_key (set_of handle.old) key }
    ensures same { handle.new ≡ handle.old }
{
    match handle.array() {
        Some(array) => array.test(key),
        None => false,
    }
}

/// Takes a key out, and answers whether it was there. It can't fail. (Manual: J1U, Judy1Unset.)
#[unsafe(no_mangle)]
pub extern "C" fn sellumaq_judy1_unset(alloc: Global, handle: &mut Set, key: u64) -> bool
    ensures answer { result ≡ map.contains_key (set_of handle.old) key }
    ensures unset { array_in_set handle.new
        ≡ array.with_map (array_in_set handle.old) (array.del (set_of handle.old) key) }
{
    match handle.array() {
        Some(array) => array.unset(key),
        None => false,
    }
}

/// The least key from a word on. (Manual: J1F, Judy1First.)
#[unsafe(no_mangle)]
pub extern "C" fn sellumaq_judy1_first(
    alloc: Global,
    handle: &mut Set,
    from: u64,
    key: &mut u64,
) -> bool
    ensures told { IsTold (neighbours.first (set_of handle.old) from) result key.old key.new }
    ensures same { handle.new ≡ handle.old }
{
    asked!(handle, alloc, Judy1, array => tell(array.first(from), key))
}

/// The least key above a word. (Manual: J1N, Judy1Next.)
#[unsafe(no_mangle)]
pub extern "C" fn sellumaq_judy1_next(
    alloc: Global,
    handle: &mut Set,
    from: u64,
    key: &mut u64,
) -> bool
    ensures told { IsTold (neighbours.next (set_of handle.old) from) result key.old key.new }
    ensures same { handle.new ≡ handle.old }
{
    asked!(handle, alloc, Judy1, array => tell(array.next(from), key))
}

/// The greatest key up to a word. (Manual: J1L, Judy1Last.)
#[unsafe(no_mangle)]
pub extern "C" fn sellumaq_judy1_last(
    alloc: Global,
    handle: &mut Set,
    from: u64,
    key: &mut u64,
) -> bool
    ensures told { IsTold (neighbours.last (set_of handle.old) from) result key.old key.new }
    ensures same { handle.new ≡ handle.old }
{
    tell(handle.ask(alloc, |array| array.last(from)), key)
}

/// The greatest key below a word. (Manual: J1P, Judy1Prev.)
#[unsafe(no_mangle)]
pub extern "C" fn sellumaq_judy1_prev(
    alloc: Global,
    handle: &mut Set,
    from: u64,
    key: &mut u64,
) -> bool
    ensures told { IsTold (neighbours.prev (set_of handle.old) from) result key.old key.new }
    ensures same { handle.new ≡ handle.old }
{
    tell(handle.ask(alloc, |array| array.prev(from)), key)
}

/// The least word from one on that is no key. (Manual: J1FE, Judy1FirstEmpty.)
#[unsafe(no_mangle)]
pub extern "C" fn sellumaq_judy1_first_empty(
    alloc: Global,
    handle: &mut Set,
    from: u64,
    word: &mut u64,
) -> bool
    ensures told { IsTold (empties.first_empty (set_of handle.old) from) result word.old word.new }
    ensures same { handle.new ≡ handle.old }
{
    tell(handle.ask(alloc, |array| array.first_empty(from)), word)
}

/// The least word above one that is no key. (Manual: J1NE, Judy1NextEmpty.)
#[unsafe(no_mangle)]
pub extern "C" fn sellumaq_judy1_next_empty(
    alloc: Global,
    handle: &mut Set,
    from: u64,
    word: &mut u64,
) -> bool
    ensures told { IsTold (empties.next_empty (set_of handle.old) from) result word.old word.new }
    ensures same { handle.new ≡ handle.old }
{
    tell(handle.ask(alloc, |array| array.next_empty(from)), word)
}

/// The greatest word up to one that is no key. (Manual: J1LE, Judy1LastEmpty.)
#[unsafe(no_mangle)]
pub extern "C" fn sellumaq_judy1_last_empty(
    alloc: Global,
    handle: &mut Set,
    from: u64,
    word: &mut u64,
) -> bool
    ensures told { IsTold (empties.last_empty (set_of handle.old) from) result word.old word.new }
    ensures same { handle.new ≡ handle.old }
{
    tell(handle.ask(alloc, |array| array.last_empty(from)), word)
}

/// The greatest word below one that is no key. (Manual: J1PE, Judy1PrevEmpty.)
#[unsafe(no_mangle)]
pub extern "C" fn sellumaq_judy1_prev_empty(
    alloc: Global,
    handle: &mut Set,
    from: u64,
    word: &mut u64,
) -> bool
    ensures told { IsTold (empties.prev_empty (set_of handle.old) from) result word.old word.new }
    ensures same { handle.new ≡ handle.old }
{
    tell(handle.ask(alloc, |array| array.prev_empty(from)), word)
}

/// How many keys there are.
#[unsafe(no_mangle)]
pub extern "C" fn sellumaq_judy1_len(alloc: Global, handle: &mut Set) -> u64
    ensures count { result ≡ map.len (set_of handle.old) }
    ensures same { handle.new ≡ handle.old }
{
    handle.ask(alloc, |array| array.len())
}

/// How many keys there are from one word to another, both included; 0 where the first is above the second. (Manual:
/// J1C, Judy1Count.)
#[unsafe(no_mangle)]
pub extern "C" fn sellumaq_judy1_count(alloc: Global, handle: &mut Set, from: u64, to: u64) -> u64
    ensures count { result ≡ counts.count (set_of handle.old) from to }
    ensures same { handle.new ≡ handle.old }
{
    handle.ask(alloc, |array| array.count(from, to))
}

/// The n-th key in ascending order, counted from 1. (Manual: J1BC, Judy1ByCount.)
#[unsafe(no_mangle)]
pub extern "C" fn sellumaq_judy1_by_count(
    alloc: Global,
    handle: &mut Set,
    n: u64,
    key: &mut u64,
) -> bool
    ensures told { IsTold (counts.by_count (set_of handle.old) n) result key.old key.new }
    ensures same { handle.new ≡ handle.old }
{
    tell(handle.ask(alloc, |array| array.by_count(n)), key)
}

/// Takes every key out, gives all memory back, and answers how many keys there were. (Manual: J1FA, Judy1FreeArray,
/// which answers the bytes freed.)
#[unsafe(no_mangle)]
pub extern "C" fn sellumaq_judy1_free(alloc: Global, handle: &mut Set) -> u64
    ensures freed { result ≡ map.len (set_of handle.old) }
    ensures emptied { handle.new.array ≡ None }
{
    let count = sellumaq_judy1_len(alloc, handle);
    handle.release(alloc);
    count
}
