//! The nearest keys and the n-th with their values, each found in one way down the map.
//!
//! Each of these calls answers as the call of judyl.rt for the key alone does, and tells the key's value beside it.

ghost use Rattle.std.specs.Prelude.{◌≡◌};
ghost use Rattle.judy_model.specs.Counts as counts;
ghost use Rattle.judy_model.specs.Neighbours as neighbours;
ghost use Rattle.judy_c.specs.Maps.{map_of, value_beside};
ghost use Rattle.judy_c.specs.Told.{IsTold};

use crate::handles::{Handle, asked};
use crate::map::Map;
use crate::told::tell_entry;
use judy_word::JudyL;
use std::alloc::Global;

/// The least key from a word on, with its value. (Manual: JLF, JudyLFirst.)
#[unsafe(no_mangle)]
pub extern "C" fn sellumaq_judyl_first_entry(
    alloc: Global,
    handle: &mut Map,
    from: u64,
    key: &mut u64,
    value: &mut u64,
) -> bool
    ensures key { IsTold (neighbours.first (map_of handle.old) from) result key.old key.new }
    ensures value { IsTold
        (value_beside (map_of handle.old) (neighbours.first (map_of handle.old) from)) result
        value.old value.new }
    ensures same { handle.new ≡ handle.old }
{
    asked!(handle, alloc, JudyL, array => tell_entry(array.first_entry(from), key, value))
}

/// The least key above a word, with its value. (Manual: JLN, JudyLNext.)
#[unsafe(no_mangle)]
pub extern "C" fn sellumaq_judyl_next_entry(
    alloc: Global,
    handle: &mut Map,
    from: u64,
    key: &mut u64,
    value: &mut u64,
) -> bool
    ensures key { IsTold (neighbours.next (map_of handle.old) from) result key.old key.new }
    ensures value { IsTold
        (value_beside (map_of handle.old) (neighbours.next (map_of handle.old) from)) result
        value.old value.new }
    ensures same { handle.new ≡ handle.old }
{
    asked!(handle, alloc, JudyL, array => tell_entry(array.next_entry(from), key, value))
}

/// The greatest key up to a word, with its value. (Manual: JLL, JudyLLast.)
#[unsafe(no_mangle)]
pub extern "C" fn sellumaq_judyl_last_entry(
    alloc: Global,
    handle: &mut Map,
    from: u64,
    key: &mut u64,
    value: &mut u64,
) -> bool
    ensures key { IsTold (neighbours.last (map_of handle.old) from) result key.old key.new }
    ensures value { IsTold
        (value_beside (map_of handle.old) (neighbours.last (map_of handle.old) from)) result
        value.old value.new }
    ensures same { handle.new ≡ handle.old }
{
    tell_entry(
        handle.ask(alloc, |array| array.last_entry(from)),
        key,
        value,
    )
}

/// The greatest key below a word, with its value. (Manual: JLP, JudyLPrev.)
#[unsafe(no_mangle)]
pub extern "C" fn sellumaq_judyl_prev_entry(
    alloc: Global,
    handle: &mut Map,
    from: u64,
    key: &mut u64,
    value: &mut u64,
) -> bool
    ensures key { IsTold (neighbours.prev (map_of handle.old) from) result key.old key.new }
    ensures value { IsTold
        (value_beside (map_of handle.old) (neighbours.prev (map_of handle.old) from)) result
        value.old value.new }
    ensures same { handle.new ≡ handle.old }
{
    tell_entry(
        handle.ask(alloc, |array| array.prev_entry(from)),
        key,
        value,
    )
}

/// The n-th key in ascending order, counted from 1, with its value. (Manual: JLBC, JudyLByCount.)
#[unsafe(no_mangle)]
pub extern "C" fn sellumaq_judyl_by_count_entry(
    alloc: Global,
    handle: &mut Map,
    n: u64,
    key: &mut u64,
    value: &mut u64,
) -> bool
    ensures key { IsTold (counts.by_count (map_of handle.old) n) result key.old key.new }
    ensures value { IsTold
        (value_beside (map_of handle.old) (counts.by_count (map_of handle.old) n)) result
        value.old value.new }
    ensures same { handle.new ≡ handle.old }
{
    tell_entry(
        handle.ask(alloc, |array| array.by_count_entry(n)),
        key,
        value,
    )
}
