//! The nearest keys and the n-th with the slots of their values.
//!
//! Each of these calls answers as the call of judyl.rt for the key alone does, and hands out the slot of that key's
//! value too.

ghost use Rattle.std.specs.Prelude.{◌≡◌, unwrap_or, option_and_then};
ghost use Rattle.std.specs.Borrow.{sem};
ghost use Rattle.std.specs.FinMap as map;
ghost use Rattle.std.specs.Option.{option_copied_mut};
ghost use Rattle.judy_model.specs.Counts as counts;
ghost use Rattle.judy_model.specs.Neighbours as neighbours;
ghost use Rattle.judy_c.specs.Maps.{map_of};
ghost use Rattle.judy_c.specs.SlotLends.{LendsSlotOf};
ghost use Rattle.judy_c.specs.Told.{IsTold, lent_where};

use crate::map::Map;
use crate::told::hand_out;

/// The slot of the least key from a word on, and that key. (Manual: JLF, JudyLFirst.)
#[unsafe(no_mangle)]
pub extern "C" fn sellumaq_judyl_first_slot<'a>(
    handle: &'a mut Map,
    from: u64,
    key: &mut u64,
    slot: &mut &'a mut u64,
) -> bool
    ensures* writes_back { sem 𝓛 (LendsSlotOf handle.entry key.new (lent_where result slot.new)) }
    ensures key { key.new ≡ unwrap_or (neighbours.first (map_of handle.old) from) key.old }
    ensures value { option_copied_mut (lent_where result slot.new)
        ≡ option_and_then (map.get (map_of handle.old))
        (neighbours.first (map_of handle.old) from) }
    ensures told { IsTold (lent_where result slot.new) result slot.old slot.new }
{
    hand_out(handle.first_slot(from, key), slot)
}

/// The slot of the least key above a word, and that key. (Manual: JLN, JudyLNext.)
#[unsafe(no_mangle)]
pub extern "C" fn sellumaq_judyl_next_slot<'a>(
    handle: &'a mut Map,
    from: u64,
    key: &mut u64,
    slot: &mut &'a mut u64,
) -> bool
    ensures* writes_back { sem 𝓛 (LendsSlotOf handle.entry key.new (lent_where result slot.new)) }
    ensures key { key.new ≡ unwrap_or (neighbours.next (map_of handle.old) from) key.old }
    ensures value { option_copied_mut (lent_where result slot.new)
        ≡ option_and_then (map.get (map_of handle.old)) (neighbours.next (map_of handle.old) from) }
    ensures told { IsTold (lent_where result slot.new) result slot.old slot.new }
{
    hand_out(handle.next_slot(from, key), slot)
}

/// The slot of the greatest key up to a word, and that key. (Manual: JLL, JudyLLast.)
#[unsafe(no_mangle)]
pub extern "C" fn sellumaq_judyl_last_slot<'a>(
    handle: &'a mut Map,
    from: u64,
    key: &mut u64,
    slot: &mut &'a mut u64,
) -> bool
    ensures* writes_back { sem 𝓛 (LendsSlotOf handle.entry key.new (lent_where result slot.new)) }
    ensures key { key.new ≡ unwrap_or (neighbours.last (map_of handle.old) from) key.old }
    ensures value { option_copied_mut (lent_where result slot.new)
        ≡ option_and_then (map.get (map_of handle.old)) (neighbours.last (map_of handle.old) from) }
    ensures told { IsTold (lent_where result slot.new) result slot.old slot.new }
{
    hand_out(handle.last_slot(from, key), slot)
}

/// The slot of the greatest key below a word, and that key. (Manual: JLP, JudyLPrev.)
#[unsafe(no_mangle)]
pub extern "C" fn sellumaq_judyl_prev_slot<'a>(
    handle: &'a mut Map,
    from: u64,
    key: &mut u64,
    slot: &mut &'a mut u64,
) -> bool
    ensures* writes_back { sem 𝓛 (LendsSlotOf handle.entry key.new (lent_where result slot.new)) }
    ensures key { key.new ≡ unwrap_or (neighbours.prev (map_of handle.old) from) key.old }
    ensures value { option_copied_mut (lent_where result slot.new)
        ≡ option_and_then (map.get (map_of handle.old)) (neighbours.prev (map_of handle.old) from) }
    ensures told { IsTold (lent_where result slot.new) result slot.old slot.new }
{
    hand_out(handle.prev_slot(from, key), slot)
}

/// The slot of the n-th key in ascending order, counted from 1, and that key. (Manual: JLBC, JudyLByCount.)
#[unsafe(no_mangle)]
pub extern "C" fn sellumaq_judyl_by_count_slot<'a>(
    handle: &'a mut Map,
    n: u64,
    key: &mut u64,
    slot: &mut &'a mut u64,
) -> bool
    ensures* writes_back { sem 𝓛 (LendsSlotOf handle.entry key.new (lent_where result slot.new)) }
    ensures key { key.new ≡ unwrap_or (counts.by_count (map_of handle.old) n) key.old }
    ensures value { option_copied_mut (lent_where result slot.new)
        ≡ option_and_then (map.get (map_of handle.old)) (counts.by_count (map_of handle.old) n) }
    ensures told { IsTold (lent_where result slot.new) result slot.old slot.new }
{
    hand_out(handle.by_count_slot(n, key), slot)
}
