//! The nearest strings with the slots of their values.
//!
//! Each of these calls answers as the scan of judysl.rt of the same name does, and hands out the slot of the key found
//! in place of its value. Of a key that doesn't fit the buffer nothing is told: that scan, or
//! `sellumaq_judysl_longest`, tells how much room is wanted.

ghost use Rattle.std.specs.Prelude.{◌≡◌, ◌==◌, take};
ghost use Rattle.std.specs.Borrow.{sem};
ghost use Rattle.judy_model.specs.Neighbours as neighbours;
ghost use Rattle.judy_c.specs.Answers.{IsSaid};
ghost use Rattle.judy_c.specs.KeyScans.{slot_says};
ghost use Rattle.judy_c.specs.StringMaps.{array_in};
ghost use Rattle.judy_c.specs.StringSlots.{LendsSlotOf};
ghost use Rattle.judy_c.specs.Told.{IsTold, lent_where};

use crate::answers::answer_scan;
use crate::strings::Strings;

/// The slot of the least key from the string in a buffer on, which that key replaces. (Manual: JSLF, JudySLFirst.)
#[unsafe(no_mangle)]
pub extern "C" fn sellumaq_judysl_first_slot<'a>(
    handle: &'a mut Strings,
    buffer: &mut [u8],
    count: &mut usize,
    slot: &mut &'a mut u64,
) -> u32
    ensures* writes_back { sem 𝓛 (LendsSlotOf handle.entry (take count.new buffer.new)
        (lent_where (result == 1) slot.new)) }
    ensures told { IsSaid
        (slot_says (array_in handle.old).map (neighbours.first (array_in handle.old).map)
        (record { buffer = buffer.old; count = count.old; value = slot.old.now })
        (record { buffer = buffer.new; count = count.new; value = slot.new.now })) result }
    ensures handed { IsTold (lent_where (result == 1) slot.new) (result == 1) slot.old slot.new }
{
    answer_scan(handle.first_slot(buffer, count), slot)
}

/// The slot of the least key above the string in a buffer, which that key replaces. (Manual: JSLN, JudySLNext.)
#[unsafe(no_mangle)]
pub extern "C" fn sellumaq_judysl_next_slot<'a>(
    handle: &'a mut Strings,
    buffer: &mut [u8],
    count: &mut usize,
    slot: &mut &'a mut u64,
) -> u32
    ensures* writes_back { sem 𝓛 (LendsSlotOf handle.entry (take count.new buffer.new)
        (lent_where (result == 1) slot.new)) }
    ensures told { IsSaid
        (slot_says (array_in handle.old).map (neighbours.next (array_in handle.old).map)
        (record { buffer = buffer.old; count = count.old; value = slot.old.now })
        (record { buffer = buffer.new; count = count.new; value = slot.new.now })) result }
    ensures handed { IsTold (lent_where (result == 1) slot.new) (result == 1) slot.old slot.new }
{
    answer_scan(handle.next_slot(buffer, count), slot)
}

/// The slot of the greatest key up to the string in a buffer, which that key replaces. (Manual: JSLL, JudySLLast.)
#[unsafe(no_mangle)]
pub extern "C" fn sellumaq_judysl_last_slot<'a>(
    handle: &'a mut Strings,
    buffer: &mut [u8],
    count: &mut usize,
    slot: &mut &'a mut u64,
) -> u32
    ensures* writes_back { sem 𝓛 (LendsSlotOf handle.entry (take count.new buffer.new)
        (lent_where (result == 1) slot.new)) }
    ensures told { IsSaid
        (slot_says (array_in handle.old).map (neighbours.last (array_in handle.old).map)
        (record { buffer = buffer.old; count = count.old; value = slot.old.now })
        (record { buffer = buffer.new; count = count.new; value = slot.new.now })) result }
    ensures handed { IsTold (lent_where (result == 1) slot.new) (result == 1) slot.old slot.new }
{
    answer_scan(handle.last_slot(buffer, count), slot)
}

/// The slot of the greatest key below the string in a buffer, which that key replaces. (Manual: JSLP, JudySLPrev.)
#[unsafe(no_mangle)]
pub extern "C" fn sellumaq_judysl_prev_slot<'a>(
    handle: &'a mut Strings,
    buffer: &mut [u8],
    count: &mut usize,
    slot: &mut &'a mut u64,
) -> u32
    ensures* writes_back { sem 𝓛 (LendsSlotOf handle.entry (take count.new buffer.new)
        (lent_where (result == 1) slot.new)) }
    ensures told { IsSaid
        (slot_says (array_in handle.old).map (neighbours.prev (array_in handle.old).map)
        (record { buffer = buffer.old; count = count.old; value = slot.old.now })
        (record { buffer = buffer.new; count = count.new; value = slot.new.now })) result }
    ensures handed { IsTold (lent_where (result == 1) slot.new) (result == 1) slot.old slot.new }
{
    answer_scan(handle.prev_slot(buffer, count), slot)
}
