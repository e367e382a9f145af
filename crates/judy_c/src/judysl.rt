//! The calls of C on maps from strings to words.
//!
//! C knows a map by its handle, one word (strings.rt); a handle of zeros is the map without keys. Each call answers
//! what the call of `judy_sl::LongStrings` of the same name does for that map. A key is a pointer and a length: bytes
//! without zeros, at most 9,223,372,036,854,775,807 of them. A call that may have no answer tells it through its last
//! parameter, where it answers true or `FOUND`, and leaves that alone else.
//!
//! A scan begins at the string in a buffer of the caller's, of so many bytes as the count says, and answers `FOUND`
//! with the key there, its length in the count and its value. Or `NONE` where there is no such key, or `BAD_KEY` where
//! the buffer holds no such string or the count is above its length: then all stays. Or `TOO_SMALL` where the key
//! doesn't fit: then buffer and count stay, and the value tells how many bytes the key has. `sellumaq_judysl_longest`
//! tells how much room is always enough.

ghost use Rattle.std.specs.Prelude.{◌≡◌, None};
ghost use Rattle.std.specs.FinMap as map;
ghost use Rattle.std.specs.Option.{option_copied_mut};
ghost use Rattle.judy_model.specs.Arrays as array;
ghost use Rattle.judy_model.specs.Neighbours as neighbours;
ghost use Rattle.judy_sl.specs.Strings.{IsString};
ghost use Rattle.judy_sl.specs.Arenas.{AreWithin};
ghost use Rattle.judy_c.specs.Answers.{IsSaid, answered, IsHanded};
ghost use Rattle.judy_c.specs.KeyInserts.{IsMadeAs};
ghost use Rattle.judy_c.specs.KeyScans.{scan_says};
ghost use Rattle.judy_c.specs.StringMaps.{array_in};
ghost use Rattle.judy_c.specs.StringSlots.{LendsSlotOf, LendsAnswered};
ghost use Rattle.judy_c.specs.Told.{IsTold, lent_where};
ghost use Rattle.std.specs.Borrow.{sem};

use crate::answers::answer_insert;
use crate::handles::Handle;
use crate::scans::Scan;
use crate::strings::Strings;
use crate::told::{hand_out, tell};
use std::alloc::Global;

/// The value of a key; bytes that are no key are absent. (Manual: JSLG, JudySLGet.)
#[unsafe(no_mangle)]
pub extern "C" fn sellumaq_judysl_get(handle: &mut Strings, key: &[u8], value: &mut u64) -> bool
    ensures told { IsTold (map.get (array_in handle.old).map key.now) result value.old value.new }
    ensures same { handle.new ≡ handle.old }
{
    match handle.array() {
        Some(array) => tell(array.get(key), value),
        None => false,
    }
}

/// Hands out the slot of a key, which is put in with the value 0 where it is absent: what is left there is the key's
/// value.
/// Answers `FOUND`, or why it is refused: `BAD_KEY`, `FULL` or `NO_MEMORY`, in this order; the handle is as it was
/// then. (Manual: JSLI, JudySLIns.)
#[unsafe(no_mangle)]
pub extern "C" fn sellumaq_judysl_ins<'a>(
    alloc: Global,
    handle: &'a mut Strings,
    key: &[u8],
    slot: &mut &'a mut u64,
) -> u32
    ensures* writes_back { sem 𝓛 (LendsAnswered handle.entry key.now (answered result slot.new)) }
    ensures made { IsMadeAs IsString (array_in handle.old) key.now (answered result slot.new) }
    ensures told { IsHanded (answered result slot.new) slot.old slot.new }
{
    answer_insert(handle.ins(alloc, key), slot)
}

/// Hands out the slot of a key: what is left there is the key's value. (Manual: JSLG, JudySLGet.)
#[unsafe(no_mangle)]
pub extern "C" fn sellumaq_judysl_slot<'a>(
    handle: &'a mut Strings,
    key: &[u8],
    slot: &mut &'a mut u64,
) -> bool
    ensures* writes_back { sem 𝓛 (LendsSlotOf handle.entry key.now (lent_where result slot.new)) }
    ensures value { option_copied_mut (lent_where result slot.new)
        ≡ map.get (array_in handle.old).map key.now }
    ensures told { IsTold (lent_where result slot.new) result slot.old slot.new }
{
    hand_out(handle.slot(key), slot)
}

/// Takes a key out with its value, and answers whether it was there. It can't fail. (Manual: JSLD, JudySLDel.)
#[unsafe(no_mangle)]
pub extern "C" fn sellumaq_judysl_del(alloc: Global, handle: &mut Strings, key: &[u8]) -> bool
    ensures answer { result ≡ map.contains_key (array_in handle.old).map key.now }
    ensures deleted { array_in handle.new
        ≡ array.with_map (array_in handle.old) (array.del (array_in handle.old).map key.now) }
{
    match handle.array() {
        Some(array) => array.del(key),
        None => false,
    }
}

/// The least key from the string in a buffer on, which that key replaces; with its value. (Manual: JSLF, JudySLFirst.)
#[unsafe(no_mangle)]
pub extern "C" fn sellumaq_judysl_first(
    handle: &mut Strings,
    buffer: &mut [u8],
    count: &mut usize,
    value: &mut u64,
) -> u32
    ensures told { IsSaid
        (scan_says (array_in handle.old).map (neighbours.first (array_in handle.old).map)
        (record { buffer = buffer.old; count = count.old; value = value.old })
        (record { buffer = buffer.new; count = count.new; value = value.new })) result }
    ensures same { handle.new ≡ handle.old }
{
    Scan::First.tell(handle, buffer, count, value)
}

/// The least key above the string in a buffer, which that key replaces; with its value. (Manual: JSLN, JudySLNext.)
#[unsafe(no_mangle)]
pub extern "C" fn sellumaq_judysl_next(
    handle: &mut Strings,
    buffer: &mut [u8],
    count: &mut usize,
    value: &mut u64,
) -> u32
    ensures told { IsSaid
        (scan_says (array_in handle.old).map (neighbours.next (array_in handle.old).map)
        (record { buffer = buffer.old; count = count.old; value = value.old })
        (record { buffer = buffer.new; count = count.new; value = value.new })) result }
    ensures same { handle.new ≡ handle.old }
{
    Scan::Next.tell(handle, buffer, count, value)
}

/// The greatest key up to the string in a buffer, which that key replaces; with its value. (Manual: JSLL, JudySLLast.)
#[unsafe(no_mangle)]
pub extern "C" fn sellumaq_judysl_last(
    handle: &mut Strings,
    buffer: &mut [u8],
    count: &mut usize,
    value: &mut u64,
) -> u32
    ensures told { IsSaid
        (scan_says (array_in handle.old).map (neighbours.last (array_in handle.old).map)
        (record { buffer = buffer.old; count = count.old; value = value.old })
        (record { buffer = buffer.new; count = count.new; value = value.new })) result }
    ensures same { handle.new ≡ handle.old }
{
    Scan::Last.tell(handle, buffer, count, value)
}

/// The greatest key below the string in a buffer, which that key replaces; with its value. (Manual: JSLP, JudySLPrev.)
#[unsafe(no_mangle)]
pub extern "C" fn sellumaq_judysl_prev(
    handle: &mut Strings,
    buffer: &mut [u8],
    count: &mut usize,
    value: &mut u64,
) -> u32
    ensures told { IsSaid
        (scan_says (array_in handle.old).map (neighbours.prev (array_in handle.old).map)
        (record { buffer = buffer.old; count = count.old; value = value.old })
        (record { buffer = buffer.new; count = count.new; value = value.new })) result }
    ensures same { handle.new ≡ handle.old }
{
    Scan::Prev.tell(handle, buffer, count, value)
}

/// How many keys there are.
#[unsafe(no_mangle)]
pub extern "C" fn sellumaq_judysl_len(alloc: Global, handle: &mut Strings) -> u64
    ensures count { result ≡ map.len (array_in handle.old).map }
    ensures same { handle.new ≡ handle.old }
{
    handle.ask(alloc, |array| array.len())
}

/// A length that no key exceeds, and so room for what each search finds: that of the longest key that came in since
/// the map was last empty, also where that key has gone; 0 for a null handle. A walk asks for it once. (This project's
/// own.)
#[unsafe(no_mangle)]
pub extern "C" fn sellumaq_judysl_longest(handle: &mut Strings) -> usize
    ensures within { AreWithin result (array_in handle.old).map }
    ensures null { handle.old.array ≡ None → result ≡ 0 }
    ensures same { handle.new ≡ handle.old }
{
    match handle.array() {
        Some(array) => array.longest(),
        None => 0,
    }
}

/// Gives back memory that deletes left free. Where many keys have gone, a copy takes the array's place; else, and where
/// memory for that is refused, keys move together within the map's pages. It can't fail, and changes no key and no
/// value; slots that were handed out are no longer theirs. (This project's own.)
#[unsafe(no_mangle)]
pub extern "C" fn sellumaq_judysl_shrink(alloc: Global, handle: &mut Strings)
    ensures { handle.new ≡ handle.old }
{
    if let Some(array) = handle.array() {
        judy_string_sets::shrink(alloc, array);
    }
}

/// Takes every key out, gives all memory back, and answers how many keys there were. (Manual: JSLFA, JudySLFreeArray,
/// which answers the bytes freed.)
#[unsafe(no_mangle)]
pub extern "C" fn sellumaq_judysl_free(alloc: Global, handle: &mut Strings) -> u64
    ensures freed { result ≡ map.len (array_in handle.old).map }
    ensures emptied { handle.new.array ≡ None }
{
    let count = sellumaq_judysl_len(alloc, handle);
    handle.release(alloc);
    count
}
