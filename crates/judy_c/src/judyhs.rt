//! The calls of C on maps from byte strings to words.
//!
//! C knows a map by its handle, one word (bytes.rt); a handle of zeros is the map without keys. Each call answers what
//! the call of `judy_hs::JudyHs` of the same name does for that map. A key is a pointer and a length. A call that may
//! have no answer tells it through its last parameter, where it answers true or `FOUND`, and leaves that alone else.

ghost use Rattle.std.specs.Prelude.{◌≡◌, None};
ghost use Rattle.std.specs.FinMap as map;
ghost use Rattle.std.specs.Option.{option_copied_mut};
ghost use Rattle.judy_model.specs.Arrays as array;
ghost use Rattle.judy_c.specs.Answers.{answered, IsHanded};
ghost use Rattle.judy_c.specs.KeyInserts.{IsMadeAs, IsShort};
ghost use Rattle.judy_c.specs.ByteMaps.{array_in};
ghost use Rattle.judy_c.specs.ByteSlots.{LendsSlotOf, LendsAnswered};
ghost use Rattle.judy_c.specs.Told.{IsTold, lent_where};
ghost use Rattle.std.specs.Borrow.{sem};

use crate::answers::answer_insert;
use crate::bytes::Bytes;
use crate::handles::Handle;
use crate::told::{hand_out, tell};
use std::alloc::Global;

/// The value of a key. (Manual: JHSG, JudyHSGet.)
#[unsafe(no_mangle)]
pub extern "C" fn sellumaq_judyhs_get(handle: &mut Bytes, key: &[u8], value: &mut u64) -> bool
    ensures told { IsTold (map.get (array_in handle.old).map key.now) result value.old value.new }
    ensures same { handle.new ≡ handle.old }
{
    match handle.array() {
        Some(array) => tell(array.get(key), value),
        None => false,
    }
}

/// Hands out the slot of a key, which is put in with the value 0 where it is absent: what is left there is the key's
/// value.
/// Answers `FOUND`, or why it is refused: `BAD_KEY`, `FULL` or `NO_MEMORY`, in this order; the handle is as it was
/// then. (Manual: JHSI, JudyHSIns.)
#[unsafe(no_mangle)]
pub extern "C" fn sellumaq_judyhs_ins<'a>(
    alloc: Global,
    handle: &'a mut Bytes,
    key: &[u8],
    slot: &mut &'a mut u64,
) -> u32
    ensures* writes_back { sem 𝓛 (LendsAnswered handle.entry key.now (answered result slot.new)) }
    ensures made { IsMadeAs IsShort (array_in handle.old) key.now (answered result slot.new) }
    ensures told { IsHanded (answered result slot.new) slot.old slot.new }
{
    answer_insert(handle.ins(alloc, key), slot)
}

/// Hands out the slot of a key: what is left there is the key's value. (Manual: JHSG, JudyHSGet.)
#[unsafe(no_mangle)]
pub extern "C" fn sellumaq_judyhs_slot<'a>(
    handle: &'a mut Bytes,
    key: &[u8],
    slot: &mut &'a mut u64,
) -> bool
    ensures* writes_back { sem 𝓛 (LendsSlotOf handle.entry key.now (lent_where result slot.new)) }
    ensures value { option_copied_mut (lent_where result slot.new)
        ≡ map.get (array_in handle.old).map key.now }
    ensures told { IsTold (lent_where result slot.new) result slot.old slot.new }
{
    hand_out(handle.slot(key), slot)
}

/// Takes a key out with its value, and answers whether it was there. It can't fail. (Manual: JHSD, JudyHSDel.)
#[unsafe(no_mangle)]
pub extern "C" fn sellumaq_judyhs_del(alloc: Global, handle: &mut Bytes, key: &[u8]) -> bool
    ensures answer { result ≡ map.contains_key (array_in handle.old).map key.now }
    ensures deleted { array_in handle.new
        ≡ array.with_map (array_in handle.old) (array.del (array_in handle.old).map key.now) }
{
    match handle.array() {
        Some(array) => array.del(key),
        None => false,
    }
}

/// How many keys there are.
#[unsafe(no_mangle)]
pub extern "C" fn sellumaq_judyhs_len(alloc: Global, handle: &mut Bytes) -> u64
    ensures count { result ≡ map.len (array_in handle.old).map }
    ensures same { handle.new ≡ handle.old }
{
    handle.ask(alloc, |array| array.len())
}

/// Gives back memory that deletes left free. It can't fail, and changes no key and no value; slots that were handed out
/// are no longer theirs. (This project's own.)
#[unsafe(no_mangle)]
pub extern "C" fn sellumaq_judyhs_shrink(handle: &mut Bytes)
    ensures { handle.new ≡ handle.old }
{
    if let Some(array) = handle.array() {
        array.shrink();
    }
}

/// Takes every key out, gives all memory back, and answers how many keys there were. (Manual: JHSFA, JudyHSFreeArray,
/// which answers the bytes freed.)
#[unsafe(no_mangle)]
pub extern "C" fn sellumaq_judyhs_free(alloc: Global, handle: &mut Bytes) -> u64
    ensures freed { result ≡ map.len (array_in handle.old).map }
    ensures emptied { handle.new.array ≡ None }
{
    let count = sellumaq_judyhs_len(alloc, handle);
    handle.release(alloc);
    count
}
