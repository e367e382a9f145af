//! The walks of C over strings and byte strings: many keys at a time, written to two buffers of the caller's.
//!
//! The bytes of the keys stand one behind the other in the one buffer, and the length and the value of each in the
//! other. A walk ends where either has no room for the next key.

ghost use Rattle.std.specs.Prelude.{◌≡◌, IsTrue, IsFalse, []};
ghost use Rattle.judy_sl.specs.Strings.{IsString};
ghost use Rattle.judy_c.specs.ByteMaps as hashed;
ghost use Rattle.judy_c.specs.KeyWalks.{IsFilled, page_of, pairs_from, pairs_behind};
ghost use Rattle.judy_c.specs.StringMaps as strings;

mod fill;

use crate::bytes::Bytes;
use crate::handles::Handle;
use crate::strings::Strings;
use fill::{fill_behind, fill_strings};
use judy_sl::LongStrings;

/// What a walk tells of a key: how many bytes it has, and its value.
#[repr(C)]
#[derive(Clone, Copy)]
pub struct KeyEntry {
    pub length: usize,
    pub value: u64,
}

/// The keys of a map from a string on, or from above it, with their values, by ascending key, as many as fit; answers
/// how many these are. None where the map can't hold the string. The first key is one way down the map, and each later
/// one a step from the key before; but where a key that came in since the map was last empty, or the string, has more
/// than 1,024 bytes, each key takes two ways down the map. It asks for no memory.
#[unsafe(no_mangle)]
pub extern "C" fn sellumaq_judysl_walk(
    handle: &mut Strings,
    from: &[u8],
    itself: bool,
    bytes: &mut [u8],
    entries: &mut [KeyEntry],
) -> usize
    ensures filled { IsString from.now
        → IsFilled (pairs_from (strings.array_in handle.old).map from.now itself)
        (page_of bytes.old entries.old) result (page_of bytes.new entries.new) }
    ensures refused { (IsString from.now → ⊥)
        → IsFilled [] (page_of bytes.old entries.old) result (page_of bytes.new entries.new) }
    ensures same { handle.new ≡ handle.old }
{
    if !LongStrings::is_key(from) {
        return 0;
    }
    match handle.array() {
        Some(array) => fill_strings(array, from, itself, bytes, entries),
        None => 0,
    }
}

/// The keys of a map with their values, by the lengths of the keys and those of one length by their bytes, behind so
/// many; as many as fit. Tells how many these are. False, and nothing is written, where there is no memory for a list
/// of all keys, which each call makes and sorts.
#[unsafe(no_mangle)]
pub extern "C" fn sellumaq_judyhs_walk(
    handle: &mut Bytes,
    behind: usize,
    bytes: &mut [u8],
    entries: &mut [KeyEntry],
    count: &mut usize,
) -> bool
    ensures filled { IsTrue result
        → IsFilled (pairs_behind (hashed.array_in handle.old).map behind)
        (page_of bytes.old entries.old) count.new (page_of bytes.new entries.new) }
    ensures refused { IsFalse result
        → (page_of bytes.new entries.new ≡ page_of bytes.old entries.old)
        × (count.new ≡ count.old) }
    ensures same { handle.new ≡ handle.old }
{
    let Some(array) = handle.array() else {
        *count = 0;
        return true;
    };
    let Ok(list) = array.sorted() else {
        return false;
    };
    *count = fill_behind(&list, behind, bytes, entries);
    true
}
