//! The calls of C that give a key of a map from strings, or from byte strings, a value or take it out, and tell the
//! value that was there.
//!
//! An insert is one way down the map where a slot is, and a removal one where a delete is.

ghost use Rattle.std.specs.Prelude.{◌≡◌};
ghost use Rattle.std.specs.FinMap as map;
ghost use Rattle.judy_model.specs.Arrays as array;
ghost use Rattle.judy_sl.specs.Strings.{IsString};
ghost use Rattle.judy_c.specs.ByteMaps as bytes;
ghost use Rattle.judy_c.specs.KeyInserts.{IsShort};
ghost use Rattle.judy_c.specs.KeyPuts.{IsPut, IsToldOld};
ghost use Rattle.judy_c.specs.StringMaps as strings;
ghost use Rattle.judy_c.specs.Told.{IsTold};

use crate::answers::answer_store;
use crate::bytes::Bytes;
use crate::handles::Handle;
use crate::strings::Strings;
use crate::told::tell;
use std::alloc::Global;

/// Gives a key a value, and answers `PRESENT` or `ADDED`; or why it is refused: `BAD_KEY`, `FULL` or `NO_MEMORY`, in
/// this order. The handle is as it was then: a null one stays null.
#[unsafe(no_mangle)]
pub extern "C" fn sellumaq_judysl_put(
    alloc: Global,
    handle: &mut Strings,
    key: &[u8],
    value: u64,
) -> u32
    ensures { IsPut IsString (strings.array_in handle.old) key.now value
        (handle.new ≡ handle.old) result (strings.array_in handle.new) }
{
    let mut was = 0;
    sellumaq_judysl_insert(alloc, handle, key, value, &mut was)
}

/// Gives a key a value, as `sellumaq_judysl_put` does, and tells the value that was there where it answers `PRESENT`.
#[unsafe(no_mangle)]
pub extern "C" fn sellumaq_judysl_insert(
    alloc: Global,
    handle: &mut Strings,
    key: &[u8],
    value: u64,
    was: &mut u64,
) -> u32
    ensures stored { IsPut IsString (strings.array_in handle.old) key.now value
        (handle.new ≡ handle.old) result (strings.array_in handle.new) }
    ensures told { IsToldOld
        (map.get (strings.array_in handle.old).map key.now) result was.old was.new }
{
    answer_store(handle.insert(alloc, key, value), was)
}

/// Takes a key out, as `sellumaq_judysl_del` does, and tells the value that it had.
#[unsafe(no_mangle)]
pub extern "C" fn sellumaq_judysl_remove(
    alloc: Global,
    handle: &mut Strings,
    key: &[u8],
    was: &mut u64,
) -> bool
    ensures told { IsTold
        (map.get (strings.array_in handle.old).map key.now) result was.old was.new }
    ensures deleted { strings.array_in handle.new
        ≡ array.with_map (strings.array_in handle.old)
        (array.del (strings.array_in handle.old).map key.now) }
{
    match handle.array() {
        Some(array) => tell(array.remove(key), was),
        None => false,
    }
}

/// Gives a key a value, and answers `PRESENT` or `ADDED`; or why it is refused: `BAD_KEY`, `FULL` or `NO_MEMORY`, in
/// this order. The handle is as it was then: a null one stays null.
#[unsafe(no_mangle)]
pub extern "C" fn sellumaq_judyhs_put(
    alloc: Global,
    handle: &mut Bytes,
    key: &[u8],
    value: u64,
) -> u32
    ensures { IsPut IsShort (bytes.array_in handle.old) key.now value
        (handle.new ≡ handle.old) result (bytes.array_in handle.new) }
{
    let mut was = 0;
    sellumaq_judyhs_insert(alloc, handle, key, value, &mut was)
}

/// Gives a key a value, as `sellumaq_judyhs_put` does, and tells the value that was there where it answers `PRESENT`.
#[unsafe(no_mangle)]
pub extern "C" fn sellumaq_judyhs_insert(
    alloc: Global,
    handle: &mut Bytes,
    key: &[u8],
    value: u64,
    was: &mut u64,
) -> u32
    ensures stored { IsPut IsShort (bytes.array_in handle.old) key.now value
        (handle.new ≡ handle.old) result (bytes.array_in handle.new) }
    ensures told { IsToldOld
        (map.get (bytes.array_in handle.old).map key.now) result was.old was.new }
{
    answer_store(handle.insert(alloc, key, value), was)
}

/// Takes a key out, as `sellumaq_judyhs_del` does, and tells the value that it had.
#[unsafe(no_mangle)]
pub extern "C" fn sellumaq_judyhs_remove(
    alloc: Global,
    handle: &mut Bytes,
    key: &[u8],
    was: &mut u64,
) -> bool
    ensures told { IsTold (map.get (bytes.array_in handle.old).map key.now) result was.old was.new }
    ensures deleted { bytes.array_in handle.new
        ≡ array.with_map (bytes.array_in handle.old)
        (array.del (bytes.array_in handle.old).map key.now) }
{
    match handle.array() {
        Some(array) => tell(array.remove(key), was),
        None => false,
    }
}
