//! The calls of C that dump an array to bytes and load it of them, as judy_saved does: the bytes are the dump of the
//! store that has this array alone.
//!
//! kinds.rt has how each kind of array is saved, and dumps.rt and loads.rt the one way of all four.

ghost use Rattle.std.specs.Prelude.{◌≡◌};
ghost use Rattle.judy_c.specs.ByteMaps as hashed;
ghost use Rattle.judy_c.specs.Maps.{array_of};
ghost use Rattle.judy_c.specs.Saved.{IsDumpedBy, IsLoadedBy, room_of, saved_sets, saved_maps, saved_strings, saved_bytes};
ghost use Rattle.judy_c.specs.StringMaps as strings;

mod dumps;
mod kinds;
mod loads;

use crate::bytes::Bytes;
use crate::map::Map;
use crate::set::Set;
use crate::strings::Strings;
use dumps::dump;
use loads::load;
use std::alloc::Global;

/// Writes the dump of a set, in the format JDY1 or JDY2 by its number, 1 or 2, under a name to the front of a room
/// where it fits, and tells its size: 1. What stands behind it stays. Else no byte is written, and the first that
/// applies is answered: 9, where the format is another number; 6, where the bytes are no name; 7, where the set has
/// more than 4,294,967,295 keys; 5, where the dump has more bytes than the room, and tells how many. So a room of no
/// bytes asks for the size.
#[unsafe(no_mangle)]
pub extern "C" fn sellumaq_judy1_dump(
    alloc: Global,
    handle: &mut Set,
    format: u32,
    name: &[u8],
    room: &mut [u8],
    size: &mut usize,
) -> u32
    ensures answer { IsDumpedBy saved_sets (array_of handle.old.array) format name.now
        (room_of room.old size.old) result (room_of room.new size.new) }
    ensures same { handle.new ≡ handle.old }
{
    dump(alloc, handle, format, name, room, size)
}

/// Writes the dump of a map from words, as `sellumaq_judy1_dump` writes that of a set.
#[unsafe(no_mangle)]
pub extern "C" fn sellumaq_judyl_dump(
    alloc: Global,
    handle: &mut Map,
    format: u32,
    name: &[u8],
    room: &mut [u8],
    size: &mut usize,
) -> u32
    ensures answer { IsDumpedBy saved_maps (array_of handle.old.array) format name.now
        (room_of room.old size.old) result (room_of room.new size.new) }
    ensures same { handle.new ≡ handle.old }
{
    dump(alloc, handle, format, name, room, size)
}

/// Writes the dump of a map from strings, as `sellumaq_judy1_dump` writes that of a set. Behind 7 and before 5 comes 4,
/// where a key has more than 1,024 bytes.
#[unsafe(no_mangle)]
pub extern "C" fn sellumaq_judysl_dump(
    alloc: Global,
    handle: &mut Strings,
    format: u32,
    name: &[u8],
    room: &mut [u8],
    size: &mut usize,
) -> u32
    ensures answer { IsDumpedBy saved_strings (strings.array_in handle.old) format name.now
        (room_of room.old size.old) result (room_of room.new size.new) }
    ensures same { handle.new ≡ handle.old }
{
    dump(alloc, handle, format, name, room, size)
}

/// Writes the dump of a map from byte strings, as `sellumaq_judy1_dump` writes that of a set. Its keys are sorted
/// first: behind 7 and before 5 comes 2, where there is no memory for that, and 4, where a key has more than 1,024
/// bytes.
#[unsafe(no_mangle)]
pub extern "C" fn sellumaq_judyhs_dump(
    alloc: Global,
    handle: &mut Bytes,
    format: u32,
    name: &[u8],
    room: &mut [u8],
    size: &mut usize,
) -> u32
    ensures answer { IsDumpedBy saved_bytes (hashed.array_in handle.old) format name.now
        (room_of room.old size.old) result (room_of room.new size.new) }
    ensures same { handle.new ≡ handle.old }
{
    dump(alloc, handle, format, name, room, size)
}

/// Makes a set that of which bytes are the dump, under some name and with some limit, in place of what it held, whose
/// memory is given back: 1. It may hold as many keys as a set of C. Else it is as it was: 2, where there is no memory
/// for the keys that were read; 8, where the bytes are no such dump, and the number of their first fault is told.
#[unsafe(no_mangle)]
pub extern "C" fn sellumaq_judy1_load(
    alloc: Global,
    handle: &mut Set,
    bytes: &[u8],
    fault: &mut u32,
) -> u32
    ensures { IsLoadedBy saved_sets bytes.now (array_of handle.new.array)
        (handle.new ≡ handle.old) fault.old result fault.new }
{
    load(alloc, handle, bytes, fault)
}

/// Makes a map from words that of which bytes are the dump, as `sellumaq_judy1_load` does a set.
#[unsafe(no_mangle)]
pub extern "C" fn sellumaq_judyl_load(
    alloc: Global,
    handle: &mut Map,
    bytes: &[u8],
    fault: &mut u32,
) -> u32
    ensures { IsLoadedBy saved_maps bytes.now (array_of handle.new.array)
        (handle.new ≡ handle.old) fault.old result fault.new }
{
    load(alloc, handle, bytes, fault)
}

/// Makes a map from strings that of which bytes are the dump, as `sellumaq_judy1_load` does a set.
#[unsafe(no_mangle)]
pub extern "C" fn sellumaq_judysl_load(
    alloc: Global,
    handle: &mut Strings,
    bytes: &[u8],
    fault: &mut u32,
) -> u32
    ensures { IsLoadedBy saved_strings bytes.now (strings.array_in handle.new)
        (handle.new ≡ handle.old) fault.old result fault.new }
{
    load(alloc, handle, bytes, fault)
}

/// Makes a map from byte strings that of which bytes are the dump, as `sellumaq_judy1_load` does a set.
#[unsafe(no_mangle)]
pub extern "C" fn sellumaq_judyhs_load(
    alloc: Global,
    handle: &mut Bytes,
    bytes: &[u8],
    fault: &mut u32,
) -> u32
    ensures { IsLoadedBy saved_bytes bytes.now (hashed.array_in handle.new)
        (handle.new ≡ handle.old) fault.old result fault.new }
{
    load(alloc, handle, bytes, fault)
}
