//! The calls of C that change a map from words to words and tell the value that was there, each in one way down the
//! map.

ghost use Rattle.std.specs.Prelude.{◌≡◌, ◌==◌};
ghost use Rattle.std.specs.FinMap as map;
ghost use Rattle.judy_model.specs.Arrays as array;
ghost use Rattle.judy_c.specs.Maps.{array_in_map, map_of};
ghost use Rattle.judy_c.specs.Puts.{IsStored};
ghost use Rattle.judy_c.specs.Told.{IsTold};

use crate::handles::Handle;
use crate::map::Map;
use crate::told::tell;
use std::alloc::Global;

/// Gives a key a value, as `sellumaq_judyl_put` does, and tells the value that was there where it answers 0.
#[unsafe(no_mangle)]
pub extern "C" fn sellumaq_judyl_insert(
    alloc: Global,
    handle: &mut Map,
    key: u64,
    value: u64,
    was: &mut u64,
) -> u32
    ensures stored { IsStored (array_in_map handle.old) key value (handle.new ≡ handle.old) result
        (array_in_map handle.new) }
    ensures told { IsTold (map.get (map_of handle.old) key) (result == 0) was.old was.new }
{
    match handle.array_or_new(alloc) {
        Ok(array) => match array.insert(key, value) {
            Ok(Some(there)) => {
                *was = there;
                0
            }
            Ok(None) => 1,
            Err(_) => 2,
        },
        Err(_) => 2,
    }
}

/// Takes a key out, as `sellumaq_judyl_del` does, and tells the value that it had.
#[unsafe(no_mangle)]
pub extern "C" fn sellumaq_judyl_remove(
    alloc: Global,
    handle: &mut Map,
    key: u64,
    was: &mut u64,
) -> bool
    ensures told { IsTold (map.get (map_of handle.old) key) result was.old was.new }
    ensures deleted { array_in_map handle.new
        ≡ array.with_map (array_in_map handle.old) (array.del (map_of handle.old) key) }
{
    match handle.array() {
        Some(array) => tell(array.remove(key), was),
        None => false,
    }
}
