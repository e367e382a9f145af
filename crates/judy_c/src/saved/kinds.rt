// How each kind of array that C holds by a handle is saved.

ghost use Rattle.std.specs.Prelude.{IfOk};
ghost use Rattle.judy_shelf.specs.Versions.{format_of};
ghost use Rattle.judy_saved.specs.Dumps.{IsDumped};
ghost use Rattle.judy_saved.specs.Loads.{IsLoaded};
ghost use Rattle.judy_c.specs.Saved.{SavedKind, saved_sets, saved_maps, saved_strings, saved_bytes};

use crate::arrays::{HeldArray, MOST_KEYS};
use crate::sorted::MOST_KEYS as MOST_WORDS;
use judy_hs::{Eights, JudyHs};
use judy_saved::{
    SaveError, dump_byte_strings, dump_map, dump_set, dump_strings, load_byte_strings, load_map,
    load_set, load_strings,
};
use judy_shelf::{Name, OneFault, Version};
use judy_sl::LongStrings;
use judy_word::{Judy1, JudyL};
use std::alloc::Global;

// An array that is dumped to bytes, and loaded of them.
pub(crate) trait SavedArray: HeldArray {
    ghost kind: { SavedKind Self };

    // Writes its dump under a name to the front of a room where it fits, and answers its size.
    fn dump(&self, version: Version, name: &Name, room: &mut [u8]) -> Result<usize, SaveError>
        ensures { IsDumped (kind.dump (format_of version) name.now self.now) room.old result
            room.new };

    // That of which bytes are the dump, with the most keys that an array of C may hold as its limit.
    fn load(alloc: Global, bytes: &[u8]) -> Result<Self, OneFault>
        ensures new { IfOk result kind.IsNew }
        ensures read { IsLoaded kind.number kind.with_limit bytes.now result };
}

impl SavedArray for Judy1 {
    ghost kind = { saved_sets };

    fn dump(&self, version: Version, name: &Name, room: &mut [u8]) -> Result<usize, SaveError> {
        dump_set(version, name, self, room)
    }

    fn load(alloc: Global, bytes: &[u8]) -> Result<Judy1, OneFault> {
        load_set(alloc, bytes, MOST_WORDS)
    }
}

impl SavedArray for JudyL {
    ghost kind = { saved_maps };

    fn dump(&self, version: Version, name: &Name, room: &mut [u8]) -> Result<usize, SaveError> {
        dump_map(version, name, self, room)
    }

    fn load(alloc: Global, bytes: &[u8]) -> Result<JudyL, OneFault> {
        load_map(alloc, bytes, MOST_WORDS)
    }
}

impl SavedArray for LongStrings {
    ghost kind = { saved_strings };

    fn dump(&self, version: Version, name: &Name, room: &mut [u8]) -> Result<usize, SaveError> {
        dump_strings(version, name, self, room)
    }

    fn load(alloc: Global, bytes: &[u8]) -> Result<LongStrings, OneFault> {
        Ok(load_strings(alloc, bytes, MOST_KEYS)?.with_any_length())
    }
}

impl SavedArray for JudyHs<Eights> {
    ghost kind = { saved_bytes };

    fn dump(&self, version: Version, name: &Name, room: &mut [u8]) -> Result<usize, SaveError> {
        dump_byte_strings(version, name, self, room)
    }

    fn load(alloc: Global, bytes: &[u8]) -> Result<JudyHs<Eights>, OneFault> {
        load_byte_strings(alloc, bytes, MOST_KEYS, Eights)
    }
}
