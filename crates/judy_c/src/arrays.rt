//! The arrays that C holds by handles, each with the one for which a null handle stands.

ghost use Rattle.std.specs.Prelude.{◌≡◌, ◌≤◌, ℕ, List};
ghost use Rattle.std.specs.Borrow.{sem};
ghost use Rattle.std.specs.FinMap as map;
ghost use Rattle.std.specs.Option.{option_copied_mut};
ghost use Rattle.judy_model.specs.Arrays.{ArrayOf, empty_array};
ghost use Rattle.judy_model.specs.Keys.{byte_order};
ghost use Rattle.judy_sl.specs.Strings.{IsString};
ghost use Rattle.judy_c.specs.KeyInserts.{IsMade, IsShort};
ghost use Rattle.judy_c.specs.KeyPuts.{IsStored};
ghost use Rattle.judy_c.specs.KeySlots.{LendsInsOf, LendsSlotOf};
ghost use Rattle.judy_c.specs.NullArrays.{unbounded, empty_keyed};

use crate::answers::{InsertRefusal, Outcome};
use judy_hs::{Eights, HsError, JudyHs};
use judy_leaf::Words;
use judy_sl::{LongStrings, SlError};
use judy_word::WordArray;
use std::alloc::Global;

// How many keys an array of strings or of byte strings may hold: the most that it may be given as its limit.
pub(crate) const MOST_KEYS: u64 = 4294967295;

// An array that C holds by a handle.
pub(crate) trait HeldArray: Drop {
    // The one without keys, for which a null handle stands.
    ghost without_keys: { Self };

    // What is known of how many bytes of memory one takes beside its own place.
    ghost TakesBytes: { Self → ℕ → Type 0 };

    // That one. It takes no memory.
    fn empty(alloc: Global) -> Self
        ensures { result ≡ without_keys };

    // How many bytes it takes so. It goes over all nodes and pages.
    fn bytes_inside(&self) -> u64
        ensures { TakesBytes self.now result };
}

// One whose keys are bytes, all alike by their limits and maps.
pub(crate) trait KeyedArray: HeldArray {
    // Its limit and its map, and which bytes are a key of it.
    ghost seen: { Self → ArrayOf byte_order };

    ghost IsKey: { List ℕ → Type 0 };

    // The slot of a key, which is put in with the value 0 where it is absent. Where that is refused the array is as it
    // was.
    fn put_in(&mut self, key: &[u8]) -> Outcome<&mut u64>
        ensures* writes_back { sem 𝓛 (LendsInsOf Self.row seen self.entry key.now result) }
        ensures made { IsMade IsKey (seen self.old) key.now result };

    // The slot of a key, and `None` where it is absent.
    fn slot_of(&mut self, key: &[u8]) -> Option<&mut u64>
        ensures* writes_back { sem 𝓛 (LendsSlotOf Self.row seen self.entry key.now result) }
        ensures value { option_copied_mut result ≡ map.get (seen self.old).map key.now };

    // How many keys there are.
    fn key_count(&self) -> u64
        ensures { result ≡ map.len (seen self.now).map };

    // Gives a key a value, and answers the one that it had. Whether it was there is told by the number of keys.
    final fn store(&mut self, key: &[u8], value: u64) -> Outcome<Option<u64>>
        ensures { IsStored IsKey (seen self.old) key.now value (self.new ≡ self.old) result
            (seen self.new) }
    {
        let count = self.key_count();
        let slot = self.put_in(key)?;
        let was = *slot;
        *slot = value;
        let there = self.key_count() == count;
        Ok(if there { Some(was) } else { None })
    }

    // A law: the array for which a null handle stands has no key, and may hold the most.
    ghost emptied: { seen Self.without_keys ≡ empty_keyed };
}

impl<V: Words + Drop> HeldArray for WordArray<V> {
    ghost without_keys = { unbounded };

    ghost TakesBytes = { λ array bytes. map.len array.map ≤ 1 → bytes ≡ 0 };

    fn empty(alloc: Global) -> WordArray<V> {
        WordArray::unbounded(alloc)
    }

    fn bytes_inside(&self) -> u64 {
        self.bytes()
    }
}

impl HeldArray for LongStrings {
    ghost without_keys = { empty_keyed };

    ghost TakesBytes = { λ array bytes. Unit {0} };

    fn empty(alloc: Global) -> LongStrings {
        LongStrings::new(alloc, MOST_KEYS)
    }

    fn bytes_inside(&self) -> u64 {
        self.bytes()
    }
}

impl HeldArray for JudyHs<Eights> {
    ghost without_keys = { empty_keyed };

    ghost TakesBytes = { λ array bytes. Unit {0} };

    fn empty(alloc: Global) -> JudyHs<Eights> {
        JudyHs::new(alloc, MOST_KEYS, Eights)
    }

    fn bytes_inside(&self) -> u64 {
        self.bytes()
    }
}

// What an insert into an array whose keys are bytes gives; the array's error for bytes that are no key is named.
macro_rules! made {
    ($inserted:expr, $error:ident::$bad_key:ident) => {
        match $inserted {
            Ok(slot) => Ok(slot),
            Err($error::$bad_key) => Err(InsertRefusal::BadKey),
            Err($error::Full) => Err(InsertRefusal::Full),
            Err($error::NoMemory) => Err(InsertRefusal::NoMemory),
        }
    };
}

impl KeyedArray for LongStrings {
    ghost use Rattle.std.specs.Prelude.{refl};

    ghost seen = { λ array. array };

    ghost IsKey = { IsString };

    fn put_in(&mut self, key: &[u8]) -> Outcome<&mut u64> {
        made!(self.ins(key), SlError::BadKey)
    }

    fn slot_of(&mut self, key: &[u8]) -> Option<&mut u64> {
        self.slot(key)
    }

    fn key_count(&self) -> u64 {
        self.len()
    }

    ghost emptied = { refl };
}

impl KeyedArray for JudyHs<Eights> {
    ghost use Rattle.std.specs.Prelude.{refl};

    ghost seen = { λ array. array };

    ghost IsKey = { IsShort };

    fn put_in(&mut self, key: &[u8]) -> Outcome<&mut u64> {
        made!(self.ins(key), HsError::TooLong)
    }

    fn slot_of(&mut self, key: &[u8]) -> Option<&mut u64> {
        self.slot(key)
    }

    fn key_count(&self) -> u64 {
        self.len()
    }

    ghost emptied = { refl };
}
