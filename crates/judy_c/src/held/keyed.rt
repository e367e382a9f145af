// The inserts into the array of byte keys that a handle holds, one way for all kinds.
ghost use Rattle.std.specs.Prelude.{◌≡◌, None, IfErr, IfOk};
ghost use Rattle.std.specs.Borrow.{sem};
ghost use Rattle.judy_c.specs.HeldKeys.{IsOne, LendsInsOf, array_in};
ghost use Rattle.judy_c.specs.KeyInserts.{IsMade, IsRefused};
ghost use Rattle.judy_c.specs.KeyPuts.{IsStored};
ghost use Rattle.judy_c.specs.NullArrays.{empty_keyed};

use super::Held;
use crate::answers::{InsertRefusal, Outcome};
use crate::arrays::KeyedArray;
use crate::box_parts::BoxParts;
use std::alloc::Global;

impl<T: KeyedArray> Held<T> {
    // The slot of a key, which is put in with the value 0 where it is absent. Where that is refused nothing changes: an
    // array is made for its first key alone.
    pub(crate) fn put_in(&mut self, alloc: Global, key: &[u8]) -> Outcome<&mut u64>
        ensures* writes_back { sem 𝓛
            (LendsInsOf T.row T.seen T.without_keys self.entry key.now result) }
        ensures made { IsMade T.IsKey (array_in T.seen T.without_keys self.old) key.now result }
    {
        if self.is_null() {
            self.put_first(alloc, key)
        } else {
            self.lend().put_in(key)
        }
    }

    // The same where there is no array. A function of its own: else a call on an array that stands saves registers for
    // it.
    #[inline(never)]
    fn put_first(&mut self, alloc: Global, key: &[u8]) -> Outcome<&mut u64>
        requires { self.old.array ≡ None }
        ensures* writes_back { sem 𝓛
            (LendsInsOf T.row T.seen T.without_keys self.entry key.now result) }
        ensures made { IsMade T.IsKey (array_in T.seen T.without_keys self.old) key.now result }
    {
        self.fill(boxed_one(alloc, key, 0)?);
        match self.lend().slot_of(key) {
            Some(slot) => Ok(slot),
            None => Err(InsertRefusal::NoMemory),
        }
    }

    // Gives a key a value, and answers the one that it had. Where that is refused nothing changes.
    pub(crate) fn store(&mut self, alloc: Global, key: &[u8], value: u64) -> Outcome<Option<u64>>
        ensures { IsStored T.IsKey (array_in T.seen T.without_keys self.old) key.now value
            (self.new ≡ self.old) result (array_in T.seen T.without_keys self.new) }
    {
        match self.array() {
            Some(array) => array.store(key, value),
            None => self.store_first(alloc, key, value),
        }
    }

    // The same where there is no array.
    #[inline(never)]
    fn store_first(&mut self, alloc: Global, key: &[u8], value: u64) -> Outcome<Option<u64>>
        requires { self.old.array ≡ None }
        ensures { IsStored T.IsKey (array_in T.seen T.without_keys self.old) key.now value
            (self.new ≡ self.old) result (array_in T.seen T.without_keys self.new) }
    {
        self.fill(boxed_one(alloc, key, value)?);
        Ok(None)
    }
}

// The array that has one key with its value, in a box. Where that is refused nothing is kept.
fn boxed_one<T: KeyedArray>(alloc: Global, key: &[u8], value: u64) -> Outcome<BoxParts<T, Global>>
    ensures made { IfOk result (λ boxed. IsOne T.IsKey T.seen key.now value boxed.value) }
    ensures refused { IfErr result (IsRefused T.IsKey empty_keyed key.now) }
{
    let mut array = T::empty(alloc);
    *array.put_in(key)? = value;
    match Box::new(alloc, array) {
        Ok(boxed) => Ok(BoxParts::of(boxed)),
        Err(_) => Err(InsertRefusal::NoMemory),
    }
}
