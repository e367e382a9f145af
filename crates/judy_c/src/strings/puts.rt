// The inserts of a value into an array behind a strings handle.
ghost use Rattle.std.specs.Prelude.{◌≡◌};
ghost use Rattle.judy_sl.specs.Strings.{IsString};
ghost use Rattle.judy_c.specs.KeyPuts.{IsStored};
ghost use Rattle.judy_c.specs.StringMaps.{array_in};

use super::Strings;
use crate::answers::Outcome;
use crate::handles::Handle;
use std::alloc::Global;

impl Strings {
    // Gives a key a value, and answers the one that it had. Where that is refused the handle is as it was.
    pub(crate) fn insert(&mut self, alloc: Global, key: &[u8], value: u64) -> Outcome<Option<u64>>
        ensures { IsStored IsString (array_in self.old) key.now value
            (self.new ≡ self.old) result (array_in self.new) }
    {
        self.held().store(alloc, key, value)
    }
}
