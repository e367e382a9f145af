// The slots of a strings handle.
ghost use Rattle.std.specs.Prelude.{◌≡◌};
ghost use Rattle.std.specs.Borrow.{sem};
ghost use Rattle.std.specs.FinMap as map;
ghost use Rattle.std.specs.Option.{option_copied_mut};
ghost use Rattle.judy_sl.specs.Strings.{IsString};
ghost use Rattle.judy_c.specs.KeyInserts.{IsMade};
ghost use Rattle.judy_c.specs.StringMaps.{array_in};
ghost use Rattle.judy_c.specs.StringSlots.{LendsSlotOf, LendsInsOf};

use super::Strings;
use crate::answers::InsertRefusal;
use crate::handles::{Handle, slot_in};
use std::alloc::Global;

impl Strings {
    // The slot of a key, and `None` where it is absent.
    pub(crate) fn slot(&mut self, key: &[u8]) -> Option<&mut u64>
        ensures* writes_back { sem 𝓛 (LendsSlotOf self.entry key.now result) }
        ensures value { option_copied_mut result ≡ map.get (array_in self.old).map key.now }
    {
        slot_in!(self, slot(key))
    }

    // The slot of a key, which is put in with the value 0 where it is absent. Where that is refused the handle is as it
    // was.
    pub(crate) fn ins(&mut self, alloc: Global, key: &[u8]) -> Result<&mut u64, InsertRefusal>
        ensures* writes_back { sem 𝓛 (LendsInsOf self.entry key.now result) }
        ensures made { IsMade IsString (array_in self.old) key.now result }
    {
        self.held().put_in(alloc, key)
    }
}
