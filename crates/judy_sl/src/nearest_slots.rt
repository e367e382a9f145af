//! The nearest key with the slot of its value, by one way down the array to both.

ghost use Rattle.std.specs.Prelude.{◌≡◌, ◌≢◌, ◌≤◌, All, IfSome, length, take};
ghost use Rattle.std.specs.Borrow.{sem};
ghost use Rattle.std.specs.Option.{option_copied_mut};
ghost use Rattle.judy_sl.specs.Scans.{neighbour_along, value_found, nearest_key, IsFront};

use crate::judysl::StringsOf;
use crate::keys::KeyLength;
use crate::scans::Look;

impl<L: KeyLength> StringsOf<L> {
    ghost use Rattle.judy_sl.specs.Lends.{LendsSlot};

    /// The slot of the neighbour of the key at the front of a buffer, which has `len` bytes; the neighbour then stands
    /// there, and `len` is its length. `None` where there is none, and both stay. What the caller leaves in the slot is
    /// then the neighbour's value. The buffer has room for the neighbour; what it has behind that stays. The key holds
    /// no zero byte, and needn't be one of the array. It asks for no memory. (Manual: JSLF, JSLN, JSLL, JSLP, whose
    /// answer is this slot.)
    ///
    /// It costs what [`StringsOf::neighbour_in`] does, and the step from the place that it finds to the slot.
    ///
    ///     if let Some(slot) = prices.neighbour_slot_in(Look::inclusive(Side::Below), &mut buffer, &mut len) {
    ///         *slot += 1;
    ///     }
    pub fn neighbour_slot_in(
        &mut self,
        look: Look,
        buffer: &mut [u8],
        len: &mut usize,
    ) -> Option<&mut u64>
        requires inside { len.old ≤ length buffer.old }
        requires room { IfSome
            (neighbour_along look.side look.itself self.old.map (take len.old buffer.old))
            (λ found. length found ≤ length buffer.old) }
        requires without_zero { All (λ byte. byte ≢ 0) (take len.old buffer.old) }
        ensures* writes_back { sem 𝓛 (LendsSlot L.row L.KeyLength
            self.entry (take len.new buffer.new) result) }
        ensures key { IsFront (nearest_key look self.old.map (take len.old buffer.old))
            buffer.old len.new buffer.new }
        ensures value { option_copied_mut result ≡ value_found self.old.map
            (neighbour_along look.side look.itself self.old.map (take len.old buffer.old)) }
    {
        let arena = &self.arena;
        match arena.nearest_in(look, buffer, len) {
            Some(found) => Some(self.arena.lend(found.place)),
            None => None,
        }
    }
}
