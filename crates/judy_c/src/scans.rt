//! The scans of C over an array of strings.

ghost use Rattle.std.specs.Prelude.{◌≡◌, ◌≤◌, ◌↔◌, ℕ, IsTrue, IfSome, length, take};
ghost use Rattle.std.specs.FinMap.{FinMap};
ghost use Rattle.judy_model.specs.Keys.{byte_order};
ghost use Rattle.judy_sl.specs.Strings.{IsString};
ghost use Rattle.judy_sl.specs.Scans.{neighbour_along};
ghost use Rattle.judy_c.specs.Answers.{IsSaid};
ghost use Rattle.judy_c.specs.KeyScans.{neighbour, scan_says};
ghost use Rattle.judy_c.specs.StringMaps.{array_in};

use crate::answers::{BAD_KEY, FOUND, NONE, TOO_SMALL};
use crate::handles::Handle;
use crate::strings::Strings;
use judy_sl::{LongStrings, Look, Side};

// What a scan looks for: the least key from a string on, the least above it, the greatest up to it, the greatest below
// it.
#[derive(Clone, Copy)]
pub(crate) enum Scan {
    First,
    Next,
    Last,
    Prev,
}

impl Scan {
    // Scans the array of a handle from the string in the caller's buffer, and tells the key found there, its length and
    // its value.
    pub(crate) fn tell(
        self,
        handle: &mut Strings,
        buffer: &mut [u8],
        count: &mut usize,
        value: &mut u64,
    ) -> u32
        ensures told { IsSaid
            (scan_says (array_in handle.old).map (neighbour self (array_in handle.old).map)
            (record { buffer = buffer.old; count = count.old; value = value.old })
            (record { buffer = buffer.new; count = count.new; value = value.new })) result }
        ensures same { handle.new ≡ handle.old }
    {
        if !is_start(buffer, *count) {
            return BAD_KEY;
        }
        match handle.array() {
            Some(array) => {
                if array.longest() <= buffer.len() {
                    self.tell_in(array, buffer, count, value)
                } else {
                    self.tell_measured(array, buffer, count, value)
                }
            }
            None => NONE,
        }
    }

    // The same where the buffer begins with such a string, and the key fits it: the key is written where it is to
    // stand.
    #[inline(always)]
    fn tell_in(
        self,
        array: &LongStrings,
        buffer: &mut [u8],
        count: &mut usize,
        value: &mut u64,
    ) -> u32
        requires room { IfSome (neighbour self array.now.map (take count.old buffer.old))
            (λ key. length key ≤ length buffer.old) }
        requires start { (count.old ≤ length buffer.old)
            × IsString (take count.old buffer.old) }
        ensures { IsSaid (scan_says array.now.map (neighbour self array.now.map)
            (record { buffer = buffer.old; count = count.old; value = value.old })
            (record { buffer = buffer.new; count = count.new; value = value.new })) result }
    {
        match array.neighbour_in(self.look(), buffer, count) {
            Some(word) => {
                *value = word;
                FOUND
            }
            None => NONE,
        }
    }

    // The same where not every key fits: how long the key is, is asked first.
    #[inline(never)]
    fn tell_measured(
        self,
        array: &LongStrings,
        buffer: &mut [u8],
        count: &mut usize,
        value: &mut u64,
    ) -> u32
        requires start { (count.old ≤ length buffer.old)
            × IsString (take count.old buffer.old) }
        ensures { IsSaid (scan_says array.now.map (neighbour self array.now.map)
            (record { buffer = buffer.old; count = count.old; value = value.old })
            (record { buffer = buffer.new; count = count.new; value = value.new })) result }
    {
        let Some(len) = array.neighbour_len(self.look(), &buffer[..*count]) else {
            return NONE;
        };
        if len > buffer.len() {
            *value = len as u64;
            return TOO_SMALL;
        }
        self.tell_in(array, buffer, count, value)
    }

    // What it looks for, as the array is asked.
    pub(crate) fn look(self) -> Look
        ensures { (map : FinMap byte_order ℕ)
            → neighbour_along result.side result.itself map ≡ neighbour self map }
    {
        match self {
            Scan::First => Look::inclusive(Side::Above),
            Scan::Next => Look::exclusive(Side::Above),
            Scan::Last => Look::inclusive(Side::Below),
            Scan::Prev => Look::exclusive(Side::Below),
        }
    }
}

// Whether a buffer begins with a string of so many bytes that a scan may begin at.
pub(crate) fn is_start(buffer: &[u8], count: usize) -> bool
    ensures { IsTrue result
        ↔ ((count ≤ length buffer.now) × IsString (take count buffer.now)) }
{
    match buffer.get(..count) {
        Some(string) => LongStrings::is_key(string),
        None => false,
    }
}
