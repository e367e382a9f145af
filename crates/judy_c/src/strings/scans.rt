// The slots that the scans of a strings handle find.
ghost use Rattle.std.specs.Prelude.{◌≤◌, IfSome, length, take};
ghost use Rattle.std.specs.Borrow.{sem};
ghost use Rattle.std.specs.Result.{result_ok};
ghost use Rattle.judy_model.specs.Neighbours as neighbours;
ghost use Rattle.judy_sl.specs.Strings.{IsString};
ghost use Rattle.judy_c.specs.KeyScans.{neighbour};
ghost use Rattle.judy_c.specs.ScanSlots.{IsFoundSlot};
ghost use Rattle.judy_c.specs.StringMaps.{array_in};
ghost use Rattle.judy_c.specs.StringSlots.{LendsSlotIn, LendsSlotOf};

use super::Strings;
use crate::answers::{FoundSlot, Missed};
use crate::handles::Handle;
use crate::scans::{Scan, is_start};
use judy_sl::LongStrings;

impl Strings {
    // The slot of the least key from the string in a buffer on, which that key replaces.
    pub(crate) fn first_slot(&mut self, buffer: &mut [u8], count: &mut usize) -> FoundSlot<'_>
        ensures* writes_back { sem 𝓛
            (LendsSlotOf self.entry (take count.new buffer.new) (result_ok result)) }
        ensures found { IsFoundSlot (array_in self.old).map
            (neighbours.first (array_in self.old).map)
            (buffer.old, count.old) (buffer.new, count.new) result }
    {
        self.scan_slot(Scan::First, buffer, count)
    }

    // The slot of the least key above the string in a buffer, which that key replaces.
    pub(crate) fn next_slot(&mut self, buffer: &mut [u8], count: &mut usize) -> FoundSlot<'_>
        ensures* writes_back { sem 𝓛
            (LendsSlotOf self.entry (take count.new buffer.new) (result_ok result)) }
        ensures found { IsFoundSlot (array_in self.old).map
            (neighbours.next (array_in self.old).map)
            (buffer.old, count.old) (buffer.new, count.new) result }
    {
        self.scan_slot(Scan::Next, buffer, count)
    }

    // The slot of the greatest key up to the string in a buffer, which that key replaces.
    pub(crate) fn last_slot(&mut self, buffer: &mut [u8], count: &mut usize) -> FoundSlot<'_>
        ensures* writes_back { sem 𝓛
            (LendsSlotOf self.entry (take count.new buffer.new) (result_ok result)) }
        ensures found { IsFoundSlot (array_in self.old).map
            (neighbours.last (array_in self.old).map)
            (buffer.old, count.old) (buffer.new, count.new) result }
    {
        self.scan_slot(Scan::Last, buffer, count)
    }

    // The slot of the greatest key below the string in a buffer, which that key replaces.
    pub(crate) fn prev_slot(&mut self, buffer: &mut [u8], count: &mut usize) -> FoundSlot<'_>
        ensures* writes_back { sem 𝓛
            (LendsSlotOf self.entry (take count.new buffer.new) (result_ok result)) }
        ensures found { IsFoundSlot (array_in self.old).map
            (neighbours.prev (array_in self.old).map)
            (buffer.old, count.old) (buffer.new, count.new) result }
    {
        self.scan_slot(Scan::Prev, buffer, count)
    }

    // The slot of the key that a scan finds from the string in a buffer, which that key replaces.
    fn scan_slot(&mut self, scan: Scan, buffer: &mut [u8], count: &mut usize) -> FoundSlot<'_>
        ensures* writes_back { sem 𝓛
            (LendsSlotOf self.entry (take count.new buffer.new) (result_ok result)) }
        ensures found { IsFoundSlot (array_in self.old).map (neighbour scan (array_in self.old).map)
            (buffer.old, count.old) (buffer.new, count.new) result }
    {
        if !is_start(buffer, *count) {
            return Err(Missed::BadKey);
        }
        match self.array() {
            Some(array) => {
                if array.longest() <= buffer.len() {
                    slot_in(array, scan, buffer, count)
                } else {
                    slot_measured(array, scan, buffer, count)
                }
            }
            None => Err(Missed::NoKey),
        }
    }
}

// The slot of the key that a scan finds from the string with which a buffer begins, where that key fits it: it is
// written where it is to stand.
fn slot_in<'a>(
    array: &'a mut LongStrings,
    scan: Scan,
    buffer: &mut [u8],
    count: &mut usize,
) -> FoundSlot<'a>
    requires room { IfSome (neighbour scan array.old.map (take count.old buffer.old))
        (λ key. length key ≤ length buffer.old) }
    requires start { (count.old ≤ length buffer.old) × IsString (take count.old buffer.old) }
    ensures* writes_back { sem 𝓛
        (LendsSlotIn array.entry (take count.new buffer.new) (result_ok result)) }
    ensures found { IsFoundSlot array.old.map (neighbour scan array.old.map)
        (buffer.old, count.old) (buffer.new, count.new) result }
{
    match array.neighbour_slot_in(scan.look(), buffer, count) {
        Some(slot) => Ok(slot),
        None => Err(Missed::NoKey),
    }
}

// The same where not every key fits: how long the key is, is asked first.
#[inline(never)]
fn slot_measured<'a>(
    array: &'a mut LongStrings,
    scan: Scan,
    buffer: &mut [u8],
    count: &mut usize,
) -> FoundSlot<'a>
    requires start { (count.old ≤ length buffer.old) × IsString (take count.old buffer.old) }
    ensures* writes_back { sem 𝓛
        (LendsSlotIn array.entry (take count.new buffer.new) (result_ok result)) }
    ensures found { IsFoundSlot array.old.map (neighbour scan array.old.map)
        (buffer.old, count.old) (buffer.new, count.new) result }
{
    let Some(len) = array.neighbour_len(scan.look(), &buffer[..*count]) else {
        return Err(Missed::NoKey);
    };
    if len > buffer.len() {
        return Err(Missed::TooSmall);
    }
    slot_in(array, scan, buffer, count)
}
