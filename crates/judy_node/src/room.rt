//! Room for the children of a branch.

ghost use Rattle.std.specs.Prelude.{◌≡◌, ◌+◌, ◌<◌, ◌≤◌, OnOk, vec_len, vec_capacity};

use crate::child::ChildOf;
use judy_leaf::Words;
use std::alloc::AllocError;

// From so many children on a list that is full grows to whole 32s, and before by a quarter.
const LONG: usize = 48;

// From so many on it grows to whole 64s.
const LONGER: usize = 128;

/// Makes room for one more child. Where there is none a short list grows by a quarter and not to its double, since of
/// keys that are spread wide it is most of what they take. A longer one gets room for 64, 96, 128, 192 or 256: from 64
/// children on a block is larger than those that `malloc` keeps at hand. The error is want of memory; the children are
/// the same either way.
pub fn make_room<V: Words + Drop>(children: &mut Vec<ChildOf<V>>) -> Result<(), AllocError>
    ensures items { children.new.items ≡ children.old.items }
    ensures len { vec_len children.new ≡ vec_len children.old }
    ensures room { OnOk result (vec_len children.new < vec_capacity children.new) }
{
    if children.len() < children.capacity() {
        return Ok(());
    }
    children.reserve_exact(more_for(children.len()))
}

// For how many children more a full list of so many gets room.
fn more_for(count: usize) -> usize
    ensures { 1 ≤ result }
{
    if count < LONG {
        count / 4 + 1
    } else if count < LONGER {
        32 - count % 32
    } else {
        64 - count % 64
    }
}
