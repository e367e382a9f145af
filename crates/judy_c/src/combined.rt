//! How an array is made of two others, copied, and handed to a handle in place of what that held: one way for sets,
//! maps and maps from strings.
//!
//! kinds.rt has how arrays of each kind are put together and copied.

ghost use Rattle.std.specs.Prelude.{◌≡◌, ◌<◌, None, IfOk};
ghost use Rattle.judy_model.specs.TwoMaps as two;
ghost use Rattle.judy_c.specs.Combined.{joined, stands_for, IsCombined, IsDone, IsMade, IsTaken};

pub(crate) mod kinds;

use crate::answers::{DONE, FULL, NO_MEMORY};
use crate::arrays::HeldArray;
use crate::box_parts::BoxParts;
use crate::handles::Handle;
use crate::two_words::of_both;
use judy_word::InsertError;
use kinds::{CombinedArray, Joint};
use std::alloc::{AllocError, Global};

// Hands what was made, in a box, to a handle, in place of what that held.
pub(crate) fn hand<H: Handle>(
    alloc: Global,
    handle: &mut H,
    made: Result<H::Array, InsertError>,
) -> u32
    ensures { IsTaken made (H.held_by handle.new).array (handle.new ≡ handle.old) result }
{
    match made {
        Ok(array) => match Box::new(alloc, array) {
            Ok(boxed) => {
                handle.release(alloc);
                handle.fill(BoxParts::of(boxed));
                DONE
            }
            Err(_) => NO_MEMORY,
        },
        Err(InsertError::NoMemory) => NO_MEMORY,
        Err(InsertError::Full) => FULL,
    }
}

// Makes an array what two others are together, in place of what it held.
pub(crate) fn combine<H: Handle>(
    alloc: Global,
    joint: Joint,
    made: &mut H,
    one: &mut H,
    other: &mut H,
) -> u32
where
    H::Array: CombinedArray,
    ensures answer { IsCombined H.Array.kind.most
        (joined joint (stands_for H.Array.kind H.Array.without_keys (H.held_by one.old)).map
        (stands_for H.Array.kind H.Array.without_keys (H.held_by other.old)).map)
        (stands_for H.Array.kind H.Array.without_keys (H.held_by made.new))
        (made.new ≡ made.old) result }
    ensures one_stays { one.new ≡ one.old }
    ensures other_stays { other.new ≡ other.old }
{
    let array = together(alloc, joint, one, other);
    hand(alloc, made, array)
}

// What two arrays are together.
fn together<H: Handle>(
    alloc: Global,
    joint: Joint,
    one: &mut H,
    other: &mut H,
) -> Result<H::Array, InsertError>
where
    H::Array: CombinedArray,
    ensures made { IsMade H.Array.kind
        (joined joint (stands_for H.Array.kind H.Array.without_keys (H.held_by one.old)).map
        (stands_for H.Array.kind H.Array.without_keys (H.held_by other.old)).map) result }
    ensures one_stays { one.new ≡ one.old }
    ensures other_stays { other.new ≡ other.old }
{
    of_both!(one, other, H::Array::empty(alloc); left, right => {
        H::Array::combine(alloc, joint, left, right)
    })
}

// Moves all keys of another array into one, and leaves the other's handle null.
pub(crate) fn append<H: Handle>(alloc: Global, handle: &mut H, other: &mut H) -> u32
where
    H::Array: CombinedArray,
    ensures answer { IsCombined H.Array.kind.most
        (two.union (stands_for H.Array.kind H.Array.without_keys (H.held_by handle.old)).map
        (stands_for H.Array.kind H.Array.without_keys (H.held_by other.old)).map)
        (stands_for H.Array.kind H.Array.without_keys (H.held_by handle.new))
        (handle.new ≡ handle.old) result }
    ensures emptied { result ≡ 1 → (H.held_by other.new).array ≡ None }
    ensures other_stays { 1 < result → other.new ≡ other.old }
{
    let joined = together(alloc, Joint::Union, handle, other);
    let answer = hand(alloc, handle, joined);
    if answer != DONE {
        return answer;
    }
    other.release(alloc);
    answer
}

// Makes an array a copy of another, in place of what it held.
pub(crate) fn copy<H: Handle>(alloc: Global, made: &mut H, handle: &mut H) -> u32
where
    H::Array: CombinedArray,
    ensures answer { IsDone (stands_for H.Array.kind H.Array.without_keys (H.held_by made.new)
        ≡ stands_for H.Array.kind H.Array.without_keys (H.held_by handle.old))
        (made.new ≡ made.old) result }
    ensures stays { handle.new ≡ handle.old }
{
    match copy_of(alloc, handle) {
        Ok(copy) => hand(alloc, made, Ok(copy)),
        Err(_) => NO_MEMORY,
    }
}

// A copy of the array that a handle stands for.
fn copy_of<H: Handle>(alloc: Global, handle: &mut H) -> Result<H::Array, AllocError>
where
    H::Array: CombinedArray,
    ensures copied { IfOk result (λ copy. H.Array.kind.array copy
        ≡ stands_for H.Array.kind H.Array.without_keys (H.held_by handle.old)) }
    ensures stays { handle.new ≡ handle.old }
{
    match handle.array() {
        Some(array) => array.copy(alloc),
        None => Ok(H::Array::empty(alloc)),
    }
}
