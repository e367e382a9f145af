//! New arrays of the keys that two have together, and copies.

ghost use Rattle.std.specs.Prelude.{◌≡◌, ◌≤◌, IfOk};
ghost use Rattle.judy_model.specs.TwoMaps as two;
ghost use Rattle.judy_string_sets.specs.Walks.{kept};
ghost use Rattle.judy_string_sets.specs.Results.{IsMade};

use crate::fills::{exceeds, fill};
use crate::which::Which;
use judy_sl::{KeyLength, StringsOf};
use judy_word::InsertError;
use std::alloc::{AllocError, Global};

// The most keys that an array may have.
const MOST_KEYS: u64 = 4_294_967_295;

// The array with a limit of the keys of the one that are meant, and of those that the other has alone, where these are
// wanted. `Full` where they are more than the limit, which is told before memory is asked for.
fn combined<L: KeyLength>(
    alloc: Global,
    limit: u64,
    which: Which,
    rest: bool,
    one: &StringsOf<L>,
    other: &StringsOf<L>,
) -> Result<StringsOf<L>, InsertError>
    requires some { 1 ≤ limit }
    requires most { limit ≤ 4294967295 }
    ensures { IsMade limit (kept which rest one.now.map other.now.map) result }
{
    if exceeds(limit, which, rest, one, other) {
        return Err(InsertError::Full);
    }
    let mut made = StringsOf::new(alloc, limit);
    match fill(alloc, &mut made, which, rest, one, other) {
        Ok(()) => Ok(made),
        Err(_) => Err(InsertError::NoMemory),
    }
}

/// The array with a limit, from 1 to 4,294,967,295, of the keys that the one or the other has. Of a key that both have,
/// the value is that of the one.
///
/// `Full` where they are more than the limit, which is told before memory is asked for; `NoMemory` where there is none.
/// Each key is put in by itself: first those that the other has alone, then those of the one. Where an array may hold a
/// key of more than 1,024 bytes, as [`StringsOf::longest`] tells, memory for the bytes of its longest is asked for too.
///
///     let all = union(alloc, 100, &one, &other)?;
pub fn union<L: KeyLength>(
    alloc: Global,
    limit: u64,
    one: &StringsOf<L>,
    other: &StringsOf<L>,
) -> Result<StringsOf<L>, InsertError>
    requires some { 1 ≤ limit }
    requires most { limit ≤ 4294967295 }
    ensures { IsMade limit (two.union one.now.map other.now.map) result }
{
    combined(alloc, limit, Which::All, true, one, other)
}

/// The array with a limit, from 1 to 4,294,967,295, of the keys that both have, with the values of the one. The errors
/// are those of [`union`].
pub fn intersection<L: KeyLength>(
    alloc: Global,
    limit: u64,
    one: &StringsOf<L>,
    other: &StringsOf<L>,
) -> Result<StringsOf<L>, InsertError>
    requires some { 1 ≤ limit }
    requires most { limit ≤ 4294967295 }
    ensures { IsMade limit (two.intersection one.now.map other.now.map) result }
{
    combined(alloc, limit, Which::Common, false, one, other)
}

/// The array with a limit, from 1 to 4,294,967,295, of the keys of the one that the other lacks. The errors are those
/// of [`union`].
pub fn difference<L: KeyLength>(
    alloc: Global,
    limit: u64,
    one: &StringsOf<L>,
    other: &StringsOf<L>,
) -> Result<StringsOf<L>, InsertError>
    requires some { 1 ≤ limit }
    requires most { limit ≤ 4294967295 }
    ensures { IsMade limit (two.difference one.now.map other.now.map) result }
{
    combined(alloc, limit, Which::Alone, false, one, other)
}

/// The array with a limit, from 1 to 4,294,967,295, of the keys that exactly one of them has. The errors are those of
/// [`union`].
pub fn symmetric_difference<L: KeyLength>(
    alloc: Global,
    limit: u64,
    one: &StringsOf<L>,
    other: &StringsOf<L>,
) -> Result<StringsOf<L>, InsertError>
    requires some { 1 ≤ limit }
    requires most { limit ≤ 4294967295 }
    ensures { IsMade limit (two.symmetric_difference one.now.map other.now.map) result }
{
    combined(alloc, limit, Which::Alone, true, one, other)
}

/// An array with the same keys, values and limit. The error is want of memory.
///
///     let kept = copy(alloc, &prices)?;
pub fn copy<L: KeyLength>(alloc: Global, array: &StringsOf<L>) -> Result<StringsOf<L>, AllocError>
    ensures { IfOk result (λ copy. copy ≡ array.now) }
{
    let limit = array.limit();
    if limit > MOST_KEYS {
        return Err(AllocError);
    }
    match combined(alloc, limit, Which::All, false, array, array) {
        Ok(copy) => Ok(copy),
        Err(_) => Err(AllocError),
    }
}

/// Gives back memory that deletes have left unused. Where many keys have gone, a copy takes the array's place; else,
/// and where memory for that is refused, what is left of keys moves together (`StringsOf::shrink`). It can't fail; each
/// key keeps its value.
///
///     shrink(alloc, &mut prices);
pub fn shrink<L: KeyLength>(alloc: Global, array: &mut StringsOf<L>)
    ensures { array.new ≡ array.old }
{
    if array.lost_many() {
        if let Ok(copy) = copy(alloc, array) {
            *array = copy;
            return;
        }
    }
    array.shrink();
}
