//! Numbers that are no keys, beside keys packed into words. Keys that are neighbours are followed one by one, from the
//! first or the last that could be the number asked for.

ghost use Rattle.std.specs.Prelude.{◌≡◌, ◌+◌, ◌≤◌, ◌^◌, length};
ghost use Rattle.std.specs.List.Sorted.{IsStrictlySortedBy};
ghost use Rattle.judy_model.specs.Keys.{word_order};
ghost use Rattle.judy_model.specs.Nearest.{IsFirst, IsLast};
ghost use Rattle.judy_leaf.specs.Packing.{keys_in, IsPacked, IsWidth};
ghost use Rattle.judy_leaf.specs.Nearby.{is_absent};

use crate::packed::{key_of, rank_in, up_to_in};
use judy_bits::low_part;

// The greatest number of a width.
fn top<const W: usize>() -> u64
    requires { IsWidth W }
    ensures { result + 1 ≡ 256 ^ W }
{
    low_part(u64::MAX, W)
}

// The nearest number at or above another that is no key, among those that a key of the width could be; none where all
// these are keys.
pub(crate) fn absent_from_in<const W: usize>(
    count: usize,
    words: &[u64],
    number: u64,
) -> Option<u64>
    requires packed { IsPacked W count words.now }
    requires ascending { IsStrictlySortedBy word_order (keys_in W count words.now) }
    requires few { length words.now ≤ 32 }
    ensures { IsFirst word_order (is_absent (256 ^ W) (keys_in W count words.now)) number result }
{
    let top = top::<W>();
    if number > top {
        return None;
    }
    let mut absent = number;
    for at in rank_in::<W>(count, words, number)..count {
        if key_of::<W>(words, at) != absent {
            return Some(absent);
        }
        if absent == top {
            return None;
        }
        absent += 1;
    }
    Some(absent)
}

// The nearest number at or below another that is no key, among those that a key of the width could be; none where all
// these are keys.
pub(crate) fn absent_up_to_in<const W: usize>(
    count: usize,
    words: &[u64],
    number: u64,
) -> Option<u64>
    requires packed { IsPacked W count words.now }
    requires ascending { IsStrictlySortedBy word_order (keys_in W count words.now) }
    requires few { length words.now ≤ 32 }
    ensures { IsLast word_order (is_absent (256 ^ W) (keys_in W count words.now)) number result }
{
    let mut absent = number.min(top::<W>());
    for at in (0..up_to_in::<W>(count, words, absent)).rev() {
        if key_of::<W>(words, at) != absent {
            return Some(absent);
        }
        if absent == 0 {
            return None;
        }
        absent -= 1;
    }
    Some(absent)
}
