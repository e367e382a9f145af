//! The counts of C over an array of strings: how many keys stand where, and which key stands at a place.

ghost use Rattle.std.specs.Prelude.{◌≡◌, ◌≤◌, IfSome, length};
ghost use Rattle.judy_model.specs.Counts as counts;
ghost use Rattle.judy_sl.specs.Strings.{IsString};
ghost use Rattle.judy_c.specs.Answers.{IsSaid};
ghost use Rattle.judy_c.specs.KeyScans.{told_says};
ghost use Rattle.judy_c.specs.StringMaps.{array_in};

use crate::answers::{FOUND, NONE, TOO_SMALL};
use crate::handles::Handle;
use crate::strings::Strings;
use judy_sl::LongStrings;
use std::alloc::Global;

/// How many keys there are from one string to another, both included; 0 where the first is above the second, and where
/// the map can't hold one of the two.
#[unsafe(no_mangle)]
pub extern "C" fn sellumaq_judysl_count(
    alloc: Global,
    handle: &mut Strings,
    from: &[u8],
    to: &[u8],
) -> u64
    ensures count { IsString from.now → IsString to.now
        → result ≡ counts.count (array_in handle.old).map from.now to.now }
    ensures refused { (IsString from.now × IsString to.now → ⊥) → result ≡ 0 }
    ensures same { handle.new ≡ handle.old }
{
    if !LongStrings::is_key(from) || !LongStrings::is_key(to) {
        return 0;
    }
    handle.ask(alloc, |array| array.count(from, to))
}

/// The n-th key in ascending order, counted from 1, written to a buffer; with its length and its value. `FOUND`; or
/// `NONE` for 0 and above the number of keys, and all stays; or `TOO_SMALL` where the key doesn't fit: then buffer and
/// count stay, and the value tells how many bytes the key has.
#[unsafe(no_mangle)]
pub extern "C" fn sellumaq_judysl_by_count(
    handle: &mut Strings,
    n: u64,
    buffer: &mut [u8],
    count: &mut usize,
    value: &mut u64,
) -> u32
    ensures told { IsSaid
        (told_says (array_in handle.old).map (counts.by_count (array_in handle.old).map n)
        (record { buffer = buffer.old; count = count.old; value = value.old })
        (record { buffer = buffer.new; count = count.new; value = value.new })) result }
    ensures same { handle.new ≡ handle.old }
{
    match handle.array() {
        Some(array) => {
            if array.longest() <= buffer.len() {
                tell_nth(array, n, buffer, count, value)
            } else {
                tell_nth_measured(array, n, buffer, count, value)
            }
        }
        None => NONE,
    }
}

// Tells the n-th key of an array, where it fits the buffer: it is written where it is to stand.
fn tell_nth(
    array: &LongStrings,
    n: u64,
    buffer: &mut [u8],
    count: &mut usize,
    value: &mut u64,
) -> u32
    requires { IfSome (counts.by_count array.now.map n) (λ key. length key ≤ length buffer.old) }
    ensures { IsSaid (told_says array.now.map (counts.by_count array.now.map n)
        (record { buffer = buffer.old; count = count.old; value = value.old })
        (record { buffer = buffer.new; count = count.new; value = value.new })) result }
{
    match array.by_count_in(n, buffer, count) {
        Some(word) => {
            *value = word;
            FOUND
        }
        None => NONE,
    }
}

// The same where not every key fits: how long the key is, is asked first.
#[inline(never)]
fn tell_nth_measured(
    array: &LongStrings,
    n: u64,
    buffer: &mut [u8],
    count: &mut usize,
    value: &mut u64,
) -> u32
    ensures { IsSaid (told_says array.now.map (counts.by_count array.now.map n)
        (record { buffer = buffer.old; count = count.old; value = value.old })
        (record { buffer = buffer.new; count = count.new; value = value.new })) result }
{
    let Some(len) = array.by_count_len(n) else {
        return NONE;
    };
    if len > buffer.len() {
        *value = len as u64;
        return TOO_SMALL;
    }
    tell_nth(array, n, buffer, count, value)
}
