//! The longest key of an array of strings that begins a byte string.

ghost use Rattle.std.specs.Prelude.{◌≡◌, ◌≢◌, ◌≤◌, All, IfSome, MatchOption, None, Some, length, take};
ghost use Rattle.std.specs.FinMap as map;
ghost use Rattle.std.specs.Option.{option_map};
ghost use Rattle.judy_model.specs.Neighbours.{last};
ghost use Rattle.judy_model.specs.Prefixes.{longest_prefix};
ghost use Rattle.judy_model.specs.declared.keys.TheConstants.{LONGEST_KEY};
ghost use Rattle.judy_sl.specs.Arenas.{AreWithin};
ghost use Rattle.judy_string_sets.specs.Reaches.{IsReached};

use crate::fronts::{key_front, shared_front};
use crate::room::write_front;
use judy_model::keys::LONGEST_KEY;
use judy_sl::{KeyLength, Look, Side, StringsOf};

// How long keys may be for a search in a smaller buffer than 1,024 bytes, which is made sooner.
const SMALL: usize = 64;

// What some bytes share with a key.
enum Reached {
    // The whole key, which has so many bytes; and its value.
    Whole(usize, u64),
    // So many bytes of the key, and not all.
    Part(usize),
}

/// The longest key that bytes begin with: how many of the bytes it is, and its value. `None` where no key begins them.
/// The bytes are any, and any number of them. (This project's own: what routes and words of a lexicon are found by.)
///
/// Each search finds the greatest key up to a front of the bytes. Where that key isn't a front itself, the next search
/// is among the fronts that are no longer than what both share: so there are at most as many searches as the key
/// sought is shorter than the bytes, and mostly one or two. It asks for no memory. Where the array may hold a key of
/// more than 1,024 bytes, as [`StringsOf::longest`] tells, a search is a count and then a read of the key, as far as
/// both share bytes.
///
///     // routes has the keys `10.` and `10.1.`.
///     let found = longest_prefix(&routes, b"10.1.2.3");
///     // found == Some((5, 7)), where 7 is the value of `10.1.`
pub fn longest_prefix<L: KeyLength>(strings: &StringsOf<L>, bytes: &[u8]) -> Option<(usize, u64)>
    ensures within { IfSome result (λ found. found.0 ≤ length bytes.now) }
    ensures key { option_map (λ found. take found.0 bytes.now) result
        ≡ longest_prefix strings.now.map bytes.now }
    ensures value { IfSome result
        (λ found. map.get strings.now.map (take found.0 bytes.now) ≡ Some found.1) }
{
    strings.strings_law();
    let longest = strings.longest();
    let mut end = key_front(bytes, longest);
    'fronts: loop {
        match reach(strings, longest, &bytes[..end], bytes)? {
            Reached::Whole(shared, value) => return Some((shared, value)),
            Reached::Part(shared) => end = shared,
        }
    }
}

// What some bytes share with the greatest key up to a front; `None` where there is no such key. No key has more than so
// many bytes, nor has the front.
fn reach<L: KeyLength>(
    strings: &StringsOf<L>,
    longest: usize,
    front: &[u8],
    bytes: &[u8],
) -> Option<Reached>
    requires longest { AreWithin longest strings.now.map }
    requires most { longest ≤ L.LONGEST }
    requires short { length front.now ≤ longest }
    requires without_zero { All (λ byte. byte ≢ 0) front.now }
    ensures { MatchOption result (last strings.now.map front.now ≡ None)
        (IsReached strings.now.map (last strings.now.map front.now) bytes.now) }
{
    if longest <= SMALL {
        reach_in_buffer::<L, SMALL>(strings, front, bytes)
    } else if longest <= LONGEST_KEY {
        reach_in_buffer::<L, LONGEST_KEY>(strings, front, bytes)
    } else {
        reach_by_place(strings, front, bytes)
    }
}

// The same where no key is longer than a buffer of so many bytes.
fn reach_in_buffer<L: KeyLength, const N: usize>(
    strings: &StringsOf<L>,
    front: &[u8],
    bytes: &[u8],
) -> Option<Reached>
    requires most { N ≤ LONGEST_KEY }
    requires longest { AreWithin N strings.now.map }
    requires short { length front.now ≤ N }
    requires without_zero { All (λ byte. byte ≢ 0) front.now }
    ensures { MatchOption result (last strings.now.map front.now ≡ None)
        (IsReached strings.now.map (last strings.now.map front.now) bytes.now) }
{
    let mut buffer = [0; N];
    let mut len = front.len();
    write_front(&mut buffer, front);
    let value = strings.neighbour_in(Look::inclusive(Side::Below), &mut buffer, &mut len)?;
    let shared = shared_front(&buffer[..len], bytes);
    if shared == len {
        Some(Reached::Whole(shared, value))
    } else {
        Some(Reached::Part(shared))
    }
}

// The same of keys that are read where they stand: the greatest key up to the front stands where as many keys are up to
// it.
fn reach_by_place<L: KeyLength>(
    strings: &StringsOf<L>,
    front: &[u8],
    bytes: &[u8],
) -> Option<Reached>
    requires short { length front.now ≤ L.LONGEST }
    requires without_zero { All (λ byte. byte ≢ 0) front.now }
    ensures { MatchOption result (last strings.now.map front.now ≡ None)
        (IsReached strings.now.map (last strings.now.map front.now) bytes.now) }
{
    let mut key = strings.read_nth(strings.count(&[], front))?;
    let shared = key.shared_with(bytes);
    if shared.ends {
        Some(Reached::Whole(shared.bytes, key.value()))
    } else {
        Some(Reached::Part(shared.bytes))
    }
}
