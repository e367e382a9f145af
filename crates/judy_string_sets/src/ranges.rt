//! Ranges of keys that are taken out.

ghost use Rattle.std.specs.Prelude.{◌≡◌, ◌≢◌, ◌≤◌, All, Some, None, MatchOption, IfOk, IsOk, OnOk, OnErr, length, take};
ghost use Rattle.std.specs.FinMap as map;
ghost use Rattle.judy_model.specs.Arrays.{with_map};
ghost use Rattle.judy_model.specs.Counts as counts;
ghost use Rattle.judy_model.specs.Neighbours.{first};
ghost use Rattle.judy_model.specs.Prefixes.{begins_with, beginning_with, without_prefix};
ghost use Rattle.judy_model.specs.Ranges.{outside};
ghost use Rattle.judy_model.specs.declared.keys.TheConstants.{LONGEST_KEY};
ghost use Rattle.judy_sl.specs.Arenas.{AreWithin};
ghost use Rattle.judy_string_sets.specs.Ends.{reaches, part, others, IsFront, IsFrontIn};

use crate::room::{room, write_front};
use judy_model::keys::LONGEST_KEY;
use judy_sl::{KeyLength, Look, Side, StringsOf};
use std::alloc::{AllocError, Global};

// Up to where a range of keys goes, by some bytes.
#[derive(Clone, Copy)]
enum End {
    // Up to these bytes, which belong to it.
    Last,
    // As long as keys begin with them.
    Prefix,
}

impl End {
    // Whether it goes up to a key.
    fn reaches(self, bytes: &[u8], key: &[u8]) -> bool
        ensures { result ≡ reaches self bytes.now key.now }
    {
        match self {
            End::Last => key.cmp(bytes).is_le(),
            End::Prefix => begins(bytes, key),
        }
    }
}

// Whether a key begins with some bytes.
fn begins(prefix: &[u8], key: &[u8]) -> bool
    ensures { result ≡ begins_with prefix.now key.now }
{
    prefix.len() <= key.len() && &key[..prefix.len()] == prefix
}

// Writes the first key from some bytes on to the front of a buffer that these and each key fit, and answers how many
// bytes it has; `None` where there is none.
fn first_from<L: KeyLength>(array: &StringsOf<L>, from: &[u8], buffer: &mut [u8]) -> Option<usize>
    requires without_zero { All (λ byte. byte ≢ 0) from.now }
    requires fits { length from.now ≤ length buffer.old }
    requires longest { AreWithin (length buffer.old) array.now.map }
    ensures found { MatchOption result (first array.now.map from.now ≡ None)
        (IsFrontIn buffer.new (first array.now.map from.now)) }
    ensures room { length buffer.new ≡ length buffer.old }
{
    let mut len = from.len();
    write_front(buffer, from);
    array.neighbour_in(Look::inclusive(Side::Above), buffer, &mut len)?;
    Some(len)
}

// Takes the keys of a range out by a buffer that its begin and each key fit, and answers how many they were.
fn remove_by<L: KeyLength>(
    array: &mut StringsOf<L>,
    from: &[u8],
    end: End,
    bytes: &[u8],
    buffer: &mut [u8],
) -> u64
    requires without_zero { All (λ byte. byte ≢ 0) from.now }
    requires front { IsFront from.now (reaches end bytes.now) }
    requires fits { length from.now ≤ length buffer.old }
    requires longest { AreWithin (length buffer.old) array.old.map }
    ensures count { result ≡ map.len (part array.old.map from.now (reaches end bytes.now)) }
    ensures left { array.new
        ≡ with_map array.old (others array.old.map from.now (reaches end bytes.now)) }
{
    let _most = array.len();
    let mut count = 0;
    'keys: while let Some(len) = first_from(array, from, buffer) {
        let key = &buffer[..len];
        if !end.reaches(bytes, key) {
            return count;
        }
        array.del(key);
        count += 1;
    }
    count
}

// The same with a buffer of its own. Memory for it is asked for where a key, or the begin, may have more than 1,024
// bytes: before any key goes.
fn remove_keys<L: KeyLength>(
    alloc: Global,
    array: &mut StringsOf<L>,
    from: &[u8],
    end: End,
    bytes: &[u8],
) -> Result<u64, AllocError>
    requires from { L.IsKey from.now }
    requires front { IsFront from.now (reaches end bytes.now) }
    ensures count { IfOk result
        (λ count. count ≡ map.len (part array.old.map from.now (reaches end bytes.now))) }
    ensures left { OnOk result (array.new
        ≡ with_map array.old (others array.old.map from.now (reaches end bytes.now))) }
    ensures stays { OnErr result (array.new ≡ array.old) }
    ensures short { L.LONGEST ≤ LONGEST_KEY → IsOk result }
{
    let longest = array.longest().max(from.len());
    if longest <= LONGEST_KEY {
        let mut buffer = [0; LONGEST_KEY];
        return Ok(remove_by(array, from, end, bytes, &mut buffer));
    }
    let mut buffer = room(alloc, longest)?;
    Ok(remove_by(array, from, end, bytes, buffer.as_mut_slice()))
}

/// Takes the keys from one string to another out, both included, and answers how many they were: none where the first
/// is above the second. The first is one that may be a key, and needn't be one of the array's. Each key is searched and
/// deleted by itself.
///
/// The error is want of memory, and the array stays then. Memory is asked for where the first string has more than
/// 1,024 bytes, or a key may have, as [`StringsOf::longest`] tells: once, for so many bytes. So an array over keys that
/// have at most 1,024, as those of a store, asks for none, and never answers the error.
///
/// Of the keys `a`, `ab` and `c`, `remove_range(alloc, &mut map, b"a", b"b")` leaves `c`.
pub fn remove_range<L: KeyLength>(
    alloc: Global,
    array: &mut StringsOf<L>,
    from: &[u8],
    to: &[u8],
) -> Result<u64, AllocError>
    requires { L.IsKey from.now }
    ensures count { IfOk result (λ count. count ≡ counts.count array.old.map from.now to.now) }
    ensures left { OnOk result (array.new
        ≡ with_map array.old (outside array.old.map from.now to.now)) }
    ensures stays { OnErr result (array.new ≡ array.old) }
    ensures short { L.LONGEST ≤ LONGEST_KEY → IsOk result }
{
    remove_keys(alloc, array, from, End::Last, to)
}

/// Takes the keys that begin with some bytes out, and answers how many they were: none where the bytes are no key, and
/// all where there are no bytes. Each key is searched and deleted by itself. The error, and when memory is asked for,
/// are those of [`remove_range`].
///
/// Of the keys `a`, `ab` and `c`, `remove_prefix(alloc, &mut map, b"a")` leaves `c`.
pub fn remove_prefix<L: KeyLength>(
    alloc: Global,
    array: &mut StringsOf<L>,
    prefix: &[u8],
) -> Result<u64, AllocError>
    ensures count { IfOk result
        (λ count. count ≡ map.len (beginning_with array.old.map prefix.now)) }
    ensures left { OnOk result (array.new
        ≡ with_map array.old (without_prefix array.old.map prefix.now)) }
    ensures stays { OnErr result (array.new ≡ array.old) }
    ensures short { L.LONGEST ≤ LONGEST_KEY → IsOk result }
{
    if !StringsOf::<L>::is_key(prefix) {
        array.strings_law();
        return Ok(0);
    }
    remove_keys(alloc, array, prefix, End::Prefix, prefix)
}
