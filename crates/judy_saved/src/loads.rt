//! One array of the bytes of a dump that has it alone.

ghost use Rattle.std.specs.Prelude.{◌≡◌, ◌≤◌, false, IfOk};
ghost use Rattle.judy_shelf.specs.Ones.{set_with, map_with, strings_with, bytes_with};
ghost use Rattle.judy_saved.specs.Loads.{IsLoaded};

use crate::source::SliceSource;
use judy_hs::{ByteHash, JudyHs};
use judy_shelf::{OneFault, load_one_byte_strings, load_one_map, load_one_set, load_one_strings};
use judy_sl::JudySl;
use judy_word::{Judy1, JudyL};
use std::alloc::Global;

/// The set of which bytes are the dump, in the format JDY1 or JDY2, as a set that may hold `limit` keys, whatever limit
/// the dump tells. Each node of it is as small as its keys allow.
///
/// At Ok the bytes are the dump of a store that has a set of these keys alone, under some name and with some limit.
/// `NotOne` comes where the dump says another number of arrays, and `OtherKind` where its array isn't a set. `Load`
/// tells the first fault of the bytes, or want of memory: memory is asked for by the keys that were read, and never by
/// a number that the bytes say.
///
/// ```
/// // what `dump_set` wrote of the set of the key 1
/// let Ok(set) = load_set(alloc, &room[..35], u64::MAX) else {
///     return;
/// };
/// assert!(set.test(1) && set.len() == 1);
/// assert!(load_set(alloc, &room[..34], u64::MAX).err() == Some(OneFault::Load(LoadFault::Truncated)));
/// ```
pub fn load_set(alloc: Global, bytes: &[u8], limit: u64) -> Result<Judy1, OneFault>
    requires { 1 ≤ limit }
    ensures tight { IfOk result (λ made. made.loose ≡ false) }
    ensures limit { IfOk result (λ made. made.limit ≡ limit) }
    ensures read { IsLoaded 1 set_with bytes.now result }
{
    let mut source = SliceSource::new(bytes);
    load_one_set(alloc, &mut source, limit)
}

/// The map from words of which bytes are the dump, as [`load_set`] gives a set:
///
/// ```
/// // a dump of a set is none of a map
/// assert!(load_map(alloc, &room[..35], u64::MAX).err() == Some(OneFault::OtherKind));
/// ```
pub fn load_map(alloc: Global, bytes: &[u8], limit: u64) -> Result<JudyL, OneFault>
    requires { 1 ≤ limit }
    ensures tight { IfOk result (λ made. made.loose ≡ false) }
    ensures limit { IfOk result (λ made. made.limit ≡ limit) }
    ensures read { IsLoaded 2 map_with bytes.now result }
{
    let mut source = SliceSource::new(bytes);
    load_one_map(alloc, &mut source, limit)
}

/// The map from strings of which bytes are the dump, as [`load_set`] gives a set. The limit is at most 4,294,967,295,
/// as that of each such map:
///
/// ```
/// assert!(load_strings(alloc, b"JDY1\x00\x00\x00\x00", 7).err() == Some(OneFault::NotOne));
/// ```
pub fn load_strings(alloc: Global, bytes: &[u8], limit: u64) -> Result<JudySl, OneFault>
    requires some { 1 ≤ limit }
    requires most { limit ≤ 4294967295 }
    ensures limit { IfOk result (λ made. made.limit ≡ limit) }
    ensures read { IsLoaded 3 strings_with bytes.now result }
{
    let mut source = SliceSource::new(bytes);
    load_one_strings(alloc, &mut source, limit)
}

/// The map from byte strings of which bytes are the dump, under a hash, as [`load_set`] gives a set. The limit is at
/// most 4,294,967,295, as that of each such map:
///
/// ```
/// let Ok(bytes) = load_byte_strings(alloc, b"", 7, Eights) else {
///     return; // no bytes are a dump that is cut off
/// };
/// ```
pub fn load_byte_strings<H: ByteHash + Drop>(
    alloc: Global,
    bytes: &[u8],
    limit: u64,
    hasher: H,
) -> Result<JudyHs<H>, OneFault>
    requires some { 1 ≤ limit }
    requires most { limit ≤ 4294967295 }
    ensures limit { IfOk result (λ made. made.limit ≡ limit) }
    ensures read { IsLoaded 4 bytes_with bytes.now result }
{
    let mut source = SliceSource::new(bytes);
    load_one_byte_strings(alloc, &mut source, limit, hasher)
}
