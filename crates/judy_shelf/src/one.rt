//! One array from bytes: the dump of a shelf that has this one alone, into an array that stands on none.

ghost use Rattle.std.specs.Prelude.{◌≡◌, ◌<◌, ◌≤◌, ◌-◌, ◌^◌, IfOk, false};
ghost use Rattle.judy_shelf.specs.Ones.{HeadRead, LoadedOne, set_with, map_with, strings_with, bytes_with};
ghost use Rattle.judy_shelf.specs.Reads.{drawn};
ghost use Rattle.judy_shelf.specs.Writes.{kind_number};

use crate::fault::LoadFault;
use crate::fields::read_end;
use crate::head::{read_array_count, read_key_count, read_kind, read_limit, read_magic, read_name};
use crate::kind::Kind;
use crate::loads::{read_byte_strings, read_set, read_strings, read_words};
use crate::shelf::Shelf;
use crate::version::Version;
use crate::write::kind_number;
use judy_hs::{ByteHash, JudyHs};
use judy_pipe::Source;
use judy_sl::JudySl;
use judy_word::{FillingMap, FillingSet, Judy1, JudyL};
use std::alloc::Global;
use thiserror::Error;

/// Why no array is loaded.
#[derive(Clone, Copy, Debug, PartialEq, Eq, Error)]
pub enum OneFault {
    /// The reader failed, there is no memory, or the bytes are no dump: as `load` finds it.
    #[error("the dump can't be loaded")]
    Load(LoadFault),
    /// The dump says that it has no array, or several.
    #[error("not a dump of one array")]
    NotOne,
    /// The array of the dump is of another kind.
    #[error("an array of another kind")]
    OtherKind,
}

impl From<LoadFault> for OneFault {
    ghost use Rattle.judy_shelf.specs.declared.one.OneFault.TheVariants.{Load};

    ghost from_gives = { λ fault told. told ≡ Load fault };

    fn from(fault: LoadFault) -> OneFault {
        OneFault::Load(fault)
    }
}

// What stands before the keys, as far as it tells how to read them.
#[derive(Clone, Copy)]
struct Head {
    version: Version,
    count: u64,
}

// Reads what stands before the keys of a dump of one array, of this kind.
fn read_head<R: Source>(alloc: Global, source: &mut R, kind: Kind) -> Result<Head, OneFault>
    requires { (R.tally source.old).failures < 2 ^ 64 - 1 }
    ensures { HeadRead (kind_number kind)
        (drawn (R.given source.old) (R.ended source.old) (R.tally source.old).failures) result
        (drawn (R.given source.new) (R.ended source.new) (R.tally source.new).failures) }
{
    let version = read_magic(source)?;
    let arrays = read_array_count(source)?;
    if arrays != 1 {
        return Err(OneFault::NotOne);
    }
    let none = Shelf::new(alloc);
    let name = read_name(source, &none)?;
    let number = kind_number(read_kind(source)?);
    if number != kind_number(kind) {
        return Err(OneFault::OtherKind);
    }
    let limit = read_limit(source)?;
    let count = read_key_count(source, limit)?;
    Ok(Head { version, count })
}

/// Reads the dump of one set, in the format JDY1 or JDY2, from the first byte to the end of the source, and gives a set
/// of its keys that may hold so many, whatever limit the dump tells. Each node of it is as small as its keys allow.
///
/// At Ok what the source gave is the dump of a store that has a set of these keys alone, under some name and with some
/// limit. `NotOne` comes where the dump says another number of arrays, and `OtherKind` where its array isn't a set;
/// nothing behind that is read. Each other fault comes as [`load`](crate::load) gives it.
pub fn load_one_set<R: Source>(alloc: Global, source: &mut R, limit: u64) -> Result<Judy1, OneFault>
    requires below { (R.tally source.old).failures < 2 ^ 64 - 1 }
    requires some { 1 ≤ limit }
    ensures tight { IfOk result (λ made. made.loose ≡ false) }
    ensures limit { IfOk result (λ made. made.limit ≡ limit) }
    ensures read { LoadedOne 1 set_with
        (drawn (R.given source.old) (R.ended source.old) (R.tally source.old).failures) result
        (drawn (R.given source.new) (R.ended source.new) (R.tally source.new).failures) }
{
    let head = read_head(alloc, source, Kind::Judy1)?;
    let empty = FillingSet::new(alloc, limit);
    let set = read_set(source, empty, head.count)?;
    read_end(source)?;
    Ok(set)
}

/// Reads the dump of one map from words, as [`load_one_set`] reads that of a set.
pub fn load_one_map<R: Source>(alloc: Global, source: &mut R, limit: u64) -> Result<JudyL, OneFault>
    requires below { (R.tally source.old).failures < 2 ^ 64 - 1 }
    requires some { 1 ≤ limit }
    ensures tight { IfOk result (λ made. made.loose ≡ false) }
    ensures limit { IfOk result (λ made. made.limit ≡ limit) }
    ensures read { LoadedOne 2 map_with
        (drawn (R.given source.old) (R.ended source.old) (R.tally source.old).failures) result
        (drawn (R.given source.new) (R.ended source.new) (R.tally source.new).failures) }
{
    let head = read_head(alloc, source, Kind::JudyL)?;
    let empty = FillingMap::new(alloc, limit);
    let words = read_words(source, empty, head.count)?;
    read_end(source)?;
    Ok(words)
}

/// Reads the dump of one map from strings, as [`load_one_set`] reads that of a set.
pub fn load_one_strings<R: Source>(
    alloc: Global,
    source: &mut R,
    limit: u64,
) -> Result<JudySl, OneFault>
    requires below { (R.tally source.old).failures < 2 ^ 64 - 1 }
    requires some { 1 ≤ limit }
    requires most { limit ≤ 4294967295 }
    ensures limit { IfOk result (λ made. made.limit ≡ limit) }
    ensures read { LoadedOne 3 strings_with
        (drawn (R.given source.old) (R.ended source.old) (R.tally source.old).failures) result
        (drawn (R.given source.new) (R.ended source.new) (R.tally source.new).failures) }
{
    let head = read_head(alloc, source, Kind::JudySl)?;
    let empty = JudySl::new(alloc, limit);
    let strings = read_strings(source, head.version, empty, head.count)?;
    read_end(source)?;
    Ok(strings)
}

/// Reads the dump of one map from byte strings, as [`load_one_set`] reads that of a set, into one under a hash.
pub fn load_one_byte_strings<R: Source, H: ByteHash + Drop>(
    alloc: Global,
    source: &mut R,
    limit: u64,
    hasher: H,
) -> Result<JudyHs<H>, OneFault>
    requires below { (R.tally source.old).failures < 2 ^ 64 - 1 }
    requires some { 1 ≤ limit }
    requires most { limit ≤ 4294967295 }
    ensures limit { IfOk result (λ made. made.limit ≡ limit) }
    ensures read { LoadedOne 4 bytes_with
        (drawn (R.given source.old) (R.ended source.old) (R.tally source.old).failures) result
        (drawn (R.given source.new) (R.ended source.new) (R.tally source.new).failures) }
{
    let head = read_head(alloc, source, Kind::JudyHs)?;
    let empty = JudyHs::new(alloc, limit, hasher);
    let bytes = read_byte_strings(source, empty, head.count)?;
    read_end(source)?;
    Ok(bytes)
}
