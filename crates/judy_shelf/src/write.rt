//! The pieces of a dump, written to a sink.

ghost use Rattle.std.specs.Prelude.{◌≡◌, ◌<◌, ◌≤◌, ◌+◌, ◌-◌, ◌^◌, ◌++◌, ◌∷◌, [], length};
ghost use Rattle.judy_model.specs.Arrays.{limit_of, len_of};
ghost use Rattle.judy_model.specs.WordBytes.{low_bytes};
ghost use Rattle.judy_model.specs.DumpText as text;
ghost use Rattle.judy_model.specs.DumpText.{jdy2};
ghost use Rattle.judy_shelf.specs.Arrays.{value_of};
ghost use Rattle.judy_shelf.specs.Versions.{format_of};
ghost use Rattle.judy_shelf.specs.Writes.{sunk, Wrote, kind_number};
ghost use Rattle.arrayvec.specs.ArrayVec.{array_vec_len};

use crate::array::Array;
use crate::fronts::shared_len;
use crate::kind::Kind;
use crate::name::Name;
use crate::shelf::Shelf;
use crate::version::Version;
use arrayvec::ArrayVec;
use byteorder::{BigEndian, ByteOrder};
use judy_pipe::{PipeFailed, Sink, write_all};

/// The most bytes of what stands before an array's keys: a name behind its length, the kind, the limit, the number of
/// keys.
pub const MAX_HEAD_LEN: usize = 50;

// Writes bytes.
pub(crate) fn put<W: Sink>(sink: &mut W, bytes: &[u8]) -> Result<(), PipeFailed>
    requires { (W.tally sink.old).failures < 2 ^ 64 - 1 }
    ensures { Wrote bytes.now (sunk (W.taken sink.old) (W.tally sink.old).failures) result
        (sunk (W.taken sink.new) (W.tally sink.new).failures) }
{
    write_all(sink, bytes)
}

// Writes a word, the highest byte first.
pub(crate) fn put_word<W: Sink>(sink: &mut W, word: u64) -> Result<(), PipeFailed>
    requires { (W.tally sink.old).failures < 2 ^ 64 - 1 }
    ensures { Wrote (text.word word) (sunk (W.taken sink.old) (W.tally sink.old).failures) result
        (sunk (W.taken sink.new) (W.tally sink.new).failures) }
{
    put(sink, &word_bytes(word))
}

// Writes a byte string behind its length, and its value.
pub(crate) fn put_string_entry<W: Sink>(
    sink: &mut W,
    key: &[u8],
    value: u64,
) -> Result<(), PipeFailed>
    requires { (W.tally sink.old).failures < 2 ^ 64 - 1 }
    ensures { Wrote (text.string key.now ++ text.word value)
        (sunk (W.taken sink.old) (W.tally sink.old).failures) result
        (sunk (W.taken sink.new) (W.tally sink.new).failures) }
{
    put_string(sink, key)?;
    put_word(sink, value)
}

// Writes a byte string behind its length.
fn put_string<W: Sink>(sink: &mut W, key: &[u8]) -> Result<(), PipeFailed>
    requires { (W.tally sink.old).failures < 2 ^ 64 - 1 }
    ensures { Wrote (text.string key.now)
        (sunk (W.taken sink.old) (W.tally sink.old).failures) result
        (sunk (W.taken sink.new) (W.tally sink.new).failures) }
{
    put(sink, &len_bytes(key.len()))?;
    put(sink, key)
}

// Writes a key of a judysl array, by the key before it.
pub(crate) fn put_string_after<W: Sink>(
    sink: &mut W,
    version: Version,
    before: &[u8],
    key: &[u8],
) -> Result<(), PipeFailed>
    requires { (W.tally sink.old).failures < 2 ^ 64 - 1 }
    ensures { Wrote (text.string_key (format_of version) before.now key.now)
        (sunk (W.taken sink.old) (W.tally sink.old).failures) result
        (sunk (W.taken sink.new) (W.tally sink.new).failures) }
{
    match version {
        Version::First => put_string(sink, key),
        Version::Second => put_string_behind_front(sink, before, key),
    }
}

// Writes how many bytes a key shares with the one before, and the bytes behind them.
fn put_string_behind_front<W: Sink>(
    sink: &mut W,
    before: &[u8],
    key: &[u8],
) -> Result<(), PipeFailed>
    requires { (W.tally sink.old).failures < 2 ^ 64 - 1 }
    ensures { Wrote (text.string_key jdy2 before.now key.now)
        (sunk (W.taken sink.old) (W.tally sink.old).failures) result
        (sunk (W.taken sink.new) (W.tally sink.new).failures) }
{
    let shared = shared_len(before, key);
    put(sink, &len_bytes(shared))?;
    put_string(sink, &key[shared..])
}

// The bytes of a key's length.
fn len_bytes(len: usize) -> [u8; 2]
    ensures { result ≡ low_bytes 2 len }
{
    let bytes = word_bytes(len as u64);
    [bytes[6], bytes[7]]
}

// The bytes of a word.
pub(crate) fn word_bytes(word: u64) -> [u8; 8]
    ensures { result ≡ text.word word }
{
    let mut bytes = [0; 8];
    BigEndian::write_u64(&mut bytes, word);
    bytes
}

// The first bytes of a shelf's dump.
pub(crate) fn heading(version: Version, shelf: &Shelf) -> [u8; 8]
    ensures { result ≡ text.magic (format_of version) ++ low_bytes 4 (length shelf.now) }
{
    heading_of(version, shelf.len() as u32)
}

/// The first bytes of a dump of so many arrays, which name its format and tell their number. (This project's own.)
pub fn heading_of(version: Version, arrays: u32) -> [u8; 8]
    ensures { result ≡ text.magic (format_of version) ++ low_bytes 4 arrays }
{
    let mut bytes = [0; 8];
    bytes[..4].copy_from_slice(magic(version));
    BigEndian::write_u32(&mut bytes[4..], arrays);
    bytes
}

// The name of a format.
fn magic(version: Version) -> &'static [u8; 4]
    ensures { result.now ≡ text.magic (format_of version) }
{
    match version {
        Version::First => b"JDY1",
        Version::Second => b"JDY2",
    }
}

// What stands before an array's keys.
pub(crate) fn array_head(name: &Name, array: &Array) -> ArrayVec<u8, MAX_HEAD_LEN>
    ensures { result.items
        ≡ text.name_text name.now ++ low_bytes 1
        (text.kind_number (value_of array.now)) ++ text.word
        (limit_of (value_of array.now)) ++ text.word (len_of (value_of array.now)) }
{
    head_of(name, array.kind(), array.limit(), array.len())
}

/// What stands before an array's keys in a dump: its name behind the name's length, its kind, its limit, and how many
/// keys it has. (This project's own.)
pub fn head_of(name: &Name, kind: Kind, limit: u64, count: u64) -> ArrayVec<u8, MAX_HEAD_LEN>
    ensures head { result.items
        ≡ text.name_text name.now ++ low_bytes 1 (kind_number kind) ++ text.word limit
        ++ text.word count }
    ensures short { array_vec_len result ≤ 50 }
{
    let mut head = ArrayVec::new();
    head.push(name.bytes().len() as u8);
    append(&mut head, name.bytes());
    head.push(kind_number(kind));
    append(&mut head, &word_bytes(limit));
    append(&mut head, &word_bytes(count));
    head
}

// Puts bytes that fit behind those of a head.
fn append(head: &mut ArrayVec<u8, MAX_HEAD_LEN>, bytes: &[u8])
    requires { array_vec_len head.old + length bytes.now ≤ 50 }
    ensures items { head.new.items ≡ head.old.items ++ bytes.now }
    ensures len { array_vec_len head.new ≡ array_vec_len head.old + length bytes.now }
{
    let _ = head.try_extend_from_slice(bytes);
}

// The number of a kind in dumps. (This project's own.)
pub(crate) fn kind_number(kind: Kind) -> u8
    ensures { result ≡ kind_number kind }
{
    match kind {
        Kind::Judy1 => 1,
        Kind::JudyL => 2,
        Kind::JudySl => 3,
        Kind::JudyHs => 4,
    }
}
