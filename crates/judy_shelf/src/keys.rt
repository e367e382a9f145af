//! The keys of a dump that are byte strings: each is read into one fixed buffer, and the one before it is kept in
//! another.

ghost use Rattle.std.specs.Prelude.{◌≡◌, ◌≢◌, ◌<◌, ◌≤◌, ◌-◌, ◌^◌, ◌∷◌, [], IfOk, IsTrue, None, Some, length, take, nat_le, unwrap_or};
ghost use Rattle.judy_model.specs.Keys.{byte_order};
ghost use Rattle.judy_model.specs.DumpText.{length_order};
ghost use Rattle.judy_model.specs.Fields.{field, number, bad_key, bad_order};
ghost use Rattle.judy_model.specs.DumpGrammar as grammar;
ghost use Rattle.judy_model.specs.DumpGrammar.{is_above};
ghost use Rattle.judy_shelf.specs.Reads.{drawn, Reads};
ghost use Rattle.judy_shelf.specs.LastKeys.{last_key};
ghost use Rattle.judy_shelf.specs.Versions.{format_of};

use crate::fault::LoadFault;
use crate::fields::{read_bytes, read_u16};
use crate::fronts::read_string_behind_front;
use crate::version::Version;
use judy_model::keys::LONGEST_KEY;
use judy_pipe::Source;
use judy_sl::{KeyBuf, are_nonzero};

/// A copy of the key that was read or written last, if there is one. It takes no memory of its own.
#[derive(Drop)]
pub struct LastKey {
    bytes: KeyBuf,
    is_some: bool,
}

impl LastKey {
    /// No key.
    pub fn new() -> LastKey
        ensures { last_key result ≡ None }
    {
        LastKey {
            bytes: KeyBuf::new(),
            is_some: false,
        }
    }

    /// Keeps a copy of a key, in place of the one that it had.
    pub fn keep(&mut self, key: &[u8])
        requires { length key.now ≤ LONGEST_KEY }
        ensures { last_key self.new ≡ Some key.now }
    {
        self.bytes.clear();
        let _ = self.bytes.try_extend_from_slice(key);
        self.is_some = true;
    }

    /// The bytes of the key, or none.
    pub fn front(&self) -> &[u8]
        ensures bytes { result.now ≡ unwrap_or (last_key self.now) [] }
        ensures most { length result.now ≤ LONGEST_KEY }
    {
        if self.is_some {
            self.bytes.as_slice()
        } else {
            &[]
        }
    }

    // Whether a key is greater, as byte strings are ordered.
    fn is_before(&self, key: &[u8]) -> bool
        ensures { result ≡ is_above byte_order (last_key self.now) key.now }
    {
        !self.is_some || self.bytes.as_slice().cmp(key).is_lt()
    }

    // Whether a key is greater by its length, or as long and greater.
    fn is_before_by_length(&self, key: &[u8]) -> bool
        ensures { result ≡ is_above length_order (last_key self.now) key.now }
    {
        let last = self.bytes.as_slice();
        !self.is_some || last.len().cmp(&key.len()).then(last.cmp(key)).is_lt()
    }
}

// Reads how long a key is.
fn read_key_len<R: Source>(source: &mut R) -> Result<u16, LoadFault>
    requires { (R.tally source.old).failures < 2 ^ 64 - 1 }
    ensures most { IfOk result (λ len. len ≤ LONGEST_KEY) }
    ensures read { Reads (λ len. len)
        (field (number 2) (((λ length. nat_le length LONGEST_KEY), bad_key) ∷ []))
        (drawn (R.given source.old) (R.ended source.old) (R.tally source.old).failures) result
        (drawn (R.given source.new) (R.ended source.new) (R.tally source.new).failures) }
{
    let len = read_u16(source)?;
    if len as usize > LONGEST_KEY {
        return Err(LoadFault::BadKey);
    }
    Ok(len)
}

// Reads a key into the front of `room`, and answers how long it is.
fn read_key<R: Source>(source: &mut R, room: &mut [u8]) -> Result<usize, LoadFault>
    requires below { (R.tally source.old).failures < 2 ^ 64 - 1 }
    requires fits { length room.old ≡ LONGEST_KEY }
    ensures room { length room.new ≡ LONGEST_KEY }
    ensures most { IfOk result (λ len. len ≤ LONGEST_KEY) }
    ensures read { Reads (λ len. take len room.new) grammar.string
        (drawn (R.given source.old) (R.ended source.old) (R.tally source.old).failures) result
        (drawn (R.given source.new) (R.ended source.new) (R.tally source.new).failures) }
{
    let len = read_key_len(source)? as usize;
    read_bytes(source, &mut room[..len])?;
    Ok(len)
}

// Reads a key of a judysl array in a format, which is greater than the last one.
pub(crate) fn read_string_after<R: Source>(
    source: &mut R,
    version: Version,
    last: &LastKey,
    room: &mut [u8],
) -> Result<usize, LoadFault>
    requires below { (R.tally source.old).failures < 2 ^ 64 - 1 }
    requires fits { length room.old ≡ LONGEST_KEY }
    ensures room { length room.new ≡ LONGEST_KEY }
    ensures most { IfOk result (λ len. len ≤ LONGEST_KEY) }
    ensures above { IfOk result
        (λ len. IsTrue (is_above byte_order (last_key last.now) (take len room.new))) }
    ensures read { Reads (λ len. take len room.new)
        (field (grammar.string_key (format_of version) (last_key last.now))
        ((is_above byte_order (last_key last.now), bad_order) ∷ []))
        (drawn (R.given source.old) (R.ended source.old) (R.tally source.old).failures) result
        (drawn (R.given source.new) (R.ended source.new) (R.tally source.new).failures) }
{
    let len = read_string(source, version, last, room)?;
    if !last.is_before(&room[..len]) {
        return Err(LoadFault::BadOrder);
    }
    Ok(len)
}

// Reads a key of a judysl array in a format, by the last one.
fn read_string<R: Source>(
    source: &mut R,
    version: Version,
    last: &LastKey,
    room: &mut [u8],
) -> Result<usize, LoadFault>
    requires below { (R.tally source.old).failures < 2 ^ 64 - 1 }
    requires fits { length room.old ≡ LONGEST_KEY }
    ensures room { length room.new ≡ LONGEST_KEY }
    ensures most { IfOk result (λ len. len ≤ LONGEST_KEY) }
    ensures read { Reads (λ len. take len room.new)
        (grammar.string_key (format_of version) (last_key last.now))
        (drawn (R.given source.old) (R.ended source.old) (R.tally source.old).failures) result
        (drawn (R.given source.new) (R.ended source.new) (R.tally source.new).failures) }
{
    match version {
        Version::First => read_whole_string(source, room),
        Version::Second => read_string_behind_front(source, last.front(), room),
    }
}

// Reads a key of a judysl array that is written whole.
fn read_whole_string<R: Source>(source: &mut R, room: &mut [u8]) -> Result<usize, LoadFault>
    requires below { (R.tally source.old).failures < 2 ^ 64 - 1 }
    requires fits { length room.old ≡ LONGEST_KEY }
    ensures room { length room.new ≡ LONGEST_KEY }
    ensures most { IfOk result (λ len. len ≤ LONGEST_KEY) }
    ensures read { Reads (λ len. take len room.new) grammar.string_without_zero
        (drawn (R.given source.old) (R.ended source.old) (R.tally source.old).failures) result
        (drawn (R.given source.new) (R.ended source.new) (R.tally source.new).failures) }
{
    let len = read_key(source, room)?;
    if !are_nonzero(&room[..len]) {
        return Err(LoadFault::BadKey);
    }
    Ok(len)
}

// Reads a key of a judyhs array, which is greater than the last one by its length, or as long and greater.
pub(crate) fn read_bytes_after<R: Source>(
    source: &mut R,
    last: &LastKey,
    room: &mut [u8],
) -> Result<usize, LoadFault>
    requires below { (R.tally source.old).failures < 2 ^ 64 - 1 }
    requires fits { length room.old ≡ LONGEST_KEY }
    ensures room { length room.new ≡ LONGEST_KEY }
    ensures most { IfOk result (λ len. len ≤ LONGEST_KEY) }
    ensures above { IfOk result
        (λ len. IsTrue (is_above length_order (last_key last.now) (take len room.new))) }
    ensures read { Reads (λ len. take len room.new)
        (field grammar.string ((is_above length_order (last_key last.now), bad_order) ∷ []))
        (drawn (R.given source.old) (R.ended source.old) (R.tally source.old).failures) result
        (drawn (R.given source.new) (R.ended source.new) (R.tally source.new).failures) }
{
    let len = read_key(source, room)?;
    if !last.is_before_by_length(&room[..len]) {
        return Err(LoadFault::BadOrder);
    }
    Ok(len)
}
