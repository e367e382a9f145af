//! Keys that are told by the key before them: the front that both share, and the bytes behind it.

ghost use Rattle.std.specs.Prelude.{◌≡◌, ◌<◌, ◌≤◌, ◌+◌, ◌-◌, ◌^◌, ◌∷◌, [], IfOk, length, take, nat_le};
ghost use Rattle.judy_model.specs.Fields.{field, bytes, number, bad_key, bad_prefix};
ghost use Rattle.judy_model.specs.DumpText.{shared_length};
ghost use Rattle.judy_model.specs.DumpGrammar as grammar;
ghost use Rattle.judy_model.specs.DumpGrammar.{is_without_zero, is_longest_shared};
ghost use Rattle.judy_shelf.specs.Reads.{drawn, Reads};

use crate::fault::LoadFault;
use crate::fields::{read_bytes, read_u16};
use judy_model::keys::LONGEST_KEY;
use judy_pipe::Source;
use judy_sl::are_nonzero;

/// How long the longest front is that two keys share.
pub fn shared_len(before: &[u8], key: &[u8]) -> usize
    ensures shared { result ≡ shared_length before.now key.now }
    ensures most { result ≤ length key.now }
{
    let mut shared = 0;
    'bytes: while shared < before.len() && shared < key.len() && before[shared] == key[shared] {
        shared += 1;
    }
    shared
}

// Reads a key that is told by a front of the key before and the bytes behind it, into the front of `room`, and
// answers how long it is.
pub(crate) fn read_string_behind_front<R: Source>(
    source: &mut R,
    before: &[u8],
    room: &mut [u8],
) -> Result<usize, LoadFault>
    requires below { (R.tally source.old).failures < 2 ^ 64 - 1 }
    requires fits { length room.old ≡ LONGEST_KEY }
    requires short { length before.now ≤ LONGEST_KEY }
    ensures room { length room.new ≡ LONGEST_KEY }
    ensures most { IfOk result (λ len. len ≤ LONGEST_KEY) }
    ensures read { Reads (λ len. take len room.new) (grammar.string_behind_front before.now)
        (drawn (R.given source.old) (R.ended source.old) (R.tally source.old).failures) result
        (drawn (R.given source.new) (R.ended source.new) (R.tally source.new).failures) }
{
    let shared = read_shared_len(source, before)? as usize;
    let rest = read_rest_len(source, shared)? as usize;
    room[..shared].copy_from_slice(&before[..shared]);
    let len = shared + rest;
    read_suffix(source, before, shared, &mut room[shared..len])?;
    Ok(len)
}

// Reads how many bytes a key shares with the key before.
fn read_shared_len<R: Source>(source: &mut R, before: &[u8]) -> Result<u16, LoadFault>
    requires { (R.tally source.old).failures < 2 ^ 64 - 1 }
    ensures most { IfOk result (λ shared. shared ≤ length before.now) }
    ensures read { Reads (λ shared. shared)
        (field (number 2) (((λ shared. nat_le shared (length before.now)), bad_prefix) ∷ []))
        (drawn (R.given source.old) (R.ended source.old) (R.tally source.old).failures) result
        (drawn (R.given source.new) (R.ended source.new) (R.tally source.new).failures) }
{
    let shared = read_u16(source)?;
    if shared as usize > before.len() {
        return Err(LoadFault::BadPrefix);
    }
    Ok(shared)
}

// Reads how many bytes stand behind a front of so many.
fn read_rest_len<R: Source>(source: &mut R, shared: usize) -> Result<u16, LoadFault>
    requires below { (R.tally source.old).failures < 2 ^ 64 - 1 }
    requires short { shared ≤ LONGEST_KEY }
    ensures most { IfOk result (λ rest. shared + rest ≤ LONGEST_KEY) }
    ensures read { Reads (λ rest. rest)
        (field (number 2) (((λ rest. nat_le (shared + rest) LONGEST_KEY), bad_key) ∷ []))
        (drawn (R.given source.old) (R.ended source.old) (R.tally source.old).failures) result
        (drawn (R.given source.new) (R.ended source.new) (R.tally source.new).failures) }
{
    let rest = read_u16(source)?;
    if shared + rest as usize > LONGEST_KEY {
        return Err(LoadFault::BadKey);
    }
    Ok(rest)
}

// Reads the bytes of a key behind a front of the key before, which is the longest that both share.
fn read_suffix<R: Source>(
    source: &mut R,
    before: &[u8],
    shared: usize,
    suffix: &mut [u8],
) -> Result<(), LoadFault>
    requires below { (R.tally source.old).failures < 2 ^ 64 - 1 }
    requires within { shared ≤ length before.now }
    ensures len { length suffix.new ≡ length suffix.old }
    ensures read { Reads (λ _. suffix.new)
        (field (bytes (length suffix.old))
        ((is_without_zero, bad_key) ∷ (is_longest_shared before.now shared, bad_prefix) ∷ []))
        (drawn (R.given source.old) (R.ended source.old) (R.tally source.old).failures) result
        (drawn (R.given source.new) (R.ended source.new) (R.tally source.new).failures) }
{
    read_bytes(source, suffix)?;
    if !are_nonzero(suffix) {
        return Err(LoadFault::BadKey);
    }
    if !is_longest_shared(before, shared, suffix) {
        return Err(LoadFault::BadPrefix);
    }
    Ok(())
}

// Whether bytes behind a front of the key before make a key that shares no longer front with it.
fn is_longest_shared(before: &[u8], shared: usize, suffix: &[u8]) -> bool
    requires { shared ≤ length before.now }
    ensures { result ≡ is_longest_shared before.now shared suffix.now }
{
    shared_len(&before[shared..], suffix) == 0
}
