//! Keys of the string kinds as tokens say them.

ghost use Rattle.std.specs.Prelude.{◌≡◌, ◌<◌, ◌≤◌, if◌then◌else◌, Some, None, IfOk, OnOk};
ghost use Rattle.std.specs.List.{list_all};
ghost use Rattle.judy_model.specs.Keys.{IsBytesKey, IsStringKey};
ghost use Rattle.judy_model.specs.KeyTokens.{is_shown, bytes_of_digits};
ghost use Rattle.judy_model.specs.Commands.{bytes_key_at, string_key_at};
ghost use Rattle.judy_command.specs.KeyReads.{read_into, key_or_refusal};
ghost use Rattle.judy_command.specs.Slots.{said};

use crate::reply::Refusal;
use judy_model::keys::LONGEST_KEY;
use judy_sl::{KeyBuf, are_nonzero};

/// Puts the key of a judyhs array that a token says into the buffer: `=` and bytes from `!` to `~`, or `#` and
/// hexadecimal digits, for at most 1,024 bytes. Else `BadKey`.
pub(crate) fn read_bytes_key(token: &[u8], key: &mut KeyBuf) -> Result<(), Refusal>
    ensures { read_into result key.new.items ≡ bytes_key_at token.now }
{
    match token {
        [b'=', signs @ ..] => read_signs(signs, key),
        [b'#', digits @ ..] => read_digits(digits, key),
        _ => Err(Refusal::BadKey),
    }
}

/// The same for a judysl array, whose keys hold no zero byte.
pub(crate) fn read_string_key(token: &[u8], key: &mut KeyBuf) -> Result<(), Refusal>
    ensures said { read_into result key.new.items ≡ string_key_at token.now }
    ensures key { OnOk result (IsStringKey key.new.items) }
{
    read_bytes_key(token, key)?;
    if !are_nonzero(key) {
        return Err(Refusal::BadKey);
    }
    Ok(())
}

/// The key of a judyhs array that a token says. Where its bytes stand for themselves it is the token's, else it is put
/// into the buffer.
pub(crate) fn bytes_key<'k>(token: &'k [u8], key: &'k mut KeyBuf) -> Result<&'k [u8], Refusal>
    ensures said { said (λ bytes. bytes.now) result ≡ bytes_key_at token.now }
    ensures key { IfOk result (λ bytes. IsBytesKey bytes.now) }
{
    if let [b'=', signs @ ..] = token {
        return signs_key(signs);
    }
    read_bytes_key(token, key)?;
    Ok(key.as_slice())
}

/// The key of a judysl array that a token says, which stands where that of a judyhs array does.
pub(crate) fn string_key<'k>(token: &'k [u8], key: &'k mut KeyBuf) -> Result<&'k [u8], Refusal>
    ensures said { said (λ bytes. bytes.now) result ≡ string_key_at token.now }
    ensures key { IfOk result (λ bytes. IsStringKey bytes.now) }
{
    // A byte that stands for itself isn't zero.
    if let [b'=', signs @ ..] = token {
        return signs_key(signs);
    }
    read_string_key(token, key)?;
    Ok(key.as_slice())
}

// The key of bytes that stand for themselves, where they stand.
fn signs_key(signs: &[u8]) -> Result<&[u8], Refusal>
    ensures { said (λ bytes. bytes.now) result
        ≡ key_or_refusal (if list_all is_shown signs.now then Some signs.now else None) }
{
    if signs.len() > LONGEST_KEY || !are_shown(signs) {
        return Err(Refusal::BadKey);
    }
    Ok(signs)
}

// Puts bytes that stand for themselves into the buffer.
fn read_signs(signs: &[u8], key: &mut KeyBuf) -> Result<(), Refusal>
    ensures { read_into result key.new.items
        ≡ key_or_refusal (if list_all is_shown signs.now then Some signs.now else None) }
{
    put(signs_key(signs)?, key)
}

// Puts the bytes that hexadecimal digits write into the buffer.
fn read_digits(digits: &[u8], key: &mut KeyBuf) -> Result<(), Refusal>
    ensures { read_into result key.new.items ≡ key_or_refusal (bytes_of_digits digits.now) }
{
    let mut room = [0; LONGEST_KEY];
    let count = digits.len() / 2;
    if count > LONGEST_KEY {
        return Err(Refusal::BadKey);
    }
    let bytes = &mut room[..count];
    if hex::decode_to_slice(digits, bytes).is_err() {
        return Err(Refusal::BadKey);
    }
    put(bytes, key)
}

// Puts the bytes into the buffer, where they fit.
fn put(bytes: &[u8], key: &mut KeyBuf) -> Result<(), Refusal>
    ensures { read_into result key.new.items ≡ key_or_refusal (Some bytes.now) }
{
    key.clear();
    if key.try_extend_from_slice(bytes).is_err() {
        return Err(Refusal::BadKey);
    }
    Ok(())
}

/// Whether each byte stands for itself in a key token: `!` to `~`. Sixteen are tested at once, or eight of fewer.
pub fn are_shown(signs: &[u8]) -> bool
    ensures { result ≡ list_all is_shown signs.now }
{
    if signs.len() < 16 {
        are_shown_by::<8>(signs)
    } else {
        are_shown_by::<16>(signs)
    }
}

// The same, tested so many at once: a length that the compiler knows needs no test behind each byte. Of those at the
// end some are tested twice, so that none is left to be tested alone.
#[inline(always)]
fn are_shown_by<const N: usize>(signs: &[u8]) -> bool
    requires some { 0 < N }
    requires few { N ≤ 16 }
    ensures { result ≡ list_all is_shown signs.now }
{
    let mut rest = signs;
    'chunks: while let Some((chunk, after)) = rest.split_first_chunk::<N>() {
        if !few_are_shown(chunk) {
            return false;
        }
        rest = after;
    }
    match signs.split_last_chunk::<N>() {
        Some((_, last)) => few_are_shown(last),
        None => few_are_shown(signs),
    }
}

// The same of a few. It leaves at no byte.
#[inline(always)]
fn few_are_shown(signs: &[u8]) -> bool
    ensures { result ≡ list_all is_shown signs.now }
{
    let mut are = true;
    for sign in signs {
        are &= sign.is_ascii_graphic();
    }
    are
}
