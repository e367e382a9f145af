//! Bytes as words.

ghost use Rattle.std.specs.Prelude.{ℕ, ◌≡◌, ◌<◌, ◌/◌, ◌*◌, ◌%◌, IfOk, slice_index, length, drop};
ghost use Rattle.judy_model.specs.Keys.{IsWord};
ghost use Rattle.judy_records.specs.Texts.{first_word, words_for, bytes_in};

use std::alloc::{AllocError, Global};

// How many numbers four bytes spell, and six.
const FOUR_BYTES: u64 = 4_294_967_296;

const SIX_BYTES: u64 = 281_474_976_710_656;

/// The word with which the bytes begin: the first eight, the first of them the highest, zeros where bytes are missing.
pub fn first_word(bytes: &[u8]) -> u64
    ensures { result ≡ first_word bytes.now }
{
    match bytes.first_chunk::<8>() {
        Some(whole) => u64::from_be_bytes(*whole),
        None => short_word(bytes),
    }
}

// The first word of bytes that are fewer than two such numbers take: the first and the last of them are read at once,
// and what both have is shifted out of the latter. Bytes that are fewer than one takes are read by `$fewer`.
macro_rules! word_by_two {
    ($bytes:ident, $number:ty, $count:literal, $above:ident, $fewer:ident) => {{
        let Some(last) = $bytes.last_chunk::<$count>() else {
            return $fewer($bytes);
        };
        let Some(first) = $bytes.first_chunk::<$count>() else {
            unreachable!()
        };
        let last = u64::from(<$number>::from_be_bytes(*last)) << (64 - 8 * $bytes.len());
        u64::from(<$number>::from_be_bytes(*first)) * $above + last % $above
    }};
}

// The same for fewer than eight bytes, by the first four and the last four.
fn short_word(bytes: &[u8]) -> u64
    requires { length bytes.now < 8 }
    ensures { result ≡ first_word bytes.now }
{
    word_by_two!(bytes, u32, 4, FOUR_BYTES, fewer_word)
}

// The same for fewer than four bytes, by the first two and the last two.
fn fewer_word(bytes: &[u8]) -> u64
    requires { length bytes.now < 4 }
    ensures { result ≡ first_word bytes.now }
{
    word_by_two!(bytes, u16, 2, SIX_BYTES, byte_word)
}

// The same for one byte or none.
fn byte_word(bytes: &[u8]) -> u64
    requires { length bytes.now < 2 }
    ensures { result ≡ first_word bytes.now }
{
    u64::from(byte_or_zero(bytes, 0)) << 56
}

/// The same, of bytes that may just have been written: it reads them one by one. A load of eight that no single store
/// covers, as none does where `memcpy` wrote them by two that overlap, waits until the stores have left the processor.
/// It is a call of its own, since within a caller that knows of eight bytes these reads are joined into such a load
/// again.
#[inline(never)]
pub fn fresh_word(bytes: &[u8]) -> u64
    ensures { result ≡ first_word bytes.now }
{
    let mut word = 0;
    for place in 0..8 {
        word = word * 256 + u64::from(byte_or_zero(bytes, place));
    }
    word
}

// The byte at a place, zero past the end.
fn byte_or_zero(bytes: &[u8], place: usize) -> u8
    ensures { result ≡ slice_index bytes.now place }
{
    match bytes.get(place) {
        Some(byte) => *byte,
        None => 0,
    }
}

// The word that stands behind the whole ones: the last bytes, fewer than eight, and then zeros. Where there are eight
// in all, these are read at once, and the bytes before them are shifted out.
pub fn last_word(bytes: &[u8]) -> u64
    requires { 0 < length bytes.now % 8 }
    ensures { result ≡ first_word (drop (8 * (length bytes.now / 8)) bytes.now) }
{
    match bytes.last_chunk::<8>() {
        Some(last) => u64::from_be_bytes(*last) << (64 - bytes.len() % 8 * 8),
        None => short_word(bytes),
    }
}

// The bytes behind the first word.
pub fn after_first(bytes: &[u8]) -> &[u8]
    ensures { result.now ≡ drop 8 bytes.now }
{
    if bytes.len() <= 8 { &[] } else { &bytes[8..] }
}

/// How many words so many bytes take.
pub fn words_for(bytes: usize) -> usize
    ensures { result ≡ words_for bytes }
{
    bytes / 8 + (bytes % 8).min(1)
}

// The first so many bytes that words spell. The error is want of memory.
pub fn bytes_in(alloc: Global, words: &[u64], count: usize) -> Result<Vec<u8>, AllocError>
    ensures { IfOk result (λ bytes. bytes.items ≡ bytes_in count words.now) }
{
    let mut bytes = Vec::with_capacity(alloc, words.len().saturating_mul(8))?;
    for word in words {
        bytes.extend_from_slice(&word.to_be_bytes())?;
    }
    bytes.truncate(count);
    Ok(bytes)
}

// Does nothing: it tells a caller's proof that numbers of 64 bits are words.
pub fn law(_words: &[u64])
    ensures { (at : ℕ) → IsWord (slice_index _words.now at) }
{}
