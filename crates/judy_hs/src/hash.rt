//! Hashes of byte strings.

ghost use Rattle.std.specs.Prelude.{◌≡◌, List, ℕ, fold};
ghost use Rattle.judy_model.specs.declared.keys.TheConstants.{LONGEST_KEY};
ghost use Rattle.judy_hs.specs.Fnv.{fnv1a};
ghost use Rattle.judy_hs.specs.Eights.{by_eights, last_step, word_step};

use judy_model::keys::LONGEST_KEY;

/// What the type of a `JudyHs` says of its keys: how long one may be, and a hash of them, a function of the bytes
/// alone. A `JudyHs` is right for each, also for a hash that is the same for all bytes.
pub trait ByteHash {
    /// The most bytes of a key. (This project's own.)
    const LONGEST: usize;

    ghost LONGEST: { ℕ };

    ghost hash_of: { List ℕ → ℕ };

    /// The hash of the bytes.
    fn hash(&self, bytes: &[u8]) -> u32
        ensures { result ≡ hash_of bytes.now };
}

/// The hash FNV-1a in 32 bits, for keys of at most 1,024 bytes, as a store has them: from 2166136261 on, each byte is
/// xored to the hash, which is then multiplied by 16777619 modulo 2^32.
#[derive(Clone, Copy)]
pub struct Fnv1a;

impl ByteHash for Fnv1a {
    const LONGEST: usize = LONGEST_KEY;

    ghost LONGEST = { LONGEST_KEY };

    ghost hash_of = { fnv1a };

    fn hash(&self, bytes: &[u8]) -> u32 {
        bytes.iter().fold(2166136261, |hash: u32, byte| {
            (hash ^ u32::from(*byte)).wrapping_mul(16777619)
        })
    }
}

/// A hash that takes eight bytes at a step, where `Fnv1a` takes one: a word is xored to the hash, which is then
/// multiplied by 11400714819323198485 modulo 2^64, and the upper half of that is xored to the lower one. It begins with
/// 14695981039346656037, reads a word's first byte as its lowest, and ends with the lower half. Where more than eight
/// bytes are left it takes the first eight of them, and at last the last eight of all, some of them again; of fewer
/// than eight in all, each is a word. Keys have at most 9,223,372,036,854,775,807 bytes, as many as memory that is lent
/// may have. (This project's own.)
#[derive(Clone, Copy)]
pub struct Eights;

impl ByteHash for Eights {
    const LONGEST: usize = 9223372036854775807;

    ghost LONGEST = { 9223372036854775807 };

    ghost hash_of = { by_eights };

    fn hash(&self, bytes: &[u8]) -> u32 {
        by_eights(bytes)
    }
}

// One word more.
fn word_step(hash: u64, word: u64) -> u64
    ensures { result ≡ word_step hash word }
{
    let multiplied = (hash ^ word).wrapping_mul(11400714819323198485);
    multiplied ^ (multiplied / 4294967296)
}

// The hash with each of the bytes as a word.
fn bytes_after(hash: u64, bytes: &[u8]) -> u64
    ensures { result ≡ fold word_step hash bytes.now }
{
    bytes
        .iter()
        .fold(hash, |hash, byte| word_step(hash, u64::from(*byte)))
}

// The hash with the last eight bytes as a word.
fn last_step(hash: u64, bytes: &[u8]) -> u64
    ensures { result ≡ last_step hash bytes.now }
{
    match bytes.last_chunk::<8>() {
        Some(last) => word_step(hash, u64::from_le_bytes(*last)),
        None => bytes_after(hash, bytes),
    }
}

// The hash of all bytes.
fn by_eights(bytes: &[u8]) -> u32
    ensures { result ≡ by_eights bytes.now }
{
    let mut hash = 14695981039346656037;
    let mut rest = bytes;
    'chunks: while rest.len() > 8 {
        let Some((chunk, after)) = rest.split_first_chunk::<8>() else {
            unreachable!();
        };
        hash = word_step(hash, u64::from_le_bytes(*chunk));
        rest = after;
    }
    (last_step(hash, bytes) % 4294967296) as u32
}
