//! The word by which a group finds a key.

ghost use Rattle.std.specs.Prelude.{◌≡◌, ◌≤◌, length};
ghost use Rattle.judy_model.specs.WordBytes.{number_of};
ghost use Rattle.judy_hs.specs.Parts.{part_of};

use crate::hash::ByteHash;

// The number that at most 8 bytes spell, the first of them the highest.
pub fn word_of(bytes: &[u8]) -> u64
    requires { length bytes.now ≤ 8 }
    ensures { result ≡ number_of bytes.now }
{
    let mut word: u64 = 0;
    for byte in bytes {
        word = word * 256 + u64::from(*byte);
    }
    word
}

// The word of a key: a key of at most 8 bytes is one, a longer one has its hash.
pub fn part_of<H: ByteHash>(hasher: &H, key: &[u8]) -> u64
    ensures { result ≡ part_of H.hash_of key.now }
{
    if key.len() <= 8 {
        word_of(key)
    } else {
        u64::from(hasher.hash(key))
    }
}
