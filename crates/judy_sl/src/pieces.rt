//! Keys piece by piece.

ghost use Rattle.std.specs.Prelude.{ℕ, List, ◌≡◌, ◌↔◌, ◌+◌, ◌≤◌, ◌++◌, IsFalse, length};
ghost use Rattle.judy_model.specs.declared.keys.TheConstants.{LONGEST_STRING};
ghost use Rattle.judy_tails.specs.Writers.{StaysBeyond};
ghost use Rattle.judy_sl.specs.Pieces.{piece_of, piece_bytes, EndsWell};

use crate::zeros::are_eight;
use judy_records::{first_word, fresh_word};
use judy_tails::KeyWriter;

// The piece with which the bytes begin: the first eight, the first of them the highest, zeros where bytes are missing.
pub fn first_piece(bytes: &[u8]) -> u64
    ensures { result ≡ piece_of bytes.now }
{
    first_word(bytes)
}

// The same of bytes that may just have been written.
pub fn fresh_piece(bytes: &[u8]) -> u64
    ensures { result ≡ piece_of bytes.now }
{
    fresh_word(bytes)
}

// Puts the bytes of a piece behind those of the key: the ones that aren't zero. Mostly none is, and then all eight are
// put there at once.
// Within its callers, and what goes byte by byte is not: else each byte is made ready before that is asked.
#[inline(always)]
pub fn push_piece<K: KeyWriter>(key: &mut K, piece: u64)
    requires { K.len key.old + length (piece_bytes piece) ≤ LONGEST_STRING }
    ensures len { K.len key.new ≡ K.len key.old + length (piece_bytes piece) }
    ensures has { (front : List ℕ)
        → K.has key.old front → K.has key.new (front ++ piece_bytes piece) }
    ensures beyond { StaysBeyond K.len K.beyond key.old key.new }
{
    let bytes = piece.to_be_bytes();
    if are_eight(&bytes) {
        key.put_eight(&bytes);
    } else {
        push_each(key, piece);
    }
}

// The same byte by byte, as of a final piece, which has a zero.
#[inline(never)]
pub fn push_each<K: KeyWriter>(key: &mut K, piece: u64)
    requires { K.len key.old + length (piece_bytes piece) ≤ LONGEST_STRING }
    ensures len { K.len key.new ≡ K.len key.old + length (piece_bytes piece) }
    ensures has { (front : List ℕ)
        → K.has key.old front → K.has key.new (front ++ piece_bytes piece) }
    ensures beyond { StaysBeyond K.len K.beyond key.old key.new }
{
    for byte in piece.to_be_bytes() {
        if byte != 0 {
            key.put(byte);
        }
    }
}

// Whether the last byte is zero, as it is in no key.
pub fn ends_in_zero(bytes: &[u8]) -> bool
    ensures { IsFalse result ↔ EndsWell bytes.now }
{
    match bytes.last() {
        Some(byte) => *byte == 0,
        None => false,
    }
}
