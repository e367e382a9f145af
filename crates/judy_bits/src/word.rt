//! The bytes of a word.

ghost use Rattle.std.specs.Prelude.{◌≡◌, ◌<◌, ◌≤◌, ◌*◌, ◌/◌, ◌%◌, ◌^◌};
ghost use Rattle.judy_model.specs.WordBytes as bytes;

use crate::bits::{fewer_ones, low_ones};

/// Byte `i` of the eight bytes of a word, 0 the highest. `i` is below 8.
pub fn byte_of(word: u64, i: usize) -> u8
    requires { i < 8 }
    ensures { result ≡ bytes.byte_of word i }
{
    ((word >> (8 * (7 - i))) & 0xff) as u8
}

/// A word without its lowest bytes, so many, at most 8: `word / 256^width` by two shifts.
pub fn without_low(word: u64, width: usize) -> u64
    requires { width ≤ 8 }
    ensures { result ≡ word / 256 ^ width }
{
    (word >> (4 * width)) >> (4 * width)
}

/// The lowest bytes of a word, so many, at most 8: `word % 256^width` by a mask.
pub fn low_part(word: u64, width: usize) -> u64
    requires { width ≤ 8 }
    ensures { result ≡ word % 256 ^ width }
{
    word & low_ones(8 * width)
}

/// A word without its lowest bytes, so many, fewer than 8: as `without_low`, by one shift.
pub fn without_tail(word: u64, width: usize) -> u64
    requires { width < 8 }
    ensures { result ≡ word / 256 ^ width }
{
    word >> (8 * width)
}

/// The lowest bytes of a word, so many, fewer than 8: as `low_part`, with no case for all of them.
pub fn tail(word: u64, width: usize) -> u64
    requires { width < 8 }
    ensures { result ≡ word % 256 ^ width }
{
    word & fewer_ones(8 * width)
}

/// A word moved up by whole bytes, so many, at most 8: `word * 256^width` by two shifts. It has to be a word.
pub fn moved_up(word: u64, width: usize) -> u64
    requires width { width ≤ 8 }
    requires within { word * 256 ^ width < 2 ^ 64 }
    ensures { result ≡ word * 256 ^ width }
{
    (word << (4 * width)) << (4 * width)
}
