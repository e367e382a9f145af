//! Keys of one byte and of two in a word, compared all at once, each in a lane of its own width.

ghost use Rattle.std.specs.Prelude.{◌≡◌, ◌≤◌, ◌==◌, length, map, not, count_by, nat_lt};
ghost use Rattle.std.specs.List.{prefix_len};
ghost use Rattle.std.specs.Simd.Lanes.{mask_l};
ghost use Rattle.judy_leaf.specs.Packing.{places, places_of};

use std::simd::prelude::*;

// How many of the eight bytes of a word are below a byte.
pub(crate) fn bytes_below(word: u64, key: u8) -> usize
    ensures { result ≡ count_by (λ place. nat_lt place key) (places 1 word) }
{
    let bytes = u64x1::from_array([word]).to_le_bytes();
    bytes.simd_lt(u8x8::splat(key)).to_bitmask().count_ones() as usize
}

// Which of the eight bytes of a word are the given one: a bit for each, the lowest for the first.
fn bytes_equal(word: u64, key: u8) -> u64
    ensures { result ≡ mask_l (map (λ place. place == key) (places 1 word)) }
{
    let bytes = u64x1::from_array([word]).to_le_bytes();
    bytes.simd_eq(u8x8::splat(key)).to_bitmask()
}

// How many bytes of words come before the first that is the given one; all of them where none is. It goes from the last
// word to the first, so that whether a word has the byte is no branch.
pub(crate) fn bytes_before(words: &[u64], key: u8) -> usize
    requires { length words.now ≤ 65535 }
    ensures { result ≡ prefix_len (λ place. not (place == key)) (places_of 1 words.now) }
{
    let mut before = 0;
    let mut word = words.len();
    while word > 0 {
        word -= 1;
        let equal = bytes_equal(words[word], key);
        before = if equal == 0 {
            before + 8
        } else {
            equal.trailing_zeros() as usize
        };
    }
    before
}

// How many of the four numbers of two bytes in a word are below such a number.
pub(crate) fn pairs_below(word: u64, key: u16) -> usize
    ensures { result ≡ count_by (λ place. nat_lt place key) (places 2 word) }
{
    let bytes = u64x1::from_array([word]).to_le_bytes();
    let pairs = u16x4::from_le_bytes(bytes);
    pairs.simd_lt(u16x4::splat(key)).to_bitmask().count_ones() as usize
}
