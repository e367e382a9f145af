//! The places of one word of packed keys. A key has `W` bytes, so a word has `8 / W` places; both are known when a
//! program is compiled, and what stands here comes to a few shifts and masks.

ghost use Rattle.std.specs.Prelude.{◌≡◌, ◌/◌, ◌^◌, ◌<◌, slice_index};
ghost use Rattle.judy_leaf.specs.Packing.{places, HasZeroPadding, IsWidth, pushed, pulled};

use judy_bits::{low_part, moved_up, without_low};

// The key at a place of a word.
pub(crate) fn key_in<const W: usize>(word: u64, at: usize) -> u64
    requires width { IsWidth W }
    requires inside { at < 8 / W }
    ensures key { result ≡ slice_index (places W word) at }
    ensures below { result < 256 ^ W }
{
    low_part(without_low(word, W * at), W)
}

// The word with a key put in at a place; the last of its keys falls out.
pub(crate) fn with_key<const W: usize>(word: u64, at: usize, key: u64) -> u64
    requires width { IsWidth W }
    requires inside { at < 8 / W }
    requires below { key < 256 ^ W }
    requires tight { HasZeroPadding W word }
    ensures places { places W result ≡ pushed at key (places W word) }
    ensures tight { HasZeroPadding W result }
{
    let above = low_part(without_low(word, W * at), W * (8 / W - 1 - at));
    low_part(word, W * at) + moved_up(key + moved_up(above, W), W * at)
}

// The word without the key at a place, and another key at its last place.
pub(crate) fn without_key<const W: usize>(word: u64, at: usize, last: u64) -> u64
    requires width { IsWidth W }
    requires inside { at < 8 / W }
    requires below { last < 256 ^ W }
    requires tight { HasZeroPadding W word }
    ensures places { places W result ≡ pulled at last (places W word) }
    ensures tight { HasZeroPadding W result }
{
    let above = without_low(word, W * (at + 1)) + moved_up(last, W * (8 / W - 1 - at));
    low_part(word, W * at) + moved_up(above, W * at)
}
