//! Bitmap leaves, filled to 256 keys and emptied, and what they answer at the borders of their words of bits.

use crate::any_leaf::{AnyLeaf, Kind};
use crate::leaves::check_kind;
use crate::plain::same;
use judy_leaf::{BitLeafOf, BitRef, ValueWords};
use std::alloc::AllocError;
use std::process::Abort;
use std::test::Fail;

#[test]
fn bitmap_leaves_of_sets(rt: HostRuntime) -> Result<(), AllocError> {
    check_kind::<ValueWords<0>>(&rt, rt.alloc(), Kind::Bitmap, 3)
}

#[test]
fn bitmap_leaves_of_maps(rt: HostRuntime) -> Result<(), AllocError> {
    check_kind::<ValueWords<1>>(&rt, rt.alloc(), Kind::Bitmap, 3)
}

// Keys on both sides of each border between two words of bits, told by their lowest bytes.
#[test]
fn gaps_at_word_borders(rt: HostRuntime) -> Result<(), Fail> {
    let pairs = [
        (0x123f, 10),
        (0x1240, 11),
        (0x127f, 12),
        (0x1280, 13),
        (0x12bf, 14),
        (0x12c0, 15),
    ];
    let leaf = BitLeafOf::<ValueWords<1>>::from_sorted(rt.alloc(), 2, &pairs)?;
    let told = [
        (63, 10),
        (64, 11),
        (127, 12),
        (128, 13),
        (191, 14),
        (192, 15),
    ];
    AnyLeaf::Bits(leaf).check(&rt, &told);
    Ok(())
}

// What is told as a key or a byte where there is none.
const NONE: u64 = 1000;

// A word, the nearest keys from it on and down to it, and the nearest bytes that are no keys from it on and down to it.
const NEIGHBOURS: [[u64; 5]; 13] = [
    [0, 63, NONE, 0, 0],
    [62, 63, NONE, 62, 62],
    [63, 63, 63, 65, 62],
    [64, 64, 64, 65, 62],
    [65, 127, 64, 65, 65],
    [127, 127, 127, 129, 126],
    [128, 128, 128, 129, 126],
    [191, 191, 191, 193, 190],
    [192, 192, 192, 193, 190],
    [193, NONE, 192, 193, 193],
    [255, NONE, 192, 255, 255],
    [256, NONE, 192, NONE, 255],
    [u64::MAX, NONE, 192, NONE, 255],
];

// Compares what a bitmap leaf of keys without values answers of a word.
fn check_neighbours(rt: &impl Abort, leaf: BitRef<'_, ValueWords<0>>, wanted: [u64; 5]) {
    let [word, next, previous, next_absent, previous_absent] = wanted;
    same_key(rt, leaf.at_or_after(word), next, word);
    same_key(rt, leaf.at_or_before(word), previous, word);
    same_byte(rt, leaf.absent_at_or_after(word), next_absent, word);
    same_byte(rt, leaf.absent_at_or_before(word), previous_absent, word);
}

// Compares a key without a value with the one wanted.
fn same_key(rt: &impl Abort, found: Option<(u64, u64)>, wanted: u64, word: u64) {
    let (key, value) = found.unwrap_or((NONE, 0));
    same(rt, key, wanted, word);
    same(rt, value, 0, word);
}

// Compares a byte that is no key with the one wanted.
fn same_byte(rt: &impl Abort, found: Option<u64>, wanted: u64, word: u64) {
    same(rt, found.unwrap_or(NONE), wanted, word);
}

#[test]
fn neighbours_at_word_borders(rt: HostRuntime) -> Result<(), Fail> {
    let pairs = [(63, 0), (64, 0), (127, 0), (128, 0), (191, 0), (192, 0)];
    let leaf = BitLeafOf::<ValueWords<0>>::from_sorted(rt.alloc(), 1, &pairs)?;
    for wanted in NEIGHBOURS {
        check_neighbours(&rt, leaf.reading(), wanted);
    }
    Ok(())
}
