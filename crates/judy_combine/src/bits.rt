//! What is kept of two nodes of sets whose keys have one byte: a word at a time, a bit for each of 256 keys.

ghost use Rattle.std.specs.Prelude.{◌≡◌, ℕ, ◌<◌, ◌==◌, if◌then◌else◌, IfOk};
ghost use Rattle.std.specs.Int.{bit_at};
ghost use Rattle.judy_bits.specs.ByteSets as set;
ghost use Rattle.judy_node.specs.Trees.{IsChild};
ghost use Rattle.judy_combine.specs.Kept.{IsKept};
ghost use Rattle.judy_combine.specs.KeptBits.{is_kept};

use crate::keep::Keep;
use judy_bits::Bits256;
use judy_leaf::Words;
use judy_node::{ChildOf, child_of_bits};
use judy_unmetered::UNMETERED;
use std::alloc::{AllocError, Global};

// A word where it is wanted, else no bit.
#[inline(always)]
fn word_if(wanted: bool, word: u64) -> u64
    ensures { result ≡ (if wanted then word else 0) }
{
    if wanted { word } else { 0 }
}

// The bits that are kept of two words.
#[inline(always)]
fn word_kept(keep: Keep, one: u64, other: u64) -> u64
    ensures { (place : ℕ) → place < 64 → (bit_at result place == 1)
        ≡ is_kept keep (bit_at one place == 1) (bit_at other place == 1) }
{
    let left = word_if(keep.left, one & !other);
    let both = word_if(keep.both, one & other);
    let right = word_if(keep.right, other & !one);
    left | both | right
}

// The bytes that are kept of two sets of bytes.
fn bytes_kept(keep: Keep, one: &Bits256, other: &Bits256) -> Bits256
    ensures { (byte : ℕ) → byte < 256
        → set.has result byte ≡ is_kept keep (set.has one.now byte) (set.has other.now byte) }
{
    let ours = one.words();
    let theirs = other.words();
    let first = word_kept(keep, ours[0], theirs[0]);
    let second = word_kept(keep, ours[1], theirs[1]);
    let third = word_kept(keep, ours[2], theirs[2]);
    let fourth = word_kept(keep, ours[3], theirs[3]);
    Bits256::of_words([first, second, third, fourth])
}

/// What is kept of two nodes whose keys have one byte and no value; none where that is nothing. The error is want of
/// memory; nothing is kept then.
pub fn bits_kept<V: Words + Drop>(
    alloc: Global,
    keep: Keep,
    one: &ChildOf<V>,
    other: &ChildOf<V>,
) -> Result<Option<ChildOf<V>>, AllocError>
    requires none { V.WORDS ≡ 0 }
    requires child { IsChild V.WORDS 1 one.now }
    requires other_child { IsChild V.WORDS 1 other.now }
    ensures { IfOk result (IsKept V.WORDS 1 keep one.now.pairs other.now.pairs) }
{
    let bytes = bytes_kept(keep, &one.bits(UNMETERED), &other.bits(UNMETERED));
    bytes.law();
    let made = child_of_bits(alloc, &bytes)?;
    Ok(made)
}
