//! Keys packed into words, as a list: the key at a place, and where a key stands.
//!
//! A search counts the keys below a key over all words, without a branch a key: which of a few keys is the first that
//! isn't below can't be foreseen, and a wrong guess costs more than all the comparisons. The places of the last word
//! that hold no key are 0, so they count as below every key but 0. Keys of eight bytes are words, among which halves
//! are fewer comparisons.

ghost use Rattle.std.specs.Prelude.{◌≡◌, ◌*◌, ◌/◌, ◌<◌, ◌≤◌, ℕ, MatchOption, length, slice_index, count_by, nat_lt};
ghost use Rattle.std.specs.List.Sorted.{IsStrictlySortedBy};
ghost use Rattle.judy_model.specs.Keys.{word_order};
ghost use Rattle.judy_bits.specs.ByteSets as set;
ghost use Rattle.judy_leaf.specs.Packing.{places, places_of, keys_in, IsPacked, IsWidth};
ghost use Rattle.judy_leaf.specs.Nearby.{IsNextAt, IsPreviousAt};

use crate::halves::{place_of, rank_of};
use crate::lanes::{bytes_before, bytes_below, pairs_below};
use crate::place::key_in;

// How many keys of a word are below a key, by one comparison a place.
fn below_by_place<const W: usize>(word: u64, key: u64) -> usize
    requires { IsWidth W }
    ensures count { result ≡ count_by (λ place. nat_lt place key) (places W word) }
    ensures within { result ≤ 8 }
{
    let mut below = 0;
    for at in 0..8 / W {
        below += (key_in::<W>(word, at) < key) as usize;
    }
    below
}

// How many keys of a word are below a key. All of them are below what is no key of their width.
fn below_in<const W: usize>(word: u64, key: u64) -> usize
    requires { IsWidth W }
    ensures count { result ≡ count_by (λ place. nat_lt place key) (places W word) }
    ensures within { result ≤ 8 }
{
    if W == 1 {
        if key > 255 {
            8
        } else {
            bytes_below(word, key as u8)
        }
    } else if W == 2 {
        if key > 65_535 {
            4
        } else {
            pairs_below(word, key as u16)
        }
    } else {
        below_by_place::<W>(word, key)
    }
}

// How many places of words hold less than a key.
fn count_below<const W: usize>(words: &[u64], key: u64) -> usize
    requires width { IsWidth W }
    requires few { length words.now ≤ 32 }
    ensures { result ≡ count_by (λ place. nat_lt place key) (places_of W words.now) }
{
    let mut below = 0;
    for word in words {
        below += below_in::<W>(*word, key);
    }
    below
}

// How many of the keys are below a key.
#[inline(always)]
pub(crate) fn rank_in<const W: usize>(count: usize, words: &[u64], key: u64) -> usize
    requires packed { IsPacked W count words.now }
    requires ascending { IsStrictlySortedBy word_order (keys_in W count words.now) }
    requires few { length words.now ≤ 32 }
    ensures { result ≡ set.rank (keys_in W count words.now) key }
{
    if W == 8 {
        return rank_of(&words[..count], key);
    }
    count_below::<W>(words, key).saturating_sub(words.len() * (8 / W) - count)
}

// The key at a place.
pub(crate) fn key_of<const W: usize>(words: &[u64], at: usize) -> u64
    requires width { IsWidth W }
    requires inside { at < length words.now * (8 / W) }
    ensures { result ≡ slice_index (places_of W words.now) at }
{
    key_in::<W>(words[at / (8 / W)], at % (8 / W))
}

// The place of a key of one byte, where it is among the keys. It stands before the places that hold no key.
fn find_byte(count: usize, words: &[u64], key: u64) -> Option<usize>
    requires packed { IsPacked 1 count words.now }
    requires ascending { IsStrictlySortedBy word_order (keys_in 1 count words.now) }
    requires few { length words.now ≤ 32 }
    ensures { result ≡ set.place (keys_in 1 count words.now) key }
{
    if key > 255 {
        return None;
    }
    let at = bytes_before(words, key as u8);
    if at < count { Some(at) } else { None }
}

// The place of a key of eight bytes, where it is among the keys, which are the words.
#[inline(always)]
pub(crate) fn find_word(count: usize, words: &[u64], key: u64) -> Option<usize>
    requires packed { IsPacked 8 count words.now }
    requires ascending { IsStrictlySortedBy word_order (keys_in 8 count words.now) }
    requires few { length words.now ≤ 32 }
    ensures { result ≡ set.place (keys_in 8 count words.now) key }
{
    place_of(&words[..count], key)
}

// The place of a key, where it is among the keys.
pub(crate) fn find_in<const W: usize>(count: usize, words: &[u64], key: u64) -> Option<usize>
    requires packed { IsPacked W count words.now }
    requires ascending { IsStrictlySortedBy word_order (keys_in W count words.now) }
    requires few { length words.now ≤ 32 }
    ensures { result ≡ set.place (keys_in W count words.now) key }
{
    if W == 1 {
        return find_byte(count, words, key);
    }
    if W == 8 {
        return find_word(count, words, key);
    }
    let at = rank_in::<W>(count, words, key);
    if at < count && key_of::<W>(words, at) == key {
        Some(at)
    } else {
        None
    }
}

// The place of the nearest key at or above a number, and that key.
#[inline(always)]
pub(crate) fn next_in<const W: usize>(
    count: usize,
    words: &[u64],
    number: u64,
) -> Option<(usize, u64)>
    requires packed { IsPacked W count words.now }
    requires ascending { IsStrictlySortedBy word_order (keys_in W count words.now) }
    requires few { length words.now ≤ 32 }
    ensures { MatchOption result (set.rank (keys_in W count words.now) number ≡ count)
        (λ found. IsNextAt (keys_in W count words.now) number found) }
{
    let at = rank_in::<W>(count, words, number);
    if at < count {
        Some((at, key_of::<W>(words, at)))
    } else {
        None
    }
}

// How many of the keys are at or below a number.
pub(crate) fn up_to_in<const W: usize>(count: usize, words: &[u64], number: u64) -> usize
    requires packed { IsPacked W count words.now }
    requires ascending { IsStrictlySortedBy word_order (keys_in W count words.now) }
    requires few { length words.now ≤ 32 }
    ensures { result ≡ set.count_up_to (keys_in W count words.now) number }
{
    if number == u64::MAX {
        count
    } else {
        rank_in::<W>(count, words, number + 1)
    }
}

// The place of the nearest key at or below a number, and that key.
pub(crate) fn previous_in<const W: usize>(
    count: usize,
    words: &[u64],
    number: u64,
) -> Option<(usize, u64)>
    requires packed { IsPacked W count words.now }
    requires ascending { IsStrictlySortedBy word_order (keys_in W count words.now) }
    requires few { length words.now ≤ 32 }
    ensures { MatchOption result (set.count_up_to (keys_in W count words.now) number ≡ 0)
        (λ found. IsPreviousAt (keys_in W count words.now) number found) }
{
    let last = up_to_in::<W>(count, words, number).checked_sub(1)?;
    Some((last, key_of::<W>(words, last)))
}
