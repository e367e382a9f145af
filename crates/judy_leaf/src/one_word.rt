//! Keys packed into one word, for a width that is known at run time.
//!
//! Where there is one key, the word is that key, and a look-up is one comparison: so the calls on its way stand inside
//! their callers, who mostly know whether there is one.

ghost use Rattle.std.specs.Prelude.{◌≡◌, ◌+◌, ◌-◌, ◌/◌, ◌<◌, ◌≤◌, ◌^◌, ◌==◌, MatchOption, [], ◌∷◌, slice_index};
ghost use Rattle.std.specs.List.{insert, remove};
ghost use Rattle.std.specs.List.Sorted.{IsStrictlySortedBy};
ghost use Rattle.judy_model.specs.Keys.{word_order};
ghost use Rattle.judy_model.specs.Nearest.{IsFirst, IsLast};
ghost use Rattle.judy_bits.specs.ByteSets as set;
ghost use Rattle.judy_leaf.specs.Packing.{keys_in, IsPacked, IsWidth};
ghost use Rattle.judy_leaf.specs.Nearby.{is_absent, IsNextAt, IsPreviousAt};
ghost use Rattle.judy_leaf.specs.Immediates.{IsWordChange};

use crate::gaps::{absent_from_in, absent_up_to_in};
use crate::packed::{find_in, key_of, next_in, previous_in, rank_in};
use crate::place;
use crate::widths::{at_width, call};

// Whether a word that holds so many keys has no place for another. A product tells it sooner than a quotient.
pub(crate) fn is_full(width: u8, count: u8) -> bool
    requires width { IsWidth width }
    requires within { count ≤ 8 / width }
    ensures { result ≡ (count == 8 / width) }
{
    8 < (count + 1) * width
}

// How many of the keys are below a key.
#[inline(always)]
pub(crate) fn rank(width: u8, count: usize, word: u64, key: u64) -> usize
    requires packed { IsPacked width count (word ∷ []) }
    requires ascending { IsStrictlySortedBy word_order (keys_in width count (word ∷ [])) }
    ensures { result ≡ set.rank (keys_in width count (word ∷ [])) key }
{
    if count == 1 {
        (word < key) as usize
    } else {
        rank_among(width, count, word, key)
    }
}

// The same by a look at all places of the word.
fn rank_among(width: u8, count: usize, word: u64, key: u64) -> usize
    requires packed { IsPacked width count (word ∷ []) }
    requires ascending { IsStrictlySortedBy word_order (keys_in width count (word ∷ [])) }
    ensures { result ≡ set.rank (keys_in width count (word ∷ [])) key }
{
    at_width!(width, call, rank_in, count, &[word], key)
}

// The place of a key, where it is among the keys.
#[inline(always)]
pub(crate) fn find(width: u8, count: usize, word: u64, key: u64) -> Option<usize>
    requires packed { IsPacked width count (word ∷ []) }
    requires ascending { IsStrictlySortedBy word_order (keys_in width count (word ∷ [])) }
    ensures { result ≡ set.place (keys_in width count (word ∷ [])) key }
{
    if count == 1 {
        if word == key { Some(0) } else { None }
    } else {
        find_among(width, count, word, key)
    }
}

// The same by a look at all places of the word.
fn find_among(width: u8, count: usize, word: u64, key: u64) -> Option<usize>
    requires packed { IsPacked width count (word ∷ []) }
    requires ascending { IsStrictlySortedBy word_order (keys_in width count (word ∷ [])) }
    ensures { result ≡ set.place (keys_in width count (word ∷ [])) key }
{
    at_width!(width, call, find_in, count, &[word], key)
}

// The place of the nearest key at or above a number, and that key.
#[inline(always)]
pub(crate) fn next(width: u8, count: usize, word: u64, number: u64) -> Option<(usize, u64)>
    requires packed { IsPacked width count (word ∷ []) }
    requires ascending { IsStrictlySortedBy word_order (keys_in width count (word ∷ [])) }
    ensures { MatchOption result (set.rank (keys_in width count (word ∷ [])) number ≡ count)
        (λ found. IsNextAt (keys_in width count (word ∷ [])) number found) }
{
    if count == 1 {
        if word < number { None } else { Some((0, word)) }
    } else {
        next_among(width, count, word, number)
    }
}

// The same by a look at all places of the word.
fn next_among(width: u8, count: usize, word: u64, number: u64) -> Option<(usize, u64)>
    requires packed { IsPacked width count (word ∷ []) }
    requires ascending { IsStrictlySortedBy word_order (keys_in width count (word ∷ [])) }
    ensures { MatchOption result (set.rank (keys_in width count (word ∷ [])) number ≡ count)
        (λ found. IsNextAt (keys_in width count (word ∷ [])) number found) }
{
    at_width!(width, call, next_in, count, &[word], number)
}

// The place of the nearest key at or below a number, and that key.
pub(crate) fn previous(width: u8, count: usize, word: u64, number: u64) -> Option<(usize, u64)>
    requires packed { IsPacked width count (word ∷ []) }
    requires ascending { IsStrictlySortedBy word_order (keys_in width count (word ∷ [])) }
    ensures { MatchOption result (set.count_up_to (keys_in width count (word ∷ [])) number ≡ 0)
        (λ found. IsPreviousAt (keys_in width count (word ∷ [])) number found) }
{
    at_width!(width, call, previous_in, count, &[word], number)
}

// The nearest number at or above another that is no key, among those that a key of the width could be; none where all
// these are keys.
#[tactic(auto, using(crate::proofs::AbsentRuns::first_at))]
pub(crate) fn absent_from(width: u8, count: usize, word: u64, number: u64) -> Option<u64>
    requires packed { IsPacked width count (word ∷ []) }
    requires ascending { IsStrictlySortedBy word_order (keys_in width count (word ∷ [])) }
    ensures { IsFirst word_order
        (is_absent (256 ^ width) (keys_in width count (word ∷ []))) number result }
{
    at_width!(width, call, absent_from_in, count, &[word], number)
}

// The nearest number at or below another that is no key, among those that a key of the width could be; none where all
// these are keys.
#[tactic(auto, using(crate::proofs::AbsentRuns::last_at))]
pub(crate) fn absent_up_to(width: u8, count: usize, word: u64, number: u64) -> Option<u64>
    requires packed { IsPacked width count (word ∷ []) }
    requires ascending { IsStrictlySortedBy word_order (keys_in width count (word ∷ [])) }
    ensures { IsLast word_order
        (is_absent (256 ^ width) (keys_in width count (word ∷ []))) number result }
{
    at_width!(width, call, absent_up_to_in, count, &[word], number)
}

// The key at a place.
fn key_in<const W: usize>(count: usize, word: u64, at: usize) -> u64
    requires packed { IsPacked W count (word ∷ []) }
    requires inside { at < count }
    ensures { result ≡ slice_index (keys_in W count (word ∷ [])) at }
{
    key_of::<W>(&[word], at)
}

// The key at a place.
#[inline(always)]
pub(crate) fn key_at(width: u8, count: usize, word: u64, at: usize) -> u64
    requires packed { IsPacked width count (word ∷ []) }
    requires inside { at < count }
    ensures { result ≡ slice_index (keys_in width count (word ∷ [])) at }
{
    if count == 1 {
        word
    } else {
        key_among(width, count, word, at)
    }
}

// The same by a look at all places of the word.
fn key_among(width: u8, count: usize, word: u64, at: usize) -> u64
    requires packed { IsPacked width count (word ∷ []) }
    requires inside { at < count }
    ensures { result ≡ slice_index (keys_in width count (word ∷ [])) at }
{
    at_width!(width, call, key_in, count, word, at)
}

// The word with a key put in at a place.
fn put_in<const W: usize>(count: usize, word: u64, at: usize, key: u64) -> u64
    requires packed { IsPacked W count (word ∷ []) }
    requires room { count < 8 / W }
    requires place { at ≤ count }
    requires below { key < 256 ^ W }
    ensures { IsWordChange W count (count + 1) (λ keys. insert keys at key) word result }
{
    place::with_key::<W>(word, at, key)
}

// The word with a key put in at a place.
pub(crate) fn with_key(width: u8, count: usize, word: u64, at: usize, key: u64) -> u64
    requires packed { IsPacked width count (word ∷ []) }
    requires room { count < 8 / width }
    requires place { at ≤ count }
    requires below { key < 256 ^ width }
    ensures { IsWordChange width count (count + 1) (λ keys. insert keys at key) word result }
{
    at_width!(width, call, put_in, count, word, at, key)
}

// The word without the key at a place.
fn take_out<const W: usize>(count: usize, word: u64, at: usize) -> u64
    requires packed { IsPacked W count (word ∷ []) }
    requires inside { at < count }
    ensures { IsWordChange W count (count - 1) (λ keys. remove keys at) word result }
{
    place::without_key::<W>(word, at, 0)
}

// The word without the key at a place.
pub(crate) fn without_key(width: u8, count: usize, word: u64, at: usize) -> u64
    requires packed { IsPacked width count (word ∷ []) }
    requires inside { at < count }
    ensures { IsWordChange width count (count - 1) (λ keys. remove keys at) word result }
{
    at_width!(width, call, take_out, count, word, at)
}
