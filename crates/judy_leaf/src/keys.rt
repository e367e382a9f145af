//! The keys of a leaf as they stand in its block, from a word on to the block's end. What is called here knows the
//! width at run time, and hands on to code for that width alone, in which the number of places is a constant.

ghost use Rattle.std.specs.Prelude.{◌≡◌, ◌+◌, ◌-◌, ◌/◌, ◌<◌, ◌≤◌, ◌^◌, MatchOption, length, take, drop, slice_index};
ghost use Rattle.std.specs.List.{insert, remove};
ghost use Rattle.std.specs.List.Sorted.{IsStrictlySortedBy};
ghost use Rattle.judy_model.specs.Keys.{word_order};
ghost use Rattle.judy_model.specs.Nearest.{IsFirst, IsLast};
ghost use Rattle.judy_bits.specs.ByteSets as set;
ghost use Rattle.judy_leaf.specs.Packing.{IsWidth};
ghost use Rattle.judy_leaf.specs.KeyLists.{keys_of, low_pairs};
ghost use Rattle.judy_leaf.specs.Leaves.{words_for, keys_from, AreKeysFrom};
ghost use Rattle.judy_leaf.specs.Nearby.{is_absent, IsNextAt, IsPreviousAt};
ghost use Rattle.judy_leaf.specs.KeyChanges.{IsKeyChange, HasPlace, HasPlaceFor};

use crate::edit::{pull_key, push_key};
use crate::gaps::{absent_from_in, absent_up_to_in};
use crate::packed::{self, find_in, key_of, next_in, previous_in, rank_in};
use crate::widths::{at_width, call};
use judy_bits::low_part;
use judy_block::Block;

// How many words so many keys take.
fn words_for<const W: usize>(count: usize) -> usize
    requires width { IsWidth W }
    requires few { count ≤ 33 }
    ensures value { result ≡ words_for W count }
    ensures within { result ≤ count }
{
    (count + (8 / W - 1)) / (8 / W)
}

// The words of the keys.
fn words_from<const W: usize>(block: &Block, start: usize, count: usize) -> &[u64]
    requires width { IsWidth W }
    requires start { start ≤ 32 }
    requires keys { AreKeysFrom W count start block.now }
    ensures words { result.now ≡ drop start block.now.words }
    ensures few { length result.now ≤ 32 }
{
    &block.words()[start..start + words_for::<W>(count)]
}

// A search in the words of the keys, by a function for a width.
macro_rules! search {
    ($width:literal, $function:ident, $block:expr, $start:expr, $count:expr, $number:expr) => {
        $function::<$width>($count, words_from::<$width>($block, $start, $count), $number)
    };
}

// How many keys are below a key.
pub(crate) fn rank(width: usize, block: &Block, start: usize, count: usize, key: u64) -> usize
    requires start { start ≤ 32 }
    requires keys { AreKeysFrom width count start block.now }
    requires ascending { IsStrictlySortedBy word_order (keys_from width count start block.now) }
    ensures { result ≡ set.rank (keys_from width count start block.now) key }
{
    at_width!(width, search, rank_in, block, start, count, key)
}

// The place of a key, where it is among the keys.
pub(crate) fn find(
    width: usize,
    block: &Block,
    start: usize,
    count: usize,
    key: u64,
) -> Option<usize>
    requires start { start ≤ 32 }
    requires keys { AreKeysFrom width count start block.now }
    requires ascending { IsStrictlySortedBy word_order (keys_from width count start block.now) }
    ensures { result ≡ set.place (keys_from width count start block.now) key }
{
    at_width!(width, search, find_in, block, start, count, key)
}

// The same among keys of eight bytes.
#[inline(always)]
pub(crate) fn find_word(block: &Block, start: usize, count: usize, key: u64) -> Option<usize>
    requires start { start ≤ 32 }
    requires keys { AreKeysFrom 8 count start block.now }
    requires ascending { IsStrictlySortedBy word_order (keys_from 8 count start block.now) }
    ensures { result ≡ set.place (keys_from 8 count start block.now) key }
{
    packed::find_word(count, words_from::<8>(block, start, count), key)
}

// The place of the nearest key at or above a number, and that key.
#[inline(always)]
pub(crate) fn next(
    width: usize,
    block: &Block,
    start: usize,
    count: usize,
    number: u64,
) -> Option<(usize, u64)>
    requires start { start ≤ 32 }
    requires keys { AreKeysFrom width count start block.now }
    requires ascending { IsStrictlySortedBy word_order (keys_from width count start block.now) }
    ensures { MatchOption result (set.rank (keys_from width count start block.now) number ≡ count)
        (λ found. IsNextAt (keys_from width count start block.now) number found) }
{
    at_width!(width, search, next_in, block, start, count, number)
}

// The place of the nearest key at or below a number, and that key.
pub(crate) fn previous(
    width: usize,
    block: &Block,
    start: usize,
    count: usize,
    number: u64,
) -> Option<(usize, u64)>
    requires start { start ≤ 32 }
    requires keys { AreKeysFrom width count start block.now }
    requires ascending { IsStrictlySortedBy word_order (keys_from width count start block.now) }
    ensures { MatchOption result
        (set.count_up_to (keys_from width count start block.now) number ≡ 0)
        (λ found. IsPreviousAt (keys_from width count start block.now) number found) }
{
    at_width!(width, search, previous_in, block, start, count, number)
}

// The nearest number at or above another that is no key, among those that a key of the width could be; none where all
// these are keys.
pub(crate) fn absent_from(
    width: usize,
    block: &Block,
    start: usize,
    count: usize,
    number: u64,
) -> Option<u64>
    requires start { start ≤ 32 }
    requires keys { AreKeysFrom width count start block.now }
    requires ascending { IsStrictlySortedBy word_order (keys_from width count start block.now) }
    ensures { IsFirst word_order
        (is_absent (256 ^ width) (keys_from width count start block.now)) number result }
{
    at_width!(width, search, absent_from_in, block, start, count, number)
}

// The nearest number at or below another that is no key, among those that a key of the width could be; none where all
// these are keys.
pub(crate) fn absent_up_to(
    width: usize,
    block: &Block,
    start: usize,
    count: usize,
    number: u64,
) -> Option<u64>
    requires start { start ≤ 32 }
    requires keys { AreKeysFrom width count start block.now }
    requires ascending { IsStrictlySortedBy word_order (keys_from width count start block.now) }
    ensures { IsLast word_order
        (is_absent (256 ^ width) (keys_from width count start block.now)) number result }
{
    at_width!(width, search, absent_up_to_in, block, start, count, number)
}

// The key at a place.
pub(crate) fn key_in_block<const W: usize>(
    block: &Block,
    start: usize,
    count: usize,
    at: usize,
) -> u64
    requires width { IsWidth W }
    requires start { start ≤ 32 }
    requires keys { AreKeysFrom W count start block.now }
    requires inside { at < count }
    ensures { result ≡ slice_index (keys_from W count start block.now) at }
{
    key_of::<W>(words_from::<W>(block, start, count), at)
}

// The key at a place.
pub(crate) fn key_at(width: usize, block: &Block, start: usize, count: usize, at: usize) -> u64
    requires start { start ≤ 32 }
    requires keys { AreKeysFrom width count start block.now }
    requires inside { at < count }
    ensures { result ≡ slice_index (keys_from width count start block.now) at }
{
    at_width!(width, call, key_in_block, block, start, count, at)
}

// One word more, of zeros, where the words of so many keys have no place for another.
fn make_place<const W: usize>(block: &mut Block, start: usize, count: usize)
    requires width { IsWidth W }
    requires start { start ≤ 32 }
    requires few { count < 32 }
    requires keys { AreKeysFrom W count start block.old }
    requires room { start + words_for W (count + 1) ≤ block.old.capacity }
    ensures { HasPlace W count start block.old block.new }
{
    if words_for::<W>(count) < words_for::<W>(count + 1) {
        block.open_gap(start + words_for::<W>(count), 1);
    }
}

// Puts a key in at a place, where a word has one key: the words behind it move on by one.
fn insert_word<const W: usize>(block: &mut Block, start: usize, count: usize, at: usize, key: u64)
    requires width { IsWidth W }
    requires one { 8 / W ≡ 1 }
    requires start { start ≤ 32 }
    requires few { count < 32 }
    requires keys { AreKeysFrom W count start block.old }
    requires room { start + words_for W (count + 1) ≤ block.old.capacity }
    requires place { at ≤ count }
    requires below { key < 256 ^ W }
    ensures { IsKeyChange W start count (count + 1)
        (λ keys. insert keys at key) block.old block.new }
{
    block.open_gap(start + at, 1);
    block.put(start + at, key);
}

// Puts a key in at a place.
fn insert_in<const W: usize>(block: &mut Block, start: usize, count: usize, at: usize, key: u64)
    requires width { IsWidth W }
    requires start { start ≤ 32 }
    requires few { count < 32 }
    requires keys { AreKeysFrom W count start block.old }
    requires room { start + words_for W (count + 1) ≤ block.old.capacity }
    requires place { at ≤ count }
    requires below { key < 256 ^ W }
    ensures { IsKeyChange W start count (count + 1)
        (λ keys. insert keys at key) block.old block.new }
{
    if 8 / W == 1 {
        insert_word::<W>(block, start, count, at, key);
    } else {
        make_place::<W>(block, start, count);
        push_key::<W>(block, start, at, key);
    }
}

// Puts a key in at a place. There are fewer than 32, and the block has room for one more.
#[inline(always)]
pub(crate) fn insert(
    width: usize,
    block: &mut Block,
    start: usize,
    count: usize,
    at: usize,
    key: u64,
)
    requires start { start ≤ 32 }
    requires few { count < 32 }
    requires keys { AreKeysFrom width count start block.old }
    requires room { start + words_for width (count + 1) ≤ block.old.capacity }
    requires place { at ≤ count }
    requires below { key < 256 ^ width }
    ensures { IsKeyChange width start count (count + 1)
        (λ keys. insert keys at key) block.old block.new }
{
    at_width!(width, call, insert_in, block, start, count, at, key)
}

// Puts the keys of pairs in behind the words of a block, by their lowest bytes.
#[inline(always)]
fn append_in<const W: usize>(block: &mut Block, start: usize, pairs: &[(u64, u64)])
    requires width { IsWidth W }
    requires start { start ≤ 32 }
    requires few { length pairs.now ≤ 32 }
    requires behind { length block.old.words ≡ start }
    requires room { start + words_for W (length pairs.now) ≤ block.old.capacity }
    ensures { IsKeyChange W start 0 (length pairs.now)
        (λ _. keys_of (low_pairs (256 ^ W) pairs.now)) block.old block.new }
{
    if 8 / W == 1 {
        append_words::<W>(block, start, pairs);
    } else {
        append_packed::<W>(block, start, pairs);
    }
}

// The same where a word has one key: the words are made at once.
#[inline(always)]
fn append_words<const W: usize>(block: &mut Block, start: usize, pairs: &[(u64, u64)])
    requires width { IsWidth W }
    requires one { 8 / W ≡ 1 }
    requires start { start ≤ 32 }
    requires few { length pairs.now ≤ 32 }
    requires behind { length block.old.words ≡ start }
    requires room { start + words_for W (length pairs.now) ≤ block.old.capacity }
    ensures { IsKeyChange W start 0 (length pairs.now)
        (λ _. keys_of (low_pairs (256 ^ W) pairs.now)) block.old block.new }
{
    block.open_gap(start, pairs.len());
    for at in 0..pairs.len() {
        block.put(start + at, low_part(pairs[at].0, W));
    }
}

// The same where a word has more.
fn append_packed<const W: usize>(block: &mut Block, start: usize, pairs: &[(u64, u64)])
    requires width { IsWidth W }
    requires start { start ≤ 32 }
    requires few { length pairs.now ≤ 32 }
    requires behind { length block.old.words ≡ start }
    requires room { start + words_for W (length pairs.now) ≤ block.old.capacity }
    ensures { IsKeyChange W start 0 (length pairs.now)
        (λ _. keys_of (low_pairs (256 ^ W) pairs.now)) block.old block.new }
{
    for at in 0..pairs.len() {
        insert_in::<W>(block, start, at, at, low_part(pairs[at].0, W));
    }
}

// Puts the keys of at most 32 pairs in behind the words of a block, by their lowest bytes. The block has room for them.
#[inline(always)]
pub(crate) fn append(width: usize, block: &mut Block, start: usize, pairs: &[(u64, u64)])
    requires width { IsWidth width }
    requires start { start ≤ 32 }
    requires few { length pairs.now ≤ 32 }
    requires behind { length block.old.words ≡ start }
    requires room { start + words_for width (length pairs.now) ≤ block.old.capacity }
    ensures { IsKeyChange width start 0 (length pairs.now)
        (λ _. keys_of (low_pairs (256 ^ width) pairs.now)) block.old block.new }
{
    at_width!(width, call, append_in, block, start, pairs)
}

// Lets the last word go where the words of one key fewer don't need it.
fn drop_place<const W: usize>(block: &mut Block, start: usize, count: usize)
    requires width { IsWidth W }
    requires start { start ≤ 32 }
    requires some { (1 ≤ count) × (count ≤ 32) }
    requires keys { HasPlaceFor W start count block.old }
    ensures { IsKeyChange W start (count - 1) (count - 1) (λ keys. keys) block.old block.new }
{
    if words_for::<W>(count - 1) < words_for::<W>(count) {
        block.close_gap(start + words_for::<W>(count - 1), 1);
    }
}

// Takes out the key at a place, where a word has one key: the words behind it move back by one.
fn remove_word<const W: usize>(block: &mut Block, start: usize, count: usize, at: usize)
    requires width { IsWidth W }
    requires one { 8 / W ≡ 1 }
    requires start { start ≤ 32 }
    requires keys { AreKeysFrom W count start block.old }
    requires inside { at < count }
    ensures { IsKeyChange W start count (count - 1) (λ keys. remove keys at) block.old block.new }
{
    block.close_gap(start + at, 1);
}

// Takes out the key at a place.
fn remove_in<const W: usize>(block: &mut Block, start: usize, count: usize, at: usize)
    requires width { IsWidth W }
    requires start { start ≤ 32 }
    requires keys { AreKeysFrom W count start block.old }
    requires inside { at < count }
    ensures { IsKeyChange W start count (count - 1) (λ keys. remove keys at) block.old block.new }
{
    if 8 / W == 1 {
        remove_word::<W>(block, start, count, at);
    } else {
        pull_key::<W>(block, start, at);
        drop_place::<W>(block, start, count);
    }
}

// Takes out the key at a place.
pub(crate) fn remove(width: usize, block: &mut Block, start: usize, count: usize, at: usize)
    requires start { start ≤ 32 }
    requires keys { AreKeysFrom width count start block.old }
    requires inside { at < count }
    ensures { IsKeyChange width start count (count - 1)
        (λ keys. remove keys at) block.old block.new }
{
    at_width!(width, call, remove_in, block, start, count, at)
}

// How many words so many keys take.
#[inline(always)]
pub(crate) fn words_of(width: usize, count: usize) -> usize
    requires width { IsWidth width }
    requires few { count ≤ 33 }
    ensures value { result ≡ words_for width count }
    ensures within { result ≤ count }
{
    at_width!(width, call, words_for, count)
}
