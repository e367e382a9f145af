//! Changes of a bitmap leaf's block: a pair of key and value more, or one less.

ghost use Rattle.std.specs.Prelude.{◌≡◌, ◌+◌, ◌*◌, ◌≤◌, length, [], slice_get, Some, IsFalse};
ghost use Rattle.std.specs.List.{insert, remove, AllByRecursion};
ghost use Rattle.judy_bits.specs.ByteSets as set;
ghost use Rattle.judy_leaf.specs.KeyLists.{keys_of, with_pair, low_pairs, IsKeyList};
ghost use Rattle.judy_leaf.specs.BitLeaves.{bit_keys, bit_list, IsBitParts};
ghost use Rattle.judy_leaf.specs.BitChanges.{IsBitChange, IsBitEdit};

use crate::layout::BIT_WORDS;
use crate::values;
use crate::words::Words;
use judy_block::Block;

// Makes the bit of a byte 1.
fn set_bit(block: &mut Block, byte: u8)
    requires { 4 ≤ length block.old.words }
    ensures { IsBitChange (λ keys. set.with_byte keys byte) block.old block.new }
{
    let word = usize::from(byte / 64);
    block.put(word, block.get(word) | 1 << (byte % 64));
}

// Makes the bit of a byte 0.
fn clear_bit(block: &mut Block, byte: u8)
    requires { 4 ≤ length block.old.words }
    ensures { IsBitChange (λ keys. set.without_byte keys byte) block.old block.new }
{
    let word = usize::from(byte / 64);
    block.put(word, block.get(word) & !(1 << (byte % 64)));
}

// Puts a value in at a place.
fn insert_value(block: &mut Block, at: usize, value: u64)
    requires few { at ≤ 256 }
    requires place { 4 + at ≤ length block.old.words }
    requires room { length block.old.words + 1 ≤ block.old.capacity }
    ensures { block.new ≡ record block.old { words = insert block.old.words (4 + at) value } }
{
    block.open_gap(BIT_WORDS + at, 1);
    block.put(BIT_WORDS + at, value);
}

// Puts an absent key in, which has `at` keys below it, with its value.
pub(crate) fn put<V: Words + Drop>(block: &mut Block, at: usize, key: u8, value: u64)
    requires parts { IsBitParts V.WORDS block.old }
    requires absent { IsFalse (set.has (bit_keys block.old) key) }
    requires place { at ≡ set.rank (bit_keys block.old) key }
    requires no_value { V.WORDS ≡ 0 → value ≡ 0 }
    requires room { length block.old.words + V.WORDS ≤ block.old.capacity }
    ensures { IsBitEdit V.WORDS (with_pair key value) block.old block.new }
{
    set_bit(block, key);
    block.set_tag(block.tag() + 1);
    if V::WORDS == 1 {
        insert_value(block, at, value);
    }
}

// Takes out the key at a place, with its value.
pub(crate) fn take<V: Words + Drop>(block: &mut Block, at: usize, key: u8)
    requires parts { IsBitParts V.WORDS block.old }
    requires there { slice_get (bit_keys block.old) at ≡ Some key }
    ensures { IsBitEdit V.WORDS (λ pairs. remove pairs at) block.old block.new }
{
    clear_bit(block, key);
    block.set_tag(block.tag() - 1);
    if V::WORDS == 1 {
        block.close_gap(BIT_WORDS + at, 1);
    }
}

// Makes the bits of the lowest bytes of keys 1, which ascend, in a block without keys.
fn set_bits(block: &mut Block, pairs: &[(u64, u64)])
    requires some { 4 ≤ length block.old.words }
    requires empty { bit_keys block.old ≡ [] }
    requires list { IsKeyList (record { width = 1; pairs = low_pairs 256 pairs.now }) }
    ensures { IsBitChange (λ _. keys_of (low_pairs 256 pairs.now)) block.old block.new }
{
    for at in 0..pairs.len() {
        set_bit(block, (pairs[at].0 % 256) as u8);
    }
}

// Puts pairs, by the lowest bytes of their keys, which ascend, into a block without keys.
pub(crate) fn put_all<V: Words + Drop>(block: &mut Block, pairs: &[(u64, u64)])
    requires parts { IsBitParts V.WORDS block.old }
    requires empty { bit_keys block.old ≡ [] }
    requires list { IsKeyList (record { width = 1; pairs = low_pairs 256 pairs.now }) }
    requires no_values { V.WORDS ≡ 0 → AllByRecursion (λ pair. pair.1 ≡ 0) pairs.now }
    requires room { 4 + V.WORDS * length pairs.now ≤ block.old.capacity }
    ensures parts { IsBitParts V.WORDS block.new }
    ensures list { bit_list V.WORDS block.new
        ≡ record (bit_list V.WORDS block.old) { pairs = low_pairs 256 pairs.now } }
{
    set_bits(block, pairs);
    block.set_tag(block.tag() + pairs.len() as u32);
    if V::WORDS == 1 {
        values::append(block, pairs);
    }
}
