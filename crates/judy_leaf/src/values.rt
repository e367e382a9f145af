//! The values of a leaf as they stand in its block, from the first word on, before the keys.

ghost use Rattle.std.specs.Prelude.{◌≡◌, ◌+◌, ◌-◌, ◌<◌, ◌≤◌, ◌++◌, length, take};
ghost use Rattle.std.specs.List.{insert, remove};
ghost use Rattle.judy_leaf.specs.KeyLists.{values_of};
ghost use Rattle.judy_leaf.specs.Leaves.{AreKeysFrom, keys_from};
ghost use Rattle.judy_leaf.specs.ValueChanges.{IsValueChange};

use judy_block::Block;

// Puts a value in at a place; the keys move up by a word.
pub(crate) fn insert(block: &mut Block, count: usize, at: usize, value: u64)
    requires few { count ≤ 32 }
    requires place { at ≤ count }
    requires keys { AreKeysFrom block.old.tag count count block.old }
    requires room { length block.old.words + 1 ≤ block.old.capacity }
    ensures { IsValueChange count count (count + 1)
        (λ values. insert values at value) block.old block.new }
{
    block.open_gap(at, 1);
    block.put(at, value);
}

// Takes out the value at a place; the keys, one fewer than the values, move down by a word.
pub(crate) fn remove(block: &mut Block, count: usize, at: usize)
    requires few { count ≤ 32 }
    requires inside { at < count }
    requires keys { AreKeysFrom block.old.tag (count - 1) count block.old }
    ensures { IsValueChange (count - 1) count (count - 1)
        (λ values. remove values at) block.old block.new }
{
    block.close_gap(at, 1);
}

// Puts the values of pairs behind the words of a block, which has room for them.
#[inline(always)]
pub(crate) fn append(block: &mut Block, pairs: &[(u64, u64)])
    requires front { length block.old.words ≤ 4 }
    requires few { length pairs.now ≤ 256 }
    requires room { length block.old.words + length pairs.now ≤ block.old.capacity }
    ensures { block.new ≡ record block.old { words = block.old.words ++ values_of pairs.now } }
{
    let start = block.len();
    block.open_gap(start, pairs.len());
    for at in 0..pairs.len() {
        block.put(start + at, pairs[at].1);
    }
}
