//! The keys of two leaves, gone through side by side.

ghost use Rattle.std.specs.Prelude.{◌≡◌, ◌+◌, ◌^◌, ◌≤◌, filter, length};
ghost use Rattle.judy_model.specs.Ways.{Ascends};
ghost use Rattle.judy_bits.specs.ByteSets as set;
ghost use Rattle.judy_leaf.specs.KeyLists.{keys_of, shift};
ghost use Rattle.judy_node.specs.Trees.{IsMap};

use judy_leaf::{LEAF_ROOM, LeafRef, Words};

/// How many keys of a leaf, each so much higher, another leaf has. The keys of both are written out once.
pub fn common_in<V: Words + Drop>(one: &LeafRef<'_, V>, other: &LeafRef<'_, V>, by: u64) -> u64
    requires map { IsMap V.WORDS 0 (256 ^ one.now.width) one.now.pairs }
    requires other_map { IsMap V.WORDS 0 (256 ^ other.now.width) other.now.pairs }
    requires fits { by + 256 ^ one.now.width ≤ 2 ^ 64 }
    ensures count { result
        ≡ length
        (filter (set.has (keys_of other.now.pairs)) (keys_of (shift by one.now.pairs))) }
    ensures few { result ≤ length one.now.pairs }
{
    let (count, many) = (one.len(), other.len());
    other.law();
    let mut ours = [0; LEAF_ROOM];
    let mut theirs = [0; LEAF_ROOM];
    one.fill_from(0, by, &mut ours[..count]);
    other.fill_from(0, 0, &mut theirs[..many]);
    count_met(&ours[..count], &theirs[..many])
}

// How many keys two slices both have, whose keys ascend.
// Which of two keys is the lower can't be foreseen, so no key costs a branch.
fn count_met(one: &[u64], other: &[u64]) -> u64
    requires up { Ascends 0 one.now }
    requires other_up { Ascends 0 other.now }
    ensures count { result ≡ length (filter (set.has other.now) one.now) }
    ensures few { result ≤ length one.now }
{
    let mut left = 0;
    let mut right = 0;
    let mut count = 0;
    'keys: while left < one.len() && right < other.len() {
        let ours = one[left];
        let theirs = other[right];
        left += (ours <= theirs) as usize;
        right += (theirs <= ours) as usize;
        count += (ours == theirs) as u64;
    }
    count
}
