//! Two slices of pairs by ascending key, gone through side by side.

ghost use Rattle.std.specs.Prelude.{◌≡◌, ◌+◌, ◌^◌, ◌≤◌, ◌⊎◌, ◌++◌, ℕ, [], length, take, if◌then◌else◌};
ghost use Rattle.judy_node.specs.Trees.{IsMap};
ghost use Rattle.judy_combine.specs.Kept.{AreKept};
ghost use Rattle.judy_combine.specs.Merges.{IsMerged, IsOrdered};

use crate::keep::Keep;
use judy_leaf::Words;

/// How many pairs of the left slice and of the right one were passed, and how many were written.
#[derive(Clone, Copy)]
pub struct Passed {
    pub left: usize,
    pub right: usize,
    pub count: usize,
}

/// Passes the pairs of two slices by ascending key, until one is at its end, and writes those that are kept to the
/// front of a slice, which has a place for each.
pub fn merge(keep: Keep, one: &[(u64, u64)], other: &[(u64, u64)], out: &mut [(u64, u64)]) -> Passed
    requires room { length one.now + length other.now ≤ length out.old }
    ensures left { result.left ≤ length one.now }
    ensures right { result.right ≤ length other.now }
    ensures end { (result.left ≡ length one.now) ⊎ (result.right ≡ length other.now) }
    ensures count { result.count ≤ length out.old }
    ensures few { result.count ≤ result.left + result.right }
    ensures same_room { length out.new ≡ length out.old }
    ensures ordered { (words top : ℕ) → IsMap words 0 top one.now → IsMap words 0 top other.now
        → IsOrdered words top one.now other.now result.left result.right
        (take result.count out.new) }
    ensures merged { IsMerged keep one.now other.now result.left result.right
        (take result.count out.new) }
{
    let mut left = 0;
    let mut right = 0;
    let mut count = 0;
    'pairs: while left < one.len() && right < other.len() {
        let ours = one[left];
        let theirs = other[right];
        let in_one = ours.0 <= theirs.0;
        let in_other = theirs.0 <= ours.0;
        out[count] = if in_one { ours } else { theirs };
        count += keep.takes(in_one, in_other) as usize;
        left += in_one as usize;
        right += in_other as usize;
    }
    Passed { left, right, count }
}

/// Writes what is kept of two slices of pairs by ascending key to the front of a slice, which has a place for each, and
/// answers how many they are.
pub fn merge_all<V: Words + Drop>(
    keep: Keep,
    width: u8,
    one: &[(u64, u64)],
    other: &[(u64, u64)],
    out: &mut [(u64, u64)],
) -> usize
    requires map { IsMap V.WORDS 0 (256 ^ width) one.now }
    requires other_map { IsMap V.WORDS 0 (256 ^ width) other.now }
    requires room { length one.now + length other.now ≤ length out.old }
    ensures within { result ≤ length out.new }
    ensures map { IsMap V.WORDS 0 (256 ^ width) (take result out.new) }
    ensures kept { AreKept keep one.now other.now (take result out.new) }
{
    let passed = merge(keep, one, other, out);
    let count = add_if(keep.left, &one[passed.left..], out, passed.count);
    add_if(keep.right, &other[passed.right..], out, count)
}

// Writes pairs into a slice behind the first ones, so many, if they are wanted, and answers how many stand there then.
fn add_if(wanted: bool, pairs: &[(u64, u64)], out: &mut [(u64, u64)], count: usize) -> usize
    requires { count + length pairs.now ≤ length out.old }
    ensures same_room { length out.new ≡ length out.old }
    ensures few { result ≤ count + length pairs.now }
    ensures added { take result out.new
        ≡ take count out.old ++ (if wanted then pairs.now else []) }
{
    if !wanted {
        return count;
    }
    let end = count + pairs.len();
    out[count..end].copy_from_slice(pairs);
    end
}
