//! What the ways down ask of a branch beside its own answers.

ghost use Rattle.std.specs.Prelude.{◌≡◌, ◌+◌, ◌*◌, ◌^◌, ◌<◌, ◌≤◌, length, slice_get, Some, ℕ};
ghost use Rattle.judy_model.specs.WordBytes.{number_of};
ghost use Rattle.judy_bits.specs.ByteSets as set;
ghost use Rattle.judy_node.specs.Trees.{Tree};
ghost use Rattle.judy_node.specs.Branches.{IsWholeBranch};
ghost use Rattle.judy_node.specs.Populations.{AreSums, HoldsNth};
ghost use Rattle.judy_query.specs.Parts.{passed, reached, byte_passed, byte_behind, IsStart};

use judy_bits::moved_up;
use judy_leaf::Words;
use judy_node::{BranchOf, Step};

/// How many children are before a key, by its step: the place of its child, or the one that it would have.
pub fn passed<V: Words + Drop>(branch: &BranchOf<V>, step: Step) -> usize
    ensures { result ≡ passed (length branch.now.children.items) step }
{
    match step {
        Step::Child(_, place, _) => place,
        Step::Missing(_, place, _) => place,
        Step::Below => 0,
        Step::Above => branch.children.len(),
    }
}

/// How many children aren't above a key, by its step: those before it, and its child.
pub(crate) fn reached<V: Words + Drop>(branch: &BranchOf<V>, step: Step) -> usize
    requires { passed (length branch.now.children.items) step ≤ length branch.now.children.items }
    ensures { result ≡ reached (length branch.now.children.items) step }
{
    match step {
        Step::Child(_, place, _) => place + 1,
        Step::Missing(_, place, _) => place,
        Step::Below => 0,
        Step::Above => branch.children.len(),
    }
}

/// Below which byte the children before a key are, by its step; 256 where all are.
pub(crate) fn byte_passed(step: Step) -> u64
    ensures { result ≡ byte_passed step }
{
    match step {
        Step::Child(byte, _, _) => u64::from(byte),
        Step::Missing(byte, _, _) => u64::from(byte),
        Step::Below => 0,
        Step::Above => 256,
    }
}

/// From which byte on the children above a key are, by its step; 256 where there are none.
pub(crate) fn byte_behind(step: Step) -> u64
    ensures { result ≡ byte_behind step }
{
    match step {
        Step::Child(byte, _, _) => u64::from(byte) + 1,
        Step::Missing(byte, _, _) => u64::from(byte) + 1,
        Step::Below => 0,
        Step::Above => 256,
    }
}

/// Where the keys of the child at a place begin.
pub(crate) fn start_of<V: Words + Drop>(branch: &BranchOf<V>, place: usize) -> u64
    requires branch { IsWholeBranch V.WORDS branch.now }
    requires place { place < length branch.now.children.items }
    ensures { IsStart (256 ^ branch.now.width)
        (number_of branch.now.skip * 256) branch.now.bytes place result }
{
    start_at(branch, branch.byte_at(place))
}

/// The same for the first child from a byte on, whose place is known: its own byte is the next one in the set, and none
/// are counted.
pub(crate) fn start_from<V: Words + Drop>(branch: &BranchOf<V>, place: usize, from: u64) -> u64
    requires branch { IsWholeBranch V.WORDS branch.now }
    requires place { place < length branch.now.children.items }
    requires from { place ≡ set.rank branch.now.bytes from }
    ensures { IsStart (256 ^ branch.now.width)
        (number_of branch.now.skip * 256) branch.now.bytes place result }
{
    start_at(branch, byte_from(branch, place, from))
}

/// The byte of the first child from a byte on, whose place is known. Where all 256 children stand, that place is the
/// byte.
pub fn byte_from<V: Words + Drop>(branch: &BranchOf<V>, place: usize, from: u64) -> u8
    requires branch { IsWholeBranch V.WORDS branch.now }
    requires place { place < length branch.now.children.items }
    requires from { place ≡ set.rank branch.now.bytes from }
    ensures { slice_get branch.now.bytes place ≡ Some result }
{
    if branch.children.len() == 256 {
        return branch.byte_at(place);
    }
    match branch.bytes.next_from(from as u8) {
        Some(byte) => byte,
        None => unreachable!(),
    }
}

/// Where the keys of the last child below a byte begin, whose place is known: its own byte is the one before in the
/// set.
pub(crate) fn start_below<V: Words + Drop>(branch: &BranchOf<V>, place: usize, below: u64) -> u64
    requires branch { IsWholeBranch V.WORDS branch.now }
    requires place { place < length branch.now.children.items }
    requires below { place + 1 ≡ set.rank branch.now.bytes below }
    requires small { below ≤ 256 }
    ensures { IsStart (256 ^ branch.now.width)
        (number_of branch.now.skip * 256) branch.now.bytes place result }
{
    start_at(branch, byte_below(branch, place, below))
}

// The byte of the last child below a byte, whose place is known. Where all 256 children stand, that place is the byte.
fn byte_below<V: Words + Drop>(branch: &BranchOf<V>, place: usize, below: u64) -> u8
    requires branch { IsWholeBranch V.WORDS branch.now }
    requires place { place < length branch.now.children.items }
    requires below { place + 1 ≡ set.rank branch.now.bytes below }
    requires small { below ≤ 256 }
    ensures { slice_get branch.now.bytes place ≡ Some result }
{
    if branch.children.len() == 256 {
        return branch.byte_at(place);
    }
    let last = below - 1;
    match branch.bytes.prev_from(last as u8) {
        Some(byte) => byte,
        None => unreachable!(),
    }
}

/// Where the keys of the child of a byte begin.
pub fn start_at<V: Words + Drop>(branch: &BranchOf<V>, byte: u8) -> u64
    requires branch { IsWholeBranch V.WORDS branch.now }
    requires byte { (place : ℕ) × (place < length branch.now.children.items)
        × (slice_get branch.now.bytes place ≡ Some byte) }
    ensures { result ≡ (number_of branch.now.skip * 256 + byte) * 256 ^ branch.now.width }
{
    moved_up(
        branch.skip.number() * 256 + u64::from(byte),
        usize::from(branch.width),
    )
}

/// The child that has the n-th of the keys below, counted from 0, and which of its own keys it is: at either end it is
/// known without a count.
// Inside a way down to first keys nothing is left of it.
#[inline(always)]
pub(crate) fn holding<V: Words + Drop>(branch: &BranchOf<V>, n: u64) -> (usize, u64)
    requires branch { IsWholeBranch V.WORDS branch.now }
    requires sums { AreSums branch.now.sums branch.now.children.items }
    requires within { n < branch.now.population }
    ensures { (kid : Tree) × HoldsNth branch.now.children.items n result.0 result.1 kid }
{
    if n == 0 {
        return (0, 0);
    }
    if n == branch.population - 1 {
        let last = branch.children.len() - 1;
        return (last, branch.children[last].pop() - 1);
    }
    branch.holding(n)
}
