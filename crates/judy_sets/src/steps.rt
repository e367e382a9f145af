//! Two arrays, gone through side by side a page at a time.

ghost use Rattle.std.specs.Prelude.{◌≡◌, ◌≤◌, length, MatchOption};
ghost use Rattle.judy_combine.specs.Merges.{Ascends};
ghost use Rattle.judy_sets.specs.Pages.{rest, IsEnd, IsPart};

use crate::pages::Pages;
use judy_combine::{Keep, merge};
use judy_leaf::Words;

// How many pairs are written at once at most: two pages of them.
pub const ROOM: usize = 128;

// Passes pairs of two arrays, and writes those that are kept to the front of a slice: as many as it answers. `None`
// where one of the arrays is at its end.
pub fn next_pairs<V: Words + Drop>(
    keep: Keep,
    left: &mut Pages<'_, V>,
    right: &mut Pages<'_, V>,
    out: &mut [(u64, u64)],
) -> Option<usize>
    requires room { 128 ≤ length out.old }
    requires left_up { Ascends 0 (rest left.old) }
    requires right_up { Ascends 0 (rest right.old) }
    ensures { MatchOption result (IsEnd left.old right.old left.new right.new)
        (λ count. IsPart keep left.old right.old left.new right.new out.new count) }
{
    let ours = left.ahead();
    let theirs = right.ahead();
    if ours.is_empty() || theirs.is_empty() {
        return None;
    }
    let passed = merge(keep, ours, theirs, out);
    left.pass(passed.left);
    right.pass(passed.right);
    Some(passed.count)
}
