//! What is kept of two nodes, by their pairs.

ghost use Rattle.std.specs.Prelude.{◌≡◌, ◌+◌, ◌^◌, ◌<◌, ◌≤◌, length, take, IfOk};
ghost use Rattle.judy_node.specs.Trees.{IsChild, IsMap};
ghost use Rattle.judy_combine.specs.Kept.{AreKept, IsKept};

use crate::keep::Keep;
use crate::merges::merge_all;
use judy_leaf::{LEAF_ROOM, Words};
use judy_node::{ChildOf, child_of_sorted};
use judy_unmetered::UNMETERED;
use std::alloc::{AllocError, Global};

// Two leaves have so many keys at most.
const ROOM: usize = 64;

/// What is kept of two nodes whose keys have `width` bytes; none where that is nothing. Their pairs are written out
/// once: those of leaves and immediates on the stack. The error is want of memory; nothing is kept then.
pub fn small_kept<V: Words + Drop>(
    alloc: Global,
    keep: Keep,
    width: u8,
    one: &ChildOf<V>,
    other: &ChildOf<V>,
) -> Result<Option<ChildOf<V>>, AllocError>
    requires one { V.WORDS ≤ 1 }
    requires width { width ≤ 7 }
    requires child { IsChild V.WORDS width one.now }
    requires other_child { IsChild V.WORDS width other.now }
    ensures { IfOk result (IsKept V.WORDS width keep one.now.pairs other.now.pairs) }
{
    let room = LEAF_ROOM as u64;
    if one.pop() <= room && other.pop() <= room {
        return few_kept(alloc, keep, width, one, other);
    }
    let left = gathered(alloc, width, one)?;
    let right = gathered(alloc, width, other)?;
    let mut out = vec![in alloc; (0, 0); left.len() + right.len()]?;
    let made = pairs_kept(alloc, keep, width, &left, &right, &mut out)?;
    Ok(made)
}

// The pairs of a node in a vector of their own. The error is want of memory.
fn gathered<V: Words + Drop>(
    alloc: Global,
    width: u8,
    child: &ChildOf<V>,
) -> Result<Vec<(u64, u64)>, AllocError>
    requires { IsChild V.WORDS width child.now }
    ensures { IfOk result (λ pairs. pairs.items ≡ child.now.pairs) }
{
    let mut pairs = vec![in alloc; (0, 0); child.pop() as usize]?;
    child.fill(UNMETERED, width, 0, &mut pairs);
    Ok(pairs)
}

// What is kept of two nodes of at most 32 keys each.
fn few_kept<V: Words + Drop>(
    alloc: Global,
    keep: Keep,
    width: u8,
    one: &ChildOf<V>,
    other: &ChildOf<V>,
) -> Result<Option<ChildOf<V>>, AllocError>
    requires one { V.WORDS ≤ 1 }
    requires width { width ≤ 7 }
    requires child { IsChild V.WORDS width one.now }
    requires other_child { IsChild V.WORDS width other.now }
    requires few { length one.now.pairs ≤ 32 }
    requires other_few { length other.now.pairs ≤ 32 }
    ensures { IfOk result (IsKept V.WORDS width keep one.now.pairs other.now.pairs) }
{
    let ours = one.pop() as usize;
    let theirs = other.pop() as usize;
    let mut left = [(0, 0); LEAF_ROOM];
    let mut right = [(0, 0); LEAF_ROOM];
    one.fill(UNMETERED, width, 0, &mut left[..ours]);
    other.fill(UNMETERED, width, 0, &mut right[..theirs]);
    let mut out = [(0, 0); ROOM];
    pairs_kept(
        alloc,
        keep,
        width,
        &left[..ours],
        &right[..theirs],
        &mut out,
    )
}

// The same of their pairs. A slice has a place for each.
fn pairs_kept<V: Words + Drop>(
    alloc: Global,
    keep: Keep,
    width: u8,
    one: &[(u64, u64)],
    other: &[(u64, u64)],
    out: &mut [(u64, u64)],
) -> Result<Option<ChildOf<V>>, AllocError>
    requires one { V.WORDS ≤ 1 }
    requires width { (1 ≤ width) × (width ≤ 7) }
    requires map { IsMap V.WORDS 0 (256 ^ width) one.now }
    requires other_map { IsMap V.WORDS 0 (256 ^ width) other.now }
    requires room { length one.now + length other.now ≤ length out.old }
    ensures { IfOk result (IsKept V.WORDS width keep one.now other.now) }
{
    let count = merge_all::<V>(keep, width, one, other, out);
    if count == 0 {
        return Ok(None);
    }
    Ok(Some(child_of_sorted(alloc, width, &out[..count])?))
}
