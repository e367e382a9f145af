//! A node made as small as its keys allow.

ghost use Rattle.std.specs.Prelude.{◌≡◌, ℕ, ◌+◌, ◌^◌, ◌<◌, ◌≤◌, length, IfOk};
ghost use Rattle.judy_node.specs.Trees.{IsMap, IsTight, IsChild};
ghost use Rattle.judy_node.specs.Branches.{IsWholeBranch};
ghost use Rattle.judy_node.specs.Populations.{AreSums};
ghost use Rattle.judy_node.specs.Kinds.{tree_of, IsLevel, IsDeep, behind};
ghost use Rattle.judy_change.specs.Removals.{IsTightOf, IsSettled, IsParent, IsNeeded, pairs_below, loose_below, loose_under, width_of};

use judy_leaf::{LEAF_ROOM, Spare, Words};
use judy_node::{
    BranchOf, ChildOf, Head, KindOf, immediate_of_sorted, kind_of_sorted, most_in_immediate,
};
use judy_unmetered::UNMETERED;
use std::alloc::{AllocError, Global};
use std::mem;

// The immediate or the leaf of at most 32 pairs. The error is want of memory.
fn small_node<V: Words + Drop>(
    alloc: Global,
    width: u8,
    pairs: &[(u64, u64)],
) -> Result<ChildOf<V>, AllocError>
    requires one { V.WORDS ≤ 1 }
    requires width { (1 ≤ width) × (width ≤ 8) }
    requires some { 0 < length pairs.now }
    requires few { length pairs.now ≤ 32 }
    requires two { width ≡ 8 → 2 ≤ length pairs.now }
    requires map { IsMap V.WORDS 0 (256 ^ width) pairs.now }
    ensures { IfOk result (λ child. IsTightOf V.WORDS width pairs.now child) }
{
    if pairs.len() <= most_in_immediate::<V>(width) {
        return Ok(ChildOf::close(immediate_of_sorted(width, pairs)));
    }
    match kind_of_sorted(alloc, width, pairs, Spare::Ample) {
        Ok(kind) => Ok(ChildOf::close(kind)),
        Err(refused) => Err(refused),
    }
}

// The same of the pairs of a node, which are gathered on the stack.
fn lessened<V: Words + Drop>(
    alloc: Global,
    width: u8,
    child: &ChildOf<V>,
) -> Result<ChildOf<V>, AllocError>
    requires one { V.WORDS ≤ 1 }
    requires child { IsChild V.WORDS width child.now }
    requires few { length child.now.pairs ≤ 32 }
    requires two { width ≡ 8 → 2 ≤ length child.now.pairs }
    ensures { IfOk result (λ small. IsTightOf V.WORDS width child.now.pairs small) }
{
    let mut pairs = [(0, 0); LEAF_ROOM];
    let count = child.pop() as usize;
    child.fill(UNMETERED, width, 0, &mut pairs[..count]);
    small_node(alloc, width, &pairs[..count])
}

/// Makes an immediate or a leaf of a node of at most 32 keys of `width` bytes; at width 8 there are two at least. Where
/// there is no memory for that, the node stays, and the answer is `false`.
pub(crate) fn lessen<V: Words + Drop>(
    alloc: Global,
    width: u8,
    child: ChildOf<V>,
) -> (ChildOf<V>, bool)
    requires one { V.WORDS ≤ 1 }
    requires child { IsChild V.WORDS width child }
    requires few { length child.pairs ≤ 32 }
    requires two { width ≡ 8 → 2 ≤ length child.pairs }
    ensures { (loose : ℕ) → IsSettled V.WORDS width child.pairs loose result.0 result.1 }
{
    match lessened(alloc, width, &child) {
        Ok(small) => (small, true),
        Err(_) => (child, false),
    }
}

// The node behind more bytes that it skips. It is a bitmap leaf or a branch.
fn behind_bytes<V: Words + Drop>(kind: KindOf<V>, bytes: &[u8]) -> KindOf<V>
    requires level { IsLevel V.WORDS kind }
    requires deep { IsDeep kind }
    requires width { length bytes.now + (tree_of V.WORDS kind).width ≤ 8 }
    ensures level { IsLevel V.WORDS result }
    ensures deep { IsDeep result }
    ensures tree { tree_of V.WORDS result ≡ behind bytes.now (tree_of V.WORDS kind) }
{
    if bytes.is_empty() {
        return kind;
    }
    behind_bytes(kind, &bytes[1..]).behind(bytes[0])
}

// The only child of a branch of more than 32 keys in its place: it skips the branch's bytes, then its own byte there,
// and then what it skipped before.
fn merged<V: Words + Drop>(branch: &mut BranchOf<V>) -> ChildOf<V>
    requires branch { IsWholeBranch V.WORDS branch.old }
    requires many { 32 < branch.old.population }
    requires one { length branch.old.bytes ≡ 1 }
    ensures child { IsChild V.WORDS (width_of branch.old) result }
    ensures same { result.pairs ≡ pairs_below branch.old }
    ensures tight { loose_below branch.old ≡ 0 → IsTight result }
{
    let Some(byte) = branch.bytes.nth(0) else {
        unreachable!()
    };
    let Some(child) = branch.children.pop() else {
        unreachable!()
    };
    ChildOf::close(behind_bytes(child.open().behind(byte), branch.skip.bytes()))
}

/// Makes the smallest node of a branch whose keys have `width` bytes, two of them at least at width 8: an immediate or
/// a leaf of at most 32 keys; the child of a branch with one child; else the branch, which isn't moved. Where there is
/// no memory for a leaf, the branch stays, and the answer is `false`.
pub(crate) fn settle<V: Words + Drop>(alloc: Global, width: u8, kind: &mut KindOf<V>) -> bool
    requires one { V.WORDS ≤ 1 }
    requires parent { IsParent kind.old }
    requires level { IsLevel V.WORDS kind.old }
    requires child { IsChild V.WORDS width (tree_of V.WORDS kind.old) }
    requires two { width ≡ 8 → 2 ≤ length (tree_of V.WORDS kind.old).pairs }
    ensures level { IsLevel V.WORDS kind.new }
    ensures settled { IsSettled V.WORDS width (tree_of V.WORDS kind.old).pairs
        (loose_under kind.old) (tree_of V.WORDS kind.new) result }
{
    if is_needed(kind) {
        return true;
    }
    match mem::replace(kind, KindOf::Imm(Head::new(0), 0)) {
        KindOf::Branch(branch) => {
            let (child, settled) = smaller(alloc, width, branch);
            *kind = child.open();
            settled
        }
        _ => unreachable!(),
    }
}

// Whether no smaller node would do for a branch.
fn is_needed<V: Words + Drop>(kind: &KindOf<V>) -> bool
    requires { IsParent kind.now }
    ensures { IsNeeded kind.now result }
{
    match kind {
        KindOf::Branch(branch) => branch.population > LEAF_ROOM as u64
            && branch.children.len() != 1,
        _ => unreachable!(),
    }
}

// The smallest node of a branch of at most 32 keys or with one child.
fn smaller<V: Words + Drop>(
    alloc: Global,
    width: u8,
    mut branch: Box<BranchOf<V>>,
) -> (ChildOf<V>, bool)
    requires one { V.WORDS ≤ 1 }
    requires branch { IsWholeBranch V.WORDS branch.value }
    requires sums { AreSums branch.value.sums branch.value.children.items }
    requires width { width_of branch.value ≡ width }
    requires two { width ≡ 8 → 2 ≤ branch.value.population }
    requires loose { 32 < branch.value.population → length branch.value.children.items ≡ 1 }
    ensures { IsSettled V.WORDS width (pairs_below branch.value)
        (loose_below branch.value) result.0 result.1 }
{
    if branch.population <= LEAF_ROOM as u64 {
        return lessen(alloc, width, ChildOf::close(KindOf::Branch(branch)));
    }
    (merged(&mut branch), true)
}

/// The smallest node of a branch below which no node is loose and whose keys have `width` bytes, two of them at least
/// at width 8. The error is want of memory; nothing is kept then.
pub fn settled<V: Words + Drop>(
    alloc: Global,
    width: u8,
    branch: BranchOf<V>,
) -> Result<ChildOf<V>, AllocError>
    requires one { V.WORDS ≤ 1 }
    requires branch { IsWholeBranch V.WORDS branch }
    requires sums { AreSums branch.sums branch.children.items }
    requires width { width_of branch ≡ width }
    requires two { width ≡ 8 → 2 ≤ branch.population }
    requires tight { loose_below branch ≡ 0 }
    ensures { IfOk result (λ child. IsTightOf V.WORDS width (pairs_below branch) child) }
{
    let mut kind = KindOf::Branch(Box::new(alloc, branch)?);
    if settle(alloc, width, &mut kind) {
        Ok(ChildOf::close(kind))
    } else {
        Err(AllocError)
    }
}
