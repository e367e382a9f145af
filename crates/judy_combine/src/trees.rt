//! What is kept of two trees.

ghost use Rattle.std.specs.Prelude.{◌≡◌, ◌<◌, ◌≤◌, IfOk, IfSome};
ghost use Rattle.judy_model.specs.Forms.{loose_in};
ghost use Rattle.judy_node.specs.Trees.{IsTight, forms_in};
ghost use Rattle.judy_node.specs.Branches.{IsWholeBranch};
ghost use Rattle.judy_node.specs.Populations.{AreSums};
ghost use Rattle.judy_combine.specs.Kept.{pairs_of, width_of, AreKept, AreLevel, IsBelowTight, IsCountable};

use crate::branches::{branch_kept, go_by_bytes};
use crate::keep::Keep;
use judy_bits::Meter;
use judy_change::settled;
use judy_leaf::{LEAF_ROOM, Words};
use judy_node::{BranchOf, ChildOf, KindOf, NodeOf, RootOf, ViewOf};
use judy_unmetered::UNMETERED;
use std::alloc::{AllocError, Global};

/// The tree of what is kept of two trees, each node as small as its keys allow; none where their roots aren't branches
/// whose keys begin with the same bytes, or the children of both hold few keys. The error is want of memory; nothing is
/// kept then.
///
/// Nodes that one alone has are copied. It counts no visit, which takes leave.
pub fn combined_tree<V: Words + Drop>(
    alloc: Global,
    keep: Keep,
    one: &NodeOf<V>,
    other: &NodeOf<V>,
) -> Result<Option<NodeOf<V>>, AllocError>
    requires one { V.WORDS ≤ 1 }
    requires tight { IsTight one.now }
    requires other_tight { IsTight other.now }
    requires few { IsCountable V.WORDS 8 keep one.now.pairs other.now.pairs }
    ensures { IfOk result (λ made. IfSome made
        (λ tree. IsTight tree × AreKept keep one.now.pairs other.now.pairs tree.pairs)) }
{
    let ours = one.enter(&mut Meter::new(UNMETERED));
    let theirs = other.enter(&mut Meter::new(UNMETERED));
    if let ViewOf::Branch(left) = ours {
        if let ViewOf::Branch(right) = theirs {
            if go_by_bytes(left, right) {
                let tree = tree_kept(alloc, keep, left, right)?;
                return Ok(Some(tree));
            }
        }
    }
    Ok(None)
}

// The same of two such branches.
fn tree_kept<V: Words + Drop>(
    alloc: Global,
    keep: Keep,
    one: &BranchOf<V>,
    other: &BranchOf<V>,
) -> Result<NodeOf<V>, AllocError>
    requires one { V.WORDS ≤ 1 }
    requires below { IsBelowTight V.WORDS one.now }
    requires other_below { IsBelowTight V.WORDS other.now }
    requires level { AreLevel one.now other.now }
    requires wide { width_of one.now ≡ 8 }
    requires few { IsCountable V.WORDS (width_of one.now) keep (pairs_of one.now)
        (pairs_of other.now) }
    ensures { IfOk result
        (λ tree. IsTight tree × AreKept keep (pairs_of one.now) (pairs_of other.now) tree.pairs) }
{
    let Some(branch) = branch_kept(alloc, keep, one, other)? else {
        return Ok(NodeOf::empty());
    };
    tree_of(alloc, branch)
}

// The tree of a branch of eight bytes, each node as small as its keys allow. The error is want of memory.
fn tree_of<V: Words + Drop>(alloc: Global, branch: BranchOf<V>) -> Result<NodeOf<V>, AllocError>
    requires one { V.WORDS ≤ 1 }
    requires branch { IsWholeBranch V.WORDS branch }
    requires sums { AreSums branch.sums branch.children.items }
    requires wide { width_of branch ≡ 8 }
    requires tight { loose_in (forms_in branch.children.items) ≡ 0 }
    ensures { IfOk result (λ tree. IsTight tree × (tree.pairs ≡ pairs_of branch)) }
{
    if branch.population > LEAF_ROOM as u64 {
        return Ok(NodeOf::close(RootOf::Many(settled(alloc, 8, branch)?)));
    }
    let mut pairs = [(0, 0); LEAF_ROOM];
    let count = branch.population as usize;
    let child = ChildOf::close(KindOf::Branch(Box::new(alloc, branch)?));
    child.fill(UNMETERED, 8, 0, &mut pairs[..count]);
    let tree = NodeOf::from_sorted(alloc, &pairs[..count])?;
    Ok(tree)
}
