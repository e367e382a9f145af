//! A copy of a tree, node by node.

ghost use Rattle.std.specs.Prelude.{◌≡◌, ℕ, IfOk};
ghost use Rattle.judy_node.specs.Branches.{IsWholeBranch, tree_below};
ghost use Rattle.judy_node.specs.Populations.{AreSums};

use crate::child::{BranchOf, ChildOf, KindOf};
use crate::head::Head;
use crate::sums::Sums;
use judy_block::Block;
use judy_leaf::Words;
use judy_unmetered::Unmetered;
use std::alloc::{AllocError, Global};
use std::marker::PhantomData;

impl<V: Words + Drop> ChildOf<V> {
    /// A copy of the node and of those below it. No visit is counted, which takes leave. The error is want of memory;
    /// nothing is kept then.
    #[cycle(clone)]
    pub fn try_clone(&self, leave: Unmetered, alloc: Global) -> Result<ChildOf<V>, AllocError>
        ensures { IfOk result (λ copy. copy ≡ self.now) }
    {
        let kind = match self.kind() {
            KindOf::Imm(head, word) => KindOf::Imm(Head::new(head.number()), *word),
            KindOf::Leaf(count, block) => KindOf::Leaf(*count, clone_block(block, alloc)?),
            KindOf::Bit(head, block) => {
                KindOf::Bit(Head::new(head.number()), clone_block(block, alloc)?)
            }
            KindOf::Branch(branch) => KindOf::Branch(clone_branch(branch, leave, alloc)?),
        };
        Ok(ChildOf::close(kind))
    }
}

// The same for a branch. The copy has sums wherever there is memory for them, though the branch may have none.
#[cycle(clone)]
fn clone_branch<V: Words + Drop>(
    branch: &BranchOf<V>,
    leave: Unmetered,
    alloc: Global,
) -> Result<Box<BranchOf<V>>, AllocError>
    requires { IsWholeBranch V.WORDS branch.now }
    ensures level { IfOk result (λ copy. IsWholeBranch V.WORDS copy.value) }
    ensures sums { IfOk result (λ copy. AreSums copy.value.sums copy.value.children.items) }
    ensures same { IfOk result (λ copy. tree_below copy.value ≡ tree_below branch.now) }
{
    let mut children = Vec::with_capacity(alloc, branch.children.len())?;
    for child in &branch.children {
        children.push(child.try_clone(leave, alloc)?)?;
    }
    let mut copy = BranchOf {
        children,
        skip: branch.skip,
        width: branch.width,
        bytes: branch.bytes.clone()?,
        population: branch.population,
        sums: Sums::none(),
        words: PhantomData,
    };
    copy.sums = copy.sums_of_children(alloc);
    Ok(Box::new(alloc, copy)?)
}

// A block with the same words and tag, and no more room than these take: an even number of words, since memory is given
// out by sixteen bytes. The error is want of memory; nothing is kept then.
fn clone_block(block: &Block, alloc: Global) -> Result<Block, AllocError>
    ensures { IfOk result
        (λ copy. (room : ℕ) × (copy ≡ record block.now { capacity = room })) }
{
    let most = block.capacity();
    let room = ((block.len().max(1) + 1) / 2 * 2).min(most);
    Block::of_words(alloc, room, block.tag(), block.words())
}
