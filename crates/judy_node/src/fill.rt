//! The pairs of a tree, written into a slice.

ghost use Rattle.std.specs.Prelude.{◌≡◌, ◌+◌, ◌^◌, ◌≤◌, length};
ghost use Rattle.judy_leaf.specs.KeyLists.{shift};
ghost use Rattle.judy_node.specs.Trees.{IsChild, branch_pairs};
ghost use Rattle.judy_node.specs.Branches.{IsWholeBranch};

use crate::child::{BranchOf, ChildOf, KindOf, imm_of};
use judy_bits::moved_up;
use judy_leaf::{BitRef, LeafRef, Words};
use judy_unmetered::Unmetered;

impl<V: Words + Drop> ChildOf<V> {
    /// Writes the pairs, by ascending key, into a slice that has just the places for them. The node's keys have `width`
    /// bytes; each is so much higher there. No visit is counted, which takes leave.
    #[cycle(fill)]
    pub fn fill(&self, leave: Unmetered, width: u8, base: u64, out: &mut [(u64, u64)])
        requires child { IsChild V.WORDS width self.now }
        requires room { length out.old ≡ length self.now.pairs }
        requires fits { base + 256 ^ width ≤ 2 ^ 64 }
        ensures { out.new ≡ shift base self.now.pairs }
    {
        match self.kind() {
            KindOf::Imm(head, word) => imm_of::<V>(width, head.number(), *word).fill(base, out),
            KindOf::Leaf(count, block) => LeafRef::<V>::new(*count, width, block).fill(base, out),
            KindOf::Bit(head, block) => BitRef::<V>::new(block).fill(
                base + head.number() * 256,
                out,
            ),
            KindOf::Branch(branch) => fill_branch(branch, leave, base, out),
        }
    }
}

// The same for a branch.
#[cycle(fill)]
fn fill_branch<V: Words + Drop>(
    branch: &BranchOf<V>,
    leave: Unmetered,
    base: u64,
    out: &mut [(u64, u64)],
)
    requires level { IsWholeBranch V.WORDS branch.now }
    requires room { length out.old ≡ branch.now.population }
    requires fits { base + 256 ^ (length branch.now.skip + 1 + branch.now.width) ≤ 2 ^ 64 }
    ensures { out.new
        ≡ shift base (branch_pairs branch.now.width branch.now.skip branch.now.bytes
        branch.now.children.items) }
{
    let front = branch.skip.number() * 256;
    let width = branch.width;
    let total = out.len();
    let mut at = 0;
    let mut from = 0;
    for (place, child) in branch.children.iter().enumerate() {
        let Some(byte) = branch.bytes.next_from(from) else {
            unreachable!()
        };
        from = byte.saturating_add(1);
        let start = moved_up(front + u64::from(byte), usize::from(width));
        let end = at + child.pop() as usize;
        prove!(end <= total);
        child.fill(leave, width, base + start, &mut out[at..end]);
        at = end;
    }
}
