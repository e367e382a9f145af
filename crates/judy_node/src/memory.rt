//! How many bytes of memory a tree has asked for.

ghost use Rattle.std.specs.Prelude.{◌≡◌, ◌≤◌, length};

use crate::child::{BranchOf, ChildOf, KindOf};
use crate::node::{NodeOf, RootOf};
use crate::sums::Sums;
use judy_leaf::Words;
use judy_unmetered::Unmetered;
use std::mem::size_of;

impl<V: Words + Drop> ChildOf<V> {
    // How many bytes the node and those below it have asked for, beside the place where it stands itself. No visit is
    // counted, which takes leave.
    #[cycle(bytes)]
    pub(crate) fn bytes(&self, leave: Unmetered) -> u64 {
        match self.kind() {
            KindOf::Imm(_, _) => 0,
            KindOf::Leaf(_, block) | KindOf::Bit(_, block) => block.bytes(),
            KindOf::Branch(branch) => bytes_of_branch(branch, leave),
        }
    }
}

// The same of a branch, which stands in a box of its own.
#[cycle(bytes)]
fn bytes_of_branch<V: Words + Drop>(branch: &BranchOf<V>, leave: Unmetered) -> u64 {
    let places = (branch.children.capacity() as u64).wrapping_mul(size_of::<ChildOf<V>>() as u64);
    let mut total = (size_of::<BranchOf<V>>() as u64)
        .wrapping_add(places)
        .wrapping_add(bytes_of_sums(&branch.sums));
    for child in &branch.children {
        total = total.wrapping_add(child.bytes(leave));
    }
    total
}

// How many bytes the sums of a branch have asked for.
fn bytes_of_sums(sums: &Sums) -> u64 {
    match &sums.groups {
        Some(_) => size_of::<[u64; 16]>() as u64,
        None => 0,
    }
}

impl<V: Words + Drop> NodeOf<V> {
    /// How many bytes the tree has asked for, beside the place where its root stands: those of its blocks. It goes over
    /// all nodes, and counts no visit, which takes leave.
    ///
    /// A tree of at most one key has asked for none. Else the number is tested and not proved, since a tree doesn't
    /// tell its callers how much room its blocks have.
    pub fn bytes(&self, leave: Unmetered) -> u64
        ensures { length self.now.pairs ≤ 1 → result ≡ 0 }
    {
        match &self.place.kind {
            RootOf::Empty | RootOf::One(_, _) => 0,
            RootOf::Many(child) => child.bytes(leave),
        }
    }
}
