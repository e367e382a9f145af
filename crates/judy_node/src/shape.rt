//! How many nodes of each kind a tree has.

ghost use Rattle.std.specs.Prelude.{◌≡◌, ◌+◌, ◌^◌, ◌<◌, [], length};
ghost use Rattle.judy_model.specs.Forms.{shape_in, with_branch};
ghost use Rattle.judy_node.specs.Trees.{forms_in};
ghost use Rattle.judy_node.specs.ShapeSums.{shape_as, plus, nodes_in};

use crate::child::{BranchOf, ChildOf, KindOf};
use judy_bits::{ByteSet, SetForm};
use judy_leaf::Words;

/// The number of nodes of each kind.
#[derive(Clone, Copy, PartialEq, Eq, Debug)]
pub struct Shape {
    /// Immediates, the root's one pair among them.
    pub immediates: u128,
    /// Leaves.
    pub leaves: u128,
    /// Bitmap leaves.
    pub bitmap_leaves: u128,
    /// Branches with up to 7 children.
    pub linear: u128,
    /// Branches with 8 to 127 children.
    pub bitmap: u128,
    /// Branches with 128 to 256 children.
    pub full: u128,
}

impl Shape {
    /// No nodes.
    pub fn nothing() -> Shape
        ensures { shape_as result ≡ shape_in [] }
    {
        Shape {
            immediates: 0,
            leaves: 0,
            bitmap_leaves: 0,
            linear: 0,
            bitmap: 0,
            full: 0,
        }
    }

    // Counts a branch by the set of its bytes.
    fn add_branch(&mut self, bytes: &ByteSet)
        requires { nodes_in (shape_as self.old) + 1 < 2 ^ 128 }
        ensures { shape_as self.new ≡ with_branch (length bytes.now) (shape_as self.old) }
    {
        match bytes.form() {
            SetForm::Linear => self.linear += 1,
            SetForm::Bitmap => self.bitmap += 1,
            SetForm::Full => self.full += 1,
        }
    }
}

impl<V: Words + Drop> ChildOf<V> {
    // Counts the node and those below it, beside what is counted already.
    #[cycle(shape)]
    pub(crate) fn count_into(&self, shape: &mut Shape)
        requires { nodes_in (shape_as shape.old) + length self.now.form < 2 ^ 128 }
        ensures { shape_as shape.new ≡ plus (shape_as shape.old) (shape_in self.now.form) }
    {
        match self.kind() {
            KindOf::Imm(_, _) => shape.immediates += 1,
            KindOf::Leaf(_, _) => shape.leaves += 1,
            KindOf::Bit(_, _) => shape.bitmap_leaves += 1,
            KindOf::Branch(branch) => count_branch(branch, shape),
        }
    }
}

// Counts a branch and the nodes below it.
#[cycle(shape)]
fn count_branch<V: Words + Drop>(branch: &BranchOf<V>, shape: &mut Shape)
    requires { nodes_in (shape_as shape.old) + (1 + length (forms_in branch.now.children.items))
        < 2 ^ 128 }
    ensures { shape_as shape.new
        ≡ plus (shape_as shape.old)
        (with_branch (length branch.now.bytes) (shape_in (forms_in branch.now.children.items))) }
{
    shape.add_branch(&branch.bytes);
    for child in &branch.children {
        child.count_into(shape);
    }
}
