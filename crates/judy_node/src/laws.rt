//! Laws of trees. Each is the contract of a function with an empty body, or with one that only looks at what every
//! tree keeps, so that the check proves it; no program calls these.

ghost use Rattle.std.specs.Prelude.{◌≡◌, ◌+◌, ℕ, List, length};
ghost use Rattle.judy_model.specs.Shapes.{form_of};
ghost use Rattle.judy_leaf.specs.KeyLists.{keys_of};
ghost use Rattle.judy_node.specs.Trees.{Tree, IsNode, IsTight, IsChild, IsBranch, branch_tree};

use crate::node::NodeOf;
use judy_leaf::Words;

/// What every branch keeps makes it what a child of its width keeps: the form of the rule where it is tight.
pub fn a_branch_is_a_child()
    ensures { (words width : ℕ) (skipped bytes : List ℕ) (kids : List Tree) (count : ℕ)
        → IsBranch words width skipped bytes kids count
        → IsChild words (length skipped + 1 + width) (branch_tree width skipped bytes kids count) }
{}

/// Two tight trees with the same keys are alike: kinds, skipped bytes, bytes of children and keys of nodes are equal.
pub fn tight_trees_are_alike<V: Words + Drop>(left: &NodeOf<V>, right: &NodeOf<V>)
    requires left_tight { IsTight left.now }
    requires right_tight { IsTight right.now }
    requires same_keys { keys_of left.now.pairs ≡ keys_of right.now.pairs }
    ensures { left.now.form ≡ right.now.form }
{
    left.law();
    right.law();
}

/// A tree is tight exactly where its form is that of the rule.
pub fn tight_is_the_rule<V: Words + Drop>(tree: &NodeOf<V>)
    ensures shaped { IsTight tree.now → tree.now.form ≡ form_of V.WORDS 8 (keys_of tree.now.pairs) }
    ensures tight { tree.now.form ≡ form_of V.WORDS 8 (keys_of tree.now.pairs) → IsTight tree.now }
{
    tree.law();
}
