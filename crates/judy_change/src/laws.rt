//! A law of removals. It is the contract of a function that only looks at what every tree keeps, so that the check
//! proves it; no program calls it.

ghost use Rattle.std.specs.Prelude.{◌↔◌, ℕ};
ghost use Rattle.judy_model.specs.Ways.{HoldsOnWay};
ghost use Rattle.judy_node.specs.Trees.{IsTight};
ghost use Rattle.judy_change.specs.Removals.{Has33};

use judy_leaf::Words;
use judy_node::NodeOf;

/// That exactly 33 keys are the same as a key but for some number of lowest bytes, as the clauses on a removal say it,
/// is in a tight tree that a node on the key's way holds exactly 33 keys.
pub fn a_node_of_33_keys_is_what_the_clause_says<V: Words + Drop>(tree: &NodeOf<V>)
    requires { IsTight tree.now }
    ensures { (key : ℕ) → Has33 8 tree.now.pairs key ↔ HoldsOnWay 33 key 8 tree.now.form }
{
    tree.law();
}
