//! The way of a word down a tree: which of the nodes there hold how many keys.

ghost use Rattle.std.specs.Prelude.{◌↔◌, ◌^◌, ◌≤◌, ℕ, List};
ghost use Rattle.judy_model.specs.Shapes.{form_of, AllBelow};
ghost use Rattle.judy_model.specs.Ways.{HoldsOnWay, AreAlike, Ascends};

/// In a tree by the rule a node on the way of a word holds exactly 33 keys just where exactly 33 keys are the same as
/// the word but for some number of lowest bytes.
pub fn a_node_of_33_keys_is_33_keys_alike()
    ensures { (words width word : ℕ) (keys : List ℕ) → 1 ≤ width → AllBelow (256 ^ width) keys
        → Ascends 0 keys
        → AreAlike 33 width word keys ↔ HoldsOnWay 33 word width (form_of words width keys) }
{}
