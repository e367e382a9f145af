//! How many keys the nodes on the way of a word hold: where 33 keys are 0 to 32, and where 256 is one more.

ghost use Rattle.std.specs.Prelude.{[], ◌∷◌, ◌++◌};
ghost use Rattle.std.specs.List.{range_with_len};
ghost use Rattle.judy_model.specs.Shapes.{form_of};
ghost use Rattle.judy_model.specs.Ways.{HoldsOnWay};

/// One bitmap leaf holds all of the first keys, and every word is on the way to it.
pub fn one_node_holds_all_keys()
    ensures of_33 { HoldsOnWay 33 7 8 (form_of 0 8 (range_with_len 0 33)) }
    ensures elsewhere { HoldsOnWay 33 1000 8 (form_of 0 8 (range_with_len 0 33)) }
    ensures of_34 { HoldsOnWay 33 7 8 (form_of 0 8 (range_with_len 0 34)) → ⊥ }
{}

/// With 256 there is a branch of 34 keys, and the bitmap leaf of 33 below it is on the way of the words from 0 to 255
/// alone.
pub fn a_node_below_holds_fewer()
    ensures branch { HoldsOnWay 34 256 8 (form_of 0 8 (range_with_len 0 33 ++ 256 ∷ [])) }
    ensures below { HoldsOnWay 33 255 8 (form_of 0 8 (range_with_len 0 33 ++ 256 ∷ [])) }
    ensures beside { HoldsOnWay 33 256 8 (form_of 0 8 (range_with_len 0 33 ++ 256 ∷ [])) → ⊥ }
{}
