//! How many keys an immediate holds: at each width of keys so many, and with one more there is a leaf.

ghost use Rattle.std.specs.Prelude.{◌≡◌};
ghost use Rattle.judy_model.specs.Examples.{first_keys, one_immediate, one_leaf};

/// Without values, as many keys as eight bytes hold.
pub fn immediates_without_values()
    ensures one_byte { (first_keys 0 1 8 ≡ one_immediate) × (first_keys 0 1 9 ≡ one_leaf) }
    ensures two_bytes { (first_keys 0 2 4 ≡ one_immediate) × (first_keys 0 2 5 ≡ one_leaf) }
    ensures three_bytes { (first_keys 0 3 2 ≡ one_immediate) × (first_keys 0 3 3 ≡ one_leaf) }
    ensures four_bytes { (first_keys 0 4 2 ≡ one_immediate) × (first_keys 0 4 3 ≡ one_leaf) }
    ensures five_bytes { (first_keys 0 5 1 ≡ one_immediate) × (first_keys 0 5 2 ≡ one_leaf) }
    ensures six_bytes { (first_keys 0 6 1 ≡ one_immediate) × (first_keys 0 6 2 ≡ one_leaf) }
    ensures seven_bytes { (first_keys 0 7 1 ≡ one_immediate) × (first_keys 0 7 2 ≡ one_leaf) }
    ensures eight_bytes { (first_keys 0 8 1 ≡ one_immediate) × (first_keys 0 8 2 ≡ one_leaf) }
{}

/// With values, one key.
pub fn immediates_with_values()
    ensures one_byte { (first_keys 1 1 1 ≡ one_immediate) × (first_keys 1 1 2 ≡ one_leaf) }
    ensures two_bytes { (first_keys 1 2 1 ≡ one_immediate) × (first_keys 1 2 2 ≡ one_leaf) }
    ensures three_bytes { (first_keys 1 3 1 ≡ one_immediate) × (first_keys 1 3 2 ≡ one_leaf) }
    ensures four_bytes { (first_keys 1 4 1 ≡ one_immediate) × (first_keys 1 4 2 ≡ one_leaf) }
    ensures five_bytes { (first_keys 1 5 1 ≡ one_immediate) × (first_keys 1 5 2 ≡ one_leaf) }
    ensures six_bytes { (first_keys 1 6 1 ≡ one_immediate) × (first_keys 1 6 2 ≡ one_leaf) }
    ensures seven_bytes { (first_keys 1 7 1 ≡ one_immediate) × (first_keys 1 7 2 ≡ one_leaf) }
    ensures eight_bytes { (first_keys 1 8 1 ≡ one_immediate) × (first_keys 1 8 2 ≡ one_leaf) }
{}
