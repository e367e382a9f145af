//! The order of byte strings.

ghost use Rattle.std.specs.Prelude.{◌≡◌, ◌⊎◌, ◌↔◌, ℕ, List};
ghost use Rattle.std.specs.declared.cmp.Ordering.TheVariants.{Less, Equal, Greater};
ghost use Rattle.judy_model.specs.Keys.{IsStringKey, byte_order};
ghost use Rattle.judy_model.specs.StringOrder.{DiffersBelow, IsProperPrefix, ended_by_zero};

/// A byte string is before another exactly where it has the smaller byte at the first place where they
/// differ, or is a proper prefix of it. The order is total: two that neither is before the other are equal.
pub fn byte_strings_compare_at_their_first_difference()
    ensures before { (left right : List ℕ) → (byte_order left right ≡ Less)
        ↔ (DiffersBelow left right ⊎ IsProperPrefix left right) }
    ensures after { (left right : List ℕ) → (byte_order left right ≡ Greater)
        ↔ (byte_order right left ≡ Less) }
    ensures same { (left right : List ℕ) → (byte_order left right ≡ Equal) ↔ (left ≡ right) }
    ensures transitive { (left middle right : List ℕ) → byte_order left middle ≡ Less
        → byte_order middle right ≡ Less → byte_order left right ≡ Less }
{}

/// For the keys of a judysl array it is the order of the manual's strings, each ended by a zero byte: there
/// the first byte in which they differ decides alone.
pub fn string_keys_compare_as_the_manuals_strings()
    ensures { (left right : List ℕ) → IsStringKey left → IsStringKey right →
        (byte_order left right ≡ Less) ↔ DiffersBelow (ended_by_zero left) (ended_by_zero right) }
{}
