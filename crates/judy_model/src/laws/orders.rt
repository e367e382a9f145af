//! The order in which a dump lists the keys of a judyhs array.

ghost use Rattle.std.specs.Prelude.{◌≡◌, ◌<◌, ℕ, List, length};
ghost use Rattle.std.specs.declared.cmp.Ordering.TheVariants.{Less};
ghost use Rattle.judy_model.specs.Keys.{byte_order};
ghost use Rattle.judy_model.specs.DumpText.{length_order};

/// The shorter key comes first, whatever its bytes are; of two that are equally long the one that comes first by its
/// bytes.
pub fn the_shorter_key_comes_first()
    ensures shorter { (left right : List ℕ) → length left < length right
        → length_order left right ≡ Less }
    ensures alike { (left right : List ℕ) → length left ≡ length right
        → length_order left right ≡ byte_order left right }
{}
