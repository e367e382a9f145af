//! The shape of a set of keys: the rule's form has the keys, is tight, and skips what the keys share.

ghost use Rattle.std.specs.Prelude.{◌≡◌, ◌+◌, ◌*◌, ◌^◌, ◌<◌, ◌≤◌, ℕ, List, [], ◌∷◌, length};
ghost use Rattle.judy_model.specs.Keys.{IsByteString};
ghost use Rattle.judy_model.specs.WordBytes.{number_of};
ghost use Rattle.judy_model.specs.Forms.{bitmap_leaf, branch, raise, keys_in, loose_in};
ghost use Rattle.judy_model.specs.Shapes.{Bucket, form_of, bytes_of, forms_of, keys_of_buckets, AllBelow, AreBuckets};

/// The tree of a list of keys has exactly these keys.
pub fn a_form_has_its_keys()
    ensures { (words width : ℕ) (keys : List ℕ) → 1 ≤ width
        → keys_in width (form_of words width keys) ≡ keys }
{}

/// No node of it is loose.
pub fn the_rule_leaves_nothing_loose()
    ensures { (words width : ℕ) (keys : List ℕ) → loose_in (form_of words width keys) ≡ 0 }
{}

/// More than 32 keys that share some leading bytes: where they differ in their last byte alone, a bitmap leaf skips the
/// shared ones; where they differ before, a branch skips them, has a child for each byte that comes next, and the child
/// has the form of what is left of its keys.
pub fn shared_bytes_are_skipped()
    ensures last_byte { (words : ℕ) (shared keys : List ℕ) → IsByteString shared → 32 < length keys
        → AllBelow 256 keys
        → form_of words (length shared + 1) (raise (number_of shared * 256) keys)
        ≡ bitmap_leaf shared keys ∷ [] }
    ensures before { (words width total : ℕ) (shared : List ℕ) (buckets : List Bucket)
        (keys : List ℕ)
        → total ≡ length shared + 1 + width → 1 ≤ width → IsByteString shared
        → AreBuckets (256 ^ width) 0 buckets → 1 < length buckets →
        keys ≡ keys_of_buckets (256 ^ width) (number_of shared * 256) buckets → 32 < length keys
        → form_of words total keys
        ≡ branch shared (bytes_of buckets) (length keys) ∷ forms_of (form_of words width) buckets }
{}
