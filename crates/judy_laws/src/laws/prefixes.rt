//! What begins a byte string: the keys with a prefix, all others, and the longest key that begins one.

ghost use Rattle.std.specs.Prelude.{◌≡◌, ◌≤◌, ◌+◌, ◌↔◌, ◌++◌, ℕ, List, length, if◌then◌else◌, IsTrue, IsFalse, Some, None};
ghost use Rattle.std.specs.FinMap.{FinMap, contains_key, get, len};
ghost use Rattle.judy_model.specs.Keys.{byte_order};
ghost use Rattle.judy_model.specs.Prefixes.{begins_with, beginning_with, without_prefix, longest_prefix};

/// Bytes begin with a prefix exactly where they are the prefix and some rest.
pub fn bytes_begin_with_a_front()
    ensures { (prefix bytes : List ℕ) → IsTrue (begins_with prefix bytes)
        ↔ ((rest : List ℕ) × (bytes ≡ prefix ++ rest)) }
{}

/// The keys with a prefix answer as the map at each key that begins with it, and nothing elsewhere.
pub fn keys_with_a_prefix_answer_as_the_map()
    ensures { (map : FinMap byte_order ℕ) (prefix key : List ℕ)
        → get (beginning_with map prefix) key
        ≡ (if begins_with prefix key then get map key else None) }
{}

/// All others answer as the map at each key that doesn't.
pub fn keys_without_a_prefix_answer_elsewhere()
    ensures { (map : FinMap byte_order ℕ) (prefix key : List ℕ)
        → get (without_prefix map prefix) key
        ≡ (if begins_with prefix key then None else get map key) }
{}

/// Together they are as many keys as the map has.
pub fn both_are_all_keys()
    ensures { (map : FinMap byte_order ℕ) (prefix : List ℕ)
        → len (beginning_with map prefix) + len (without_prefix map prefix) ≡ len map }
{}

/// There is no longest prefix exactly where no key begins the bytes.
pub fn no_key_begins_the_bytes()
    ensures { (map : FinMap byte_order ℕ) (bytes : List ℕ) → (longest_prefix map bytes ≡ None)
        ↔ ((key : List ℕ) → IsTrue (contains_key map key) → IsFalse (begins_with key bytes)) }
{}

/// A key is the longest prefix exactly where it is a key of the map, the bytes begin with it, and no key of the map
/// that they begin with is longer.
pub fn the_longest_prefix_is_a_key_that_begins_the_bytes()
    ensures { (map : FinMap byte_order ℕ) (bytes key : List ℕ)
        → (longest_prefix map bytes ≡ Some key)
        ↔ (IsTrue (contains_key map key) × IsTrue (begins_with key bytes)
        × ((other : List ℕ) → IsTrue (contains_key map other) → IsTrue (begins_with other bytes)
        → length other ≤ length key)) }
{}
