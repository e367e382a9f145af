//! What two maps have together, where both have a key with two values: {2 → 20, 4 → 40} and {4 → 44, 7 → 77}, and of
//! byte strings {`a` → 1, `ab` → 2} and {`ab` → 9, `b` → 3}.

ghost use Rattle.std.specs.Prelude.{◌≡◌, ◌+◌, [], ◌∷◌, codes};
ghost use Rattle.std.specs.FinMap.{entries, len};
ghost use Rattle.judy_model.specs.TwoMaps.{union, intersection, difference, symmetric_difference, IsSubset, IsDisjoint, HaveSameKeys};
ghost use Rattle.judy_laws.specs.MapExamples.{ours, theirs, two_and_four, four, seven, our_strings, their_strings};

/// Of words: the values are those of the one map.
#[tactic(auto, using(crate::proofs::lemmas::JoinsOfPairs::words_joined))]
pub fn two_maps_of_words()
    ensures union { entries (union ours theirs) ≡ (2, 20) ∷ (4, 40) ∷ (7, 77) ∷ [] }
    ensures turned_union { entries (union theirs ours) ≡ (2, 20) ∷ (4, 44) ∷ (7, 77) ∷ [] }
    ensures intersection { entries (intersection ours theirs) ≡ (4, 40) ∷ [] }
    ensures turned_intersection { entries (intersection theirs ours) ≡ (4, 44) ∷ [] }
    ensures difference { entries (difference ours theirs) ≡ (2, 20) ∷ [] }
    ensures turned_difference { entries (difference theirs ours) ≡ (7, 77) ∷ [] }
    ensures symmetric { entries (symmetric_difference ours theirs) ≡ (2, 20) ∷ (7, 77) ∷ [] }
    ensures nothing_left { entries (difference ours ours) ≡ [] }
    ensures nothing_apart { entries (symmetric_difference ours ours) ≡ [] }
{}

/// A key that both have counts once in a union.
#[tactic(auto, using(crate::proofs::lemmas::JoinsOfPairs::words_joined))]
pub fn a_common_key_counts_once()
    ensures union { len (union ours theirs) ≡ 3 }
    ensures intersection { len (intersection ours theirs) ≡ 1 }
    ensures both { len ours + len theirs ≡ 4 }
    ensures symmetric { len (symmetric_difference ours theirs) ≡ 2 }
{}

/// Of byte strings.
#[tactic(auto, using(crate::proofs::lemmas::JoinsOfPairs::bytes_joined))]
pub fn two_maps_of_byte_strings()
    ensures union { entries (union our_strings their_strings)
        ≡ (codes "a", 1) ∷ (codes "ab", 2) ∷ (codes "b", 3) ∷ [] }
    ensures turned_union { entries (union their_strings our_strings)
        ≡ (codes "a", 1) ∷ (codes "ab", 9) ∷ (codes "b", 3) ∷ [] }
    ensures intersection { entries (intersection our_strings their_strings)
        ≡ (codes "ab", 2) ∷ [] }
    ensures difference { entries (difference our_strings their_strings) ≡ (codes "a", 1) ∷ [] }
    ensures symmetric { entries (symmetric_difference our_strings their_strings)
        ≡ (codes "a", 1) ∷ (codes "b", 3) ∷ [] }
{}

/// Values make no difference to what the keys of two maps have in common.
pub fn keys_alone_are_compared()
    ensures subset { IsSubset four ours }
    ensures no_subset { IsSubset ours theirs → ⊥ }
    ensures disjoint { IsDisjoint ours seven }
    ensures not_disjoint { IsDisjoint ours theirs → ⊥ }
    ensures same_keys { HaveSameKeys ours two_and_four }
    ensures other_keys { HaveSameKeys ours theirs → ⊥ }
{}
