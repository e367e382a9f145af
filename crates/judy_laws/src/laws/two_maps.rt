//! What two maps have together: what each part answers at a key, how many keys it has, and what the parts say of the
//! keys of both.

ghost use Rattle.judy_model.specs.Keys.{word_order, byte_order};
ghost use Rattle.judy_laws.specs.TwoMapsLaws.{UnionAnswers, IntersectionAnswers, DifferenceAnswers, SymmetricDifferenceAnswers, UnionCounts, DifferenceCounts, SymmetricDifferenceCounts, SubsetHasAll, DisjointHasNone, SameKeysAreSubsets, SameKeysCount, UnionWithEmpty, UnionWithItself};

/// A union answers what the one has, and else what the other has.
pub fn a_union_answers_as_the_one_and_else_the_other()
    ensures words { UnionAnswers word_order }
    ensures byte_strings { UnionAnswers byte_order }
{}

/// An intersection answers what the one has, at the keys of the other alone.
pub fn an_intersection_answers_as_the_one()
    ensures words { IntersectionAnswers word_order }
    ensures byte_strings { IntersectionAnswers byte_order }
{}

/// A difference answers what the one has, at every key that the other doesn't have.
pub fn a_difference_answers_as_the_one()
    ensures words { DifferenceAnswers word_order }
    ensures byte_strings { DifferenceAnswers byte_order }
{}

/// A symmetric difference answers nothing at a key that both have, and else what the map has that has the key.
pub fn a_symmetric_difference_answers_as_either()
    ensures words { SymmetricDifferenceAnswers word_order }
    ensures byte_strings { SymmetricDifferenceAnswers byte_order }
{}

/// A union and an intersection have together as many keys as the two maps.
pub fn a_union_counts_a_common_key_once()
    ensures words { UnionCounts word_order }
    ensures byte_strings { UnionCounts byte_order }
{}

/// A difference and an intersection have together as many keys as the one map.
pub fn a_difference_has_the_rest()
    ensures words { DifferenceCounts word_order }
    ensures byte_strings { DifferenceCounts byte_order }
{}

/// A symmetric difference has as many keys as both differences together.
pub fn a_symmetric_difference_has_both_rests()
    ensures words { SymmetricDifferenceCounts word_order }
    ensures byte_strings { SymmetricDifferenceCounts byte_order }
{}

/// The one is a subset of the other exactly where their intersection has as many keys as the one.
pub fn a_subset_has_all_in_common()
    ensures words { SubsetHasAll word_order }
    ensures byte_strings { SubsetHasAll byte_order }
{}

/// Two maps are disjoint exactly where their intersection is empty.
pub fn disjoint_maps_have_nothing_in_common()
    ensures words { DisjointHasNone word_order }
    ensures byte_strings { DisjointHasNone byte_order }
{}

/// Two maps have the same keys exactly where each is a subset of the other.
pub fn the_same_keys_are_subsets_both_ways()
    ensures words { SameKeysAreSubsets word_order }
    ensures byte_strings { SameKeysAreSubsets byte_order }
{}

/// Maps with the same keys have as many.
pub fn the_same_keys_are_as_many()
    ensures words { SameKeysCount word_order }
    ensures byte_strings { SameKeysCount byte_order }
{}

/// A union with the empty map, on either side, is the map.
pub fn an_empty_map_adds_nothing()
    ensures words { UnionWithEmpty word_order }
    ensures byte_strings { UnionWithEmpty byte_order }
{}

/// A union of a map with itself is the map.
pub fn a_map_adds_nothing_to_itself()
    ensures words { UnionWithItself word_order }
    ensures byte_strings { UnionWithItself byte_order }
{}
