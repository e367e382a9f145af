//! What a count counts, and that `by_count` gives back the key of a count.

ghost use Rattle.std.specs.Prelude.{[]};
ghost use Rattle.judy_model.specs.Keys.{word_order, byte_order};
ghost use Rattle.judy_model.specs.Laws.{KeysBetweenAreThose, KeysBetweenAscend, CountIsHowMany, IsLeastKey, NthHasItsCount, CountHasItsKey, NthIsNoneOutside};

/// The keys between two keys are exactly the keys of the map that are at or above the one and at or below
/// the other.
pub fn keys_between_are_those()
    ensures words { KeysBetweenAreThose word_order }
    ensures byte_strings { KeysBetweenAreThose byte_order }
{}

/// They stand in strictly ascending order, so that each stands once.
pub fn keys_between_ascend()
    ensures words { KeysBetweenAscend word_order }
    ensures byte_strings { KeysBetweenAscend byte_order }
{}

/// A count is how many they are.
pub fn count_is_how_many()
    ensures words { CountIsHowMany word_order }
    ensures byte_strings { CountIsHowMany byte_order }
{}

/// No word is below 0, and no byte string is below the empty one.
pub fn least_keys()
    ensures words { IsLeastKey word_order 0 }
    ensures byte_strings { IsLeastKey byte_order [] }
{}

/// The n-th key is a key of the map, and the count from the least key there can be up to it is n.
pub fn nth_has_its_count()
    ensures words { NthHasItsCount word_order 0 }
    ensures byte_strings { NthHasItsCount byte_order [] }
{}

/// Each key of the map is the n-th, where n is the count from the least key there can be up to it.
pub fn count_has_its_key()
    ensures words { CountHasItsKey word_order 0 }
    ensures byte_strings { CountHasItsKey byte_order [] }
{}

/// There is an n-th key for each n from 1 to the number of keys, and for no other n.
pub fn nth_is_none_outside()
    ensures words { NthIsNoneOutside word_order }
    ensures byte_strings { NthIsNoneOutside byte_order }
{}
