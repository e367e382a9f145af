//! How many keys are below a key, how many at or below it, and which key stands at a place, counted from 0.

ghost use Rattle.std.specs.Prelude.{[]};
ghost use Rattle.judy_model.specs.Keys.{word_order, byte_order};
ghost use Rattle.judy_model.specs.Laws.{NthHasItsRank, RankHasItsKey, NoPlaceIsOutside, FirstStandsAtTheRank, NextStandsAtTheCount, CountUpToIsFromTheLeast};

/// `nth` n answers the key of the map of which n keys are below.
pub fn nth_has_its_rank()
    ensures words { NthHasItsRank word_order }
    ensures byte_strings { NthHasItsRank byte_order }
{}

/// Each key of the map is the one that `nth` answers for its rank.
pub fn rank_has_its_key()
    ensures words { RankHasItsKey word_order }
    ensures byte_strings { RankHasItsKey byte_order }
{}

/// `nth` answers a key for each n below the number of keys, and for no other.
pub fn no_place_is_outside()
    ensures words { NoPlaceIsOutside word_order }
    ensures byte_strings { NoPlaceIsOutside byte_order }
{}

/// `rank` answers, at a key or not, before how many keys the first one at or above it stands.
pub fn first_stands_at_the_rank()
    ensures words { FirstStandsAtTheRank word_order }
    ensures byte_strings { FirstStandsAtTheRank byte_order }
{}

/// `count_up_to` answers before how many keys the next one above it stands.
pub fn next_stands_at_the_count()
    ensures words { NextStandsAtTheCount word_order }
    ensures byte_strings { NextStandsAtTheCount byte_order }
{}

/// It is the count from the least key there can be up to that key.
pub fn count_up_to_is_from_the_least()
    ensures words { CountUpToIsFromTheLeast word_order 0 }
    ensures byte_strings { CountUpToIsFromTheLeast byte_order [] }
{}
