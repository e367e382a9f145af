//! What the neighbours of a key are.

ghost use Rattle.judy_model.specs.Keys.{word_order, byte_order};
ghost use Rattle.judy_model.specs.Laws.{LeastIsOne, GreatestIsOne, FirstIsNearest, NextIsNearest, LastIsNearest, PrevIsNearest};

/// There is at most one least key that passes a test: two answers that are both it are equal.
pub fn least_is_one()
    ensures words { LeastIsOne word_order }
    ensures byte_strings { LeastIsOne byte_order }
{}

/// There is at most one greatest key that passes a test.
pub fn greatest_is_one()
    ensures words { GreatestIsOne word_order }
    ensures byte_strings { GreatestIsOne byte_order }
{}

/// `first` answers the least key of the map that is at or above the given one, and none where there is
/// no such key.
pub fn first_is_nearest()
    ensures words { FirstIsNearest word_order }
    ensures byte_strings { FirstIsNearest byte_order }
{}

/// `next` answers the least key of the map that is above the given one, and none where there is no such
/// key.
pub fn next_is_nearest()
    ensures words { NextIsNearest word_order }
    ensures byte_strings { NextIsNearest byte_order }
{}

/// `last` answers the greatest key of the map that is at or below the given one, and none where there is
/// no such key.
pub fn last_is_nearest()
    ensures words { LastIsNearest word_order }
    ensures byte_strings { LastIsNearest byte_order }
{}

/// `prev` answers the greatest key of the map that is below the given one, and none where there is no
/// such key.
pub fn prev_is_nearest()
    ensures words { PrevIsNearest word_order }
    ensures byte_strings { PrevIsNearest byte_order }
{}
