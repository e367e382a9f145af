//! The part of a map from one key to another, what lies outside, and what lies on either side of a key.

ghost use Rattle.judy_model.specs.Keys.{word_order, byte_order};
ghost use Rattle.judy_laws.specs.TwoMapsLaws.{WithinAnswers, OutsideAnswers, BelowAnswers, FromOnAnswers, WithinCounts, OutsideCounts, BelowCounts, FromOnCounts, HalvesJoin};

/// What is within answers as the map from the one key to the other, both included, and nowhere else.
pub fn within_answers_from_one_key_to_another()
    ensures words { WithinAnswers word_order }
    ensures byte_strings { WithinAnswers byte_order }
{}

/// What is outside answers as the map at every other key.
pub fn outside_answers_elsewhere()
    ensures words { OutsideAnswers word_order }
    ensures byte_strings { OutsideAnswers byte_order }
{}

/// What is below answers as the map below the key.
pub fn below_answers_below()
    ensures words { BelowAnswers word_order }
    ensures byte_strings { BelowAnswers byte_order }
{}

/// What is from a key on answers as the map at the key and above it.
pub fn from_on_answers_at_and_above()
    ensures words { FromOnAnswers word_order }
    ensures byte_strings { FromOnAnswers byte_order }
{}

/// Within are as many keys as `count` counts.
pub fn within_has_the_count()
    ensures words { WithinCounts word_order }
    ensures byte_strings { WithinCounts byte_order }
{}

/// Within and outside are together all keys.
pub fn outside_has_the_rest()
    ensures words { OutsideCounts word_order }
    ensures byte_strings { OutsideCounts byte_order }
{}

/// Below a key are as many as its rank.
pub fn below_has_the_rank()
    ensures words { BelowCounts word_order }
    ensures byte_strings { BelowCounts byte_order }
{}

/// Below a key and from it on are together all keys.
pub fn from_on_has_the_rest()
    ensures words { FromOnCounts word_order }
    ensures byte_strings { FromOnCounts byte_order }
{}

/// What is below a key and what is from it on join to the map again.
pub fn both_sides_join_to_the_map()
    ensures words { HalvesJoin word_order }
    ensures byte_strings { HalvesJoin byte_order }
{}
