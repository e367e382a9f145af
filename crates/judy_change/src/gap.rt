//! One pair more among sorted pairs.

ghost use Rattle.std.specs.Prelude.{◌≡◌, ◌≢◌, ◌-◌, ◌<◌, [], ◌∷◌, length, take};
ghost use Rattle.std.specs.List.{insert};
ghost use Rattle.judy_leaf.specs.KeyLists.{with_pair};

use std::mem;

// Puts a pair in at a place. The last place of the slice is free; the pairs from the place on move by one.
pub(crate) fn put_at(pairs: &mut [(u64, u64)], at: usize, pair: (u64, u64))
    requires { at < length pairs.old }
    ensures { pairs.new ≡ insert (take (length pairs.old - 1) pairs.old) at pair }
{
    let mut next = pair;
    for place in at..pairs.len() {
        next = mem::replace(&mut pairs[place], next);
    }
}

// Two pairs by ascending key.
pub(crate) fn in_order(one: (u64, u64), more: (u64, u64)) -> ((u64, u64), (u64, u64))
    requires { one.0 ≢ more.0 }
    ensures { result.0 ∷ result.1 ∷ [] ≡ with_pair more.0 more.1 (one ∷ []) }
{
    if one.0 < more.0 {
        (one, more)
    } else {
        (more, one)
    }
}
