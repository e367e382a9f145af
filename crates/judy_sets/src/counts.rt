//! How many keys two arrays have together.

ghost use Rattle.std.specs.Prelude.{◌≡◌, min};
ghost use Rattle.std.specs.FinMap as map;
ghost use Rattle.judy_model.specs.Ranges as ranges;
ghost use Rattle.judy_model.specs.TwoMaps as two;

use crate::meets::{Sought, count_sought};
use judy_leaf::Words;
use judy_word::WordArray;

/// How many keys both arrays have. The nodes of the one that has fewer keys are met with those of the other that have
/// their words.
pub fn common_count<V: Words + Drop>(one: &WordArray<V>, other: &WordArray<V>) -> u64
    ensures { result ≡ map.len (two.intersection one.now.map other.now.map) }
{
    if one.len() <= other.len() {
        count_common(one, other)
    } else {
        count_common(other, one)
    }
}

// The same, by the nodes of the one.
fn count_common<V: Words + Drop>(one: &WordArray<V>, other: &WordArray<V>) -> u64
    ensures { result ≡ map.len (two.intersection one.now.map other.now.map) }
{
    let _most = one.len();
    let all = Sought {
        wanted: true,
        enough: u64::MAX,
    };
    count_sought(all, one, other)
}

/// How many keys of the one array the other lacks.
pub fn difference_count<V: Words + Drop>(one: &WordArray<V>, other: &WordArray<V>) -> u64
    ensures { result ≡ map.len (two.difference one.now.map other.now.map) }
{
    one.len() - common_count(one, other)
}

/// How many keys the one or the other has. All 2^64 words, which no memory holds, are answered as 2^64 - 1.
pub fn union_count<V: Words + Drop>(one: &WordArray<V>, other: &WordArray<V>) -> u64
    ensures { result ≡ min (map.len (two.union one.now.map other.now.map)) u64.MAX }
{
    one.len().saturating_add(difference_count(other, one))
}

/// How many keys exactly one of them has. All 2^64 words are answered as 2^64 - 1, as by [`union_count`].
pub fn symmetric_difference_count<V: Words + Drop>(one: &WordArray<V>, other: &WordArray<V>) -> u64
    ensures { result
        ≡ min (map.len (two.symmetric_difference one.now.map other.now.map)) u64.MAX }
{
    let common = common_count(one, other);
    (one.len() - common).saturating_add(other.len() - common)
}

/// How many words from one to another, both included, are no keys: none where the first is above the second. All 2^64
/// words are answered as 2^64 - 1. It takes as long as a count of keys.
///
///     let free = count_empty(&taken, 1, 100);
pub fn count_empty<V: Words + Drop>(array: &WordArray<V>, from: u64, to: u64) -> u64
    ensures { result ≡ min (ranges.count_empty array.now.map from to) u64.MAX }
{
    if from > to {
        return 0;
    }
    let keys = array.count(from, to);
    let behind_first = to - from;
    if keys > behind_first {
        return 0;
    }
    (behind_first - keys).saturating_add(1)
}
