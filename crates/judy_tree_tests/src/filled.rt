//! Arrays that are filled by keys that ascend: they have these keys alone, and the nodes of as many inserts.

use crate::plain::{same, same_answer, same_pair};
use judy_node::Shape;
use judy_word::{FillingMap, FillingSet, Judy1, JudyL};
use std::alloc::{AllocError, Global};
use std::process::Abort;

// More keys than a row has.
const LIMIT: u64 = 20_000;

// Compares the nodes of an array that was filled with those of one that each key was put into.
fn same_nodes(rt: &impl Abort, filled: Shape, inserted: Shape) {
    assert_eq!(rt; filled, inserted);
}

// The map that is filled with pairs.
fn filled_map(rt: &impl Abort, alloc: Global, pairs: &[(u64, u64)]) -> JudyL {
    let mut filling = FillingMap::new(alloc, LIMIT);
    for (key, value) in pairs {
        same_answer(rt, filling.put(*key, *value).is_ok(), true);
    }
    filling.into_map().expect(rt, "there is memory")
}

// The map that pairs are put into, one after another.
fn inserted_map(rt: &impl Abort, alloc: Global, pairs: &[(u64, u64)]) -> JudyL {
    let mut map = JudyL::new(alloc, LIMIT);
    for (key, value) in pairs {
        same_answer(rt, map.put_if_absent(*key, *value).is_ok(), true);
    }
    map
}

// Fills a map with pairs whose keys ascend, and compares it with them, and its nodes with those of inserts.
fn check_map(rt: &impl Abort, alloc: Global, pairs: &[(u64, u64)]) {
    let filled = filled_map(rt, alloc, pairs);
    let mut entries = filled.iter();
    for pair in pairs {
        same_pair(rt, entries.next(), Some(*pair), pair.0);
    }
    same_pair(rt, entries.next(), None, 0);
    same_answer(rt, filled.is_loose(), false);
    same_nodes(rt, filled.shape(), inserted_map(rt, alloc, pairs).shape());
}

// The same of a set of their keys.
fn check_set(rt: &impl Abort, alloc: Global, pairs: &[(u64, u64)]) {
    let mut filling = FillingSet::new(alloc, LIMIT);
    let mut inserted = Judy1::new(alloc, LIMIT);
    for (key, _) in pairs {
        same_answer(rt, filling.put(*key, 0).is_ok(), true);
        same_answer(rt, inserted.set(*key).is_ok(), true);
    }
    let filled = filling.into_set().expect(rt, "there is memory");
    same(rt, filled.len(), inserted.len(), 0);
    same_answer(rt, filled.is_loose(), false);
    same_nodes(rt, filled.shape(), inserted.shape());
}

// So many keys at a distance from each other, from a word on.
fn at_distance(
    alloc: Global,
    from: u64,
    distance: u64,
    count: u64,
) -> Result<Vec<(u64, u64)>, AllocError> {
    let mut pairs = Vec::new(alloc);
    for place in 0..count {
        let key = from.wrapping_add(distance.wrapping_mul(place));
        pairs.push((key, !key)).map_err(|_| AllocError)?;
    }
    Ok(pairs)
}

#[test]
fn keys_at_a_distance(rt: HostRuntime) -> Result<(), AllocError> {
    let alloc = rt.alloc();
    for distance in [1, 3, 16, 255, 257, 65_535, 1 << 30, 1 << 50] {
        for count in [0, 1, 2, 33, 600, 9000] {
            let pairs = at_distance(alloc, 250, distance, count)?;
            check_map(&rt, alloc, &pairs);
            check_set(&rt, alloc, &pairs);
        }
    }
    Ok(())
}

#[test]
fn keys_that_do_not_ascend(rt: HostRuntime) {
    let pairs = [
        (5, 50),
        (7, 70),
        (6, 60),
        (7, 71),
        (1 << 63, 8),
        (0, 9),
        (5, 51),
    ];
    let filled = filled_map(&rt, rt.alloc(), &pairs);
    let mut entries = filled.iter();
    for pair in [(0, 9), (5, 50), (6, 60), (7, 70), (1 << 63, 8)] {
        same_pair(&rt, entries.next(), Some(pair), pair.0);
    }
    same_pair(&rt, entries.next(), None, 0);
}
