//! What iterators give beside the keys that went in, for each kind of node.

use crate::plain::{same_number, same_pair};
use judy_word::{InsertError, Judy1, JudyL};
use std::process::Abort;

// Keys by ascending order: the first one, how far each is from the next, and how many.
type Row = (u64, u64, u64);

const ROWS: [Row; 12] = [
    // The root's immediate, an immediate below the root, leaves and bitmap leaves.
    (5, 1, 1),
    (1 << 63, 1 << 40, 3),
    (9, 3, 32),
    (0, 7, 33),
    (0, 1, 256),
    (1 << 40, 5, 51),
    // Branches of each form, over leaves and over bitmap leaves.
    (0, 1, 257),
    (250, 2, 700),
    (0, 1 << 56, 256),
    (3, 1 << 48, 200),
    (77, 65_535, 300),
    // Up to the last word.
    (18_446_744_073_709_551_316, 1, 300),
];

// The key at a place of a row, and beyond.
fn key_at(row: Row, place: u64) -> u64 {
    row.0.wrapping_add(row.1.wrapping_mul(place))
}

// Puts the keys of a row in, the last one first.
fn fill(rt: &impl Abort, set: &mut Judy1, pairs: &mut JudyL, row: Row) {
    for place in (0..row.2).rev() {
        let key = key_at(row, place);
        added(rt, set.set(key));
        added(rt, pairs.put(key, place));
    }
}

// Takes note that a key was absent and is put in.
fn added(rt: &impl Abort, answer: Result<bool, InsertError>) {
    assert_eq!(rt; answer, Ok(true));
}

// What is left from a place on, whose key is the first that isn't below a word, and nothing behind it.
fn check_rest(rt: &impl Abort, set: &Judy1, pairs: &JudyL, row: Row, first: u64, from: u64) {
    let mut keys = set.iter_from(from);
    let mut entries = pairs.iter_from(from);
    for place in first..row.2 {
        let key = key_at(row, place);
        same_number(rt, keys.next(), Some(key), from);
        same_pair(rt, entries.next(), Some((key, place)), from);
    }
    same_number(rt, keys.next(), None, from);
    same_pair(rt, entries.next(), None, from);
}

// The first of what is left from a key on, and from the word behind it.
fn check_firsts(rt: &impl Abort, set: &Judy1, pairs: &JudyL, row: Row) {
    for place in 0..row.2 {
        let key = key_at(row, place);
        same_number(rt, set.iter_from(key).next(), Some(key), key);
        if key < u64::MAX {
            let next = (place + 1 < row.2).then_some(key_at(row, place + 1));
            check_first(rt, set, pairs, key + 1, next);
        }
    }
}

// The first of what is left from a word on.
fn check_first(rt: &impl Abort, set: &Judy1, pairs: &JudyL, from: u64, wanted: Option<u64>) {
    same_number(rt, set.iter_from(from).next(), wanted, from);
    let key = pairs.iter_from(from).next().map(|pair| pair.0);
    same_number(rt, key, wanted, from);
}

#[test]
fn each_kind_of_node(rt: HostRuntime) {
    for row in ROWS {
        let mut set = Judy1::unbounded(rt.alloc());
        let mut pairs = JudyL::unbounded(rt.alloc());
        fill(&rt, &mut set, &mut pairs, row);
        check_rest(&rt, &set, &pairs, row, 0, 0);
        check_rest(&rt, &set, &pairs, row, row.2 / 2, key_at(row, row.2 / 2));
        check_firsts(&rt, &set, &pairs, row);
    }
}
