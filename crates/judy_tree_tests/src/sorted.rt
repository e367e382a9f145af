//! Arrays made at once of keys that ascend: they have these keys, and others are refused by their place.

use crate::plain::{same, same_number, same_pair};
use judy_word::{Judy1, JudyL, SortedError};
use std::process::Abort;
use std::test::Fail;

// Compares what was made of a list with what is wrong with it.
fn refused_pairs(rt: &impl Abort, made: Result<JudyL, SortedError>, wanted: SortedError) {
    assert_eq!(rt; made.err(), Some(wanted));
}

// The same of keys alone.
fn refused_keys(rt: &impl Abort, made: Result<Judy1, SortedError>, wanted: SortedError) {
    assert_eq!(rt; made.err(), Some(wanted));
}

// A map of pairs has these alone.
fn check_pairs(rt: &impl Abort, made: Result<JudyL, SortedError>, pairs: &[(u64, u64)]) {
    let map = made.expect(rt, "there is memory");
    let mut entries = map.iter();
    for pair in pairs {
        same_pair(rt, entries.next(), Some(*pair), pair.0);
    }
    same_pair(rt, entries.next(), None, 0);
    same(rt, map.limit(), 500, 0);
}

#[test]
fn arrays_of_the_keys(rt: HostRuntime) -> Result<(), Fail> {
    for distance in [1_u64, 3, 257, 1 << 20, 1 << 54] {
        let mut pairs = Vec::new(rt.alloc());
        for place in 0..500 {
            check_pairs(&rt, JudyL::from_sorted(rt.alloc(), 500, &pairs), &pairs);
            check_pairs(&rt, JudyL::from_items(rt.alloc(), 500, &pairs), &pairs);
            pairs.push((distance.wrapping_mul(place), !place))?;
        }
    }
    Ok(())
}

#[test]
fn refused_by_their_place(rt: HostRuntime) -> Result<(), Fail> {
    let alloc = rt.alloc();
    let twice = JudyL::from_sorted(alloc, 9, &[(1, 10), (5, 50), (5, 51)]);
    refused_pairs(&rt, twice, SortedError::NotAscending(2));
    let copied = JudyL::from_items(alloc, 9, &[(1, 10), (5, 50), (5, 51)]);
    refused_pairs(&rt, copied, SortedError::NotAscending(2));
    let more = JudyL::from_items(alloc, 2, &[(1, 10), (5, 50), (6, 60)]);
    refused_pairs(&rt, more, SortedError::Full(2));
    let fallen = Judy1::from_sorted(alloc, 9, &[7, 3, 9]);
    refused_keys(&rt, fallen, SortedError::NotAscending(1));
    let many = Judy1::from_sorted(alloc, 2, &[1, 2, 3, 3]);
    refused_keys(&rt, many, SortedError::Full(2));
    let both = Judy1::from_sorted(alloc, 2, &[1, 2, 2]);
    refused_keys(&rt, both, SortedError::NotAscending(2));
    Ok(())
}

#[test]
fn the_last_word(rt: HostRuntime) -> Result<(), Fail> {
    let made = Judy1::from_sorted(rt.alloc(), 9, &[0, u64::MAX]);
    let set = made.expect(&rt, "there is memory");
    same_number(&rt, set.last(u64::MAX), Some(u64::MAX), 0);
    same(&rt, set.len(), 2, 0);
    let none = Judy1::from_sorted(rt.alloc(), 9, &[]);
    same(&rt, none.expect(&rt, "no keys").len(), 0, 0);
    Ok(())
}
