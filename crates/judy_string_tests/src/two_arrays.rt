//! Rows worked by hand: how many keys two arrays of strings have together, and prefixes taken out.
//! The C tests have arrays made of two, and ranges.

use crate::check::{same_number, same_value};
use judy_sl::JudySl;
use judy_string_sets::{
    common_count, difference_count, remove_prefix, symmetric_difference_count, union_count,
};
use std::alloc::Global;
use std::process::Abort;
use std::test::Fail;

// A key with its value.
type Pair<'a> = (&'a [u8], u64);

const ONE: [Pair<'static>; 4] = [(b"a", 1), (b"abcdefgh", 2), (b"abcdefghi", 3), (b"b", 4)];

const OTHER: [Pair<'static>; 3] = [(b"", 10), (b"abcdefgh", 20), (b"c", 30)];

// The array of some pairs, with room for 100.
fn array_of(rt: &impl Abort, alloc: Global, pairs: &[Pair<'_>]) -> JudySl {
    JudySl::from_sorted(alloc, 100, pairs).expect(rt, "there is memory")
}

// How many keys that begin with some bytes are taken out.
fn taken_out(rt: &impl Abort, alloc: Global, array: &mut JudySl, prefix: &[u8]) -> u64 {
    remove_prefix(alloc, array, prefix).expect(rt, "short keys ask for no memory")
}

// An array has these pairs alone.
fn has_pairs(rt: &impl Abort, array: &JudySl, pairs: &[Pair<'_>]) {
    same_number(rt, array.len(), pairs.len() as u64);
    for pair in pairs {
        same_value(rt, array.get(pair.0), Some(pair.1));
    }
}

#[test]
fn counts_of_strings(rt: HostRuntime) -> Result<(), Fail> {
    let one = array_of(&rt, rt.alloc(), &ONE);
    let other = array_of(&rt, rt.alloc(), &OTHER);
    same_number(&rt, common_count(&one, &other), 1);
    same_number(&rt, difference_count(&one, &other), 3);
    same_number(&rt, difference_count(&other, &one), 2);
    same_number(&rt, union_count(&one, &other), 6);
    same_number(&rt, symmetric_difference_count(&one, &other), 5);
    Ok(())
}

#[test]
fn prefixes_taken_out(rt: HostRuntime) -> Result<(), Fail> {
    let mut array = array_of(&rt, rt.alloc(), &ONE);
    same_number(
        &rt,
        taken_out(&rt, rt.alloc(), &mut array, b"abcdefghij"),
        0,
    );
    same_number(&rt, taken_out(&rt, rt.alloc(), &mut array, b"a\x00"), 0);
    same_number(&rt, taken_out(&rt, rt.alloc(), &mut array, b"ab"), 2);
    has_pairs(&rt, &array, &[(b"a", 1), (b"b", 4)]);
    same_number(&rt, taken_out(&rt, rt.alloc(), &mut array, b""), 2);
    same_number(&rt, array.len(), 0);
    Ok(())
}
