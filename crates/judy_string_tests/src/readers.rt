//! Rows of keys that are read where they stand, and looked up in another array as they are read.

use crate::check::{same_answer, same_number, same_value};
use crate::cursors::{Draws, put};
use crate::judysl::unlimited;
use judy_sl::{JudySl, KeyBuf, KeyReader};
use std::alloc::Global;
use std::process::Abort;
use std::test::Fail;

// An array of some keys, each with a value.
fn array_of(rt: &impl Abort, alloc: Global, pairs: &[(&[u8], u64)]) -> JudySl {
    JudySl::from_sorted(alloc, 100, pairs).expect(rt, "there is memory")
}

const ONE: [(&[u8], u64); 4] = [(b"a", 1), (b"abcdefgh", 2), (b"abcdefghi", 3), (b"b", 4)];

const OTHER: [(&[u8], u64); 3] = [(b"", 10), (b"abcdefgh", 20), (b"c", 30)];

// The reader of a key that is there.
fn read<'a>(rt: &impl Abort, strings: &'a JudySl, n: u64) -> KeyReader<'a> {
    strings.read_nth(n).expect(rt, "the key is there")
}

// Compares the value of the key at a place of one array in another with the one wanted.
fn check_read(rt: &impl Abort, from: &JudySl, n: u64, array: &JudySl, wanted: Option<u64>) {
    same_value(rt, array.get_read(read(rt, from, n)), wanted);
}

#[test]
fn keys_of_one_in_another(rt: HostRuntime) -> Result<(), Fail> {
    let one = array_of(&rt, rt.alloc(), &ONE);
    let other = array_of(&rt, rt.alloc(), &OTHER);
    check_read(&rt, &one, 1, &other, None);
    check_read(&rt, &one, 2, &other, Some(20));
    check_read(&rt, &one, 3, &other, None);
    check_read(&rt, &one, 4, &other, None);
    check_read(&rt, &other, 1, &one, None);
    check_read(&rt, &other, 2, &one, Some(2));
    check_read(&rt, &other, 3, &one, None);
    same_answer(&rt, one.read_nth(0).is_none(), true);
    same_answer(&rt, one.read_nth(5).is_none(), true);
    Ok(())
}

#[test]
fn a_key_by_its_pieces(rt: HostRuntime) -> Result<(), Fail> {
    let one = array_of(&rt, rt.alloc(), &ONE);
    let mut reader = read(&rt, &one, 2);
    same_value(&rt, reader.next_piece(), Some(7_017_280_452_245_743_464));
    same_value(&rt, reader.next_piece(), Some(0));
    same_value(&rt, reader.next_piece(), None);
    same_number(&rt, reader.value(), 2);
    same_number(&rt, read(&rt, &one, 3).value(), 3);
    Ok(())
}

// Compares what the second key of an array shares with bytes with what is wanted, and then its value.
fn check_shared(rt: &impl Abort, strings: &JudySl, bytes: &[u8], shared: u64, ends: bool) {
    let mut reader = read(rt, strings, 2);
    let found = reader.shared_with(bytes);
    same_number(rt, found.bytes as u64, shared);
    same_answer(rt, found.ends, ends);
    same_number(rt, reader.value(), 2);
}

#[test]
fn bytes_that_a_key_shares(rt: HostRuntime) -> Result<(), Fail> {
    let one = array_of(&rt, rt.alloc(), &ONE);
    check_shared(&rt, &one, b"", 0, false);
    check_shared(&rt, &one, b"bcdefghi", 0, false);
    check_shared(&rt, &one, b"abcdef", 6, false);
    check_shared(&rt, &one, b"abcdef\x00h", 6, false);
    check_shared(&rt, &one, b"abcdefgh", 8, true);
    check_shared(&rt, &one, b"abcdefghij", 8, true);
    check_shared(&rt, &one, b"abcdefgh\x00", 8, true);
    Ok(())
}

// Compares what is read of each key with what a buffer has of it.
fn check_all(rt: &impl Abort, strings: &JudySl) {
    let mut key = KeyBuf::new();
    for n in 1..=strings.len() {
        let value = strings.by_count(n, &mut key);
        same_value(rt, Some(read(rt, strings, n).value()), value);
        check_read(rt, strings, n, strings, value);
        let found = read(rt, strings, n).shared_with(key.as_slice());
        same_number(rt, found.bytes as u64, key.len() as u64);
        same_answer(rt, found.ends, true);
    }
}

// Keys that share many pieces, some of them to their ends: in levels behind levels, and in tails.
#[test]
fn reads_go_as_counts(rt: HostRuntime) {
    let mut strings = unlimited(rt.alloc());
    check_all(&rt, &strings);
    let mut draws = Draws { seed: 1 };
    for n in 0..300_u64 {
        let key = draws.key(&rt);
        put(&rt, &mut strings, key.as_slice(), n);
    }
    check_all(&rt, &strings);
}
