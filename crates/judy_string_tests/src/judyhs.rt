//! Rows of arrays over byte strings, and the hash of the program.

use crate::check::{same_answer, same_bytes, same_number, same_value, write_over};
use judy_hs::{ByteHash, Eights, Fnv1a, HsEntry, HsError, JudyHs};
use std::alloc::Global;
use std::process::Abort;

// A hash that is the same for all keys.
#[derive(Clone, Copy)]
struct Same;

impl ByteHash for Same {
    ghost use Rattle.std.specs.Prelude.{List, ℕ};

    const LONGEST: usize = 1024;

    ghost LONGEST = { 1024 };

    ghost hash_of = { λ _. 7 };

    fn hash(&self, _bytes: &[u8]) -> u32 {
        7
    }
}

// Inserts a key, compares the value that it had before, and writes another.
fn check_ins<H: ByteHash + Drop>(
    rt: &impl Abort,
    array: &mut JudyHs<H>,
    key: &[u8],
    before: u64,
    value: u64,
) {
    match array.ins(key) {
        Ok(slot) => write_over(rt, slot, before, value),
        Err(_) => assert!(rt; false),
    }
}

// Inserts absent keys with their values.
fn insert_all<H: ByteHash + Drop>(
    rt: &impl Abort,
    array: &mut JudyHs<H>,
    entries: &[(&[u8], u64)],
) {
    for (key, value) in entries {
        check_ins(rt, array, key, 0, *value);
    }
}

// Takes note that a key is refused, and why.
fn check_refused<H: ByteHash + Drop>(
    rt: &impl Abort,
    array: &mut JudyHs<H>,
    key: &[u8],
    wanted: HsError,
) {
    match array.ins(key) {
        Ok(_) => assert!(rt; false),
        Err(refusal) => assert_eq!(rt; refusal, wanted),
    }
}

// Compares the value of a key with the one wanted.
fn check_value<H: ByteHash + Drop>(
    rt: &impl Abort,
    array: &JudyHs<H>,
    key: &[u8],
    wanted: Option<u64>,
) {
    same_value(rt, array.get(key), wanted);
}

// Takes a key out, and compares whether it was there.
fn check_del<H: ByteHash + Drop>(rt: &impl Abort, array: &mut JudyHs<H>, key: &[u8], wanted: bool) {
    same_answer(rt, array.del(key), wanted);
}

// Compares how many keys there are with how many are wanted.
fn check_len<H: ByteHash + Drop>(rt: &impl Abort, array: &JudyHs<H>, wanted: u64) {
    same_number(rt, array.len(), wanted);
}

// There is no key of so many bytes.
fn no_group<H: ByteHash + Drop>(rt: &impl Abort, array: &JudyHs<H>, length: usize) {
    same_answer(rt, array.group(length).is_none(), true);
}

// Compares the list of all entries.
fn check_sorted<H: ByteHash + Drop>(rt: &impl Abort, array: &JudyHs<H>, entries: &[(&[u8], u64)]) {
    match array.sorted() {
        Ok(list) => check_entries(rt, &list, entries),
        Err(_) => assert!(rt; false),
    }
}

// Compares a list of entries.
fn check_entries(rt: &impl Abort, found: &[HsEntry<'_>], entries: &[(&[u8], u64)]) {
    same_number(rt, found.len() as u64, entries.len() as u64);
    for (entry, (key, value)) in found.iter().zip(entries) {
        check_entry(rt, entry, key, *value);
    }
}

// Compares an entry.
fn check_entry(rt: &impl Abort, found: &HsEntry<'_>, key: &[u8], value: u64) {
    same_bytes(rt, found.key.bytes(), key);
    same_number(rt, found.value, value);
}

// An array with no key and the greatest limit.
fn unlimited<H: ByteHash + Drop>(alloc: Global, hasher: H) -> JudyHs<H> {
    JudyHs::new(alloc, 4294967295, hasher)
}

// The row over three keys: the array that it leaves has the second and the third.
fn check_byte_keys(
    rt: &impl Abort,
    alloc: Global,
    first: &[u8],
    second: &[u8],
    third: &[u8],
) -> JudyHs<Same> {
    let mut array = unlimited(alloc, Same);
    insert_all(rt, &mut array, &[(first, 1), (second, 2), (third, 3)]);
    check_value(rt, &array, second, Some(2));
    check_value(rt, &array, first, Some(1));
    check_del(rt, &mut array, first, true);
    check_del(rt, &mut array, first, false);
    check_value(rt, &array, first, None);
    check_value(rt, &array, third, Some(3));
    check_len(rt, &array, 2);
    array
}

// Compares how the array with the keys of one byte 0 and of two shows them.
fn check_zeros(rt: &impl Abort, array: &JudyHs<Same>) {
    same_value(rt, array.lengths().first(0), Some(1));
    same_value(rt, array.lengths().next(1), Some(2));
    same_value(rt, array.lengths().next(2), None);
    no_group(rt, array, 0);
    match array.group(2) {
        Some(group) => same_value(rt, group.get(0), Some(3)),
        None => assert!(rt; false),
    }
}

#[test]
fn byte_keys(rt: HostRuntime) {
    let zeros = check_byte_keys(&rt, rt.alloc(), b"", &[0], &[0, 0]);
    check_zeros(&rt, &zeros);
    check_byte_keys(&rt, rt.alloc(), b"abcdefghi", b"abcdefghj", b"abcdefghk");
    check_byte_keys(
        &rt,
        rt.alloc(),
        b"abcdefghij",
        b"abcdefghijk",
        b"abcdefghijkl",
    );
}

// With memory for each growth.
#[test]
fn refused_chain_insert(rt: HostRuntime) {
    let mut array = unlimited(rt.alloc(), Same);
    check_ins(&rt, &mut array, b"aaaaaaaaa", 0, 1);
    check_ins(&rt, &mut array, b"aaaaaaaab", 0, 2);
    check_ins(&rt, &mut array, b"aaaaaaaaaa", 0, 3);
    check_value(&rt, &array, b"aaaaaaaaa", Some(1));
    check_len(&rt, &array, 3);
}

// Nine decimal digits.
fn digits(number: u32) -> [u8; 9] {
    let mut text = [b'0'; 9];
    let mut rest = number;
    for digit in text.iter_mut().rev() {
        *digit = b'0' + (rest % 10) as u8;
        rest /= 10;
    }
    text
}

// Puts the numbers below 1,000 in, as their digits.
fn insert_numbers(rt: &impl Abort, array: &mut JudyHs<Same>) {
    for number in 0..1000u32 {
        check_ins(rt, array, &digits(number), 0, u64::from(number));
    }
}

// Compares the values of the numbers below 1,000, of which the odd ones may be absent.
fn check_numbers(rt: &impl Abort, array: &JudyHs<Same>, has_odd: bool) {
    for number in 0..1000u32 {
        let is_there = has_odd || number % 2 == 0;
        let wanted = is_there.then_some(u64::from(number));
        check_value(rt, array, &digits(number), wanted);
    }
}

// Takes the odd numbers out, each once and with its value.
fn remove_odd(rt: &impl Abort, array: &mut JudyHs<Same>) {
    for half in 0..500u32 {
        let number = half * 2 + 1;
        let key = digits(number);
        same_value(rt, array.remove(&key), Some(u64::from(number)));
        same_value(rt, array.remove(&key), None);
    }
}

// Compares a list of entries with the even numbers below 1,000.
fn check_even(rt: &impl Abort, found: &[HsEntry<'_>]) {
    same_number(rt, found.len() as u64, 500);
    for (entry, half) in found.iter().zip(0..500u32) {
        let number = half.wrapping_mul(2);
        check_entry(rt, entry, &digits(number), u64::from(number));
    }
}

#[test]
fn long_keys_and_one_hash(rt: HostRuntime) {
    let mut array = JudyHs::new(rt.alloc(), 1000, Same);
    insert_numbers(&rt, &mut array);
    check_numbers(&rt, &array, true);
    remove_odd(&rt, &mut array);
    check_numbers(&rt, &array, false);
    match array.sorted() {
        Ok(list) => check_even(&rt, &list),
        Err(_) => assert!(rt; false),
    }
    same_number(&rt, array.free_array(), 500);
    same_answer(&rt, array.is_empty(), true);
    no_group(&rt, &array, 9);
}

const LONGEST: [u8; 1024] = [b'x'; 1024];

const TOO_LONG: [u8; 1025] = [b'x'; 1025];

// Keys of each length at an edge, and the refusals: the array is full.
fn fill_edges(rt: &impl Abort, array: &mut JudyHs<Fnv1a>) {
    check_ins(rt, array, b"", 0, 10);
    check_ins(rt, array, b"abcdefgh", 0, 18);
    check_ins(rt, array, b"abcdefghi", 0, 19);
    check_ins(rt, array, &LONGEST, 0, 20);
    check_ins(rt, array, b"abcdefgh", 18, 18);
    check_refused(rt, array, &TOO_LONG, HsError::TooLong);
    check_refused(rt, array, b"abcdefghj", HsError::Full);
}

// Writes a value through the slot of a key, if it is there, and answers whether it is.
fn write_slot(array: &mut JudyHs<Fnv1a>, key: &[u8], value: u64) -> bool {
    match array.slot(key) {
        Some(slot) => {
            *slot = value;
            true
        }
        None => false,
    }
}

#[test]
fn keys_at_the_edges_of_their_lengths(rt: HostRuntime) {
    let mut array = JudyHs::new(rt.alloc(), 4, Fnv1a);
    fill_edges(&rt, &mut array);
    check_value(&rt, &array, &TOO_LONG, None);
    check_del(&rt, &mut array, &TOO_LONG, false);
    same_number(&rt, array.limit(), 4);
    same_answer(&rt, write_slot(&mut array, &LONGEST, 21), true);
    check_value(&rt, &array, &LONGEST, Some(21));
    check_value(&rt, &array, b"abcdefghi", Some(19));
    check_value(&rt, &array, b"", Some(10));
    same_answer(&rt, write_slot(&mut array, b"abcdefghj", 0), false);
    check_del(&rt, &mut array, b"abcdefghi", true);
    no_group(&rt, &array, 9);
    check_ins(&rt, &mut array, b"abcdefghj", 0, 5);
}

// Keys of many lengths, two of eight bytes or fewer and five longer ones, by the order of a dump.
const ORDERED: [(&[u8], u64); 8] = [
    (b"", 1),
    (b"b", 2),
    (b"az", 3),
    (b"zzzzzzzz", 4),
    (b"abcdefghj", 5),
    (b"abcdefghk", 6),
    (b"bcdefghij", 7),
    (b"aaaaaaaaaa", 8),
];

// Puts them in in no order.
fn check_order<H: ByteHash + Drop>(rt: &impl Abort, alloc: Global, hasher: H) {
    let mut array = unlimited(alloc, hasher);
    check_sorted(rt, &array, &[]);
    for place in [3, 6, 0, 7, 4, 1, 5, 2usize] {
        let (key, value) = ORDERED[place];
        check_ins(rt, &mut array, key, 0, value);
    }
    check_sorted(rt, &array, &ORDERED);
}

#[test]
fn sorted_by_length_and_bytes(rt: HostRuntime) {
    check_order(&rt, rt.alloc(), Same);
    check_order(&rt, rt.alloc(), Fnv1a);
}

// Array `h` of the vector store-of-three.
#[test]
fn sorted_of_store_of_three(rt: HostRuntime) {
    let mut array = unlimited(rt.alloc(), Fnv1a);
    insert_all(&rt, &mut array, &[(b"b", 8), (&[0], 7), (b"", 9)]);
    check_sorted(&rt, &array, &[(b"", 9), (&[0], 7), (b"b", 8)]);
}

// Compares a hash with the one wanted.
fn check_hash(rt: &impl Abort, hasher: impl ByteHash + Drop, bytes: &[u8], wanted: u32) {
    assert_eq!(rt; hasher.hash(bytes), wanted);
}

#[test]
fn fnv1a_values(rt: HostRuntime) {
    check_hash(&rt, Fnv1a, b"", 0x811c9dc5);
    check_hash(&rt, Fnv1a, b"a", 0xe40c292c);
    check_hash(&rt, Fnv1a, b"foobar", 0xbf9cf968);
}

// Worked out apart from the code, by the rule: no word, one byte and six as words, and eight bytes, nine and seventeen
// by their words of eight, the last of which begins before the one before it ends.
const EIGHTS: [(&[u8], u32); 6] = [
    (b"", 0x84222325),
    (b"a", 0x6cfa84d4),
    (b"foobar", 0x2de16872),
    (b"foobarba", 0xd90baa5e),
    (b"foobarbaz", 0xe3ceaf05),
    (b"0123456789abcdefg", 0xc8a12769),
];

#[test]
fn eights_values(rt: HostRuntime) {
    for (bytes, hash) in EIGHTS {
        check_hash(&rt, Eights, bytes, hash);
    }
}
