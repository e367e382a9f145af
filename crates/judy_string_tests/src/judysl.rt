//! Rows of arrays over strings, by the calls of the array.

use crate::check::{same_answer, same_bytes, same_number, same_value, write_over};
use judy_sl::{JudySl, KeyBuf, SlError, is_key};
use judy_word::JudyL;
use std::alloc::Global;
use std::process::Abort;

/// The four scans.
#[derive(Clone, Copy)]
pub(crate) enum Scan {
    First,
    Next,
    Last,
    Prev,
}

/// An array with no key and the greatest limit.
pub(crate) fn unlimited(alloc: Global) -> JudySl {
    JudySl::new(alloc, 4_294_967_295)
}

/// A buffer with some bytes in it.
pub(crate) fn buffer_of(rt: &impl Abort, bytes: &[u8]) -> KeyBuf {
    let mut key = KeyBuf::new();
    assert!(rt; key.try_extend_from_slice(bytes).is_ok());
    key
}

/// What a scan from the bytes in the buffer answers.
pub(crate) fn ask(rt: &impl Abort, strings: &JudySl, by: Scan, key: &mut KeyBuf) -> Option<u64> {
    assert!(rt; is_key(key.as_slice()));
    match by {
        Scan::First => strings.first(key),
        Scan::Next => strings.next(key),
        Scan::Last => strings.last(key),
        Scan::Prev => strings.prev(key),
    }
}

// Puts a key in that had a value, 0 where it was absent, and gives it another.
fn replace(rt: &impl Abort, strings: &mut JudySl, key: &[u8], before: u64, value: u64) {
    match strings.ins(key) {
        Ok(slot) => write_over(rt, slot, before, value),
        Err(_) => assert!(rt; false),
    }
}

// Puts absent keys in, with their values.
fn insert_all(rt: &impl Abort, strings: &mut JudySl, entries: &[(&[u8], u64)]) {
    for (key, value) in entries {
        replace(rt, strings, key, 0, *value);
    }
}

// Takes note that bytes are refused as a key, and why.
fn check_refused(rt: &impl Abort, strings: &mut JudySl, key: &[u8], wanted: SlError) {
    match strings.ins(key) {
        Ok(_) => assert!(rt; false),
        Err(refusal) => assert_eq!(rt; refusal, wanted),
    }
}

// Compares the value of a key with the one wanted.
fn check_value(rt: &impl Abort, strings: &JudySl, key: &[u8], wanted: Option<u64>) {
    same_value(rt, strings.get(key), wanted);
}

// Takes a key out, and compares whether it was there.
fn check_del(rt: &impl Abort, strings: &mut JudySl, key: &[u8], wanted: bool) {
    same_answer(rt, strings.del(key), wanted);
}

// Compares how many keys there are with how many are wanted.
fn check_len(rt: &impl Abort, strings: &JudySl, wanted: u64) {
    same_number(rt, strings.len(), wanted);
}

// Compares what a scan from some bytes leaves in the buffer, and what it answers.
fn check_scan(
    rt: &impl Abort,
    strings: &JudySl,
    from: &[u8],
    by: Scan,
    found: Option<(&[u8], u64)>,
) {
    let mut key = buffer_of(rt, from);
    let value = ask(rt, strings, by, &mut key);
    let (neighbour, held) = match found {
        Some((neighbour, held)) => (neighbour, Some(held)),
        None => (from, None),
    };
    same_value(rt, value, held);
    same_bytes(rt, key.as_slice(), neighbour);
}

// The level behind some bytes, which is there.
fn check_level(rt: &impl Abort, strings: &JudySl, at: &[u8], pieces: &[u64]) {
    assert!(rt; is_key(at) && at.len() % 8 == 0);
    match strings.level(at) {
        Some(level) => check_pieces(rt, level, pieces),
        None => assert!(rt; false),
    }
}

// Compares the pieces of a level.
fn check_pieces(rt: &impl Abort, level: &JudyL, pieces: &[u64]) {
    let mut found = level.first(0);
    for piece in pieces {
        same_value(rt, found, Some(*piece));
        found = level.next(*piece);
    }
    same_value(rt, found, None);
}

// The keys of the row, in the order in which they are put in.
const OF_ORDER: [(&[u8], u64); 6] = [
    (b"\xff", 6),
    (b"abcdefgh", 3),
    (b"", 1),
    (b"zz", 5),
    (b"abcdefghi", 4),
    (b"abcdefg", 2),
];

const SCANS: [(&[u8], Scan, Option<(&[u8], u64)>); 9] = [
    (b"", Scan::First, Some((b"", 1))),
    (b"", Scan::Next, Some((b"abcdefg", 2))),
    (b"abcdefg", Scan::Next, Some((b"abcdefgh", 3))),
    (b"abcdefgh", Scan::Next, Some((b"abcdefghi", 4))),
    (b"abcdefghi", Scan::Next, Some((b"zz", 5))),
    (b"zz", Scan::Next, Some((b"\xff", 6))),
    (b"\xff", Scan::Next, None),
    (b"", Scan::Prev, None),
    (b"\xff\xff", Scan::Last, Some((b"\xff", 6))),
];

// The values of the pieces behind the first eight bytes.
fn check_values_behind(rt: &impl Abort, strings: &JudySl, at: &[u8]) {
    assert!(rt; is_key(at) && at.len() % 8 == 0);
    match strings.level(at) {
        Some(level) => {
            same_number(rt, level.len(), 2);
            same_value(rt, level.get(0), Some(3));
            same_value(rt, level.get(0x6900_0000_0000_0000), Some(4));
        }
        None => assert!(rt; false),
    }
}

#[test]
fn string_order(rt: HostRuntime) {
    let mut strings = unlimited(rt.alloc());
    insert_all(&rt, &mut strings, &OF_ORDER);
    for (from, by, found) in SCANS {
        check_scan(&rt, &strings, from, by, found);
    }
    check_values_behind(&rt, &strings, b"abcdefgh");
}

const TOO_LONG: [u8; 1025] = [b'a'; 1025];

#[test]
fn bad_keys(rt: HostRuntime) {
    let mut strings = JudySl::new(rt.alloc(), 1);
    insert_all(&rt, &mut strings, &[(b"abcdefghij", 7)]);
    check_refused(&rt, &mut strings, b"\0", SlError::BadKey);
    check_refused(&rt, &mut strings, &TOO_LONG, SlError::BadKey);
    check_refused(&rt, &mut strings, &TOO_LONG[..1024], SlError::Full);
    check_value(&rt, &strings, b"\0", None);
    check_value(&rt, &strings, &TOO_LONG, None);
    check_del(&rt, &mut strings, b"\0", false);
    check_del(&rt, &mut strings, &TOO_LONG, false);
    check_value(&rt, &strings, b"abcdefghij", Some(7));
    check_len(&rt, &strings, 1);
    same_number(&rt, strings.free_array(), 1);
    check_value(&rt, &strings, b"abcdefghij", None);
}

const WITH_ZEROS: [&[u8]; 9] = [
    b"\0",
    b"\0\0\0\0\0\0\0\0",
    b"\0\0\0\0\0\0\0\0a",
    b"abcdefg\0",
    b"abcdefg\0hij",
    b"abcdefgh\0",
    b"abcdefghij\0",
    b"abcdefgh\0ij",
    b"abcd\0fghij",
];

// Bytes that are no key have no value and no slot, and aren't put in.
fn check_no_key(rt: &impl Abort, strings: &mut JudySl, bytes: &[u8]) {
    check_value(rt, strings, bytes, None);
    same_answer(rt, strings.slot(bytes).is_none(), true);
    check_refused(rt, strings, bytes, SlError::BadKey);
}

// Bytes with a zero are no key, wherever it stands, though a key begins with what comes before it.
#[test]
fn bytes_with_zeros(rt: HostRuntime) {
    let mut strings = unlimited(rt.alloc());
    let held: [(&[u8], u64); 4] = [
        (b"", 1),
        (b"abcdefg", 2),
        (b"abcdefgh", 3),
        (b"abcdefghij", 4),
    ];
    insert_all(&rt, &mut strings, &held);
    for bytes in WITH_ZEROS {
        check_no_key(&rt, &mut strings, bytes);
    }
    check_len(&rt, &strings, 4);
}

// The greatest length of which all letters but the last are the same.
fn ending_in(last: u8) -> [u8; 1024] {
    let mut key = [b'a'; 1024];
    key[1023] = last;
    key
}

// The part of the row on JudySL: keys of the greatest length that share all bytes but the last.
fn check_long_keys(rt: &impl Abort, strings: &mut JudySl, p: &[u8; 1024], q: &[u8; 1024]) {
    insert_all(rt, strings, &[(p, 1), (q, 2)]);
    check_scan(rt, strings, p, Scan::Next, Some((q, 2)));
    check_scan(rt, strings, &p[..1023], Scan::Next, Some((p, 1)));
    check_value(rt, strings, p, Some(1));
    check_value(rt, strings, &p[..1023], None);
    strings.array_law();
    check_len(rt, strings, 2);
}

// They are taken out, the second first.
fn check_long_dels(rt: &impl Abort, strings: &mut JudySl, p: &[u8; 1024], q: &[u8; 1024]) {
    check_del(rt, strings, &p[..1023], false);
    check_del(rt, strings, q, true);
    check_value(rt, strings, q, None);
    check_value(rt, strings, p, Some(1));
    check_del(rt, strings, p, true);
    check_scan(rt, strings, b"", Scan::First, None);
}

#[test]
fn long_keys_and_one_hash(rt: HostRuntime) {
    let mut strings = unlimited(rt.alloc());
    let p = ending_in(b'b');
    let q = ending_in(b'c');
    check_long_keys(&rt, &mut strings, &p, &q);
    check_long_dels(&rt, &mut strings, &p, &q);
}

// The part of the row with ample memory.
#[test]
fn refused_string_insert(rt: HostRuntime) {
    let mut strings = unlimited(rt.alloc());
    insert_all(&rt, &mut strings, &[(b"abcdefgh", 3)]);
    check_value(&rt, &strings, b"abcdefghi", None);
    insert_all(&rt, &mut strings, &[(b"abcdefghi", 4)]);
    check_value(&rt, &strings, b"abcdefgh", Some(3));
    check_value(&rt, &strings, b"abcdefghi", Some(4));
    check_len(&rt, &strings, 2);
}

const SPLIT: [(&[u8], u64); 4] = [
    (b"abcdefghijklmnopqrstuvwxyz", 1),
    (b"abcdefghijklmnopqrstuvwxy", 2),
    (b"abcdefghijklmnop", 3),
    (b"abcdefgh........", 4),
];

// Tails are split in the first level and behind shared pieces.
#[test]
fn tails_split(rt: HostRuntime) {
    let mut strings = unlimited(rt.alloc());
    insert_all(&rt, &mut strings, &SPLIT);
    for (key, value) in SPLIT {
        check_value(&rt, &strings, key, Some(value));
        replace(&rt, &mut strings, key, value, value);
    }
    check_value(&rt, &strings, b"abcdefgh", None);
}

const OF_PIECES: [(&[u8], u64); 5] = [
    (b"", 1),
    (b"abc", 1),
    (b"abcdefg", 1),
    (b"abcdefgh", 1),
    (b"abcdefghi", 1),
];

// The first pieces of these keys.
const FIRST_PIECES: [u64; 4] = [
    0,
    0x6162_6300_0000_0000,
    0x6162_6364_6566_6700,
    0x6162_6364_6566_6768,
];

// The first pieces of the keys, and those behind a whole one, as the levels show them.
#[test]
fn pieces_of_keys(rt: HostRuntime) {
    let mut strings = unlimited(rt.alloc());
    insert_all(&rt, &mut strings, &OF_PIECES);
    check_level(&rt, &strings, b"", &FIRST_PIECES);
    check_level(&rt, &strings, b"abcdefgh", &[0, 0x6900_0000_0000_0000]);
}

// The number drawn behind another.
fn drawn(state: u64) -> u64 {
    state.wrapping_mul(1_103_515_245).wrapping_add(12_345) % 2_147_483_648
}

// Puts the key of some bits in or takes it out, as the number drawn says, and notes it in the table.
fn change(rt: &impl Abort, strings: &mut JudySl, table: &mut [u64; 4096], state: u64, value: u64) {
    let bits = (state / 65_536 % 16 + state / 1_048_576 % 8 * 512) as usize;
    let whole = letters(bits);
    let key = trimmed(&whole);
    if state / 16_777_216 % 2 == 0 {
        check_del(rt, strings, key, table[bits] != 0);
        table[bits] = 0;
    } else {
        replace(rt, strings, key, table[bits], value);
        table[bits] = value;
    }
}

// Takes all keys out that the table has.
fn delete_table(rt: &impl Abort, strings: &mut JudySl, table: &[u64; 4096]) {
    for (bits, value) in table.iter().enumerate() {
        check_del(rt, strings, trimmed(&letters(bits)), *value != 0);
    }
}

// Random keys that come and go, some of which end where others go on, against a table of those that are there.
#[test]
fn random_keys(rt: HostRuntime) {
    let mut strings = unlimited(rt.alloc());
    let mut table = [0u64; 4096];
    let mut state: u64 = 12345;
    for value in 1..3000 {
        state = drawn(state);
        change(&rt, &mut strings, &mut table, state, value);
        if value % 500 == 0 {
            check_table(&rt, &strings, &table);
        }
    }
    delete_table(&rt, &mut strings, &table);
    check_empty(&rt, &strings);
}

// Compares an array with the table of the values of all keys, where 0 stands for none.
fn check_table(rt: &impl Abort, strings: &JudySl, table: &[u64; 4096]) {
    let mut before: Option<[u8; 20]> = None;
    let mut count = 0u64;
    for (bits, value) in table.iter().enumerate() {
        let whole = letters(bits);
        check_held(rt, strings, &whole, *value);
        if *value != 0 {
            check_behind(rt, strings, before, (trimmed(&whole), *value));
            before = Some(whole);
            count = count.wrapping_add(1);
        }
    }
    check_len(rt, strings, count);
}

// Compares the value of a key, where 0 stands for none.
fn check_held(rt: &impl Abort, strings: &JudySl, whole: &[u8; 20], value: u64) {
    same_number(rt, strings.get(trimmed(whole)).unwrap_or(0), value);
}

// The next key behind another is the one wanted, or it is the first.
fn check_behind(rt: &impl Abort, strings: &JudySl, before: Option<[u8; 20]>, entry: (&[u8], u64)) {
    match before {
        Some(last) => check_scan(rt, strings, trimmed(&last), Scan::Next, Some(entry)),
        None => check_scan(rt, strings, b"", Scan::First, Some(entry)),
    }
}

// No level is left but the first, and that is empty.
fn check_empty(rt: &impl Abort, strings: &JudySl) {
    same_answer(rt, strings.is_empty(), true);
    check_level(rt, strings, b"", &[]);
    assert!(rt; is_key(b"ssssssss"));
    same_answer(rt, strings.level(b"ssssssss").is_none(), true);
}

// A key without the letters a at its end.
fn trimmed(key: &[u8; 20]) -> &[u8] {
    let mut kept = &key[..8];
    for place in 8..20 {
        if key[place] != b'a' {
            kept = &key[..=place];
        }
    }
    kept
}

// Twelve bits as letters behind a stem of eight, the highest first.
fn letters(bits: usize) -> [u8; 20] {
    let mut key = [b's'; 20];
    let mut rest = bits;
    for place in 0..12 {
        key[19 - place] = b'a' + (rest % 2) as u8;
        rest /= 2;
    }
    key
}
