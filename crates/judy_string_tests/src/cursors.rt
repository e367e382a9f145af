//! Rows of walks up through an array of strings: a cursor goes from key to key as the scans do.

use crate::check::{same_bytes, same_number, same_value};
use crate::judysl::{Scan, ask, buffer_of, unlimited};
use judy_sl::{JudySl, KeyBuf, KeyCursor, is_key};
use std::process::Abort;

// A cursor from some bytes on.
fn cursor_from<'a>(rt: &impl Abort, strings: &'a JudySl, from: &[u8]) -> KeyCursor<'a> {
    assert!(rt; is_key(from));
    strings.cursor(from)
}

// Compares a walk from some bytes on with scans, and answers how many keys it came to, 1,000 at most.
fn check_walk(rt: &impl Abort, strings: &JudySl, from: &[u8]) -> u64 {
    let mut key = buffer_of(rt, from);
    let mut cursor = cursor_from(rt, strings, from);
    let mut found = cursor.first();
    let mut wanted = ask(rt, strings, Scan::First, &mut key);
    for count in 0..1000 {
        same_value(rt, found, wanted);
        same_bytes(rt, cursor.key(), key.as_slice());
        if found.is_none() {
            return count;
        }
        found = cursor.next();
        wanted = ask(rt, strings, Scan::Next, &mut key);
    }
    1000
}

// Puts a key in, with a value.
pub(crate) fn put(rt: &impl Abort, strings: &mut JudySl, key: &[u8], value: u64) {
    match strings.ins(key) {
        Ok(slot) => *slot = value,
        Err(_) => assert!(rt; false),
    }
}

// The numbers that the keys are drawn by.
#[derive(Drop)]
pub(crate) struct Draws {
    pub(crate) seed: u64,
}

impl Draws {
    fn step(&mut self) {
        self.seed = self
            .seed
            .wrapping_mul(6_364_136_223_846_793_005)
            .wrapping_add(1_442_695_040_888_963_407);
    }

    // Mostly the last letter, so that keys share much.
    fn letter(&mut self) -> u8 {
        self.step();
        if self.seed >> 60 == 0 {
            b"ab\xff"[(self.seed >> 33) as usize % 3]
        } else {
            b'\xff'
        }
    }

    // A key of fewer than 36 letters.
    pub(crate) fn key(&mut self, rt: &impl Abort) -> KeyBuf {
        let mut key = KeyBuf::new();
        for _ in 0..self.seed % 36 {
            push(rt, &mut key, self.letter());
        }
        self.step();
        self.seed >>= 1;
        key
    }
}

// Adds a letter to a key.
fn push(rt: &impl Abort, key: &mut KeyBuf, letter: u8) {
    assert!(rt; key.try_push(letter).is_ok());
}

// Keys that share many pieces, some of them to their ends: in levels behind levels, and in tails.
#[test]
fn walks_go_as_scans(rt: HostRuntime) {
    let mut strings = unlimited(rt.alloc());
    same_number(&rt, check_walk(&rt, &strings, b""), 0);
    let mut draws = Draws { seed: 1 };
    for n in 0..300_u64 {
        let key = draws.key(&rt);
        put(&rt, &mut strings, key.as_slice(), n);
    }
    same_number(&rt, check_walk(&rt, &strings, b""), strings.len());
    check_walk(&rt, &strings, b"\xff\xff\xff\xff\xff\xff\xff\xff");
    check_walk(&rt, &strings, b"\xff\xff\xff\xff\xff\xff\xff\xffb");
    check_walk(&rt, &strings, b"b");
}
