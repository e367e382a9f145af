//! Rows of dumps: the bytes of a store, the faults of bytes that are none, and pipes that fail.

use super::check::check_answers;
use super::dump_checks::{
    Format, check_all_changed, check_bytes, check_change, check_cut_off, check_dump, check_failing,
    check_load, check_reload, loaded,
};
use judy_pipe::{MemSink, SinkTrouble, SourceTrouble};
use judy_shelf::{Array, DumpFault, LoadFault, Name, Shelf, dump};
use judy_word::InsertError;
use std::alloc::Global;
use std::process::Abort;

// The dump of the judy1 array `a`, which holds 1 and has the greatest limit.
const SMALLEST: &[u8; 35] =
    b"JDY1\x00\x00\x00\x01\x01a\x01\x00\x00\x00\x00\xff\xff\xff\xff\x00\x00\x00\x00\x00\x00\x00\x01\x00\x00\x00\x00\x00\x00\x00\x01";

// The shelf of which it is the dump.
fn smallest(rt: &impl Abort, alloc: Global) -> Shelf {
    let mut shelf = Shelf::new(alloc);
    check_answers(rt, &mut shelf, b"make a judy1\nset a 1\n", b"ok\n1\n");
    shelf
}

#[test]
fn smallest_dumps(rt: HostRuntime) {
    let empty = b"JDY1\x00\x00\x00\x00";
    check_bytes(&rt, &Shelf::new(rt.alloc()), Format::First, empty);
    check_bytes(&rt, &smallest(&rt, rt.alloc()), Format::First, SMALLEST);
    check_reload(&rt, rt.alloc(), Format::First, SMALLEST, 1);
}

#[test]
fn failing_at_each_byte(rt: HostRuntime) {
    let shelf = smallest(&rt, rt.alloc());
    check_failing(&rt, rt.alloc(), &shelf, Format::First, SMALLEST);
}

#[test]
fn interrupted_dumps(rt: HostRuntime) {
    let shelf = smallest(&rt, rt.alloc());
    let at = 20;
    let less = SinkTrouble::Interrupts { at, times: 999 };
    check_dump(&rt, &shelf, Format::First, less, Ok(()), SMALLEST);
    let more = SinkTrouble::Interrupts { at, times: 1000 };
    let fault = Err(DumpFault::Write);
    check_dump(&rt, &shelf, Format::First, more, fault, &SMALLEST[..at]);
    for (times, fault) in [(999, None), (1000, Some(LoadFault::Read))] {
        let trouble = SourceTrouble::Interrupts { at, times };
        check_load(&rt, rt.alloc(), SMALLEST, trouble, fault);
    }
}

// A judyl array, a judysl array of three places and a judyhs array, made in no order of their keys.
const STORE_OF_THREE: &[u8] =
    b"make l judyl\nins l 5 9\nmake s judysl 3\nins s =ab 2\nins s = 1\nmake h judyhs\nins h =b 8\nins h #00 7\nins h # 9\n";

const DUMP_OF_THREE: &[u8; 135] =
    b"JDY1\x00\x00\x00\x03\x01l\x02\x00\x00\x00\x00\xff\xff\xff\xff\x00\x00\x00\x00\x00\x00\x00\x01\x00\x00\x00\x00\x00\x00\x00\x05\x00\x00\x00\x00\x00\x00\x00\x09\x01s\x03\x00\x00\x00\x00\x00\x00\x00\x03\x00\x00\x00\x00\x00\x00\x00\x02\x00\x00\x00\x00\x00\x00\x00\x00\x00\x01\x00\x02ab\x00\x00\x00\x00\x00\x00\x00\x02\x01h\x04\x00\x00\x00\x00\xff\xff\xff\xff\x00\x00\x00\x00\x00\x00\x00\x03\x00\x00\x00\x00\x00\x00\x00\x00\x00\x09\x00\x01\x00\x00\x00\x00\x00\x00\x00\x00\x07\x00\x01b\x00\x00\x00\x00\x00\x00\x00\x08";

/// The shelf of which it is the dump.
pub fn store_of_three(rt: &impl Abort, alloc: Global) -> Shelf {
    let mut shelf = Shelf::new(alloc);
    let answers = b"ok\nwas 0\nok\nwas 0\nwas 0\nok\nwas 0\nwas 0\nwas 0\n";
    check_answers(rt, &mut shelf, STORE_OF_THREE, answers);
    shelf
}

// With `smallest_dumps` this is also what row refused-dump-load-make gives while there is memory. The wrong body
// load-always-no-memory, a `load` that answers want of memory wherever a dump has an array, meets each contract; this
// test and `dump_faults` refuse it.
#[test]
fn dump_and_sorted(rt: HostRuntime) {
    let shelf = store_of_three(&rt, rt.alloc());
    check_bytes(&rt, &shelf, Format::First, DUMP_OF_THREE);
    check_reload(&rt, rt.alloc(), Format::First, DUMP_OF_THREE, 64);
}

// Other bytes in the place of those of a dump from one place up to another, with the fault of what that gives.
// In the dump of three the number of arrays ends at byte 7, the number of keys of `l` at byte 26.
const CHANGES: [(&[u8], usize, usize, &[u8], LoadFault); 23] = [
    (SMALLEST, 0, 35, b"", LoadFault::Truncated),
    (SMALLEST, 0, 35, b"JDY3\0\0\0\0", LoadFault::BadMagic),
    (SMALLEST, 0, 1, b"K", LoadFault::BadMagic),
    (SMALLEST, 4, 35, b"\0\0\0A", LoadFault::TooMany),
    (SMALLEST, 35, 35, b"\0", LoadFault::Trailing),
    (SMALLEST, 8, 35, b"\0", LoadFault::BadName),
    (SMALLEST, 8, 35, b"!", LoadFault::BadName),
    (SMALLEST, 9, 35, b"!", LoadFault::BadName),
    (SMALLEST, 10, 35, b"\x05", LoadFault::BadKind),
    (SMALLEST, 11, 35, b"\0\0\0\0\0\0\0\0", LoadFault::BadLimit),
    (SMALLEST, 19, 35, b"\0\0\0\x01\0\0\0\0", LoadFault::BadCount),
    (DUMP_OF_THREE, 62, 64, b"\x04\x01", LoadFault::BadKey),
    (DUMP_OF_THREE, 75, 76, b"\0", LoadFault::BadKey),
    (DUMP_OF_THREE, 126, 127, b"\0", LoadFault::BadOrder),
    (DUMP_OF_THREE, 44, 45, b"l", LoadFault::SameName),
    (DUMP_OF_THREE, 7, 8, b"\x02", LoadFault::Trailing),
    (DUMP_OF_THREE, 7, 8, b"\x04", LoadFault::Truncated),
    (DUMP_OF_THREE, 26, 27, b"\x02", LoadFault::BadName),
    (DUMP_OF_THREE, 26, 27, b"\0", LoadFault::BadName),
    (
        DUMP_OF_THREE,
        46,
        54,
        b"\0\0\0\0\0\0\0\x01",
        LoadFault::BadCount,
    ),
    (
        SMALLEST,
        19,
        35,
        b"\0\0\0\0\0\0\0\x02\0\0\0\0\0\0\0\x02\0\0\0\0\0\0\0\x01",
        LoadFault::BadOrder,
    ),
    (
        SMALLEST,
        19,
        35,
        b"\0\0\0\0\0\0\0\x02\0\0\0\0\0\0\0\x01\0\0\0\0\0\0\0\x01",
        LoadFault::BadOrder,
    ),
    (
        SMALLEST,
        4,
        35,
        b"\0\0\0\x02\x01a\x01\0\0\0\0\xff\xff\xff\xff\0\0\0\0\0\0\0\0\x01a",
        LoadFault::SameName,
    ),
];

#[test]
fn dump_faults(rt: HostRuntime) {
    for (dump, from, to, bytes, fault) in CHANGES {
        check_change(&rt, rt.alloc(), dump, from, to, bytes, fault);
    }
}

#[test]
fn changed_dumps(rt: HostRuntime) {
    check_cut_off(&rt, rt.alloc(), SMALLEST);
    check_cut_off(&rt, rt.alloc(), DUMP_OF_THREE);
    check_all_changed(&rt, rt.alloc(), Format::First, DUMP_OF_THREE);
}

// Compares whether a call puts a word in with what is wanted.
fn put_in(rt: &impl Abort, found: Result<bool, InsertError>) {
    assert_eq!(rt; found, Ok(true));
}

// Puts a word into an array over words.
fn put_word(rt: &impl Abort, shelf: &mut Shelf, name: &[u8], word: u64) {
    let added = match Name::new(name) {
        Some(name) => match shelf.get_mut(&name) {
            Some(Array::Judy1(set)) => set.set(word),
            Some(Array::JudyL(words)) => words.put(word, !word),
            _ => Ok(false),
        },
        None => Ok(false),
    };
    put_in(rt, added);
}

// Whether an array over words is loose, and how many bitmap leaves it has.
fn nodes_of(shelf: &Shelf, name: &[u8]) -> Option<(bool, u128)> {
    match shelf.get(&Name::new(name)?)? {
        Array::Judy1(set) => Some((set.is_loose(), set.shape().bitmap_leaves)),
        Array::JudyL(words) => Some((words.is_loose(), words.shape().bitmap_leaves)),
        Array::JudySl(_) => None,
        Array::JudyHs(_) => None,
    }
}

// Compares the nodes of both arrays: they aren't loose.
fn check_nodes(rt: &impl Abort, shelf: &Shelf, bitmap_leaves: u128) {
    for name in [b"a", b"l"] {
        assert_eq!(rt; nodes_of(shelf, name), Some((false, bitmap_leaves)));
    }
}

// Two arrays of so many words.
fn two_of(rt: &impl Abort, alloc: Global, count: u64) -> Shelf {
    let mut shelf = Shelf::new(alloc);
    check_answers(rt, &mut shelf, b"make a judy1\nmake l judyl\n", b"ok\nok\n");
    for word in 0..count {
        put_word(rt, &mut shelf, b"a", word);
        put_word(rt, &mut shelf, b"l", word);
    }
    shelf
}

// Dumps and loads two arrays of so many words, and asks both for their nodes.
fn check_loaded(rt: &impl Abort, alloc: Global, count: u64, bitmap_leaves: u128) {
    let shelf = two_of(rt, alloc, count);
    let mut sink = MemSink::<8192>::new(8192, SinkTrouble::Never);
    assert!(rt; dump(&shelf, &mut sink).is_ok());
    match loaded(rt, alloc, sink.bytes(), 64) {
        Some(again) => check_nodes(rt, &again, bitmap_leaves),
        None => assert!(rt; false),
    }
}

#[test]
fn loaded_arrays_are_tight(rt: HostRuntime) {
    check_loaded(&rt, rt.alloc(), 33, 1);
    check_loaded(&rt, rt.alloc(), 300, 2);
}
