//! Rows of dumps in the second format, in which a key of a judysl array is told by the one before it.

use super::check::check_answers;
use super::dump_checks::{
    Format, check_all_changed, check_bytes, check_change, check_cut_off, check_failing,
    check_fault, check_reload, loaded,
};
use super::dumps::store_of_three;
use judy_shelf::{LoadFault, Shelf};
use std::alloc::Global;
use std::process::Abort;

// A judysl array of three places with the empty key, `ab` and `abc`.
const THREE_PREFIXES: &[u8] = b"make s judysl 3\nins s = 1\nins s =ab 2\nins s =abc 3\n";

// Its dump in the first format.
const FIRST: &[u8; 62] =
    b"JDY1\x00\x00\x00\x01\x01s\x03\x00\x00\x00\x00\x00\x00\x00\x03\x00\x00\x00\x00\x00\x00\x00\x03\x00\x00\x00\x00\x00\x00\x00\x00\x00\x01\x00\x02ab\x00\x00\x00\x00\x00\x00\x00\x02\x00\x03abc\x00\x00\x00\x00\x00\x00\x00\x03";

// And in the second: each key behind the length of what it shares with the one before.
const SECOND: &[u8; 66] =
    b"JDY2\x00\x00\x00\x01\x01s\x03\x00\x00\x00\x00\x00\x00\x00\x03\x00\x00\x00\x00\x00\x00\x00\x03\x00\x00\x00\x00\x00\x00\x00\x00\x00\x00\x00\x01\x00\x00\x00\x02ab\x00\x00\x00\x00\x00\x00\x00\x02\x00\x02\x00\x01c\x00\x00\x00\x00\x00\x00\x00\x03";

// Where the last entry of `SECOND` begins.
const LAST_ENTRY: usize = 53;

// The dump of the store of three in the second format.
const SECOND_OF_THREE: &[u8; 139] =
    b"JDY2\x00\x00\x00\x03\x01l\x02\x00\x00\x00\x00\xff\xff\xff\xff\x00\x00\x00\x00\x00\x00\x00\x01\x00\x00\x00\x00\x00\x00\x00\x05\x00\x00\x00\x00\x00\x00\x00\x09\x01s\x03\x00\x00\x00\x00\x00\x00\x00\x03\x00\x00\x00\x00\x00\x00\x00\x02\x00\x00\x00\x00\x00\x00\x00\x00\x00\x00\x00\x01\x00\x00\x00\x02ab\x00\x00\x00\x00\x00\x00\x00\x02\x01h\x04\x00\x00\x00\x00\xff\xff\xff\xff\x00\x00\x00\x00\x00\x00\x00\x03\x00\x00\x00\x00\x00\x00\x00\x00\x00\x09\x00\x01\x00\x00\x00\x00\x00\x00\x00\x00\x07\x00\x01b\x00\x00\x00\x00\x00\x00\x00\x08";

// The shelf that the script of `THREE_PREFIXES` makes.
fn three_prefixes(rt: &impl Abort, alloc: Global) -> Shelf {
    let mut shelf = Shelf::new(alloc);
    check_answers(rt, &mut shelf, THREE_PREFIXES, b"ok\nwas 0\nwas 0\nwas 0\n");
    shelf
}

#[test]
fn second_format(rt: HostRuntime) {
    let shelf = three_prefixes(&rt, rt.alloc());
    check_bytes(&rt, &shelf, Format::First, FIRST);
    check_bytes(&rt, &shelf, Format::Second, SECOND);
    check_cut_off(&rt, rt.alloc(), SECOND);
    let empty = b"JDY2\x00\x00\x00\x00";
    check_bytes(&rt, &Shelf::new(rt.alloc()), Format::Second, empty);
    check_fault(&rt, rt.alloc(), b"JDY3", LoadFault::BadMagic);
    check_failing(&rt, rt.alloc(), &shelf, Format::Second, SECOND);
}

// Loads a dump in either format, and dumps what it gives in both.
fn check_both(rt: &impl Abort, alloc: Global, bytes: &[u8]) {
    match loaded(rt, alloc, bytes, 1) {
        Some(shelf) => {
            check_bytes(rt, &shelf, Format::First, FIRST);
            check_bytes(rt, &shelf, Format::Second, SECOND);
        }
        None => assert!(rt; false),
    }
}

// A store in the first format is dumped in the second, and that one in the first again.
#[test]
fn migration(rt: HostRuntime) {
    check_both(&rt, rt.alloc(), FIRST);
    check_both(&rt, rt.alloc(), SECOND);
}

// Last entries that are none, with their fault.
const FAULTY_ENTRIES: [(&[u8], LoadFault); 5] = [
    (
        b"\x00\x00\x00\x03abc\x00\x00\x00\x00\x00\x00\x00\x03",
        LoadFault::BadPrefix,
    ),
    (b"\x00\x03\x00\x00", LoadFault::BadPrefix),
    (b"\x00\x02\x00\x00", LoadFault::BadOrder),
    (b"\x00\x02\x00\x01\x00", LoadFault::BadKey),
    (b"\x00\x02\x03\xff", LoadFault::BadKey),
];

// Each of them, and a first key that is told to share a byte.
#[test]
fn prefix_faults(rt: HostRuntime) {
    for (entry, fault) in FAULTY_ENTRIES {
        check_change(&rt, rt.alloc(), SECOND, LAST_ENTRY, 66, entry, fault);
    }
    let shares = LoadFault::BadPrefix;
    check_change(&rt, rt.alloc(), SECOND, 28, 29, b"\x01", shares);
}

// The store of three is dumped in the second format, which is loaded and dumped as the same bytes.
#[test]
fn second_format_of_three(rt: HostRuntime) {
    let shelf = store_of_three(&rt, rt.alloc());
    check_bytes(&rt, &shelf, Format::Second, SECOND_OF_THREE);
    check_reload(&rt, rt.alloc(), Format::Second, SECOND_OF_THREE, 64);
}

// Other numbers of arrays in the place of three, and of keys of `l` in the place of one: from one place up to another.
const OTHER_COUNTS: [(usize, usize, &[u8], LoadFault); 4] = [
    (7, 8, b"\x02", LoadFault::Trailing),
    (7, 8, b"\x04", LoadFault::Truncated),
    (26, 27, b"\x02", LoadFault::BadName),
    (26, 27, b"\0", LoadFault::BadName),
];

#[test]
fn second_format_changed_counts(rt: HostRuntime) {
    for (from, to, count, fault) in OTHER_COUNTS {
        check_change(&rt, rt.alloc(), SECOND_OF_THREE, from, to, count, fault);
    }
}

#[test]
fn second_format_changed_dumps(rt: HostRuntime) {
    check_all_changed(&rt, rt.alloc(), Format::Second, SECOND);
    check_all_changed(&rt, rt.alloc(), Format::Second, SECOND_OF_THREE);
    check_cut_off(&rt, rt.alloc(), SECOND_OF_THREE);
}
