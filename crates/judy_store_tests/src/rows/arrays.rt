//! Rows of arrays over words.

use super::check::{check_answers, check_len, check_lines, check_table};
use judy_shelf::{Array, Kind, Name, Shelf};
use judy_word::{InsertError, Judy1};
use std::process::Abort;

const EDGE_WORD: &[u8] = b"\
make a judy1 > ok
set a 18446744073709551615 > 1
next a 18446744073709551615 > none
ne a 18446744073709551615 > none
fe a 18446744073709551615 > none
le a 18446744073709551615 > 18446744073709551614
first a 0 > 18446744073709551615
prev a 0 > none
count a 0 18446744073709551615 > 1
test a 18446744073709551616 > error bad-word
";

#[test]
fn edge_word(rt: HostRuntime) {
    check_table(&rt, rt.alloc(), EDGE_WORD);
}

const COUNT_CORNERS: &[u8] = b"\
make a judy1 > ok
set a 3 > 1
set a 5 > 1
set a 9 > 1
count a 9 3 > 0
count a 3 9 > 3
count a 4 8 > 1
bycount a 0 > none
bycount a 3 > 9
bycount a 4 > none
make l judyl > ok
ins l 5 9 > was 0
first l 0 > 5 9
bycount l 1 > 5 9
";

#[test]
fn count_corners(rt: HostRuntime) {
    check_table(&rt, rt.alloc(), COUNT_CORNERS);
}

// Takes note that a word is put in.
fn put_in(rt: &impl Abort, added: Result<bool, InsertError>) {
    assert_eq!(rt; added, Ok(true));
}

// The judy1 array `a`.
fn set_a(shelf: &mut Shelf) -> Option<&mut Judy1> {
    match shelf.get_mut(&Name::new(b"a")?)? {
        Array::Judy1(set) => Some(set),
        _ => None,
    }
}

// Puts the words from `from` on, below `to`, into it.
fn fill(rt: &impl Abort, shelf: &mut Shelf, from: u64, to: u64) {
    match set_a(shelf) {
        Some(set) => {
            for word in from..to {
                put_in(rt, set.set(word));
            }
        }
        None => assert!(rt; false),
    }
}

const FULL_RANGES: &[u8] = b"\
fe a 0 > 256
ne a 255 > 256
le a 255 > none
pe a 256 > none
count a 10 20 > 11
bycount a 256 > 255
list > names a:judy1:256
";

#[test]
fn full_ranges(rt: HostRuntime) {
    let mut shelf = Shelf::new(rt.alloc());
    check_answers(&rt, &mut shelf, b"make a judy1", b"ok\n");
    fill(&rt, &mut shelf, 0, 256);
    check_lines(&rt, &mut shelf, FULL_RANGES);
    fill(&rt, &mut shelf, 256, 512);
    check_answers(&rt, &mut shelf, b"fe a 0", b"512\n");
}

const EVERY_COMMAND_OF_A_SET: &[u8] = b"\
make s judy1 > ok
test s 7 > 0
set s 7 > 1
set s 7 > 0
test s 7 > 1
test s 6 > 0
set s 9 > 1
first s 7 > 7
next s 7 > 9
last s 9 > 9
prev s 9 > 7
fe s 7 > 8
ne s 7 > 8
le s 9 > 8
pe s 7 > 6
unset s 7 > 1
unset s 7 > 0
count s 0 100 > 1
free s > freed 1
list > names s:judy1:0
drop s > freed 0
list > names
";

const EVERY_COMMAND_OF_A_MAP: &[u8] = b"\
make l judyl > ok
ins l 7 70 > was 0
ins l 9 90 > was 0
ins l 7 71 > was 70
get l 7 > 71
get l 8 > none
put l 9 91 > was 90
first l 8 > 9 91
next l 7 > 9 91
last l 8 > 7 71
prev l 9 > 7 71
prev l 7 > none
fe l 7 > 8
ne l 8 > 10
le l 7 > 6
pe l 9 > 8
count l 7 9 > 2
bycount l 2 > 9 91
del l 7 > 1
del l 7 > 0
get l 7 > none
list > names l:judyl:1
drop l > freed 1
list > names
";

// Each command of a set and of a map, by what it answers before and after a change.
#[test]
fn every_command(rt: HostRuntime) {
    for table in [EVERY_COMMAND_OF_A_SET, EVERY_COMMAND_OF_A_MAP] {
        check_table(&rt, rt.alloc(), table);
    }
}

const LISTING: &[u8] = b"\
list > names
make a judyl > ok
make b judyl > ok
drop a > freed 0
make a judy1 > ok
list > names b:judyl:0 a:judy1:0
make h judyhs > ok
make s judysl > ok
ins s = 1 > was 0
list > names b:judyl:0 a:judy1:0 h:judyhs:0 s:judysl:1
drop h > freed 0
drop s > freed 1
";

#[test]
fn listing(rt: HostRuntime) {
    let mut shelf = check_table(&rt, rt.alloc(), LISTING);
    make_62_more(&rt, &mut shelf);
    check_64(&rt, &mut shelf);
}

// Arrays of all other names of one byte than `a` and `b`.
fn make_62_more(rt: &impl Abort, shelf: &mut Shelf) {
    for name in b"cdefghijklmnopqrstuvwxyzABCDEFGHIJKLMNOPQRSTUVWXYZ0123456789-_" {
        make(rt, shelf, &[*name]);
    }
}

const CHECK_64: &[u8] = b"\
make new judyl > error too-many-arrays
make a judyl > error exists
make new judyl 0 > error bad-limit
make new judyl x > error bad-word
make new judy2 > error wrong-kind
make n! judyl > error bad-name
";

// Each other refusal of `make` comes before that of the 65th array.
fn check_64(rt: &impl Abort, shelf: &mut Shelf) {
    check_len(rt, shelf, 64);
    check_lines(rt, shelf, CHECK_64);
}

fn make(rt: &impl Abort, shelf: &mut Shelf, name: &[u8]) {
    match Name::new(name) {
        Some(name) => assert!(rt; shelf.make(name, Kind::JudyL, 1).is_ok()),
        None => assert!(rt; false),
    }
}
