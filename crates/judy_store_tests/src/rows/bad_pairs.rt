//! Lines with two bad arguments or more: the first refusal in the order of the refusals is the answer. Each command is
//! tried with each pair of its arguments that can be bad.

use super::check::{check_answers, check_len};
use judy_shelf::Shelf;
use std::alloc::Global;
use std::process::Abort;

// Commands, or lists of arguments.
type Texts = &'static [&'static [u8]];

// The commands of one key or word.
const OF_ONE: Texts = &[
    b"set", b"unset", b"test", b"get", b"del", b"first", b"next", b"last", b"prev", b"fe", b"ne",
    b"le", b"pe", b"bycount",
];

// The commands of two.
const OF_TWO: Texts = &[b"ins", b"put", b"count"];

// The commands of sets, those of one key and of a key and a value that maps have, and the neighbours of a key.
const OF_SETS: Texts = &[b"set", b"unset", b"test"];

const OF_KEYS: Texts = &[b"get", b"del"];

const OF_VALUES: Texts = &[b"ins", b"put"];

const NEIGHBOURS: Texts = &[b"first", b"next", b"last", b"prev"];

// What only arrays over words have.
const EMPTIES: Texts = &[b"fe", b"ne", b"le", b"pe"];

const MAKE: Texts = &[b"make"];

const INS: Texts = &[b"ins"];

const COUNT: Texts = &[b"count"];

const BY_COUNT: Texts = &[b"bycount"];

// Runs a command with a list of arguments, and compares its answer with the one wanted.
fn check_line(rt: &impl Abort, shelf: &mut Shelf, command: &[u8], arguments: &[u8], answer: &[u8]) {
    assert!(rt; command.len() < 32 && arguments.len() < 32);
    let mut line = [b' '; 64];
    let front = command.len() + 1;
    let end = front + arguments.len();
    line[..command.len()].copy_from_slice(command);
    line[front..end].copy_from_slice(arguments);
    check_answers(rt, shelf, &line[..end], answer);
}

// Runs a command with each list of arguments.
fn check_command(
    rt: &impl Abort,
    shelf: &mut Shelf,
    command: &[u8],
    arguments: Texts,
    answer: &[u8],
) {
    for given in arguments {
        check_line(rt, shelf, command, given, answer);
    }
}

// Runs each command of a row with each list of its arguments.
fn check_row(rt: &impl Abort, shelf: &mut Shelf, row: (Texts, Texts), answer: &[u8]) {
    let (commands, arguments) = row;
    for command in commands {
        check_command(rt, shelf, command, arguments, answer);
    }
}

// Runs all rows of a table, each line of which is to be answered alike.
fn check_all(rt: &impl Abort, shelf: &mut Shelf, table: &[(Texts, Texts)], answer: &[u8]) {
    for row in table {
        check_row(rt, shelf, *row, answer);
    }
}

// A shelf with a judy1 `s`, a judyl `l`, a judysl `t` and a judyhs `h`.
fn four(rt: &impl Abort, alloc: Global) -> Shelf {
    let mut shelf = Shelf::new(alloc);
    let script = b"make s judy1\nmake l judyl\nmake t judysl\nmake h judyhs\n";
    check_answers(rt, &mut shelf, script, b"ok\nok\nok\nok\n");
    shelf
}

const BAD_NAMES: &[(Texts, Texts)] = &[
    (OF_ONE, &[b"z! x"]),
    (OF_TWO, &[b"z! x y", b"z! 1 y", b"z! x 1"]),
    (
        MAKE,
        &[
            b"z! judy2 x",
            b"z! judy2 0",
            b"z! judyl x",
            b"z! judyl 0",
            b"z! judy2",
        ],
    ),
];

// A name that is none comes before a bad key and a bad value, and before a bad kind and a bad limit.
#[test]
fn bad_names_come_first(rt: HostRuntime) {
    let mut shelf = Shelf::new(rt.alloc());
    check_all(&rt, &mut shelf, BAD_NAMES, b"error bad-name\n");
    check_len(&rt, &shelf, 0);
}

const MISSING_ARRAYS: &[(Texts, Texts)] = &[
    (OF_ONE, &[b"z x"]),
    (OF_TWO, &[b"z x y", b"z 1 y", b"z x 1"]),
];

// Then an array that isn't there.
#[test]
fn missing_arrays_come_second(rt: HostRuntime) {
    let mut shelf = Shelf::new(rt.alloc());
    check_all(&rt, &mut shelf, MISSING_ARRAYS, b"error no-such-array\n");
}

const WRONG_KINDS: &[(Texts, Texts)] = &[
    (OF_SETS, &[b"l x", b"t #00", b"h #0"]),
    (OF_KEYS, &[b"s x"]),
    (OF_VALUES, &[b"s x y", b"s 1 y", b"s x 1"]),
    (NEIGHBOURS, &[b"h #0"]),
    (EMPTIES, &[b"t #00", b"t x", b"h #0", b"h x"]),
    (BY_COUNT, &[b"h #0", b"h x"]),
    (COUNT, &[b"h #0 x", b"h =a x", b"h #0 =a"]),
];

// Then a command that the array's kind doesn't have.
#[test]
fn wrong_kinds_come_third(rt: HostRuntime) {
    let mut shelf = four(&rt, rt.alloc());
    check_all(&rt, &mut shelf, WRONG_KINDS, b"error wrong-kind\n");
}

const NO_KINDS: &[(Texts, Texts)] = &[(
    MAKE,
    &[b"b judy2 x", b"b judy2 0", b"l judy2 x", b"l judy2"],
)];

// Or a kind that is none; it comes before a bad limit, and before a name that is taken.
#[test]
fn kinds_that_are_none_come_third(rt: HostRuntime) {
    let mut shelf = four(&rt, rt.alloc());
    check_all(&rt, &mut shelf, NO_KINDS, b"error wrong-kind\n");
    check_len(&rt, &shelf, 4);
}

const BAD_KEYS: &[(Texts, Texts)] = &[
    (OF_VALUES, &[b"t #00 y", b"t #00 1", b"h #0 y", b"h #0 1"]),
    (OF_KEYS, &[b"t #00", b"h #0"]),
    (NEIGHBOURS, &[b"t #00"]),
    (COUNT, &[b"t #00 x", b"t =a x", b"t #00 =a"]),
];

// Then a bad key, which comes before a bad value.
#[test]
fn bad_keys_come_before_bad_values(rt: HostRuntime) {
    let mut shelf = four(&rt, rt.alloc());
    check_all(&rt, &mut shelf, BAD_KEYS, b"error bad-key\n");
}

const BAD_WORDS: &[(Texts, Texts)] = &[
    (OF_VALUES, &[b"t =a y", b"h =a y", b"h #00 y"]),
    (OF_TWO, &[b"l x y", b"l 1 y", b"l x 1"]),
    (COUNT, &[b"s x y", b"s 1 y", b"s x 1"]),
    (BY_COUNT, &[b"t =a", b"t #00", b"t x"]),
    (MAKE, &[b"l judyl x", b"b judyl x"]),
];

// Or a word that is none, on either side.
#[test]
fn bad_words_on_either_side(rt: HostRuntime) {
    let mut shelf = four(&rt, rt.alloc());
    check_all(&rt, &mut shelf, BAD_WORDS, b"error bad-word\n");
}

const BAD_LIMITS: Texts = &[b"l judyl 0", b"l judyl 4294967296", b"b judyl 0"];

// A limit outside its range comes before a name that is taken.
#[test]
fn bad_limits_come_before_taken_names(rt: HostRuntime) {
    let mut shelf = four(&rt, rt.alloc());
    check_row(&rt, &mut shelf, (MAKE, BAD_LIMITS), b"error bad-limit\n");
    let taken: Texts = &[b"l judyl 1", b"l judy1"];
    check_row(&rt, &mut shelf, (MAKE, taken), b"error exists\n");
    let list = b"names s:judy1:0 l:judyl:0 t:judysl:0 h:judyhs:0\n";
    check_answers(&rt, &mut shelf, b"list", list);
}

// Four arrays with a key each, and no room for another.
fn four_full(rt: &impl Abort, alloc: Global) -> Shelf {
    let mut shelf = Shelf::new(alloc);
    let script =
        b"make s judy1 1\nset s 1\nmake l judyl 1\nins l 1 1\nmake t judysl 1\nins t =a 1\nmake h judyhs 1\nins h =a 1\n";
    let answers = b"ok\n1\nok\nwas 0\nok\nwas 0\nok\nwas 0\n";
    check_answers(rt, &mut shelf, script, answers);
    shelf
}

const FULL_BAD_WORDS: &[(Texts, Texts)] = &[
    (&[b"set"], &[b"s x"]),
    (INS, &[b"l x 2", b"l 2 y", b"t =b y", b"h =b y"]),
];

const FULL_BAD_KEYS: &[(Texts, Texts)] = &[(INS, &[b"t #00 2", b"h #0 2"])];

const FULL: &[(Texts, Texts)] = &[
    (&[b"set"], &[b"s 2"]),
    (INS, &[b"l 2 2", b"t =b 2", b"h =b 2"]),
];

// That an array is full comes last.
#[test]
fn full_comes_behind_bad_keys_and_values(rt: HostRuntime) {
    let mut shelf = four_full(&rt, rt.alloc());
    check_all(&rt, &mut shelf, FULL_BAD_WORDS, b"error bad-word\n");
    check_all(&rt, &mut shelf, FULL_BAD_KEYS, b"error bad-key\n");
    check_all(&rt, &mut shelf, FULL, b"error full\n");
}
