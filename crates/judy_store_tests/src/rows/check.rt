//! How a row is checked. What rows compare stands in functions of its own, so that a row is a line of calls.

use judy_pipe::{MemSink, MemSource, SinkTrouble, Source};
use judy_script::{RunFault, run, run_bytes};
use judy_shelf::{Array, Name, Shelf};
use std::alloc::Global;
use std::process::Abort;

/// Compares bytes with those wanted.
pub fn same_bytes(rt: &impl Abort, found: &[u8], wanted: &[u8]) {
    assert_eq!(rt; found, wanted);
}

/// Compares how a run ends with what is wanted.
pub fn same_end(rt: &impl Abort, found: Result<(), RunFault>, wanted: Result<(), RunFault>) {
    assert_eq!(rt; found, wanted);
}

/// Runs the script over the shelf and compares what it writes.
pub fn check_answers(rt: &impl Abort, shelf: &mut Shelf, script: &[u8], answers: &[u8]) {
    let mut sink = MemSink::<1024>::new(1024, SinkTrouble::Never);
    let ended = run_bytes(script, shelf, &mut sink);
    same_end(rt, ended, Ok(()));
    same_bytes(rt, sink.bytes(), answers);
}

/// Runs lines one by one over the shelf, each of which stands before ` > ` and its answer, and compares the answers.
pub fn check_lines(rt: &impl Abort, shelf: &mut Shelf, table: &[u8]) {
    let mut start = 0;
    for at in 0..table.len() {
        if table[at] == b'\n' {
            check_line(rt, shelf, table, start, at);
            start = at + 1;
        }
    }
    assert!(rt; start == table.len());
}

// Runs the line that begins at a place of a table, and compares its answer, which ends at another.
fn check_line(rt: &impl Abort, shelf: &mut Shelf, table: &[u8], start: usize, end: usize) {
    assert!(rt; start <= end && end < table.len());
    let line = &table[start..=end];
    let sign = sign_in(line);
    assert!(rt; 0 < sign && sign < line.len());
    assert!(rt; 2 <= line.len() - sign);
    check_answers(rt, shelf, &line[..sign - 1], &line[sign + 2..]);
}

// Where the sign between a line and its answer stands.
fn sign_in(line: &[u8]) -> usize {
    for at in 0..line.len() {
        if line[at] == b'>' {
            return at;
        }
    }
    0
}

/// Runs the lines over a new shelf, and answers the shelf that they leave.
pub fn check_table(rt: &impl Abort, alloc: Global, table: &[u8]) -> Shelf {
    let mut shelf = Shelf::new(alloc);
    check_lines(rt, &mut shelf, table);
    shelf
}

/// Runs the script that a source gives, and compares how the run ends and what it writes.
pub fn check_run(
    rt: &impl Abort,
    source: &mut MemSource<'_>,
    shelf: &mut Shelf,
    max_bytes: u64,
    end: Result<(), RunFault>,
    answers: &[u8],
) {
    assert!(rt; source.failures() < u64::MAX);
    let mut sink = MemSink::<1024>::new(1024, SinkTrouble::Never);
    let ended = run(source, shelf, &mut sink, max_bytes);
    same_end(rt, ended, end);
    same_bytes(rt, sink.bytes(), answers);
}

/// Compares how many arrays there are with how many are wanted.
pub fn check_len(rt: &impl Abort, shelf: &Shelf, wanted: usize) {
    assert_eq!(rt; shelf.len(), wanted);
}

/// Compares the value of a key of the judyl array `a` with the one wanted.
pub fn check_value(rt: &impl Abort, shelf: &Shelf, key: u64, wanted: Option<u64>) {
    assert_eq!(rt; value_of(shelf, b"a", key), wanted);
}

// The value of a key of the judyl array of that name.
fn value_of(shelf: &Shelf, name: &[u8], key: u64) -> Option<u64> {
    match shelf.get(&Name::new(name)?)? {
        Array::JudyL(words) => words.get(key),
        _ => None,
    }
}
