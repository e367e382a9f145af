//! What rows compare, each in a function of its own, so that a row is a line of calls.

use std::process::Abort;

/// Compares a value that there may be with the one wanted.
pub(crate) fn same_value(rt: &impl Abort, found: Option<u64>, wanted: Option<u64>) {
    assert_eq!(rt; found, wanted);
}

/// The same of a number.
pub(crate) fn same_number(rt: &impl Abort, found: u64, wanted: u64) {
    assert_eq!(rt; found, wanted);
}

/// The same of bytes.
pub(crate) fn same_bytes(rt: &impl Abort, found: &[u8], wanted: &[u8]) {
    assert_eq!(rt; found, wanted);
}

/// Compares an answer with the one wanted.
pub(crate) fn same_answer(rt: &impl Abort, found: bool, wanted: bool) {
    assert_eq!(rt; found, wanted);
}

/// Writes a value into a slot, which had another before.
pub(crate) fn write_over(rt: &impl Abort, slot: &mut u64, before: u64, value: u64) {
    same_number(rt, *slot, before);
    *slot = value;
}
