//! Rows of lines.

use super::check::{check_answers, check_run};
use super::scripts::FIRST_ANSWERS;
use judy_pipe::{MemSource, SourceTrouble};
use judy_shelf::Shelf;
use std::alloc::Global;
use std::process::Abort;

// Windows line ends, runs of spaces, and a last line without an LF: the same answers.
const FORMS: &[u8; 75] =
    b"make  a judyl\r\n ins a 5 7\r\nins   a  5   9  \r\nget a 5\r\n  get a 6 \r\nput a 6 1";

#[test]
fn line_forms(rt: HostRuntime) {
    check_answers(&rt, &mut Shelf::new(rt.alloc()), FORMS, FIRST_ANSWERS);
}

// Lines of so many bytes of one value with an end, and a line that is answered: what they answer.
const LIMITS: [(u8, usize, &[u8], &[u8]); 6] = [
    (
        b'x',
        4097,
        b"\n",
        b"error line-too-long\nerror unknown-command\n",
    ),
    (
        b'x',
        4096,
        b"\n",
        b"error unknown-command\nerror unknown-command\n",
    ),
    (
        b'x',
        4096,
        b"\r\n",
        b"error line-too-long\nerror unknown-command\n",
    ),
    (
        b'x',
        4095,
        b"\r\n",
        b"error unknown-command\nerror unknown-command\n",
    ),
    (b';', 4096, b"\n", b"error unknown-command\n"),
    (
        b';',
        4097,
        b"\n",
        b"error line-too-long\nerror unknown-command\n",
    ),
];

// The script that is a line of so many bytes `byte`, an end, and a line that is answered.
fn check_line(rt: &impl Abort, alloc: Global, byte: u8, count: usize, end: &[u8], answers: &[u8]) {
    assert!(rt; count <= 4097 && end.len() <= 2);
    let mut script = [byte; 4103];
    let next = count + end.len();
    script[count..next].copy_from_slice(end);
    script[next..next + 4].copy_from_slice(b"SET\n");
    check_answers(rt, &mut Shelf::new(alloc), &script[..next + 4], answers);
}

#[test]
fn line_limits(rt: HostRuntime) {
    for (byte, count, end, answers) in LIMITS {
        check_line(&rt, rt.alloc(), byte, count, end, answers);
    }
}

// The forms as a source gives them, with the same answers.
fn check_forms(rt: &impl Abort, alloc: Global, most: usize, trouble: SourceTrouble) {
    assert!(rt; 0 < most);
    let mut source = MemSource::new(FORMS, most, trouble);
    let mut shelf = Shelf::new(alloc);
    check_run(rt, &mut source, &mut shelf, 1000, Ok(()), FIRST_ANSWERS);
}

// The row in every two pieces, and byte by byte: the same answers, however the script comes.
#[test]
fn line_forms_in_pieces(rt: HostRuntime) {
    for most in 1..=FORMS.len() {
        check_forms(&rt, rt.alloc(), most, SourceTrouble::Never);
    }
    // An interruption at each place cuts the script there into two pieces.
    for at in 0..=FORMS.len() {
        let trouble = SourceTrouble::Interrupts { at, times: 999 };
        check_forms(&rt, rt.alloc(), 1000, trouble);
    }
}
