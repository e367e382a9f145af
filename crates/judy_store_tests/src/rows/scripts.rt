//! Rows of whole scripts.

use super::check::{check_answers, check_len, check_value};
use judy_shelf::Shelf;

pub const FIRST_SCRIPT: &[u8; 59] =
    b"make a judyl\nins a 5 7\nins a 5 9\nget a 5\nget a 6\nput a 6 1\n";

pub const FIRST_ANSWERS: &[u8; 27] = b"ok\nwas 0\nwas 7\n9\nnone\nnone\n";

#[test]
fn first_script(rt: HostRuntime) {
    let mut shelf = Shelf::new(rt.alloc());
    check_answers(&rt, &mut shelf, FIRST_SCRIPT, FIRST_ANSWERS);
    check_value(&rt, &shelf, 5, Some(9));
    check_value(&rt, &shelf, 6, None);
}

#[test]
fn empty_scripts(rt: HostRuntime) {
    let mut shelf = Shelf::new(rt.alloc());
    check_answers(&rt, &mut shelf, b"", b"");
    let blank = b"\n  \n;\n; make a judyl\n   ;x\n\r\n";
    check_answers(&rt, &mut shelf, blank, b"");
    check_len(&rt, &shelf, 0);
}
