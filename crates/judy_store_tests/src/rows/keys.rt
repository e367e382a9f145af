//! Rows of scripts over byte strings.

use super::check::{check_answers, check_lines, check_table};
use judy_shelf::Shelf;
use std::process::Abort;

const BYTE_KEYS: &[u8] = b"\
make h judyhs > ok
ins h # 1 > was 0
ins h #00 2 > was 0
ins h #0000 3 > was 0
get h #00 > 2
get h = > 1
del h # > 1
get h # > none
list > names h:judyhs:2
first h #00 > error wrong-kind
";

#[test]
fn byte_keys(rt: HostRuntime) {
    check_table(&rt, rt.alloc(), BYTE_KEYS);
}

const BAD_BYTE_KEYS: &[u8] = b"\
make h judyhs 2 > ok
ins h abc x > error bad-key
ins h #0 1 > error bad-key
ins h #0g 1 > error bad-key
ins h =a x > error bad-word
ins h =kl 5 > was 0
put h #6B6c 6 > was 5
put h #6B6d 6 > none
ins h #FF 1 > was 0
get h #ff > 1
ins h =m 1 > error full
ins h =kl 7 > was 6
fe h 0 > error wrong-kind
count h x y > error wrong-kind
free h > freed 2
";

// A key is one of the kind's before the value beside it is read, and its digits are of either case.
#[test]
fn bad_byte_keys(rt: HostRuntime) {
    check_table(&rt, rt.alloc(), BAD_BYTE_KEYS);
}

// An array over strings with six keys, put in in no order.
const SIX_KEYS: &[u8] = b"\
make s judysl > ok
ins s #ff 6 > was 0
ins s =abcdefgh 3 > was 0
ins s = 1 > was 0
ins s =zz 5 > was 0
ins s =abcdefghi 4 > was 0
ins s =abcdefg 2 > was 0
";

const STRING_ORDER: &[u8] = b"\
first s = > = 1
next s = > =abcdefg 2
next s =abcdefg > =abcdefgh 3
next s =abcdefgh > =abcdefghi 4
next s =abcdefghi > =zz 5
next s =zz > #ff 6
next s #FF > none
prev s = > none
last s #ffff > #ff 6
";

#[test]
fn string_order(rt: HostRuntime) {
    let mut shelf = check_table(&rt, rt.alloc(), SIX_KEYS);
    check_lines(&rt, &mut shelf, STRING_ORDER);
}

const STRING_COUNTS: &[u8] = b"\
make h judyhs > ok
count s = #ff > 6
count s =abcdefg =abcdefgh > 2
count s =b #fe > 1
count s =zz = > 0
bycount s 1 > = 1
bycount s 4 > =abcdefghi 4
bycount s 6 > #ff 6
bycount s 7 > none
bycount s 0 > none
count s =a x > error bad-key
bycount s =a > error bad-word
bycount h 1 > error wrong-kind
";

// Over the keys of row `string_order`, beside an array without order.
#[test]
fn string_counts(rt: HostRuntime) {
    let mut shelf = check_table(&rt, rt.alloc(), SIX_KEYS);
    check_lines(&rt, &mut shelf, STRING_COUNTS);
}

const STRING_COUNTS_AFTER_CHANGES: &[u8] = b"\
make s judysl 3 > ok
ins s =abcdefghijklmnopq 1 > was 0
ins s =abcdefghijklmnopr 2 > was 0
ins s =abcdefgh 3 > was 0
count s = #ff > 3
count s =abcdefgh =abcdefghijklmnopq > 2
ins s =b 4 > error full
count s = #ff > 3
del s =abcdefghijklmnopq > 1
count s = #ff > 2
bycount s 2 > =abcdefghijklmnopr 2
free s > freed 2
count s = #ff > 0
bycount s 1 > none
";

// A key that comes and goes two levels down is counted while it is there.
#[test]
fn string_counts_after_changes(rt: HostRuntime) {
    check_table(&rt, rt.alloc(), STRING_COUNTS_AFTER_CHANGES);
}

// The line `ins s =`, 1,025 letters, ` 1`.
fn too_long_key() -> [u8; 1034] {
    let mut line = [b'a'; 1034];
    line[..7].copy_from_slice(b"ins s =");
    line[1032..].copy_from_slice(b" 1");
    line
}

const BAD_KEYS: &[u8] = b"\
make s judysl > ok
ins s =abcdefghij 1 > was 0
ins s #00 1 > error bad-key
get s #00 > error bad-key
get s #0 > error bad-key
get s abc > error bad-key
";

const BAD_KEYS_LATER: &[u8] = b"\
ins s #00 x > error bad-key
ins s =a x > error bad-word
del s =abcd > 0
fe s 0 > error wrong-kind
count s =a =b > 1
list > names s:judysl:1
";

#[test]
fn bad_keys(rt: HostRuntime) {
    let mut shelf = check_table(&rt, rt.alloc(), BAD_KEYS);
    check_answers(&rt, &mut shelf, &too_long_key(), b"error bad-key\n");
    check_lines(&rt, &mut shelf, BAD_KEYS_LATER);
}

const EVERY_COMMAND_OF_A_JUDYSL: &[u8] = b"\
make s judysl 2 > ok
put s =a 1 > none
ins s #61 1 > was 0
put s =a 2 > was 1
ins s #6120Ff 3 > was 0
ins s =c 4 > error full
ins s =a 5 > was 2
first s =b > none
first s #61 > =a 5
next s =a > #6120ff 3
last s =zz > #6120ff 3
prev s #6120FF > =a 5
del s #6120ff > 1
del s #6120ff > 0
next s =a > none
next s #6100 > error bad-key
test s =a > error wrong-kind
bycount s abc > error bad-word
free s > freed 1
get s =a > none
";

// The same answers as of any map, and the key of a scan is printed as the key found is, in lower case.
#[test]
fn every_command_of_a_judysl(rt: HostRuntime) {
    check_table(&rt, rt.alloc(), EVERY_COMMAND_OF_A_JUDYSL);
}

// Puts in the keys of one byte from 0x21 to 0x41.
fn insert_signs(rt: &impl Abort, shelf: &mut Shelf) {
    let mut line = *b"ins a =! 1";
    for sign in b'!'..=b'A' {
        line[7] = sign;
        check_answers(rt, shelf, &line, b"was 0\n");
    }
}

// Takes them out.
fn delete_signs(rt: &impl Abort, shelf: &mut Shelf) {
    let mut line = *b"del a =!";
    for sign in b'!'..=b'A' {
        line[7] = sign;
        check_answers(rt, shelf, &line, b"1\n");
    }
}

const REFUSED_STRING_INSERT: &[u8] = b"\
make s judysl > ok
ins s =abcdefgh 3 > was 0
get s =abcdefghi > none
ins s =abcdefghi 4 > was 0
get s =abcdefgh > 3
make a judysl > ok
";

const REFUSED_STRING_INSERT_LATER: &[u8] = b"\
drop a > freed 0
make a judyhs > ok
";

// The row with ample memory.
#[test]
fn refused_string_insert(rt: HostRuntime) {
    let mut shelf = check_table(&rt, rt.alloc(), REFUSED_STRING_INSERT);
    insert_signs(&rt, &mut shelf);
    delete_signs(&rt, &mut shelf);
    check_lines(&rt, &mut shelf, REFUSED_STRING_INSERT_LATER);
    insert_signs(&rt, &mut shelf);
    delete_signs(&rt, &mut shelf);
    check_answers(&rt, &mut shelf, b"list", b"names s:judysl:2 a:judyhs:0\n");
}
