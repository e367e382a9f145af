//! Rows of refusals.

use super::check::{check_len, check_table, check_value};

const FIRST_REFUSALS: &[u8] = b"\
make a judyl 1 > ok
make a judyl 0 > error bad-limit
make b judyl x > error bad-word
ins a 5 > error argument-count
ins a 5 x > error bad-word
ins a 1 2 > was 0
ins a 2 2 > error full
ins a 1 18446744073709551615 > was 2
get a 00001 > 18446744073709551615
get b 1 > error no-such-array
put a 2 9 > none
";

#[test]
fn first_refusals(rt: HostRuntime) {
    let shelf = check_table(&rt, rt.alloc(), FIRST_REFUSALS);
    check_len(&rt, &shelf, 1);
    check_value(&rt, &shelf, 1, Some(18446744073709551615));
}

const REFUSALS: &[u8] = b"\
make a judy1 2 > ok
set a 1 > 1
set a 2 > 1
set a 3 > error full
set a 2 > 0
unset a 1 > 1
set a 3 > 1
make b judy1 0 > error bad-limit
make b judy1 4294967296 > error bad-limit
make b judy1 x > error bad-word
make b judy2 x > error wrong-kind
make a judy1 0 > error bad-limit
make a judy1 > error exists
free a > freed 2
free a > freed 0
set z 1 > error no-such-array
set z! > error argument-count
set z! 1 > error bad-name
list a > error argument-count
SET a 1 > error unknown-command
";

#[test]
fn refusals(rt: HostRuntime) {
    let shelf = check_table(&rt, rt.alloc(), REFUSALS);
    check_len(&rt, &shelf, 1);
}

const FREE_KEEPS_THE_LIMIT: &[u8] = b"\
make a judyl 1 > ok
ins a 1 1 > was 0
free a > freed 1
ins a 2 2 > was 0
ins a 3 3 > error full
list > names a:judyl:1
";

// A freed array keeps its limit.
#[test]
fn free_keeps_the_limit(rt: HostRuntime) {
    check_table(&rt, rt.alloc(), FREE_KEEPS_THE_LIMIT);
}

const REFUSALS_IN_ORDER: &[u8] = b"\
make l judyl > ok
make s judy1 > ok
set z x > error no-such-array
set l x > error wrong-kind
unset l x > error wrong-kind
test l x > error wrong-kind
ins s x y > error wrong-kind
get s x > error wrong-kind
put s x y > error wrong-kind
del s x > error wrong-kind
count s 1 x > error bad-word
first l x > error bad-word
fe s x > error bad-word
bycount l -1 > error bad-word
drop > error argument-count
free l s > error argument-count
drop z > error no-such-array
drop z! > error bad-name
ins l x y > error bad-word
get l 18446744073709551616 > error bad-word
get l 000000000000000000001 > error bad-word
make b judys > error wrong-kind
make b judyh > error wrong-kind
list > names l:judyl:0 s:judy1:0
";

// The first refusal that applies is the answer, for the commands of each kind.
#[test]
fn refusals_in_order(rt: HostRuntime) {
    check_table(&rt, rt.alloc(), REFUSALS_IN_ORDER);
}
