//! Many keys asked for at once, and where a group of ways ends: behind the 16th key.

use judy_word::{Judy1, JudyL};
use std::alloc::{AllocError, Global};
use std::process::Abort;

// A key, and the value wanted of it.
type Row = (u64, Option<u64>);

// Compares the values of keys with those wanted, each at its place.
fn check_rows(
    rt: &impl Abort,
    alloc: Global,
    pairs: &JudyL,
    rows: &[Row],
) -> Result<(), AllocError> {
    let keys: Vec<u64> = rows.iter().map(|row| row.0).collect(alloc)?;
    let wanted: Vec<Option<u64>> = rows.iter().map(|row| row.1).collect(alloc)?;
    let mut values: Vec<Option<u64>> = rows.iter().map(|_| Some(1)).collect(alloc)?;
    pairs.get_many(&keys, &mut values);
    same_values(rt, &values, &wanted);
    Ok(())
}

// Compares the values that are found with those wanted.
fn same_values(rt: &impl Abort, found: &[Option<u64>], wanted: &[Option<u64>]) {
    assert_eq!(rt; found, wanted);
}

// One key more than a group has.
const MORE_THAN_A_GROUP: [Row; 17] = [
    (6, Some(0)),
    (3, None),
    (5, Some(50)),
    (u64::MAX, Some(9)),
    (1 << 40, Some(7)),
    (7, None),
    (0, None),
    (5, Some(50)),
    (5, Some(50)),
    (6, Some(0)),
    (1 << 41, None),
    (1 << 63, None),
    (4, None),
    (u64::MAX, Some(9)),
    (18446744073709551614, None),
    (6, Some(0)),
    (1 << 40, Some(7)),
];

#[test]
fn values_of_many_keys(rt: HostRuntime) -> Result<(), AllocError> {
    let made = JudyL::from_sorted(
        rt.alloc(),
        9,
        &[(5, 50), (6, 0), (1 << 40, 7), (u64::MAX, 9)],
    );
    let pairs = made.expect(&rt, "there is memory");
    check_rows(&rt, rt.alloc(), &pairs, &[])?;
    check_rows(&rt, rt.alloc(), &pairs, &[(5, Some(50))])?;
    check_rows(&rt, rt.alloc(), &pairs, &[(4, None)])?;
    // A value that is 0, beside a key that is absent.
    check_rows(&rt, rt.alloc(), &pairs, &[(6, Some(0)), (7, None)])?;
    check_rows(&rt, rt.alloc(), &pairs, &MORE_THAN_A_GROUP)?;
    Ok(())
}

// Compares whether keys are there with what is wanted, each at its place.
fn check_set(
    rt: &impl Abort,
    alloc: Global,
    words: &Judy1,
    rows: &[(u64, bool)],
) -> Result<(), AllocError> {
    let keys: Vec<u64> = rows.iter().map(|row| row.0).collect(alloc)?;
    let wanted: Vec<bool> = rows.iter().map(|row| row.1).collect(alloc)?;
    let mut there: Vec<bool> = rows.iter().map(|row| !row.1).collect(alloc)?;
    words.test_many(&keys, &mut there);
    same_answers(rt, &there, &wanted);
    Ok(())
}

// Compares the answers that are found with those wanted.
fn same_answers(rt: &impl Abort, found: &[bool], wanted: &[bool]) {
    assert_eq!(rt; found, wanted);
}

// The same of a set.
const THERE_OR_NOT: [(u64, bool); 17] = [
    (6, true),
    (3, false),
    (5, true),
    (u64::MAX, true),
    (1 << 40, true),
    (7, false),
    (0, true),
    (5, true),
    (5, true),
    (1, false),
    (1 << 41, false),
    (1 << 63, false),
    (4, false),
    (u64::MAX, true),
    (18446744073709551614, false),
    (6, true),
    (1 << 40, true),
];

#[test]
fn whether_many_keys_are_there(rt: HostRuntime) -> Result<(), AllocError> {
    let made = Judy1::from_sorted(rt.alloc(), 9, &[0, 5, 6, 1 << 40, u64::MAX]);
    let words = made.expect(&rt, "there is memory");
    check_set(&rt, rt.alloc(), &words, &[])?;
    check_set(&rt, rt.alloc(), &words, &[(5, true)])?;
    check_set(&rt, rt.alloc(), &words, &[(4, false), (0, true)])?;
    check_set(&rt, rt.alloc(), &words, &THERE_OR_NOT)?;
    Ok(())
}
