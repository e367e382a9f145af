//! A plain list of pairs by ascending key, which the tests of leaves and trees keep beside them, and what it answers.

use std::alloc::AllocError;
use std::process::Abort;

// Puts a pair into the plain list, at its place.
pub(crate) fn note(
    rt: &impl Abort,
    plain: &mut Vec<(u64, u64)>,
    key: u64,
    value: u64,
) -> Result<(), AllocError> {
    let at = rank(plain, key);
    assert!(rt; at <= plain.len());
    plain.insert(at, (key, value))?;
    Ok(())
}

// A key, the words beside it, and a word that differs from it in its highest bit, which only a key of eight bytes has.
pub(crate) fn beside(key: u64) -> [u64; 4] {
    [
        key,
        key.wrapping_sub(1),
        key.wrapping_add(1),
        key ^ (1 << 63),
    ]
}

// How many keys are below a word.
pub(crate) fn rank(plain: &[(u64, u64)], word: u64) -> usize {
    plain.iter().filter(|pair| pair.0 < word).count()
}

// The nearest pair at or above a word.
pub(crate) fn pair_from(plain: &[(u64, u64)], word: u64) -> Option<(u64, u64)> {
    plain.iter().copied().find(|pair| pair.0 >= word)
}

// The nearest pair at or below a word.
pub(crate) fn pair_up_to(plain: &[(u64, u64)], word: u64) -> Option<(u64, u64)> {
    plain.iter().copied().rev().find(|pair| pair.0 <= word)
}

// The nearest number at or above a word that is no key, of all up to a greatest.
pub(crate) fn absent_from(plain: &[(u64, u64)], word: u64, top: u64) -> Option<u64> {
    let mut number = word;
    for pair in plain {
        if pair.0 == number {
            number = number.checked_add(1)?;
        }
    }
    (number <= top).then_some(number)
}

// The nearest number at or below a word that is no key, of all up to a greatest.
pub(crate) fn absent_up_to(plain: &[(u64, u64)], word: u64, top: u64) -> Option<u64> {
    let mut number = word.min(top);
    for pair in plain.iter().rev() {
        if pair.0 == number {
            number = number.checked_sub(1)?;
        }
    }
    Some(number)
}

// What a leaf answers of a word: how many keys are below it, its place where it is a key, the nearest pairs at or above
// it and at or below it, and the nearest numbers at or above it and at or below it that are no keys.
#[derive(Drop, PartialEq, Debug)]
pub(crate) struct Answers {
    pub(crate) rank: usize,
    pub(crate) place: Option<usize>,
    pub(crate) after: Option<(u64, u64)>,
    pub(crate) before: Option<(u64, u64)>,
    pub(crate) absent_after: Option<u64>,
    pub(crate) absent_before: Option<u64>,
}

// What the plain list answers of a word, where the greatest key that there may be is `top`.
pub(crate) fn answers_of(plain: &[(u64, u64)], word: u64, top: u64) -> Answers {
    Answers {
        rank: rank(plain, word),
        place: plain.iter().position(|pair| pair.0 == word),
        after: pair_from(plain, word),
        before: pair_up_to(plain, word),
        absent_after: absent_from(plain, word, top),
        absent_before: absent_up_to(plain, word, top),
    }
}

// Compares what is found with what is wanted, of a word.
pub(crate) fn same(rt: &impl Abort, found: u64, wanted: u64, word: u64) {
    assert_eq!(rt; found, wanted, "{word}");
}

// The same of a number that there may be.
pub(crate) fn same_number(rt: &impl Abort, found: Option<u64>, wanted: Option<u64>, word: u64) {
    assert_eq!(rt; found, wanted, "{word}");
}

// The same of a pair that there may be.
pub(crate) fn same_pair(
    rt: &impl Abort,
    found: Option<(u64, u64)>,
    wanted: Option<(u64, u64)>,
    word: u64,
) {
    assert_eq!(rt; found, wanted, "{word}");
}

// Compares a number of pairs with that of the plain list.
pub(crate) fn same_len(rt: &impl Abort, found: usize, plain: &[(u64, u64)]) {
    assert_eq!(rt; found, plain.len());
}

// Compares an answer with the one wanted.
pub(crate) fn same_answer(rt: &impl Abort, found: bool, wanted: bool) {
    assert_eq!(rt; found, wanted);
}

// Compares the pairs that are found with the plain list.
pub(crate) fn same_pairs(rt: &impl Abort, found: &[(u64, u64)], plain: &[(u64, u64)]) {
    assert_eq!(rt; found, plain);
}

// Compares the value of a word and the nearest pair above it.
pub(crate) fn check_around(
    rt: &impl Abort,
    word: u64,
    plain: &[(u64, u64)],
    found: Option<u64>,
    above: Option<(u64, u64)>,
) {
    let here = plain.iter().find(|pair| pair.0 == word);
    same_number(rt, found, here.map(|pair| pair.1), word);
    same_pair(
        rt,
        above,
        plain.iter().copied().find(|pair| pair.0 > word),
        word,
    );
}
