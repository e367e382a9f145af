//! What is told of an array: its nodes, its keys, their values in a map, and what it answers of some words.

use crate::array::PlayedArray;
use judy_word::JudyL;
use std::{fmt, io};

// The first key, the last of a leaf and the one behind it, the key far from these, and the last word.
const ASKED: [u64; 5] = [0, 31, 32, 72057594037927936, 18446744073709551615];

/// Prints the kinds of its nodes and whether it is loose, its keys by their number, the values of a map, and
/// what it answers of each word asked.
pub fn tell(rt: &impl Print, array: &PlayedArray) -> io::Result<()> {
    tell_nodes(rt, array)?;
    tell_keys(rt, array)?;
    if let PlayedArray::Map(words) = array {
        tell_values(rt, words)?;
    }
    for word in ASKED {
        tell_word(rt, array, word)?;
    }
    Ok(())
}

// Immediates, leaves, bitmap leaves, and linear, bitmap and full branches.
fn tell_nodes(rt: &impl Print, array: &PlayedArray) -> io::Result<()> {
    let shape = array.shape();
    let state = if array.is_loose() { "loose" } else { "tight" };
    println!(rt;
        "nodes: {} {} {} {} {} {}, {state}",
        shape.immediates, shape.leaves, shape.bitmap_leaves, shape.linear, shape.bitmap, shape.full
    )
}

fn tell_keys(rt: &impl Print, array: &PlayedArray) -> io::Result<()> {
    let len = array.len();
    print!(rt; "keys: {len}")?;
    for place in 1..=len {
        let key = Answered(array.by_count(place));
        print!(rt; " {key}")?;
    }
    println!(rt;)
}

// The value of each key, found by the key.
fn tell_values(rt: &impl Print, words: &JudyL) -> io::Result<()> {
    print!(rt; "values:")?;
    for place in 1..=words.len() {
        let value = Answered(words.by_count(place).and_then(|key| words.get(key)));
        print!(rt; " {value}")?;
    }
    println!(rt;)
}

fn tell_word(rt: &impl Print, array: &PlayedArray, word: u64) -> io::Result<()> {
    let [first, next, last, prev, fe, ne, le, pe] = array.near(word).map(Answered);
    println!(rt;
        "at {word}: test {} count {} bycount {} first {first} next {next} last {last} prev {prev} fe {fe} ne {ne} le {le} pe {pe}",
        u8::from(array.has(word)),
        array.count_up_to(word),
        Answered(array.by_count(word))
    )
}

// A word that was found, or none.
#[derive(Clone, Copy)]
struct Answered(Option<u64>);

impl fmt::Display for Answered {
    fn fmt<W: fmt::Write>(&self, f: &mut fmt::Formatter<W>) -> fmt::Result {
        match self.0 {
            Some(word) => write!(f, "{word}"),
            None => write!(f, "none"),
        }
    }
}
