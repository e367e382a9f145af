//! The program `judy_loose`: plays worked rows on a set of words, on a map where `map` comes on standard input, and on
//! byte strings of one hash where `chain` does, tells what nodes there are and what is answered, and prints that.
//!
//! Scripts show no nodes, and an array becomes loose only where memory is refused to it. So `tests/loose` runs this
//! program with its calls for memory refused in turn, and compares what it prints with a plain set. Which array it is
//! stands on standard input, since to read the words of a command line takes memory. array.rt has the array of words,
//! told.rt what is told of it, and chain.rt the byte strings.
#![tactic(auto)]

ghost use Rattle.std.specs.Prelude.{◌≡◌, ◌⊎◌};
ghost use Rattle.judy_model.specs.Arrays as arrays;
ghost use Rattle.judy_word.specs.WordArrays.{array_of};
ghost use Rattle.judy_loose.specs.Played.{seen, with_key};

mod array;
mod chain;
mod told;

use crate::array::PlayedArray;
use crate::told::tell;
use judy_word::{InsertError, Judy1, JudyL};
use std::io;
use std::io::Read;

// More keys than the array is given: what it may lack is memory.
const LIMIT: u64 = 1000;

// So many keys that differ in their last byte alone are a leaf, and one more makes that a bitmap leaf.
const LEAF_LEN: u64 = 32;

// 2^56: a key whose first byte is none of theirs.
const FAR: u64 = 72057594037927936;

fn main(rt: HostRuntime) -> io::Result<()> {
    match first_letter(&rt)? {
        b'c' => chain::play(&rt),
        b'm' => play(&rt, PlayedArray::Map(JudyL::new(rt.alloc(), LIMIT))),
        _ => play(&rt, PlayedArray::Set(Judy1::new(rt.alloc(), LIMIT))),
    }
}

// The first byte of standard input, and 0 where nothing comes.
fn first_letter(rt: &HostRuntime) -> io::Result<u8> {
    let mut first = [0];
    let _ = rt.stdin().read(&mut first)?;
    Ok(first[0])
}

// Plays the rows of words.
fn play(rt: &impl Print, mut array: PlayedArray) -> io::Result<()> {
    for word in 0..LEAF_LEN {
        put(rt, &mut array, word)?;
    }
    tell(rt, &array)?;
    branch_above_few(rt, &mut array)?;
    loose_and_tidy(rt, &mut array)?;
    skip_and_merge(rt, &mut array)
}

// A branch above 33 keys, of which two go, and then the nodes made tight. Where memory is refused the branch stays,
// first with both of its children and then with one.
fn branch_above_few(rt: &impl Print, array: &mut PlayedArray) -> io::Result<()> {
    put_twice(rt, array, FAR)?;
    for word in [LEAF_LEN - 1, FAR] {
        take(rt, array, word)?;
        tell(rt, array)?;
    }
    tidy_twice(rt, array)?;
    put_twice(rt, array, LEAF_LEN - 1)
}

// The key that is one too many for a leaf, put in and taken out, and then the nodes made tight.
fn loose_and_tidy(rt: &impl Print, array: &mut PlayedArray) -> io::Result<()> {
    put_twice(rt, array, LEAF_LEN)?;
    take(rt, array, LEAF_LEN)?;
    tell(rt, array)?;
    tidy_twice(rt, array)
}

// A branch above the bitmap leaf, which comes with a key and goes with it.
fn skip_and_merge(rt: &impl Print, array: &mut PlayedArray) -> io::Result<()> {
    put(rt, array, LEAF_LEN)?;
    put_twice(rt, array, FAR)?;
    take(rt, array, FAR)?;
    tell(rt, array)
}

// Puts a key in, and once more, since memory may be refused to the first.
fn put_twice(rt: &impl Print, array: &mut PlayedArray, word: u64) -> io::Result<()> {
    for _ in 0..2 {
        put(rt, array, word)?;
        tell(rt, array)?;
    }
    Ok(())
}

// Makes the nodes tight, and once more.
fn tidy_twice(rt: &impl Print, array: &mut PlayedArray) -> io::Result<()> {
    for _ in 0..2 {
        tidy(rt, array)?;
        tell(rt, array)?;
    }
    Ok(())
}

// Puts a key in, or leaves the array as it was.
fn put(rt: &impl Print, array: &mut PlayedArray, word: u64) -> io::Result<()>
    ensures { (array.new ≡ array.old)
        ⊎ (array_of (seen array.new)
        ≡ arrays.with_map (array_of (seen array.old)) (with_key array.old word)) }
{
    let answer = match array.put(word) {
        Ok(true) => "1",
        Ok(false) => "0",
        Err(InsertError::Full) => "full",
        Err(InsertError::NoMemory) => "no-memory",
    };
    println!(rt; "set {word}: {answer}")
}

// Takes a key out, whatever memory there is.
fn take(rt: &impl Print, array: &mut PlayedArray, word: u64) -> io::Result<()>
    ensures { array_of (seen array.new)
        ≡ arrays.with_map (array_of (seen array.old)) (arrays.del (seen array.old).map word) }
{
    let answer = u8::from(array.take(word));
    println!(rt; "unset {word}: {answer}")
}

// Makes the nodes tight, or leaves them; the keys stay.
fn tidy(rt: &impl Print, array: &mut PlayedArray) -> io::Result<()>
    ensures { array_of (seen array.new) ≡ array_of (seen array.old) }
{
    let answer = match array.tidy() {
        Ok(()) => "ok",
        Err(_) => "no-memory",
    };
    println!(rt; "tidy: {answer}")
}
