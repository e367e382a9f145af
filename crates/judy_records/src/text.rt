//! Texts as words: how they are written, and how they compare with bytes. The whole words of bytes are read by a loop
//! that tests nothing else, which the compiler turns into code for several words a step; a shorter word behind them is
//! read by itself.

ghost use Rattle.std.specs.Prelude.{◌≡◌, ◌↔◌, ◌≤◌, ◌+◌, ◌-◌, ◌∷◌, ◌++◌, take, drop, IfOk, IsTrue, length, vec_len, vec_capacity};
ghost use Rattle.judy_model.specs.Keys.{byte_order};
ghost use Rattle.judy_records.specs.Texts.{words_in, words_of, words_for};

use crate::words::{after_first, first_word, last_word, words_for};
use std::alloc::{AllocError, Global};
use std::cmp::Ordering;
use std::mem;

// Writes the words of the bytes over a text, which is as long as they are.
pub fn write(text: &mut [u64], bytes: &[u8])
    requires { length text.old ≡ words_for (length bytes.now) }
    ensures { text.new ≡ words_of bytes.now }
{
    let (chunks, rest) = bytes.as_chunks::<8>();
    for i in 0..chunks.len() {
        text[i] = u64::from_be_bytes(chunks[i]);
    }
    if !rest.is_empty() {
        text[chunks.len()] = last_word(bytes);
    }
}

// Writes a record, its value and then the words of the bytes, as many as that, over the one that begins at a word.
pub fn write_record(words: &mut Vec<u64>, start: usize, size: usize, value: u64, bytes: &[u8])
    requires within { start + (size + 1) ≤ vec_len words.old }
    requires fits { words_for (length bytes.now) ≡ size }
    ensures words { words.new.items
        ≡ take start words.old.items ++ ((value ∷ words_in size bytes.now) ++ drop (size + 1)
        (drop start words.old.items)) }
    ensures capacity { vec_capacity words.new ≡ vec_capacity words.old }
{
    words[start] = value;
    write(&mut words[start + 1..start + 1 + size], bytes);
}

// Puts a record behind the words, its value and then the words of the bytes, as many as that. There is memory for it.
// The list is taken out meanwhile, so that its length needn't be written word by word.
pub fn push_record(words: &mut Vec<u64>, value: u64, size: usize, bytes: &[u8])
    requires room { vec_len words.old + (size + 1) ≤ vec_capacity words.old }
    requires fits { words_for (length bytes.now) ≡ size }
    ensures words { words.new.items ≡ words.old.items ++ value ∷ words_in size bytes.now }
    ensures capacity { vec_capacity words.new ≡ vec_capacity words.old }
{
    let alloc = *words.allocator();
    let all = mem::replace(words, Vec::new(alloc));
    *words = with_record(all, value, bytes);
}

/// The words of one record by itself: its value, and then the words of the bytes. The error is want of memory.
pub fn record_of(alloc: Global, value: u64, bytes: &[u8]) -> Result<Vec<u64>, AllocError>
    ensures { IfOk result (λ words. words.items ≡ value ∷ words_of bytes.now) }
{
    let words = Vec::with_capacity(alloc, words_for(bytes.len()) + 1)?;
    Ok(with_record(words, value, bytes))
}

// The words with a record behind them.
fn with_record(mut words: Vec<u64>, value: u64, bytes: &[u8]) -> Vec<u64>
    requires { vec_len words + (words_for (length bytes.now) + 1) ≤ vec_capacity words }
    ensures words { result.items ≡ words.items ++ value ∷ words_of bytes.now }
    ensures capacity { vec_capacity result ≡ vec_capacity words }
{
    words.push_reserved(value);
    let (chunks, rest) = bytes.as_chunks::<8>();
    for i in 0..chunks.len() {
        words.push_reserved(u64::from_be_bytes(chunks[i]));
    }
    if !rest.is_empty() {
        words.push_reserved(last_word(bytes));
    }
    words
}

// Whether a text is that of the bytes.
pub fn is_of(text: &[u64], bytes: &[u8]) -> bool
    ensures { IsTrue result ↔ text.now ≡ words_of bytes.now }
{
    if text.len() != words_for(bytes.len()) {
        return false;
    }
    let (chunks, rest) = bytes.as_chunks::<8>();
    let mut same = true;
    for i in 0..chunks.len() {
        same &= text[i] == u64::from_be_bytes(chunks[i]);
    }
    if !rest.is_empty() {
        same &= text[chunks.len()] == last_word(bytes);
    }
    same
}

// How a text compares with that of the bytes.
pub fn order(text: &[u64], bytes: &[u8]) -> Ordering
    ensures { result ≡ byte_order text.now (words_of bytes.now) }
{
    let mut rest = bytes;
    for word in text {
        if rest.is_empty() {
            return Ordering::Greater;
        }
        let other = first_word(rest);
        if *word != other {
            return word.cmp(&other);
        }
        rest = after_first(rest);
    }
    if rest.is_empty() {
        Ordering::Equal
    } else {
        Ordering::Less
    }
}
