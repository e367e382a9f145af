//! Row refused-chain-insert: keys that all have one hash, of one length and of another.

use judy_hs::{ByteHash, HsError, JudyHs};
use std::io;

// A hash that is the same for all keys.
#[derive(Clone, Copy)]
struct Same;

impl ByteHash for Same {
    ghost use Rattle.std.specs.Prelude.{List, ℕ};

    const LONGEST: usize = 1024;

    ghost LONGEST = { 1024 };

    ghost hash_of = { λ _. 7 };

    fn hash(&self, _bytes: &[u8]) -> u32 {
        7
    }
}

// More keys than the array is given: what it may lack is memory.
const LIMIT: u64 = 10;

// The keys of the row. The second shares the chain of the first, and the third begins a group of its own.
const KEYS: [&str; 3] = ["aaaaaaaaa", "aaaaaaaab", "aaaaaaaaaa"];

/// Puts each key in and writes its place, counted from 1, as its value; then all keys are told.
pub fn play(rt: &HostRuntime) -> io::Result<()> {
    let mut array = JudyHs::new(rt.alloc(), LIMIT, Same);
    let mut value = 0u64;
    for key in KEYS {
        value = value.wrapping_add(1);
        put(rt, &mut array, key, value)?;
        tell(rt, &array)?;
    }
    Ok(())
}

// Puts a key in with a value, or leaves the array as it was.
fn put(rt: &impl Print, array: &mut JudyHs<Same>, key: &'static str, value: u64) -> io::Result<()> {
    let answer = match array.ins(key.as_bytes()) {
        Ok(slot) => {
            *slot = value;
            "ok"
        }
        Err(HsError::TooLong) => "too-long",
        Err(HsError::Full) => "full",
        Err(HsError::NoMemory) => "no-memory",
    };
    println!(rt; "ins {key}: {answer}")
}

// The number of keys, and the value of each that is there.
fn tell(rt: &impl Print, array: &JudyHs<Same>) -> io::Result<()> {
    let len = array.len();
    print!(rt; "len {len}")?;
    for key in KEYS {
        match array.get(key.as_bytes()) {
            Some(value) => print!(rt; " {key}={value}")?,
            None => print!(rt; " {key}=none")?,
        }
    }
    println!(rt;)
}
