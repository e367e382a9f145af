//! Keys drawn by chance, the same in each run.

use crate::leaves::value_of;
use crate::plain::note;
use judy_leaf::Words;
use std::alloc::{AllocError, Global};
use std::process::Abort;

// Numbers that look drawn by chance, after Steele, Lea and Flood's SplitMix64.
#[derive(Drop)]
pub(crate) struct Numbers {
    state: u64,
}

impl Numbers {
    pub(crate) fn new() -> Numbers {
        Numbers { state: 0 }
    }

    pub(crate) fn next(&mut self) -> u64 {
        self.state = self.state.wrapping_add(0x9e37_79b9_7f4a_7c15);
        let mixed = self.state ^ (self.state >> 30);
        let mixed = mixed.wrapping_mul(0xbf58_476d_1ce4_e5b9);
        let mixed = (mixed ^ (mixed >> 27)).wrapping_mul(0x94d0_49bb_1331_11eb);
        mixed ^ (mixed >> 31)
    }
}

// A pattern of keys: the bits that each of them has, the bits that any of them may have besides, and how many are
// drawn; one that was drawn before doesn't count.
pub(crate) type Pattern = (u64, u64, u64);

// The pairs of keys drawn by patterns, ascending.
pub(crate) fn drawn<V: Words + Drop>(
    rt: &impl Abort,
    alloc: Global,
    numbers: &mut Numbers,
    patterns: &[Pattern],
) -> Result<Vec<(u64, u64)>, AllocError> {
    let mut pairs = Vec::new(alloc);
    for &(fixed, free, times) in patterns {
        for _ in 0..times {
            let key = fixed | (numbers.next() & free);
            if pairs.iter().all(|pair: &(u64, u64)| pair.0 != key) {
                note(rt, &mut pairs, key, value_of::<V>(key))?;
            }
        }
    }
    Ok(pairs)
}
