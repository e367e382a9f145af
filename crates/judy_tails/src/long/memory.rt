// How many bytes of memory the longer tails have asked for.
use super::{LongTail, LongTails};
use std::mem::size_of;

// A place of the slab has a tag beside the tail, as an option has.
const _: () = prove!(size_of::<Option<LongTail>>() == 32);

impl LongTails {
    // Those of the list's places and of each tail's words.
    pub fn bytes(&self) -> u64 {
        let place = size_of::<Option<LongTail>>() as u64;
        let mut total = (self.tails.capacity() as u64).wrapping_mul(place);
        for (_, tail) in self.tails.iter() {
            total = total.wrapping_add((tail.words.capacity() as u64).wrapping_mul(8));
        }
        total
    }
}
