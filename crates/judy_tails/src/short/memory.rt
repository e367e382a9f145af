// How many bytes of memory the lists of tails have asked for.
use super::ShortTails;
use judy_records::Records;
use std::mem::size_of;

impl ShortTails {
    // Those of the lists' places and of each list.
    pub fn bytes(&self) -> u64 {
        let mut total = (self.lists.capacity() as u64).wrapping_mul(size_of::<Records>() as u64);
        for list in &self.lists {
            total = total.wrapping_add(list.memory());
        }
        total
    }
}
