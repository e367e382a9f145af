//! The header of a block, the first word of its allocation: bits 0 to 15 are the number of words in use,
//! bits 16 to 31 the capacity, and bits 32 to 63 the tag.

ghost use Rattle.std.specs.Prelude.{◌≡◌, ◌<◌, ◌≤◌, ◌^◌};
ghost use Rattle.judy_block.specs.Layout.{used_of, capacity_of, tag_of};

// One of the capacity.
const CAPACITY: u64 = 1 << 16;

// One of the tag.
const TAG: u64 = 1 << 32;

// The word, whose parts are read from it.
#[derive(Clone, Copy)]
pub(crate) struct Header {
    pub(crate) bits: u64,
}

impl Header {
    // The header with these three parts.
    pub(crate) fn new(used: usize, capacity: usize, tag: u32) -> Header
        requires used { used < 2 ^ 16 }
        requires capacity { capacity < 2 ^ 16 }
        ensures used { used_of result.bits ≡ used }
        ensures capacity { capacity_of result.bits ≡ capacity }
        ensures tag { tag_of result.bits ≡ tag }
    {
        Header {
            bits: used as u64 + capacity as u64 * CAPACITY + tag as u64 * TAG,
        }
    }

    // The number of words in use.
    pub(crate) fn used(self) -> usize
        ensures { result ≡ used_of self.bits }
    {
        (self.bits % CAPACITY) as usize
    }

    // The number of words that there is room for.
    pub(crate) fn capacity(self) -> usize
        ensures { result ≡ capacity_of self.bits }
    {
        (self.bits / CAPACITY % CAPACITY) as usize
    }

    // The tag.
    pub(crate) fn tag(self) -> u32
        ensures { result ≡ tag_of self.bits }
    {
        (self.bits / TAG) as u32
    }

    // The same capacity and tag with another number of words in use.
    pub(crate) fn with_used(self, used: usize) -> Header
        requires { used < 2 ^ 16 }
        ensures used { used_of result.bits ≡ used }
        ensures capacity { capacity_of result.bits ≡ capacity_of self.bits }
        ensures tag { tag_of result.bits ≡ tag_of self.bits }
    {
        Header {
            bits: self.bits - self.bits % CAPACITY + used as u64,
        }
    }
}
