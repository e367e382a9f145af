//! How many members stand before each word of bits, so that a place is found by one count.

ghost use Rattle.std.specs.Prelude.{◌≡◌};
ghost use Rattle.judy_bits.specs.ByteSets as set;
ghost use Rattle.judy_bits.specs.FrontCounts.{AreFronts};

use crate::bits::count;
use crate::bits256::Bits256;

/// How many members of 256 bits are below byte 0, 64, 128 and 192.
#[derive(Clone, Debug, Drop)]
pub(crate) struct Fronts {
    counts: [u8; 4],
}

impl Fronts {
    /// Those of a set.
    pub(crate) fn of(bits: &Bits256) -> Fronts
        ensures { AreFronts result.counts bits.now }
    {
        let [first, second, third, _] = bits.words();
        let one = count(first);
        let two = one + count(second);
        let three = two + count(third);
        Fronts {
            counts: [0, one as u8, two as u8, three as u8],
        }
    }

    /// The place of a member of the set whose counts these are; none where the byte isn't a member.
    // As a set's: a call would cost as much as the count.
    #[inline(always)]
    pub(crate) fn place(&self, bits: &Bits256, byte: u8) -> Option<usize>
        requires { AreFronts self.now.counts bits.now }
        ensures { result ≡ set.place bits.now byte }
    {
        bits.place_behind(byte, usize::from(self.counts[(byte / 64) as usize]))
    }

    /// How many members of that set are below the byte.
    // As `place`.
    #[inline(always)]
    pub(crate) fn rank(&self, bits: &Bits256, byte: u8) -> usize
        requires { AreFronts self.now.counts bits.now }
        ensures { result ≡ set.rank bits.now byte }
    {
        bits.rank_behind(byte, usize::from(self.counts[(byte / 64) as usize]))
    }
}
