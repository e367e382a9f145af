//! A set of at most seven bytes, in eight bytes with their count.

ghost use Rattle.std.specs.Prelude.{◌≡◌, ◌-◌, ◌<◌, ◌≤◌, [], ◌∷◌, ◌++◌, length, take, drop};
ghost use Rattle.std.specs.List.{remove};
ghost use Rattle.judy_bits.specs.ByteSets as set;
ghost use Rattle.judy_bits.specs.ByteSets.{IsByteSet};

use crate::bits256::Bits256;
use crate::lanes::first_place;
use std::marker::Model;

/// A set of at most seven bytes: the members in ascending order, and 255 in each place after them. Since 255
/// is below no byte, a rank is counted over all seven places, whatever the number of members.
#[derive(Clone, Copy, PartialEq, Eq, Debug)]
pub(crate) struct FewBytes {
    bytes: [u8; 7],
    count: u8,
}

impl Model for FewBytes {
    ghost use Rattle.std.specs.Prelude.{ℕ, List, length, take};
    ghost use Rattle.judy_bits.specs.ByteSets.{IsByteSet};
    ghost use Rattle.judy_bits.specs.Paddings.{IsPadded, padded, padded-take, length-meant};

    ghost Value = { List ℕ };

    ghost view = { λ a. take a.count a.bytes };

    ghost invariant = { λ a. IsPadded 255 a.bytes a.count × IsByteSet (take a.count a.bytes) };

    ghost inverse = { λ meant. record { bytes = padded 255 meant; count = length meant } };

    ghost inverse_ok = { λ a h. λ t.
        record {
          bytes = padded-take 255 a.bytes a.count h.0 t;
          count = length-meant 255 a.bytes a.count h.0 t;
        } };
}

/// Puts a byte at a place; the bytes from there on move up by one, and the last one is lost.
fn open_place(bytes: &mut [u8; 7], at: usize, byte: u8)
    requires { at < 7 }
    ensures { bytes.new ≡ take at bytes.old ++ byte ∷ take (6 - at) (drop at bytes.old) }
{
    let before = *bytes;
    bytes[at + 1..].copy_from_slice(&before[at..6]);
    bytes[at] = byte;
}

/// Takes the byte at a place away; the bytes behind it move down by one, and 255 comes last.
fn close_place(bytes: &mut [u8; 7], at: usize)
    requires { at < 7 }
    ensures { bytes.new ≡ remove bytes.old at ++ 255 ∷ [] }
{
    let before = *bytes;
    bytes[at..6].copy_from_slice(&before[at + 1..]);
    bytes[6] = 255;
}

impl FewBytes {
    /// The empty set.
    pub(crate) fn new() -> FewBytes
        ensures { result ≡ [] }
    {
        FewBytes {
            bytes: [255; 7],
            count: 0,
        }
    }

    /// How many members there are.
    pub(crate) fn len(&self) -> usize
        ensures count { result ≡ length self.now }
        ensures within { result ≤ 7 }
        ensures is_set { IsByteSet self.now }
    {
        self.count as usize
    }

    /// The members as bits.
    pub(crate) fn to_bits(&self) -> Bits256
        ensures { result ≡ self.now }
    {
        let mut bits = Bits256::new();
        for byte in &self.bytes[..self.count as usize] {
            bits.add(*byte);
        }
        bits
    }

    /// How many members are below the byte.
    pub(crate) fn rank(&self, byte: u8) -> usize
        ensures { result ≡ set.rank self.now byte }
    {
        let mut below = 0;
        for member in &self.bytes {
            if *member < byte {
                below += 1;
            }
        }
        below
    }

    /// The place of a member, which is its rank; none where the byte isn't a member. All places are compared at once,
    /// and the count beside them, so that they are one load.
    // As a set's: a call would cost as much as the comparison.
    #[inline(always)]
    pub(crate) fn place(&self, byte: u8) -> Option<usize>
        ensures { result ≡ set.place self.now byte }
    {
        let [first, second, third, fourth, fifth, sixth, seventh] = self.bytes;
        let all = [
            first, second, third, fourth, fifth, sixth, seventh, self.count,
        ];
        let at = first_place(all, byte);
        if at < self.count as usize {
            Some(at)
        } else {
            None
        }
    }

    /// The member at a place, counted from 0; none from the number of members on.
    pub(crate) fn nth(&self, at: usize) -> Option<u8>
        ensures member { result ≡ set.nth self.now at }
        ensures is_set { IsByteSet self.now }
    {
        if at < self.count as usize {
            Some(self.bytes[at])
        } else {
            None
        }
    }

    /// The nearest member at or above the byte; none where all are below.
    pub(crate) fn next_from(&self, byte: u8) -> Option<u8>
        ensures { result ≡ set.next_from self.now byte }
    {
        self.nth(self.rank(byte))
    }

    /// The nearest member at or below the byte: it stands before the first that is above it.
    pub(crate) fn prev_from(&self, byte: u8) -> Option<u8>
        ensures { result ≡ set.prev_from self.now byte }
    {
        let upto = self.count_up_to(byte);
        if upto == 0 {
            None
        } else {
            Some(self.bytes[upto - 1])
        }
    }

    /// How many members are at or below the byte.
    fn count_up_to(&self, byte: u8) -> usize
        ensures { result ≡ set.count_up_to self.now byte }
    {
        if byte == 255 {
            self.count as usize
        } else {
            self.rank(byte + 1)
        }
    }

    /// Makes the byte a member; there are fewer than seven.
    pub(crate) fn add(&mut self, byte: u8)
        requires { length self.old < 7 }
        ensures { self.new ≡ set.with_byte self.old byte }
    {
        if self.place(byte).is_none() {
            let at = self.rank(byte);
            open_place(&mut self.bytes, at, byte);
            self.count += 1;
        }
    }

    /// Takes the byte out, where it is a member.
    pub(crate) fn take(&mut self, byte: u8)
        ensures { self.new ≡ set.without_byte self.old byte }
    {
        if let Some(at) = self.place(byte) {
            close_place(&mut self.bytes, at);
            self.count -= 1;
        }
    }
}
