//! What those who go through a branch ask of it.

ghost use Rattle.std.specs.Prelude.{◌≡◌, ◌+◌, ◌*◌, ◌^◌, ◌<◌, ◌≤◌, length, slice_index_or, slice_get, Some, MatchOption, IsFalse, IsTrue};
ghost use Rattle.judy_model.specs.WordBytes.{number_of};
ghost use Rattle.judy_bits.specs.ByteSets as set;
ghost use Rattle.judy_bits.specs.ByteSets.{has};
ghost use Rattle.judy_node.specs.Trees.{Tree};
ghost use Rattle.judy_node.specs.Branches.{IsWholeBranch};
ghost use Rattle.judy_node.specs.Steps.{IsStep};
ghost use Rattle.judy_node.specs.Populations.{population, keys_before, AreSums, HoldsNth};

use crate::child::BranchOf;
use crate::populations::{child_holding, keys_by_children};
use crate::step::Step;
use crate::sums::{Sums, holding_by_groups, keys_by_groups};
use judy_bits::{tail, without_tail};
use judy_leaf::Words;
use std::alloc::Global;

impl<V: Words + Drop> BranchOf<V> {
    /// Where a key goes: one step down, or which way past the branch.
    // On each way down, a level at a time: by a call the step would be written to memory and read back from there.
    #[inline(always)]
    pub fn step(&self, key: u64) -> Step
        requires { IsWholeBranch V.WORDS self.now }
        ensures { IsStep (256 ^ self.now.width)
            (number_of self.now.skip * 256) self.now.bytes key result }
    {
        let width = usize::from(self.width);
        let front = self.skip.number() * 256;
        let block = without_tail(key, width);
        if block < front {
            return Step::Below;
        }
        if block - front > 255 {
            return Step::Above;
        }
        let byte = (block - front) as u8;
        let rest = tail(key, width);
        match self.place(byte) {
            Some(place) => Step::Child(byte, place, rest),
            None => Step::Missing(byte, self.bytes.rank(byte), rest),
        }
    }

    /// The place of the child of a byte; none where no child has it. Where all 256 children stand, a byte is its place.
    #[inline(always)]
    pub fn place(&self, byte: u8) -> Option<usize>
        requires { IsWholeBranch V.WORDS self.now }
        ensures { result ≡ set.place self.now.bytes byte }
    {
        if self.children.len() == 256 {
            Some(usize::from(byte))
        } else {
            self.bytes.place(byte)
        }
    }

    /// The byte of the child at a place. Where all 256 children stand, a place is its byte.
    pub fn byte_at(&self, place: usize) -> u8
        requires branch { IsWholeBranch V.WORDS self.now }
        requires place { place < length self.now.children.items }
        ensures { slice_get self.now.bytes place ≡ Some result }
    {
        if self.children.len() == 256 {
            return place as u8;
        }
        let Some(byte) = self.bytes.nth(place) else {
            unreachable!()
        };
        byte
    }

    /// How many keys there are below.
    pub fn keys(&self) -> u64
        requires { IsWholeBranch V.WORDS self.now }
        ensures { result ≡ population self.now.children.items }
    {
        self.population
    }

    /// The sums of the children as they are: none where there aren't 256, or where there is no memory for them.
    #[inline(always)]
    pub fn sums_of_children(&self, alloc: Global) -> Sums
        requires { IsWholeBranch V.WORDS self.now }
        ensures { AreSums result self.now.children.items }
    {
        let _ = self.keys();
        Sums::of(alloc, &self.children)
    }

    /// How many keys there are below the first children, so many, and at most all. It adds from the nearer end, by sums
    /// of sixteen children where there are any.
    pub fn keys_before(&self, place: usize) -> u64
        requires branch { IsWholeBranch V.WORDS self.now }
        requires sums { AreSums self.now.sums self.now.children.items }
        requires place { place ≤ length self.now.children.items }
        ensures { result ≡ keys_before place self.now.children.items }
    {
        let all = self.keys();
        match &self.sums.groups {
            Some(groups) => keys_by_groups(groups, &self.children, all, place),
            None => keys_by_children(&self.children, all, place),
        }
    }

    /// The place of the child that has the n-th of the keys below, counted from 0 and below their number, and which of
    /// its own keys it is. It is looked for from the end that fewer keys part it from.
    pub fn holding(&self, n: u64) -> (usize, u64)
        requires branch { IsWholeBranch V.WORDS self.now }
        requires sums { AreSums self.now.sums self.now.children.items }
        requires within { n < self.now.population }
        ensures { (kid : Tree) × HoldsNth self.now.children.items n result.0 result.1 kid }
    {
        let all = self.keys();
        match &self.sums.groups {
            Some(groups) => holding_by_groups(groups, &self.children, all, n),
            None => child_holding(&self.children, all, n),
        }
    }
}
