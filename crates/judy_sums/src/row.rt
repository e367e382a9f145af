//! The chunks of a list in a row, with the sum of each one's numbers.
//!
//! The sums stand side by side, with those of groups of them, so that those of the chunks before a place are added up
//! over few lines of memory.

ghost use Rattle.std.specs.Prelude.{◌≡◌, ◌<◌, ◌≤◌, ◌+◌, ◌-◌, ◌/◌, ◌^◌, ◌∷◌, [], length, take, drop, get_or, slice_set, OnOk, OnErr};
ghost use Rattle.std.specs.List.{insert, remove, sum_by};
ghost use Rattle.judy_sums.specs.Pairs.{sum_of};
ghost use Rattle.judy_sums.specs.Chunks.{joined, pair_at, with_left};

use crate::chunk::Chunk;
use crate::chunks::Spot;
use crate::entry::Entry;
use crate::groups::{add, put_in, subtract, sum_before, take_out};
use std::alloc::{AllocError, Global};
use std::marker::Model;
use std::mem::size_of;

// To contracts it is the list of the chunks.
#[derive(Drop)]
pub struct Chunks {
    list: Vec<Chunk>,
    totals: Vec<u64>,
    groups: Vec<u64>,
}

impl Model for Chunks {
    ghost use Rattle.std.specs.Prelude.{List};
    ghost use Rattle.judy_sums.specs.Pairs.{Pairs};
    ghost use Rattle.judy_sums.specs.Chunks.{AreTotals};

    ghost Value = { List Pairs };

    ghost view = { λ chunks. chunks.list.items };

    ghost invariant = { λ chunks.
        AreTotals chunks.list.items chunks.totals.items chunks.groups.items };
}

impl Chunks {
    // No chunk. It asks for no memory.
    pub fn new(alloc: Global) -> Chunks
        ensures { result ≡ [] }
    {
        Chunks {
            list: Vec::new(alloc),
            totals: Vec::new(alloc),
            groups: Vec::new(alloc),
        }
    }

    // How many bytes of memory they have asked for. It goes over the chunks.
    pub fn bytes(&self) -> u64 {
        let places = (self.list.capacity() as u64).wrapping_mul(size_of::<Chunk>() as u64);
        let sums = (self.totals.capacity() as u64).wrapping_add(self.groups.capacity() as u64);
        let mut total = places.wrapping_add(sums.wrapping_mul(size_of::<u64>() as u64));
        for chunk in &self.list {
            total = total.wrapping_add(chunk.bytes());
        }
        total
    }

    // The chunks, to be searched.
    pub fn all(&self) -> &[Chunk]
        ensures { result.now ≡ self.now }
    {
        &self.list
    }

    // The sum of the numbers of the chunks before a place.
    pub fn total_before(&self, at: usize) -> u64
        requires within { at ≤ length self.now }
        requires fits { sum_of (joined self.now) < 2 ^ 64 }
        ensures { result ≡ sum_of (joined (take at self.now)) }
    {
        sum_before(&self.totals, &self.groups, at)
    }

    // The chunk of one entry comes in as the first. The error is want of memory, and nothing is in then.
    pub fn begin(&mut self, entry: Entry) -> Result<(), AllocError>
        requires { self.old ≡ [] }
        ensures one { OnOk result (self.new ≡ (entry ∷ []) ∷ []) }
        ensures unchanged { OnErr result (self.new ≡ []) }
    {
        self.totals.reserve(1)?;
        self.groups.reserve(1)?;
        let total = entry.number();
        let chunk = Chunk::of(*self.list.allocator(), entry)?;
        self.list.push(chunk)?;
        put_in(&mut self.totals, &mut self.groups, 0, total);
        Ok(())
    }

    // Adds one to the number at a place.
    pub fn raise(&mut self, spot: Spot)
        requires chunk { spot.chunk < length self.old }
        requires place { spot.at < length (get_or self.old spot.chunk []) }
        requires fits { sum_of (joined self.old) + 1 < 2 ^ 64 }
        ensures { let pair = pair_at self.old spot.chunk spot.at in
            self.new ≡ slice_set self.old spot.chunk
            (slice_set (get_or self.old spot.chunk []) spot.at (pair.0, pair.1 + 1)) }
    {
        self.list[spot.chunk].raise(spot.at);
        add(&mut self.totals, &mut self.groups, spot.chunk, 1);
    }

    // Takes one from the number at a place.
    pub fn lower(&mut self, spot: Spot)
        requires chunk { spot.chunk < length self.old }
        requires place { spot.at < length (get_or self.old spot.chunk []) }
        requires some { 1 ≤ (pair_at self.old spot.chunk spot.at).1 }
        ensures { let pair = pair_at self.old spot.chunk spot.at in
            self.new ≡ slice_set self.old spot.chunk
            (slice_set (get_or self.old spot.chunk []) spot.at (pair.0, pair.1 - 1)) }
    {
        self.list[spot.chunk].lower(spot.at);
        subtract(&mut self.totals, &mut self.groups, spot.chunk, 1);
    }

    // Puts an entry in at a place. The error is want of memory.
    pub fn insert(&mut self, spot: Spot, entry: Entry) -> Result<(), AllocError>
        requires chunk { spot.chunk < length self.old }
        requires place { spot.at ≤ length (get_or self.old spot.chunk []) }
        requires fits { sum_of (joined self.old) + entry.1 < 2 ^ 64 }
        ensures inserted { OnOk result (self.new ≡ slice_set self.old spot.chunk
            (insert (get_or self.old spot.chunk []) spot.at entry)) }
        ensures unchanged { OnErr result (self.new ≡ self.old) }
    {
        let number = entry.number();
        self.list[spot.chunk].insert(spot.at, entry)?;
        add(&mut self.totals, &mut self.groups, spot.chunk, number);
        Ok(())
    }

    // Takes the entry at a place out, and the chunk with its last one.
    pub fn remove(&mut self, spot: Spot)
        requires chunk { spot.chunk < length self.old }
        requires place { spot.at < length (get_or self.old spot.chunk []) }
        requires fits { sum_of (joined self.old) < 2 ^ 64 }
        ensures { self.new ≡ with_left self.old spot.chunk
            (remove (get_or self.old spot.chunk []) spot.at) }
    {
        let chunk = &mut self.list[spot.chunk];
        let number = chunk.remove(spot.at);
        let left = chunk.len();
        subtract(&mut self.totals, &mut self.groups, spot.chunk, number);
        if left == 0 {
            self.list.remove(spot.chunk);
            take_out(&mut self.totals, &mut self.groups, spot.chunk);
        }
    }

    // Parts a chunk into its two halves. The error is want of memory, and nothing is parted then.
    pub fn part(&mut self, at: usize) -> Result<(), AllocError>
        requires within { at < length self.old }
        requires fits { sum_of (joined self.old) < 2 ^ 64 }
        ensures parted { let chunk = get_or self.old at [] in let half = length chunk / 2 in
            OnOk result (self.new ≡ insert
            (slice_set self.old at (take half chunk)) (at + 1) (drop half chunk)) }
        ensures unchanged { OnErr result (self.new ≡ self.old) }
    {
        self.list.reserve(1)?;
        self.totals.reserve(1)?;
        self.groups.reserve(1)?;
        let upper = self.list[at].cut_half()?;
        let total = upper.total();
        let Ok(()) = self.list.insert(at + 1, upper) else {
            unreachable!()
        };
        subtract(&mut self.totals, &mut self.groups, at, total);
        put_in(&mut self.totals, &mut self.groups, at + 1, total);
        Ok(())
    }
}
