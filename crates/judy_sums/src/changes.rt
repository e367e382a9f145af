//! Changes of a list at a place.

ghost use Rattle.std.specs.Prelude.{◌≡◌, ◌<◌, ◌≤◌, ◌+◌, ◌-◌, ◌^◌, [], length, get_or, OnOk, OnErr, None};
ghost use Rattle.std.specs.FinMap.{find, put};
ghost use Rattle.judy_model.specs.Keys.{word_order};
ghost use Rattle.judy_sums.specs.Pairs.{sum_of, without};
ghost use Rattle.judy_sums.specs.Chunks.{AreChunks, IsSpot, pair_at, joined};

use crate::chunks::Spot;
use crate::entry::Entry;
use crate::row::Chunks;
use std::alloc::AllocError;

// Adds one to the number at a place.
pub fn raise(chunks: &mut Chunks, spot: Spot)
    requires are { AreChunks chunks.old }
    requires chunk { spot.chunk < length chunks.old }
    requires place { spot.at < length (get_or chunks.old spot.chunk []) }
    requires fits { sum_of (joined chunks.old) + 1 < 2 ^ 64 }
    ensures are { AreChunks chunks.new }
    ensures changed { let pair = pair_at chunks.old spot.chunk spot.at in
        joined chunks.new ≡ put word_order pair.0 (pair.1 + 1) (joined chunks.old) }
{
    chunks.raise(spot);
}

// Takes one from the number at a place.
pub fn lower(chunks: &mut Chunks, spot: Spot)
    requires are { AreChunks chunks.old }
    requires chunk { spot.chunk < length chunks.old }
    requires place { spot.at < length (get_or chunks.old spot.chunk []) }
    requires some { 1 ≤ (pair_at chunks.old spot.chunk spot.at).1 }
    ensures are { AreChunks chunks.new }
    ensures changed { let pair = pair_at chunks.old spot.chunk spot.at in
        joined chunks.new ≡ put word_order pair.0 (pair.1 - 1) (joined chunks.old) }
{
    chunks.lower(spot);
}

// Puts an entry with a new word in at its place. The error is want of memory, and the list stays then.
pub fn insert(chunks: &mut Chunks, spot: Spot, entry: Entry) -> Result<(), AllocError>
    requires are { AreChunks chunks.old }
    requires place { IsSpot chunks.old entry.0 spot.chunk spot.at }
    requires new { find word_order entry.0 (joined chunks.old) ≡ None }
    requires few { length (joined chunks.old) + 1 < 2 ^ 64 }
    requires fits { sum_of (joined chunks.old) + entry.1 < 2 ^ 64 }
    ensures are { AreChunks chunks.new }
    ensures many { length chunks.new ≡ length chunks.old }
    ensures inserted { OnOk result
        (joined chunks.new ≡ put word_order entry.0 entry.1 (joined chunks.old)) }
    ensures unchanged { OnErr result (joined chunks.new ≡ joined chunks.old) }
{
    chunks.insert(spot, entry)?;
    Ok(())
}

// Parts a chunk into its two halves. The list stays, whether there is memory or not; the error is want of it.
pub fn part(chunks: &mut Chunks, at: usize) -> Result<(), AllocError>
    requires are { AreChunks chunks.old }
    requires within { at < length chunks.old }
    requires long { 2 ≤ length (get_or chunks.old at []) }
    ensures are { AreChunks chunks.new }
    ensures parted { OnOk result (length chunks.new ≡ length chunks.old + 1) }
    ensures same { joined chunks.new ≡ joined chunks.old }
{
    chunks.part(at)?;
    Ok(())
}

// Takes the entry at a place out.
pub fn remove(chunks: &mut Chunks, spot: Spot)
    requires are { AreChunks chunks.old }
    requires chunk { spot.chunk < length chunks.old }
    requires place { spot.at < length (get_or chunks.old spot.chunk []) }
    ensures are { AreChunks chunks.new }
    ensures removed { joined chunks.new
        ≡ without (pair_at chunks.old spot.chunk spot.at).0 (joined chunks.old) }
{
    chunks.remove(spot);
}
