//! Words that come into a list.

ghost use Rattle.std.specs.Prelude.{◌≡◌, ◌<◌, ◌+◌, ◌^◌, [], length, OnOk, OnErr, None};
ghost use Rattle.std.specs.FinMap.{find, put};
ghost use Rattle.judy_model.specs.Keys.{word_order};
ghost use Rattle.judy_sums.specs.Pairs.{sum_of};
ghost use Rattle.judy_sums.specs.Chunks.{AreChunks, IsSpot, joined};

use crate::changes::{insert, part};
use crate::chunks::Spot;
use crate::entry::Entry;
use crate::row::Chunks;
use std::alloc::AllocError;

// So many entries a chunk holds at least before it is parted.
const LONG: usize = 64;

// Parts a chunk into its two halves where it is long, so that a chunk has no more than an eighth as many entries as
// there are chunks, or than so many. The list stays; where memory is refused the chunk stays long.
fn part_long(chunks: &mut Chunks, at: usize)
    requires are { AreChunks chunks.old }
    requires within { at < length chunks.old }
    ensures are { AreChunks chunks.new }
    ensures same { joined chunks.new ≡ joined chunks.old }
{
    let all = chunks.all();
    let len = all[at].len();
    if len < LONG || len < all.len() / 8 {
        return;
    }
    let _ = part(chunks, at);
}

// The first word of a list comes in. The error is want of memory, and the list stays then.
pub fn begin(chunks: &mut Chunks, entry: Entry) -> Result<(), AllocError>
    requires empty { chunks.old ≡ [] }
    requires fits { entry.1 < 2 ^ 64 }
    ensures are { AreChunks chunks.new }
    ensures inserted { OnOk result
        (joined chunks.new ≡ put word_order entry.0 entry.1 (joined chunks.old)) }
    ensures unchanged { OnErr result (joined chunks.new ≡ joined chunks.old) }
{
    chunks.begin(entry)
}

// A new word comes in. The error is want of memory, and the list stays then.
pub fn bring_in(chunks: &mut Chunks, entry: Entry, spot: Spot) -> Result<(), AllocError>
    requires are { AreChunks chunks.old }
    requires place { IsSpot chunks.old entry.0 spot.chunk spot.at }
    requires new { find word_order entry.0 (joined chunks.old) ≡ None }
    requires few { length (joined chunks.old) + 1 < 2 ^ 64 }
    requires fits { sum_of (joined chunks.old) + entry.1 < 2 ^ 64 }
    ensures are { AreChunks chunks.new }
    ensures inserted { OnOk result
        (joined chunks.new ≡ put word_order entry.0 entry.1 (joined chunks.old)) }
    ensures unchanged { OnErr result (joined chunks.new ≡ joined chunks.old) }
{
    insert(chunks, spot, entry)?;
    part_long(chunks, spot.chunk);
    Ok(())
}
