//! The chunks of a list, one after the other: where a word belongs, and what is added up on the way there.

ghost use Rattle.std.specs.Prelude.{◌≡◌, ◌<◌, ◌≤◌, ◌^◌, [], length, get_or, IsTrue, IsFalse};
ghost use Rattle.judy_sums.specs.Pairs.{sum_of, sum_below};
ghost use Rattle.judy_sums.specs.Chunks.{AreChunks, BelongsTo, IsSpot, StandsAt, pair_at, joined};

use crate::chunk::Chunk;
use crate::row::Chunks;

// A place in the list: the chunk, and the place in there.
#[derive(Clone, Copy)]
pub struct Spot {
    pub chunk: usize,
    pub at: usize,
}

// The place of the chunk to which a word belongs: the last one that doesn't begin above it, or else the first.
pub fn chunk_of(chunks: &[Chunk], word: u64) -> usize
    requires are { AreChunks chunks.now }
    requires some { 1 ≤ length chunks.now }
    ensures { BelongsTo chunks.now word result }
{
    let mut low = 0;
    let mut high = chunks.len();
    'search: while high - low > 1 {
        let middle = low + (high - low) / 2;
        if chunks[middle].begins_by(word) {
            low = middle;
        } else {
            high = middle;
        }
    }
    low
}

// The place of a word in the list, or that it would have.
pub fn spot_of(chunks: &[Chunk], word: u64) -> Spot
    requires are { AreChunks chunks.now }
    requires some { 1 ≤ length chunks.now }
    ensures { IsSpot chunks.now word result.chunk result.at }
{
    let chunk = chunk_of(chunks, word);
    let at = chunks[chunk].place_of(word);
    Spot { chunk, at }
}

// Whether a word stands at a place.
pub fn stands(chunks: &[Chunk], word: u64, spot: Spot) -> bool
    ensures there { IsTrue result → StandsAt chunks.now word spot.chunk spot.at }
    ensures apart { IsFalse result → StandsAt chunks.now word spot.chunk spot.at → ⊥ }
{
    match chunks.get(spot.chunk) {
        Some(chunk) => chunk.stands(word, spot.at),
        None => false,
    }
}

// The sum of the numbers whose words are less than the given one.
pub fn below(chunks: &Chunks, word: u64) -> u64
    requires { AreChunks chunks.now }
    ensures { result ≡ sum_below (joined chunks.now) word }
{
    let all = chunks.all();
    if all.is_empty() {
        return 0;
    }
    let at = chunk_of(all, word);
    chunks.total_before(at) + all[at].below(word)
}

// The number at a place.
pub fn number(chunks: &[Chunk], spot: Spot) -> u64
    requires chunk { spot.chunk < length chunks.now }
    requires place { spot.at < length (get_or chunks.now spot.chunk []) }
    ensures { result ≡ (pair_at chunks.now spot.chunk spot.at).1 }
{
    chunks[spot.chunk].number(spot.at)
}
