//! One more and one less at a word of a list.

ghost use Rattle.std.specs.Prelude.{◌≡◌, ◌<◌, ◌≤◌, ◌+◌, ◌^◌, length, OnOk, OnErr, IsOk, IsSome, None, is_some};
ghost use Rattle.std.specs.FinMap.{find, put};
ghost use Rattle.judy_model.specs.Keys.{word_order};
ghost use Rattle.judy_sums.specs.Pairs.{sum_of, number_in, put_less};
ghost use Rattle.judy_sums.specs.Chunks.{AreChunks, StandsAt, joined};

use crate::changes;
use crate::chunk::Chunk;
use crate::chunks::{Spot, number, spot_of, stands};
use crate::comings::{begin, bring_in};
use crate::entry::Entry;
use crate::row::Chunks;
use std::alloc::AllocError;

// Adds one to the number of a word. The error is want of memory, for a word that isn't there.
pub fn raise(chunks: &mut Chunks, word: u64) -> Result<(), AllocError>
    requires are { AreChunks chunks.old }
    requires few { length (joined chunks.old) + 1 < 2 ^ 64 }
    requires fits { sum_of (joined chunks.old) + 1 < 2 ^ 64 }
    ensures are { AreChunks chunks.new }
    ensures raised { let old = joined chunks.old in
        OnOk result (joined chunks.new ≡ put word_order word (number_in old word + 1) old) }
    ensures unchanged { OnErr result (joined chunks.new ≡ joined chunks.old) }
    ensures there { IsSome (find word_order word (joined chunks.old)) → IsOk result }
{
    if chunks.all().is_empty() {
        return begin(chunks, Entry::new(word, 1));
    }
    let spot = spot_of(chunks.all(), word);
    if stands(chunks.all(), word, spot) {
        changes::raise(chunks, spot);
        return Ok(());
    }
    bring_in(chunks, Entry::new(word, 1), spot)
}

// Brings in a word that isn't there, with a number. The error is want of memory, and the list stays then.
pub fn add(chunks: &mut Chunks, word: u64, number: u64) -> Result<(), AllocError>
    requires are { AreChunks chunks.old }
    requires new { find word_order word (joined chunks.old) ≡ None }
    requires few { length (joined chunks.old) + 1 < 2 ^ 64 }
    requires fits { sum_of (joined chunks.old) + number < 2 ^ 64 }
    ensures are { AreChunks chunks.new }
    ensures added { OnOk result
        (joined chunks.new ≡ put word_order word number (joined chunks.old)) }
    ensures unchanged { OnErr result (joined chunks.new ≡ joined chunks.old) }
{
    if chunks.all().is_empty() {
        return begin(chunks, Entry::new(word, number));
    }
    let place = spot_of(chunks.all(), word);
    bring_in(chunks, Entry::new(word, number), place)
}

// Whether a word is there.
pub fn holds(chunks: &[Chunk], word: u64) -> bool
    requires { AreChunks chunks.now }
    ensures { result ≡ is_some (find word_order word (joined chunks.now)) }
{
    if chunks.is_empty() {
        return false;
    }
    stands(chunks, word, spot_of(chunks, word))
}

// The place of a word that is there.
fn spot_there(chunks: &[Chunk], word: u64) -> Spot
    requires are { AreChunks chunks.now }
    requires there { IsSome (find word_order word (joined chunks.now)) }
    requires some { 1 ≤ length chunks.now }
    ensures { StandsAt chunks.now word result.chunk result.at }
{
    spot_of(chunks, word)
}

// Takes one from the number of a word that is there, which is 1 or more; with its last one the word goes.
pub fn lower(chunks: &mut Chunks, word: u64)
    requires are { AreChunks chunks.old }
    requires there { IsSome (find word_order word (joined chunks.old)) }
    requires some { 1 ≤ number_in (joined chunks.old) word }
    ensures are { AreChunks chunks.new }
    ensures lowered { joined chunks.new ≡ put_less word (joined chunks.old) }
{
    let spot = spot_there(chunks.all(), word);
    if number(chunks.all(), spot) == 1 {
        changes::remove(chunks, spot);
    } else {
        changes::lower(chunks, spot);
    }
}
