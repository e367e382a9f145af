//! The keys that share the hash of another one, by the place of that one.

ghost use Rattle.std.specs.Prelude.{ℕ, ◌≡◌, ◌≢◌, ◌∷◌, [], OnOk, OnErr, None, MatchOption};
ghost use Rattle.std.specs.BTreeMap as tree;
ghost use Rattle.std.specs.Ordering.{nat_cmp};
ghost use Rattle.judy_hs.specs.Chains.{with_pair, without};
ghost use Rattle.judy_hs.specs.LongRecords.{others_at};

use crate::chain::Chain;
use std::alloc::{AllocError, Global};
use std::collections::BTreeMap;

// Puts a key in beside the others of a place, with the value 0.
pub fn join(
    alloc: Global,
    chains: &mut BTreeMap<usize, Chain>,
    place: usize,
    key: &[u8],
) -> Result<(), AllocError>
    ensures put { OnOk result
        (others_at chains.new place ≡ with_pair (others_at chains.old place) key.now 0) }
    ensures refused { OnErr result (others_at chains.new place ≡ others_at chains.old place) }
    ensures same { (at : ℕ) → at ≢ place → others_at chains.new at ≡ others_at chains.old at }
{
    match chains.get_mut(&place) {
        Some(chain) => chain.put(alloc, key, 0),
        None => add_chain(alloc, chains, place, key),
    }
}

// The same where there is none yet.
fn add_chain(
    alloc: Global,
    chains: &mut BTreeMap<usize, Chain>,
    place: usize,
    key: &[u8],
) -> Result<(), AllocError>
    requires { tree.get nat_cmp chains.old place ≡ None }
    ensures put { OnOk result (others_at chains.new place ≡ (key.now, 0) ∷ []) }
    ensures refused { OnErr result (others_at chains.new place ≡ []) }
    ensures same { (at : ℕ) → at ≢ place → others_at chains.new at ≡ others_at chains.old at }
{
    let mut chain = Chain::new(alloc);
    chain.put(alloc, key, 0)?;
    chains.insert(place, chain)?;
    Ok(())
}

// Takes a key out of the others of a place.
pub fn leave(chains: &mut BTreeMap<usize, Chain>, place: usize, key: &[u8])
    ensures left { others_at chains.new place ≡ without (others_at chains.old place) key.now }
    ensures same { (at : ℕ) → at ≢ place → others_at chains.new at ≡ others_at chains.old at }
{
    let Some(chain) = chains.get_mut(&place) else {
        return;
    };
    chain.remove(key);
    if chain.is_empty() {
        chains.remove(&place);
    }
}

// Takes the first of the others of a place out, with its value, where there is one.
pub fn take_first(chains: &mut BTreeMap<usize, Chain>, place: usize) -> Option<(Vec<u8>, u64)>
    ensures first { MatchOption result
        ((others_at chains.old place ≡ []) × (others_at chains.new place ≡ []))
        (λ first. others_at chains.old place
        ≡ (first.0.items, first.1) ∷ others_at chains.new place) }
    ensures same { (at : ℕ) → at ≢ place → others_at chains.new at ≡ others_at chains.old at }
{
    let Some(chain) = chains.get_mut(&place) else {
        return None;
    };
    let first = chain.take_first();
    if chain.is_empty() {
        chains.remove(&place);
    }
    first
}
