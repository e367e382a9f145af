//! How many nodes of each kind the rule gives a sorted list of keys, counted plainly: the list is cut into buckets
//! until each is one node.

ghost use Rattle.std.specs.Prelude.{◌<◌, ◌≤◌};

use crate::any_leaf::room_of;
use crate::nodes::Counts;
use judy_leaf::Words;
use std::alloc::{AllocError, Global};
use std::process::Abort;

// Keys of one node, and how many of their lowest bytes are its own.
type Bucket<'a> = (&'a [(u64, u64)], u8);

// The byte of a key at a place, counted from the highest.
fn byte(key: u64, place: u8) -> Option<u8> {
    key.to_be_bytes().get(usize::from(place)).copied()
}

// The first place at which not all keys have the same byte; 8 where they have.
fn first_difference(pairs: &[(u64, u64)]) -> Option<u8> {
    let first = pairs.first()?.0;
    let mut differing = 0;
    for pair in pairs {
        differing |= pair.0 ^ first;
    }
    u8::try_from(differing.leading_zeros() / 8).ok()
}

// Counts one node; the counts stand in the order of the kinds.
fn count(counts: &mut Counts, kind: usize)
    requires { kind < 6 }
{
    counts[kind] = counts[kind].wrapping_add(1);
}

// Counts the branch whose children have different bytes at a place, and keeps their keys for later.
fn split<'a>(
    buckets: &mut Vec<Bucket<'a>>,
    counts: &mut Counts,
    pairs: &'a [(u64, u64)],
    place: u8,
) -> Result<(), AllocError>
    requires { place < 7 }
{
    let mut children = 0u64;
    for bucket in pairs.chunk_by(|one, other| byte(one.0, place) == byte(other.0, place)) {
        buckets.push((bucket, 7 - place))?;
        children = children.wrapping_add(1);
    }
    match children {
        0..8 => count(counts, 3),
        8..128 => count(counts, 4),
        _ => count(counts, 5),
    }
    Ok(())
}

// Counts the node of keys.
fn count_node<'a, V: Words + Drop>(
    buckets: &mut Vec<Bucket<'a>>,
    counts: &mut Counts,
    pairs: &'a [(u64, u64)],
    width: u8,
) -> Result<(), AllocError>
    requires { 1 ≤ width }
{
    if pairs.is_empty() {
        return Ok(());
    }
    if pairs.len() <= room_of::<V>(width) {
        count(counts, 0);
    } else if pairs.len() <= 32 {
        count(counts, 1);
    } else {
        match first_difference(pairs) {
            Some(place) if place < 7 => return split(buckets, counts, pairs, place),
            _ => count(counts, 2),
        }
    }
    Ok(())
}

// The counts of all nodes. There are fewer than twice as many as keys.
pub(crate) fn counts_by_rule<V: Words + Drop>(
    rt: &impl Abort,
    alloc: Global,
    pairs: &[(u64, u64)],
) -> Result<Counts, AllocError> {
    let mut counts = [0; 6];
    let mut buckets = vec![in alloc; (pairs, 8)]?;
    for _ in 0..=pairs.len().saturating_mul(2) {
        let Some((bucket, width)) = buckets.pop() else {
            break;
        };
        assert!(rt; width >= 1);
        count_node::<V>(&mut buckets, &mut counts, bucket, width)?;
    }
    assert!(rt; buckets.is_empty());
    Ok(counts)
}
