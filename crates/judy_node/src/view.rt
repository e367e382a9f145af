//! What a node shows of itself.

use crate::child::BranchOf;
use judy_leaf::{BitRef, ImmOf, LeafRef, ValueWords, Words};

/// A node to read, by its kind.
#[derive(Drop)]
pub enum ViewOf<'a, V: Words + Drop> {
    /// No key.
    Null,
    /// One pair of a key of eight bytes and its value, 0 where keys have no values: the root's immediate.
    One(u64, u64),
    /// An immediate below the root: a few keys.
    Imm(ImmOf<V>),
    /// A leaf: up to 32 keys.
    Leaf(LeafRef<'a, V>),
    /// Keys that differ in their last byte alone: the number that the skipped bytes spell, and the last bytes.
    BitLeaf(u64, BitRef<'a, V>),
    /// A branch.
    Branch(&'a BranchOf<V>),
}

/// A node to read, of a tree whose keys have `W` words of value each, 0 or 1.
pub type View<'a, const W: usize> = ViewOf<'a, ValueWords<W>>;
