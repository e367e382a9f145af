// How many bytes of memory a chain has asked for.
use super::Chain;
use std::mem::size_of;

// How many pairs a node of std's trees has place for, and how many bytes it takes beside these.
const NODE_PAIRS: u64 = 15;

const NODE_HEAD: u64 = 8;

// The least bytes that a tree of std of so many pairs has asked for, of so many bytes each: those of full nodes. Up to
// 14 pairs stand in one node; of more pairs no caller sees how many nodes they have.
pub fn tree_bytes(pairs: usize, pair: usize) -> u64 {
    let nodes = (pairs as u64).saturating_add(NODE_PAIRS - 1) / NODE_PAIRS;
    let node = (pair as u64)
        .wrapping_mul(NODE_PAIRS)
        .wrapping_add(NODE_HEAD);
    nodes.wrapping_mul(node)
}

impl Chain {
    // Those of its tree, as far as these are seen, and of each key's bytes.
    pub fn bytes(&self) -> u64 {
        let mut total = tree_bytes(self.entries.len(), size_of::<(Vec<u8>, u64)>());
        for (key, _) in &self.entries {
            total = total.wrapping_add(key.capacity() as u64);
        }
        total
    }
}
