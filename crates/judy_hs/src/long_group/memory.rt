// How many bytes of memory a group of longer keys has asked for.
use super::LongGroup;
use crate::chain::{Chain, tree_bytes};
use std::mem::size_of;

impl LongGroup {
    // Those of its hashes, of its records and of its chains.
    pub fn bytes(&self) -> u64 {
        let chains = tree_bytes(self.chains.len(), size_of::<(usize, Chain)>());
        let mut total = self.hashes.bytes().wrapping_add(self.records.memory());
        total = total.wrapping_add(chains);
        for (_, chain) in &self.chains {
            total = total.wrapping_add(chain.bytes());
        }
        total
    }
}
