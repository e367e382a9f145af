//! What is kept of two trees: a third one, of the keys that both have, or the one or the other alone.
//!
//! keep.rt says which keys a result takes. trees.rt goes down both trees at once: branches.rt takes two branches byte
//! by byte, copies what the one alone has, and enters what both have; bits.rt takes two nodes of sets whose keys have
//! one byte by words of bits, and small.rt goes through the pairs of two other nodes side by side by merges.rt; each
//! makes a node of what is kept. The result's nodes are as small as its keys allow, as
//! judy_change settles a branch that lost keys.
//!
//! The crate stands on the nodes of judy_node, which it makes anew and never changes.
#![tactic(auto)]

mod bits;
mod branches;
mod keep;
mod merges;
mod small;
mod trees;

pub use keep::Keep;
pub use merges::{Passed, merge};
pub use trees::combined_tree;
