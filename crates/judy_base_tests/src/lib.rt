//! Tests of the lowest crates by their public calls: sets of bytes (byte_sets.rt), blocks of words (blocks.rt), and
//! pipes that meet trouble (pipes.rt).
//!
//! The crate stands on top of those and has no code of its own. So each of them is proved once: a crate with tests of
//! its own would be proved again with them.
#![tactic(auto)]

#[cfg(test)]
mod blocks;
#[cfg(test)]
mod byte_sets;
#[cfg(test)]
mod pipes;
