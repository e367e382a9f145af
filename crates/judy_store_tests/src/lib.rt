//! The worked rows that cross crates, as tests by the rows' names: scripts with the answers that the
//! specification gives, run over memory, and dumps; and some tests beside them.
//!
//! The crate stands on top of those that it tries, and has no code of its own.
#![tactic(auto)]

#[cfg(test)]
mod rows;
