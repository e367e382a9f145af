//! An ordered list of words with numbers, which knows the sum of the numbers below a word.
//!
//! To contracts a [`Sums`] is the finite map from its words to their numbers. The numbers change by one at a time, and
//! memory is asked for only where a word comes in ([`Sums::raise`], [`Sums::add`]); the list is left as it was where it
//! is refused. A [`LevelSums`] has lists under indices. The crate stands on judy_model alone.
//!
//! sums.rt has the list and its calls, level_sums.rt lists under indices, row.rt a list's chunks with their sums,
//! groups.rt these sums and those of groups of them, chunks.rt where a word belongs, chunk.rt one chunk, and entry.rt a
//! word with its number. comings.rt has how words come in, steps.rt one more and one less at a word, changes.rt what
//! changes at a place, and laws.rt laws of counts over a level of an array of strings.
#![tactic(auto)]

mod changes;
mod chunk;
mod chunks;
mod comings;
mod entry;
mod groups;
pub mod laws;
mod level_sums;
mod row;
mod steps;
mod sums;

pub use level_sums::LevelSums;
pub use sums::Sums;
