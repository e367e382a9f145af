//! Arrays over byte strings in no order: keys of bytes of any value, with a limit on how many an array holds. The type
//! of an array says how long a key may be.
//!
//! `JudyHs` maps such keys to words. Its model is the array of judy_model over byte strings, a limit and a finite
//! map, and its contracts cite judy_model's definitions. They hold for every hash, one that is the same for all
//! keys included. A call whose comment names none of the manual is this project's own. The crate stands on the word
//! arrays of judy_word.
//!
//! Inside, keys are grouped by their length (groups.rt, group.rt). A key of at most 8 bytes is a word (part.rt), and
//! its group a `JudyL` from these words to the values; longer keys are found by their hash (hash.rt), which leads to
//! the record of the key (long_group.rt), or to a chain of the keys that share it (shared.rt, chain.rt); their bytes
//! decide. An insert (insert.rt) is tried as that of a new key where the last one was (trial.rt), and once more where
//! it was refused memory and records can move together. A record that goes to another place is copied meanwhile
//! (spare.rt). judyhs.rt has the array, entry.rt its entries as a list has them, and error.rt why an insert
//! is refused. memory.rt in the folders of judyhs.rt, groups.rt, long_group.rt and chain.rt has how many bytes of
//! memory each has asked for.
#![tactic(auto)]

mod chain;
mod entry;
mod error;
mod group;
mod groups;
mod hash;
mod insert;
mod judyhs;
mod long_group;
mod part;
mod shared;
mod spare;
mod trial;

pub use entry::{HsEntry, HsKey};
pub use error::HsError;
pub use hash::{ByteHash, Eights, Fnv1a};
pub use judyhs::JudyHs;
