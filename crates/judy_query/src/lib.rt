//! The queries of a tree of words: what is the value of a key, how many keys are below a word, which key is the n-th,
//! which key is nearest to a word, which word that is no key is, and which pairs follow each other from a key on.
//!
//! To its callers a tree is the map of its pairs (specs/Maps.antt), and each answer is that of judy_model's
//! definitions. The calls whose names begin with `entry` give a pair, the value with the key, in the same way down;
//! that its key is that of a definition is a lemma (proofs/Links.antt).
//!
//! Each call goes down the tree once, or, for a neighbour, once and then once more from a child that it remembers; so
//! it enters at most 8 nodes, or 15, whatever the tree, loose ones too (specs/Visits.antt, laws.rt). Each is a loop
//! over branches and one look at the node below them. None asks for memory. The visits are counted on the caller's
//! [`judy_bits::Meter`], those of a [`Walk`] too: no call leaves fewer there than it found. judy_unmetered isn't among
//! the crates that this one lists, so the compiler refuses it a meter of its own and each call that reads nodes without
//! a visit.
//!
//! values.rt has the value of a key, many.rt those of many, whose ways go side by side, counts.rt how many keys are
//! below a word, places.rt the key at a place, after.rt and before.rt the nearest keys, surroundings.rt a key's value
//! and the key above it at once, turns.rt where the search for a nearest key turns off the key's way. empties.rt has
//! the nearest words that are no keys, by one search for both sides of a key, of which sides.rt has what differs;
//! absent.rt what a node without children tells of them, rooms.rt where a branch has some: no full child is entered,
//! but passed over by the number of its keys. sparing.rt has the meters by which that search goes down, watch.rt one of
//! them that looks at each child, for a law (laws.rt). walk.rt has the walk, waiting.rt the children that it comes back
//! to, stretch.rt the pairs of one node in turn, scan.rt those of a bitmap leaf, and givings.rt many of them at a time.
//! branches.rt has what all ways down ask of a branch, ends.rt what they ask where they end.
//!
//! The crate enters nodes and never opens one. It stands on judy_model, judy_bits, judy_leaf, judy_node and `arrayvec`,
//! and judy_word stands on it.
#![tactic(auto)]

mod absent;
mod after;
mod before;
mod branches;
mod counts;
mod empties;
mod ends;
mod givings;
pub mod laws;
mod many;
mod places;
mod rooms;
mod scan;
mod sides;
mod sparing;
mod stretch;
mod surroundings;
mod turns;
mod values;
mod waiting;
mod walk;
mod watch;

pub use after::entry_at_or_after;
pub use before::entry_at_or_before;
pub use branches::{byte_from, passed, start_at};
pub use counts::rank;
pub use empties::nearest_empty;
pub use ends::{entry_in, len_in};
pub use many::{MOST_WAYS, lookup_many};
pub use places::entry_nth;
pub use rooms::is_full;
pub use sides::Side;
pub use surroundings::around;
pub use values::{Start, lookup, lookup_below, lookup_further, lookup_one, lookup_start};
pub use walk::Walk;

/// A key with its value, which is 0 where keys have no value.
pub type Entry = (u64, u64);
