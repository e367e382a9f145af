//! Blocks of 64-bit words, in memory of their own.
//!
//! A [`Block`] is one allocation behind one pointer. What a contract sees of it is a record: the list of
//! its words, its capacity, and a tag, a number that the block keeps for the crate above. The calls are
//! those of a small vector whose capacity is fixed: a gap of zeros is opened among the words or closed
//! again, a word is read, written or lent, and two words are put in. Only [`Block::new`] and [`Block::of_words`] ask
//! for memory; where it is refused, nothing is kept. A block is freed at its end.
//!
//! The layout is this project's own. The first word of the allocation is a header, with the number of
//! words in use, the capacity and the tag (header.rt); the words in use follow, and then spare words.
//! So a block is one pointer wide, which keeps the nodes of a tree small.
//!
//! Raw pointers stand in cells.rt alone: six functions that take the memory and fill it with zeros, give it
//! back, and lend it as a slice or a word. Each is proved by hand, statement by statement, in proofs/cells.
//! All else is safe code over slices. (The other raw pointers of this project are those of judy_c's handles.)
//! The crate stands on std alone, and on it stands what keeps keys and values in memory of its own.
#![tactic(auto)]

mod block;
mod cells;
mod header;

pub use block::Block;
