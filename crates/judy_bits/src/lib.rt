//! The small tools of the tree: the bytes of a word, sets of bytes, skipped bytes and the meter of visits. None
//! of them takes memory.
//!
//! All sets have one model, the list of their members in ascending order; what each call answers and leaves is a
//! definition over that list, in specs/ByteSets.antt, and laws.rt says what follows for those who cite these. A
//! [`Skip`] (skip.rt) is the list of its bytes, and a [`Meter`] (meter.rt) a number. The definitions of a word's bytes
//! (word.rt) and their laws are judy_model's, since strings and formats speak of them too.
//!
//! A [`Bits256`] is four words of bits (bits256.rt), and a [`BitsRef`] reads them, or four words that stand elsewhere
//! (bits_ref.rt), both by the steps on one word in bits.rt; fronts.rt has how many members stand before each word;
//! specs/BitWords.antt says which members four words have. A [`ByteSet`] (byte_set.rt) shows no words: it is up to
//! seven bytes (few_bytes.rt), compared at once by lanes.rt, or bits, and its [`SetForm`] (form.rt) follows from the
//! number of its members. The crate stands on judy_model, and the crates of the tree stand on it.
#![tactic(auto)]

mod bits;
mod bits256;
mod bits_ref;
mod byte_set;
mod few_bytes;
mod form;
mod fronts;
mod lanes;
pub mod laws;
mod meter;
mod skip;
mod word;

pub use bits_ref::BitsRef;
pub use bits256::Bits256;
pub use byte_set::ByteSet;
pub use form::SetForm;
pub use lanes::first_place;
pub use meter::Meter;
pub use skip::Skip;
pub use word::{byte_of, low_part, moved_up, tail, without_low, without_tail};
