//! Tails: texts without a zero byte, each with a value. Those of at most 1,024 bytes are kept by how many words they
//! take. A text stands in a record of just these words, so none has a tag, a length or a pointer, and a text of no byte
//! takes the word of its value alone. A longer text has a block of its own.
//!
//! A [`Tails`] gives each text a place, a number that stays its own until it is removed. Its lowest byte tells a list,
//! which has the texts of one length in words, or the longer ones. To contracts a `Tails` is a `TailLists`: what stands
//! at each place.
//!
//! tails.rt has all tails, short.rt the lists by length, long.rt the longer ones, and the folders of these names how
//! many bytes of memory each has asked for. tail.rt has one tail as it is read, and writer.rt where a key is written
//! byte behind byte, and handed out.
#![tactic(auto)]

mod long;
mod short;
mod tail;
mod tails;
mod writer;

pub use tail::Tail;
pub use tails::Tails;
pub use writer::{KeyEnd, KeyFront, KeyHolder, KeyRoom, KeyWriter};
