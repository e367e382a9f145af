//! One array saved and loaded: bytes in memory that are the dump of a store that has this array alone, in the formats
//! JDY1 and JDY2 of judy_shelf.
//!
//! dumps.rt writes an array's dump to the front of a room of the caller's (room.rt), and tells its size where it
//! doesn't fit; loads.rt makes an array of a dump, over a source that reads a slice (source.rt).
#![tactic(auto)]

mod dumps;
mod loads;
mod room;
mod source;

pub use dumps::{SaveError, dump_byte_strings, dump_map, dump_set, dump_strings};
pub use loads::{load_byte_strings, load_map, load_set, load_strings};
