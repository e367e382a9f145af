//! Laws above the definitions of a script. Each is the contract of a function with an empty body, so that the check
//! proves it; no program calls these.

pub mod command_words;
pub mod key_lengths;
pub mod keys;
pub mod lines;
pub mod parts;
pub mod prefixes;
pub mod ranges;
pub mod run_ends;
pub mod two_maps;
