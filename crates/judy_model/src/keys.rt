//! How long a key may be.

/// The most bytes of a key of a judysl or judyhs array. (This project's own.)
pub const LONGEST_KEY: usize = 1024;

/// The most bytes of a string in memory, and so of a key where nothing else bounds it: 2^63 - 1. (Rust's bound of a
/// slice.)
pub const LONGEST_STRING: usize = 9223372036854775807;
