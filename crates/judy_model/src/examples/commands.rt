//! What each command answers and leaves, on a store of one array `a` that holds keys; each refusal that the command has
//! behind those that all have.

pub mod bytes;
pub mod sets;
pub mod strings;
pub mod whole;
pub mod words;
