//! A key that is to be put in.

use std::alloc::{AllocError, Global};

// A key that is to be put in, as it is at a node, with its value, and where memory for it is asked. It goes through two
// registers.
#[derive(Clone, Copy)]
pub(crate) struct Insertion {
    pub alloc: Global,
    pub key: u64,
    pub value: u64,
}

// Whether a key was absent, and was put in; the error is want of memory.
pub(crate) type Inserted = Result<bool, AllocError>;
