//! Where a key goes at a branch.

/// The step of a key at a branch. A place counts the branch's children from 0.
#[derive(Clone, Copy, PartialEq, Eq, Debug)]
pub enum Step {
    /// To the child of its byte: the byte, the child's place, and what is left of the key, which is the child's key.
    Child(u8, usize, u64),
    /// No child has its byte: the byte, the place that its child would have, and what is left of the key.
    Missing(u8, usize, u64),
    /// The key is below all keys that begin with the skipped bytes.
    Below,
    /// The key is above all keys that begin with the skipped bytes.
    Above,
}
