//! The formats of a dump.

/// A format. They differ in their first bytes and in the keys of judysl arrays. (Both are this project's own.)
#[derive(Clone, Copy)]
pub enum Version {
    /// JDY1: each key whole.
    First,
    /// JDY2: each key behind the front that it shares with the one before.
    Second,
}
