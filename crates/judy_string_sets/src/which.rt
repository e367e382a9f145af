//! Which keys of an array a walk stops at, beside another array.

/// Which keys of an array are meant, beside another array.
#[derive(Clone, Copy, Debug, PartialEq, Eq)]
pub enum Which {
    /// All of them.
    All,
    /// Those that the other has too.
    Common,
    /// Those that the other lacks.
    Alone,
}
