use thiserror::Error;

/// Why an insert added no key. The array is then as it was before the call.
#[derive(Clone, Copy, Debug, PartialEq, Eq, Error)]
pub enum HsError {
    /// The key has more bytes than the array's type lets a key have (limit: this project's own).
    #[error("the key is too long")]
    TooLong,
    /// The key is absent, and the array holds as many keys as its limit (limit: this project's own).
    #[error("the array is full")]
    Full,
    /// The key is absent and there is room below the limit, but no memory for one more key.
    #[error("out of memory")]
    NoMemory,
}
