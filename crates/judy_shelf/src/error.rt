//! Why an array isn't made.

use thiserror::Error;

/// Why `Shelf::make` refused. The shelf is then as it was. The first that applies is the answer.
#[derive(Clone, Copy, Debug, PartialEq, Eq, Error)]
pub enum MakeError {
    /// The limit isn't 1 to 4,294,967,295 (this project's own).
    #[error("bad limit")]
    BadLimit,
    /// An array of that name stands already.
    #[error("the name is taken")]
    Exists,
    /// 64 arrays stand already (this project's own).
    #[error("too many arrays")]
    TooMany,
    /// There is no memory for one more array; nothing else is wrong.
    #[error("out of memory")]
    NoMemory,
}
