//! How a call of a pipe stops, and how a run of calls ends early.

use thiserror::Error;

/// Why one call of a pipe moved no byte.
#[derive(Clone, Copy, Debug, PartialEq, Eq, Error)]
pub enum Stop {
    /// The call was cut off before it moved a byte, and may be made again.
    #[error("the call was interrupted")]
    Interrupted,
    /// The pipe could not move a byte.
    #[error("the call failed")]
    Failed,
}

/// The number of a pipe's failures rose, so a helper of this crate tried no further.
#[derive(Clone, Copy, Debug, PartialEq, Eq, Error)]
#[error("the pipe failed")]
pub struct PipeFailed;
