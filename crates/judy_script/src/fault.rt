//! Why a run ends before the end of its script.

ghost use Rattle.std.specs.Prelude.{◌≡◌};

use thiserror::Error;

/// Why a run ended before the end of its script. (This project's own.)
#[derive(Clone, Copy, Debug, PartialEq, Eq, Error)]
pub enum RunFault {
    /// The reader failed.
    #[error("the script can't be read")]
    Read,
    /// The writer failed.
    #[error("the answers can't be written")]
    Write,
    /// The reader gave more bytes than the run was to read.
    #[error("the script is too long")]
    TooLong,
}

impl RunFault {
    ghost use Rattle.judy_script.specs.Faults.{fault_word};

    /// The fault's name in lower case with `-` between its words.
    pub fn word(self) -> &'static [u8]
        ensures { result.now ≡ fault_word self }
    {
        match self {
            RunFault::Read => b"read",
            RunFault::Write => b"write",
            RunFault::TooLong => b"too-long",
        }
    }
}
