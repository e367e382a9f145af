//! Why a shelf isn't dumped, or isn't loaded.

ghost use Rattle.std.specs.Prelude.{◌≡◌};

use judy_pipe::PipeFailed;
use thiserror::Error;

/// Why `dump` ended early.
#[derive(Clone, Copy, Debug, PartialEq, Eq, Error)]
pub enum DumpFault {
    /// There is no memory to sort the keys of a judyhs array. No byte was written.
    #[error("out of memory")]
    NoMemory,
    /// The writer failed. A front of the dump was written.
    #[error("the dump can't be written")]
    Write,
}

impl DumpFault {
    ghost use Rattle.judy_shelf.specs.Faults.{dump_word};

    /// The fault's name in lower case with `-` between its words.
    pub fn word(self) -> &'static [u8]
        ensures { result.now ≡ dump_word self }
    {
        match self {
            DumpFault::NoMemory => b"no-memory",
            DumpFault::Write => b"write",
        }
    }
}

/// Why `load` gives no shelf: the first fault of the bytes, in the order of the fields; or the reader failed, or
/// there is no memory.
#[derive(Clone, Copy, Debug, PartialEq, Eq, Error)]
pub enum LoadFault {
    /// The reader failed.
    #[error("the dump can't be read")]
    Read,
    /// The bytes end before the dump does.
    #[error("the dump is cut off")]
    Truncated,
    /// The bytes begin neither with `JDY1` nor with `JDY2`.
    #[error("no dump of a known format")]
    BadMagic,
    /// More than 64 arrays are said.
    #[error("too many arrays")]
    TooMany,
    /// A name is empty or longer than 32 bytes, or has a byte that names don't have.
    #[error("bad name")]
    BadName,
    /// An earlier array has the name.
    #[error("the name stands twice")]
    SameName,
    /// A number that no kind has.
    #[error("bad kind")]
    BadKind,
    /// A limit that isn't 1 to 4,294,967,295.
    #[error("bad limit")]
    BadLimit,
    /// More keys are said than the limit.
    #[error("more keys than the limit")]
    BadCount,
    /// A key that is longer than 1,024 bytes, or one of a judysl array with a zero byte.
    #[error("bad key")]
    BadKey,
    /// A key that isn't greater than the one before.
    #[error("keys out of order")]
    BadOrder,
    /// Bytes stand after the last array.
    #[error("bytes after the end")]
    Trailing,
    /// There is no memory for an array or a key.
    #[error("out of memory")]
    NoMemory,
    /// A key of a JDY2 dump that doesn't share the longest front with the key before.
    #[error("bad shared front")]
    BadPrefix,
}

impl LoadFault {
    ghost use Rattle.judy_shelf.specs.Faults.{load_word};

    /// The fault's name in lower case with `-` between its words.
    pub fn word(self) -> &'static [u8]
        ensures { result.now ≡ load_word self }
    {
        match self {
            LoadFault::Read => b"read",
            LoadFault::Truncated => b"truncated",
            LoadFault::BadMagic => b"bad-magic",
            LoadFault::TooMany => b"too-many",
            LoadFault::BadName => b"bad-name",
            LoadFault::SameName => b"same-name",
            LoadFault::BadKind => b"bad-kind",
            LoadFault::BadLimit => b"bad-limit",
            LoadFault::BadCount => b"bad-count",
            LoadFault::BadKey => b"bad-key",
            LoadFault::BadOrder => b"bad-order",
            LoadFault::Trailing => b"trailing",
            LoadFault::NoMemory => b"no-memory",
            LoadFault::BadPrefix => b"bad-prefix",
        }
    }
}

// A load only reads, so it is the reader that failed.
impl From<PipeFailed> for LoadFault {
    ghost use Rattle.judy_shelf.specs.declared.fault.LoadFault.TheVariants.{Read};

    ghost from_gives = { λ _ fault. fault ≡ Read };

    fn from(_: PipeFailed) -> LoadFault {
        LoadFault::Read
    }
}
