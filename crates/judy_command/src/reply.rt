//! What a line is answered.

ghost use Rattle.std.specs.Prelude.{◌≡◌};
ghost use Rattle.judy_model.specs.Replies.{refusal_word};
ghost use Rattle.judy_command.specs.Replies.{refusal_of};

use judy_sl::KeyBuf;
use thiserror::Error;

/// The answer of a command that isn't refused. (This project's own script.)
#[derive(Clone, Copy, Debug, PartialEq, Eq)]
pub enum Answer<'k> {
    /// `ok`
    Done,
    /// `was` and the value that a slot held before.
    Was(u64),
    /// `1` or `0`: whether it was so.
    Flag(bool),
    /// A number alone: a value, a key or a count.
    Number(u64),
    /// A key and its value.
    Entry(u64, u64),
    /// A key of bytes, which stands in the buffer that it was sought with, and its value.
    StringEntry(&'k KeyBuf, u64),
    /// `freed` and how many keys were freed.
    Freed(u64),
    /// `none`
    Nothing,
}

/// Why a line is refused. Of several that apply, the first in this order is the answer. (This project's own.)
#[derive(Clone, Copy, Debug, PartialEq, Eq, Error)]
pub enum Refusal {
    /// The line has more than 4,096 bytes.
    #[error("the line is too long")]
    LineTooLong,
    /// The first token names no command.
    #[error("unknown command")]
    UnknownCommand,
    /// The command takes another number of arguments.
    #[error("wrong number of arguments")]
    ArgumentCount,
    /// The name is none: 1 to 32 ASCII letters, digits, `_` or `-`.
    #[error("not a name")]
    BadName,
    /// No array has the name.
    #[error("no such array")]
    NoSuchArray,
    /// The array's kind doesn't have the command; or, for `make`, the word names no kind.
    #[error("wrong kind")]
    WrongKind,
    /// A token is no decimal number below 2^64.
    #[error("not a word")]
    BadWord,
    /// A token is no key of the array's kind: `=` and bytes from `!` to `~`, or `#` and hexadecimal digits, for
    /// at most 1,024 bytes, and for a judysl array no zero byte.
    #[error("not a key")]
    BadKey,
    /// The limit isn't 1 to 4,294,967,295.
    #[error("bad limit")]
    BadLimit,
    /// An array has the name.
    #[error("the name is taken")]
    Exists,
    /// 64 arrays stand.
    #[error("too many arrays")]
    TooManyArrays,
    /// The key is absent, and the array holds as many keys as its limit.
    #[error("the array is full")]
    Full,
    /// There is no memory for what the line adds.
    #[error("out of memory")]
    NoMemory,
}

impl Refusal {
    /// The word that the refused line is answered.
    pub fn word(self) -> &'static [u8]
        ensures { result.now ≡ refusal_word (refusal_of self) }
    {
        match self {
            Refusal::LineTooLong => b"line-too-long",
            Refusal::UnknownCommand => b"unknown-command",
            Refusal::ArgumentCount => b"argument-count",
            Refusal::BadName => b"bad-name",
            Refusal::NoSuchArray => b"no-such-array",
            Refusal::WrongKind => b"wrong-kind",
            Refusal::BadWord => b"bad-word",
            Refusal::BadKey => b"bad-key",
            Refusal::BadLimit => b"bad-limit",
            Refusal::Exists => b"exists",
            Refusal::TooManyArrays => b"too-many-arrays",
            Refusal::Full => b"full",
            Refusal::NoMemory => b"no-memory",
        }
    }
}

/// The reply of a command: its answer, or why it is refused.
pub type Reply<'k> = Result<Answer<'k>, Refusal>;

/// What a line is answered. The list of the arrays isn't kept in it: it is that of the shelf as the line left
/// it, so that a reply is small and takes no memory.
#[derive(Clone, Copy, Debug, PartialEq, Eq)]
pub enum LineReply<'k> {
    /// No answer at all: a blank line or a comment.
    Silent,
    /// `names`, and the name, kind and count of each array of the shelf.
    Listed,
    /// The reply of any other command.
    Said(Reply<'k>),
}
