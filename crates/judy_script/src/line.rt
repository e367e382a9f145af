//! Lines: what one does, and the buffer in which one is gathered.

ghost use Rattle.std.specs.Prelude.{◌≡◌, ◌==◌, ℕ, List, [], ◌++◌, length, IsTrue, IsFalse, ◌↔◌};
ghost use Rattle.judy_model.specs.Lines.{text_of};
ghost use Rattle.judy_model.specs.Steps.{Step};
ghost use Rattle.judy_shelf.specs.Shelves.{store_of};
ghost use Rattle.judy_command.specs.Replies.{line_reply_of};

use crate::tokens::{Tokens, split};
use arrayvec::ArrayVec;
use judy_command::{LineReply, Refusal, execute};
use judy_shelf::Shelf;
use judy_sl::KeyBuf;

/// The most bytes of a line before its LF, a CR counted. (This project's own.)
pub(crate) const MAX_LINE_LEN: usize = 4096;

/// What a line does: its bytes without the LF, and whether an LF ended it. `key` serves the line for its key.
#[inline(always)]
pub(crate) fn line_reply<'k>(
    bytes: &[u8],
    ended: bool,
    shelf: &mut Shelf,
    key: &'k mut KeyBuf,
) -> LineReply<'k>
    ensures { let before = store_of shelf.old in
        Step before (record { bytes = bytes.now; ended = ended })
        (line_reply_of (store_of shelf.new) result) (store_of shelf.new) }
{
    if bytes.len() > MAX_LINE_LEN {
        return LineReply::Said(Err(Refusal::LineTooLong));
    }
    let mut tokens = Tokens::new();
    split(without_return(bytes, ended), &mut tokens);
    execute(shelf, &tokens, key)
}

// The line's text: its bytes without a CR that stands just before its LF.
fn without_return(bytes: &[u8], ended: bool) -> &[u8]
    ensures { result.now ≡ text_of (record { bytes = bytes.now; ended = ended }) }
{
    match bytes {
        [text @ .., b'\r'] if ended => text,
        _ => bytes,
    }
}

/// The bytes so far of a line that goes on, as long as they fit a line; else that it is too long.
#[derive(Drop)]
pub(crate) struct LineBuffer {
    bytes: ArrayVec<u8, 4096>,
    is_long: bool,
}

impl LineBuffer {
    ghost use Rattle.judy_script.specs.LineBuffers.{Holds};

    /// The buffer of a line of which no byte came yet.
    pub(crate) fn new() -> LineBuffer
        ensures { Holds result [] }
    {
        LineBuffer {
            bytes: ArrayVec::new(),
            is_long: false,
        }
    }

    /// Puts more bytes of the line behind those that came.
    #[inline(never)]
    pub(crate) fn push(&mut self, more: &[u8])
        ensures { (bytes : List ℕ) → Holds self.old bytes → Holds self.new (bytes ++ more.now) }
    {
        if self.bytes.try_extend_from_slice(more).is_err() {
            self.is_long = true;
        }
    }

    /// Begins the next line.
    pub(crate) fn clear(&mut self)
        ensures { Holds self.new [] }
    {
        self.bytes.clear();
        self.is_long = false;
    }

    /// Whether no byte of the line came yet.
    pub(crate) fn is_empty(&self) -> bool
        ensures told { (bytes : List ℕ) → Holds self.now bytes → result ≡ (length bytes == 0) }
        ensures empty { IsTrue result → Holds self.now [] }
    {
        self.bytes.is_empty() && !self.is_long
    }

    /// What the line does, now that it is whole.
    #[inline(never)]
    pub(crate) fn reply<'k>(
        &self,
        ended: bool,
        shelf: &mut Shelf,
        key: &'k mut KeyBuf,
    ) -> LineReply<'k>
        ensures { (bytes : List ℕ) → Holds self.now bytes →
            Step (store_of shelf.old) (record { bytes = bytes; ended = ended })
            (line_reply_of (store_of shelf.new) result) (store_of shelf.new) }
    {
        if self.is_long {
            return LineReply::Said(Err(Refusal::LineTooLong));
        }
        line_reply(&self.bytes, ended, shelf, key)
    }
}
