//! The text of an answer line.

ghost use Rattle.std.specs.Prelude.{◌≡◌, ◌+◌, ◌≤◌, ◌++◌, [], ◌∷◌, length, decimal};
ghost use Rattle.judy_script.specs.declared.text.TheConstants.{MAX_TEXT_LEN, NUMBER_LEN};
ghost use Rattle.judy_script.specs.Lines.{bytes_of, IsWithin};

use itoa::write_digits;
use judy_pipe::SHORT_LEN;
use std::marker::Model;

// The most bytes of an answer line. (docs/FORMATS.md says why no answer has more.)
const MAX_TEXT_LEN: usize = 8192;

// Where the LF of a line of one number stands; before it are its head and at most 20 digits.
const NUMBER_END: usize = SHORT_LEN - 1;

// From any place up to the LF on there is room for a short piece.
const NUMBER_LEN: usize = 2 * SHORT_LEN;

/// The text of an answer: the first bytes of a room, so many, or the bytes themselves.
pub(crate) enum Line<'t> {
    Short(&'t [u8; SHORT_LEN], usize),
    Long(&'t [u8]),
}

/// The bytes of an answer line, in a buffer that is made once a run and takes no memory. To begin the next line
/// costs nothing: what stands behind the bytes stays as it was. In contracts it is the list of its bytes.
///
/// Beside it stands a line of one number, which is no part of these.
#[derive(Drop)]
pub(crate) struct Text {
    bytes: [u8; MAX_TEXT_LEN],
    len: usize,
    number: [u8; NUMBER_LEN],
}

impl Model for Text {
    ghost use Rattle.std.specs.Prelude.{List, ℕ, ◌≤◌, take};

    ghost Value = { List ℕ };

    ghost view = { λ text. take text.len text.bytes };

    ghost use Rattle.judy_script.specs.declared.text.TheConstants.{MAX_TEXT_LEN};

    ghost invariant = { λ text. text.len ≤ MAX_TEXT_LEN };
}

impl Text {
    /// A text without bytes.
    pub(crate) fn new() -> Text
        ensures { result ≡ [] }
    {
        Text {
            bytes: [0; MAX_TEXT_LEN],
            len: 0,
            number: [0; NUMBER_LEN],
        }
    }

    /// Takes out all bytes.
    pub(crate) fn clear(&mut self)
        ensures { self.new ≡ [] }
    {
        self.len = 0;
    }

    /// Puts bytes that fit behind those that it has.
    pub(crate) fn append(&mut self, bytes: &[u8])
        requires { length self.old + length bytes.now ≤ MAX_TEXT_LEN }
        ensures items { self.new ≡ self.old ++ bytes.now }
        ensures len { length self.new ≡ length self.old + length bytes.now }
    {
        let end = self.len + bytes.len();
        self.bytes[self.len..end].copy_from_slice(bytes);
        self.len = end;
    }

    /// A line of a head, the number in decimal and an LF, beside the bytes. It is written from its end on, where it
    /// stays.
    #[inline(always)]
    pub(crate) fn number_line(&mut self, head: &[u8], number: u64) -> Line<'_>
        requires { length head.now ≤ 8 }
        ensures text { bytes_of result ≡ head.now ++ decimal number ++ 10 ∷ [] }
        ensures within { IsWithin result }
    {
        write_line(&mut self.number, head, number)
    }

    /// The bytes.
    pub(crate) fn as_slice(&self) -> &[u8]
        ensures { result.now ≡ self.now }
    {
        &self.bytes[..self.len]
    }
}

// Writes a head, the number and an LF to the front half of a room for them, and lends it from there on.
#[inline(always)]
fn write_line<'a>(room: &'a mut [u8; NUMBER_LEN], head: &[u8], number: u64) -> Line<'a>
    requires head { length head.now ≤ 8 }
    requires room { length room.old ≡ NUMBER_LEN }
    ensures text { bytes_of result ≡ head.now ++ decimal number ++ 10 ∷ [] }
    ensures within { IsWithin result }
{
    room[NUMBER_END] = b'\n';
    let digits = write_digits(number, room, NUMBER_END);
    let from = digits - head.len();
    room[from..digits].copy_from_slice(head);
    match room[from..].first_chunk::<SHORT_LEN>() {
        Some(line) => Line::Short(line, SHORT_LEN - from),
        None => unreachable!(),
    }
}
