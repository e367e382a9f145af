//! The engine of a run: it is fed the script in whatever pieces it comes.

ghost use Rattle.std.specs.Prelude.{◌≡◌, ℕ, ◌+◌, ◌-◌, ◌<◌, ◌^◌, true, false, List, [], ◌++◌, Option, Ok, is_ok, if◌then◌else◌, IsTrue, IfOk, OnOk, OnErr};
ghost use Rattle.judy_model.specs.Stores.{Store};
ghost use Rattle.judy_model.specs.Replies.{output_of};
ghost use Rattle.judy_model.specs.Steps.{Step};
ghost use Rattle.judy_pipe.specs.Pipe.{grown, GrewByFront};
ghost use Rattle.judy_shelf.specs.Shelves.{store_of};
ghost use Rattle.judy_command.specs.Replies.{line_reply_of};
ghost use Rattle.judy_script.specs.LineBuffers.{Holds};
ghost use Rattle.judy_script.specs.Lines.{bytes_of, IsWithin};
ghost use Rattle.judy_script.specs.Feeds.{Fed, Served, ServedInPart, Ran, RanInPart, RanInWholeLines};

use crate::cut::cut_at;
use crate::line::{LineBuffer, line_reply};
use crate::print::print;
use crate::text::{Line, Text};
use judy_command::LineReply;
use judy_pipe::{PipeFailed, Sink, write_all, write_short};
use judy_shelf::Shelf;
use judy_sl::KeyBuf;

/// The buffers of a run: of the line that goes on, of a line's key, and of an answer. They are made once a
/// run.
#[derive(Drop)]
pub(crate) struct Buffers {
    line: LineBuffer,
    key: KeyBuf,
    text: Text,
}

impl Buffers {
    /// The buffers of a run that wasn't fed yet.
    pub(crate) fn new() -> Buffers
        ensures { Holds result.line [] }
    {
        Buffers {
            line: LineBuffer::new(),
            key: KeyBuf::new(),
            text: Text::new(),
        }
    }
}

/// Feeds a piece of the script: the lines that end in it are executed and answered one by one, and what
/// comes after the last of them is kept. Answers whether a line ended in it.
///
/// The error is that the sink failed: the shelf is then as after the line whose answer was being written.
pub(crate) fn feed<W: Sink>(
    piece: &[u8],
    buffers: &mut Buffers,
    shelf: &mut Shelf,
    sink: &mut W,
) -> Result<bool, PipeFailed>
    requires { (W.tally sink.old).failures < 2 ^ 64 - 1 }
    ensures ok { OnOk result ((first : Store) (fed : List ℕ) (before : Option (List ℕ)) →
        Fed first fed before buffers.old.line (W.taken sink.old) (store_of shelf.old) →
        Fed first (fed ++ piece.now) before buffers.new.line (W.taken sink.new)
        (store_of shelf.new)) }
    // Should the answers not get out, the last line that ended is the one whose answer was being written.
    ensures last { IfOk result
        (λ ended. IsTrue ended → (first : Store) (fed : List ℕ) (before : Option (List ℕ)) →
        Fed first fed before buffers.old.line (W.taken sink.old) (store_of shelf.old) →
        RanInWholeLines first (fed ++ piece.now) before (W.taken sink.new) (store_of shelf.new)) }
    ensures err { OnErr result ((first : Store) (fed : List ℕ) (before : Option (List ℕ)) →
        Fed first fed before buffers.old.line (W.taken sink.old) (store_of shelf.old) →
        RanInWholeLines first (fed ++ piece.now) before (W.taken sink.new) (store_of shelf.new)) }
    // Where no line ended nothing was answered, so the sink keeps back what it kept back before.
    ensures kept { result ≡ Ok false → W.kept sink.new ≡ W.kept sink.old }
    ensures failures { let before = (W.tally sink.old).failures in
        (W.tally sink.new).failures ≡ (if is_ok result then before else before + 1) }
{
    let mut rest = piece;
    'lines: loop {
        let (head, after) = cut_at(rest, b'\n');
        let Some(after) = after else {
            buffers.line.push(head);
            return Ok(rest.len() < piece.len());
        };
        end_line(head, buffers, shelf, sink)?;
        rest = after;
    }
}

/// Feeds a piece of the script and hands the answers of its lines on: the next read may wait for whoever
/// waits for them.
///
/// The error is that the sink failed: the shelf is then as after the line whose answer was being written, which
/// is the last one where the answers couldn't be handed on.
pub(crate) fn feed_and_flush<W: Sink>(
    piece: &[u8],
    buffers: &mut Buffers,
    shelf: &mut Shelf,
    sink: &mut W,
) -> Result<(), PipeFailed>
    requires { (W.tally sink.old).failures < 2 ^ 64 - 1 }
    ensures ok { OnOk result ((first : Store) (fed : List ℕ) (before : Option (List ℕ)) →
        Fed first fed before buffers.old.line (W.taken sink.old) (store_of shelf.old) →
        Fed first (fed ++ piece.now) before buffers.new.line (W.taken sink.new)
        (store_of shelf.new)) }
    ensures err { OnErr result ((first : Store) (fed : List ℕ) (before : Option (List ℕ)) →
        Fed first fed before buffers.old.line (W.taken sink.old) (store_of shelf.old) →
        RanInWholeLines first (fed ++ piece.now) before (W.taken sink.new) (store_of shelf.new)) }
    ensures handed_on { OnOk result (W.kept sink.old ≡ [] → W.kept sink.new ≡ []) }
    ensures failures { let before = (W.tally sink.old).failures in
        (W.tally sink.new).failures ≡ (if is_ok result then before else before + 1) }
{
    let ended = feed(piece, buffers, shelf, sink)?;
    if !ended {
        return Ok(());
    }
    sink.flush()
}

/// Ends the script: what is kept of a last line without an LF is executed and answered, if there is any. The error
/// is that the sink failed; the line was executed then.
pub(crate) fn finish<W: Sink>(
    buffers: &mut Buffers,
    shelf: &mut Shelf,
    sink: &mut W,
) -> Result<(), PipeFailed>
    requires { (W.tally sink.old).failures < 2 ^ 64 - 1 }
    ensures ok { OnOk result ((first : Store) (fed : List ℕ) (before : Option (List ℕ)) →
        Fed first fed before buffers.old.line (W.taken sink.old) (store_of shelf.old) →
        Ran first fed before (W.taken sink.new) (store_of shelf.new)) }
    ensures err { OnErr result ((first : Store) (fed : List ℕ) (before : Option (List ℕ)) →
        Fed first fed before buffers.old.line (W.taken sink.old) (store_of shelf.old) →
        RanInPart first fed before (W.taken sink.new) (store_of shelf.new)) }
    ensures failures { let before = (W.tally sink.old).failures in
        (W.tally sink.new).failures ≡ (if is_ok result then before else before + 1) }
{
    if buffers.line.is_empty() {
        return Ok(());
    }
    let reply = buffers.line.reply(false, shelf, &mut buffers.key);
    put_out(reply, shelf, &mut buffers.text, sink)
}

// Executes and answers the line that was kept, `head` and an LF behind it. A line that stands whole in
// its piece isn't copied.
#[inline(always)]
fn end_line<W: Sink>(
    head: &[u8],
    buffers: &mut Buffers,
    shelf: &mut Shelf,
    sink: &mut W,
) -> Result<(), PipeFailed>
    requires { (W.tally sink.old).failures < 2 ^ 64 - 1 }
    ensures ok { OnOk result ((kept : List ℕ) → Holds buffers.old.line kept →
        Served (store_of shelf.old) (record { bytes = kept ++ head.now; ended = true })
        (W.taken sink.old) (W.taken sink.new) (store_of shelf.new)) }
    ensures err { OnErr result ((kept : List ℕ) → Holds buffers.old.line kept →
        ServedInPart (store_of shelf.old) (record { bytes = kept ++ head.now; ended = true })
        (W.taken sink.old) (W.taken sink.new) (store_of shelf.new)) }
    ensures cleared { Holds buffers.new.line [] }
    ensures failures { let before = (W.tally sink.old).failures in
        (W.tally sink.new).failures ≡ (if is_ok result then before else before + 1) }
{
    let reply = whole_line_reply(head, &mut buffers.line, shelf, &mut buffers.key);
    put_out(reply, shelf, &mut buffers.text, sink)
}

// What the line that was kept, with `head` and an LF behind it, does; the buffer begins the next line.
#[inline(always)]
fn whole_line_reply<'k>(
    head: &[u8],
    line: &mut LineBuffer,
    shelf: &mut Shelf,
    key: &'k mut KeyBuf,
) -> LineReply<'k>
    ensures step { (kept : List ℕ) → Holds line.old kept →
        Step (store_of shelf.old) (record { bytes = kept ++ head.now; ended = true })
        (line_reply_of (store_of shelf.new) result) (store_of shelf.new) }
    ensures cleared { Holds line.new [] }
{
    if line.is_empty() {
        return line_reply(head, true, shelf, key);
    }
    line.push(head);
    let reply = line.reply(true, shelf, key);
    line.clear();
    reply
}

// Prints the reply of a line that left the shelf so, and writes it.
#[inline(always)]
fn put_out<W: Sink>(
    reply: LineReply<'_>,
    shelf: &Shelf,
    text: &mut Text,
    sink: &mut W,
) -> Result<(), PipeFailed>
    requires { (W.tally sink.old).failures < 2 ^ 64 - 1 }
    ensures ok { OnOk result
        (W.taken sink.new ≡ grown (W.taken sink.old)
        (output_of (line_reply_of (store_of shelf.now) reply.entry))) }
    ensures err { OnErr result
        (GrewByFront (W.taken sink.old) (output_of (line_reply_of (store_of shelf.now) reply.entry))
        (W.taken sink.new)) }
    ensures failures { let before = (W.tally sink.old).failures in
        (W.tally sink.new).failures ≡ (if is_ok result then before else before + 1) }
{
    write_line(print(reply, shelf, text), sink)
}

// Writes the text of an answer.
#[inline(always)]
fn write_line<W: Sink>(line: Line<'_>, sink: &mut W) -> Result<(), PipeFailed>
    requires within { IsWithin line }
    requires below { (W.tally sink.old).failures < 2 ^ 64 - 1 }
    ensures ok { OnOk result (W.taken sink.new ≡ grown (W.taken sink.old) (bytes_of line.entry)) }
    ensures err { OnErr result
        (GrewByFront (W.taken sink.old) (bytes_of line.entry) (W.taken sink.new)) }
    ensures failures { let before = (W.tally sink.old).failures in
        (W.tally sink.new).failures ≡ (if is_ok result then before else before + 1) }
{
    match line {
        Line::Short(room, count) => write_short(sink, room, count),
        Line::Long(bytes) => write_all(sink, bytes),
    }
}
