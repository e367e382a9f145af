//! What takes bytes, and how a whole piece is written.

ghost use Rattle.std.specs.Prelude.{◌≡◌, ℕ, ◌+◌, ◌-◌, ◌<◌, ◌≤◌, ◌^◌, List, [], Option, length, take, drop, is_ok, if◌then◌else◌, IfOk, IfSome, OnOk, OnErr};
ghost use Rattle.judy_pipe.specs.Pipe.{grown, moved, GrewByFront, IsEnd};
ghost use Rattle.judy_pipe.specs.declared.sink.TheConstants.{SHORT_LEN};
ghost use Rattle.judy_pipe.specs.Tally.{after_write};

use crate::stop::{PipeFailed, Stop};

/// How many bytes stand in the room of a short piece.
pub const SHORT_LEN: usize = 32;

/// What takes bytes, a piece at a time.
pub trait Sink {
    ghost use Rattle.judy_pipe.specs.declared.tally.Tally.{Tally};

    // The bytes that it took so far, in order; `None` where it tells nothing of them.
    ghost taken: { Self → Option (List ℕ) };

    // The last of these, which are still in a buffer, its own or that of a sink below; none where it tells of none.
    ghost kept: { Self → List ℕ } = { λ _. [] };

    // Its failures and its interruptions in a row.
    ghost tally: { Self → Tally };

    /// Takes the first bytes of `piece` and answers how many, perhaps fewer than all. At a `Stop` it
    /// took none. A failure is counted as `Tally` says, so 0 bytes of a piece that is not empty are
    /// one too.
    fn write(&mut self, piece: &[u8]) -> Result<usize, Stop>
        requires { (tally self.old).failures < 2 ^ 64 - 1 }
        ensures count { IfOk result (λ n. n ≤ length piece.now) }
        ensures taken { taken self.new ≡ grown (taken self.old) (moved result piece.now) }
        ensures tally { tally self.new ≡ after_write (tally self.old) piece.now result };

    /// Takes the first `count` bytes of a room where it can do so at once, and answers whether it did; else it
    /// took none. It copies the whole room, whose length is known, and that is done sooner than a copy of the
    /// few bytes that count. It never fails.
    #[inline(always)]
    fn take_short(&mut self, room: &[u8; SHORT_LEN], count: usize) -> bool
        requires { count ≤ SHORT_LEN }
        ensures taken { taken self.new
            ≡ (if result then grown (taken self.old) (take count room.now) else taken self.old) }
        ensures tally { tally self.new ≡ tally self.old }
    {
        false
    }

    /// Hands on what it keeps in a buffer of its own, where it has one, and flushes what it writes to: none
    /// keeps any of its bytes then. It takes no byte by that. At the one error, `PipeFailed`, not all of
    /// them were handed on, and it has exactly one failure more.
    fn flush(&mut self) -> Result<(), PipeFailed>
        requires { (tally self.old).failures < 2 ^ 64 - 1 }
        ensures taken { taken self.new ≡ taken self.old }
        ensures handed_on { OnOk result (kept self.new ≡ []) }
        ensures failures { let before = (tally self.old).failures in
            (tally self.new).failures ≡ (if is_ok result then before else before + 1) };

    /// The number of its failures so far.
    fn failures(&self) -> u64
        ensures { result ≡ (tally self.now).failures };

    // What it keeps is the end of what it took.
    ghost keeps_last: { (s : Self) → IfSome (taken s) (IsEnd (kept s)) };
}

/// Writes all of `bytes`, trying an interrupted write again until the sink's failures rise.
///
/// At Ok the sink took exactly these bytes. At the one error, `PipeFailed`, it took a front of them
/// and has exactly one failure more.
pub fn write_all<W: Sink>(sink: &mut W, bytes: &[u8]) -> Result<(), PipeFailed>
    requires { (W.tally sink.old).failures < 2 ^ 64 - 1 }
    ensures ok { OnOk result (W.taken sink.new ≡ grown (W.taken sink.old) bytes.now) }
    ensures err { OnErr result (GrewByFront (W.taken sink.old) bytes.now (W.taken sink.new)) }
    ensures failures { let before = (W.tally sink.old).failures in
        (W.tally sink.new).failures ≡ (if is_ok result then before else before + 1) }
{
    if bytes.is_empty() {
        return Ok(());
    }
    // Mostly one write takes them all.
    let before = sink.failures();
    let mut count = sink.write(bytes).unwrap_or(0);
    if count == bytes.len() {
        return Ok(());
    }
    if sink.failures() > before {
        return Err(PipeFailed);
    }
    write_on(sink, bytes, &mut count)
}

/// Writes the first `count` bytes of a room, as [`write_all`] does.
#[inline(always)]
pub fn write_short<W: Sink>(
    sink: &mut W,
    room: &[u8; SHORT_LEN],
    count: usize,
) -> Result<(), PipeFailed>
    requires within { count ≤ SHORT_LEN }
    requires failures { (W.tally sink.old).failures < 2 ^ 64 - 1 }
    ensures ok { OnOk result (W.taken sink.new ≡ grown (W.taken sink.old) (take count room.now)) }
    ensures err { OnErr result
        (GrewByFront (W.taken sink.old) (take count room.now) (W.taken sink.new)) }
    ensures failures { let before = (W.tally sink.old).failures in
        (W.tally sink.new).failures ≡ (if is_ok result then before else before + 1) }
{
    if sink.take_short(room, count) {
        return Ok(());
    }
    write_all(sink, &room[..count])
}

/// Writes what stands in `bytes` from place `count` on, trying an interrupted write again until the sink's
/// failures rise; `count` then says how far it came.
///
/// At Ok it came to the end. At the one error, `PipeFailed`, the sink has exactly one failure more.
pub(crate) fn write_on<W: Sink>(
    sink: &mut W,
    bytes: &[u8],
    count: &mut usize,
) -> Result<(), PipeFailed>
    requires within { count.old ≤ length bytes.now }
    requires failures { (W.tally sink.old).failures < 2 ^ 64 - 1 }
    ensures within { (count.old ≤ count.new) × (count.new ≤ length bytes.now) }
    ensures taken { W.taken sink.new
        ≡ grown (W.taken sink.old) (take (count.new - count.old) (drop count.old bytes.now)) }
    ensures ok { OnOk result (count.new ≡ length bytes.now) }
    ensures failures { let before = (W.tally sink.old).failures in
        (W.tally sink.new).failures ≡ (if is_ok result then before else before + 1) }
{
    let before = sink.failures();
    while *count < bytes.len() {
        *count += sink.write(&bytes[*count..]).unwrap_or(0);
        if sink.failures() > before {
            return Err(PipeFailed);
        }
    }
    Ok(())
}
