//! What gives bytes, and how one piece of them is read.

ghost use Rattle.std.specs.Prelude.{◌≡◌, ℕ, ◌+◌, ◌-◌, ◌<◌, ◌≤◌, ◌^◌, Bool, true, false, List, Option, Some, None, Ok, length, is_ok, if◌then◌else◌, IfOk};
ghost use Rattle.judy_pipe.specs.Pipe.{grown, moved, told, gave_end, GivesContent, NeverFails};
ghost use Rattle.judy_pipe.specs.Tally.{after_read};

use crate::stop::{PipeFailed, Stop};

/// What gives bytes, a piece at a time, and then the end.
///
/// A source that gave the end goes on giving it, so a reader need not remember that it came. Where the
/// source tells whether it ended, that is the clause `goes_on` of `read`; any other has to do the same.
pub trait Source {
    ghost use Rattle.judy_pipe.specs.declared.tally.Tally.{Tally};

    // The bytes that it gave so far, in order; `None` where it tells nothing of them.
    ghost given: { Self → Option (List ℕ) };

    // Whether its last read gave the end; `None` where it tells nothing of it.
    ghost ended: { Self → Option Bool };

    // All bytes that it gives before the end, where they are known.
    ghost content: { Self → Option (List ℕ) } = { λ _. None };

    // Whether it is known never to fail.
    ghost is_unfailing: { Self → Bool } = { λ _. false };

    // Its failures and its interruptions in a row.
    ghost tally: { Self → Tally };

    /// Puts the next bytes into the front of `room` and answers how many, perhaps fewer than fit. What
    /// stands in `room` after them is left open. 0 bytes for a `room` that is not empty are the end. At
    /// a `Stop` it gave none. A failure is counted as `Tally` says.
    fn read(&mut self, room: &mut [u8]) -> Result<usize, Stop>
        requires { (tally self.old).failures < 2 ^ 64 - 1 }
        ensures count { IfOk result (λ n. n ≤ length room.old) }
        ensures given { given self.new ≡ grown (given self.old) (moved result room.new) }
        ensures ended { ended self.new ≡ told (ended self.old) (gave_end result (length room.old)) }
        ensures content { content self.new ≡ content self.old }
        ensures unfailing { is_unfailing self.new ≡ is_unfailing self.old }
        ensures goes_on { ended self.old ≡ Some true → result ≡ Ok 0 }
        ensures tally { tally self.new ≡ after_read (tally self.old) result };

    /// The number of its failures so far.
    fn failures(&self) -> u64
        ensures { result ≡ (tally self.now).failures };

    // What it gave is a front of its content, and all of it once it gave the end.
    ghost gives_content: { (s : Self) → GivesContent (content s) (given s) (ended s) };

    // Where it is known never to fail, it has no failure.
    ghost never_fails: { (s : Self) → NeverFails (is_unfailing s) (tally s) };
}

/// Reads one piece into the front of `room`, trying an interrupted read again until the source's
/// failures rise.
///
/// Ok is how many bytes it gave, where 0 for a `room` that is not empty is the end; the failures are as
/// before. At the one error, `PipeFailed`, it gave none and has exactly one failure more.
// As `BufferedSource::refill` says.
#[inline(always)]
pub fn read_some<R: Source>(source: &mut R, room: &mut [u8]) -> Result<usize, PipeFailed>
    requires { (R.tally source.old).failures < 2 ^ 64 - 1 }
    ensures count { IfOk result (λ n. n ≤ length room.old) }
    ensures given { R.given source.new ≡ grown (R.given source.old) (moved result room.new) }
    ensures ended { R.ended source.new
        ≡ told (R.ended source.old) (gave_end result (length room.old)) }
    ensures content { R.content source.new ≡ R.content source.old }
    ensures unfailing { R.is_unfailing source.new ≡ R.is_unfailing source.old }
    ensures goes_on { R.ended source.old ≡ Some true → result ≡ Ok 0 }
    ensures failures { let before = (R.tally source.old).failures in
        (R.tally source.new).failures ≡ (if is_ok result then before else before + 1) }
{
    let before = source.failures();
    loop {
        match source.read(room) {
            Ok(count) => return Ok(count),
            Err(_) if source.failures() > before => return Err(PipeFailed),
            Err(_) => {}
        }
    }
}
