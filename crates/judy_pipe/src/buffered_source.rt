//! A source that reads ahead in large pieces.

ghost use Rattle.std.specs.Prelude.{◌≡◌, ◌-◌, ◌<◌, ◌≤◌, ◌^◌, ◌+◌, take, drop, length, min, true, false, Some, is_ok, IsOk, ◌&&◌, ◌==◌, nat_lt, if◌then◌else◌};
ghost use Rattle.judy_pipe.specs.Pipe.{grown, without, told, IsAhead};

use crate::source::{Source, read_some};
use crate::stop::{PipeFailed, Stop};

/// Reads up to `N` bytes ahead from another source, and gives them in pieces of any size.
///
/// It gives the same bytes, each once and in order, and then the same end; its failures are that source's,
/// which it asks for a piece only when it has given all that it kept. Where it is dropped, what it kept is let
/// go. It takes no memory.
#[derive(Drop)]
pub struct BufferedSource<R: Source + Drop, const N: usize> {
    inner: R,
    buffer: [u8; N],
    // The bytes from `next` up to `end` are kept.
    next: usize,
    end: usize,
    ghost ordered: { next ≤ end },
    ghost within: { end ≤ N },
    ghost reads: { 0 < N },
    ghost keeps: { grown (without (R.given inner) (end - next))
        (take (end - next) (drop next buffer)) ≡ R.given inner },
    ghost not_ended: { next < end → R.ended inner ≡ told (R.ended inner) false },
}

impl<R: Source + Drop, const N: usize> BufferedSource<R, N> {
    /// The source that keeps nothing yet, over `inner`. `N` is at least 1.
    pub fn new(inner: R) -> Self
        requires { 0 < N }
        ensures given { ⟦<BufferedSource<R, N> as Source>⟧.given result ≡ R.given inner }
        ensures ended { ⟦<BufferedSource<R, N> as Source>⟧.ended result ≡ R.ended inner }
        ensures content { ⟦<BufferedSource<R, N> as Source>⟧.content result ≡ R.content inner }
        ensures unfailing { ⟦<BufferedSource<R, N> as Source>⟧.is_unfailing result
            ≡ R.is_unfailing inner }
        ensures failures { (⟦<BufferedSource<R, N> as Source>⟧.tally result).failures
            ≡ (R.tally inner).failures }
    {
        BufferedSource {
            inner,
            buffer: [0; N],
            next: 0,
            end: 0,
        }
    }

    /// The source that it reads from, which gave up to `N` bytes more than it. These are let go.
    pub fn into_inner(self) -> R
        ensures inner { result ≡ self.inner }
        ensures ahead { IsAhead N (⟦<BufferedSource<R, N> as Source>⟧.given self) (R.given result) }
    {
        self.inner
    }

    // Asks for the next piece, of up to `most` bytes, where none is kept. It stands apart from the way of most reads,
    // which are given what is kept and are compiled into their caller, who knows how many bytes it wants.
    #[inline(never)]
    fn refill(&mut self, most: usize) -> Result<(), PipeFailed>
        requires within { most ≤ N }
        requires none_kept { self.old.next ≡ self.old.end }
        requires failures { (R.tally self.old.inner).failures < 2 ^ 64 - 1 }
        ensures given { without (R.given self.new.inner) (self.new.end - self.new.next)
            ≡ R.given self.old.inner }
        ensures ended { R.ended self.new.inner
            ≡ (if is_ok result then told (R.ended self.old.inner)
            (self.new.next == self.new.end && nat_lt 0 most) else told
            (R.ended self.old.inner) false) }
        ensures content { R.content self.new.inner ≡ R.content self.old.inner }
        ensures unfailing { R.is_unfailing self.new.inner ≡ R.is_unfailing self.old.inner }
        ensures goes_on { R.ended self.old.inner ≡ Some true
            → IsOk result × (self.new.next ≡ self.new.end) }
        ensures failures { let before = (R.tally self.old.inner).failures in
            (R.tally self.new.inner).failures ≡ (if is_ok result then before else before + 1) }
    {
        self.end = read_some(&mut self.inner, &mut self.buffer[..most])?;
        self.next = 0;
        Ok(())
    }

    // Gives of what is kept as much as fits.
    #[inline(always)]
    fn give(&mut self, room: &mut [u8]) -> usize
        ensures count { result ≡ min (length room.old) (self.old.end - self.old.next) }
        ensures len { length room.new ≡ length room.old }
        ensures given { without (R.given self.new.inner) (self.new.end - self.new.next)
            ≡ grown (without (R.given self.old.inner) (self.old.end - self.old.next))
            (take result room.new) }
        ensures inner { self.new.inner ≡ self.old.inner }
    {
        let wanted = room.len();
        let kept = self.end - self.next;
        if wanted <= kept {
            self.fill(room);
            return wanted;
        }
        self.fill(&mut room[..kept]);
        kept
    }

    // Fills a room from what is kept, which is as much or more. Where the caller knows how long its room is, so does
    // the copy.
    #[inline(always)]
    fn fill(&mut self, room: &mut [u8])
        requires { length room.old ≤ self.old.end - self.old.next }
        ensures len { length room.new ≡ length room.old }
        ensures given { without (R.given self.new.inner) (self.new.end - self.new.next)
            ≡ grown (without (R.given self.old.inner) (self.old.end - self.old.next)) room.new }
        ensures inner { self.new.inner ≡ self.old.inner }
    {
        let count = room.len();
        let buffer = &self.buffer[..];
        room.copy_from_slice(&buffer[self.next..self.next + count]);
        self.next += count;
    }
}

impl<R: Source + Drop, const N: usize> Source for BufferedSource<R, N> {
    ghost use Rattle.judy_pipe.specs.declared.tally.Tally.{Tally};
    ghost use Rattle.judy_pipe.specs.Content.{ahead_in_order, none_failed_ahead};

    ghost given = { λ s. without (R.given s.inner) (s.end - s.next) };

    ghost ended = { λ s. R.ended s.inner };

    ghost content = { λ s. R.content s.inner };

    ghost is_unfailing = { λ s. R.is_unfailing s.inner };

    ghost tally = { λ s. record { failures = (R.tally s.inner).failures; interruptions = 0 } };

    ghost gives_content = { λ s.
        ahead_in_order (R.content s.inner) (R.given s.inner)
        (R.ended s.inner) s.next s.end s.ordered s.not_ended (R.gives_content s.inner) };

    ghost never_fails = { λ s.
        none_failed_ahead (R.is_unfailing s.inner) (R.tally s.inner) (R.never_fails s.inner) };

    // Interruptions are tried again while it reads ahead, and counted there.
    #[inline(always)]
    fn read(&mut self, room: &mut [u8]) -> Result<usize, Stop> {
        if self.next == self.end {
            // Of no bytes none are asked for, and they are no end.
            let most = if room.is_empty() { 0 } else { N };
            if self.refill(most).is_err() {
                return Err(Stop::Failed);
            }
        }
        Ok(self.give(room))
    }

    fn failures(&self) -> u64 {
        self.inner.failures()
    }
}
