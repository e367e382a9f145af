//! A sink that keeps bytes back and hands them on in large pieces.

ghost use Rattle.std.specs.Prelude.{◌≡◌, ◌+◌, ◌-◌, ◌<◌, ◌≤◌, ◌^◌, [], ◌++◌, take, drop, length, is_ok, if◌then◌else◌, IfOk, IfErr, OnOk};
ghost use Rattle.judy_pipe.specs.declared.stop.Stop.TheVariants.{Failed};
ghost use Rattle.judy_pipe.specs.Pipe.{grown, moved, IsBuffered};

use crate::sink::{SHORT_LEN, Sink, write_on};
use crate::stop::{PipeFailed, Stop};

/// Keeps up to `N` bytes, and hands them on to another sink where a write finds it full and at each `flush`,
/// which flushes that sink too.
///
/// Its bytes so far are those that the other sink took and then those that it keeps, and its failures are
/// that sink's. What couldn't be handed on it keeps, in order, for the next try; where it is dropped
/// nothing is handed on. It takes no memory.
#[derive(Drop)]
pub struct BufferedSink<W: Sink + Drop, const N: usize> {
    inner: W,
    // How many of the bytes before `end`, which are held, the other sink has: some, where it failed in their midst.
    sent: usize,
    end: usize,
    buffer: [u8; N],
    ghost ordered: { sent ≤ end },
    ghost within: { end ≤ N },
    ghost keeps: { 0 < N },
}

impl<W: Sink + Drop, const N: usize> BufferedSink<W, N> {
    /// The sink that keeps nothing of its own yet, over `inner`. `N` is at least 1.
    pub fn new(inner: W) -> Self
        requires { 0 < N }
        ensures taken { ⟦<BufferedSink<W, N> as Sink>⟧.taken result ≡ grown (W.taken inner) [] }
        ensures kept { ⟦<BufferedSink<W, N> as Sink>⟧.kept result ≡ W.kept inner }
        ensures failures { (⟦<BufferedSink<W, N> as Sink>⟧.tally result).failures
            ≡ (W.tally inner).failures }
    {
        BufferedSink {
            inner,
            sent: 0,
            end: 0,
            buffer: [0; N],
        }
    }

    /// The sink that it writes to. What is still kept is let go.
    pub fn into_inner(self) -> W
        ensures inner { result ≡ self.inner }
        ensures buffered { IsBuffered (⟦<BufferedSink<W, N> as Sink>⟧.taken self)
            (⟦<BufferedSink<W, N> as Sink>⟧.kept self) (W.taken result) (W.kept result) }
    {
        self.inner
    }

    // Hands on what is kept.
    fn send(&mut self) -> Result<(), PipeFailed>
        requires { (W.tally self.old.inner).failures < 2 ^ 64 - 1 }
        ensures taken { grown (W.taken self.new.inner)
            (take (self.new.end - self.new.sent) (drop self.new.sent self.new.buffer))
            ≡ grown (W.taken self.old.inner)
            (take (self.old.end - self.old.sent) (drop self.old.sent self.old.buffer)) }
        ensures sent { OnOk result (self.new.end ≡ 0) }
        ensures failures { let before = (W.tally self.old.inner).failures in
            (W.tally self.new.inner).failures ≡ (if is_ok result then before else before + 1) }
    {
        write_on(&mut self.inner, &self.buffer[..self.end], &mut self.sent)?;
        self.sent = 0;
        self.end = 0;
        Ok(())
    }

    // Keeps a piece that fits behind what is kept.
    #[inline(always)]
    fn keep(&mut self, piece: &[u8])
        requires { self.old.end + length piece.now ≤ N }
        ensures taken { grown (W.taken self.new.inner)
            (take (self.new.end - self.new.sent) (drop self.new.sent self.new.buffer))
            ≡ grown (grown (W.taken self.old.inner)
            (take (self.old.end - self.old.sent) (drop self.old.sent self.old.buffer))) piece.now }
        ensures inner { self.new.inner ≡ self.old.inner }
    {
        let end = self.end + piece.len();
        let buffer = &mut self.buffer[..];
        buffer[self.end..end].copy_from_slice(piece);
        self.end = end;
    }
}

impl<W: Sink + Drop, const N: usize> Sink for BufferedSink<W, N> {
    ghost use Rattle.judy_pipe.specs.declared.tally.Tally.{Tally};
    ghost use Rattle.judy_pipe.specs.Content.{kept_behind};

    ghost taken = { λ s. grown (W.taken s.inner) (take (s.end - s.sent) (drop s.sent s.buffer)) };

    ghost kept = { λ s. W.kept s.inner ++ take (s.end - s.sent) (drop s.sent s.buffer) };

    ghost tally = { λ s. record { failures = (W.tally s.inner).failures; interruptions = 0 } };

    ghost keeps_last = { λ s. kept_behind (W.taken s.inner) (W.kept s.inner)
        (take (s.end - s.sent) (drop s.sent s.buffer)) (W.keeps_last s.inner) };

    // Interruptions are tried again while it hands on, and counted there.
    fn write(&mut self, piece: &[u8]) -> Result<usize, Stop> {
        if piece.len() <= N - self.end {
            self.keep(piece);
            return Ok(piece.len());
        }
        if self.end == N && self.send().is_err() {
            return Err(Stop::Failed);
        }
        let count = piece.len().min(N - self.end);
        self.keep(&piece[..count]);
        Ok(count)
    }

    #[inline(always)]
    fn take_short(&mut self, room: &[u8; SHORT_LEN], count: usize) -> bool {
        if N - self.end < SHORT_LEN {
            return false;
        }
        let buffer = &mut self.buffer[..];
        buffer[self.end..self.end + SHORT_LEN].copy_from_slice(room);
        self.end += count;
        true
    }

    fn flush(&mut self) -> Result<(), PipeFailed> {
        self.send()?;
        self.inner.flush()
    }

    fn failures(&self) -> u64 {
        self.inner.failures()
    }
}
