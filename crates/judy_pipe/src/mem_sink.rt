//! A sink over a fixed buffer, for tests and for callers that want the bytes in hand.

ghost use Rattle.std.specs.Prelude.{◌≡◌, ℕ, ◌+◌, ◌-◌, ◌<◌, ◌≤◌, ◌^◌, List, [], ◌++◌, length, Some, IfOk, take};
ghost use Rattle.judy_pipe.specs.declared.mem_sink.SinkTrouble.TheVariants.{Never};
ghost use Rattle.judy_pipe.specs.Pipe.{grown, moved};
ghost use Rattle.judy_pipe.specs.Tally.{new_tally, after_write};
ghost use Rattle.judy_pipe.specs.Trouble.{sink_refusal, sink_trouble_after, sink_reach};

use crate::sink::Sink;
use crate::stop::{PipeFailed, Stop};
use crate::tally::Tally;
use arrayvec::ArrayVec;

/// The place at which a `MemSink` meets trouble: how many bytes it has taken by then. No write crosses
/// the place: one that would reach beyond it takes the bytes up to it.
#[derive(Clone, Copy, Debug, PartialEq, Eq)]
pub enum SinkTrouble {
    /// No such place.
    Never,
    /// Each write fails once exactly `at` bytes were taken.
    Fails { at: usize },
    /// Once exactly `at` bytes were taken, the next `times` writes are interrupted.
    Interrupts { at: usize, times: u64 },
    /// Each write takes 0 bytes once exactly `at` bytes were taken.
    TakesNothing { at: usize },
}

impl SinkTrouble {
    // What a write answers after `taken` bytes in place of taking any, if it does; an interruption is
    // then used up.
    fn meet(&mut self, taken: usize) -> Option<Result<usize, Stop>>
        ensures refusal { result ≡ sink_refusal self.old taken }
        ensures after { self.new ≡ sink_trouble_after self.old taken }
    {
        match *self {
            SinkTrouble::Fails { at } if at == taken => Some(Err(Stop::Failed)),
            SinkTrouble::Interrupts { at, times } if at == taken && times > 0 => {
                let times = times - 1;
                *self = SinkTrouble::Interrupts { at, times };
                Some(Err(Stop::Interrupted))
            }
            SinkTrouble::TakesNothing { at } if at == taken => Some(Ok(0)),
            _ => None,
        }
    }

    // How many of `wanted` bytes a write takes after `taken`, so that it does not cross the place.
    fn reach(&self, taken: usize, wanted: usize) -> usize
        ensures reach { result ≡ sink_reach self.now taken wanted }
        ensures within { result ≤ wanted }
    {
        match *self {
            SinkTrouble::Fails { at } if taken < at => wanted.min(at - taken),
            SinkTrouble::Interrupts { at, .. } if taken < at => wanted.min(at - taken),
            SinkTrouble::TakesNothing { at } if taken < at => wanted.min(at - taken),
            _ => wanted,
        }
    }
}

/// Holds the bytes that it took, at most `N`. A write where it is full is `Failed`.
///
/// With no place of trouble it fails only where it is full.
#[derive(Debug, Drop)]
pub struct MemSink<const N: usize> {
    held: ArrayVec<u8, N>,
    most: usize,
    trouble: SinkTrouble,
    tally: Tally,
    ghost moves: { 0 < most },
}

impl<const N: usize> MemSink<N> {
    ghost use Rattle.judy_pipe.specs.MemSink.{taken_bytes, sink_most, sink_trouble, sink_answer};

    /// A sink that took nothing yet. One write takes at most `most` bytes, at least 1.
    pub fn new(most: usize, trouble: SinkTrouble) -> Self
        requires { 0 < most }
        ensures taken { ⟦<MemSink<N> as Sink>⟧.taken result ≡ Some [] }
        ensures tally { ⟦<MemSink<N> as Sink>⟧.tally result ≡ new_tally }
        ensures most { sink_most result ≡ most }
        ensures trouble { sink_trouble result ≡ trouble }
    {
        MemSink {
            held: ArrayVec::new(),
            most,
            trouble,
            tally: Tally::new(),
        }
    }

    /// The bytes that it took, in order.
    pub fn bytes(&self) -> &[u8]
        ensures taken { ⟦<MemSink<N> as Sink>⟧.taken self.now ≡ Some result.now }
        ensures fits { length result.now ≤ N }
    {
        self.held.as_slice()
    }

    // A write, but for the counting.
    fn take_from(&mut self, piece: &[u8]) -> Result<usize, Stop>
        ensures answer { result ≡ sink_answer self.old (length piece.now) }
        ensures taken { self.new.held.items ≡ self.old.held.items ++ moved result piece.now }
        ensures trouble { self.new.trouble
            ≡ sink_trouble_after self.old.trouble (length self.old.held.items) }
        ensures most { self.new.most ≡ self.old.most }
        ensures tally { self.new.tally ≡ self.old.tally }
    {
        let taken = self.held.len();
        if let Some(answer) = self.trouble.meet(taken) {
            return answer;
        }
        if self.held.is_full() {
            return Err(Stop::Failed);
        }
        let wanted = piece
            .len()
            .min(self.most)
            .min(self.held.remaining_capacity());
        let count = self.trouble.reach(taken, wanted);
        let _ = self.held.try_extend_from_slice(&piece[..count]);
        Ok(count)
    }
}

impl<const N: usize> Sink for MemSink<N> {
    ghost use Rattle.judy_pipe.specs.MemSink.{taken_bytes, sink_tally, sink_most, sink_trouble, sink_answer};
    ghost use Rattle.judy_pipe.specs.Content.{none_kept};

    ghost taken = { λ s. Some (taken_bytes s) };

    ghost tally = { λ s. sink_tally s };

    ghost keeps_last = { λ s. none_kept (Some (taken_bytes s)) };

    fn write(&mut self, piece: &[u8]) -> Result<usize, Stop>
        requires { (sink_tally self.old).failures < 2 ^ 64 - 1 }
        ensures count { IfOk result (λ n. n ≤ length piece.now) }
        ensures taken { Some (taken_bytes self.new)
            ≡ grown (Some (taken_bytes self.old)) (moved result piece.now) }
        ensures tally { sink_tally self.new ≡ after_write (sink_tally self.old) piece.now result }

        // Beyond the trait: the answer is exactly this, and only a full sink fails with no place for it.
        ensures answer { result ≡ sink_answer self.old (length piece.now) }
        ensures most { sink_most self.new ≡ sink_most self.old }
        ensures trouble { sink_trouble self.new
            ≡ sink_trouble_after (sink_trouble self.old) (length (taken_bytes self.old)) }
        ensures never { sink_trouble self.old ≡ Never → length (taken_bytes self.old) < N →
            (sink_tally self.new).failures ≡ (sink_tally self.old).failures }
    {
        let answer = self.take_from(piece);
        self.tally.count_write(piece, &answer);
        answer
    }

    // It keeps nothing for anybody else.
    fn flush(&mut self) -> Result<(), PipeFailed> {
        Ok(())
    }

    fn failures(&self) -> u64 {
        self.tally.failures
    }
}
