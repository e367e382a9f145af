//! A source over a slice, for tests and for callers that hold all bytes at once.

ghost use Rattle.std.specs.Prelude.{◌≡◌, ℕ, ◌+◌, ◌-◌, ◌<◌, ◌≤◌, ◌^◌, Bool, true, false, List, [], ◌++◌, length, Some, None, Ok, IfOk, IsOk, take, drop};
ghost use Rattle.std.specs.Result.{result_unwrap_or};
ghost use Rattle.judy_pipe.specs.declared.mem_source.SourceTrouble.TheVariants.{Never};
ghost use Rattle.judy_pipe.specs.Pipe.{grown, moved, told, gave_end};
ghost use Rattle.judy_pipe.specs.Tally.{new_tally, after_read};
ghost use Rattle.judy_pipe.specs.Trouble.{source_stop, source_trouble_after, source_reach, is_never};

use crate::source::Source;
use crate::stop::Stop;
use crate::tally::Tally;

/// The place at which a `MemSource` meets trouble: how many bytes it has given by then. No read
/// crosses the place: one that would reach beyond it gives the bytes up to it.
#[derive(Clone, Copy, Debug, PartialEq, Eq)]
pub enum SourceTrouble {
    /// No such place.
    Never,
    /// Each read fails once exactly `at` bytes were given.
    Fails { at: usize },
    /// Once exactly `at` bytes were given, the next `times` reads are interrupted.
    Interrupts { at: usize, times: u64 },
}

impl SourceTrouble {
    // Why a read stops after `given` bytes, if it does; an interruption is then used up.
    fn meet(&mut self, given: usize) -> Option<Stop>
        ensures stop { result ≡ source_stop self.old given }
        ensures after { self.new ≡ source_trouble_after self.old given }
    {
        match *self {
            SourceTrouble::Fails { at } if at == given => Some(Stop::Failed),
            SourceTrouble::Interrupts { at, times } if at == given && times > 0 => {
                let times = times - 1;
                *self = SourceTrouble::Interrupts { at, times };
                Some(Stop::Interrupted)
            }
            _ => None,
        }
    }

    // How many of `wanted` bytes a read gives after `given`, so that it does not cross the place.
    fn reach(&self, given: usize, wanted: usize) -> usize
        ensures reach { result ≡ source_reach self.now given wanted }
        ensures within { result ≤ wanted }
    {
        match *self {
            SourceTrouble::Fails { at } if given < at => wanted.min(at - given),
            SourceTrouble::Interrupts { at, .. } if given < at => wanted.min(at - given),
            _ => wanted,
        }
    }
}

/// Gives the bytes of a slice in order, and then the end, again and again.
///
/// With no place of trouble it never fails. With one it still gives a front of the slice, in order.
#[derive(Debug, Drop)]
pub struct MemSource<'a> {
    bytes: &'a [u8],
    given: usize,
    most: usize,
    trouble: SourceTrouble,
    ended: bool,
    tally: Tally,
    ghost within: { given ≤ length bytes.now },
    ghost moves: { 0 < most },
    ghost ends_last: { ended ≡ true → given ≡ length bytes.now },
    ghost settled: { ended ≡ true → source_stop trouble given ≡ None },
    ghost unfailing: { is_never trouble ≡ true → tally.failures ≡ 0 },
}

impl<'a> MemSource<'a> {
    ghost use Rattle.judy_pipe.specs.MemSource.{source_most, source_trouble, source_answer};

    /// A source over `bytes` that was not read yet. One read gives at most `most` bytes, at least 1.
    pub fn new(bytes: &'a [u8], most: usize, trouble: SourceTrouble) -> Self
        requires { 0 < most }
        ensures given { ⟦<MemSource<'a> as Source>⟧.given result ≡ Some [] }
        ensures ended { ⟦<MemSource<'a> as Source>⟧.ended result ≡ Some false }
        ensures content { ⟦<MemSource<'a> as Source>⟧.content result ≡ Some bytes.entry.now }
        ensures unfailing { ⟦<MemSource<'a> as Source>⟧.is_unfailing result ≡ is_never trouble }
        ensures tally { ⟦<MemSource<'a> as Source>⟧.tally result ≡ new_tally }
        ensures most { source_most result ≡ most }
        ensures trouble { source_trouble result ≡ trouble }
    {
        MemSource {
            bytes,
            given: 0,
            most,
            trouble,
            ended: false,
            tally: Tally::new(),
        }
    }

    /// Whether the last read gave the end.
    pub fn has_ended(&self) -> bool
        ensures { ⟦<MemSource<'a> as Source>⟧.ended self.now ≡ Some result }
    {
        self.ended
    }

    // A read, but for the counting.
    fn give(&mut self, room: &mut [u8]) -> Result<usize, Stop>
        ensures answer { result ≡ source_answer self.old (length room.old) }
        ensures moved { take self.new.given self.old.bytes.now
            ≡ take self.old.given self.old.bytes.now ++ moved result room.new }
        ensures rest { drop (result_unwrap_or result 0) room.new
            ≡ drop (result_unwrap_or result 0) room.old }
        ensures goes_on { self.old.ended ≡ true → result ≡ Ok 0 }
        ensures ended { self.new.ended ≡ gave_end result (length room.old) }
        ensures trouble { self.new.trouble ≡ source_trouble_after self.old.trouble self.old.given }
        ensures bytes { self.new.bytes ≡ self.old.bytes }
        ensures most { self.new.most ≡ self.old.most }
        ensures tally { self.new.tally ≡ self.old.tally }
    {
        self.ended = false;
        if let Some(stop) = self.trouble.meet(self.given) {
            return Err(stop);
        }
        let wanted = room.len().min(self.most).min(self.bytes.len() - self.given);
        let count = self.trouble.reach(self.given, wanted);
        room[..count].copy_from_slice(&self.bytes[self.given..self.given + count]);
        self.given += count;
        self.ended = count == 0 && !room.is_empty();
        Ok(count)
    }
}

impl<'a> Source for MemSource<'a> {
    ghost use Rattle.judy_pipe.specs.MemSource.{source_given, source_ended, source_content, source_is_unfailing, source_tally, source_most, source_trouble, given_count, source_answer};
    ghost use Rattle.judy_pipe.specs.Content.{slice_in_order, none_failed};

    ghost given = { source_given };

    ghost ended = { source_ended };

    ghost content = { source_content };

    ghost is_unfailing = { source_is_unfailing };

    ghost tally = { source_tally };

    ghost gives_content = { λ s. slice_in_order s.bytes.now s.given s.ended s.ends_last };

    ghost never_fails = { λ s. none_failed (is_never s.trouble) s.tally s.unfailing };

    fn read(&mut self, room: &mut [u8]) -> Result<usize, Stop>
        requires { (source_tally self.old).failures < 2 ^ 64 - 1 }
        ensures count { IfOk result (λ n. n ≤ length room.old) }
        ensures given { source_given self.new
            ≡ grown (source_given self.old) (moved result room.new) }
        ensures ended { source_ended self.new
            ≡ told (source_ended self.old) (gave_end result (length room.old)) }
        ensures content { source_content self.new ≡ source_content self.old }
        ensures unfailing { source_is_unfailing self.new ≡ source_is_unfailing self.old }
        ensures goes_on { source_ended self.old ≡ Some true → result ≡ Ok 0 }
        ensures tally { source_tally self.new ≡ after_read (source_tally self.old) result }

        // Beyond the trait: the answer is exactly this, and the rest of `room` stays.
        ensures answer { result ≡ source_answer self.old (length room.old) }
        ensures rest { drop (result_unwrap_or result 0) room.new
            ≡ drop (result_unwrap_or result 0) room.old }
        ensures most { source_most self.new ≡ source_most self.old }
        ensures trouble { source_trouble self.new
            ≡ source_trouble_after (source_trouble self.old) (given_count self.old) }
        ensures never { source_trouble self.old ≡ Never → IsOk result }
    {
        let answer = self.give(room);
        self.tally.count_read(&answer);
        answer
    }

    fn failures(&self) -> u64 {
        self.tally.failures
    }
}
