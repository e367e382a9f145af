//! The one place of the counting rule.

ghost use Rattle.std.specs.Prelude.{◌≡◌, ◌-◌, ◌<◌, ◌^◌};
ghost use Rattle.judy_pipe.specs.Tally.{new_tally, after_move, after_failure, after_interruption, after_stop, after_read, after_write};

use crate::stop::Stop;

// How many interruptions in a row are tried again: one more is a failure. This project's own.
const RETRIED_INTERRUPTIONS: u64 = 999;

/// How often a pipe failed in all, and how often it was interrupted in a row.
///
/// A pipe that counts for itself holds one and tells it of each call, by `count_read` or `count_write`; a
/// buffered one goes by that of the pipe that it stands over. A call asks that the failures stand below
/// `u64::MAX`, and adds at most one.
#[derive(Clone, Copy, Debug, PartialEq, Eq)]
pub struct Tally {
    /// The failures so far.
    pub failures: u64,
    /// The interruptions since a call last moved bytes or failed.
    pub interruptions: u64,
}

impl Tally {
    /// The tally of a pipe that was not called yet: nothing counted.
    pub fn new() -> Self
        ensures { result ≡ new_tally }
    {
        Tally {
            failures: 0,
            interruptions: 0,
        }
    }

    /// Counts a call that was neither interrupted nor a failure: the interruptions in a row end.
    pub fn moved(&mut self)
        ensures { self.new ≡ after_move self.old }
    {
        self.interruptions = 0;
    }

    /// Counts one failure, which ends the interruptions in a row.
    pub fn failed(&mut self)
        requires { self.old.failures < 2 ^ 64 - 1 }
        ensures { self.new ≡ after_failure self.old }
    {
        self.failures += 1;
        self.moved();
    }

    /// Counts one interruption: one more in a row, or a failure where 999 came before it in a row.
    pub fn interrupted(&mut self)
        requires { self.old.failures < 2 ^ 64 - 1 }
        ensures { self.new ≡ after_interruption self.old }
    {
        if self.interruptions < RETRIED_INTERRUPTIONS {
            self.interruptions += 1;
        } else {
            self.failed();
        }
    }

    /// Counts a call that moved no byte, by its reason.
    pub fn stopped(&mut self, stop: Stop)
        requires { self.old.failures < 2 ^ 64 - 1 }
        ensures { self.new ≡ after_stop self.old stop }
    {
        match stop {
            Stop::Interrupted => self.interrupted(),
            Stop::Failed => self.failed(),
        }
    }

    /// Counts a read by its answer. A read of 0 bytes, as at the end, is no failure.
    pub fn count_read(&mut self, answer: &Result<usize, Stop>)
        requires { self.old.failures < 2 ^ 64 - 1 }
        ensures { self.new ≡ after_read self.old answer.now }
    {
        match *answer {
            Ok(_) => self.moved(),
            Err(stop) => self.stopped(stop),
        }
    }

    /// Counts a write of `piece` by its answer: 0 bytes of a piece that is not empty are a failure, and
    /// any other answer counts as for a read.
    pub fn count_write(&mut self, piece: &[u8], answer: &Result<usize, Stop>)
        requires { self.old.failures < 2 ^ 64 - 1 }
        ensures { self.new ≡ after_write self.old piece.now answer.now }
    {
        match *answer {
            Ok(0) if !piece.is_empty() => self.failed(),
            _ => self.count_read(answer),
        }
    }
}
