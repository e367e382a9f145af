//! The program's pipes: std's readers and writers, which tell nothing of their bytes.

ghost use Rattle.std.specs.Prelude.{◌≡◌, None};
ghost use Rattle.std.specs.IoError.{error_kind};
ghost use Rattle.judy_pipe.specs.Tally.{new_tally};
ghost use Rattle.judy_store.specs.Stops.{stop_of_kind};

use judy_pipe::{PipeFailed, Sink, Source, Stop, Tally};
use std::io;
use std::io::{ErrorKind, Read, Write};

/// A reader as a source.
#[derive(Drop)]
pub struct ReadSource<R> {
    inner: R,
    tally: Tally,
}

impl<R: Read> ReadSource<R> {
    /// The source that reads from `inner`, with no failure yet.
    pub fn new(inner: R) -> Self
        ensures { result.tally ≡ new_tally }
    {
        ReadSource {
            inner,
            tally: Tally::new(),
        }
    }
}

impl<R: Read> Source for ReadSource<R> {
    ghost given = { λ _. None };

    ghost ended = { λ _. None };

    ghost tally = { λ source. source.tally };

    ghost gives_content = { λ _. tt };

    ghost never_fails = { λ _. tt };

    fn read(&mut self, room: &mut [u8]) -> Result<usize, Stop> {
        let answer = self.inner.read(room).map_err(stop_of);
        self.tally.count_read(&answer);
        answer
    }

    fn failures(&self) -> u64 {
        self.tally.failures
    }
}

/// A writer as a sink.
#[derive(Drop)]
pub struct WriteSink<W> {
    inner: W,
    tally: Tally,
}

impl<W: Write> WriteSink<W> {
    /// The sink that writes to `inner`, with no failure yet.
    pub fn new(inner: W) -> Self
        ensures { result.tally ≡ new_tally }
    {
        WriteSink {
            inner,
            tally: Tally::new(),
        }
    }
}

impl<W: Write> Sink for WriteSink<W> {
    ghost taken = { λ _. None };

    ghost tally = { λ sink. sink.tally };

    ghost keeps_last = { λ _. tt };

    fn write(&mut self, piece: &[u8]) -> Result<usize, Stop> {
        let answer = self.inner.write(piece).map_err(stop_of);
        self.tally.count_write(piece, &answer);
        answer
    }

    fn flush(&mut self) -> Result<(), PipeFailed> {
        let before = self.tally.failures;
        loop {
            match self.inner.flush() {
                Ok(()) => return Ok(()),
                Err(error) => self.tally.stopped(stop_of(error)),
            }
            if self.tally.failures > before {
                return Err(PipeFailed);
            }
        }
    }

    fn failures(&self) -> u64 {
        self.tally.failures
    }
}

// How std's error stops a call.
fn stop_of(error: io::Error) -> Stop
    ensures { result ≡ stop_of_kind (error_kind error) }
{
    if error.kind() == ErrorKind::Interrupted {
        Stop::Interrupted
    } else {
        Stop::Failed
    }
}
