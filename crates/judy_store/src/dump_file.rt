//! The file that a dump is written to.

use judy_pipe::PipeFailed;
use std::fs::{File, OpenFile};
use std::io;
use std::io::{ErrorKind, Write};

/// A file for a dump. It is emptied before its first byte is written and not when it is opened: so a dump of which no
/// byte could be had leaves what is in the file.
#[derive(Drop)]
pub struct DumpFile {
    file: File,
    is_emptied: bool,
}

impl DumpFile {
    /// The file, not emptied yet.
    pub fn new(file: File) -> Self {
        DumpFile {
            file,
            is_emptied: false,
        }
    }

    // Empties the file, if it wasn't. A terminal or a pipe has no length, which `InvalidInput` tells.
    fn empty(&mut self) -> io::Result<()> {
        if self.is_emptied {
            return Ok(());
        }
        match self.file.set_len(0) {
            Err(error) if error.kind() != ErrorKind::InvalidInput => Err(error),
            _ => {
                self.is_emptied = true;
                Ok(())
            }
        }
    }

    /// Has the system keep what was written, so that it outlasts a loss of power, and closes the file. Some file
    /// systems tell only here that they couldn't keep it, which is the one error. A terminal or a pipe keeps nothing,
    /// which `InvalidInput` tells.
    pub fn keep(self) -> Result<(), PipeFailed> {
        match self.file.sync_data() {
            Err(error) if error.kind() != ErrorKind::InvalidInput => Err(PipeFailed),
            _ => Ok(()),
        }
    }
}

impl Write for DumpFile {
    fn write(&mut self, piece: &[u8]) -> io::Result<usize> {
        self.empty()?;
        self.file.write(piece)
    }

    fn flush(&mut self) -> io::Result<()> {
        self.file.flush()
    }
}
