//! The files that the program opens.

use crate::end::End;
use std::alloc::Global;
use std::fs::{File, OpenOptions};
use std::io;
use std::os::fd::AsRawFd;

// The last of the descriptors that are standard input, output and error.
const LAST_STREAM: i32 = 2;

/// Opens the file of that name to read it. A folder is opened too, and fails when it is read.
///
/// The one error is `Open`, or `NoMemory` where there is none for the name that it tells.
pub fn open(rt: &HostRuntime, name: &str) -> Result<File, End> {
    match File::open(rt, name).and_then(beside_streams) {
        Ok(file) => Ok(file),
        Err(_) => Err(not_opened(rt.alloc(), name)),
    }
}

/// Opens the file of that name to write it; one that isn't there is created.
///
/// The one error is `Open`, or `NoMemory` where there is none for the name that it tells.
pub fn create(rt: &HostRuntime, name: &str) -> Result<File, End> {
    let mut how = OpenOptions::new();
    match how
        .write(true)
        .create(true)
        .open(rt, name)
        .and_then(beside_streams)
    {
        Ok(file) => Ok(file),
        Err(_) => Err(not_opened(rt.alloc(), name)),
    }
}

// A standard stream that was closed before the program began leaves its descriptor to the next file that is opened,
// which would then get what is written to that stream. A copy of the descriptor comes behind those of the streams,
// and the first one is closed again.
fn beside_streams(file: File) -> io::Result<File> {
    if file.as_raw_fd() > LAST_STREAM {
        Ok(file)
    } else {
        file.try_clone()
    }
}

fn not_opened(alloc: Global, name: &str) -> End {
    match String::from_str(alloc, name) {
        Ok(name) => End::Open(name),
        Err(_) => End::NoMemory,
    }
}
