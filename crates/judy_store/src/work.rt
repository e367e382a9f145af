//! What the program does with its files, in its order. Each file is opened when it is its turn.

use crate::dump_file::DumpFile;
use crate::end::End;
use crate::files;
use crate::pipes::{ReadSource, WriteSink};
use crate::store::{dump_store, run_store};
use judy_options::Options;
use judy_pipe::{BufferedSink, BufferedSource};
use judy_shelf::{DumpFault, Shelf, load};
use std::io::Read;
use std::mem;

// The most bytes of a script. (This project's own.)
const MAX_SCRIPT_LEN: u64 = 1073741824;

// How many bytes of a dump are read at once, and of answers or a dump written at once.
const BUFFER_LEN: usize = 65536;

/// Begins with an empty store, or the one that it loads; runs the script, and hands its answers on; then dumps the
/// store where it is asked to. The first fault ends it, and nothing later is done.
///
/// Where all is done, the arrays are not let go, since the system takes the memory of a program that ends at once, and
/// each block by itself takes longer.
pub fn serve(rt: &HostRuntime, options: &Options) -> Result<(), End> {
    let mut shelf = match &options.load {
        Some(name) => loaded(rt, name.as_str())?,
        None => Shelf::new(rt.alloc()),
    };
    match &options.script {
        Some(name) => answer(rt, files::open(rt, name.as_str())?, &mut shelf)?,
        None => answer(rt, rt.stdin(), &mut shelf)?,
    }
    if let Some(name) = &options.dump {
        dumped(rt, name.as_str(), options.format, &shelf)?;
    }
    mem::forget(shelf);
    Ok(())
}

// The shelf that the dump of that name is of.
fn loaded(rt: &HostRuntime, name: &str) -> Result<Shelf, End> {
    let file = ReadSource::new(files::open(rt, name)?);
    let mut source = BufferedSource::<_, BUFFER_LEN>::new(file);
    load(rt.alloc(), &mut source).map_err(End::Load)
}

// Runs a script, and writes its answers to standard output.
fn answer<R: Read + Drop>(rt: &HostRuntime, script: R, shelf: &mut Shelf) -> Result<(), End> {
    let mut source = ReadSource::new(script);
    let mut sink = BufferedSink::<_, BUFFER_LEN>::new(WriteSink::new(rt.stdout()));
    run_store(&mut source, shelf, &mut sink, MAX_SCRIPT_LEN).map_err(End::Run)
}

// Writes the dump of a shelf in a format to the file of that name. A file that isn't kept didn't take it.
fn dumped(rt: &HostRuntime, name: &str, format: u64, shelf: &Shelf) -> Result<(), End> {
    let mut file = DumpFile::new(files::create(rt, name)?);
    written(&mut file, format, shelf).map_err(End::Dump)?;
    file.keep().map_err(|_| End::Dump(DumpFault::Write))
}

// Writes the dump of a shelf in a format to a file.
fn written(file: &mut DumpFile, format: u64, shelf: &Shelf) -> Result<(), DumpFault> {
    let mut sink = BufferedSink::<_, BUFFER_LEN>::new(WriteSink::new(file));
    dump_store(format, shelf, &mut sink)
}
