//! The program `judystore`: it begins with an empty store or one that it loads, runs a script over it, writes the
//! answers to standard output, and dumps the store where it is asked to.
//!
//! What it calls is proved to give the scripted answers (`judy_script`) and to read and write dumps (`judy_shelf`),
//! for a reader and a writer that tell their bytes, and to read its command line by the meaning that `clap` gives it
//! (`judy_options`).
//! Of the bytes of real files and terminals nothing is claimed: the program's own pipes count their failures and
//! tell no bytes.
//!
//! work.rt does what the words ask, in the program's order:
//! files.rt opens the files, dump_file.rt has the one that is written, pipes.rt has the pipes over them, and store.rt
//! what is done with these. end.rt tells how the program ends, and examples.rt has what is printed of each end.
#![tactic(auto)]

ghost use Rattle.std.specs.Prelude.{◌<◌, ◌-◌, ◌^◌, ◌≢◌, [], IsErrAnd, map, string_bytes};
ghost use Rattle.judy_options.specs.CommandLines.{refusals};
ghost use Rattle.judy_store.specs.Ends.{EndsRefused};

mod dump_file;
mod end;
mod examples;
mod files;
mod pipes;
mod store;
mod work;

use crate::end::{End, status, write_line};
use crate::pipes::WriteSink;
use crate::work::serve;
use judy_options::options;
use judy_pipe::{BufferedSink, Sink};
use judy_script::RunFault;
use std::env;
use std::io::ErrorKind;
use std::process::ExitCode;

// How many bytes of what is said of an end are written at once.
const LINE_LEN: usize = 4096;

fn main(rt: HostRuntime) -> ExitCode {
    let end = match run_program(&rt) {
        Ok(()) => End::Done,
        Err(end) => end,
    };
    ExitCode::from(status(&report(&rt, end)))
}

// Does what the command line asks.
fn run_program(rt: &HostRuntime) -> Result<(), End> {
    let words = words(rt)?;
    serve_words(rt, words.as_slice())
}

// Does what words ask. Where they aren't taken, as where they ask for help or the version, no file is opened.
fn serve_words(rt: &HostRuntime, words: &[String]) -> Result<(), End>
    ensures refused { refusals (map string_bytes words.now) ≢ []
        → IsErrAnd result (EndsRefused (map string_bytes words.now)) }
{
    let options = options(rt.alloc(), words)?;
    serve(rt, &options)
}

// The words of the command line. Where the system doesn't give them as text, they are refused without one.
fn words(rt: &HostRuntime) -> Result<Vec<String>, End> {
    match env::args(rt) {
        Ok(words) => words.collect(rt.alloc()).map_err(|_| End::NoMemory),
        Err(error) if error.kind() == ErrorKind::OutOfMemory => Err(End::NoMemory),
        Err(_) => Err(End::BadWords(String::new(rt.alloc()))),
    }
}

// Tells the user of the end: help and the version on standard output, all else on standard error. Where these can't be
// written, the program ends as where answers can't. What is said is written in one piece where it fits, so that no
// other program's words come between.
fn report(rt: &HostRuntime, end: End) -> End {
    let mut end = end;
    if let End::Help(_) | End::Version = end {
        let mut output = BufferedSink::<_, LINE_LEN>::new(WriteSink::new(rt.stdout()));
        match say(&end, &mut output) {
            Ok(()) => return end,
            Err(fault) => end = End::Run(fault),
        }
    }
    let mut errors = BufferedSink::<_, LINE_LEN>::new(WriteSink::new(rt.stderr()));
    // Where standard error fails too, there is nobody left to tell.
    let _ = say(&end, &mut errors);
    end
}

// Writes what is said of an end, and hands it on.
fn say<W: Sink>(end: &End, sink: &mut W) -> Result<(), RunFault>
    requires { (W.tally sink.old).failures < 2 ^ 64 - 1 }
{
    write_line(end, sink)?;
    sink.flush().map_err(|_| RunFault::Write)
}
