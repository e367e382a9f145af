//! Scripts: lines, commands and answers over a shelf of named arrays.
//!
//! [`run`] runs the script that a source gives, [`run_bytes`] one in hand. Their contracts are the headline
//! of the project: for every script and every starting store, what is written is the scripted answers of
//! plain finite maps, line by line, and the store left is theirs. `RanToEnd` of `judy_model` says it, and
//! `LeftBy` what each fault leaves.
//!
//! The way of a script: `runs` reads its bytes in pieces and feeds them to `engine`, which cuts them into lines (`cut`,
//! `line`); a line's tokens (`tokens`) are carried out by `judy_command` over the shelf, and its reply is printed
//! (`print`, into a `text`) and written. Fixed buffers serve all lines of a run, so that an answer takes no memory.
//! `fault` tells why a run ends before its script does.
//!
//! The crate stands on `judy_command` for the commands, `judy_shelf` for the store and `judy_pipe` for what is read
//! and written; the program stands on it.
#![tactic(auto)]

mod cut;
mod engine;
mod fault;
mod line;
mod print;
mod runs;
mod text;
mod tokens;

pub use fault::RunFault;
pub use runs::{run, run_bytes};
