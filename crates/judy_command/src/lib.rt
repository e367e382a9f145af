//! Commands: what the tokens of a script line do to a shelf of named arrays.
//!
//! [`execute`] is the line step of the definitions from the tokens on: it finds the command by its word,
//! makes the checks in the order of the refusals, calls the shelf and its arrays, and gives the reply.
//! `specs/Follows.antt` says what that is: what `judy_model` defines or, where the line adds a key or an
//! array, that there was no memory and nothing changed.
//!
//! `command` has the commands and their words; `commands` says which arguments each takes, `make` makes an array,
//! and `arrays` finds the one that a command names. `sets`, `maps` and `strings` have the commands of judy1, judyl
//! and judysl arrays, but for those of all arrays with values, judyhs arrays among them: these `values` has, once
//! for every array that lends its slots. `keys` reads keys of bytes, `words` numbers; `refusals` turns what a shelf
//! or an array refuses into a line's refusal, and `reply` has the answers and the refusals. A new command is a case
//! in `command`, in `commands` or the kinds that have it, and in the definitions.
//!
//! The crate stands on `judy_shelf` and the arrays; `judy_script` cuts lines into tokens and prints replies.
#![tactic(auto)]

mod arrays;
mod command;
mod commands;
mod keys;
mod make;
mod maps;
mod refusals;
mod reply;
mod sets;
mod strings;
mod values;
mod words;

pub use commands::execute;
pub use keys::are_shown;
pub use reply::{Answer, LineReply, Refusal, Reply};
