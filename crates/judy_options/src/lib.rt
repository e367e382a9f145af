//! The command line of `judystore`: which files it names, and which format, by the meaning that `clap` gives its words.
//!
//! [`options`] reads the words (command_line.rt); request.rt has what they ask for, and not_taken.rt why they aren't
//! taken; version.rt has the version, and examples.rt command lines. It stands on `clap` alone, so that it is proved
//! beside the arrays and not behind them.
#![tactic(auto)]

mod command_line;
mod examples;
mod not_taken;
mod request;
mod version;

pub use command_line::options;
pub use not_taken::NotTaken;
pub use request::Options;
pub use version::VERSION;
