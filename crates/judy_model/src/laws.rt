//! Laws above the definitions. Each is the contract of a function with an empty body, so that the check
//! proves it; no program calls these.

pub mod bytes;
pub mod changes;
pub mod commands;
pub mod counts;
pub mod dumps;
pub mod empties;
pub mod growth;
pub mod kept;
pub mod keys;
pub mod lines;
pub mod neighbours;
pub mod orders;
pub mod ranks;
pub mod remaining;
pub mod run_ends;
pub mod runs;
pub mod shapes;
pub mod steps;
pub mod stores;
pub mod strings;
pub mod tables;
pub mod ways;
pub mod whole_lines;
pub mod words;
