//! The worked rows of one array saved and loaded, as tests by the rows' names.
//!
//! The crate stands on judy_saved, beside the program and not behind it. It has no code of its own; saved.rt has the
//! rows.
#![tactic(auto)]

#[cfg(test)]
mod saved;
