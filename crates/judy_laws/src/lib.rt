//! Laws and examples above the definitions of judy_model. Only judy_sets, judy_string_sets and what is above them stand
//! on this crate, so a new law costs few proofs.
//!
//! [`laws`] says what follows from the definitions, each law as the contract of a function with an empty body, and
//! [`examples`] has short cases that the check computes, with values from the formats. Nothing here is run. What they
//! speak of beside the definitions is in specs/.
#![tactic(auto)]

pub mod examples;
pub mod laws;
