//! What each command does to the array that it names: its answer, and what stands afterwards. Each law speaks of
//! the step of a line that says the command.

pub mod making;
pub mod order;
pub mod refusals;
pub mod searches;
pub mod sets;
pub mod values;
pub mod whole;
