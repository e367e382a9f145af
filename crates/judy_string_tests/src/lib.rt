//! The worked rows of arrays over strings and byte strings, by their own calls, as tests by the rows' names.
//!
//! The crate stands on the arrays alone, so it is proved beside the program and not behind it. It has no code of its
//! own.
//!
//! judysl.rt has the rows of arrays over strings, cursors.rt those of walks over them, readers.rt those of keys read
//! where they stand, two_arrays.rt those of what two have together, judyhs.rt those of arrays over byte strings, and
//! check.rt what rows compare. C's tests have those of keys longer than a store's.
#![tactic(auto)]

#[cfg(test)]
mod check;
#[cfg(test)]
mod cursors;
#[cfg(test)]
mod judyhs;
#[cfg(test)]
mod judysl;
#[cfg(test)]
mod readers;
#[cfg(test)]
mod two_arrays;
