//! Tests of what two arrays of words have together, and of ranges: rows worked by hand, in two_arrays.rt.
//!
//! The crate stands on judy_sets, beside the tests of the tree, which a change of judy_sets leaves proved. It has no
//! code of its own.
#![tactic(auto)]

#[cfg(test)]
mod two_arrays;
