//! What two arrays of strings have together, and ranges of their keys.
//!
//! counts.rt has how many keys both have, and by it the counts of a union and of differences, and relations.rt whether
//! one's keys are part of the other's, apart from them, or the same. combine.rt has new arrays of two, unions,
//! intersections and differences, and copies, which fills.rt fills. ranges.rt takes a range of keys out, or those that
//! begin with a string.
//!
//! longest.rt has the longest key that begins some bytes, by fronts that fronts.rt measures.
//!
//! What two have goes through the keys of an array by a cursor, or from place to place where keys are long, and looks
//! each up in the other: keys.rt has the walk, which.rt says which keys it stops at, and room.rt has the bytes that a
//! long key is copied to. Its tests stand in judy_string_tests.
//!
//! The crate stands on judy_sl's public calls alone.
#![tactic(auto)]

mod combine;
mod counts;
mod fills;
mod fronts;
mod keys;
mod longest;
mod ranges;
mod relations;
mod room;
mod which;

pub use combine::{copy, difference, intersection, shrink, symmetric_difference, union};
pub use counts::{common_count, difference_count, symmetric_difference_count, union_count};
pub use longest::longest_prefix;
pub use ranges::{remove_prefix, remove_range};
pub use relations::{is_disjoint, is_subset, same_keys};
pub use which::Which;
