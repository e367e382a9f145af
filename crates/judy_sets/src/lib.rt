//! What two arrays of words have together, and ranges of their keys.
//!
//! counts.rt has how many keys both have, and by it the counts of a union and of differences, and how many words of a
//! range are no keys, and relations.rt whether one's keys are part of the other's, apart from them, or the same.
//! combine.rt has new arrays of two: unions, intersections and differences, made node by node by judy_combine, or else
//! filled by fills.rt, and ranges.rt copies a range of keys, keeps it, takes it out or splits it off by what
//! range_puts.rt fills. range_words.rt puts the words of a range in, or turns them round.
//!
//! Counts and relations go down both trees at once: meets.rt meets each node of the one with those of the other that
//! have its words, and leaves.rt goes through two leaves side by side. What fills arrays goes through both side by
//! side, a page of 64 pairs at a time: pages.rt reads them ahead, and steps.rt goes through two arrays. Where one has
//! far fewer keys, lookups.rt looks these up in the other. downward.rt tells keys in descending order. Its tests stand
//! in judy_sets_tests.
//!
//! The crate stands on the nodes of judy_node, the walks and ways of judy_query and judy_word's public calls, and
//! changes no node itself.
#![tactic(auto)]

mod combine;
mod counts;
mod downward;
mod fills;
mod leaves;
mod lookups;
mod meets;
mod pages;
mod range_puts;
mod range_words;
mod ranges;
mod relations;
mod steps;

pub use combine::{append, combined, difference, intersection, symmetric_difference, union};
pub use counts::{
    common_count, count_empty, difference_count, symmetric_difference_count, union_count,
};
pub use downward::fill_down;
pub use judy_combine::Keep;
pub use range_words::{flip, insert_range};
pub use ranges::{copy_range, remove_range, retain_range, split_off};
pub use relations::{is_disjoint, is_subset, is_superset, same_keys};
