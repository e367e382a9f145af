//! Short cases of the definitions, each computed by the check. Their values are those of docs/use/formats.md; those of
//! two maps, ranges, prefixes and lengths of keys were worked out by hand from the definitions.

pub mod dump_faults;
pub mod key_lengths;
pub mod keys;
pub mod lines;
pub mod prefixes;
pub mod ranges;
pub mod replies;
pub mod run_ends;
pub mod two_maps;
