// Arrays over words: keys from 0 to 2^64 - 1 in ascending order, with a limit on how many an array holds.
//
// `JudyL` maps words to words, and `Judy1` is a set of words. The crate stands on judy_model, whose definitions its
// contracts cite: both are the model's array, a limit and a finite map from words to words, and in a `Judy1` each value
// is 0; their contracts know its nodes too, and whether one of these may be larger than its keys need. A `WordMap`
// (word_map.rt) is a `JudyL` whose nodes no contract tells. A call whose comment names none of the manual is this
// project's own. The kinds over byte strings and the script layer stand on this crate.
//
// Both are a `WordArray`, with no word of value a key or with one: word_array.rt has what they have alike, and judy1.rt
// and judyl.rt below it the rest. What lies below it is a `TreeArray`, which is a limit, a tree of judy_node and
// whether that may be loose: each public call hands on to its calls. tree_array.rt has it, and in the folder of that
// name stand what is asked of a key (counts.rt), neighbours with their values (entries.rt) and empties, all over
// judy_query; changes, and those that answer the value that was there (values.rt), over judy_change; slots; arrays made
// at once of keys that ascend (sorted.rt, in src too); fronts of such lists put in (fronts.rt, and filling.rt in src,
// arrays that are filled by keys that ascend); and the law of what every array keeps (kept.rt). laws.rt has laws of
// nodes, and error.rt has why an insert is refused. iter.rt has the iterators, and how an array is printed; memory.rt
// how many bytes of memory one has asked for.
#![tactic(auto)]

mod error;
mod filling;
mod iter;
mod laws;
mod memory;
mod sorted;
mod tree_array;
mod word_array;
mod word_map;

pub use error::InsertError;
pub use filling::{Filling, FillingMap, FillingSet};
pub use iter::{Entries, Keys};
pub use judy_leaf::FromPair;
pub use laws::{
    a_loaded_map_is_tight, a_loaded_set_is_tight, same_keys_same_nodes,
    same_keys_same_nodes_of_maps,
};
pub use sorted::{Keyed, SortedError};
pub use tree_array::TreeEntries;
pub use word_array::{Judy1, JudyL, WordArray};
pub use word_map::WordMap;
