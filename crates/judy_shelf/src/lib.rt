//! Named arrays: the arrays of all kinds behind one type, and a shelf that keeps them by name in the order
//! in which they were made.
//!
//! Its model is the store of the definitions: `store_of` gives the store that a shelf is, `value_of` the array value
//! that an array is. It stands on the crates of the arrays; scripts run over it. shelf.rt has the shelf, array.rt an
//! array of one of the kinds (kind.rt), name.rt the names, and error.rt why an array isn't made.
//!
//! [`dump`] and [`dump2`] write a shelf to a sink and [`load`] reads one from a source, both of judy_pipe, in the two
//! formats that docs/use/formats.md tells (version.rt). dumps.rt, write.rt, page.rt and sorted.rt write it; loads.rt,
//! head.rt, keys.rt, fronts.rt and fields.rt read it, and one.rt the dump of one array alone; fault.rt tells why either
//! fails. The parts of a dump's text are public: judy_saved writes them for an array that stands on no shelf.
#![tactic(auto)]

mod array;
mod dumps;
mod error;
mod fault;
mod fields;
mod fronts;
mod head;
mod keys;
mod kind;
mod loads;
mod name;
mod one;
mod page;
mod shelf;
mod sorted;
mod version;
mod write;

pub use array::Array;
pub use dumps::{dump, dump2};
pub use error::MakeError;
pub use fault::{DumpFault, LoadFault};
pub use fronts::shared_len;
pub use keys::LastKey;
pub use kind::Kind;
pub use loads::load;
pub use name::Name;
pub use one::{OneFault, load_one_byte_strings, load_one_map, load_one_set, load_one_strings};
pub use shelf::{MAX_ARRAYS, MAX_LIMIT, Shelf};
pub use version::Version;
pub use write::{MAX_HEAD_LEN, head_of, heading_of};
