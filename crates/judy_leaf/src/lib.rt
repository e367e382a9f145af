//! The leaves of a tree over words: a few keys of one width, from 1 to 8 bytes, and a value for each where the tree is
//! a map.
//!
//! What each is to its callers is a key list (specs/KeyLists.antt): the width, and the pairs of key and value by
//! strictly ascending key. A [`Leaf`] holds up to 32 keys in one block: the values, a word each, and then the keys, as
//! many to a word as fit into its eight bytes. A [`BitLeaf`] has up to 256 keys of one byte as bits in one block,
//! before their values. An [`Imm`] holds as many keys as fit into one word, or one key with its value, and asks for no
//! memory.
//!
//! In a node they stand as their parts: a leaf as its number of keys and its block, whose tag is the width; a bitmap
//! leaf as its block, whose tag has the number of keys and the width; an immediate as two words. So each is made of its
//! parts and taken apart again, leaves are changed where their parts stand ([`put_in_leaf`] and its fellows), and
//! [`LeafRef`] and [`BitRef`] read them there. An immediate is read as itself. Which layouts these are,
//! specs/Leaves.antt, BitLeaves.antt, Immediates.antt and Packing.antt say; they are this project's own.
//!
//! leaf.rt, bit_leaf.rt and imm.rt have the three, leaf_ref.rt and bit_ref.rt the reading, words.rt the number of value
//! words as a type. place.rt has the places of one word, for a width that is known when a program is compiled;
//! packed.rt searches words, by lanes.rt where keys have one byte or two and by halves.rt where they have eight,
//! gaps.rt follows keys that are neighbours to a number that is no key, and edit.rt changes the words of a block, place
//! by place. keys.rt and one_word.rt know the width at run time and hand on to these by the macros of widths.rt.
//! layout.rt tells how many keys a leaf holds, and how a bitmap leaf's block is laid out. values.rt and pairs.rt put
//! values beside the keys, fill.rt writes pairs into a slice, or what from_pair.rt makes of them, in_place.rt changes
//! leaves whose parts stand in a node, next_bits.rt has the bits of a bitmap leaf in turn, and bit_edit.rt changes its
//! block. The crate stands on judy_model, judy_bits and judy_block; the nodes of the tree stand on it.
#![tactic(auto)]

mod bit_edit;
mod bit_leaf;
mod bit_ref;
mod edit;
mod fill;
mod from_pair;
mod gaps;
mod halves;
mod imm;
mod in_place;
mod keys;
mod lanes;
mod layout;
mod leaf;
mod leaf_ref;
mod next_bits;
mod one_word;
mod packed;
mod pairs;
mod place;
mod values;
mod widths;
mod words;

pub use bit_leaf::{BitLeaf, BitLeafOf};
pub use bit_ref::BitRef;
pub use from_pair::FromPair;
pub use imm::{Imm, ImmOf};
pub use in_place::{put_in_bit_leaf, put_in_leaf, take_from_bit_leaf, take_from_leaf};
pub use layout::{BIT_WORDS, LEAF_ROOM, bit_count, bit_width, set_bit_width, widen_bits};
pub use leaf::{Leaf, LeafOf, Spare};
pub use leaf_ref::LeafRef;
pub use words::{ValueWords, Words};
