//! The tree of a set or a map of words: its nodes, and what reads them.
//!
//! To its callers a tree is its keys with their values and its form (specs/Trees.antt), the list of its nodes without
//! what they hold beside keys. Where no node is loose, the form is that of judy_model's rule, a function of the keys:
//! that is a law of every tree ([`NodeOf::told`], laws.rt), and so two tight trees with the same keys are alike.
//!
//! The root, a [`Node`], has keys of eight bytes: it is empty, one pair, or a [`Child`] with two keys or more. A child
//! is an immediate, a leaf, a bitmap leaf or a branch, in 16 bytes: seven bytes and a word, a number of keys and a
//! block, or one pointer. Not each child tells the width of its keys, so those who come down the tree bring it. Root
//! and children are entered, which is one visit on a [`judy_bits::Meter`], and give the same [`View`]; a branch answers
//! by [`BranchOf::step`] where a key goes.
//!
//! child.rt has the nodes (bundle.rt the array that one is moved in, head.rt the seven bytes beside its word), node.rt
//! the root, and view.rt what a node shows to those who enter it. branch.rt has what is asked of a branch, step.rt
//! where a key goes there, populations.rt how many keys its children have, and sums.rt the same by sixteens, where all
//! 256 stand. shape.rt, memory.rt, fill.rt and clone.rt go over a whole tree, build.rt makes the tight tree of sorted
//! pairs, bits.rt makes a set of bytes of a node whose keys have one byte, and a node of such a set, room.rt makes room
//! for a child, seat.rt finds where a value stands, and slot.rt lends its slot. The parts for writing ([`KindOf`],
//! [`RootOf`], [`BranchOf`], [`Sums`]) are for judy_change. Which nodes there are and how they lie is this project's
//! own.
//!
//! The crate stands on judy_model, judy_bits, judy_block and judy_leaf; judy_query, judy_change and judy_word stand on
//! it.
#![tactic(auto)]

mod bits;
mod branch;
mod build;
mod bundle;
mod child;
mod clone;
mod fill;
mod head;
pub mod laws;
mod memory;
mod node;
mod populations;
mod room;
mod seat;
mod shape;
mod slot;
mod step;
mod sums;
mod view;

pub use bits::child_of_bits;
pub use build::{
    child_of_sorted, immediate_of_one, immediate_of_sorted, kind_of_sorted, leaf_of_two,
    most_in_immediate,
};
pub use child::{BranchOf, Child, ChildOf, KindOf, PlaceOf, imm_of};
pub use head::Head;
pub use node::{Node, NodeOf, RootOf, RootPlaceOf};
pub use room::make_room;
pub use shape::Shape;
pub use step::Step;
pub use sums::Sums;
pub use view::{View, ViewOf};
