//! The changes of a tree: a key put in, a key taken out, and the slot of a value.
//!
//! A tree is a list of pairs of key and value and a form, as judy_node's contracts see it. A change goes down the way
//! of its key, one step a level, and changes the one node where the way ends; the numbers of keys are counted on the
//! way back. The branches on the way are changed where they stand, and a node is taken out of its place only where
//! another may take it.
//!
//! An insert asks for all that it can't do without before anything is changed, and what is new is built beside: so a
//! refused one leaves the tree as it was, its form included. A removal is never refused: where there is no memory for a
//! smaller node, the larger one stays, loose. Else a tight tree stays tight. specs/Inserted.antt and
//! specs/Removals.antt say what each leaves.
//!
//! inserts.rt has the calls that put a key in, give it a value or lend its slot. An insert and an exchange are one
//! way down (way_down.rt) of what is to be put in (insertion.rt); present.rt tells of either what becomes of a value
//! that is there, and specs/Put.antt what both leave. The way ends at a node without children (childless.rt), which
//! takes the key or gives way to a larger one (immediates.rt, leaves.rt, bitmaps.rt, replaced.rt), at a branch that
//! gets a child (put.rt), or at a node that skips other bytes than the key begins with, which gets a branch above it
//! (split.rt). gap.rt puts a pair among others, and appends.rt many behind all others, a new node at once.
//! removals.rt has the way of a removal, remove_leaf.rt its end, settle.rt the smaller nodes, removed.rt what is
//! answered, around.rt the removal of a key with others around it, and laws.rt a law of removals.
//!
//! The crate stands on judy_model, judy_bits, judy_block, judy_leaf and judy_node, of which it uses the parts for
//! writing; judy_word stands on it.
#![tactic(auto)]

mod appends;
mod around;
mod bitmaps;
mod childless;
mod gap;
mod immediates;
mod insertion;
mod inserts;
pub mod laws;
mod leaves;
mod present;
mod put;
mod removals;
mod remove_leaf;
mod removed;
mod replaced;
mod settle;
mod split;
mod way_down;

pub use appends::append;
pub use around::{Cleared, Span, remove_around};
pub use inserts::{exchange, insert, insert_with, slot};
pub use removals::remove;
pub use removed::Removed;
pub use settle::settled;
