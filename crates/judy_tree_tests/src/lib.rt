//! Tests of leaves, bitmap leaves, immediates, trees, their queries and their changes, and of the arrays of words over
//! them: the worked rows by their names, and keys drawn by chance beside a plain list.
//!
//! The crate stands on top of those of the tree and of judy_word, and has no code of its own.
//!
//! leaves.rt, bit_leaves.rt and any_leaf.rt have the tests of leaves; nodes.rt, changes.rt, queries.rt and
//! random_trees.rt those of trees; word_arrays.rt, array_shapes.rt, sorted.rt, filled.rt, iterators.rt and many.rt
//! those of arrays; and known_nodes.rt what calls on arrays say of nodes. plain.rt has the plain list, calls.rt the
//! calls that ask a tree, and the list beside it, by_rule.rt a plain count of the rule's nodes, and draws.rt keys drawn
//! by chance.
#![tactic(auto)]

#[cfg(test)]
mod any_leaf;
#[cfg(test)]
mod array_shapes;
#[cfg(test)]
mod bit_leaves;
#[cfg(test)]
mod by_rule;
#[cfg(test)]
mod calls;
#[cfg(test)]
mod changes;
#[cfg(test)]
mod draws;
#[cfg(test)]
mod filled;
#[cfg(test)]
mod iterators;
#[cfg(test)]
mod known_nodes;
#[cfg(test)]
mod leaves;
#[cfg(test)]
mod many;
#[cfg(test)]
mod nodes;
#[cfg(test)]
mod plain;
#[cfg(test)]
mod queries;
#[cfg(test)]
mod random_trees;
#[cfg(test)]
mod sorted;
#[cfg(test)]
mod word_arrays;
