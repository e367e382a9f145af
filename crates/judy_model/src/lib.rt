//! The definitions by which the contracts of all crates say what they do, and the laws above them. Nothing here is run.
//!
//! A definition speaks of values as contracts see them: numbers, lists and finite maps. Where it gives a rule, it says
//! whose that is:
//! the manual's (HP's pages of Judy1, JudyL, JudySL and JudyHS) or this project's own. By subject, in specs/:
//!
//! - keys and arrays: Keys, WordBytes, StringOrder; Arrays (a limit and a finite map; what an insert, a write and a
//!   delete leave), Neighbours, Empties, Counts, Tables; TwoMaps, Ranges and Prefixes (two maps together, and parts of
//!   one); Nearest and Laws, of which the laws speak;
//! - stores and the script: Kinds, Stores, Sizes; Lines, LineLists, Tokens, KeyTokens; CommandWords, Commands, Steps,
//!   Replies;
//!   CommandLaws, of which the laws of commands speak;
//! - runs of a script: Runs, AmpleRuns (with memory for all), CutRuns, Remaining, RunEnds;
//! - dumps: DumpText (the bytes of a store), Fields, DumpGrammar and DumpPlaces (what bytes give);
//! - the nodes of a tree: Forms, and Shapes with the rule by which a set of keys has its nodes.
//!
//! [`laws`] says what follows from these, each law as the contract of a function with an empty body, which the check
//! proves.
//! [`examples`] and [`dump_examples`] have short cases that the check computes (specs/Examples.antt, CommandExamples,
//! DumpExamples). proofs/ has the proofs of the laws, and lemmas for the crates above. The crate stands on std alone,
//! and all that speaks of keys, arrays or stores stands on it.
#![tactic(auto)]

pub mod dump_examples;
pub mod examples;
pub mod keys;
pub mod laws;
