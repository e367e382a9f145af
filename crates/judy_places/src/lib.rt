//! Lists whose places become free and are taken again: the definitions by which the arrays of strings and of bytes
//! say that no free place is lost, and their laws.
//!
//! Such a list never moves what it holds, since others hold its place. A place that becomes free holds the place that
//! was free first before it, and the next thing to come takes the place that is first then; only where none is free
//! does the list grow. specs/Places.antt says this over lists of links, whatever the places hold besides; `laws`
//! has what follows. The crate holds no code, and stands on std alone.
#![tactic(auto)]

pub mod laws;
