//! The rows, by what they try.

mod arrays;
mod bad_pairs;
mod check;
mod dump_checks;
mod dumps;
mod faults;
mod keys;
mod lines;
mod refusals;
mod scripts;
mod second_format;
