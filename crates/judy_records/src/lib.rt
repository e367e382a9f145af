//! Records of words: values with texts, all of one length in words, in one list without a tag, a length or a pointer a
//! record.
//!
//! A record is a value and the words of a text: its bytes by eights, the first of each eight the highest, the last word
//! padded with zeros. So two texts compare as their words do, without a look at single bytes. To contracts a
//! [`Records`] is a [`RecordList`]: what stands at each place. A place stays a record's until it is removed. Records
//! stand in pages: a page keeps its own free places, and its memory goes back with its last record.
//!
//! records.rt has the list, page.rt one page, pages.rt which page a place is in, turns.rt which pages have a free
//! place, page_steps.rt the steps that change both, record.rt one record as it is read, text.rt texts as words,
//! words.rt bytes as words, and laws.rt laws of texts as words.
#![tactic(auto)]

pub mod laws;
mod page;
mod page_steps;
mod pages;
mod record;
mod records;
mod text;
mod turns;
mod words;

pub use record::Record;
pub use records::{MOST_STEPS, Records};
pub use text::record_of;
pub use words::{first_word, fresh_word, words_for};
