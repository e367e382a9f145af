//! The arrays for C: the calls that `bindings/c/sellumaq.h` declares.
//!
//! C holds an array by a handle, one word: null is the array without keys, and any other is the address of a box that
//! holds a [`judy_word::Judy1`], a [`judy_word::JudyL`], a [`judy_sl::LongStrings`] or a [`judy_hs::JudyHs`], which the
//! handle owns. To contracts a handle is that array or none (specs/Maps.antt, StringMaps.antt, ByteMaps.antt), and each
//! call's contract says by it what the call answers and what the handle is then. Where a call hands out a slot the
//! contract says what value is behind it, and that what is left there is the key's value, and no other's. A call whose
//! comment names none of the manual is this project's own.
//!
//! What C owes, and nothing checks: a handle is in one call at a time, a slot is used only up to the next call that may
//! change its array, and the pointers that a call is given are to words of the caller's, or to as many bytes as are
//! told beside them, and not null; no two of one call overlap.
//!
//! set.rt, map.rt, strings.rt and bytes.rt have the handles, and in the folders of these names stand a map's slots. A
//! struct that C knows has no type parameter: held.rt has what each of them holds, whatever the array's type, with its
//! pointer and the array behind it, handles.rt lends each handle as that, and arrays.rt has the array for which a null
//! handle stands. judy1.rt, judyl.rt, judysl.rt and judyhs.rt have the calls, entries.rt those that tell a key with its
//! value, nearest_slots.rt and string_slots.rt those that hand out the slot of a key that they find, exchanges.rt and
//! key_updates.rt those that tell the value that was there, walks.rt and key_walks.rt those that tell many keys at a
//! time, looks.rt those that look many up, two_words.rt those on two arrays of words, made_of_two.rt those that make an
//! array of two, word_ranges.rt those on ranges of words and copies, word_parts.rt those that move a part or fill a
//! range, string_sets.rt and made_of_strings.rt all that of strings, with combined.rt and ranges.rt for what they have
//! alike, and string_prefixes.rt the longest key that begins some bytes, sorted.rt and sorted_strings.rt those that
//! make an array at once, saved.rt those that dump and load one, told.rt how a call answers a word or a slot that may
//! not be there, answers.rt how one answers by a number, scans.rt the scans over strings, string_counts.rt their
//! counts, memory.rt how many bytes an array takes, and box_parts.rt a box as its pointer. The crate is a static
//! library, and no other stands on it.
#![tactic(auto)]

mod answers;
mod arrays;
mod box_parts;
mod bytes;
mod combined;
mod entries;
mod exchanges;
mod handles;
mod held;
mod judy1;
mod judyhs;
mod judyl;
mod judysl;
mod key_updates;
mod key_walks;
mod looks;
mod made_of_strings;
mod made_of_two;
mod map;
mod memory;
mod nearest_slots;
mod ranges;
mod saved;
mod scans;
mod set;
mod sorted;
mod sorted_strings;
mod string_counts;
mod string_prefixes;
mod string_sets;
mod string_slots;
mod strings;
mod told;
mod two_words;
mod walks;
mod word_parts;
mod word_ranges;
