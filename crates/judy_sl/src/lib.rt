//! Arrays over strings of bytes without zeros: keys in ascending order, with a limit on how many an array holds.
//!
//! `StringsOf` maps such keys to words, and its type says how long one may be: `JudySl` has keys of at most 1,024
//! bytes, and `LongStrings` keys of any length. Its model is the array of judy_model over byte strings, a limit and a
//! finite map, and its contracts cite judy_model's definitions. A call whose comment names none of the manual is this
//! project's own. It stands on the word arrays of judy_word.
//!
//! Inside, a key (keys.rt, zeros.rt) is cut into pieces of eight bytes (pieces.rt, specs/Pieces.antt), and a tree of
//! `JudyL`s finds them piece by piece (specs/World.antt); `Arena` keeps the levels of an array in one list and its
//! tails in records (specs/Arenas.antt).
//!
//! judysl.rt has the array, and error.rt why an insert is refused. arena.rt has the way of a key, child.rt what
//! stands behind a piece of it, level_list.rt the levels below the first, level.rt a level as seen from outside,
//! grow.rt and branches.rt how a key comes in, shrink.rt how one goes, moves.rt how tails go to other pages,
//! scans.rt the neighbours, turns.rt how they are found, measure.rt how long one is, and nearest_slots.rt the nearest
//! key with its slot;
//! cursor.rt and runs.rt have walks that go from key to key by what a level and the one above it still have, some
//! of which is read ahead (ahead.rt). counted.rt has how levels come to tell how many keys stand behind them, by
//! those that a way passes (passed.rt), counts.rt what is counted by that, firsts.rt how many keys begin with each
//! first piece, lists.rt the same behind wide levels, and nth.rt which key stands at a place. reader.rt reads such a
//! key where it stands, and text_reader.rt what is left of it in a tail. sorted.rt and planting.rt have arrays made at
//! once of strings that ascend, kept.rt what every array keeps, memory.rt how many bytes of memory one has asked for,
//! and laws.rt laws of pieces.
#![tactic(auto)]

mod ahead;
mod arena;
mod branches;
mod child;
mod counted;
mod counts;
mod cursor;
mod error;
mod firsts;
mod grow;
mod judysl;
mod kept;
mod keys;
pub mod laws;
mod level;
mod level_list;
mod lists;
mod measure;
mod memory;
mod moves;
mod nearest_slots;
mod nth;
mod passed;
mod pieces;
mod planting;
mod reader;
mod runs;
mod scans;
mod shrink;
mod sorted;
mod text_reader;
mod turns;
mod zeros;

pub use cursor::KeyCursor;
pub use error::SlError;
pub use judysl::{JudySl, LongStrings, StringsOf};
pub use keys::{AnyLength, KeyBuf, KeyLength, StoreKeys, is_key};
pub use reader::{KeyReader, Shared};
pub use scans::{Look, Side};
pub use sorted::{SlSortedError, check_sorted};
pub use zeros::are_nonzero;
