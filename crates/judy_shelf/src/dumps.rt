//! A shelf as bytes.

ghost use Rattle.std.specs.Prelude.{◌≡◌, ◌<◌, ◌-◌, ◌^◌, ◌++◌, ◌∷◌, [], ℕ, List, Some, option_map, option_copied};
ghost use Rattle.judy_model.specs.Arrays.{judy1, judyl, judysl};
ghost use Rattle.judy_model.specs.DumpText as text;
ghost use Rattle.judy_model.specs.DumpText.{jdy1, jdy2, dump_of, array_text};
ghost use Rattle.judy_word.specs.WordArrays.{array_of};
ghost use Rattle.judy_shelf.specs.Arrays.{value_of};
ghost use Rattle.judy_shelf.specs.Shelves.{store_of};
ghost use Rattle.judy_shelf.specs.Sorted.{pairs_in, lists_in, sorted_in, sorted_lists};
ghost use Rattle.judy_shelf.specs.Versions.{format_of};
ghost use Rattle.judy_shelf.specs.Writes.{sunk, Wrote, Dumped};

use crate::array::Array;
use crate::fault::DumpFault;
use crate::keys::LastKey;
use crate::name::Name;
use crate::page::{PAGE, put_page};
use crate::shelf::Shelf;
use crate::sorted::{SortedKeys, list_count, sorted_lists};
use crate::version::Version;
use crate::write::{array_head, heading, put, put_string_after, put_word};
use judy_pipe::{PipeFailed, Sink};
use judy_sl::JudySl;
use judy_word::{Judy1, JudyL};

/// Writes the dump of a shelf: its arrays in the order of making, each with its keys in order and their
/// values, in the format JDY1 (this project's own).
///
/// At Ok the sink took the dump of the store that the shelf is, and nothing else. `Write` comes only where the
/// sink failed, which it then did once; it took a front of the dump. `NoMemory` comes only where a judyhs array
/// stands, whose keys have to be sorted: it asks for that before the first byte, and the sink has then taken none.
pub fn dump<W: Sink>(shelf: &Shelf, sink: &mut W) -> Result<(), DumpFault>
    requires { (W.tally sink.old).failures < 2 ^ 64 - 1 }
    ensures { Dumped jdy1 shelf.now (sunk (W.taken sink.old) (W.tally sink.old).failures) result
        (sunk (W.taken sink.new) (W.tally sink.new).failures) }
{
    dump_as(Version::First, shelf, sink)
}

/// Writes the dump of a shelf as [`dump`] does, with its answers, in the format JDY2 (this project's own): of a key
/// of a judysl array it writes how many bytes the key shares with the one before, and the bytes behind them.
///
/// It asks for memory only where a judyhs array stands. [`load`](crate::load) takes both formats.
pub fn dump2<W: Sink>(shelf: &Shelf, sink: &mut W) -> Result<(), DumpFault>
    requires { (W.tally sink.old).failures < 2 ^ 64 - 1 }
    ensures { Dumped jdy2 shelf.now (sunk (W.taken sink.old) (W.tally sink.old).failures) result
        (sunk (W.taken sink.new) (W.tally sink.new).failures) }
{
    dump_as(Version::Second, shelf, sink)
}

// Writes the dump of a shelf in a format.
fn dump_as<W: Sink>(version: Version, shelf: &Shelf, sink: &mut W) -> Result<(), DumpFault>
    requires { (W.tally sink.old).failures < 2 ^ 64 - 1 }
    ensures { Dumped (format_of version) shelf.now
        (sunk (W.taken sink.old) (W.tally sink.old).failures) result
        (sunk (W.taken sink.new) (W.tally sink.new).failures) }
{
    let Ok(lists) = sorted_lists(shelf) else {
        return Err(DumpFault::NoMemory);
    };
    write_shelf(version, shelf, &lists, sink).map_err(|_| DumpFault::Write)
}

// Writes a shelf, of whose judyhs arrays these are the sorted keys.
fn write_shelf<W: Sink>(
    version: Version,
    shelf: &Shelf,
    lists: &[SortedKeys<'_>],
    sink: &mut W,
) -> Result<(), PipeFailed>
    requires below { (W.tally sink.old).failures < 2 ^ 64 - 1 }
    requires sorted { lists_in lists.now ≡ sorted_lists shelf.now }
    ensures { Wrote (dump_of (format_of version) (store_of shelf.now))
        (sunk (W.taken sink.old) (W.tally sink.old).failures) result
        (sunk (W.taken sink.new) (W.tally sink.new).failures) }
{
    put(sink, &heading(version, shelf))?;
    let mut place = 0;
    let mut listed = 0;
    'arrays: while let Some((name, array)) = shelf.at(place) {
        write_array(version, name, array, lists.get(listed), sink)?;
        listed += list_count(array);
        place += 1;
    }
    Ok(())
}

// Writes an array, the sorted keys of which are these, where it is a judyhs array.
fn write_array<W: Sink>(
    version: Version,
    name: &Name,
    array: &Array,
    keys: Option<&SortedKeys<'_>>,
    sink: &mut W,
) -> Result<(), PipeFailed>
    requires below { (W.tally sink.old).failures < 2 ^ 64 - 1 }
    requires sorted { (list : List (List ℕ × ℕ)) → sorted_in array.now ≡ list ∷ []
        → option_map pairs_in (option_copied keys) ≡ Some list }
    ensures { Wrote (array_text (format_of version) (name.now, value_of array.now))
        (sunk (W.taken sink.old) (W.tally sink.old).failures) result
        (sunk (W.taken sink.new) (W.tally sink.new).failures) }
{
    put(sink, &array_head(name, array))?;
    match array {
        Array::Judy1(set) => write_set(set, sink),
        Array::JudyL(words) => write_words(words, sink),
        Array::JudySl(strings) => write_strings(version, strings, sink),
        Array::JudyHs(_) => match keys {
            Some(keys) => keys.write(sink),
            None => unreachable!(),
        },
    }
}

// Writes the keys of a set, a page at a time.
fn write_set<W: Sink>(set: &Judy1, sink: &mut W) -> Result<(), PipeFailed>
    requires { (W.tally sink.old).failures < 2 ^ 64 - 1 }
    ensures { Wrote (text.contents jdy1 (judy1 (array_of set.now)))
        (sunk (W.taken sink.old) (W.tally sink.old).failures) result
        (sunk (W.taken sink.new) (W.tally sink.new).failures) }
{
    let mut keys = set.iter();
    let mut page = [0; PAGE];
    'pages: loop {
        let told = keys.fill(&mut page);
        put_page(sink, &page[..told])?;
        if told < PAGE {
            return Ok(());
        }
    }
}

// Writes the keys of a map, and the value of each behind it, a page at a time.
fn write_words<W: Sink>(words: &JudyL, sink: &mut W) -> Result<(), PipeFailed>
    requires { (W.tally sink.old).failures < 2 ^ 64 - 1 }
    ensures { Wrote (text.contents jdy1 (judyl (array_of words.now)))
        (sunk (W.taken sink.old) (W.tally sink.old).failures) result
        (sunk (W.taken sink.new) (W.tally sink.new).failures) }
{
    let mut entries = words.iter();
    let mut page = [(0, 0); PAGE];
    'pages: loop {
        let told = entries.fill(&mut page);
        put_page(sink, &page[..told])?;
        if told < PAGE {
            return Ok(());
        }
    }
}

// Writes the keys of an array of strings, each by the one before, and the value of each behind it.
fn write_strings<W: Sink>(
    version: Version,
    strings: &JudySl,
    sink: &mut W,
) -> Result<(), PipeFailed>
    requires { (W.tally sink.old).failures < 2 ^ 64 - 1 }
    ensures { Wrote (text.contents (format_of version) (judysl strings.now))
        (sunk (W.taken sink.old) (W.tally sink.old).failures) result
        (sunk (W.taken sink.new) (W.tally sink.new).failures) }
{
    let mut last = LastKey::new();
    let mut cursor = strings.cursor(&[]);
    let mut next = cursor.first();
    'keys: while let Some(value) = next {
        put_string_after(sink, version, last.front(), cursor.key())?;
        put_word(sink, value)?;
        last.keep(cursor.key());
        next = cursor.next();
    }
    Ok(())
}
