//! The keys of judyhs arrays in the order of a dump. They are all sorted before the first byte is written, since
//! that is what memory is wanted for.

ghost use Rattle.std.specs.Prelude.{◌≡◌, ◌<◌, ◌-◌, ◌^◌, ◌++◌, ◌≤◌, IfOk, OnOk, OnErr, length};
ghost use Rattle.std.specs.List.{flat_map};
ghost use Rattle.judy_model.specs.DumpText as text;
ghost use Rattle.judy_shelf.specs.Arrays.{kind_of};
ghost use Rattle.judy_shelf.specs.declared.kind.Kind.TheVariants as kind;
ghost use Rattle.judy_shelf.specs.Sorted.{pairs_in, lists_in, sorted_in, sorted_lists, HoldsBytes};
ghost use Rattle.judy_shelf.specs.Writes.{sunk, Wrote};

use crate::array::Array;
use crate::shelf::Shelf;
use crate::write::put_string_entry;
use judy_hs::HsEntry;
use judy_pipe::{PipeFailed, Sink};
use std::alloc::AllocError;

// The keys of a judyhs array with their values, by the lengths of the keys and then by their bytes.
#[derive(Drop)]
pub(crate) struct SortedKeys<'a> {
    entries: Vec<HsEntry<'a>>,
}

impl<'a> SortedKeys<'a> {
    // Writes the keys, each behind its length, and the value of each behind it.
    pub(crate) fn write<W: Sink>(&self, sink: &mut W) -> Result<(), PipeFailed>
        requires { (W.tally sink.old).failures < 2 ^ 64 - 1 }
        ensures { Wrote
            (flat_map (λ entry. text.string entry.0 ++ text.word entry.1) (pairs_in self.now))
            (sunk (W.taken sink.old) (W.tally sink.old).failures) result
            (sunk (W.taken sink.new) (W.tally sink.new).failures) }
    {
        let entries = self.entries.as_slice();
        'entries: for entry in entries {
            put_string_entry(sink, entry.key.bytes(), entry.value)?;
        }
        Ok(())
    }
}

// The sorted keys of each judyhs array of a shelf, in the order of making. No memory is wanted where there is none.
pub(crate) fn sorted_lists<'a>(shelf: &'a Shelf) -> Result<Vec<SortedKeys<'a>>, AllocError>
    ensures sorted { IfOk result (λ lists. lists_in lists.items ≡ sorted_lists shelf.now) }
    ensures wanted { OnErr result (HoldsBytes shelf.now) }
{
    let mut lists = Vec::new(shelf.allocator());
    let mut place = 0;
    'arrays: while let Some((_, array)) = shelf.at(place) {
        add_list(&mut lists, array)?;
        place += 1;
    }
    Ok(lists)
}

// Adds the sorted keys of an array, where it is a judyhs array. No memory is wanted for any other.
fn add_list<'a>(lists: &mut Vec<SortedKeys<'a>>, array: &'a Array) -> Result<(), AllocError>
    ensures sorted { OnOk result
        (lists_in lists.new.items ≡ lists_in lists.old.items ++ sorted_in array.now) }
    ensures wanted { OnErr result (kind_of array.now ≡ kind.JudyHs) }
{
    match array {
        Array::Judy1(_) => Ok(()),
        Array::JudyL(_) => Ok(()),
        Array::JudySl(_) => Ok(()),
        Array::JudyHs(bytes) => {
            let entries = bytes.sorted()?;
            lists.push(SortedKeys { entries })?;
            Ok(())
        }
    }
}

// How many lists an array asks for: one, where it is a judyhs array.
pub(crate) fn list_count(array: &Array) -> usize
    ensures count { result ≡ length (sorted_in array.now) }
    ensures most { result ≤ 1 }
{
    match array {
        Array::Judy1(_) => 0,
        Array::JudyL(_) => 0,
        Array::JudySl(_) => 0,
        Array::JudyHs(_) => 1,
    }
}
