//! The named arrays, in order of making.

ghost use Rattle.std.specs.Prelude.{◌≡◌, ◌<◌, ◌≤◌, OnOk, OnErr, IfErr, IfSome, IsTrue, None, Some, length, bytes_eq, option_map, option_copied, slice_get};
ghost use Rattle.std.specs.Borrow.{sem};
ghost use Rattle.std.specs.Option.{option_copied_mut};
ghost use Rattle.std.specs.Map.Iter.{deref_pair};
ghost use Rattle.judy_model.specs.Tokens.{is_name};
ghost use Rattle.judy_model.specs.Stores.{IsStore, array_named, with_array, with_new_array, without_array};
ghost use Rattle.judy_shelf.specs.Kinds.{empty_of_kind};
ghost use Rattle.judy_shelf.specs.Makes.{make_refusal, IsMakeRefusal};
ghost use Rattle.judy_shelf.specs.Places.{place_of};
ghost use Rattle.judy_shelf.specs.Shelves.{IsShelf, store_of};

use crate::array::{Array, new_array};
use crate::error::MakeError;
use crate::kind::Kind;
use crate::name::Name;
use indexmap::IndexMap;
use std::alloc::Global;
use std::marker::Model;

/// The most arrays of a shelf. (This project's own.)
pub const MAX_ARRAYS: usize = 64;

/// The greatest limit that `make` and `load` give an array. (This project's own.)
pub const MAX_LIMIT: u64 = 4294967295;

// Of so many arrays the names are compared one by one.
const FEW_ARRAYS: usize = 8;

/// Named arrays in order of making: at most 64, whose names differ. In contracts it is the list of its
/// pairs of name and array.
#[derive(Drop)]
pub struct Shelf {
    alloc: Global,
    arrays: IndexMap<Name, Array>,
}

impl Model for Shelf {
    ghost use Rattle.std.specs.Prelude.{List, ℕ};
    ghost use Rattle.judy_shelf.specs.declared.array.Array.{Array};

    ghost Value = { List (List ℕ × Array) };

    ghost use Rattle.std.specs.Coded.{coded_list, coded×, coded_ℕ};
    ghost use Rattle.judy_shelf.specs.contracts.array.Array as array;

    ghost coded = { coded_list (coded× (coded_list coded_ℕ) (array.the_row).coded) };

    ghost use Rattle.judy_shelf.specs.Shelves.{IsShelf};

    ghost view = { λ shelf. shelf.arrays.entries };

    ghost invariant = { λ shelf. IsShelf shelf.arrays.entries };
}

impl Shelf {
    ghost use Rattle.std.specs.Prelude.{[], IsTrue, ◌↔◌};
    ghost use Rattle.judy_shelf.specs.Arrays.{value_of, new_array};
    ghost use Rattle.judy_shelf.specs.Lends.{LendsNamed};

    /// A shelf without arrays.
    pub fn new(alloc: Global) -> Shelf
        ensures { result ≡ [] }
    {
        Shelf {
            alloc,
            arrays: IndexMap::new(alloc),
        }
    }

    /// Makes an empty array, which comes last. `limit` is how many keys it may hold.
    ///
    /// Refused, the first that applies: `BadLimit` where the limit isn't 1 to 4,294,967,295; `Exists` where
    /// an array has the name; `TooMany` where 64 arrays stand; `NoMemory`. The shelf is then as it was, and
    /// the name is dropped.
    pub fn make(&mut self, name: Name, kind: Kind, limit: u64) -> Result<(), MakeError>
        ensures made { OnOk result
            (self.new ≡ with_new_array self.old name (new_array kind limit)) }
        ensures accepted { OnOk result (make_refusal self.old name limit ≡ None) }
        ensures refused { IfErr result (IsMakeRefusal (make_refusal self.old name limit)) }
        ensures unchanged { OnErr result (self.new ≡ self.old) }
    {
        if limit == 0 || limit > MAX_LIMIT {
            return Err(MakeError::BadLimit);
        }
        if self.get(&name).is_some() {
            return Err(MakeError::Exists);
        }
        if self.len() >= MAX_ARRAYS {
            return Err(MakeError::TooMany);
        }
        match self.arrays.insert(name, new_array(self.alloc, kind, limit)) {
            Ok(_) => Ok(()),
            Err(_) => Err(MakeError::NoMemory),
        }
    }

    // Where its memory comes from.
    pub(crate) fn allocator(&self) -> Global {
        self.alloc
    }

    // Puts an array that was made elsewhere last. Where there is no memory, the shelf is as it was.
    pub(crate) fn add(&mut self, name: Name, array: Array) -> Result<(), MakeError>
        requires room { length self.old < 64 }
        requires new { array_named self.old name ≡ None }
        ensures added { OnOk result (self.new ≡ with_new_array self.old name array) }
        ensures unchanged { OnErr result (self.new ≡ self.old) }
    {
        match self.arrays.insert(name, array) {
            Ok(_) => Ok(()),
            Err(_) => Err(MakeError::NoMemory),
        }
    }

    /// How many arrays stand.
    pub fn len(&self) -> usize
        ensures count { result ≡ length self.now }
        ensures within { result ≤ 64 }
    {
        self.arrays.len()
    }

    /// The array of that name; none where there is none.
    pub fn get(&self, name: &Name) -> Option<&Array>
        ensures { option_copied result ≡ array_named self.now name.now }
    {
        self.arrays.get(name)
    }

    /// The array of that name, to be changed: it alone changes, and every other stays as it is.
    pub fn get_mut(&mut self, name: &Name) -> Option<&mut Array>
        ensures* writes_back { sem 𝓛 (LendsNamed self.entry name.now result) }
        ensures value { option_copied_mut result ≡ array_named self.old name.now }
    {
        self.arrays.get_mut(name)
    }

    /// The array that bytes name, to be changed: it alone changes, and every other stays as it is. Where they are no
    /// name none has it.
    #[inline(always)]
    pub fn named_mut(&mut self, bytes: &[u8]) -> Option<&mut Array>
        ensures* writes_back { sem 𝓛 (LendsNamed self.entry bytes.now result) }
        ensures value { option_copied_mut result ≡ array_named self.old bytes.now }
        ensures name { IfSome result (λ _. IsTrue (is_name bytes.now)) }
    {
        let place = self.place_of(bytes);
        self.arrays.get_index_mut(place)
    }

    // The place of the array that bytes name; the number of arrays where there is none. Few names are compared one by
    // one, which is done sooner than a hash.
    #[inline(always)]
    fn place_of(&self, bytes: &[u8]) -> usize
        ensures place { result ≡ place_of (bytes_eq bytes.now) self.now }
        ensures name { result < length self.now → IsTrue (is_name bytes.now) }
    {
        if self.len() > FEW_ARRAYS
            && let Some(name) = Name::new(bytes)
        {
            return self.place_by_hash(&name);
        }
        let mut place = 0;
        'arrays: while let Some((name, _)) = self.at(place) {
            if name.is(bytes) {
                return place;
            }
            place += 1;
        }
        place
    }

    // The place of the array of that name; the number of arrays where there is none.
    fn place_by_hash(&self, name: &Name) -> usize
        ensures { result ≡ place_of (bytes_eq name.now) self.now }
    {
        match self.arrays.get_index_of(name) {
            Some(place) => place,
            None => self.len(),
        }
    }

    /// Takes out the array of that name and answers it; the rest keep their order. None, and nothing
    /// changes, where there is none.
    pub fn remove(&mut self, name: &Name) -> Option<Array>
        ensures value { result ≡ array_named self.old name.now }
        ensures rest { self.new ≡ without_array self.old name.now }
    {
        self.arrays.shift_remove(name)
    }

    /// The array at a place in the order of making, counted from 0, and its name.
    pub fn at(&self, place: usize) -> Option<(&Name, &Array)>
        ensures entry { option_map deref_pair result ≡ slice_get self.now place }
        ensures within { length self.now ≤ 64 }
    {
        self.arrays.get_index(place)
    }

    /// A law of every shelf that a program holds, whatever was lent of it: it is a store of the definitions,
    /// at most 64 arrays under names that differ. It answers nothing and reads each key and value, for a
    /// caller whose proof is to know it.
    pub fn store_law(&self)
        ensures { IsStore (store_of self.now) }
    {
        self.shelf_law();
        let mut place = 0;
        'arrays: while let Some((name, array)) = self.at(place) {
            name.bytes();
            array.array_law();
            place += 1;
        }
    }

    // What every shelf keeps.
    fn shelf_law(&self)
        ensures { IsShelf self.now }
    {
        let _ = &self.arrays;
    }
}
