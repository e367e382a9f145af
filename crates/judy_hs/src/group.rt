//! The keys of one length.

ghost use Rattle.std.specs.Prelude.{ℕ, ◌≤◌, ◌++◌, ◌≡◌, ◌≢◌, ◌↔◌, IsTrue, option_copied, IfOk, OnOk, OnErr, IsSome, IfSome, None, Some, MatchOption};
ghost use Rattle.std.specs.FinMap.{get};
ghost use Rattle.std.specs.Borrow.{sem};
ghost use Rattle.std.specs.Option.{option_copied_mut};
ghost use Rattle.judy_hs.specs.Listed.{entries_in, short_list};

use crate::entry::{HsEntry, short_key};
use crate::long_group::LongGroup;
use crate::trial::Trial;
use judy_word::WordMap;
use std::alloc::{AllocError, Global};

// Where a key stands in its group: a short key's word, or the place of a long key's chain.
#[derive(Clone, Copy)]
pub enum Inside {
    Word(u64),
    Chained(usize),
}

// A place for a group: free, with the place that was free before it; or a group of keys of at most 8 bytes, as words
// with their values; or one of longer keys. The word by which a group finds a key is the key itself, or its hash.
#[derive(Drop)]
pub enum GroupPlace {
    Free(usize),
    Short(WordMap),
    Long(LongGroup),
}

impl GroupPlace {
    ghost use Rattle.judy_hs.specs.Groups.{none, in_group, chain_in, words_of, IsInside, IsNewInside, IsOfLength, IsUsable, value_inside, group_with_key, CanTakeKey, IsEmptyGroup, IsGroupLess};
    ghost use Rattle.judy_hs.specs.GroupPlaces.{group_of, link_of};
    ghost use Rattle.judy_hs.specs.Relaid.{IsRelaidGroup};
    ghost use Rattle.judy_hs.specs.Trials.{IfAdded, UnlessAdded, UnlessOpen, IfOpen};
    ghost use Rattle.judy_hs.specs.GroupLends.{LendsInside};
    ghost use Rattle.judy_hs.specs.Listed.{CanList, group_list};
    ghost use Rattle.judy_hs.specs.Values.{AreWords};

    // The value of a key, by its word or hash.
    pub fn get(&self, part: u64, key: &[u8]) -> Option<u64>
        ensures { result ≡ in_group (group_of self.now) part key.now }
    {
        match self {
            GroupPlace::Short(words) => words.get(part),
            GroupPlace::Long(group) => group.get(part, key),
            GroupPlace::Free(_) => None,
        }
    }

    // The place of the chain of a long key's hash.
    pub fn chain(&self, part: u64) -> Option<u64>
        ensures { result ≡ chain_in (group_of self.now) part }
    {
        match self {
            GroupPlace::Short(_) => None,
            GroupPlace::Long(group) => group.chain(part),
            GroupPlace::Free(_) => None,
        }
    }

    // Where a key stands, by the place of the chain of its hash.
    pub fn find(&self, chain: Option<u64>, part: u64, key: &[u8]) -> Option<Inside>
        requires { chain ≡ chain_in (group_of self.now) part }
        ensures { MatchOption result (in_group (group_of self.now) part key.now ≡ None)
            (IsInside (group_of self.now) part key.now) }
    {
        match self {
            GroupPlace::Short(words) => match words.get(part) {
                Some(_) => Some(Inside::Word(part)),
                None => None,
            },
            GroupPlace::Long(group) => match group.find(chain, key) {
                Some(place) => Some(Inside::Chained(place)),
                None => None,
            },
            GroupPlace::Free(_) => None,
        }
    }

    // The slot of a key that stands there.
    pub fn slot(&mut self, inside: Inside, key: &[u8]) -> Option<&mut u64>
        requires { IsUsable (group_of self.old) inside key.now }
        ensures* writes_back { sem 𝓛 (LendsInside self.entry inside key.now result) }
        ensures value { option_copied_mut result ≡ value_inside (group_of self.old) inside key.now }
    {
        match self {
            GroupPlace::Short(words) => match inside {
                Inside::Word(word) => words.slot(word),
                Inside::Chained(_) => None,
            },
            GroupPlace::Long(group) => match inside {
                Inside::Chained(place) => group.slot(place, key),
                Inside::Word(_) => None,
            },
            GroupPlace::Free(_) => None,
        }
    }

    // Puts a key in that isn't there, by the place of the chain of its hash, with the value 0, and answers where it
    // stands.
    pub fn add(
        &mut self,
        alloc: Global,
        chain: Option<u64>,
        part: u64,
        key: &[u8],
    ) -> Result<Inside, AllocError>
        requires chain { chain ≡ chain_in (group_of self.old) part }
        requires of_length { IsOfLength (group_of self.old) key.now }
        requires takes { CanTakeKey (group_of self.old) part }
        ensures place { IfOk result (IsNewInside (group_of self.old) part) }
        ensures added { IfOk result
            (λ inside. group_of self.new ≡ group_with_key (group_of self.old) part key.now inside) }
        ensures unchanged { OnErr result (group_of self.new ≡ group_of self.old) }
    {
        match self {
            GroupPlace::Short(words) => {
                words.put(part, 0)?;
                Ok(Inside::Word(part))
            }
            GroupPlace::Long(group) => {
                let place = group.add(alloc, chain, part, key)?;
                Ok(Inside::Chained(place))
            }
            GroupPlace::Free(_) => unreachable!(),
        }
    }

    // Puts a key in with the value 0 where it and each key with its hash are absent, by one way down, and answers where
    // it stands.
    pub fn try_add(&mut self, alloc: Global, part: u64, key: &[u8]) -> Trial<Inside>
        requires of_length { IsOfLength (group_of self.old) key.now }
        ensures absent { UnlessOpen result (in_group (group_of self.old) part key.now ≡ None) }
        ensures held { IfOpen result
            (IfSome (words_of (group_of self.old)) (λ words. IsSome (get words.map part))) }
        ensures place { IfAdded result (IsNewInside (group_of self.old) part) }
        ensures added { IfAdded result
            (λ inside. group_of self.new ≡ group_with_key (group_of self.old) part key.now inside) }
        ensures some { IfAdded result (λ _. group_of self.old ≢ none) }
        ensures unchanged { UnlessAdded result (self.new ≡ self.old) }
    {
        match self {
            GroupPlace::Short(words) => match words.put_if_absent(part, 0) {
                Ok(true) => Trial::Added(Inside::Word(part)),
                Ok(false) => Trial::Open,
                Err(_) => Trial::Refused,
            },
            GroupPlace::Long(group) => match group.try_add(alloc, part, key) {
                Trial::Added(place) => Trial::Added(Inside::Chained(place)),
                Trial::Refused => Trial::Refused,
                Trial::Open => Trial::Open,
            },
            GroupPlace::Free(_) => Trial::Open,
        }
    }

    // Takes a key out by its word or hash, and answers the value that it had.
    pub fn take(&mut self, part: u64, key: &[u8]) -> Option<u64>
        ensures answer { result ≡ in_group (group_of self.old) part key.now }
        ensures taken { IfSome result
            (λ _. IsGroupLess (group_of self.old) part key.now (group_of self.new)) }
        ensures absent { result ≡ None → self.new ≡ self.old }
    {
        match self {
            GroupPlace::Short(words) => words.remove(part),
            GroupPlace::Long(group) => group.take(part, key),
            GroupPlace::Free(_) => None,
        }
    }

    // Whether no key is left.
    pub fn is_empty(&self) -> bool
        ensures { IsTrue result ↔ IsEmptyGroup (group_of self.now) }
    {
        match self {
            GroupPlace::Short(words) => words.is_empty(),
            GroupPlace::Long(group) => group.is_empty(),
            GroupPlace::Free(_) => true,
        }
    }

    // Moves records of long keys out of pages with free places, and says whether one was moved; copies of words are
    // asked for with an allocator alone (`LongGroup::shrink`).
    pub fn shrink(&mut self, heap: Option<Global>) -> bool
        ensures keys { IsRelaidGroup (group_of self.old) (group_of self.new) }
        ensures links { link_of self.new ≡ link_of self.old }
    {
        match self {
            GroupPlace::Short(words) => {
                if heap.is_some() {
                    words.shrink();
                }
                false
            }
            GroupPlace::Long(group) => group.shrink(heap),
            GroupPlace::Free(_) => false,
        }
    }

    // The array by which the group finds its keys.
    pub fn words(&self) -> Option<&WordMap>
        ensures { option_copied result ≡ words_of (group_of self.now) }
    {
        match self {
            GroupPlace::Short(words) => Some(words),
            GroupPlace::Long(group) => Some(group.hashes()),
            GroupPlace::Free(_) => None,
        }
    }

    // Adds its keys, which have so many bytes, with their values to a list, by their bytes.
    pub fn list<'a>(
        &'a self,
        key_length: usize,
        list: &mut Vec<HsEntry<'a>>,
    ) -> Result<(), AllocError>
        requires { CanList key_length (group_of self.now) }
        ensures { OnOk result
            (entries_in list.new.items
            ≡ entries_in list.old.items ++ group_list key_length (group_of self.now)) }
    {
        match self {
            GroupPlace::Short(words) => list_words(words, key_length, list),
            GroupPlace::Long(group) => group.list(list),
            GroupPlace::Free(_) => Ok(()),
        }
    }

    // That the values of its keys are words.
    pub fn words_law(&self)
        ensures { (part : ℕ) → AreWords (in_group (group_of self.now) part) }
    {
        match self {
            GroupPlace::Short(words) => words.array_law(),
            GroupPlace::Long(group) => group.words_law(),
            GroupPlace::Free(_) => {}
        }
    }
}

// Adds the keys of so many bytes that the words of an array spell to a list, with their values.
fn list_words(
    words: &WordMap,
    key_length: usize,
    list: &mut Vec<HsEntry<'_>>,
) -> Result<(), AllocError>
    requires { key_length ≤ 8 }
    ensures { OnOk result
        (entries_in list.new.items ≡ entries_in list.old.items ++ short_list key_length words.now) }
{
    'words: for (word, value) in words {
        list.push(HsEntry {
            key: short_key(word, key_length),
            value,
        })?;
    }
    Ok(())
}
