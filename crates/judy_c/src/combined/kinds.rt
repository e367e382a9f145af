// How arrays of each kind whose keys have an order are put together and copied.

ghost use Rattle.std.specs.Prelude.{◌≡◌, ◌≤◌, IfOk};
ghost use Rattle.judy_c.specs.Combined.{CombinedKind, combined_words, combined_strings, joined, IsMade};

use crate::arrays::{HeldArray, MOST_KEYS};
use crate::sorted::MOST_KEYS as MOST_WORDS;
use judy_leaf::Words;
use judy_sl::LongStrings;
use judy_word::{InsertError, Judy1, JudyL, WordArray};
use std::alloc::{AllocError, Global};

// What is made of two arrays: the keys that the one or the other has, those that both have, those of the one that the
// other doesn't have, and those that exactly one of them has. Of a key that both have the value is the one's.
#[derive(Clone, Copy)]
pub(crate) enum Joint {
    Union,
    Intersection,
    Difference,
    SymmetricDifference,
}

// An array that is made of two, and copied.
pub(crate) trait CombinedArray: HeldArray {
    ghost kind: { CombinedKind Self };

    // What two are together, with the most keys that an array of C may hold as its limit.
    fn combine(alloc: Global, joint: Joint, one: &Self, other: &Self) -> Result<Self, InsertError>
        ensures { IsMade kind
            (joined joint (kind.array one.now).map (kind.array other.now).map) result };

    // One of its own with the same limit, keys and values. The error is want of memory.
    fn copy(&self, alloc: Global) -> Result<Self, AllocError>
        ensures { IfOk result (λ copy. kind.array copy ≡ kind.array self.now) };
}

// What two arrays of words are together.
fn combine_words<V: Words + Drop>(
    alloc: Global,
    joint: Joint,
    one: &WordArray<V>,
    other: &WordArray<V>,
) -> Result<WordArray<V>, InsertError>
    requires { V.WORDS ≤ 1 }
    ensures { IsMade combined_words (joined joint one.now.map other.now.map) result }
{
    match joint {
        Joint::Union => judy_sets::union(alloc, MOST_WORDS, one, other),
        Joint::Intersection => judy_sets::intersection(alloc, MOST_WORDS, one, other),
        Joint::Difference => judy_sets::difference(alloc, MOST_WORDS, one, other),
        Joint::SymmetricDifference => {
            judy_sets::symmetric_difference(alloc, MOST_WORDS, one, other)
        }
    }
}

impl CombinedArray for Judy1 {
    ghost kind = { combined_words };

    fn combine(
        alloc: Global,
        joint: Joint,
        one: &Judy1,
        other: &Judy1,
    ) -> Result<Judy1, InsertError> {
        combine_words(alloc, joint, one, other)
    }

    fn copy(&self, alloc: Global) -> Result<Judy1, AllocError> {
        self.try_clone()
    }
}

impl CombinedArray for JudyL {
    ghost kind = { combined_words };

    fn combine(
        alloc: Global,
        joint: Joint,
        one: &JudyL,
        other: &JudyL,
    ) -> Result<JudyL, InsertError> {
        combine_words(alloc, joint, one, other)
    }

    fn copy(&self, alloc: Global) -> Result<JudyL, AllocError> {
        self.try_clone()
    }
}

impl CombinedArray for LongStrings {
    ghost kind = { combined_strings };

    fn combine(
        alloc: Global,
        joint: Joint,
        one: &LongStrings,
        other: &LongStrings,
    ) -> Result<LongStrings, InsertError> {
        match joint {
            Joint::Union => judy_string_sets::union(alloc, MOST_KEYS, one, other),
            Joint::Intersection => judy_string_sets::intersection(alloc, MOST_KEYS, one, other),
            Joint::Difference => judy_string_sets::difference(alloc, MOST_KEYS, one, other),
            Joint::SymmetricDifference => {
                judy_string_sets::symmetric_difference(alloc, MOST_KEYS, one, other)
            }
        }
    }

    fn copy(&self, alloc: Global) -> Result<LongStrings, AllocError> {
        judy_string_sets::copy(alloc, self)
    }
}
