//! An array of one of the kinds.

ghost use Rattle.std.specs.Prelude.{◌≡◌, ◌≤◌, ◌==◌};
ghost use Rattle.judy_model.specs.Arrays.{IsArray, limit_of, len_of, emptied};
ghost use Rattle.judy_model.specs.Kinds.{kind_word_of};
ghost use Rattle.judy_shelf.specs.Kinds.{kind_word};
ghost use Rattle.judy_shelf.specs.Arrays.{new_array};

use crate::kind::Kind;
use judy_hs::{Fnv1a, JudyHs};
use judy_sl::JudySl;
use judy_word::{Judy1, JudyL};
use std::alloc::Global;

// The empty array of a kind, which may hold so many keys.
pub(crate) fn new_array(alloc: Global, kind: Kind, limit: u64) -> Array
    requires some { 1 ≤ limit }
    requires most { limit ≤ 4294967295 }
    ensures { result ≡ new_array kind limit }
{
    match kind {
        Kind::Judy1 => Array::Judy1(Judy1::new(alloc, limit)),
        Kind::JudyL => Array::JudyL(JudyL::new(alloc, limit)),
        Kind::JudySl => Array::JudySl(JudySl::new(alloc, limit)),
        Kind::JudyHs => Array::JudyHs(JudyHs::new(alloc, limit, Fnv1a)),
    }
}

/// An array of one of the kinds. In contracts its value is `value_of` of it: an array value of the
/// definitions.
#[derive(Drop)]
pub enum Array {
    /// A set of words.
    Judy1(Judy1),
    /// A map from words to words.
    JudyL(JudyL),
    /// A map from byte strings without zero bytes to words.
    JudySl(JudySl),
    /// A map from byte strings to words.
    JudyHs(JudyHs<Fnv1a>),
}

impl Array {
    ghost use Rattle.judy_shelf.specs.Arrays.{value_of, kind_of};

    /// The array's kind.
    pub fn kind(&self) -> Kind
        ensures kind { result ≡ kind_of self.now }
        ensures word { kind_word result ≡ kind_word_of (value_of self.now) }
    {
        match self {
            Array::Judy1(_) => Kind::Judy1,
            Array::JudyL(_) => Kind::JudyL,
            Array::JudySl(_) => Kind::JudySl,
            Array::JudyHs(_) => Kind::JudyHs,
        }
    }

    /// How many keys it may hold.
    pub fn limit(&self) -> u64
        ensures { result ≡ limit_of (value_of self.now) }
    {
        match self {
            Array::Judy1(set) => set.limit(),
            Array::JudyL(words) => words.limit(),
            Array::JudySl(strings) => strings.limit(),
            Array::JudyHs(bytes) => bytes.limit(),
        }
    }

    /// How many keys it holds.
    pub fn len(&self) -> u64
        ensures count { result ≡ len_of (value_of self.now) }
        ensures within { result ≤ limit_of (value_of self.now) }
    {
        match self {
            Array::Judy1(set) => set.len(),
            Array::JudyL(words) => words.len(),
            Array::JudySl(strings) => strings.len(),
            Array::JudyHs(bytes) => bytes.len(),
        }
    }

    /// Whether it holds no key.
    pub fn is_empty(&self) -> bool
        ensures { result ≡ (len_of (value_of self.now) == 0) }
    {
        self.len() == 0
    }

    /// Takes every key out, and answers how many there were. The kind and the limit stay.
    /// (Manual: FreeArray, which answers bytes there; keys are this project's own.)
    pub fn free(&mut self) -> u64
        ensures freed { result ≡ len_of (value_of self.old) }
        ensures emptied { value_of self.new ≡ emptied (value_of self.old) }
    {
        match self {
            Array::Judy1(set) => set.free_array(),
            Array::JudyL(words) => words.free_array(),
            Array::JudySl(strings) => strings.free_array(),
            Array::JudyHs(bytes) => bytes.free_array(),
        }
    }

    /// A law of every array that a program holds: it is one of the definitions, its keys those of its kind, its
    /// limit and values words, and no more keys than its limit. It answers nothing and reads what it holds, for a
    /// caller whose proof is to know it.
    pub fn array_law(&self)
        ensures { IsArray (value_of self.now) }
    {
        match self {
            Array::Judy1(set) => set.array_law(),
            Array::JudyL(words) => words.array_law(),
            Array::JudySl(strings) => strings.array_law(),
            Array::JudyHs(bytes) => bytes.array_law(),
        }
    }
}
