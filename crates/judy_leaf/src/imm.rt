//! An immediate: a few keys in the node itself.

ghost use Rattle.std.specs.Prelude.{◌≡◌, ◌+◌, ◌-◌, ◌*◌, ◌/◌, ◌<◌, ◌≤◌, ◌^◌, ◌==◌, [], ◌∷◌, length, slice_index, IsFalse};
ghost use Rattle.std.specs.List.{remove, AllByRecursion};
ghost use Rattle.judy_model.specs.Keys.{word_order};
ghost use Rattle.judy_model.specs.Nearest.{IsFirst, IsLast};
ghost use Rattle.judy_bits.specs.ByteSets as set;
ghost use Rattle.judy_leaf.specs.Packing.{IsWidth};
ghost use Rattle.judy_leaf.specs.KeyLists.{keys_of, values_of, low_pairs, with_pair, with_value_at, IsKeyList};
ghost use Rattle.judy_leaf.specs.Immediates.{imm_room, parts_list, IsImmParts};
ghost use Rattle.judy_leaf.specs.Nearby.{pair_from, pair_up_to, is_absent};
ghost use Rattle.judy_leaf.specs.Searches.{IsSearched};

use crate::one_word;
use crate::words::{ValueWords, Words};
use judy_bits::low_part;
use std::marker::{Model, PhantomData};

/// A few keys, and a value where `V` says so, without memory: one key where keys have a value, else as many as fit into
/// a word.
#[derive(Drop)]
pub struct ImmOf<V: Words + Drop> {
    width: u8,
    count: u8,
    keys: u64,
    value: u64,
    words: PhantomData<V>,
}

/// An immediate whose keys have `W` words of value each, 0 or 1.
pub type Imm<const W: usize> = ImmOf<ValueWords<W>>;

const _: () = prove!(size_of::<Imm<1>>() == 24);

impl<V: Words + Drop> Model for ImmOf<V> {
    ghost use Rattle.judy_leaf.specs.KeyLists.{KeyList};

    ghost Value = { KeyList };

    ghost use Rattle.judy_leaf.specs.Immediates.{imm_list, IsImm};

    ghost view = { λ i. imm_list V.WORDS i.width i.count i.keys i.value };

    ghost invariant = { λ i. IsImm V.WORDS i.width i.count i.keys };
}

impl<V: Words + Drop> ImmOf<V> {
    /// An immediate without keys, for keys of `width` bytes, 1 to 8.
    pub fn new(width: u8) -> ImmOf<V>
        requires words { V.WORDS ≤ 1 }
        requires width { IsWidth width }
        ensures { result ≡ record { width = width; pairs = [] } }
    {
        ImmOf {
            width,
            count: 0,
            keys: 0,
            value: 0,
            words: PhantomData,
        }
    }

    /// An immediate of one key of `width` bytes, 1 to 8, with its value, which is 0 where keys have no value.
    #[tactic(auto, using(crate::proofs::OneKey::one_list))]
    pub fn one(width: u8, key: u64, value: u64) -> ImmOf<V>
        requires words { V.WORDS ≤ 1 }
        requires width { IsWidth width }
        requires below { key < 256 ^ width }
        requires no_value { V.WORDS ≡ 0 → value ≡ 0 }
        ensures { result ≡ record { width = width; pairs = (key, value) ∷ [] } }
    {
        ImmOf {
            width,
            count: 1,
            keys: key,
            value,
            words: PhantomData,
        }
    }

    /// A law, told by a call that does nothing: the keys ascend and have `width` bytes.
    pub fn law(&self)
        ensures { IsKeyList self.now }
    {
        let _ = &self.count;
    }

    /// How many keys there are, at most 8.
    pub fn len(&self) -> usize
        ensures count { result ≡ length self.now.pairs }
        ensures within { result ≤ 8 }
        ensures list { IsKeyList self.now }
    {
        usize::from(self.count)
    }

    /// How many bytes a key has, 1 to 8.
    pub fn width(&self) -> u8
        ensures value { result ≡ self.now.width }
        ensures within { (1 ≤ result) × (result ≤ 8) }
    {
        self.width
    }

    /// Whether no further key fits.
    pub fn is_full(&self) -> bool
        ensures { result ≡ (length self.now.pairs == imm_room V.WORDS self.now.width) }
    {
        if V::WORDS == 1 {
            self.count == 1
        } else {
            one_word::is_full(self.width, self.count)
        }
    }

    /// How many keys are below a word.
    pub fn rank(&self, key: u64) -> usize
        ensures value { result ≡ set.rank (keys_of self.now.pairs) key }
        ensures within { result ≤ length self.now.pairs }
    {
        one_word::rank(self.width, usize::from(self.count), self.keys, key)
    }

    /// The place of a key; none where the word isn't one of the keys.
    pub fn find(&self, key: u64) -> Option<usize>
        ensures { result ≡ set.place (keys_of self.now.pairs) key }
    {
        one_word::find(self.width, usize::from(self.count), self.keys, key)
    }

    /// The place of a key, as `Ok`; or, where the word isn't one of the keys, the place that it would have, as `Err`.
    pub fn search(&self, key: u64) -> Result<usize, usize>
        ensures { IsSearched (keys_of self.now.pairs) key result }
    {
        let count = usize::from(self.count);
        match one_word::next(self.width, count, self.keys, key) {
            Some((at, found)) => { if found == key { Ok(at) } else { Err(at) } }
            None => Err(count),
        }
    }

    /// The key at a place, counted from 0 and below the number of keys.
    pub fn key_at(&self, at: usize) -> u64
        requires { at < length self.now.pairs }
        ensures { result ≡ slice_index (keys_of self.now.pairs) at }
    {
        one_word::key_at(self.width, usize::from(self.count), self.keys, at)
    }

    /// The value at such a place, 0 where keys have no value.
    pub fn value_at(&self, at: usize) -> u64
        requires { at < length self.now.pairs }
        ensures { result ≡ slice_index (values_of self.now.pairs) at }
    {
        if V::WORDS == 1 { self.value } else { 0 }
    }

    /// The nearest key at or above a number, with its value; none where all keys are below.
    // Where keys have a value there is one key, and in its caller this is one comparison.
    #[inline(always)]
    pub fn at_or_after(&self, number: u64) -> Option<(u64, u64)>
        ensures { result ≡ pair_from self.now.pairs number }
    {
        match one_word::next(self.width, usize::from(self.count), self.keys, number) {
            Some((at, key)) => Some((key, self.value_at(at))),
            None => None,
        }
    }

    /// The nearest key at or below a number, with its value; none where all keys are above.
    // As `at_or_after`.
    #[inline(always)]
    pub fn at_or_before(&self, number: u64) -> Option<(u64, u64)>
        ensures { result ≡ pair_up_to self.now.pairs number }
    {
        match one_word::previous(self.width, usize::from(self.count), self.keys, number) {
            Some((at, key)) => Some((key, self.value_at(at))),
            None => None,
        }
    }

    /// The nearest number at or above another that is no key, among those that a key of this width could be; none where
    /// all these are keys.
    pub fn absent_at_or_after(&self, number: u64) -> Option<u64>
        ensures { IsFirst word_order
            (is_absent (256 ^ self.now.width) (keys_of self.now.pairs)) number result }
    {
        one_word::absent_from(self.width, usize::from(self.count), self.keys, number)
    }

    /// The nearest number at or below another that is no key, among those that a key of this width could be; none where
    /// all these are keys.
    pub fn absent_at_or_before(&self, number: u64) -> Option<u64>
        ensures { IsLast word_order
            (is_absent (256 ^ self.now.width) (keys_of self.now.pairs)) number result }
    {
        one_word::absent_up_to(self.width, usize::from(self.count), self.keys, number)
    }

    /// Puts a key in with its value, which is 0 where keys have no value. The key is absent and below 256 to the power
    /// of the width, and the immediate isn't full.
    pub fn insert_pair(&mut self, key: u64, value: u64)
        requires absent { IsFalse (set.has (keys_of self.old.pairs) key) }
        requires room { length self.old.pairs < imm_room V.WORDS self.old.width }
        requires below { key < 256 ^ self.old.width }
        requires no_value { V.WORDS ≡ 0 → value ≡ 0 }
        ensures { self.new ≡ record self.old { pairs = with_pair key value self.old.pairs } }
    {
        let at = self.rank(key);
        self.keys = one_word::with_key(self.width, usize::from(self.count), self.keys, at, key);
        self.value = value;
        self.count += 1;
    }

    /// The immediate of pairs, no more than fit, whose keys are read by their lowest `width` bytes, 1 to 8; these
    /// strictly ascend.
    /// Where keys have no value, each value is 0.
    pub fn from_sorted(width: u8, pairs: &[(u64, u64)]) -> ImmOf<V>
        requires words { V.WORDS ≤ 1 }
        requires list { IsKeyList
            (record { width = width; pairs = low_pairs (256 ^ width) pairs.now }) }
        requires few { length pairs.now ≤ imm_room V.WORDS width }
        requires no_values { V.WORDS ≡ 0 → AllByRecursion (λ pair. pair.1 ≡ 0) pairs.now }
        ensures { result ≡ record { width = width; pairs = low_pairs (256 ^ width) pairs.now } }
    {
        if pairs.len() == 1 {
            let (key, value) = pairs[0];
            return ImmOf::one(width, low_part(key, usize::from(width)), value);
        }
        ImmOf::few_of_sorted(width, pairs)
    }

    // The same, one key after another.
    fn few_of_sorted(width: u8, pairs: &[(u64, u64)]) -> ImmOf<V>
        requires words { V.WORDS ≤ 1 }
        requires list { IsKeyList
            (record { width = width; pairs = low_pairs (256 ^ width) pairs.now }) }
        requires few { length pairs.now ≤ imm_room V.WORDS width }
        requires no_values { V.WORDS ≡ 0 → AllByRecursion (λ pair. pair.1 ≡ 0) pairs.now }
        ensures { result ≡ record { width = width; pairs = low_pairs (256 ^ width) pairs.now } }
    {
        let mut imm = ImmOf::new(width);
        for (key, value) in pairs {
            imm.insert_pair(low_part(*key, usize::from(width)), *value);
        }
        imm
    }

    /// Takes the key at a place out, with its value; the place is below the number of keys.
    pub fn remove(&mut self, at: usize)
        requires { at < length self.old.pairs }
        ensures { self.new ≡ record self.old { pairs = remove self.old.pairs at } }
    {
        self.keys = one_word::without_key(self.width, usize::from(self.count), self.keys, at);
        self.count -= 1;
    }

    /// The immediate of the two words that stand for it in a node. Where keys have a value, there is one key, which is
    /// the first word, and the second is its value; else the first is the number of keys, and the second holds them,
    /// packed.
    pub fn of_parts(width: u8, head: u64, word: u64) -> ImmOf<V>
        requires { IsImmParts V.WORDS width head word }
        ensures { result ≡ parts_list V.WORDS width head word }
    {
        if V::WORDS == 1 {
            ImmOf {
                width,
                count: 1,
                keys: head,
                value: word,
                words: PhantomData,
            }
        } else {
            ImmOf {
                width,
                count: head as u8,
                keys: word,
                value: 0,
                words: PhantomData,
            }
        }
    }

    /// The two words that stand for the immediate in a node; it holds a key.
    pub fn into_parts(self) -> (u64, u64)
        requires { 1 ≤ length self.pairs }
        ensures parts { IsImmParts V.WORDS self.width result.0 result.1 }
        ensures list { parts_list V.WORDS self.width result.0 result.1 ≡ self }
    {
        if V::WORDS == 1 {
            (self.keys, self.value)
        } else {
            (u64::from(self.count), self.keys)
        }
    }
}
