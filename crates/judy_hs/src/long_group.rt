//! The keys of one length above 8 bytes, by their hashes. A hash leads to a place, which has the record of a key. Where
//! other keys share the hash, a chain has these (shared.rt).

ghost use Rattle.std.specs.Prelude.{ℕ, ◌≡◌, ◌≢◌, [], ◌<◌, IfOk, OnOk, OnErr, None, Some, MatchOption, ◌++◌, ◌↔◌, IsTrue, IsSome, IfSome, All, length};
ghost use Rattle.std.specs.List.{flat_map};
ghost use Rattle.std.specs.List.Sorted.{IsPermutation};
ghost use Rattle.std.specs.FinMap.{get, empty};
ghost use Rattle.std.specs.Borrow.{sem};
ghost use Rattle.std.specs.Option.{option_copied_mut};
ghost use Rattle.judy_records.specs.Spots.{IsHeld, spot_at, text_of};
ghost use Rattle.judy_records.specs.Texts.{bytes_in};
ghost use Rattle.judy_hs.specs.LongRecords.{IsSpelled, others_at, pairs_of};
ghost use Rattle.judy_hs.specs.Chains.{value_in};
ghost use Rattle.judy_hs.specs.Listed.{entries_in};

mod memory;

use crate::chain::{Chain, word_law};
use crate::entry::{HsEntry, HsKey, sort_from};
use crate::shared::{join, leave, take_first};
use crate::spare::copy_of_spare;
use crate::trial::Trial;
use judy_records::{MOST_STEPS, Record, Records, words_for};
use judy_word::WordMap;
use std::alloc::{AllocError, Global};
use std::collections::BTreeMap;
use std::marker::Model;

// A map from the hashes of keys to places, a record of a key at each of these, and chains of the other keys with its
// hash, by its place. In contracts: that array and, place by place, the keys with their values.
#[derive(Drop)]
pub struct LongGroup {
    hashes: WordMap,
    records: Records,
    chains: BTreeMap<usize, Chain>,
    key_length: usize,
    // How many keys went since records were last moved together.
    gone: u64,
}

impl Model for LongGroup {
    ghost use Rattle.judy_hs.specs.LongGroups.{Long};

    ghost Value = { Long };

    ghost use Rattle.judy_hs.specs.LongGroups.{long_code};

    ghost coded = { long_code };

    ghost use Rattle.judy_hs.specs.LongRecords.{all_pairs, AreLongRecords};

    ghost view = { λ group.
        record {
          key_length = group.key_length;
          hashes = group.hashes;
          chains = all_pairs group.key_length group.chains group.records;
        } };

    ghost invariant = { λ group.
        AreLongRecords group.hashes.map group.key_length group.chains group.records };
}

// Whether a record, which spells a key of so many bytes, spells this one. Their bytes decide, zero bytes at the end
// too.
#[inline(always)]
fn is_key(stored: &Record<'_>, key_length: usize, key: &[u8]) -> bool
    requires held { IsHeld stored.now }
    requires spelled { IsSpelled key_length stored.now }
    ensures { IsTrue result ↔ bytes_in key_length (text_of stored.now) ≡ key.now }
{
    key.len() == key_length && stored.is_of(key)
}

// The same for a key that stands at the place, in its record or among the others. Where no two keys share a hash no
// byte is looked at.
fn is_own(
    records: &Records,
    chains: &BTreeMap<usize, Chain>,
    key_length: usize,
    place: usize,
    key: &[u8],
) -> bool
    requires held { IsHeld (spot_at records.now place) }
    requires spelled { IsSpelled key_length (spot_at records.now place) }
    requires there { IsSome
        (value_in (pairs_of key_length (others_at chains.now place) (spot_at records.now place))
        key.now) }
    ensures { IsTrue result ↔ bytes_in key_length (text_of (spot_at records.now place)) ≡ key.now }
{
    if chains.is_empty() {
        return true;
    }
    is_key(&records.at(place), key_length, key)
}

impl LongGroup {
    ghost use Rattle.judy_hs.specs.LongGroups.{one_long, in_long, in_chain, chain_at, IsLed, IsLongPlace, IsLongLess, IsAdded, value_of_place, without_key};
    ghost use Rattle.judy_hs.specs.Trials.{IfAdded, UnlessAdded, UnlessOpen, IfOpen};
    ghost use Rattle.judy_hs.specs.LongLends.{LendsLong};
    ghost use Rattle.judy_hs.specs.Chains.{AreApart};
    ghost use Rattle.judy_hs.specs.Listed.{chained, long_list, places_of, AreListed};
    ghost use Rattle.judy_hs.specs.Values.{AreWords};
    ghost use Rattle.judy_hs.specs.Relaid.{IsRelaid};

    // The group of one key, with the value 0.
    pub fn of(alloc: Global, hash: u64, key: &[u8]) -> Result<LongGroup, AllocError>
        ensures { IfOk result (λ group. group ≡ one_long hash key.now) }
    {
        let mut records = Records::new(alloc, words_for(key.len()));
        records.put(0, key)?;
        let mut hashes = WordMap::unbounded(alloc);
        hashes.put(hash, 0)?;
        Ok(LongGroup {
            hashes,
            records,
            chains: BTreeMap::new(alloc),
            key_length: key.len(),
            gone: 0,
        })
    }

    // The value of a key with that hash.
    pub fn get(&self, hash: u64, key: &[u8]) -> Option<u64>
        ensures { result ≡ in_long self.now hash key.now }
    {
        let place = self.hashes.get(hash)?;
        self.value_at(place as usize, key)
    }

    // The value of a key at a place.
    fn value_at(&self, place: usize, key: &[u8]) -> Option<u64>
        requires { chain_at self.now place ≢ [] }
        ensures { result ≡ value_of_place self.now place key.now }
    {
        let record = self.records.at(place);
        if is_key(&record, self.key_length, key) {
            return Some(record.value());
        }
        match self.chains.get(&place) {
            Some(chain) => chain.get(key),
            None => None,
        }
    }

    // The place of the keys of a hash.
    pub fn chain(&self, hash: u64) -> Option<u64>
        ensures { result ≡ get self.now.hashes.map hash }
    {
        self.hashes.get(hash)
    }

    // The place of a key, where that of its hash is known and the key stands there.
    pub fn find(&self, chain: Option<u64>, key: &[u8]) -> Option<usize>
        requires { IsLed self.now chain }
        ensures { MatchOption result (in_chain self.now chain key.now ≡ None)
            (λ place. (hash : ℕ) → chain ≡ get self.now.hashes.map hash
            → IsLongPlace self.now hash key.now place) }
    {
        let place = chain?;
        let _records = &self.records;
        match self.value_at(place as usize, key) {
            Some(_) => Some(place as usize),
            None => None,
        }
    }

    // The slot of the value of a key that stands at a place.
    pub fn slot(&mut self, place: usize, key: &[u8]) -> Option<&mut u64>
        requires within { place < length self.old.chains }
        requires is_there { IsSome (value_in (chain_at self.old place) key.now) }
        ensures* writes_back { sem 𝓛 (LendsLong self.entry place key.now result) }
        ensures value { option_copied_mut result ≡ value_of_place self.old place key.now }
    {
        if is_own(&self.records, &self.chains, self.key_length, place, key) {
            return Some(self.records.slot(place));
        }
        match self.chains.get_mut(&place) {
            Some(chain) => chain.slot(key),
            None => None,
        }
    }

    // Puts a key in that isn't there, with the value 0: at the place of its hash, which is known, or at one of its own.
    // It answers the place.
    pub fn add(
        &mut self,
        alloc: Global,
        chain: Option<u64>,
        hash: u64,
        key: &[u8],
    ) -> Result<usize, AllocError>
        requires chain { chain ≡ get self.old.hashes.map hash }
        requires of_length { length key.now ≡ self.old.key_length }
        requires used { IfSome (get self.old.hashes.map hash)
            (λ place. chain_at self.old place ≢ []) }
        ensures added { IfOk result (λ place. IsAdded self.old self.new hash key.now place) }
        ensures unchanged { OnErr result (self.new ≡ self.old) }
    {
        match chain {
            Some(held) => {
                let place = held as usize;
                join(alloc, &mut self.chains, place, key)?;
                Ok(place)
            }
            None => match self.try_add(alloc, hash, key) {
                Trial::Added(place) => Ok(place),
                Trial::Refused => Err(AllocError),
                Trial::Open => unreachable!(),
            },
        }
    }

    // Puts a key in with the value 0 where its hash leads nowhere, and answers its place: one way down the hashes shows
    // that and puts the hash in. Only then is more memory asked for, so that none is for a key that is there; where it
    // is refused, the hash goes again.
    pub fn try_add(&mut self, alloc: Global, hash: u64, key: &[u8]) -> Trial<usize>
        requires of_length { length key.now ≡ self.old.key_length }
        ensures absent { UnlessOpen result (get self.old.hashes.map hash ≡ None) }
        ensures held { IfOpen result (IsSome (get self.old.hashes.map hash)) }
        ensures added { IfAdded result (λ place. IsAdded self.old self.new hash key.now place) }
        ensures unchanged { UnlessAdded result (self.new ≡ self.old) }
    {
        self.records.law();
        let place = self.records.next_place();
        match self.hashes.put_if_absent(hash, place as u64) {
            Ok(true) => {}
            Ok(false) => return Trial::Open,
            Err(_) => return Trial::Refused,
        }
        match self.records.put(0, key) {
            Ok(_) => Trial::Added(place),
            Err(_) => {
                self.hashes.del(hash);
                Trial::Refused
            }
        }
    }

    // Takes a key with that hash out, and answers the value that it had.
    pub fn take(&mut self, hash: u64, key: &[u8]) -> Option<u64>
        ensures answer { result ≡ in_long self.old hash key.now }
        ensures taken { IfSome result (λ _. IsLongLess self.old hash key.now self.new) }
        ensures absent { result ≡ None → self.new ≡ self.old }
    {
        let place = self.hashes.get(hash)? as usize;
        let was = self.value_at(place, key)?;
        self.remove(hash, place, key);
        Some(was)
    }

    // Takes a key at the place of its hash out. Where its record is there, another key with that hash takes its place;
    // where there is none, the hash goes too, and the place is free.
    fn remove(&mut self, hash: u64, place: usize, key: &[u8])
        requires leads { get self.old.hashes.map hash ≡ Some place }
        requires is_there { IsSome (value_in (chain_at self.old place) key.now) }
        ensures { self.new ≡ without_key self.old hash place key.now }
    {
        self.gone = self.gone.saturating_add(1);
        if !is_own(&self.records, &self.chains, self.key_length, place, key) {
            leave(&mut self.chains, place, key);
            return;
        }
        match take_first(&mut self.chains, place) {
            Some((other, value)) => self.records.set(place, value, &other),
            None => {
                self.hashes.del(hash);
                self.records.take_out(place);
            }
        }
    }

    // Moves records out of pages that have a free place and aren't filled next, and says whether one was moved, which
    // then has the place that was next. With an allocator it asks for memory for copies, of keys of more than 1,024
    // bytes and of the hashes. Without one it asks for none, and nothing moves where a walk over the hashes takes more
    // than `MOST_STEPS` steps for each key that went since the last one.
    pub fn shrink(&mut self, heap: Option<Global>) -> bool
        ensures { IsRelaid self.old self.new }
    {
        if heap.is_none() && self.hashes.len() > self.gone.saturating_mul(MOST_STEPS) {
            return false;
        }
        self.gone = 0;
        let least = if heap.is_some() { self.line_up() } else { 0 };
        let next = self.records.next_place();
        self.move_all(least, heap);
        let moved = self.records.next_place() != next;
        if heap.is_some() {
            self.trim();
        }
        moved
    }

    // Lets the first pages be filled, and answers the place from which on records are to go there.
    fn line_up(&mut self) -> usize
        ensures { IsRelaid self.old self.new }
    {
        self.records.line_up()
    }

    // Gives back what the list of pages and the hashes have to spare.
    fn trim(&mut self)
        ensures { IsRelaid self.old self.new }
    {
        self.records.trim();
        self.hashes.shrink();
    }

    // Moves each of them once from a place on, by their hashes. Then at most one page has free places, but for records
    // that stay (`copy_of_spare`).
    fn move_all(&mut self, least: usize, heap: Option<Global>)
        ensures { IsRelaid self.old self.new }
    {
        let mut from = Some(0);
        for _ in 0..self.hashes.len() {
            let Some(hash) = from else {
                return;
            };
            from = self.move_first(hash, least, heap);
        }
    }

    // Moves the record of the least hash from one on, where it is to be moved, and answers the hash behind it; none
    // where no further one can be.
    fn move_first(&mut self, from: u64, least: usize, heap: Option<Global>) -> Option<u64>
        ensures { IsRelaid self.old self.new }
    {
        let (hash, place) = self.hashes.array().first_entry(from)?;
        if place as usize >= least {
            self.move_record(hash, place as usize, heap);
        }
        hash.checked_add(1)
    }

    // Moves the record to which a hash leads to the next place, where it can go there and its page isn't the one that
    // is filled next. The hash is there, so that to lead it on isn't refused.
    fn move_record(&mut self, hash: u64, place: usize, heap: Option<Global>)
        requires { get self.old.hashes.map hash ≡ Some place }
        ensures { IsRelaid self.old self.new }
    {
        let copy = copy_of_spare(&self.records, &self.chains, heap, self.key_length, place);
        let Some((value, key)) = copy else {
            return;
        };
        self.records.law();
        let next = self.records.next_place();
        if self.hashes.put(hash, next as u64).is_err() {
            return;
        }
        match self.records.put(value, key.bytes()) {
            Ok(_) => self.records.take_out(place),
            Err(_) => unreachable!(),
        }
    }

    // Whether no key is left.
    pub fn is_empty(&self) -> bool
        ensures { IsTrue result ↔ (self.now.hashes.map ≡ empty) }
    {
        self.hashes.is_empty()
    }

    // The array of the hashes.
    pub fn hashes(&self) -> &WordMap
        ensures { result.now ≡ self.now.hashes }
    {
        &self.hashes
    }

    // Adds its keys with their values to a list, by their bytes.
    pub fn list<'a>(&'a self, list: &mut Vec<HsEntry<'a>>) -> Result<(), AllocError>
        requires { AreApart (chained self.now) }
        ensures { OnOk result
            (entries_in list.new.items ≡ entries_in list.old.items ++ long_list self.now) }
    {
        let start = list.len();
        self.list_unsorted(list)?;
        sort_from(list, start);
        Ok(())
    }

    // Adds them in the order of their places. Where keys were put in by their bytes, most of them come so, and the sort
    // goes through memory in order.
    fn list_unsorted<'a>(&'a self, list: &mut Vec<HsEntry<'a>>) -> Result<(), AllocError>
        ensures { OnOk result
            (AreListed self.now (entries_in list.old.items) (entries_in list.new.items)) }
    {
        let places = self.places(*list.allocator())?;
        self.list_places(&places, list)
    }

    // The places to which hashes lead, in ascending order.
    fn places(&self, alloc: Global) -> Result<Vec<u64>, AllocError>
        ensures places { IfOk result (λ places. IsPermutation (places_of self.now) places.items) }
        ensures used { IfOk result
            (λ places. All (λ place. chain_at self.now place ≢ []) places.items) }
    {
        let mut places = Vec::with_capacity(alloc, self.hashes.len() as usize)?;
        'hashes: for (_, place) in &self.hashes {
            places.push(place)?;
        }
        places.sort_unstable();
        Ok(places)
    }

    // Adds the keys at places with their values to a list, place by place.
    fn list_places<'a>(
        &'a self,
        places: &[u64],
        list: &mut Vec<HsEntry<'a>>,
    ) -> Result<(), AllocError>
        requires { All (λ place. chain_at self.now place ≢ []) places.now }
        ensures { OnOk result
            (entries_in list.new.items
            ≡ entries_in list.old.items ++ flat_map (chain_at self.now) places.now) }
    {
        for place in places {
            self.list_place(*place as usize, list)?;
        }
        Ok(())
    }

    // Adds the keys at a place with their values to a list.
    fn list_place<'a>(&'a self, place: usize, list: &mut Vec<HsEntry<'a>>) -> Result<(), AllocError>
        requires { chain_at self.now place ≢ [] }
        ensures { OnOk result
            (entries_in list.new.items ≡ entries_in list.old.items ++ chain_at self.now place) }
    {
        let key = self
            .records
            .bytes(*list.allocator(), place, self.key_length)?;
        list.push(HsEntry {
            key: HsKey::Copied(key),
            value: self.records.value(place),
        })?;
        match self.chains.get(&place) {
            Some(chain) => chain.list(list),
            None => Ok(()),
        }
    }

    // That its values are words.
    pub fn words_law(&self)
        ensures { (hash : ℕ) → AreWords (in_long self.now hash) }
    {
        'hashes: for (_, place) in &self.hashes {
            self.words_law_at(place as usize);
        }
    }

    // That the values at a place are words.
    fn words_law_at(&self, place: usize)
        requires { chain_at self.now place ≢ [] }
        ensures { AreWords (value_of_place self.now place) }
    {
        word_law(self.records.value(place));
        if let Some(chain) = self.chains.get(&place) {
            chain.words_law();
        }
    }
}
