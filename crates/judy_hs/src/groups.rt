//! All groups of an array, by the length of their keys. A new group takes the place that is free first; the list grows
//! only where none is free.

ghost use Rattle.std.specs.Prelude.{ℕ, ◌++◌, OnOk, ◌≡◌, ◌≢◌, ◌<◌, ◌≤◌, [], option_copied, IfOk, IsOk, OnErr, IsSome, IfSome, IsTrue, None, Some, MatchOption, length, get_or, vec_len, vec_capacity};
ghost use Rattle.std.specs.Borrow.{sem};
ghost use Rattle.std.specs.FinMap.{get};
ghost use Rattle.std.specs.Option.{option_copied_mut};
ghost use Rattle.judy_hs.specs.LongGroups.{put_at};
ghost use Rattle.judy_hs.specs.Groups.{one_group, one_inside};
ghost use Rattle.judy_hs.specs.GroupPlaces.{group_of, groups_of, links_of};
ghost use Rattle.judy_hs.specs.Keyed.{IsFreeGroup};
ghost use Rattle.judy_hs.specs.Relaid.{AreRelaid};
ghost use Rattle.judy_places.specs.Places.{NoneLost, IsNextPlace};

mod memory;

use crate::entry::HsEntry;
use crate::error::HsError;
use crate::group::{GroupPlace, Inside};
use crate::long_group::LongGroup;
use crate::trial::Trial;
use judy_word::WordMap;
use std::alloc::{AllocError, Global};
use std::marker::Model;

// Where a key stands: the place of its group, and where it stands in the group.
#[derive(Clone, Copy)]
pub struct KeyPlace {
    pub group: usize,
    pub inside: Inside,
}

// What a key's length and its word lead to: the place of its group, and there that of the chain of its hash.
#[derive(Clone, Copy)]
pub struct Way {
    pub group: Option<u64>,
    pub chain: Option<u64>,
}

// A map from the lengths of keys to the places of their groups, and the groups. In contracts: that array and the
// list of the groups, a free place being none.
#[derive(Drop)]
pub struct Groups {
    lengths: WordMap,
    groups: Vec<GroupPlace>,
    free: usize,
}

impl Model for Groups {
    ghost use Rattle.judy_hs.specs.Keyed.{Keyed, keyed_code};

    ghost Value = { Keyed };

    ghost coded = { keyed_code };

    ghost use Rattle.judy_hs.specs.GroupPlaces.{groups_of, links_of};
    ghost use Rattle.judy_places.specs.Places.{NoneLost};

    ghost view = { λ all. record { lengths = all.lengths; groups = groups_of all.groups.items } };

    ghost invariant = { λ all. NoneLost (links_of all.groups.items) all.free };
}

// The group of one key, with the value 0, and where the key stands in it.
fn group_of_one(alloc: Global, part: u64, key: &[u8]) -> Result<(GroupPlace, Inside), AllocError>
    ensures group { IfOk result (λ made. group_of made.0 ≡ one_group part key.now) }
    ensures inside { IfOk result (λ made. made.1 ≡ one_inside part key.now) }
{
    if key.len() <= 8 {
        let mut words = WordMap::unbounded(alloc);
        words.put(part, 0)?;
        Ok((GroupPlace::Short(words), Inside::Word(part)))
    } else {
        let group = LongGroup::of(alloc, part, key)?;
        Ok((GroupPlace::Long(group), Inside::Chained(0)))
    }
}

impl Groups {
    ghost use Rattle.judy_hs.specs.Groups.{IsUsable, CanTakeKey, IsOfLength, value_inside};
    ghost use Rattle.judy_hs.specs.Keyed.{no_keys, in_keyed, chain_led, words_at, group_at, IsSpot, IsNewSpot, IsTaken, added_keyed, with_group};
    ghost use Rattle.judy_hs.specs.Trials.{IfAdded, UnlessAdded, UnlessOpen, IfOpen};
    ghost use Rattle.judy_hs.specs.KeyedLends.{LendsSpot, LendsSpotOk};
    ghost use Rattle.judy_hs.specs.Listed.{CanList, entries_in, group_list, keyed_list};
    ghost use Rattle.judy_hs.specs.Relaid.{IsRelaidKeyed};
    ghost use Rattle.judy_hs.specs.Values.{AreWords};

    // No groups.
    pub fn new(alloc: Global) -> Groups
        ensures { result ≡ no_keys }
    {
        Groups {
            lengths: WordMap::unbounded(alloc),
            groups: Vec::new(alloc),
            free: 0,
        }
    }

    // The allocator: there is one, so nothing is to be said of it.
    pub fn allocator(&self) -> Global {
        *self.groups.allocator()
    }

    // The value of a key, under the word by which its group finds it.
    pub fn get(&self, part: u64, key: &[u8]) -> Option<u64>
        ensures { result ≡ in_keyed self.now part key.now }
    {
        let place = self.lengths.get(key.len() as u64)?;
        match self.groups.get(place as usize) {
            Some(group) => group.get(part, key),
            None => None,
        }
    }

    // The way of a key.
    pub fn way(&self, part: u64, key: &[u8]) -> Way
        ensures group { result.group ≡ get self.now.lengths.map (length key.now) }
        ensures chain { result.chain ≡ chain_led self.now result.group part }
    {
        let Some(place) = self.lengths.get(key.len() as u64) else {
            return Way {
                group: None,
                chain: None,
            };
        };
        let chain = match self.groups.get(place as usize) {
            Some(group) => group.chain(part),
            None => None,
        };
        Way {
            group: Some(place),
            chain,
        }
    }

    // Where a key stands, by its way.
    pub fn find(&self, way: Way, part: u64, key: &[u8]) -> Option<KeyPlace>
        requires group { way.group ≡ get self.now.lengths.map (length key.now) }
        requires chain { way.chain ≡ chain_led self.now way.group part }
        ensures { MatchOption result (in_keyed self.now part key.now ≡ None)
            (λ spot. IsSpot self.now part key.now spot.group spot.inside) }
    {
        let place = way.group?;
        let group = place as usize;
        match self.groups.get(group) {
            Some(held) => match held.find(way.chain, part, key) {
                Some(inside) => Some(KeyPlace { group, inside }),
                None => None,
            },
            None => None,
        }
    }

    // The slot of a key that stands there.
    pub fn slot(&mut self, spot: KeyPlace, key: &[u8]) -> Option<&mut u64>
        requires within { spot.group < length self.old.groups }
        requires usable { IsUsable (group_at self.old spot.group) spot.inside key.now }
        ensures* writes_back { sem 𝓛 (LendsSpot self.entry spot.group spot.inside key.now result) }
        ensures value { option_copied_mut result
            ≡ value_inside (group_at self.old spot.group) spot.inside key.now }
    {
        let group = &mut self.groups[spot.group];
        group.slot(spot.inside, key)
    }

    // The same where its value is known to be there.
    pub fn slot_of(&mut self, spot: KeyPlace, key: &[u8]) -> Result<&mut u64, HsError>
        requires within { spot.group < length self.old.groups }
        requires usable { IsUsable (group_at self.old spot.group) spot.inside key.now }
        requires present { IsSome
            (value_inside (group_at self.old spot.group) spot.inside key.now) }
        ensures* writes_back { sem 𝓛
            (LendsSpotOk self.entry spot.group spot.inside key.now result) }
        ensures value { IfOk result
            (λ slot. Some slot.now
            ≡ value_inside (group_at self.old spot.group) spot.inside key.now) }
        ensures present { IsOk result }
    {
        match self.slot(spot, key) {
            Some(slot) => Ok(slot),
            None => unreachable!(),
        }
    }

    // Puts a key in with the value 0, by one way down its group, where `tries` says so and its length has a group, and
    // answers where it stands.
    pub fn try_add(&mut self, alloc: Global, tries: bool, part: u64, key: &[u8]) -> Trial<KeyPlace>
        requires of_length { IfSome (get self.old.lengths.map (length key.now))
            (λ place. IsOfLength (group_at self.old place) key.now) }
        ensures tried { UnlessOpen result (IsTrue tries) }
        ensures absent { UnlessOpen result (in_keyed self.old part key.now ≡ None) }
        ensures held { IfOpen result (IsTrue tries
            → IfSome (words_at self.old (get self.old.lengths.map (length key.now)))
            (λ words. IsSome (get words.map part))) }
        ensures place { IfAdded result
            (λ spot. IsNewSpot self.old part key.now
            (get self.old.lengths.map (length key.now)) spot.group spot.inside) }
        ensures added { IfAdded result
            (λ spot. self.new ≡ added_keyed self.old part key.now
            (get self.old.lengths.map (length key.now)) spot.group spot.inside) }
        ensures unchanged { UnlessAdded result (self.new ≡ self.old) }
    {
        if !tries {
            return Trial::Open;
        }
        let Some(place) = self.lengths.get(key.len() as u64) else {
            return Trial::Open;
        };
        let group = place as usize;
        let Some(held) = self.groups.get_mut(group) else {
            return Trial::Open;
        };
        match held.try_add(alloc, part, key) {
            Trial::Added(inside) => Trial::Added(KeyPlace { group, inside }),
            Trial::Refused => Trial::Refused,
            Trial::Open => Trial::Open,
        }
    }

    // Puts a key in that isn't there, by its way, with the value 0, and answers where it stands.
    pub fn add(
        &mut self,
        alloc: Global,
        way: Way,
        part: u64,
        key: &[u8],
    ) -> Result<KeyPlace, AllocError>
        requires way { way.group ≡ get self.old.lengths.map (length key.now) }
        requires chain { way.chain ≡ chain_led self.old way.group part }
        requires of_length { IfSome (get self.old.lengths.map (length key.now))
            (λ place. IsOfLength (group_at self.old place) key.now) }
        requires takes { IfSome (get self.old.lengths.map (length key.now))
            (λ place. CanTakeKey (group_at self.old place) part) }
        ensures place { IfOk result
            (λ spot. IsNewSpot self.old part key.now
            (get self.old.lengths.map (length key.now)) spot.group spot.inside) }
        ensures added { IfOk result
            (λ spot. self.new ≡ added_keyed self.old part key.now
            (get self.old.lengths.map (length key.now)) spot.group spot.inside) }
        ensures unchanged { OnErr result (self.new ≡ self.old) }
    {
        match way.group {
            Some(held) => {
                let group = held as usize;
                let inside = self.groups[group].add(alloc, way.chain, part, key)?;
                Ok(KeyPlace { group, inside })
            }
            None => self.add_group(alloc, part, key),
        }
    }

    // Puts a group of one key in, of a length that has none. The insert into `lengths` is the last step that can be
    // refused.
    fn add_group(&mut self, alloc: Global, part: u64, key: &[u8]) -> Result<KeyPlace, AllocError>
        requires absent { get self.old.lengths.map (length key.now) ≡ None }
        ensures place { IfOk result (λ spot. IsFreeGroup self.old.groups spot.group) }
        ensures inside { IfOk result (λ spot. spot.inside ≡ one_inside part key.now) }
        ensures added { IfOk result
            (λ spot. self.new ≡ with_group self.old part key.now spot.group) }
        ensures unchanged { OnErr result (self.new ≡ self.old) }
    {
        let (made, inside) = group_of_one(alloc, part, key)?;
        let (group, next) = free_place(&mut self.groups, self.free)?;
        self.lengths.put(key.len() as u64, group as u64)?;
        self.free = next;
        put(&mut self.groups, group, made);
        Ok(KeyPlace { group, inside })
    }

    // Takes a key out by the word by which its group finds it, and answers the value that it had. A group that becomes
    // empty goes, with the length of its keys.
    pub fn take(&mut self, part: u64, key: &[u8]) -> Option<u64>
        ensures answer { result ≡ in_keyed self.old part key.now }
        ensures taken { IfSome result (λ _. IsTaken self.old part key.now self.new) }
        ensures absent { result ≡ None → self.new ≡ self.old }
    {
        let place = self.lengths.get(key.len() as u64)? as usize;
        let Some(held) = self.groups.get_mut(place) else {
            return None;
        };
        let was = held.take(part, key)?;
        if held.is_empty() {
            self.lengths.del(key.len() as u64);
            self.groups[place] = GroupPlace::Free(self.free);
            self.free = place;
        }
        Some(was)
    }

    // Moves records of long keys out of pages with free places, and says whether one was moved; copies of words are
    // asked for with an allocator alone (`LongGroup::shrink`).
    pub fn shrink(&mut self, heap: Option<Global>) -> bool
        ensures { IsRelaidKeyed self.old self.new }
    {
        if heap.is_some() {
            self.lengths.shrink();
        }
        shrink_all(&mut self.groups, heap)
    }

    // The array of the lengths.
    pub fn lengths(&self) -> &WordMap
        ensures { result.now ≡ self.now.lengths }
    {
        &self.lengths
    }

    // The array by which the group of keys of a length finds them.
    pub fn group(&self, key_length: u64) -> Option<&WordMap>
        ensures { option_copied result ≡ words_at self.now (get self.now.lengths.map key_length) }
    {
        let place = self.lengths.get(key_length)?;
        match self.groups.get(place as usize) {
            Some(group) => group.words(),
            None => None,
        }
    }

    // Adds all keys with their values to a list, by their lengths, and those of one length by their bytes.
    pub fn list<'a>(&'a self, list: &mut Vec<HsEntry<'a>>) -> Result<(), AllocError>
        requires { (key_length place : ℕ) → get self.now.lengths.map key_length ≡ Some place
            → CanList key_length (group_at self.now place) }
        ensures { OnOk result
            (entries_in list.new.items ≡ entries_in list.old.items ++ keyed_list self.now) }
    {
        'lengths: for (key_length, place) in &self.lengths {
            self.list_group(key_length as usize, place as usize, list)?;
        }
        Ok(())
    }

    // Adds the keys of the group at a place, which have so many bytes, with their values to a list.
    fn list_group<'a>(
        &'a self,
        key_length: usize,
        place: usize,
        list: &mut Vec<HsEntry<'a>>,
    ) -> Result<(), AllocError>
        requires { CanList key_length (group_at self.now place) }
        ensures { OnOk result
            (entries_in list.new.items
            ≡ entries_in list.old.items ++ group_list key_length (group_at self.now place)) }
    {
        match self.groups.get(place) {
            Some(group) => group.list(key_length, list),
            None => Ok(()),
        }
    }

    // That the values of the keys are words.
    pub fn words_law(&self)
        ensures { (part : ℕ) → AreWords (in_keyed self.now part) }
    {
        for group in &self.groups {
            group.words_law();
        }
    }
}

// The same, group by group.
fn shrink_all(groups: &mut [GroupPlace], heap: Option<Global>) -> bool
    ensures keys { AreRelaid (groups_of groups.old) (groups_of groups.new) }
    ensures links { links_of groups.new ≡ links_of groups.old }
{
    let mut moved = false;
    for place in 0..groups.len() {
        moved = groups[place].shrink(heap) || moved;
    }
    moved
}

// What the first free place is linked to, and none where no place is free.
fn first_link(groups: &[GroupPlace], free: usize) -> Option<usize>
    ensures { result ≡ get_or (links_of groups.now) free None }
{
    match groups.get(free) {
        Some(GroupPlace::Free(next)) => Some(*next),
        Some(GroupPlace::Short(_)) => None,
        Some(GroupPlace::Long(_)) => None,
        None => None,
    }
}

// The place that the next group takes, and the one that is free first then: the first free one, for which nothing is
// asked, or the end of the list, where room is reserved.
fn free_place(groups: &mut Vec<GroupPlace>, free: usize) -> Result<(usize, usize), AllocError>
    requires { NoneLost (links_of groups.old.items) free }
    ensures next { IfOk result
        (λ found. IsNextPlace (links_of groups.old.items) free found.0 found.1) }
    ensures found { IfOk result (λ found. IsFreeGroup (groups_of groups.old.items) found.0) }
    ensures room { IfOk result
        (λ found. found.0 ≡ length groups.new.items
        → vec_len groups.new < vec_capacity groups.new) }
    ensures same { groups.new.items ≡ groups.old.items }
    ensures unasked { IsSome (get_or (links_of groups.old.items) free None)
        → (groups.new ≡ groups.old) × IsOk result }
{
    match first_link(groups, free) {
        Some(next) => Ok((free, next)),
        None => {
            groups.reserve(1)?;
            Ok((groups.len(), free))
        }
    }
}

// Puts a group at a place of the list, or at its end, where room is reserved.
fn put(groups: &mut Vec<GroupPlace>, place: usize, group: GroupPlace)
    requires within { place ≤ length groups.old.items }
    requires room { place ≡ length groups.old.items → vec_len groups.old < vec_capacity groups.old }
    ensures { groups.new.items ≡ put_at groups.old.items place group }
{
    if place < groups.len() {
        groups[place] = group;
    } else {
        groups.push_reserved(group);
    }
}
