//! Which key stands at a place: in a level with a list the piece is sought by how many keys stand before it. Another
//! level's entries are read from the nearer end up to the place, unless each has one key behind it.

ghost use Rattle.std.specs.Prelude.{◌≡◌, ◌<◌, ◌≤◌, ◌+◌, ◌^◌, ℕ, List, [], Some, suc, length, drop, unwrap_or, All, IfSome, MatchOption};
ghost use Rattle.std.specs.FinMap as map;
ghost use Rattle.std.specs.Option.{option_copied, option_map};
ghost use Rattle.judy_model.specs.Counts as counts;
ghost use Rattle.judy_sl.specs.Arenas.{world_of, map_of, IsArena};
ghost use Rattle.judy_sl.specs.Counted.{LeadsOn, keys_behind, keys_behind_all, AreCounted, StandsWith};
ghost use Rattle.judy_sl.specs.Firsts.{AreFirsts};
ghost use Rattle.judy_sl.specs.Listed.{AreListed, IsListOf};
ghost use Rattle.judy_sl.specs.Nth.{before_entry, KeysFit, IsChosen, AreReadFor, IsSpotIn, IsSpotOf, IsListedSpot, IsNthBehind, IsNth};
ghost use Rattle.judy_tails.specs.Writers.{StaysBeyond, WasGiven};
ghost use Rattle.judy_sl.specs.Scans.{value_found, IsFront};

use crate::arena::Arena;
use crate::child::ChildRef;
use crate::counts::list_of;
use crate::judysl::{JudySl, StringsOf};
use crate::keys::{KeyBuf, KeyLength};
use crate::measure::Measure;
use crate::pieces::push_piece;
use judy_sums::{LevelSums, Sums};
use judy_tails::{KeyEnd, KeyFront, KeyHolder, KeyWriter};
use judy_word::{Entries, WordMap};

impl JudySl {
    /// The value of the `n`-th key in ascending order, counted from 1; that key is then in the buffer, whatever was
    /// there before. `None` for 0, and for an `n` above the number of keys (both this project's own), and the buffer
    /// stays. It asks for no memory. It takes one way down the array: in a level with a list, as the first and each
    /// that has come to 65 entries have, unless memory for that was refused, the entry is sought by halves and in
    /// proportion. In another level the entries up to the key's own are read, from the end that is nearer by the keys
    /// between, and none where one key stands behind each. (This project's own; the manual has counts of words alone.)
    ///
    /// Of the keys `a`, `ab` and `c`, `by_count(2, &mut key)` puts `ab` into `key`.
    pub fn by_count(&self, n: u64, key: &mut KeyBuf) -> Option<u64>
        ensures key { key.new.items ≡ unwrap_or (counts.by_count self.now.map n) key.old.items }
        ensures value { result ≡ value_found self.now.map (counts.by_count self.now.map n) }
    {
        if n == 0 || n > self.len() {
            return None;
        }
        key.clear();
        let mut end = KeyEnd::new(key);
        self.arena.nth(&self.firsts, &self.lists, n - 1, &mut end)
    }
}

impl<L: KeyLength> StringsOf<L> {
    /// The value of the `n`-th key in ascending order, counted from 1; that key then stands at the front of the buffer,
    /// and `len` is its length. `None` for 0, and for an `n` above the number of keys, and both stay. The buffer has
    /// room for the key: [`StringsOf::by_count_len`] tells how much that is, and [`StringsOf::longest`] how much is
    /// always enough. What the buffer has behind the key stays. It asks for no memory, and costs what
    /// [`JudySl::by_count`] does. (This project's own.)
    ///
    ///     let value = names.by_count_in(2, &mut buffer, &mut len);        // &buffer[..len] == b"ab"
    pub fn by_count_in(&self, n: u64, buffer: &mut [u8], len: &mut usize) -> Option<u64>
        requires room { IfSome (counts.by_count self.now.map n)
            (λ found. length found ≤ length buffer.old) }
        ensures key { MatchOption (counts.by_count self.now.map n)
            ((buffer.new ≡ buffer.old) × (len.new ≡ len.old))
            (λ found. IsFront found buffer.old len.new buffer.new) }
        ensures value { result ≡ value_found self.now.map (counts.by_count self.now.map n) }
    {
        if n == 0 || n > self.len() {
            return None;
        }
        let mut key = KeyFront::new(buffer, 0);
        let value = self.arena.nth(&self.firsts, &self.lists, n - 1, &mut key);
        *len = key.len();
        value
    }

    /// How many bytes the `n`-th key in ascending order has, counted from 1. `None` for 0, and for an `n` above the
    /// number of keys. It costs what [`StringsOf::by_count_in`] does. (This project's own.)
    pub fn by_count_len(&self, n: u64) -> Option<usize>
        ensures { result ≡ option_map length (counts.by_count self.now.map n) }
    {
        if n == 0 || n > self.len() {
            return None;
        }
        let mut measure = Measure { len: 0 };
        let _ = self
            .arena
            .nth(&self.firsts, &self.lists, n - 1, &mut measure);
        Some(measure.len)
    }
}

// How many entries of a level are read at a time. It isn't known how many will be needed.
const PAGE: usize = 32;

// A place among the entries of a level, and what stands before the entry there.
#[derive(Clone, Copy)]
struct Mark {
    place: u64,
    before: u64,
}

// An entry of a level, and a place among the keys behind it.
#[derive(Clone, Copy)]
pub struct EntryPlace {
    pub piece: u64,
    pub value: u64,
    pub place: u64,
}

// Where to look next between two places: in proportion to what stands before both, and each third time in the middle.
fn between(low: Mark, high: Mark, most: u64, turn: u64) -> u64
    requires { low.place + 1 < high.place }
    ensures above { low.place < result }
    ensures below { result < high.place }
{
    let span = high.place - low.place;
    let rise = high.before.saturating_sub(low.before);
    let missing = most.saturating_sub(low.before);
    let step = if turn % 3 == 2 || rise == 0 {
        span / 2
    } else {
        missing.saturating_mul(span) / rise
    };
    if step == 0 {
        low.place + 1
    } else if step < span {
        low.place + step
    } else {
        high.place - 1
    }
}

// What stands before the entry at a place of a level: the entries before it, and what the level's list holds below its
// word.
fn before_entry(level: &WordMap, firsts: &Sums, place: u64) -> u64
    requires within { place < map.len level.now.map }
    requires fits { before_entry level.now.map firsts.now place ≤ 4294967295 }
    ensures { result ≡ before_entry level.now.map firsts.now place }
{
    let Some(piece) = level.array().by_count(place + 1) else {
        unreachable!()
    };
    place + firsts.below(piece)
}

// The last entry of a level before which at most so much stands.
fn chosen(level: &WordMap, firsts: &Sums, most: u64) -> Mark
    requires some { 1 ≤ map.len level.now.map }
    requires first { before_entry level.now.map firsts.now 0 ≡ 0 }
    requires fits { (place : ℕ) → place < map.len level.now.map
        → before_entry level.now.map firsts.now place ≤ 4294967295 }
    ensures { IsChosen level.now.map firsts.now most result }
{
    let mut low = Mark {
        place: 0,
        before: 0,
    };
    let mut high = Mark {
        place: level.len(),
        before: level.len().saturating_add(firsts.below(u64::MAX)),
    };
    let mut turn: u64 = 0;
    'search: while high.place - low.place > 1 {
        let place = between(low, high, most, turn);
        let before = before_entry(level, firsts, place);
        if before <= most {
            low = Mark { place, before };
        } else {
            high = Mark { place, before };
        }
        turn = turn.wrapping_add(1);
    }
    low
}

// The entry at a place of a level, and a place among the keys behind it.
fn entry_spot(level: &WordMap, entry: u64, place: u64) -> EntryPlace
    requires within { entry < map.len level.now.map }
    requires fits { entry + 1 < 2 ^ 64 }
    ensures at { counts.by_count level.now.map (entry + 1) ≡ Some result.piece }
    ensures held { map.get level.now.map result.piece ≡ Some result.value }
    ensures place { result.place ≡ place }
{
    let Some((piece, value)) = level.array().by_count_entry(entry + 1) else {
        unreachable!()
    };
    EntryPlace {
        piece,
        value,
        place,
    }
}

// The entry of a level with a list behind which the key at a place stands.
fn listed_spot(level: &WordMap, list: &Sums, place: u64) -> EntryPlace
    requires some { 1 ≤ map.len level.now.map }
    requires few { map.len level.now.map ≤ 4294967295 }
    requires first { before_entry level.now.map list.now 0 ≡ 0 }
    requires fits { (at : ℕ) → at < map.len level.now.map
        → before_entry level.now.map list.now at ≤ 4294967295 }
    ensures { IsListedSpot level.now.map list.now place result }
{
    let mark = chosen(level, list, place);
    entry_spot(level, mark.place, place - mark.before)
}

// The entries of a level from a place on.
pub fn entries_at(level: &WordMap, place: u64) -> Entries<'_>
    requires within { place < map.len level.now.map }
    requires fits { place + 1 < 2 ^ 64 }
    ensures { result ≡ drop place (map.entries level.now.map) }
{
    let Some(piece) = level.array().by_count(place + 1) else {
        unreachable!()
    };
    level.array().iter_from(piece)
}

impl Arena {
    // The entry of some entries behind which the key at a place stands, by how many keys stand behind each entry; where
    // none does, how much of the place is left behind them.
    fn page_spot(&self, page: &[(u64, u64)], place: u64) -> Result<EntryPlace, u64>
        requires is_arena { IsArena self.now }
        requires counted { AreCounted self.now }
        requires leads { All (LeadsOn (world_of self.now)) page.now }
        ensures { AreReadFor (world_of self.now) page.now place result }
    {
        let mut left = place;
        for &(piece, value) in page {
            let keys = self.keys_at(piece, value);
            if left < keys {
                return Ok(EntryPlace {
                    piece,
                    value,
                    place: left,
                });
            }
            left -= keys;
        }
        Err(left)
    }

    // The same of entries that are to come, as they are read page by page.
    fn read_spot(&self, mut entries: Entries<'_>, place: u64) -> EntryPlace
        requires is_arena { IsArena self.now }
        requires counted { AreCounted self.now }
        requires leads { All (LeadsOn (world_of self.now)) entries }
        requires within { place < keys_behind_all (world_of self.now) entries }
        ensures { IsSpotIn (world_of self.now) entries.entry place result }
    {
        let mut page = [(0, 0); PAGE];
        let mut left = place;
        'pages: loop {
            let told = entries.fill(&mut page);
            match self.page_spot(&page[..told], left) {
                Ok(spot) => return spot,
                Err(behind) => left = behind,
            }
        }
    }

    // The same of a level with so many keys behind it, from its end back: what stands behind a page is taken from what
    // stands before the page's end.
    fn read_back(&self, level: &WordMap, keys: u64, place: u64) -> EntryPlace
        requires is_arena { IsArena self.now }
        requires counted { AreCounted self.now }
        requires leads { All (LeadsOn (world_of self.now)) (map.entries level.now.map) }
        requires all { keys ≡ keys_behind_all (world_of self.now) (map.entries level.now.map) }
        requires within { place < keys }
        ensures { IsSpotIn (world_of self.now) (map.entries level.now.map) place result }
    {
        let mut page = [(0, 0); PAGE];
        let mut end = level.len();
        let mut before = keys;
        'pages: loop {
            let start = end.saturating_sub(PAGE as u64);
            let read = (end - start) as usize;
            let next = &mut page[..read];
            let mut entries = entries_at(level, start);
            before -= self.next_keys(&mut entries, next);
            if before <= place {
                let Ok(spot) = self.page_spot(next, place - before) else {
                    unreachable!()
                };
                return spot;
            }
            end = start;
        }
    }

    // The entry of a level behind which the key at a place stands. The level tells how many keys stand behind it: where
    // they are as many as its entries, each entry has one, and the place is the entry's own. Where the level has a list
    // the entry is sought by that, and where there is one entry, all stand behind it. Else the entries are read, from
    // the end where the place is in the upper half of the keys, unless they are one page.
    pub fn spot_at(&self, level: &WordMap, keys: u32, list: Option<&Sums>, place: u64) -> EntryPlace
        requires is_arena { IsArena self.now }
        requires counted { AreCounted self.now }
        requires told { StandsWith (world_of self.now) level.now.map keys }
        requires list { IsListOf (world_of self.now) level.now.map (option_copied list) }
        requires within { place < keys_behind_all (world_of self.now) (map.entries level.now.map) }
        ensures { IsSpotOf (world_of self.now) level.now.map place result }
    {
        let entries = level.len();
        let keys = u64::from(keys);
        if keys == entries {
            return entry_spot(level, place, 0);
        }
        if let Some(list) = list {
            return listed_spot(level, list, place);
        }
        if entries == 1 {
            return entry_spot(level, 0, place);
        }
        if entries <= PAGE as u64 || place < keys / 2 {
            self.read_spot(level.iter(), place)
        } else {
            self.read_back(level, keys, place)
        }
    }

    // Puts what is left of the key at a place behind a child, counted from 0, behind the bytes that a writer has, and
    // answers its value.
    fn nth_behind<K: KeyWriter>(
        &self,
        lists: &LevelSums,
        child: u64,
        place: u64,
        key: &mut K,
    ) -> Option<u64>
        requires is_arena { IsArena self.now }
        requires counted { AreCounted self.now }
        requires listed { AreListed (world_of self.now) lists.now }
        requires within { place < keys_behind (world_of self.now) (suc child) }
        requires begun { (before : List ℕ) × KeysFit (world_of self.now) (suc child) before
            × K.has key.old before }
        ensures found { (before : List ℕ)
            → KeysFit (world_of self.now) (suc child) before → K.has key.old before
            → WasGiven K.has key.new
            (λ after. IsNthBehind (world_of self.now) (suc child) place before after result) }
        ensures beyond { StaysBeyond K.len K.beyond key.old key.new }
    {
        let mut at = child;
        let mut left = place;
        'down: loop {
            match self.child(at) {
                ChildRef::Level(level) => {
                    let list = list_of(lists, at);
                    let spot = self.spot_at(level, self.keys_told(at), list, left);
                    push_piece(key, spot.piece);
                    if spot.piece % 256 == 0 {
                        return Some(spot.value);
                    }
                    at = spot.value;
                    left = spot.place;
                }
                ChildRef::Tail(tail) => {
                    tail.push_to(key);
                    return Some(tail.value());
                }
            }
        }
    }

    // Puts the key at a place, counted from 0, where a writer has no byte yet, and answers its value.
    fn nth<K: KeyWriter>(
        &self,
        firsts: &Sums,
        lists: &LevelSums,
        place: u64,
        key: &mut K,
    ) -> Option<u64>
        requires is_arena { IsArena self.now }
        requires counted { AreCounted self.now }
        requires listed { AreListed (world_of self.now) lists.now }
        requires firsts { AreFirsts (map_of self.now) firsts.now }
        requires few { map.len (map_of self.now) ≤ 4294967295 }
        requires within { place < map.len (map_of self.now) }
        requires none { K.has key.old [] }
        ensures found { WasGiven K.has key.new (IsNth (map_of self.now) place result) }
        ensures beyond { StaysBeyond K.len K.beyond key.old key.new }
    {
        let mark = chosen(&self.root, firsts, place);
        let Some((piece, value)) = self.root.array().by_count_entry(mark.place + 1) else {
            unreachable!()
        };
        push_piece(key, piece);
        if piece % 256 == 0 {
            return Some(value);
        }
        self.nth_behind(lists, value, place - mark.before, key)
    }
}
