//! How many keys begin with each piece behind wide levels below the first, kept in a list for each as firsts.rt keeps
//! it of the first level. A level gets its list with the entry that makes it wide, and loses it with most of its keys,
//! and where memory is refused until some more have come.

ghost use Rattle.std.specs.Prelude.{◌≡◌, ◌+◌, ◌<◌, ◌≤◌, ◌^◌, ◌/◌, ℕ, suc, true, false, List, Some, None, OnOk, IfOk, IsSome, IsTrue, All, length, take, drop};
ghost use Rattle.std.specs.FinMap as map;
ghost use Rattle.std.specs.FinMap.{FinMap};
ghost use Rattle.judy_model.specs.Keys.{word_order};
ghost use Rattle.judy_sums.specs.Pairs.{sum_of};
ghost use Rattle.judy_sums.specs.Listed.{list_at, AreOthers};
ghost use Rattle.judy_sl.specs.Children.{Level as LevelChild, keys_told, IsLevelChild};
ghost use Rattle.judy_sl.specs.World as world;
ghost use Rattle.judy_sl.specs.Arenas.{world_of, child_at, IsArena};
ghost use Rattle.judy_sl.specs.Behind.{map_behind};
ghost use Rattle.judy_sl.specs.Counted.{LeadsOn, keys_behind, keys_behind_all, AreCounted};
ghost use Rattle.judy_sl.specs.Firsts.{AreFirsts};
ghost use Rattle.judy_sl.specs.Ways.{levels_passed};
ghost use Rattle.judy_sl.specs.Noted.{AreNoted, AreFirstPassed};
ghost use Rattle.judy_sl.specs.Listed.{with_entry, others_begin, IsPageList, IsListing, IsListed, AreListed, IsOff, AreListedBut, IsBegun, AreBegun, GetsList};

use crate::arena::Arena;
use crate::child::ChildRef;
use crate::nth::entries_at;
use crate::passed::Noted;
use crate::pieces::first_piece;
use judy_sums::{LevelSums, Sums};
use judy_word::WordMap;
use std::alloc::AllocError;

// A level behind which no more keys stand has no list.
const FEW: u32 = 32;

// A level has a list where it has more entries than this.
const NARROW: u64 = 64;

// So many entries are read at a time for a list. A level with no more of them that lacks its list gets one with the
// next key,
const READ: u64 = 128;

// and a larger one, whose list was refused memory, when a key has come for each so many of its entries.
const PAID: u64 = 8;

// Whether a level with so many entries and no list gets one.
fn gets_list(lists: &mut LevelSums, entries: u64) -> bool
    ensures wide { 64 < entries → entries ≤ 128 → IsTrue result }
    ensures same { lists.new ≡ lists.old }
{
    entries > NARROW && (entries <= READ || lists.miss(entries / PAID))
}

// Whether others begin with the next piece of a key that has come in, behind a level on its way: they do where the way
// passes more levels, and behind the last one as is told.
fn others_begin(left: usize, beside: bool) -> bool
    ensures { result ≡ others_begin left beside }
{
    if left > 0 { true } else { beside }
}

// Brings the piece of an entry into a list, where more than one key stands behind it. The error is want of memory.
fn list_entry(list: &mut Sums, piece: u64, keys: u64) -> Result<(), AllocError>
    requires absent { map.get list.old piece ≡ None }
    requires few { map.len list.old + 1 < 2 ^ 64 }
    requires fits { sum_of (map.entries list.old) + keys < 2 ^ 64 }
    ensures { OnOk result (list.new ≡ with_entry list.old piece keys) }
{
    if keys > 1 {
        list.add(piece, keys - 1)?;
    }
    Ok(())
}

impl Arena {
    // The level at a place.
    fn level_at(&self, at: u64) -> &WordMap
        requires { IsLevelChild (child_at self.now at) }
        ensures { child_at self.now at
            ≡ LevelChild (keys_told (child_at self.now at)) result.now }
    {
        match self.child(at) {
            ChildRef::Level(level) => level,
            ChildRef::Tail(_) => unreachable!(),
        }
    }

    // Brings as many entries of a level from a place on as a page has places into the list of those behind them. The
    // error is want of memory.
    fn list_page(
        &self,
        list: &mut Sums,
        level: &WordMap,
        start: u64,
        page: &mut [(u64, u64)],
    ) -> Result<(), AllocError>
        requires is_arena { IsArena self.now }
        requires counted { AreCounted self.now }
        requires leads { All (LeadsOn (world_of self.now)) (map.entries level.now.map) }
        requires some { 1 ≤ length page.old }
        requires places { length page.old < 2 ^ 60 }
        requires within { start + length page.old ≤ map.len level.now.map }
        requires few { map.len level.now.map < 2 ^ 64 }
        requires fits { keys_behind_all (world_of self.now) (map.entries level.now.map) < 2 ^ 64 }
        requires behind { IsListing (world_of self.now)
            (drop (start + length page.old) (map.entries level.now.map)) list.old }
        ensures { OnOk result (IsListing (world_of self.now)
            (drop start (map.entries level.now.map)) list.new) }
    {
        entries_at(level, start).fill(page);
        let mut left = page.len();
        'entries: while left > 0 {
            left -= 1;
            let (piece, value) = page[left];
            list_entry(list, piece, self.keys_at(piece, value))?;
        }
        Ok(())
    }

    // The list of a level with so many entries, which are read from the last one on. The error is want of memory. Its
    // page is no caller's.
    #[inline(never)]
    fn read_list(&self, level: &WordMap, entries: u64) -> Result<Sums, AllocError>
        requires is_arena { IsArena self.now }
        requires counted { AreCounted self.now }
        requires stands { (seat : ℕ) × (world_of self.now seat ≡ world.level level.now.map)
            × (keys_behind (world_of self.now) seat < 2 ^ 64) }
        requires entries { entries ≡ map.len level.now.map }
        ensures { IfOk result
            (IsPageList (world_of self.now) (map.entries level.now.map)) }
    {
        let mut list = Sums::new(self.alloc);
        let mut page = [(0, 0); READ as usize];
        let mut end = entries;
        'pages: while end > 0 {
            let start = end.saturating_sub(READ);
            let next = &mut page[..(end - start) as usize];
            self.list_page(&mut list, level, start, next)?;
            end = start;
        }
        Ok(list)
    }

    // Gives the level at a place, which has no list, one where it is wide and that is due. The error is want of memory.
    #[inline(always)]
    fn list_wide(&self, lists: &mut LevelSums, at: u64) -> Result<(), AllocError>
        requires is_arena { IsArena self.now }
        requires counted { AreCounted self.now }
        requires level { IsLevelChild (child_at self.now at) }
        requires fits { keys_behind (world_of self.now) (suc at) < 2 ^ 64 }
        requires bare { list_at lists.old (at / 256) ≡ None }
        ensures right { (list : FinMap word_order ℕ) → list_at lists.new (at / 256) ≡ Some list
            → AreFirsts (map_behind (world_of self.now) (suc at)) list }
        ensures wide { OnOk result
            (GetsList (child_at self.now at) → IsSome (list_at lists.new (at / 256))) }
        ensures others { AreOthers (at / 256) lists.old lists.new }
    {
        let level = self.level_at(at);
        let entries = level.len();
        if !gets_list(lists, entries) {
            return Ok(());
        }
        let list = self.read_list(level, entries)?;
        lists.put((at / 256) as usize, list)
    }

    // Counts a key that has come in behind the level at a place in the level's list. Where others begin with its next
    // piece the list is raised there; else that is a new entry. A level without a list may get it. The error is want of
    // memory, and then the level has none.
    #[inline(always)]
    fn list_more(
        &self,
        lists: &mut LevelSums,
        at: u64,
        rest: &[u8],
        beside: bool,
    ) -> Result<(), AllocError>
        requires is_arena { IsArena self.now }
        requires counted { AreCounted self.now }
        requires off { IsOff true self.now lists.old at rest.now }
        requires begun { IsBegun (world_of self.now) at rest.now beside }
        ensures here { (list : FinMap word_order ℕ) → list_at lists.new (at / 256) ≡ Some list
            → IsListed (world_of self.now) at list }
        ensures wide { OnOk result (32 < keys_told (child_at self.now at)
            → GetsList (child_at self.now at) → IsSome (list_at lists.new (at / 256))) }
        ensures others { AreOthers (at / 256) lists.old lists.new }
    {
        let keys = self.keys_told(at);
        if keys <= FEW {
            return Ok(());
        }
        let index = (at / 256) as usize;
        if lists.get(index).is_none() {
            return self.list_wide(lists, at);
        }
        if beside {
            return lists.raise(index, first_piece(rest));
        }
        Ok(())
    }

    // Counts a key that has gone no more. Where few keys are left, the list goes too.
    #[inline(always)]
    fn list_less(&self, lists: &mut LevelSums, at: u64, rest: &[u8])
        requires is_arena { IsArena self.now }
        requires counted { AreCounted self.now }
        requires off { IsOff false self.now lists.old at rest.now }
        ensures here { (list : FinMap word_order ℕ) → list_at lists.new (at / 256) ≡ Some list
            → IsListed (world_of self.now) at list }
        ensures others { AreOthers (at / 256) lists.old lists.new }
    {
        let index = (at / 256) as usize;
        let Some(_) = lists.get(index) else {
            return;
        };
        if self.keys_told(at) <= FEW {
            lists.forget(index);
        } else {
            lists.lower(index, first_piece(rest));
        }
    }

    // Counts a key in at the list of a level on its way, or out. Where memory is refused the level has no list. Of a
    // key that comes it is told whether others begin with its next piece. It is told to be inlined, with the three
    // above: most levels have no list, and a call that finds that out is dear for each of them.
    #[inline(always)]
    fn list_key(&self, lists: &mut LevelSums, at: u64, rest: &[u8], comes: bool, beside: bool)
        requires is_arena { IsArena self.now }
        requires counted { AreCounted self.now }
        requires off { IsOff comes self.now lists.old at rest.now }
        requires begun { comes ≡ true → IsBegun (world_of self.now) at rest.now beside }
        ensures here { (list : FinMap word_order ℕ) → list_at lists.new (at / 256) ≡ Some list
            → IsListed (world_of self.now) at list }
        ensures others { AreOthers (at / 256) lists.old lists.new }
    {
        if comes {
            let _ = self.list_more(lists, at, rest, beside);
        } else {
            self.list_less(lists, at, rest);
        }
    }

    // The same at the lists of all levels that its way passed, by their places. Behind all but the last one others
    // begin with its next piece, and of the last one it is told.
    fn list_places(
        &self,
        lists: &mut LevelSums,
        places: &[u64],
        key: &[u8],
        comes: bool,
        beside: bool,
    )
        requires is_arena { IsArena self.now }
        requires counted { AreCounted self.now }
        requires but { AreListedBut comes self.now lists.old places.now key.now }
        requires begun { comes ≡ true → AreBegun (world_of self.now) places.now key.now beside }
        ensures { AreListed (world_of self.now) lists.new }
    {
        let mut rest = key;
        let mut left = places.len();
        'places: for at in places {
            rest = &rest[8..];
            left -= 1;
            self.list_key(lists, *at, rest, comes, others_begin(left, beside));
        }
    }

    // The same at the lists of so many levels, the first ones on its way.
    #[inline(never)]
    fn list_way(&self, lists: &mut LevelSums, key: &[u8], count: usize, comes: bool, beside: bool)
        requires is_arena { IsArena self.now }
        requires counted { AreCounted self.now }
        requires deep { count ≤ length (levels_passed (world_of self.now) key.now) }
        requires but { AreListedBut comes self.now lists.old
            (take count (levels_passed (world_of self.now) key.now)) key.now }
        requires begun { comes ≡ true → AreBegun (world_of self.now)
            (take count (levels_passed (world_of self.now) key.now)) key.now beside }
        ensures { AreListed (world_of self.now) lists.new }
    {
        let mut child = None;
        let mut rest = key;
        let mut left = count;
        'levels: while left > 0 {
            left -= 1;
            let at = self.level_under(child, rest);
            rest = &rest[8..];
            self.list_key(lists, at, rest, comes, others_begin(left, beside));
            child = Some(at);
        }
    }

    // The same at the lists of the levels that are noted.
    #[inline(always)]
    pub fn list_noted(
        &self,
        lists: &mut LevelSums,
        noted: Noted<'_>,
        key: &[u8],
        comes: bool,
        beside: bool,
    )
        requires is_arena { IsArena self.now }
        requires counted { AreCounted self.now }
        requires noted { (places : List ℕ) × AreNoted noted places
            × AreFirstPassed (world_of self.now) key.now places
            × AreListedBut comes self.now lists.old places key.now
            × (comes ≡ true → AreBegun (world_of self.now) places key.now beside) }
        ensures { AreListed (world_of self.now) lists.new }
    {
        match noted {
            Noted::Places(places) => self.list_places(lists, places, key, comes, beside),
            Noted::Count(count) => self.list_way(lists, key, count, comes, beside),
        }
    }
}
