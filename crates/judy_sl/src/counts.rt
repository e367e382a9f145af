//! How many keys stand where, by what the levels tell of the keys behind them.

ghost use Rattle.std.specs.Prelude.{◌≡◌, ◌+◌, ◌-◌, ◌<◌, ◌≤◌, ◌^◌, ◌/◌, ℕ, Some, true, false, suc, length, take, drop, All};
ghost use Rattle.std.specs.FinMap as map;
ghost use Rattle.judy_model.specs.Counts as counts;
ghost use Rattle.judy_model.specs.Keys.{byte_order};
ghost use Rattle.std.specs.Option.{option_copied};
ghost use Rattle.judy_sums.specs.Levels.{keys_below, part_len};
ghost use Rattle.judy_sums.specs.Listed.{list_at};
ghost use Rattle.judy_sums.specs.Pairs.{sum_below};
ghost use Rattle.judy_sl.specs.Pieces.{IsText};
ghost use Rattle.judy_sl.specs.Children.{keys_told, IsTaken, IsLevelChild};
ghost use Rattle.judy_sl.specs.Arenas.{world_of, child_at, map_of, IsArena};
ghost use Rattle.judy_sl.specs.Behind.{map_behind, entry_keys};
ghost use Rattle.judy_sl.specs.Counted.{LeadsOn, keys_behind, keys_behind_all, ranked, AreCounted, StandsWith};
ghost use Rattle.judy_sl.specs.Ranks.{ranked_own, ranked_in};
ghost use Rattle.judy_sl.specs.Firsts.{AreFirsts};
ghost use Rattle.judy_sl.specs.Listed.{AreListed, IsListOf};
ghost use Rattle.judy_sl.specs.Scans.{is_beyond};
ghost use Rattle.judy_sl.specs.Strings.{IsString};

use crate::arena::Arena;
use crate::child::{ChildRef, is_level};
use crate::judysl::StringsOf;
use crate::keys::KeyLength;
use crate::pieces::first_piece;
use judy_sums::{LevelSums, Sums};
use judy_word::{Entries, WordMap};
use std::cmp::Ordering;

impl<L: KeyLength> StringsOf<L> {
    /// How many keys there are from `from` to `to`, both included; 0 where `from` is above `to` (this project's own).
    /// Each of the two is a string that may be a key, and needn't be one of the array's. It asks for no memory. It
    /// takes one way down the array as long as both begin with the same bytes, eight at a time, and then two. A level
    /// that has come to 65 entries has a list by which none of them is read, unless memory for that was refused. In
    /// another level the entries on one side of the key's own are read, on the side that has fewer, and none where one
    /// key stands behind each. (This project's own; the manual has counts of words alone.)
    ///
    /// Of the keys `a`, `ab` and `c`, `count(b"a", b"b")` is 2.
    pub fn count(&self, from: &[u8], to: &[u8]) -> u64
        requires from { L.IsKey from.now }
        requires to { L.IsKey to.now }
        ensures { result ≡ counts.count self.now.map from.now to.now }
    {
        self.arena.count(&self.firsts, &self.lists, from, to)
    }
}

// How many entries of a level are read at a time: what stands behind them is looked up at once then, not each after the
// step to it.
const PAGE: usize = 64;

// Whether what compares so to a key counts: what is less does, and where the key itself counts, so does what is the
// same.
fn comes(itself: bool, order: Ordering) -> bool
    ensures { result ≡ is_beyond itself order }
{
    if itself { order.is_le() } else { order.is_lt() }
}

// How many pieces of a level are less than a piece.
fn lesser_in(level: &WordMap, piece: u64) -> u64
    ensures { result ≡ counts.rank level.now.map piece }
{
    if piece == 0 {
        0
    } else {
        level.array().count(0, piece - 1)
    }
}

// How many keys stand behind the entries of a level below a piece, by its list.
fn listed_below(level: &WordMap, list: &Sums, piece: u64) -> u64
    requires { counts.rank level.now.map piece + sum_below (map.entries list.now) piece < 2 ^ 64 }
    ensures { result ≡ counts.rank level.now.map piece + sum_below (map.entries list.now) piece }
{
    lesser_in(level, piece) + list.below(piece)
}

// The list of the level at a place, if it has one.
pub fn list_of(lists: &LevelSums, at: u64) -> Option<&Sums>
    ensures { option_copied result ≡ list_at lists.now (at / 256) }
{
    lists.get((at / 256) as usize)
}

impl Arena {
    // How many keys stand behind the level at a place, as it tells.
    pub fn keys_told(&self, at: u64) -> u32
        requires { IsLevelChild (child_at self.now at) }
        ensures { result ≡ keys_told (child_at self.now at) }
    {
        self.levels.keys((at / 256) as usize)
    }

    // How many keys stand behind an entry of a level: one where its piece is final or it leads to a tail, for which
    // nothing is read, and else as many as its level tells.
    pub fn keys_at(&self, piece: u64, value: u64) -> u64
        requires is_arena { IsArena self.now }
        requires counted { AreCounted self.now }
        requires leads { LeadsOn (world_of self.now) (piece, value) }
        ensures { result ≡ length (entry_keys (world_of self.now) (piece, value)) }
    {
        if piece % 256 == 0 || !is_level(value) {
            return 1;
        }
        u64::from(self.keys_told(value))
    }

    // How many keys stand behind some entries of a level.
    fn page_keys(&self, page: &[(u64, u64)]) -> u64
        requires is_arena { IsArena self.now }
        requires counted { AreCounted self.now }
        requires leads { All (LeadsOn (world_of self.now)) page.now }
        requires fits { keys_behind_all (world_of self.now) page.now < 2 ^ 64 }
        ensures { result ≡ keys_behind_all (world_of self.now) page.now }
    {
        let mut keys = 0;
        for &(piece, value) in page {
            keys += self.keys_at(piece, value);
        }
        keys
    }

    // Reads the next entries of a level, as many as a page has places, and answers how many keys stand behind them.
    pub fn next_keys(&self, entries: &mut Entries<'_>, page: &mut [(u64, u64)]) -> u64
        requires is_arena { IsArena self.now }
        requires counted { AreCounted self.now }
        requires leads { All (LeadsOn (world_of self.now)) entries.old }
        requires places { length page.old < 2 ^ 60 }
        requires there { length page.old ≤ length entries.old }
        requires fits { keys_behind_all (world_of self.now) (take (length page.old) entries.old)
            < 2 ^ 64 }
        ensures page { page.new ≡ take (length page.old) entries.old }
        ensures left { entries.new ≡ drop (length page.old) entries.old }
        ensures keys { result
            ≡ keys_behind_all (world_of self.now) (take (length page.old) entries.old) }
    {
        entries.fill(page);
        self.page_keys(page)
    }

    // How many keys stand behind the first so many of the entries that are to come, as these are read page by page.
    fn read_keys(&self, mut entries: Entries<'_>, count: u64) -> u64
        requires is_arena { IsArena self.now }
        requires counted { AreCounted self.now }
        requires leads { All (LeadsOn (world_of self.now)) entries }
        requires there { count ≤ length entries }
        requires fits { keys_behind_all (world_of self.now) (take count entries) < 2 ^ 64 }
        ensures { result ≡ keys_behind_all (world_of self.now) (take count entries.entry) }
    {
        let mut page = [(0, 0); PAGE];
        let mut left = count as usize;
        let mut keys = 0;
        'pages: while left > 0 {
            let read = left.min(PAGE);
            keys += self.next_keys(&mut entries, &mut page[..read]);
            left -= read;
        }
        keys
    }

    // How many keys stand behind so many entries of a level, the first of those whose pieces aren't less than one.
    fn keys_from(&self, level: &WordMap, piece: u64, count: u64) -> u64
        requires is_arena { IsArena self.now }
        requires counted { AreCounted self.now }
        requires leads { All (LeadsOn (world_of self.now)) (map.entries level.now.map) }
        requires there { counts.rank level.now.map piece + count ≤ map.len level.now.map }
        requires fits { keys_behind_all (world_of self.now) (take count
            (drop (counts.rank level.now.map piece) (map.entries level.now.map))) < 2 ^ 64 }
        ensures { result ≡ keys_behind_all (world_of self.now) (take count
            (drop (counts.rank level.now.map piece) (map.entries level.now.map))) }
    {
        if count == 0 {
            return 0;
        }
        self.read_keys(level.array().iter_from(piece), count)
    }

    // How many keys stand behind the entries of a level from one piece up to another, where it has no list. The level
    // tells how many stand behind it: where they are as many as its entries, each entry has one, and none is read. Else
    // those between are read, or, where they are fewer, the others, which are taken from all.
    fn keys_between(&self, level: &WordMap, keys: u32, low: u64, high: u64) -> u64
        requires is_arena { IsArena self.now }
        requires counted { AreCounted self.now }
        requires told { StandsWith (world_of self.now) level.now.map keys }
        requires rising { low ≤ high }
        ensures { keys_below (part_len (entry_keys (world_of self.now)))
            (map.entries level.now.map) low + result
            ≡ keys_below (part_len (entry_keys (world_of self.now)))
            (map.entries level.now.map) high }
    {
        let all = u64::from(keys);
        let entries = level.len();
        let before = lesser_in(level, low);
        let up_to = lesser_in(level, high);
        let between = up_to - before;
        if all == entries {
            between
        } else if between <= entries / 2 {
            self.keys_from(level, low, between)
        } else {
            let outside = self.keys_from(level, 0, before);
            all - outside - self.keys_from(level, high, entries - up_to)
        }
    }

    // The same of a level that may have a list, by which no entry is read.
    fn keys_counted(
        &self,
        level: &WordMap,
        keys: u32,
        list: Option<&Sums>,
        low: u64,
        high: u64,
    ) -> u64
        requires is_arena { IsArena self.now }
        requires counted { AreCounted self.now }
        requires told { StandsWith (world_of self.now) level.now.map keys }
        requires list { IsListOf (world_of self.now) level.now.map (option_copied list) }
        requires rising { low ≤ high }
        ensures { keys_below (part_len (entry_keys (world_of self.now)))
            (map.entries level.now.map) low + result
            ≡ keys_below (part_len (entry_keys (world_of self.now)))
            (map.entries level.now.map) high }
    {
        let Some(list) = list else {
            return self.keys_between(level, keys, low, high);
        };
        let before = listed_below(level, list, low);
        listed_below(level, list, high) - before
    }

    // How many keys stand behind the entries of a level before a piece, of which the level may have an entry itself:
    // none, where that is the only one.
    fn keys_before(
        &self,
        level: &WordMap,
        keys: u32,
        list: Option<&Sums>,
        piece: u64,
        found: Option<u64>,
    ) -> u64
        requires is_arena { IsArena self.now }
        requires counted { AreCounted self.now }
        requires told { StandsWith (world_of self.now) level.now.map keys }
        requires list { IsListOf (world_of self.now) level.now.map (option_copied list) }
        requires found { found ≡ map.get level.now.map piece }
        ensures { result
            ≡ keys_below (part_len (entry_keys (world_of self.now)))
            (map.entries level.now.map) piece }
    {
        if level.len() == 1 && found.is_some() {
            return 0;
        }
        self.keys_counted(level, keys, list, 0, piece)
    }

    // How many keys behind a child are less than the rest of a key, or, where that itself counts, not above it.
    fn rank_behind(&self, lists: &LevelSums, itself: bool, child: u64, key: &[u8]) -> u64
        requires is_arena { IsArena self.now }
        requires counted { AreCounted self.now }
        requires listed { AreListed (world_of self.now) lists.now }
        requires there { IsTaken (child_at self.now child) }
        requires is_text { IsText key.now }
        requires few { keys_behind (world_of self.now) (suc child) ≤ 4294967295 }
        ensures { result ≡ ranked itself (map_behind (world_of self.now) (suc child)) key.now }
    {
        let mut at = child;
        let mut rest = key;
        let mut lesser = 0;
        loop {
            match self.child(at) {
                ChildRef::Level(level) => {
                    let piece = first_piece(rest);
                    let found = level.get(piece);
                    let list = list_of(lists, at);
                    lesser += self.keys_before(level, self.keys_told(at), list, piece, found);
                    let Some(next) = found else {
                        return lesser;
                    };
                    if rest.len() < 8 {
                        return lesser + u64::from(itself);
                    }
                    at = next;
                    rest = &rest[8..];
                }
                ChildRef::Tail(tail) => return lesser + u64::from(comes(itself, tail.order(rest))),
            }
        }
    }

    // How many keys behind the entry of a key's first piece are less than the key, or, where that itself counts, not
    // above it; none where there is no such entry.
    fn rank_own(&self, lists: &LevelSums, itself: bool, entry: Option<u64>, key: &[u8]) -> u64
        requires is_arena { IsArena self.now }
        requires counted { AreCounted self.now }
        requires listed { AreListed (world_of self.now) lists.now }
        requires is_text { IsText key.now }
        requires leads { (at : ℕ) → entry ≡ Some at → 8 ≤ length key.now → IsTaken
            (child_at self.now at) × (keys_behind (world_of self.now) (suc at) ≤ 4294967295) }
        ensures { result ≡ ranked_own (world_of self.now) itself entry key.now }
    {
        let Some(at) = entry else {
            return 0;
        };
        if key.len() < 8 {
            return u64::from(itself);
        }
        self.rank_behind(lists, itself, at, &key[8..])
    }

    // How many keys are less than a key, or, where that itself counts, not above it: those whose first pieces are less,
    // by the list of these, and those behind its own first piece.
    fn rank(&self, firsts: &Sums, lists: &LevelSums, itself: bool, key: &[u8]) -> u64
        requires is_arena { IsArena self.now }
        requires counted { AreCounted self.now }
        requires listed { AreListed (world_of self.now) lists.now }
        requires firsts { AreFirsts (map_of self.now) firsts.now }
        requires is_key { IsString key.now }
        requires few { map.len (map_of self.now) ≤ 4294967295 }
        ensures { result ≡ ranked itself (map_of self.now) key.now }
    {
        let piece = first_piece(key);
        let lesser = listed_below(&self.root, firsts, piece);
        lesser + self.rank_own(lists, itself, self.root.get(piece), key)
    }

    // How many keys there are from one to another behind a level, by what is left of both; so many keys stand behind
    // it.
    fn count_in(
        &self,
        lists: &LevelSums,
        level: &WordMap,
        keys: u32,
        list: Option<&Sums>,
        from: &[u8],
        to: &[u8],
    ) -> u64
        requires is_arena { IsArena self.now }
        requires counted { AreCounted self.now }
        requires listed { AreListed (world_of self.now) lists.now }
        requires told { StandsWith (world_of self.now) level.now.map keys }
        requires list { IsListOf (world_of self.now) level.now.map (option_copied list) }
        requires from { IsText from.now }
        requires to { IsText to.now }
        ensures { result ≡ ranked_in (world_of self.now) true level.now.map to.now
            - ranked_in (world_of self.now) false level.now.map from.now }
    {
        let low = first_piece(from);
        let high = first_piece(to);
        if high < low {
            return 0;
        }
        let between = self.keys_counted(level, keys, list, low, high);
        let up_to = self.rank_own(lists, true, level.get(high), to);
        let below = self.rank_own(lists, false, level.get(low), from);
        (between + up_to).saturating_sub(below)
    }

    // The same behind a child. As long as both go on by one piece, what is counted stands behind its entry.
    fn count_behind(&self, lists: &LevelSums, child: u64, from: &[u8], to: &[u8]) -> u64
        requires is_arena { IsArena self.now }
        requires counted { AreCounted self.now }
        requires listed { AreListed (world_of self.now) lists.now }
        requires there { IsTaken (child_at self.now child) }
        requires from { IsText from.now }
        requires to { IsText to.now }
        ensures { result ≡ ranked true (map_behind (world_of self.now) (suc child)) to.now
            - ranked false (map_behind (world_of self.now) (suc child)) from.now }
    {
        let mut at = child;
        let mut low = from;
        let mut high = to;
        'down: loop {
            match self.child(at) {
                ChildRef::Level(level) => {
                    let piece = first_piece(low);
                    if piece != first_piece(high) {
                        let list = list_of(lists, at);
                        return self.count_in(lists, level, self.keys_told(at), list, low, high);
                    }
                    let found = level.get(piece);
                    if low.len() < 8 {
                        return u64::from(found.is_some());
                    }
                    let Some(next) = found else {
                        return 0;
                    };
                    at = next;
                    low = &low[8..];
                    high = &high[8..];
                }
                ChildRef::Tail(tail) => {
                    let up_to = u64::from(comes(true, tail.order(high)));
                    let below = u64::from(comes(false, tail.order(low)));
                    return up_to.saturating_sub(below);
                }
            }
        }
    }

    // How many keys there are from one to another: where both begin with the same piece, those behind its entry.
    fn count(&self, firsts: &Sums, lists: &LevelSums, from: &[u8], to: &[u8]) -> u64
        requires is_arena { IsArena self.now }
        requires counted { AreCounted self.now }
        requires listed { AreListed (world_of self.now) lists.now }
        requires firsts { AreFirsts (map_of self.now) firsts.now }
        requires from { IsString from.now }
        requires to { IsString to.now }
        requires few { map.len (map_of self.now) ≤ 4294967295 }
        ensures { result ≡ ranked true (map_of self.now) to.now
            - ranked false (map_of self.now) from.now }
    {
        let piece = first_piece(from);
        if piece != first_piece(to) {
            let up_to = self.rank(firsts, lists, true, to);
            let below = self.rank(firsts, lists, false, from);
            return up_to.saturating_sub(below);
        }
        let found = self.root.get(piece);
        if from.len() < 8 {
            return u64::from(found.is_some());
        }
        match found {
            None => 0,
            Some(at) => self.count_behind(lists, at, &from[8..], &to[8..]),
        }
    }
}
