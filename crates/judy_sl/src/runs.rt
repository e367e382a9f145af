//! The entries of a level that are still to come, and the levels above it, by which a walk goes from key to key without
//! a way down from the first level for each.

ghost use Rattle.std.specs.Prelude.{◌≡◌, ◌++◌, ℕ, List, [], ◌∷◌, IsTrue, IfSome, Some, None, false, drop, All};
ghost use Rattle.std.specs.FinMap.{contains_key, entries};
ghost use Rattle.judy_model.specs.Counts.{rank};
ghost use Rattle.judy_sl.specs.Pieces.{IsText};
ghost use Rattle.judy_sl.specs.Arenas.{world_of, IsArena};
ghost use Rattle.judy_sl.specs.Counted.{LeadsOn};
ghost use Rattle.judy_sl.specs.Runs.{AreBeyond, RunLeads, last_run, IsNextEntry, Stands, HasLevel, IsLevelBehind, IsClimbed, IsBegunAbove};
ghost use Rattle.judy_tails.specs.Writers.{StaysBeyond, WasGiven};

use crate::ahead::Ahead;
use crate::arena::Arena;
use crate::child::{ChildRef, is_level};
use crate::pieces::{first_piece, push_each, push_piece};
use crate::scans::Look;
use arrayvec::ArrayVec;
use judy_model::keys::LONGEST_KEY;
use judy_tails::{KeyHolder, KeyWriter};
use judy_word::WordMap;

// How many levels are kept above one: as many as two keys of 1,024 bytes share. Further down no run is known.
const MOST_ABOVE: usize = LONGEST_KEY / 8;

// The levels above one, the first level first: one for each piece that leads there. No place among them is empty.
pub type Levels<'a> = ArrayVec<Option<&'a WordMap>, MOST_ABOVE>;

// A level, and its entries that are still to come, by ascending piece; with those of the level above it where they are
// kept.
#[derive(Drop)]
pub struct Run<'a> {
    pub level: &'a WordMap,
    pub entries: Ahead<'a>,
}

// The run of the key that was found last, where one was. It is made once and changed in its place.
#[derive(Drop)]
pub struct LastRun<'a> {
    run: Run<'a>,
    known: bool,
}

impl<'a> LastRun<'a> {
    // None yet, in an array with this first level.
    #[inline(always)]
    pub fn none(root: &'a WordMap) -> LastRun<'a>
        ensures { last_run result ≡ None }
    {
        LastRun {
            run: Run {
                level: root,
                entries: Ahead::new(),
            },
            known: false,
        }
    }
}

// Keeps one more level above. Where there is no room for it, the run isn't known from there on.
#[inline(always)]
fn keep_above<'a>(above: &mut Levels<'a>, level: &'a WordMap, known: &mut bool)
    ensures { IsTrue known.new
        → IsTrue known.old × (above.new.items ≡ above.old.items ++ Some level.entry ∷ []) }
{
    if above.try_push(Some(level)).is_err() {
        *known = false;
    }
}

// Passes over the first of a level's entries from a piece on, which is that piece's own.
#[inline(always)]
fn pass_own(level: &WordMap, piece: u64, following: &mut Ahead<'_>)
    requires own { IsTrue (contains_key level.now.map piece) }
    requires from { following.old.0 ≡ drop (rank level.now.map piece) (entries level.now.map) }
    ensures beyond { AreBeyond level.now.map piece following.new.0 }
    ensures above { following.new.1 ≡ following.old.1 }
{
    following.next();
}

// Goes up to a level, whose entries beyond a piece of its own are kept or looked for.
#[inline(always)]
fn go_up_beyond<'a>(level: &'a WordMap, piece: u64, following: &mut Ahead<'a>)
    requires own { IsTrue (contains_key level.now.map piece) }
    requires above { IfSome following.old.1 (AreBeyond level.now.map piece) }
    ensures beyond { AreBeyond level.now.map piece following.new.0 }
    ensures above { following.new.1 ≡ None }
{
    if !following.go_up() {
        following.restart_from(level, piece);
        pass_own(level, piece, following);
    }
}

impl Arena {
    // The level behind so many bytes of a key. The levels above it are kept, and it is told whether all found room.
    fn level_behind<'a>(
        &'a self,
        key: &[u8],
        depth: usize,
        above: &mut Levels<'a>,
        known: &mut bool,
    ) -> &'a WordMap
        requires is_arena { IsArena self.now }
        requires leads { HasLevel (world_of self.now) key.now depth }
        ensures { IsLevelBehind
            (world_of self.now) key.now depth above.new.items known.new result.now.map }
    {
        above.clear();
        *known = true;
        let mut level = &self.root;
        let mut rest = key;
        let left = key.len() - depth;
        while rest.len() > left {
            let Some(at) = level.get(first_piece(rest)) else {
                unreachable!()
            };
            rest = &rest[8..];
            match self.child(at) {
                ChildRef::Level(next) => {
                    keep_above(above, level, known);
                    level = next;
                }
                ChildRef::Tail(_) => unreachable!(),
            }
        }
        level
    }

    // Writes the first of the keys behind an entry, where the writer has the bytes before that, and answers its value.
    // Beyond the entry its level has those of the run, which is then that of the last level on the way, and known where
    // it was, and the levels above that one found room.
    fn climb<'a, K: KeyWriter>(
        &'a self,
        itself: bool,
        entry: (u64, u64),
        above: &mut Levels<'a>,
        last: &mut LastRun<'a>,
        key: &mut K,
    ) -> Option<u64>
        requires is_arena { IsArena self.now }
        requires begun { (from : List ℕ) × IsBegunAbove itself
            (world_of self.now) entry above.old.items last.old K.has key.old from }
        ensures climbed { (from : List ℕ) → IsBegunAbove itself
            (world_of self.now) entry above.old.items last.old K.has key.old from
            → WasGiven K.has key.new
            (IsClimbed itself (world_of self.now) from above.new.items last.new result) }
        ensures leads { All (LeadsOn (world_of self.now)) last.new.run.entries.0 }
        ensures beyond { StaysBeyond K.len K.beyond key.old key.new }
    {
        let (mut piece, mut value) = entry;
        while piece % 256 != 0 {
            push_piece(key, piece);
            match self.child(value) {
                ChildRef::Level(next) => {
                    keep_above(above, last.run.level, &mut last.known);
                    last.run.level = next;
                    last.run.entries.go_down(next);
                    let first = last.run.entries.next()?;
                    piece = first.0;
                    value = first.1;
                }
                ChildRef::Tail(tail) => {
                    tail.push_to(key);
                    return Some(tail.value());
                }
            }
        }
        push_each(key, piece);
        Some(value)
    }

    // The next entry of the run, or where it has none, of the lowest level above that has one beyond the key's own; the
    // run is then of that level.
    fn next_entry<'a>(
        &'a self,
        above: &mut Levels<'a>,
        run: &mut Run<'a>,
        key: &[u8],
    ) -> Option<(u64, u64)>
        requires is_text { IsText key.now }
        requires stands { Stands (world_of self.now) key.now above.old.items run.old }
        ensures { IsNextEntry (world_of self.now) key.now above.new.items run.new result }
    {
        'levels: loop {
            if let Some(entry) = run.entries.next() {
                return Some(entry);
            }
            run.level = above.pop()??;
            let piece = first_piece(&key[8 * above.len()..]);
            go_up_beyond(run.level, piece, &mut run.entries);
        }
    }

    // The values of the tails to which some entries lead, taken together. No one wants them: they are read so that
    // their lines of memory come.
    fn touch(&self, page: &[(u64, u64)]) -> u64
        requires is_arena { IsArena self.now }
        requires leads { All (LeadsOn (world_of self.now)) page.now }
    {
        let mut seen = 0;
        for &(piece, value) in page {
            if piece % 256 != 0 && !is_level(value) {
                seen ^= self.tails.value(value);
            }
        }
        seen
    }

    // Reads entries ahead where none is left of those that were read, with the tails to which they lead: these are
    // waited for side by side so, and not one after another as their keys come.
    fn read_ahead(&self, following: &mut Ahead<'_>)
        requires is_arena { IsArena self.now }
        requires leads { All (LeadsOn (world_of self.now)) following.old.0 }
        ensures { following.new ≡ following.old }
    {
        if following.read_on() {
            let seen = self.touch(following.batch());
            following.keep(seen);
        }
    }

    // Writes the least key above that of a holder, by a way from the first level, and answers its value; where there is
    // none, all stays. A key for which the holder has no room leaves it with the length alone. Where its level is too
    // deep for those above it to be kept, no run is known.
    pub fn seek<'a, K: KeyHolder>(
        &'a self,
        itself: bool,
        above: &mut Levels<'a>,
        last: &mut LastRun<'a>,
        key: &mut K,
    ) -> Option<u64>
        requires is_arena { IsArena self.now }
        requires whole { K.IsWhole key.old }
        requires is_text { IsText (K.bytes key.old) }
        requires leads { RunLeads
            (world_of self.now) (K.bytes key.old) above.old.items (last_run last.old) }
        ensures found { WasGiven K.has key.new (IsClimbed itself
            (world_of self.now) (K.bytes key.old) above.new.items last.new result) }
        ensures beyond { StaysBeyond K.len K.beyond key.old key.new }
    {
        let turn = self.turn(Look::upward(itself), key.as_slice())?;
        let level = self.level_behind(key.as_slice(), turn.depth, above, &mut last.known);
        last.run.level = level;
        last.run.entries.restart_from(level, turn.piece);
        pass_own(level, turn.piece, &mut last.run.entries);
        key.cut(turn.depth);
        self.climb(itself, (turn.piece, turn.value), above, last, key)
    }

    // The same for the key itself left out, by the next entry of the run, or of a level above it. Where no run is known
    // it is such a way.
    pub fn step<'a, K: KeyHolder>(
        &'a self,
        above: &mut Levels<'a>,
        last: &mut LastRun<'a>,
        key: &mut K,
    ) -> Option<u64>
        requires is_arena { IsArena self.now }
        requires whole { K.IsWhole key.old }
        requires is_text { IsText (K.bytes key.old) }
        requires leads { RunLeads
            (world_of self.now) (K.bytes key.old) above.old.items (last_run last.old) }
        ensures found { WasGiven K.has key.new (IsClimbed false
            (world_of self.now) (K.bytes key.old) above.new.items last.new result) }
        ensures beyond { StaysBeyond K.len K.beyond key.old key.new }
    {
        if !last.known {
            return self.seek(false, above, last, key);
        }
        let entry = self.next_entry(above, &mut last.run, key.as_slice())?;
        key.cut(8 * above.len());
        let value = self.climb(false, entry, above, last, key);
        self.read_ahead(&mut last.run.entries);
        value
    }
}
