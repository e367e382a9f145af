//! How an arena loses a key: the entry at which its way leaves that of every other key is taken out, and what stands
//! below it is given back. None of this asks for memory.

ghost use Rattle.std.specs.Prelude.{◌≡◌, ◌+◌, ◌*◌, ◌<◌, ◌≤◌, ℕ, List, [], length, is_some, IsSome, IsNone, IfSome};
ghost use Rattle.std.specs.FinMap.{get};
ghost use Rattle.judy_sl.specs.Pieces.{pieces, piece_of, IsText};
ghost use Rattle.judy_sl.specs.World.{lookup};
ghost use Rattle.judy_sl.specs.WorldInvariants.{AllLed};
ghost use Rattle.judy_sl.specs.Children.{level_of, IsTaken};
ghost use Rattle.judy_sl.specs.Arenas.{world_of, child_at, IsArena};
ghost use Rattle.judy_sl.specs.Places.{IsLevelPlace};
ghost use Rattle.judy_sl.specs.Ways.{levels_passed};
ghost use Rattle.judy_sl.specs.Counted.{AreCounted};
ghost use Rattle.judy_sl.specs.Listed.{AreLeft};
ghost use Rattle.judy_sl.specs.Shrunk.{place_without, value_removed, IsVacated, IsCut, IsDeeper, IsOrphan, IsCleared, IsShrunk};
ghost use Rattle.judy_sl.specs.Strings.{IsString};

use crate::arena::{Arena, Place, place_in};
use crate::child::{ChildRef, is_level, value_of};
use crate::passed::{LevelNotes, Notes};
use crate::pieces::first_piece;
use judy_word::WordMap;

// Where a key is cut off: at an entry of the last level on its way that has another one, or of the first level; the
// child to which that leads, if the key goes on; how many bytes of the key are left there; and how many levels below
// the first its way has passed.
#[derive(Clone, Copy)]
pub struct Cut {
    pub place: Place,
    pub below: Option<u64>,
    pub left: usize,
    pub depth: usize,
}

// What is told of a key that was taken out: its value, and whether others begin with its first piece.
#[derive(Clone, Copy)]
pub struct Removed {
    pub value: u64,
    pub beside: bool,
}

// The cut that stands once the way has come to a level: the one there, where the level is the first or has another
// entry, and else the one before.
fn deeper(before: Option<Cut>, level: &WordMap, here: Cut) -> Cut
    ensures { IsDeeper before level.now.map here result }
{
    match before {
        None => here,
        Some(cut) => { if level.len() > 1 { here } else { cut } }
    }
}

impl Arena {
    // Where the key is cut off, and its value; `None` where it isn't there. The levels that its way passes are noted.
    fn find_cut<N: Notes>(&self, key: &[u8], notes: &mut N) -> Option<(Cut, u64)>
        requires is_arena { IsArena self.now }
        requires is_key { IsString key.now }
        requires begins { N.has notes.old [] }
        ensures cut { IsCut (world_of self.now) key.now result }
        ensures passed { IsSome result
            → N.has notes.new (levels_passed (world_of self.now) key.now) }
    {
        let mut level = &self.root;
        let mut child = None;
        let mut rest = key;
        let mut cut = None;
        let mut depth = 0;
        while rest.len() >= 8 {
            let piece = first_piece(rest);
            let at = level.get(piece)?;
            rest = &rest[8..];
            let here = Cut {
                place: place_in(child, piece),
                below: Some(at),
                left: rest.len(),
                depth,
            };
            let last = deeper(cut, level, here);
            match self.child(at) {
                ChildRef::Level(next) => {
                    notes.note(at);
                    cut = Some(last);
                    depth += 1;
                    level = next;
                    child = Some(at);
                }
                ChildRef::Tail(tail) => return Some((last, value_of(&tail, rest)?)),
            }
        }
        let piece = first_piece(rest);
        let value = level.get(piece)?;
        let here = Cut {
            place: place_in(child, piece),
            below: None,
            left: 0,
            depth,
        };
        Some((deeper(cut, level, here), value))
    }

    // Takes an entry out of a level.
    fn take_out(&mut self, place: Place)
        requires { IsLevelPlace self.old place }
        ensures { self.new ≡ place_without self.old place }
    {
        match place {
            Place::Root(piece) => {
                self.root.del(piece);
            }
            Place::Below(at, piece) => {
                self.levels.words_mut((at / 256) as usize).del(piece);
            }
        }
    }

    // Gives back what stands at a place, and answers the entries of the level that stood there, where it was one.
    pub fn vacate(&mut self, at: u64) -> Option<WordMap>
        requires taken { IsTaken (child_at self.old at) }
        ensures level { result ≡ level_of (child_at self.old at) }
        ensures vacated { IsVacated self.old self.new at }
    {
        if is_level(at) {
            Some(self.levels.remove((at / 256) as usize))
        } else {
            self.tails.remove(at);
            None
        }
    }

    // Gives back a child to which no entry leads, and what it alone leads to, along the rest of a key.
    fn clear(&mut self, at: u64, key: &[u8])
        requires is_arena { IsArena self.old }
        requires is_text { IsText key.now }
        requires loose { IsOrphan (world_of self.old) at (pieces key.now) }
        ensures cleared { IsCleared self.old self.new }
    {
        let mut at = at;
        let mut rest = key;
        loop {
            let Some(level) = self.vacate(at) else {
                return;
            };
            if rest.len() < 8 {
                return;
            }
            match level.get(first_piece(rest)) {
                Some(next) => at = next,
                None => unreachable!(),
            }
            rest = &rest[8..];
        }
    }

    // Takes a key out, and tells of it; `None` where it wasn't there. No level is left empty but the first, and each
    // place that becomes free is used again. The levels that stay on its way count it no more; they are noted.
    pub fn remove<N: LevelNotes>(&mut self, key: &[u8], passed: &mut N) -> Option<Removed>
        requires is_arena { IsArena self.old }
        requires counted { AreCounted self.old }
        requires led { AllLed (world_of self.old) }
        requires is_key { IsString key.now }
        requires few { length key.now < 8 * N.most + 8 }
        requires begins { N.has passed.old [] }
        ensures answer { value_removed result ≡ lookup (world_of self.old) 0 (pieces key.now) }
        ensures shrunk { IsShrunk self.old self.new key.now }
        ensures beside { IfSome result
            (λ removed. removed.beside ≡ is_some (get self.new.root.map (piece_of key.now))) }
        ensures counted { AreCounted self.new }
        ensures left { IsSome result → (places : List ℕ) × N.has passed.new places
            × AreLeft self.old self.new key.now places }
        ensures unchanged { IsNone result → self.new ≡ self.old }
    {
        let Some((cut, value)) = self.find_cut(key, passed) else {
            return None;
        };
        passed.keep_first(cut.depth);
        self.count_noted(passed.noted(), key, false);
        let beside = cut.place.is_below();
        self.take_out(cut.place);
        if let Some(at) = cut.below {
            self.clear(at, &key[key.len() - cut.left..]);
        }
        Some(Removed { value, beside })
    }
}
