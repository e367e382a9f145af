//! All levels and tails of an array: the first level, the others in a list, and the tails in records by their length.

ghost use Rattle.std.specs.Prelude.{◌≡◌, ◌≤◌, [], length, Some, None, OnOk, OnErr, IsSome};
ghost use Rattle.std.specs.Borrow.{sem};
ghost use Rattle.std.specs.Option.{option_copied_mut};
ghost use Rattle.std.specs.FinMap as map;
ghost use Rattle.judy_model.specs.Arrays.{empty_array};
ghost use Rattle.judy_sl.specs.Pieces.{pieces, IsText, EndsWell};
ghost use Rattle.judy_sl.specs.Children.{IsRefTo, IsTaken};
ghost use Rattle.judy_sl.specs.Arenas.{world_of, child_at, map_of, IsArena};
ghost use Rattle.judy_sl.specs.Places.{place_value, place_with, IsPlace, IsLevelPlace, LendsPlace, LendsHere};
ghost use Rattle.judy_tails.specs.Tails.{no_tails};
ghost use Rattle.judy_sl.specs.declared.arena.Way.TheVariants.{At};
ghost use Rattle.judy_sl.specs.Ways.{is_below, place_in, seat_in, left_of, ends_first, clashes, passed_from, levels_passed, IsOnWay, IsWay};
ghost use Rattle.judy_sl.specs.Strings.{IsString};

use crate::child::{ChildRef, is_level, put_in};
use crate::level_list::LevelList;
use crate::passed::Notes;
use crate::pieces::first_piece;
use judy_tails::Tails;
use judy_word::WordMap;
use std::alloc::{AllocError, Global};

// The value of a piece that isn't final is the place of its child. The lowest byte of a place tells whether a level
// stands there or a tail, and the others where in its list.
#[derive(Drop)]
pub struct Arena {
    pub root: WordMap,
    pub levels: LevelList,
    pub tails: Tails,
    pub alloc: Global,
}

// Where a value stands: under a piece of the first level, or under a piece of the child at a place; a tail has one
// value, for any piece.
#[derive(Clone, Copy)]
pub enum Place {
    Root(u64),
    Below(u64, u64),
}

// How the way of a key ends: where its value stands; at a place of a level that has no entry for the next piece; or, by
// the entry at a place, at a tail of another key. The last number is how many bytes of the key are left there.
#[derive(Clone, Copy)]
pub enum Way {
    At(Place),
    Gap(Place, usize),
    Clash(Place, u64, usize),
}

impl Place {
    // Whether it is below the first level.
    pub fn is_below(self) -> bool
        ensures { result ≡ is_below self }
    {
        matches!(self, Place::Below(_, _))
    }
}

impl Way {
    // Whether it ends in the first level, which has no entry for the key's first piece.
    pub fn ends_first(self) -> bool
        ensures { result ≡ ends_first self }
    {
        matches!(self, Way::Gap(Place::Root(_), _))
    }

    // Whether it ends at a tail of another key.
    pub fn clashes(self) -> bool
        ensures { result ≡ clashes self }
    {
        matches!(self, Way::Clash(_, _, _))
    }
}

// The place of a piece of the first level, or of the level of a child.
pub fn place_in(child: Option<u64>, piece: u64) -> Place
    ensures { result ≡ place_in child piece }
{
    match child {
        None => Place::Root(piece),
        Some(at) => Place::Below(at, piece),
    }
}

impl Arena {
    // The arena without an entry.
    pub fn new(alloc: Global) -> Arena
        ensures levels { result.levels.slots ≡ [] }
        ensures tails { result.tails ≡ no_tails }
        ensures root { result.root ≡ empty_array 18446744073709551615 }
    {
        Arena {
            root: WordMap::unbounded(alloc),
            levels: LevelList::new(alloc),
            tails: Tails::new(alloc),
            alloc,
        }
    }

    // What stands at a place. The levels aren't looked into for a tail, nor a record for a level.
    pub fn child(&self, at: u64) -> ChildRef<'_>
        requires { IsTaken (child_at self.now at) }
        ensures { IsRefTo (child_at self.now at) result }
    {
        if is_level(at) {
            ChildRef::Level(self.levels.words((at / 256) as usize))
        } else {
            ChildRef::Tail(self.tails.at(at))
        }
    }

    // The way of the key. Bytes that are no key have some way too, but never to a value: a whole piece with its lowest
    // byte zero is found by its test, and others with a zero stand in no level and in no tail. The levels that it
    // passes are told of.
    pub fn walk<N: Notes>(&self, key: &[u8], notes: &mut N) -> Way
        requires is_arena { IsArena self.now }
        requires ends { EndsWell key.now }
        requires begins { N.has notes.old [] }
        ensures way { IsText key.now → IsWay self.now key.now result }
        ensures passed { IsText key.now
            → N.has notes.new (levels_passed (world_of self.now) key.now) }
        ensures there { (place : Place) → result ≡ At place → IsString key.now }
    {
        self.walk_on(key, &self.root, None, key.len(), notes)
    }

    // The same from a level on, the first or that of a child, to which the key leads; so many bytes are left of it.
    pub fn walk_on<'a, N: Notes>(
        &'a self,
        key: &[u8],
        top: &'a WordMap,
        under: Option<u64>,
        left: usize,
        notes: &mut N,
    ) -> Way
        requires is_arena { IsArena self.now }
        requires ends { EndsWell key.now }
        requires within { left ≤ length key.now }
        requires on { IsOnWay (world_of self.now) key.now (seat_in under) top.now.map
            (left_of key.now left) }
        requires begins { N.has notes.old [] }
        ensures way { IsText key.now → IsWay self.now key.now result }
        ensures passed { IsText key.now → N.has notes.new
            (passed_from (world_of self.now) (seat_in under) (pieces (left_of key.now left))) }
        ensures there { (place : Place) → result ≡ At place → IsString key.now }
    {
        let mut level = top;
        let mut child = under;
        let mut rest = &key[key.len() - left..];
        while rest.len() >= 8 {
            let piece = first_piece(rest);
            if piece % 256 == 0 {
                return Way::Gap(place_in(child, piece), rest.len());
            }
            let Some(at) = level.get(piece) else {
                return Way::Gap(place_in(child, piece), rest.len());
            };
            rest = &rest[8..];
            match self.child(at) {
                ChildRef::Level(next) => {
                    notes.note(at);
                    level = next;
                    child = Some(at);
                }
                ChildRef::Tail(tail) => {
                    return if tail.is(rest) {
                        Way::At(Place::Below(at, 0))
                    } else {
                        Way::Clash(place_in(child, piece), at, rest.len())
                    };
                }
            }
        }
        let piece = first_piece(rest);
        match level.get(piece) {
            Some(_) => Way::At(place_in(child, piece)),
            None => Way::Gap(place_in(child, piece), rest.len()),
        }
    }

    // The value of the key; bytes that are no key have none, as in `walk`.
    pub fn get(&self, key: &[u8]) -> Option<u64>
        requires is_arena { IsArena self.now }
        requires ends { EndsWell key.now }
        ensures { result ≡ map.get (map_of self.now) key.now }
    {
        let mut level = &self.root;
        let mut rest = key;
        while rest.len() >= 8 {
            let piece = first_piece(rest);
            if piece % 256 == 0 {
                return None;
            }
            let at = level.get(piece)?;
            rest = &rest[8..];
            match self.child(at) {
                ChildRef::Level(next) => level = next,
                ChildRef::Tail(tail) => {
                    return if tail.is(rest) {
                        Some(tail.value())
                    } else {
                        None
                    };
                }
            }
        }
        level.get(first_piece(rest))
    }

    // The slot of a value that is there.
    pub fn slot(&mut self, place: Place) -> Option<&mut u64>
        requires { IsPlace self.old place }
        ensures* writes_back { sem 𝓛 (LendsPlace self.entry place result) }
        ensures value { option_copied_mut result ≡ place_value self.old place }
    {
        match place {
            Place::Root(piece) => self.root.slot(piece),
            Place::Below(at, piece) => {
                if is_level(at) {
                    self.levels.words_mut((at / 256) as usize).slot(piece)
                } else {
                    Some(self.tails.slot(at))
                }
            }
        }
    }

    // The same where it is known to be there.
    pub fn lend(&mut self, place: Place) -> &mut u64
        requires { IsSome (place_value self.old place) }
        ensures* writes_back { sem 𝓛 (LendsHere self.entry place result) }
        ensures value { place_value self.old place ≡ Some result.now }
    {
        match self.slot(place) {
            Some(slot) => slot,
            None => unreachable!(),
        }
    }

    // Puts a value into a level at a place, or writes it there.
    pub fn enter(&mut self, place: Place, value: u64) -> Result<(), AllocError>
        requires place { IsLevelPlace self.old place }
        ensures entered { OnOk result (self.new ≡ place_with self.old place value) }
        ensures unchanged { OnErr result (self.new ≡ self.old) }
    {
        match place {
            Place::Root(piece) => put_in(&mut self.root, piece, value),
            Place::Below(at, piece) => {
                put_in(self.levels.words_mut((at / 256) as usize), piece, value)
            }
        }
    }
}
