//! The levels of an array, as seen from outside.

ghost use Rattle.std.specs.Prelude.{◌≡◌, ◌%◌, IfSome, IsSome, length};
ghost use Rattle.judy_sl.specs.Arenas.{map_of, IsArena};
ghost use Rattle.judy_sl.specs.Levels.{IsLevelOf, HasBranch};
ghost use Rattle.judy_sl.specs.Strings.{IsString};

use crate::arena::Arena;
use crate::child::ChildRef;
use crate::judysl::StringsOf;
use crate::keys::KeyLength;
use crate::pieces::first_piece;
use judy_word::{JudyL, WordMap};

impl Arena {
    // The level behind the pieces of bytes, eight each.
    fn level(&self, at: &[u8]) -> Option<&WordMap>
        requires is_arena { IsArena self.now }
        requires is_key { IsString at.now }
        requires whole { length at.now % 8 ≡ 0 }
        ensures there { HasBranch (map_of self.now) at.now → IsSome result }
        ensures keys { IfSome result (λ level. IsLevelOf (map_of self.now) at.now level.now.map) }
    {
        let mut level = &self.root;
        let mut rest = at;
        while rest.len() >= 8 {
            let place = level.get(first_piece(rest))?;
            rest = &rest[8..];
            match self.child(place) {
                ChildRef::Level(next) => level = next,
                ChildRef::Tail(_) => return None,
            }
        }
        Some(level)
    }
}

impl<L: KeyLength> StringsOf<L> {
    /// The level behind the bytes `at`, a key of a multiple of eight bytes: its keys are the next pieces of the keys
    /// that begin with `at`, and under the piece in which a key ends stands that key's value; under another piece
    /// stands what only the array itself can follow. `None` where no level stands there, as where no key, or only one,
    /// begins with `at`; the empty `at` has a level always, and so has one with which two keys begin. (This project's
    /// own.)
    pub fn level(&self, at: &[u8]) -> Option<&JudyL>
        requires is_key { L.IsKey at.now }
        requires whole { length at.now % 8 ≡ 0 }
        ensures there { HasBranch self.now.map at.now → IsSome result }
        ensures keys { IfSome result (λ level. IsLevelOf self.now.map at.now level.now.map) }
    {
        match self.arena.level(at) {
            Some(level) => Some(level.array()),
            None => None,
        }
    }
}
