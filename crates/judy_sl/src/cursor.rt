//! A walk up through an array, which remembers the level in which its key stands, and those above it.

ghost use Rattle.std.specs.Prelude.{◌≡◌, ◌≤◌, length, unwrap_or};
ghost use Rattle.judy_model.specs.Keys.{IsStringKey};
ghost use Rattle.judy_model.specs.declared.keys.TheConstants.{LONGEST_KEY};
ghost use Rattle.judy_model.specs.Neighbours as neighbours;
ghost use Rattle.judy_sl.specs.Arenas.{AreWithin};
ghost use Rattle.judy_sl.specs.Scans.{value_found};

use crate::arena::Arena;
use crate::judysl::{JudySl, StringsOf};
use crate::keys::KeyLength;
use crate::runs::{LastRun, Levels};
use judy_tails::{KeyHolder, KeyRoom};
use std::marker::Model;

/// A walk up through the keys of an array: to its callers it is the array's map, and the bytes at which it stands. A
/// step to the next key begins in the level in which the last one ended, and goes up to the lowest level that has a
/// further entry. Where none of that level's entries is read yet, it may read the next sixteen for the steps to come,
/// and the values of their tails.
/// Only `first`, and a step before which no key was found, begin at the first level. It asks for no memory. (This
/// project's own.)
#[derive(Drop)]
pub struct KeyCursor<'a> {
    arena: &'a Arena,
    key: KeyRoom,
    above: Levels<'a>,
    last: LastRun<'a>,
}

impl<'a> Model for KeyCursor<'a> {
    ghost use Rattle.judy_sl.specs.Cursors.{Standing, standing_code};

    ghost Value = { Standing };

    ghost coded = { standing_code };

    ghost use Rattle.judy_sl.specs.Arenas.{map_of};
    ghost use Rattle.judy_sl.specs.Cursors.{IsCursor};
    ghost use Rattle.judy_sl.specs.Runs.{last_run};
    ghost use Rattle.judy_tails.specs.Rooms.{bytes_in, IsWhole};

    ghost view = { λ a. record { map = map_of a.arena.now; key = bytes_in a.key } };

    ghost invariant = { λ a. IsWhole a.key
        × IsCursor a.arena.now (bytes_in a.key) a.above.items (last_run a.last) };
}

impl<'a> KeyCursor<'a> {
    /// The bytes at which it stands: those with which it was made, and then the key that was found last.
    pub fn key(&self) -> &[u8]
        ensures key { result.now ≡ self.now.key }
        ensures short { length result.now ≤ LONGEST_KEY }
    {
        self.key.as_slice()
    }

    /// Goes to the least key from the bytes at which it stands on, these themselves where they are a key, and answers
    /// its value.
    /// `None` where no key is left, and it stays. It is [`JudySl::first`].
    pub fn first(&mut self) -> Option<u64>
        ensures map { self.new.map ≡ self.old.map }
        ensures key { self.new.key
            ≡ unwrap_or (neighbours.first self.old.map self.old.key) self.old.key }
        ensures value { result
            ≡ value_found self.old.map (neighbours.first self.old.map self.old.key) }
    {
        self.arena
            .seek(true, &mut self.above, &mut self.last, &mut self.key)
    }

    /// Goes to the least key above the bytes at which it stands, and answers its value. `None` where no key is above
    /// them, and it stays. It is [`JudySl::next`].
    pub fn next(&mut self) -> Option<u64>
        ensures map { self.new.map ≡ self.old.map }
        ensures key { self.new.key
            ≡ unwrap_or (neighbours.next self.old.map self.old.key) self.old.key }
        ensures value { result
            ≡ value_found self.old.map (neighbours.next self.old.map self.old.key) }
    {
        self.arena
            .step(&mut self.above, &mut self.last, &mut self.key)
    }
}

impl JudySl {
    /// A walk up through the keys, which stands at the bytes `from`, that may be a key of the array and needn't: its
    /// `first` is the least key from them on, and its `next` the least above them. (This project's own.)
    pub fn cursor(&self, from: &[u8]) -> KeyCursor<'_>
        requires { IsStringKey from.now }
        ensures map { result.map ≡ self.now.map }
        ensures key { result.key ≡ from.now }
    {
        let _arena = &self.arena;
        self.short_cursor(from)
    }
}

impl<L: KeyLength> StringsOf<L> {
    /// The same of an array none of whose keys has more than 1,024 bytes, as [`StringsOf::longest`] tells. (This
    /// project's own.)
    pub fn short_cursor(&self, from: &[u8]) -> KeyCursor<'_>
        requires short { AreWithin LONGEST_KEY self.now.map }
        requires from { IsStringKey from.now }
        ensures map { result.map ≡ self.now.map }
        ensures key { result.key ≡ from.now }
    {
        KeyCursor {
            arena: &self.arena,
            key: KeyRoom::of(from),
            above: Levels::new(),
            last: LastRun::none(&self.arena.root),
        }
    }
}
