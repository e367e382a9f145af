//! The keys of an array one by one, by ascending key.

ghost use Rattle.std.specs.Prelude.{◌≡◌, ◌≤◌, MatchOption, OnOk, length};
ghost use Rattle.std.specs.FinMap as map;
ghost use Rattle.judy_model.specs.Arrays.{with_map};
ghost use Rattle.judy_model.specs.declared.keys.TheConstants.{LONGEST_KEY};
ghost use Rattle.judy_sl.specs.Arenas.{AreWithin};
ghost use Rattle.judy_string_sets.specs.Walks.{passes, picked, IsTaken};

use crate::which::Which;
use judy_model::keys::LONGEST_KEY;
use judy_sl::{KeyCursor, KeyLength, SlError, StringsOf};
use std::marker::Model;

// A walk by a cursor, and whether it has begun: to its callers the keys that are still to come, and the one that was
// taken last.
#[derive(Drop)]
pub struct CursorWalk<'a> {
    cursor: KeyCursor<'a>,
    begun: bool,
}

impl<'a> Model for CursorWalk<'a> {
    ghost use Rattle.judy_sl.specs.Cursors.{Standing, standing_code};
    ghost use Rattle.judy_string_sets.specs.Walks.{ahead};

    ghost Value = { Standing };

    ghost coded = { standing_code };

    ghost view = { λ a. ahead a.begun a.cursor };
}

// How a walk goes up through an array.
#[derive(Drop)]
pub enum Way<'a> {
    // By a cursor, where no key has more than 1,024 bytes.
    ByCursor(CursorWalk<'a>),
    // By the place of the key that was taken last, counted from 1, and 0 before the first. Keys have any length then,
    // and are read where they stand.
    ByPlace(u64),
}

/// A walk up through an array: to its callers it is the map of the keys that are still to come, each with its value,
/// and the key that was taken last, which is empty before the first. It asks for no memory. By places each step takes a
/// way down the array, and to ask of the key another one.
#[derive(Drop)]
pub struct Keys<'a, L: KeyLength> {
    array: &'a StringsOf<L>,
    way: Way<'a>,
}

impl<'a, L: KeyLength> Model for Keys<'a, L> {
    ghost use Rattle.judy_sl.specs.Cursors.{Standing, standing_code};

    ghost Value = { Standing };

    ghost coded = { standing_code };

    ghost use Rattle.judy_string_sets.specs.Ways.{standing, IsInside};

    ghost view = { λ a. standing a.array.now.map a.way };

    ghost invariant = { λ a. IsInside a.array.now.map a.way };
}

impl<'a> CursorWalk<'a> {
    // All keys of an array none of which has more than 1,024 bytes.
    fn of<L: KeyLength>(array: &'a StringsOf<L>) -> CursorWalk<'a>
        requires { AreWithin LONGEST_KEY array.now.map }
        ensures { result.map ≡ array.now.map }
    {
        CursorWalk {
            cursor: array.short_cursor(&[]),
            begun: false,
        }
    }

    // The key that was taken last.
    fn key(&self) -> &[u8]
        ensures { result.now ≡ self.now.key }
    {
        self.cursor.key()
    }

    // Takes the next key, and answers its value. `None` where none is left.
    fn next(&mut self) -> Option<u64>
        ensures { MatchOption result (self.old.map ≡ map.empty)
            (λ value. IsTaken self.old.map self.new.key value self.new.map) }
    {
        if self.begun {
            return self.cursor.next();
        }
        self.begun = true;
        self.cursor.first()
    }
}

impl<'a, L: KeyLength> Keys<'a, L> {
    /// All keys of an array.
    pub fn of(array: &'a StringsOf<L>) -> Keys<'a, L>
        ensures { result.map ≡ array.now.map }
    {
        if array.longest() <= LONGEST_KEY {
            Keys {
                array,
                way: Way::ByCursor(CursorWalk::of(array)),
            }
        } else {
            Keys {
                array,
                way: Way::ByPlace(0),
            }
        }
    }

    /// Takes the next key, and answers its value. `None` where none is left.
    pub fn next(&mut self) -> Option<u64>
        ensures { MatchOption result (self.old.map ≡ map.empty)
            (λ value. IsTaken self.old.map self.new.key value self.new.map) }
    {
        match &mut self.way {
            Way::ByCursor(walk) => walk.next(),
            Way::ByPlace(place) => {
                let _most = self.array.len();
                let key = self.array.read_nth(*place + 1)?;
                *place += 1;
                Some(key.value())
            }
        }
    }

    /// Whether another array has the key that was taken last.
    pub fn is_in(&self, other: &StringsOf<L>) -> bool
        ensures { result ≡ map.contains_key other.now.map self.now.key }
    {
        match &self.way {
            Way::ByCursor(walk) => other.get(walk.key()).is_some(),
            Way::ByPlace(place) => match self.array.read_nth(*place) {
                Some(key) => other.get_read(key).is_some(),
                None => other.get(&[]).is_some(),
            },
        }
    }

    /// Whether the key that was taken last is meant beside another array.
    pub fn is_meant(&self, which: Which, other: &StringsOf<L>) -> bool
        ensures { result ≡ passes which other.now.map self.now.key }
    {
        match which {
            Which::All => true,
            Which::Common => self.is_in(other),
            Which::Alone => !self.is_in(other),
        }
    }

    /// Puts the key that was taken last into an array, with a value. The buffer has room for the key, and holds nothing
    /// that is needed, before or after.
    pub fn put_in(
        &self,
        made: &mut StringsOf<L>,
        value: u64,
        buffer: &mut [u8],
    ) -> Result<(), SlError>
        requires { length self.now.key ≤ length buffer.old }
        ensures put { OnOk result
            (made.new ≡ with_map made.old (map.insert made.old.map self.now.key value)) }
        ensures room { length buffer.new ≡ length buffer.old }
    {
        match &self.way {
            Way::ByCursor(walk) => put(made, walk.key(), value),
            Way::ByPlace(place) => {
                let mut len = 0;
                self.array.by_count_in(*place, buffer, &mut len);
                put(made, &buffer[..len], value)
            }
        }
    }
}

// Puts a key with its value into an array.
fn put<L: KeyLength>(made: &mut StringsOf<L>, key: &[u8], value: u64) -> Result<(), SlError>
    ensures { OnOk result (made.new ≡ with_map made.old (map.insert made.old.map key.now value)) }
{
    let slot = made.ins(key)?;
    *slot = value;
    Ok(())
}

// Takes the next of the keys that are meant beside another array, and answers its value: those before it are passed.
// `None` where none is left.
pub fn next_of<L: KeyLength>(
    keys: &mut Keys<'_, L>,
    which: Which,
    other: &StringsOf<L>,
) -> Option<u64>
    ensures { MatchOption result (picked which keys.old.map other.now.map ≡ map.empty)
        (λ value. IsTaken (picked which keys.old.map other.now.map) keys.new.key value
        (picked which keys.new.map other.now.map)) }
{
    'keys: while let Some(value) = keys.next() {
        if keys.is_meant(which, other) {
            return Some(value);
        }
    }
    None
}
