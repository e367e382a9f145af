//! A key read piece by piece where it stands, so that one of any length needs no buffer.

ghost use Rattle.std.specs.Prelude.{◌≡◌, ◌↔◌, ◌<◌, ◌==◌, ℕ, List, suc, Some, None, IfSome, MatchOption, IsTrue, length, take, slice_get};
ghost use Rattle.std.specs.FinMap as map;
ghost use Rattle.std.specs.Option.{option_map};
ghost use Rattle.judy_model.specs.Counts as counts;
ghost use Rattle.judy_model.specs.DumpText.{shared_length};
ghost use Rattle.judy_sl.specs.Pieces.{piece_of, IsText};
ghost use Rattle.judy_sl.specs.Arenas.{world_of, map_of, IsArena};
ghost use Rattle.judy_sl.specs.Behind.{map_behind};
ghost use Rattle.judy_sl.specs.Counted.{keys_behind, AreCounted};
ghost use Rattle.judy_sl.specs.Listed.{AreListed};
ghost use Rattle.judy_sl.specs.TextsLeft.{left_behind};
ghost use Rattle.judy_sl.specs.Readers.{IsSpot, IsStand, IsStep, left_at, level_keys, pair_left, shared_left, ends_left};
ghost use Rattle.judy_sl.specs.Scans.{value_found};
ghost use Rattle.judy_sl.specs.Strings.{IsString};

use crate::arena::Arena;
use crate::child::ChildRef;
use crate::counts::list_of;
use crate::judysl::StringsOf;
use crate::keys::KeyLength;
use crate::pieces::first_piece;
use crate::text_reader::TextReader;
use judy_sums::{LevelSums, Sums};
use judy_word::WordMap;
use std::marker::Model;

// A place among the keys behind a level, with how many these are, as the level tells, and its list, if it has one.
#[derive(Drop)]
pub struct LevelSpot<'a> {
    level: &'a WordMap,
    keys: u32,
    list: Option<&'a Sums>,
    place: u64,
}

// Where a reader stands: before the piece of a level behind which its key stands; or within a text, what is left of the
// key, whose value is then known.
#[derive(Drop)]
pub enum Stand<'a> {
    InLevel(LevelSpot<'a>),
    InText(TextReader<'a>, u64),
}

// A piece, and where a reader stands behind it.
#[derive(Drop)]
pub struct Step<'a> {
    piece: u64,
    stand: Stand<'a>,
}

/// How much other bytes share with a key.
#[derive(Clone, Copy)]
pub struct Shared {
    /// How many of the first bytes.
    pub bytes: usize,
    /// Whether that is the whole key, so that the bytes begin with it.
    pub ends: bool,
}

/// A key of an array, read where it stands, eight bytes at a time: to its callers what is left of the key, and the
/// key's value. So a key of any length needs no buffer, and nothing asks for memory. To read a whole key takes one way
/// down the array, as [`StringsOf::by_count_in`] does. (This project's own.)
#[derive(Drop)]
pub struct KeyReader<'a> {
    arena: &'a Arena,
    lists: &'a LevelSums,
    stand: Stand<'a>,
}

impl<'a> Model for KeyReader<'a> {
    ghost use Rattle.judy_sl.specs.Readers.{KeyLeft, left_code};

    ghost Value = { KeyLeft };

    ghost coded = { left_code };

    ghost use Rattle.judy_sl.specs.Arenas.{world_of};
    ghost use Rattle.judy_sl.specs.Readers.{left_at, IsReader};

    ghost view = { λ r. left_at (world_of r.arena.now) r.stand };

    ghost invariant = { λ r. IsReader r.arena.now r.lists.now r.stand };
}

impl Arena {
    // The first piece of the key at a place behind a level, and where a reader stands behind it.
    fn first_step<'a>(&'a self, lists: &'a LevelSums, spot: &LevelSpot<'a>) -> Step<'a>
        requires is_arena { IsArena self.now }
        requires counted { AreCounted self.now }
        requires listed { AreListed (world_of self.now) lists.now }
        requires spot { IsSpot (world_of self.now) spot.now }
        ensures { IsStep (world_of self.now) (pair_left (slice_get
            (level_keys (world_of self.now) spot.now.level.now.map) spot.now.place)) result }
    {
        let entry = self.spot_at(spot.level, spot.keys, spot.list, spot.place);
        if entry.piece % 256 == 0 {
            return Step {
                piece: entry.piece,
                stand: Stand::InText(TextReader::ended(), entry.value),
            };
        }
        Step {
            piece: entry.piece,
            stand: self.stand_behind(lists, entry.value, entry.place),
        }
    }

    // Where a reader stands of what is left of the key at a place behind a child.
    fn stand_behind<'a>(&'a self, lists: &'a LevelSums, at: u64, place: u64) -> Stand<'a>
        requires is_arena { IsArena self.now }
        requires counted { AreCounted self.now }
        requires listed { AreListed (world_of self.now) lists.now }
        requires within { place < keys_behind (world_of self.now) (suc at) }
        ensures stands { IsStand (world_of self.now) result }
        ensures left { left_at (world_of self.now) result
            ≡ pair_left (slice_get (map.entries (map_behind (world_of self.now) (suc at))) place) }
    {
        match self.child(at) {
            ChildRef::Level(level) => Stand::InLevel(LevelSpot {
                level,
                keys: self.keys_told(at),
                list: list_of(lists, at),
                place,
            }),
            ChildRef::Tail(tail) => Stand::InText(TextReader::new(tail.words()), tail.value()),
        }
    }

    // The value of the key that is left to a reader, of this array or another one; none where nothing is left.
    fn get_read(&self, reader: KeyReader<'_>) -> Option<u64>
        requires { IsArena self.now }
        ensures { result ≡ value_found (map_of self.now) reader.entry.left }
    {
        reader.string_law();
        let mut key = reader;
        let mut level = &self.root;
        'pieces: while let Some(piece) = key.next_piece() {
            let found = level.get(piece)?;
            if piece % 256 == 0 {
                return Some(found);
            }
            match self.child(found) {
                ChildRef::Level(next) => level = next,
                ChildRef::Tail(tail) => {
                    return if key.meets(TextReader::new(tail.words())) {
                        Some(tail.value())
                    } else {
                        None
                    };
                }
            }
        }
        None
    }
}

// How many of its first eight bytes a text shares with others, by its first piece.
fn shared_in(piece: u64, bytes: &[u8]) -> usize
    ensures { (text : List ℕ) → IsText text → piece ≡ piece_of text
        → result ≡ shared_length (take 8 text) bytes.now }
{
    if bytes.len() >= 8 && piece % 256 != 0 && piece == first_piece(bytes) {
        return 8;
    }
    let mut shared = 0;
    'bytes: for byte in piece.to_be_bytes() {
        let Some(other) = bytes.get(shared) else {
            return shared;
        };
        if byte == 0 || byte != *other {
            return shared;
        }
        shared += 1;
    }
    shared
}

impl<'a> KeyReader<'a> {
    /// Reads the next eight bytes as a piece, the number that they spell, the first byte the highest. The last piece of
    /// a key has fewer than eight, maybe none, and zeros in their place: so its lowest byte is zero, as that of no
    /// other one is. `None` behind the last piece.
    pub fn next_piece(&mut self) -> Option<u64>
        ensures piece { result ≡ option_map piece_of self.old.left }
        ensures left { self.new.left ≡ left_behind self.old.left }
        ensures value { self.new.value ≡ self.old.value }
        ensures is_string { IfSome self.old.left IsString }
    {
        match &mut self.stand {
            Stand::InText(text, _) => text.next_piece(),
            Stand::InLevel(spot) => {
                let step = self.arena.first_step(self.lists, spot);
                self.stand = step.stand;
                Some(step.piece)
            }
        }
    }

    /// The key's value. It reads on as far as it must, to the end at most, and nothing where the end was read.
    pub fn value(self) -> u64
        ensures { result ≡ self.entry.value }
    {
        let mut reader = self;
        'pieces: loop {
            if let Stand::InText(_, value) = reader.stand {
                return value;
            }
            reader.next_piece();
        }
    }

    /// How many of the first bytes are those of what is left of the key, and whether that ends there. It reads no
    /// further than the piece in which the two part, or the key ends. Where nothing is left, none is shared.
    ///
    /// Of the key `10.1.`, `shared_with(b"10.1.2.3")` finds 5 bytes, and the key ends there.
    pub fn shared_with(&mut self, bytes: &[u8]) -> Shared
        ensures bytes { result.bytes ≡ shared_left self.old.left bytes.now }
        ensures ends { result.ends ≡ ends_left self.old.left bytes.now }
        ensures value { self.new.value ≡ self.old.value }
    {
        let mut rest = bytes;
        'pieces: while let Some(piece) = self.next_piece() {
            let same = shared_in(piece, rest);
            if same < 8 {
                return Shared {
                    bytes: bytes.len() - rest.len() + same,
                    ends: piece.to_be_bytes()[same] == 0,
                };
            }
            rest = &rest[8..];
        }
        Shared {
            bytes: bytes.len() - rest.len(),
            ends: false,
        }
    }

    // Whether what is left of the key is what is left of a text.
    fn meets(self, text: TextReader<'_>) -> bool
        ensures { IsTrue result ↔ self.entry.left ≡ text.entry }
    {
        let mut key = self;
        let mut other = text;
        'pieces: while let Some(piece) = key.next_piece() {
            let Some(own) = other.next_piece() else {
                return false;
            };
            if own != piece {
                return false;
            }
        }
        other.next_piece().is_none()
    }

    // What is left is a string: a law, for a caller whose proof is to know it.
    fn string_law(&self)
        ensures { IfSome self.now.left IsString }
    {
        let _stand = &self.stand;
    }
}

impl<L: KeyLength> StringsOf<L> {
    /// A reader at the `n`-th key in ascending order, counted from 1, which has all of it to read. `None` for 0, and
    /// for an `n` above the number of keys, as [`StringsOf::by_count_in`] answers. It takes a few steps: the way down
    /// the array is the reader's. (This project's own.)
    pub fn read_nth(&self, n: u64) -> Option<KeyReader<'_>>
        ensures { MatchOption result (counts.by_count self.now.map n ≡ None)
            (λ reader. (reader.left ≡ counts.by_count self.now.map n)
            × (value_found self.now.map reader.left ≡ Some reader.value)) }
    {
        if n == 0 || n > self.len() {
            return None;
        }
        Some(KeyReader {
            arena: &self.arena,
            lists: &self.lists,
            stand: Stand::InLevel(LevelSpot {
                level: &self.arena.root,
                keys: self.len() as u32,
                list: Some(&self.firsts),
                place: n - 1,
            }),
        })
    }

    /// The value of the key that is left to a reader, of this array or another one, and `None` where it is absent; also
    /// where nothing is left. It is [`StringsOf::get`] of a key that stands in no buffer: it takes one way down both
    /// arrays, piece by piece. (This project's own.)
    ///
    ///     // Which keys of one array are in another:
    ///     let mut both = 0;
    ///     for n in 1..=one.len() {
    ///         let Some(key) = one.read_nth(n) else { break };
    ///         both += u64::from(other.get_read(key).is_some());
    ///     }
    pub fn get_read(&self, reader: KeyReader<'_>) -> Option<u64>
        ensures { result ≡ value_found self.now.map reader.entry.left }
    {
        self.arena.get_read(reader)
    }
}
