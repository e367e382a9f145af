//! How a scan finds the neighbour of a key: one way down its pieces that keeps the nearest entry beside it, and one way
//! down from that entry to the first key behind it.

ghost use Rattle.std.specs.Prelude.{◌≡◌, ◌≢◌, ◌≤◌, ℕ, List, true, false, IsTrue, IfSome, All, length, take};
ghost use Rattle.std.specs.FinMap as map;
ghost use Rattle.std.specs.FinMap.{contains_key};
ghost use Rattle.std.specs.Option.{option_map};
ghost use Rattle.judy_model.specs.Keys.{IsWord};
ghost use Rattle.judy_tails.specs.Writers.{StaysBeyond, WasGiven};
ghost use Rattle.judy_sl.specs.Pieces.{IsText};
ghost use Rattle.judy_sl.specs.Arenas.{world_of, map_of, IsArena};
ghost use Rattle.judy_sl.specs.Scans.{is_beyond, along_bytes, IsNearestEntry, IsFirstEntry, piece_in, IsEntryOf, turn_or, neighbour_along, value_found, value_in, StandsAt, IsTurn, IsTurnOf, IsBegun, IsScanned, nearest_key, IsFront};

use crate::arena::{Arena, Place, place_in};
use crate::child::ChildRef;
use crate::measure::Measure;
use crate::pieces::{first_piece, fresh_piece, push_each, push_piece};
use crate::scans::{Look, Scanned, Side, Turn};
use judy_tails::{KeyFront, KeyHolder, KeyWriter, Tail};
use judy_word::WordMap;
use std::cmp::Ordering;

impl Side {
    // Which is met first, the rest of a key or a tail.
    fn order(self, rest: &[u8], tail: &Tail) -> Ordering
        requires { IsText rest.now }
        ensures { result ≡ along_bytes self rest.now tail.now.0 }
    {
        let order = tail.order(rest);
        match self {
            Side::Above => order.reverse(),
            Side::Below => order,
        }
    }

    // The entry of a level that is met first beyond a piece.
    fn beyond(self, level: &WordMap, piece: u64) -> Option<(u64, u64)>
        ensures nearest { IsNearestEntry self false level.now.map piece (piece_in result) }
        ensures value { IsEntryOf level.now.map result }
    {
        match self {
            Side::Above => level.array().next_entry(piece),
            Side::Below => level.array().prev_entry(piece),
        }
    }

    // The value of a piece in a level, and the entry that is met first beyond it: from above in one way down the level.
    fn around(self, level: &WordMap, piece: u64) -> (Option<u64>, Option<(u64, u64)>)
        ensures found { result.0 ≡ map.get level.now.map piece }
        ensures nearest { IsNearestEntry self false level.now.map piece (piece_in result.1) }
        ensures value { IsEntryOf level.now.map result.1 }
    {
        match self {
            Side::Above => level.array().around(piece),
            Side::Below => (level.get(piece), level.array().prev_entry(piece)),
        }
    }

    // The entry of a level that is met first from a piece on.
    fn from(self, level: &WordMap, piece: u64) -> Option<(u64, u64)>
        ensures nearest { IsNearestEntry self true level.now.map piece (piece_in result) }
        ensures value { IsEntryOf level.now.map result }
    {
        match self {
            Side::Above => level.array().first_entry(piece),
            Side::Below => level.array().last_entry(piece),
        }
    }

    // The entry of a level that is met first.
    fn end(self, level: &WordMap) -> Option<(u64, u64)>
        requires { (piece : ℕ) → IsTrue (contains_key level.now.map piece) → IsWord piece }
        ensures first { IsFirstEntry self level.now.map (piece_in result) }
        ensures value { IsEntryOf level.now.map result }
    {
        match self {
            Side::Above => level.array().first_entry(0),
            Side::Below => level.array().last_entry(u64::MAX),
        }
    }
}

impl Look {
    // The entry of a key's last level that is met first.
    fn last_entry(self, level: &WordMap, piece: u64) -> Option<(u64, u64)>
        ensures nearest { IsNearestEntry self.side self.itself level.now.map piece
            (piece_in result) }
        ensures value { IsEntryOf level.now.map result }
    {
        if self.itself {
            self.side.from(level, piece)
        } else {
            self.side.beyond(level, piece)
        }
    }

    // Whether a tail is met from the rest of a key.
    fn meets(self, tail: &Tail, rest: &[u8]) -> bool
        requires { IsText rest.now }
        ensures { result ≡ is_beyond self.itself (along_bytes self.side rest.now tail.now.0) }
    {
        match self.side.order(rest, tail) {
            Ordering::Less => true,
            Ordering::Equal => self.itself,
            Ordering::Greater => false,
        }
    }
}

impl Arena {
    // Puts the neighbour of a holder's key in its place, and answers its value and where it stands; where there is none
    // the key stays. A key for which the holder has no room leaves it with the length alone.
    // Within its callers, so that the holder is theirs to keep in registers.
    #[inline(always)]
    pub fn neighbour<K: KeyHolder>(&self, look: Look, key: &mut K) -> Option<Scanned>
        requires is_arena { IsArena self.now }
        requires whole { K.IsWhole key.old }
        requires without_zero { All (λ byte. byte ≢ 0) (K.bytes key.old) }
        ensures is_text { IsText (K.bytes key.old) }
        ensures within { length (K.bytes key.old) ≤ K.room key.old }
        ensures found { WasGiven K.has key.new
            (IsScanned look (world_of self.now) (K.bytes key.old) result) }
        ensures beyond { StaysBeyond K.len K.beyond key.old key.new }
    {
        let turn = self.turn(look, key.as_slice())?;
        key.cut(turn.depth);
        self.follow(look, turn, key)
    }

    // The same at the front of a buffer that the neighbour fits, where the key has so many bytes; behind it the buffer
    // stays.
    pub fn nearest_in(&self, look: Look, buffer: &mut [u8], len: &mut usize) -> Option<Scanned>
        requires is_arena { IsArena self.now }
        requires inside { len.old ≤ length buffer.old }
        requires room { IfSome
            (neighbour_along look.side look.itself (map_of self.now) (take len.old buffer.old))
            (λ found. length found ≤ length buffer.old) }
        requires without_zero { All (λ byte. byte ≢ 0) (take len.old buffer.old) }
        ensures key { IsFront (nearest_key look (map_of self.now) (take len.old buffer.old))
            buffer.old len.new buffer.new }
        ensures value { value_in result ≡ value_found (map_of self.now)
            (neighbour_along look.side look.itself (map_of self.now) (take len.old buffer.old)) }
        ensures stands { StandsAt (world_of self.now) (take len.new buffer.new) result }
    {
        let mut key = KeyFront::new(buffer, *len);
        let found = self.neighbour(look, &mut key);
        *len = key.len();
        found
    }

    // How many bytes the neighbour of a key has.
    pub fn neighbour_len(&self, look: Look, key: &[u8]) -> Option<usize>
        requires is_arena { IsArena self.now }
        requires without_zero { All (λ byte. byte ≢ 0) key.now }
        ensures { result ≡ option_map length
            (neighbour_along look.side look.itself (map_of self.now) key.now) }
    {
        let turn = self.turn(look, key)?;
        let mut measure = Measure { len: turn.depth };
        match self.follow(look, turn, &mut measure) {
            Some(_) => Some(measure.len),
            None => None,
        }
    }

    // The entry behind which the neighbour of the key stands.
    // Within its callers: a look above is then one call, whose answer is theirs and isn't copied.
    #[inline(always)]
    pub fn turn(&self, look: Look, key: &[u8]) -> Option<Turn>
        requires is_arena { IsArena self.now }
        requires without_zero { All (λ byte. byte ≢ 0) key.now }
        ensures is_text { IsText key.now }
        ensures is_turn { IsTurn look (world_of self.now) key.now result }
    {
        if let Side::Below = look.side {
            if let Some(turn) = self.last_turn(look, key) {
                return Some(turn);
            }
        }
        self.any_turn(look, key)
    }

    // The same, where the last level on its way has it: each level is asked once, and the last one once more where it
    // leads to a tail that isn't met. To a look above a level tells both at once, so that it needs none of this.
    #[inline(never)]
    #[tactic(auto, using(crate::proofs::lemmas::pieces::PieceLemmas::text_from_bytes))]
    fn last_turn(&self, look: Look, key: &[u8]) -> Option<Turn>
        requires is_arena { IsArena self.now }
        requires without_zero { All (λ byte. byte ≢ 0) key.now }
        ensures is_text { IsText key.now }
        ensures is_turn { IfSome result (IsTurnOf look (world_of self.now) key.now) }
    {
        let mut level = &self.root;
        let mut child = None;
        let mut rest = key;
        let mut piece = fresh_piece(rest);
        while rest.len() >= 8 {
            let depth = key.len() - rest.len();
            let Some(entry) = look.side.from(level, piece) else {
                return None;
            };
            let apart = entry.0 != piece;
            if apart {
                return nearer(child, Some(entry), depth, None);
            }
            rest = &rest[8..];
            match self.child(entry.1) {
                ChildRef::Level(next) => {
                    level = next;
                    child = Some(entry.1);
                    piece = first_piece(rest);
                }
                ChildRef::Tail(tail) => {
                    let met = look.meets(&tail, rest);
                    return if met {
                        nearer(child, Some(entry), depth, None)
                    } else {
                        nearer(child, look.side.beyond(level, piece), depth, None)
                    };
                }
            }
        }
        nearer(
            child,
            look.last_entry(level, piece),
            key.len() - rest.len(),
            None,
        )
    }

    // The same, on whichever level of its way it is: each is asked for the piece and for what is beyond it.
    #[tactic(auto, using(crate::proofs::lemmas::pieces::PieceLemmas::text_from_bytes))]
    fn any_turn(&self, look: Look, key: &[u8]) -> Option<Turn>
        requires is_arena { IsArena self.now }
        requires without_zero { All (λ byte. byte ≢ 0) key.now }
        ensures is_text { IsText key.now }
        ensures is_turn { IsTurn look (world_of self.now) key.now result }
    {
        let mut level = &self.root;
        let mut child = None;
        let mut rest = key;
        let mut piece = fresh_piece(rest);
        let mut turn = None;
        while rest.len() >= 8 {
            let depth = key.len() - rest.len();
            let (found, beyond) = look.side.around(level, piece);
            turn = nearer(child, beyond, depth, turn);
            rest = &rest[8..];
            let Some(at) = found else {
                return turn;
            };
            match self.child(at) {
                ChildRef::Level(next) => {
                    level = next;
                    child = Some(at);
                    piece = first_piece(rest);
                }
                ChildRef::Tail(tail) => {
                    let met = look.meets(&tail, rest);
                    return if met {
                        nearer(child, Some((piece, at)), depth, turn)
                    } else {
                        turn
                    };
                }
            }
        }
        nearer(
            child,
            look.last_entry(level, piece),
            key.len() - rest.len(),
            turn,
        )
    }

    // Writes the first of the keys behind the entry, where the writer has the bytes before that, and answers its value
    // and where it stands.
    // There is one: an entry leads to a tail, or to a level with entries.
    fn follow<K: KeyWriter>(&self, look: Look, turn: Turn, key: &mut K) -> Option<Scanned>
        requires is_arena { IsArena self.now }
        requires begun { (from : List ℕ)
            × IsBegun look (world_of self.now) turn K.has key.old from }
        ensures found { (from : List ℕ)
            → IsBegun look (world_of self.now) turn K.has key.old from
            → WasGiven K.has key.new (IsScanned look (world_of self.now) from result) }
        ensures beyond { StaysBeyond K.len K.beyond key.old key.new }
    {
        let mut child = turn.child;
        let mut piece = turn.piece;
        let mut value = turn.value;
        while piece % 256 != 0 {
            push_piece(key, piece);
            match self.child(value) {
                ChildRef::Level(next) => {
                    let entry = look.side.end(next)?;
                    child = Some(value);
                    piece = entry.0;
                    value = entry.1;
                }
                ChildRef::Tail(tail) => {
                    tail.push_to(key);
                    return Some(Scanned {
                        place: Place::Below(value, 0),
                        value: tail.value(),
                    });
                }
            }
        }
        push_each(key, piece);
        Some(Scanned {
            place: place_in(child, piece),
            value,
        })
    }
}

// The turn at the entry where there is one, of the first level or the level of a child, and else the turn before.
fn nearer(
    child: Option<u64>,
    entry: Option<(u64, u64)>,
    depth: usize,
    turn: Option<Turn>,
) -> Option<Turn>
    ensures { result ≡ turn_or child entry depth turn }
{
    match entry {
        Some((piece, value)) => Some(Turn {
            child,
            piece,
            value,
            depth,
        }),
        None => turn,
    }
}
