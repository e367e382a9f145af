//! The neighbours of a key, and where a scan looks for them.

ghost use Rattle.std.specs.Prelude.{◌≡◌, ◌≢◌, ◌≤◌, true, false, IfSome, All, unwrap_or, length, take};
ghost use Rattle.std.specs.FinMap as map;
ghost use Rattle.std.specs.Option.{option_map};
ghost use Rattle.judy_model.specs.Neighbours as neighbours;
ghost use Rattle.judy_sl.specs.Scans.{look_to, upward, neighbour_along, value_found, nearest_key, IsFront};

use crate::arena::Place;
use crate::judysl::{JudySl, StringsOf};
use crate::keys::{KeyBuf, KeyLength};
use judy_tails::KeyEnd;

/// On which side of a key its neighbour is sought.
#[derive(Clone, Copy)]
pub enum Side {
    /// Among the greater keys: the least of them.
    Above,
    /// Among the smaller keys: the greatest of them.
    Below,
}

/// Where a scan looks, as [`StringsOf::neighbour_in`] is asked.
#[derive(Clone, Copy)]
pub struct Look {
    /// On which side of the key.
    pub side: Side,
    /// Whether the key itself counts, where the array holds it.
    pub itself: bool,
}

// An entry, a piece and its value, of the first level or the level of a child, behind so many bytes of a key: a scan's
// answer is the first of the keys behind it.
#[derive(Clone, Copy)]
pub struct Turn {
    pub child: Option<u64>,
    pub piece: u64,
    pub value: u64,
    pub depth: usize,
}

// The value of the key that a scan found, and where it stands.
#[derive(Clone, Copy)]
pub struct Scanned {
    pub place: Place,
    pub value: u64,
}

impl Look {
    /// To a side, where the key itself counts: the scans First and Last of the manual.
    pub fn inclusive(side: Side) -> Look
        ensures { result ≡ look_to side true }
    {
        Look { side, itself: true }
    }

    /// To a side, where it doesn't: the scans Next and Prev of the manual.
    pub fn exclusive(side: Side) -> Look
        ensures { result ≡ look_to side false }
    {
        Look {
            side,
            itself: false,
        }
    }

    // Above a key, where the key itself counts or doesn't.
    pub(crate) fn upward(itself: bool) -> Look
        ensures { result ≡ upward itself }
    {
        Look {
            side: Side::Above,
            itself,
        }
    }
}

impl JudySl {
    /// The value of the least key from the one in the buffer on, that key itself where it is there; the key found is
    /// then in the buffer. `None` where no key is left, and the buffer stays. The buffer holds no zero byte; what it
    /// holds needn't be a key of the array. It asks for no memory. (Manual: JSLF, JudySLFirst.)
    pub fn first(&self, key: &mut KeyBuf) -> Option<u64>
        requires { All (λ byte. byte ≢ 0) key.old.items }
        ensures key { key.new.items
            ≡ unwrap_or (neighbours.first self.now.map key.old.items) key.old.items }
        ensures value { result
            ≡ value_found self.now.map (neighbours.first self.now.map key.old.items) }
    {
        self.nearest(Look::inclusive(Side::Above), key)
    }

    /// The value of the least key above the one in the buffer; the key found is then in the buffer. `None` where no
    /// key is above it, and the buffer stays. The buffer holds no zero byte; what it holds needn't be a key of the
    /// array. It asks for no memory. (Manual: JSLN, JudySLNext.)
    pub fn next(&self, key: &mut KeyBuf) -> Option<u64>
        requires { All (λ byte. byte ≢ 0) key.old.items }
        ensures key { key.new.items
            ≡ unwrap_or (neighbours.next self.now.map key.old.items) key.old.items }
        ensures value { result
            ≡ value_found self.now.map (neighbours.next self.now.map key.old.items) }
    {
        self.nearest(Look::exclusive(Side::Above), key)
    }

    /// The value of the greatest key up to the one in the buffer, that key itself where it is there; the key found
    /// is then in the buffer. `None` where each key is above it, and the buffer stays. The buffer holds no zero byte;
    /// what it holds needn't be a key of the array. It asks for no memory. (Manual: JSLL, JudySLLast.)
    pub fn last(&self, key: &mut KeyBuf) -> Option<u64>
        requires { All (λ byte. byte ≢ 0) key.old.items }
        ensures key { key.new.items
            ≡ unwrap_or (neighbours.last self.now.map key.old.items) key.old.items }
        ensures value { result
            ≡ value_found self.now.map (neighbours.last self.now.map key.old.items) }
    {
        self.nearest(Look::inclusive(Side::Below), key)
    }

    /// The value of the greatest key below the one in the buffer; the key found is then in the buffer. `None` where
    /// no key is below it, and the buffer stays. The buffer holds no zero byte; what it holds needn't be a key of the
    /// array. It asks for no memory. (Manual: JSLP, JudySLPrev.)
    pub fn prev(&self, key: &mut KeyBuf) -> Option<u64>
        requires { All (λ byte. byte ≢ 0) key.old.items }
        ensures key { key.new.items
            ≡ unwrap_or (neighbours.prev self.now.map key.old.items) key.old.items }
        ensures value { result
            ≡ value_found self.now.map (neighbours.prev self.now.map key.old.items) }
    {
        self.nearest(Look::exclusive(Side::Below), key)
    }

    // Puts the neighbour of the key into the buffer that holds the key, and answers its value; where there is none the
    // buffer stays.
    fn nearest(&self, look: Look, key: &mut KeyBuf) -> Option<u64>
        requires { All (λ byte. byte ≢ 0) key.old.items }
        ensures key { key.new.items ≡ nearest_key look self.now.map key.old.items }
        ensures value { result ≡ value_found self.now.map
            (neighbour_along look.side look.itself self.now.map key.old.items) }
    {
        let mut end = KeyEnd::new(key);
        match self.arena.neighbour(look, &mut end) {
            Some(found) => Some(found.value),
            None => None,
        }
    }
}

impl<L: KeyLength> StringsOf<L> {
    /// The value of the neighbour of the key at the front of a buffer, which has `len` bytes; the neighbour then stands
    /// there, and `len` is its length. `None` where there is none, and both stay. The buffer has room for the
    /// neighbour: [`StringsOf::neighbour_len`] tells how much that is, and [`StringsOf::longest`] how much is always
    /// enough. What the buffer has behind the neighbour stays. The key holds no zero byte, and needn't be one of the
    /// array. It asks for no memory. (This project's own: a scan that writes no byte twice.)
    ///
    /// It searches a level for each eight bytes of the key, as far as there are levels, and then one for each eight
    /// bytes of the neighbour behind those that both begin with.
    ///
    ///     let mut buffer = [0; 1024];
    ///     buffer[..5].copy_from_slice(b"apple");
    ///     let mut len = 5;
    ///     let price = prices.neighbour_in(Look::exclusive(Side::Above), &mut buffer, &mut len);
    ///     // price == Some(45), and &buffer[..len] == b"fig"
    pub fn neighbour_in(&self, look: Look, buffer: &mut [u8], len: &mut usize) -> Option<u64>
        requires inside { len.old ≤ length buffer.old }
        requires room { IfSome
            (neighbour_along look.side look.itself self.now.map (take len.old buffer.old))
            (λ found. length found ≤ length buffer.old) }
        requires without_zero { All (λ byte. byte ≢ 0) (take len.old buffer.old) }
        ensures key { IsFront (nearest_key look self.now.map (take len.old buffer.old))
            buffer.old len.new buffer.new }
        ensures value { result ≡ value_found self.now.map
            (neighbour_along look.side look.itself self.now.map (take len.old buffer.old)) }
    {
        match self.arena.nearest_in(look, buffer, len) {
            Some(found) => Some(found.value),
            None => None,
        }
    }

    /// How many bytes the neighbour of a key has, and `None` where there is none: the room that the same search wants.
    /// The key holds no zero byte, and needn't be one of the array. It costs what [`StringsOf::neighbour_in`] does, and
    /// asks for no memory. (This project's own.)
    ///
    ///     names.neighbour_len(Look::exclusive(Side::Above), b"apple")        // Some(3) where "fig" comes next
    pub fn neighbour_len(&self, look: Look, key: &[u8]) -> Option<usize>
        requires { All (λ byte. byte ≢ 0) key.now }
        ensures { result ≡ option_map length
            (neighbour_along look.side look.itself self.now.map key.now) }
    {
        self.arena.neighbour_len(look, key)
    }
}
