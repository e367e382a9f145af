//! The levels that a way passes, where whoever goes it wants to know them: by their places, or by their number alone.

ghost use Rattle.std.specs.Prelude.{◌≡◌, ◌<◌, ◌≤◌, ◌↔◌, ℕ, IsTrue, List, [], ◌∷◌, ◌++◌, length, take};
ghost use Rattle.judy_sl.specs.Noted.{AreNoted};

use arrayvec::ArrayVec;
use judy_model::keys::LONGEST_KEY;

// The places of the levels below the first on the way of a key: one for each whole piece at most.
pub type Passed<const N: usize> = ArrayVec<u64, N>;

// How many places are kept of a key of at most 1,024 bytes.
pub const MOST_PIECES: usize = LONGEST_KEY / 8;

// The same of a key of a usual length. A list is filled with zeros where it is made, so for such keys a short one is.
pub const FEW_PIECES: usize = 16;

// Whether bytes have no more whole pieces than that.
pub fn are_few(key: &[u8]) -> bool
    ensures { IsTrue result ↔ (length key.now < 136) }
{
    key.len() < 8 * FEW_PIECES + 8
}

// Whether the list of 128 places is long enough for bytes.
pub fn are_listed(key: &[u8]) -> bool
    ensures { IsTrue result ↔ (length key.now < 1032) }
{
    key.len() < 8 * MOST_PIECES + 8
}

// Levels that a way has passed: their places, or how many they are, and then another way down finds them.
#[derive(Clone, Copy)]
pub enum Noted<'a> {
    Places(&'a [u64]),
    Count(usize),
}

// What is told of the levels below the first that a way passes.
pub trait Notes {
    // It was told of levels at these places, one after the other.
    ghost has: { Self → List ℕ → Type 0 };

    // Takes note of the level at a place.
    fn note(&mut self, at: u64)
        ensures { (places : List ℕ) → has self.old places → has self.new (places ++ at ∷ []) };
}

// Notes by which a key is counted at all levels that it passes, where these are no more than the notes are for.
pub trait LevelNotes: Notes {
    // They are for so many levels.
    ghost most: { ℕ };

    // Notes of no level.
    fn none() -> Self
        ensures { Self.has result [] };

    // Keeps note of the first levels alone.
    fn keep_first(&mut self, count: usize)
        ensures { (places : List ℕ) → length places ≤ most → Self.has self.old places
            → Self.has self.new (take count places) };

    // The levels.
    fn noted(&self) -> Noted<'_>
        ensures { (places : List ℕ) → length places ≤ most → Self.has self.now places
            → AreNoted result places };
}

// All places are kept, where the list has room for so many.
impl<const N: usize> Notes for ArrayVec<u64, N> {
    ghost has = { λ passed places. length places ≤ N → passed.items ≡ places };

    fn note(&mut self, at: u64) {
        let _ = self.try_push(at);
    }
}

impl<const N: usize> LevelNotes for ArrayVec<u64, N> {
    ghost most = { N };

    fn none() -> Self {
        ArrayVec::new()
    }

    fn keep_first(&mut self, count: usize) {
        self.truncate(count);
    }

    fn noted(&self) -> Noted<'_> {
        Noted::Places(self.as_slice())
    }
}

// How many levels there are, for keys of any length: none has 2^60 whole pieces.
#[derive(Drop)]
pub struct Number(usize);

impl Notes for Number {
    ghost has = { λ passed places. length places ≤ 1152921504606846975
        → passed.0 ≡ length places };

    fn note(&mut self, at: u64) {
        let _ = at;
        self.0 = self.0.saturating_add(1);
    }
}

impl LevelNotes for Number {
    ghost most = { 1152921504606846975 };

    fn none() -> Self {
        Number(0)
    }

    fn keep_first(&mut self, count: usize) {
        self.0 = self.0.min(count);
    }

    fn noted(&self) -> Noted<'_> {
        Noted::Count(self.0)
    }
}

// None is kept.
impl Notes for () {
    ghost has = { λ passed places. Unit {0} };

    fn note(&mut self, at: u64) {
        let _ = at;
    }
}
