//! What every array keeps, whatever was left in its slots: its levels and tails are read, each value once.

ghost use Rattle.std.specs.Prelude.{◌≡◌, ℕ, List, Some};
ghost use Rattle.std.specs.FinMap.{get};
ghost use Rattle.judy_model.specs.Arrays as array;
ghost use Rattle.judy_sl.specs.Arenas.{world_of};
ghost use Rattle.judy_sl.specs.Words.{HasWords};

use crate::arena::Arena;
use crate::judysl::StringsOf;
use crate::keys::KeyLength;

impl Arena {
    // The values of all seats are words.
    fn words_law(&self)
        ensures { (seat : ℕ) → HasWords (world_of self.now seat) }
    {
        self.root.array_law();
        self.tails.law();
        self.levels.law();
    }
}

impl<L: KeyLength> StringsOf<L> {
    /// A law of every array that a program holds, whatever was left in its slots: its limit and values are words, its
    /// keys strings of at most `L::LONGEST` bytes without a zero byte, and it holds at most as many keys as its limit.
    /// It answers nothing and reads each value, for a caller whose proof is to know it.
    pub fn array_law(&self)
        ensures { array.IsArrayOf L.IsKey self.now }
    {
        self.arena.words_law();
    }

    /// A law of every array that a program holds: its keys are strings without a zero byte. It answers nothing and
    /// reads nothing, for a caller whose proof is to know it.
    pub fn strings_law(&self)
        ensures { (key : List ℕ) (value : ℕ) → get self.now.map key ≡ Some value → L.IsKey key }
    {
        let _arena = &self.arena;
    }
}
