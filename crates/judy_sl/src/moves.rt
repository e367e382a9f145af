//! How tails go from pages with free places to other such pages, so that the memory of pages that are left goes back.

ghost use Rattle.std.specs.Prelude.{◌≡◌, ◌<◌, ◌≤◌, ◌+◌, ◌*◌, IsFalse};
ghost use Rattle.judy_records.specs.declared.records.TheConstants.{MOST_STEPS};
ghost use Rattle.judy_sl.specs.World.{level};
ghost use Rattle.judy_sl.specs.Arenas.{world_of};
ghost use Rattle.judy_sl.specs.Places.{IsLevelPlace};
ghost use Rattle.judy_sl.specs.Ways.{seat_in, place_in};
ghost use Rattle.judy_sl.specs.Settled.{IsEntry, HasFreeFor, IsKept, IsSettled};

use crate::arena::{Arena, Place, place_in};
use crate::child::{LEVEL, is_level};
use crate::grow::MOST;
use crate::judysl::StringsOf;
use crate::keys::KeyLength;
use judy_model::keys::LONGEST_KEY;
use judy_records::MOST_STEPS;
use judy_word::WordMap;

impl Arena {
    // Puts the tail at a place in once more, leads its entry there, and gives the old place back. A place is free for
    // it, so this asks for no memory.
    fn move_tail(&mut self, from: Place, at: u64)
        requires kept { IsKept self.old }
        requires entry { IsEntry self.old from at }
        requires free { HasFreeFor self.old at }
        ensures { IsSettled self.old self.new }
    {
        let mut buffer = [0; LONGEST_KEY];
        let (value, len) = self.read_tail(at, &mut buffer);
        match self.put_tail(&buffer[..len], value) {
            Ok(to) => {
                self.lead(from, to);
                self.vacate(at);
            }
            Err(_) => unreachable!(),
        }
    }

    // Moves what stands at a place, to which an entry leads, where it is a tail in a spare page, and says whether it
    // was.
    fn settle(&mut self, from: Place, at: u64) -> bool
        requires kept { IsKept self.old }
        requires entry { IsEntry self.old from at }
        ensures { IsSettled self.old self.new }
    {
        if is_level(at) {
            return false;
        }
        if !self.tails.is_spare(at) {
            return false;
        }
        self.move_tail(from, at);
        true
    }

    // The entries of the first level, or of the level of a child.
    pub fn entries_of(&self, child: Option<u64>) -> &WordMap
        requires { IsLevelPlace self.now (place_in child 0) }
        ensures { world_of self.now (seat_in child) ≡ level result.now.map }
    {
        match child {
            None => &self.root,
            Some(at) => self.levels.words((at / 256) as usize),
        }
    }

    // Settles what the entries of a level lead to, one after another: that of the first, or of a child. It says whether
    // a tail was moved.
    fn settle_level(&mut self, child: Option<u64>) -> bool
        requires kept { IsKept self.old }
        requires there { IsLevelPlace self.old (place_in child 0) }
        ensures { IsSettled self.old self.new }
    {
        let entries = self.entries_of(child);
        let count = entries.len();
        let mut next = entries.array().first_entry(0);
        let mut moved = false;
        'entries: for _turn in 0..count {
            let Some((piece, at)) = next else {
                return moved;
            };
            if piece % 256 != 0 {
                moved |= self.settle(place_in(child, piece), at);
            }
            next = self.entries_of(child).array().next_entry(piece);
        }
        moved
    }

    // Settles the tails of all levels: a loop over the levels, and in each over its entries. It says whether one was
    // moved.
    fn settle_all(&mut self) -> bool
        requires kept { IsKept self.old }
        ensures { IsSettled self.old self.new }
    {
        let mut moved = self.settle_level(None);
        let end = self.levels.places().min(MOST);
        'levels: for index in 0..end {
            if self.levels.has(index) {
                moved |= self.settle_level(Some(index as u64 * 256 + LEVEL));
            }
        }
        moved
    }

    // Gives back the places of levels behind the last one.
    fn trim_levels(&mut self)
        requires kept { IsKept self.old }
        ensures { IsSettled self.old self.new }
    {
        self.levels.trim();
    }

    // The same where a walk over its keys, of which there are `count`, and over the places of its levels takes at most
    // `MOST_STEPS` for each key that has gone since the last one. So calls that are refused memory one after another,
    // with few keys taken out between them, take no walk each.
    #[cold]
    #[inline(never)]
    pub fn settle_again(&mut self, count: u64, gone: &mut u64) -> bool
        requires kept { IsKept self.old }
        ensures settled { IsSettled self.old self.new }
        ensures dear { MOST_STEPS * gone.old < count
            → (self.new ≡ self.old) × (gone.new ≡ gone.old) × IsFalse result }
        ensures due { count + self.old.levels.capacity ≤ MOST_STEPS * gone.old → gone.new ≡ 0 }
    {
        let steps = count.saturating_add(self.levels.capacity() as u64);
        if steps > gone.saturating_mul(MOST_STEPS) {
            return false;
        }
        *gone = 0;
        self.settle_all()
    }
}

impl<L: KeyLength> StringsOf<L> {
    /// Gives back memory that deletes have left unused: what is left of keys moves together, so that pages become empty
    /// and go. It reads each entry of each level once, and can't fail; each key keeps its value. Of each length of what
    /// is left of keys at most one page has free places then. The list of the levels gives back its places behind the
    /// last one: that it be made smaller is all that is asked of memory, and where this is refused it stays. (This
    /// project's own.)
    pub fn shrink(&mut self)
        ensures { self.new ≡ self.old }
    {
        self.gone = 0;
        self.arena.settle_all();
        self.arena.trim_levels();
    }

    /// Whether, since its keys were last moved together, a quarter as many have gone as are left: then a copy of the
    /// array takes far less memory than the array. No answer of the array depends on it. (This project's own.)
    pub fn lost_many(&self) -> bool {
        self.gone >= self.len() / 4
    }
}
